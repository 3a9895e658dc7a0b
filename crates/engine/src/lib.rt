//! A conflict-driven search whose word nobody takes: the walk checks what it selects, and the checker what shows that
//! there is no selection. It is proved to be safe and to end, and nothing else.
#![tactic(auto)]

mod cited;
mod deciding;
mod engine;
mod engine_oracle;
mod entering;
mod meeting;
mod members;
mod opening;
mod pages;
mod plain;
mod ruling;
mod trace;
mod turn;
mod verdict;
mod view;
mod workspace;

pub use engine::Engine;
pub use engine_oracle::EngineOracle;
pub use workspace::Workspace;
