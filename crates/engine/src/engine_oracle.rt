//! The engine as an oracle.

use crate::engine::Engine;
use crate::workspace::Workspace;
use oracle::{Claim, Oracle, Task, Trace};
use propagation::Stop;

/// The engine, which is made once it is asked.
#[derive(Drop)]
pub struct EngineOracle<'a> {
    task: Task<'a>,
    engine: Option<Engine<'a>>,
    /// What the engine is to be made of.
    workspace: Option<Workspace>,
}

impl<'a> EngineOracle<'a> {
    /// An engine that is to be asked this, and stops at the first conflict beyond the budget. It costs nothing until it
    /// is asked.
    pub fn new(task: Task<'a>) -> EngineOracle<'a> {
        EngineOracle {
            task,
            engine: None,
            workspace: None,
        }
    }

    /// As [`EngineOracle::new`], in what earlier engines handed on.
    pub fn in_workspace(task: Task<'a>, workspace: Workspace) -> EngineOracle<'a> {
        EngineOracle {
            task,
            engine: None,
            workspace: Some(workspace),
        }
    }

    /// What the next engine is handed.
    pub fn into_workspace(self) -> Workspace {
        let EngineOracle {
            task,
            engine,
            workspace,
        } = self;
        match (engine, workspace) {
            (Some(engine), _) => engine.into_workspace(),
            (None, Some(workspace)) => workspace,
            (None, None) => Workspace::new(task.alloc),
        }
    }
}

impl Oracle for EngineOracle<'_> {
    fn search(&mut self) -> Result<Claim, Stop> {
        let workspace = match self.workspace.take() {
            Some(workspace) => workspace,
            None => Workspace::new(self.task.alloc),
        };
        let mut engine = Engine::new(&self.task, workspace);
        let found = engine.search();
        self.engine = Some(engine);
        found
    }

    fn search_newest(&mut self) -> Result<Trace, Stop> {
        match &mut self.engine {
            None => Err(Stop::Lost),
            Some(engine) => engine.search_newest(),
        }
    }

    fn conflicts(&self) -> u32 {
        match &self.engine {
            None => 0,
            Some(engine) => engine.conflicts(),
        }
    }
}
