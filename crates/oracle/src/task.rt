//! What is to be solved.

use crate::options::Options;
use registry::{Registry, Request};
use std::alloc::Global;
use store::Store;
use terms::Pkg;
use versions::Published;

/// A request to a registry, with what is stored of earlier ones, and how it is to be answered.
#[derive(Clone, Copy)]
pub struct Task<'a> {
    pub alloc: Global,
    pub registry: &'a Registry,
    pub request: &'a Request,
    pub store: &'a Store,
    pub options: Options,
}

impl<'a> Task<'a> {
    /// The version of a package that the lock names.
    pub fn locked_version(&self, pkg: Pkg) -> Option<&'a Published> {
        // Most requests have no lock, and then no name is looked up.
        if self.request.lock().is_empty() {
            return None;
        }
        self.request.locked(self.registry.name_at(pkg)?)
    }
}
