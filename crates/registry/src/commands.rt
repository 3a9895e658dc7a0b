//! Commands.

ghost use Rattle.std.specs.Prelude.{◌≡◌, IfErr, IfOk};

use crate::dependencies::Dependencies;
use std::alloc::AllocError;
use versions::{Name, Published, Refusal};

/// A change of the registry that is asked for.
#[derive(Drop)]
pub enum Command {
    /// Publishes a version of a package, with what it depends on. It is permanent.
    Publish(Name, Published, Dependencies),
    /// Yanks the version of equal precedence. It stays, but only a lock can take it (the Cargo
    /// Book, "cargo yank").
    Yank(Name, Published),
    /// Undoes a yank.
    Unyank(Name, Published),
}

impl Clone for Command {
    ghost is_clone = { λ command copy. copy ≡ command };

    fn clone(&self) -> Result<Command, AllocError> {
        match self {
            Command::Publish(name, version, needs) => Ok(Command::Publish(
                name.clone()?,
                version.clone()?,
                needs.clone()?,
            )),
            Command::Yank(name, version) => Ok(Command::Yank(name.clone()?, version.clone()?)),
            Command::Unyank(name, version) => Ok(Command::Unyank(name.clone()?, version.clone()?)),
        }
    }
}

impl Command {
    /// An equal command, which shares its texts and its list of dependencies with this one. The only error is
    /// [`Refusal::NoMemory`].
    pub fn copy(&self) -> Result<Command, Refusal>
        ensures same { IfOk result (λ command. command ≡ self.now) }
        ensures only { IfErr result (λ e. e ≡ Refusal.NoMemory) }
    {
        Ok(self.clone()?)
    }
}
