//! Where a registry keeps what a dependency names.

ghost use Rattle.std.specs.Prelude.{◌≡◌, ◌+◌, IfSome};

use crate::Pkg;

/// Where the name and the requirement of a dependency stand: the number of the package, and the index of the
/// requirement among those that are named on the package.
#[derive(Clone, Copy)]
pub struct Place {
    pub target: Pkg,
    pub need: u32,
}

impl Place {
    /// No package has this number, so that nothing stands here.
    pub(crate) fn nowhere() -> Place {
        Place { target: 0, need: 0 }
    }

    /// The place of the name at an index, and of the requirement at another: nowhere where one of them needs more than
    /// 32 bits.
    pub(crate) fn new(name: usize, need: usize) -> Place {
        let most = u32::MAX as usize;
        if name >= most || need > most {
            return Place::nowhere();
        }
        Place {
            target: name as u32 + 1,
            need: need as u32,
        }
    }

    /// The index of the name, where there is one.
    pub(crate) fn name(self) -> Option<usize>
        ensures { IfSome result (λ index. self.target ≡ index + 1) }
    {
        (self.target as usize).checked_sub(1)
    }
}
