//! Where the incompatibilities come from, so that what they say can be derived again.

use crate::look_ups::index_of;
use crate::stop::Stop;
use terms::Pkg;

/// Where an incompatibility comes from.
#[derive(Clone, Copy)]
pub enum Origin {
    /// The need with this index.
    Need(usize),
    /// The dependency at this index of a version, and of all that share it.
    Dependency {
        pkg: Pkg,
        ordinal: u32,
        index: usize,
    },
    /// The member in this place of the store.
    Member(u32),
    /// It ties a page to the one before, and says nothing about versions (`pages.rt` of crate `engine`).
    Page,
    /// A conflict, that is an incompatibility, and these steps.
    Learnt {
        conflict: u32,
        first: u32,
        end: u32,
    },
}

/// A step from a conflict to what was learnt of it.
#[derive(Clone, Copy)]
pub enum Step {
    /// It was resolved with an incompatibility, on a package.
    Resolved { with: u32, on: u32 },
    /// The term on a package was left out, since level 0 satisfies it from an entry on; from the
    /// beginning, where there is none.
    LeftOut { on: u32, since: Option<u32> },
}

/// Keeps the steps by which something was learnt of a conflict.
pub fn learnt_from(kept: &mut Vec<Step>, conflict: u32, steps: &[Step]) -> Result<Origin, Stop> {
    let first = index_of(kept.len())?;
    kept.extend_from_slice(steps)?;
    let end = index_of(kept.len())?;
    Ok(Origin::Learnt {
        conflict,
        first,
        end,
    })
}
