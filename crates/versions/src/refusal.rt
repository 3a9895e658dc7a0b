//! The refusals of the whole product.
ghost use Rattle.std.specs.Prelude.{◌≡◌};
ghost use Rattle.versions.specs.Refusals.{name_of, number_of};
ghost use Rattle.versions.specs.declared.refusal.Refusal.TheVariants.{NoMemory};

use std::alloc::{AllocError, AllocFailed};

/// Why a call is refused. A discriminant is the number by which replies name the refusal.
///
/// Where several apply, a call answers the lowest number; [`Refusal::NoMemory`] is apart from
/// this order, as it can come of any call that allocates. No refusal changes what it was asked of.
#[derive(Clone, Copy, PartialEq, Eq, Debug)]
pub enum Refusal {
    /// A text is no package name.
    BadName = 1,
    /// A text is no version, or is too long for one.
    BadVersion = 2,
    /// A text is no requirement, or is too long for one.
    BadRequirement = 3,
    /// A dependency, a need of a request or a line of a lock names a package for the second time.
    RepeatedDependency = 4,
    /// A version depends on its own package.
    SelfDependency = 5,
    /// A version has too many dependencies, or a request too many needs or lock lines.
    TooManyDependencies = 6,
    /// The package has a version of equal precedence.
    AlreadyPublished = 7,
    /// The package has as many versions as one may have.
    TooManyVersions = 8,
    /// More package names would be numbered than may be.
    TooManyPackages = 9,
    /// The journal has no place for a further command.
    JournalFull = 10,
    /// A yank or an unyank finds no published version of equal precedence.
    NoSuchVersion = 11,
    /// A yank finds its version yanked.
    AlreadyYanked = 12,
    /// An unyank finds its version not yanked.
    NotYanked = 13,
    /// A premise of an incompatibility that is to be learnt does not stand in the registry.
    Stale = 14,
    /// An incompatibility that is to be learnt is in the store.
    Known = 15,
    /// The store has as many incompatibilities as it may have.
    StoreFull = 16,
    /// A cell of the journal shows the caller's own seat on an entry that the caller did not make.
    Stray = 17,
    /// Memory was refused.
    NoMemory = 18,
    /// A line or a file is not of its format.
    BadLine = 19,
    /// A derivation that is to be learnt has too many lines.
    TooLong = 20,
    /// What is to be learnt has no lines, a line that does not follow, or a cause that may not be learnt.
    NotADerivation = 21,
    /// The search met one conflict more than the budget allows.
    BudgetSpent = 22,
}

impl Refusal {
    /// The number by which replies tell the refusal, from 1 to 22.
    pub fn number(self) -> u8
        ensures { result ≡ number_of self }
    {
        self as u8
    }

    /// The name that replies give beside the number.
    pub fn name(self) -> &'static str
        ensures { result.now ≡ name_of self }
    {
        match self {
            Refusal::BadName => "BadName",
            Refusal::BadVersion => "BadVersion",
            Refusal::BadRequirement => "BadRequirement",
            Refusal::RepeatedDependency => "RepeatedDependency",
            Refusal::SelfDependency => "SelfDependency",
            Refusal::TooManyDependencies => "TooManyDependencies",
            Refusal::AlreadyPublished => "AlreadyPublished",
            Refusal::TooManyVersions => "TooManyVersions",
            Refusal::TooManyPackages => "TooManyPackages",
            Refusal::JournalFull => "JournalFull",
            Refusal::NoSuchVersion => "NoSuchVersion",
            Refusal::AlreadyYanked => "AlreadyYanked",
            Refusal::NotYanked => "NotYanked",
            Refusal::Stale => "Stale",
            Refusal::Known => "Known",
            Refusal::StoreFull => "StoreFull",
            Refusal::Stray => "Stray",
            Refusal::NoMemory => "NoMemory",
            Refusal::BadLine => "BadLine",
            Refusal::TooLong => "TooLong",
            Refusal::NotADerivation => "NotADerivation",
            Refusal::BudgetSpent => "BudgetSpent",
        }
    }
}

impl From<AllocError> for Refusal {
    ghost from_gives = { λ _ e. e ≡ NoMemory };

    fn from(_refused: AllocError) -> Refusal {
        Refusal::NoMemory
    }
}

impl<T: Drop> From<AllocFailed<T>> for Refusal {
    ghost from_gives = { λ _ e. e ≡ NoMemory };

    fn from(_refused: AllocFailed<T>) -> Refusal {
        Refusal::NoMemory
    }
}
