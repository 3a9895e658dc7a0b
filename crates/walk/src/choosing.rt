//! What is chosen, and what is left of packages.
//
// Of each package that is needed it is kept which of its versions are left: each selection that meets the
// request and has the versions that are chosen has one of these.

ghost use Rattle.std.specs.Prelude.{◌≡◌, ℕ, List, [], ◌∷◌, slice_get, Some, IfOk, IfSome, OnOk};
ghost use Rattle.releases.specs.Matching.{ordinals_of};
ghost use Rattle.terms.specs.declared.term.Term.TheVariants.{In, NotIn};
ghost use Rattle.registry.specs.Registry.{Packages};
ghost use Rattle.registry.specs.Requests.{Wanted};
ghost use Rattle.walk.specs.Best.{Holds, Narrows, Pushes};
ghost use Rattle.walk.specs.Newest.{OfEach};
ghost use Rattle.walk.specs.Left.{term_of};
ghost use Rattle.walk.specs.declared.choosing.Needed.{Needed};

use crate::choice_map::{ChoiceMap, WALK_ROOM};
use crate::dependents::Dependents;
use crate::left::Left;
use crate::package_table::PackageTable;
use registry::{Matching, Pkg};
use std::alloc::{AllocError, Global};
use terms::{LowSet, Term};

/// For how much of what is left room is made at first.
/// Measured at half and at twice this value: docs/BENCHMARKS.md, Constants.
const NEEDED_ROOM: usize = 512;

/// A package that is needed.
#[derive(Drop)]
pub(crate) struct Needed {
    pub(crate) pkg: Pkg,
    /// The versions of it that are left.
    pub(crate) left: Left,
    /// The index of the package before. Nothing rests on it.
    pub(crate) before: Option<u32>,
}

/// What is chosen, and what is left.
#[derive(Drop)]
pub(crate) struct Choosing {
    /// The chosen versions, in the order of the walk.
    pub(crate) found: ChoiceMap,
    /// The packages that lines name: the needs by name, and what each chosen version depends on.
    pub(crate) asked: Vec<Pkg>,
    /// What is left of packages that are needed. Of those that name one package the last counts.
    pub(crate) needed: Vec<Needed>,
    /// By package its index among those. Nothing rests on it.
    pub(crate) numbers: PackageTable,
    /// Packages that are needed, and not looked at yet for what all their versions depend on, or the only one that is
    /// left.
    pub(crate) fresh: Vec<Pkg>,
    /// How much of what is left was taken back, and by how many versions. Nothing rests on them.
    pub(crate) taken: usize,
    pub(crate) ruled_out: usize,
    /// Which versions depend on packages, if versions are taken away by what is left of these. Nothing rests on it.
    pub(crate) dependents: Option<Dependents>,
}

impl Choosing {
    /// Nothing is chosen. Room is made for as much as most requests need.
    pub(crate) fn new(alloc: Global) -> Result<Choosing, AllocError>
        ensures { IfOk result (λ c. (c.found.entries ≡ []) × (c.asked.items ≡ []) × (c.needed.items ≡ []) × (c.fresh.items ≡ [])) }
    {
        Ok(Choosing {
            found: ChoiceMap::new(alloc)?,
            asked: Vec::with_capacity(alloc, WALK_ROOM)?,
            needed: Vec::with_capacity(alloc, NEEDED_ROOM)?,
            numbers: PackageTable::new(alloc)?,
            fresh: Vec::with_capacity(alloc, WALK_ROOM)?,
            taken: 0,
            ruled_out: 0,
            dependents: None,
        })
    }

    /// The index of what is left of a package, if it is known to be needed.
    pub(crate) fn place_of(&self, pkg: Pkg) -> Option<usize>
        ensures { IfSome result (λ place. (e : Needed) × (slice_get self.now.needed.items place ≡ Some e) × (e.pkg ≡ pkg)) }
    {
        let index = self.numbers.get(pkg)? as usize;
        if index < self.needed.len() && self.needed[index].pkg == pkg {
            Some(index)
        } else {
            None
        }
    }

    /// Keeps what is left of a package.
    fn push_left(&mut self, pkg: Pkg, left: Left) -> Result<(), AllocError>
        ensures { OnOk result (Pushes (term_of left) pkg self.old self.new) }
    {
        let before = self.numbers.get(pkg);
        let index = self.needed.len().min(u32::MAX as usize) as u32;
        self.needed.push(Needed { pkg, left, before })?;
        self.numbers.set(pkg, index)?;
        Ok(())
    }

    /// Begins to keep what is left of a package: the versions of a set.
    fn add_needed(&mut self, pkg: Pkg, left: Left) -> Result<(), AllocError>
        ensures { OnOk result ((set : List ℕ) → term_of left ≡ In set → Narrows (In set) pkg self.old self.new) }
    {
        self.push_left(pkg, left)?;
        self.fresh.push(pkg)?;
        Ok(())
    }

    /// Leaves of a package only these versions. Answers whether some are left, and whether one is.
    fn leave(&mut self, pkg: Pkg, left: Left) -> Result<(bool, bool), AllocError>
        ensures { OnOk result (Pushes (term_of left) pkg self.old self.new) }
    {
        let some = left.is_some();
        let one = left.only().is_some();
        self.push_left(pkg, left)?;
        Ok((some, one))
    }

    /// Leaves of a package, at the index of what is left of it, only versions of which a term is true. Answers
    /// whether some are left, and whether one is.
    fn lessen(
        &mut self,
        alloc: Global,
        pkg: Pkg,
        place: usize,
        term: &Term,
    ) -> Result<(bool, bool), AllocError>
        requires { (e : Needed) × (slice_get self.old.needed.items place ≡ Some e) × (e.pkg ≡ pkg) }
        ensures { OnOk result (Narrows term.now pkg self.old self.new) }
    {
        let both = self.needed[place].left.and(alloc, term)?;
        Ok(self.leave(pkg, both)?)
    }

    /// As [`Choosing::lessen`]: only versions of a set.
    fn lessen_low(
        &mut self,
        alloc: Global,
        pkg: Pkg,
        place: usize,
        set: &LowSet,
    ) -> Result<(bool, bool), AllocError>
        requires { (e : Needed) × (slice_get self.old.needed.items place ≡ Some e) × (e.pkg ≡ pkg) }
        ensures { OnOk result (Narrows (In set.now) pkg self.old self.new) }
    {
        let both = self.needed[place].left.among(alloc, set)?;
        Ok(self.leave(pkg, both)?)
    }

    /// As [`Choosing::lessen`]: all versions but one.
    pub(crate) fn leave_out(
        &mut self,
        alloc: Global,
        version: (Pkg, u32),
        place: usize,
    ) -> Result<(bool, bool), AllocError>
        requires { (e : Needed) × (slice_get self.old.needed.items place ≡ Some e) × (e.pkg ≡ version.0) }
        ensures { OnOk result (Narrows (NotIn (version.1 ∷ [])) version.0 self.old self.new) }
    {
        let left = self.needed[place].left.without(alloc, version.1)?;
        Ok(self.leave(version.0, left)?)
    }

    /// Has a package looked at once more, where that is wanted.
    fn look_again(&mut self, is_wanted: bool, pkg: Pkg) -> Result<(), AllocError>
        ensures { OnOk result ((set : List ℕ) → Narrows (In set) pkg self.old self.new) }
    {
        if !is_wanted {
            return Ok(());
        }
        self.fresh.push(pkg)?;
        Ok(())
    }

    /// Leaves of a package only versions of a matching set. Answers no where none is left; nothing rests on the answer.
    pub(crate) fn narrow(
        &mut self,
        alloc: Global,
        pkg: Pkg,
        matching: &Matching<'_>,
    ) -> Result<bool, AllocError>
        ensures { OnOk result (Narrows (In (ordinals_of matching.now)) pkg self.old self.new) }
    {
        match matching.as_low() {
            Some(set) => Ok(self.narrow_low(alloc, pkg, &set)?),
            None => Ok(self.narrow_any(alloc, pkg, matching)?),
        }
    }

    /// As [`Choosing::narrow`], of a set for which a word has room.
    pub(crate) fn narrow_low(
        &mut self,
        alloc: Global,
        pkg: Pkg,
        set: &LowSet,
    ) -> Result<bool, AllocError>
        ensures { OnOk result (Narrows (In set.now) pkg self.old self.new) }
    {
        match self.place_of(pkg) {
            None => {
                self.add_needed(pkg, Left::Low(set.copy()))?;
                Ok(!set.is_empty())
            }
            Some(place) => {
                if self.needed[place].left.is_within(set) {
                    return Ok(true);
                }
                let (some, one) = self.lessen_low(alloc, pkg, place, set)?;
                self.look_again(one, pkg)?;
                Ok(some)
            }
        }
    }

    /// As [`Choosing::narrow`], of any set.
    fn narrow_any(
        &mut self,
        alloc: Global,
        pkg: Pkg,
        matching: &Matching<'_>,
    ) -> Result<bool, AllocError>
        ensures { OnOk result (Narrows (In (ordinals_of matching.now)) pkg self.old self.new) }
    {
        match self.place_of(pkg) {
            None => {
                let set = matching.set(alloc)?;
                let some = !set.is_empty();
                self.add_needed(pkg, Left::any(alloc, Term::In(set))?)?;
                Ok(some)
            }
            Some(place) => {
                if self.needed[place].left.is_in(matching) {
                    return Ok(true);
                }
                let set = matching.set(alloc)?;
                let (some, one) = self.lessen(alloc, pkg, place, &Term::In(set))?;
                self.look_again(one, pkg)?;
                Ok(some)
            }
        }
    }

    /// The only version that is left of a package, if one is.
    pub(crate) fn only(&self, pkg: Pkg) -> Option<u32>
        ensures { IfSome result (λ k. (packages : Packages) (wanted : Wanted) → Holds packages wanted self.now → OfEach packages wanted self.now.found.entries (λ t. t pkg ≡ Some k)) }
    {
        let place = self.place_of(pkg)?;
        self.needed[place].left.only()
    }

    /// Leaves of a package the version that is chosen, unless it was the only one.
    pub(crate) fn keep_only(
        &mut self,
        alloc: Global,
        version: (Pkg, u32),
        is_only: bool,
    ) -> Result<(), AllocError>
        ensures { OnOk result (Narrows (In (version.1 ∷ [])) version.0 self.old self.new) }
    {
        if is_only {
            return Ok(());
        }
        let left = Left::single(alloc, version.1)?;
        self.push_left(version.0, left)?;
        Ok(())
    }
}
