//! The assignments, kept in order and by package.

ghost use Rattle.std.specs.Prelude.{◌≡◌, ◌≤◌, ◌<◌, ◌++◌, ◌∷◌, ℕ, [], None, Option, Some, false, true, nat_eq, slice_get, take, length, OnErr, OnOk};
ghost use Rattle.terms.specs.Terms.{true_of};
ghost use Rattle.search.specs.Assignments.{decided, decisions, is_decided, is_decision, says, upto, LevelsFrom};
ghost use Rattle.search.specs.Trail.{last_place, through, AreFew, AreSameHeads, HasRoom, IsTrail, IsPlaceOn, SaysThrough};

use crate::assignment::{Assignment, Why};
use std::alloc::{AllocError, Global};
use terms::{Pkg, Term, VSet};

/// What is kept beside an assignment.
#[derive(Drop)]
pub(crate) struct Note {
    /// What the assignments on its package say together, from the first one to this.
    pub(crate) said: Term,
    /// What they decide.
    pub(crate) decided: Option<u32>,
    /// The place of the one before it on its package.
    pub(crate) earlier: Option<usize>,
    /// A jump further back on the package. No proof rests on it: where it leads is looked at.
    pub(crate) jump: Jump,
}

/// Up to so many assignments on a package a walk along them is as short as one by jumps.
/// Measured at half and at twice this value: docs/BENCHMARKS.md, Constants.
pub(crate) const SHALLOW: usize = 8;

/// Before the first assignment on a package.
const START: Jump = Jump {
    depth: 0,
    far: None,
};

/// Where a jump back along a package leads. Beyond the first few, each place before is reached by few jumps
/// and steps: Myers, "An applicative random-access stack", 1983.
#[derive(Clone, Copy)]
pub(crate) struct Jump {
    /// How many assignments on the package there are up to this one.
    pub(crate) depth: usize,
    /// The place where the jump ends, if it does not end before all of them.
    pub(crate) far: Option<usize>,
}

/// The assignments in order, a note beside each, and for each package the place of its last one.
///
/// The heads stand by the numbers of the packages, up to the highest that an assignment was ever on: a
/// look at one costs a step, and there are at most as many as packages are numbered.
#[derive(Drop)]
pub(crate) struct Trail {
    pub(crate) made: Vec<Assignment>,
    pub(crate) notes: Vec<Note>,
    pub(crate) heads: Vec<Option<usize>>,
    /// What is said of a package without assignments: that any choice will do.
    pub(crate) any: Term,
}

pub(crate) fn empty(alloc: Global) -> Trail
    ensures kept { IsTrail result }
    ensures made { result.made.items ≡ [] }
{
    Trail {
        made: Vec::new(alloc),
        notes: Vec::new(alloc),
        heads: Vec::new(alloc),
        any: Term::NotIn(VSet::new(alloc)),
    }
}

/// The jump from a place, or from none.
fn jump_at(notes: &[Note], place: Option<usize>) -> Jump {
    match place {
        None => START,
        Some(at) => notes.get(at).map_or(START, |note| note.jump),
    }
}

/// The jump from the assignment that follows on its package to the one at a place: as far as two jumps from
/// there, if they are equally long, else to there.
#[inline(always)]
fn jump_from(notes: &[Note], last: Option<usize>) -> Jump {
    let one = jump_at(notes, last);
    let depth = one.depth.saturating_add(1);
    if depth <= SHALLOW {
        return Jump { depth, far: last };
    }
    let two = jump_at(notes, one.far);
    let three = jump_at(notes, two.far);
    let is_double = one.depth.saturating_sub(two.depth) == two.depth.saturating_sub(three.depth);
    Jump {
        depth,
        far: if is_double { two.far } else { last },
    }
}

/// The place of the last assignment on a package.
#[inline(always)]
pub(crate) fn last_on(trail: &Trail, pkg: Pkg) -> Option<usize>
    requires { IsTrail trail.now }
    ensures { result ≡ last_place trail.now.made.items pkg }
{
    match trail.heads.as_slice().get(pkg as usize) {
        None => None,
        Some(last) => *last,
    }
}

/// What the assignments on a package say together up to one of them, or with none.
#[inline(always)]
pub(crate) fn said_at(trail: &Trail, place: Option<usize>) -> &Term
    requires kept { IsTrail trail.now }
    requires within { through place ≤ length trail.now.made.items }
    ensures { SaysThrough trail.now.made.items place result.now }
{
    match place {
        None => &trail.any,
        Some(at) => &trail.notes[at].said,
    }
}

/// What the assignments on a package decide up to one of them.
pub(crate) fn decided_at(trail: &Trail, place: Option<usize>) -> Option<u32>
    requires kept { IsTrail trail.now }
    requires within { through place ≤ length trail.now.made.items }
    ensures { (pkg : ℕ) → IsPlaceOn trail.now.made.items pkg place → result ≡ decided (take (through place) trail.now.made.items) pkg }
{
    match place {
        None => None,
        Some(at) => trail.notes[at].decided,
    }
}

/// What all assignments on a package say together.
#[inline(always)]
pub(crate) fn said_on(trail: &Trail, pkg: Pkg) -> &Term
    requires { IsTrail trail.now }
    ensures { (choice : Option ℕ) → true_of result.now choice ≡ says trail.now.made.items pkg choice }
{
    said_at(trail, last_on(trail, pkg))
}

/// What all assignments on a package decide.
pub(crate) fn decided_on(trail: &Trail, pkg: Pkg) -> Option<u32>
    requires { IsTrail trail.now }
    ensures { result ≡ decided trail.now.made.items pkg }
{
    decided_at(trail, last_on(trail, pkg))
}

/// The level of the last assignment, 0 where there is none.
pub(crate) fn level_of(made: &[Assignment]) -> usize
    requires { LevelsFrom 0 made.now }
    ensures { result ≡ decisions made.now }
{
    match made {
        [] => 0,
        [.., last] => last.level,
    }
}

/// Makes the heads reach a package. The new ones have no place.
fn reach(heads: &mut Vec<Option<usize>>, pkg: Pkg) -> Result<(), AllocError>
    ensures same { AreSameHeads heads.old.items heads.new.items }
    ensures few { AreFew heads.old.items → AreFew heads.new.items }
    ensures reached { OnOk result (pkg < length heads.new.items) }
{
    'heads: while heads.len() <= pkg as usize {
        heads.push(None)?;
    }
    Ok(())
}

/// Makes a place the last one of a package, or tells that it has none.
fn enter(heads: &mut Vec<Option<usize>>, pkg: Pkg, place: Option<usize>)
    requires { pkg < length heads.old.items }
    ensures own { slice_get heads.new.items pkg ≡ Some place }
    ensures other { (q : ℕ) → nat_eq pkg q ≡ false → slice_get heads.new.items q ≡ slice_get heads.old.items q }
    ensures len { length heads.new.items ≡ length heads.old.items }
{
    heads[pkg as usize] = place;
}

/// Makes room for one assignment more, on this package.
#[inline(always)]
fn make_room(
    made: &mut Vec<Assignment>,
    notes: &mut Vec<Note>,
    heads: &mut Vec<Option<usize>>,
    pkg: Pkg,
) -> Result<(), AllocError>
    ensures made { made.new.items ≡ made.old.items }
    ensures notes { notes.new.items ≡ notes.old.items }
    ensures heads { AreSameHeads heads.old.items heads.new.items }
    ensures few { AreFew heads.old.items → AreFew heads.new.items }
    ensures room { OnOk result (HasRoom made.new notes.new heads.new.items pkg) }
{
    made.reserve(1)?;
    notes.reserve(1)?;
    reach(heads, pkg)?;
    Ok(())
}

/// Adds an assignment where there is room, given the place of the last one on its package and what is
/// said of it then.
#[inline(always)]
fn put(trail: &mut Trail, a: Assignment, last: Option<usize>, said: Term)
    requires kept { IsTrail trail.old }
    requires room { HasRoom trail.old.made trail.old.notes trail.old.heads.items a.pkg }
    requires last { last ≡ last_place trail.old.made.items a.pkg }
    requires said { (choice : Option ℕ) → true_of said choice ≡ says (trail.old.made.items ++ a ∷ []) a.pkg choice }
    requires once { is_decision a ≡ true → is_decided trail.old.made.items a.pkg ≡ false }
    ensures kept { IsTrail trail.new }
    ensures made { trail.new.made.items ≡ trail.old.made.items ++ a ∷ [] }
{
    let decided = match a.why {
        Why::Decided(ordinal) => Some(ordinal),
        Why::Derived(_) => decided_at(trail, last),
    };
    let jump = jump_from(&trail.notes, last);
    let place = trail.made.len();
    enter(&mut trail.heads, a.pkg, Some(place));
    let note = Note {
        said,
        decided,
        earlier: last,
        jump,
    };
    trail.notes.push(note).unwrap();
    trail.made.push(a).unwrap();
}

/// Adds an assignment, given the place of the last one on its package and what is said of it then.
#[inline(always)]
pub(crate) fn add(
    trail: &mut Trail,
    a: Assignment,
    last: Option<usize>,
    said: Term,
) -> Result<(), AllocError>
    requires kept { IsTrail trail.old }
    requires last { last ≡ last_place trail.old.made.items a.pkg }
    requires said { (choice : Option ℕ) → true_of said choice ≡ says (trail.old.made.items ++ a ∷ []) a.pkg choice }
    requires once { is_decision a ≡ true → is_decided trail.old.made.items a.pkg ≡ false }
    ensures kept { IsTrail trail.new }
    ensures ok { OnOk result (trail.new.made.items ≡ trail.old.made.items ++ a ∷ []) }
    ensures err { OnErr result (trail.new.made.items ≡ trail.old.made.items) }
{
    if let Err(error) = make_room(&mut trail.made, &mut trail.notes, &mut trail.heads, a.pkg) {
        drop(a);
        drop(said);
        return Err(error);
    }
    put(trail, a, last, said);
    Ok(())
}

/// Takes the last assignment away.
fn undo(trail: &mut Trail)
    requires some { 0 < length trail.old.made.items }
    requires kept { IsTrail trail.old }
    ensures kept { IsTrail trail.new }
    ensures made { (a : Assignment) × (trail.old.made.items ≡ trail.new.made.items ++ a ∷ []) }
{
    let a = trail.made.pop().unwrap();
    let note = trail.notes.pop().unwrap();
    enter(&mut trail.heads, a.pkg, note.earlier);
    drop(note);
    drop(a);
}

/// Takes the assignments above a level away, from the last one on.
pub(crate) fn go_back(trail: &mut Trail, level: usize)
    requires kept { IsTrail trail.old }
    requires levels { LevelsFrom 0 trail.old.made.items }
    ensures kept { IsTrail trail.new }
    ensures made { trail.new.made.items ≡ upto level trail.old.made.items }
{
    'back: while level_of(&trail.made) > level {
        undo(trail);
    }
}
