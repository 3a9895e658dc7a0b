//! Whether a selection is the newest, as can be seen without a search.

ghost use Rattle.std.specs.Prelude.{◌≡◌, ◌<◌, ◌+◌, ◌++◌, true, length, [], ◌∷◌, None, IfOk, OnOk};
ghost use Rattle.std.specs.Bool.{OnFalse};
ghost use Rattle.registry.specs.Requests.{Wanted};
ghost use Rattle.walk.specs.Best.{ArePassed, AsksFor, Holds, IsChoosing, IsGrown, IsLeft};
ghost use Rattle.walk.specs.Newest.{AreBest, IsBest, IsOut};
ghost use Rattle.walk.specs.Choosing.{choice_of, Follows};
ghost use Rattle.walk.specs.Left.{term_of};
ghost use Rattle.walk.specs.PlainlyNewest.{AreHigherOut, IsNewestIfMet, ShowsWhatIsOut};

use crate::choice_map::ChoiceMap;
use crate::choosing::Choosing;
use crate::evidence::{Evidence, NoEvidence};
use crate::left::Left;
use crate::preferred::locked_ordinal;
use registry::{Pkg, Registry, Request};
use std::alloc::{AllocError, Global};
use versions::precedence_is_a_total_preorder;

// ---- versions than which no better one is to be had

/// A walk up to a package: what is chosen before it, and what that leaves of it.
#[derive(Clone, Copy)]
struct Prefix<'a> {
    registry: &'a Registry,
    request: &'a Request,
    choosing: &'a Choosing,
    /// The versions of the package that are left.
    left: &'a Left,
}

/// Whether a version is seen not to be had with those before: it is not left or not allowed, or it depends on a
/// package of which it leaves no version, or the evidence shows it.
fn is_out<E: Evidence>(prefix: &Prefix<'_>, evidence: &E, pkg: Pkg, ordinal: u32) -> bool
    requires shows { ShowsWhatIsOut prefix.now.registry.now.packages prefix.now.request.now (E.shows evidence.now) }
    requires holds { Holds prefix.now.registry.now.packages prefix.now.request.now prefix.now.choosing.now }
    requires left { IsLeft prefix.now.registry.now.packages prefix.now.request.now prefix.now.choosing.now.found.entries pkg (term_of prefix.now.left.now) }
    ensures { result ≡ true → IsOut prefix.now.registry.now.packages prefix.now.request.now prefix.now.choosing.now.found.entries pkg ordinal }
{
    let (registry, request) = (prefix.registry, prefix.request);
    let choosing = prefix.choosing;
    if !choosing.is_open(registry, request, prefix.left, (pkg, ordinal)) {
        return true;
    }
    evidence.rules_out(&choosing.found, pkg, ordinal)
}

/// Whether a version is this one, or can't be seen not to be had.
fn is_left<E: Evidence>(
    prefix: &Prefix<'_>,
    evidence: &E,
    pkg: Pkg,
    ordinal: u32,
    other: u32,
) -> bool
    requires shows { ShowsWhatIsOut prefix.now.registry.now.packages prefix.now.request.now (E.shows evidence.now) }
    requires holds { Holds prefix.now.registry.now.packages prefix.now.request.now prefix.now.choosing.now }
    requires left { IsLeft prefix.now.registry.now.packages prefix.now.request.now prefix.now.choosing.now.found.entries pkg (term_of prefix.now.left.now) }
    ensures { OnFalse result (IsOut prefix.now.registry.now.packages prefix.now.request.now prefix.now.choosing.now.found.entries pkg other) }
{
    other == ordinal || !is_out(prefix, evidence, pkg, other)
}

/// Whether each version of higher precedence is seen not to be had. It costs a look at each of them.
fn is_highest_left<E: Evidence>(prefix: &Prefix<'_>, evidence: &E, pkg: Pkg, ordinal: u32) -> bool
    requires shows { ShowsWhatIsOut prefix.now.registry.now.packages prefix.now.request.now (E.shows evidence.now) }
    requires holds { Holds prefix.now.registry.now.packages prefix.now.request.now prefix.now.choosing.now }
    requires left { IsLeft prefix.now.registry.now.packages prefix.now.request.now prefix.now.choosing.now.found.entries pkg (term_of prefix.now.left.now) }
    ensures { result ≡ true → AreHigherOut prefix.now.registry.now.packages prefix.now.request.now prefix.now.choosing.now.found.entries pkg ordinal }
{
    let registry = prefix.registry;
    match registry.highest_where(pkg, |other| is_left(prefix, evidence, pkg, ordinal, other)) {
        None => false,
        Some(highest) => highest == ordinal,
    }
}

/// Whether each version of a package, of which these are left, that is preferred to this one is seen not to be had.
fn is_best_left<E: Evidence>(prefix: &Prefix<'_>, evidence: &E, pkg: Pkg, ordinal: u32) -> bool
    requires shows { ShowsWhatIsOut prefix.now.registry.now.packages prefix.now.request.now (E.shows evidence.now) }
    requires holds { Holds prefix.now.registry.now.packages prefix.now.request.now prefix.now.choosing.now }
    requires left { IsLeft prefix.now.registry.now.packages prefix.now.request.now prefix.now.choosing.now.found.entries pkg (term_of prefix.now.left.now) }
    ensures { result ≡ true → IsBest prefix.now.registry.now.packages prefix.now.request.now prefix.now.choosing.now.found.entries pkg ordinal }
{
    precedence_is_a_total_preorder();
    match locked_ordinal(prefix.registry, prefix.request, pkg) {
        None => is_highest_left(prefix, evidence, pkg, ordinal),
        Some(locked) => {
            locked == ordinal
                || is_out(prefix, evidence, pkg, locked)
                    && is_highest_left(prefix, evidence, pkg, ordinal)
        }
    }
}

/// Whether each version of a package that is preferred to this one is seen not to be had with what is chosen.
fn is_best<E: Evidence>(
    registry: &Registry,
    request: &Request,
    choosing: &Choosing,
    evidence: &E,
    version: (Pkg, u32),
) -> bool
    requires shows { ShowsWhatIsOut registry.now.packages request.now (E.shows evidence.now) }
    requires holds { Holds registry.now.packages request.now choosing.now }
    ensures { result ≡ true → IsBest registry.now.packages request.now choosing.now.found.entries version.0 version.1 }
{
    let Some(place) = choosing.place_of(version.0) else {
        return false;
    };
    let prefix = Prefix {
        registry,
        request,
        choosing,
        left: &choosing.needed[place].left,
    };
    is_best_left(&prefix, evidence, version.0, version.1)
}

// ---- the selection

/// What a list selects. Nothing rests on it.
fn choices_of(alloc: Global, list: &[(Pkg, u32)]) -> Result<ChoiceMap, AllocError> {
    let mut choices = ChoiceMap::new(alloc)?;
    for i in 0..list.len() {
        let (pkg, ordinal) = list[i];
        if !choices.contains(pkg) {
            choices.push(pkg, ordinal)?;
        }
    }
    Ok(choices)
}

impl Choosing {
    /// Chooses a version, and meets what it depends on, but not what needed packages depend on besides. Answers no where
    /// a package has no version left then.
    fn add_version(
        &mut self,
        alloc: Global,
        registry: &Registry,
        version: (Pkg, u32),
    ) -> Result<bool, AllocError>
        requires new { choice_of self.old.found.entries version.0 ≡ None }
        ensures found { OnOk result (self.new.found.entries ≡ self.old.found.entries ++ (version.0, version.1) ∷ []) }
        ensures asks { IfOk result (λ whole. whole ≡ true → AsksFor registry.now.packages version.0 version.1 true self.old.asked.items self.new.asked.items) }
        ensures grown { OnOk result (IsGrown self.old self.new) }
        ensures holds { OnOk result ((wanted : Wanted) → Holds registry.now.packages wanted self.old → Holds registry.now.packages wanted self.new) }
    {
        self.found.push(version.0, version.1)?;
        Ok(self.meet(alloc, registry, version, true, false)?)
    }

    /// Chooses what is selected of the package that is asked for at a place, unless it is chosen. Answers no where
    /// nothing is selected of it, a version that is preferred to that can't be seen not to be had, or a package has no
    /// version left.
    fn choose_selected<E: Evidence>(
        &mut self,
        alloc: Global,
        registry: &Registry,
        request: &Request,
        choices: &ChoiceMap,
        evidence: &E,
        at: usize,
    ) -> Result<bool, AllocError>
        requires within { at < length self.old.asked.items }
        requires shows { ShowsWhatIsOut registry.now.packages request.now (E.shows evidence.now) }
        requires choosing { IsChoosing registry.now.packages request.now self.old }
        requires passed { ArePassed self.old at }
        ensures choosing { IfOk result (λ whole. whole ≡ true → IsChoosing registry.now.packages request.now self.new) }
        ensures passed { IfOk result (λ whole. whole ≡ true → ArePassed self.new (at + 1)) }
    {
        let pkg = self.asked[at];
        if self.found.contains(pkg) {
            return Ok(true);
        }
        let Some(ordinal) = choices.get(pkg) else {
            return Ok(false);
        };
        if !is_best(registry, request, self, evidence, (pkg, ordinal)) {
            return Ok(false);
        }
        Ok(self.add_version(alloc, registry, (pkg, ordinal))?)
    }

    /// Chooses what is selected of each package that is asked for, in turn, as [`Choosing::choose_selected`]. Answers no
    /// where that does.
    fn choose_all_selected<E: Evidence>(
        &mut self,
        alloc: Global,
        registry: &Registry,
        request: &Request,
        choices: &ChoiceMap,
        evidence: &E,
    ) -> Result<bool, AllocError>
        requires shows { ShowsWhatIsOut registry.now.packages request.now (E.shows evidence.now) }
        requires choosing { IsChoosing registry.now.packages request.now self.old }
        ensures { IfOk result (λ whole. whole ≡ true → AreBest registry.now.packages request.now self.new.found.entries) }
    {
        let mut at = 0;
        'asked: while at < self.asked.len() {
            if !self.choose_selected(alloc, registry, request, choices, evidence, at)? {
                return Ok(false);
            }
            at += 1;
        }
        Ok(true)
    }
}

/// Chooses what is selected, from the needs on, in the order of the walk. Answers no where a version that is preferred
/// can't be seen not to be had.
fn choose_selection<E: Evidence>(
    alloc: Global,
    registry: &Registry,
    request: &Request,
    choices: &ChoiceMap,
    evidence: &E,
    choosing: &mut Choosing,
) -> Result<bool, AllocError>
    requires shows { ShowsWhatIsOut registry.now.packages request.now (E.shows evidence.now) }
    requires found { choosing.old.found.entries ≡ [] }
    requires asked { choosing.old.asked.items ≡ [] }
    requires needed { choosing.old.needed.items ≡ [] }
    requires fresh { choosing.old.fresh.items ≡ [] }
    ensures { IfOk result (λ whole. whole ≡ true → AreBest registry.now.packages request.now choosing.new.found.entries) }
{
    if !choosing.meet_needs(alloc, registry, request)? {
        return Ok(false);
    }
    Ok(choosing.choose_all_selected(alloc, registry, request, choices, evidence)?)
}

/// Whether each version of a list is chosen.
fn are_chosen(found: &ChoiceMap, list: &[(Pkg, u32)]) -> bool
    ensures { result ≡ true → Follows (choice_of found.now.entries) (choice_of list.now) }
{
    for i in 0..list.len() {
        let (pkg, ordinal) = list[i];
        let Some(chosen) = found.get(pkg) else {
            return false;
        };
        if chosen != ordinal {
            return false;
        }
    }
    true
}

/// Whether a selection that meets the request can be seen to be the newest by some evidence: of each version that is
/// preferred to a selected one the evidence shows that it can't be selected with those before, or it is seen as
/// [`is_plainly_newest`] sees it.
///
/// Where it answers no, the selection may be the newest all the same. The cost is that of [`is_plainly_newest`], and a
/// look at the evidence for each better version that is not seen without it.
pub fn is_newest_by<E: Evidence>(
    alloc: Global,
    registry: &Registry,
    request: &Request,
    selection: &[(Pkg, u32)],
    evidence: &E,
) -> Result<bool, AllocError>
    requires { ShowsWhatIsOut registry.now.packages request.now (E.shows evidence.now) }
    ensures { IfOk result (λ newest. newest ≡ true → IsNewestIfMet registry.now.packages request.now selection.now) }
{
    let choices = choices_of(alloc, selection)?;
    let mut choosing = Choosing::new(alloc)?;
    if !choose_selection(alloc, registry, request, &choices, evidence, &mut choosing)? {
        return Ok(false);
    }
    Ok(are_chosen(&choosing.found, selection))
}

/// Whether a selection that meets the request can be seen to be the newest without a search: each version that is
/// preferred to a selected one is yanked, or a line that is asked before excludes it, or it depends on a package of
/// which no version meets this and the lines that are asked before.
///
/// Where it answers no, the selection may be the newest all the same. The cost is linear in the dependencies of what is
/// selected and of the better versions, each with a look at the versions that are left.
pub fn is_plainly_newest(
    alloc: Global,
    registry: &Registry,
    request: &Request,
    selection: &[(Pkg, u32)],
) -> Result<bool, AllocError>
    ensures { IfOk result (λ plain. plain ≡ true → IsNewestIfMet registry.now.packages request.now selection.now) }
{
    is_newest_by(alloc, registry, request, selection, &NoEvidence)
}
