//! Packages in the order of the walk: the needs by name, then what each version that is found depends on.

ghost use Rattle.std.specs.Prelude.{◌≡◌, ◌<◌, ◌≤◌, ◌+◌, [], length, map, nat_eq, slice_get, Some, IfNone, IfOk, IfSome, OnOk};
ghost use Rattle.std.specs.List.{AllByRecursion, IsDistinct};
ghost use Rattle.std.specs.Map.{keys_of};
ghost use Rattle.registry.specs.Registry.{needs_of};
ghost use Rattle.walk.specs.Choosing.{choice_of};
ghost use Rattle.walk.specs.Listing.{need_at, AllPassed, AreInOrder, GoesAt, IsListed, IsListing, IsNext, IsPassedTo, PassesAt, Visits};
ghost use Rattle.walk.specs.Newest.{in_name_order};
ghost use Rattle.walk.specs.Walks.{Grows};

use crate::chooser::Chooser;
use crate::order::Order;
use crate::reached::Asker;
use indexmap::IndexMap;
use registry::{Pkg, Registry, Request};
use std::alloc::{AllocError, Global};
use versions::{Name, Need};

/// Packages in the order of the walk, by versions that were given.
#[derive(Drop)]
pub struct WalkListing {
    /// Packages with the ordinals of their versions, each package once.
    pub found: Vec<(Pkg, u32)>,
    /// What comes next; none where nothing does.
    pub next: Option<NextPackage>,
}

/// A package for which no version was given, with the first line that names it.
#[derive(Clone, Copy)]
pub struct NextPackage {
    pub pkg: Pkg,
    /// Who asks for it.
    pub asker: Asker,
    /// The index of the line among those of who asks.
    pub index: usize,
}

// ---- the needs in the order of their names

/// Where a need goes among others that stand in the order of their names.
fn place_among(needs: &[(Name, Need)], places: &[usize], own: usize) -> usize
    requires own { own < length needs.now }
    requires within { AllByRecursion (λ place. place < length needs.now) places.now }
    ensures within { result ≤ length places.now }
    ensures place { GoesAt (need_at needs.now own) (map (need_at needs.now) places.now) result }
{
    let name = &needs[own].0;
    for i in 0..places.len() {
        if !needs[places[i]].0.cmp(name).is_lt() {
            return i;
        }
    }
    places.len()
}

/// The places of the needs in the order of their names. The cost grows with the square of their
/// number, of which a request has few.
pub(crate) fn places_in_order(
    alloc: Global,
    needs: &[(Name, Need)],
) -> Result<Vec<usize>, AllocError>
    ensures { IfOk result (λ places. AreInOrder needs.now places.items) }
{
    let mut places = Vec::with_capacity(alloc, needs.len())?;
    let mut own = needs.len();
    'needs: while own > 0 {
        own -= 1;
        let place = place_among(needs, &places, own);
        places.insert(place, own)?;
    }
    Ok(places)
}

// ---- one line after the other

/// Adds the chosen version of a package, unless the package is found already. Answers whether the
/// package is found now.
fn visit<C: Chooser>(
    chooser: &C,
    target: Pkg,
    found: &mut IndexMap<Pkg, u32>,
) -> Result<bool, AllocError>
    ensures { IfOk result (Visits (C.chooses chooser.now) target found.old.entries found.new.entries) }
{
    if found.contains_key(&target) {
        return Ok(true);
    }
    let Some(ordinal) = chooser.choose(target) else {
        return Ok(false);
    };
    found.insert(target, ordinal)?;
    Ok(true)
}

/// Visits the package of a need. Answers it where no version of it is chosen.
fn pass_need<C: Chooser>(
    registry: &Registry,
    needs: &[(Name, Need)],
    chooser: &C,
    place: usize,
    found: &mut IndexMap<Pkg, u32>,
) -> Result<Option<Pkg>, AllocError>
    requires { place < length needs.now }
    ensures { IfOk result (PassesAt registry.now.packages (C.chooses chooser.now) needs.now place found.old.entries found.new.entries) }
{
    let line = &needs[place];
    let Some(target) = registry.number(&line.0) else {
        return Ok(None);
    };
    if visit(chooser, target, found)? {
        Ok(None)
    } else {
        Ok(Some(target))
    }
}

/// Visits the package of a dependency. Answers it where no version of it is chosen.
fn pass_dependency<C: Chooser>(
    registry: &Registry,
    chooser: &C,
    asker: (Pkg, u32),
    index: usize,
    found: &mut IndexMap<Pkg, u32>,
) -> Result<Option<Pkg>, AllocError>
    requires { index < length (needs_of registry.now.packages asker.0 asker.1) }
    ensures { IfOk result (PassesAt registry.now.packages (C.chooses chooser.now) (needs_of registry.now.packages asker.0 asker.1) index found.old.entries found.new.entries) }
{
    let (target, _) = registry.dependency(asker.0, asker.1, index)?;
    if visit(chooser, target, found)? {
        Ok(None)
    } else {
        Ok(Some(target))
    }
}

// ---- the walk

/// Visits the packages of the needs, up to one of which no version is chosen; it is answered.
pub(crate) fn pass_needs<C: Chooser>(
    alloc: Global,
    registry: &Registry,
    request: &Request,
    chooser: &C,
    found: &mut IndexMap<Pkg, u32>,
) -> Result<Option<NextPackage>, AllocError>
    requires { IsListing registry.now.packages request.now.needs (C.chooses chooser.now) found.old.entries }
    ensures listing { OnOk result (IsListing registry.now.packages request.now.needs (C.chooses chooser.now) found.new.entries) }
    ensures grown { OnOk result (Grows found.old.entries found.new.entries) }
    ensures passed { IfOk result (λ next. IfNone next (AllPassed registry.now.packages found.new.entries (in_name_order request.now.needs))) }
    ensures next { IfOk result (λ next. IfSome next (IsNext registry.now.packages request.now.needs (C.chooses chooser.now) found.new.entries)) }
{
    let needs = request.needs();
    let places = places_in_order(alloc, needs)?;
    for i in 0..places.len() {
        let index = places[i];
        if let Some(pkg) = pass_need(registry, needs, chooser, index, found)? {
            let asker = Asker::Request;
            return Ok(Some(NextPackage { pkg, asker, index }));
        }
    }
    Ok(None)
}

/// Visits the packages that the version at a place depends on, up to one of which no version is
/// chosen; it is answered.
pub(crate) fn pass_dependencies<C: Chooser>(
    registry: &Registry,
    request: &Request,
    chooser: &C,
    place: usize,
    found: &mut IndexMap<Pkg, u32>,
) -> Result<Option<NextPackage>, AllocError>
    requires within { place < length found.old.entries }
    requires listing { IsListing registry.now.packages request.now.needs (C.chooses chooser.now) found.old.entries }
    requires passed { IsPassedTo registry.now.packages request.now.needs found.old.entries place }
    ensures grown { OnOk result (Grows found.old.entries found.new.entries) }
    ensures listing { OnOk result (IsListing registry.now.packages request.now.needs (C.chooses chooser.now) found.new.entries) }
    ensures passed { IfOk result (λ next. IfNone next (IsPassedTo registry.now.packages request.now.needs found.new.entries (place + 1))) }
    ensures next { IfOk result (λ next. IfSome next (IsNext registry.now.packages request.now.needs (C.chooses chooser.now) found.new.entries)) }
{
    let version = entry_at(found, place);
    let count = registry.needs_count(version.0, version.1);
    for index in 0..count {
        if let Some(pkg) = pass_dependency(registry, chooser, version, index, found)? {
            let asker = Asker::Version(version.0, version.1);
            return Ok(Some(NextPackage { pkg, asker, index }));
        }
    }
    Ok(None)
}

/// The package that was found at a place, with its version's ordinal.
pub(crate) fn entry_at(found: &IndexMap<Pkg, u32>, place: usize) -> (Pkg, u32)
    requires { place < length found.now.entries }
    ensures at { slice_get found.now.entries place ≡ Some result }
    ensures chosen { choice_of found.now.entries result.0 ≡ Some result.1 }
{
    match found.get_index(place) {
        Some((pkg, ordinal)) => (*pkg, *ordinal),
        None => unreachable!(),
    }
}

/// What was found, as a list.
pub(crate) fn entries_of(
    alloc: Global,
    found: &IndexMap<Pkg, u32>,
) -> Result<Vec<(Pkg, u32)>, AllocError>
    ensures list { IfOk result (λ list. list.items ≡ found.now.entries) }
    ensures once { IsDistinct nat_eq (keys_of found.now.entries) }
{
    found
        .iter()
        .map(|(pkg, ordinal)| (*pkg, *ordinal))
        .collect(alloc)
}

/// Lists packages in the order of the walk, each with the version that the chooser gives, up to a
/// package for which it gives none.
///
/// The order is that of the newest selection: the packages of the needs, by name, then those that the
/// first package's version depends on, in published order, then those that the second's does, and so on.
/// No requirement is looked at. The cost is linear in the dependencies of what is listed.
pub fn list_in_order<C: Chooser>(
    alloc: Global,
    registry: &Registry,
    request: &Request,
    chooser: &C,
) -> Result<WalkListing, AllocError>
    ensures { IfOk result (IsListed registry.now.packages request.now.needs (C.chooses chooser.now)) }
{
    let mut order = Order::new(alloc);
    let next = order.go_on(alloc, registry, request, chooser)?;
    Ok(WalkListing {
        found: entries_of(alloc, &order.found)?,
        next,
    })
}
