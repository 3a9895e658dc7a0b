//! What is made ready for a publication, so that it takes no memory.

ghost use Rattle.std.specs.Prelude.{◌≡◌, ◌<◌, ◌≤◌, ◌-◌, ◌↔◌, ◌≢◌, ◌∷◌, ◌++◌, [], List, length, vec_capacity, vec_len, None, Some, IfOk, IfSome, IsTrue, OnOk, is_some, position};
ghost use Rattle.std.specs.List.{list_any};
ghost use Rattle.std.specs.Option.{ForSome, option_map};
ghost use Rattle.std.specs.Str.{bytes_eq};
ghost use Rattle.indexmap.specs.IndexSet.{spare};
ghost use Rattle.versions.specs.Words.{Text};
ghost use Rattle.registry.specs.Places.{ArePlacesOf, Extends, IsGrown, StandsAt, named_of};
ghost use Rattle.registry.specs.Publications.{lists_of, rooms_of};
ghost use Rattle.registry.specs.Rooms.{names_beside, names_in, publication_for, room_where, AreEmpty, IsReady};

use crate::dependencies::{Dependencies, are_same};
use crate::need_list::NeedList;
use crate::place::Place;
use crate::publications::Publications;
use indexmap::IndexSet;
use std::alloc::{AllocError, Global};
use versions::{Name, Need};

// What was made so far is dropped by a call where memory is refused. Else what dropping it does would stand in the proof
// of each way out of each function.

/// What is made ready for a publication: where its package stands, and the names to be numbered,
/// each with its list of publications, which keeps the matching sets of what the publication needs.
#[derive(Drop)]
pub struct Ready {
    pub name: Name,
    pub needs: Dependencies,
    /// The places of its needs, as they are expected once it is entered.
    pub places: Vec<Place>,
    /// The place of the package, where it has one.
    pub place: Option<usize>,
    /// The list of the package, where it is new.
    pub own: Publications,
    /// The names of the needs that are new.
    pub added: Vec<(Name, Publications)>,
}

/// Whether a name stands at a place, and a requirement among those that are named on the package.
fn stands_at(
    names: &IndexSet<Name>,
    lists: &[Publications],
    need: &(Name, Need),
    place: Place,
) -> bool
    ensures { IsTrue result → StandsAt names.now.keys (named_of lists.now) need.now place }
{
    let Some(index) = place.name() else {
        return false;
    };
    match (names.get_index(index), lists.get(index)) {
        (Some(name), Some(list)) => *name == need.0 && list.names_at(&need.1, place.need as usize),
        _ => false,
    }
}

/// These places, if each is that of the need at its index, else none: what was expected is tested once.
pub fn right_places<'a>(
    names: &IndexSet<Name>,
    lists: &[Publications],
    needs: &[(Name, Need)],
    places: &'a [Place],
) -> &'a [Place]
    ensures { ArePlacesOf names.now.keys (named_of lists.now) needs.now result.now }
{
    if places.len() > needs.len() {
        return &[];
    }
    for index in 0..places.len() {
        if !stands_at(names, lists, &needs[index], places[index]) {
            return &[];
        }
    }
    places
}

/// What was made ready for this publication.
pub fn ready_for<'a>(
    ready: &'a Option<Ready>,
    name: &Name,
    needs: &[(Name, Need)],
) -> Option<&'a Ready>
    ensures there { IsTrue (is_some result) ↔ (publication_for ready.now ≡ Some (name.now, needs.now)) }
    ensures name { IfSome result (λ ready. ready.now.name ≡ name.now) }
    ensures needs { IfSome result (λ ready. ready.now.needs ≡ needs.now) }
{
    let ready = ready.as_ref()?;
    if ready.name == *name && are_same(ready.needs.needs(), needs) {
        Some(ready)
    } else {
        None
    }
}

/// A package that is new, which keeps the matching set of the need that names it.
fn new_package(alloc: Global, need: &(Name, Need)) -> Result<(Name, Publications), AllocError>
    ensures name { IfOk result (λ new. new.0 ≡ need.now.0) }
    ensures empty { IfOk result (λ new. new.1.publications ≡ []) }
{
    let name = need.0.clone()?;
    let mut publications = Publications::new(alloc);
    if let Err(error) = publications.name_need(&need.1) {
        drop(publications);
        drop(name);
        return Err(error);
    }
    Ok((name, publications))
}

/// What the needs of a publication come to.
#[derive(Drop)]
struct Named {
    /// The same needs, in texts that the registry keeps already where it has equal ones, with the
    /// places of these texts once the publication is entered.
    needs: NeedList,
    /// The names that are new, each with its list of publications.
    added: Vec<(Name, Publications)>,
}

/// Where a name stands, and the equal name there.
fn kept_in<'a>(names: &'a IndexSet<Name>, name: &Name) -> Option<(usize, &'a Name)>
    ensures place { option_map (λ found. found.0) result ≡ position (bytes_eq name.now) names.now.keys }
    ensures there { is_some result ≡ list_any (bytes_eq name.now) names.now.keys }
    ensures within { IfSome result (λ found. found.0 < length names.now.keys) }
    ensures same { IfSome result (λ found. found.1.now ≡ name.now) }
{
    names.get_full(name)
}

/// As [`kept_in`], of a name that may stand at this place: where it does, no look-up is made.
fn kept_near<'a>(names: &'a IndexSet<Name>, place: usize, name: &Name) -> Option<(usize, &'a Name)>
    ensures there { is_some result ≡ list_any (bytes_eq name.now) names.now.keys }
    ensures within { IfSome result (λ found. found.0 < length names.now.keys) }
    ensures same { IfSome result (λ found. found.1.now ≡ name.now) }
{
    match names.get_index(place) {
        Some(kept) if *kept == *name => Some((place, kept)),
        _ => kept_in(names, name),
    }
}

/// An equal need.
fn copied(need: &(Name, Need)) -> Result<(Name, Need), AllocError>
    ensures { IfOk result (λ copy. copy ≡ need.now) }
{
    Ok((need.0.clone()?, need.1.clone()?))
}

/// Names a requirement on a package, and answers the equal one that the package keeps, with the name,
/// and the requirement's place, which may be this one.
fn kept(
    list: &mut Publications,
    name: &Name,
    need: &Need,
    hint: usize,
) -> Result<((Name, Need), usize), AllocError>
    ensures publications { list.new.publications ≡ list.old.publications }
    ensures grown { IsGrown list.old list.new }
    ensures same { IfOk result (λ kept. kept.0 ≡ (name.now, need.now)) }
{
    let (need, place) = kept_need(list, need, hint)?;
    Ok(((name.clone()?, need), place))
}

/// Names a requirement on a package, and answers the equal one that the package keeps, and its place, which may be this
/// one.
fn kept_need(list: &mut Publications, need: &Need, hint: usize) -> Result<(Need, usize), AllocError>
    ensures publications { list.new.publications ≡ list.old.publications }
    ensures grown { IsGrown list.old list.new }
    ensures same { IfOk result (λ kept. kept.0 ≡ need.now) }
{
    if let Some((place, kept)) = list.named_at(need, hint) {
        return Ok((kept.clone()?, place));
    }
    let place = list.name_need(need)?;
    Ok((need.clone()?, place))
}

/// The place that is next for a name, once the package's own has one.
fn next_place(names: &IndexSet<Name>, own: Option<usize>) -> usize {
    match own {
        None => names.len() + 1,
        Some(_) => names.len(),
    }
}

/// Adds a need of a package that stands at an index, and names its requirement there, maybe at this place.
fn add_known(
    list: &mut Publications,
    index: usize,
    name: &Name,
    need: &Need,
    hint: usize,
    same: &mut NeedList,
) -> Result<(), AllocError>
    ensures publications { list.new.publications ≡ list.old.publications }
    ensures grown { IsGrown list.old list.new }
    ensures same { OnOk result (same.new ≡ same.old ++ (name.now, need.now) ∷ []) }
{
    let (shared, place) = kept(list, name, need, hint)?;
    same.push(shared, Place::new(index, place))
}

/// Adds a need of a package that is new.
fn add_new(
    alloc: Global,
    need: &(Name, Need),
    next: usize,
    named: &mut Named,
) -> Result<(), AllocError>
    ensures same { OnOk result (named.new.needs ≡ named.old.needs ++ need.now ∷ []) }
    ensures added { OnOk result (names_in named.new.added.items ≡ names_in named.old.added.items ++ need.now.0 ∷ []) }
    ensures empty { OnOk result (AreEmpty named.old.added.items → AreEmpty named.new.added.items) }
{
    // The first requirement that is named on a package has the place 0.
    let place = Place::new(next.saturating_add(named.added.len()), 0);
    named.added.push(new_package(alloc, need)?)?;
    named.needs.push(copied(need)?, place)
}

/// Where the last publication of a package has its need at an index; any where there is none.
fn hint_at(lists: &[Publications], own: Option<usize>, index: usize) -> Place {
    match own {
        Some(place) => match lists.get(place) {
            Some(list) => list.last_place(index),
            None => Place::nowhere(),
        },
        None => Place::nowhere(),
    }
}

/// Adds a need, and names its requirement on the package that it is on. It may stand at this place.
fn add_need(
    alloc: Global,
    names: &IndexSet<Name>,
    lists: &mut Vec<Publications>,
    need: &(Name, Need),
    next: usize,
    hint: Place,
    named: &mut Named,
) -> Result<(), AllocError>
    requires paired { length names.now.keys ≡ length lists.old.items }
    ensures lists { lists_of lists.new.items ≡ lists_of lists.old.items }
    ensures length { length lists.new.items ≡ length lists.old.items }
    ensures extends { Extends names.now.keys lists.old.items names.now.keys lists.new.items }
    ensures same { OnOk result (named.new.needs ≡ named.old.needs ++ need.now ∷ []) }
    ensures added { OnOk result (names_in named.new.added.items ≡ names_in named.old.added.items ++ names_beside names.now.keys (need.now ∷ [])) }
    ensures empty { OnOk result (AreEmpty named.old.added.items → AreEmpty named.new.added.items) }
{
    match kept_near(names, hint.target.saturating_sub(1) as usize, &need.0) {
        Some((index, name)) => {
            let list = &mut lists[index];
            add_known(
                list,
                index,
                name,
                &need.1,
                hint.need as usize,
                &mut named.needs,
            )
        }
        None => add_new(alloc, need, next, named),
    }
}

/// Names the requirements on the packages that they are on. The names that are new come in from a
/// place on, in order. The package's own place is where a look at its last publication saves look-ups.
fn name_needs(
    alloc: Global,
    names: &IndexSet<Name>,
    lists: &mut Vec<Publications>,
    needs: &[(Name, Need)],
    next: usize,
    own: Option<usize>,
) -> Result<Named, AllocError>
    requires paired { length names.now.keys ≡ length lists.old.items }
    ensures lists { lists_of lists.new.items ≡ lists_of lists.old.items }
    ensures length { length lists.new.items ≡ length lists.old.items }
    ensures extends { Extends names.now.keys lists.old.items names.now.keys lists.new.items }
    ensures same { IfOk result (λ named. named.needs ≡ needs.now) }
    ensures named { IfOk result (λ named. names_in named.added.items ≡ names_beside names.now.keys needs.now) }
    ensures empty { IfOk result (λ named. AreEmpty named.added.items) }
{
    let mut named = Named {
        needs: NeedList::with_capacity(alloc, needs.len())?,
        added: Vec::new(alloc),
    };
    for need in needs {
        let hint = hint_at(lists, own, named.needs.len());
        add_need(alloc, names, lists, need, next, hint, &mut named)?;
    }
    Ok(named)
}

/// The same needs, in texts that the registry keeps where it has equal ones, and the names that are
/// new, each with its list of publications. Their requirements are named on the packages.
fn named_needs(
    alloc: Global,
    names: &IndexSet<Name>,
    lists: &mut Vec<Publications>,
    needs: &Dependencies,
    place: Option<usize>,
) -> Result<(Dependencies, Vec<Place>, Vec<(Name, Publications)>), AllocError>
    requires paired { length names.now.keys ≡ length lists.old.items }
    ensures lists { lists_of lists.new.items ≡ lists_of lists.old.items }
    ensures length { length lists.new.items ≡ length lists.old.items }
    ensures extends { Extends names.now.keys lists.old.items names.now.keys lists.new.items }
    ensures same { IfOk result (λ named. named.0 ≡ needs.now) }
    ensures named { IfOk result (λ named. names_in named.2.items ≡ names_beside names.now.keys needs.now) }
    ensures empty { IfOk result (λ named. AreEmpty named.2.items) }
{
    let next = next_place(names, place);
    let named = name_needs(alloc, names, lists, needs.needs(), next, place)?;
    let (handles, places) = named.needs.into_parts();
    let same = needs.with_handles(alloc, handles)?;
    Ok((same, places, named.added))
}

/// Makes room for one publication with so many needs: in the list at this place, or else in that of a new package.
fn make_list_room(
    lists: &mut Vec<Publications>,
    own: &mut Publications,
    place: Option<usize>,
    needs: usize,
) -> Result<(), AllocError>
    requires within { ForSome place (λ i. i < length lists.old.items) }
    ensures lists { lists_of lists.new.items ≡ lists_of lists.old.items }
    ensures length { length lists.new.items ≡ length lists.old.items }
    ensures extends { (names : List Text) → Extends names lists.old.items names lists.new.items }
    ensures same_room { vec_capacity lists.new - vec_len lists.new ≡ vec_capacity lists.old - vec_len lists.old }
    ensures own { own.new.publications ≡ own.old.publications }
    ensures room { OnOk result (0 < room_where (rooms_of lists.new.items) own.new.room place) }
{
    match place {
        None => own.reserve(needs)?,
        Some(index) => {
            let list = &mut lists[index];
            list.reserve(needs)?;
        }
    }
    Ok(())
}

/// Makes room for one publication with so many needs, and for so many packages.
fn make_room(
    names: &mut IndexSet<Name>,
    lists: &mut Vec<Publications>,
    own: &mut Publications,
    place: Option<usize>,
    count: usize,
    needs: usize,
) -> Result<(), AllocError>
    requires within { ForSome place (λ i. i < length lists.old.items) }
    ensures keys { names.new.keys ≡ names.old.keys }
    ensures lists { lists_of lists.new.items ≡ lists_of lists.old.items }
    ensures length { length lists.new.items ≡ length lists.old.items }
    ensures extends { (names : List Text) → Extends names lists.old.items names lists.new.items }
    ensures own { own.new.publications ≡ own.old.publications }
    ensures names_room { OnOk result (count ≤ spare names.new) }
    ensures lists_room { OnOk result (count ≤ vec_capacity lists.new - vec_len lists.new) }
    ensures room { OnOk result (0 < room_where (rooms_of lists.new.items) own.new.room place) }
{
    names.reserve(count)?;
    lists.reserve(count)?;
    make_list_room(lists, own, place, needs)
}

/// Where a name stands, if it does, and an equal name: the one that stands there, where there is one.
fn kept_name(names: &IndexSet<Name>, name: &Name) -> Result<(Option<usize>, Name), AllocError>
    ensures place { IfOk result (λ found. found.0 ≡ position (bytes_eq name.now) names.now.keys) }
    ensures same { IfOk result (λ found. found.1 ≡ name.now) }
{
    match kept_in(names, name) {
        Some((index, kept)) => Ok((Some(index), kept.clone()?)),
        None => Ok((None, name.clone()?)),
    }
}

/// Makes ready for a publication. The packages stay as they were.
pub fn make_ready(
    alloc: Global,
    names: &mut IndexSet<Name>,
    lists: &mut Vec<Publications>,
    name: &Name,
    needs: &Dependencies,
) -> Result<Ready, AllocError>
    requires paired { length names.old.keys ≡ length lists.old.items }
    ensures keys { names.new.keys ≡ names.old.keys }
    ensures lists { lists_of lists.new.items ≡ lists_of lists.old.items }
    ensures length { length lists.new.items ≡ length lists.old.items }
    ensures extends { Extends names.old.keys lists.old.items names.new.keys lists.new.items }
    ensures ready { IfOk result (IsReady names.new.keys (spare names.new) lists.new.items (vec_capacity lists.new - vec_len lists.new)) }
    ensures publication { IfOk result (λ ready. publication_for (Some ready) ≡ Some (name.now, needs.now)) }
{
    let (place, name) = kept_name(names, name)?;
    let (needs, places, added) = named_needs(alloc, names, lists, needs, place)?;
    let mut own = Publications::new(alloc);
    match make_room(names, lists, &mut own, place, added.len() + 1, places.len()) {
        Ok(()) => Ok(Ready {
            name,
            needs,
            places,
            place,
            own,
            added,
        }),
        Err(error) => {
            drop(own);
            drop(added);
            drop(places);
            drop(needs);
            drop(name);
            Err(error)
        }
    }
}
