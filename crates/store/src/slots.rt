//! The places of a store: who is found there, and who goes.

ghost use Rattle.std.specs.Prelude.{◌≡◌, true, false, length, slice_get, IfSome};
ghost use Rattle.std.specs.List.{list_any};
ghost use Rattle.store.specs.Indexes.{Extends, IsUnder};
ghost use Rattle.store.specs.Keys.{key_of};
ghost use Rattle.store.specs.Slots.{concludes, is_met, kept, passes_at, passes_in, unmet, AreFewer, AreFound, AreThinned, HasKey, IsDroppedAt, IsMemberAt, NoneUnder};
ghost use Rattle.store.specs.Stored.{conclusion_of, has_conclusion};

use crate::index::{Index, Link};
use crate::keys::key_of;
use crate::member::{concludes, is_met, member_key};
use derivations::Learnt;
use terms::{Incompat, Pkg};
use versions::Published;

/// The member in this place, if one stands there.
pub fn member_at(slots: &[Option<Learnt>], place: usize) -> Option<&Learnt>
    ensures { IfSome result (λ member. IsMemberAt slots.now place member.now) }
{
    match slots.get(place) {
        Some(Some(member)) => Some(member),
        _ => None,
    }
}

// ---- who concludes the same

/// Whether the member of this slot concludes this.
fn slot_concludes(slot: &Option<Learnt>, conclusion: &Incompat) -> bool
    ensures { result ≡ passes_in (concludes conclusion.now) slot.now }
{
    match slot {
        Some(member) => concludes(member, conclusion),
        None => false,
    }
}

/// Whether the member in this place concludes this.
fn place_concludes(slots: &[Option<Learnt>], place: usize, conclusion: &Incompat) -> bool
    ensures { result ≡ passes_at (concludes conclusion.now) (slice_get slots.now place) }
{
    match slots.get(place) {
        Some(slot) => slot_concludes(slot, conclusion),
        None => false,
    }
}

/// Whether a member concludes this: each is asked.
fn any_concludes(slots: &[Option<Learnt>], conclusion: &Incompat) -> bool
    ensures { result ≡ list_any (passes_in (concludes conclusion.now)) slots.now }
{
    slots.iter().any(|slot| slot_concludes(slot, conclusion))
}

/// Whether a member concludes this: those are asked that are found under the key.
fn found_concludes(slots: &[Option<Learnt>], keys: &Index, conclusion: &Incompat) -> bool
    requires whole { keys.now.whole ≡ true }
    requires found { AreFound HasKey keys.now slots.now }
    ensures { result ≡ has_conclusion (kept slots.now) conclusion.now }
{
    let key = key_of(conclusion);
    let mut at = keys.first(key);
    'walk: while let Some(link) = keys.link(at) {
        if link.number == key && place_concludes(slots, link.place as usize, conclusion) {
            return true;
        }
        at = link.before;
    }
    false
}

/// Whether a member concludes this.
pub fn has_concluded(slots: &[Option<Learnt>], keys: &Index, conclusion: &Incompat) -> bool
    requires { AreFound HasKey keys.now slots.now }
    ensures { result ≡ has_conclusion (kept slots.now) conclusion.now }
{
    if keys.is_whole() {
        found_concludes(slots, keys, conclusion)
    } else {
        any_concludes(slots, conclusion)
    }
}

// ---- who goes

/// Whether the member of this slot is met.
fn slot_is_met(slot: &Option<Learnt>, pkg: Pkg, version: &Published) -> bool
    ensures { result ≡ passes_in (is_met pkg version.now) slot.now }
{
    match slot {
        Some(member) => is_met(member, pkg, version),
        None => false,
    }
}

/// Whether the member in this place is met.
fn place_is_met(slots: &[Option<Learnt>], place: usize, pkg: Pkg, version: &Published) -> bool
    ensures { result ≡ passes_at (is_met pkg version.now) (slice_get slots.now place) }
{
    match slots.get(place) {
        Some(slot) => slot_is_met(slot, pkg, version),
        None => false,
    }
}

/// Lets the member in this place go if it is met. It is told how many members there are, and answers
/// how many are left.
fn drop_at(
    slots: &mut [Option<Learnt>],
    count: usize,
    place: usize,
    pkg: Pkg,
    version: &Published,
) -> usize
    requires { count ≡ length (kept slots.old) }
    ensures dropped { IsDroppedAt (is_met pkg version.now) place slots.old slots.new }
    ensures gone { passes_at (is_met pkg version.now) (slice_get slots.new place) ≡ false }
    ensures count { result ≡ length (kept slots.new) }
{
    if !place_is_met(slots, place, pkg, version) {
        return count;
    }
    slots[place] = None;
    count - 1
}

/// The same for the place of a link, if it stands under the number.
fn drop_under(
    slots: &mut [Option<Learnt>],
    count: usize,
    link: Link,
    number: u64,
    pkg: Pkg,
    version: &Published,
) -> usize
    requires { count ≡ length (kept slots.old) }
    ensures dropped { IsDroppedAt (is_met pkg version.now) link.place slots.old slots.new }
    ensures gone { link.number ≡ number → passes_at (is_met pkg version.now) (slice_get slots.new link.place) ≡ false }
    ensures count { result ≡ length (kept slots.new) }
{
    if link.number != number {
        return count;
    }
    drop_at(slots, count, link.place as usize, pkg, version)
}

/// Lets each member go that is met and stands under the number.
pub fn drop_numbered(
    slots: &mut [Option<Learnt>],
    count: usize,
    members: &Index,
    number: u64,
    pkg: Pkg,
    version: &Published,
) -> usize
    requires count { count ≡ length (kept slots.old) }
    requires whole { members.now.whole ≡ true }
    ensures thinned { AreThinned (is_met pkg version.now) slots.old slots.new }
    ensures gone { NoneUnder (is_met pkg version.now) members.now.links number slots.new }
    ensures count { result ≡ length (kept slots.new) }
{
    let mut left = count;
    let mut at = members.first(number);
    'walk: while let Some(link) = members.link(at) {
        left = drop_under(slots, left, link, number, pkg, version);
        at = link.before;
    }
    left
}

/// Lets each member go that is met: each is asked.
pub fn drop_any(slots: &mut [Option<Learnt>], count: usize, pkg: Pkg, version: &Published) -> usize
    requires { count ≡ length (kept slots.old) }
    ensures kept { kept slots.new ≡ unmet pkg version.now (kept slots.old) }
    ensures count { result ≡ length (kept slots.new) }
    ensures fewer { AreFewer slots.old slots.new }
{
    let mut left = count;
    for place in 0..slots.len() {
        left = drop_at(slots, left, place, pkg, version);
    }
    left
}

// ---- what members are found under

/// Adds a place under the key of what its member concludes.
pub fn add_key(keys: &mut Index, place: usize, learnt: &Learnt)
    ensures whole { keys.new.whole ≡ true → keys.old.whole ≡ true }
    ensures kept { Extends keys.old.links keys.new.links }
    ensures there { keys.new.whole ≡ true → IsUnder keys.new.links (key_of (conclusion_of learnt.now)) place }
{
    keys.add(member_key(learnt), place);
}

/// Adds a place under each package that its member's conclusion names. No contract speaks of it: a
/// search that finds fewer members is as right.
pub fn add_names(naming: &mut Index, place: usize, learnt: &Learnt) {
    for entry in learnt.conclusion().terms() {
        naming.add(u64::from(entry.0), place);
    }
}

/// Adds the place of a slot under the key of what its member concludes.
fn add_slot_key(keys: &mut Index, place: usize, slot: &Option<Learnt>)
    ensures whole { keys.new.whole ≡ true → keys.old.whole ≡ true }
    ensures kept { Extends keys.old.links keys.new.links }
    ensures there { keys.new.whole ≡ true → IfSome slot.now (λ lines. IsUnder keys.new.links (key_of (conclusion_of lines)) place) }
{
    if let Some(member) = slot {
        add_key(keys, place, member);
    }
}

/// Adds the places of all members under their keys.
pub fn add_keys(keys: &mut Index, slots: &[Option<Learnt>])
    ensures { AreFound HasKey keys.new slots.now }
{
    for place in 0..slots.len() {
        add_slot_key(keys, place, &slots[place]);
    }
}

/// Adds the places of all members under what their conclusions name.
pub fn add_all_names(naming: &mut Index, slots: &[Option<Learnt>]) {
    for place in 0..slots.len() {
        if let Some(member) = &slots[place] {
            add_names(naming, place, member);
        }
    }
}
