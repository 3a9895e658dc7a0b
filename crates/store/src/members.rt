//! The members of a store, one after another.

ghost use Rattle.std.specs.Prelude.{◌≡◌, ◌∷◌, [], IfNone, IfSome};
ghost use Rattle.std.specs.Iterator.{YieldsFirstRef, item_count};
ghost use Rattle.store.specs.Slots.{kept};

use derivations::Learnt;
use std::marker::Model;

/// An iterator over the members of a store, in order of learning, seen as the list of those that are
/// left.
#[derive(Drop)]
pub struct Members<'a> {
    left: &'a [Option<Learnt>],
}

impl<'a> Model for Members<'a> {
    ghost use Rattle.std.specs.Prelude.{List};
    ghost use Rattle.store.specs.Slots.{kept};
    ghost use Rattle.derivations.specs.Lines.{Line};

    ghost Value = { List (List Line) };

    ghost view = { λ s. kept s.left.now };
}

/// The members that stand in the places.
pub(crate) fn members_in(slots: &[Option<Learnt>]) -> Members<'_>
    ensures { result ≡ kept slots.now }
{
    Members { left: slots }
}

/// The first member, and the places behind it.
fn first_member<'a>(slots: &'a [Option<Learnt>]) -> Option<(&'a Learnt, &'a [Option<Learnt>])>
    ensures none { IfNone result (kept slots.now ≡ []) }
    ensures some { IfSome result (λ found. kept slots.now ≡ found.0.now ∷ kept found.1.now) }
{
    let mut left = slots;
    'seek: while let Some((slot, rest)) = left.split_first() {
        if let Some(member) = slot {
            return Some((member, rest));
        }
        left = rest;
    }
    None
}

impl<'a> Iterator for Members<'a> {
    type Item = &'a Learnt;

    ghost next_gives = { YieldsFirstRef (λ left. left) };

    ghost remaining = { item_count (λ left. left) };

    fn next(&mut self) -> Option<&'a Learnt> {
        let (member, rest) = first_member(self.left)?;
        self.left = rest;
        Some(member)
    }
}
