//! Needs in a list that is made, each with its place.

ghost use Rattle.std.specs.Prelude.{◌≡◌, ◌∷◌, ◌++◌, [], IfOk, OnOk};

use crate::place::Place;
use std::alloc::{AllocError, Global};
use std::marker::Model;
use versions::{Name, Need};

/// Names of packages, each with a requirement, in order, and a place for each.
///
/// Contracts speak of the names with their requirements alone: a place is tested before it is kept.
#[derive(Drop)]
pub struct NeedList {
    needs: Vec<(Name, Need)>,
    places: Vec<Place>,
}

impl Model for NeedList {
    ghost use Rattle.std.specs.Prelude.{List, ℕ};

    ghost Value = { List (List ℕ × List ℕ) };

    ghost view = { λ l. l.needs.items };
}

impl NeedList {
    /// No needs, with room for so many.
    pub fn with_capacity(alloc: Global, count: usize) -> Result<NeedList, AllocError>
        ensures { IfOk result (λ listed. listed ≡ []) }
    {
        Ok(NeedList {
            needs: Vec::with_capacity(alloc, count)?,
            places: Vec::with_capacity(alloc, count)?,
        })
    }

    /// Puts a need at the end, with its place.
    pub fn push(&mut self, need: (Name, Need), place: Place) -> Result<(), AllocError>
        ensures { OnOk result (self.new ≡ self.old ++ need ∷ []) }
    {
        self.needs.push(need)?;
        self.places.push(place)?;
        Ok(())
    }

    /// How many there are.
    pub fn len(&self) -> usize {
        self.needs.len()
    }

    /// The names with their requirements, and their places.
    pub fn into_parts(self) -> (Vec<(Name, Need)>, Vec<Place>)
        ensures { result.0.items ≡ self }
    {
        (self.needs, self.places)
    }
}
