//! Listings of what is published.
ghost use Rattle.std.specs.Prelude.{◌≡◌, IfOk, map};
ghost use Rattle.std.specs.Cmp.Lexicographic.{slice_cmp};
ghost use Rattle.std.specs.List.Sorted.{IsPermutation, IsSortedBy};
ghost use Rattle.std.specs.Ordering.{is_lt, nat_cmp};
ghost use Rattle.registry.specs.Lawful.{IsRegistry};
ghost use Rattle.replies.specs.Listings.{IsListing, rows_of};
ghost use Rattle.replies.specs.Entries.{row_at};

mod text;

use registry::{Pkg, Registry};
use std::alloc::{AllocError, Global};
use std::marker::Model;
pub use text::put_packages;
use versions::Name;

/// The packages with at least one publication, in byte order of their names, each with its versions in order of
/// publication and whether they are yanked.
///
/// It borrows the registry, so it holds no text of its own.
#[derive(Drop)]
pub struct Listing<'r> {
    registry: &'r Registry,
    entries: Vec<ListingEntry<'r>>,
}

/// A package that is listed.
#[derive(Drop)]
pub struct ListingEntry<'r> {
    name: &'r Name,
    number: Pkg,
}

impl<'r> Model for Listing<'r> {
    ghost use Rattle.std.specs.Prelude.{List, map};
    ghost use Rattle.registry.specs.Lawful.{IsRegistry};
    ghost use Rattle.replies.specs.Listings.{Row};
    ghost use Rattle.replies.specs.Entries.{row_at};

    ghost Value = { List Row };

    ghost view = { λ l. map (row_at l.registry.now.packages) l.entries.items };

    ghost invariant = { λ l. IsRegistry l.registry.now.packages };
}

impl<'r> Listing<'r> {
    /// Lists what is published. Takes time in proportion to n log n, for n packages.
    pub fn new(alloc: Global, registry: &'r Registry) -> Result<Listing<'r>, AllocError>
        ensures { IfOk result (IsListing registry.now.packages) }
    {
        let entries = sorted(published(alloc, registry)?);
        Ok(Listing { registry, entries })
    }
}

/// The packages with at least one publication, in order of their numbers.
fn published(alloc: Global, registry: &Registry) -> Result<Vec<ListingEntry<'_>>, AllocError>
    ensures reachable { IsRegistry registry.now.packages }
    ensures rows { IfOk result (λ v. map (row_at registry.now.packages) v.items ≡ rows_of registry.now.packages) }
{
    let count = registry.packages();
    let mut entries = Vec::with_capacity(alloc, count)?;
    for place in 0..count {
        let number = place as u32 + 1;
        if registry.versions(number) > 0 {
            let name = registry.name(number);
            entries.push(ListingEntry { name, number })?;
        }
    }
    Ok(entries)
}

/// The same entries in byte order of their names.
fn sorted(mut entries: Vec<ListingEntry<'_>>) -> Vec<ListingEntry<'_>>
    ensures same { IsPermutation entries.entry.items result.items }
    ensures ascending { IsSortedBy (λ a b. is_lt (slice_cmp nat_cmp a.name.now b.name.now)) result.items }
{
    entries.sort_unstable_by(|a, b| a.name.cmp(b.name));
    entries
}
