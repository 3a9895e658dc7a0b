//! The two columns of the registry, names and lists of publications, grow together.

ghost use Rattle.std.specs.Prelude.{◌≡◌, ◌<◌, ◌≤◌, ◌+◌, [], count_by, not, length, slice_index, position, Some, vec_len, vec_capacity};
ghost use Rattle.std.specs.List.{list_any};
ghost use Rattle.std.specs.Str.{bytes_eq};
ghost use Rattle.indexmap.specs.IndexSet.{spare};
ghost use Rattle.registry.specs.Places.{Extends};
ghost use Rattle.registry.specs.Publications.{packages_in, rooms_of};
ghost use Rattle.registry.specs.Registry.{number_of};
ghost use Rattle.registry.specs.Rooms.{names_in, room_where, AreEmpty, KeepTheirRooms};
ghost use Rattle.registry.specs.Step as step;
ghost use Rattle.registry.specs.Step.{with_listed, with_name, with_yanked};

use crate::publications::Publications;
use indexmap::IndexSet;
use versions::{Name, Need, Published};

/// How many of these needs have a name that is not numbered.
pub fn count_new(names: &IndexSet<Name>, needs: &[(Name, Need)]) -> usize
    ensures count { result ≡ count_by (λ d. not (list_any (bytes_eq d.0) names.now.keys)) needs.now }
    ensures few { result ≤ length needs.now }
{
    needs.iter().filter(|need| !names.contains(&need.0)).count()
}

/// Numbers a name where it has no place, with this list, and answers its place.
pub fn enter_name(
    names: &mut IndexSet<Name>,
    lists: &mut Vec<Publications>,
    name: Name,
    own: Publications,
    place: Option<usize>,
) -> usize
    requires paired { length names.old.keys ≡ length lists.old.items }
    requires placed { place ≡ position (bytes_eq name) names.old.keys }
    requires names_room { 0 < spare names.old }
    requires lists_room { vec_len lists.old < vec_capacity lists.old }
    requires empty { own.publications ≡ [] }
    ensures paired { length names.new.keys ≡ length lists.new.items }
    ensures packages { packages_in names.new.keys lists.new.items ≡ with_name (packages_in names.old.keys lists.old.items) name }
    ensures names_room { spare names.old ≤ spare names.new + 1 }
    ensures lists_room { (vec_capacity lists.old ≤ vec_capacity lists.new) × (vec_len lists.new ≤ vec_len lists.old + 1) }
    ensures place { result < length lists.new.items }
    ensures number { number_of (packages_in names.new.keys lists.new.items) name ≡ Some (result + 1) }
    ensures room { slice_index (rooms_of lists.new.items) result ≡ room_where (rooms_of lists.old.items) own.room place }
    ensures extends { Extends names.old.keys lists.old.items names.new.keys lists.new.items }
{
    match place {
        Some(index) => {
            drop(own);
            drop(name);
            index
        }
        None => {
            let last = lists.len();
            names.insert(name).unwrap();
            lists.push(own).unwrap();
            last
        }
    }
}

/// Numbers a name, as the last, where it is new, with this list.
fn add_name(
    names: &mut IndexSet<Name>,
    lists: &mut Vec<Publications>,
    name: Name,
    publications: Publications,
)
    requires paired { length names.old.keys ≡ length lists.old.items }
    requires names_room { 0 < spare names.old }
    requires lists_room { vec_len lists.old < vec_capacity lists.old }
    requires empty { publications.publications ≡ [] }
    ensures paired { length names.new.keys ≡ length lists.new.items }
    ensures stay { KeepTheirRooms lists.old.items lists.new.items }
    ensures packages { packages_in names.new.keys lists.new.items ≡ with_name (packages_in names.old.keys lists.old.items) name }
    ensures names_room { spare names.old ≤ spare names.new + 1 }
    ensures lists_room { (vec_capacity lists.old ≤ vec_capacity lists.new) × (vec_len lists.new ≤ vec_len lists.old + 1) }
    ensures extends { Extends names.old.keys lists.old.items names.new.keys lists.new.items }
{
    if names.insert(name).unwrap() {
        lists.push(publications).unwrap();
    } else {
        drop(publications);
    }
}

/// Numbers each of these names in turn, with its list.
pub fn add_names(
    names: &mut IndexSet<Name>,
    lists: &mut Vec<Publications>,
    added: Vec<(Name, Publications)>,
)
    requires paired { length names.old.keys ≡ length lists.old.items }
    requires names_room { length added.items ≤ spare names.old }
    requires lists_room { vec_len lists.old + length added.items ≤ vec_capacity lists.old }
    requires empty { AreEmpty added.items }
    ensures paired { length names.new.keys ≡ length lists.new.items }
    ensures stay { KeepTheirRooms lists.old.items lists.new.items }
    ensures packages { packages_in names.new.keys lists.new.items ≡ with_listed (packages_in names.old.keys lists.old.items) (names_in added.items) }
    ensures extends { Extends names.old.keys lists.old.items names.new.keys lists.new.items }
{
    for (name, publications) in added {
        add_name(names, lists, name, publications);
    }
}

/// Marks a version of a package as yanked or not, if there is one.
pub fn set_yanked_in(
    names: &IndexSet<Name>,
    lists: &mut Vec<Publications>,
    name: &Name,
    version: &Published,
    yanked: bool,
)
    requires paired { length names.now.keys ≡ length lists.old.items }
    ensures paired { length names.now.keys ≡ length lists.new.items }
    ensures packages { packages_in names.now.keys lists.new.items ≡ with_yanked name.now version.now yanked (packages_in names.now.keys lists.old.items) }
    ensures extends { Extends names.now.keys lists.old.items names.now.keys lists.new.items }
{
    if let Some(index) = names.get_index_of(name) {
        let list = &mut lists[index];
        list.set_yanked(version, yanked);
    }
}
