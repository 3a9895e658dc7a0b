//! Selections in the order of names.

ghost use Rattle.std.specs.Prelude.{◌≡◌, ◌<◌, ℕ, length, map, nat_eq, slice_index, All, IfOk, IsPermutation, IsSorted};
ghost use Rattle.std.specs.List.{IsDistinct};
ghost use Rattle.std.specs.Map.{keys_of};
ghost use Rattle.walk.specs.Choosing.{choice_of};
ghost use Rattle.walk.specs.Names.{by_front, by_name, front_to, name_of, AreBytes, IsFronted};

use registry::{Pkg, Registry};
use std::alloc::{AllocError, Global};
use std::cmp::Ordering;

/// The name of a package; no text where the number has none.
fn text_of(registry: &Registry, pkg: Pkg) -> &str
    ensures { result.now ≡ name_of registry.now.packages pkg }
{
    match registry.name_at(pkg) {
        None => "",
        Some(name) => name.text(),
    }
}

/// How two packages compare by their names.
fn compare_names(registry: &Registry, a: &(Pkg, u32), b: &(Pkg, u32)) -> Ordering
    ensures { result ≡ by_name registry.now.packages a.now b.now }
{
    text_of(registry, a.0).cmp(text_of(registry, b.0))
}

/// The byte at an index; 0 past the end.
fn byte_at(bytes: &[u8], index: usize) -> u64
    ensures byte { result ≡ slice_index bytes.now index }
    ensures small { result < 256 }
{
    match bytes.get(index) {
        None => 0,
        Some(byte) => *byte as u64,
    }
}

/// The first 8 bytes of a text, as one number: of two texts with other fronts the one with the lower front comes first.
fn front_of(text: &str) -> u64
    ensures front { result ≡ front_to 8 text.now }
    ensures bytes { AreBytes text.now }
{
    let bytes = text.as_bytes();
    let mut front = byte_at(bytes, 0);
    front = 256 * front + byte_at(bytes, 1);
    front = 256 * front + byte_at(bytes, 2);
    front = 256 * front + byte_at(bytes, 3);
    front = 256 * front + byte_at(bytes, 4);
    front = 256 * front + byte_at(bytes, 5);
    front = 256 * front + byte_at(bytes, 6);
    256 * front + byte_at(bytes, 7)
}

/// The front of a package's name.
fn name_front(registry: &Registry, pkg: Pkg) -> u64
    ensures front { result ≡ front_to 8 (name_of registry.now.packages pkg) }
    ensures bytes { AreBytes (name_of registry.now.packages pkg) }
{
    front_of(text_of(registry, pkg))
}

/// How two packages compare by the fronts of their names, and where these are the same by the names.
fn compare_fronts(registry: &Registry, a: &(u64, (Pkg, u32)), b: &(u64, (Pkg, u32))) -> Ordering
    ensures { result ≡ by_front registry.now.packages a.now b.now }
{
    match a.0.cmp(&b.0) {
        Ordering::Equal => compare_names(registry, &a.1, &b.1),
        other => other,
    }
}

/// What a list selects, each behind the front of its package's name.
fn with_fronts(
    alloc: Global,
    registry: &Registry,
    list: &[(Pkg, u32)],
) -> Result<Vec<(u64, (Pkg, u32))>, AllocError>
    ensures same { IfOk result (λ fronted. map (λ (f : ℕ × (ℕ × ℕ)). f.1) fronted.items ≡ list.now) }
    ensures fronted { IfOk result (λ fronted. All (IsFronted registry.now.packages) fronted.items) }
{
    let mut fronted = Vec::with_capacity(alloc, list.len())?;
    for i in 0..list.len() {
        let chosen = list[i];
        fronted.push((name_front(registry, chosen.0), chosen))?;
    }
    Ok(fronted)
}

/// Puts into the order of the names what stands behind the fronts of the names.
fn sort_fronted(registry: &Registry, fronted: &mut [(u64, (Pkg, u32))])
    ensures sorted { IsSorted (by_front registry.now.packages) fronted.new }
    ensures moved { IsPermutation fronted.old fronted.new }
{
    fronted.sort_unstable_by(|a, b| compare_fronts(registry, a, b));
}

/// Puts into a list what stands in another behind the fronts.
fn take_order(list: &mut [(Pkg, u32)], fronted: &[(u64, (Pkg, u32))])
    requires { length fronted.now ≡ length list.old }
    ensures { list.new ≡ map (λ (f : ℕ × (ℕ × ℕ)). f.1) fronted.now }
{
    for i in 0..fronted.len() {
        list[i] = fronted[i].1;
    }
}

/// As [`sort_by_name`], without memory: each comparison looks at two names where they are kept.
fn sort_by_whole_name(registry: &Registry, list: &mut [(Pkg, u32)])
    requires { IsDistinct nat_eq (keys_of list.old) }
    ensures sorted { IsSorted (by_name registry.now.packages) list.new }
    ensures same { choice_of list.new ≡ choice_of list.old }
    ensures once { IsDistinct nat_eq (keys_of list.new) }
{
    list.sort_unstable_by(|a, b| compare_names(registry, a, b));
}

/// Puts what a list selects into the order of the bytes of the packages' names. The cost grows with
/// n log n. It takes memory for the fronts of the names, and does without where there is none.
pub fn sort_by_name(alloc: Global, registry: &Registry, list: &mut [(Pkg, u32)])
    requires { IsDistinct nat_eq (keys_of list.old) }
    ensures sorted { IsSorted (by_name registry.now.packages) list.new }
    ensures same { choice_of list.new ≡ choice_of list.old }
    ensures once { IsDistinct nat_eq (keys_of list.new) }
{
    // Most names differ in their fronts, which are compared where they lie side by side.
    match with_fronts(alloc, registry, list) {
        Err(_) => sort_by_whole_name(registry, list),
        Ok(mut fronted) => {
            sort_fronted(registry, &mut fronted);
            take_order(list, &fronted);
        }
    }
}
