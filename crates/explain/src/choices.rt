//! Packages, versions and sets of versions, as a person reads them.
ghost use Rattle.std.specs.Prelude.{◌≡◌, ◌++◌, codes, decimal, map, string_bytes, OnOk};
ghost use Rattle.explain.specs.Choices.{choice_text, is_request, listed, package_text, separator, set_text, version_text};

use derivations::ROOT;
use itoa::Buffer;
use registry::Registry;
use std::alloc::{AllocError, Global};
use terms::{Pkg, VSet};

/// Puts a number in decimal.
pub fn put_number(text: &mut String, number: usize) -> Result<(), AllocError>
    ensures { OnOk result (string_bytes text.new ≡ string_bytes text.old ++ decimal number) }
{
    let mut digits = Buffer::new();
    Ok(text.push_str(digits.format(number))?)
}

/// The name of a package, and of package 0 what stands for it. One that is not numbered has none.
pub fn name_of(registry: &Registry, pkg: Pkg) -> &str
    ensures { result.now ≡ package_text registry.now.packages pkg }
{
    if pkg == ROOT {
        return "the request";
    }
    match registry.name_at(pkg) {
        Some(name) => name.text(),
        None => "",
    }
}

/// What stands before one of several texts.
pub fn separator(later: bool) -> &'static str
    ensures { result.now ≡ separator later }
{
    if later { ", " } else { "" }
}

/// Puts a version as it was published, or the number of one that is not published.
fn put_version(
    text: &mut String,
    registry: &Registry,
    pkg: Pkg,
    ordinal: u32,
) -> Result<(), AllocError>
    ensures { OnOk result (string_bytes text.new
        ≡ string_bytes text.old ++ version_text registry.now.packages pkg ordinal) }
{
    if let Some(facts) = registry.facts_at(pkg, ordinal) {
        return Ok(text.push_str(facts.version.text())?);
    }
    text.push_str("#")?;
    put_number(text, ordinal as usize)
}

/// Puts a version after what stands before it in its set.
fn put_next(
    text: &mut String,
    registry: &Registry,
    pkg: Pkg,
    ordinal: u32,
    later: bool,
) -> Result<(), AllocError>
    ensures { OnOk result (string_bytes text.new
        ≡ string_bytes text.old ++ (separator later ++ version_text registry.now.packages pkg ordinal)) }
{
    text.push_str(separator(later))?;
    put_version(text, registry, pkg, ordinal)
}

/// Puts versions of a package, with a comma and a space between.
fn put_versions(
    text: &mut String,
    registry: &Registry,
    pkg: Pkg,
    ordinals: &[u32],
) -> Result<(), AllocError>
    ensures { OnOk result (string_bytes text.new
        ≡ string_bytes text.old ++ listed (map (version_text registry.now.packages pkg) ordinals.now)) }
{
    for (place, ordinal) in ordinals.iter().enumerate() {
        put_next(text, registry, pkg, *ordinal, place > 0)?;
    }
    Ok(())
}

/// Puts a set of versions of a package, in braces.
pub fn put_set(
    alloc: Global,
    text: &mut String,
    registry: &Registry,
    pkg: Pkg,
    set: &VSet,
) -> Result<(), AllocError>
    ensures { OnOk result (string_bytes text.new
        ≡ string_bytes text.old ++ set_text registry.now.packages pkg set.now) }
{
    let ordinals = set.ordinals(alloc)?;
    text.push_str("{")?;
    put_versions(text, registry, pkg, &ordinals)?;
    Ok(text.push_str("}")?)
}

/// Whether this is the request, and nothing else of it.
fn is_request(pkg: Pkg, set: &VSet) -> bool
    ensures { result ≡ is_request pkg set.now }
{
    pkg == ROOT && set.has(0) && set.len() == 1
}

/// Puts a package with versions of it; the one version of the request is left out.
pub fn put_choice(
    alloc: Global,
    text: &mut String,
    registry: &Registry,
    pkg: Pkg,
    set: &VSet,
) -> Result<(), AllocError>
    ensures { OnOk result (string_bytes text.new
        ≡ string_bytes text.old ++ choice_text registry.now.packages pkg set.now) }
{
    text.push_str(name_of(registry, pkg))?;
    if is_request(pkg, set) {
        return Ok(());
    }
    text.push_str(" ")?;
    put_set(alloc, text, registry, pkg, set)
}
