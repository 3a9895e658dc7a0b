//! Judging the texts of a request.
ghost use Rattle.std.specs.Prelude.{◌≡◌};
ghost use Rattle.std.specs.List.{list_all};
ghost use Rattle.registry.specs.Needs.{names_of};
ghost use Rattle.registry.specs.Step.{Publish};
ghost use Rattle.versions.specs.Refusals.{Gives};
ghost use Rattle.versions.specs.Words.{is_name, is_requirement, is_version};
ghost use Rattle.versions.specs.declared.refusal.Refusal.TheVariants.{BadName, BadRequirement, BadVersion};
ghost use Rattle.wire.specs.Asked.{asked_of, texts_of};
ghost use Rattle.wire.specs.Requests.{checked, judged, judged_marking, locked_versions, requirements_of};
ghost use Rattle.wire.specs.Shapes.{check, command, resolve};

use super::Asked;
use super::derived::derivation_in;
use super::line_shapes::Lines;
use super::pairs::Pairs;
use super::shape::Shape;
use registry::{Command, Dependencies, Request};
use std::alloc::Global;
use versions::{Name, Need, Published, Refusal};

/// What a shape asks, or the lowest refusal of its texts.
pub fn judge(alloc: Global, shape: &Shape<'_>) -> Result<Asked, Refusal>
    ensures { Gives asked_of result (judged (texts_of shape.now)) }
{
    match shape {
        Shape::Publish(name, version, needs) => publication(alloc, *name, *version, needs),
        Shape::Yank(name, version) => {
            let (name, version) = marking(alloc, *name, *version)?;
            Ok(Asked::Command(Command::Yank(name, version)))
        }
        Shape::Unyank(name, version) => {
            let (name, version) = marking(alloc, *name, *version)?;
            Ok(Asked::Command(Command::Unyank(name, version)))
        }
        Shape::Resolve(needs, lock, explain, budget) => resolution(
            alloc, needs, lock, *explain, *budget,
        ),
        Shape::Check(needs, lock, lines) => checking(alloc, needs, lock, lines),
        Shape::Listing => Ok(Asked::Listing),
    }
}

fn publication(
    alloc: Global,
    name: &str,
    version: &str,
    needs: &Pairs<'_>,
) -> Result<Asked, Refusal>
    ensures { Gives asked_of result (judged (command (Publish name.now version.now needs.now))) }
{
    let name = Name::read(alloc, name)?;
    let names = names_in(alloc, needs)?;
    let version = Published::read(alloc, version)?;
    let needs = Dependencies::new(alloc, needs_in(alloc, names, needs)?)?;
    Ok(Asked::Command(Command::Publish(name, version, needs)))
}

/// The name and the version of a yank or an unyank.
fn marking(alloc: Global, name: &str, version: &str) -> Result<(Name, Published), Refusal>
    ensures { Gives (λ p. p) result (judged_marking name.now version.now) }
{
    Ok((Name::read(alloc, name)?, Published::read(alloc, version)?))
}

fn resolution(
    alloc: Global,
    needs: &Pairs<'_>,
    lock: &Pairs<'_>,
    explain: bool,
    budget: Option<u32>,
) -> Result<Asked, Refusal>
    ensures { Gives asked_of result (judged (resolve (record { needs = needs.now; lock = lock.now }) explain budget)) }
{
    let needed = names_in(alloc, needs)?;
    let locked = names_in(alloc, lock)?;
    let lock = lock_in(alloc, locked, lock)?;
    let needs = needs_in(alloc, needed, needs)?;
    let request = Request::new(alloc, needs, lock)?;
    Ok(Asked::Resolve {
        request,
        explain,
        budget,
    })
}

fn checking(
    alloc: Global,
    needs: &Pairs<'_>,
    lock: &Pairs<'_>,
    lines: &Lines<'_>,
) -> Result<Asked, Refusal>
    ensures { Gives asked_of result (judged (check (record { needs = needs.now; lock = lock.now }) lines.now)) }
{
    let needed = names_in(alloc, needs)?;
    let locked = names_in(alloc, lock)?;
    let kept = lock_in(alloc, locked, lock)?;
    let wanted = needs_in(alloc, needed, needs)?;
    let derivation = derivation_in(alloc, lines)?;
    let request = Request::new(alloc, wanted, kept)?;
    Ok(Asked::Check {
        request,
        derivation,
    })
}

/// The names of these needs or lock lines. A text that is none is [`Refusal::BadName`].
pub fn names_in(alloc: Global, pairs: &Pairs<'_>) -> Result<Vec<Name>, Refusal>
    ensures { Gives (λ v. v.items) result (checked (list_all is_name (names_of pairs.now)) (names_of pairs.now) BadName) }
{
    let mut names = Vec::with_capacity(alloc, pairs.len())?;
    for place in 0..pairs.len() {
        let (name, _) = pairs.at(place);
        names.push(Name::read(alloc, name)?)?;
    }
    Ok(names)
}

/// The needs with these names, which are theirs.
fn needs_in(
    alloc: Global,
    names: Vec<Name>,
    needs: &Pairs<'_>,
) -> Result<Vec<(Name, Need)>, Refusal>
    requires { names.items ≡ names_of needs.now }
    ensures { Gives (λ v. v.items) result (checked (list_all is_requirement (requirements_of needs.now)) needs.now BadRequirement) }
{
    let mut read = Vec::with_capacity(alloc, needs.len())?;
    for name in names {
        let (_, requirement) = needs.at(read.len());
        read.push((name, Need::read(alloc, requirement)?))?;
    }
    Ok(read)
}

/// The lock lines with these names, which are theirs. A text that is no version is [`Refusal::BadVersion`].
pub fn lock_in(
    alloc: Global,
    names: Vec<Name>,
    lock: &Pairs<'_>,
) -> Result<Vec<(Name, Published)>, Refusal>
    requires { names.items ≡ names_of lock.now }
    ensures { Gives (λ v. v.items) result (checked (list_all is_version (locked_versions lock.now)) lock.now BadVersion) }
{
    let mut read = Vec::with_capacity(alloc, lock.len())?;
    for name in names {
        let (_, version) = lock.at(read.len());
        read.push((name, Published::read(alloc, version)?))?;
    }
    Ok(read)
}
