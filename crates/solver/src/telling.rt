//! What is answered of what was found.

ghost use Rattle.std.specs.Prelude.{◌≡◌, map, nat_eq, true, IfOk};
ghost use Rattle.std.specs.List.{IsDistinct};
ghost use Rattle.std.specs.Map.{keys_of};
ghost use Rattle.registry.specs.Registry.{is_published};
ghost use Rattle.registry.specs.Selections.{IsSelection};
ghost use Rattle.walk.specs.Choosing.{choice_of};
ghost use Rattle.solver.specs.Finding.{IsFound};
ghost use Rattle.solver.specs.Outcomes.{told, Solves, Tells};

use crate::found::Found;
use crate::outcome::Outcome;
use checker::extract_derivation;
use derivations::kept_lines_refute;
use oracle::Task;
use registry::{Registry, ordinals_are_below_the_count};
use std::alloc::{AllocError, Global};
use terms::Pkg;
use versions::{Name, Published, Refusal};
use walk::sort_by_name;

/// A version by its package's name and its own text.
fn named(registry: &Registry, chosen: &(Pkg, u32)) -> Result<(Name, Published), AllocError>
    requires { is_published registry.now.packages chosen.now.0 chosen.now.1 ≡ true }
    ensures { IfOk result (λ pair. pair ≡ told registry.now.packages chosen.now) }
{
    ordinals_are_below_the_count();
    // That a registry has few packages is told with their count.
    let _packages = registry.packages();
    let facts = registry.facts(chosen.0, chosen.1);
    let name = registry.name(chosen.0).clone()?;
    Ok((name, facts.version.clone()?))
}

/// What a list selects, by names and versions.
fn named_all(
    alloc: Global,
    registry: &Registry,
    list: &[(Pkg, u32)],
) -> Result<Vec<(Name, Published)>, AllocError>
    requires once { IsDistinct nat_eq (keys_of list.now) }
    requires selection { IsSelection registry.now.packages (choice_of list.now) }
    ensures { IfOk result (λ pairs. pairs.items ≡ map (told registry.now.packages) list.now) }
{
    let mut pairs = Vec::with_capacity(alloc, list.len())?;
    for chosen in list {
        pairs.push(named(registry, chosen)?)?;
    }
    Ok(pairs)
}

/// What a list selects, by names and versions in the order of the names.
fn tell(
    alloc: Global,
    registry: &Registry,
    chosen: Vec<(Pkg, u32)>,
) -> Result<Vec<(Name, Published)>, AllocError>
    requires once { IsDistinct nat_eq (keys_of chosen.items) }
    requires selection { IsSelection registry.now.packages (choice_of chosen.items) }
    ensures { IfOk result (λ pairs. Tells registry.now.packages (choice_of chosen.items) pairs.items) }
{
    let mut list = chosen;
    sort_by_name(alloc, registry, &mut list);
    Ok(named_all(alloc, registry, &list)?)
}

/// What is answered of what was found. Where it isn't asked why no selection meets the request, no derivation is
/// cut from the lines that the search kept: that there is one is known of them.
pub(crate) fn outcome_of(task: &Task<'_>, found: Found) -> Result<Outcome, Refusal>
    requires { IsFound task.now found }
    ensures { Solves task.now.registry.now.packages task.now.request.now (record { budget = task.now.options.budget; explain = task.now.options.explain }) result }
{
    kept_lines_refute();
    match found {
        Found::Selected(list, offered) => {
            let pairs = tell(task.alloc, task.registry, list)?;
            Ok(Outcome::Selection(pairs, offered))
        }
        Found::Refused(known, end, offered) => {
            if !task.options.explain {
                return Ok(Outcome::NoSelection(offered));
            }
            let derivation = extract_derivation(task.alloc, known, end)?;
            Ok(Outcome::Refused(derivation, offered))
        }
        Found::Unexplained(offered) => Ok(Outcome::NoSelection(offered)),
    }
}
