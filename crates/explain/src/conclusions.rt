//! What a line says: choices that may not all be made.
ghost use Rattle.std.specs.Prelude.{◌≡◌, ◌++◌, string_bytes, OnOk};
ghost use Rattle.explain.specs.Choices.{separator};
ghost use Rattle.explain.specs.Explanations.{term_text, terms_text};

use crate::choices::{put_choice, separator};
use registry::Registry;
use std::alloc::{AllocError, Global};
use terms::{Pkg, Term};

fn put_term(
    alloc: Global,
    text: &mut String,
    registry: &Registry,
    pkg: Pkg,
    term: &Term,
) -> Result<(), AllocError>
    ensures { OnOk result (string_bytes text.new
        ≡ string_bytes text.old ++ term_text registry.now.packages pkg term.now) }
{
    match term {
        Term::In(set) => Ok(put_choice(alloc, text, registry, pkg, set)?),
        Term::NotIn(set) => {
            text.push_str("not ")?;
            Ok(put_choice(alloc, text, registry, pkg, set)?)
        }
    }
}

/// Puts a term after what stands before it.
fn put_next(
    alloc: Global,
    text: &mut String,
    registry: &Registry,
    entry: &(Pkg, Term),
    later: bool,
) -> Result<(), AllocError>
    ensures { OnOk result (string_bytes text.new
        ≡ string_bytes text.old ++ (separator later ++ term_text registry.now.packages entry.now.0 entry.now.1)) }
{
    text.push_str(separator(later))?;
    put_term(alloc, text, registry, entry.0, &entry.1)
}

/// Puts terms in their order, with a comma and a space between.
pub fn put_terms(
    alloc: Global,
    text: &mut String,
    registry: &Registry,
    terms: &[(Pkg, Term)],
) -> Result<(), AllocError>
    ensures { OnOk result (string_bytes text.new
        ≡ string_bytes text.old ++ terms_text registry.now.packages terms.now) }
{
    for (place, entry) in terms.iter().enumerate() {
        put_next(alloc, text, registry, entry, place > 0)?;
    }
    Ok(())
}
