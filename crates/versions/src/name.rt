//! Names of packages.
ghost use Rattle.std.proofs.Common.{refl};
ghost use Rattle.std.specs.Prelude.{◌≡◌, ◌↔◌, IfErr, IfOk, IsTrue, Some, false};
ghost use Rattle.std.specs.List.{list_all};
ghost use Rattle.std.specs.Ordering.{nat_cmp};
ghost use Rattle.std.specs.Str.{bytes_eq};
ghost use Rattle.std.specs.Hash as fed;
ghost use Rattle.std.specs.Cmp.{partial_equiv_from_equiv};
ghost use Rattle.std.specs.Cmp.Lexicographic.{nat_list_cmp_total, nat_list_eq_equiv, slice_cmp, texts_po, texts_ties};
ghost use Rattle.versions.specs.NameLaws.{same_hash};
ghost use Rattle.versions.specs.Readings.{name_in};
ghost use Rattle.versions.specs.Refusals.{Gives};
ghost use Rattle.versions.specs.Words.{is_name};
ghost use Rattle.versions.specs.Words as words;

use crate::refusal::Refusal;
use std::alloc::{AllocError, Global};
use std::cmp::Ordering;
use std::hash::{Hash, Hasher};
use std::marker::Model;
use std::sync::ArcStr;

/// The bytes that a name may have.
pub const NAME_LIMIT: usize = 64;

/// The name of a package: 1 to 64 bytes of `a-z`, `0-9`, `-` and `_`, of which the first is a letter.
///
/// Names are equal, hash and are ordered by their bytes. A copy shares the text.
#[derive(Drop)]
pub struct Name {
    text: ArcStr,
}

impl Model for Name {
    ghost use Rattle.std.specs.Prelude.{ℕ, List, IsTrue};
    ghost use Rattle.std.specs.Arc.{arc_str_bytes};
    ghost use Rattle.versions.specs.Words.{is_name};

    ghost Value = { List ℕ };

    ghost view = { λ n. arc_str_bytes n.text };

    ghost invariant = { λ n. IsTrue (is_name (arc_str_bytes n.text)) };
}

impl PartialEq for Name {
    ghost eq = { bytes_eq };

    ghost laws = { partial_equiv_from_equiv nat_list_eq_equiv };

    fn eq(&self, other: &Name) -> bool {
        self.text.as_str() == other.text.as_str()
    }
}

impl Eq for Name {
    ghost laws = { nat_list_eq_equiv };
}

impl PartialOrd for Name {
    ghost partial_cmp = { λ a b. Some (slice_cmp nat_cmp a b) };

    ghost laws = { texts_po };

    fn partial_cmp(&self, other: &Name) -> Option<Ordering> {
        Some(self.cmp(other))
    }
}

impl Ord for Name {
    ghost cmp = { slice_cmp nat_cmp };

    ghost total = { nat_list_cmp_total };

    ghost matches_partial_cmp = { λ a b. refl };

    ghost matches_eq = { texts_ties };

    fn cmp(&self, other: &Name) -> Ordering {
        self.text.as_str().cmp(other.text.as_str())
    }
}

impl Hash for Name {
    ghost hash_input = { λ name. fed.str name };

    ghost respects_eq = { same_hash };

    fn hash<H: Hasher>(&self, state: &mut H) {
        self.text.as_str().hash(state);
    }
}

fn is_name_byte(b: u8) -> bool
    ensures { result ≡ words.is_name_byte b }
{
    b.is_ascii_lowercase() || b.is_ascii_digit() || b == b'-' || b == b'_'
}

fn begins_with_letter(text: &[u8]) -> bool
    ensures { result ≡ words.begins_with_letter text.now }
{
    match text {
        [] => false,
        [first, ..] => first.is_ascii_lowercase(),
    }
}

fn has_name_bytes(text: &[u8]) -> bool
    ensures { result ≡ list_all words.is_name_byte text.now }
{
    text.iter().all(|b| is_name_byte(*b))
}

/// Whether a text is a package name. Takes no memory.
pub fn is_name_text(text: &str) -> bool
    ensures { result ≡ is_name text.now }
{
    let bytes = text.as_bytes();
    bytes.len() <= NAME_LIMIT && begins_with_letter(bytes) && has_name_bytes(bytes)
}

impl Clone for Name {
    ghost is_clone = { λ name copy. copy ≡ name };

    fn clone(&self) -> Result<Name, AllocError> {
        Ok(Name {
            text: self.text.clone()?,
        })
    }
}

impl Name {
    /// Reads a name and keeps its text. A text that is no name is refused before memory is asked for.
    pub fn read(alloc: Global, text: &str) -> Result<Name, Refusal>
        ensures gives { Gives (λ name. name) result (name_in text.now) }
        ensures refused { (result ≡ Err Refusal.BadName) ↔ (is_name text.now ≡ false) }
    {
        if !is_name_text(text) {
            return Err(Refusal::BadName);
        }
        Ok(Name {
            text: ArcStr::from_str(alloc, text)?,
        })
    }

    /// The text of the name.
    pub fn text(&self) -> &str
        ensures text { result.now ≡ self.now }
        ensures valid { IsTrue (is_name self.now) }
    {
        self.text.as_str()
    }

    /// The same name once more. Costs a count, and takes no memory for the text. The only error is
    /// [`Refusal::NoMemory`].
    pub fn copy(&self) -> Result<Name, Refusal>
        ensures same { IfOk result (λ name. name ≡ self.now) }
        ensures only { IfErr result (λ e. e ≡ Refusal.NoMemory) }
    {
        Ok(self.clone()?)
    }
}
