//! Requirements on the version of a package.
ghost use Rattle.std.specs.Prelude.{◌≡◌, ◌↔◌, IfErr, IfOk, IsTrue, Ok, false, map};
ghost use Rattle.std.specs.Str.{bytes_eq};
ghost use Rattle.std.specs.Hash as fed;
ghost use Rattle.std.specs.Cmp.{partial_equiv_from_equiv};
ghost use Rattle.std.specs.Cmp.Lexicographic.{nat_list_eq_equiv};
ghost use Rattle.semver.specs.Identifiers.{comparator_view};
ghost use Rattle.semver.specs.Parse.{req_of};
ghost use Rattle.versions.specs.NameLaws.{same_hash};
ghost use Rattle.versions.specs.PreReleases.{PreReleasesAreNamed};
ghost use Rattle.versions.specs.Readings.{need_in};
ghost use Rattle.versions.specs.Refusals.{Gives};
ghost use Rattle.versions.specs.Words.{is_requirement, meets};

use crate::faults::refusal_of;
use crate::parsed_text::ParsedText;
use crate::published::Published;
use crate::refusal::Refusal;
use semver::VersionReq;
use std::alloc::{AllocError, Global};
use std::hash::{Hash, Hasher};
use std::marker::Model;
use std::sync::Arc;

/// The bytes that a requirement's text may have, its spaces among them.
pub const REQUIREMENT_LIMIT: usize = 256;

/// A requirement on the version of a package, by its text (Cargo Book, "Specifying Dependencies").
///
/// Requirements are equal and hash by their texts, so that two texts with the same meaning are two
/// requirements. A copy shares the text and what was read from it.
#[derive(Drop)]
pub struct Need {
    kept: Arc<ParsedText<VersionReq>>,
}

impl Model for Need {
    ghost use Rattle.std.specs.Prelude.{◌≡◌, ◌≤◌, ℕ, List, Ok, length, map, string_bytes};
    ghost use Rattle.std.specs.Arc.{arc_value};
    ghost use Rattle.semver.specs.Identifiers.{comparator_view};
    ghost use Rattle.semver.specs.Parse.{req_of};
    ghost use Rattle.versions.specs.declared.need.TheConstants.{REQUIREMENT_LIMIT};

    ghost Value = { List ℕ };

    ghost view = { λ n. string_bytes (arc_value n.kept).text };

    ghost invariant = { λ n. (length (string_bytes (arc_value n.kept).text) ≤ REQUIREMENT_LIMIT)
        × (req_of (string_bytes (arc_value n.kept).text) ≡ Ok (map comparator_view (arc_value n.kept).parsed.comparators.items)) };
}

impl PartialEq for Need {
    ghost eq = { bytes_eq };

    ghost laws = { partial_equiv_from_equiv nat_list_eq_equiv };

    fn eq(&self, other: &Need) -> bool {
        self.kept.text.as_str() == other.kept.text.as_str()
    }
}

impl Eq for Need {
    ghost laws = { nat_list_eq_equiv };
}

impl Hash for Need {
    ghost hash_input = { λ need. fed.str need };

    ghost respects_eq = { same_hash };

    fn hash<H: Hasher>(&self, state: &mut H) {
        self.kept.text.as_str().hash(state);
    }
}

impl Clone for Need {
    ghost is_clone = { λ need copy. copy ≡ need };

    fn clone(&self) -> Result<Need, AllocError> {
        Ok(Need {
            kept: self.kept.clone()?,
        })
    }
}

impl Need {
    /// Reads a requirement and keeps its text. Any other text is [`Refusal::BadRequirement`], also one above
    /// [`REQUIREMENT_LIMIT`] bytes.
    pub fn read(alloc: Global, text: &str) -> Result<Need, Refusal>
        ensures gives { Gives (λ need. need) result (need_in text.now) }
        ensures refused { (result ≡ Err Refusal.BadRequirement) ↔ (is_requirement text.now ≡ false) }
    {
        if text.len() > REQUIREMENT_LIMIT {
            return Err(Refusal::BadRequirement);
        }
        match VersionReq::parse(alloc, text) {
            Ok(mut parsed) => {
                // A list that grew has room for four comparators, and most requirements have one.
                parsed.comparators.shrink_to_fit();
                let text = String::from_str(alloc, text)?;
                Ok(Need {
                    kept: Arc::new(alloc, ParsedText { text, parsed })?,
                })
            }
            Err(fault) => Err(refusal_of(fault, Refusal::BadRequirement)),
        }
    }

    /// The text of the requirement, as it was read.
    pub fn text(&self) -> &str
        ensures text { result.now ≡ self.now }
        ensures valid { IsTrue (is_requirement self.now) }
    {
        self.kept.text.as_str()
    }

    /// The same requirement once more. Costs a count, and takes no memory for the text. The only error is
    /// [`Refusal::NoMemory`].
    pub fn copy(&self) -> Result<Need, Refusal>
        ensures same { IfOk result (λ need. need ≡ self.now) }
        ensures only { IfErr result (λ e. e ≡ Refusal.NoMemory) }
    {
        Ok(self.clone()?)
    }

    /// Whether a version meets the requirement.
    pub fn admits(&self, version: &Published) -> bool
        ensures { result ≡ meets self.now version.now }
    {
        self.parsed().matches(version.parsed())
    }

    /// What was read from the text.
    pub(crate) fn parsed(&self) -> &VersionReq
        ensures { req_of self.now ≡ Ok (map comparator_view result.now.comparators.items) }
    {
        &self.kept.parsed
    }
}

/// A law of [`Need::admits`]: a pre-release that meets a requirement is named by one of its
/// comparators, with the same major, minor and patch and a pre-release of its own.
pub fn pre_releases_are_named()
    ensures { PreReleasesAreNamed }
{}
