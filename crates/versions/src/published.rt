//! Versions of packages.
ghost use Rattle.std.specs.Prelude.{◌≡◌, ◌↔◌, IfErr, IfOk, IsTrue, Ok, false};
ghost use Rattle.semver.specs.Identifiers.{parts_of};
ghost use Rattle.semver.specs.Parse.{version_parts};
ghost use Rattle.versions.specs.Bounds.{IsPlain};
ghost use Rattle.versions.specs.Readings.{version_in};
ghost use Rattle.versions.specs.Refusals.{Gives};
ghost use Rattle.versions.specs.VersionTexts.{VersionsAreThoseOfTheGrammar};
ghost use Rattle.versions.specs.Words.{is_version};

use crate::faults::refusal_of;
use crate::parsed_text::ParsedText;
use crate::refusal::Refusal;
use semver::Version;
use std::alloc::{AllocError, Global};
use std::marker::Model;
use std::sync::Arc;

/// The bytes that a version's text may have.
pub const VERSION_TEXT_LIMIT: usize = 256;

/// A version that a package can publish, by its text (Semantic Versioning 2.0.0).
///
/// Two texts may be of equal precedence and still differ, in build metadata. A copy shares the
/// text and what was read from it.
#[derive(Drop)]
pub struct Published {
    kept: Arc<ParsedText<Version>>,
}

impl Model for Published {
    ghost use Rattle.std.specs.Prelude.{◌≡◌, ◌≤◌, ℕ, List, Ok, length, string_bytes};
    ghost use Rattle.std.specs.Arc.{arc_value};
    ghost use Rattle.semver.specs.Identifiers.{parts_of};
    ghost use Rattle.semver.specs.Parse.{version_parts};
    ghost use Rattle.versions.specs.declared.published.TheConstants.{VERSION_TEXT_LIMIT};

    ghost Value = { List ℕ };

    ghost view = { λ p. string_bytes (arc_value p.kept).text };

    ghost invariant = { λ p. (length (string_bytes (arc_value p.kept).text) ≤ VERSION_TEXT_LIMIT)
        × (version_parts (string_bytes (arc_value p.kept).text) ≡ Ok (parts_of (arc_value p.kept).parsed)) };
}

impl Clone for Published {
    ghost is_clone = { λ version copy. copy ≡ version };

    fn clone(&self) -> Result<Published, AllocError> {
        Ok(Published {
            kept: self.kept.clone()?,
        })
    }
}

impl Published {
    /// Reads a version and keeps its text. Any other text is [`Refusal::BadVersion`], also one above
    /// [`VERSION_TEXT_LIMIT`] bytes.
    pub fn read(alloc: Global, text: &str) -> Result<Published, Refusal>
        ensures gives { Gives (λ version. version) result (version_in text.now) }
        ensures refused { (result ≡ Err Refusal.BadVersion) ↔ (is_version text.now ≡ false) }
    {
        if text.len() > VERSION_TEXT_LIMIT {
            return Err(Refusal::BadVersion);
        }
        match Version::parse(alloc, text) {
            Ok(parsed) => {
                let text = String::from_str(alloc, text)?;
                Ok(Published {
                    kept: Arc::new(alloc, ParsedText { text, parsed })?,
                })
            }
            Err(fault) => Err(refusal_of(fault, Refusal::BadVersion)),
        }
    }

    /// The text of the version, as it was read.
    pub fn text(&self) -> &str
        ensures text { result.now ≡ self.now }
        ensures valid { IsTrue (is_version self.now) }
    {
        self.kept.text.as_str()
    }

    /// The same version once more. Costs a count, and takes no memory for the text. The only error is
    /// [`Refusal::NoMemory`].
    pub fn copy(&self) -> Result<Published, Refusal>
        ensures same { IfOk result (λ version. version ≡ self.now) }
        ensures only { IfErr result (λ e. e ≡ Refusal.NoMemory) }
    {
        Ok(self.clone()?)
    }

    /// Whether the version has no pre-release.
    pub fn is_plain(&self) -> bool
        ensures { IsTrue result ↔ IsPlain self.now }
    {
        self.kept.parsed.pre.is_empty()
    }

    /// What was read from the text.
    pub(crate) fn parsed(&self) -> &Version
        ensures { version_parts self.now ≡ Ok (parts_of result.now) }
    {
        &self.kept.parsed
    }
}

/// A law of [`Published::read`]: the versions are the texts of the grammar of Semantic Versioning
/// 2.0.0 with numbers of 64 bits, up to the limit of length.
pub fn versions_are_those_of_the_grammar()
    ensures { VersionsAreThoseOfTheGrammar }
{}
