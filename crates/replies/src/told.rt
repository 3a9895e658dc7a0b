//! A refusal as it is told: its derivation and what explains it, with their texts made beforehand.
ghost use Rattle.std.specs.Prelude.{◌≡◌, map, string_bytes, IfOk};
ghost use Rattle.serde_json.specs.Written.{compact_text};
ghost use Rattle.replies.specs.NamedJson.{derivation_json};
ghost use Rattle.replies.specs.Replies.{texts_json};

use crate::written::{derivation_text, texts_json};
use by_name::NamedDerivation;
use std::alloc::{AllocError, Global};
use std::marker::Model;

/// A derivation that no selection meets a request, with the lines that explain it.
///
/// It holds the JSON of both, so that a reply that tells it takes no memory.
#[derive(Drop)]
pub struct Explained {
    derivation: NamedDerivation,
    lines: Vec<String>,
    derivation_text: String,
    lines_text: String,
}

impl Model for Explained {
    ghost use Rattle.std.specs.Prelude.{◌≡◌, map, string_bytes};
    ghost use Rattle.serde_json.specs.Written.{compact_text};
    ghost use Rattle.replies.specs.NamedJson.{derivation_json};
    ghost use Rattle.replies.specs.Replies.{texts_json};
    ghost use Rattle.replies.specs.Told.{Told};

    ghost Value = { Told };

    ghost view = { λ e. record { lines = e.derivation; texts = map (λ t. string_bytes t) e.lines.items } };

    ghost invariant = { λ e. (string_bytes e.derivation_text ≡ compact_text (derivation_json e.derivation))
        × (string_bytes e.lines_text ≡ compact_text (texts_json (map (λ t. string_bytes t) e.lines.items))) };
}

impl Explained {
    /// Makes the texts of a derivation and of the lines that explain it.
    pub fn new(
        alloc: Global,
        derivation: NamedDerivation,
        lines: Vec<String>,
    ) -> Result<Explained, AllocError>
        ensures { IfOk result (λ e. e ≡ record { lines = derivation; texts = map (λ t. string_bytes t) lines.items }) }
    {
        let derivation_text = derivation_text(alloc, &derivation)?;
        let lines_text = texts_json(alloc, &lines)?.to_string(alloc)?;
        Ok(Explained {
            derivation,
            lines,
            derivation_text,
            lines_text,
        })
    }

    /// The JSON of the derivation.
    pub fn derivation_text(&self) -> &str
        ensures { result.now ≡ compact_text (derivation_json self.now.lines) }
    {
        self.derivation_text.as_str()
    }

    /// The JSON of the lines that explain it.
    pub fn lines_text(&self) -> &str
        ensures { result.now ≡ compact_text (texts_json self.now.texts) }
    {
        self.lines_text.as_str()
    }
}
