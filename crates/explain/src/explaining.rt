//! Explanations, line by line.
ghost use Rattle.std.specs.Prelude.{◌≡◌, ◌≢◌, ◌++◌, ◌∷◌, [], map, string_bytes, IfErr, IfOk};
ghost use Rattle.std.specs.IoError.{error_kind};
ghost use Rattle.lines.specs.Texts.{Writes};
ghost use Rattle.explain.specs.Explanations.{explanation, line_text, numbered_from, text_of};

use crate::causes::put_cause;
use crate::choices::put_number;
use crate::conclusions::put_terms;
use derivations::{Derivation, Line};
use lines::write_texts;
use registry::{Registry, Request};
use std::alloc::{AllocError, Global};
use std::io;
use std::io::{ErrorKind, Write};

/// What ends each explanation.
const CLOSING: &str = "So no selection meets the request.";

/// What a line says and why, with its number, which counts from 1.
fn line_text(
    alloc: Global,
    registry: &Registry,
    request: &Request,
    number: usize,
    line: &Line,
) -> Result<String, AllocError>
    ensures { IfOk result (λ text. string_bytes text
        ≡ line_text registry.now.packages request.now number line.now) }
{
    let mut text = String::new(alloc);
    put_number(&mut text, number)?;
    text.push_str(". never (")?;
    put_terms(alloc, &mut text, registry, line.conclusion.terms())?;
    text.push_str("), because ")?;
    put_cause(alloc, &mut text, registry, request, &line.causes.0)?;
    text.push_str(" and ")?;
    put_cause(alloc, &mut text, registry, request, &line.causes.1)?;
    Ok(text)
}

/// The numbered lines, one for each line of a derivation.
fn numbered_lines(
    alloc: Global,
    registry: &Registry,
    request: &Request,
    lines: &[Line],
) -> Result<Vec<String>, AllocError>
    ensures { IfOk result (λ texts. map (λ t. string_bytes t) texts.items
        ≡ numbered_from registry.now.packages request.now 1 lines.now) }
{
    let mut texts = Vec::with_capacity(alloc, lines.len() + 1)?;
    for (place, line) in lines.iter().enumerate() {
        let text = line_text(alloc, registry, request, place + 1, line)?;
        texts.push(text)?;
    }
    Ok(texts)
}

/// Why no selection meets the request, in numbered lines and a closing one, without line feeds.
///
/// The lines are those of any derivation; only where it was checked do they say what is true. The
/// cost grows with the text.
pub fn explanation(
    alloc: Global,
    registry: &Registry,
    request: &Request,
    derivation: &Derivation,
) -> Result<Vec<String>, AllocError>
    ensures { IfOk result (λ lines. map (λ t. string_bytes t) lines.items
        ≡ explanation registry.now.packages request.now derivation.now) }
{
    let mut lines = numbered_lines(alloc, registry, request, derivation.lines())?;
    lines.push(String::from_str(alloc, CLOSING)?)?;
    Ok(lines)
}

/// Writes a line, and ends it.
fn write_line<W: Write>(writer: &mut W, line: &str) -> io::Result<()>
    ensures written { Writes (W.contents writer.old) (W.contents writer.new) result (line.now ++ 10 ∷ []) }
    ensures retried { IfErr result (λ e. error_kind e ≢ ErrorKind.Interrupted) }
{
    write_texts(writer, &[line.as_bytes(), b"\n"])
}

/// Writes lines that were made, each ended by a line feed.
fn write_all<W: Write>(writer: &mut W, lines: &[String]) -> io::Result<()>
    ensures written { Writes (W.contents writer.old) (W.contents writer.new) result
        (text_of (map (λ t. string_bytes t) lines.now)) }
    ensures retried { IfErr result (λ e. error_kind e ≢ ErrorKind.Interrupted) }
{
    for line in lines {
        write_line(writer, line.as_str())?;
    }
    Ok(())
}

/// Writes the lines that explain a derivation, each ended by a line feed, and nothing else.
///
/// All lines are made before the first is written: lack of memory is answered before that, as
/// [`ErrorKind::OutOfMemory`]. After any other error a beginning of the text is written.
pub fn write_lines<W: Write>(
    alloc: Global,
    registry: &Registry,
    request: &Request,
    derivation: &Derivation,
    writer: &mut W,
) -> io::Result<()>
    ensures written { Writes (W.contents writer.old) (W.contents writer.new) result
        (text_of (explanation registry.now.packages request.now derivation.now)) }
    ensures retried { IfErr result (λ e. error_kind e ≢ ErrorKind.Interrupted) }
{
    match explanation(alloc, registry, request, derivation) {
        Ok(lines) => write_all(writer, &lines),
        Err(_) => Err(io::Error::from(ErrorKind::OutOfMemory)),
    }
}
