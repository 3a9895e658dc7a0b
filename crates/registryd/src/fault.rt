//! What can be the matter with the file that a session keeps its journal in.
ghost use Rattle.std.specs.Prelude.{◌≡◌, ◌<◌, ◌++◌, [], None, Some, IfOk, OnOk};
ghost use Rattle.registryd.specs.Faults.{plain_text};
ghost use Rattle.registryd.specs.Shown.{IsShown, hex_digit, shown_byte, shown_text};

use std::alloc::{AllocError, Global};
use std::io;

/// What is the matter with a file.
#[derive(Clone, Copy, Debug, PartialEq, Eq)]
pub enum What {
    /// Another session has it.
    InUse,
    /// It is a folder, a device or the like.
    NotPlain,
    /// The line of this number, counted from 1, is not a journal's.
    Line(usize),
    /// Its name leads to no file or to another one, or it is not as long as the session left it.
    Changed,
    /// The system refused something.
    Opened,
    Created,
    Locked,
    Read,
    Cut,
    Written,
    Synced,
}

impl What {
    /// What is told of it, but for a line.
    pub fn words(self) -> &'static str
        ensures { result.now ≡ plain_text self }
    {
        match self {
            What::InUse => "in use by another session",
            What::NotPlain => "not a plain file",
            What::Line(_) => "not a journal's",
            What::Changed => "changed by another program, and not gone on with",
            What::Opened => "can't be opened",
            What::Created => "can't be created",
            What::Locked => "can't be locked",
            What::Read => "can't be read",
            What::Cut => "can't be cut",
            What::Written => "can't be written",
            What::Synced => "can't be synced",
        }
    }
}

/// What failed at a file, and what the system answered, if it was asked.
#[derive(Clone, Copy)]
pub struct Failure {
    pub what: What,
    pub error: Option<io::Error>,
}

impl Failure {
    /// Nothing was asked of the system.
    pub fn of(what: What) -> Failure
        ensures what { result.what ≡ what }
        ensures error { result.error ≡ None }
    {
        Failure { what, error: None }
    }

    /// The system refused it.
    pub fn by(what: What, error: io::Error) -> Failure
        ensures what { result.what ≡ what }
        ensures error { result.error ≡ Some error }
    {
        Failure {
            what,
            error: Some(error),
        }
    }
}

/// What is told of a file: all of it is text of one line.
#[derive(Drop)]
pub struct FileFault {
    /// The file's name, as it is shown.
    pub name: Vec<u8>,
    pub what: What,
    /// What the system says to it; empty where it says nothing.
    pub words: Vec<u8>,
}

/// What is told of a failure at the file of this name, which is shown already. Where no memory is there for what the system
/// says, that is left out.
pub fn told(alloc: Global, name: Vec<u8>, failure: Failure) -> FileFault
    ensures name { result.name ≡ name }
    ensures what { result.what ≡ failure.what }
    ensures unasked { failure.error ≡ None → result.words.items ≡ [] }
    // Whatever the system says stands within the line.
    ensures words { IsShown result.words.items }
{
    let words = match failure.error {
        Some(error) => said(alloc, &error),
        None => Vec::new(alloc),
    };
    FileFault {
        name,
        what: failure.what,
        words,
    }
}

/// What the system says of an error, as it is shown.
fn said(alloc: Global, error: &io::Error) -> Vec<u8>
    ensures { IsShown result.items }
{
    match shown_error(alloc, error) {
        Ok(words) => words,
        Err(_) => Vec::new(alloc),
    }
}

fn shown_error(alloc: Global, error: &io::Error) -> Result<Vec<u8>, AllocError>
    ensures { IfOk result (λ v. IsShown v.items) }
{
    let text = format!(in alloc; "{error}")?;
    shown(alloc, text.as_str())
}

/// A text as it is shown within a line: each control character of ASCII is told by its number, as `\x0a`.
pub fn shown(alloc: Global, text: &str) -> Result<Vec<u8>, AllocError>
    ensures { IfOk result (λ v. v.items ≡ shown_text text.now) }
{
    let mut all = Vec::with_capacity(alloc, text.len())?;
    for byte in text.as_bytes() {
        put_shown(&mut all, *byte)?;
    }
    Ok(all)
}

fn put_shown(all: &mut Vec<u8>, byte: u8) -> Result<(), AllocError>
    ensures { OnOk result (all.new.items ≡ all.old.items ++ shown_byte byte) }
{
    if byte < 32 || byte == 127 {
        all.push(b'\\')?;
        all.push(b'x')?;
        all.push(hex(byte / 16))?;
        all.push(hex(byte % 16))?;
    } else {
        all.push(byte)?;
    }
    Ok(())
}

fn hex(digit: u8) -> u8
    requires { digit < 16 }
    ensures { result ≡ hex_digit digit }
{
    if digit < 10 {
        b'0' + digit
    } else {
        b'a' + (digit - 10)
    }
}
