//! Texts of answers, which are put together piece by piece.

use crate::call_result::CallResult;
use crate::reading::Unread;
use std::alloc::Global;
use std::fmt;
use versions::Refusal;

/// JSON that is put together piece by piece. Once memory is refused it takes no more, and no answer comes of it: so
/// whoever puts pieces need not look at each of them.
#[derive(Drop)]
pub struct AnswerText {
    text: String,
    is_refused: bool,
}

impl AnswerText {
    pub fn new(alloc: Global) -> AnswerText {
        AnswerText {
            text: String::new(alloc),
            is_refused: false,
        }
    }

    /// Puts a piece as it is.
    pub fn put(&mut self, piece: &str) {
        self.is_refused = self.is_refused || self.text.push_str(piece).is_err();
    }

    /// Puts what stands before an item of a list.
    pub fn put_between(&mut self, is_first: bool) {
        if !is_first {
            self.put(",");
        }
    }

    /// Puts a value as `{}` writes it.
    pub fn put_plain<D: fmt::Display + Drop>(&mut self, value: D) {
        self.is_refused = self.is_refused || self.text.write(value).is_err();
    }

    /// Puts a text as JSON has it.
    pub fn put_quoted(&mut self, text: &str) {
        self.put("\"");
        for c in text.chars() {
            self.put_escaped(c);
        }
        self.put("\"");
    }

    fn put_escaped(&mut self, c: char) {
        match c {
            '"' => self.put("\\\""),
            '\\' => self.put("\\\\"),
            '\0'..='\x1f' => self.put_control(c as u32),
            _ => self.put_plain(c),
        }
    }

    fn put_control(&mut self, code: u32) {
        self.is_refused = self.is_refused || write!(self.text, "\\u{code:04x}").is_err();
    }

    /// The answer that the text is.
    pub fn answer(self) -> Result<CallResult, Unread> {
        if self.is_refused {
            return Err(Unread::Refused(Refusal::NoMemory));
        }
        Ok(CallResult::Text(self.text))
    }
}
