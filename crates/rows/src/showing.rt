//! Values as answers tell them, in JSON.

use crate::answer_text::AnswerText;
use crate::call_result::CallResult;
use crate::reading::Unread;
use std::alloc::Global;
use terms::{Incompat, Term, VSet};
use versions::{Name, Need, Published};

/// What an answer can tell.
pub trait Shows {
    fn show(&self, text: &mut AnswerText);
}

/// The answer that tells a value.
pub fn shown<T: Shows>(alloc: Global, value: &T) -> Result<CallResult, Unread> {
    let mut text = AnswerText::new(alloc);
    value.show(&mut text);
    text.answer()
}

/// As `shown`, of a value that only the answer needs.
pub fn given<T: Shows + Drop>(alloc: Global, value: T) -> Result<CallResult, Unread> {
    shown(alloc, &value)
}

/// As `given`, of a value that may be refused. A call with a way out costs a proof more than a call.
pub fn given_if<T: Shows + Drop, E>(
    alloc: Global,
    outcome: Result<T, E>,
) -> Result<CallResult, Unread>
where
    Unread: From<E>,
{
    given(alloc, outcome?)
}

// ---- many and few

impl<T: Shows> Shows for &[T] {
    fn show(&self, text: &mut AnswerText) {
        let mut is_first = true;
        text.put("[");
        for item in *self {
            text.put_between(is_first);
            item.show(text);
            is_first = false;
        }
        text.put("]");
    }
}

impl<T: Shows> Shows for Vec<T> {
    fn show(&self, text: &mut AnswerText) {
        self.as_slice().show(text);
    }
}

impl<A: Shows, B: Shows> Shows for (A, B) {
    fn show(&self, text: &mut AnswerText) {
        text.put("[");
        self.0.show(text);
        text.put(",");
        self.1.show(text);
        text.put("]");
    }
}

impl<T: Shows> Shows for &T {
    fn show(&self, text: &mut AnswerText) {
        let value: &T = self;
        value.show(text);
    }
}

impl<T: Shows> Shows for Option<T> {
    fn show(&self, text: &mut AnswerText) {
        match self {
            Some(value) => value.show(text),
            None => text.put("null"),
        }
    }
}

// ---- numbers and texts

impl Shows for bool {
    fn show(&self, text: &mut AnswerText) {
        text.put_plain(*self);
    }
}

impl Shows for u32 {
    fn show(&self, text: &mut AnswerText) {
        text.put_plain(*self);
    }
}

impl Shows for usize {
    fn show(&self, text: &mut AnswerText) {
        text.put_plain(*self);
    }
}

impl Shows for &str {
    fn show(&self, text: &mut AnswerText) {
        text.put_quoted(self);
    }
}

impl Shows for String {
    fn show(&self, text: &mut AnswerText) {
        text.put_quoted(self.as_str());
    }
}

impl Shows for Name {
    fn show(&self, text: &mut AnswerText) {
        text.put_quoted(self.text());
    }
}

impl Shows for Published {
    fn show(&self, text: &mut AnswerText) {
        text.put_quoted(self.text());
    }
}

impl Shows for Need {
    fn show(&self, text: &mut AnswerText) {
        text.put_quoted(self.text());
    }
}

impl Shows for CallResult {
    fn show(&self, text: &mut AnswerText) {
        text.put_plain(self);
    }
}

// ---- terms

/// A set, as `[0,1]`.
impl Shows for VSet {
    fn show(&self, text: &mut AnswerText) {
        let mut is_first = true;
        text.put("[");
        for ordinal in self.iter() {
            text.put_between(is_first);
            text.put_plain(ordinal);
            is_first = false;
        }
        text.put("]");
    }
}

/// A term, as `{"in":[0]}` or `{"not":[0]}`.
impl Shows for Term {
    fn show(&self, text: &mut AnswerText) {
        let (kind, set) = match self {
            Term::In(set) => ("{\"in\":", set),
            Term::NotIn(set) => ("{\"not\":", set),
        };
        text.put(kind);
        set.show(text);
        text.put("}");
    }
}

/// Its terms by package, as `[[1,{"in":[0]}]]`.
impl Shows for Incompat {
    fn show(&self, text: &mut AnswerText) {
        self.terms().show(text);
    }
}
