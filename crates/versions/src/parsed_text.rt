//! A text that is kept beside what was read from it.

/// A text and its parsed form. Versions and requirements share one of these between their copies.
#[derive(Drop)]
pub(crate) struct ParsedText<T> {
    pub text: String,
    pub parsed: T,
}
