//! How the requests of a session are answered, as far as their lines do not say.

/// How the requests of a session, or of a race, are answered, as far as their lines do not say.
#[derive(Clone, Copy, Debug, PartialEq, Eq)]
pub struct Settings {
    /// The budget of each request that names none, if there is one.
    pub budget: Option<u32>,
}
