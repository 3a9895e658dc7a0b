//! Names, versions and requirements of a row.

use crate::reading::{Given, Unread, both, text};
use registry::Request;
use serde_json::Value;
use std::alloc::Global;
use versions::{Name, Need, Published};

impl Given for Name {
    fn of(alloc: Global, value: &Value) -> Result<Name, Unread> {
        Ok(Name::read(alloc, text(value)?)?)
    }
}

impl Given for Published {
    fn of(alloc: Global, value: &Value) -> Result<Published, Unread> {
        Ok(Published::read(alloc, text(value)?)?)
    }
}

impl Given for Need {
    fn of(alloc: Global, value: &Value) -> Result<Need, Unread> {
        Ok(Need::read(alloc, text(value)?)?)
    }
}

/// The needs and the lock of a row.
pub fn request_at(alloc: Global, row: &Value) -> Result<Request, Unread> {
    let (needs, lock) = both(alloc, row, "needs", "lock")?;
    Ok(Request::new(alloc, needs, lock)?)
}
