//! What a row gives.

use serde_json::Value;
use std::alloc::{AllocError, AllocFailed, Global};
use terms::{Incompat, Term, VSet};
use versions::Refusal;

/// Why a call was not made.
#[derive(Clone, Copy, Drop)]
pub enum Unread {
    Refused(Refusal),
    Row,
}

impl From<AllocError> for Unread {
    fn from(_error: AllocError) -> Unread {
        Unread::Refused(Refusal::NoMemory)
    }
}

impl From<Refusal> for Unread {
    fn from(refusal: Refusal) -> Unread {
        Unread::Refused(refusal)
    }
}

impl<T: Drop> From<AllocFailed<T>> for Unread {
    fn from(_refused: AllocFailed<T>) -> Unread {
        Unread::Refused(Refusal::NoMemory)
    }
}

pub fn member<'v>(row: &'v Value, name: &str) -> Result<&'v Value, Unread> {
    row.get(name).ok_or(Unread::Row)
}

pub fn text(value: &Value) -> Result<&str, Unread> {
    value.as_str().ok_or(Unread::Row)
}

pub fn text_at<'v>(row: &'v Value, name: &str) -> Result<&'v str, Unread> {
    text(member(row, name)?)
}

pub fn items(value: &Value) -> Result<&[Value], Unread> {
    match value.as_array() {
        Some(items) => Ok(items.as_slice()),
        None => Err(Unread::Row),
    }
}

pub fn whole(value: &Value) -> Result<u32, Unread> {
    match value.as_u64() {
        Some(whole) if whole <= u32::MAX as u64 => Ok(whole as u32),
        _ => Err(Unread::Row),
    }
}

pub fn whole_at(row: &Value, name: &str) -> Result<u32, Unread> {
    whole(member(row, name)?)
}

pub fn size_at(row: &Value, name: &str) -> Result<usize, Unread> {
    Ok(whole_at(row, name)? as usize)
}

/// What a row can give.
pub trait Given: Sized {
    fn of(alloc: Global, value: &Value) -> Result<Self, Unread>;
}

/// What a row gives under a name.
pub fn at<T: Given>(alloc: Global, row: &Value, name: &str) -> Result<T, Unread> {
    T::of(alloc, member(row, name)?)
}

/// What a row gives under two names. It is read here, and not one after another where it is used: a proof grows with
/// the values that a function owns, times its ways out.
pub fn both<A: Given + Drop, B: Given>(
    alloc: Global,
    row: &Value,
    first: &str,
    second: &str,
) -> Result<(A, B), Unread> {
    Ok((at(alloc, row, first)?, at(alloc, row, second)?))
}

/// As `both`, under three names.
pub fn three<A: Given + Drop, B: Given + Drop, C: Given>(
    alloc: Global,
    row: &Value,
    first: &str,
    second: &str,
    third: &str,
) -> Result<(A, B, C), Unread> {
    let (one, two) = both(alloc, row, first, second)?;
    Ok((one, two, at(alloc, row, third)?))
}

/// A list, as `[1,2]`.
impl<T: Given + Drop> Given for Vec<T> {
    fn of(alloc: Global, value: &Value) -> Result<Vec<T>, Unread> {
        let mut all = Vec::new(alloc);
        match put_items(alloc, value, &mut all) {
            Ok(()) => Ok(all),
            Err(why) => {
                drop(all);
                Err(why)
            }
        }
    }
}

fn put_items<T: Given + Drop>(
    alloc: Global,
    value: &Value,
    all: &mut Vec<T>,
) -> Result<(), Unread> {
    for item in items(value)? {
        all.push(T::of(alloc, item)?)?;
    }
    Ok(())
}

/// A pair, as `["a","^1"]`.
impl<A: Given + Drop, B: Given> Given for (A, B) {
    fn of(alloc: Global, value: &Value) -> Result<(A, B), Unread> {
        match items(value)? {
            [first, second] => Ok((A::of(alloc, first)?, B::of(alloc, second)?)),
            _ => Err(Unread::Row),
        }
    }
}

impl Given for u32 {
    fn of(_alloc: Global, value: &Value) -> Result<u32, Unread> {
        whole(value)
    }
}

impl Given for VSet {
    fn of(alloc: Global, value: &Value) -> Result<VSet, Unread> {
        let ordinals = <Vec<u32>>::of(alloc, value)?;
        let set = VSet::of(alloc, &ordinals);
        drop(ordinals);
        Ok(set?)
    }
}

/// `{"in":[0,1]}` or `{"not":[2]}`.
impl Given for Term {
    fn of(alloc: Global, value: &Value) -> Result<Term, Unread> {
        match value.get("in") {
            Some(listed) => Ok(Term::In(<VSet as Given>::of(alloc, listed)?)),
            None => Ok(Term::NotIn(at(alloc, value, "not")?)),
        }
    }
}

/// Terms by package, as `[[3,{"in":[0]}]]`.
impl Given for Incompat {
    fn of(alloc: Global, value: &Value) -> Result<Incompat, Unread> {
        Incompat::new(Given::of(alloc, value)?).ok_or(Unread::Row)
    }
}
