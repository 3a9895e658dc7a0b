//! Look-ups in rows, which may stop a search.

use crate::stop::Stop;

/// The row at an index; [`Stop::Lost`] past the last one.
#[inline(always)]
pub fn at<T>(rows: &[T], index: u32) -> Result<&T, Stop> {
    match rows.get(index as usize) {
        None => Err(Stop::Lost),
        Some(row) => Ok(row),
    }
}

/// As `at`, to write there.
#[inline(always)]
pub fn at_mut<T>(rows: &mut [T], index: u32) -> Result<&mut T, Stop> {
    match rows.get_mut(index as usize) {
        None => Err(Stop::Lost),
        Some(row) => Ok(row),
    }
}

/// The rows from an index on. To skip those before would take time for each of them.
#[inline(always)]
pub fn rows_from<T>(rows: &[T], first: usize) -> &[T] {
    match rows.get(first..) {
        None => &[],
        Some(rest) => rest,
    }
}

/// The index of the row that comes next.
#[inline(always)]
pub fn index_of(rows: usize) -> Result<u32, Stop> {
    match u32::try_from(rows) {
        Err(_) => Err(Stop::Lost),
        Ok(index) => Ok(index),
    }
}

/// How many rows there are, of which there are never more than this says.
#[inline(always)]
pub fn count_of(rows: usize) -> u32 {
    u32::try_from(rows).unwrap_or(u32::MAX)
}
