//! What the allocator does with memory that is freed.

use std::alloc::{AllocError, Global};

/// The largest piece of memory that makes the allocator change its thresholds (mallopt(3),
/// `M_MMAP_THRESHOLD`: up to 32 MB on 64-bit systems), with what it takes for itself. The workload `partial` takes an
/// eighth less time than with 1 MB.
const LARGE: usize = (32 << 20) - (64 << 10);

/// A piece that can be had where memory is scarce.
const SMALL: usize = 1 << 20;

/// Takes a piece of memory of this size, which nothing is written to, and gives it back.
fn give_back(alloc: Global, size: usize) -> Result<(), AllocError> {
    let piece: Vec<u8> = Vec::with_capacity(alloc, size)?;
    drop(piece);
    Ok(())
}

/// Takes a large piece of memory and gives it back, or a smaller one where that can't be had.
///
/// The allocator of the C library returns memory that is freed to the system, beyond a threshold of
/// 128 kB at first, which rises to twice the largest piece that was mapped by itself and given back
/// (mallopt(3), `M_TRIM_THRESHOLD`). A search takes some hundreds of kilobytes, and a hard one tens of
/// megabytes; without this, each request would return its pages and take them again.
pub fn keep_what_is_freed(alloc: Global) {
    if give_back(alloc, LARGE).is_err() {
        let _ = give_back(alloc, SMALL);
    }
}
