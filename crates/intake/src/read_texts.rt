//! Names, versions and requirements that were read before, found by their texts.
//!
//! Of a table nothing has to be known: each entry's own type says what its text reads as. A text that is not found, or
//! whose place another has taken, is read again.
ghost use Rattle.std.specs.Prelude.{◌≡◌, IfSome, IsTrue};
ghost use Rattle.versions.specs.Words.{is_name, is_requirement, is_version};

use std::alloc::Global;
use versions::{Name, Need, Published};

/// How many bits the number of a place has.
/// Measured at half and at twice this value: docs/BENCHMARKS.md, Constants.
const PLACE_BITS: u32 = 13;

/// How many places a table has.
const PLACES: usize = 1 << PLACE_BITS;

/// The bytes of the longest version or requirement that is kept. A requirement of 256 bytes can say more than a hundred
/// things, each of which takes memory. A session that publishes 9,000 different ones of 64 bytes takes 19.3 MB with this
/// limit and with 16, since the registry shares what is kept.
/// Measured at half and at twice this value: docs/BENCHMARKS.md, Constants.
const KEPT_LIMIT: usize = 64;

/// Names, versions and requirements that were read before. A later text takes the place of an earlier one.
#[derive(Drop)]
pub struct ReadTexts {
    names: Vec<Option<Name>>,
    versions: Vec<Option<Published>>,
    needs: Vec<Option<Need>>,
}

impl ReadTexts {
    /// Nothing was read before.
    pub fn new(alloc: Global) -> ReadTexts {
        ReadTexts {
            names: Vec::new(alloc),
            versions: Vec::new(alloc),
            needs: Vec::new(alloc),
        }
    }

    /// The name that a text is. None where it is none, or where there is no memory.
    pub fn name(&mut self, alloc: Global, text: &str) -> Option<Name>
        ensures { IfSome result (λ name. (name ≡ text.now) × IsTrue (is_name text.now)) }
    {
        let place = place_of(text.as_bytes());
        if let Some(name) = name_at(self.names.as_slice(), place, text) {
            return name.copy().ok();
        }
        let Ok(name) = Name::read(alloc, text) else {
            return None;
        };
        if let Ok(copy) = name.copy() {
            keep(&mut self.names, place, copy);
        }
        Some(name)
    }

    /// The version that a text is. None where it is none, or where there is no memory.
    pub fn version(&mut self, alloc: Global, text: &str) -> Option<Published>
        ensures { IfSome result (λ version. (version ≡ text.now) × IsTrue (is_version text.now)) }
    {
        let place = place_of(text.as_bytes());
        if let Some(version) = version_at(self.versions.as_slice(), place, text) {
            return version.copy().ok();
        }
        let Ok(version) = Published::read(alloc, text) else {
            return None;
        };
        if text.len() <= KEPT_LIMIT {
            if let Ok(copy) = version.copy() {
                keep(&mut self.versions, place, copy);
            }
        }
        Some(version)
    }

    /// The requirement that a text is. None where it is none, or where there is no memory.
    pub fn need(&mut self, alloc: Global, text: &str) -> Option<Need>
        ensures { IfSome result (λ need. (need ≡ text.now) × IsTrue (is_requirement text.now)) }
    {
        let place = place_of(text.as_bytes());
        if let Some(need) = need_at(self.needs.as_slice(), place, text) {
            return need.copy().ok();
        }
        let Ok(need) = Need::read(alloc, text) else {
            return None;
        };
        if text.len() <= KEPT_LIMIT {
            if let Ok(copy) = need.copy() {
                keep(&mut self.needs, place, copy);
            }
        }
        Some(need)
    }
}

/// The place of a text, below [`PLACES`]. Any would do; texts that differ had better have different ones.
fn place_of(text: &[u8]) -> usize {
    let mut mixed = text.len() as u64;
    for word in text.chunks(8) {
        mixed = (mixed.rotate_left(5) ^ word_of(word)).wrapping_mul(0x517c_c1b7_2722_0a95);
    }
    // Of a product the highest bits rest on all bits of what was multiplied.
    (mixed >> (64 - PLACE_BITS)) as usize
}

/// Up to eight bytes as one number.
fn word_of(bytes: &[u8]) -> u64 {
    match bytes {
        [a, b, c, d, e, f, g, h] => u64::from_le_bytes([*a, *b, *c, *d, *e, *f, *g, *h]),
        few => few.iter().fold(0, |word: u64, byte| word.rotate_left(8) ^ u64::from(*byte)),
    }
}

/// The name at a place, where it has this text.
fn name_at<'a>(names: &'a [Option<Name>], place: usize, text: &str) -> Option<&'a Name>
    ensures { IfSome result (λ name. (name.now ≡ text.now) × IsTrue (is_name text.now)) }
{
    match names.get(place) {
        Some(Some(name)) => if name.text() == text {
            Some(name)
        } else {
            None
        },
        _ => None,
    }
}

/// The version at a place, where it has this text.
fn version_at<'a>(
    versions: &'a [Option<Published>],
    place: usize,
    text: &str,
) -> Option<&'a Published>
    ensures { IfSome result (λ version. (version.now ≡ text.now) × IsTrue (is_version text.now)) }
{
    match versions.get(place) {
        Some(Some(version)) => if version.text() == text {
            Some(version)
        } else {
            None
        },
        _ => None,
    }
}

/// The requirement at a place, where it has this text.
fn need_at<'a>(needs: &'a [Option<Need>], place: usize, text: &str) -> Option<&'a Need>
    ensures { IfSome result (λ need. (need.now ≡ text.now) × IsTrue (is_requirement text.now)) }
{
    match needs.get(place) {
        Some(Some(need)) => if need.text() == text {
            Some(need)
        } else {
            None
        },
        _ => None,
    }
}

/// Keeps what was read at a place, where there is memory for the table.
fn keep<T: Drop>(table: &mut Vec<Option<T>>, place: usize, kept: T) {
    if table.is_empty() {
        make_places(table);
    }
    if place < table.len() {
        table[place] = Some(kept);
    }
}

/// Makes the places of a table that has none, as far as there is memory for them.
fn make_places<T: Drop>(table: &mut Vec<Option<T>>) {
    if table.reserve(PLACES).is_err() {
        return;
    }
    for _ in 0..PLACES {
        if table.push(None).is_err() {
            return;
        }
    }
}
