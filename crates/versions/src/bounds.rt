//! What a requirement admits, where a version is tested by many requirements.
ghost use Rattle.std.specs.Prelude.{◌≡◌, ◌&&◌, ◌||◌, [], IfSome, false, length, true};
ghost use Rattle.semver.specs.Eval.{matches_op};
ghost use Rattle.semver.specs.Identifiers.{pre_text};
ghost use Rattle.semver.specs.declared.Version.{Version};
ghost use Rattle.versions.specs.Bounds as spec;
ghost use Rattle.versions.specs.Bounds.{numbers_in, numbers_of, IsBounded};
ghost use Rattle.versions.specs.Words.{meets};
ghost use Rattle.versions.specs.declared.bounds.Numbers.{Numbers};

use crate::need::Need;
use crate::published::Published;
use semver::{Comparator, Op, Version};
use std::marker::Model;

/// The three numbers of a version.
#[derive(Clone, Copy)]
pub struct Numbers {
    pub major: u64,
    pub minor: u64,
    pub patch: u64,
}

/// The numbers from the lowest on, and before the end where there is one.
#[derive(Clone, Copy)]
pub struct Range {
    pub lowest: Numbers,
    pub end: Option<Numbers>,
}

const ZERO: Numbers = Numbers {
    major: 0,
    minor: 0,
    patch: 0,
};

/// What a requirement admits, kept where a version is tested by many of them.
///
/// Whatever its comparators are, the versions without a pre-release that meet a requirement are those
/// from some numbers up to others. So the test of such a version is a few comparisons of numbers, which
/// stand in the value.
#[derive(Clone, Copy)]
pub struct Bounds {
    range: Range,
    /// Whether a comparator has a pre-release, without which none meets the requirement.
    opens: bool,
    /// Whether the range is not known.
    is_vague: bool,
}

impl Model for Bounds {
    ghost use Rattle.versions.specs.Bounds.{Reach};

    ghost Value = { Reach };

    ghost view = { λ b. record {
      range = b.range;
      opens = b.opens;
      is_vague = b.is_vague;
    } };

    ghost inverse = { λ r. record {
      range = r.range;
      opens = r.opens;
      is_vague = r.is_vague;
    } };
}

impl Numbers {
    /// Whether these come before others.
    fn is_before(&self, others: &Numbers) -> bool
        ensures { result ≡ spec.is_before self.now others.now }
    {
        self.major < others.major
            || (self.major == others.major
                && (self.minor < others.minor
                    || (self.minor == others.minor && self.patch < others.patch)))
    }
}

/// The numbers of a version.
fn numbers_of(version: &Published) -> Numbers
    ensures { result ≡ numbers_in version.now }
{
    let parsed = version.parsed();
    Numbers {
        major: parsed.major,
        minor: parsed.minor,
        patch: parsed.patch,
    }
}

/// The later ones of these numbers.
fn later(a: Numbers, b: Numbers) -> Numbers
    ensures { (n : Numbers) → spec.is_before n result ≡ (spec.is_before n a || spec.is_before n b) }
{
    if a.is_before(&b) { b } else { a }
}

/// The end that comes first.
fn first_end(a: Option<Numbers>, b: Option<Numbers>) -> Option<Numbers>
    ensures { (n : Numbers) → spec.is_within n result ≡ (spec.is_within n a && spec.is_within n b) }
{
    match (a, b) {
        (Some(a), Some(b)) => Some(if a.is_before(&b) { a } else { b }),
        (Some(a), None) => Some(a),
        (None, b) => b,
    }
}

impl Range {
    /// Whether the numbers are in the range.
    fn has(&self, numbers: &Numbers) -> bool
        ensures { result ≡ spec.has self.now numbers.now }
    {
        if numbers.is_before(&self.lowest) {
            return false;
        }
        match &self.end {
            Some(end) => numbers.is_before(end),
            None => true,
        }
    }

    /// The numbers that are in both ranges.
    fn and(self, other: Range) -> Range
        ensures { (n : Numbers) → spec.has result n ≡ (spec.has self n && spec.has other n) }
    {
        Range {
            lowest: later(self.lowest, other.lowest),
            end: first_end(self.end, other.end),
        }
    }
}

/// The first numbers with the next major number; None where there is none.
fn next_major(major: u64) -> Option<Numbers>
    ensures { IfSome result (λ n. n ≡ spec.next_major major) }
{
    Some(Numbers {
        major: major.checked_add(1)?,
        minor: 0,
        patch: 0,
    })
}

/// The first numbers with the next minor number.
fn next_minor(major: u64, minor: u64) -> Option<Numbers>
    ensures { IfSome result (λ n. n ≡ spec.next_minor major minor) }
{
    Some(Numbers {
        major,
        minor: minor.checked_add(1)?,
        patch: 0,
    })
}

/// The next numbers.
fn next_patch(major: u64, minor: u64, patch: u64) -> Option<Numbers>
    ensures { IfSome result (λ n. n ≡ spec.next_patch major minor patch) }
{
    Some(Numbers {
        major,
        minor,
        patch: patch.checked_add(1)?,
    })
}

/// The first numbers that the comparator names.
fn first_of(comparator: &Comparator) -> Numbers
    ensures { result ≡ spec.first_of comparator.now }
{
    Numbers {
        major: comparator.major,
        minor: comparator.minor.unwrap_or(0),
        patch: comparator.patch.unwrap_or(0),
    }
}

/// The first numbers beyond those that the comparator names. A version without a pre-release is
/// beyond its own pre-releases.
fn beyond(comparator: &Comparator) -> Option<Numbers>
    ensures { IfSome result (λ n. n ≡ spec.beyond comparator.now) }
{
    if !comparator.pre.is_empty() {
        return Some(first_of(comparator));
    }
    match (comparator.minor, comparator.patch) {
        (Some(minor), Some(patch)) => next_patch(comparator.major, minor, patch),
        (Some(minor), None) => next_minor(comparator.major, minor),
        (None, _) => next_major(comparator.major),
    }
}

/// The first numbers beyond those that `~` admits.
fn tilde_end(comparator: &Comparator) -> Option<Numbers>
    ensures { IfSome result (λ n. n ≡ spec.tilde_end comparator.now) }
{
    match comparator.minor {
        Some(minor) => next_minor(comparator.major, minor),
        None => next_major(comparator.major),
    }
}

/// The first numbers beyond those that `^` admits: its first number that is not zero stays.
fn caret_end(comparator: &Comparator) -> Option<Numbers>
    ensures { IfSome result (λ n. n ≡ spec.caret_end comparator.now) }
{
    if comparator.major > 0 {
        return next_major(comparator.major);
    }
    match (comparator.minor, comparator.patch) {
        (Some(0), Some(patch)) => next_patch(0, 0, patch),
        (Some(minor), _) => next_minor(0, minor),
        (None, _) => next_major(0),
    }
}

/// Whether the comparator names nothing behind a number that it leaves out, as each that was read.
fn is_in_order(comparator: &Comparator) -> bool
    ensures { result ≡ spec.is_in_order comparator.now }
{
    match (comparator.minor, comparator.patch) {
        (Some(_), Some(_)) => true,
        (Some(_), None) | (None, None) => comparator.pre.is_empty(),
        (None, Some(_)) => false,
    }
}

/// The numbers of the versions without a pre-release that match the comparator. None where it is not in
/// order, or a number has no next one.
fn range_of(comparator: &Comparator) -> Option<Range>
    ensures order { IfSome result (λ range. spec.is_in_order comparator.now ≡ true) }
    ensures range { IfSome result (λ range. range ≡ spec.range_of comparator.now.op comparator.now) }
{
    if !is_in_order(comparator) {
        return None;
    }
    let first = first_of(comparator);
    match comparator.op {
        Op::Exact | Op::Wildcard => Some(Range {
            lowest: first,
            end: Some(beyond(comparator)?),
        }),
        Op::Greater => Some(Range {
            lowest: beyond(comparator)?,
            end: None,
        }),
        Op::GreaterEq => Some(Range {
            lowest: first,
            end: None,
        }),
        Op::Less => Some(Range {
            lowest: ZERO,
            end: Some(first),
        }),
        Op::LessEq => Some(Range {
            lowest: ZERO,
            end: Some(beyond(comparator)?),
        }),
        Op::Tilde => Some(Range {
            lowest: first,
            end: Some(tilde_end(comparator)?),
        }),
        Op::Caret => Some(Range {
            lowest: first,
            end: Some(caret_end(comparator)?),
        }),
    }
}

impl Bounds {
    /// What a requirement admits.
    pub fn of(need: &Need) -> Bounds
        ensures { IsBounded need.now result }
    {
        let mut bounds = Bounds {
            range: Range {
                lowest: ZERO,
                end: None,
            },
            opens: false,
            is_vague: false,
        };
        for comparator in &need.parsed().comparators {
            bounds = bounds.narrowed(comparator);
        }
        bounds
    }

    /// The same with one comparator more.
    fn narrowed(self, comparator: &Comparator) -> Bounds
        ensures range { result.is_vague ≡ false → (self.is_vague ≡ false) × ((v : Version) → pre_text v.pre ≡ []
            → spec.has result.range (numbers_of v)
            ≡ (spec.has self.range (numbers_of v) && matches_op comparator.now.op comparator.now v)) }
        ensures opens { result.opens ≡ false
            → (self.opens ≡ false) × (length (pre_text comparator.now.pre) ≡ 0) }
    {
        let opens = self.opens || !comparator.pre.is_empty();
        match range_of(comparator) {
            Some(range) => Bounds {
                range: self.range.and(range),
                opens,
                is_vague: self.is_vague,
            },
            None => Bounds {
                range: self.range,
                opens,
                is_vague: true,
            },
        }
    }

    /// Whether a version meets the requirement that has these bounds. The requirement itself is looked at
    /// only for a pre-release where a comparator has one, and where the range is not known.
    pub fn admit(&self, need: &Need, version: &Published) -> bool
        requires { IsBounded need.now self.now }
        ensures { result ≡ meets need.now version.now }
    {
        if self.is_vague {
            return need.admits(version);
        }
        let parsed = version.parsed();
        if parsed.pre.is_empty() {
            return self.range.has(&Numbers {
                major: parsed.major,
                minor: parsed.minor,
                patch: parsed.patch,
            });
        }
        self.opens && need.admits(version)
    }

    /// Whether the range is not known, so that the bounds do not tell which versions meet the requirement.
    pub fn is_vague(&self) -> bool
        ensures { result ≡ self.now.is_vague }
    {
        self.is_vague
    }

    /// Whether the range begins above the numbers of a version.
    pub fn begins_above(&self, version: &Published) -> bool
        ensures { result ≡ spec.is_before (numbers_in version.now) self.now.range.lowest }
    {
        numbers_of(version).is_before(&self.range.lowest)
    }

    /// Whether the range ends above the numbers of a version, or has no end.
    pub fn ends_above(&self, version: &Published) -> bool
        ensures { result ≡ spec.is_within (numbers_in version.now) self.now.range.end }
    {
        match &self.range.end {
            Some(end) => numbers_of(version).is_before(end),
            None => true,
        }
    }
}
