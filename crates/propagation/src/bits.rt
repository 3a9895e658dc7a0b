//! Choices of a package, a bit each.

/// How many choices a word stands for.
pub const MOST_CHOICES: u32 = 64;

/// Choices of a package: bit 0 stands for none of its versions, bit k + 1 for the one with ordinal k.
#[derive(Clone, Copy, PartialEq, Eq)]
pub struct Bits {
    word: u64,
}

/// The choice of the version with an ordinal.
#[inline(always)]
pub fn choice_of(ordinal: u32) -> u32 {
    ordinal.saturating_add(1)
}

impl Bits {
    /// No choice at all.
    #[inline(always)]
    pub fn none() -> Bits {
        Bits { word: 0 }
    }

    /// This choice alone. One that has no bit would stand for another: see `holds`.
    #[inline(always)]
    pub fn of(choice: u32) -> Bits {
        Bits {
            word: 1u64.wrapping_shl(choice),
        }
    }

    /// The choice of none, and those of so many versions, of which each has a bit.
    #[inline(always)]
    pub fn up_to(versions: u32) -> Bits {
        Bits {
            word: u64::MAX.wrapping_shr(63u32.saturating_sub(versions)),
        }
    }

    /// The choices of these versions: bit k stands for the one with ordinal k.
    #[inline(always)]
    pub fn of_versions(versions: u64) -> Bits {
        Bits {
            word: versions.wrapping_shl(1),
        }
    }

    /// Whether a choice has a bit.
    pub fn holds(choice: u32) -> bool {
        choice < MOST_CHOICES
    }

    /// The choice that none of a package's versions is selected.
    #[inline(always)]
    pub fn absence() -> Bits {
        Bits { word: 1 }
    }

    /// Whether it may be that none is selected, so that the package is not needed.
    #[inline(always)]
    pub fn has_absence(self) -> bool {
        self.word & 1 != 0
    }

    /// Whether a choice is among them.
    #[inline(always)]
    pub fn has(self, choice: u32) -> bool {
        !self.is_apart(Bits::of(choice))
    }

    /// The choices that are among both.
    #[inline(always)]
    pub fn and(self, other: Bits) -> Bits {
        Bits {
            word: self.word & other.word,
        }
    }

    /// The choices that are among either.
    #[inline(always)]
    pub fn or(self, other: Bits) -> Bits {
        Bits {
            word: self.word | other.word,
        }
    }

    /// The choices that are not among the others.
    #[inline(always)]
    pub fn minus(self, other: Bits) -> Bits {
        Bits {
            word: self.word & !other.word,
        }
    }

    /// Whether there is no choice.
    #[inline(always)]
    pub fn is_empty(self) -> bool {
        self.word == 0
    }

    /// Whether each choice is among the others.
    #[inline(always)]
    pub fn is_within(self, other: Bits) -> bool {
        self.minus(other).is_empty()
    }

    /// Whether no choice is among the others.
    #[inline(always)]
    pub fn is_apart(self, other: Bits) -> bool {
        self.and(other).is_empty()
    }

    /// How many choices there are.
    #[inline(always)]
    pub fn count(self) -> u32 {
        self.word.count_ones()
    }

    /// Those above the lowest one.
    #[inline(always)]
    fn rest(self) -> Bits {
        Bits {
            word: self.word & self.word.wrapping_sub(1),
        }
    }

    /// Whether there are several choices, which takes less than to count them.
    #[inline(always)]
    pub fn has_several(self) -> bool {
        !self.rest().is_empty()
    }

    /// The choice, if there is one alone.
    #[inline(always)]
    pub fn only(self) -> Option<u32> {
        if self.has_several() {
            return None;
        }
        self.lowest()
    }

    /// The lowest choice, if there is one.
    #[inline(always)]
    pub fn lowest(self) -> Option<u32> {
        if self.word == 0 {
            return None;
        }
        Some(self.word.trailing_zeros())
    }

    /// The highest choice, if there is one.
    #[inline(always)]
    pub(crate) fn highest(self) -> Option<u32> {
        if self.word == 0 {
            return None;
        }
        Some(63u32.saturating_sub(self.word.leading_zeros()))
    }
}
