//! Laws: how a text falls into lines.
ghost use Rattle.lines.specs.Laws.{LastLine, LinesInFront, NoWholeLine, ReadingGoesOn, WholeLinesInFront};

/// Where the lines of a text end. It does nothing when it runs.
pub fn lines_end_at_feeds()
    ensures front { LinesInFront }
    ensures whole { WholeLinesInFront }
    ensures last { LastLine }
    ensures no_feed { NoWholeLine }
{}

/// What a buffer stands for once more is read. It does nothing when it runs.
pub fn reading_goes_on()
    ensures { ReadingGoesOn }
{}
