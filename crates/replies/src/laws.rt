//! What the texts of other files may be built on.
ghost use Rattle.replies.specs.Plain.{AreUtf8, NeedNoEscapes};
ghost use Rattle.replies.specs.Putting.{PutsAddUp};
ghost use Rattle.replies.specs.ReplyLines.{JsonHasNoFeed, LinesCountReplies, RepliesAreLines};

use lines::lines_end_at_feeds;

/// JSON writes names, versions and requirements between quotes as they are.
pub fn texts_need_no_escapes()
    ensures { NeedNoEscapes }
{}

/// Names, versions and requirements are UTF-8.
pub fn texts_are_utf8()
    ensures { AreUtf8 }
{}

/// One text that is put after another is put like both in one.
pub fn puts_add_up()
    ensures { PutsAddUp }
{}

/// Compact JSON is one line. So each reply is one, and replies are as many lines as they are. It does nothing when it runs.
pub fn replies_are_lines()
    ensures json { JsonHasNoFeed }
    ensures one { RepliesAreLines }
    ensures counted { LinesCountReplies }
{
    lines_end_at_feeds();
}
