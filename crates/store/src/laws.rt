//! Laws: why what is stored stands.

ghost use Rattle.store.specs.Laws.{CommandsKeep, CommandsKeepLearnt, LearningKeeps};

use registry::{matching_is_what_meets, numbers_last};

/// What stands before an accepted command, and is still stored after it, stands after it; after a yank
/// or its undoing that is all. It does nothing when it runs.
pub fn commands_keep()
    ensures stand { CommandsKeep }
    ensures learnt { CommandsKeepLearnt }
{
    numbers_last();
}

/// What is learnt stands, as what was stored before. It does nothing when it runs.
pub fn learning_keeps()
    ensures { LearningKeeps }
{
    matching_is_what_meets();
}
