ghost use Rattle.std.specs.Prelude.{[], ◌∷◌};
ghost use Rattle.block_meta.specs.MetaFields.{fields_of};
ghost use Rattle.world_core.specs.Standing.{IsHonest};
ghost use Rattle.lifecycle_core.specs.Completed.{IsCompletedAt, IsSettled};
ghost use Rattle.lifecycle_core.specs.Guarantees.{LeavesNoneOut};
ghost use Rattle.lifecycle_core.specs.Marked.{IsFirstMark, IsMarkedFor};
ghost use Rattle.lifecycle_core.specs.Phases.{IsFinished, IsRunOf};
ghost use Rattle.lifecycle_core.specs.PutBlocks.{HoldsItsSources, LiesWithin};
ghost use Rattle.lifecycle_core.specs.Tasks.{sync_rules};
ghost use Rattle.tests_worked.specs.CompactedPair.{answered_with, b, ends, journal, mark_put, n, said, setting, until_mark, used};
ghost use Rattle.tests_worked.specs.SmallBlock.{a};

/// A law: two blocks are compacted into a new one, and marked; a gateway that syncs a minute later keeps the new one alone.
pub fn pair_is_compacted()
    ensures run { IsRunOf setting journal ends }
    ensures finished { IsFinished setting ends }
    ensures honest { IsHonest journal }
{}

/// A law: the new block is complete from the put of its meta on, with both as its sources. It holds what they hold, each sample once,
/// and their times lie within its own.
pub fn compacted_block_holds_both()
    ensures completed { IsCompletedAt journal n 23 (fields_of said) }
    ensures holds { HoldsItsSources setting journal n 23 }
    ensures within { LiesWithin setting journal 23 (fields_of said) a }
{}

/// A law: the first block's mark is its first one, and the new block is its cause.
pub fn compacted_block_is_the_cause()
    ensures first { IsFirstMark a 1_800 until_mark mark_put }
    ensures cause { IsMarkedFor setting journal a 1_800 mark_put }
{}

/// A law: a block whose mark is a minute old is settled all the same. An answer that names no block leaves it out, and one that
/// names both does not.
pub fn marked_block_is_settled()
    ensures settled { IsSettled setting journal (sync_rules setting 0) used a }
    ensures short { ¬ LeavesNoneOut setting journal (answered_with []) }
    ensures covered { LeavesNoneOut setting journal (answered_with (a ∷ b ∷ [])) }
{}
