ghost use Rattle.std.specs.Prelude.{ℕ};
ghost use Rattle.block_meta.specs.MetaFields.{MetaFields, fields_of};
ghost use Rattle.world_core.specs.Standing.{IsHonest};
ghost use Rattle.lifecycle_core.specs.Completed.{IsCompletedAt};
ghost use Rattle.lifecycle_core.specs.Phases.{IsFinished, IsRunOf};
ghost use Rattle.tests_worked.specs.LandedFault.{ends, journal, lost, setting};
ghost use Rattle.tests_worked.specs.SmallBlock.{a, said};

/// A law: the put of a block's meta fails and lands all the same. So the first upload ends with a fault at that entry, and the
/// second one finds the block there already.
pub fn landed_fault_is_already_there()
    ensures run { IsRunOf setting journal ends }
    ensures finished { IsFinished setting ends }
    ensures honest { IsHonest journal }
{}

/// A law: the block is complete from that entry on. Where the put has not landed, it is complete at none.
pub fn landed_fault_completes()
    ensures landed { IsCompletedAt journal a 5 (fields_of said) }
    ensures lost { (seq : ℕ) (meta : MetaFields) → ¬ IsCompletedAt lost a seq meta }
{}
