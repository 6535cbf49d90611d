//! Laws of compactions.
ghost use Rattle.std.specs.Prelude.{◌≡◌, ℕ, List, ◌∷◌, ◌++◌, Option, Some};
ghost use Rattle.moment_core.specs.declared.rules.Rules.{Rules};
ghost use Rattle.world_core.specs.declared.entry.Entry.{Entry};
ghost use Rattle.compactor.specs.Compactions.{CompactRun};
ghost use Rattle.compactor.specs.SyncFirst.{BeginsWithSync};
ghost use Rattle.compactor.specs.Counts.{IsCounted};
ghost use Rattle.compactor.specs.declared.compact_end.CompactEnd.{CompactEnd};
ghost use Rattle.compactor.specs.declared.compact_end.CompactEnd.TheVariants.{Done};

/// A law: a compaction is a sync, and a run of what follows the sync's end.
pub fn compactions_begin_with_a_sync()
    ensures falls { (rules : Rules) (entries : List Entry)
        (end : Option CompactEnd) → CompactRun rules entries end
        → BeginsWithSync rules entries end }
    ensures joins { (rules : Rules) (entries : List Entry)
        (end : Option CompactEnd) → BeginsWithSync rules entries end
        → CompactRun rules entries end }
{}

/// A law: entries fix a compaction's end, and the operation that comes next: after the same entries two compactions ask for the same
/// one, whose bytes are the same too.
pub fn compactions_have_one_end()
    ensures end { (rules : Rules) (entries : List Entry)
        (end other : CompactEnd) → CompactRun rules entries (Some end)
        → CompactRun rules entries (Some other) → end ≡ other }
    ensures next { (rules : Rules) (before : List Entry)
        (next other : Entry) (rest others : List Entry) (end last : Option CompactEnd)
        → CompactRun rules (before ++ next ∷ rest) end
        → CompactRun rules (before ++ other ∷ others) last → next.op ≡ other.op }
{}

/// A law: a compaction that is done has compacted each group of its own sync that has a plan, and counts these groups. So it has
/// compacted none exactly where none has a plan.
pub fn groups_are_counted()
    ensures { (rules : Rules) (entries : List Entry)
        (collected compacted expired : ℕ)
        → CompactRun rules entries (Some (Done collected compacted expired))
        → IsCounted rules entries compacted }
{}
