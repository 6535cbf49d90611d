ghost use Rattle.std.specs.Prelude.{ℕ, List};
ghost use Rattle.world_core.specs.Worlds.{IsJournal};
ghost use Rattle.world_core.specs.declared.entry.Entry.{Entry};
ghost use Rattle.journal_records.specs.Writable.{IsWritable};

/// A law: each journal of a world can be written.
pub fn journals_are_writable()
    ensures { (tick : ℕ) (journal : List Entry) → IsJournal tick journal → IsWritable journal }
{}
