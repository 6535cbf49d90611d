ghost use Rattle.std.specs.Prelude.{◌≡◌, ℕ, List};
ghost use Rattle.block_meta.specs.MetaFields.{MarkFields};
ghost use Rattle.block_meta.specs.MetaText.{IsMarkText};
ghost use Rattle.world_core.specs.declared.entry.Entry.{Entry};
ghost use Rattle.lifecycle_core.specs.Breaches.{Refuses, mark_time, sync_time, view_time};
ghost use Rattle.tests_worked.specs.OneBlock.{setting, journal};
ghost use Rattle.tests_worked.specs.OneStrict.{hasty, idle, last_read, first_call, late_mark};

/// A law: where marks are ignored for a second, the sync's last read comes too late; where they are ignored for as long as
/// objects stand after their mark, the query's first read does.
pub fn strict_rules_are_broken()
    ensures sync { (before : List Entry)
        → Refuses hasty journal sync_time before last_read 1_801_003 1_801_001 }
    ensures view { (before : List Entry)
        → Refuses idle journal view_time before first_call 174_600_004 174_600_001 }
{}

/// A law: a mark that tells second 0 breaks its rule where it is put a millisecond after the ignore delay, whatever its text.
pub fn late_mark_is_refused()
    ensures { (entries before : List Entry) (bytes : List ℕ) (mark : MarkFields)
        → IsMarkText bytes mark → mark.deletion_time ≡ 0
        → Refuses setting entries mark_time before (late_mark bytes) 86_400_001 86_400_000 }
{}
