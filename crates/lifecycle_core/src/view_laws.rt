//! Laws of views.
ghost use Rattle.std.specs.Prelude.{ℕ, ◌<◌, List, Contains, Some};
ghost use Rattle.block_meta.specs.MetaFields.{fields_of};
ghost use Rattle.world_core.specs.Standing.{IsHonest};
ghost use Rattle.world_core.specs.Worlds.{IsOfBytes};
ghost use Rattle.world_core.specs.declared.entry.Entry.{Entry};
ghost use Rattle.moment_core.specs.declared.rules.Rules.{Rules};
ghost use Rattle.meta_fetcher.specs.Syncs.{SyncRun};
ghost use Rattle.meta_fetcher.specs.declared.rules.SyncRules.{SyncRules};
ghost use Rattle.meta_fetcher.specs.declared.sync.SyncEnd.TheVariants as fetched;
ghost use Rattle.compactor.specs.Compactions.{CompactRun};
ghost use Rattle.compactor.specs.declared.compact_end.CompactEnd.TheVariants as compacting;
ghost use Rattle.cleaner.specs.Cleanings.{CleanRun};
ghost use Rattle.cleaner.specs.declared.clean.CleanEnd.TheVariants as cleaning;
ghost use Rattle.sync_filters.specs.declared.found.Found.{Found};
ghost use Rattle.script_core.specs.Lawful.{IsLawfulScript};
ghost use Rattle.lifecycle_core.specs.Acting.{IsActing};
ghost use Rattle.lifecycle_core.specs.Completed.{IsCompletedAt, IsSettled, IsUploadedBefore};
ghost use Rattle.world_core.specs.Journals.{of_seat};
ghost use Rattle.lifecycle_core.specs.Holdings.{Use};
ghost use Rattle.lifecycle_core.specs.Setting.{Setting};
ghost use Rattle.lifecycle_core.specs.SyncsAndCalls.{IsViewOf};
ghost use Rattle.lifecycle_core.specs.Tasks.{sync_rules};
ghost use Rattle.lifecycle_core.specs.TimeRules.{IsSyncedInTime, IsUploadedInTime};

/// A law: where the bucket is honest, each block that a view keeps was complete before the sync of the view had ended, with the meta
/// that this sync found, and each of its sources is an upload that was. And where blocks were uploaded in time, and the sync did not
/// last too long, each block that it has to see is a source of a block that the view keeps. The journal is acting, and tells which
/// entries are the sync. Nothing is said of who reads by the view, and when.
pub fn views_are_worth_it()
    ensures complete { (setting : Setting) (journal : List Entry) (gateway : ℕ) (used : Use)
        (sync : List Entry) (found : Found)
        → IsLawfulScript setting.script → IsActing setting journal
        → IsViewOf (sync_rules setting gateway) journal used sync → IsHonest journal
        → Contains used.view.kept found
        → (seq : ℕ) × (seq < used.last)
        × IsCompletedAt journal found.ulid seq (fields_of found.meta) }
    ensures named { (setting : Setting) (journal : List Entry) (gateway : ℕ) (used : Use)
        (sync : List Entry) (found : Found) (ulid : ℕ)
        → IsLawfulScript setting.script → IsActing setting journal
        → IsViewOf (sync_rules setting gateway) journal used sync → IsHonest journal
        → Contains used.view.kept found → Contains found.meta.sources ulid
        → IsUploadedBefore setting journal ulid used.last }
    ensures covered { (setting : Setting) (journal : List Entry) (gateway : ℕ) (used : Use)
        (sync : List Entry) (ulid : ℕ)
        → IsLawfulScript setting.script → IsActing setting journal
        → IsViewOf (sync_rules setting gateway) journal used sync → IsHonest journal
        → ((block : ℕ) → IsUploadedInTime setting.script.rules block journal)
        → IsSyncedInTime setting.script.rules sync
        → IsSettled setting journal (sync_rules setting gateway) used ulid
        → (found : Found) × Contains used.view.kept found × Contains found.meta.sources ulid }
{}

/// A law: where the bucket is honest, no sync and no cleaning by any rules finds anything damaged, whoever made its entries, and no
/// compaction by the script's rules does. Nor does a sync list too many names.
pub fn nothing_is_damaged()
    ensures sync { (setting : Setting) (journal : List Entry) (rules : SyncRules)
        (entries : List Entry) (number : ℕ)
        → IsLawfulScript setting.script → IsActing setting journal → IsHonest journal
        → ((e : Entry) → Contains entries e → Contains journal e)
        → ¬ SyncRun rules entries (Some (fetched.Damaged number)) }
    ensures few { (setting : Setting) (journal : List Entry) (rules : SyncRules)
        (entries : List Entry)
        → IsLawfulScript setting.script → IsActing setting journal → IsHonest journal
        → ((e : Entry) → Contains entries e → Contains journal e)
        → ¬ SyncRun rules entries (Some fetched.TooMany) }
    ensures cleaning { (setting : Setting) (journal : List Entry) (rules : Rules)
        (entries : List Entry) (number : ℕ)
        → IsLawfulScript setting.script → IsActing setting journal → IsHonest journal
        → ((e : Entry) → Contains entries e → Contains journal e)
        → ¬ CleanRun rules entries (Some (cleaning.Damaged number)) }
    ensures compaction { (setting : Setting) (journal : List Entry) (seat number : ℕ)
        → IsLawfulScript setting.script → IsActing setting journal → IsOfBytes journal
        → IsHonest journal
        → ¬ CompactRun setting.script.rules (of_seat seat journal)
        (Some (compacting.Damaged number)) }
{}
