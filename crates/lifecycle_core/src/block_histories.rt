//! Laws of what becomes of blocks in acting journals: how they are put, marked and deleted, and what they hold.
ghost use Rattle.std.specs.Prelude.{◌≡◌, ℕ, ◌+◌, ◌*◌, ◌<◌, List, ◌∷◌, ◌++◌, Contains, Some, slice_get};
ghost use Rattle.block_keys.specs.Keys.{key_ulid};
ghost use Rattle.block_keys.specs.KeyText.{key_text};
ghost use Rattle.block_keys.specs.declared.key.Key.{Key};
ghost use Rattle.block_keys.specs.declared.key.Key.TheVariants.{Index, Mark, Meta, Segment};
ghost use Rattle.block_meta.specs.MetaFields.{MetaFields};
ghost use Rattle.block_meta.specs.declared.block_files.BlockFiles.{BlockFiles};
ghost use Rattle.world_core.specs.Standing.{IsHonest, stands};
ghost use Rattle.world_core.specs.Worlds.{IsOfBytes};
ghost use Rattle.world_core.specs.declared.op.Op.TheVariants.{Delete, Put};
ghost use Rattle.world_core.specs.declared.entry.Entry.{Entry};
ghost use Rattle.compactor.specs.Compactions.{CompactRun};
ghost use Rattle.compactor.specs.declared.compact_end.CompactEnd.TheVariants as compacting;
ghost use Rattle.script_core.specs.Lawful.{IsLawfulScript};
ghost use Rattle.moment_core.specs.Limits.{one_second};
ghost use Rattle.lifecycle_core.specs.Acting.{IsActing, IsCompactorAt};
ghost use Rattle.lifecycle_core.specs.Breaches.{watched_compaction};
ghost use Rattle.lifecycle_core.specs.Causes.{IsBlamedInCompaction, IsExplainedBy};
ghost use Rattle.lifecycle_core.specs.Completed.{IsCompletedAt};
ghost use Rattle.world_core.specs.Journals.{of_seat};
ghost use Rattle.lifecycle_core.specs.Decisions.{DecidesToDelete};
ghost use Rattle.lifecycle_core.specs.Marked.{IsFirstMark, IsMarkedFor, LandsDelete};
ghost use Rattle.lifecycle_core.specs.PutBlocks.{HoldsItsSources, IsPutAs, LiesWithin};
ghost use Rattle.lifecycle_core.specs.Setting.{Setting};
ghost use Rattle.lifecycle_core.specs.TimeRules.{IsBlockObject, IsUploadedInTime, PutsMark, PutsObject};

/// A law: all puts under one key, marks aside, have the same bytes.
pub fn keys_have_one_text()
    ensures { (setting : Setting) (journal : List Entry) (one other : Entry) (key : Key)
        (bytes also : List ℕ) → IsLawfulScript setting.script → IsActing setting journal
        → Contains journal one → Contains journal other → one.op ≡ Put key bytes
        → other.op ≡ Put key also → IsBlockObject key → bytes ≡ also }
{}

/// A law: where a block was uploaded in time, nothing of it is put once a cleaning has decided to delete it.
pub fn nothing_is_put_after_a_decision()
    ensures { (setting : Setting) (before middle after : List Entry) (x e : Entry) (ulid : ℕ)
        → IsLawfulScript setting.script
        → IsActing setting (before ++ x ∷ (middle ++ e ∷ after))
        → IsHonest (before ++ x ∷ (middle ++ e ∷ after))
        → IsUploadedInTime setting.script.rules ulid (before ++ x ∷ (middle ++ e ∷ after))
        → DecidesToDelete setting before x ulid → ¬ PutsObject ulid e }
{}

/// A law: where a block was uploaded in time, its index and its segments stand while its meta does, as they were put.
pub fn files_stand_while_the_meta_stands()
    ensures { (setting : Setting) (before after : List Entry) (ulid seq : ℕ) (files : BlockFiles)
        (bytes : List ℕ) → IsLawfulScript setting.script → IsActing setting (before ++ after)
        → IsHonest (before ++ after)
        → IsUploadedInTime setting.script.rules ulid (before ++ after)
        → IsPutAs (before ++ after) ulid seq files
        → stands before (key_text (Meta ulid)) ≡ Some bytes
        → (stands before (key_text (Index ulid)) ≡ Some files.index)
        × ((place : ℕ) (segment : List ℕ) → slice_get files.segments place ≡ Some segment
        → stands before (key_text (Segment ulid (place + 1))) ≡ Some segment) }
{}

/// A law: where a block was uploaded in time, its first mark stands until a delete of its meta has landed behind it; and whatever
/// deletes the block comes after that mark, and later than the delete delay after its second.
pub fn first_marks_stand_until_the_meta_goes()
    ensures stands { (setting : Setting) (front middle after : List Entry) (mark : Entry)
        (ulid second : ℕ) (bytes : List ℕ) → IsLawfulScript setting.script
        → IsActing setting (front ++ mark ∷ (middle ++ after))
        → IsHonest (front ++ mark ∷ (middle ++ after))
        → IsUploadedInTime setting.script.rules ulid (front ++ mark ∷ (middle ++ after))
        → IsFirstMark ulid second front mark → mark.op ≡ Put (Mark ulid) bytes
        → ((e : Entry) → Contains middle e → ¬ LandsDelete (Meta ulid) e)
        → stands (front ++ mark ∷ middle) (key_text (Mark ulid)) ≡ Some bytes }
    ensures late { (setting : Setting) (before after : List Entry) (e : Entry) (key : Key)
        (ulid seq : ℕ) (meta : MetaFields) → IsLawfulScript setting.script
        → IsActing setting (before ++ e ∷ after) → IsHonest (before ++ e ∷ after)
        → IsUploadedInTime setting.script.rules ulid (before ++ e ∷ after)
        → IsCompletedAt (before ++ e ∷ after) ulid seq meta
        → e.op ≡ Delete key → key_ulid key ≡ ulid
        → (front : List Entry) × (mark : Entry) × (back : List Entry) × (second : ℕ)
        × (before ≡ front ++ mark ∷ back) × IsFirstMark ulid second front mark
        × (one_second * second + setting.script.rules.delete.ms < e.moment.ms) }
{}

/// A law: each mark has its better block, which was complete before the look that led to the mark, or its block had expired by then.
pub fn marks_have_their_cause()
    ensures { (setting : Setting) (before after : List Entry) (e : Entry) (ulid second : ℕ)
        → IsLawfulScript setting.script → IsActing setting (before ++ e ∷ after)
        → IsHonest (before ++ e ∷ after) → PutsMark ulid second e
        → IsMarkedFor setting (before ++ e ∷ after) ulid second e }
{}

/// A law: the sources of a complete block are declared blocks that were complete, and their times lie within its own.
pub fn sources_lie_within()
    ensures { (setting : Setting) (journal : List Entry) (ulid seq : ℕ) (meta : MetaFields)
        (source : ℕ) → IsLawfulScript setting.script → IsActing setting journal
        → IsHonest journal → IsCompletedAt journal ulid seq meta → Contains meta.sources source
        → LiesWithin setting journal seq meta source }
{}

/// A law: a complete block holds, under its final labels, what its sources hold, and nothing else, through any number of levels: one
/// that was compacted each sample once, and an upload what it gives.
pub fn complete_blocks_hold_their_sources()
    ensures { (setting : Setting) (journal : List Entry) (ulid seq : ℕ) (meta : MetaFields)
        → IsLawfulScript setting.script → IsActing setting journal → IsOfBytes journal
        → IsHonest journal
        → IsCompletedAt journal ulid seq meta → HoldsItsSources setting journal ulid seq }
{}

/// A law: a compaction misses an object only where the journal shows why.
pub fn compactions_miss_nothing_without_cause()
    ensures { (setting : Setting) (journal : List Entry) (acts : IsActing setting journal)
        (seat number : ℕ) → IsLawfulScript setting.script → IsOfBytes journal
        → IsCompactorAt setting acts.seats seat
        → CompactRun setting.script.rules (of_seat seat journal) (Some (compacting.Missing number))
        → IsExplainedBy setting (watched_compaction journal seat) IsBlamedInCompaction
        journal number }
{}
