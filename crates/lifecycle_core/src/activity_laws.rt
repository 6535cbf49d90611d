//! Laws of what each activity asks for, told by its own entries alone, whoever works beside it. Those on blocks in
//! whole journals stand on them.

ghost use Rattle.std.specs.Prelude.{◌≡◌, ℕ, ◌<◌, ◌^◌, List, ◌∷◌, ◌++◌, Option, Some};
ghost use Rattle.moment_core.specs.declared.rules.Rules.{Rules};
ghost use Rattle.world_core.specs.declared.entry.Entry.{Entry};
ghost use Rattle.meta_fetcher.specs.Syncs.{SyncRun};
ghost use Rattle.meta_fetcher.specs.declared.rules.SyncRules.{SyncRules};
ghost use Rattle.meta_fetcher.specs.declared.sync.SyncEnd.TheVariants.{View as GivesView};
ghost use Rattle.meta_fetcher.specs.declared.view.View.{View};
ghost use Rattle.cleaner.specs.Cleanings.{CleanRun};
ghost use Rattle.cleaner.specs.declared.clean.CleanEnd.{CleanEnd};
ghost use Rattle.lifecycle_core.specs.CleaningOps.{IsCleanOp};
ghost use Rattle.lifecycle_core.specs.Sights.{IsSight};
ghost use Rattle.std.specs.List.{AllZip, flat_map};
ghost use Rattle.std.specs.Str.{IsUtf8};
ghost use Rattle.label_sets.specs.declared.label.Label.{Label};
ghost use Rattle.label_sets.specs.Triples.{Triple};
ghost use Rattle.block_meta.specs.MetaFields.{MarkFields};
ghost use Rattle.block_meta.specs.MetaText.{IsMarkText};
ghost use Rattle.block_meta.specs.MetaValue.{mark_text};
ghost use Rattle.block_meta.specs.OfBlocks.{block_mark};
ghost use Rattle.block_meta.specs.Lawful.{deletion_limit};
ghost use Rattle.block_meta.specs.declared.block_files.BlockFiles.{BlockFiles};
ghost use Rattle.compactor.specs.Compactions.{CompactRun};
ghost use Rattle.compactor.specs.declared.compact_end.CompactEnd.{CompactEnd};
ghost use Rattle.lifecycle_core.specs.CompactionOps.{IsCompactOp};
ghost use Rattle.lifecycle_core.specs.MergedLabels.{AreMergedAs, Holds};

/// A law: a cleaning deletes nothing but what it decided to delete, and of a block the meta first.
pub fn cleanings_ask_so()
    ensures { (rules : Rules) (own : List Entry) (e : Entry) (rest : List Entry)
        (end : Option CleanEnd) → CleanRun rules (own ++ e ∷ rest) end → IsCleanOp rules own e.op }
{}

/// A law: a sync that gave a view saw the blocks that it keeps, and found each block that all its entries show.
pub fn syncs_see_so()
    ensures { (rules : SyncRules) (entries : List Entry) (view : View)
        → SyncRun rules entries (Some (GivesView view)) → IsSight rules entries view }
{}

/// A law: what a compaction asks for is told by its entries before: each mark has its look and its reason, each object of a new block
/// its reads and their merge, and no block is read that was marked.
pub fn compactions_ask_so()
    ensures { (rules : Rules) (own : List Entry) (e : Entry) (rest : List Entry)
        (end : Option CompactEnd) → CompactRun rules (own ++ e ∷ rest) end
        → IsCompactOp rules own e.op }
{}

/// A law: the text of a mark is read as that mark, and as no other.
pub fn marks_are_read_again()
    ensures again { (mark : MarkFields) → mark.id < 2 ^ 128 → mark.deletion_time < deletion_limit
        → IsUtf8 mark.details → block_mark mark.id (mark_text mark) ≡ Some mark }
    ensures text { (mark : MarkFields) → mark.id < 2 ^ 128 → mark.deletion_time < deletion_limit
        → IsUtf8 mark.details → IsMarkText (mark_text mark) mark }
    ensures one { (bytes : List ℕ) (one other : MarkFields) → IsMarkText bytes one
        → IsMarkText bytes other → one ≡ other }
{}

/// A law: a block that others are merged into holds, under final labels, what these held.
pub fn merges_hold_what_was_held()
    ensures { (replicas : List (List ℕ)) (ulid : ℕ) (labels : List Label)
        (blocks : List BlockFiles) (block : BlockFiles) (held : List (List Triple))
        → AreMergedAs replicas ulid labels blocks block → AllZip (Holds replicas) blocks held
        → Holds replicas block (flat_map (λ one. one) held) }
{}
