//! Laws of merges.
ghost use Rattle.std.specs.Prelude.{◌≡◌, ℕ, List, map};
ghost use Rattle.std.specs.List.{AllByRecursion, AllZip};
ghost use Rattle.label_sets.specs.declared.label.Label.{Label};
ghost use Rattle.label_sets.specs.declared.series.Series.{Series};
ghost use Rattle.label_sets.specs.Triples.{triples_of};
ghost use Rattle.block_meta.specs.declared.block_plan.BlockPlan.{BlockPlan};
ghost use Rattle.block_meta.specs.declared.block_files.BlockFiles.{BlockFiles};
ghost use Rattle.block_content.specs.Content.{IsContent};
ghost use Rattle.block_merging.specs.PutContent.{AreBytes};
ghost use Rattle.vertical_merge.specs.Merged.{IsMerge, IsDeduplication};
ghost use Rattle.vertical_merge.specs.Compacted.{IsCompactedPlan};
ghost use Rattle.block_merging.specs.Inputs.{LiesWithin};
ghost use Rattle.block_merging.specs.MergedBlock.{IsMergeOf, HaveNoMerge};
ghost use Rattle.block_merging.specs.MergedContent.{all_triples};

/// A law: blocks may be merged into the one of which their compaction's plan speaks.
pub fn compacted_blocks_fit()
    ensures { (inputs : List BlockFiles) (ulid : ℕ) (labels : List Label) (plan : BlockPlan)
        → IsCompactedPlan (map (λ (b : BlockFiles). b.meta) inputs) ulid labels plan
        → AllByRecursion (LiesWithin plan) inputs }
{}

/// A law: what a merge of blocks holds is the first pattern at each label set and time of what the blocks hold under reduced
/// labels, the earlier block's before the later one's; and so a one-to-one deduplication of that.
pub fn merge_holds_first()
    ensures first { (plan : BlockPlan) (replicas : List (List ℕ)) (blocks : List BlockFiles)
        (block : BlockFiles) (contents : List (List Series)) (list : List Series)
        → AllByRecursion AreBytes blocks → AreBytes block
        → AllByRecursion (LiesWithin plan) blocks → AllZip IsContent blocks contents
        → IsMergeOf plan replicas blocks block → IsContent block list
        → IsMerge (all_triples plan.labels replicas contents) list }
    ensures deduplicated { (plan : BlockPlan) (replicas : List (List ℕ)) (blocks : List BlockFiles)
        (block : BlockFiles) (contents : List (List Series)) (list : List Series)
        → AllByRecursion AreBytes blocks → AreBytes block
        → AllByRecursion (LiesWithin plan) blocks → AllZip IsContent blocks contents
        → IsMergeOf plan replicas blocks block → IsContent block list
        → IsDeduplication (triples_of list) (all_triples plan.labels replicas contents) }
{}

/// A law: what a merge of blocks holds can be read.
pub fn merge_has_content()
    ensures { (plan : BlockPlan) (replicas : List (List ℕ)) (blocks : List BlockFiles)
        (block : BlockFiles) → IsMergeOf plan replicas blocks block
        → (list : List Series) × IsContent block list }
{}

/// A law: blocks have one merge, and where they have one its index is not too large.
pub fn merge_is_one()
    ensures once { (plan : BlockPlan) (replicas : List (List ℕ)) (blocks : List BlockFiles)
        (block other : BlockFiles) → AllByRecursion AreBytes blocks
        → AllByRecursion (LiesWithin plan) blocks → IsMergeOf plan replicas blocks block
        → IsMergeOf plan replicas blocks other → block ≡ other }
    ensures or_none { (plan : BlockPlan) (replicas : List (List ℕ)) (blocks : List BlockFiles)
        (block : BlockFiles) → AllByRecursion AreBytes blocks
        → AllByRecursion (LiesWithin plan) blocks → IsMergeOf plan replicas blocks block
        → ¬ HaveNoMerge plan replicas blocks }
{}
