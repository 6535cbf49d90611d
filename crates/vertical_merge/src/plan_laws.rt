//! Laws of compacted blocks.
ghost use Rattle.std.specs.Prelude.{◌≡◌, ℕ, List};
ghost use Rattle.label_sets.specs.declared.label.Label.{Label};
ghost use Rattle.block_meta.specs.declared.block_plan.BlockPlan.{BlockPlan};
ghost use Rattle.block_meta.specs.declared.meta.Meta.{Meta};
ghost use Rattle.vertical_merge.specs.Compacted.{IsCompactedPlan};

/// A law: blocks have one compacted plan of a ULID and labels.
pub fn compacted_plans_are_one()
    ensures { (inputs : List Meta) (ulid : ℕ) (labels : List Label) (plan other : BlockPlan)
        → IsCompactedPlan inputs ulid labels plan → IsCompactedPlan inputs ulid labels other
        → plan ≡ other }
{}
