ghost use Rattle.lifecycle_core.specs.Causes.{AreWell};
ghost use Rattle.lifecycle_core.specs.Guarantees.{IsExact};
ghost use Rattle.lifecycle_core.specs.Holdings.{Use};
ghost use Rattle.lifecycle_core.specs.Phases.{IsFinished, IsRunOf};
ghost use Rattle.lifecycle_core.specs.Shipped.{IsShipped};
ghost use Rattle.tests_worked.specs.ShelfBlock.{asked, bare, bare_ends, bare_journal, block, ends, full, journal};
ghost use Rattle.tests_worked.specs.SmallBlock.{a, meta, objects_with};

/// A law: a block of the shelf is uploaded with its files, and with its meta as it is shipped. These are the objects of the block that
/// is built of the same series.
pub fn shelf_block_is_uploaded()
    ensures shipped { IsShipped full block (objects_with a meta) }
    ensures run { IsRunOf full journal ends }
    ensures finished { IsFinished full ends }
{}

/// A law: an answer that names the block has the samples that its files hold.
pub fn shelf_block_is_answered()
    ensures { (used : Use) → IsExact full (asked used) }
{}

/// A law: where the shelf has no file of the block, its upload is refused for the first cause, and does nothing. That is no failure.
pub fn shelf_block_is_refused()
    ensures run { IsRunOf bare bare_journal bare_ends }
    ensures finished { IsFinished bare bare_ends }
    ensures well { AreWell bare_ends }
{}
