//! Laws over the writer of blocks and the readers of their content: what is put into a block is what its files hold,
//! and nothing else. So the laws on journals can speak of samples where a bucket has bytes alone.

ghost use Rattle.std.specs.Prelude.{◌≡◌, ◌≢◌, ℕ, List, [], ◌∷◌};
ghost use Rattle.label_sets.specs.declared.series.Series.{Series};
ghost use Rattle.block_meta.specs.declared.block_plan.BlockPlan.{BlockPlan};
ghost use Rattle.block_meta.specs.declared.block_files.BlockFiles.{BlockFiles};
ghost use Rattle.block_writing.specs.Put.{PutSeries, Put, IsPut};
ghost use Rattle.block_writing.specs.Writing.{plan_fields};
ghost use Rattle.block_writing.specs.Files.{AreFilesOf};
ghost use Rattle.block_writing.specs.WrittenMeta.{IsWritten};
ghost use Rattle.block_writing.specs.Built.{IsBuilt};
ghost use Rattle.block_content.specs.Content.{IsContent};
ghost use Rattle.block_content.specs.Checking.{Passes, RefusesBlock};
ghost use Rattle.block_content.specs.Named.{NamesFew};
ghost use Rattle.block_content.specs.declared.check_refusal.CheckRefusal.TheVariants.{EmptyBlock};
ghost use Rattle.block_merging.specs.PutContent.{AreSeriesOf, AreBytes, IsFirstLevel};

/// A law: what was put stands for series, each with the samples of its chunks.
pub fn put_has_content()
    ensures { (put : Put) → IsPut put → (list : List Series) × AreSeriesOf put.series list }
{}

/// A law: the files of what was put hold exactly the series for which it stands.
pub fn written_is_content()
    ensures held { (put : Put) (files : BlockFiles) (list : List Series)
        → IsWritten put files → AreSeriesOf put.series list → IsContent files list }
    ensures only { (put : Put) (files : BlockFiles) (list : List Series)
        → AreBytes files → IsWritten put files → IsContent files list
        → AreSeriesOf put.series list }
{}

/// A law: the files of a block that is built of series hold exactly these series.
pub fn built_is_content()
    ensures held { (plan : BlockPlan) (series : List Series) (files : BlockFiles)
        → IsBuilt plan series files → IsContent files series }
    ensures only { (plan : BlockPlan) (series list : List Series) (files : BlockFiles)
        → AreBytes files → IsBuilt plan series files → IsContent files list → list ≡ series }
{}

/// A law: two blocks that are built of one plan and the same series are the same files.
pub fn built_is_one()
    ensures { (plan : BlockPlan) (series : List Series) (files other : BlockFiles)
        → IsBuilt plan series files → IsBuilt plan series other → files ≡ other }
{}

/// A law: files hold no two contents, whoever wrote them.
pub fn content_is_one()
    ensures { (files : BlockFiles) (list other : List Series)
        → AreBytes files → IsContent files list → IsContent files other → list ≡ other }
{}

/// A law: what was put has one index and one list of segments.
pub fn files_are_one()
    ensures { (series : List PutSeries) (index other : List ℕ) (segments others : List (List ℕ))
        → AreFilesOf series index segments → AreFilesOf series other others
        → (index ≡ other) × (segments ≡ others) }
{}

/// A law: a block of level 1 that is its own only source may be shipped once it is written, unless it has no series, or its labels'
/// texts are long and shared by so many that they pass what an index may name.
pub fn written_blocks_pass()
    ensures passes { (put : Put) (files : BlockFiles) (list : List Series)
        → IsWritten put files → IsFirstLevel put.plan → put.series ≢ []
        → AreSeriesOf put.series list → NamesFew files → Passes put.plan.ulid files list }
    ensures empty { (put : Put) (files : BlockFiles)
        → IsWritten put files → IsFirstLevel put.plan → put.series ≡ []
        → RefusesBlock put.plan.ulid files EmptyBlock }
{}

/// A law: the same of a block that is built of series.
pub fn built_blocks_pass()
    ensures passes { (plan : BlockPlan) (series : List Series) (files : BlockFiles)
        → IsBuilt plan series files → IsFirstLevel (plan_fields plan) → series ≢ []
        → NamesFew files → Passes plan.ulid files series }
    ensures empty { (plan : BlockPlan) (files : BlockFiles)
        → IsBuilt plan [] files → IsFirstLevel (plan_fields plan)
        → RefusesBlock plan.ulid files EmptyBlock }
{}
