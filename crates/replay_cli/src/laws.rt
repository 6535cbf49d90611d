//! Laws of what the program prints: a report, or the summary of a generated day, tells nothing that the journal of its
//! run does not show. They bring the laws of `lifecycle_core` to what a user reads.

ghost use Rattle.std.specs.Prelude.{◌≡◌, ◌++◌, ℕ, Bool, true, List, Contains};
ghost use Rattle.bucket_core.specs.Contents.{Contents};
ghost use Rattle.world_core.specs.Standing.{IsHonest};
ghost use Rattle.world_core.specs.Worlds.{failed_count};
ghost use Rattle.world_core.specs.declared.entry.Entry.{Entry};
ghost use Rattle.script_core.specs.Lawful.{IsLawfulScript};
ghost use Rattle.call_verdicts.specs.lifecycle_core.specs.Breaches.{watched};
ghost use Rattle.call_verdicts.specs.lifecycle_core.specs.Causes.{AreWell, IsBlamedInCompaction, IsExplained, IsExplainedBy};
ghost use Rattle.call_verdicts.specs.lifecycle_core.specs.Setting.{Setting};
ghost use Rattle.script_core.specs.declared.script.Script.{Script};
ghost use Rattle.replay_cli.specs.Days.{IsWholeDay};
ghost use Rattle.replay_cli.specs.ToldAnswers.{IsTold, IsWorth, ToldAnswer};
ghost use Rattle.call_verdicts.specs.ShelfReads.{HoldsBytes, IsOfShelf};
ghost use Rattle.call_verdicts.specs.Shippable.{RefusesNone, StaysWithin};
ghost use Rattle.call_verdicts.specs.Verdicts.{IsFullRun, IsTrusted, IsWholeRun};
ghost use Rattle.call_verdicts.specs.script_running.specs.declared.came.Came.TheVariants as outcome;
ghost use Rattle.call_verdicts.specs.script_running.specs.declared.came.Stop.TheVariants as stop;
ghost use Rattle.compactor.specs.declared.compact_end.CompactEnd.TheVariants as compact;
ghost use Rattle.call_verdicts.specs.script_running.specs.declared.outcome.QueryOutcome.TheVariants as query;
ghost use Rattle.call_verdicts.specs.script_running.specs.declared.outcome.NoAnswer.TheVariants as none;

/// A law: each answer that the report of a whole run tells was given in it and is sound, where the journal is honest; and so is
/// each that is told of a run which the full journal broke off.
pub fn told_answers_are_sound()
    ensures whole { (setting : Setting) (as_asked : Bool) (text : List ℕ) (journal : List Entry)
        (run : IsWholeRun setting as_asked text journal)
        → IsLawfulScript setting.script → IsHonest journal
        → (place : ℕ) (answer : ToldAnswer)
        → IsTold setting.script setting.script.phases run.report.outcomes place answer
        → IsWorth setting journal run.ends answer }
    ensures full { (setting : Setting) (text : List ℕ) (journal : List Entry)
        (run : IsFullRun setting text journal)
        → IsLawfulScript setting.script → IsHonest journal
        → (place : ℕ) (answer : ToldAnswer)
        → IsTold setting.script run.done run.report.outcomes place answer
        → IsWorth setting journal (run.told ++ run.cut.untold) answer }
{}

/// A law: a journal tells the report. Two whole runs of one lawful script that leave one journal print the same, also of its breach,
/// and end as asked or not;
/// two runs that the full journal broke off print the same; and no journal is that of a whole run and of one that was broken off.
pub fn journals_tell_the_report()
    ensures whole { (setting : Setting) (journal : List Entry) (as_asked also : Bool)
        (text other : List ℕ) → IsLawfulScript setting.script
        → IsWholeRun setting as_asked text journal → IsWholeRun setting also other journal
        → (as_asked ≡ also) × (text ≡ other) }
    ensures full { (setting : Setting) (journal : List Entry) (text other : List ℕ)
        → IsFullRun setting text journal → IsFullRun setting other journal → text ≡ other }
    ensures apart { (setting : Setting) (journal : List Entry) (as_asked : Bool)
        (text other : List ℕ)
        → IsWholeRun setting as_asked text journal → ¬ IsFullRun setting other journal }
{}

/// A law: a shelf's files fix what is read of them. Two settings of one script that are of one shelf are one. So the report is told by
/// the script, the files of the shelf and the journal.
pub fn shelves_tell_settings()
    ensures { (told : Contents) (one other : Setting) → HoldsBytes told
        → one.script ≡ other.script → IsOfShelf one told → IsOfShelf other told → one ≡ other }
{}

/// A law: a journal tells the summary of a generated day. Two whole days of one lawful script that leave one journal print the same,
/// and end as asked or not.
pub fn journals_tell_the_summary()
    ensures { (script : Script) (journal : List Entry) (as_asked also : Bool)
        (text other : List ℕ) → IsLawfulScript script
        → IsWholeDay script as_asked text journal → IsWholeDay script also other journal
        → (as_asked ≡ also) × (text ≡ other) }
{}

/// A law: where the line of a query or of a compaction tells of a missing object, the journal shows why.
pub fn told_misses_are_explained()
    ensures whole { (setting : Setting) (as_asked : Bool) (text : List ℕ) (journal : List Entry)
        (run : IsWholeRun setting as_asked text journal) (gateway number : ℕ)
        → Contains run.report.outcomes
        (outcome.Query (query.NoAnswer gateway (none.Missing number)))
        → IsExplained setting journal number }
    ensures full { (setting : Setting) (text : List ℕ) (journal : List Entry)
        (run : IsFullRun setting text journal) (gateway number : ℕ)
        → Contains run.report.outcomes
        (outcome.Query (query.NoAnswer gateway (none.Missing number)))
        → IsExplained setting journal number }
    ensures compaction { (setting : Setting) (as_asked : Bool) (text : List ℕ)
        (journal : List Entry) (run : IsWholeRun setting as_asked text journal) (number : ℕ)
        → Contains run.report.outcomes (outcome.Compact (stop.Ended (compact.Missing number)))
        → IsExplainedBy setting (watched setting journal) IsBlamedInCompaction journal number }
    ensures compaction_of_full { (setting : Setting) (text : List ℕ) (journal : List Entry)
        (run : IsFullRun setting text journal) (number : ℕ)
        → Contains run.report.outcomes (outcome.Compact (stop.Ended (compact.Missing number)))
        → IsExplainedBy setting (watched setting journal) IsBlamedInCompaction journal number }
{}

/// A law: where no rule refuses an entry, or the bucket is honest and no line of the script is a cleaning, and no call to the bucket
/// failed, each task of a whole run ends well. It ends as asked, if no block of its script is refused, no index of a compacted block
/// is too long, and no block has a million objects: no line tells of a fault, of something missing, damaged, too many or too
/// large, or of a view that is not there.
pub fn calm_runs_end_as_asked()
    ensures well { (setting : Setting) (as_asked : Bool) (text : List ℕ) (journal : List Entry)
        (run : IsWholeRun setting as_asked text journal) → IsTrusted setting journal
        → failed_count journal ≡ 0 → AreWell run.ends }
    ensures asked { (setting : Setting) (as_asked : Bool) (text : List ℕ) (journal : List Entry)
        (run : IsWholeRun setting as_asked text journal) → IsTrusted setting journal
        → failed_count journal ≡ 0 → RefusesNone setting → StaysWithin run.ends
        → as_asked ≡ true }
{}
