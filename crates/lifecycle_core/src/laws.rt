//! What is guaranteed of the journals of a script, in whatever order its workers' operations fell. Each law is a
//! function with an empty body, whose contract is the law; none of them speaks of the machines.

ghost use Rattle.std.specs.Prelude.{◌≡◌, ◌≢◌, ◌↔◌, ◌<◌, ℕ, ℤ, List, [], ◌∷◌, ◌++◌, All, Contains, Option, Some, slice_get};
ghost use Rattle.label_sets.specs.declared.series.Series.{Series};
ghost use Rattle.matchers.specs.declared.matcher.Matcher.{Matcher};
ghost use Rattle.matchers.specs.SelectorText.{named_replicas};
ghost use Rattle.world_core.specs.Journals.{Each};
ghost use Rattle.world_core.specs.Moments.{HasMoments};
ghost use Rattle.world_core.specs.Standing.{IsHonest, Tells, stands};
ghost use Rattle.world_core.specs.Worlds.{IsJournal, IsOfBytes, failed_count};
ghost use Rattle.world_core.specs.declared.entry.Entry.{Entry};
ghost use Rattle.meta_fetcher.specs.declared.sync.SyncEnd.{SyncEnd};
ghost use Rattle.meta_fetcher.specs.Syncs.{SyncRun};
ghost use Rattle.meta_fetcher.specs.declared.rules.SyncRules.{SyncRules};
ghost use Rattle.meta_fetcher.specs.declared.view.View.{View};
ghost use Rattle.shipper.specs.Uploads.{upload};
ghost use Rattle.shipper.specs.declared.upload.UploadEnd.{UploadEnd};
ghost use Rattle.world_core.specs.Plans.{Runs};
ghost use Rattle.block_keys.specs.declared.key.Key.{Key};
ghost use Rattle.block_keys.specs.declared.object.Object.{Object};
ghost use Rattle.sync_filters.specs.declared.found.Found.{Found};
ghost use Rattle.world_core.specs.declared.reply.Reply.TheVariants.{Absent};
ghost use Rattle.store_ranges.specs.Reads.{Cache, Query as Question};
ghost use Rattle.store_calls.specs.SeriesCalls.{CallEnd, SeriesRun, asking};
ghost use Rattle.store_calls.specs.declared.series_call.SeriesEnd.{SeriesEnd};
ghost use Rattle.store_calls.specs.declared.series_call.SeriesEnd.TheVariants as ended;
ghost use Rattle.script_workers.specs.declared.phase.Phase.{Phase};
ghost use Rattle.querier.specs.declared.asking.Ask.{Ask};
ghost use Rattle.lifecycle_core.specs.Setting.{Setting};
ghost use Rattle.script_core.specs.Lawful.{IsLawfulScript};
ghost use Rattle.script_core.specs.Workers.{workers_of};
ghost use Rattle.lifecycle_core.specs.Acting.{HasActors, IsActing, IsNumbering};
ghost use Rattle.lifecycle_core.specs.Cuts.{IsCutBehind};
ghost use Rattle.moment_core.specs.declared.moment.Moment.{Moment};
ghost use Rattle.moment_core.specs.declared.rules.Rules.{Rules};
ghost use Rattle.block_keys.specs.Keys.{key_ulid};
ghost use Rattle.compactor.specs.Compactions.{CompactRun};
ghost use Rattle.compactor.specs.declared.compact_end.CompactEnd.{CompactEnd};
ghost use Rattle.cleaner.specs.Cleanings.{CleanRun};
ghost use Rattle.cleaner.specs.declared.clean.CleanEnd.{CleanEnd};
ghost use Rattle.lifecycle_core.specs.PutBlocks.{WasPutBefore};
ghost use Rattle.lifecycle_core.specs.Quiet.{CompactsNothing, DeletesNothing};
ghost use Rattle.lifecycle_core.specs.Breaches.{HoldsSamples, IsBreach, IsCallRead, IsCompactorSeat, IsLie, IsReadSince, IsSeatOf, IsSyncIn, IsUnbroken, IsViewAt, NoViewBetween, Rule, read_key, watched_call};
ghost use Rattle.lifecycle_core.specs.Causes.{AreCompactionsExplained, AreFound, AreMissesExplained, AreWell, IsExplained, IsExplainedUnder};
ghost use Rattle.lifecycle_core.specs.Completed.{IsSettled};
ghost use Rattle.lifecycle_core.specs.Conducts.{CameTo, working};
ghost use Rattle.lifecycle_core.specs.Guarantees.{Answered, IsGiven, IsGuaranteed, IsSoundCall, LeavesNoneOut};
ghost use Rattle.lifecycle_core.specs.Holdings.{Use};
ghost use Rattle.lifecycle_core.specs.Shipped.{IsShippedUnder};
ghost use Rattle.lifecycle_core.specs.SyncsAndCalls.{IsCallIn, IsViewOf};
ghost use Rattle.lifecycle_core.specs.InLine.{IsRunInLine};
ghost use Rattle.lifecycle_core.specs.Phases.{IsFinished, IsInTurn, IsLawfulJournal, IsRunOf, by_workers};
ghost use Rattle.lifecycle_core.specs.QueriesAsked.{IsQueryAt};
ghost use Rattle.lifecycle_core.specs.Tasks.{End, answered, ask_to, sync_rules};
ghost use Rattle.lifecycle_core.specs.Ways.{AreFinished, BeginsPhase, PhasesRun};
ghost use Rattle.lifecycle_core.specs.TimeRules.{IsCompactionReadInTime, IsMarkedInTime, IsReadInTime, IsSyncedInTime, IsUploadedInTime};

use crate::Working;

/// A law: a run that was broken off before its first entry is a run of every script.
pub fn no_entry_is_lawful()
    ensures { (setting : Setting) → IsLawfulJournal setting [] }
{}

/// A law: the first entry of a lawful journal sets the clock to the script's first moment.
pub fn journals_begin_with_the_first_phase()
    ensures { (setting : Setting) (first : Entry) (others : List Entry)
        → IsLawfulJournal setting (first ∷ others)
        → (phase : Phase) × (later : List Phase) × (setting.script.phases ≡ phase ∷ later)
        × BeginsPhase phase first }
{}

/// A law: a run that does a lawful script's tasks one after another, in the order of their lines, leaves a lawful journal.
pub fn runs_in_line_are_lawful()
    ensures { (setting : Setting) (journal : List Entry) (ends : List (List End))
        → IsLawfulScript setting.script → IsRunInLine setting journal ends
        → IsLawfulJournal setting journal }
{}

/// A law: whoever works on a script in whatever way leaves an acting journal, if its uploads, compactions and cleanings are done in
/// this way, under some numbering of their seats, and all others do nothing but read.
pub fn conducts_are_acting<W: Working>()
    ensures { (setting : Setting) (seats : ℕ → ℕ) (journal : List Entry)
        (before : ℕ → W.State) (ends : List (List (List W.End)))
        → IsNumbering setting seats → HasActors setting seats (W.conduct setting)
        → IsJournal setting.script.rules.tick.ms journal
        → PhasesRun (working (W.conduct setting)) 0 before setting.script.phases journal ends
        → IsActing setting journal }
{}

/// A law: every lawful journal of a lawful script is acting.
pub fn lawful_journals_are_acting()
    ensures { (setting : Setting) (journal : List Entry)
        → IsLawfulScript setting.script → IsLawfulJournal setting journal
        → IsActing setting journal }
{}

/// A law: a call over the view of a sync that ended before it misses an object only where the journal shows why; and where the
/// bucket is honest, the call is worth what is said, for a selector that names no replica label. The journal is acting, and tells
/// which entries are the sync and the call.
pub fn calls_are_worth_it()
    ensures explained { (setting : Setting) (journal : List Entry) (gateway : ℕ) (used : Use)
        (sync entries : List Entry) (question : Question) (number : ℕ)
        → IsLawfulScript setting.script → IsActing setting journal → IsOfBytes journal
        → IsViewOf (sync_rules setting gateway) journal used sync
        → IsCallIn journal used question entries (Some (ended.Missing number))
        → IsExplainedUnder setting (watched_call used sync entries) journal number }
    ensures worth { (setting : Setting) (journal : List Entry) (gateway : ℕ) (used : Use)
        (sync entries : List Entry) (selector : List Matcher) (low high : ℤ)
        (end : Option SeriesEnd)
        → IsLawfulScript setting.script → IsActing setting journal → IsOfBytes journal
        → IsViewOf (sync_rules setting gateway) journal used sync → IsHonest journal
        → named_replicas setting.script.rules.replicas selector ≡ []
        → IsCallIn journal used (asking selector setting.script.rules.replicas low high) entries end
        → IsSoundCall setting (watched_call used sync entries) journal (sync_rules setting gateway)
        used (asking selector setting.script.rules.replicas low high) end }
{}

/// A law: whoever reads an object with which a block is shipped that a view keeps, or a range of one, after the sync that gave the
/// view, and finds nothing, the journal shows why. It need not be a call's read. The same is true of each index and segment that
/// was put before of a block that the view keeps, also of one that was compacted.
pub fn reads_of_kept_blocks_are_explained()
    ensures put { (setting : Setting) (journal : List Entry) (gateway : ℕ) (used : Use)
        (sync : List Entry) (found : Found) (e : Entry) (key : Key) (bytes : List ℕ)
        → IsLawfulScript setting.script → IsActing setting journal → IsOfBytes journal
        → IsViewOf (sync_rules setting gateway) journal used sync
        → Contains used.view.kept found → Contains journal e → used.last < e.seq
        → read_key e.op ≡ Some key → key_ulid key ≡ found.ulid → HoldsSamples key
        → WasPutBefore journal key bytes e.seq → e.reply ≡ Absent
        → IsExplainedUnder setting (watched_call used sync (e ∷ [])) journal e.seq }
    ensures shipped { (setting : Setting) (journal : List Entry) (gateway : ℕ) (used : Use)
        (sync : List Entry) (found : Found) (e : Entry) (key : Key)
        → IsLawfulScript setting.script → IsActing setting journal → IsOfBytes journal
        → IsViewOf (sync_rules setting gateway) journal used sync
        → Contains used.view.kept found → Contains journal e → used.last < e.seq
        → read_key e.op ≡ Some key → IsShippedUnder setting found.ulid key → e.reply ≡ Absent
        → IsExplainedUnder setting (watched_call used sync (e ∷ [])) journal e.seq }
{}

/// A law: where no line of the script is a cleaning, and the bucket is honest, a call over the view of a sync that ended before it
/// misses nothing, nor does any other read of a block that the view keeps. Where, besides, no line is a compaction, the call names
/// each block that this sync has to see, whatever the rules of time.
pub fn calls_miss_nothing_while_nothing_deletes()
    ensures found { (setting : Setting) (journal : List Entry) (gateway : ℕ) (used : Use)
        (sync entries : List Entry) (question : Question) (number : ℕ)
        → IsLawfulScript setting.script → DeletesNothing setting.script
        → IsActing setting journal → IsOfBytes journal
        → IsViewOf (sync_rules setting gateway) journal used sync → IsHonest journal
        → ¬ IsCallIn journal used question entries (Some (ended.Missing number)) }
    ensures read { (setting : Setting) (journal : List Entry) (gateway : ℕ) (used : Use)
        (sync : List Entry) (found : Found) (e : Entry) (key : Key)
        → IsLawfulScript setting.script → DeletesNothing setting.script
        → IsActing setting journal
        → IsViewOf (sync_rules setting gateway) journal used sync → IsHonest journal
        → Contains used.view.kept found → Contains journal e → used.last < e.seq
        → read_key e.op ≡ Some key → IsShippedUnder setting found.ulid key → e.reply ≢ Absent }
    ensures covered { (setting : Setting) (journal : List Entry) (gateway : ℕ) (used : Use)
        (sync entries : List Entry) (selector : List Matcher) (low high : ℤ)
        (series : List Series) (sources : List ℕ)
        → IsLawfulScript setting.script → DeletesNothing setting.script
        → CompactsNothing setting.script → IsActing setting journal
        → IsViewOf (sync_rules setting gateway) journal used sync → IsHonest journal
        → IsCallIn journal used (asking selector setting.script.rules.replicas low high) entries
        (Some (ended.Answer series sources))
        → (ulid : ℕ) → IsSettled setting journal (sync_rules setting gateway) used ulid
        → Contains sources ulid }
{}

/// A law: each end to which a gateway's worker came in a query is that of a call in the journal, over the view of a sync in it by
/// that gateway's rules, which a worker of this gateway made. The worker that came to the end made the call's entries, for the
/// selector that the query's line names and those of its times for which the gateway is asked; and what it had in its cache was read
/// by workers of this gateway. Where each phase was done before the next one began, the sync is the gateway's last before the call
/// that gave a view; where the bucket is honest, besides, the view is what the gateway has at each entry of the call.
pub fn ends_are_calls()
    ensures { (setting : Setting) (journal : List Entry) (ends : List (List (List End)))
        (number place gateway : ℕ) (own : List (List End)) (used : Use) (end : SeriesEnd)
        → IsRunOf setting journal ends → slice_get ends number ≡ Some own
        → (came : CameTo (workers_of setting.script number) own (Some gateway) place
        (answered used end))
        → (selector : List Matcher) × (low : ℤ) × (high : ℤ) × (ask : Ask)
        × (sync : List Entry) × (entries : List Entry)
        × IsQueryAt setting number place selector low high
        × (ask_to setting (Some gateway) low high ≡ Some ask)
        × (view : IsViewOf (sync_rules setting gateway) journal used sync)
        × IsSeatOf setting gateway view.seat
        × (call : IsCallIn journal used
        (asking selector setting.script.rules.replicas ask.low ask.high) entries (Some end))
        × All (λ e. e.seat ≡ came.worker.seat) entries
        × All (λ e. IsSeatOf setting gateway e.seat) call.earlier
        × (IsLawfulScript setting.script → IsInTurn setting ends
        → All (λ e. NoViewBetween setting journal gateway used.last e.seq) entries)
        × (IsLawfulScript setting.script → IsInTurn setting ends → IsHonest journal
        → All (λ e. IsViewAt setting journal gateway e.seq used.view) entries) }
{}

/// A law: the entries of an upload, a sync, a compaction or a cleaning tell its end, and those of a call, with the cache before it,
/// its end and the cache that it leaves. So what is reported of them is told by the journal.
pub fn entries_tell_the_end()
    ensures upload { (ulid : ℕ) (objects : List Object) (entries : List Entry)
        (one other : UploadEnd) → Runs (upload ulid objects) entries (Some one)
        → Runs (upload ulid objects) entries (Some other) → one ≡ other }
    ensures sync { (rules : SyncRules) (entries : List Entry) (one other : SyncEnd)
        → SyncRun rules entries (Some one) → SyncRun rules entries (Some other) → one ≡ other }
    ensures compaction { (rules : Rules) (entries : List Entry) (one other : CompactEnd)
        → CompactRun rules entries (Some one) → CompactRun rules entries (Some other)
        → one ≡ other }
    ensures cleaning { (rules : Rules) (entries : List Entry) (one other : CleanEnd)
        → CleanRun rules entries (Some one) → CleanRun rules entries (Some other)
        → one ≡ other }
    ensures call { (view : View) (question : Question) (cache : Cache) (entries : List Entry)
        (one other : CallEnd) → SeriesRun view question cache entries (Some one)
        → SeriesRun view question cache entries (Some other) → one ≡ other }
{}

/// A law: a journal tells the ends of what was done. Two finished runs of one script that leave one journal came to the same ends;
/// and so did two runs of which the same first phases were done. Two runs that were broken off while an operation was due have
/// finished the same phases, with the same ends; and a journal that was left by such a run is not that of a finished one. What the
/// tasks of an unfinished phase came to is not told by the journal where a task makes no entry.
pub fn ends_are_one()
    ensures finished { (setting : Setting) (journal : List Entry)
        (one other : List (List (List End)))
        → IsRunOf setting journal one → IsRunOf setting journal other
        → IsFinished setting one → IsFinished setting other → one ≡ other }
    ensures begun { (setting : Setting) (journal : List Entry) (done left : List Phase)
        (one other more others : List (List (List End)))
        → setting.script.phases ≡ done ++ left
        → IsRunOf setting journal (one ++ more) → IsRunOf setting journal (other ++ others)
        → AreFinished (by_workers setting) 0 done one
        → AreFinished (by_workers setting) 0 done other → one ≡ other }
    ensures cut { (setting : Setting) (journal : List Entry) (done also : List Phase)
        (one other : List (List (List End)))
        → IsCutBehind setting journal done one → IsCutBehind setting journal also other
        → (done ≡ also) × (one ≡ other) }
    ensures unfinished { (setting : Setting) (journal : List Entry) (done : List Phase)
        (told ends : List (List (List End)))
        → IsCutBehind setting journal done told → IsRunOf setting journal ends
        → ¬ IsFinished setting ends }
{}

/// A law: a front of a lawful journal is one.
pub fn fronts_are_lawful()
    ensures { (setting : Setting) (front others : List Entry)
        → IsLawfulJournal setting (front ++ others) → IsLawfulJournal setting front }
{}

/// A law: where a compaction says that an object was missing, the journal shows why, whatever the bucket does. Where each phase was
/// done before the next one began, the same is true of a series call.
pub fn misses_are_explained()
    ensures every { (setting : Setting) (journal : List Entry) (ends : List (List (List End)))
        → IsLawfulScript setting.script → IsRunOf setting journal ends → IsInTurn setting ends
        → IsOfBytes journal → AreMissesExplained setting journal ends }
    ensures compactions { (setting : Setting) (journal : List Entry)
        (ends : List (List (List End)))
        → IsLawfulScript setting.script → IsRunOf setting journal ends
        → IsOfBytes journal → AreCompactionsExplained setting journal ends }
{}

/// A law: where the bucket is honest, and no line of the script is a cleaning, no call and no compaction misses an object.
pub fn honest_buckets_miss_nothing()
    ensures { (setting : Setting) (journal : List Entry) (ends : List (List (List End)))
        → IsLawfulScript setting.script → DeletesNothing setting.script
        → IsRunOf setting journal ends → IsOfBytes journal → IsHonest journal
        → AreFound ends }
{}

/// A law: an honest journal shows no lie.
pub fn honest_journals_tell_no_lie()
    ensures { (tick : ℕ) (journal : List Entry) → IsJournal tick journal → IsHonest journal
        → Each (λ before e. (x y : ℕ) → ¬ IsLie before e x y) journal }
{}

/// A law: where what a journal puts and shows is bytes, as in every world's, a reply is no lie exactly where it shows what stands
/// after the entries before it.
pub fn replies_lie_where_they_do_not_tell()
    ensures { (tick : ℕ) (journal : List Entry) → IsJournal tick journal → IsOfBytes journal
        → Each (λ before e. ((x y : ℕ) → ¬ IsLie before e x y)
        ↔ Tells (stands before) e.op e.reply) journal }
{}

/// A law: a journal in which no rule refuses an entry is honest, where what it puts and shows is bytes, as in every world's.
pub fn unbroken_journals_are_honest()
    ensures { (setting : Setting) (tick : ℕ) (journal : List Entry) → IsJournal tick journal
        → IsOfBytes journal → IsUnbroken setting journal → IsHonest journal }
{}

/// A law: where no rule refuses an entry, no call failed, and each phase was done before the next one began, every task of a
/// lawful script ends well, whether the bucket tells what it holds or not.
pub fn unbroken_runs_end_well()
    ensures { (setting : Setting) (journal : List Entry) (ends : List (List (List End)))
        → IsLawfulScript setting.script → IsRunOf setting journal ends → IsInTurn setting ends
        → IsOfBytes journal → IsUnbroken setting journal → failed_count journal ≡ 0
        → AreWell ends }
{}

/// A law: where misses are explained and no entry breaks a rule, no series call misses an object.
pub fn unbroken_journals_miss_nothing()
    ensures { (setting : Setting) (journal : List Entry) (ends : List (List (List End)))
        → AreMissesExplained setting journal ends → IsUnbroken setting journal → AreFound ends }
{}

/// A law: an unbroken journal has no breach, and no entry of it is a cause.
pub fn unbroken_journals_have_no_breach()
    ensures unbreached { (setting : Setting) (journal : List Entry) (rule : Rule) (number x y : ℕ)
        → IsUnbroken setting journal → ¬ IsBreach setting journal rule number x y }
    ensures unexplained { (setting : Setting) (journal : List Entry) (number : ℕ)
        → IsUnbroken setting journal → ¬ IsExplained setting journal number }
{}

/// A law: a journal without a breach is unbroken, and one with a breach has no other: its rule, its
/// entry and its two numbers are told by the journal.
pub fn journals_have_one_breach()
    ensures unbroken { (setting : Setting) (journal : List Entry)
        → ((rule : Rule) (number x y : ℕ) → ¬ IsBreach setting journal rule number x y)
        → IsUnbroken setting journal }
    ensures place { (setting : Setting) (journal : List Entry) (rule also : Rule)
        (number seq x y one two : ℕ) → IsBreach setting journal rule number x y
        → IsBreach setting journal also seq one two → (rule ≡ also) × (number ≡ seq) }
    ensures numbers { (setting : Setting) (tick : ℕ) (journal : List Entry)
        → IsLawfulScript setting.script → IsJournal tick journal
        → (rule : Rule) (number x y one two : ℕ)
        → IsBreach setting journal rule number x y → IsBreach setting journal rule number one two
        → (x ≡ one) × (y ≡ two) }
{}

/// A law: an unbroken journal keeps each rule of time: on uploads, on marks, on syncs, and on the reads of series calls and of
/// compactions.
pub fn unbroken_journals_are_in_time()
    ensures uploaded { (setting : Setting) (journal : List Entry) → IsUnbroken setting journal
        → (ulid : ℕ) → IsUploadedInTime setting.script.rules ulid journal }
    ensures marked { (setting : Setting) (journal : List Entry) → IsUnbroken setting journal
        → (ulid : ℕ) → IsMarkedInTime setting.script.rules ulid journal }
    ensures synced { (setting : Setting) (journal : List Entry) → IsUnbroken setting journal
        → (tick : ℕ) → HasMoments tick journal
        → (gateway : ℕ) (entries : List Entry) (end : Option SyncEnd)
        → IsSyncIn setting journal gateway entries end
        → IsSyncedInTime setting.script.rules entries }
    ensures read { (setting : Setting) (journal : List Entry) → IsUnbroken setting journal
        → (gateway : ℕ) (view : View)
        → Each (λ before e. IsCallRead setting gateway e
        → IsViewAt setting journal gateway e.seq view
        → IsReadInTime setting.script.rules view e) journal }
    ensures compacted { (setting : Setting) (journal : List Entry) → IsUnbroken setting journal
        → (begin : Moment)
        → Each (λ before e. IsCompactorSeat setting e.seat
        → IsReadSince journal e.seat begin e
        → IsCompactionReadInTime setting.script.rules begin e) journal }
{}

/// A law: all is guaranteed of every run of a lawful script, in whatever order its workers' operations fell, and wherever it was
/// broken off.
pub fn runs_are_guaranteed()
    ensures { (setting : Setting) (journal : List Entry) (ends : List (List (List End)))
        → IsLawfulScript setting.script → IsRunOf setting journal ends → IsOfBytes journal
        → IsGuaranteed setting journal ends }
{}

/// A law: where the bucket is honest, and no line of the script is a compaction or a cleaning, an answered query leaves no settled
/// upload out, whatever the rules of time.
pub fn settled_uploads_are_named()
    ensures { (setting : Setting) (journal : List Entry) (ends : List (List (List End)))
        (query : Answered)
        → IsLawfulScript setting.script → DeletesNothing setting.script
        → CompactsNothing setting.script → IsRunOf setting journal ends → IsHonest journal
        → IsGiven setting ends query → LeavesNoneOut setting journal query }
{}

/// A law: where no entry breaks a rule, an answered query leaves no settled upload out.
pub fn unbroken_runs_leave_none_out()
    ensures { (setting : Setting) (journal : List Entry) (ends : List (List (List End)))
        (query : Answered)
        → IsLawfulScript setting.script → IsRunOf setting journal ends → IsOfBytes journal
        → IsUnbroken setting journal
        → IsGiven setting ends query → LeavesNoneOut setting journal query }
{}
