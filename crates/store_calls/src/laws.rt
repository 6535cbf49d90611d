//! Laws of calls, told by their entries and by the cache before them alone: what an answer has, and what the end of a
//! call says of the bucket. The laws on whole journals stand on them.

ghost use Rattle.std.specs.Prelude.{◌≡◌, ◌≢◌, ℕ, List, [], true, All, Contains, IsTrue, Option, Some};
ghost use Rattle.std.specs.List.{AllZip};
ghost use Rattle.bucket_core.specs.Contents.{Contents};
ghost use Rattle.matchers.specs.SelectorText.{named_replicas};
ghost use Rattle.store_calls.specs.Exact.{AreShown, HoldsBlock, HoldsWhole, IsCacheOf, asked_of_all};
ghost use Rattle.label_sets.specs.Triples.{Triple, triples_of};
ghost use Rattle.label_sets.specs.declared.series.Series.{Series};
ghost use Rattle.std.specs.List.Sorted.{IsStrictlyIncreasing};
ghost use Rattle.world_core.specs.Operations.{has_failed};
ghost use Rattle.world_core.specs.declared.entry.Entry.{Entry};
ghost use Rattle.world_core.specs.declared.reply.Reply.TheVariants.{Absent};
ghost use Rattle.meta_fetcher.specs.declared.view.View.{View};
ghost use Rattle.matchers.specs.Selected.{is_between};
ghost use Rattle.vertical_merge.specs.Merged.{IsMerge};
ghost use Rattle.store_ranges.specs.Reads.{Query, Cache};
ghost use Rattle.store_calls.specs.SeriesCalls.{CallEnd, SeriesRun, to_read};
ghost use Rattle.store_calls.specs.Shares.{AreShares, all_shares};
ghost use Rattle.store_calls.specs.Asking.{IsReadOfOne};
ghost use Rattle.store_calls.specs.KeptRanges.{IsOfReads};
ghost use Rattle.store_calls.specs.LastEntries.{EndsWith};
ghost use Rattle.store_calls.specs.declared.series_call.SeriesEnd.TheVariants as ended;

/// A law: an answer has each sample that some block of the view gave once, and no other, where the pattern of the first block
/// stays; and the sources that it names ascend.
pub fn answers_are_of_shares()
    ensures shares { (view : View) (query : Query) (before after : Cache) (entries : List Entry)
        (series : List Series) (sources : List ℕ)
        → SeriesRun view query before entries
        (Some (record { end = ended.Answer series sources; cache = after }))
        → (shares : List (List Triple))
        × AreShares query (to_read query view.kept) before entries shares after
        × IsMerge (all_shares shares) series }
    ensures ascend { (view : View) (query : Query) (before after : Cache) (entries : List Entry)
        (series : List Series) (sources : List ℕ)
        → SeriesRun view query before entries
        (Some (record { end = ended.Answer series sources; cache = after }))
        → IsStrictlyIncreasing sources }
{}

/// A law: the entries of a call, with the cache before it, tell its end and the cache that it leaves.
pub fn calls_have_one_end()
    ensures { (view : View) (query : Query) (cache : Cache) (entries : List Entry)
        (one other : CallEnd)
        → SeriesRun view query cache entries (Some one)
        → SeriesRun view query cache entries (Some other)
        → one ≡ other }
{}

/// A law: a call asks for nothing but the index of blocks that meet its range of times, ranges of it, and ranges of their segments.
pub fn calls_read_their_blocks()
    ensures { (view : View) (query : Query) (cache : Cache) (entries : List Entry)
        (end : Option CallEnd)
        → SeriesRun view query cache entries end
        → All (λ e. IsReadOfOne (to_read query view.kept) e.op) entries }
{}

/// A law: each range that a call leaves in its cache was read, with these bytes, where those were that it had before and where the
/// call's own entries stand.
pub fn caches_are_of_reads()
    ensures { (view : View) (query : Query) (before : Cache) (entries journal : List Entry)
        (call : CallEnd)
        → SeriesRun view query before entries (Some call) → All (Contains journal) entries
        → IsOfReads journal before → IsOfReads journal call.cache }
{}

/// A law: the samples of an answer lie in the range that was asked for.
pub fn answers_lie_in_the_range()
    ensures { (view : View) (query : Query) (before after : Cache) (entries : List Entry)
        (series : List Series) (sources : List ℕ)
        → SeriesRun view query before entries
        (Some (record { end = ended.Answer series sources; cache = after }))
        → All (λ t. is_between query.low query.high t.time ≡ true) (triples_of series) }
{}

/// A law: where the bucket's contents are shown by each entry of a call, and by the cache before it, an answer has exactly those
/// samples of the blocks, by their content, that the query asks for. The selector names no replica label.
pub fn calls_are_exact()
    ensures { (view : View) (query : Query) (contents : Contents) (lists : List (List Series))
        (before after : Cache) (entries : List Entry) (series : List Series) (sources : List ℕ)
        → named_replicas query.replicas query.selector ≡ []
        → AllZip (HoldsBlock contents) (to_read query view.kept) lists
        → AreShown contents entries → IsCacheOf contents before
        → SeriesRun view query before entries
        (Some (record { end = ended.Answer series sources; cache = after }))
        → IsMerge (asked_of_all query (to_read query view.kept) lists) series
        × IsCacheOf contents after }
{}

/// A law: where a call says that an object was missing, or that an operation failed, its last entry shows that.
pub fn calls_show_their_ends()
    ensures missing { (view : View) (query : Query) (before : Cache) (entries : List Entry)
        (call : CallEnd) (number : ℕ)
        → SeriesRun view query before entries (Some call) → call.end ≡ ended.Missing number
        → EndsWith entries number (λ reply. reply ≡ Absent) }
    ensures failed { (view : View) (query : Query) (before : Cache) (entries : List Entry)
        (call : CallEnd) (number : ℕ)
        → SeriesRun view query before entries (Some call) → call.end ≡ ended.Fault number
        → EndsWith entries number (λ reply. IsTrue (has_failed reply)) }
{}

/// A law: where the bucket's contents are shown by each entry of a call, and by the cache before it, and have the blocks that it
/// reads, within their bounds, the call misses no object, and finds nothing damaged.
pub fn calls_find_their_blocks()
    ensures { (view : View) (query : Query) (contents : Contents) (lists : List (List Series))
        (before : Cache) (entries : List Entry) (call : CallEnd) (number : ℕ)
        → AllZip (HoldsWhole contents) (to_read query view.kept) lists
        → AreShown contents entries → IsCacheOf contents before
        → SeriesRun view query before entries (Some call)
        → (call.end ≢ ended.Missing number) × (call.end ≢ ended.Damaged number) }
{}
