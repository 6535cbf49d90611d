//! The lines of a report, word by word: one for each activity, and behind that of a query the series of the answer.
//! They are what a user sees of a run; a fault is told by the number of its entry, at which he reads on in the journal.

ghost use Rattle.std.specs.Prelude.{◌≡◌, ◌++◌, ◌∷◌, ◌*◌, ◌-◌, ◌^◌, [], codes, length, min, OnOk};
ghost use Rattle.std.specs.List.{flat_map, list_any};
ghost use Rattle.base.specs.Decimal.{decimal_text, signed_text};
ghost use Rattle.base.specs.Lines.{newline};
ghost use Rattle.ulid_core.specs.UlidText.{text_of};
ghost use Rattle.label_sets.specs.Counts.{sample_count};
ghost use Rattle.script_fields.specs.Limits.{longest_sample};
ghost use Rattle.report_lines.specs.CheckLines.{check_line};
ghost use Rattle.report_lines.specs.Reports.{activity_text, gateway_name, upload_line, upload_of, unshipped_line, sync_line, compact_line, expired_words, clean_line, query_line, query_text, no_answer_words, answer_text, parted_text, counts_text, source_line, named_line, named_lines, named_count, is_part, series_line};
ghost use Rattle.report_lines.specs.BreachLines.{between, breach_line, breach_text, rule_word};

use crate::SeriesWay;
use crate::check_outcome::CheckOutcome;
use base::{NoMemory, put_signed, put_unsigned};
use breach_finding::{Breach, BreachRule};
use label_sets::{Series, SeriesList, sample_count};
use moment_core::Partition;
use querier::{Names, NamesList};
use script_core::{LONGEST_SAMPLE, Script, Task, Work};
use script_running::{
    Came, CleanEnd, CompactEnd, NoAnswer, Outcome, QueryOutcome, Stop, SyncOutcome, UploadEnd,
};
use ulid_core::{Ulid, UlidList};

/// Appends the lines of one activity, or a part of them where memory runs out. Those of an answer's series are put in this way.
#[tactic(auto, unfolding(crate::specs::Reports::activity_text))]
pub fn put_activity<W: SeriesWay>(
    out: &mut Vec<u8>,
    script: &Script,
    task: &Task,
    outcome: &Outcome,
    way: &W,
) -> Result<(), NoMemory>
    requires { W.can_put way.now }
    ensures { OnOk result
        (out.new.items ≡ out.old.items ++ activity_text script.now task.now.work outcome.now) }
{
    match (&task.work, outcome) {
        (Work::Upload(ulid, _), Came::Upload(end)) => put_upload(out, *ulid, end),
        (Work::Upload(ulid, _), Came::Unshipped(cause)) => put_unshipped(out, *ulid, *cause),
        (Work::Sync(gateway), Came::Sync(end)) => {
            put_sync(out, gateway_name(script, *gateway), end)
        }
        (Work::Compact(_), Came::Compact(end)) => {
            put_compact(out, script.rules.retention.is_some(), end)
        }
        (Work::Clean(_), Came::Clean(end)) => put_clean(out, end),
        (Work::Query { low, high, .. }, Came::Query(end)) => {
            put_query(out, script, *low, *high, end, way)
        }
        _ => Ok(()),
    }
}

/// The name of a gateway; nothing where there is no such gateway.
fn gateway_name(script: &Script, gateway: u32) -> &str
    ensures { result.now ≡ gateway_name script.now gateway }
{
    script
        .gateways
        .get(gateway as usize)
        .map_or("", |name| name.as_str())
}

fn put_text(out: &mut Vec<u8>, text: &str) -> Result<(), NoMemory>
    ensures { OnOk result (out.new.items ≡ out.old.items ++ text.now) }
{
    out.extend_from_slice(text.as_bytes())?;
    Ok(())
}

fn put_numbered(out: &mut Vec<u8>, before: &str, number: u64, after: &str) -> Result<(), NoMemory>
    ensures { OnOk result
        (out.new.items ≡ out.old.items ++ before.now ++ decimal_text number ++ after.now) }
{
    put_text(out, before)?;
    put_unsigned(out, number)?;
    put_text(out, after)
}

/// Appends the line of a checked block.
#[tactic(auto, unfolding(crate::specs::CheckLines::check_words, crate::specs::CheckLines::check_line))]
pub fn put_check(out: &mut Vec<u8>, block: Ulid, outcome: CheckOutcome) -> Result<(), NoMemory>
    ensures { OnOk result (out.new.items ≡ out.old.items ++ check_line block outcome) }
{
    put_text(out, "check ")?;
    block.put_text(out)?;
    put_text(out, ": ")?;
    match outcome {
        CheckOutcome::Passed(series, samples) => {
            put_numbered(out, "ok ", series, " series ")?;
            put_numbered(out, "", samples, " samples")?;
        }
        CheckOutcome::Refused(number) => put_numbered(out, "refused ", u64::from(number), "")?,
    }
    put_text(out, "\n")
}

#[tactic(auto, unfolding(crate::specs::Reports::upload_words))]
fn put_upload(out: &mut Vec<u8>, ulid: Ulid, end: &Stop<UploadEnd>) -> Result<(), NoMemory>
    ensures { OnOk result (out.new.items ≡ out.old.items ++ upload_line ulid end.now) }
{
    put_upload_of(out, ulid)?;
    match end {
        Stop::Ended(UploadEnd::Done(count)) => {
            put_numbered(out, "ok ", u64::from(*count), " objects")?
        }
        Stop::Ended(UploadEnd::Already) => put_text(out, "already")?,
        Stop::Ended(UploadEnd::Fault(entry)) => put_numbered(out, "fault ", *entry, "")?,
        Stop::At(count) => put_numbered(out, "stopped ", u64::from(*count), "")?,
    }
    put_text(out, "\n")
}

/// Appends the line of an upload whose block is not shipped, for the cause of this number.
fn put_unshipped(out: &mut Vec<u8>, ulid: Ulid, cause: u32) -> Result<(), NoMemory>
    ensures { OnOk result (out.new.items ≡ out.old.items ++ unshipped_line ulid cause) }
{
    put_upload_of(out, ulid)?;
    put_numbered(out, "refused ", u64::from(cause), "\n")
}

/// Appends what the line of a block's upload begins with.
fn put_upload_of(out: &mut Vec<u8>, ulid: Ulid) -> Result<(), NoMemory>
    ensures { OnOk result (out.new.items ≡ out.old.items ++ upload_of ulid) }
{
    put_text(out, "upload ")?;
    ulid.put_text(out)?;
    put_text(out, ": ")
}

#[tactic(auto, unfolding(crate::specs::Reports::sync_words))]
fn put_sync(out: &mut Vec<u8>, name: &str, end: &SyncOutcome) -> Result<(), NoMemory>
    ensures { OnOk result (out.new.items ≡ out.old.items ++ sync_line name.now end.now) }
{
    put_text(out, "sync ")?;
    put_text(out, name)?;
    put_text(out, ": ")?;
    match end {
        SyncOutcome::Blocks(count) => put_numbered(out, "", *count, " blocks")?,
        SyncOutcome::Fault(entry) => put_numbered(out, "fault ", *entry, "")?,
        SyncOutcome::Damaged(entry) => put_numbered(out, "damaged ", *entry, "")?,
        SyncOutcome::TooMany => put_text(out, "too many")?,
    }
    put_text(out, "\n")
}

/// Appends the line of a compaction, which tells of expired blocks where the script sets a retention.
#[tactic(auto, unfolding(crate::specs::Reports::compact_words))]
fn put_compact(out: &mut Vec<u8>, retains: bool, end: &Stop<CompactEnd>) -> Result<(), NoMemory>
    ensures { OnOk result (out.new.items ≡ out.old.items ++ compact_line retains end.now) }
{
    put_text(out, "compact: ")?;
    match end {
        Stop::Ended(
            CompactEnd::Done {
                collected,
                compacted,
                expired,
            },
        ) => {
            put_numbered(out, "collected ", *collected, " compacted ")?;
            put_unsigned(out, *compacted)?;
            put_expired(out, retains, *expired)?;
        }
        Stop::Ended(CompactEnd::Fault(entry)) => put_numbered(out, "fault ", *entry, "")?,
        Stop::Ended(CompactEnd::Missing(entry)) => put_numbered(out, "missing ", *entry, "")?,
        Stop::Ended(CompactEnd::Damaged(entry)) => put_numbered(out, "damaged ", *entry, "")?,
        Stop::Ended(CompactEnd::TooMany) => put_text(out, "too many")?,
        Stop::Ended(CompactEnd::TooLarge) => put_text(out, "too large")?,
        Stop::At(count) => put_numbered(out, "stopped ", u64::from(*count), "")?,
    }
    put_text(out, "\n")
}

/// Appends how many expired blocks were marked, where the script sets a retention.
fn put_expired(out: &mut Vec<u8>, retains: bool, expired: u64) -> Result<(), NoMemory>
    ensures { OnOk result (out.new.items ≡ out.old.items ++ expired_words retains expired) }
{
    if retains {
        put_numbered(out, " expired ", expired, "")?;
    }
    Ok(())
}

#[tactic(auto, unfolding(crate::specs::Reports::clean_words))]
fn put_clean(out: &mut Vec<u8>, end: &Stop<CleanEnd>) -> Result<(), NoMemory>
    ensures { OnOk result (out.new.items ≡ out.old.items ++ clean_line end.now) }
{
    put_text(out, "clean: ")?;
    match end {
        Stop::Ended(CleanEnd::Done { blocks, partials }) => {
            put_numbered(out, "blocks ", *blocks, " partials ")?;
            put_unsigned(out, *partials)?;
        }
        Stop::Ended(CleanEnd::Fault(entry)) => put_numbered(out, "fault ", *entry, "")?,
        Stop::Ended(CleanEnd::Damaged(entry)) => put_numbered(out, "damaged ", *entry, "")?,
        Stop::Ended(CleanEnd::TooMany) => put_text(out, "too many")?,
        Stop::At(count) => put_numbered(out, "stopped ", u64::from(*count), "")?,
    }
    put_text(out, "\n")
}

/// Appends the line of a journal's breach, where it has one.
pub(crate) fn put_breach(out: &mut Vec<u8>, breach: Option<Breach>) -> Result<(), NoMemory>
    ensures { OnOk result (out.new.items ≡ out.old.items ++ breach_text breach) }
{
    match breach {
        Some(breach) => put_breach_line(out, breach),
        None => Ok(()),
    }
}

#[tactic(auto, unfolding(crate::specs::BreachLines::breach_line))]
fn put_breach_line(out: &mut Vec<u8>, breach: Breach) -> Result<(), NoMemory>
    ensures { OnOk result (out.new.items ≡ out.old.items ++ breach_line breach) }
{
    put_text(out, "breach ")?;
    put_text(out, rule_word(breach.rule))?;
    put_numbered(out, " entry ", breach.entry, ": ")?;
    put_numbered(out, "", breach.found, between(breach.rule))?;
    put_unsigned(out, breach.allowed)?;
    put_text(out, "\n")
}

/// The word for a rule in the line of a breach.
fn rule_word(rule: BreachRule) -> &'static str
    ensures { result.now ≡ rule_word rule }
{
    match rule {
        BreachRule::Bucket => "bucket",
        BreachRule::UploadTime => "Z1",
        BreachRule::MarkTime => "Z2",
        BreachRule::SyncTime => "Z3",
        BreachRule::ViewTime => "Z4",
        BreachRule::ReadTime => "Z5",
    }
}

/// What stands between the two numbers of a breach.
fn between(rule: BreachRule) -> &'static str
    ensures { result.now ≡ between rule }
{
    match rule {
        BreachRule::Bucket => " not ",
        _ => " over ",
    }
}

fn put_query<W: SeriesWay>(
    out: &mut Vec<u8>,
    script: &Script,
    low: i64,
    high: i64,
    end: &QueryOutcome,
    way: &W,
) -> Result<(), NoMemory>
    requires { W.can_put way.now }
    ensures { OnOk result
        (out.new.items ≡ out.old.items ++ query_line script.now low high end.now) }
{
    put_text(out, "query ")?;
    put_signed(out, low)?;
    put_text(out, " ")?;
    put_signed(out, high)?;
    put_text(out, ": ")?;
    put_query_end(out, script, end, way)
}

#[tactic(auto, unfolding(crate::specs::Reports::query_text))]
fn put_query_end<W: SeriesWay>(
    out: &mut Vec<u8>,
    script: &Script,
    end: &QueryOutcome,
    way: &W,
) -> Result<(), NoMemory>
    requires { W.can_put way.now }
    ensures { OnOk result (out.new.items ≡ out.old.items ++ query_text script.now end.now) }
{
    match end {
        QueryOutcome::Answer(answer, names) => {
            if are_parted(script.partitions.members()) {
                put_parted(out, script, &answer.series, names, way)
            } else {
                put_answer(out, &answer.series, &answer.sources, way)
            }
        }
        QueryOutcome::NoAnswer(gateway, why) => {
            put_text(out, gateway_name(script, *gateway))?;
            put_text(out, " ")?;
            put_no_answer(out, why)?;
            put_text(out, "\n")
        }
    }
}

#[tactic(auto, unfolding(crate::specs::Reports::no_answer_words))]
fn put_no_answer(out: &mut Vec<u8>, why: &NoAnswer) -> Result<(), NoMemory>
    ensures { OnOk result (out.new.items ≡ out.old.items ++ no_answer_words why.now) }
{
    match why {
        NoAnswer::NoView => put_text(out, "no view"),
        NoAnswer::Missing(entry) => put_numbered(out, "missing ", *entry, ""),
        NoAnswer::Damaged(entry) => put_numbered(out, "damaged ", *entry, ""),
        NoAnswer::Fault(entry) => put_numbered(out, "fault ", *entry, ""),
    }
}

/// Whether some gateway's line gives it a partition.
fn are_parted(partitions: &[Partition]) -> bool
    ensures { result ≡ list_any is_part partitions.now }
{
    match partitions {
        [] => false,
        [first, others @ ..] => is_part(first) || are_parted(others),
    }
}

fn is_part(partition: &Partition) -> bool
    ensures { result ≡ is_part partition.now }
{
    let whole = (partition.low == i64::MIN) & (partition.high == i64::MAX);
    !whole
}

/// Appends an answer with the sources of all gateways together.
#[tactic(auto, unfolding(crate::specs::Reports::answer_text))]
fn put_answer<W: SeriesWay>(
    out: &mut Vec<u8>,
    series: &SeriesList,
    sources: &UlidList,
    way: &W,
) -> Result<(), NoMemory>
    requires { W.can_put way.now }
    ensures { OnOk result (out.new.items ≡ out.old.items ++ answer_text series.now sources.now) }
{
    put_counts(out, series, sources.len() as u64)?;
    put_sources(out, sources.members())?;
    way.put_all(out, series.members())
}

/// Appends an answer with the sources of each gateway.
#[tactic(auto, unfolding(crate::specs::Reports::parted_text))]
fn put_parted<W: SeriesWay>(
    out: &mut Vec<u8>,
    script: &Script,
    series: &SeriesList,
    names: &NamesList,
    way: &W,
) -> Result<(), NoMemory>
    requires { W.can_put way.now }
    ensures { OnOk result
        (out.new.items ≡ out.old.items ++ parted_text script.now series.now names.now) }
{
    put_counts(out, series, named_count(names.members()))?;
    put_all_named(out, script, names.members())?;
    way.put_all(out, series.members())
}

/// How many uploads gateways name together.
#[tactic(auto, unfolding(crate::specs::Reports::named_count))]
fn named_count(names: &[Names]) -> u64
    ensures { result ≡ named_count names.now }
{
    let mut count = 0u64;
    for one in names {
        count = count.saturating_add(one.sources.len() as u64);
    }
    count
}

#[tactic(auto, unfolding(crate::specs::Reports::counts_text))]
fn put_counts(out: &mut Vec<u8>, series: &SeriesList, sources: u64) -> Result<(), NoMemory>
    ensures { OnOk result (out.new.items ≡ out.old.items ++ counts_text series.now sources) }
{
    put_count(out, series.len() as u64, " series ")?;
    put_count(out, sample_count(series.members()), " samples ")?;
    put_count(out, sources, " sources")?;
    put_text(out, "\n")
}

fn put_count(out: &mut Vec<u8>, count: u64, words: &str) -> Result<(), NoMemory>
    ensures { OnOk result (out.new.items ≡ out.old.items ++ (decimal_text count ++ words.now)) }
{
    put_unsigned(out, count)?;
    put_text(out, words)
}

fn put_sources(out: &mut Vec<u8>, sources: &[Ulid]) -> Result<(), NoMemory>
    ensures { OnOk result (out.new.items ≡ out.old.items ++ flat_map source_line sources.now) }
{
    for source in sources {
        put_source(out, *source)?;
    }
    Ok(())
}

#[tactic(auto, unfolding(crate::specs::Reports::source_line))]
fn put_source(out: &mut Vec<u8>, source: Ulid) -> Result<(), NoMemory>
    ensures { OnOk result (out.new.items ≡ out.old.items ++ source_line source) }
{
    put_text(out, "source ")?;
    source.put_text(out)?;
    put_text(out, "\n")
}

fn put_all_named(out: &mut Vec<u8>, script: &Script, names: &[Names]) -> Result<(), NoMemory>
    ensures { OnOk result
        (out.new.items ≡ out.old.items ++ flat_map (named_lines script.now) names.now) }
{
    for one in names {
        put_named(out, script, one)?;
    }
    Ok(())
}

/// Appends a line for each upload that the gateway names.
#[tactic(auto, unfolding(crate::specs::Reports::named_lines))]
fn put_named(out: &mut Vec<u8>, script: &Script, names: &Names) -> Result<(), NoMemory>
    ensures { OnOk result (out.new.items ≡ out.old.items ++ named_lines script.now names.now) }
{
    for source in names.sources.members() {
        put_named_source(out, script, names.gateway, *source)?;
    }
    Ok(())
}

#[tactic(auto, unfolding(crate::specs::Reports::named_line))]
fn put_named_source(
    out: &mut Vec<u8>,
    script: &Script,
    gateway: u32,
    source: Ulid,
) -> Result<(), NoMemory>
    ensures { OnOk result (out.new.items ≡ out.old.items ++ named_line script.now gateway source) }
{
    put_text(out, "source ")?;
    put_text(out, gateway_name(script, gateway))?;
    put_text(out, " ")?;
    source.put_text(out)?;
    put_text(out, "\n")
}

/// Appends a line for each series, or a part of the lines where memory runs out. Room for all is made before.
pub fn put_all_series(out: &mut Vec<u8>, series: &[Series]) -> Result<(), NoMemory>
    ensures { OnOk result (out.new.items ≡ out.old.items ++ flat_map series_line series.now) }
{
    make_room(out, series);
    for one in series {
        put_series(out, one)?;
    }
    Ok(())
}

/// Makes room for all samples of these series at once, so that a long answer is not copied while it grows. Where there is none, the text
/// grows as it needs.
pub fn make_room(out: &mut Vec<u8>, series: &[Series])
    ensures { out.new.items ≡ out.old.items }
{
    let _ = out.reserve(samples_size(series));
}

/// How many bytes the samples of these series take at most.
fn samples_size(series: &[Series]) -> usize
    ensures { result ≡ min (sample_count series.now * longest_sample) (2 ^ 64 - 1) }
{
    (sample_count(series) as usize).saturating_mul(LONGEST_SAMPLE)
}

#[tactic(auto, unfolding(crate::specs::Reports::series_line))]
fn put_series(out: &mut Vec<u8>, series: &Series) -> Result<(), NoMemory>
    ensures { OnOk result (out.new.items ≡ out.old.items ++ series_line series.now) }
{
    put_text(out, "series ")?;
    series.write(out)?;
    put_text(out, "\n")
}
