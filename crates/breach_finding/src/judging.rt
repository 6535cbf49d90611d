//! The rules, asked of one entry in the order in which a breach names them: first what the bucket's contents and the
//! entry itself tell, then what goes by a gateway's syncs and views. What later entries are judged by is noted here.

ghost use Rattle.std.specs.Prelude.{◌≡◌, ◌↔◌, ◌+◌, ◌≤◌, ◌<◌, ℕ, List, Some, None, IfOk, IsTrue, OnOk, slice_get};
ghost use Rattle.std.specs.BTreeMap.{get};
ghost use Rattle.std.specs.Ordering.{is_eq, nat_cmp};
ghost use Rattle.ulid_core.specs.Limits.{ulid_time_limit};
ghost use Rattle.bucket_core.specs.Contents.{Contents};
ghost use Rattle.world_core.specs.Operations.{IsLawful, IsReplyTo};
ghost use Rattle.world_core.specs.Standing.{left_by, stands};
ghost use Rattle.world_core.specs.declared.entry.Entry.{Entry};
ghost use Rattle.breach_finding.specs.Standings.{IsStanding};
ghost use Rattle.lifecycle_core.specs.Breaches.{ReadsSamples, Refuses};
ghost use Rattle.lifecycle_core.specs.Setting.{Setting, setting_of};
ghost use Rattle.lifecycle_core.specs.Tasks.{partition_of, sync_rules};
ghost use Rattle.moment_core.specs.Limits.{longest_span};
ghost use Rattle.breach_finding.specs.Judging.{IsJudged, IsLateTold, IsWatchTurn, first_of, given_by, refusal_of, under_or};
ghost use Rattle.breach_finding.specs.Tables.{gateway_or};
ghost use Rattle.breach_finding.specs.Views.{IsViewAnswer};
ghost use Rattle.breach_finding.specs.Watching.{IsWaiting};

use crate::Standing;
use crate::followed::Followed;
use crate::found::{BreachRule, Refusal};
use crate::lies::lie;
use crate::puts::{has_landed, mark_breach, upload_breach};
use crate::times::{lateness, reads_samples, sync_lateness};
use crate::watching::{Came, Told, UnderWay, take_turn};
use base::NoMemory;
use meta_fetcher::SyncRules;
use moment_core::{Partition, Rules};
use script_core::Script;
use std::alloc::Global;
use std::collections::BTreeMap;
use world_core::{Entry, Op};

/// The refusal of a rule, if it refuses.
pub(crate) fn refusal_by(rule: BreachRule, told: Option<(u64, u64)>) -> Option<Refusal>
    ensures { result ≡ refusal_of rule told }
{
    match told {
        Some((found, allowed)) => Some(Refusal {
            rule,
            found,
            allowed,
        }),
        None => None,
    }
}

/// Asks of an entry what does not depend on syncs and views.
pub(crate) fn early_refusal(
    alloc: Global,
    script: &Script,
    journal: &[Entry],
    standing: &Standing,
    entry: &Entry,
) -> Result<Option<Refusal>, NoMemory>
    requires { IsLawful entry.now.op }
    ensures { IfOk result (λ told. (setting : Setting) (all before : List Entry)
        → setting.script.rules ≡ script.now.rules
        → IsStanding journal.now standing.now (stands before)
        → IsJudged (λ rule. Refuses setting all rule before entry.now) 3 told) }
{
    let lied = refusal_by(BreachRule::Bucket, lie(alloc, standing, journal, entry)?);
    if lied.is_some() {
        return Ok(lied);
    }
    let untimely = refusal_by(BreachRule::UploadTime, upload_breach(entry, &script.rules));
    if untimely.is_some() {
        return Ok(untimely);
    }
    let late = mark_breach(alloc, entry, &script.rules)?;
    Ok(refusal_by(BreachRule::MarkTime, late))
}

/// By what the gateway at a place syncs.
fn rules_of(script: &Script, gateway: u32) -> SyncRules
    ensures { result ≡ sync_rules (setting_of script.now) gateway }
{
    let rules = &script.rules;
    SyncRules {
        consistency: rules.consistency,
        mark_delay: rules.ignore,
        page_limit: rules.page_limit,
        partition: times_of(script, gateway),
    }
}

/// The times for which the gateway at a place answers.
fn times_of(script: &Script, gateway: u32) -> Partition
    ensures { result ≡ partition_of (setting_of script.now) gateway }
{
    match script.partitions.get(gateway as usize) {
        Some(partition) => *partition,
        None => Partition::all_times(),
    }
}

/// What an entry of a gateway's seat is to a sync.
fn watch(
    alloc: Global,
    rules: SyncRules,
    unders: &mut BTreeMap<u32, UnderWay>,
    entry: &Entry,
) -> Result<Option<Told>, NoMemory>
    requires lawful { IsLawful entry.now.op }
    requires kind { IsReplyTo entry.now.op entry.now.reply }
    requires small { entry.now.moment.ms < ulid_time_limit }
    requires waits { (seat : ℕ) → IsWaiting (get nat_cmp unders.old seat) }
    ensures { IfOk result (IsWatchTurn rules unders.old unders.new entry.now) }
{
    let under = unders.remove(&entry.seat);
    let turn = take_turn(alloc, rules, under, entry)?;
    let told = turn.told;
    keep_under(unders, entry.seat, turn.under)?;
    Ok(told)
}

/// A seat has the sync under way that an entry left, if it left one.
fn keep_under(
    unders: &mut BTreeMap<u32, UnderWay>,
    seat: u32,
    under: Option<UnderWay>,
) -> Result<(), NoMemory>
    ensures { OnOk result ((other : ℕ) → get nat_cmp unders.new other
        ≡ under_or under (is_eq (nat_cmp seat other)) (get nat_cmp unders.old other)) }
{
    match under {
        Some(next) => {
            unders.insert(seat, next)?;
            Ok(())
        }
        None => Ok(()),
    }
}

/// When the sync began that gave a view with an entry.
fn begin_of_view(told: Option<Told>) -> Option<u64>
    ensures { result ≡ given_by told }
{
    let told = told?;
    match told.came {
        Came::View => Some(told.begin),
        Came::GoesOn => None,
        Came::Nothing => None,
    }
}

/// A gateway has the view that an entry gave.
fn keep_view(
    views: &mut BTreeMap<u32, u64>,
    gateway: u32,
    told: Option<Told>,
) -> Result<(), NoMemory>
    ensures { OnOk result ((other : ℕ) → get nat_cmp views.new other
        ≡ gateway_or (given_by told) (is_eq (nat_cmp gateway other))
        (get nat_cmp views.old other)) }
{
    if let Some(begin) = begin_of_view(told) {
        views.insert(gateway, begin)?;
    }
    Ok(())
}

/// Whether an entry is the last of its seat.
fn is_last(lasts: &BTreeMap<u32, u64>, entry: &Entry) -> bool
    ensures { IsTrue result ↔ (get nat_cmp lasts.now entry.now.seat ≡ Some entry.now.seq) }
{
    match lasts.get(&entry.seat) {
        Some(number) => *number == entry.seq,
        None => false,
    }
}

/// How a read comes too late for the gateway's view, if the entry is a read and does.
fn staleness(
    views: &BTreeMap<u32, u64>,
    gateway: u32,
    entry: &Entry,
    rules: &Rules,
) -> Option<(u64, u64)>
    requires small { entry.now.moment.ms < ulid_time_limit }
    requires span { rules.now.ignore.ms ≤ longest_span }
    ensures read { ReadsSamples entry.now → IsViewAnswer (get nat_cmp views.now gateway)
        (entry.now.moment.ms + rules.now.ignore.ms) rules.now.delete.ms result }
    ensures none { (ReadsSamples entry.now → ⊥) → result ≡ None }
{
    if !reads_samples(&entry.op) {
        return None;
    }
    let begin = views.get(&gateway).copied();
    lateness(begin, entry.moment.ms + rules.ignore.ms, rules.delete.ms)
}

/// The first of two refusals.
pub(crate) fn first_of(own: Option<Refusal>, other: Option<Refusal>) -> Option<Refusal>
    ensures { result ≡ first_of own other }
{
    match own {
        Some(refusal) => Some(refusal),
        None => other,
    }
}

/// Asks of an entry of a gateway's seat what depends on syncs and views, and takes note of it.
pub(crate) fn late_refusal(
    alloc: Global,
    script: &Script,
    lasts: &BTreeMap<u32, u64>,
    followed: &mut Followed,
    gateway: u32,
    entry: &Entry,
) -> Result<Option<Refusal>, NoMemory>
    requires span { script.now.rules.ignore.ms ≤ longest_span }
    requires lawful { IsLawful entry.now.op }
    requires kind { IsReplyTo entry.now.op entry.now.reply }
    requires small { entry.now.moment.ms < ulid_time_limit }
    requires waits { (seat : ℕ) → IsWaiting (get nat_cmp followed.old.unders seat) }
    ensures { IfOk result (IsLateTold script.now lasts.now followed.old followed.new
        gateway entry.now) }
{
    let stale = staleness(&followed.views, gateway, entry, &script.rules);
    let told = watch(
        alloc,
        rules_of(script, gateway),
        &mut followed.unders,
        entry,
    )?;
    keep_view(&mut followed.views, gateway, told)?;
    let last = is_last(lasts, entry);
    let slow = sync_lateness(told, last, entry.moment.ms, script.rules.ignore.ms);
    Ok(first_of(
        refusal_by(BreachRule::SyncTime, slow),
        refusal_by(BreachRule::ViewTime, stale),
    ))
}

/// What stands after an entry, which is the one at the place.
pub(crate) fn stand(standing: &mut Standing, entry: &Entry, place: usize) -> Result<(), NoMemory>
    requires { IsLawful entry.now.op }
    ensures { OnOk result ((entries : List Entry) (contents : Contents)
        → slice_get entries place ≡ Some entry.now → IsStanding entries standing.old contents
        → IsStanding entries standing.new (left_by entry.now.op entry.now.reply contents)) }
{
    if !has_landed(&entry.reply) {
        return Ok(());
    }
    match &entry.op {
        Op::Put(key, _) => standing.put(*key, place),
        Op::Delete(key) => {
            standing.delete(*key);
            Ok(())
        }
        _ => Ok(()),
    }
}
