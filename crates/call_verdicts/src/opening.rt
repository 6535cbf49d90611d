//! A run is made ready: its script is read, its bucket and its shelf are opened, and a world over the bucket.

ghost use Rattle.std.specs.Prelude.{◌≡◌, ◌≢◌, ◌<◌, ◌≤◌, ℕ, List, Some, None, IfOk, IfErr, IfSome, IsSome, IsSomeAnd, MatchResult};
ghost use Rattle.bucket_core.specs.Causes.{Rose};
ghost use Rattle.script_core.specs.Lawful.{IsLawfulScript};
ghost use Rattle.script_core.specs.declared.script.Script.{Script};
ghost use Rattle.call_verdicts.specs.Kept.{AsksNoBucket, HoldsNothing};
ghost use Rattle.call_verdicts.specs.Openings.{HasEnded, HasNotOpened, IsNewWorld, IsOpen, IsReady, IsShelfOpen, IsUnopened, IsUnused};
ghost use Rattle.call_verdicts.specs.Outside.{outside, site_call};
ghost use Rattle.call_verdicts.specs.Verdicts.{IfShort, IsEarly, IsScriptRead, IsUnread};
ghost use Rattle.call_verdicts.specs.Words.{named_by};

use crate::ended::Ended;
use crate::input::read_all;
use crate::{InputRefusal, Verdict};
use bucket_core::{Bucket, Site, SiteRefusal, Source};
use script_core::{Script, ScriptRefusal};
use std::alloc::Global;
use world_core::{Journal, OpenRefusal, World};

/// What a run begins with: the script, a world in which nothing was done yet, and the shelf, where a word names one.
#[derive(Drop)]
pub struct Ready<B: Bucket, F> {
    pub script: Script,
    pub world: World<B>,
    pub shelf: Option<F>,
}

/// Reads the script, and opens the bucket and the shelf; or ends the call.
pub fn read_and_open<S: Site, R: Source>(
    alloc: Global,
    bucket: &str,
    shelf: &str,
    site: &mut S,
    script: &mut R,
) -> Result<Ready<S::Store, S::Files>, Ended<S::Store, S::Files>>
    ensures ready { IfOk result (IsReady (outside (R.told script.old) (R.told script.new)
        (site_call (S.told site.old) (S.told site.new) S.Store.told S.Files.told))
        bucket.now (named_by shelf.now)) }
    ensures ended { IfErr result (HasEnded (outside (R.told script.old) (R.told script.new)
        (site_call (S.told site.old) (S.told site.new) S.Store.told S.Files.told))
        bucket.now (named_by shelf.now)) }
{
    match read_script(alloc, script) {
        Ok(script) => match open_site(alloc, &script, bucket, shelf, site) {
            Ok((world, shelf)) => {
                Ok(Ready {
                    script,
                    world,
                    shelf,
                })
            }
            Err(ended) => {
                drop(script);
                Err(ended)
            }
        },
        Err(verdict) => Err(Ended::without_bucket(verdict, None)),
    }
}

/// Reads the source to its end, and the script that its bytes spell.
#[tactic(auto, using(crate::proofs::Verdicts::refused_too_long, crate::proofs::Verdicts::refused_whole, crate::proofs::Verdicts::read_whole))]
fn read_script<R: Source>(alloc: Global, source: &mut R) -> Result<Script, Verdict>
    ensures read { IfOk result
        (IsScriptRead (R.told source.old).left (R.told source.new).left) }
    ensures lawful { IfOk result IsLawfulScript }
    ensures refused { IfErr result
        (IsUnread (R.told source.old).left (R.told source.new).left
        (Rose (R.told source.old).faults (R.told source.new).faults)) }
    ensures only { MatchResult result
        (λ _. (R.told source.new).faults ≡ (R.told source.old).faults)
        (λ verdict. IfShort verdict ((R.told source.new).faults ≡ (R.told source.old).faults)) }
{
    let text = match read_all(alloc, source) {
        Ok(text) => text,
        Err(InputRefusal::Fault) => return Err(Verdict::SourceFault),
        Err(InputRefusal::TooLong) => return Err(Verdict::ScriptRefused(ScriptRefusal::TooLong)),
        Err(InputRefusal::NoMemory) => return Err(Verdict::NoMemory),
    };
    match Script::read(alloc, &text) {
        Ok(script) => Ok(script),
        Err(ScriptRefusal::NoMemory) => Err(Verdict::NoMemory),
        Err(refusal) => Err(Verdict::ScriptRefused(refusal)),
    }
}

/// Opens the bucket and the shelf, and a world over the bucket; or ends the call.
fn open_site<S: Site>(
    alloc: Global,
    script: &Script,
    bucket: &str,
    shelf: &str,
    site: &mut S,
) -> Result<(World<S::Store>, Option<S::Files>), Ended<S::Store, S::Files>>
    requires lawful { IsLawfulScript script.now }
    ensures opened { IfOk result (λ ready.
        IsOpen (site_call (S.told site.old) (S.told site.new) S.Store.told S.Files.told)
        bucket.now (named_by shelf.now) script.now ready.0 ready.1) }
    ensures ended { IfErr result
        (HasNotOpened (site_call (S.told site.old) (S.told site.new) S.Store.told S.Files.told)
        bucket.now (named_by shelf.now) script.now) }
{
    let store = match site.open_bucket(bucket) {
        Ok(store) => store,
        Err(refusal) => return Err(Ended::without_bucket(refusal_verdict(refusal), None)),
    };
    match open_shelf(site, shelf) {
        Ok(shelf) => open_world(alloc, script, store, shelf),
        Err(refusal) => Err(without_shelf(alloc, refusal, store)),
    }
}

/// Opens a world over the bucket; or ends the call. The shelf of its word comes with either.
fn open_world<B: Bucket, F>(
    alloc: Global,
    script: &Script,
    bucket: B,
    shelf: Option<F>,
) -> Result<(World<B>, Option<F>), Ended<B, F>>
    requires lawful { IsLawfulScript script.now }
    requires unused { IsUnused (B.told bucket) }
    ensures opened { IfOk result (λ ready. IsNewWorld B.told script.now ready.0) }
    ensures empty { IfOk result (λ _. IfSome (B.told bucket).contents HoldsNothing) }
    ensures ended { IfErr result (λ ended. IsUnopened B.told script.now (B.told bucket).contents
        (IsSomeAnd ended.store (λ store. 0 < (B.told store).faults)) ended) }
    ensures store { IfErr result (λ ended. IsSome ended.store) }
    ensures shelf { MatchResult result (λ ready. ready.1 ≡ shelf)
        (λ ended. (ended.shelf ≡ shelf) × (ended.note ≡ None)) }
{
    match World::open(alloc, bucket, script.rules.tick) {
        Ok(world) => Ok((world, shelf)),
        Err((refusal, store)) => {
            let journal = Journal::empty(alloc);
            Err(Ended::with_bucket(unopened_verdict(refusal), journal, store, shelf))
        }
    }
}

/// What a call comes to whose bucket is not opened.
fn unopened_verdict(refusal: OpenRefusal) -> Verdict
    ensures failed { refusal ≡ OpenRefusal.Failed → result ≡ Verdict.SiteFault }
    ensures not_empty { (name : List ℕ) → refusal ≡ OpenRefusal.NotEmpty name
        → result ≡ Verdict.NotEmpty name }
    ensures none { refusal ≡ OpenRefusal.NoMemory → result ≡ Verdict.NoMemory }
    ensures early { IsEarly result }
{
    match refusal {
        OpenRefusal::Failed => Verdict::SiteFault,
        OpenRefusal::NotEmpty(name) => Verdict::NotEmpty(name),
        OpenRefusal::NoMemory => Verdict::NoMemory,
    }
}

/// The shelf of a word, which names none where it is `none`.
#[tactic(auto, using(crate::proofs::Openings::shelf_opened, crate::proofs::Openings::refusal_failed, crate::proofs::Openings::refusal_calm))]
pub fn open_shelf<S: Site>(site: &mut S, word: &str) -> Result<Option<S::Files>, SiteRefusal>
    ensures opened { IfOk result (IsShelfOpen S.Files.told (named_by word.now)
        (S.told site.old) (S.told site.new)) }
    ensures refused { IfErr result (λ _. (S.told site.new).shelves ≡ (S.told site.old).shelves) }
    ensures asked { IfErr result (λ _. IsSome (named_by word.now)) }
    ensures bucket { AsksNoBucket (S.told site.old) (S.told site.new) }
    ensures later { (S.told site.old).faults ≤ (S.told site.new).faults }
    ensures cause { IfErr result (λ refusal. refusal ≡ SiteRefusal.Failed
        → Rose (S.told site.old).faults (S.told site.new).faults) }
    ensures only { MatchResult result (λ _. (S.told site.new).faults ≡ (S.told site.old).faults)
        (λ refusal. refusal ≢ SiteRefusal.Failed
        → (S.told site.new).faults ≡ (S.told site.old).faults) }
{
    if word == "none" {
        return Ok(None);
    }
    match site.open_shelf(word) {
        Ok(shelf) => Ok(Some(shelf)),
        Err(refusal) => Err(refusal),
    }
}

/// What a call comes to for which the site refuses to open something.
pub fn refusal_verdict(refusal: SiteRefusal) -> Verdict
    ensures failed { refusal ≡ SiteRefusal.Failed → result ≡ Verdict.SiteFault }
    ensures none { refusal ≡ SiteRefusal.NoMemory → result ≡ Verdict.NoMemory }
    ensures early { IsEarly result }
{
    match refusal {
        SiteRefusal::Failed => Verdict::SiteFault,
        SiteRefusal::NoMemory => Verdict::NoMemory,
    }
}

/// What a call comes to whose shelf is not opened. Nothing is done to the bucket.
fn without_shelf<B: Bucket, F>(alloc: Global, refusal: SiteRefusal, bucket: B) -> Ended<B, F>
    requires { IsUnused (B.told bucket) }
    ensures failed { refusal ≡ SiteRefusal.Failed → result.verdict ≡ Verdict.SiteFault }
    ensures none { refusal ≡ SiteRefusal.NoMemory → result.verdict ≡ Verdict.NoMemory }
    ensures ended { (script : Script) → IsUnopened B.told script (B.told bucket).contents
        (refusal ≡ SiteRefusal.Failed) result }
    ensures store { result.store ≡ Some bucket }
    ensures shelf { result.shelf ≡ None }
    ensures note { result.note ≡ None }
{
    Ended::with_bucket(
        refusal_verdict(refusal),
        Journal::empty(alloc),
        bucket,
        None,
    )
}
