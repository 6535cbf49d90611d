//! A site for tests with one bucket and one shelf, handed out under any name. What it will hand out is told beforehand,
//! so that contracts over it can say what a call found when it opened them.

ghost use Rattle.std.specs.Prelude.{◌≡◌, Some};
ghost use Rattle.std.specs.Option.{ForSome};
ghost use Rattle.bucket_core.specs.MemoryBucket.{faults_counted as bucket_faults};
ghost use Rattle.bucket_core.specs.MemoryShelf.{faults_counted as shelf_faults};

use crate::{MemoryBucket, MemoryShelf, Site, SiteRefusal};
use std::snapshot::Snapshot;

/// A site that hands out one bucket and one shelf, each under whatever name it is asked for first. Each opening after that
/// fails, and where the site is failing each opening does. Of every opening and name it tells the same, also after all is
/// handed out: what its bucket and its shelf hold as they are handed out.
#[derive(Drop)]
pub struct MemorySite {
    bucket: Option<MemoryBucket>,
    shelf: Option<MemoryShelf>,
    only_bucket: Snapshot<MemoryBucket>,
    only_shelf: Snapshot<MemoryShelf>,
    failing: bool,
    faults: u64,
    ghost fresh_bucket: { ForSome bucket (λ b. bucket_faults b ≡ 0) },
    ghost fresh_shelf: { ForSome shelf (λ s. shelf_faults s ≡ 0) },
    ghost own_bucket: { ForSome bucket (λ b. b ≡ only_bucket.value) },
    ghost own_shelf: { ForSome shelf (λ s. s ≡ only_shelf.value) },
}

impl MemorySite {
    ghost use Rattle.bucket_core.specs.MemorySite.{bucket_left, shelf_left, own_bucket, own_shelf, is_failing, buckets_handed_out, shelves_handed_out, faults_counted};

    /// A site with this bucket and this shelf, which have not failed yet.
    pub fn new(bucket: MemoryBucket, shelf: MemoryShelf, failing: bool) -> Self
        requires bucket { bucket_faults bucket ≡ 0 }
        requires shelf { shelf_faults shelf ≡ 0 }
        ensures bucket { bucket_left result ≡ Some bucket }
        ensures shelf { shelf_left result ≡ Some shelf }
        ensures told { own_bucket result ≡ bucket }
        ensures told_shelf { own_shelf result ≡ shelf }
        ensures failing { is_failing result ≡ failing }
        ensures buckets { buckets_handed_out result ≡ 0 }
        ensures shelves { shelves_handed_out result ≡ 0 }
        ensures faults { faults_counted result ≡ 0 }
    {
        let only_bucket = Snapshot::of(&bucket);
        let only_shelf = Snapshot::of(&shelf);
        MemorySite {
            bucket: Some(bucket),
            shelf: Some(shelf),
            only_bucket,
            only_shelf,
            failing,
            faults: 0,
        }
    }
}

impl Site for MemorySite {
    type Store = MemoryBucket;

    type Files = MemoryShelf;

    ghost use Rattle.std.specs.Prelude.{◌≡◌, ◌≢◌, ◌≤◌, ◌+◌, ◌⊎◌, ◌↔◌, Some, None, IfOk, IfSome, IsTrue, is_ok, if◌then◌else◌, option_map};
    ghost use Rattle.bucket_core.specs.Causes.{CountsFaults, opening_failed};
    ghost use Rattle.bucket_core.specs.MemoryBucket.{faults_counted as bucket_faults, objects_held};
    ghost use Rattle.bucket_core.specs.MemoryShelf.{faults_counted as shelf_faults, file_in, files_held};
    ghost use Rattle.bucket_core.specs.MemorySite.{bucket_left, shelf_left, own_bucket, own_shelf, site_told, is_failing, buckets_handed_out, shelves_handed_out, faults_counted};

    ghost told = { site_told };

    fn open_bucket(&mut self, _name: &str) -> Result<MemoryBucket, SiteRefusal>
        ensures fresh { IfOk result (λ store. bucket_faults store ≡ 0) }
        ensures told { IfOk result (λ store. bucket_left self.old ≡ Some store) }
        ensures only { IfOk result (λ store. store ≡ own_bucket self.old) }
        ensures stays { own_bucket self.new ≡ own_bucket self.old }
        ensures stays_shelf { own_shelf self.new ≡ own_shelf self.old }
        ensures counted { buckets_handed_out self.new ≡ (if is_ok result
            then buckets_handed_out self.old + 1 else buckets_handed_out self.old) }
        ensures shelves { shelf_left self.new ≡ shelf_left self.old }
        ensures faults { CountsFaults (faults_counted self.old) (faults_counted self.new)
            (opening_failed result) }
        ensures fails { result ≡ Err SiteRefusal.Failed
            ↔ (IsTrue (is_failing self.old) ⊎ (bucket_left self.old ≡ None)) }
        ensures no_memory { result ≡ Err SiteRefusal.NoMemory → ⊥ }
        ensures same { is_failing self.new ≡ is_failing self.old }
    {
        if self.failing {
            self.faults = self.faults.saturating_add(1);
            return Err(SiteRefusal::Failed);
        }
        match self.bucket.take() {
            Some(bucket) => Ok(bucket),
            None => {
                self.faults = self.faults.saturating_add(1);
                Err(SiteRefusal::Failed)
            }
        }
    }

    fn open_shelf(&mut self, _name: &str) -> Result<MemoryShelf, SiteRefusal>
        ensures fresh { IfOk result (λ shelf. shelf_faults shelf ≡ 0) }
        ensures told { IfOk result (λ shelf. shelf_left self.old ≡ Some shelf) }
        ensures only { IfOk result (λ shelf. shelf ≡ own_shelf self.old) }
        ensures stays { own_shelf self.new ≡ own_shelf self.old }
        ensures stays_bucket { own_bucket self.new ≡ own_bucket self.old }
        ensures counted { shelves_handed_out self.new ≡ (if is_ok result
            then shelves_handed_out self.old + 1 else shelves_handed_out self.old) }
        ensures buckets { bucket_left self.new ≡ bucket_left self.old }
        ensures faults { CountsFaults (faults_counted self.old) (faults_counted self.new)
            (opening_failed result) }
        ensures fails { result ≡ Err SiteRefusal.Failed
            ↔ (IsTrue (is_failing self.old) ⊎ (shelf_left self.old ≡ None)) }
        ensures no_memory { result ≡ Err SiteRefusal.NoMemory → ⊥ }
        ensures same { is_failing self.new ≡ is_failing self.old }
    {
        if self.failing {
            self.faults = self.faults.saturating_add(1);
            return Err(SiteRefusal::Failed);
        }
        match self.shelf.take() {
            Some(shelf) => Ok(shelf),
            None => {
                self.faults = self.faults.saturating_add(1);
                Err(SiteRefusal::Failed)
            }
        }
    }
}
