//! The outside of the program: `memory` is a bucket that begins empty, and each other word names a folder.

ghost use Rattle.std.specs.Prelude.{◌≡◌, [], None, Some, IfOk, IfSome};
ghost use Rattle.dir_bucket.specs.Folders.{names_noted, shelf_faults, shelf_folder};
ghost use Rattle.dir_bucket.specs.HostBucket.{calls_noted, contents_told, faults_counted as bucket_faults, folder_of, IsQuiet};
ghost use Rattle.dir_bucket.specs.Places.{contents_under, folder_under};

use crate::{DirBucket, DirShelf, HostBucket, Trouble};
use bucket_core::{CallNotes, FailList, MemoryBucket, Site, SiteRefusal};
use std::fs::File;
use std::rt::Files;

/// The name of a bucket in memory. All other names are those of folders.
const MEMORY: &str = "memory";

/// The site of the program: its buckets are empty ones in memory, or in folders, and its shelves in folders.
#[derive(Drop)]
pub struct HostSite<R: Files + AllocGlobal + Clone + Drop> {
    rt: R,
    buckets: u64,
    shelves: u64,
    faults: u64,
    bucket_trouble: Option<Trouble>,
    shelf_trouble: Option<Trouble>,
}

impl<R: Files + AllocGlobal + Clone + Drop> HostSite<R> {
    ghost use Rattle.std.specs.Prelude.{◌≡◌, None};
    ghost use Rattle.dir_bucket.specs.HostSite.{buckets_handed_out, shelves_handed_out, faults_counted, bucket_trouble, shelf_trouble};

    /// A site that has handed out nothing.
    pub fn new(rt: R) -> Self
        ensures buckets { buckets_handed_out result ≡ 0 }
        ensures shelves { shelves_handed_out result ≡ 0 }
        ensures faults { faults_counted result ≡ 0 }
        ensures calm { (bucket_trouble result ≡ None) × (shelf_trouble result ≡ None) }
    {
        HostSite {
            rt,
            buckets: 0,
            shelves: 0,
            faults: 0,
            bucket_trouble: None,
            shelf_trouble: None,
        }
    }

    /// Why the first bucket was not opened that was not.
    pub fn bucket_trouble(&self) -> Option<Trouble>
        ensures { result ≡ bucket_trouble self.now }
    {
        self.bucket_trouble
    }

    /// Why the first shelf was not opened that was not.
    pub fn shelf_trouble(&self) -> Option<Trouble>
        ensures { result ≡ shelf_trouble self.now }
    {
        self.shelf_trouble
    }
}

/// Opens a bucket in memory or in a folder.
fn open_bucket<R: Files<File = File> + AllocGlobal + Clone + Drop>(
    rt: &R,
    name: &str,
) -> Result<HostBucket<R>, Trouble>
    ensures fresh { IfOk result (λ bucket. bucket_faults bucket ≡ 0) }
    ensures unasked { IfOk result (λ bucket. calls_noted bucket ≡ []) }
    ensures told { IfOk result (λ bucket.
        IfSome (contents_under name.now) (λ c. contents_told bucket ≡ Some c)) }
    ensures placed { IfOk result (λ bucket. folder_of bucket ≡ folder_under name.now) }
    ensures quiet { IfOk result (λ bucket. folder_of bucket ≡ None → IsQuiet bucket) }
{
    if name == MEMORY {
        let failing = FailList::new(rt.alloc());
        return Ok(HostBucket::Memory(MemoryBucket::new(rt.alloc(), failing), CallNotes::new()));
    }
    let Ok(rt) = rt.clone() else {
        return Err(Trouble::NoMemory);
    };
    Ok(HostBucket::Folder(DirBucket::open(rt, name)?, CallNotes::new()))
}

/// Opens a shelf in a folder.
fn open_shelf<R: Files + AllocGlobal + Clone + Drop>(
    rt: &R,
    name: &str,
) -> Result<DirShelf<R>, Trouble>
    ensures fresh { IfOk result (λ shelf. shelf_faults shelf ≡ 0) }
    ensures unasked { IfOk result (λ shelf. names_noted shelf ≡ []) }
    ensures placed { IfOk result (λ shelf. shelf_folder shelf ≡ name.now) }
{
    match rt.clone() {
        Ok(rt) => DirShelf::open(rt, name),
        Err(_) => Err(Trouble::NoMemory),
    }
}

impl<R: Files<File = File> + AllocGlobal + Clone + Drop> Site for HostSite<R> {
    type Store = HostBucket<R>;

    type Files = DirShelf<R>;

    ghost use Rattle.std.specs.Prelude.{◌≡◌, ◌+◌, [], None, Some, IfOk, IfSome, is_ok, if◌then◌else◌};
    ghost use Rattle.bucket_core.specs.Causes.{CountsFaults, opening_failed};
    ghost use Rattle.dir_bucket.specs.Folders.{names_noted, shelf_faults, shelf_folder};
    ghost use Rattle.dir_bucket.specs.HostBucket.{calls_noted, contents_told, folder_of, IsQuiet, faults_counted as bucket_faults};
    ghost use Rattle.dir_bucket.specs.Places.{contents_under, folder_under};
    ghost use Rattle.dir_bucket.specs.HostSite.{buckets_handed_out, shelves_handed_out, faults_counted, site_told, bucket_trouble, shelf_trouble};
    ghost use Rattle.dir_bucket.specs.Troubles.{KeepsTrouble};

    ghost told = { site_told };

    fn open_bucket(&mut self, name: &str) -> Result<HostBucket<R>, SiteRefusal>
        ensures fresh { IfOk result (λ bucket. bucket_faults bucket ≡ 0) }
        ensures unasked { IfOk result (λ bucket. calls_noted bucket ≡ []) }
        ensures told { IfOk result (λ bucket.
            IfSome (contents_under name.now) (λ c. contents_told bucket ≡ Some c)) }
        ensures placed { IfOk result (λ bucket. folder_of bucket ≡ folder_under name.now) }
        ensures quiet { IfOk result (λ bucket. folder_of bucket ≡ None → IsQuiet bucket) }
        ensures counted { buckets_handed_out self.new
            ≡ (if is_ok result then buckets_handed_out self.old + 1
            else buckets_handed_out self.old) }
        ensures shelves { shelves_handed_out self.new ≡ shelves_handed_out self.old }
        ensures faults { CountsFaults (faults_counted self.old) (faults_counted self.new)
            (opening_failed result) }
        ensures trouble { KeepsTrouble (bucket_trouble self.old) (bucket_trouble self.new)
            (opening_failed result) }
        ensures others { shelf_trouble self.new ≡ shelf_trouble self.old }
    {
        if self.buckets == u64::MAX {
            self.faults = self.faults.saturating_add(1);
            self.bucket_trouble = self.bucket_trouble.or(Some(Trouble::Other));
            return Err(SiteRefusal::Failed);
        }
        match open_bucket(&self.rt, name) {
            Ok(bucket) => {
                self.buckets += 1;
                Ok(bucket)
            }
            Err(Trouble::NoMemory) => Err(SiteRefusal::NoMemory),
            Err(trouble) => {
                self.faults = self.faults.saturating_add(1);
                self.bucket_trouble = self.bucket_trouble.or(Some(trouble));
                Err(SiteRefusal::Failed)
            }
        }
    }

    fn open_shelf(&mut self, name: &str) -> Result<DirShelf<R>, SiteRefusal>
        ensures fresh { IfOk result (λ shelf. shelf_faults shelf ≡ 0) }
        ensures unasked { IfOk result (λ shelf. names_noted shelf ≡ []) }
        ensures placed { IfOk result (λ shelf. shelf_folder shelf ≡ name.now) }
        ensures counted { shelves_handed_out self.new
            ≡ (if is_ok result then shelves_handed_out self.old + 1
            else shelves_handed_out self.old) }
        ensures buckets { buckets_handed_out self.new ≡ buckets_handed_out self.old }
        ensures faults { CountsFaults (faults_counted self.old) (faults_counted self.new)
            (opening_failed result) }
        ensures trouble { KeepsTrouble (shelf_trouble self.old) (shelf_trouble self.new)
            (opening_failed result) }
        ensures others { bucket_trouble self.new ≡ bucket_trouble self.old }
    {
        if self.shelves == u64::MAX {
            self.faults = self.faults.saturating_add(1);
            self.shelf_trouble = self.shelf_trouble.or(Some(Trouble::Other));
            return Err(SiteRefusal::Failed);
        }
        match open_shelf(&self.rt, name) {
            Ok(shelf) => {
                self.shelves += 1;
                Ok(shelf)
            }
            Err(Trouble::NoMemory) => Err(SiteRefusal::NoMemory),
            Err(trouble) => {
                self.faults = self.faults.saturating_add(1);
                self.shelf_trouble = self.shelf_trouble.or(Some(trouble));
                Err(SiteRefusal::Failed)
            }
        }
    }
}
