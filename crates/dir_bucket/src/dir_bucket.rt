//! A bucket that outlives its process, in a folder of the system. Nothing can be proved of what files hold, so its
//! contract tells of failures alone, each of which is counted.

ghost use Rattle.std.specs.Prelude.{◌≡◌, ℕ, ◌≤◌, ◌^◌, Err, IfOk, IsTrue, None, false, true, vec_len};
ghost use Rattle.std.specs.String.{string_bytes};
ghost use Rattle.bucket_core.specs.Causes.{CountsFaults, Rose, get_failed};
ghost use Rattle.dir_bucket.specs.Folders.{bucket_faults, bucket_folder, bucket_trouble};
ghost use Rattle.dir_bucket.specs.Listings.{IsListing, ShowsAtMost};
ghost use Rattle.dir_bucket.specs.Troubles.{KeepsTrouble};

use crate::files::{
    is_absent, path_of, put_file, read_range, remove_file, sync_names, sync_removal,
};
use crate::folder_lock::FolderLock;
use crate::listing::{page_of_files, page_of_names};
use crate::names::is_plain;
use crate::trouble::Trouble;
use base::{List, NoMemory};
use bucket_core::{Bucket, DeleteAnswer, GetAnswer, PageAnswer, PutAnswer};
use label_sets::TextList;
use std::fs::File;
use std::io::ErrorKind;
use std::rt::Files;
use std::{fs, io};
use wire_bytes::Blob;

/// A bucket in a folder: an object is the file whose path below the folder is its key. It tells nothing of what it holds.
///
/// A put writes a file of another name, `.put` in the folder, has it on the disk and then renames it, so that a process that
/// is ended leaves the object whole or as it was; what was answered `Stored` stands after it. Keys with a part that is empty
/// or begins with a dot have no file: a put of one fails, and no object is ever found under one. One bucket at a time uses a
/// folder, until it is let go or its process ends. Reads follow links, and pages pass over them. A deletion takes the folders
/// away that it leaves empty; one for which memory is wanted has failed.
#[derive(Drop)]
pub struct DirBucket<R: Files + AllocGlobal + Clone + Drop> {
    rt: R,
    folder: String,
    faults: u64,
    trouble: Option<Trouble>,
    lock: FolderLock,
}

impl<R: Files<File = File> + AllocGlobal + Clone + Drop> DirBucket<R> {
    /// The bucket of a folder, which is made where it is absent. There is trouble where it can't be made or listed, and where
    /// another bucket uses it.
    pub fn open(rt: R, folder: &str) -> Result<DirBucket<R>, Trouble>
        ensures fresh { IfOk result (λ bucket. bucket_faults bucket ≡ 0) }
        ensures calm { IfOk result (λ bucket. bucket_trouble bucket ≡ None) }
        ensures folder { IfOk result (λ bucket. bucket_folder bucket ≡ folder.now) }
    {
        match open_folder(&rt, folder) {
            Ok((folder, lock)) => Ok(DirBucket {
                rt,
                folder,
                faults: 0,
                trouble: None,
                lock,
            }),
            Err(error) => Err(Trouble::of(&error)),
        }
    }
}

impl<R: Files + AllocGlobal + Clone + Drop> DirBucket<R> {
    /// Why the first of its calls failed that did.
    pub fn trouble(&self) -> Option<Trouble>
        ensures { result ≡ bucket_trouble self.now }
    {
        self.trouble
    }

    /// Counts a failure.
    fn fail(&mut self, trouble: Trouble)
        ensures rose { Rose (bucket_faults self.old) (bucket_faults self.new) }
        ensures later { bucket_faults self.old ≤ bucket_faults self.new }
        ensures trouble { KeepsTrouble (bucket_trouble self.old) (bucket_trouble self.new) true }
        ensures folder { bucket_folder self.new ≡ bucket_folder self.old }
    {
        self.faults = self.faults.saturating_add(1);
        self.trouble = self.trouble.or(Some(trouble));
    }

    /// What a read is answered, where a failure is counted.
    fn answer(&mut self, read: io::Result<Vec<u8>>) -> GetAnswer
        ensures short { (most : ℕ) → IfOk read (λ bytes. vec_len bytes ≤ most)
            → ShowsAtMost most result }
        ensures folder { bucket_folder self.new ≡ bucket_folder self.old }
        ensures faults { CountsFaults (bucket_faults self.old) (bucket_faults self.new)
            (get_failed result) }
        ensures trouble { KeepsTrouble (bucket_trouble self.old) (bucket_trouble self.new)
            (get_failed result) }
    {
        match read {
            Ok(bytes) => match Blob::from_vec(bytes).shared() {
                Ok(bytes) => GetAnswer::Found(bytes),
                Err(NoMemory) => GetAnswer::NoMemory,
            },
            Err(error) if is_absent(&error) => GetAnswer::Absent,
            Err(error) if error.kind() == ErrorKind::OutOfMemory => GetAnswer::NoMemory,
            Err(error) => {
                self.fail(Trouble::of(&error));
                GetAnswer::Failed
            }
        }
    }

    fn try_page(&self, within: &str, after: &str, limit: u32) -> io::Result<TextList>
        ensures { IfOk result (IsListing after.now limit) }
    {
        if within.is_empty() {
            return page_of_names(&self.rt, self.folder.as_str(), after, limit);
        }
        let folder = path_of(&self.rt, self.folder.as_str(), within)?;
        page_of_files(&self.rt, folder.as_str(), after, limit)
    }
}

/// Makes the folder, sees that its names can be listed, and takes the lock on it.
fn open_folder<R: Files<File = File> + AllocGlobal + Clone + Drop>(
    rt: &R,
    folder: &str,
) -> io::Result<(String, FolderLock)>
    ensures { IfOk result (λ opened. string_bytes opened.0 ≡ folder.now) }
{
    if folder.is_empty() {
        return Err(io::Error::from(ErrorKind::InvalidFilename));
    }
    fs::create_dir_all(rt, folder)?;
    fs::read_dir(rt, folder)?;
    let name = String::from_str(rt.alloc(), folder)?;
    Ok((name, FolderLock::take(rt, folder)?))
}

impl<R: Files + AllocGlobal + Clone + Drop> Bucket for DirBucket<R> {
    ghost use Rattle.std.specs.Prelude.{◌≡◌, ◌≢◌, ◌≤◌, [], None, IfSome, option_map, false};
    ghost use Rattle.bucket_core.specs.Causes.{KeepsFaults, put_failed, get_failed, delete_failed, page_failed};
    ghost use Rattle.bucket_core.specs.Contents.{IsKey};
    ghost use Rattle.dir_bucket.specs.Folders.{bucket_folder, bucket_told, bucket_trouble};
    ghost use Rattle.dir_bucket.specs.Listings.{ShowsAtMost, ShowsListing};
    ghost use Rattle.dir_bucket.specs.Names.{is_plain as is_plain_name};
    ghost use Rattle.dir_bucket.specs.Troubles.{KeepsTrouble};

    ghost told = { bucket_told };

    ghost only_keys = { λ bucket c key told some. cc };

    fn put(&mut self, key: &str, bytes: &Blob) -> PutAnswer
        requires { IsKey key.now }
        ensures kept { KeepsFaults (bucket_told self.old) (bucket_told self.new)
            (put_failed result) }
        ensures trouble { KeepsTrouble (bucket_trouble self.old) (bucket_trouble self.new)
            (put_failed result) }
        ensures folder { bucket_folder self.new ≡ bucket_folder self.old }
        ensures strange { is_plain_name key.now ≡ false → result ≡ PutAnswer.Failed false }
    {
        if !is_plain(key) {
            self.fail(Trouble::NoFolder);
            return PutAnswer::Failed(false);
        }
        match put_file(&self.rt, self.folder.as_str(), key, bytes.bytes()) {
            Ok(()) => {
                if let Err(error) = sync_names(&self.rt, self.folder.as_str(), key) {
                    self.fail(Trouble::of(&error));
                    return PutAnswer::Failed(true);
                }
                PutAnswer::Stored
            }
            Err(error) if error.kind() == ErrorKind::OutOfMemory => PutAnswer::NoMemory,
            Err(error) => {
                self.fail(Trouble::of(&error));
                PutAnswer::Failed(false)
            }
        }
    }

    fn get(&mut self, key: &str) -> GetAnswer
        ensures kept { KeepsFaults (bucket_told self.old) (bucket_told self.new)
            (get_failed result) }
        ensures trouble { KeepsTrouble (bucket_trouble self.old) (bucket_trouble self.new)
            (get_failed result) }
        ensures folder { bucket_folder self.new ≡ bucket_folder self.old }
        ensures strange { is_plain_name key.now ≡ false → result ≡ GetAnswer.Absent }
    {
        if !is_plain(key) {
            return GetAnswer::Absent;
        }
        let read = read_range(&self.rt, self.folder.as_str(), key, 0, u64::MAX);
        self.answer(read)
    }

    fn get_range(&mut self, key: &str, from: u64, len: u64) -> GetAnswer
        ensures kept { KeepsFaults (bucket_told self.old) (bucket_told self.new)
            (get_failed result) }
        ensures trouble { KeepsTrouble (bucket_trouble self.old) (bucket_trouble self.new)
            (get_failed result) }
        ensures folder { bucket_folder self.new ≡ bucket_folder self.old }
        ensures short { ShowsAtMost len result }
        ensures strange { is_plain_name key.now ≡ false → result ≡ GetAnswer.Absent }
    {
        if !is_plain(key) {
            return GetAnswer::Absent;
        }
        let read = read_range(&self.rt, self.folder.as_str(), key, from, len);
        self.answer(read)
    }

    fn delete(&mut self, key: &str) -> DeleteAnswer
        ensures kept { KeepsFaults (bucket_told self.old) (bucket_told self.new)
            (delete_failed result) }
        ensures trouble { KeepsTrouble (bucket_trouble self.old) (bucket_trouble self.new)
            (delete_failed result) }
        ensures folder { bucket_folder self.new ≡ bucket_folder self.old }
        ensures strange { is_plain_name key.now ≡ false → result ≡ DeleteAnswer.Deleted }
    {
        if !is_plain(key) {
            return DeleteAnswer::Deleted;
        }
        match remove_file(&self.rt, self.folder.as_str(), key) {
            Ok(()) => {
                if let Err(error) = sync_removal(&self.rt, self.folder.as_str(), key) {
                    self.fail(Trouble::of(&error));
                    return DeleteAnswer::Failed(true);
                }
                DeleteAnswer::Deleted
            }
            Err(error) if is_absent(&error) => DeleteAnswer::Deleted,
            Err(error) => {
                self.fail(Trouble::of(&error));
                DeleteAnswer::Failed(false)
            }
        }
    }

    fn page(&mut self, within: &str, after: &str, limit: u32) -> PageAnswer
        ensures kept { KeepsFaults (bucket_told self.old) (bucket_told self.new)
            (page_failed result) }
        ensures trouble { KeepsTrouble (bucket_trouble self.old) (bucket_trouble self.new)
            (page_failed result) }
        ensures folder { bucket_folder self.new ≡ bucket_folder self.old }
        ensures listed { ShowsListing after.now limit result }
        ensures strange { within.now ≢ [] → is_plain_name within.now ≡ false
            → result ≡ PageAnswer.Names [] }
    {
        if !within.is_empty() && !is_plain(within) {
            return PageAnswer::Names(List::new(self.rt.alloc()));
        }
        match self.try_page(within, after, limit) {
            Ok(names) => PageAnswer::Names(names),
            Err(error) if error.kind() == ErrorKind::OutOfMemory => PageAnswer::NoMemory,
            Err(error) => {
                self.fail(Trouble::of(&error));
                PageAnswer::Failed
            }
        }
    }
}
