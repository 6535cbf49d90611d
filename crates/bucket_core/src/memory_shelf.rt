//! A shelf for tests, with files in memory, of which calls can be made to fail by their numbers. The program's own
//! shelves are folders.

ghost use Rattle.std.specs.Prelude.{◌≡◌, ◌+◌, ◌≤◌, List, [], option_map, false};
ghost use Rattle.bucket_core.specs.Calls.{next_call};
ghost use Rattle.bucket_core.specs.Causes.{file_failed};
ghost use Rattle.bucket_core.specs.Files.{IsWithinLimit, ShowsFile};
ghost use Rattle.bucket_core.specs.MemoryShelf.{file_in};

use crate::calls::failure_at;
use crate::{FILE_LIMIT, FailList, File, FileList, Shelf, ShelfAnswer};
use base::NoMemory;
use std::alloc::Global;
use wire_bytes::Blob;

/// A shelf in memory, which tells its files. A list says which of its calls fail.
#[derive(Drop)]
pub struct MemoryShelf {
    alloc: Global,
    files: FileList,
    failing: FailList,
    calls: u64,
    faults: u64,
}

impl MemoryShelf {
    ghost use Rattle.bucket_core.specs.MemoryShelf.{files_held, calls_made, calls_to_fail, faults_counted, next_failure, ReadCounted};

    /// A shelf of these files, of which no call fails. Of two files with one name the first is read.
    pub fn new(alloc: Global, files: FileList) -> Self
        ensures files { files_held result ≡ files }
        ensures fails { calls_to_fail result ≡ [] }
        ensures calls { calls_made result ≡ 0 }
        ensures faults { faults_counted result ≡ 0 }
    {
        MemoryShelf::with_failing(alloc, files, FailList::new(alloc))
    }

    /// A shelf of these files. The list names calls of this shelf by their numbers from 1.
    pub fn with_failing(alloc: Global, files: FileList, failing: FailList) -> Self
        ensures files { files_held result ≡ files }
        ensures fails { calls_to_fail result ≡ failing }
        ensures calls { calls_made result ≡ 0 }
        ensures faults { faults_counted result ≡ 0 }
    {
        MemoryShelf {
            alloc,
            files,
            failing,
            calls: 0,
            faults: 0,
        }
    }

    /// Counts a call, and says whether it is to fail.
    fn begin(&mut self) -> Option<bool>
        ensures failure { result ≡ next_failure self.old }
        ensures counted { ReadCounted false self.old self.new }
    {
        self.calls = self.calls.saturating_add(1);
        failure_at(&self.failing, self.calls)
    }

    /// Counts a failure.
    fn fail(&mut self)
        ensures counted { self.new ≡ record self.old { faults = next_call self.old.faults } }
        ensures later { self.old.faults ≤ self.new.faults }
    {
        self.faults = self.faults.saturating_add(1);
    }
}

/// The bytes of the first file with the name.
fn find_file<'a>(files: &'a [File], name: &str) -> Option<&'a [u8]>
    ensures { option_map (λ bytes. bytes.now) result ≡ file_in files.now name.now }
{
    files
        .iter()
        .find(|file| file.name.as_str() == name)
        .map(|file| file.bytes.bytes())
}

/// What a file's bytes are answered with, where there are any.
fn answer_of(alloc: Global, file: Option<&[u8]>) -> ShelfAnswer
    ensures shown { ShowsFile (option_map (λ bytes. bytes.now) file.entry) result }
    ensures within { IsWithinLimit result }
    ensures calm { file_failed result ≡ false }
{
    let Some(bytes) = file else {
        return ShelfAnswer::Absent;
    };
    if bytes.len() > FILE_LIMIT {
        return ShelfAnswer::TooLarge;
    }
    match Blob::from_bytes(alloc, bytes) {
        Ok(blob) => ShelfAnswer::Found(blob),
        Err(NoMemory) => ShelfAnswer::NoMemory,
    }
}

impl Shelf for MemoryShelf {
    ghost use Rattle.std.specs.Prelude.{◌≡◌, ◌≤◌, None, Some, IsTrue, false};
    ghost use Rattle.bucket_core.specs.Causes.{CountsFaults, file_failed};
    ghost use Rattle.bucket_core.specs.Files.{IsWithinLimit, ShowsFile};
    ghost use Rattle.bucket_core.specs.MemoryShelf.{file_in, files_held, shelf_told, faults_counted, next_failure, ReadsBy, ReadCounted};

    ghost told = { shelf_told };

    fn read(&mut self, name: &str) -> ShelfAnswer
        ensures shown { ShowsFile (file_in (files_held self.old) name.now) result }
        ensures within { IsWithinLimit result }
        ensures same { files_held self.new ≡ files_held self.old }
        ensures faults { CountsFaults (faults_counted self.old) (faults_counted self.new)
            (file_failed result) }
        ensures fails { ReadsBy (next_failure self.old) result }
        ensures counted { ReadCounted (file_failed result) self.old self.new }
    {
        if self.begin().is_some() {
            self.fail();
            return ShelfAnswer::Failed;
        }
        answer_of(self.alloc, find_file(self.files.members(), name))
    }
}
