//! The shelf of a run: the blocks in a folder as Prometheus leaves them there, which are only read. It tells which
//! files it was asked for, so that a contract can say that a check reads each file of its block once.

ghost use Rattle.std.specs.Prelude.{◌≡◌, ◌≤◌, [], None, Some, IfOk, false};
ghost use Rattle.std.specs.String.{string_bytes};
ghost use Rattle.bucket_core.specs.Causes.{CountsFaults, file_failed};
ghost use Rattle.bucket_core.specs.Files.{IsWithinLimit, ShowsFile};
ghost use Rattle.dir_bucket.specs.Folders.{names_noted, shelf_faults, shelf_folder, shelf_trouble};
ghost use Rattle.dir_bucket.specs.Troubles.{KeepsTrouble};

use crate::files::{is_absent, read_range};
use crate::names::is_plain;
use crate::trouble::Trouble;
use base::NoMemory;
use bucket_core::{FILE_LIMIT, NameNotes, Shelf, ShelfAnswer};
use std::io::ErrorKind;
use std::rt::Files;
use std::{fs, io};
use wire_bytes::Blob;

/// The files of a folder, each under its path below the folder. It tells which it was asked for, and nothing of what they hold.
///
/// Of a file past the limit no more is read than shows that it is past it. Names with a part that is empty or begins with a
/// dot have no file.
#[derive(Drop)]
pub struct DirShelf<R: Files + AllocGlobal + Clone + Drop> {
    rt: R,
    folder: String,
    faults: u64,
    trouble: Option<Trouble>,
    names: NameNotes,
}

impl<R: Files + AllocGlobal + Clone + Drop> DirShelf<R> {
    /// The shelf of a folder. There is trouble where it can't be listed.
    pub fn open(rt: R, folder: &str) -> Result<DirShelf<R>, Trouble>
        ensures fresh { IfOk result (λ shelf. shelf_faults shelf ≡ 0) }
        ensures calm { IfOk result (λ shelf. shelf_trouble shelf ≡ None) }
        ensures unasked { IfOk result (λ shelf. names_noted shelf ≡ []) }
        ensures folder { IfOk result (λ shelf. shelf_folder shelf ≡ folder.now) }
    {
        match open_folder(&rt, folder) {
            Ok(folder) => Ok(DirShelf {
                rt,
                folder,
                faults: 0,
                trouble: None,
                names: NameNotes::new(),
            }),
            Err(error) => Err(Trouble::of(&error)),
        }
    }

    /// Why the first of its reads failed that did.
    pub fn trouble(&self) -> Option<Trouble>
        ensures { result ≡ shelf_trouble self.now }
    {
        self.trouble
    }

    /// What a read is answered, where a failure is counted.
    fn answer(&mut self, read: io::Result<Vec<u8>>) -> ShelfAnswer
        // What was read is found where it does not pass the limit, and told as too large where it does.
        ensures shown { IfOk read (λ bytes. ShowsFile (Some bytes.items) result) }
        ensures reads { IfOk read (λ _. file_failed result ≡ false) }
        ensures within { IsWithinLimit result }
        ensures names { names_noted self.new ≡ names_noted self.old }
        ensures folder { shelf_folder self.new ≡ shelf_folder self.old }
        ensures faults { CountsFaults (shelf_faults self.old) (shelf_faults self.new)
            (file_failed result) }
        ensures trouble { KeepsTrouble (shelf_trouble self.old) (shelf_trouble self.new)
            (file_failed result) }
    {
        match read {
            Ok(bytes) if bytes.len() > FILE_LIMIT => ShelfAnswer::TooLarge,
            Ok(bytes) => match Blob::from_vec(bytes).shared() {
                Ok(bytes) => ShelfAnswer::Found(bytes),
                Err(NoMemory) => ShelfAnswer::NoMemory,
            },
            Err(error) if is_absent(&error) => ShelfAnswer::Absent,
            Err(error) if error.kind() == ErrorKind::OutOfMemory => ShelfAnswer::NoMemory,
            Err(error) => {
                self.faults = self.faults.saturating_add(1);
                self.trouble = self.trouble.or(Some(Trouble::of(&error)));
                ShelfAnswer::Failed
            }
        }
    }
}

/// Sees that the folder is there.
fn open_folder<R: Files + AllocGlobal + Clone + Drop>(rt: &R, folder: &str) -> io::Result<String>
    ensures { IfOk result (λ kept. string_bytes kept ≡ folder.now) }
{
    fs::read_dir(rt, folder)?;
    Ok(String::from_str(rt.alloc(), folder)?)
}

impl<R: Files + AllocGlobal + Clone + Drop> Shelf for DirShelf<R> {
    ghost use Rattle.std.specs.Prelude.{◌≡◌, ◌≤◌, None, IsTrue, false};
    ghost use Rattle.bucket_core.specs.Asking.{AsksOnce};
    ghost use Rattle.bucket_core.specs.Causes.{CountsFaults, file_failed};
    ghost use Rattle.bucket_core.specs.Files.{IsWithinLimit};
    ghost use Rattle.dir_bucket.specs.Folders.{shelf_faults, shelf_folder, shelf_told, shelf_trouble};
    ghost use Rattle.dir_bucket.specs.Names.{is_plain as is_plain_name};
    ghost use Rattle.dir_bucket.specs.Troubles.{KeepsTrouble};

    ghost told = { shelf_told };

    #[tactic(auto, using(crate::proofs::Noting::noted))]
    fn read(&mut self, name: &str) -> ShelfAnswer
        ensures within { IsWithinLimit result }
        ensures asks { AsksOnce (shelf_told self.old).asked (shelf_told self.new).asked
            name.now result ShelfAnswer.NoMemory }
        ensures folder { shelf_folder self.new ≡ shelf_folder self.old }
        ensures faults { CountsFaults (shelf_faults self.old) (shelf_faults self.new)
            (file_failed result) }
        ensures trouble { KeepsTrouble (shelf_trouble self.old) (shelf_trouble self.new)
            (file_failed result) }
        ensures strange { is_plain_name name.now ≡ false → result ≡ ShelfAnswer.Absent }
    {
        self.names.note(name);
        if !is_plain(name) {
            return ShelfAnswer::Absent;
        }
        let most = FILE_LIMIT as u64 + 1;
        let read = read_range(&self.rt, self.folder.as_str(), name, 0, most);
        self.answer(read)
    }
}
