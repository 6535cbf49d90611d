//! A shelf that notes which names it is asked for.
use base::NoMemory;
use bucket_core::{Shelf, ShelfAnswer};
use dir_bucket::DirShelf;
use label_sets::{Text, TextList};
use std::alloc::Global;

/// The files of a folder, on a shelf that notes the names which it is asked for. One of its readings may be told to fail.
#[derive(Drop)]
pub(crate) struct NotingShelf {
    alloc: Global,
    folder: DirShelf<HostRuntime>,
    /// The number of the reading that fails, counted from 1.
    fails: usize,
    names: TextList,
    faults: u64,
}

impl NotingShelf {
    ghost use Rattle.std.specs.Prelude.{◌≡◌, ◌++◌, [], ◌∷◌, OnOk, OnErr};
    ghost use Rattle.bucket_core.specs.Files.{IsWithinLimit};

    pub(crate) fn new(alloc: Global, folder: DirShelf<HostRuntime>, fails: usize) -> Self {
        NotingShelf {
            alloc,
            folder,
            fails,
            names: TextList::new(alloc),
            faults: 0,
        }
    }

    /// The names that the shelf was asked for, in order.
    pub(crate) fn names(&self) -> &[Text] {
        self.names.members()
    }

    fn note(&mut self, name: &str) -> Result<(), NoMemory>
        ensures ok { OnOk result (self.new.names ≡ self.old.names ++ name.now ∷ []) }
        ensures err { OnErr result (self.new.names ≡ self.old.names) }
        ensures faults { self.new.faults ≡ self.old.faults }
    {
        self.names.push(Text::from_str(self.alloc, name)?)?;
        Ok(())
    }

    /// What the folder answers, or a failure where this reading is to fail.
    fn answer(&mut self, name: &str) -> ShelfAnswer
        ensures within { IsWithinLimit result }
        ensures names { self.new.names ≡ self.old.names }
        ensures faults { self.new.faults ≡ self.old.faults }
    {
        if self.names.len() == self.fails {
            return ShelfAnswer::Failed;
        }
        self.folder.read(name)
    }
}

impl Shelf for NotingShelf {
    ghost use Rattle.std.specs.Prelude.{None, Some};

    ghost told = { λ shelf. record {
      files = None;
      asked = Some shelf.names;
      faults = shelf.faults;
    } };

    fn read(&mut self, name: &str) -> ShelfAnswer {
        let Ok(()) = self.note(name) else {
            return ShelfAnswer::NoMemory;
        };
        let answer = self.answer(name);
        if matches!(answer, ShelfAnswer::Failed) {
            self.faults = self.faults.saturating_add(1);
        }
        answer
    }
}
