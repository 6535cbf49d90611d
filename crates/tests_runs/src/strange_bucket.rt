//! A bucket that shows other objects than it holds, and the site that opens it.

ghost use Rattle.std.specs.Prelude.{◌≡◌, false};
ghost use Rattle.bucket_core.specs.Causes.{get_failed};

use crate::setting::{Setting, fails_of};
use bucket_core::{
    Bucket, CallNotes, DeleteAnswer, GetAnswer, MemoryBucket, MemoryShelf, PageAnswer, PutAnswer,
    Site, SiteRefusal,
};
use label_sets::{Text, TextList};
use std::alloc::Global;
use wire_bytes::Blob;

/// How a strange bucket lies.
#[derive(Clone, Copy)]
pub enum Lie {
    Never,
    /// Each meta that stands is shown as the one byte `x`.
    Metas,
    /// Each index that stands, and each range of one, is shown as the one byte `x`.
    Indexes,
    /// No index is found.
    Lost,
    /// Each page has the one name `x`.
    Pages,
}

/// A bucket in memory that may lie, and of which a call may fail. It tells no contents, but what it was asked. It notes its calls to
/// be printed too. Where memory is wanted, a note is left out, and so is the name of a page that lies.
#[derive(Drop)]
pub struct StrangeBucket {
    alloc: Global,
    inner: MemoryBucket,
    lie: Lie,
    /// A line for each call, in order: its kind and the key, or the name behind which names are listed.
    pub(crate) notes: Vec<u8>,
    told: CallNotes,
}

impl StrangeBucket {
    /// What it shows in the place of an answer: by its lie, where an object was found.
    fn shown(&self, key: &str, answer: GetAnswer) -> GetAnswer
        ensures { get_failed result ≡ get_failed answer }
    {
        match answer {
            GetAnswer::Found(bytes) => match self.lie {
                Lie::Metas if key.ends_with("/meta.json") => self.other(),
                Lie::Indexes if key.ends_with("/index") => self.other(),
                Lie::Lost if key.ends_with("/index") => GetAnswer::Absent,
                _ => GetAnswer::Found(bytes),
            },
            answer => answer,
        }
    }

    /// An object of one byte.
    fn other(&self) -> GetAnswer
        ensures { get_failed result ≡ false }
    {
        match Blob::from_bytes(self.alloc, b"x") {
            Ok(byte) => GetAnswer::Found(byte),
            Err(_) => GetAnswer::NoMemory,
        }
    }
}

fn note(notes: &mut Vec<u8>, kind: &str, name: &str) {
    let _ = notes.extend_from_slice(kind.as_bytes());
    let _ = notes.extend_from_slice(name.as_bytes());
    let _ = notes.push(b'\n');
}

impl Bucket for StrangeBucket {
    ghost use Rattle.tests_runs.specs.Told.{strange_told};

    ghost told = { strange_told };

    ghost only_keys = { λ b c key told stands. absurd (Prim.cc told) };

    #[tactic(auto, using(dir_bucket::proofs::Noting::noted))]
    fn put(&mut self, key: &str, bytes: &Blob) -> PutAnswer {
        self.told.note_put(key, bytes.bytes());
        note(&mut self.notes, "put ", key);
        self.inner.put(key, bytes)
    }

    #[tactic(auto, using(dir_bucket::proofs::Noting::noted))]
    fn get(&mut self, key: &str) -> GetAnswer {
        self.told.note_get(key);
        note(&mut self.notes, "get ", key);
        let answer = self.inner.get(key);
        self.shown(key, answer)
    }

    #[tactic(auto, using(dir_bucket::proofs::Noting::noted))]
    fn get_range(&mut self, key: &str, from: u64, len: u64) -> GetAnswer {
        self.told.note_range(key, from, len);
        note(&mut self.notes, "range ", key);
        let answer = self.inner.get_range(key, from, len);
        self.shown(key, answer)
    }

    #[tactic(auto, using(dir_bucket::proofs::Noting::noted_so))]
    fn delete(&mut self, key: &str) -> DeleteAnswer {
        self.told.note_delete(key);
        note(&mut self.notes, "delete ", key);
        self.inner.delete(key)
    }

    #[tactic(auto, using(dir_bucket::proofs::Noting::noted))]
    fn page(&mut self, within: &str, after: &str, limit: u32) -> PageAnswer {
        self.told.note_page(within, after, limit);
        note(&mut self.notes, "page ", after);
        if !matches!(self.lie, Lie::Pages) {
            return self.inner.page(within, after, limit);
        }
        let mut names = TextList::new(self.alloc);
        if let Ok(name) = Text::from_str(self.alloc, "x") {
            let _ = names.push(name);
        }
        PageAnswer::Names(names)
    }
}

/// A site that opens empty strange buckets, unless it fails, and no shelf.
#[derive(Drop)]
pub struct StrangeSite {
    alloc: Global,
    setting: Setting,
    opened: u32,
    faults: u64,
}

impl StrangeSite {
    pub(crate) fn new(alloc: Global, setting: &Setting) -> StrangeSite {
        StrangeSite {
            alloc,
            setting: *setting,
            opened: 0,
            faults: 0,
        }
    }
}

impl Site for StrangeSite {
    type Store = StrangeBucket;

    type Files = MemoryShelf;

    ghost use Rattle.std.specs.Prelude.{None};

    ghost told = { λ s. record {
      buckets = s.opened;
      bucket_at = λ place name. None;
      shelves = 0;
      shelf_at = λ place name. None;
      faults = s.faults;
    } };

    fn open_bucket(&mut self, _name: &str) -> Result<StrangeBucket, SiteRefusal> {
        if self.setting.site || self.opened == u32::MAX {
            self.faults = self.faults.saturating_add(1);
            return Err(SiteRefusal::Failed);
        }
        let fails = fails_of(self.alloc, self.setting.bucket);
        self.opened += 1;
        Ok(StrangeBucket {
            alloc: self.alloc,
            inner: MemoryBucket::new(self.alloc, fails),
            lie: self.setting.lie,
            notes: Vec::new(self.alloc),
            told: CallNotes::new(),
        })
    }

    fn open_shelf(&mut self, _name: &str) -> Result<MemoryShelf, SiteRefusal> {
        self.faults = self.faults.saturating_add(1);
        Err(SiteRefusal::Failed)
    }
}
