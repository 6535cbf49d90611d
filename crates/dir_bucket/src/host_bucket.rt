//! One type for both kinds of bucket that a word can name, as a site hands out one type. The notes of its calls take no
//! memory: they are there for contracts.

ghost use Rattle.std.specs.Prelude.{◌≡◌};

use crate::{DirBucket, Trouble};
use bucket_core::{
    Bucket, CallNotes, DeleteAnswer, GetAnswer, MemoryBucket, PageAnswer, PutAnswer,
};
use std::rt::Files;
use wire_bytes::Blob;

/// A bucket in memory or in a folder, with the notes of its calls. It tells what it was asked, and what it holds where it is in memory.
#[derive(Drop)]
pub enum HostBucket<R: Files + AllocGlobal + Clone + Drop> {
    Memory(MemoryBucket, CallNotes),
    Folder(DirBucket<R>, CallNotes),
}

impl<R: Files + AllocGlobal + Clone + Drop> HostBucket<R> {
    ghost use Rattle.dir_bucket.specs.HostBucket.{trouble_of};

    /// Why the first of its calls failed that did. A bucket in memory fails by no fault of the system.
    pub fn trouble(&self) -> Option<Trouble>
        ensures { result ≡ trouble_of self.now }
    {
        match self {
            HostBucket::Memory(_, _) => None,
            HostBucket::Folder(bucket, _) => bucket.trouble(),
        }
    }
}

impl<R: Files + AllocGlobal + Clone + Drop> Bucket for HostBucket<R> {
    ghost use Rattle.dir_bucket.specs.HostBucket.{bucket_told, told_is_key};

    ghost told = { bucket_told };

    ghost only_keys = { told_is_key };

    #[tactic(auto, using(crate::proofs::Noting::noted))]
    fn put(&mut self, key: &str, bytes: &Blob) -> PutAnswer {
        match self {
            HostBucket::Memory(bucket, notes) => {
                notes.note_put(key, bytes.bytes());
                bucket.put(key, bytes)
            }
            HostBucket::Folder(bucket, notes) => {
                notes.note_put(key, bytes.bytes());
                bucket.put(key, bytes)
            }
        }
    }

    #[tactic(auto, using(crate::proofs::Noting::noted))]
    fn get(&mut self, key: &str) -> GetAnswer {
        match self {
            HostBucket::Memory(bucket, notes) => {
                notes.note_get(key);
                bucket.get(key)
            }
            HostBucket::Folder(bucket, notes) => {
                notes.note_get(key);
                bucket.get(key)
            }
        }
    }

    #[tactic(auto, using(crate::proofs::Noting::noted))]
    fn get_range(&mut self, key: &str, from: u64, len: u64) -> GetAnswer {
        match self {
            HostBucket::Memory(bucket, notes) => {
                notes.note_range(key, from, len);
                bucket.get_range(key, from, len)
            }
            HostBucket::Folder(bucket, notes) => {
                notes.note_range(key, from, len);
                bucket.get_range(key, from, len)
            }
        }
    }

    #[tactic(auto, using(crate::proofs::Noting::noted_so))]
    fn delete(&mut self, key: &str) -> DeleteAnswer {
        match self {
            HostBucket::Memory(bucket, notes) => {
                notes.note_delete(key);
                bucket.delete(key)
            }
            HostBucket::Folder(bucket, notes) => {
                notes.note_delete(key);
                bucket.delete(key)
            }
        }
    }

    #[tactic(auto, using(crate::proofs::Noting::noted))]
    fn page(&mut self, within: &str, after: &str, limit: u32) -> PageAnswer {
        match self {
            HostBucket::Memory(bucket, notes) => {
                notes.note_page(within, after, limit);
                bucket.page(within, after, limit)
            }
            HostBucket::Folder(bucket, notes) => {
                notes.note_page(within, after, limit);
                bucket.page(within, after, limit)
            }
        }
    }
}
