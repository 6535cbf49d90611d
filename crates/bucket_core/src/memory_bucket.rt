//! The bucket of the word `memory`, and of most tests. It tells what it holds, so a contract over it says what each
//! call leaves; and calls can be made to fail by their numbers, with their effect or without it.

ghost use Rattle.std.specs.Prelude.{◌≡◌, ◌≤◌, [], option_map, IsTrue, false, OnOk, OnErr};
ghost use Rattle.std.proofs.Props.{props};
ghost use Rattle.std.specs.List.Sorted.{IsStrictlySortedBy};
ghost use Rattle.bucket_core.specs.Calls.{next_call};
ghost use Rattle.bucket_core.specs.Causes.{KeepsFaults, put_failed, get_failed, delete_failed, page_failed};
ghost use Rattle.bucket_core.specs.Contents.{Contents, IsKey, nothing, with_object, without_object, range_of, Shows};
ghost use Rattle.bucket_core.specs.Stored.{by_key, have_keys, object_in};

use crate::calls::failure_at;
use crate::listing::page_of;
use crate::objects::{Stored, find, put_in, remove_from};
use crate::{Bucket, DeleteAnswer, FailList, GetAnswer, PageAnswer, PutAnswer};
use base::{NoMemory, TryCopy};
use std::alloc::Global;
use wire_bytes::Blob;

/// A bucket in memory, which tells its contents. A list says which of its calls fail.
#[derive(Drop)]
pub struct MemoryBucket {
    alloc: Global,
    objects: Vec<Stored>,
    failing: FailList,
    calls: u64,
    faults: u64,
    ghost ordered: { IsStrictlySortedBy by_key objects.items } by { Prim.hlevel props },
    ghost keys: { IsTrue (have_keys objects.items) },
}

impl MemoryBucket {
    ghost use Rattle.bucket_core.specs.MemoryBucket.{objects_held, calls_made, calls_to_fail, faults_counted, next_failure, IsQuiet, CallCounted};

    /// An empty bucket. The list names calls of this bucket, of whatever kind, by their numbers from 1.
    #[tactic(auto, using(base::proofs::Order::sorted_nil))]
    pub fn new(alloc: Global, failing: FailList) -> Self
        ensures empty { objects_held result ≡ nothing }
        ensures fails { calls_to_fail result ≡ failing }
        ensures calls { calls_made result ≡ 0 }
        ensures faults { faults_counted result ≡ 0 }
        ensures quiet { failing ≡ [] → IsQuiet result }
    {
        MemoryBucket {
            alloc,
            objects: Vec::new(alloc),
            failing,
            calls: 0,
            faults: 0,
        }
    }

    /// Counts a call, and says whether it is to fail, and then whether it is done all the same.
    fn begin(&mut self) -> Option<bool>
        ensures failure { result ≡ next_failure self.old }
        ensures counted { CallCounted false self.old self.new }
        ensures same { self.new.objects.items ≡ self.old.objects.items }
    {
        self.calls = self.calls.saturating_add(1);
        failure_at(&self.failing, self.calls)
    }

    /// Puts an object, and counts nothing.
    fn store(&mut self, key: &str, bytes: &Blob) -> Result<(), NoMemory>
        requires { IsKey key.now }
        ensures ok { OnOk result
            (objects_held self.new ≡ with_object key.now bytes.now (objects_held self.old)) }
        ensures err { OnErr result (objects_held self.new ≡ objects_held self.old) }
        ensures calls { calls_made self.new ≡ calls_made self.old }
        ensures list { calls_to_fail self.new ≡ calls_to_fail self.old }
        ensures faults { faults_counted self.new ≡ faults_counted self.old }
    {
        put_in(self.alloc, &mut self.objects, key, bytes)?;
        Ok(())
    }

    /// Takes an object away, and counts nothing.
    fn remove(&mut self, key: &str)
        ensures left { objects_held self.new ≡ without_object key.now (objects_held self.old) }
        ensures calls { calls_made self.new ≡ calls_made self.old }
        ensures list { calls_to_fail self.new ≡ calls_to_fail self.old }
        ensures faults { faults_counted self.new ≡ faults_counted self.old }
    {
        remove_from(&mut self.objects, key);
    }

    /// Counts a failure.
    fn fail(&mut self)
        ensures counted { self.new ≡ record self.old { faults = next_call self.old.faults } }
        ensures later { self.old.faults ≤ self.new.faults }
    {
        self.faults = self.faults.saturating_add(1);
    }
}

/// The answer that an object makes, where there is one. It shares the object's bytes.
fn answer_of(object: Option<&Blob>) -> GetAnswer
    ensures shown { Shows (option_map (λ b. b.now) object.entry) result }
    ensures fails { get_failed result ≡ false }
{
    match object {
        None => GetAnswer::Absent,
        Some(bytes) => match bytes.copy() {
            Ok(blob) => GetAnswer::Found(blob),
            Err(NoMemory) => GetAnswer::NoMemory,
        },
    }
}

/// The answer that a part of an object makes, where there is an object. It shares the object's bytes.
fn part_answer(object: Option<&Blob>, from: u64, len: u64) -> GetAnswer
    ensures shown { Shows
        (option_map (range_of from len) (option_map (λ b. b.now) object.entry)) result }
    ensures fails { get_failed result ≡ false }
{
    match object {
        None => GetAnswer::Absent,
        Some(bytes) => match bytes.part(from, len) {
            Ok(blob) => GetAnswer::Found(blob),
            Err(NoMemory) => GetAnswer::NoMemory,
        },
    }
}

impl Bucket for MemoryBucket {
    ghost use Rattle.std.specs.Prelude.{◌≡◌, ◌≤◌, None, Some, IsSome, option_map, IsTrue, false};
    ghost use Rattle.bucket_core.specs.Causes.{KeepsFaults, put_failed, get_failed, delete_failed, page_failed};
    ghost use Rattle.bucket_core.specs.Contents.{IsKey, after_put, after_delete, range_of, Shows};
    ghost use Rattle.bucket_core.specs.Pages.{ShowsPage};
    ghost use Rattle.bucket_core.specs.KeyLaw.{told_is_key};
    ghost use Rattle.bucket_core.specs.MemoryBucket.{objects_held, bucket_told, calls_made, calls_to_fail, faults_counted, next_failure, CallCounted, PutsBy, GetsBy, DeletesBy, PagesBy};

    ghost told = { bucket_told };

    ghost only_keys = { λ bucket c key told some. told_is_key bucket.objects.items bucket.keys c key
        told some };

    fn put(&mut self, key: &str, bytes: &Blob) -> PutAnswer
        requires { IsKey key.now }
        ensures left { objects_held self.new
            ≡ after_put key.now bytes.now result (objects_held self.old) }
        ensures kept { KeepsFaults (bucket_told self.old) (bucket_told self.new) (put_failed result) }
        ensures fails { PutsBy (next_failure self.old) result }
        ensures counted { CallCounted (put_failed result) self.old self.new }
    {
        let failure = self.begin();
        if failure == Some(false) {
            self.fail();
            return PutAnswer::Failed(false);
        }
        if self.store(key, bytes).is_err() {
            return PutAnswer::NoMemory;
        }
        if failure.is_none() {
            return PutAnswer::Stored;
        }
        self.fail();
        PutAnswer::Failed(true)
    }

    fn get(&mut self, key: &str) -> GetAnswer
        ensures shown { Shows (objects_held self.old key.now) result }
        ensures left { objects_held self.new ≡ objects_held self.old }
        ensures kept { KeepsFaults (bucket_told self.old) (bucket_told self.new) (get_failed result) }
        ensures fails { GetsBy (next_failure self.old) result }
        ensures counted { CallCounted (get_failed result) self.old self.new }
    {
        if self.begin().is_some() {
            self.fail();
            return GetAnswer::Failed;
        }
        answer_of(find(self.objects.as_slice(), key))
    }

    fn get_range(&mut self, key: &str, from: u64, len: u64) -> GetAnswer
        ensures shown { Shows
            (option_map (range_of from len) (objects_held self.old key.now)) result }
        ensures left { objects_held self.new ≡ objects_held self.old }
        ensures kept { KeepsFaults (bucket_told self.old) (bucket_told self.new) (get_failed result) }
        ensures fails { GetsBy (next_failure self.old) result }
        ensures counted { CallCounted (get_failed result) self.old self.new }
    {
        if self.begin().is_some() {
            self.fail();
            return GetAnswer::Failed;
        }
        part_answer(find(self.objects.as_slice(), key), from, len)
    }

    fn delete(&mut self, key: &str) -> DeleteAnswer
        ensures left { objects_held self.new ≡ after_delete key.now result (objects_held self.old) }
        ensures kept { KeepsFaults (bucket_told self.old) (bucket_told self.new) (delete_failed result) }
        ensures fails { DeletesBy (next_failure self.old) result }
        ensures counted { CallCounted (delete_failed result) self.old self.new }
    {
        let failure = self.begin();
        if failure == Some(false) {
            self.fail();
            return DeleteAnswer::Failed(false);
        }
        self.remove(key);
        if failure.is_none() {
            return DeleteAnswer::Deleted;
        }
        self.fail();
        DeleteAnswer::Failed(true)
    }

    fn page(&mut self, within: &str, after: &str, limit: u32) -> PageAnswer
        requires { 1 ≤ limit }
        ensures shown { ShowsPage (objects_held self.old) within.now after.now limit result }
        ensures left { objects_held self.new ≡ objects_held self.old }
        ensures kept { KeepsFaults (bucket_told self.old) (bucket_told self.new) (page_failed result) }
        ensures fails { PagesBy (next_failure self.old) result }
        ensures counted { CallCounted (page_failed result) self.old self.new }
    {
        if self.begin().is_some() {
            self.fail();
            return PageAnswer::Failed;
        }
        match page_of(
            self.alloc,
            self.objects.as_slice(),
            within,
            after,
            limit as usize,
        ) {
            Ok(names) => PageAnswer::Names(names),
            Err(NoMemory) => PageAnswer::NoMemory,
        }
    }
}
