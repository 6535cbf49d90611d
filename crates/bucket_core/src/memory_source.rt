//! A source for tests: the bytes of a script in memory, and one call that can be made to fail in the middle of them.

ghost use Rattle.std.specs.Prelude.{◌≡◌, ◌≤◌, ◌<◌, ◌↔◌, ◌++◌, length, take, drop, option_map, IsTrue, Some};
ghost use Rattle.bucket_core.specs.Calls.{next_call};
ghost use Rattle.bucket_core.specs.Causes.{CountsFaults, read_failed};
ghost use Rattle.bucket_core.specs.Streams.{count_got, EndsWhereNone};

use crate::{ReadAnswer, Source};
use wire_bytes::Blob;

/// A source of the bytes of a blob. One of its calls may be made to fail.
#[derive(Drop)]
pub struct MemorySource {
    bytes: Blob,
    place: usize,
    calls: u64,
    fail_at: Option<u64>,
    faults: u64,
    ghost within: { place ≤ length bytes },
}

impl MemorySource {
    ghost use Rattle.bucket_core.specs.MemorySource.{bytes_left, calls_made, failing_call, faults_counted};

    /// A source of all the bytes, whose call number `fail_at`, from 1, fails.
    pub fn new(bytes: Blob, fail_at: Option<u64>) -> Self
        ensures left { bytes_left result ≡ bytes }
        ensures fails { failing_call result ≡ fail_at }
        ensures calls { calls_made result ≡ 0 }
        ensures faults { faults_counted result ≡ 0 }
    {
        MemorySource {
            bytes,
            place: 0,
            calls: 0,
            fail_at,
            faults: 0,
        }
    }
}

impl Source for MemorySource {
    ghost use Rattle.std.specs.Prelude.{◌≡◌, ◌≤◌, ◌<◌, ◌↔◌, ◌++◌, length, take, option_map, IsTrue, Some, false};
    ghost use Rattle.bucket_core.specs.Calls.{next_call};
    ghost use Rattle.bucket_core.specs.Causes.{CountsFaults, read_failed};
    ghost use Rattle.bucket_core.specs.Streams.{count_got, EndsWhereNone};
    ghost use Rattle.bucket_core.specs.MemorySource.{bytes_left, calls_made, failing_call, faults_counted, source_told};

    ghost told = { source_told };

    fn read(&mut self, into: &mut [u8]) -> ReadAnswer
        requires { 0 < length into.old }
        ensures fits { count_got result ≤ length into.new }
        ensures taken { bytes_left self.old
            ≡ take (count_got result) into.new ++ bytes_left self.new }
        ensures end { EndsWhereNone result (Some (bytes_left self.old)) }
        ensures faults { CountsFaults (faults_counted self.old) (faults_counted self.new)
            (read_failed result) }
        ensures fails { IsTrue (read_failed result)
            ↔ (failing_call self.old ≡ Some (next_call (calls_made self.old))) }
        ensures counted { calls_made self.new ≡ next_call (calls_made self.old) }
        ensures same { failing_call self.new ≡ failing_call self.old }
    {
        self.calls = self.calls.saturating_add(1);
        if self.fail_at == Some(self.calls) {
            self.faults = self.faults.saturating_add(1);
            return ReadAnswer::Failed;
        }
        let count = copy_front(&self.bytes.bytes()[self.place..], into);
        self.place += count;
        ReadAnswer::Got(count)
    }
}

/// Copies as many bytes as both have, and answers their number.
fn copy_front(from: &[u8], into: &mut [u8]) -> usize
    ensures fits { result ≤ length into.old }
    ensures there { result ≤ length from.now }
    ensures copied { take result into.new ≡ take result from.now }
    ensures none { result ≡ 0 → 0 < length into.old → length from.now ≡ 0 }
{
    let count = from.len().min(into.len());
    into[..count].copy_from_slice(&from[..count]);
    count
}
