//! A sink for tests that keeps what was written and can be made to fail at one call: so it is tried that a report which
//! could not be written is never told as written.

ghost use Rattle.std.specs.Prelude.{◌≡◌, ◌≤◌, ◌++◌, [], IfOk};
ghost use Rattle.bucket_core.specs.Calls.{next_call};

use crate::notes::TextNotes;
use crate::{Sink, WriteAnswer};
use base::NoMemory;
use std::alloc::Global;

/// A sink that takes all bytes, and keeps them for as long as it finds memory. One of its calls may be made to fail.
#[derive(Drop)]
pub struct MemorySink {
    bytes: Vec<u8>,
    /// What was written from the first piece on for which there was no memory.
    lost: Option<TextNotes>,
    calls: u64,
    fail_at: Option<u64>,
    faults: u64,
}

impl MemorySink {
    ghost use Rattle.bucket_core.specs.MemorySink.{bytes_written, calls_made, failing_call, faults_counted};

    /// An empty sink, whose call number `fail_at`, from 1, fails.
    pub fn new(alloc: Global, fail_at: Option<u64>) -> Self
        ensures written { bytes_written result ≡ [] }
        ensures fails { failing_call result ≡ fail_at }
        ensures calls { calls_made result ≡ 0 }
        ensures faults { faults_counted result ≡ 0 }
    {
        MemorySink {
            bytes: Vec::new(alloc),
            lost: None,
            calls: 0,
            fail_at,
            faults: 0,
        }
    }

    /// What was written, unless there was no memory to keep it all.
    pub fn bytes(&self) -> Result<&[u8], NoMemory>
        ensures { IfOk result (λ bytes. bytes.now ≡ bytes_written self.now) }
    {
        match &self.lost {
            None => Ok(self.bytes.as_slice()),
            Some(_) => Err(NoMemory),
        }
    }

    /// Keeps the bytes, or notes for clauses alone what is lost.
    fn keep(&mut self, bytes: &[u8])
        ensures written { bytes_written self.new ≡ bytes_written self.old ++ bytes.now }
        ensures calls { calls_made self.new ≡ calls_made self.old }
        ensures same { failing_call self.new ≡ failing_call self.old }
        ensures faults { faults_counted self.new ≡ faults_counted self.old }
    {
        let mut lost = match self.lost.take() {
            Some(lost) => lost,
            None => {
                if self.bytes.extend_from_slice(bytes).is_ok() {
                    return;
                }
                TextNotes::new()
            }
        };
        lost.note(bytes);
        self.lost = Some(lost);
    }
}

impl Sink for MemorySink {
    ghost use Rattle.std.specs.Prelude.{◌≡◌, ◌≤◌, ◌++◌, ◌↔◌, length, take, IsTrue, Some};
    ghost use Rattle.bucket_core.specs.Calls.{next_call};
    ghost use Rattle.bucket_core.specs.Causes.{CountsFaults, write_failed};
    ghost use Rattle.bucket_core.specs.Streams.{count_taken, TakesSome};
    ghost use Rattle.bucket_core.specs.MemorySink.{bytes_written, calls_made, failing_call, faults_counted, sink_told};

    ghost told = { sink_told };

    fn write(&mut self, bytes: &[u8]) -> WriteAnswer
        ensures fits { count_taken result ≤ length bytes.now }
        ensures some { TakesSome result bytes.now }
        ensures added { bytes_written self.new
            ≡ bytes_written self.old ++ take (count_taken result) bytes.now }
        ensures faults { CountsFaults (faults_counted self.old) (faults_counted self.new)
            (write_failed result) }
        ensures fails { IsTrue (write_failed result)
            ↔ (failing_call self.old ≡ Some (next_call (calls_made self.old))) }
        ensures counted { calls_made self.new ≡ next_call (calls_made self.old) }
        ensures same { failing_call self.new ≡ failing_call self.old }
    {
        self.calls = self.calls.saturating_add(1);
        if self.fail_at == Some(self.calls) {
            self.faults = self.faults.saturating_add(1);
            return WriteAnswer::Failed;
        }
        self.keep(bytes);
        WriteAnswer::Took(bytes.len())
    }
}
