//! The end of a call: its verdict is written, and what it leaves is handed back. Writing may fail too, and then the
//! status tells that in place of the verdict.

ghost use Rattle.std.specs.Prelude.{◌≡◌, ◌++◌, OnErr, OnOk, Some, None, option_map};
ghost use Rattle.bucket_core.specs.Causes.{Rose};
ghost use Rattle.call_verdicts.specs.Ends.{IsEndOfRun};
ghost use Rattle.call_verdicts.specs.Output.{IsWrittenInPart};
ghost use Rattle.call_verdicts.specs.Statuses.{number_of};
ghost use Rattle.call_verdicts.specs.Verdicts.{IsSaid, saying_to};

use crate::output::write_all;
use crate::{Run, SinkFault, Status, Verdict};
use bucket_core::{Bucket, Sink};
use run_notes::{Finished, RunNote};
use std::alloc::Global;
use world_core::Journal;

/// What a call comes to: its verdict, with the bucket that the site handed out, the journal over it, the shelf that the site handed out,
/// and the note of its run, where one began.
#[derive(Drop)]
pub struct Ended<B: Bucket, F> {
    pub verdict: Verdict,
    pub journal: Option<Journal>,
    pub store: Option<B>,
    pub shelf: Option<F>,
    pub note: Option<RunNote<B>>,
}

impl<B: Bucket, F> Ended<B, F> {
    /// A call that came to its verdict before a bucket was handed out.
    pub fn without_bucket(verdict: Verdict, shelf: Option<F>) -> Ended<B, F>
        ensures verdict { result.verdict ≡ verdict }
        ensures journal { result.journal ≡ None }
        ensures store { result.store ≡ None }
        ensures shelf { result.shelf ≡ shelf }
        ensures note { result.note ≡ None }
    {
        Ended {
            verdict,
            journal: None,
            store: None,
            shelf,
            note: None,
        }
    }

    /// A call that came to its verdict with a bucket, over which no world was opened.
    pub(crate) fn with_bucket(
        verdict: Verdict,
        journal: Journal,
        store: B,
        shelf: Option<F>,
    ) -> Ended<B, F>
        ensures verdict { result.verdict ≡ verdict }
        ensures journal { result.journal ≡ Some journal }
        ensures store { result.store ≡ Some store }
        ensures shelf { result.shelf ≡ shelf }
        ensures note { result.note ≡ None }
    {
        Ended {
            verdict,
            journal: Some(journal),
            store: Some(store),
            shelf,
            note: None,
        }
    }

    /// What a call comes to whose run is finished, with the shelf of its word.
    pub fn of_run(verdict: Verdict, run: Finished<B>, shelf: Option<F>) -> Ended<B, F>
        ensures { IsEndOfRun B.told verdict run.world run.note shelf result }
    {
        let (note, journal, store) = run.into_parts();
        Ended {
            verdict,
            journal: Some(journal),
            store: Some(store),
            shelf,
            note,
        }
    }

    /// Says what the call comes to, and hands over what it leaves.
    pub fn into_run<K: Sink>(self, alloc: Global, out: &mut K) -> Run<B, F>
        ensures { (status : Status)
            × IsSaid self.verdict (saying_to (K.told out.old) (K.told out.new)) status
            × (result ≡ record {
              status = number_of status;
              journal = self.journal;
              store = self.store;
              shelf = self.shelf;
              note = self.note;
              day = None;
            }) }
    {
        let Ended {
            verdict,
            journal,
            store,
            shelf,
            note,
        } = self;
        let status = say(alloc, verdict, out);
        Run {
            status: status.number(),
            journal,
            store,
            shelf,
            note,
            day: None,
        }
    }
}

/// Writes a verdict's text. Its status is that of the call, unless the sink failed or there was no memory for the text.
fn say<K: Sink>(alloc: Global, verdict: Verdict, out: &mut K) -> Status
    ensures { IsSaid verdict (saying_to (K.told out.old) (K.told out.new)) result }
{
    let status = verdict.status();
    let last = verdict.last_line();
    let Ok(text) = verdict.into_text(alloc) else {
        return Status::NoMemory;
    };
    match write_both(out, &text, last.as_bytes()) {
        Ok(()) => status,
        Err(_) => Status::SinkFault,
    }
}

/// Writes all of the one text, and then all of the other.
fn write_both<K: Sink>(out: &mut K, first: &[u8], last: &[u8]) -> Result<(), SinkFault>
    ensures whole { OnOk result ((K.told out.new).written
        ≡ option_map (λ before. before ++ (first.now ++ last.now)) (K.told out.old).written) }
    ensures part { OnErr result (IsWrittenInPart (first.now ++ last.now)
        (K.told out.old).written (K.told out.new).written) }
    ensures cause { OnErr result (Rose (K.told out.old).faults (K.told out.new).faults) }
{
    write_all(out, first)?;
    write_all(out, last)
}
