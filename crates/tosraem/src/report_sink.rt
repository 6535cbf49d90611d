//! Standard output as a sink, which keeps why it failed, and which failures the report tells of.

ghost use Rattle.std.specs.Prelude.{◌≡◌};
ghost use Rattle.std.specs.IoError.{error_kind};
ghost use Rattle.tosraem.specs.Troubles.{report_trouble_of};

use bucket_core::{Sink, WriteAnswer};
use run_messages::{ToldList, told_in};
use std::alloc::Global;
use std::io::{Error, ErrorKind, Write};

/// Why standard output failed.
#[derive(Clone, Copy, Debug, PartialEq, Eq)]
pub(crate) enum ReportTrouble {
    /// Nobody reads it any more.
    ReaderGone,
    /// There is no room left for it.
    Full,
    /// Anything else.
    Other,
}

impl ReportTrouble {
    #[tactic(auto, unfolding(crate::specs::Troubles::report_trouble_of))]
    fn of(error: &Error) -> ReportTrouble
        ensures { result ≡ report_trouble_of (error_kind error.now) }
    {
        match error.kind() {
            ErrorKind::BrokenPipe => ReportTrouble::ReaderGone,
            ErrorKind::StorageFull | ErrorKind::QuotaExceeded => ReportTrouble::Full,
            _ => ReportTrouble::Other,
        }
    }
}

/// A sink over a writer, such as standard output. It does not tell what was written.
///
/// A writer that takes nothing of a piece has failed. The first piece is taken for the whole report, as a call offers it so.
#[derive(Drop)]
pub(crate) struct ReportSink<W: Write + Drop> {
    alloc: Global,
    writer: W,
    faults: u64,
    trouble: Option<ReportTrouble>,
    told: Option<ToldList>,
}

impl<W: Write + Drop> ReportSink<W> {
    ghost use Rattle.std.specs.Prelude.{◌≡◌, None, is_none, false, IfSome, option_copied};
    ghost use Rattle.script_fields.specs.Fields.{lines_of};
    ghost use Rattle.run_messages.specs.Told.{told_by};

    /// A sink before the writer, which has not failed yet.
    pub(crate) fn new(alloc: Global, writer: W) -> Self
        ensures calm { (result.faults ≡ 0) × (result.trouble ≡ None) }
        ensures unheard { result.told ≡ None }
    {
        ReportSink {
            alloc,
            writer,
            faults: 0,
            trouble: None,
            told: None,
        }
    }

    /// The lines of the report that tell of failures, where it was offered and there was memory for them.
    pub(crate) fn told(&self) -> Option<&ToldList>
        ensures { option_copied result ≡ self.now.told }
    {
        self.told.as_ref()
    }

    /// Takes note of a report, unless that was done.
    fn hear(&mut self, report: &[u8])
        ensures told { self.old.told ≡ None
            → IfSome self.new.told (λ told. told ≡ told_by 0 (lines_of report.now)) }
        ensures once { is_none self.old.told ≡ false → self.new.told ≡ self.old.told }
        ensures others { (self.new.faults ≡ self.old.faults) × (self.new.trouble ≡ self.old.trouble) }
    {
        if self.told.is_none() {
            self.told = told_in(self.alloc, report).ok();
        }
    }

    /// Why it failed last, if it did. A call writes nothing more behind a failure.
    pub(crate) fn trouble(&self) -> Option<ReportTrouble>
        ensures { result ≡ self.now.trouble }
    {
        self.trouble
    }
}

impl<W: Write + Drop> Sink for ReportSink<W> {
    ghost use Rattle.std.specs.Prelude.{◌≡◌, ◌≤◌, true, false, None, length, IfSome, IsSome};
    ghost use Rattle.bucket_core.specs.Causes.{CountsFaults, write_failed};
    ghost use Rattle.bucket_core.specs.Streams.{count_taken, TakesSome};
    ghost use Rattle.script_fields.specs.Fields.{lines_of};
    ghost use Rattle.run_messages.specs.Told.{told_by};

    ghost told = { λ s. record { written = None; faults = s.faults } };

    fn write(&mut self, bytes: &[u8]) -> WriteAnswer
        ensures fits { count_taken result ≤ length bytes.now }
        ensures some { TakesSome result bytes.now }
        ensures faults { CountsFaults self.old.faults self.new.faults (write_failed result) }

        // Why it failed is kept where it has, and of the first piece which failures it tells of.
        ensures trouble { write_failed result ≡ true → IsSome self.new.trouble }
        ensures calm { write_failed result ≡ false → self.new.trouble ≡ self.old.trouble }
        ensures told { self.old.told ≡ None
            → IfSome self.new.told (λ told. told ≡ told_by 0 (lines_of bytes.now)) }
    {
        self.hear(bytes);
        let trouble = match self.writer.write(bytes) {
            Ok(count) if count > 0 || bytes.is_empty() => return WriteAnswer::Took(count),
            Ok(_) => ReportTrouble::Full,
            Err(error) => ReportTrouble::of(&error),
        };
        self.faults = self.faults.saturating_add(1);
        self.trouble = Some(trouble);
        WriteAnswer::Failed
    }
}
