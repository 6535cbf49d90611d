//! Standard input and output as a source and a sink. What a reader still has, and what became of what a writer took,
//! nobody knows, so they tell of failures alone.

use bucket_core::{ReadAnswer, Sink, Source, WriteAnswer};
use std::io::{Read, Write};

/// A source over any reader, such as standard input. It does not tell what it has left.
#[derive(Drop)]
pub struct ReaderSource<R: Read + Drop> {
    reader: R,
    faults: u64,
}

impl<R: Read + Drop> ReaderSource<R> {
    ghost use Rattle.std.specs.Prelude.{◌≡◌};

    /// A source of the reader's bytes, which has not failed yet.
    pub fn new(reader: R) -> Self
        ensures { result.faults ≡ 0 }
    {
        ReaderSource { reader, faults: 0 }
    }
}

impl<R: Read + Drop> Source for ReaderSource<R> {
    ghost use Rattle.std.specs.Prelude.{None};

    ghost told = { λ s. record { left = None; faults = s.faults } };

    fn read(&mut self, into: &mut [u8]) -> ReadAnswer {
        match self.reader.read(into) {
            Ok(count) => ReadAnswer::Got(count),
            Err(_) => {
                self.faults = self.faults.saturating_add(1);
                ReadAnswer::Failed
            }
        }
    }
}

/// A sink over any writer, such as standard output. It does not tell what was written.
///
/// A writer that takes nothing of a piece has failed.
#[derive(Drop)]
pub struct WriterSink<W: Write + Drop> {
    writer: W,
    faults: u64,
}

impl<W: Write + Drop> WriterSink<W> {
    ghost use Rattle.std.specs.Prelude.{◌≡◌};

    /// A sink before the writer, which has not failed yet.
    pub fn new(writer: W) -> Self
        ensures { result.faults ≡ 0 }
    {
        WriterSink { writer, faults: 0 }
    }
}

impl<W: Write + Drop> Sink for WriterSink<W> {
    ghost use Rattle.std.specs.Prelude.{None};

    ghost told = { λ s. record { written = None; faults = s.faults } };

    fn write(&mut self, bytes: &[u8]) -> WriteAnswer {
        match self.writer.write(bytes) {
            Ok(count) if count > 0 || bytes.is_empty() => WriteAnswer::Took(count),
            _ => {
                self.faults = self.faults.saturating_add(1);
                WriteAnswer::Failed
            }
        }
    }
}
