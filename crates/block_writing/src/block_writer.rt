//! A block that is written of chunk data as they are. A merge carries most chunks over without decoding them, so no
//! more is read of their data than how many samples they say that they have.

ghost use Rattle.std.specs.Prelude.{◌≡◌, ◌≢◌, ◌⊎◌, [], ◌∷◌, List, length, Err, IfOk, IfSome, OnOk, OnErr};
ghost use Rattle.std.specs.List.{AllByRecursion};
ghost use Rattle.base.specs.Grammar.{IsBytes};
ghost use Rattle.label_sets.specs.declared.sample.Sample.{Sample};
ghost use Rattle.wire_bytes.specs.Crc.{crc};
ghost use Rattle.xor_chunks.specs.Grammar.{IsText};
ghost use Rattle.xor_chunks.specs.Widths.{stored_filling};
ghost use Rattle.chunk_files.specs.Layout.{xor};
ghost use Rattle.block_writing.specs.Put.{IsStored, IsAfterChunks, IsAfterSeries, nothing_put, with_chunk, with_series};
ghost use Rattle.block_writing.specs.Files.{HaveNoIndex};
ghost use Rattle.block_writing.specs.Writing.{plan_fields};
ghost use Rattle.block_writing.specs.WrittenMeta.{IsWritten};

use crate::counts::Counts;
use crate::finishing::finish;
use crate::segments::append_chunk;
use base::NoMemory;
use block_meta::{BlockFiles, BlockPlan, BuildRefusal};
use chunk_files::SegmentWriter;
use index_parts::{ChunkList, ChunkPlace};
use index_writing::IndexWriter;
use label_sets::LabelSet;
use std::alloc::Global;
use std::marker::Model;
use std::mem::replace;
use wire_bytes::Cursor;

/// Writes a block of chunk data as they are, series by series. A contract sees what was put so far.
#[derive(Drop)]
pub struct BlockWriter {
    plan: BlockPlan,
    segments: Vec<SegmentWriter>,
    /// How many bytes the first segment begins with room for.
    room: usize,
    /// The series that are ended.
    index: IndexWriter,
    /// The places of the chunks whose series is not ended.
    chunks: Vec<ChunkPlace>,
    counts: Counts,
}

impl Model for BlockWriter {
    ghost use Rattle.block_writing.specs.Put.{Put};

    ghost Value = { Put };

    ghost use Rattle.block_writing.specs.Writing.{put_in, IsWriting};

    ghost view = { λ w. put_in w.plan w.segments.items w.index w.chunks.items w.counts };

    ghost invariant = { λ w. IsWriting w.plan w.segments.items w.index w.chunks.items w.counts };
}

/// How many samples chunk data say that they have.
fn count_of(bytes: &[u8]) -> u16
    requires { (samples : List Sample) × IsText stored_filling bytes.now samples }
    ensures { (samples : List Sample) → IsText stored_filling bytes.now samples
        → result ≡ length samples }
{
    let mut cursor = Cursor::new(bytes);
    cursor.take_u16().unwrap()
}

impl BlockWriter {
    /// A writer of a block without series.
    pub fn new(alloc: Global, plan: BlockPlan) -> BlockWriter
        ensures { result ≡ nothing_put (plan_fields plan) }
    {
        BlockWriter::with_room(alloc, plan, 0)
    }

    /// A writer of a block without series whose segments are thought to come to so many bytes: the first one begins with room
    /// for them, as far as a segment may have them.
    pub fn with_room(alloc: Global, plan: BlockPlan, room: usize) -> BlockWriter
        ensures { result ≡ nothing_put (plan_fields plan) }
    {
        BlockWriter {
            plan,
            segments: Vec::new(alloc),
            room,
            index: IndexWriter::new(alloc),
            chunks: Vec::new(alloc),
            counts: Counts::none(),
        }
    }

    /// Puts a chunk behind those of the series that is not ended. Its data are kept byte for byte. They have samples within
    /// the plan's times, the first of which is at `min` and the last at `max`, and begin after the chunk before them ends.
    pub fn chunk(&mut self, bytes: &[u8], min: i64, max: i64) -> Result<(), NoMemory>
        requires stored { IsStored self.old.plan
            (record { content = bytes.now; min = min; max = max }) }
        requires after { IsAfterChunks self.old.chunks min }
        ensures ok { (samples : List Sample) → IsText stored_filling bytes.now samples
            → OnOk result (self.new ≡ with_chunk self.old
            (record { content = bytes.now; min = min; max = max }) (length samples)) }
        ensures err { OnErr result (self.new ≡ self.old) }
    {
        self.put_chunk(bytes, None, min, max)
    }

    /// Puts a chunk as `chunk` does, whose sum is known: that of its encoding and its data.
    pub fn chunk_summed(
        &mut self,
        bytes: &[u8],
        sum: u32,
        min: i64,
        max: i64,
    ) -> Result<(), NoMemory>
        requires sum { sum ≡ crc (xor ∷ bytes.now) }
        requires stored { IsStored self.old.plan
            (record { content = bytes.now; min = min; max = max }) }
        requires after { IsAfterChunks self.old.chunks min }
        ensures ok { (samples : List Sample) → IsText stored_filling bytes.now samples
            → OnOk result (self.new ≡ with_chunk self.old
            (record { content = bytes.now; min = min; max = max }) (length samples)) }
        ensures err { OnErr result (self.new ≡ self.old) }
    {
        self.put_chunk(bytes, Some(sum), min, max)
    }

    fn put_chunk(
        &mut self,
        bytes: &[u8],
        sum: Option<u32>,
        min: i64,
        max: i64,
    ) -> Result<(), NoMemory>
        requires sum { IfSome sum (λ s. s ≡ crc (xor ∷ bytes.now)) }
        requires stored { IsStored self.old.plan
            (record { content = bytes.now; min = min; max = max }) }
        requires after { IsAfterChunks self.old.chunks min }
        ensures ok { (samples : List Sample) → IsText stored_filling bytes.now samples
            → OnOk result (self.new ≡ with_chunk self.old
            (record { content = bytes.now; min = min; max = max }) (length samples)) }
        ensures err { OnErr result (self.new ≡ self.old) }
    {
        self.chunks.reserve(1)?;
        let place = append_chunk(&mut self.segments, self.room, bytes, sum)?;
        self.chunks.push_reserved(ChunkPlace {
            min,
            max,
            segment: place.segment,
            offset: place.offset,
        });
        self.counts = self.counts.with_chunk(count_of(bytes));
        Ok(())
    }

    /// Ends a series, whose labels are kept: the chunks that were put since the one before it was ended are its own. Its labels
    /// are greater.
    pub fn series(&mut self, labels: LabelSet) -> Result<(), NoMemory>
        requires some { self.old.chunks ≢ [] }
        requires greater { IsAfterSeries self.old.series labels }
        ensures ok { OnOk result (self.new ≡ with_series self.old labels) }
        ensures err { OnErr result (self.new ≡ self.old) }
    {
        let alloc = *self.chunks.allocator();
        let chunks = ChunkList::from_vec(replace(&mut self.chunks, Vec::new(alloc)));
        let added = self.index.add(labels, &chunks);
        self.chunks = chunks.into_vec();
        added?;
        self.chunks.clear();
        self.counts = self.counts.with_series();
        Ok(())
    }

    /// The files of the series that were put. Each chunk belongs to one of them.
    pub fn finish(self) -> Result<BlockFiles, BuildRefusal>
        requires { self.chunks ≡ [] }
        ensures written { IfOk result (IsWritten self) }

        // The files are bytes, as all files are.
        ensures bytes { IfOk result (λ files. IsBytes files.index
            × AllByRecursion IsBytes files.segments) }

        // The index is too large exactly where the one of these series passes its greatest length, unless memory ran out.
        ensures too_large { result ≡ Err BuildRefusal.TooLarge → HaveNoIndex self.series }
        ensures refused { HaveNoIndex self.series
            → (result ≡ Err BuildRefusal.TooLarge) ⊎ (result ≡ Err BuildRefusal.NoMemory) }
    {
        finish(self.plan, self.segments, self.index, self.counts)
    }
}
