//! The series of the blocks that are merged, each block's in the order of their reduced labels.
ghost use Rattle.std.specs.Prelude.{◌≡◌, ℕ, List, [], IfOk};
ghost use Rattle.std.specs.List.Sorted.{IsStrictlyIncreasing};
ghost use Rattle.index_parts.specs.Opened.{Opened};
ghost use Rattle.index_parts.specs.IndexFile.{IsOpened, IsIndex, AreNumbersOf};
ghost use Rattle.index_parts.specs.declared.index_series.IndexSeries.{IndexSeries};
ghost use Rattle.index_v2.specs.Held.{IsReaderOf, whole_file};
ghost use Rattle.block_merging.specs.MergeSteps.{IsTest, AreTests, refused_input};
ghost use Rattle.block_merging.specs.Queues.{IsOpenedIndex, HasQueue, HasQueues};

use crate::MergeRefusal;
use crate::listing::ordered_places;
use crate::series_queue::{SeriesQueue, next_of, only_memory};
use base::NoMemory;
use block_content::{CheckRefusal, test_content};
use block_meta::BlockFiles;
use index_v2::IndexReader;
use label_sets::{LabelSet, TextList};
use std::alloc::Global;
use wire_bytes::NumberList;

/// Opens an index that was read before, so that only memory can be wanting.
fn open_again(alloc: Global, index: &[u8]) -> Result<IndexReader<'_>, NoMemory>
    requires { (opened : Opened) × (opened.bytes ≡ index.now) × IsOpened opened }
    ensures { (opened : Opened) → opened.bytes ≡ index.now → IsOpened opened
        → IfOk result (λ reader. reader ≡ whole_file opened) }
{
    match IndexReader::open(alloc, index) {
        Ok(reader) => Ok(reader),
        Err(refusal) => Err(only_memory(refusal)),
    }
}

/// The numbers of all series of an index that was read before.
fn all_numbers(alloc: Global, reader: &IndexReader<'_>) -> Result<NumberList, NoMemory>
    requires { (index : List ℕ) × (list : List IndexSeries) × (is : IsIndex index list)
        × (reader.now ≡ whole_file is.opened) }
    ensures rises { IfOk result IsStrictlyIncreasing }
    ensures agrees { (index : List ℕ) (list : List IndexSeries) (is : IsIndex index list)
        → IsReaderOf reader.now is.opened
        → IfOk result (λ numbers. AreNumbersOf is.listed [] [] numbers) }
{
    match reader.postings(alloc, "", "") {
        Ok(numbers) => Ok(numbers),
        Err(refusal) => Err(only_memory(refusal)),
    }
}

/// An index that was read before, and the numbers of its series in their order.
fn reader_and_numbers<'a>(
    alloc: Global,
    index: &'a [u8],
) -> Result<(IndexReader<'a>, NumberList), NoMemory>
    requires { (list : List IndexSeries) × IsIndex index.now list }
    ensures { (bytes : List ℕ) (list : List IndexSeries) (is : IsIndex bytes list)
        → bytes ≡ index.now
        → IfOk result (λ made. IsOpenedIndex is.opened is.listed made.0 made.1) }
{
    let reader = open_again(alloc, index)?;
    let numbers = all_numbers(alloc, &reader)?;
    Ok((reader, numbers))
}

/// The series of a block, if it holds something that can be read.
fn queue_of<'a>(
    alloc: Global,
    external: &LabelSet,
    replicas: &TextList,
    block: &'a BlockFiles,
) -> Result<SeriesQueue<'a>, CheckRefusal>
    ensures tested { IsTest block.now result }
    ensures has { IfOk result (HasQueue external.now replicas.now block.now) }
{
    let indexed = test_content(alloc, block)?;
    let (reader, numbers) = reader_and_numbers(alloc, block.index.bytes())?;
    let listed = numbers.members();
    let members = indexed.members();
    let places = ordered_places(alloc, external, replicas, listed, members)?;
    let (chunks, labels) = next_of(
        external,
        replicas,
        &reader,
        places.as_slice(),
        0,
        Vec::new(alloc),
        Vec::new(alloc),
    )?;
    Ok(SeriesQueue {
        block,
        reader,
        places,
        taken: 0,
        chunks,
        labels,
    })
}

fn refused_input(number: u32, cause: CheckRefusal) -> MergeRefusal
    ensures { result ≡ refused_input number cause }
{
    match cause {
        CheckRefusal::NoMemory => MergeRefusal::NoMemory,
        cause => MergeRefusal::Input(number, cause),
    }
}

/// The series of each block, if each holds something that can be read.
pub(crate) fn all_queues<'a>(
    alloc: Global,
    external: &LabelSet,
    replicas: &TextList,
    inputs: &'a [BlockFiles],
) -> Result<Vec<SeriesQueue<'a>>, MergeRefusal>
    ensures has { IfOk result
        (λ queues. HasQueues external.now replicas.now inputs.now queues.items) }
    ensures tested { AreTests inputs.now result }
{
    let mut queues = Vec::new(alloc);
    let mut number = 0u32;
    for block in inputs {
        match queue_of(alloc, external, replicas, block) {
            Ok(queue) => queues.push(queue)?,
            Err(cause) => return Err(refused_input(number, cause)),
        }
        number = number.saturating_add(1);
    }
    Ok(queues)
}
