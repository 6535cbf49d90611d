//! The files of blocks that were read.
ghost use Rattle.std.specs.Prelude.{◌≡◌, ◌≤◌, List, length, [], ◌∷◌, ◌++◌, IfOk, OnOk};
ghost use Rattle.std.specs.List.{AllByRecursion};
ghost use Rattle.base.specs.Grammar.{IsBytes};
ghost use Rattle.compactor.specs.Inputs.{IsInput, HasFew};
ghost use Rattle.compactor.specs.InputFiles.{numbers_of, AreFiles, AreSegments};
ghost use Rattle.compactor.specs.declared.input.Input.{Input};

use crate::input::{Input, InputList, Read, ReadList};
use base::{List, NoMemory};
use block_meta::{BlobList, BlockFiles};
use std::alloc::Global;
use wire_bytes::NumberList;

/// The numbers of the entries at which a block's objects were read.
#[derive(Drop)]
pub(crate) struct Numbers {
    pub(crate) index: u64,
    pub(crate) segments: NumberList,
}

/// Blocks' files, and the numbers of the entries at which they were read.
#[derive(Drop)]
pub(crate) struct InputFiles {
    pub(crate) blocks: List<BlockFiles>,
    pub(crate) numbers: List<Numbers>,
}

/// Puts the files of each block together.
pub(crate) fn all_files(alloc: Global, inputs: InputList) -> Result<InputFiles, NoMemory>
    requires few { AllByRecursion HasFew inputs }
    ensures { IfOk result (λ made. AreFiles inputs made.blocks made.numbers) }
{
    let mut blocks = List::new(alloc);
    let mut numbers = List::new(alloc);
    for input in inputs.into_vec() {
        add_input(alloc, &mut blocks, &mut numbers, input)?;
    }
    Ok(InputFiles { blocks, numbers })
}

/// Adds the files of one more block.
fn add_input(
    alloc: Global,
    blocks: &mut List<BlockFiles>,
    numbers: &mut List<Numbers>,
    input: Input,
) -> Result<(), NoMemory>
    requires few { HasFew input }
    ensures { OnOk result ((inputs : List Input) → AreFiles inputs blocks.old numbers.old
        → AreFiles (inputs ++ input ∷ []) blocks.new numbers.new) }
{
    let (files, read) = files_of(alloc, input)?;
    blocks.push(files)?;
    numbers.push(read)?;
    Ok(())
}

/// The files of a block, and the numbers of the entries at which they were read.
fn files_of(alloc: Global, input: Input) -> Result<(BlockFiles, Numbers), NoMemory>
    requires few { HasFew input }
    ensures files { IfOk result (λ made. IsInput input made.0) }
    ensures numbers { IfOk result (λ made. made.1 ≡ numbers_of input) }
{
    let Input {
        meta,
        index,
        segments,
    } = input;
    let (files, entries) = segment_files(alloc, segments)?;
    let index = file_of(index);
    Ok((
        BlockFiles {
            meta,
            index: index.bytes,
            segments: files,
        },
        Numbers {
            index: index.number,
            segments: entries,
        },
    ))
}

/// An object that was read. Its content is bytes.
fn file_of(read: Read) -> Read
    ensures same { result ≡ read }
    ensures bytes { IsBytes read.bytes }
{
    let _length = length_of(read.bytes.bytes());
    read
}

fn length_of(bytes: &[u8]) -> usize
    ensures value { result ≡ length bytes.now }
    ensures bytes { IsBytes bytes.now }
{
    bytes.len()
}

/// The segments of a block, and the numbers of the entries at which they were read.
fn segment_files(alloc: Global, segments: ReadList) -> Result<(BlobList, NumberList), NoMemory>
    ensures { IfOk result (λ made. AreSegments segments made.0 made.1) }
{
    let mut files = BlobList::new(alloc);
    let mut entries = NumberList::new(alloc);
    for segment in segments.into_vec() {
        add_segment(&mut files, &mut entries, segment)?;
    }
    Ok((files, entries))
}

/// Adds one more segment.
fn add_segment(
    files: &mut BlobList,
    entries: &mut NumberList,
    segment: Read,
) -> Result<(), NoMemory>
    ensures added { OnOk result (files.new ≡ files.old ++ segment.bytes ∷ []) }
    ensures numbered { OnOk result (entries.new ≡ entries.old ++ segment.number ∷ []) }
    ensures bytes { IsBytes segment.bytes }
{
    let file = file_of(segment);
    files.push(file.bytes)?;
    entries.push(file.number)?;
    Ok(())
}
