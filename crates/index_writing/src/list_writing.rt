//! The sections of an index that are lists: symbols, postings, the postings table, and the label indices with their
//! table. These last two no reader of this repository asks for; an index of Prometheus has them.

ghost use Rattle.std.specs.Prelude.{◌≡◌, ◌++◌, ◌-◌, ◌<◌, ◌^◌, length, zip, List, ℕ, IfOk, OnOk, OnErr};
ghost use Rattle.std.specs.Int.{w32, to_be_bytes};
ghost use Rattle.std.specs.List.{All, AllByRecursion, flat_map};
ghost use Rattle.std.specs.Str.{IsUtf8};
ghost use Rattle.std.specs.Ordering.{nat_cmp};
ghost use Rattle.base.specs.Order.{ComesAfter};
ghost use Rattle.label_sets.specs.Labels.{compare_texts};
ghost use Rattle.index_parts.specs.Turns.{InOrder};
ghost use Rattle.index_parts.specs.Framed.{IsSection, text_field};
ghost use Rattle.index_parts.specs.Lists.{list_content, list_text};
ghost use Rattle.index_parts.specs.Symbols.{IsSymbols, symbols_text};
ghost use Rattle.index_parts.specs.Postings.{IsPostings, postings_text};
ghost use Rattle.index_parts.specs.LabelIndices.{IsLabelIndex, IsLabelOffsets, label_index_content, label_index_text, offset_text, label_offsets_text};
ghost use Rattle.index_parts.specs.Rows.{MayComeAfter, IsPostingsTable, row_text, postings_table_text};

use crate::section_writing::{append_section, put_text};
use base::NoMemory;
use index_parts::{PostingsRow, PostingsRowList, ROW_KIND};
use label_sets::{Text, TextList};
use std::alloc::Global;
use wire_bytes::{NumberList, put_u8, put_u32, put_uvarint};

/// What a row of the table of label indices begins with.
const OFFSET_KIND: u8 = 1;

/// What may stand in a list.
trait Member {
    ghost use Rattle.std.specs.Prelude.{◌≡◌, ◌++◌, List, ℕ, OnOk};

    /// What is written of a member.
    ghost text: { Self → List ℕ };

    /// What has to hold of a member that is to be written.
    ghost can: { Self → Type 0 };

    /// What holds of a member that was written.
    ghost fits: { Self → Type 0 };

    fn put(&self, out: &mut Vec<u8>) -> Result<(), NoMemory>
        requires { can self.now }
        ensures ok { OnOk result (out.new.items ≡ out.old.items ++ text self.now) }
        ensures fits { OnOk result (fits self.now) };
}

impl Member for Text {
    ghost use Rattle.std.specs.Str.{IsUtf8};
    ghost use Rattle.index_parts.specs.Framed.{text_field};

    ghost text = { text_field };

    ghost can = { λ _. Unit {0} };

    ghost fits = { IsUtf8 };

    fn put(&self, out: &mut Vec<u8>) -> Result<(), NoMemory> {
        put_text(out, self)
    }
}

impl Member for u64 {
    ghost use Rattle.std.specs.Prelude.{◌<◌, ◌^◌};
    ghost use Rattle.std.specs.Int.{w32, to_be_bytes};

    ghost text = { to_be_bytes w32 };

    ghost can = { λ number. number < 2 ^ 32 };

    ghost fits = { λ number. number < 2 ^ 32 };

    fn put(&self, out: &mut Vec<u8>) -> Result<(), NoMemory> {
        put_u32(out, *self as u32)
    }
}

impl Member for PostingsRow {
    ghost use Rattle.index_parts.specs.Rows.{IsWritable, row_text};

    ghost text = { row_text };

    ghost can = { λ _. Unit {0} };

    ghost fits = { IsWritable };

    fn put(&self, out: &mut Vec<u8>) -> Result<(), NoMemory> {
        put_u8(out, ROW_KIND)?;
        put_text(out, &self.name)?;
        put_text(out, &self.value)?;
        put_uvarint(out, self.offset)
    }
}

/// Appends the content of a list's section.
fn put_list<T: Member>(content: &mut Vec<u8>, members: &[T]) -> Result<(), NoMemory>
    requires count { length members.now < 2 ^ 32 }
    requires can { All T.can members.now }
    ensures ok { OnOk result
        (content.new.items ≡ content.old.items ++ list_content T.text members.now) }
    ensures fit { OnOk result (AllByRecursion T.fits members.now) }
{
    put_u32(content, members.len() as u32)?;
    for member in members {
        member.put(content)?;
    }
    Ok(())
}

/// Appends a list, with room for `size` bytes of content made at once.
fn write_list<T: Member>(out: &mut Vec<u8>, members: &[T], size: usize) -> Result<(), NoMemory>
    requires count { length members.now < 2 ^ 32 }
    requires size { length (list_content T.text members.now) < 2 ^ 32 }
    requires can { All T.can members.now }
    ensures ok { OnOk result (out.new.items ≡ out.old.items ++ list_text T.text members.now) }
    ensures err { OnErr result (out.new.items ≡ out.old.items) }
    ensures fit { OnOk result (AllByRecursion T.fits members.now) }
    ensures stands { (after : List ℕ) → OnOk result (IsSection (out.new.items ++ after)
        (length out.old.items) (list_content T.text members.now)) }
{
    let mut content = Vec::with_capacity(*out.allocator(), size)?;
    put_list(&mut content, members)?;
    append_section(out, content.as_slice())
}

/// Appends a symbol table.
pub fn write_symbols(out: &mut Vec<u8>, symbols: &TextList) -> Result<(), NoMemory>
    requires { length (list_content text_field symbols.now) < 2 ^ 32 }
    ensures ok { OnOk result (out.new.items ≡ out.old.items ++ symbols_text symbols.now) }
    ensures err { OnErr result (out.new.items ≡ out.old.items) }

    // Symbols in order stand where they were written, whatever is appended after them.
    ensures stands { InOrder (ComesAfter compare_texts) symbols.now → (after : List ℕ)
        → OnOk result (IsSymbols (out.new.items ++ after) (length out.old.items) symbols.now) }
{
    write_list(out, symbols.members(), 0)
}

/// How many bytes so many numbers take behind so many counts.
fn size_of_numbers(numbers: usize, counts: usize) -> usize {
    numbers.saturating_add(counts).saturating_mul(4)
}

/// Appends a postings list.
pub fn write_postings(out: &mut Vec<u8>, numbers: &NumberList) -> Result<(), NoMemory>
    requires count { length numbers.now < 2 ^ 30 - 1 }
    requires numbers { All (λ number. number < 2 ^ 32) numbers.now }
    ensures ok { OnOk result (out.new.items ≡ out.old.items ++ postings_text numbers.now) }
    ensures err { OnErr result (out.new.items ≡ out.old.items) }

    // Numbers that rise stand where they were written, whatever is appended after them.
    ensures stands { InOrder (ComesAfter nat_cmp) numbers.now → (after : List ℕ)
        → OnOk result (IsPostings (out.new.items ++ after) (length out.old.items) numbers.now) }
{
    write_list(out, numbers.members(), size_of_numbers(numbers.len(), 1))
}

fn values_content(alloc: Global, values: &[u64]) -> Result<Vec<u8>, NoMemory>
    requires count { length values.now < 2 ^ 32 }
    requires numbers { All (λ number. number < 2 ^ 32) values.now }
    ensures { IfOk result (λ content. content.items ≡ label_index_content values.now) }
{
    let mut content = Vec::with_capacity(alloc, size_of_numbers(values.len(), 2))?;
    put_u32(&mut content, 1)?;
    put_list(&mut content, values)?;
    Ok(content)
}

/// Appends a label index: the symbol numbers of one name's values.
pub fn write_label_index(out: &mut Vec<u8>, values: &NumberList) -> Result<(), NoMemory>
    requires count { length values.now < 2 ^ 30 - 2 }
    requires numbers { All (λ number. number < 2 ^ 32) values.now }
    ensures ok { OnOk result (out.new.items ≡ out.old.items ++ label_index_text values.now) }
    ensures err { OnErr result (out.new.items ≡ out.old.items) }

    // The values stand where they were written, whatever is appended after them.
    ensures stands { (after : List ℕ)
        → OnOk result (IsLabelIndex (out.new.items ++ after) (length out.old.items) values.now) }
{
    let content = values_content(*out.allocator(), values.members())?;
    append_section(out, content.as_slice())
}

fn put_offset(out: &mut Vec<u8>, name: &Text, offset: u64) -> Result<(), NoMemory>
    ensures ok { OnOk result (out.new.items ≡ out.old.items ++ offset_text (name.now, offset)) }
    ensures fits { OnOk result (IsUtf8 name.now × (offset < 2 ^ 64)) }
{
    put_u8(out, OFFSET_KIND)?;
    put_text(out, name)?;
    put_uvarint(out, offset)
}

/// Appends a postings table.
pub fn write_postings_table(out: &mut Vec<u8>, rows: &PostingsRowList) -> Result<(), NoMemory>
    requires { length (list_content row_text rows.now) < 2 ^ 32 }
    ensures ok { OnOk result (out.new.items ≡ out.old.items ++ postings_table_text rows.now) }
    ensures err { OnErr result (out.new.items ≡ out.old.items) }

    // Rows in order stand where they were written, whatever is appended after them.
    ensures stands { InOrder MayComeAfter rows.now → (after : List ℕ)
        → OnOk result (IsPostingsTable (out.new.items ++ after) (length out.old.items) rows.now) }
{
    write_list(out, rows.members(), 0)
}

fn put_offsets(out: &mut Vec<u8>, names: &[Text], offsets: &[u64]) -> Result<(), NoMemory>
    ensures ok { OnOk result
        (out.new.items ≡ out.old.items ++ flat_map offset_text (zip names.now offsets.now)) }
    ensures fit { OnOk result (AllByRecursion (λ row. IsUtf8 row.0 × (row.1 < 2 ^ 64))
        (zip names.now offsets.now)) }
{
    for (name, offset) in names.iter().zip(offsets) {
        put_offset(out, name, *offset)?;
    }
    Ok(())
}

fn offsets_content(alloc: Global, names: &[Text], offsets: &[u64]) -> Result<Vec<u8>, NoMemory>
    requires { length names.now < 2 ^ 32 }
    ensures ok { IfOk result (λ content. content.items
        ≡ to_be_bytes w32 (length names.now) ++ flat_map offset_text (zip names.now offsets.now)) }
    ensures fit { OnOk result (AllByRecursion (λ row. IsUtf8 row.0 × (row.1 < 2 ^ 64))
        (zip names.now offsets.now)) }
{
    let mut content = Vec::new(alloc);
    put_u32(&mut content, names.len() as u32)?;
    put_offsets(&mut content, names, offsets)?;
    Ok(content)
}

/// Appends the table of label indices: for each name the place of its label index.
pub fn write_label_offsets(
    out: &mut Vec<u8>,
    names: &TextList,
    offsets: &NumberList,
) -> Result<(), NoMemory>
    requires as_many { length names.now ≡ length offsets.now }
    requires size { length (list_content offset_text (zip names.now offsets.now)) < 2 ^ 32 }
    ensures ok { OnOk result
        (out.new.items ≡ out.old.items ++ label_offsets_text (zip names.now offsets.now)) }
    ensures err { OnErr result (out.new.items ≡ out.old.items) }

    // The rows stand where they were written, whatever is appended after them.
    ensures stands { (after : List ℕ)
        → OnOk result (IsLabelOffsets (out.new.items ++ after) (length out.old.items)
        (zip names.now offsets.now)) }
{
    let content = offsets_content(*out.allocator(), names.members(), offsets.members())?;
    append_section(out, content.as_slice())
}
