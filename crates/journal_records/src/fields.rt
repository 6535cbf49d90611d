//! Reads the fields of which entries consist: bytes, texts, keys, ULIDs and names.

ghost use Rattle.std.specs.Prelude.{◌≡◌, MatchResult, true, false, length};
ghost use Rattle.std.specs.Int.{from_be_bytes, w128};
ghost use Rattle.std.specs.Str.{is_utf8};
ghost use Rattle.block_keys.specs.KeyText.{key_of};
ghost use Rattle.base.specs.Members.{members_at};
ghost use Rattle.journal_records.specs.FieldReading.{MovesOn, blob_at, key_at, key_or, names_at, text_at, ulid_at};

use crate::RecordCause;
use crate::reader::Reader;
use block_keys::Key;
use label_sets::{Text, TextList};
use std::alloc::Global;
use ulid_core::{ENTROPY_COUNT, Ulid};
use wire_bytes::Blob;

/// The bytes behind their length.
#[tactic(auto, unfolding(crate::specs::FieldReading::blob_at))]
pub(crate) fn next_blob(reader: &mut Reader<'_>) -> Result<Blob, RecordCause>
    ensures { MovesOn RecordCause.NoMemory (λ blob. blob) reader.new result
        (blob_at reader.old) }
{
    let size = reader.next_u32()?;
    reader.next_part(size)
}

/// The text behind its length, which is lent.
#[tactic(auto, unfolding(crate::specs::FieldReading::text_at))]
fn lent_text<'a>(reader: &mut Reader<'a>) -> Result<&'a str, RecordCause>
    ensures { MovesOn RecordCause.NoMemory (λ text. text.now) reader.new result
        (text_at reader.old) }
{
    let size = reader.next_u32()?;
    let place = reader.place();
    let bytes = reader.next_bytes(size)?;
    text_of(bytes, place)
}

/// The bytes as a text, which is refused by its place.
#[tactic(auto, using(crate::proofs::Texts::utf8_tests))]
fn text_of(bytes: &[u8], place: u64) -> Result<&str, RecordCause>
    ensures { MatchResult result (λ text. (is_utf8 bytes.now ≡ true) × (text.now ≡ bytes.now))
        (λ e. (is_utf8 bytes.now ≡ false) × (e ≡ RecordCause.BadText place)) }
{
    match std::str::from_utf8(bytes) {
        Ok(text) => Ok(text),
        Err(_) => Err(RecordCause::BadText(place)),
    }
}

/// The text behind its length.
pub(crate) fn next_text(alloc: Global, reader: &mut Reader<'_>) -> Result<Text, RecordCause>
    ensures { MovesOn RecordCause.NoMemory (λ text. text) reader.new result
        (text_at reader.old) }
{
    let text = lent_text(reader)?;
    Ok(Text::from_str(alloc, text)?)
}

/// The key whose text stands behind its length.
#[tactic(auto, unfolding(crate::specs::FieldReading::key_at))]
pub(crate) fn next_key(reader: &mut Reader<'_>) -> Result<Key, RecordCause>
    ensures { MovesOn RecordCause.NoMemory (λ key. key) reader.new result
        (key_at reader.old) }
{
    let size = reader.next_u32()?;
    let place = reader.place();
    let bytes = reader.next_bytes(size)?;
    let text = text_of(bytes, place)?;
    key_of(text, place)
}

/// The key of a text, which is refused by its place.
fn key_of(text: &str, place: u64) -> Result<Key, RecordCause>
    ensures { result ≡ key_or (key_of text.now) (RecordCause.BadKey place) }
{
    match Key::read(text) {
        Ok(key) => Ok(key),
        Err(_) => Err(RecordCause::BadKey(place)),
    }
}

/// The ULID that sixteen bytes are the number of.
fn ulid_of(bytes: &[u8]) -> Ulid
    requires { length bytes.now ≡ 16 }
    ensures { result ≡ from_be_bytes w128 bytes.now }
{
    let number = u128::from_be_bytes(*bytes.as_array::<16>().unwrap());
    Ulid::from_parts((number >> 80) as u64, number % ENTROPY_COUNT)
}

/// The ULID that is next, a number of sixteen bytes.
#[tactic(auto, unfolding(wire_bytes::specs::Fields::bytes_at, wire_bytes::specs::Fields::number_at))]
pub(crate) fn next_ulid(reader: &mut Reader<'_>) -> Result<Ulid, RecordCause>
    ensures { MovesOn RecordCause.NoMemory (λ ulid. ulid) reader.new result
        (ulid_at reader.old) }
{
    let bytes = reader.next_bytes(16)?;
    Ok(ulid_of(bytes))
}

/// So many texts, each behind its length.
fn texts_of(alloc: Global, count: u32, reader: &mut Reader<'_>) -> Result<TextList, RecordCause>
    ensures { MovesOn RecordCause.NoMemory (λ texts. texts) reader.new result
        (members_at text_at count reader.old) }
{
    let mut texts = TextList::new(alloc);
    for _ in 0..count {
        let text = next_text(alloc, reader)?;
        texts.push(text)?;
    }
    Ok(texts)
}

/// Texts behind their count.
#[tactic(auto, unfolding(crate::specs::FieldReading::names_at))]
pub(crate) fn next_names(alloc: Global, reader: &mut Reader<'_>) -> Result<TextList, RecordCause>
    ensures { MovesOn RecordCause.NoMemory (λ names. names) reader.new result
        (names_at reader.old) }
{
    let count = reader.next_u32()?;
    texts_of(alloc, count, reader)
}
