//! How much an index names, each text and each chunk counted as often as it is named. In a block that a server writes each chunk is
//! named once; places of a lawful index may all name one chunk, and its labels one text.
ghost use Rattle.std.specs.Prelude.{◌≡◌, ◌*◌, ◌&&◌, nat_le, sum_by, length};
ghost use Rattle.block_content.specs.Named.{counted, lent_bytes, text_bytes, chunk_share, text_share};

use index_v2::{LentLabel, LentSeries};

/// How many bytes of chunks may be named for each byte of the segments.
pub(crate) const CHUNK_SHARE: u64 = 8;

/// How many bytes of texts may be named for each byte of the index.
const TEXT_SHARE: u64 = 64;

/// How many bytes the texts of a label have.
fn label_bytes(label: &LentLabel<'_>) -> u64
    ensures { result ≡ counted (lent_bytes label.now) }
{
    (label.name.len() as u64).saturating_add(label.value.len() as u64)
}

/// How many bytes the texts of labels have.
fn text_bytes(labels: &[LentLabel<'_>]) -> u64
    ensures { result ≡ counted (sum_by lent_bytes labels.now) }
{
    let mut bytes = 0u64;
    for label in labels {
        bytes = bytes.saturating_add(label_bytes(label));
    }
    bytes
}

/// How many bytes the texts of all series' labels have.
fn named_texts(indexed: &[LentSeries<'_>]) -> u64
    ensures { result ≡ counted (sum_by text_bytes indexed.now) }
{
    let mut bytes = 0u64;
    for one in indexed {
        bytes = bytes.saturating_add(text_bytes(one.labels()));
    }
    bytes
}

/// Whether so many bytes of chunks are few for the segments' bytes, and the texts of these series for those of the index.
pub(crate) fn names_few(
    index: &[u8],
    segment_bytes: u64,
    chunk_bytes: u64,
    indexed: &[LentSeries<'_>],
) -> bool
    ensures { result ≡ (nat_le chunk_bytes (counted (chunk_share * segment_bytes))
        && nat_le (counted (sum_by text_bytes indexed.now))
        (counted (text_share * length index.now))) }
{
    chunk_bytes <= segment_bytes.saturating_mul(CHUNK_SHARE)
        && named_texts(indexed) <= (index.len() as u64).saturating_mul(TEXT_SHARE)
}
