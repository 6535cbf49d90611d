//! The notation of series to be written: `LABELS CHUNK CHUNK; LABELS CHUNK`, with chunks in the notation of `chunk_notation`.
//! `+COUNT` right behind labels is one more, `a`, whose value is so many letters.
use crate::indexes::chunk_notation::chunks_of;
use crate::says::{cut, show};
use index_writing::{IndexWriter, are_in_order};
use label_sets::LabelSet;
use std::alloc::Global;
use std::str;

/// Puts the index that is written of series in the place of another. A text that is no series, and one that may not stand behind
/// those before it, is passed over.
pub(crate) fn write(rt: &HostRuntime, index: &mut Vec<u8>, text: &str) {
    let mut writer = IndexWriter::new(rt.alloc());
    for series in text.split("; ") {
        add(rt.alloc(), &mut writer, series);
    }
    match writer.finish() {
        Ok(bytes) => {
            index.clear();
            let _ = index.extend_from_slice(bytes.bytes());
        }
        Err(refusal) => show(rt, &refusal),
    }
}

fn add(alloc: Global, writer: &mut IndexWriter, text: &str) {
    let Ok((mut labels, end)) = LabelSet::read(alloc, text) else {
        return;
    };
    let (long, chunks) = cut(&text[end..]);
    if let Some(count) = long.strip_prefix('+') {
        if let Ok(value) = vec![in alloc; b'x'; count.parse().unwrap_or(0)] {
            let _ = labels.add("a", str::from_utf8(value.as_slice()).unwrap_or(""));
        }
    }
    let chunks = chunks_of(alloc, chunks);
    if writer.may_add(&labels) && are_in_order(chunks.members()) {
        let _ = writer.add(labels, &chunks);
    } else {
        drop(labels);
    }
}
