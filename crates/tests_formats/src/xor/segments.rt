use crate::says::{say, say_hex, show};
use chunk_files::{ChunkRefusal, SegmentWriter};

/// Prints the data of a chunk.
pub(crate) fn print_lent(rt: &HostRuntime, lent: Result<&[u8], ChunkRefusal>) {
    match lent {
        Ok(content) => say_hex(rt, content),
        Err(refusal) => show(rt, &refusal),
    }
}

/// Prints the segment that is written of the data of some chunks.
pub(crate) fn print_segment(rt: &HostRuntime, texts: &str) {
    let Ok(mut writer) = SegmentWriter::new(rt.alloc()) else {
        return say(rt, "no memory");
    };
    for text in texts.split(' ') {
        if let Ok(content) = hex::decode(rt.alloc(), text) {
            let _ = writer.append(&content);
        }
    }
    say_hex(rt, writer.finish().bytes());
}
