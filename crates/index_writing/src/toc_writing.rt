ghost use Rattle.std.specs.Prelude.{◌≡◌, ◌++◌, ◌<◌, ◌^◌, IfOk, OnOk, OnErr};
ghost use Rattle.std.specs.List.{AllByRecursion};
ghost use Rattle.index_parts.specs.Contents.{IsToc, references_of, references_text, toc_text};

use crate::section_writing::append_summed;
use base::NoMemory;
use index_parts::Toc;
use std::alloc::Global;
use wire_bytes::put_u64;

#[tactic(auto, unfolding(index_parts::specs::Contents::references_text))]
fn references_content(alloc: Global, toc: &Toc) -> Result<Vec<u8>, NoMemory>
    ensures ok { IfOk result (λ content. content.items ≡ references_text toc.now) }
    ensures fit { OnOk result
        (AllByRecursion (λ number. number < 2 ^ 64) (references_of toc.now)) }
{
    let mut content = Vec::new(alloc);
    put_u64(&mut content, toc.symbols)?;
    put_u64(&mut content, toc.series)?;
    put_u64(&mut content, toc.label_indices)?;
    put_u64(&mut content, toc.label_offsets)?;
    put_u64(&mut content, toc.postings)?;
    put_u64(&mut content, toc.postings_table)?;
    Ok(content)
}

/// Appends the table of contents, with which an index ends.
#[tactic(auto, unfolding(index_parts::specs::Contents::toc_text))]
pub fn write_toc(out: &mut Vec<u8>, toc: &Toc) -> Result<(), NoMemory>
    ensures ok { OnOk result (out.new.items ≡ out.old.items ++ toc_text toc.now) }
    ensures err { OnErr result (out.new.items ≡ out.old.items) }

    // It stands at the end.
    ensures stands { OnOk result (IsToc out.new.items toc.now) }
{
    let content = references_content(*out.allocator(), toc)?;
    append_summed(out, content.as_slice())
}
