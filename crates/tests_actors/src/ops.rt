//! The operations that rows name.
ghost use Rattle.std.specs.Prelude.{IfOk, ◌<◌, ◌^◌};
ghost use Rattle.block_keys.specs.Keys.{IsLawfulKey};
ghost use Rattle.world_core.specs.Operations.{IsLawful};

use crate::names::{Named, bytes_of};
use crate::says::{cut_at, limit_of, number_of};
use base::NoMemory;
use block_keys::Key;
use label_sets::Text;
use moment_core::Moment;
use std::alloc::Global;
use ulid_core::Ulid;
use wire_bytes::Blob;
use world_core::Op;

/// The operation of a word. One that is none is answered as want of memory is.
pub(crate) fn op_of(alloc: Global, objects: &[Named], word: &str) -> Result<Op, NoMemory>
    ensures { IfOk result IsLawful }
{
    let (kind, text) = cut_at(word, ':');
    let (first, text) = cut_at(text, ':');
    let (block, rest) = cut_at(text, ':');
    match kind {
        "put" => {
            let bytes = Blob::from_bytes(alloc, bytes_of(objects, rest))?;
            Ok(Op::Put(key_of(first, block), bytes))
        }
        "get" => Ok(Op::Get(key_of(first, block))),
        "range" => {
            let (from, len) = cut_at(rest, ':');
            let key = key_of(first, block);
            Ok(Op::GetRange(key, number_of(from), number_of(len)))
        }
        "delete" => Ok(Op::Delete(key_of(first, block))),
        "root" => {
            let after = Text::from_str(alloc, first)?;
            Ok(Op::RootPage(after, limit_of(block)))
        }
        "page" => {
            let after = Text::from_str(alloc, "")?;
            Ok(Op::BlockPage(ulid_of(first), after, limit_of(block)))
        }
        "clock" => Ok(Op::Clock(moment_of(first))),
        _ => Err(NoMemory),
    }
}

/// The block of a ULID, or the one of 1970 that a hexadecimal number tells.
pub(crate) fn ulid_of(name: &str) -> Ulid {
    match Ulid::read(name) {
        Ok(ulid) => ulid,
        Err(_) => Ulid::from_parts(0, u128::from(u8::from_str_radix(name, 16).unwrap_or(0))),
    }
}

fn key_of(kind: &str, block: &str) -> Key
    ensures { IsLawfulKey result }
{
    let ulid = ulid_of(block);
    match kind {
        "1" => Key::Segment(ulid, 1),
        "2" => Key::Segment(ulid, 2),
        "3" => Key::Segment(ulid, 3),
        "i" => Key::Index(ulid),
        "d" => Key::Mark(ulid),
        _ => Key::Meta(ulid),
    }
}

fn moment_of(text: &str) -> Moment
    ensures { result.ms < 2 ^ 47 }
{
    let ms = number_of(text);
    Moment {
        ms: if ms < 0x8000_0000_0000 { ms } else { 0 },
    }
}
