//! The replies that rows write out.
use crate::names::{Named, bytes_of, text_of};
use crate::says::{cut_at, number_of};
use base::NoMemory;
use label_sets::{Text, TextList};
use std::alloc::Global;
use wire_bytes::Blob;
use world_core::Reply;

/// What answers an operation.
#[derive(Drop)]
pub(crate) enum Answer {
    /// What the world does.
    World,
    /// A reply that is written out, at that millisecond.
    Told(u64, Reply),
}

/// The answer of a word, at the millisecond behind `@`, or else at this one. One that is none is answered as want of memory is.
pub(crate) fn answer_of(
    alloc: Global,
    objects: &[Named],
    ms: &str,
    word: &str,
) -> Result<Answer, NoMemory> {
    let (word, ms) = word.split_once('@').unwrap_or((word, ms));
    if word == "world" {
        return Ok(Answer::World);
    }
    Ok(Answer::Told(number_of(ms), reply_of(alloc, objects, word)?))
}

fn reply_of(alloc: Global, objects: &[Named], word: &str) -> Result<Reply, NoMemory> {
    let (word, name) = cut_at(word, ':');
    match word {
        "absent" => Ok(Reply::Absent),
        "stored" => Ok(Reply::Stored),
        "deleted" => Ok(Reply::Deleted),
        "failed" => Ok(Reply::Failed(false)),
        "landed" => Ok(Reply::Failed(true)),
        "names" => Ok(Reply::Names(names_in(alloc, text_of(objects, name)))),
        "many" => Ok(Reply::Names(many_names(alloc, name.parse().unwrap_or(0)))),
        "found" => Ok(Reply::Found(Blob::from_bytes(alloc, bytes_of(objects, name))?)),
        _ => Err(NoMemory),
    }
}

/// The names of a text, each behind a comma.
fn names_in(alloc: Global, text: &str) -> TextList {
    let mut names = TextList::new(alloc);
    if let Some(listed) = text.strip_prefix(',') {
        for name in listed.split(',') {
            if let Ok(name) = Text::from_str(alloc, name) {
                let _ = names.push(name);
            }
        }
    }
    names
}

/// So many names, which ascend.
fn many_names(alloc: Global, count: u32) -> TextList {
    let mut names = TextList::new(alloc);
    for number in 0..count {
        if let Ok(name) = u64::from(number)
            .saturating_add(10_000_000)
            .to_string(alloc)
        {
            let _ = names.push(Text::from_string(name));
        }
    }
    names
}
