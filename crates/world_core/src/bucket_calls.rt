//! Operations as calls of a bucket. It is the one place where a world asks its bucket for anything, once for each
//! operation, with keys as texts.

ghost use Rattle.std.specs.Prelude.{◌≡◌, ◌↔◌, ◌≤◌, IfOk, IsTrue};
ghost use Rattle.block_keys.specs.Keys.{IsLawfulKey};
ghost use Rattle.ulid_core.specs.UlidText.{text_of};
ghost use Rattle.world_core.specs.Asking.{AsksIn};
ghost use Rattle.world_core.specs.Operations.{IsLawful};
ghost use Rattle.world_core.specs.Performing.{IsPerformed, put_reply, get_reply, delete_reply, page_reply};

use crate::{Op, Reply};
use base::NoMemory;
use block_keys::Key;
use bucket_core::{Bucket, DeleteAnswer, GetAnswer, PageAnswer, PutAnswer};
use label_sets::Text;
use std::alloc::Global;
use ulid_core::Ulid;
use wire_bytes::Blob;

/// Does an operation on a bucket. Setting the clock leaves the bucket alone.
pub(crate) fn perform<B: Bucket>(alloc: Global, bucket: &mut B, op: &Op) -> Result<Reply, NoMemory>
    requires { IsLawful op.now }
    ensures performed { IsPerformed B.told bucket.old op.now result bucket.new }
    ensures asks { AsksIn B.told bucket.old bucket.new op.now result }
{
    match op {
        Op::Clock(_) => Ok(Reply::Clocked),
        Op::Put(key, bytes) => put(alloc, bucket, *key, bytes),
        Op::Get(key) => get(alloc, bucket, *key),
        Op::GetRange(key, from, len) => get_range(alloc, bucket, *key, *from, *len),
        Op::Delete(key) => delete(alloc, bucket, *key),
        Op::RootPage(after, limit) => root_page(bucket, after, *limit),
        Op::BlockPage(ulid, after, limit) => block_page(alloc, bucket, *ulid, after, *limit),
    }
}

fn put<B: Bucket>(alloc: Global, bucket: &mut B, key: Key, bytes: &Blob) -> Result<Reply, NoMemory>
    requires { IsLawfulKey key }
    ensures performed { IsPerformed B.told bucket.old (Op.Put key bytes.now) result bucket.new }
    ensures asks { AsksIn B.told bucket.old bucket.new (Op.Put key bytes.now) result }
{
    let name = key.text(alloc)?;
    put_reply(bucket.put(name.as_str(), bytes))
}

fn get<B: Bucket>(alloc: Global, bucket: &mut B, key: Key) -> Result<Reply, NoMemory>
    requires { IsLawfulKey key }
    ensures performed { IsPerformed B.told bucket.old (Op.Get key) result bucket.new }
    ensures asks { AsksIn B.told bucket.old bucket.new (Op.Get key) result }
{
    let name = key.text(alloc)?;
    get_reply(bucket.get(name.as_str()))
}

fn get_range<B: Bucket>(
    alloc: Global,
    bucket: &mut B,
    key: Key,
    from: u64,
    len: u64,
) -> Result<Reply, NoMemory>
    requires { IsLawfulKey key }
    ensures performed { IsPerformed B.told bucket.old (Op.GetRange key from len) result bucket.new }
    ensures asks { AsksIn B.told bucket.old bucket.new (Op.GetRange key from len) result }
{
    let name = key.text(alloc)?;
    get_reply(bucket.get_range(name.as_str(), from, len))
}

fn delete<B: Bucket>(alloc: Global, bucket: &mut B, key: Key) -> Result<Reply, NoMemory>
    requires { IsLawfulKey key }
    ensures performed { IsPerformed B.told bucket.old (Op.Delete key) result bucket.new }
    ensures asks { AsksIn B.told bucket.old bucket.new (Op.Delete key) result }
{
    let name = key.text(alloc)?;
    delete_reply(bucket.delete(name.as_str()))
}

fn root_page<B: Bucket>(bucket: &mut B, after: &Text, limit: u32) -> Result<Reply, NoMemory>
    requires { 1 ≤ limit }
    ensures performed { IsPerformed B.told bucket.old (Op.RootPage after.now limit) result bucket.new }
    ensures asks { AsksIn B.told bucket.old bucket.new (Op.RootPage after.now limit) result }
{
    page_reply(bucket.page("", after.as_str(), limit))
}

fn block_page<B: Bucket>(
    alloc: Global,
    bucket: &mut B,
    ulid: Ulid,
    after: &Text,
    limit: u32,
) -> Result<Reply, NoMemory>
    requires { 1 ≤ limit }
    ensures performed { IsPerformed B.told bucket.old (Op.BlockPage ulid after.now limit) result bucket.new }
    ensures asks { AsksIn B.told bucket.old bucket.new (Op.BlockPage ulid after.now limit) result }
{
    let name = block_name(alloc, ulid)?;
    page_reply(bucket.page(name.as_str(), after.as_str(), limit))
}

/// The text of a block's ULID.
fn block_name(alloc: Global, ulid: Ulid) -> Result<Text, NoMemory>
    ensures { IfOk result (λ text. text ≡ text_of ulid) }
{
    Ok(Text::from_string(ulid.to_string(alloc)?))
}

fn put_reply(answer: PutAnswer) -> Result<Reply, NoMemory>
    ensures { result ≡ put_reply answer }
{
    match answer {
        PutAnswer::Stored => Ok(Reply::Stored),
        PutAnswer::Failed(landed) => Ok(Reply::Failed(landed)),
        PutAnswer::NoMemory => Err(NoMemory),
    }
}

fn get_reply(answer: GetAnswer) -> Result<Reply, NoMemory>
    ensures { result ≡ get_reply answer }
{
    match answer {
        GetAnswer::Found(bytes) => Ok(Reply::Found(bytes)),
        GetAnswer::Absent => Ok(Reply::Absent),
        GetAnswer::Failed => Ok(Reply::Failed(false)),
        GetAnswer::NoMemory => Err(NoMemory),
    }
}

fn delete_reply(answer: DeleteAnswer) -> Result<Reply, NoMemory>
    ensures { result ≡ delete_reply answer }
{
    match answer {
        DeleteAnswer::Deleted => Ok(Reply::Deleted),
        DeleteAnswer::Failed(landed) => Ok(Reply::Failed(landed)),
    }
}

fn page_reply(answer: PageAnswer) -> Result<Reply, NoMemory>
    ensures { result ≡ page_reply answer }
{
    match answer {
        PageAnswer::Names(names) => Ok(Reply::Names(names)),
        PageAnswer::Failed => Ok(Reply::Failed(false)),
        PageAnswer::NoMemory => Err(NoMemory),
    }
}
