//! A site, a shelf, a source and a sink in memory.
ghost use Rattle.std.specs.Prelude.{◌≡◌};
ghost use Rattle.bucket_core.specs.MemoryBucket.{faults_counted};

use crate::says::{cut, put, say, show};
use crate::setting::fails_of;
use bucket_core::{
    Bucket, FailList, File, FileList, MemoryBucket, MemoryShelf, MemorySink, MemorySite,
    MemorySource, PutAnswer, Shelf, ShelfAnswer, Sink, Site, Source,
};
use label_sets::Text;
use std::alloc::Global;
use std::str;
use wire_bytes::Blob;

/// Prints whether a site opens its shelf, and again, and its bucket, and again. One that `fails` opens nothing.
pub(crate) fn print_site(rt: &HostRuntime, text: &str) {
    let bucket = MemoryBucket::new(rt.alloc(), FailList::new(rt.alloc()));
    let shelf = MemoryShelf::new(rt.alloc(), FileList::new(rt.alloc()));
    let mut site = MemorySite::new(bucket, shelf, text == "fails");
    for name in ["one", "two"] {
        let opened = site.open_shelf(name);
        show(rt, &opened.is_ok());
        drop(opened);
    }
    for name in ["one", "two"] {
        show(rt, &opens_bucket(rt.alloc(), &mut site, name));
    }
    drop(site);
    say(rt, "");
}

/// Whether a site opens a bucket, which then stores an object.
fn opens_bucket(alloc: Global, site: &mut MemorySite, name: &str) -> bool {
    match site.open_bucket(name) {
        Ok(bucket) => stores(alloc, bucket),
        Err(_) => false,
    }
}

fn stores(alloc: Global, mut bucket: MemoryBucket) -> bool {
    let stored = match Blob::from_bytes(alloc, b"1") {
        Ok(bytes) => bucket.put("k", &bytes) == PutAnswer::Stored,
        Err(_) => false,
    };
    drop(bucket);
    stored
}

/// Prints what a shelf answers: FAIL NAME=TEXT,NAME=TEXT NAME..
pub(crate) fn print_shelf(rt: &HostRuntime, text: &str) {
    let (fail, rest) = cut(text);
    let (files, names) = cut(rest);
    let failing = fails_of(rt.alloc(), fail);
    let mut shelf = MemoryShelf::with_failing(rt.alloc(), files_of(rt.alloc(), files), failing);
    for name in names.split(' ') {
        print_file(rt, shelf.read(name));
    }
    drop(shelf);
    say(rt, "");
}

fn files_of(alloc: Global, text: &str) -> FileList {
    let mut files = FileList::new(alloc);
    for file in text.split(',') {
        let (name, bytes) = file.split_once('=').unwrap_or((file, ""));
        if let (Ok(name), Ok(bytes)) = (
            Text::from_str(alloc, name),
            Blob::from_bytes(alloc, bytes.as_bytes()),
        ) {
            let _ = files.push(File { name, bytes });
        }
    }
    files
}

fn print_file(rt: &HostRuntime, answer: ShelfAnswer) {
    match answer {
        ShelfAnswer::Found(bytes) => show(rt, &str::from_utf8(bytes.bytes()).unwrap_or("no text")),
        ShelfAnswer::Absent => put(rt, " absent"),
        ShelfAnswer::TooLarge => put(rt, " too large"),
        ShelfAnswer::Failed => put(rt, " failed"),
        ShelfAnswer::NoMemory => put(rt, " no memory"),
    }
}

/// Prints what a source gives of a text, three bytes at a time, where one of its calls fails: CALL TEXT.
pub(crate) fn print_source(rt: &HostRuntime, text: &str) {
    let (call, text) = cut(text);
    let Ok(bytes) = Blob::from_bytes(rt.alloc(), text.as_bytes()) else {
        return say(rt, " no memory");
    };
    let mut source = MemorySource::new(bytes, call.parse().ok());
    let mut buffer = [0u8; 3];
    for _ in 0..4u32 {
        let answer = source.read(&mut buffer);
        let _ = print!(rt; " {answer:?} {buffer:?}");
    }
    drop(source);
    say(rt, "");
}

/// Prints what a sink says of some pieces, where one of its calls fails, and what it took: CALL PIECE...
pub(crate) fn print_sink(rt: &HostRuntime, text: &str) {
    let (call, pieces) = cut(text);
    let mut sink = MemorySink::new(rt.alloc(), call.parse().ok());
    for piece in pieces.split(' ') {
        show(rt, &sink.write(piece.as_bytes()));
    }
    let taken = sink.bytes().unwrap_or(&[]);
    show(rt, &taken);
    drop(sink);
    say(rt, "");
}
