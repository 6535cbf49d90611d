ghost use Rattle.std.specs.Prelude.{◌<◌, ◌≤◌};
ghost use Rattle.index_parts.specs.Contents.{contents_size};

use index_parts::Toc;

/// Where the sections of an index stand, and how many bytes it has.
#[derive(Clone, Copy)]
pub struct Sections {
    pub toc: Toc,
    pub size: u64,
    ghost long: { contents_size ≤ size },
    ghost symbols: { 0 < toc.symbols },
    ghost table: { 0 < toc.postings_table },
}
