use index_parts::Toc;

/// Parts of an index that is not there whole: its table of contents, how many bytes it has, and its symbols, its postings table
/// and its postings lists, each from its reference in the table of contents on, as far as the slice goes. The number of bytes
/// is for whoever fetches further parts: a reader does not ask it.
#[derive(Clone, Copy)]
pub struct IndexParts<'a> {
    pub toc: Toc,
    pub size: u64,
    pub symbols: &'a [u8],
    pub table: &'a [u8],
    pub postings: &'a [u8],
}
