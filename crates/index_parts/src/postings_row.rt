use base::{List, NoMemory, TryCopy};
use label_sets::Text;

/// A row of the postings table: a label, and where its list of series stands.
#[derive(Debug, Drop)]
pub struct PostingsRow {
    pub name: Text,
    pub value: Text,
    pub offset: u64,
}

impl TryCopy for PostingsRow {
    fn copy(&self) -> Result<Self, NoMemory> {
        Ok(PostingsRow {
            name: self.name.copy()?,
            value: self.value.copy()?,
            offset: self.offset,
        })
    }
}

/// What a row of the postings table begins with.
pub const ROW_KIND: u8 = 2;

/// A list of such rows.
pub type PostingsRowList = List<PostingsRow>;
