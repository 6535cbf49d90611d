use base::{List, NoMemory, TryCopy};
use label_sets::Text;
use wire_bytes::Blob;

/// A file under its name.
#[derive(Drop)]
pub struct File {
    pub name: Text,
    pub bytes: Blob,
}

impl TryCopy for File {
    fn copy(&self) -> Result<Self, NoMemory> {
        Ok(File {
            name: self.name.copy()?,
            bytes: self.bytes.copy()?,
        })
    }
}

/// A list of files.
pub type FileList = List<File>;
