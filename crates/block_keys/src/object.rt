use crate::Key;
use base::{List, NoMemory, TryCopy};
use wire_bytes::Blob;

/// What stands under a key.
#[derive(Drop)]
pub struct Object {
    pub key: Key,
    pub bytes: Blob,
}

impl TryCopy for Object {
    fn copy(&self) -> Result<Self, NoMemory> {
        Ok(Object {
            key: self.key,
            bytes: self.bytes.copy()?,
        })
    }
}

/// A list of objects.
pub type ObjectList = List<Object>;
