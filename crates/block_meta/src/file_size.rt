ghost use Rattle.std.specs.Prelude.{◌≡◌, ◌<◌, ◌^◌};

use crate::MetaRefusal;
use crate::item::Item;
use crate::json_values::{count, needed_member, text, wrong_kind};
use base::{List, NoMemory, TryCopy};
use label_sets::Text;
use serde_json::{Map, Value, put};
use std::alloc::{AllocError, Global};

/// One of a block's files.
#[derive(Debug, PartialEq, Eq, Drop)]
pub struct FileSize {
    /// The path below the block's folder, as `chunks/000001`.
    pub path: Text,
    pub bytes: u64,
}

impl TryCopy for FileSize {
    fn copy(&self) -> Result<Self, NoMemory> {
        Ok(FileSize {
            path: self.path.copy()?,
            bytes: self.bytes,
        })
    }
}

/// Files in the order in which a meta lists them.
pub type FileSizeList = List<FileSize>;

impl Item for FileSize {
    ghost use Rattle.block_meta.specs.MetaReading.{file_of};
    ghost use Rattle.block_meta.specs.MetaValue.{file_value};

    ghost reads = { file_of };

    ghost written = { file_value };

    ghost fits = { λ file. file.bytes < 2 ^ 64 };

    #[tactic(auto, unfolding(crate::specs::MetaReading::file_of, crate::specs::Members::of_kind))]
    fn read(alloc: Global, value: &Value, list: &str) -> Result<Self, MetaRefusal> {
        if !value.is_object() {
            return Err(wrong_kind(alloc, list));
        }
        Ok(FileSize {
            path: text(alloc, needed_member(alloc, value, "rel_path")?, "rel_path")?,
            bytes: count(alloc, value, "size_bytes")?,
        })
    }

    #[tactic(auto, unfolding(crate::specs::MetaValue::file_value), using(crate::proofs::Again::file_again))]
    fn write(&self, alloc: Global) -> Result<Value, AllocError> {
        let mut file = Map::new(alloc);
        put(&mut file, alloc, "rel_path", self.path.write(alloc)?)?;
        put(&mut file, alloc, "size_bytes", Value::from(self.bytes))?;
        Ok(Value::Object(file))
    }
}
