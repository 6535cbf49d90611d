//! The bytes of an object on their way from a block's writer through a bucket and its journal to a reader. Copies count
//! owners, so that a segment stands in memory once, however often it is put, kept and read.

ghost use Rattle.std.specs.Prelude.{◌≡◌, List, ℕ, take, drop, IfOk};
ghost use Rattle.wire_bytes.specs.Kept.{kept_bytes};

use base::{List, NoMemory, TryCopy};
use bytes::Bytes;
use std::alloc::Global;
use std::marker::Model;

/// Bytes that have one owner, or whose owners are counted.
#[derive(Drop)]
enum Kept {
    Alone(Vec<u8>),
    Shared(Bytes),
}

/// Bytes that are kept, such as an object's content.
///
/// A blob made by `from_bytes`, `shared`, `part` or `copy` shares its bytes with its copies and its parts; a copy of one made by
/// `from_vec` takes bytes of its own. Shared bytes are kept as long as one blob has them, or a part of them.
#[derive(Drop)]
pub struct Blob {
    kept: Kept,
}

impl Model for Blob {
    ghost Value = { List ℕ };

    ghost view = { λ b. kept_bytes b.kept };
}

impl Blob {
    /// Keeps a copy of the bytes.
    pub fn from_bytes(alloc: Global, bytes: &[u8]) -> Result<Self, NoMemory>
        ensures { IfOk result (λ blob. blob ≡ bytes.now) }
    {
        Blob::from_vec(Vec::from_slice(alloc, bytes)?).shared()
    }

    /// The bytes of a vector, which are not copied.
    pub fn from_vec(bytes: Vec<u8>) -> Self
        ensures { result ≡ bytes.items }
    {
        Blob {
            kept: Kept::Alone(bytes),
        }
    }

    /// The blob with its owners counted: copies share its bytes from here on. The room that a vector had beside them is given back.
    pub fn shared(self) -> Result<Self, NoMemory>
        ensures { IfOk result (λ blob. blob ≡ self) }
    {
        let kept = match self.kept {
            Kept::Alone(bytes) => Kept::Shared(share(bytes)?),
            kept => kept,
        };
        Ok(Blob { kept })
    }

    /// The bytes from a place on, at most `len` of them.
    pub fn part(&self, from: u64, len: u64) -> Result<Self, NoMemory>
        ensures { IfOk result (λ blob. blob ≡ take len (drop from self.now)) }
    {
        match &self.kept {
            Kept::Alone(bytes) => {
                Blob::from_bytes(*bytes.allocator(), range_in(bytes.as_slice(), from, len))
            }
            Kept::Shared(bytes) => {
                let start = (from as usize).min(bytes.len());
                let count = (len as usize).min(bytes.len() - start);
                Ok(Blob {
                    kept: Kept::Shared(bytes.slice(start..start + count)?),
                })
            }
        }
    }

    /// Lends the bytes.
    pub fn bytes(&self) -> &[u8]
        ensures { result.now ≡ self.now }
    {
        match &self.kept {
            Kept::Alone(bytes) => bytes.as_slice(),
            Kept::Shared(bytes) => bytes.as_slice(),
        }
    }
}

/// The bytes from a place on, at most `len` of them.
pub fn range_in(bytes: &[u8], from: u64, len: u64) -> &[u8]
    ensures { result.now ≡ take len (drop from bytes.now) }
{
    let start = (from as usize).min(bytes.len());
    let rest = &bytes[start..];
    let count = (len as usize).min(rest.len());
    &rest[..count]
}

/// Counts the owners of bytes from here on.
fn share(mut bytes: Vec<u8>) -> Result<Bytes, NoMemory>
    ensures { IfOk result (λ shared. shared ≡ bytes.items) }
{
    bytes.shrink_to_fit();
    match Bytes::from_vec(bytes) {
        Ok(shared) => Ok(shared),
        Err(_) => Err(NoMemory),
    }
}

impl TryCopy for Blob {
    fn copy(&self) -> Result<Self, NoMemory> {
        match &self.kept {
            Kept::Alone(bytes) => Blob::from_bytes(*bytes.allocator(), bytes.as_slice()),
            Kept::Shared(bytes) => Ok(Blob {
                kept: Kept::Shared(bytes.clone()?),
            }),
        }
    }
}

/// A list of numbers.
pub type NumberList = List<u64>;
