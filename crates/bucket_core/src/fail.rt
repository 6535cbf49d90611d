ghost use Rattle.std.specs.Prelude.{◌≡◌, IfOk};

use base::{List, NoMemory, TryCopy};

/// A call that is to fail, by its number from 1. `landed` says whether a put or a deletion that fails is done all the same.
#[derive(Clone, Copy, Debug, PartialEq, Eq)]
pub struct Fail {
    pub call: u64,
    pub landed: bool,
}

impl TryCopy for Fail {
    fn copy(&self) -> Result<Self, NoMemory> {
        Ok(*self)
    }
}

/// The calls that are to fail.
pub type FailList = List<Fail>;
