use base::{NoMemory, TryCopy};
use label_sets::TextList;
use wire_bytes::Blob;

/// What an operation was answered.
#[derive(Drop)]
pub enum Reply {
    Clocked,
    Stored,
    Found(Blob),
    Absent,
    Deleted,
    Names(TextList),
    /// The call failed. The flag says whether a put or a delete took effect all the same.
    Failed(bool),
}

impl TryCopy for Reply {
    ghost use Rattle.std.specs.Prelude.{◌≡◌, false, IfOk, OnErr};
    ghost use Rattle.world_core.specs.Operations.{has_failed};
    ghost use Rattle.world_core.specs.Standing.{has_landed};

    /// Only bytes and names want memory.
    fn copy(&self) -> Result<Self, NoMemory>
        ensures equal { IfOk result (λ copied. copied ≡ self.now) }
        ensures memory { OnErr result (has_landed self.now ≡ false) }
        ensures done { OnErr result (has_failed self.now ≡ false) }
    {
        Ok(match self {
            Reply::Clocked => Reply::Clocked,
            Reply::Stored => Reply::Stored,
            Reply::Found(bytes) => Reply::Found(bytes.copy()?),
            Reply::Absent => Reply::Absent,
            Reply::Deleted => Reply::Deleted,
            Reply::Names(names) => Reply::Names(names.copy()?),
            Reply::Failed(landed) => Reply::Failed(*landed),
        })
    }
}
