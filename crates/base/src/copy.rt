ghost use Rattle.std.specs.Prelude.{◌≡◌, IfOk};

use crate::NoMemory;

/// Values that can be copied where memory is left.
pub trait TryCopy: Drop {
    /// A value equal to this one.
    fn copy(&self) -> Result<Self, NoMemory>
        ensures { IfOk result (λ copied. copied ≡ self.now) };
}

impl TryCopy for u64 {
    fn copy(&self) -> Result<Self, NoMemory> {
        Ok(*self)
    }
}
