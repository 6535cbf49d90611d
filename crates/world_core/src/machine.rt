ghost use Rattle.std.specs.Prelude.{◌≡◌, ℕ, [], ◌∷◌, Some, IsSomeAnd};
ghost use Rattle.world_core.specs.Operations.{IsAnswer, entry_of};
ghost use Rattle.world_core.specs.Machines.{GoesOn, Falls};
ghost use Rattle.world_core.specs.declared.op.Op.{Op};

use crate::{Act, Seen};
use base::NoMemory;

/// An activity that asks for one operation at a time, and sees nothing of the world but the replies.
///
/// Call `first` to begin it, and `step` with each reply. Once it is done, or wanted memory, leave it alone.
pub trait Machine {
    type End: Drop;

    ghost use Rattle.std.specs.Prelude.{ℕ, List, Option};
    ghost use Rattle.world_core.specs.declared.op.Op.{Op};
    ghost use Rattle.world_core.specs.declared.entry.Entry.{Entry};

    /// What it may still do: the entries of its operations, in order, its end, which is none where it was stopped
    /// before, and what it is then.
    ghost may: { Self → List Entry → Option Self.End → Self → Type 0 };

    /// The operation whose reply it waits for.
    ghost asked: { Self → Option Op };

    /// Falls with each operation that it asks for.
    ghost measure: { Self → ℕ };

    /// It was never called.
    ghost fresh: { Self → Type 0 };

    /// Asks for the first operation, or ends where none is needed.
    fn first(&mut self) -> Result<Act<Self::End>, NoMemory>
        requires { fresh self.old }
        ensures { GoesOn may asked self.old [] result self.new };

    /// Goes on with the reply to the operation that it asked for.
    fn step(&mut self, seen: Seen) -> Result<Act<Self::End>, NoMemory>
        requires { IsSomeAnd (asked self.old) (λ op. IsAnswer op seen) }
        ensures goes_on { (seat : ℕ) (op : Op) → asked self.old ≡ Some op
            → GoesOn may asked self.old (entry_of seat op seen ∷ []) result self.new }
        ensures falls { Falls (measure self.old) result (measure self.new) };
}
