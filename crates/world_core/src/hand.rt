ghost use Rattle.std.specs.Prelude.{◌≡◌, ◌⊎◌, ◌++◌, ◌||◌, ◌<◌, ◌≤◌, IfSome, IsTrue};
ghost use Rattle.world_core.specs.Operations.{IsLawful, IsAnswer};
ghost use Rattle.world_core.specs.Keeping.{IsFull};
ghost use Rattle.world_core.specs.Machines.{gained, IfDone, is_full};

use crate::{Acted, Op};

/// What does operations for a machine.
pub trait Hand {
    ghost use Rattle.world_core.specs.Told.{HandTold};

    /// What it tells of itself.
    ghost told: { Self → HandTold };

    /// What its operations keep, between the hand before them and the hand after them.
    ghost keeps: { Self → Self → Type 0 };

    /// Does one operation.
    fn act(&mut self, op: Op) -> Acted
        requires { IsLawful op }
        ensures entries { (told self.new).entries
            ≡ (told self.old).entries ++ gained (told self.old).seat op result }
        ensures answer { IfDone result (IsAnswer op) }
        ensures seat { (told self.new).seat ≡ (told self.old).seat }
        ensures refused { (told self.new).refused ≡ ((told self.old).refused || is_full result) }
        ensures full { result ≡ Acted.Full → IfSome (told self.new).front IsFull }
        ensures memory { result ≡ Acted.NoMemory
            → IfSome (told self.new).front (λ entries. ¬ IsFull entries) }
        ensures wanted { IsTrue (told self.new).wanted
            → IsTrue (told self.old).wanted ⊎ (result ≡ Acted.NoMemory) }
        ensures keeps { keeps self.old self.new }

        // Its entry comes later than all that it had seen.
        ensures above { IfDone result (λ seen. (told self.old).known < seen.seq) }
        ensures within { IfDone result (λ seen. seen.seq ≤ (told self.new).known) }
        ensures known { (told self.old).known ≤ (told self.new).known };

    /// The number of the last entry that there is now, or was since it last saw one. Nothing is done, and each entry that it adds
    /// from now on has a greater number.
    fn look(&mut self) -> u64
        ensures value { result ≡ (told self.new).known }
        ensures known { (told self.old).known ≤ (told self.new).known }
        ensures entries { (told self.new).entries ≡ (told self.old).entries }
        ensures seat { (told self.new).seat ≡ (told self.old).seat }
        ensures front { (told self.new).front ≡ (told self.old).front }
        ensures refused { (told self.new).refused ≡ (told self.old).refused }
        ensures wanted { (told self.new).wanted ≡ (told self.old).wanted }
        ensures keeps { keeps self.old self.new };

    /// What is kept holds where nothing was done.
    ghost keeps_none: { (hand : Self) → keeps hand hand };

    /// What is kept by one operation after another is kept by both.
    ghost keeps_more: { (first next last : Self) → keeps first next → keeps next last
        → keeps first last };
}
