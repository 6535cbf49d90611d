ghost use Rattle.std.specs.Prelude.{◌≡◌, ◌++◌, List};
ghost use Rattle.world_core.specs.Turning.{Turned};
ghost use Rattle.world_core.specs.declared.entry.Entry.{Entry};

use world_core::Hand;

/// What one worker of a phase does.
pub trait Job {
    ghost use Rattle.std.specs.Prelude.{ℕ, Bool, List, Option};
    ghost use Rattle.world_core.specs.declared.entry.Entry.{Entry};

    type End: Drop;

    /// A job of this seat may make these entries, in order, have seen this front at its end, where its hand tells one, and
    /// come to this end.
    ghost may: { Self → ℕ → List Entry → Option (List Entry) → Self.End → Type 0 };

    /// Whether a job that came to this end met the full journal.
    ghost met_full: { Self.End → Bool };

    /// Whether a job that came to this end says that it wanted memory.
    ghost wanted: { Self.End → Bool };

    /// How heavy the job is: about as much as to put so many samples into a block, besides its operations. A phase whose jobs are light
    /// has fewer threads.
    fn weight(&self) -> u64;

    /// Does the job through a hand.
    fn run<H: Hand>(self, hand: &mut H) -> Self::End
        ensures run { (made : List Entry)
            × ((H.told hand.new).entries ≡ (H.told hand.old).entries ++ made)
            × may self (H.told hand.old).seat made (H.told hand.new).front result }
        ensures hand { Turned H.told H.keeps hand.old hand.new (met_full result) (wanted result) };
}
