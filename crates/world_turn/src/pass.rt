ghost use Rattle.std.specs.Prelude.{◌≡◌};
ghost use Rattle.world_turn.specs.Resting.{IsAtRest};

use crate::view::View;
use atomic_table::Badge;

/// One caller of a shared world: a seat, and what its caller has seen of the journal.
#[derive(Drop)]
pub struct Pass {
    pub(crate) badge: Badge<View>,
    pub(crate) seat: u32,
    /// Of the root: how many passes were split from it.
    pub(crate) splits: u32,
    /// Whether an operation of its own, or of a pass that was joined to it, was answered that the journal is full.
    pub(crate) refused: bool,
    /// Whether memory was wanted in such an operation.
    pub(crate) wanted: bool,
    pub ghost rests: { IsAtRest badge seat splits refused wanted },
}

impl Pass {
    /// The number of its seat.
    pub fn seat(&self) -> u32
        ensures { result ≡ self.now.seat }
    {
        self.seat
    }

    /// How many passes were split from it.
    pub fn splits(&self) -> u32
        ensures { result ≡ self.now.splits }
    {
        self.splits
    }
}
