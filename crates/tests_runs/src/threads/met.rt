ghost use Rattle.std.specs.Prelude.{◌≡◌};
ghost use Rattle.world_core.specs.Machines.{is_full, is_wanting};

use world_core::Acted;

/// What a job met in its last operation.
#[derive(Drop)]
pub struct Met {
    /// It was answered that the journal is full.
    pub full: bool,
    /// Memory was wanted for it.
    pub wanted: bool,
}

impl Met {
    /// What an operation that was answered so met.
    pub fn of(acted: &Acted) -> Met
        ensures full { result.full ≡ is_full acted.now }
        ensures wanted { result.wanted ≡ is_wanting acted.now }
    {
        Met {
            full: matches!(acted, Acted::Full),
            wanted: matches!(acted, Acted::NoMemory),
        }
    }
}
