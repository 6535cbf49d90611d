ghost use Rattle.std.specs.Prelude.{◌≡◌};
ghost use Rattle.compactor.specs.Marking.{details_of};

/// Why a block is marked for deletion.
#[derive(Clone, Copy)]
pub enum Reason {
    /// Other blocks hold all that it holds.
    Covered,
    /// It was compacted into another block.
    Compacted,
    /// It is older than blocks are kept.
    Expired,
}

impl Reason {
    /// What a mark tells of the reason.
    pub(crate) fn details(self) -> &'static str
        ensures { result.now ≡ details_of self }
    {
        match self {
            Reason::Covered => "covered",
            Reason::Compacted => "compacted",
            Reason::Expired => "expired",
        }
    }
}
