use base::List;
use std::alloc::Global;

/// The sign between a name and a value.
#[derive(Clone, Copy)]
pub(crate) enum Operator {
    Equal,
    NotEqual,
    Matches,
    MatchesNot,
}

/// A matcher as it is read: the bytes of its name and of its value, and the place where the value's quote opens.
#[derive(Drop)]
pub(crate) struct Asked {
    pub(crate) name: List<u8>,
    pub(crate) operator: Operator,
    pub(crate) value: List<u8>,
    pub(crate) quote: usize,
}

impl Asked {
    ghost use Rattle.std.specs.Prelude.{◌≡◌};
    ghost use Rattle.matchers.specs.Stages.{nothing_asked};

    pub(crate) fn new(alloc: Global) -> Asked
        ensures { result ≡ nothing_asked }
    {
        Asked {
            name: List::new(alloc),
            operator: Operator::Equal,
            value: List::new(alloc),
            quote: 0,
        }
    }
}
