ghost use Rattle.std.specs.Prelude.{◌≡◌};
ghost use Rattle.cleaner.specs.Cleanings.{rules_of as part_of};

use moment_core::{Rules, Span};

/// The part of a run's rules by which a cleaning goes.
#[derive(Clone, Copy)]
pub(crate) struct CleanRules {
    /// How old a deletion mark has to be before the marked block is deleted.
    pub(crate) delete: Span,
    /// How old a block without a mark and a meta has to be before it is deleted.
    pub(crate) partial: Span,
    /// How many names one page asks for.
    pub(crate) page_limit: u32,
}

/// What a cleaning takes of the rules.
pub(crate) fn rules_of(rules: &Rules) -> CleanRules
    ensures { result ≡ part_of rules.now }
{
    CleanRules {
        delete: rules.delete,
        partial: rules.partial,
        page_limit: rules.page_limit,
    }
}
