//! Ways to work on a script, of which laws speak besides the script's own.

ghost use Rattle.lifecycle_core.specs.Conducts.{Conduct};
ghost use Rattle.lifecycle_core.specs.Setting.{Setting};

/// A way to work on scripts.
pub trait Working {
    /// What a worker holds from one task to the next.
    ghost State: { Type 0 };

    /// To what a task comes.
    ghost End: { Type 0 };

    /// How workers conduct themselves.
    ghost conduct: { Setting → Conduct State End };
}
