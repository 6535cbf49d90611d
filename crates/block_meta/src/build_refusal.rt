ghost use Rattle.std.specs.Prelude.{◌≡◌};
ghost use Rattle.block_meta.specs.declared.build_refusal.BuildRefusal.TheVariants.{NoMemory as WithoutMemory};

/// Why no files were built.
#[derive(Clone, Copy, Debug, PartialEq, Eq)]
pub enum BuildRefusal {
    /// The index would pass 67,108,864 bytes.
    TooLarge,
    NoMemory,
}

impl From<base::NoMemory> for BuildRefusal {
    ghost from_gives = { λ _ e. e ≡ WithoutMemory };

    fn from(_: base::NoMemory) -> Self {
        BuildRefusal::NoMemory
    }
}
