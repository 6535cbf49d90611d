ghost use Rattle.std.specs.Prelude.{◌≡◌};

use base::NoMemory;

/// Why a bucket was not opened.
#[derive(Clone, Copy, Debug, PartialEq, Eq)]
pub enum SiteRefusal {
    Failed,
    NoMemory,
}

impl From<NoMemory> for SiteRefusal {
    ghost use Rattle.std.specs.Prelude.{◌≡◌};
    ghost use Rattle.bucket_core.specs.declared.site_refusal.SiteRefusal.TheVariants as refusal;

    ghost from_gives = { λ _ e. e ≡ refusal.NoMemory };

    fn from(_: NoMemory) -> Self {
        SiteRefusal::NoMemory
    }
}
