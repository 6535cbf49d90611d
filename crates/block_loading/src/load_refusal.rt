ghost use Rattle.std.specs.Prelude.{◌≡◌};
ghost use Rattle.block_loading.specs.declared.load_refusal.LoadRefusal.TheVariants.{NoMemory as WithoutMemory};

use block_content::CheckRefusal;

/// Why a block of a shelf is not loaded, or not shipped.
#[derive(Debug, PartialEq, Eq, Drop)]
pub enum LoadRefusal {
    /// The block is refused. No refusal for want of memory is given here.
    Refused(CheckRefusal),
    /// A reading of the shelf failed.
    ShelfFault,
    NoMemory,
}

impl From<base::NoMemory> for LoadRefusal {
    ghost from_gives = { λ _ e. e ≡ WithoutMemory };

    fn from(_: base::NoMemory) -> Self {
        LoadRefusal::NoMemory
    }
}
