ghost use Rattle.std.specs.Prelude.{◌^◌, ◌<◌, All};
ghost use Rattle.std.specs.List.Sorted.{IsStrictlyIncreasing};

use wire_bytes::NumberList;

/// The numbers of all series of an index, and of those that a selector takes, both ascending.
#[derive(Drop)]
pub struct Selection {
    pub all: NumberList,
    pub numbers: NumberList,
    ghost all_rise: { IsStrictlyIncreasing all },
    ghost all_small: { All (λ n. n < 2 ^ 32) all },
    ghost rise: { IsStrictlyIncreasing numbers },
    ghost small: { All (λ n. n < 2 ^ 32) numbers },
}
