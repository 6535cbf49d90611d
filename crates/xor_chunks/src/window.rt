//! The bits of a value that differ from the value before it. A change that lies within the last window is written
//! without telling a window anew; before one is told it is all 64 bits, as Prometheus goes on after a restart.

ghost use Rattle.std.specs.Prelude.{◌≡◌, ◌<◌, ◌≤◌, ◌+◌, ◌/◌, ◌^◌};

use std::marker::Model;

/// The bits of a pattern that a change may touch: `width` of them, behind `lead` others.
#[derive(Clone, Copy)]
pub(crate) struct Window {
    lead: u32,
    width: u32,
}

impl Model for Window {
    ghost use Rattle.std.specs.Prelude.{◌<◌, ◌≤◌};
    ghost use Rattle.xor_chunks.specs.Window.{Window as WindowParts};

    ghost Value = { WindowParts };

    ghost view = { λ w. record { lead = w.lead; width = w.width } };

    ghost invariant = { λ w. (w.lead < 32) × (0 < w.width) × (w.width ≤ 64) };

    ghost inverse = { λ v. record { lead = v.lead; width = v.width } };
}

impl Window {
    ghost use Rattle.xor_chunks.specs.Written.{window_around, is_around, trail};
    ghost use Rattle.xor_chunks.specs.Window.{whole, told_by, is_inside, changed_pattern};

    /// All bits of a pattern.
    pub(crate) fn whole() -> Window
        ensures { result ≡ whole }
    {
        Window { lead: 0, width: 64 }
    }

    /// The window that the last eleven bits of a number tell: five of lead and six of width, with 0 for 64.
    #[inline(always)]
    pub(crate) fn told_by(head: u64) -> Window
        ensures { result ≡ told_by head }
    {
        let width = (head % 64) as u32;
        Window {
            lead: (head / 64 % 32) as u32,
            width: if width == 0 { 64 } else { width },
        }
    }

    #[inline(always)]
    pub(crate) fn width(self) -> u32
        ensures width { result ≡ self.width }
        ensures some { 0 < result }
        ensures few { result ≤ 64 }
    {
        self.width
    }

    /// Whether it lies within the 64 bits of a pattern.
    #[inline(always)]
    pub(crate) fn is_inside(self) -> bool
        ensures { result ≡ is_inside self }
    {
        self.lead + self.width <= 64
    }

    /// The pattern with a field of the window's width put over the window's bits.
    #[inline(always)]
    pub(crate) fn changed_pattern(self, pattern: u64, field: u64) -> u64
        requires { field < 2 ^ self.width }
        ensures { result ≡ changed_pattern pattern self field }
    {
        pattern ^ (field << self.trail())
    }

    /// The smallest window around the bits of a change, with at most 31 bits before it.
    #[inline(always)]
    pub(crate) fn around(change: u64) -> Window
        requires { 0 < change }
        ensures { result ≡ window_around change }
    {
        let lead = change.leading_zeros().min(31);
        let trail = change.trailing_zeros();
        Window {
            lead,
            width: 64 - (lead + trail),
        }
    }

    /// Whether a change has no bit outside the window.
    #[inline(always)]
    pub(crate) fn is_around(self, change: u64) -> bool
        ensures { result ≡ is_around self change }
    {
        self.lead <= change.leading_zeros() && self.trail() <= change.trailing_zeros()
    }

    /// A change's bits in the window.
    #[inline(always)]
    pub(crate) fn field(self, change: u64) -> u64
        ensures { result ≡ change / 2 ^ trail self }
    {
        change >> self.trail()
    }

    #[inline(always)]
    pub(crate) fn lead(self) -> u32
        ensures { result ≡ self.lead }
    {
        self.lead
    }

    #[inline(always)]
    fn trail(self) -> u32
        ensures trail { result ≡ trail self }
        ensures few { result < 64 }
        ensures within { self.width + result ≤ 64 }
    {
        64u32.saturating_sub(self.lead + self.width)
    }
}
