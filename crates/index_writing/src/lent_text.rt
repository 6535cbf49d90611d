//! A text that somebody lends, in the order of texts, so that texts can be sorted where they lie.
ghost use Rattle.std.specs.Prelude.{◌≡◌, List, ℕ, nat_eq};
ghost use Rattle.std.specs.Cmp.{partial_equiv_from_equiv};
ghost use Rattle.std.specs.Cmp.Lexicographic.{slice_cmp, pointwise, nat_list_eq_equiv, nat_list_cmp_total, texts_po, texts_ties};
ghost use Rattle.std.specs.Ordering.{nat_cmp, as_partial_cmp};
ghost use Rattle.std.proofs.Common.{rules};

use label_sets::Text;
use std::cmp::Ordering;
use std::marker::Model;

/// A lent text, seen as its bytes and ordered by them, as `Text` is.
#[derive(Drop)]
pub(crate) struct LentText<'a> {
    text: &'a str,
}

impl<'a> Model for LentText<'a> {
    ghost Value = { List ℕ };

    ghost view = { λ t. t.text.now };
}

impl<'a> LentText<'a> {
    /// Lends a text.
    pub(crate) fn of(text: &'a Text) -> Self
        ensures { result ≡ text.now }
    {
        LentText {
            text: text.as_str(),
        }
    }

    /// The text.
    pub(crate) fn as_str(&self) -> &'a str
        ensures { result.now ≡ self.now }
    {
        self.text
    }
}

impl<'a> PartialEq for LentText<'a> {
    ghost eq = { pointwise nat_eq };

    ghost laws = { partial_equiv_from_equiv nat_list_eq_equiv };

    fn eq(&self, other: &Self) -> bool {
        self.text == other.text
    }
}

impl<'a> Eq for LentText<'a> {
    ghost laws = { nat_list_eq_equiv };
}

impl<'a> PartialOrd for LentText<'a> {
    ghost partial_cmp = { as_partial_cmp (slice_cmp nat_cmp) };

    ghost laws = { texts_po };

    fn partial_cmp(&self, other: &Self) -> Option<Ordering> {
        Some(self.cmp(other))
    }
}

impl<'a> Ord for LentText<'a> {
    ghost cmp = { slice_cmp nat_cmp };

    ghost total = { nat_list_cmp_total };

    ghost matches_partial_cmp = { Prim.search rules };

    ghost matches_eq = { texts_ties };

    fn cmp(&self, other: &Self) -> Ordering {
        self.text.cmp(other.text)
    }
}
