//! Equality and order of short texts, which are those of their bytes.

ghost use Rattle.std.specs.Prelude.{nat_eq, Some, refl};
ghost use Rattle.std.specs.Ordering.{nat_cmp};
ghost use Rattle.std.specs.Cmp.{partial_equiv_from_equiv};
ghost use Rattle.std.specs.Cmp.Lexicographic.{pointwise, slice_cmp, nat_list_eq_equiv, nat_list_cmp_total, texts_ties, texts_po};

use crate::short_text::ShortText;
use std::cmp::Ordering;
use std::fmt::{self, Debug, Formatter, Write};

impl<const MOST: usize> PartialEq for ShortText<MOST> {
    ghost eq = { pointwise nat_eq };

    ghost laws = { partial_equiv_from_equiv nat_list_eq_equiv };

    fn eq(&self, other: &Self) -> bool {
        self.as_bytes() == other.as_bytes()
    }
}

impl<const MOST: usize> Eq for ShortText<MOST> {
    ghost laws = { nat_list_eq_equiv };
}

impl<const MOST: usize> PartialOrd for ShortText<MOST> {
    ghost partial_cmp = { λ x y. Some (slice_cmp nat_cmp x y) };

    ghost laws = { texts_po };

    fn partial_cmp(&self, other: &Self) -> Option<Ordering> {
        Some(self.cmp(other))
    }
}

impl<const MOST: usize> Ord for ShortText<MOST> {
    ghost cmp = { slice_cmp nat_cmp };

    ghost total = { nat_list_cmp_total };

    ghost matches_partial_cmp = { λ x y. refl };

    ghost matches_eq = { texts_ties };

    fn cmp(&self, other: &Self) -> Ordering {
        self.compare(other)
    }
}

impl<const MOST: usize> Debug for ShortText<MOST> {
    fn fmt<W: Write>(&self, f: &mut Formatter<W>) -> fmt::Result {
        Debug::fmt(&self.as_bytes(), f)
    }
}
