//! Equality, order, hashes and `Debug` of arrays: those of the slice of the items.
ghost use Rattle.std.specs.Cmp.{on_equiv, on_per, on_po, on_total};
ghost use Rattle.std.specs.Cmp.Lexicographic.{lists_agrees, lists_equiv, lists_per, lists_po, lists_ties, lists_total, pointwise, slice_cmp, slice_partial_cmp};
ghost use Rattle.std.specs.Fmt.{debug_list};
ghost use Rattle.std.specs.Hash as fed;
ghost use Rattle.std.specs.Hash.{items_Alike, on_Alike};

use crate::array::GenericArray;
use crate::length::ArrayLength;
use crate::slices_compared::{are_equal, partial_order, total_order};
use std::cmp::Ordering;
use std::fmt;
use std::hash::{Hash, Hasher};

impl<T: PartialEq, N: ArrayLength<T>> PartialEq for GenericArray<T, N> {
    ghost eq = { λ left right. pointwise T.eq left right };

    ghost laws = { on_per (λ array. array) (lists_per T.laws) };

    #[inline]
    fn eq(&self, other: &Self) -> bool {
        are_equal(self.as_slice(), other.as_slice())
    }
}

impl<T: Eq, N: ArrayLength<T>> Eq for GenericArray<T, N> {
    ghost laws = { on_equiv (λ array. array) (lists_equiv T.Eq.laws) };
}

impl<T: PartialOrd, N: ArrayLength<T>> PartialOrd for GenericArray<T, N> {
    ghost partial_cmp = { λ left right. slice_partial_cmp T.partial_cmp left right };

    ghost laws = { on_po (λ array. array) (lists_po T.PartialOrd.laws) };

    #[inline]
    fn partial_cmp(&self, other: &Self) -> Option<Ordering> {
        partial_order(self.as_slice(), other.as_slice())
    }
}

impl<T: Ord, N: ArrayLength<T>> Ord for GenericArray<T, N> {
    ghost cmp = { λ left right. slice_cmp T.cmp left right };

    ghost total = { on_total (λ array. array) (lists_total T.total) };

    ghost matches_partial_cmp = { λ left right. lists_agrees T.matches_partial_cmp left right };

    ghost matches_eq = { λ left right. lists_ties T.cmp T.matches_eq left right };

    #[inline]
    fn cmp(&self, other: &Self) -> Ordering {
        total_order(self.as_slice(), other.as_slice())
    }
}

impl<T: Hash, N: ArrayLength<T>> Hash for GenericArray<T, N> {
    ghost hash_input = { λ array. fed.slice T.hash_input array };

    ghost respects_eq = { (on_Alike (λ array. array)
        (items_Alike (record { fed = T.respects_eq }))).fed };

    #[inline]
    fn hash<H: Hasher>(&self, state: &mut H) {
        self.as_slice().hash(state);
    }
}

impl<T: fmt::Debug, N: ArrayLength<T>> fmt::Debug for GenericArray<T, N> {
    ghost debug_output = { debug_list T.debug_output };

    fn fmt<W: fmt::Write>(&self, f: &mut fmt::Formatter<W>) -> fmt::Result {
        fmt::Debug::fmt(self.as_slice(), f)
    }
}
