//! Keys of any length: their equality, their order, and a vector of them sorted without repeats.
ghost use Rattle.std.specs.Cmp.Lexicographic.{slice_cmp};
ghost use Rattle.std.specs.List.Sorted.{IsStrictlySortedBy};
ghost use Rattle.std.specs.Ordering.{is_lt, nat_cmp};
ghost use Rattle.std.specs.Prelude.{◌≡◌, ◌↔◌, IsTrue};

use ga_core::{ArrayLength, GenericArray};

fn same_bytes<N: ArrayLength<u8>>(left: &GenericArray<u8, N>, right: &GenericArray<u8, N>) -> bool
    ensures { IsTrue result ↔ (left.now ≡ right.now) }
{
    left == right
}

fn sorted_once<N: ArrayLength<u8>>(keys: &mut Vec<GenericArray<u8, N>>)
    ensures { IsStrictlySortedBy (slice_cmp nat_cmp) keys.new.items }
{
    keys.sort_unstable();
    keys.dedup();
}

fn is_less<N: ArrayLength<u8>>(left: &GenericArray<u8, N>, right: &GenericArray<u8, N>) -> bool
    ensures { result ≡ is_lt (slice_cmp nat_cmp left.now right.now) }
{
    left.cmp(right).is_lt()
}
