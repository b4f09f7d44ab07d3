//! Bytes compared, and one of two arrays chosen, so that each byte is looked at.
ghost use Rattle.ga_hashes.specs.Differing.{differing};
ghost use Rattle.std.specs.List.{zip};
ghost use Rattle.std.specs.Prelude.{◌≡◌, ◌↔◌, IsTrue, if◌then◌else◌, map};

use ga_core::{ArrayLength, BorrowedItems, GenericArray};

/// Whether two slices have the same bytes.
///
/// If their lengths agree, reads every byte, also behind one that differs. No clause and no test
/// says so, and no time is claimed. The counterpart of `ct_eq` of `subtle`, of `constant_time_eq`
/// and of `verify_slices_are_equal`.
#[tactic(auto, using(crate::proofs::SameBytes::same_bytes_facts))]
pub fn same_bytes(left: &[u8], right: &[u8]) -> bool
    ensures { IsTrue result ↔ (left.now ≡ right.now) }
{
    left.len() == right.len() && difference(left, right) == 0
}

// The bits in which the bytes differ anywhere.
fn difference(left: &[u8], right: &[u8]) -> u8
    ensures { result ≡ differing 0 left.now right.now }
{
    left.iter()
        .zip(right.iter())
        .fold(0, |all, (l, r)| all | (*l ^ *r))
}

/// Returns a copy of the left bytes if the flag is set, else of the right ones.
///
/// Takes each byte of both by a mask, without a branch of its own. No clause and no test says so,
/// and no time is claimed. O(N). The counterpart of `ConditionallySelectable` of `subtle`.
pub fn chosen<N: ArrayLength<u8>>(
    flag: bool,
    left: &GenericArray<u8, N>,
    right: &GenericArray<u8, N>,
) -> GenericArray<u8, N>
    ensures { result ≡ if flag then left.now else right.now }
{
    // The proof needs the lengths of both.
    let _ = left.as_slice();
    let _ = right.as_slice();
    choose_each(flag, left, right)
}

fn choose_each<N: ArrayLength<u8>>(
    flag: bool,
    left: &GenericArray<u8, N>,
    right: &GenericArray<u8, N>,
) -> GenericArray<u8, N>
    ensures { result ≡ map (λ p. if flag then p.0 else p.1) (zip left.now right.now) }
{
    left.zip_inline_ref(
        right.view(),
        |left: &u8, right: &u8| -> u8
            ensures { result ≡ if flag then left.now else right.now }
        { chosen_byte(flag, *left, *right) },
    )
}

// The mask has all bits if the flag is set, else none.
#[tactic(auto, using(ga_core::proofs::BitLemmas::bits))]
fn chosen_byte(flag: bool, left: u8, right: u8) -> u8
    ensures { result ≡ if flag then left else right }
{
    let mask = 0u8.wrapping_sub(u8::from(flag));
    left & mask | right & !mask
}
