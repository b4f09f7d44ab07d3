//! Arrays as slices: the methods of slices, ranges, and loops over references.
ghost use Rattle.std.specs.List.{sum_by};
ghost use Rattle.std.specs.Prelude.{◌≡◌, ℕ, ◌*◌, ◌<◌, ◌≤◌, ◌^◌, ◌==◌, ◌↔◌, [], IfSome, IsSome, count_by, length, slice_index, slice_index_or, sum};

use ga_core::{ArrayLength, GenericArray, InlineLength, U3};

fn sum_of_references<N: ArrayLength<u8>>(array: &GenericArray<u8, N>) -> u64
    requires bound { sum array.now < 2 ^ 64 }
    ensures { result ≡ sum array.now }
{
    array.into_iter().map(|item: &u8| u64::from(*item)).sum()
}

/// A sum in a wider type, which fits where a slice has at most so many items. An array passes its
/// slice, or a part of it.
fn sum_of(readings: &[u16]) -> u64
    requires { length readings.now ≤ 65536 }
    ensures { result ≡ sum readings.now }
{
    readings.iter().map(|x| u64::from(*x)).sum()
}

fn sum_of_squares(readings: &[u16]) -> u64
    requires { length readings.now ≤ 65536 }
    ensures { result ≡ sum_by (λ x. x * x) readings.now }
{
    readings.iter().map(|x| u64::from(*x) * u64::from(*x)).sum()
}

fn energy_of<N: ArrayLength<u16>>(window: &GenericArray<u16, N>) -> u64
    ensures { result ≡ sum_by (λ x. x * x) window.now }
{
    sum_of_squares(window.as_slice())
}

/// The sum, if it fits its type.
fn checked_sum(amounts: &[u64]) -> Option<u64>
    ensures variant { IsSome result ↔ (sum amounts.now < 2 ^ 64) }
    ensures some { IfSome result (λ total. total ≡ sum amounts.now) }
{
    amounts.iter().try_fold(0u64, |total: u64, amount: &u64| total.checked_add(*amount))
}

/// How many items of a row are 1: the bound lets others add such counts.
fn ones_of(row: &[u8]) -> usize
    requires { length row.now ≤ 65536 }
    ensures count { result ≡ count_by (λ item. item == 1) row.now }
    ensures bound { result ≤ 65536 }
{
    row.iter().filter(|item| **item == 1).count()
}

fn ones_of_rows<C: ArrayLength<u8> + InlineLength>(rows: &[GenericArray<u8, C>]) -> usize
    requires count { length rows.now ≤ 65536 }
    requires width { C.USIZE ≤ 65536 }
    ensures { result ≡ sum_by (λ row. count_by (λ item. item == 1) row) rows.now }
{
    rows.iter().map(|row| ones_of(row.as_slice())).sum()
}

/// Looks at each array of a slice, so that a proof knows of each that it has N items.
fn each_has_its_length<N: ArrayLength<u8>>(blocks: &[GenericArray<u8, N>])
    ensures { (place : ℕ) → place < length blocks.now
        → length (slice_index_or blocks.now place []) ≡ N.USIZE }
{
    for block in blocks {
        let _items = block.as_slice();
    }
}

fn first_reference(array: &GenericArray<u8, U3>) -> u8
    ensures { result ≡ slice_index array.now 0 }
{
    array.each_ref()[0].copied().unwrap_or(0)
}
