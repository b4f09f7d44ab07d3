//! Signed items: weighed sums, and numbers that a closure captures.
ghost use Rattle.ga_core_examples.specs.Weighed.{saturated, weighed};
ghost use Rattle.std.specs.Int.{cast_signed, saturate_signed, w8, w32};
ghost use Rattle.std.specs.Prelude.{◌≡◌, ◌+ℤ◌, ◌∷◌, [], map, pos, slice_index_or};

use ga_core::{ArrayLength, BorrowedItems, GenericArray, U2};

fn weighed_sum<N: ArrayLength<i64>>(
    window: &GenericArray<i64, N>,
    taps: &GenericArray<i64, N>,
) -> i64
    ensures { result ≡ weighed window.now taps.now }
{
    window
        .zip_inline_ref(taps.view(), |x: &i64, tap: &i64| x.wrapping_mul(*tap))
        .view()
        .fold(0, |total: i64, x: &i64| total.wrapping_add(*x))
}

/// A weighed sum of which each step stays at the least or the greatest number. It has a proof file,
/// since the set's lemmas aren't tried in a search.
fn saturated_sum<N: ArrayLength<i32>>(
    window: &GenericArray<i32, N>,
    taps: &GenericArray<i32, N>,
) -> i32
    ensures { result ≡ saturated window.now taps.now }
{
    window
        .zip_inline_ref(taps.view(), |x: &i32, tap: &i32| x.saturating_mul(*tap))
        .view()
        .fold(0, |total: i32, x: &i32| total.saturating_add(*x))
}

/// The numbers above by so much: by value `map_inline` isn't proved with a captured number.
fn raised<N: ArrayLength<i8>>(samples: &GenericArray<i8, N>, by: i8) -> GenericArray<i8, N>
    ensures { result ≡ map (λ x. saturate_signed w8 (x +ℤ by)) samples.now }
{
    samples.map_inline_ref(|x: &i8| x.saturating_add(by))
}

/// Words as signed numbers of the same bits.
fn signed_of<N>(words: GenericArray<u32, N>) -> GenericArray<i32, N>
where
    N: ArrayLength<u32> + ArrayLength<i32>,
    ensures { result ≡ map (cast_signed w32) words }
{
    words.map_inline(|word: u32| word.cast_signed())
}

/// A sample in front of the newer of two.
fn newer_pair(sample: i64, pair: &GenericArray<i64, U2>) -> GenericArray<i64, U2>
    ensures { result ≡ sample ∷ slice_index_or pair.now 0 (pos 0) ∷ [] }
{
    GenericArray::from_array([sample, pair[0]])
}
