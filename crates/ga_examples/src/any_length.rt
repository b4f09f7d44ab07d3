//! Callers of any length, each with its exact result.
ghost use Rattle.generic_array.specs.Length.{FitsInline};
ghost use Rattle.generic_array.specs.Tries.{try_map};
ghost use Rattle.ga_core_examples.specs.Digits.{digit_of};
ghost use Rattle.generic_array.specs.Views.{items_of_view};
ghost use Rattle.std.specs.Int.Bits.{bit_xor};
ghost use Rattle.std.specs.List.{range_with_len, zip};
ghost use Rattle.std.specs.Prelude.{◌≡◌, ℕ, ◌+◌, ◌*◌, ◌%◌, ◌^◌, ◌<◌, IfOk, fold, map, reverse, sum};

use ga_core_examples::digits::digit_in;
use generic_array::checks::total_by;
use generic_array::functional::{
    FunctionalSequence, MappedError, MappedGenericSequence, MappedPlace, MappedSequence, MapsInline,
};
use generic_array::sequence::GenericSequence;
use generic_array::{
    AllocError, ArrayLength, BorrowedItems, BoxedArray, GenericArray, GenericArrayRef, Unsigned,
    always,
};
use std::alloc::Global;

fn masked_view<N: ArrayLength<u8>>(key: GenericArrayRef<'_, u8, N>, mask: u8) -> GenericArray<u8, N>
    requires { FitsInline N.USIZE }
    ensures { result ≡ map (λ b. bit_xor b mask) (items_of_view key.entry) }
{
    always(key.map((), |b: &u8| *b ^ mask))
}

/// The same over the traits alone, where entries are the items.
fn masked_sequence<
    S: FunctionalSequence<u8> + MappedGenericSequence<u8, u8> + IntoIterator<Item = u8>,
>(
    key: S,
    place: MappedPlace<S, u8, u8>,
    mask: u8,
) -> Result<MappedSequence<S, u8, u8>, MappedError<S, u8, u8>>
    requires fits { S.Mapped.Fits }
    requires by_value { (b : ℕ) → S.entry b ≡ b }
    ensures { IfOk result (λ made.
        S.Mapped.Sequence.items made ≡ map (λ b. bit_xor b mask) (S.items key)) }
{
    key.map(place, |b: u8| b ^ mask)
}

/// One more than each sum: a chain over any kind of which inline arrays are made.
fn one_more_than_sums<A, B>(
    left: A,
    right: B,
) -> MappedSequence<MappedSequence<A, u32, u32>, u32, u32>
where
    A: MapsInline<u32, u32> + IntoIterator<Item = u32>,
    B: GenericSequence<u32> + IntoIterator<Item = u32>,
    MappedSequence<A, u32, u32>: MapsInline<u32, u32>,
    requires lengths { A.Length.USIZE ≡ B.Length.USIZE }
    requires sums_fit { A.Mapped.Fits }
    requires fits { A.Mapped.Sequence.Mapped.Fits }
    requires left_by_value { (x : ℕ) → A.entry x ≡ x }
    requires right_by_value { (x : ℕ) → B.entry x ≡ x }
    requires sums_by_value { (x : ℕ) → A.Mapped.Sequence.entry x ≡ x }
    ensures { A.Mapped.Sequence.Mapped.Sequence.items result ≡ map (λ sum. (sum + 1) % 2 ^ 32)
        (map (λ p. (p.0 + p.1) % 2 ^ 32) (zip (A.items left) (B.items right))) }
{
    let sums = always(left.zip((), right, |l: u32, r: u32| l.wrapping_add(r)));
    always(sums.map((), |sum: u32| sum.wrapping_add(1)))
}

fn checksum_of_any<S: GenericSequence<u8>>(bytes: &S) -> u8
    ensures { result ≡ fold (λ total b. (total + b) % 2 ^ 8) 0 (S.items bytes.now) }
{
    bytes
        .view()
        .fold(0, |total: u8, b: &u8| total.wrapping_add(*b))
}

/// Sums place by place of two kinds.
fn place_sums<N: ArrayLength<u32>>(
    left: GenericArray<u32, N>,
    right: GenericArrayRef<'_, u32, N>,
) -> GenericArray<u32, N>
    ensures { result ≡ map (λ p. (p.0 + p.1) % 2 ^ 32) (zip left (items_of_view right.entry)) }
{
    left.zip_inline_ref(right, |l: &u32, r: &u32| l.wrapping_add(*r))
}

/// The value of a polynomial at x, with the highest coefficient last.
fn value_from_lowest<N: Unsigned>(coefficients: BoxedArray<u32, N>, x: u32) -> u32
    ensures { result ≡ fold (λ value c. (value * x % 2 ^ 32 + c) % 2 ^ 32) 0
        (reverse coefficients) }
{
    coefficients.into_iter().rfold(
        0,
        |value: u32, c: u32| value.wrapping_mul(x).wrapping_add(c),
    )
}

/// The sum, where it fits its type. Its condition is one line of proof.
fn sum_of<N: ArrayLength<u32>>(view: GenericArrayRef<'_, u32, N>) -> u32
    requires bound { sum (items_of_view view) < 2 ^ 32 }
    ensures { result ≡ sum (items_of_view view.entry) }
{
    total_by(view, 0, &mut |total: u32, item: &u32| total + *item)
}

fn counted_up_boxed<N: Unsigned>(
    alloc: Global,
    first: usize,
) -> Result<BoxedArray<usize, N>, AllocError>
    ensures { IfOk result (λ made.
        made ≡ map (λ index. (first + index) % 2 ^ 64) (range_with_len 0 N.USIZE)) }
{
    BoxedArray::generate(alloc, |index| first.wrapping_add(index))
}

/// Digits in some base, or the first byte that is none.
fn digits_of_view<N: ArrayLength<u8>>(
    text: GenericArrayRef<'_, u8, N>,
    base: u8,
) -> Result<GenericArray<u8, N>, u8>
    requires { FitsInline N.USIZE }
    ensures { result ≡ try_map (digit_of base) (items_of_view text.entry) }
{
    always(text.try_map((), |byte: &u8| digit_in(base, *byte)))
}
