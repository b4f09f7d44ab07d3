//! Callers at each kind of sequence, with exact results.
ghost use Rattle.generic_array.specs.Views.{items_of_view};
ghost use Rattle.std.specs.List.{zip};
ghost use Rattle.std.specs.Prelude.{◌≡◌, ℕ, ◌∷◌, [], ◌+◌, ◌*◌, ◌%◌, ◌^◌, ◌⊎◌, Err, IfOk, Ok, fold, if◌then◌else◌, map, nat_lt};

use generic_array::checks::map_total_by;
use generic_array::functional::{
    FunctionalSequence, MappedError, MappedGenericSequence, MappedPlace, MappedSequence,
    inverted_zip_by, inverted_zip2_by,
};
use generic_array::sequence::GenericSequence;
use generic_array::{
    AllocError, ArrayLength, BoxedArray, GenericArray, GenericArrayRef, InlineLength, U2, U3,
    always,
};
use std::alloc::Global;
use std::convert::AsSlice;

/// The dot product of two sequences, which may be of two kinds, over the traits alone.
fn dot_of<S, R>(
    left: S,
    place: MappedPlace<S, u32, u32>,
    right: R,
) -> Result<u32, MappedError<S, u32, u32>>
where
    S: FunctionalSequence<u32> + MappedGenericSequence<u32, u32> + IntoIterator<Item = u32>,
    R: GenericSequence<u32> + IntoIterator<Item = u32>,
    MappedSequence<S, u32, u32>: Drop,
    requires lengths { S.Length.USIZE ≡ R.Length.USIZE }
    requires fits { S.Mapped.Fits }
    requires by_value { ((x : ℕ) → S.entry x ≡ x) × ((x : ℕ) → R.entry x ≡ x) }
    ensures { IfOk result (λ dot. dot ≡ fold (λ total x. (total + x) % 2 ^ 32) 0
        (map (λ p. p.0 * p.1 % 2 ^ 32) (zip (S.items left) (R.items right)))) }
{
    let products = left.zip(place, right, |l: u32, r: u32| l.wrapping_mul(r))?;
    let items = products.as_slice().iter();
    Ok(items.fold(0, |total: u32, x: &u32| total.wrapping_add(*x)))
}

/// The first of each two items of two views, where the type of the items is open.
fn firsts_of_views<T: Copy + Default + Drop, N: ArrayLength<T> + InlineLength>(
    left: GenericArrayRef<'_, T, N>,
    right: GenericArrayRef<'_, T, N>,
) -> GenericArray<T, N>
    ensures { result ≡ map (λ p. p.0) (zip (items_of_view left.entry) (items_of_view right.entry)) }
{
    always(left.zip((), right, |l: &T, _r: &T| *l))
}

/// A zip of two kinds, which borrows its closure.
fn sums_of_boxed_and_view<N: ArrayLength<u32>>(
    alloc: Global,
    left: BoxedArray<u32, N>,
    right: GenericArrayRef<'_, u32, N>,
) -> Result<BoxedArray<u32, N>, AllocError>
    requires left { left ≡ 1 ∷ 2 ∷ 3 ∷ [] }
    requires right { items_of_view right ≡ 4 ∷ 5 ∷ 6 ∷ [] }
    ensures { IfOk result (λ sums. sums ≡ 5 ∷ 7 ∷ 9 ∷ []) }
{
    left.zip_by(alloc, right, &mut |l: u32, r: &u32| l.wrapping_add(*r))
}

fn sum_of_reference<N: ArrayLength<u32>>(array: &GenericArray<u32, N>) -> u32
    requires { array.now ≡ 1 ∷ 2 ∷ 3 ∷ [] }
    ensures { result ≡ 6 }
{
    array.fold_by(0, &mut |sum: u32, item: &u32| sum.wrapping_add(*item))
}

/// The sum, or an error where it is above 3.
fn up_to_three(sum: u32, item: &u32) -> Result<u32, u32>
    ensures { let total = (sum + item.now) % 2 ^ 32 in
        result ≡ (if nat_lt 3 total then Err total else Ok total) }
{
    let sum = sum.wrapping_add(*item);
    if sum > 3 { Err(sum) } else { Ok(sum) }
}

fn stopped_past_three_in_view(view: GenericArrayRef<'_, u32, U3>) -> Result<u32, u32>
    requires { items_of_view view ≡ 1 ∷ 3 ∷ 9 ∷ [] }
    ensures { result ≡ Err 4 }
{
    view.try_fold_by(0, &mut up_to_three)
}

/// The fold of a map.
fn digits_of_boxed(alloc: Global, array: BoxedArray<u32, U3>) -> Result<u32, AllocError>
    requires { array ≡ 1 ∷ 2 ∷ 3 ∷ [] }
    ensures { IfOk result (λ total. total ≡ 246) }
{
    map_total_by(
        array,
        alloc,
        &mut |item: u32| item.wrapping_mul(2),
        0,
        &mut |total: u32, item: u32| total.wrapping_mul(10).wrapping_add(item),
    )
}

/// A zip that its right side makes.
fn less_by_boxed(s: BoxedArray<u32, U2>, lhs: GenericArray<u32, U2>) -> GenericArray<u32, U2>
    requires s { s ≡ 1 ∷ 2 ∷ [] }
    requires lhs { lhs ≡ 10 ∷ 20 ∷ [] }
    ensures { result ≡ 9 ∷ 18 ∷ [] }
{
    inverted_zip_by(s, lhs, &mut |l: u32, r: u32| l.wrapping_sub(r))
}

fn boxed_less_by_view<N: ArrayLength<u32>>(
    alloc: Global,
    s: GenericArrayRef<'_, u32, N>,
    lhs: BoxedArray<u32, N>,
) -> Result<BoxedArray<u32, N>, AllocError>
    requires s { items_of_view s ≡ 1 ∷ 2 ∷ [] }
    requires lhs { lhs ≡ 10 ∷ 20 ∷ [] }
    ensures { IfOk result (λ made. made ≡ 9 ∷ 18 ∷ []) }
{
    inverted_zip2_by(s, alloc, lhs, &mut |l: u32, r: &u32| l.wrapping_sub(*r))
}

/// Returns how many calls were made: none where memory was refused.
fn calls_of_a_boxed_map(alloc: Global, array: BoxedArray<u32, U3>) -> u32
    requires { array ≡ 1 ∷ 2 ∷ 3 ∷ [] }
    ensures { (result ≡ 0) ⊎ (result ≡ 3) }
{
    let mut calls = 0u32;
    let _ = array.map_by(
        alloc,
        &mut |item: u32| {
            calls = calls.wrapping_add(1);
            item
        },
    );
    calls
}
