//! Boxed arrays: builds, writes and iterators.
ghost use Rattle.std.specs.Prelude.{◌≡◌, ℕ, ◌+◌, ◌∷◌, [], ◌<◌, ◌⊎◌, IfErr, IfOk, IsOk, OnOk, drop, length, reverse, slice_get};

use ga_core_examples::digits::decimal_digit;
use generic_array::{AllocError, BoxedArray, FillError, LengthError, U2, U3, U4, Unsigned};
use std::alloc::Global;
use std::test::Fail;

fn calls_made(alloc: Global) -> u32
    ensures { (result ≡ 0) ⊎ (result ≡ 3) }
{
    let mut calls = 0u32;
    let _ = BoxedArray::<usize, U3>::generate_by(
        alloc,
        &mut |index: usize| {
            calls = calls.wrapping_add(1);
            index
        },
    );
    calls
}

fn refused_at_two(alloc: Global) -> Result<Result<BoxedArray<usize, U4>, usize>, AllocError>
    ensures { IfOk result (λ built. built ≡ Err 2) }
{
    BoxedArray::try_generate(
        alloc,
        |index| if index < 2 { Ok(index) } else { Err(index) },
    )
}

/// Returns the item behind those that filled the array, or the first where memory was refused.
fn next_after_a_fill(alloc: Global) -> Result<Option<u32>, Option<u32>>
    ensures filled { IfOk result (λ next. next ≡ None) }
    ensures refused { IfErr result (λ next. next ≡ Some 1) }
{
    let mut items = 1..3u32;
    match BoxedArray::<u32, U2>::try_boxed_from_iter_ref(alloc, &mut items) {
        Ok(Ok(_filled)) => Ok(items.next()),
        Ok(Err(_other_length)) => Ok(None),
        Err(_refused) => Err(items.next()),
    }
}

fn four_digits(alloc: Global, text: &[u8]) -> Result<BoxedArray<u8, U4>, FillError<u8, AllocError>>
    ensures long { OnOk result (length text.now ≡ 4) }
{
    BoxedArray::try_boxed_from_fallible_iter(alloc, text.iter().map(decimal_digit))
}

/// The digits that four bytes stand for, or why there are none. The iterator is borrowed.
fn four_digits_lent(
    alloc: Global,
    text: &[u8],
) -> Result<BoxedArray<u8, U4>, FillError<u8, AllocError>>
    ensures other { (byte : ℕ) → result ≡ Err (FillError.Item byte) → (byte < 48) ⊎ (57 < byte) }
    ensures long { OnOk result (length text.now ≡ 4) }
{
    let mut digits = text.iter().map(decimal_digit);
    BoxedArray::try_boxed_from_fallible_iter_ref(alloc, &mut digits)
}

fn sevens(alloc: Global) -> Result<BoxedArray<u8, U3>, AllocError>
    ensures { IfOk result (λ array. array ≡ 7 ∷ 7 ∷ 7 ∷ []) }
{
    BoxedArray::repeat(alloc, 7)
}

fn zeros(alloc: Global) -> Result<BoxedArray<u8, U3>, AllocError>
    ensures { IfOk result (λ array. array ≡ 0 ∷ 0 ∷ 0 ∷ []) }
{
    BoxedArray::default_boxed(alloc)
}

/// Returns the item behind `count` others, and how many are left behind it.
fn item_behind<N: Unsigned>(array: BoxedArray<u8, N>, count: usize) -> (Option<u8>, usize)
    ensures item { result.0 ≡ slice_get array count }
    ensures left { result.1 ≡ length (drop (count + 1) array) }
{
    let mut left = array.into_iter();
    let item = left.nth(count);
    (item, left.size_hint().0)
}

fn reverse_of<N: Unsigned>(
    alloc: Global,
    array: BoxedArray<u8, N>,
) -> Result<Result<BoxedArray<u8, N>, LengthError>, AllocError>
    ensures ok { IfOk result (λ built. IsOk built) }
    ensures items { IfOk result (λ built. IfOk built (λ turned. turned ≡ reverse array)) }
{
    BoxedArray::try_boxed_from_iter(alloc, array.into_iter().rev())
}

#[test]
fn a_build_stops_at_the_first_error(rt: HostRuntime) -> Result<(), Fail> {
    let alloc = rt.alloc();
    let digits = four_digits(alloc, &[b'1', b'2', b'3', b'4']);
    assert!(rt; digits.is_ok_and(|digits| digits.as_slice() == [1, 2, 3, 4].as_slice()));
    let other = four_digits(alloc, &[b'1', b'x', b'3', b'y']);
    assert!(rt; matches!(other, Err(FillError::Item(b'x'))));
    assert!(rt; matches!(refused_at_two(alloc)?, Err(2)));
    Ok(())
}
