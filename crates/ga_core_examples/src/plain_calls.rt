//! Callers of the plain calls of inline arrays, of any length, each with its exact result.
ghost use Rattle.ga_core_examples.specs.Digits.{digit_of};
ghost use Rattle.ga_core.specs.Tries.{try_map};
ghost use Rattle.std.specs.Int.Bits.{bit_xor};
ghost use Rattle.std.specs.List.{zip};
ghost use Rattle.std.specs.Prelude.{◌≡◌, ◌+◌, ◌/◌, ◌%◌, ◌<◌, ◌∷◌, [], All, Ok, map};

use crate::digits::digit_in;
use ga_core::{ArrayLength, BorrowedItems, GenericArray, U2, U3};

fn masked_copy<N: ArrayLength<u8>>(key: &GenericArray<u8, N>, mask: u8) -> GenericArray<u8, N>
    ensures { result ≡ map (λ b. bit_xor b mask) key.now }
{
    key.map_inline_ref(|b: &u8| *b ^ mask)
}

/// A captured number of which something has to hold: so does the closure say.
fn shares<N: ArrayLength<u32>>(numbers: &GenericArray<u32, N>, by: u32) -> GenericArray<u32, N>
    requires { 0 < by }
    ensures { result ≡ map (λ number. number / by) numbers.now }
{
    numbers.map_inline_ref(
        |number: &u32| -> u32
            requires { 0 < by }
        { *number / by },
    )
}

fn digits_of<N: ArrayLength<u8>>(
    text: GenericArray<u8, N>,
    base: u8,
) -> Result<GenericArray<u8, N>, u8>
    ensures { result ≡ try_map (digit_of base) text }
{
    text.try_map_inline(|byte: u8| digit_in(base, byte))
}

fn digits_of_borrowed<N: ArrayLength<u8>>(
    text: &GenericArray<u8, N>,
    base: u8,
) -> Result<GenericArray<u8, N>, u8>
    ensures { result ≡ try_map (digit_of base) text.now }
{
    text.try_map_inline_ref(|byte: &u8| digit_in(base, *byte))
}

/// The text of digits, and the digits that are read from it.
fn digits_read_back<N: ArrayLength<u8>>(
    digits: &GenericArray<u8, N>,
) -> Result<GenericArray<u8, N>, u8>
    requires { All (λ digit. digit < 10) digits.now }
    ensures { result ≡ Ok digits.now }
{
    digits_of_borrowed(&text_of(digits), 10)
}

fn text_of<N: ArrayLength<u8>>(digits: &GenericArray<u8, N>) -> GenericArray<u8, N>
    ensures { result ≡ map (λ digit. (digit + 48) % 256) digits.now }
{
    digits.map_inline_ref(|digit: &u8| digit.wrapping_add(b'0'))
}

/// Writes over what was there.
fn masked_in_place<N: ArrayLength<u8>>(text: &mut GenericArray<u8, N>, mask: &GenericArray<u8, N>)
    ensures { text.new ≡ map (λ p. bit_xor p.0 p.1) (zip text.old mask.now) }
{
    *text = text.zip_inline_ref(mask.view(), |t: &u8, m: &u8| *t ^ *m);
}

/// Two zips borrow one closure, which adds the number of its call to each sum.
fn calls_in_order(left: GenericArray<u32, U2>, right: GenericArray<u32, U2>) -> [u32; 4]
    requires left { left ≡ 10 ∷ 20 ∷ [] }
    requires right { right ≡ 1 ∷ 2 ∷ [] }
    ensures { result ≡ 12 ∷ 24 ∷ 14 ∷ 26 ∷ [] }
{
    let mut calls = 0u32;
    let mut numbered = |l: u32, r: u32| {
        calls = calls.wrapping_add(1);
        l.wrapping_add(r).wrapping_add(calls)
    };
    let seen = left.zip_inline_ref_by(right.view(), &mut |l: &u32, r: &u32| numbered(*l, *r));
    let moved = left.zip_inline_by(right, &mut numbered);
    [seen[0], seen[1], moved[0], moved[1]]
}

/// The running totals of two maps that borrow one closure.
fn running_totals(array: GenericArray<u32, U2>) -> (GenericArray<u32, U2>, GenericArray<u32, U2>)
    requires { array ≡ 1 ∷ 2 ∷ [] }
    ensures { result ≡ (1 ∷ 3 ∷ [], 4 ∷ 6 ∷ []) }
{
    let mut total = 0u32;
    let mut add = |item: u32| {
        total = total.wrapping_add(item);
        total
    };
    let by_reference = array.map_inline_ref_by(&mut |item: &u32| add(*item));
    let by_value = array.map_inline_by(&mut add);
    (by_reference, by_value)
}

/// The running totals above 3 at which two maps stop that borrow one closure.
fn stopped_totals(
    array: GenericArray<u32, U3>,
) -> (
    Result<GenericArray<u32, U3>, u32>,
    Result<GenericArray<u32, U3>, u32>,
)
    requires { array ≡ 1 ∷ 2 ∷ 3 ∷ [] }
    ensures { result ≡ (Err 6, Err 7) }
{
    let mut total = 0u32;
    let mut counted = |item: u32| {
        total = total.wrapping_add(item);
        if total > 3 { Err(total) } else { Ok(total) }
    };
    let by_reference = array.try_map_inline_ref_by(&mut |item: &u32| counted(*item));
    let by_value = array.try_map_inline_by(&mut counted);
    (by_reference, by_value)
}
