//! Boxed arrays that are borrowed, mapped, zipped and folded, of any length.
ghost use Rattle.ga_core_examples.specs.Digits.{digit_of};
ghost use Rattle.generic_array.specs.Tries.{try_map};
ghost use Rattle.std.specs.List.{zip};
ghost use Rattle.std.specs.Prelude.{◌≡◌, ◌+◌, ◌∷◌, [], ◌⊎◌, IfOk, if◌then◌else◌, map, nat_lt};

use ga_core_examples::digits::digit_in;
use generic_array::{AllocError, BoxedArray, U3, Unsigned};
use std::test::Fail;

/// A row of pixels as black and white.
fn threshold<N: Unsigned>(
    row: &BoxedArray<u8, N>,
    least: u8,
) -> Result<BoxedArray<u8, N>, AllocError>
    ensures { IfOk result (λ made.
        made ≡ map (λ pixel. if nat_lt pixel least then 0 else 255) row.now) }
{
    row.map_ref(|pixel: &u8| if *pixel < least { 0 } else { 255 })
}

/// Two rows of pixels place by place, in items of another type.
fn blend<N: Unsigned>(
    left: &BoxedArray<u8, N>,
    right: &BoxedArray<u8, N>,
) -> Result<BoxedArray<u16, N>, AllocError>
    ensures { IfOk result (λ made. made ≡ map (λ p. p.0 + p.1) (zip left.now right.now)) }
{
    left.zip_ref(right.view(), |l: &u8, r: &u8| u16::from(*l) + u16::from(*r))
}

/// The digits of a text, or its first byte that is none.
fn digits_of<N: Unsigned>(
    text: &BoxedArray<u8, N>,
    base: u8,
) -> Result<Result<BoxedArray<u8, N>, u8>, AllocError>
    ensures { IfOk result (λ read. read ≡ try_map (digit_of base) text.now) }
{
    text.try_map_ref(|byte: &u8| digit_in(base, *byte))
}

/// Returns how many calls of a borrowed closure were made: none where memory was refused.
fn calls_of_a_map(array: &BoxedArray<u32, U3>) -> u32
    requires { array.now ≡ 1 ∷ 2 ∷ 3 ∷ [] }
    ensures { (result ≡ 0) ⊎ (result ≡ 3) }
{
    let mut calls = 0u32;
    let mut counted = |item: &u32| {
        calls = calls.wrapping_add(1);
        *item
    };
    let _ = array.map_ref_by(&mut counted);
    calls
}

fn calls_of_a_zip(array: &BoxedArray<u32, U3>) -> u32
    requires { array.now ≡ 1 ∷ 2 ∷ 3 ∷ [] }
    ensures { (result ≡ 0) ⊎ (result ≡ 3) }
{
    let mut calls = 0u32;
    let mut counted = |item: &u32, other: &u32| {
        calls = calls.wrapping_add(1);
        item.wrapping_add(*other)
    };
    let _ = array.zip_ref_by(array.view(), &mut counted);
    calls
}

/// The closure fails at the item 2.
fn calls_up_to_an_error(array: &BoxedArray<u32, U3>) -> u32
    requires { array.now ≡ 1 ∷ 2 ∷ 3 ∷ [] }
    ensures { (result ≡ 0) ⊎ (result ≡ 2) }
{
    let mut calls = 0u32;
    let mut counted = |item: &u32| {
        calls = calls.wrapping_add(1);
        if *item < 2 { Ok(*item) } else { Err(*item) }
    };
    let _ = array.try_map_ref_by(&mut counted);
    calls
}

#[test]
fn borrowed_blocks_are_mapped_and_zipped(rt: HostRuntime) -> Result<(), Fail> {
    let alloc = rt.alloc();
    let row = BoxedArray::<u8, U3>::from_array(alloc, [0, 127, 200])?;
    assert!(rt; threshold(&row, 127)?.as_slice() == [0, 255, 255].as_slice());
    let other = BoxedArray::<u8, U3>::from_array(alloc, [1, 2, 255])?;
    assert!(rt; blend(&row, &other)?.as_slice() == [1, 129, 455].as_slice());
    let text = BoxedArray::<u8, U3>::from_array(alloc, [b'7', b'9', b'8'])?;
    let digits = digits_of(&text, 10)?;
    assert!(rt; digits.is_ok_and(|digits| digits.as_slice() == [7, 9, 8].as_slice()));
    assert!(rt; matches!(digits_of(&text, 9)?, Err(b'9')));
    Ok(())
}

#[test]
fn lent_closures_are_called_in_order(rt: HostRuntime) -> Result<(), Fail> {
    let array = BoxedArray::<u32, U3>::from_array(rt.alloc(), [1, 2, 3])?;
    let mut total = 0u32;
    let mut add = |item: &u32| {
        total = total.wrapping_add(*item);
        total
    };
    assert!(rt; array.map_ref_by(&mut add)?.as_slice() == [1, 3, 6].as_slice());
    let twice = array.zip_ref_by(
        array.view(),
        &mut |l: &u32, r: &u32| add(l).wrapping_add(*r),
    )?;
    assert!(rt; twice.as_slice() == [8, 11, 15].as_slice());
    let stopped = array.try_map_ref_by(&mut |item: &u32| if *item < 2 {
        Ok(*item)
    } else {
        Err(add(item))
    })?;
    assert!(rt; matches!(stopped, Err(14)));
    assert!(rt; calls_of_a_map(&array) == 3 && calls_of_a_zip(&array) == 3);
    assert_eq!(rt; calls_up_to_an_error(&array), 2);
    Ok(())
}
