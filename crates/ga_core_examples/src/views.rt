//! Views of slices, read and written, whose length need not fit inline.
ghost use Rattle.ga_core.specs.Views.{items_of_view};
ghost use Rattle.std.specs.Prelude.{◌≡◌, ◌∷◌, [], ◌↔◌, IfOk, IsOk, IsTrue, fold, length, max, slice_get, sum};

use ga_core::{GenericArray, GenericArrayMut, GenericArrayRef, LengthError, U2, U3, Unsigned};

fn count_for_writing(slice: &mut [u8]) -> usize
    requires { length slice.old ≡ 2 }
    ensures { result ≡ 2 }
{
    GenericArray::<u8, U2>::from_mut_slice(slice)
        .iter_mut()
        .count()
}

fn sum_of_two(slice: &[u8]) -> u32
    requires { length slice.now ≡ 2 }
    ensures { result ≡ sum slice.now }
{
    let view = GenericArray::<u8, U2>::from_slice(slice);
    view.iter().map(|item| u32::from(*item)).sum()
}

fn item_got<N: Unsigned>(view: GenericArrayRef<'_, u8, N>, index: usize) -> Option<u8>
    ensures { result ≡ slice_get (items_of_view view.entry) index }
{
    view.get(index).copied()
}

fn view_of(slice: &[u8]) -> Result<GenericArrayRef<'_, u8, U3>, LengthError>
    ensures variant { IsOk result ↔ (length slice.now ≡ 3) }
    ensures ok { IfOk result (λ view. items_of_view view ≡ slice.now) }
{
    slice.try_into()
}

fn are_three(slice: &[u8]) -> bool
    ensures { IsTrue result ↔ (length slice.now ≡ 3) }
{
    GenericArray::<u8, U3>::try_from_slice(slice).is_ok()
}

fn are_three_for_writing(slice: &mut [u8]) -> bool
    ensures { IsTrue result ↔ (length slice.old ≡ 3) }
{
    GenericArray::<u8, U3>::try_from_mut_slice(slice).is_ok()
}

fn greatest_of<N: Unsigned>(row: GenericArrayRef<'_, u32, N>) -> u32
    ensures { result ≡ fold (λ best item. max best item) 0 (items_of_view row.entry) }
{
    row.fold(0, |best: u32, item: &u32| best.max(*item))
}

/// The digits of two views as one number, and the number of calls, by a closure that both folds
/// borrow.
fn digits_of_both(
    left: GenericArrayRef<'_, u32, U2>,
    right: GenericArrayRef<'_, u32, U2>,
) -> (u32, u32)
    requires left { items_of_view left ≡ 1 ∷ 2 ∷ [] }
    requires right { items_of_view right ≡ 3 ∷ 4 ∷ [] }
    ensures { result ≡ (1234, 4) }
{
    let mut calls = 0u32;
    let mut next = |digits: u32, digit: &u32| {
        calls = calls.wrapping_add(1);
        digits.wrapping_mul(10).wrapping_add(*digit)
    };
    let first = left.fold_by(0, &mut next);
    let all = right.fold_by(first, &mut next);
    (all, calls)
}

/// Raises each item of a slice of two.
fn raise_items(slice: &mut [u8]) {
    if let Ok(mut view) = GenericArrayMut::<u8, U2>::try_from_mut_slice(slice) {
        for item in view.iter_mut() {
            *item = item.wrapping_add(1);
        }
    }
}

#[test]
fn what_is_written_to_a_view_stands_in_its_slice(rt: HostRuntime) {
    let mut items = [4u8, 5];
    let mut view = GenericArray::<u8, U2>::from_mut_slice(&mut items);
    view[1] = 6;
    assert!(rt; items == [4, 6]);
}

#[test]
fn a_slice_of_four_is_no_view_of_three(rt: HostRuntime) {
    let view = GenericArrayRef::<u8, U3>::try_from_slice(&[1, 2, 3, 4]);
    assert!(rt; matches!(view, Err(LengthError)));
}

#[test]
fn a_view_writes_a_slice_of_its_length_alone(rt: HostRuntime) {
    let (mut two, mut three) = ([4u8, 5], [1u8, 2, 3]);
    raise_items(&mut two);
    raise_items(&mut three);
    assert!(rt; two == [5, 6] && three == [1, 2, 3]);
}
