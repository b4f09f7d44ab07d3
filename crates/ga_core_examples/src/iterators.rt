//! Callers of the iterator by value, each proved.
ghost use Rattle.std.specs.Prelude.{◌≡◌, ◌+◌, ◌^◌, ◌<◌, All, IfOk, IsOk, Ok, drop, fold, length, max, reverse, slice_get, sum};

use ga_core::{AllocError, ArrayLength, GenericArray, GenericArrayIter, LengthError, U3};
use std::mem;

fn total<N: ArrayLength<u32>>(array: GenericArray<u32, N>) -> u32
    requires bound { sum array < 2 ^ 32 }
    ensures { result ≡ sum array }
{
    let mut total = 0;
    for item in array {
        total += item;
    }
    total
}

fn reverse_of<N: ArrayLength<u8>>(
    array: GenericArray<u8, N>,
) -> Result<GenericArray<u8, N>, LengthError>
    ensures ok { IsOk result }
    ensures items { IfOk result (λ turned. turned ≡ reverse array) }
{
    GenericArray::try_from_iter(array.into_iter().rev())
}

/// Returns the item behind `count` others, and how many are left behind it.
fn item_behind<N: ArrayLength<u8>>(array: GenericArray<u8, N>, count: usize) -> (Option<u8>, usize)
    ensures item { result.0 ≡ slice_get array count }
    ensures left { result.1 ≡ length (drop (count + 1) array) }
{
    let mut left = array.into_iter();
    let item = left.nth(count);
    (item, left.size_hint().0)
}

fn left_copied<N: ArrayLength<u8>>(
    left: &GenericArrayIter<u8, N>,
) -> Result<GenericArrayIter<u8, N>, AllocError>
    ensures { result ≡ Ok left.now }
{
    left.clone()
}

/// Moves the bytes of the key to `place`, and leaves zeros in the key.
fn move_over(key: &mut GenericArray<u8, U3>, place: &mut GenericArray<u8, U3>)
    ensures moved { place.new ≡ key.old }
    ensures wiped { All (λ byte. byte ≡ 0) key.new }
{
    mem::take(key).into_iter().move_to(place.as_mut_slice());
}

/// Returns the greatest item, or 0 of none, by a fold with a named function.
fn greatest_item<N: ArrayLength<u32>>(lanes: GenericArray<u32, N>) -> u32
    ensures { result ≡ fold (λ best lane. max best lane) 0 lanes }
{
    lanes.into_iter().fold(0, u32::max)
}
