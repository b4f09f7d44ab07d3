//! Functions that know the traits alone.
ghost use Rattle.std.specs.List.{range_with_len};
ghost use Rattle.std.specs.Prelude.{◌≡◌, ℕ, ◌<◌, ◌⊎◌, IfOk, IsOk, OnOk, length, map, refl, replicate};

use ga_core_examples::digits::decimal_digit;
use generic_array::sequence::{FromFallibleIterator, GenericSequence, Lengthen, Shorten};
use generic_array::{AllocError, ArrayLength, FillError, GenericArray};

fn sevens<S: GenericSequence<u8>>(place: S::Place) -> Result<S::Sequence, AllocError>
    requires fits { S.Fits }
    ensures items { IfOk result (λ made. S.Sequence.items made ≡ replicate S.Length.USIZE 7) }
    ensures given { S.NeedsNoMemory → IsOk result }
{
    S::repeat(place, 7)
}

fn places<S: GenericSequence<usize>>(place: S::Place) -> Result<S::Sequence, S::Error>
    requires fits { S.Fits }
    ensures items { IfOk result (λ made.
        S.Sequence.items made ≡ map (λ place. place) (range_with_len 0 S.Length.USIZE)) }
    ensures given { S.NeedsNoMemory → IsOk result }
{
    S::generate(place, |index| index)
}

/// A sequence to shorten and lengthen again: both traits name the same items, of it and of the
/// shorter.
trait ShortenAndLengthen<T, Shorter: Lengthen<T, Self>>: Shorten<T, Shorter> {
    ghost shorter_agrees: { (shorter : Shorter)
        → Self.shorter_items shorter ≡ Shorter.items shorter };

    ghost longer_agrees: { (longer : Self) → Shorter.longer_items longer ≡ Self.items longer };
}

impl<T: Default + Drop, N: ArrayLength<T>, M: ArrayLength<T>> ShortenAndLengthen<
    T,
    GenericArray<T, M>,
> for GenericArray<T, N> {
    ghost shorter_agrees = { λ shorter. refl };

    ghost longer_agrees = { λ longer. refl };
}

/// The last item popped and appended again, of whatever sequences these are.
fn pop_and_append<T, S: ShortenAndLengthen<T, L>, L: Lengthen<T, S>>(sequence: S) -> S
    requires shorter { S.IsOneShorter }
    requires longer { L.IsOneLonger }
    ensures { S.items result ≡ S.items sequence }
{
    let (others, last) = sequence.pop_back();
    others.append(last)
}

/// The digits that the bytes stand for, or why there are none. The iterator is borrowed.
fn digits_lent<S: FromFallibleIterator<u8>>(
    place: S::Place,
    text: &[u8],
) -> Result<S, FillError<u8, S::Error>>
    requires fits { S.Fits }
    ensures other { (byte : ℕ) → result ≡ Err (FillError.Item byte) → (byte < 48) ⊎ (57 < byte) }
    ensures long { OnOk result (length text.now ≡ S.Length.USIZE) }
{
    let mut digits = text.iter().map(decimal_digit);
    S::from_fallible_iter_ref(place, &mut digits)
}
