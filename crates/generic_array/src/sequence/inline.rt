//! The inline array as a sequence.
ghost use Rattle.ga_boxed.specs.Placed.{IfPlaced, IsPlaced};
ghost use Rattle.ga_core.specs.Length.{FitsInline};
ghost use Rattle.generic_array.specs.EntryLaws.{left_given};
ghost use Rattle.std.specs.Prelude.{◌≡◌, ⊤};

use crate::sequence::{FallibleGenericSequence, FromFallibleIterator, GenericSequence};
use ga_core::{
    AllocError, ArrayLength, FillError, GenericArray, GenericArrayRef, LengthError, Never,
};

/// A length fits up to `MAX_INLINE`. Allocates nothing.
impl<T: Default + Drop, N: ArrayLength<T>> GenericSequence<T> for GenericArray<T, N> {
    type Length = N;

    type Sequence = GenericArray<T, N>;

    type Place = ();

    type Error = Never;

    ghost Fits = { FitsInline N.USIZE };

    ghost entry = { λ item. item };

    ghost NeedsNoMemory = { ⊤ };

    fn fits() -> bool {
        GenericArray::<T, N>::fits()
    }

    #[inline]
    fn view(&self) -> GenericArrayRef<'_, T, N> {
        GenericArray::view(self)
    }

    #[inline]
    fn generate_by<F: FnMut(usize) -> T>(
        place: (),
        f: &mut F,
    ) -> Result<GenericArray<T, N>, Never> {
        Ok(GenericArray::generate_by(f))
    }

    #[inline]
    fn repeat(place: (), item: T) -> Result<GenericArray<T, N>, AllocError>
    where
        T: Clone,
    {
        GenericArray::repeat(item)
    }

    ghost empty_needs_no_memory = { λ _. tt };

    ghost gives_entries = { λ array items gives. (tt, tt, left_given items array gives.0) };

    ghost gives_items = { λ array items gives. (tt, tt, left_given items array gives.0) };
}

impl<T: Default + Drop, N: ArrayLength<T>> FallibleGenericSequence<T> for GenericArray<T, N> {
    #[inline]
    fn try_generate_by<F: FnMut(usize) -> Result<T, E>, E>(
        place: (),
        f: &mut F,
    ) -> Result<Result<GenericArray<T, N>, E>, Never> {
        Ok(GenericArray::try_generate_by(f))
    }
}

// The result of a fallible fill that needs no allocator.
fn with_no_place<A, E>(answer: Result<Result<A, E>, LengthError>) -> Result<A, FillError<E, Never>>
    ensures same { IfPlaced result (λ built. built ≡ answer) }
    ensures placed { IsPlaced result }
{
    match answer {
        Ok(Ok(array)) => Ok(array),
        Ok(Err(error)) => Err(FillError::Item(error)),
        Err(refused) => Err(FillError::Length(refused)),
    }
}

impl<T: Default + Drop, N: ArrayLength<T>> FromFallibleIterator<T> for GenericArray<T, N> {
    fn from_fallible_iter_ref<I: Iterator<Item = Result<T, E>>, E: Drop>(
        place: (),
        items: &mut I,
    ) -> Result<GenericArray<T, N>, FillError<E, Never>> {
        with_no_place(GenericArray::try_from_fallible_iter_ref(items))
    }
}
