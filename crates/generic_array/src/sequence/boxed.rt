//! The boxed array as a sequence.
ghost use Rattle.generic_array.specs.EntryLaws.{left_given};
ghost use Rattle.std.specs.Prelude.{⊤, ◌≡◌};

use crate::sequence::{FallibleGenericSequence, FromFallibleIterator, GenericSequence};
use ga_boxed::BoxedArray;
use ga_core::{AllocError, FillError, GenericArrayRef, Unsigned};
use std::alloc::Global;

/// Each length fits. An allocation may fail, unless there is no item.
impl<T: Drop, N: Unsigned> GenericSequence<T> for BoxedArray<T, N> {
    type Length = N;

    type Sequence = BoxedArray<T, N>;

    type Place = Global;

    type Error = AllocError;

    ghost Fits = { ⊤ };

    ghost entry = { λ item. item };

    ghost NeedsNoMemory = { N.USIZE ≡ 0 };

    fn fits() -> bool {
        true
    }

    #[inline]
    fn view(&self) -> GenericArrayRef<'_, T, N> {
        BoxedArray::view(self)
    }

    #[inline]
    fn generate_by<F: FnMut(usize) -> T>(
        place: Global,
        f: &mut F,
    ) -> Result<BoxedArray<T, N>, AllocError> {
        BoxedArray::generate_by(place, f)
    }

    #[inline]
    fn repeat(place: Global, item: T) -> Result<BoxedArray<T, N>, AllocError>
    where
        T: Clone,
    {
        BoxedArray::repeat(place, item)
    }

    ghost empty_needs_no_memory = { λ empty. empty };

    ghost gives_entries = { λ array items gives. (tt, tt, left_given items array gives.0) };

    ghost gives_items = { λ array items gives. (tt, tt, left_given items array gives.0) };
}

impl<T: Drop, N: Unsigned> FallibleGenericSequence<T> for BoxedArray<T, N> {
    #[inline]
    fn try_generate_by<F: FnMut(usize) -> Result<T, E>, E>(
        place: Global,
        f: &mut F,
    ) -> Result<Result<BoxedArray<T, N>, E>, AllocError> {
        BoxedArray::try_generate_by(place, f)
    }
}

impl<T: Drop, N: Unsigned> FromFallibleIterator<T> for BoxedArray<T, N> {
    fn from_fallible_iter_ref<I: Iterator<Item = Result<T, E>>, E: Drop>(
        place: Global,
        items: &mut I,
    ) -> Result<BoxedArray<T, N>, FillError<E, AllocError>> {
        BoxedArray::try_boxed_from_fallible_iter_ref(place, items)
    }
}
