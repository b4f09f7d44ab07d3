//! The read-only view as a sequence.
ghost use Rattle.ga_core.specs.Length.{FitsInline};
ghost use Rattle.ga_core.specs.Views.{items_of_view};
ghost use Rattle.generic_array.specs.EntryLaws.{left_given, references_given};
ghost use Rattle.std.specs.Prelude.{⊤};

use crate::sequence::{FallibleGenericSequence, GenericSequence};
use ga_core::{AllocError, ArrayLength, GenericArray, GenericArrayRef, Never};

/// Its entries are references. What is made of it is an inline array, so its lengths are those of
/// inline arrays.
impl<'a, T: Default + Drop, N: ArrayLength<T>> GenericSequence<T> for GenericArrayRef<'a, T, N> {
    type Length = N;

    type Sequence = GenericArray<T, N>;

    type Place = ();

    type Error = Never;

    ghost Fits = { FitsInline N.USIZE };

    ghost entry = { λ item. item.now };

    ghost NeedsNoMemory = { ⊤ };

    fn fits() -> bool {
        GenericArray::<T, N>::fits()
    }

    #[inline]
    fn view(&self) -> GenericArrayRef<'_, T, N> {
        *self
    }

    #[inline]
    fn generate_by<F: FnMut(usize) -> T>(
        place: (),
        f: &mut F,
    ) -> Result<GenericArray<T, N>, Never> {
        Ok(GenericArray::generate_by(f))
    }

    #[inline]
    fn repeat(place: (), item: T) -> Result<GenericArray<T, N>, AllocError>
    where
        T: Clone,
    {
        GenericArray::repeat(item)
    }

    ghost empty_needs_no_memory = { λ _. tt };

    ghost gives_entries = { λ view items gives. (
      tt,
      tt,
      references_given items (items_of_view view)
          gives.0,
    ) };

    ghost gives_items = { λ array items gives. (tt, tt, left_given items array gives.0) };
}

impl<'a, T: Default + Drop, N: ArrayLength<T>> FallibleGenericSequence<T>
    for GenericArrayRef<'a, T, N> {
    #[inline]
    fn try_generate_by<F: FnMut(usize) -> Result<T, E>, E>(
        place: (),
        f: &mut F,
    ) -> Result<Result<GenericArray<T, N>, E>, Never> {
        <GenericArray<T, N> as FallibleGenericSequence<T>>::try_generate_by(place, f)
    }
}
