//! A sequence of any kind is a list of exactly N items.
ghost use Rattle.std.specs.Prelude.{◌≡◌, length};

use generic_array::sequence::GenericSequence;

/// The items of a sequence, in order: as many as its length says.
pub fn items_of<T, S: GenericSequence<T>>(s: &S) -> &[T]
    ensures items { result.now ≡ S.items s.now }
    ensures len { length result.now ≡ S.Length.USIZE }
{
    s.view().into_slice()
}
