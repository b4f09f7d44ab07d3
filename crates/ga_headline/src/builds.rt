//! A build of good items succeeds exactly where they are as many as there are places.
ghost use Rattle.generic_array.specs.Tries.{try_map};
ghost use Rattle.std.specs.Prelude.{◌≡◌, ◌≢◌, IfOk, IsOk, Ok, Result, length, map};

use generic_array::sequence::FromFallibleIterator;
use generic_array::{FillError, LengthError, Never};

/// The sequence of the items of a vector, of any kind that can be filled: `Ok` if and only if they
/// are `Length` and memory isn't refused, and `FillError::Length` only if they are another number.
pub fn build_of_items<T: Drop, S: FromFallibleIterator<T>>(
    place: S::Place,
    items: Vec<T>,
) -> Result<S, FillError<Never, S::Error>>
    requires fits { S.Fits }
    ensures only { IfOk result (λ made. length items.items ≡ S.Length.USIZE) }
    ensures items { IfOk result (λ made. S.items made ≡ items.items) }
    ensures exactly { S.NeedsNoMemory → length items.items ≡ S.Length.USIZE → IsOk result }
    ensures other { (error : LengthError) → result ≡ Err (FillError.Length error)
        → length items.items ≢ S.Length.USIZE }
{
    build_of_results(place, items)
}

// `build_of_items` at any error type. It says the items by `try_map`, as the run along std's `map`
// does.
fn build_of_results<T: Drop, E: Drop, S: FromFallibleIterator<T>>(
    place: S::Place,
    items: Vec<T>,
) -> Result<S, FillError<E, S::Error>>
    requires fits { S.Fits }
    ensures only { IfOk result (λ made. length items.items ≡ S.Length.USIZE) }
    ensures good { IfOk result (λ made.
        try_map (λ (item : Result T E). item) (map Ok items.items) ≡ Ok (S.items made)) }
    ensures exactly { S.NeedsNoMemory → length items.items ≡ S.Length.USIZE → IsOk result }
    ensures other { (error : LengthError) → result ≡ Err (FillError.Length error)
        → length items.items ≢ S.Length.USIZE }
{
    S::from_fallible_iter(
        place,
        items
            .into_iter()
            .map(|item: T| -> Result<T, E> { Ok(item) }),
    )
}
