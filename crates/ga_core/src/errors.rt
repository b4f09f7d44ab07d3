//! The errors of calls: no memory, a fallible fill's three, and the error of what can't fail.
ghost use Rattle.std.specs.Prelude.{◌≡◌, Ok, Some, codes};

use ga_views::LengthError;
use std::alloc::{self, AllocFailed};
use std::error::Error;
use std::fmt;

/// The error of a call that can't fail. There is no value of it.
pub use std::convert::Infallible as Never;

/// An allocation failed, or the clone of an item.
#[derive(Clone, Copy, Debug, PartialEq, Eq)]
pub struct AllocError;

impl fmt::Display for AllocError {
    ghost output = { λ _. Some (codes "memory allocation failed") };

    ghost styled_output = { λ _ _. Some (codes "memory allocation failed") };

    fn fmt<W: fmt::Write>(&self, f: &mut fmt::Formatter<W>) -> fmt::Result {
        f.write_str("memory allocation failed")
    }
}

impl Error for AllocError {}

impl From<alloc::AllocError> for AllocError {
    fn from(_refused: alloc::AllocError) -> AllocError {
        AllocError
    }
}

/// The value that found no memory is dropped.
impl<T: Drop> From<AllocFailed<T>> for AllocError {
    fn from(_refused: AllocFailed<T>) -> AllocError {
        AllocError
    }
}

/// So that `?` converts it in a function that returns std's error.
impl From<AllocError> for alloc::AllocError {
    fn from(_refused: AllocError) -> alloc::AllocError {
        alloc::AllocError
    }
}

/// Why an array wasn't filled from an iterator whose items may be errors.
#[derive(Debug, Drop)]
pub enum FillError<E, P> {
    /// There was no memory for the items. None was taken.
    Place(P),
    /// There was another number of items than the length asks for, and no error among the first.
    Length(LengthError),
    /// The first error among the first items.
    Item(E),
}

/// The value of a result that can't be an error.
#[inline]
pub fn always<T>(answer: Result<T, Never>) -> T
    ensures { answer ≡ Ok result }
{
    match answer {
        Ok(value) => value,
        // `match never {}` reads a byte, and an array of bytes isn't copied in one piece then.
        Err(_) => unreachable!(),
    }
}
