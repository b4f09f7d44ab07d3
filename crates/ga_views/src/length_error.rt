//! The error of a wrong number of items.
ghost use Rattle.std.specs.Prelude.{Some, codes};

use std::error::Error;
use std::fmt;

/// A slice, a vector or an iterator had another number of items than the length asks for.
///
/// Unlike that of the Rust crate it can be compared.
#[derive(Clone, Copy, Debug, PartialEq, Eq)]
pub struct LengthError;

impl fmt::Display for LengthError {
    ghost output = { λ _. Some
        (codes "LengthError: Slice or iterator does not match GenericArray length") };

    ghost styled_output = { λ _ _. Some
        (codes "LengthError: Slice or iterator does not match GenericArray length") };

    fn fmt<W: fmt::Write>(&self, f: &mut fmt::Formatter<W>) -> fmt::Result {
        f.write_str("LengthError: Slice or iterator does not match GenericArray length")
    }
}

impl Error for LengthError {}
