//! The error of a key stream that ends.
ghost use Rattle.std.specs.Prelude.{Some, codes};

use std::error::Error;
use std::fmt;

/// The key stream would end before the text does. Nothing was changed.
#[derive(Clone, Copy, Debug, PartialEq, Eq)]
pub struct StreamEnd;

impl fmt::Display for StreamEnd {
    ghost output = { λ _. Some (codes "the key stream ends before the text does") };

    ghost styled_output = { λ _ _. Some (codes "the key stream ends before the text does") };

    fn fmt<W: fmt::Write>(&self, f: &mut fmt::Formatter<W>) -> fmt::Result {
        f.write_str("the key stream ends before the text does")
    }
}

impl Error for StreamEnd {}
