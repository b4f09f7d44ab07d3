//! Conversions from and to tuples of 1 to 12 items.

mod from_tuple;
mod to_tuple;
