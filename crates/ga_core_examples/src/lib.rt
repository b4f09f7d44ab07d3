//! Examples of inline arrays, views and rows, each proved: what the contracts of `ga_core` give to
//! those who use it alone.
//!
//! `specs/` cites `messages` and `records`, and the examples over all kinds read by `digits`.
#![tactic(auto, using(ga_core::proofs::Everyday::arrays))]

#[cfg(test)]
mod bits;
#[cfg(test)]
mod buckets;
#[cfg(test)]
mod builder_fills;
#[cfg(test)]
mod builders;
#[cfg(test)]
mod builds;
#[cfg(test)]
mod codecs;
/// The digits that callers read from text.
pub mod digits;
#[cfg(test)]
mod digits_in_place;
#[cfg(test)]
mod fixed_list;
#[cfg(test)]
mod hex_text;
#[cfg(test)]
mod iterators;
#[cfg(test)]
mod keys;
/// Messages as bytes and back.
pub mod messages;
#[cfg(test)]
mod own_errors;
#[cfg(test)]
mod own_traits;
#[cfg(test)]
mod parts;
#[cfg(test)]
mod plain_calls;
#[cfg(test)]
mod queue;
/// Records read from rows of bytes.
pub mod records;
#[cfg(test)]
mod row_closures;
#[cfg(test)]
mod row_searches;
#[cfg(test)]
mod row_writes;
#[cfg(test)]
mod rows;
#[cfg(test)]
mod searches;
#[cfg(test)]
mod signed;
#[cfg(test)]
mod slices;
#[cfg(test)]
mod view_loans;
#[cfg(test)]
mod views;
#[cfg(test)]
mod windows;
