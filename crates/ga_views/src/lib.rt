//! Lengths that are types, the error of a wrong length, and views of slices.
//!
//! The lowest crate of the library: nothing here owns items. A `GenericArrayRef` or
//! `GenericArrayMut` is a slice of exactly `N` items, a `ChunksRef` or `ChunksMut` a slice of rows
//! of `N`; their lengths have no bound. `hex_text` writes bytes as hex digits.
#![tactic(auto)]

mod array_ref;
mod chunk_iter;
mod chunks_mut;
mod chunks_ref;
/// Bytes as hex text.
pub mod hex_text;
mod length;
mod length_error;
/// References to slices that a view can borrow on for writing.
pub mod reborrow;
mod view_mut;

pub use array_ref::GenericArrayRef;
pub use chunk_iter::ChunkIter;
pub use chunks_mut::{ChunksMut, ChunksViewMut};
pub use chunks_ref::ChunksRef;
pub use length::named::{
    U0, U1, U2, U3, U4, U5, U6, U7, U8, U9, U10, U11, U12, U13, U14, U15, U16, U17, U18, U19, U20,
    U21, U22, U23, U24, U25, U26, U27, U28, U29, U30, U31, U32, U33, U34, U35, U36, U37, U38, U39,
    U40, U41, U42, U43, U44, U45, U46, U47, U48, U49, U50, U51, U52, U53, U54, U55, U56, U57, U58,
    U59, U60, U61, U62, U63, U64, U128, U256, U512, U1024, U2048,
};
pub use length::{Const, InlineLength, MAX_INLINE, Unsigned};
pub use length_error::LengthError;
pub use view_mut::{GenericArrayMut, ViewMut};
