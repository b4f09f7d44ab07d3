//! Arrays whose length is a type, in a block of memory of their own.
//!
//! Contracts see a `BoxedArray<T, N>` as the list of its items, which are exactly `N`. The items
//! need no `Default`, and the length has no bound of its own. Builds allocate the whole block
//! first, and return `AllocError` if that fails. `BoxedArrayIter` takes the items from both ends of
//! the block.
#![tactic(auto)]

mod boxed_array;
mod boxed_array_iter;
mod live_block;

pub use boxed_array::BoxedArray;
pub use boxed_array_iter::BoxedArrayIter;
pub use live_block::LiveBlock;
