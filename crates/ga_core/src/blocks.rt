//! Loops in blocks: turns of a fixed number of calls, which the compiler unrolls.

use std::mem;

/// How many calls a block makes.
#[doc(hidden)]
pub const BLOCK: usize = 8;

/// Whether a closure takes at most a word of memory. One that reads two other sequences takes more:
/// of its calls in a plain loop the compiler makes vector code.
#[doc(hidden)]
#[inline(always)]
pub fn fits_a_word<F>(f: &F) -> bool {
    mem::size_of_val(f) <= mem::size_of::<usize>()
}
