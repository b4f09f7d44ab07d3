//! Two slices of one length, compared block by block.
ghost use Rattle.std.specs.Cmp.Lexicographic.{pointwise, slice_cmp, slice_partial_cmp};
ghost use Rattle.std.specs.Prelude.{◌≡◌, ◌-◌, ◌<◌, ◌≤◌, drop, false, length, take, true};

use std::cmp::Ordering;
use std::mem;

// The bytes between two tests: shorter blocks take more instructions, and the loop over longer ones
// isn't unrolled for words.
const BLOCK_BYTES: usize = 512;

// Items of more bytes are left to std's comparison: their `eq` may be costly, and a block goes on
// past a difference.
const MOST_BYTES: usize = 8;

// `==` of the slices.
#[inline]
pub(crate) fn are_equal<T: PartialEq>(left: &[T], right: &[T]) -> bool
    requires len { length left.now ≡ length right.now }
    ensures equal { result ≡ pointwise T.eq left.now right.now }
{
    match left.first() {
        None => left == right,
        Some(item) => {
            if mem::size_of_val(item) > MOST_BYTES {
                left == right
            } else if left.len() <= block_of(item) {
                all_match(left, right)
            } else {
                equal_start(left, right, item) == left.len()
            }
        }
    }
}

// `cmp` of the slices.
#[inline]
pub(crate) fn total_order<T: Ord>(left: &[T], right: &[T]) -> Ordering
    requires len { length left.now ≡ length right.now }
    ensures order { result ≡ slice_cmp T.cmp left.now right.now }
{
    let start = order_start(left, right);
    left[start..].cmp(&right[start..])
}

// `partial_cmp` of the slices.
#[inline]
pub(crate) fn partial_order<T: PartialOrd>(left: &[T], right: &[T]) -> Option<Ordering>
    requires len { length left.now ≡ length right.now }
    ensures order { result ≡ slice_partial_cmp T.partial_cmp left.now right.now }
{
    let start = order_start(left, right);
    left[start..].partial_cmp(&right[start..])
}

// A place with only equal items before it, from which std's comparison is to go on.
#[inline]
fn order_start<T: PartialEq>(left: &[T], right: &[T]) -> usize
    requires len { length left.now ≡ length right.now }
    ensures within { result ≤ length left.now }
    ensures equal { pointwise T.eq (take result left.now) (take result right.now) ≡ true }
{
    match left.first() {
        None => 0,
        Some(item) => {
            if mem::size_of_val(item) > MOST_BYTES || left.len() <= block_of(item) {
                0
            } else {
                equal_start(left, right, item)
            }
        }
    }
}

// How many items at the start are equal: all, or those before the first block that is not. Never
// inlined, since at a known length the loop over the blocks would be unrolled too, into kilobytes.
// Takes an item and not a block's size, which would be no constant then.
#[inline(never)]
fn equal_start<T: PartialEq>(left: &[T], right: &[T], item: &T) -> usize
    requires len { length left.now ≡ length right.now }
    ensures within { result ≤ length left.now }
    ensures equal { pointwise T.eq (take result left.now) (take result right.now) ≡ true }
    ensures differs { result < length left.now → pointwise T.eq left.now right.now ≡ false }
{
    let block = block_of(item);
    let len = left.len();
    let mut start = 0;
    while len - start >= block {
        let end = start + block;
        if !parts_match(left, right, start, end) {
            return start;
        }
        start = end;
    }
    if parts_match(left, right, start, len) {
        len
    } else {
        start
    }
}

// How many items of this type a block has: at least one, for which the prover wants the second
// test, though no caller has items of more bytes.
#[inline]
fn block_of<T>(item: &T) -> usize
    ensures some { 0 < result }
{
    let size = mem::size_of_val(item);
    if size > 0 && size <= BLOCK_BYTES {
        BLOCK_BYTES / size
    } else {
        BLOCK_BYTES
    }
}

// `==` of the items from `start` up to `end`.
#[inline]
fn parts_match<T: PartialEq>(left: &[T], right: &[T], start: usize, end: usize) -> bool
    requires len { length left.now ≡ length right.now }
    requires ordered { start ≤ end }
    requires within { end ≤ length left.now }
    ensures equal { result ≡ pointwise T.eq (take (end - start) (drop start left.now))
        (take (end - start) (drop start right.now)) }
{
    all_match(&left[start..end], &right[start..end])
}

// `==` of the slices, with no exit on the way, so that the compiler makes vector code of it.
#[inline]
fn all_match<T: PartialEq>(left: &[T], right: &[T]) -> bool
    requires len { length left.now ≡ length right.now }
    ensures equal { result ≡ pointwise T.eq left.now right.now }
{
    let mut same = true;
    for (index, item) in left.iter().enumerate() {
        same &= *item == right[index];
    }
    same
}
