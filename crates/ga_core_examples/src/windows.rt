//! Windows of numbers, of any length: moved on, kept in a ring, counted, searched and in order.
ghost use Rattle.ga_core.specs.Length.{FitsInline};
ghost use Rattle.std.specs.List.Sorted.{IsNonDecreasing};
ghost use Rattle.std.specs.List.{IsFirstMaxByKey, range_with_len};
ghost use Rattle.std.specs.Prelude.{◌≡◌, ◌==◌, ◌+◌, ◌/◌, ◌<◌, ◌≤◌, ◌++◌, ◌∷◌, [], ℕ, IfErr, IfOk, IsPermutation, count_by, drop, length, map, nat_le, pos, replicate, slice_index, slice_index_or, take, take_while};

use ga_core::{ArrayBuilder, ArrayLength, GenericArray, InlineLength};
use std::marker::Model;

fn move_on<N: ArrayLength<i32>>(window: &mut GenericArray<i32, N>, sample: i32)
    requires { 0 < N.USIZE }
    ensures { window.new ≡ drop 1 window.old ++ sample ∷ [] }
{
    let samples = window.as_mut_slice();
    // Before the rotation: after it the clause stays open.
    samples[0] = sample;
    samples.rotate_left(1);
}

/// The last `N` samples, in a ring: contracts see them from the oldest to the newest.
#[derive(Drop)]
struct DelayLine<N: ArrayLength<i16>> {
    samples: GenericArray<i16, N>,
    /// The index of the oldest.
    at: usize,
}

impl<N: ArrayLength<i16>> Model for DelayLine<N> {
    ghost use Rattle.ga_core.specs.Length.{FitsInline};
    ghost use Rattle.std.specs.Prelude.{◌<◌, ◌++◌, ℤ, List, drop, take};

    ghost Value = { List ℤ };

    ghost view = { λ line. drop line.at line.samples ++ take line.at line.samples };

    ghost invariant = { λ line. (line.at < N.USIZE) × FitsInline N.USIZE };
}

impl<N: ArrayLength<i16> + InlineLength> DelayLine<N> {
    /// A line of zeros.
    fn new() -> Self
        requires { 0 < N.USIZE }
        ensures { result ≡ replicate N.USIZE (pos 0) }
    {
        DelayLine {
            samples: GenericArray::from_copies(0),
            at: 0,
        }
    }

    /// Puts a sample in the place of the oldest, which it returns.
    fn push(&mut self, sample: i16) -> i16
        ensures oldest { result ≡ slice_index_or self.old 0 (pos 0) }
        ensures line { self.new ≡ drop 1 self.old ++ sample ∷ [] }
    {
        let oldest = self.samples[self.at];
        self.samples[self.at] = sample;
        self.at = if self.at + 1 == N::USIZE {
            0
        } else {
            self.at + 1
        };
        oldest
    }
}

/// How many numbers fall into a bucket. Bucket 0 holds those below the width.
fn count_in<N: ArrayLength<u64>>(window: &GenericArray<u64, N>, width: u64, bucket: u64) -> u64
    requires { 0 < width }
    ensures { result ≡ count_by (λ x. x / width == bucket) window.now }
{
    window.iter().filter(|x| **x / width == bucket).count() as u64
}

/// Where the numbers begin and end that have only zeros before and behind them, by two loops.
fn part_between_zeros<N: ArrayLength<u64>>(window: &GenericArray<u64, N>) -> (usize, usize)
    ensures order { result.0 ≤ result.1 }
    ensures bound { result.1 ≤ N.USIZE }
    ensures front { (k : ℕ) → k < result.0 → slice_index window.now k ≡ 0 }
    ensures end { (k : ℕ) → result.1 ≤ k → k < N.USIZE → slice_index window.now k ≡ 0 }
{
    let items = window.as_slice();
    let mut from = 0;
    let mut to = items.len();
    while from < to && items[from] == 0 {
        from += 1;
    }
    while from < to && items[to - 1] == 0 {
        to -= 1;
    }
    (from, to)
}

/// How many numbers fall into each of the first K buckets. Those above them aren't counted.
fn histogram<N: ArrayLength<u64>, K: ArrayLength<u64>>(
    window: &GenericArray<u64, N>,
    width: u64,
) -> GenericArray<u64, K>
    requires fits { FitsInline K.USIZE }
    requires width { 0 < width }
    ensures { result ≡ map (λ bucket. count_by (λ x. x / width == bucket) window.now)
        (range_with_len 0 K.USIZE) }
{
    GenericArray::generate(
        |bucket: usize| -> u64
            requires { 0 < width }
        { count_in(window, width, bucket as u64) },
    )
}

/// Where the greatest number stands first.
fn argmax<N: ArrayLength<u64>>(window: &GenericArray<u64, N>) -> usize
    requires { 0 < N.USIZE }
    ensures { IsFirstMaxByKey (λ x. x) window.now N.USIZE result }
{
    let items = window.as_slice();
    let mut best = 0;
    for i in 1..items.len() {
        if items[best] < items[i] {
            best = i;
        }
    }
    best
}

fn sort<N: ArrayLength<u64>>(numbers: &mut GenericArray<u64, N>)
    ensures same { IsPermutation numbers.old numbers.new }
    ensures order { IsNonDecreasing numbers.new }
{
    numbers.sort_unstable();
}

/// How many scores in front aren't below another.
fn place_of(scores: &[u32], score: u32) -> usize
    ensures { result ≡ length (take_while (λ other. nat_le score other) scores.now) }
{
    scores.iter().take_while(|other| **other >= score).count()
}

/// Inserts a score into a list that falls, which falls then too.
#[tactic(auto, using(ga_core::proofs::OrderLemmas::falling))]
fn insert_in_order<N: ArrayLength<u32>>(scores: &mut ArrayBuilder<u32, N>, score: u32)
    requires room { length scores.old < N.USIZE }
    requires order { (k : ℕ) → k + 1 < length scores.old
        → slice_index scores.old (k + 1) ≤ slice_index scores.old k }
    ensures same { IsPermutation (score ∷ scores.old) scores.new }
    ensures order { (k : ℕ) → k + 1 < length scores.new
        → slice_index scores.new (k + 1) ≤ slice_index scores.new k }
{
    let place = place_of(scores.as_slice(), score);
    scores.insert(place, score);
}

/// An index of the number, or else that at which it would stand.
fn search_sorted<N: ArrayLength<u64>>(
    array: &GenericArray<u64, N>,
    item: u64,
) -> Result<usize, usize>
    requires { IsNonDecreasing array.now }
    ensures found { IfOk result (λ i. (i < N.USIZE) × (slice_index array.now i ≡ item)) }
    ensures absent { IfErr result (λ i. (i ≤ N.USIZE)
        × ((k : ℕ) → k < i → slice_index array.now k < item)
        × ((k : ℕ) → i ≤ k → k < N.USIZE → item < slice_index array.now k)) }
{
    array.binary_search(&item)
}
