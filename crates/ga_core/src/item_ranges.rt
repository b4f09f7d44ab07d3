//! That numbers fit their type, as facts for a proof. No call does anything at run time.
//!
//! A proof knows the range of a slice's numbers, but not that of an array's: `as_slice` is generic,
//! and says nothing of numbers. Where a lemma needs it, call that of the items' type at
//! `array.as_slice()`.
ghost use Rattle.std.specs.Prelude.{ℕ, ◌<◌, ◌^◌, slice_index};

/// States that each number is below 2^8.
pub fn u8_fit(bytes: &[u8])
    ensures { (i : ℕ) → slice_index bytes.now i < 2 ^ 8 }
{
    let _ = bytes;
}

/// States that each number is below 2^16.
pub fn u16_fit(words: &[u16])
    ensures { (i : ℕ) → slice_index words.now i < 2 ^ 16 }
{
    let _ = words;
}

/// States that each number is below 2^32.
pub fn u32_fit(words: &[u32])
    ensures { (i : ℕ) → slice_index words.now i < 2 ^ 32 }
{
    let _ = words;
}

/// States that each number is below 2^64.
pub fn u64_fit(words: &[u64])
    ensures { (i : ℕ) → slice_index words.now i < 2 ^ 64 }
{
    let _ = words;
}
