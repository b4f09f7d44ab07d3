//! One-time passwords: HOTP (RFC 4226), which counts, and TOTP (RFC 6238), which goes by the time.
//!
//! Nothing here allocates, and nothing fails.
ghost use Rattle.ga_hashes.specs.OneTimePassword.{code_of, digit_count, truncation};
ghost use Rattle.std.proofs.Common.{lit≤};
ghost use Rattle.std.specs.Int.NonZero.{non_zero_u64_get};
ghost use Rattle.std.specs.Prelude.{◌≡◌, ◌/◌, ◌^◌, ◌<◌, ◌≤◌, length};

use crate::hash_function::HashFunction;
use crate::hmac::tag_of;
use ga_core::ArrayLength;
use sha1::Sha1;
use sha2::{Sha256, Sha512};
use std::num::NonZeroU64;

/// How many decimal digits a code has.
#[derive(Debug, Clone, Copy, PartialEq, Eq)]
pub enum Digits {
    /// Six digits.
    Six,
    /// Seven digits.
    Seven,
    /// Eight digits.
    Eight,
}

/// A hash function whose digests have at least 20 bytes, as a code takes four bytes from one of 16
/// places. MD5 is none: its digests are too short.
pub trait LongDigest: HashFunction {
    // Four bytes stand at each place, of which the last is 15.
    ghost long: { 20 ≤ Self.OutputSize.USIZE };
}

impl LongDigest for Sha1 {
    ghost long = { lit≤ tt };
}

impl LongDigest for Sha256 {
    ghost long = { lit≤ tt };
}

impl LongDigest for Sha512 {
    ghost long = { lit≤ tt };
}

/// The code of a counter: HOTP. Costs one tag.
///
/// A code that is shorter than its digits is shown with zeros in front.
pub fn counter_code<H: LongDigest>(key: &[u8], counter: u64, digits: Digits) -> u32
    ensures code { result ≡ code_of H.digest H.BlockSize.USIZE key.now counter
        (digit_count digits) }
    ensures short { result < 10 ^ digit_count digits }
{
    truncation(tag_of::<H>(key, &counter.to_be_bytes()).as_slice()) % code_count(digits)
}

/// The code of a time: TOTP. Costs one tag.
///
/// `elapsed` is the seconds since the start that both sides agreed on (RFC 6238's T0, by default
/// the Unix epoch), and `step` the seconds for which a code holds, by default 30.
pub fn time_code<H: LongDigest>(key: &[u8], elapsed: u64, step: NonZeroU64, digits: Digits) -> u32
    ensures { result ≡ code_of H.digest H.BlockSize.USIZE key.now (elapsed / non_zero_u64_get step)
        (digit_count digits) }
{
    counter_code::<H>(key, elapsed / step.get(), digits)
}

// How many codes of so many digits there are.
fn code_count(digits: Digits) -> u32
    ensures { result ≡ 10 ^ digit_count digits }
{
    match digits {
        Digits::Six => 1_000_000,
        Digits::Seven => 10_000_000,
        Digits::Eight => 100_000_000,
    }
}

// The number that a tag is cut to, of 31 bits.
fn truncation(tag: &[u8]) -> u32
    requires { 20 ≤ length tag.now }
    ensures { result ≡ truncation tag.now }
{
    let offset = (tag[tag.len() - 1] % 16) as usize;
    let bytes = [
        tag[offset],
        tag[offset + 1],
        tag[offset + 2],
        tag[offset + 3],
    ];
    // Without the highest bit it is one number, whether it is read with a sign or without.
    u32::from_be_bytes(bytes) % (1 << 31)
}
