//! Bytes read and written as numbers and text, of any length, each with its exact result. What
//! reads single bytes takes the slice of an array first: over the array itself the exact clause of
//! `be16_at` stays open.
ghost use Rattle.std.specs.Int.{from_be_bytes, w16};
ghost use Rattle.std.specs.Prelude.{◌≡◌, ◌+◌, ◌-◌, ◌<◌, ◌≤◌, ◌++◌, ◌∷◌, All, drop, if◌then◌else◌, length, map, nat_lt, replicate, take};

use ga_core::{ArrayLength, GenericArray, InlineLength};

fn be16_at<N: ArrayLength<u8>>(packet: &GenericArray<u8, N>, at: usize) -> u16
    requires room { at + 2 ≤ N.USIZE }
    ensures { result ≡ from_be_bytes w16 (take 2 (drop at packet.now)) }
{
    let bytes = packet.as_slice();
    u16::from_be_bytes([bytes[at], bytes[at + 1]])
}

fn padded_block<N: ArrayLength<u8> + InlineLength>(message: &[u8]) -> GenericArray<u8, N>
    requires room { length message.now < N.USIZE }
    ensures { result ≡ message.now ++ 128 ∷ replicate (N.USIZE - length message.now - 1) 0 }
{
    let mut block = GenericArray::default();
    let len = message.len();
    // Before the copy: after it the clause stays open.
    block[len] = 128;
    block[0..len].copy_from_slice(message);
    block
}

/// The letter or digit of RFC 4648 for five bits.
fn base32_digit(group: u8) -> u8
    requires { group < 32 }
    ensures { result ≡ (if nat_lt group 26 then group + 65 else group + 24) }
{
    if group < 26 {
        b'A' + group
    } else {
        b'2' + (group - 26)
    }
}

/// Returns the text of groups of five bits, by a call that has a `requires` for each.
fn base32<N: ArrayLength<u8>>(groups: GenericArray<u8, N>) -> GenericArray<u8, N>
    requires { All (λ group. group < 32) groups }
    ensures { result ≡ map (λ group. if nat_lt group 26 then group + 65 else group + 24) groups }
{
    groups.map_inline(|group: u8| base32_digit(group))
}
