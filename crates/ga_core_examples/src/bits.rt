//! Bits: packed into a byte, read by a mask, and unpacked. The set `bits` stands at the head of the
//! module.
#![tactic(auto, using(ga_core::proofs::BitLemmas::bits))]

ghost use Rattle.ga_core_examples.specs.Digits.{number_of};
ghost use Rattle.std.specs.Int.{bit_at};
ghost use Rattle.std.specs.Prelude.{◌≡◌, ◌+◌, ◌*◌, ◌/◌, ◌%◌, ◌<◌, ◌≤◌, ◌^◌, ◌↔◌, All, IsTrue, fold};

use ga_core::{GenericArray, U5, U8};

fn pack(a: u8, b: u8, c: u8, d: u8, e: u8, f: u8, g: u8, h: u8) -> u8
    requires a { a < 2 }
    requires b { b < 2 }
    requires c { c < 2 }
    requires d { d < 2 }
    requires e { e < 2 }
    requires f { f < 2 }
    requires g { g < 2 }
    requires h { h < 2 }
    ensures { result ≡ a * 128 + b * 64 + c * 32 + d * 16 + e * 8 + f * 4 + g * 2 + h }
{
    a << 7 | b << 6 | c << 5 | d << 4 | e << 3 | f << 2 | g << 1 | h
}

/// The items are taken out of the array before they are packed: `All` and `|` in one function leave
/// the clause open.
fn byte_of(bits: GenericArray<u8, U8>) -> u8
    requires { All (λ bit. bit < 2) bits }
    ensures { result ≡ fold (λ byte bit. byte * 2 + bit) 0 bits }
{
    let [a, b, c, d, e, f, g, h]: [u8; 8] = bits.into_array();
    pack(a, b, c, d, e, f, g, h)
}

/// Eleven bits of two bytes: groups that are larger than five bits have a function each, and
/// `small` lets others put them together.
fn eleven_of(b: u8, c: u8) -> u16
    ensures value { result ≡ b % 32 * 64 + c / 4 }
    ensures small { result < 2048 }
{
    u16::from(b & 31) << 6 | u16::from(c >> 2)
}

/// The highest bit that is set.
fn highest_bit(mask: u32) -> u32
    requires { 0 < mask }
    ensures least { 2 ^ result ≤ mask }
    ensures most { mask < 2 ^ (result + 1) }
{
    mask.ilog2()
}

fn has_flag(flags: u8) -> bool
    ensures { IsTrue result ↔ (flags / 64 % 2 ≡ 1) }
{
    flags & 64 != 0
}

fn has_bit(number: u32, place: u32) -> bool
    requires { place < 32 }
    ensures { IsTrue result ↔ (bit_at number place ≡ 1) }
{
    number & (1 << place) != 0
}

/// Base32: five bytes and eight groups of five bits are one number, whose highest digit comes first.
fn groups_of(bytes: GenericArray<u8, U5>) -> GenericArray<u8, U8>
    ensures number { number_of 32 result ≡ number_of 256 bytes }
    ensures each { All (λ group. group < 32) result }
{
    let [a, b, c, d, e]: [u8; 5] = bytes.into_array();
    GenericArray::from_array([
        a >> 3,
        (a & 7) << 2 | b >> 6,
        b >> 1 & 31,
        (b & 1) << 4 | c >> 4,
        (c & 15) << 1 | d >> 7,
        d >> 2 & 31,
        (d & 3) << 3 | e >> 5,
        e & 31,
    ])
}
