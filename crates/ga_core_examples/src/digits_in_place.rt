//! Numbers as digits that change in place, in a loop: divided, multiplied, and written out.
#![tactic(auto, using(ga_core::proofs::DigitLemmas::digits))]

ghost use Rattle.ga_core.specs.Digits.{number_low};
ghost use Rattle.ga_core_examples.specs.Digits.{number_of};
ghost use Rattle.std.specs.Prelude.{◌≡◌, ◌+◌, ◌*◌, ◌<◌, ◌^◌, length};

use ga_core::{ArrayBuilder, GenericArray, U10};

/// Divides a number, highest byte first, by 58, and returns the rest.
fn take_digit(number: &mut [u8]) -> u8
    ensures digit { result < 58 }
    ensures number { 58 * number_of 256 number.new + result ≡ number_of 256 number.old }
{
    let mut rest = 0u16;
    for byte in number.iter_mut() {
        let value = rest * 256 + u16::from(*byte);
        *byte = (value / 58) as u8;
        rest = value % 58;
    }
    rest as u8
}

/// Multiplies a number, lowest byte first, by 58, adds a digit, and returns what goes over.
fn put_digit(number: &mut [u8], digit: u8) -> u8
    requires { digit < 58 }
    ensures over { result < 58 }
    ensures number { number_low 256 number.new + 256 ^ length number.old * result
        ≡ 58 * number_low 256 number.old + digit }
{
    let mut over = u16::from(digit);
    for byte in number.iter_mut() {
        let value = u16::from(*byte) * 58 + over;
        *byte = (value % 256) as u8;
        over = value / 256;
    }
    over as u8
}

/// The ten digits of a number, the lowest first.
fn ten_digits(number: u32) -> GenericArray<u8, U10>
    ensures { number_low 10 result ≡ number }
{
    let mut digits = ArrayBuilder::new();
    let mut left = number;
    for _ in 0..10u32 {
        digits.push((left % 10) as u8);
        left /= 10;
    }
    digits.finish()
}
