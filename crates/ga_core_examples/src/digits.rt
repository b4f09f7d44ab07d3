//! The digits that callers read from text.
ghost use Rattle.ga_core_examples.specs.Digits.{digit_of};
ghost use Rattle.std.specs.Prelude.{◌≡◌, ◌+◌, ◌<◌, ◌⊎◌, IfErr, IfOk};

/// The digit that a byte stands for, or the byte where it is none.
pub fn decimal_digit(byte: &u8) -> Result<u8, u8>
    ensures digit { IfOk result (λ digit. byte.now ≡ digit + 48) }
    ensures other { IfErr result (λ other. (other < 48) ⊎ (57 < other)) }
{
    if byte.is_ascii_digit() {
        Ok(*byte - b'0')
    } else {
        Err(*byte)
    }
}

/// The digit that a byte stands for in a base, or the byte where it is none.
pub fn digit_in(base: u8, byte: u8) -> Result<u8, u8>
    ensures { result ≡ digit_of base byte }
{
    if byte >= b'0' && byte - b'0' < base {
        Ok(byte - b'0')
    } else {
        Err(byte)
    }
}
