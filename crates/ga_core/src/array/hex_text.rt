//! Arrays of bytes as hex text.
ghost use Rattle.ga_views.specs.HexText.{hex_text};
ghost use Rattle.std.specs.Io.KnownBytes.{Appends};
ghost use Rattle.std.specs.Prelude.{◌≡◌, [], false, IsOk, OnOk, true};

use crate::array::GenericArray;
use crate::length::ArrayLength;
use ga_views::hex_text::{HexText, write_hex};
use std::io;
use std::io::Write;

impl<N: ArrayLength<u8>> GenericArray<u8, N> {
    /// Writes the bytes as hex text with `0123456789abcdef`, at most `limit` digits: see
    /// `hex_text::write_hex`. The counterpart of `fmt::LowerHex`.
    pub fn write_lower_hex<W: Write>(&self, w: &mut W, limit: Option<usize>) -> io::Result<()>
        ensures text { OnOk result (Appends (W.contents w.old) (W.contents w.new)
            (hex_text false limit self.now)) }
        ensures empty { hex_text false limit self.now ≡ [] → IsOk result }
    {
        write_hex(self.as_slice(), false, limit, w)
    }

    /// `write_lower_hex` with `0123456789ABCDEF`. The counterpart of `fmt::UpperHex`.
    pub fn write_upper_hex<W: Write>(&self, w: &mut W, limit: Option<usize>) -> io::Result<()>
        ensures text { OnOk result (Appends (W.contents w.old) (W.contents w.new)
            (hex_text true limit self.now)) }
        ensures empty { hex_text true limit self.now ≡ [] → IsOk result }
    {
        write_hex(self.as_slice(), true, limit, w)
    }

    /// The bytes, to be printed with `0123456789abcdef`: `format!(in alloc; "{:.3}",
    /// array.lower_hex())?` is their first three digits. Copies and allocates nothing. The
    /// counterpart of `fmt::LowerHex`.
    pub fn lower_hex(&self) -> HexText<'_>
        ensures bytes { result.bytes.now ≡ self.now }
        ensures lower { result.upper ≡ false }
    {
        HexText {
            bytes: self.as_slice(),
            upper: false,
        }
    }

    /// `lower_hex` with `0123456789ABCDEF`. The counterpart of `fmt::UpperHex`.
    pub fn upper_hex(&self) -> HexText<'_>
        ensures bytes { result.bytes.now ≡ self.now }
        ensures upper { result.upper ≡ true }
    {
        HexText {
            bytes: self.as_slice(),
            upper: true,
        }
    }
}
