//! Bytes as hex text, through a writer or in a format.
ghost use Rattle.ga_views.specs.HexText.{hex_digits, hex_text};
ghost use Rattle.std.specs.Fmt.{WritesStyledOnOk, spec_precision};
ghost use Rattle.std.specs.Io.KnownBytes.{Appends};
ghost use Rattle.std.specs.Prelude.{◌≡◌, ◌*◌, ◌<◌, ◌≤◌, [], ◌++◌, IfSome, IsNone, IsOk, OnOk, Some, length, take};

use hex::encode_to_slice;
use std::io::Write;
use std::{fmt, io, str};

// How many digits `write_hex` makes at once.
const LONG_TEXT: usize = 2048;

// How many digits `HexText` makes at once: a buffer for the few of a digest is quickly cleared.
const SHORT_TEXT: usize = 128;

/// Writes two hex digits for each byte, the high half first, in lower case or, if `upper` is set,
/// in upper case; at most `limit` digits. An odd limit cuts inside a byte.
///
/// Calls the writer once for each piece of 1,024 bytes, and not at all if there are no digits.
/// Allocates nothing. If the writer fails, nothing is said of how much of the text it got.
///
/// The counterpart of `fmt::LowerHex` and `fmt::UpperHex` of an array, with `limit` for a
/// formatter's precision.
// Inlined, so that where the number of bytes is known, no more of the buffer is cleared than the
// text takes. The price is a caller's frame that may hold all 2 KiB.
#[inline]
pub fn write_hex<W: Write>(
    bytes: &[u8],
    upper: bool,
    limit: Option<usize>,
    w: &mut W,
) -> io::Result<()>
    ensures text { OnOk result (Appends (W.contents w.old) (W.contents w.new)
        (hex_text upper limit bytes.now)) }
    ensures empty { hex_text upper limit bytes.now ≡ [] → IsOk result }
{
    let mut buffer = [0; LONG_TEXT];
    let mut digits = Digits::new(bytes, upper, limit);
    while let Some(text) = digits.next_text(&mut buffer) {
        w.write_all(text)?;
    }
    Ok(())
}

/// Bytes that print as hex text: two digits for each byte, the high half first.
///
/// A precision is how many digits there are at most: `{:.3}` prints three. A width and flags change
/// nothing. Writes once for each piece of 64 bytes, and not at all if there are no digits.
/// Allocates nothing.
///
/// The counterpart of `fmt::LowerHex` and `fmt::UpperHex` of an array: `{}` of it is their `{:x}`
/// or `{:X}`.
#[derive(Clone, Copy)]
pub struct HexText<'a> {
    /// The bytes.
    pub bytes: &'a [u8],
    /// Whether the digits are in upper case.
    pub upper: bool,
}

impl fmt::Display for HexText<'_> {
    ghost output = { λ text. Some (hex_digits text.upper text.bytes.now) };

    ghost styled_output = { λ text options.
        Some (hex_text text.upper (spec_precision options) text.bytes.now) };

    fn fmt<W: fmt::Write>(&self, f: &mut fmt::Formatter<W>) -> fmt::Result {
        show_pieces(self.bytes, self.upper, f.precision(), f)
    }
}

// As `write_hex`, into a formatter.
fn show_pieces<W: fmt::Write>(
    bytes: &[u8],
    upper: bool,
    limit: Option<usize>,
    f: &mut fmt::Formatter<W>,
) -> fmt::Result
    ensures text { WritesStyledOnOk W.write_str_gives f.old result
        (hex_text upper limit bytes.now) f.new }
    ensures empty { hex_text upper limit bytes.now ≡ [] → IsOk result }
{
    let mut buffer = [0; SHORT_TEXT];
    let mut digits = Digits::new(bytes, upper, limit);
    while let Some(shown) = digits.next_text(&mut buffer) {
        let Ok(text) = str::from_utf8(shown) else {
            unreachable!();
        };
        f.write_str(text)?;
    }
    Ok(())
}

// The first `count` digits of the bytes: those that are still to be written.
#[derive(Drop)]
struct Digits<'a> {
    bytes: &'a [u8],
    upper: bool,
    count: usize,
    ghost enough: { count ≤ 2 * length bytes.now },
}

impl<'a> Digits<'a> {
    ghost use Rattle.ga_views.specs.Digits.{digits_left};

    // All digits, or as many as the limit lets through.
    #[inline]
    fn new(bytes: &'a [u8], upper: bool, limit: Option<usize>) -> Self
        ensures { digits_left result ≡ hex_text upper limit bytes.now }
    {
        let all = 2 * bytes.len();
        Digits {
            bytes,
            upper,
            count: limit.unwrap_or(all).min(all),
        }
    }

    // Takes the next digits, as many as the buffer has room for whole bytes. Puts them there.
    #[inline(always)]
    fn next_text<'b>(&mut self, buffer: &'b mut [u8]) -> Option<&'b [u8]>
        requires { 2 ≤ length buffer.old }
        ensures none { IsNone result → digits_left self.old ≡ [] }
        ensures some { IfSome result (λ text. (0 < length text.now)
            × (digits_left self.old ≡ text.now ++ digits_left self.new)) }
    {
        if self.count == 0 {
            return None;
        }
        let (piece, behind) = self.bytes.split_at(self.bytes.len().min(buffer.len() / 2));
        let text = put_piece(piece, self.upper, self.count, buffer);
        self.bytes = behind;
        self.count -= text.len();
        Some(text)
    }
}

// Puts the digits of a piece into the buffer, and returns the first `count` of them, or all if they
// are fewer.
#[inline(always)]
fn put_piece<'a>(piece: &[u8], upper: bool, count: usize, digits: &'a mut [u8]) -> &'a [u8]
    requires { 2 * length piece.now ≤ length digits.old }
    ensures { result.now ≡ take count (hex_digits upper piece.now) }
{
    let text = &mut digits[..2 * piece.len()];
    put_digits(piece, upper, text);
    &text[..count.min(text.len())]
}

// Puts the digits of the bytes over a text of twice their length.
#[inline]
#[tactic(auto, using(crate::proofs::HexLemmas::uppercase_lower))]
fn put_digits(bytes: &[u8], upper: bool, text: &mut [u8])
    requires { length text.old ≡ 2 * length bytes.now }
    ensures { text.new ≡ hex_digits upper bytes.now }
{
    // The text has room, so this succeeds.
    let _ = encode_to_slice(bytes, text);
    if upper {
        text.make_ascii_uppercase();
    }
}
