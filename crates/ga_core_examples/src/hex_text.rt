//! Bytes as hex text.
ghost use Rattle.ga_core.specs.HexText.{hex_digits};
ghost use Rattle.std.specs.Io.KnownBytes.{Appends};
ghost use Rattle.std.specs.Prelude.{◌≡◌, ◌++◌, IfOk, OnOk, codes, false, string_bytes, take, true};

use ga_core::{ArrayLength, GenericArray, U3};
use std::alloc::{AllocError, Allocator};
use std::io;
use std::io::Write;

/// Writes the bytes as hex text in upper case.
pub fn upper_digits_written<N: ArrayLength<u8>, W: Write>(
    row: &GenericArray<u8, N>,
    w: &mut W,
) -> Result<(), io::Error>
    ensures { OnOk result (Appends (W.contents w.old) (W.contents w.new)
        (hex_digits true row.now)) }
{
    row.write_upper_hex(w, None)
}

/// Writes so many digits in lower case.
fn lower_digits_written<N: ArrayLength<u8>, W: Write>(
    row: &GenericArray<u8, N>,
    w: &mut W,
    limit: usize,
) -> Result<(), io::Error>
    ensures { OnOk result (Appends (W.contents w.old) (W.contents w.new)
        (take limit (hex_digits false row.now))) }
{
    row.write_lower_hex(w, Some(limit))
}

fn three_digits<N: ArrayLength<u8>, A: Allocator>(
    alloc: A,
    row: &GenericArray<u8, N>,
) -> Result<String<A>, AllocError>
    ensures { IfOk result (λ text. string_bytes text ≡ take 3 (hex_digits false row.now)) }
{
    format!(in alloc; "{:.3}", row.lower_hex())
}

fn labelled_digits<N: ArrayLength<u8>, A: Allocator>(
    alloc: A,
    row: &GenericArray<u8, N>,
) -> Result<String<A>, AllocError>
    ensures { IfOk result (λ text. string_bytes text ≡ codes "0x" ++ hex_digits true row.now) }
{
    let digits = row.upper_hex();
    format!(in alloc; "0x{digits}")
}

#[test]
fn bytes_are_printed_as_digits(rt: HostRuntime) {
    let row: GenericArray<u8, U3> = GenericArray::from([10, 20, 30]);
    assert!(rt; three_digits(rt.alloc(), &row).is_ok_and(|text| text.as_str() == "0a1"));
    assert!(rt; labelled_digits(rt.alloc(), &row).is_ok_and(|text| text.as_str() == "0x0A141E"));
}
