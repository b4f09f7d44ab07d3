//! Writing the rows of an input.
ghost use Rattle.generic_array.specs.Views.{items_of_chunks, items_of_view};
ghost use Rattle.generic_array.specs.Rows.{chunk_rest, rows};
ghost use Rattle.ga_rows.specs.Text.{line, lines, lines_of, rest_line, row_lines, row_text, text_of};
ghost use Rattle.ga_rows.specs.Arguments.{row_len};
ghost use Rattle.std.specs.Io.KnownBytes.{Appends, append_known};
ghost use Rattle.std.specs.Prelude.{◌≡◌, ◌≢◌, ◌+◌, ◌<◌, ◌≤◌, ◌↔◌, [], ◌++◌, IfOk, IsOk, IsTrue, OnOk, length, reverse, sum};

use crate::arguments::{Mode, Width};
use crate::buffer::{PIECE_SIZE, Piece};
use generic_array::checks::total_by;
use generic_array::hex_text::write_hex;
use generic_array::{ArrayLength, ChunksRef, GenericArrayRef, U1, U2, U4, U8, U16};
use std::io;
use std::io::Write;

// More bytes than any line has: `rest ` and sixteen numbers of three digits with what follows each.
const LONGEST_LINE: usize = 5 + 16 * 4 + 1;

/// Writes a line for each whole row of `input`, and one for the bytes that are left. Returns
/// whether there are any.
///
/// Collects the text in a piece of 8 KiB and calls the writer once for each full piece and once
/// for the end, or not at all if there is no text. Allocates nothing. If the writer fails, nothing
/// is said of how much of the text it got.
pub fn rows<W: Write>(input: &[u8], mode: Mode, width: Width, w: &mut W) -> Result<bool, io::Error>
    ensures text { OnOk result (Appends (W.contents w.old) (W.contents w.new)
        (text_of mode width input.now)) }
    ensures rest { IfOk result (λ has_rest.
        IsTrue has_rest ↔ (chunk_rest (row_len width) input.now ≢ [])) }
    ensures empty { input.now ≡ [] → IsOk result }
{
    match width {
        Width::W1 => rows_of::<U1, W>(input, mode, w),
        Width::W2 => rows_of::<U2, W>(input, mode, w),
        Width::W4 => rows_of::<U4, W>(input, mode, w),
        Width::W8 => rows_of::<U8, W>(input, mode, w),
        Width::W16 => rows_of::<U16, W>(input, mode, w),
    }
}

// The rows of `N` bytes.
fn rows_of<N: ArrayLength<u8>, W: Write>(
    input: &[u8],
    mode: Mode,
    w: &mut W,
) -> Result<bool, io::Error>
    requires width { 0 < N.USIZE }
    requires few { N.USIZE ≤ 16 }
    ensures text { OnOk result (Appends (W.contents w.old) (W.contents w.new)
        (lines_of mode N.USIZE input.now)) }
    ensures rest { IfOk result (λ has_rest. IsTrue has_rest ↔ (chunk_rest N.USIZE input.now ≢ [])) }
    ensures empty { input.now ≡ [] → IsOk result }
{
    let (chunks, rest) = ChunksRef::<u8, N>::chunks_from_slice(input);
    let mut piece = Piece::new();
    put_rows(&mut piece, w, mode, &chunks)?;
    put_rest(&mut piece, w, rest)?;
    hand_over(&mut piece, w)?;
    Ok(!rest.is_empty())
}

// Puts the lines of all rows behind the piece, in the order of the mode.
// Each mode has a copy of the loop and of `put_row` that knows it, so that no row asks for it.
#[inline]
fn put_rows<N: ArrayLength<u8>, W: Write>(
    piece: &mut Piece,
    w: &mut W,
    mode: Mode,
    chunks: &ChunksRef<'_, u8, N>,
) -> Result<(), io::Error>
    requires { N.USIZE ≤ 16 }
    ensures text { OnOk result (Appends (append_known (W.contents w.old) piece.old)
        (append_known (W.contents w.new) piece.new)
        (row_lines mode (rows N.USIZE (items_of_chunks chunks.now)))) }
    ensures empty { rows N.USIZE (items_of_chunks chunks.now) ≡ [] → IsOk result
        × (piece.new ≡ piece.old) }
{
    match mode {
        Mode::Dec => put_from_first(piece, w, Mode::Dec, chunks),
        Mode::Hex => put_from_first(piece, w, Mode::Hex, chunks),
        Mode::Back => put_from_first(piece, w, Mode::Back, chunks),
        Mode::Sum => put_from_first(piece, w, Mode::Sum, chunks),
        Mode::Last => put_from_last(piece, w, chunks),
    }
}

// Puts the lines of all rows behind the piece, from the first on.
#[inline(always)]
fn put_from_first<N: ArrayLength<u8>, W: Write>(
    piece: &mut Piece,
    w: &mut W,
    mode: Mode,
    chunks: &ChunksRef<'_, u8, N>,
) -> Result<(), io::Error>
    requires { N.USIZE ≤ 16 }
    ensures text { OnOk result (Appends (append_known (W.contents w.old) piece.old)
        (append_known (W.contents w.new) piece.new)
        (lines mode (rows N.USIZE (items_of_chunks chunks.now)))) }
    ensures empty { rows N.USIZE (items_of_chunks chunks.now) ≡ [] → IsOk result
        × (piece.new ≡ piece.old) }
{
    for row in chunks.iter() {
        if !piece.has_room(LONGEST_LINE) {
            hand_over(piece, w)?;
        }
        put_row(piece, mode, row)?;
    }
    Ok(())
}

// Puts the lines of all rows behind the piece, from the last on.
#[inline(always)]
fn put_from_last<N: ArrayLength<u8>, W: Write>(
    piece: &mut Piece,
    w: &mut W,
    chunks: &ChunksRef<'_, u8, N>,
) -> Result<(), io::Error>
    requires { N.USIZE ≤ 16 }
    ensures text { OnOk result (Appends (append_known (W.contents w.old) piece.old)
        (append_known (W.contents w.new) piece.new)
        (lines Mode.Last (reverse (rows N.USIZE (items_of_chunks chunks.now))))) }
    ensures empty { rows N.USIZE (items_of_chunks chunks.now) ≡ [] → IsOk result
        × (piece.new ≡ piece.old) }
{
    for row in chunks.iter().rev() {
        if !piece.has_room(LONGEST_LINE) {
            hand_over(piece, w)?;
        }
        put_row(piece, Mode::Last, row)?;
    }
    Ok(())
}

// Puts the line of one row behind the piece.
// The error is that of `write_hex`, whose contract can't say of any writer that it doesn't fail.
#[inline(always)]
fn put_row<N: ArrayLength<u8>>(
    piece: &mut Piece,
    mode: Mode,
    row: GenericArrayRef<'_, u8, N>,
) -> Result<(), io::Error>
    requires few { N.USIZE ≤ 16 }
    requires room { length piece.old + LONGEST_LINE ≤ PIECE_SIZE }
    ensures { OnOk result (piece.new ≡ piece.old
        ++ line (row_text mode (items_of_view row.entry))) }
{
    match mode {
        Mode::Dec | Mode::Last => piece.push_numbers(row.as_slice()),
        Mode::Hex => write_hex(row.as_slice(), false, None, piece)?,
        Mode::Back => piece.push_numbers_back(row.as_slice()),
        Mode::Sum => piece.push_decimal(sum_of(row)),
    }
    piece.push(b'\n');
    Ok(())
}

// The sum of a row's bytes.
#[inline]
fn sum_of<N: ArrayLength<u8>>(row: GenericArrayRef<'_, u8, N>) -> u16
    requires { N.USIZE ≤ 16 }
    ensures value { result ≡ sum (items_of_view row.entry) }
    ensures small { sum (items_of_view row.entry) < 10000 }
{
    total_by(row, 0, &mut |sum: u16, byte: &u8| sum + u16::from(*byte))
}

// Puts the line of the bytes that fill no row behind the piece, if there are any.
fn put_rest<W: Write>(piece: &mut Piece, w: &mut W, rest: &[u8]) -> Result<(), io::Error>
    requires { length rest.now ≤ 16 }
    ensures text { OnOk result (Appends (append_known (W.contents w.old) piece.old)
        (append_known (W.contents w.new) piece.new) (rest_line rest.now)) }
    ensures empty { rest.now ≡ [] → IsOk result × (piece.new ≡ piece.old) }
{
    if rest.is_empty() {
        return Ok(());
    }
    if !piece.has_room(LONGEST_LINE) {
        hand_over(piece, w)?;
    }
    piece.push_text("rest ");
    piece.push_numbers(rest);
    piece.push(b'\n');
    Ok(())
}

// Writes the piece, if it has text, and clears it.
fn hand_over<W: Write>(piece: &mut Piece, w: &mut W) -> Result<(), io::Error>
    ensures text { OnOk result (Appends (W.contents w.old) (W.contents w.new) piece.old) }
    ensures cleared { OnOk result (piece.new ≡ []) }
    ensures empty { piece.old ≡ [] → IsOk result }
{
    if !piece.as_slice().is_empty() {
        w.write_all(piece.as_slice())?;
        piece.clear();
    }
    Ok(())
}

#[cfg(test)]
mod tests;
