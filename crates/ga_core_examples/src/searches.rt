//! Searches whose place or item is used, and tests of neighbours, without a loop.
ghost use Rattle.std.specs.Prelude.{◌≡◌, ◌≢◌, ◌==◌, ◌+◌, ◌<◌, ◌≤◌, ◌↔◌, [], ℕ, IfOk, IfSome, IsTrue, OnErr, drop, find, length, nat_lt, option_map, position, slice_index, slice_index_or, slice_set};

use ga_core::{ArrayLength, Const, GenericArray, InlineLength};

/// The place of a byte. Whoever goes on from it needs `bound`.
fn place_of(bytes: &[u8], byte: u8) -> Option<usize>
    ensures place { result ≡ position (λ other. other == byte) bytes.now }
    ensures bound { IfSome result (λ place. place < length bytes.now) }
{
    bytes.iter().position(|other| *other == byte)
}

/// The place of a byte behind others. `position(..).map(..)` in one function isn't proved.
fn place_from(bytes: &[u8], from: usize, byte: u8) -> Option<usize>
    requires { from ≤ length bytes.now }
    ensures { result ≡ option_map (λ place. place + from)
        (position (λ other. other == byte) (drop from bytes.now)) }
{
    place_of(&bytes[from..], byte).map(|place| place + from)
}

/// The first number above a level.
fn first_above(numbers: &[u32], level: u32) -> Option<u32>
    ensures { result ≡ find (λ number. nat_lt level number) numbers.now }
{
    numbers.iter().copied().find(|number| *number > level)
}

/// There is no free place.
struct Full;

/// Writes a mark over the first 0, and returns its place.
fn drop_mark<H: ArrayLength<u8>>(column: &mut GenericArray<u8, H>, mark: u8) -> Result<usize, Full>
    ensures ok { IfOk result (λ place. (place < H.USIZE) × (slice_index column.old place ≡ 0)
        × (column.new ≡ slice_set column.old place mark)) }
    ensures err { OnErr result (column.new ≡ column.old) }
    ensures full { OnErr result ((k : ℕ) → k < H.USIZE → slice_index column.old k ≢ 0) }
{
    match place_of(column.as_slice(), 0) {
        Some(place) => {
            column[place] = mark;
            Ok(place)
        }
        None => Err(Full),
    }
}

/// Writes a mark into a column of a board, which stays as it is where the column is full.
fn play<H: ArrayLength<u8> + InlineLength, const W: usize>(
    board: &mut GenericArray<GenericArray<u8, H>, Const<W>>,
    column: usize,
    mark: u8,
) -> Result<usize, Full>
    requires { column < W }
    ensures ok { IfOk result (λ place. board.new ≡ slice_set board.old column
        (slice_set (slice_index_or board.old column []) place mark)) }
    ensures err { OnErr result (board.new ≡ board.old) }
{
    drop_mark(&mut board[column], mark)
}

/// Whether no number is above the one before it.
fn falls(numbers: &[u32]) -> bool
    ensures { IsTrue result ↔ ((k : ℕ) → k + 1 < length numbers.now
        → slice_index numbers.now (k + 1) ≤ slice_index numbers.now k) }
{
    (0..numbers.len().saturating_sub(1)).all(
        |k: usize| -> bool
            requires { k + 1 < length numbers.now }
        { numbers[k + 1] <= numbers[k] },
    )
}
