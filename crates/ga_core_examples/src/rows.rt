//! Rows of slices, read and written, of any width where it can.
ghost use Rattle.ga_core.specs.Length.{FitsInline};
ghost use Rattle.ga_core.specs.Rows.{chunk_rest, rows};
ghost use Rattle.ga_core.specs.Views.{items_of_chunks, items_of_view};
ghost use Rattle.std.specs.Option.{option_map};
ghost use Rattle.std.specs.Prelude.{◌≡◌, ◌-◌, ◌/◌, ◌<◌, ◌↔◌, ◌++◌, ◌∷◌, [], IfOk, IfSome, IsOk, IsSome, length, map, reverse, slice_get, slice_index, slice_set};

use ga_core::{
    ArrayBuilder, ArrayLength, ChunksMut, ChunksRef, GenericArray, GenericArrayRef, LengthError,
    U0, U2, U3, Unsigned,
};

fn second_row_and_rest(slice: &[u8]) -> (Option<GenericArrayRef<'_, u8, U3>>, &[u8])
    requires { slice.now ≡ 1 ∷ 2 ∷ 3 ∷ 4 ∷ 5 ∷ 6 ∷ 7 ∷ [] }
    ensures has_row { IsSome result.0 }
    ensures row { IfSome result.0 (λ row. items_of_view row ≡ 4 ∷ 5 ∷ 6 ∷ []) }
    ensures rest { result.1.now ≡ 7 ∷ [] }
{
    let (chunks, rest) = ChunksRef::<u8, U3>::chunks_from_slice(slice);
    (chunks.get(1), rest)
}

fn all_rows_written(slice: &mut [u8])
    requires { length slice.old ≡ 4 }
    ensures { slice.new ≡ slice_set (slice_set slice.old 0 7) 3 8 }
{
    let mut rows: ChunksMut<u8, U2> = ChunksMut::over(slice);
    rows.as_mut_slice()[0] = 7;
    rows.row_mut(1)[1] = 8;
}

/// The first byte of each row of any width, if there are N rows.
fn firsts_of_rows<W: ArrayLength<u8>, N: ArrayLength<u8>>(
    bytes: &[u8],
) -> Result<GenericArray<u8, N>, LengthError>
    requires width { 0 < W.USIZE }
    requires fits { FitsInline N.USIZE }
    ensures is_ok { IsOk result ↔ (length bytes.now / W.USIZE ≡ N.USIZE) }
    ensures ok { IfOk result (λ firsts. firsts ≡ map (λ row. slice_index row 0) (rows W.USIZE bytes.now)) }
{
    let (rows, _) = GenericArray::<u8, W>::chunks_from_slice(bytes);
    GenericArray::try_from_iter(rows.iter().map(|row| row[0]))
}

/// Takes a piece of a message, and keeps the bytes that fill no row yet.
fn rest_kept<N: ArrayLength<u8>>(kept: &mut ArrayBuilder<u8, N>, bytes: &[u8])
    requires few { length kept.old < N.USIZE }
    ensures { kept.new ≡ chunk_rest N.USIZE (kept.old ++ bytes.now) }
{
    let missing = N::USIZE - kept.position();
    if bytes.len() < missing {
        kept.extend_from_slice(bytes);
        return;
    }
    let (_front, behind) = bytes.split_at(missing);
    let (_rows, rest) = ChunksRef::<u8, N>::chunks_from_slice(behind);
    kept.clear();
    kept.extend_from_slice(rest);
}

/// Returns the row that stands behind `count` others.
fn row_behind<'a, T, N: Unsigned>(
    chunks: &'a ChunksRef<'_, T, N>,
    count: usize,
) -> Option<GenericArrayRef<'a, T, N>>
    ensures { option_map items_of_view result
        ≡ slice_get (rows N.USIZE (items_of_chunks chunks.now)) count }
{
    chunks.iter().nth(count)
}

/// Returns the last row, and how many stand before it.
fn last_row<'a, T, N: Unsigned>(
    chunks: &'a ChunksRef<'_, T, N>,
) -> (Option<GenericArrayRef<'a, T, N>>, usize)
    ensures row { option_map items_of_view result.0
        ≡ slice_get (reverse (rows N.USIZE (items_of_chunks chunks.now))) 0 }
    ensures left { result.1 ≡ length (rows N.USIZE (items_of_chunks chunks.now)) - 1 }
{
    let mut left = chunks.iter();
    let row = left.nth_back(0);
    (row, left.len())
}

/// Whether there is this row.
fn is(row: Option<GenericArrayRef<'_, u8, U3>>, items: &[u8]) -> bool {
    matches!(row, Some(row) if row.into_slice() == items)
}

#[test]
fn a_slice_is_cut_into_rows_and_a_rest(rt: HostRuntime) {
    let (rows, rest) = ChunksRef::<u8, U3>::chunks_from_slice(&[1, 2, 3, 4, 5, 6, 7]);
    assert!(rt; rows.len() == 2 && rest == [7].as_slice());
    assert!(rt; is(rows.get(0), &[1, 2, 3]) && is(rows.get(1), &[4, 5, 6]));
    assert!(rt; rows.into_slice() == [1, 2, 3, 4, 5, 6].as_slice());
    let (none, rest) = ChunksRef::<u8, U0>::chunks_from_slice(&[]);
    assert!(rt; none.len() == 0 && rest.is_empty());
}

#[test]
fn rows_are_walked_from_both_ends(rt: HostRuntime) {
    let (rows, _) = ChunksRef::<u8, U3>::chunks_from_slice(&[1, 2, 3, 4, 5, 6, 7]);
    let (mut left, mut other) = (rows.iter(), rows.iter());
    assert!(rt; is(left.next_back(), &[4, 5, 6]) && is(left.next(), &[1, 2, 3]));
    assert!(rt; left.next_back().is_none());
    assert!(rt; is(other.nth_back(1), &[1, 2, 3]) && other.len() == 0);
    let (none, _) = ChunksRef::<u8, U0>::chunks_from_slice(&[]);
    assert!(rt; none.iter().next_back().is_none());
}

#[test]
fn fewer_items_than_a_row_has_are_the_rest(rt: HostRuntime) {
    let (none, rest) = ChunksRef::<u8, U3>::chunks_from_slice(&[1, 2]);
    assert!(rt; none.len() == 0 && rest == [1, 2].as_slice());
}

/// Writes 9 in front in row 1 and 6 in front of all, and returns how many bytes no row has.
fn written_through_rows(items: &mut [u8]) -> usize
    requires { length items.old ≡ 5 }
{
    let (mut rows, rest) = ChunksMut::<u8, U2>::chunks_from_slice_mut(items);
    if let Some(mut row) = rows.get_mut(1) {
        row.as_mut_slice()[0] = 9;
    }
    let count = rest.len();
    if let Some(first) = rows.into_slice().first_mut() {
        *first = 6;
    }
    count
}

/// Whether rows for writing show one row of three, and no second.
fn shows_one_row(items: &mut [u8]) -> bool {
    let (rows, _) = GenericArray::<u8, U3>::chunks_from_slice_mut(items);
    rows.get(1).is_none() && is(rows.get(0), &[6, 2, 9]) && is(rows.iter().next(), &[6, 2, 9])
}

#[test]
fn what_is_written_through_rows_stands_in_their_slice(rt: HostRuntime) {
    let mut items = [1, 2, 3, 4, 5];
    assert_eq!(rt; written_through_rows(&mut items), 1);
    assert!(rt; items == [6, 2, 9, 4, 5] && shows_one_row(&mut items));
    all_rows_written(&mut items[..4]);
    assert!(rt; items == [7, 2, 9, 8, 5]);
}
