//! Rows of a slice written over, of any width: one, and each in a loop.
ghost use Rattle.ga_core.specs.Rows.{chunk_count, chunk_rest, rows};
ghost use Rattle.std.specs.Prelude.{◌≡◌, ◌*◌, ◌<◌, length, map, reverse};

use ga_core::{ChunksMut, Unsigned};

/// Reverses each row of a slice without a rest.
fn reverse_rows<N: Unsigned>(slice: &mut [u8])
    requires whole { length slice.old ≡ chunk_count N.USIZE slice.old * N.USIZE }
    ensures { rows N.USIZE slice.new ≡ map reverse (rows N.USIZE slice.old) }
{
    let count = ChunksMut::<u8, N>::over(slice).len();
    for index in 0..count {
        let mut rows = ChunksMut::<u8, N>::over(slice);
        rows.row_mut(index).reverse();
    }
}

/// Reverses each whole row of a slice. The rest stays as it is.
fn reverse_whole_rows<N: Unsigned>(slice: &mut [u8])
    requires wide { 0 < N.USIZE }
    ensures rows { rows N.USIZE slice.new ≡ map reverse (rows N.USIZE slice.old) }
    ensures rest { chunk_rest N.USIZE slice.new ≡ chunk_rest N.USIZE slice.old }
{
    let (whole, _) = ChunksMut::<u8, N>::whole_and_rest(slice);
    reverse_rows::<N>(whole);
}
