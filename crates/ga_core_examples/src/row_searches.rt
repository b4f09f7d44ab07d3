//! Rows of a slice, of any width, counted and searched by a prefix.
ghost use Rattle.ga_core.specs.Rows.{rows};
ghost use Rattle.ga_core.specs.Views.{items_of_chunks, items_of_view};
ghost use Rattle.std.specs.List.{list_any, starts_with};
ghost use Rattle.std.specs.Option.{option_map};
ghost use Rattle.std.specs.Prelude.{◌≡◌, count_by, find, nat_eq};

use ga_core::{ChunksRef, GenericArrayRef, Unsigned};

fn how_many_begin<N: Unsigned>(all: &ChunksRef<'_, u8, N>, prefix: &[u8]) -> usize
    ensures { result ≡ count_by (λ row. starts_with nat_eq row prefix.now)
        (rows N.USIZE (items_of_chunks all.now)) }
{
    all.iter().filter(|row| row.starts_with(prefix)).count()
}

fn one_begins<N: Unsigned>(all: &ChunksRef<'_, u8, N>, prefix: &[u8]) -> bool
    ensures { result ≡ list_any (λ row. starts_with nat_eq row prefix.now)
        (rows N.USIZE (items_of_chunks all.now)) }
{
    all.iter().any(|row| row.starts_with(prefix))
}

fn first_that_begins<'a, N: Unsigned>(
    all: &'a ChunksRef<'a, u8, N>,
    prefix: &[u8],
) -> Option<GenericArrayRef<'a, u8, N>>
    ensures { option_map items_of_view result ≡ find (λ row. starts_with nat_eq row prefix.now)
        (rows N.USIZE (items_of_chunks all.now)) }
{
    all.iter().find(|row| row.starts_with(prefix))
}
