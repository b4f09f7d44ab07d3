//! Parts of arrays that are written, of a field too.
ghost use Rattle.std.specs.Prelude.{◌≡◌, ◌++◌, ◌∷◌, [], ◌<◌, ◌≤◌, ◌+◌, ◌-◌, drop, false, length, replicate, take, true};

use ga_core::{ArrayLength, GenericArray, InlineLength};
use std::marker::Model;

fn front_set<N: ArrayLength<u8>>(array: &mut GenericArray<u8, N>, bytes: &[u8])
    requires { length bytes.now ≤ N.USIZE }
    ensures { array.new ≡ bytes.now ++ drop (length bytes.now) array.old }
{
    array[0..bytes.len()].copy_from_slice(bytes);
}

/// All `false` but the last.
fn last_alone<N: ArrayLength<bool> + InlineLength>() -> GenericArray<bool, N>
    requires { 0 < N.USIZE }
    ensures { result ≡ replicate (N.USIZE - 1) false ++ true ∷ [] }
{
    let mut marks = GenericArray::from_copies(false);
    marks[N::USIZE - 1] = true;
    marks
}

#[derive(Drop)]
struct Packet<N: ArrayLength<u8>> {
    kind: u8,
    key: GenericArray<u8, N>,
}

fn key_part_set<N: ArrayLength<u8>>(packet: &mut Packet<N>, from: usize, bytes: &[u8])
    requires { from + length bytes.now ≤ N.USIZE }
    ensures key { packet.new.key ≡ take from packet.old.key
        ++ (bytes.now ++ drop (from + length bytes.now) packet.old.key) }
    ensures kind { packet.new.kind ≡ packet.old.kind }
{
    packet.key[from..from + bytes.len()].copy_from_slice(bytes);
}

/// A text of at most `N` bytes: contracts see the bytes that it has.
#[derive(Drop)]
struct Text<N: ArrayLength<u8>> {
    bytes: GenericArray<u8, N>,
    len: usize,
}

impl<N: ArrayLength<u8>> Model for Text<N> {
    ghost use Rattle.ga_core.specs.Length.{FitsInline};
    ghost use Rattle.std.specs.Prelude.{◌≤◌, ℕ, List, take};

    ghost Value = { List ℕ };

    ghost view = { λ text. take text.len text.bytes };

    ghost invariant = { λ text. (text.len ≤ N.USIZE) × FitsInline N.USIZE };
}

impl<N: ArrayLength<u8>> Text<N> {
    fn push(&mut self, bytes: &[u8])
        requires { length self.old + length bytes.now ≤ N.USIZE }
        ensures { self.new ≡ self.old ++ bytes.now }
    {
        let end = self.len + bytes.len();
        self.bytes[self.len..end].copy_from_slice(bytes);
        self.len = end;
    }
}

/// A number's bytes behind zeros, as a field of fixed width has them.
fn right_aligned<N: ArrayLength<u8> + InlineLength>(number: &[u8]) -> GenericArray<u8, N>
    requires room { length number.now ≤ N.USIZE }
    ensures { result ≡ replicate (N.USIZE - length number.now) 0 ++ number.now }
{
    let mut field = GenericArray::default();
    let zeros = N::USIZE - number.len();
    field[zeros..].copy_from_slice(number);
    field
}
