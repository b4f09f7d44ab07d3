//! Words of 16 bits as bytes and back, in both orders of bytes. The set `words` stands at the head
//! of the module, and has the lemmas of 32 and 64 bits too.
#![tactic(auto, using(generic_array::proofs::WordLemmas::words))]

ghost use Rattle.generic_array.specs.Rows.{rows};
ghost use Rattle.std.specs.Int.{from_be_bytes, from_le_bytes, to_be_bytes, to_le_bytes, w16};
ghost use Rattle.std.specs.List.{flat_map};
ghost use Rattle.std.specs.Prelude.{◌≡◌, map};

use generic_array::item_ranges::{u8_fit, u16_fit};
use generic_array::sequence::{Flatten, Unflatten};
use generic_array::{GenericArray, U2, U8, U16};

type Bytes = GenericArray<u8, U16>;

type Rows<W, N> = GenericArray<GenericArray<u8, W>, N>;

// The lemmas need the ranges of words and bytes, which `u8_fit` and `u16_fit` state. Writing and
// reading have to be functions of their own.

fn be_16_bytes(words: GenericArray<u16, U8>) -> Bytes
    ensures { result ≡ flat_map (to_be_bytes w16) words }
{
    let rows: Rows<U2, U8> = words.map_inline(|word| GenericArray::from_array(word.to_be_bytes()));
    rows.flatten()
}

fn be_16_words(bytes: Bytes) -> GenericArray<u16, U8>
    ensures { result ≡ map (from_be_bytes w16) (rows 2 bytes) }
{
    let rows: Rows<U2, U8> = bytes.unflatten();
    rows.map_inline(|row: GenericArray<u8, U2>| u16::from_be_bytes(row.into_array()))
}

fn be_16_words_back(words: GenericArray<u16, U8>) -> GenericArray<u16, U8>
    ensures { result ≡ words }
{
    u16_fit(words.as_slice());
    be_16_words(be_16_bytes(words))
}

fn be_16_bytes_back(bytes: Bytes) -> Bytes
    ensures { result ≡ bytes }
{
    u8_fit(bytes.as_slice());
    be_16_bytes(be_16_words(bytes))
}

fn le_16_bytes(words: GenericArray<u16, U8>) -> Bytes
    ensures { result ≡ flat_map (to_le_bytes w16) words }
{
    let rows: Rows<U2, U8> = words.map_inline(|word| GenericArray::from_array(word.to_le_bytes()));
    rows.flatten()
}

fn le_16_words(bytes: Bytes) -> GenericArray<u16, U8>
    ensures { result ≡ map (from_le_bytes w16) (rows 2 bytes) }
{
    let rows: Rows<U2, U8> = bytes.unflatten();
    rows.map_inline(|row: GenericArray<u8, U2>| u16::from_le_bytes(row.into_array()))
}

fn le_16_words_back(words: GenericArray<u16, U8>) -> GenericArray<u16, U8>
    ensures { result ≡ words }
{
    u16_fit(words.as_slice());
    le_16_words(le_16_bytes(words))
}

fn le_16_bytes_back(bytes: Bytes) -> Bytes
    ensures { result ≡ bytes }
{
    u8_fit(bytes.as_slice());
    le_16_bytes(le_16_words(bytes))
}
