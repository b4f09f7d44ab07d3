//! ChaCha20 (RFC 8439): its state, its block function, and its key stream.
//!
//! It hides a text, and doesn't show whether one was changed. No key and nonce may serve two texts.
ghost use Rattle.ga_ciphers.specs.ChaCha20.{bytes_of_words, chacha20_block, initial_state, words_of};
ghost use Rattle.rand_chacha.specs.Block.{column_round, diagonal_round, double_rounds, quarter_round, xor_rotate};
ghost use Rattle.std.proofs.Common.{lit≤};
ghost use Rattle.std.specs.Int.{from_le_bytes, to_le_bytes, w32};
ghost use Rattle.std.specs.Prelude.{◌≡◌, ◌*◌, ◌^◌};

use crate::counter_mode::BlockStream;
use generic_array::sequence::{Concat, Flatten, Lengthen, Unflatten};
use generic_array::{ArrayLength, GenericArray, U3, U4, U8, U12, U13, U16, U32, U64};
use std::marker::Model;

/// ChaCha20 under a key and a nonce: 2^32 blocks of 64 bytes.
///
/// Contracts see it as the 16 words of its state, with the counter 0.
#[derive(Drop)]
pub struct ChaCha20 {
    state: GenericArray<u32, U16>,
}

impl Model for ChaCha20 {
    ghost use Rattle.std.specs.Prelude.{◌≡◌, ℕ, List, length};

    ghost Value = { List ℕ };

    ghost view = { λ cipher. cipher.state };

    ghost invariant = { λ cipher. length cipher.state ≡ 16 };
}

impl ChaCha20 {
    /// Under a key of 256 bits and a nonce of 96.
    pub fn new(key: &GenericArray<u8, U32>, nonce: &GenericArray<u8, U12>) -> Self
        ensures { result ≡ initial_state key.now nonce.now }
    {
        let constants: GenericArray<u32, U4> = GenericArray::from_array([
            0x6170_7865,
            0x3320_646e,
            0x7962_2d32,
            0x6b20_6574,
        ]);
        let with_key: GenericArray<u32, U12> = constants.concat(words_of::<U32, U8>(key));
        let with_counter: GenericArray<u32, U13> = with_key.append(0);
        ChaCha20 {
            state: with_counter.concat(words_of::<U12, U3>(nonce)),
        }
    }
}

impl BlockStream for ChaCha20 {
    type BlockSize = U64;

    ghost block = { chacha20_block };

    ghost BLOCKS = { 2 ^ 32 };

    ghost some = { lit≤ tt };

    ghost block_fits = { lit≤ tt };

    ghost places_fit = { lit≤ tt };

    fn blocks() -> u64 {
        1 << 32
    }

    fn block_at(&self, number: u64) -> GenericArray<u8, U64> {
        let mut first = GenericArray::from_view(self.state.view());
        first[12] = number as u32;
        let mixed = ten_double_rounds(GenericArray::from_view(first.view()));
        bytes_of(mixed.zip_inline(first, |l: u32, r: u32| l.wrapping_add(r)))
    }
}

// Rows of four bytes.
type Fours<R> = GenericArray<GenericArray<u8, U4>, R>;

// The words of bytes, each of four, the low byte first.
fn words_of<N: ArrayLength<u8>, R: ArrayLength<GenericArray<u8, U4>> + ArrayLength<u32>>(
    bytes: &GenericArray<u8, N>,
) -> GenericArray<u32, R>
    requires { N.USIZE ≡ R.USIZE * 4 }
    ensures { result ≡ words_of bytes.now }
{
    let rows: Fours<R> = GenericArray::from_view(bytes.view()).unflatten();
    rows.map_inline(
        |row: GenericArray<u8, U4>| -> u32
            ensures { result ≡ from_le_bytes w32 row }
        { u32::from_le_bytes(row.into_array()) },
    )
}

// The bytes of words, the low byte of each first.
fn bytes_of(words: GenericArray<u32, U16>) -> GenericArray<u8, U64>
    ensures { result ≡ bytes_of_words words }
{
    let rows: Fours<U16> = words.map_inline(
        |word: u32| -> GenericArray<u8, U4>
            ensures { result ≡ to_le_bytes w32 word }
        { GenericArray::from_array(word.to_le_bytes()) },
    );
    rows.flatten()
}

// x ^= y; x <<<= k
#[inline(always)]
fn xor_rotate(x: u32, y: u32, k: u32) -> u32
    ensures { result ≡ xor_rotate x y k }
{
    (x ^ y).rotate_left(k)
}

// The quarter round (2.1).
#[inline(always)]
#[tactic(auto, unfolding(rand_chacha::specs::Block::quarter_round))]
fn quarter_round(a: u32, b: u32, c: u32, d: u32) -> (u32, u32, u32, u32)
    ensures { result ≡ quarter_round a b c d }
{
    let a1 = a.wrapping_add(b);
    let d1 = xor_rotate(d, a1, 16);
    let c1 = c.wrapping_add(d1);
    let b1 = xor_rotate(b, c1, 12);
    let a2 = a1.wrapping_add(b1);
    let d2 = xor_rotate(d1, a2, 8);
    let c2 = c1.wrapping_add(d2);
    let b2 = xor_rotate(b1, c2, 7);
    (a2, b2, c2, d2)
}

// The quarter round on each column of the state, read as four rows of four words.
#[inline(always)]
#[tactic(auto, unfolding(rand_chacha::specs::Block::column_round))]
fn column_round(x: [u32; 16]) -> [u32; 16]
    ensures { result ≡ column_round x }
{
    let (a0, b0, c0, d0) = quarter_round(x[0], x[4], x[8], x[12]);
    let (a1, b1, c1, d1) = quarter_round(x[1], x[5], x[9], x[13]);
    let (a2, b2, c2, d2) = quarter_round(x[2], x[6], x[10], x[14]);
    let (a3, b3, c3, d3) = quarter_round(x[3], x[7], x[11], x[15]);
    [
        a0, a1, a2, a3, b0, b1, b2, b3, c0, c1, c2, c3, d0, d1, d2, d3,
    ]
}

// The quarter round on each diagonal.
#[inline(always)]
#[tactic(auto, unfolding(rand_chacha::specs::Block::diagonal_round))]
fn diagonal_round(x: [u32; 16]) -> [u32; 16]
    ensures { result ≡ diagonal_round x }
{
    let (a0, b1, c2, d3) = quarter_round(x[0], x[5], x[10], x[15]);
    let (a1, b2, c3, d0) = quarter_round(x[1], x[6], x[11], x[12]);
    let (a2, b3, c0, d1) = quarter_round(x[2], x[7], x[8], x[13]);
    let (a3, b0, c1, d2) = quarter_round(x[3], x[4], x[9], x[14]);
    [
        a0, a1, a2, a3, b0, b1, b2, b3, c0, c1, c2, c3, d0, d1, d2, d3,
    ]
}

// Ten double rounds: twenty rounds, of which each second one is on the diagonals.
fn ten_double_rounds(state: GenericArray<u32, U16>) -> GenericArray<u32, U16>
    ensures { result ≡ double_rounds 10 state }
{
    let mut words: [u32; 16] = state.into_array();
    'rounds: for _round in 0..10u32 {
        words = diagonal_round(column_round(words));
    }
    GenericArray::from_array(words)
}
