//! XTEA (Needham and Wheeler, "Tea extensions", 1997): blocks of 64 bits under a key of 128, 32
//! cycles.
//!
//! For small devices and old formats: its blocks are too short for more than some gigabytes under
//! one key.
ghost use Rattle.ga_ciphers.specs.Xtea.{change, cycle, cycle_back, first_word, key_words, second_word};
ghost use Rattle.ga_ciphers.specs.Xtea.{block_of, cycles, cycles_back, halves_of, xtea_decrypted, xtea_encrypted};
ghost use Rattle.std.proofs.Common.{lit≤};
ghost use Rattle.std.specs.Int.{from_be_bytes, w32};
ghost use Rattle.std.specs.Prelude.{◌≡◌, ◌<◌, length};

use crate::block_cipher::BlockCipher;
use generic_array::sequence::Unflatten;
use generic_array::{GenericArray, U4, U8, U16};
use std::marker::Model;

// How many cycles a block goes through, each of two rounds.
const CYCLES: u32 = 32;

const DELTA: u32 = 0x9e37_79b9;

/// XTEA under a key. Contracts see it as the four words of the key.
#[derive(Drop)]
pub struct Xtea {
    key: [u32; 4],
}

impl Model for Xtea {
    ghost use Rattle.std.specs.Prelude.{◌≡◌, ℕ, List, length};

    ghost Value = { List ℕ };

    ghost view = { λ cipher. cipher.key };

    ghost invariant = { λ cipher. length cipher.key ≡ 4 };
}

impl Xtea {
    /// Under a key of 128 bits. Its words have the high byte first.
    pub fn new(key: &GenericArray<u8, U16>) -> Self
        ensures { result ≡ key_words key.now }
    {
        let rows: GenericArray<GenericArray<u8, U4>, U4> = GenericArray::from_view(
            key.view(),
        ).unflatten();
        let words: GenericArray<u32, U4> = rows.map_inline(
            |row: GenericArray<u8, U4>| -> u32
                ensures { result ≡ from_be_bytes w32 row }
            { u32::from_be_bytes(row.into_array()) },
        );
        Xtea {
            key: words.into_array(),
        }
    }
}

impl BlockCipher for Xtea {
    type BlockSize = U8;

    ghost encrypted = { xtea_encrypted };

    ghost decrypted = { xtea_decrypted };

    fn encrypt_block(&self, block: &mut GenericArray<u8, U8>) {
        let (left, right) = halves_of(block.as_slice());
        let (left, right) = cycles(&self.key, left, right);
        *block = block_of(left, right);
    }

    fn decrypt_block(&self, block: &mut GenericArray<u8, U8>) {
        let (left, right) = halves_of(block.as_slice());
        let (left, right) = cycles_back(&self.key, left, right);
        *block = block_of(left, right);
    }

    ghost some = { lit≤ tt };
}

// The left and the right half of a block.
fn halves_of(block: &[u8]) -> (u32, u32)
    requires { length block.now ≡ 8 }
    ensures halves { result ≡ halves_of block.now }
    ensures back { block_of result ≡ block.now }
{
    let number = u64::from_be_bytes([
        block[0], block[1], block[2], block[3], block[4], block[5], block[6], block[7],
    ]);
    ((number >> 32) as u32, (number % (1 << 32)) as u32)
}

// The block of two halves.
fn block_of(left: u32, right: u32) -> GenericArray<u8, U8>
    ensures block { result ≡ block_of (left, right) }
    ensures back { halves_of result ≡ (left, right) }
{
    let number = u64::from(left) * (1 << 32) + u64::from(right);
    GenericArray::from_array(number.to_be_bytes())
}

// The halves after all cycles.
fn cycles(key: &[u32; 4], left: u32, right: u32) -> (u32, u32)
    ensures halves { result ≡ cycles key.now 32 (left, right) }
    ensures back { cycles_back key.now 32 result ≡ (left, right) }
{
    let mut halves = (left, right);
    'cycles: for number in 0..CYCLES {
        halves = cycle(key, number, halves);
    }
    halves
}

// The halves before them.
fn cycles_back(key: &[u32; 4], left: u32, right: u32) -> (u32, u32)
    ensures { result ≡ cycles_back key.now 32 (left, right) }
{
    let mut halves = (left, right);
    'cycles: for undone in 0..CYCLES {
        halves = cycle_back(key, CYCLES - 1 - undone, halves);
    }
    halves
}

// What a round adds to one half: of the other half, and a word of the key's.
#[inline(always)]
fn change(other: u32, word: u32) -> u32
    ensures { result ≡ change other word }
{
    ((other << 4) ^ (other >> 5)).wrapping_add(other) ^ word
}

// The key's word for the first round of a cycle.
#[inline(always)]
fn first_word(key: &[u32; 4], number: u32) -> u32
    ensures { result ≡ first_word key.now number }
{
    let sum = DELTA.wrapping_mul(number);
    sum.wrapping_add(key[(sum % 4) as usize])
}

// And for the second.
#[inline(always)]
fn second_word(key: &[u32; 4], number: u32) -> u32
    requires { number < 32 }
    ensures { result ≡ second_word key.now number }
{
    let sum = DELTA.wrapping_mul(number + 1);
    sum.wrapping_add(key[(sum >> 11) as usize % 4])
}

// A cycle: two rounds, the first on the left half, the second on the right.
#[inline(always)]
#[tactic(auto, unfolding(crate::specs::Xtea::cycle))]
fn cycle(key: &[u32; 4], number: u32, halves: (u32, u32)) -> (u32, u32)
    requires { number < 32 }
    ensures { result ≡ cycle key.now number halves }
{
    let left = halves
        .0
        .wrapping_add(change(halves.1, first_word(key, number)));
    (
        left,
        halves
            .1
            .wrapping_add(change(left, second_word(key, number))),
    )
}

// The same back.
#[inline(always)]
#[tactic(auto, unfolding(crate::specs::Xtea::cycle_back))]
fn cycle_back(key: &[u32; 4], number: u32, halves: (u32, u32)) -> (u32, u32)
    requires { number < 32 }
    ensures { result ≡ cycle_back key.now number halves }
{
    let right = halves
        .1
        .wrapping_sub(change(halves.0, second_word(key, number)));
    (
        halves
            .0
            .wrapping_sub(change(right, first_word(key, number))),
        right,
    )
}
