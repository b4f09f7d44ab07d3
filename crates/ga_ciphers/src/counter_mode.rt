//! A key stream that comes in blocks, for texts in pieces of any size.
ghost use Rattle.ga_ciphers.specs.Keystream.{IsCurrent, key_bytes, under};
ghost use Rattle.generic_array.specs.Length.{FitsInline};
ghost use Rattle.std.specs.Prelude.{◌≡◌, ℕ, ◌+◌, ◌*◌, ◌/◌, ◌^◌, ◌<◌, ◌≤◌, ◌↔◌, ◌++◌, IsOk, List, OnErr, OnOk, drop, length, slice_range, take};

use crate::stream_end::StreamEnd;
use generic_array::{ArrayLength, GenericArray, Unsigned};
use std::marker::Model;

/// A cipher whose key stream comes in blocks of one length, one for each number.
pub trait BlockStream: Drop {
    /// How many bytes a block has, as a length.
    type BlockSize: ArrayLength<u8>;

    // The block of this number.
    ghost block: { Self → ℕ → List ℕ };

    // How many blocks there are.
    ghost BLOCKS: { ℕ };

    /// How many blocks there are: their numbers are below this.
    fn blocks() -> u64
        ensures { result ≡ BLOCKS };

    /// The block of this number.
    fn block_at(&self, number: u64) -> GenericArray<u8, Self::BlockSize>
        requires { number < BLOCKS }
        ensures { result ≡ block self.now number };

    // Blocks aren't empty.
    ghost some: { 0 < Self.BlockSize.USIZE };

    // They are arrays that are kept inline.
    ghost block_fits: { FitsInline Self.BlockSize.USIZE };

    // A place in the key stream is a u64.
    ghost places_fit: { BLOCKS * Self.BlockSize.USIZE < 2 ^ 64 };
}

/// A key stream at a place, for texts in pieces of any size.
///
/// Contracts see it as the cipher and the place, `position`. Allocates nothing.
#[derive(Drop)]
pub struct CounterMode<C: BlockStream> {
    cipher: C,
    position: u64,
    // The block at the place, unless the place is where a block starts: so a piece of one byte
    // doesn't make a block again.
    block: GenericArray<u8, C::BlockSize>,
}

impl<C: BlockStream> Model for CounterMode<C> {
    ghost use Rattle.ga_ciphers.specs.CounterMode.{Place};
    ghost use Rattle.ga_ciphers.specs.Keystream.{IsCurrent};
    ghost use Rattle.std.specs.Prelude.{◌*◌, ◌≤◌};

    ghost Value = { Place C };

    ghost view = { λ mode. record { cipher = mode.cipher; position = mode.position } };

    ghost invariant = { λ mode. (mode.position ≤ C.BLOCKS * C.BlockSize.USIZE)
        × IsCurrent (C.block mode.cipher) C.BlockSize.USIZE mode.position mode.block };
}

impl<C: BlockStream> CounterMode<C> {
    /// The key stream of this cipher, at its start.
    pub fn new(cipher: C) -> Self
        ensures cipher { result.cipher ≡ cipher }
        ensures position { result.position ≡ 0 }
    {
        CounterMode {
            cipher,
            position: 0,
            block: GenericArray::default(),
        }
    }

    /// How many bytes of the key stream lie before the place. O(1).
    pub fn position(&self) -> u64
        ensures { result ≡ self.now.position }
    {
        self.position
    }

    /// Goes to a place of the key stream, in bytes from its start. Returns an error if the key
    /// stream ends before the place, and then changes nothing. Makes at most one block.
    pub fn seek(&mut self, position: u64) -> Result<(), StreamEnd>
        ensures variant { IsOk result ↔ (position ≤ C.BLOCKS * C.BlockSize.USIZE) }
        ensures cipher { self.new.cipher ≡ self.old.cipher }
        ensures ok { OnOk result (self.new.position ≡ position) }
        ensures err { OnErr result (self.new ≡ self.old) }
    {
        if position > stream_len::<C>() {
            return Err(StreamEnd);
        }
        self.position = position;
        if position % C::BlockSize::USIZE as u64 > 0 {
            self.block = self.cipher.block_at(position / C::BlockSize::USIZE as u64);
        }
        Ok(())
    }

    /// Replaces each byte of the text by its xor with the byte of the key stream at its place, and
    /// goes on to the place behind the last. Returns an error if the key stream would end before
    /// the text does, and then changes nothing.
    ///
    /// The same call at the same place gives the text back. Works on the text where it lies, and
    /// makes each block once.
    pub fn apply(&mut self, bytes: &mut [u8]) -> Result<(), StreamEnd>
        ensures variant { IsOk result
            ↔ (self.old.position + length bytes.old ≤ C.BLOCKS * C.BlockSize.USIZE) }
        ensures text { OnOk result (bytes.new ≡ under bytes.old
            (key_bytes (C.block self.old.cipher) C.BlockSize.USIZE self.old.position
            (length bytes.old))) }
        ensures cipher { self.new.cipher ≡ self.old.cipher }
        ensures position { OnOk result (self.new.position ≡ self.old.position + length bytes.old) }
        ensures err { OnErr result ((self.new ≡ self.old) × (bytes.new ≡ bytes.old)) }
    {
        if bytes.len() as u64 > stream_len::<C>() - self.position {
            return Err(StreamEnd);
        }
        self.apply_all(bytes);
        Ok(())
    }

    // The same of a text for which the key stream is long enough.
    fn apply_all(&mut self, bytes: &mut [u8])
        requires { self.old.position + length bytes.old ≤ C.BLOCKS * C.BlockSize.USIZE }
        ensures text { bytes.new ≡ under bytes.old
            (key_bytes (C.block self.old.cipher) C.BlockSize.USIZE self.old.position
            (length bytes.old)) }
        ensures cipher { self.new.cipher ≡ self.old.cipher }
        ensures position { self.new.position ≡ self.old.position + length bytes.old }
    {
        let mut done = 0;
        'pieces: while done < bytes.len() {
            make_current(&self.cipher, self.position, &mut self.block);
            let place = (self.position % C::BlockSize::USIZE as u64) as usize;
            let count = (bytes.len() - done).min(C::BlockSize::USIZE - place);
            xor_piece(bytes, done, &self.block.as_slice()[place..place + count]);
            self.position += count as u64;
            done += count;
        }
    }
}

// Makes the block at a place, unless it is the one that is kept.
fn make_current<C: BlockStream>(
    cipher: &C,
    position: u64,
    block: &mut GenericArray<u8, C::BlockSize>,
)
    requires below { position < C.BLOCKS * C.BlockSize.USIZE }
    requires current { IsCurrent (C.block cipher.now) C.BlockSize.USIZE position block.old }
    ensures { block.new ≡ C.block cipher.now (position / C.BlockSize.USIZE) }
{
    if position % C::BlockSize::USIZE as u64 == 0 {
        *block = cipher.block_at(position / C::BlockSize::USIZE as u64);
    }
}

// Where the key stream ends.
fn stream_len<C: BlockStream>() -> u64
    ensures { result ≡ C.BLOCKS * C.BlockSize.USIZE }
{
    C::blocks() * C::BlockSize::USIZE as u64
}

// Replaces bytes from a place on, as many as the key has, by their xor with it.
#[inline]
fn xor_piece(bytes: &mut [u8], from: usize, key: &[u8])
    requires { from + length key.now ≤ length bytes.old }
    ensures { bytes.new ≡ take from bytes.old
        ++ under (slice_range bytes.old from (from + length key.now)) key.now
        ++ drop (from + length key.now) bytes.old }
{
    xor(&mut bytes[from..from + key.len()], key);
}

// Replaces the bytes by their xor with a key of as many bytes.
#[inline]
pub(crate) fn xor(bytes: &mut [u8], key: &[u8])
    requires { length bytes.old ≡ length key.now }
    ensures { bytes.new ≡ under bytes.old key.now }
{
    for (index, byte) in bytes.iter_mut().enumerate() {
        *byte ^= key[index];
    }
}
