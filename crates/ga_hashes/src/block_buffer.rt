//! Messages of any length, passed on in blocks of one length.
ghost use Rattle.ga_hashes.specs.BlockBuffer.{HasFed, MayTakeBlocks, TakesBlocks, count_more, padding, with_padding, zero_count};
ghost use Rattle.ga_core.specs.Length.{FitsInline};
ghost use Rattle.ga_core.specs.Rows.{chunk_rest};
ghost use Rattle.std.specs.List.{flat_map};
ghost use Rattle.std.specs.Prelude.{◌≡◌, ℕ, ◌+◌, ◌^◌, ◌<◌, ◌≤◌, List, [], ◌++◌, length, replicate};

use ga_core::{ArrayBuilder, ArrayLength, ChunksRef, GenericArray, Unsigned};
use std::marker::Model;
use std::mem;

/// The bytes of a message that fill no block yet, and how long the message is so far.
///
/// Contracts see it as these bytes, `kept`, and the number of bytes fed, `len`. Allocates nothing.
#[derive(Drop)]
pub struct BlockBuffer<N: ArrayLength<u8>> {
    kept: ArrayBuilder<u8, N>,
    len: u64,
}

impl<N: ArrayLength<u8>> Model for BlockBuffer<N> {
    ghost use Rattle.ga_hashes.specs.BlockBuffer.{Fed};
    ghost use Rattle.ga_core.specs.Length.{FitsInline};
    ghost use Rattle.std.specs.Prelude.{◌<◌, length};

    ghost Value = { Fed };

    ghost view = { λ buffer. record { kept = buffer.kept; len = buffer.len } };

    ghost invariant = { λ buffer. (length buffer.kept < N.USIZE) × (FitsInline N.USIZE) };
}

impl<N: ArrayLength<u8>> BlockBuffer<N> {
    /// A buffer to which nothing was fed.
    pub fn new() -> Self
        requires width { 0 < N.USIZE }
        requires fits { FitsInline N.USIZE }
        ensures kept { result.kept ≡ [] }
        ensures len { result.len ≡ 0 }
    {
        BlockBuffer {
            kept: ArrayBuilder::new(),
            len: 0,
        }
    }

    /// How many bytes were fed; `u64::MAX` means that or more. O(1).
    pub fn len(&self) -> u64
        ensures { result ≡ self.now.len }
    {
        self.len
    }

    /// Feeds the next bytes of the message: calls `f` at each block that is full now, in order, and
    /// keeps what follows.
    ///
    /// Any number of bytes may be fed; `len` stops at `u64::MAX`.
    pub fn feed<F: FnMut(&[u8])>(&mut self, bytes: &[u8], f: &mut F)
        requires callable { MayTakeBlocks F.step F.pre N.USIZE f.old (self.old.kept ++ bytes.now) }
        ensures blocks { TakesBlocks F.step N.USIZE f.old (self.old.kept ++ bytes.now) f.new }
        ensures kept { self.new.kept ≡ chunk_rest N.USIZE (self.old.kept ++ bytes.now) }
        ensures len { self.new.len ≡ count_more self.old.len bytes.now }
        ensures whole { (first : F) (message : List ℕ)
            → HasFed (λ slice. slice.now) F.step N.USIZE first message self.old.kept f.old
            → HasFed (λ slice. slice.now) F.step N.USIZE first (message ++ bytes.now)
            self.new.kept f.new }
    {
        self.feed_blocks(bytes, f);
    }

    // The feed itself, of which `feed` says one thing more that follows. It uses the fields, so it
    // can say of the buffer that blocks aren't empty.
    fn feed_blocks<F: FnMut(&[u8])>(&mut self, bytes: &[u8], f: &mut F)
        requires callable { MayTakeBlocks F.step F.pre N.USIZE f.old (self.old.kept ++ bytes.now) }
        ensures width { 0 < N.USIZE }
        ensures blocks { TakesBlocks F.step N.USIZE f.old (self.old.kept ++ bytes.now) f.new }
        ensures kept { self.new.kept ≡ chunk_rest N.USIZE (self.old.kept ++ bytes.now) }
        ensures len { self.new.len ≡ count_more self.old.len bytes.now }
    {
        self.len = self.len.saturating_add(bytes.len() as u64);
        let missing = N::USIZE - self.kept.position();
        if bytes.len() < missing {
            self.kept.extend_from_slice(bytes);
            return;
        }
        if missing == N::USIZE {
            hand_on_rows(&mut self.kept, bytes, f);
            return;
        }
        let (block, behind) = complete(&mut self.kept, bytes);
        f(block.as_slice());
        hand_on_rows(&mut self.kept, behind, f);
    }

    /// Ends the message: calls `f` at the last blocks, which are what is kept and the padding. With
    /// blocks of 64 bytes this is how FIPS 180-4 pads messages for SHA-1 and SHA-256.
    ///
    /// The padding is a byte 0x80, as few zeros as fill a block, and the number of bits in 8 bytes,
    /// the high byte first. For that number to fit, fewer than 2^61 bytes were fed: a caller who
    /// can't know asks `len`.
    pub fn finish<F: FnMut(&[u8])>(self, f: &mut F)
        requires len { self.len < 2 ^ 61 }
        requires callable { MayTakeBlocks F.step F.pre N.USIZE f.old
            (self.kept ++ padding N.USIZE (length self.kept) self.len) }
        ensures blocks { TakesBlocks F.step N.USIZE f.old
            (self.kept ++ padding N.USIZE (length self.kept) self.len) f.new }
        ensures whole { (first : F) (message : List ℕ)
            → HasFed (λ slice. slice.now) F.step N.USIZE first message self.kept f.old
            → self.len ≡ length message
            → TakesBlocks F.step N.USIZE first (with_padding N.USIZE message) f.new }
    {
        let mut buffer = self;
        let bits = (8 * buffer.len).to_be_bytes();
        let zeros = buffer.zero_count();
        buffer.feed(&[0x80], f);
        buffer.feed_zeros(zeros, f);
        buffer.feed(&bits, f);
    }

    // How many zeros the padding has.
    fn zero_count(&self) -> usize
        ensures count { result ≡ zero_count N.USIZE (length self.now.kept) }
        ensures few { result < N.USIZE }
    {
        let width = N::USIZE;
        (width - (self.kept.position() + 9) % width) % width
    }

    // Feeds fewer zeros than a block has bytes.
    fn feed_zeros<F: FnMut(&[u8])>(&mut self, count: usize, f: &mut F)
        requires few { count < N.USIZE }
        requires fits { FitsInline N.USIZE }
        requires callable { MayTakeBlocks F.step F.pre N.USIZE f.old
            (self.old.kept ++ replicate count 0) }
        ensures { (first : F) (message : List ℕ)
            → HasFed (λ slice. slice.now) F.step N.USIZE first message self.old.kept f.old
            → HasFed (λ slice. slice.now) F.step N.USIZE first (message ++ replicate count 0)
            self.new.kept f.new }
    {
        let block = zeros::<N>();
        let (zeros, _) = block.as_slice().split_at(count);
        self.feed(zeros, f);
    }
}

/// Feeds the pieces in turn to a new buffer, which it returns.
///
/// The blocks are those of the pieces joined: however a message is cut, they are the same.
pub fn feed_pieces<N: ArrayLength<u8>, F: FnMut(&[u8])>(
    pieces: &[&[u8]],
    f: &mut F,
) -> BlockBuffer<N>
    requires width { 0 < N.USIZE }
    requires fits { FitsInline N.USIZE }
    requires callable { MayTakeBlocks F.step F.pre N.USIZE f.old
        (flat_map (λ piece. piece.now) pieces.now) }
    ensures blocks { TakesBlocks F.step N.USIZE f.old
        (flat_map (λ piece. piece.now) pieces.now) f.new }
    ensures kept { result.kept ≡ chunk_rest N.USIZE (flat_map (λ piece. piece.now) pieces.now) }
    ensures len { result.len ≡ count_more 0 (flat_map (λ piece. piece.now) pieces.now) }
{
    let mut buffer = BlockBuffer::new();
    for piece in pieces {
        buffer.feed(piece, f);
    }
    buffer
}

/// Calls `f` at the blocks of a message that comes in pieces, and of its padding. Together they are
/// whole blocks.
pub fn padded_blocks<N: ArrayLength<u8>, F: FnMut(&[u8])>(pieces: &[&[u8]], f: &mut F)
    requires width { 0 < N.USIZE }
    requires fits { FitsInline N.USIZE }
    requires len { length (flat_map (λ piece. piece.now) pieces.now) < 2 ^ 61 }
    requires callable { MayTakeBlocks F.step F.pre N.USIZE f.old
        (with_padding N.USIZE (flat_map (λ piece. piece.now) pieces.now)) }
    ensures blocks { TakesBlocks F.step N.USIZE f.old
        (with_padding N.USIZE (flat_map (λ piece. piece.now) pieces.now)) f.new }
    ensures whole { chunk_rest N.USIZE
        (with_padding N.USIZE (flat_map (λ piece. piece.now) pieces.now)) ≡ [] }
{
    let buffer: BlockBuffer<N> = feed_pieces(pieces, f);
    buffer.finish(f);
}

// A block of zeros.
fn zeros<N: ArrayLength<u8>>() -> GenericArray<u8, N>
    requires { FitsInline N.USIZE }
    ensures { result ≡ replicate N.USIZE 0 }
{
    GenericArray::default()
}

// The block that is full with the first of these bytes, and those that follow it.
fn complete<'a, N: ArrayLength<u8>>(
    builder: &mut ArrayBuilder<u8, N>,
    bytes: &'a [u8],
) -> (GenericArray<u8, N>, &'a [u8])
    requires fits { FitsInline N.USIZE }
    requires enough { N.USIZE ≤ length builder.old + length bytes.now }
    ensures full { length result.0 ≡ N.USIZE }
    ensures parts { result.0 ++ result.1.now ≡ builder.old ++ bytes.now }
    ensures none_left { builder.new ≡ [] }
{
    let (front, behind) = bytes.split_at(N::USIZE - builder.position());
    builder.extend_from_slice(front);
    (mem::replace(builder, ArrayBuilder::new()).finish(), behind)
}

// Calls `f` at each whole block that lies in `bytes`, where it lies, and keeps the rest.
fn hand_on_rows<N: ArrayLength<u8>, F: FnMut(&[u8])>(
    kept: &mut ArrayBuilder<u8, N>,
    bytes: &[u8],
    f: &mut F,
)
    requires width { 0 < N.USIZE }
    requires none_kept { kept.old ≡ [] }
    requires callable { MayTakeBlocks F.step F.pre N.USIZE f.old bytes.now }
    ensures blocks { TakesBlocks F.step N.USIZE f.old bytes.now f.new }
    ensures kept { kept.new ≡ chunk_rest N.USIZE bytes.now }
{
    let (blocks, rest) = ChunksRef::<u8, N>::chunks_from_slice(bytes);
    for block in blocks.iter() {
        f(block.as_slice());
    }
    kept.extend_from_slice(rest);
}
