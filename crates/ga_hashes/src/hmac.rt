//! HMAC (RFC 2104): the tag of a message under a key, over any hash function.
//!
//! Nothing here allocates, and nothing fails.
ghost use Rattle.ga_hashes.specs.Hmac.{Holds, hmac_of, key_block, with_mask};
ghost use Rattle.ga_core.specs.Length.{FitsInline};
ghost use Rattle.std.specs.Prelude.{◌≡◌, ℕ, ◌-◌, ◌≤◌, ◌↔◌, ◌++◌, IsTrue, List, [], length, replicate};

use crate::compare::same_bytes;
use crate::hash_function::HashFunction;
use ga_core::{ArrayLength, BorrowedItems, GenericArray};

// The mask of the key before the message.
const INNER: u8 = 0x36;

// The mask of the key before the inner digest.
const OUTER: u8 = 0x5c;

/// The tag of a message that is fed by pieces: `new` with the key, a `feed` for each piece, and
/// `finish` or `verify`.
#[derive(Drop)]
pub struct Hmac<H: HashFunction> {
    inner: H,
    outer: H,
}

impl<H: HashFunction> Hmac<H> {
    /// Under a key of any length, with nothing fed yet. Hashes two blocks, and the key where it is
    /// longer than a block.
    pub fn new(key: &[u8]) -> Self
        ensures { Holds H.holds H.digest H.BlockSize.USIZE result key.now [] }
    {
        let block = block_of_key::<H>(key);
        Hmac {
            inner: start_with_key(&block, INNER),
            outer: start_with_key(&block, OUTER),
        }
    }

    /// Adds `bytes` to the message.
    pub fn feed(&mut self, bytes: &[u8])
        ensures { (key m : List ℕ) → Holds H.holds H.digest H.BlockSize.USIZE self.old key m
            → Holds H.holds H.digest H.BlockSize.USIZE self.new key (m ++ bytes.now) }
    {
        self.inner.feed(bytes);
    }

    /// The tag.
    pub fn finish(self) -> GenericArray<u8, H::OutputSize>
        ensures { (key m : List ℕ) → Holds H.holds H.digest H.BlockSize.USIZE self key m
            → result ≡ hmac_of H.digest H.BlockSize.USIZE key m }
    {
        let Hmac { inner, mut outer } = self;
        outer.feed(inner.finish().as_slice());
        outer.finish()
    }

    /// Whether this is the tag. Looks at every byte of a tag of the right length, also behind one
    /// that differs: no clause and no test says so. How long it takes isn't claimed.
    pub fn verify(self, tag: &[u8]) -> bool
        ensures { (key m : List ℕ) → Holds H.holds H.digest H.BlockSize.USIZE self key m
            → (IsTrue result ↔ (tag.now ≡ hmac_of H.digest H.BlockSize.USIZE key m)) }
    {
        same_bytes(tag, self.finish().as_slice())
    }
}

/// The tag of a message under a key of any length.
pub fn tag_of<H: HashFunction>(key: &[u8], message: &[u8]) -> GenericArray<u8, H::OutputSize>
    ensures { result ≡ hmac_of H.digest H.BlockSize.USIZE key.now message.now }
{
    let mut tag = Hmac::<H>::new(key);
    tag.feed(message);
    tag.finish()
}

/// Whether this is the tag of a message under a key: see `Hmac::verify`.
pub fn verify<H: HashFunction>(key: &[u8], message: &[u8], tag: &[u8]) -> bool
    ensures { IsTrue result ↔ (tag.now ≡ hmac_of H.digest H.BlockSize.USIZE key.now message.now) }
{
    let mut expected = Hmac::<H>::new(key);
    expected.feed(message);
    expected.verify(tag)
}

// The bytes, followed by zeros up to the length.
fn pad_with_zeros<N: ArrayLength<u8>>(bytes: &[u8]) -> GenericArray<u8, N>
    requires fits { FitsInline N.USIZE }
    requires room { length bytes.now ≤ N.USIZE }
    ensures { result ≡ bytes.now ++ replicate (N.USIZE - length bytes.now) 0 }
{
    let mut block = GenericArray::default();
    let (front, _zeros) = block.as_mut_slice().split_at_mut(bytes.len());
    front.copy_from_slice(bytes);
    block
}

// The key as a block: its digest where it is longer, with zeros behind.
fn block_of_key<H: HashFunction>(key: &[u8]) -> GenericArray<u8, H::BlockSize>
    ensures { result ≡ key_block H.digest H.BlockSize.USIZE key.now }
{
    if key.len() > GenericArray::<u8, H::BlockSize>::len() {
        pad_with_zeros(H::digest_of(&[key]).as_slice())
    } else {
        pad_with_zeros(key)
    }
}

// A hash function that was fed the key under a mask.
fn start_with_key<H: HashFunction>(block: &GenericArray<u8, H::BlockSize>, mask: u8) -> H
    ensures { H.holds result (with_mask mask block.now) }
{
    let mut hasher = H::start();
    hasher.feed(block.map_inline_ref(|b: &u8| *b ^ mask).as_slice());
    hasher
}
