//! Digests of pieces, of digests and of the leaves of a tree, and messages cut into blocks.
ghost use Rattle.ga_examples.specs.Chained.{chained};
ghost use Rattle.ga_hashes.specs.Length.{FitsInline};
ghost use Rattle.std.specs.List.{range_with_len};
ghost use Rattle.std.specs.Prelude.{◌≡◌, ◌+◌, ◌*◌, ◌^◌, ◌<◌, ◌++◌, ◌∷◌, [], length, map, slice_index_or};

use ga_core::{ArrayLength, BorrowedItems, GenericArray, GenericArrayRef, InlineLength, U64};
use ga_hashes::HashFunction;
use ga_hashes::block_buffer::padded_blocks;
use std::marker::PhantomData;

fn digest_of_entry<H: HashFunction>(name: &[u8], body: &[u8]) -> GenericArray<u8, H::OutputSize>
    ensures { result ≡ H.digest (name.now ++ body.now) }
{
    let mut hasher = H::start();
    hasher.feed(name);
    hasher.feed(body);
    hasher.finish()
}

/// The digest of a message, digested again so many times.
fn digest_chain<H: HashFunction>(message: &[u8], again: u32) -> GenericArray<u8, H::OutputSize>
    ensures { result ≡ chained H.digest message.now again }
{
    let mut end = H::digest(message);
    for _ in 0..again {
        end = H::digest(end.as_slice());
    }
    end
}

/// As in RFC 6962, a byte 0 stands before a leaf, and a byte 1 before two digests.
fn leaf_digest<H: HashFunction>(leaf: &[u8]) -> GenericArray<u8, H::OutputSize>
    ensures { result ≡ H.digest (0 ∷ leaf.now) }
{
    H::digest_of(&[&[0], leaf])
}

fn node_digest<H: HashFunction>(
    left: &GenericArray<u8, H::OutputSize>,
    right: &GenericArray<u8, H::OutputSize>,
) -> GenericArray<u8, H::OutputSize>
    ensures { result ≡ H.digest ((1 ∷ left.now) ++ right.now) }
{
    H::digest_of(&[&[1], left.as_slice(), right.as_slice()])
}

/// The digest of each leaf, by a closure that captures the type of what it returns.
fn leaf_digests<H, W, N>(
    leaves: &GenericArray<GenericArray<u8, W>, N>,
) -> GenericArray<GenericArray<u8, H::OutputSize>, N>
where
    H: HashFunction,
    H::OutputSize: InlineLength,
    W: ArrayLength<u8>,
    N: ArrayLength<GenericArray<u8, W>> + ArrayLength<GenericArray<u8, H::OutputSize>>,
    ensures { result ≡ map (λ leaf. H.digest (0 ∷ leaf)) leaves.now }
{
    let shape = PhantomData::<GenericArray<u8, H::OutputSize>>;
    leaves.map_inline_ref(
        |leaf: &GenericArray<u8, W>| -> GenericArray<u8, H::OutputSize>
            ensures { result ≡ H.digest (0 ∷ leaf.now) }
        {
            let _ = &shape;
            leaf_digest::<H>(leaf.as_slice())
        },
    )
}

/// The level above: the digest of each two neighbours, by a closure that reads items that are
/// arrays.
fn parents<H, M>(
    digests: &[GenericArray<u8, H::OutputSize>],
) -> GenericArray<GenericArray<u8, H::OutputSize>, M>
where
    H: HashFunction,
    H::OutputSize: InlineLength,
    M: ArrayLength<GenericArray<u8, H::OutputSize>>,
    requires fits { FitsInline M.USIZE }
    requires len { length digests.now ≡ 2 * M.USIZE }
    ensures { result ≡ map (λ i. H.digest ((1 ∷ slice_index_or digests.now (2 * i) [])
        ++ slice_index_or digests.now (2 * i + 1) [])) (range_with_len 0 M.USIZE) }
{
    let shape = PhantomData::<GenericArray<u8, H::OutputSize>>;
    GenericArray::generate(
        |i: usize| -> GenericArray<u8, H::OutputSize>
            requires { 2 * i + 1 < length digests.now }
            ensures { result ≡ H.digest ((1 ∷ slice_index_or digests.entry.now (2 * i) [])
                ++ slice_index_or digests.entry.now (2 * i + 1) []) }
        {
            let _ = &shape;
            node_digest::<H>(&digests[2 * i], &digests[2 * i + 1])
        },
    )
}

/// The first bytes of the blocks of a message in three pieces, added up. The closure knows the
/// length of a block, so it can look at it as an array.
fn first_bytes(first: &[u8], second: &[u8], third: &[u8]) -> u32
    requires { length first.now + length second.now + length third.now < 2 ^ 61 }
{
    let mut total = 0u32;
    padded_blocks::<U64, _>(
        &[first, second, third],
        &mut |block: &[u8]|
            requires { length block.now ≡ 64 }
        {
            let block: GenericArrayRef<u8, U64> = GenericArrayRef::from_slice(block);
            total = total.wrapping_add(u32::from(block.as_slice()[0]));
        },
    );
    total
}
