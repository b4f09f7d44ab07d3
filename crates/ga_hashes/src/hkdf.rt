//! HKDF (RFC 5869): key material of any length, made of a secret, over any hash function.
//!
//! Nothing here allocates.
ghost use Rattle.ga_hashes.specs.Hkdf.{BeginsWithBlocks, expanded, written_at};
ghost use Rattle.ga_hashes.specs.Hmac.{hmac_of};
ghost use Rattle.std.specs.Int.{div_ceil};
ghost use Rattle.std.specs.Prelude.{◌≡◌, ◌+◌, ◌*◌, ◌<◌, ◌≤◌, ◌↔◌, [], ◌∷◌, ◌++◌, IsOk, OnErr, OnOk, length};

use crate::hash_function::HashFunction;
use crate::hmac::{Hmac, tag_of};
use ga_core::{GenericArray, LengthError};

// How many blocks there are at most: a block's number is a byte, and the first is 1.
const MAX_BLOCKS: usize = 255;

/// The pseudorandom key of key material under a salt: HKDF-Extract. An empty salt is the
/// same as as many zeros as a digest has bytes. Costs one tag.
pub fn extract<H: HashFunction>(salt: &[u8], material: &[u8]) -> GenericArray<u8, H::OutputSize>
    ensures { result ≡ hmac_of H.digest H.BlockSize.USIZE salt.now material.now }
{
    tag_of::<H>(salt, material)
}

/// Fills `output` with key material made of a pseudorandom key and a context: HKDF-Expand. Costs
/// one tag for each digest's length of output.
///
/// The RFC asks for a key of at least a digest's length, as `extract` returns; any is taken here.
///
/// Returns LengthError, and leaves `output` as it was, if it is longer than 255 digests.
pub fn expand<H: HashFunction>(
    key: &[u8],
    info: &[u8],
    output: &mut [u8],
) -> Result<(), LengthError>
    ensures variant { IsOk result ↔ (length output.old ≤ 255 * H.OutputSize.USIZE) }
    ensures ok { OnOk result
        (output.new ≡ expanded H.digest H.BlockSize.USIZE H.OutputSize.USIZE key.now
        info.now (length output.old)) }
    ensures err { OnErr result (output.new ≡ output.old) }
{
    let size = GenericArray::<u8, H::OutputSize>::len();
    if output.len() > MAX_BLOCKS * size {
        return Err(LengthError);
    }
    for number in 0..block_count(output.len(), size) {
        put_block::<H>(key, info, output, number);
    }
    Ok(())
}

/// Fills `output` with key material made of a salt, key material and a context: `expand` under the
/// key that `extract` returns. Costs one tag more than `expand`.
///
/// Returns LengthError, and leaves `output` as it was, if it is longer than 255 digests.
pub fn derive<H: HashFunction>(
    salt: &[u8],
    material: &[u8],
    info: &[u8],
    output: &mut [u8],
) -> Result<(), LengthError>
    ensures variant { IsOk result ↔ (length output.old ≤ 255 * H.OutputSize.USIZE) }
    ensures ok { OnOk result (output.new ≡ expanded H.digest H.BlockSize.USIZE H.OutputSize.USIZE
        (hmac_of H.digest H.BlockSize.USIZE salt.now material.now) info.now (length output.old)) }
    ensures err { OnErr result (output.new ≡ output.old) }
{
    expand::<H>(extract::<H>(salt, material).as_slice(), info, output)
}

// How many blocks of a size so many bytes take. No bytes take none, also of size 0.
fn block_count(len: usize, size: usize) -> u8
    requires { len ≤ 255 * size }
    ensures { result ≡ div_ceil len size }
{
    if len == 0 {
        0
    } else {
        len.div_ceil(size) as u8
    }
}

// Writes the block behind the first `number` ones.
fn put_block<H: HashFunction>(key: &[u8], info: &[u8], output: &mut [u8], number: u8)
    requires few { number < 255 }
    requires room { number * H.OutputSize.USIZE < length output.old }
    ensures len { length output.new ≡ length output.old }
    ensures more { BeginsWithBlocks H.digest H.BlockSize.USIZE key.now info.now H.OutputSize.USIZE
        number output.old → BeginsWithBlocks H.digest H.BlockSize.USIZE key.now info.now
        H.OutputSize.USIZE (number + 1) output.new }
{
    let size = GenericArray::<u8, H::OutputSize>::len();
    let at = number as usize * size;
    // The block before this one, and nothing before the first.
    let before = &output[at.saturating_sub(size)..at];
    let block = block_behind::<H>(key, before, info, number + 1);
    put(output, at, block.as_slice());
}

// The block of this number, made of the one before it.
fn block_behind<H: HashFunction>(
    key: &[u8],
    before: &[u8],
    info: &[u8],
    number: u8,
) -> GenericArray<u8, H::OutputSize>
    ensures { result ≡ hmac_of H.digest H.BlockSize.USIZE key.now
        (before.now ++ (info.now ++ (number ∷ []))) }
{
    let mut tag = Hmac::<H>::new(key);
    tag.feed(before);
    tag.feed(info);
    tag.feed(&[number]);
    tag.finish()
}

// Writes the bytes from a place on, as far as the output goes.
fn put(output: &mut [u8], at: usize, bytes: &[u8])
    requires { at ≤ length output.old }
    ensures { output.new ≡ written_at at bytes.now output.old }
{
    let (_, behind) = output.split_at_mut(at);
    let count = behind.len().min(bytes.len());
    let (part, _) = behind.split_at_mut(count);
    part.copy_from_slice(bytes.split_at(count).0);
}
