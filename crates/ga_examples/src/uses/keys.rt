//! Tags under keys, and keys that are made of secrets.
ghost use Rattle.ga_hashes.specs.Hkdf.{expanded};
ghost use Rattle.ga_hashes.specs.Hmac.{hmac_of};
ghost use Rattle.ga_hashes.specs.Sha256.{sha256};
ghost use Rattle.std.specs.Prelude.{◌≡◌, ◌≤◌, ◌*◌, ◌↔◌, ◌++◌, IfOk, IsOk, IsTrue};

use ga_core::{ArrayLength, GenericArray, InlineLength, LengthError};
use ga_hashes::hkdf::derive;
use ga_hashes::hmac::Hmac;
use ga_hashes::{HashFunction, Sha256};

fn is_signed(key: &[u8], header: &[u8], body: &[u8], tag: &[u8]) -> bool
    ensures { IsTrue result ↔ (tag.now ≡ hmac_of sha256 64 key.now (header.now ++ body.now)) }
{
    let mut expected = Hmac::<Sha256>::new(key);
    expected.feed(header);
    expected.feed(body);
    expected.verify(tag)
}

fn key_of<H: HashFunction, N: ArrayLength<u8> + InlineLength>(
    salt: &[u8],
    secret: &[u8],
    info: &[u8],
) -> Result<GenericArray<u8, N>, LengthError>
    ensures variant { IsOk result ↔ (N.USIZE ≤ 255 * H.OutputSize.USIZE) }
    ensures ok { IfOk result (λ key. key ≡ expanded H.digest H.BlockSize.USIZE H.OutputSize.USIZE
        (hmac_of H.digest H.BlockSize.USIZE salt.now secret.now) info.now N.USIZE) }
{
    let mut key = GenericArray::default();
    derive::<H>(salt, secret, info, key.as_mut_slice())?;
    Ok(key)
}
