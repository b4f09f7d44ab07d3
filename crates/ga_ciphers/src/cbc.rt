//! Cipher block chaining (CBC; NIST SP 800-38A) over any block cipher, in place.
//!
//! Each text under a key needs a first vector of its own, which nobody can foresee. Decrypting
//! doesn't show whether a text was changed.
ghost use Rattle.ga_ciphers.specs.Cbc.{cbc_decrypted, cbc_encrypted};
ghost use Rattle.ga_ciphers.specs.Keystream.{under};
ghost use Rattle.std.specs.Prelude.{◌≡◌, ◌+◌, ◌%◌, ◌≤◌, ◌++◌, drop, length, slice_range, take};

use crate::block_cipher::BlockCipher;
use crate::counter_mode::xor;
use generic_array::{GenericArray, GenericArrayRef, Unsigned};

/// Encrypts a text of whole blocks in place, from this vector on. `decrypt_blocks` from the same
/// vector decrypts it.
///
/// The vector is then the last encrypted block: with it the next call goes on with the text.
/// Allocates nothing, and copies each block once. RustCrypto's counterpart is `cbc::Encryptor`.
pub fn encrypt_blocks<C: BlockCipher>(
    cipher: &C,
    vector: &mut GenericArray<u8, C::BlockSize>,
    text: &mut [u8],
)
    requires whole { length text.old % C.BlockSize.USIZE ≡ 0 }
    ensures text { text.new
        ≡ cbc_encrypted (C.encrypted cipher.now) C.BlockSize.USIZE vector.old text.old }
    ensures vector { vector.new ≡ drop (length text.new) (vector.old ++ text.new) }
    ensures back { cbc_decrypted (C.decrypted cipher.now) C.BlockSize.USIZE vector.old text.new
        ≡ text.old }
{
    let mut done = 0;
    'rows: while done < text.len() {
        encrypt_at(cipher, vector, text, done);
        done += C::BlockSize::USIZE;
    }
}

/// Decrypts a text of whole blocks in place, from this vector on.
///
/// The vector is then the last block as it came: with it the next call goes on with the text.
/// Allocates nothing, and copies each block three times. RustCrypto's counterpart is
/// `cbc::Decryptor`.
pub fn decrypt_blocks<C: BlockCipher>(
    cipher: &C,
    vector: &mut GenericArray<u8, C::BlockSize>,
    text: &mut [u8],
)
    requires whole { length text.old % C.BlockSize.USIZE ≡ 0 }
    ensures text { text.new
        ≡ cbc_decrypted (C.decrypted cipher.now) C.BlockSize.USIZE vector.old text.old }
    ensures vector { vector.new ≡ drop (length text.old) (vector.old ++ text.old) }
{
    let mut done = 0;
    'rows: while done < text.len() {
        decrypt_at(cipher, vector, text, done);
        done += C::BlockSize::USIZE;
    }
}

// Encrypts the block of the text at this place, which then is the vector too.
fn encrypt_at<C: BlockCipher>(
    cipher: &C,
    vector: &mut GenericArray<u8, C::BlockSize>,
    text: &mut [u8],
    place: usize,
)
    requires within { place + C.BlockSize.USIZE ≤ length text.old }
    ensures len { length vector.old ≡ C.BlockSize.USIZE }
    ensures vector { vector.new ≡ C.encrypted cipher.now
        (under vector.old (slice_range text.old place (place + C.BlockSize.USIZE))) }
    ensures back { C.decrypted cipher.now vector.new
        ≡ under vector.old (slice_range text.old place (place + C.BlockSize.USIZE)) }
    ensures text { text.new
        ≡ take place text.old ++ vector.new ++ drop (place + C.BlockSize.USIZE) text.old }
{
    let end = place + C::BlockSize::USIZE;
    xor(vector.as_mut_slice(), &text[place..end]);
    cipher.encrypt_block(vector);
    text[place..end].copy_from_slice(vector.as_slice());
}

// Decrypts the block of the text at this place. The vector is then the block as it was.
fn decrypt_at<C: BlockCipher>(
    cipher: &C,
    vector: &mut GenericArray<u8, C::BlockSize>,
    text: &mut [u8],
    place: usize,
)
    requires within { place + C.BlockSize.USIZE ≤ length text.old }
    ensures len { length vector.old ≡ C.BlockSize.USIZE }
    ensures vector { vector.new ≡ slice_range text.old place (place + C.BlockSize.USIZE) }
    ensures text { text.new ≡ take place text.old
        ++ under (C.decrypted cipher.now
        (slice_range text.old place (place + C.BlockSize.USIZE))) vector.old
        ++ drop (place + C.BlockSize.USIZE) text.old }
{
    let end = place + C::BlockSize::USIZE;
    let before = vector.as_slice();
    let mut block: GenericArray<u8, C::BlockSize> = GenericArray::from_view(
        GenericArrayRef::from_slice(&text[place..end]),
    );
    cipher.decrypt_block(&mut block);
    xor(block.as_mut_slice(), before);
    vector.as_mut_slice().copy_from_slice(&text[place..end]);
    text[place..end].copy_from_slice(block.as_slice());
}
