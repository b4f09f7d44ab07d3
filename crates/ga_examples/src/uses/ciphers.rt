//! Texts and blocks under ciphers, there and back.
ghost use Rattle.ga_ciphers.specs.ChaCha20.{chacha20_block, initial_state};
ghost use Rattle.ga_ciphers.specs.Keystream.{key_bytes, under};
ghost use Rattle.std.specs.Prelude.{◌≡◌, ◌+◌, ◌*◌, ◌%◌, ◌^◌, ◌<◌, ◌≤◌, ◌↔◌, ◌++◌, IsOk, IsTrue, OnOk, length};

use ga_ciphers::block_cipher::BlockCipher;
use ga_ciphers::cbc::{decrypt_blocks, encrypt_blocks};
use ga_ciphers::chacha20::ChaCha20;
use ga_ciphers::counter_mode::{BlockStream, CounterMode};
use ga_ciphers::padding::{pad, unpad};
use ga_ciphers::stream_end::StreamEnd;
use generic_array::{ArrayLength, GenericArray, U12, U32};

/// Applies the key stream to two pieces in turn: the pieces joined are what it makes of the whole
/// text.
#[tactic(auto, using(ga_ciphers::proofs::KeystreamLemmas::keystreams))]
fn in_two_pieces<C: BlockStream>(
    mode: &mut CounterMode<C>,
    first: &mut [u8],
    second: &mut [u8],
) -> Result<(), StreamEnd>
    ensures { OnOk result (first.new ++ second.new ≡ under (first.old ++ second.old)
        (key_bytes (C.block mode.old.cipher) C.BlockSize.USIZE mode.old.position
        (length first.old + length second.old))) }
{
    mode.apply(first)?;
    mode.apply(second)
}

/// Applies the key stream to a text twice from its start: the text is what it was.
#[tactic(auto, using(ga_ciphers::proofs::KeystreamLemmas::keystreams))]
fn there_and_back<C: BlockStream>(cipher: C, bytes: &mut [u8]) -> Result<(), StreamEnd>
    ensures variant { IsOk result ↔ (length bytes.old ≤ C.BLOCKS * C.BlockSize.USIZE) }
    ensures text { bytes.new ≡ bytes.old }
{
    let mut mode = CounterMode::new(cipher);
    mode.apply(bytes)?;
    mode.seek(0)?;
    mode.apply(bytes)
}

/// The text under ChaCha20's key stream, from its start.
fn under_chacha20(
    key: &GenericArray<u8, U32>,
    nonce: &GenericArray<u8, U12>,
    text: &mut [u8],
) -> Result<(), StreamEnd>
    ensures { OnOk result (text.new ≡ under text.old
        (key_bytes (chacha20_block (initial_state key.now nonce.now)) 64 0 (length text.old))) }
{
    CounterMode::new(ChaCha20::new(key, nonce)).apply(text)
}

/// Encrypts a text and decrypts it from the same first vector: it is what it was.
fn text_there_and_back<C: BlockCipher>(
    cipher: &C,
    vector: &GenericArray<u8, C::BlockSize>,
    text: &mut [u8],
)
    requires whole { length text.old % C.BlockSize.USIZE ≡ 0 }
    ensures { text.new ≡ text.old }
{
    let mut before = GenericArray::from_view(vector.view());
    encrypt_blocks(cipher, &mut before, text);
    let mut before = GenericArray::from_view(vector.view());
    decrypt_blocks(cipher, &mut before, text);
}

/// Pads the end of a text and takes the padding off: it is what it was.
fn end_is_found<N: ArrayLength<u8>>(end: &[u8]) -> bool
    requires room { length end.now < N.USIZE }
    requires fits { N.USIZE < 2 ^ 8 }
    ensures { IsTrue result }
{
    let block = pad::<N>(end);
    match unpad(block.as_slice()) {
        Some(found) => found == end,
        None => false,
    }
}
