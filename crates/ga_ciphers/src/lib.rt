//! Ciphers with lengths that are types, as a user of `generic_array` builds them: by the library's
//! public names and contracts alone.
#![tactic(auto)]

/// Block ciphers: their trait.
pub mod block_cipher;
/// Cipher block chaining over any block cipher.
pub mod cbc;
/// ChaCha20 (RFC 8439).
pub mod chacha20;
/// A key stream in blocks, over texts in pieces of any size.
pub mod counter_mode;
/// Padding for texts that aren't whole blocks.
pub mod padding;
/// The error of a key stream that ends.
pub mod stream_end;
/// XTEA: blocks of 64 bits.
pub mod xtea;
