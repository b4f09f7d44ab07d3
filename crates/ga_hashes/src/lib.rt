//! Hash functions whose sizes are lengths, and what is made of them: tags, keys and one-time
//! passwords.
//!
//! All of it is over any hash function, allocates nothing, and is proved from the public contracts
//! of `ga_core`.
#![tactic(auto)]

/// Messages of any length, in blocks of one length.
pub mod block_buffer;
/// Bytes compared, and one of two arrays chosen, so that each byte is looked at.
pub mod compare;
/// Hash functions whose sizes are lengths.
pub mod hash_function;
/// Key material of any length, made of a secret: HKDF.
pub mod hkdf;
/// Tags of messages under a key: HMAC.
pub mod hmac;
/// Codes of a counter or of the time under a key: HOTP and TOTP.
pub mod one_time_password;

pub use compare::same_bytes;
pub use hash_function::HashFunction;
pub use md5::Md5;
pub use sha1::Sha1;
pub use sha2::{Sha256, Sha512};
