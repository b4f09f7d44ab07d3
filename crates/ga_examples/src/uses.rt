//! Callers of `ga_hashes`, `ga_ciphers` and `ga_uses`, of any length and any hash function or
//! cipher where they can be.
mod ciphers;
mod digests;
mod key_table;
mod keys;
mod keystreams;
mod matrix_laws;
mod udp;
