//! What fixed-length arrays are for, as a user of `generic_array` builds it: by the library's
//! public names and contracts alone.
#![tactic(auto)]

/// The header of an Ethernet frame, made by `concat` and read by `split`.
pub mod ethernet;
/// A table of keys of one width.
pub mod key_table;
/// Matrices of any size.
pub mod matrix;
/// UDP datagrams through views.
pub mod udp;
