//! Records of one width that fill bytes, one behind the other: found by their index or by a byte,
//! walked from both ends, and written out.
#![tactic(auto)]

/// Blocks of records.
pub mod record_block;

pub use record_block::RecordBlock;
