//! Records read from rows of bytes.
ghost use Rattle.ga_core.specs.Rows.{rows};
ghost use Rattle.ga_core.specs.Views.{items_of_view};
ghost use Rattle.ga_core_examples.specs.RecordOf.{record_of};
ghost use Rattle.std.specs.Prelude.{◌≡◌, IfOk, map};

use ga_core::{ChunksRef, GenericArrayRef, U6};
use std::alloc::{AllocError, Global};

/// A name of two bytes and a value of four.
#[derive(Drop)]
pub struct Record {
    /// What it is called.
    pub id: u16,
    /// What it is worth.
    pub value: u32,
}

/// The record in a row.
#[tactic(auto, unfolding(crate::specs::RecordOf::record_of))]
pub fn read_record(row: GenericArrayRef<'_, u8, U6>) -> Record
    ensures { result ≡ record_of (items_of_view row.entry) }
{
    Record {
        id: u16::from_be_bytes([row[0], row[1]]),
        value: u32::from_be_bytes([row[2], row[3], row[4], row[5]]),
    }
}

/// The records in the whole rows of these bytes.
pub fn read_records(alloc: Global, bytes: &[u8]) -> Result<Vec<Record>, AllocError>
    ensures { IfOk result (λ records. records.items ≡ map record_of (rows 6 bytes.now)) }
{
    let (chunks, _) = ChunksRef::<u8, U6>::chunks_from_slice(bytes);
    let mut records = Vec::new(alloc);
    for row in chunks.iter() {
        records.push(read_record(row))?;
    }
    Ok(records)
}
