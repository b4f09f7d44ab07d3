//! Reading an input to its end.
ghost use Rattle.std.specs.Io.KnownBytes.{IsAtEnd};
ghost use Rattle.std.specs.Prelude.{◌≡◌, ◌⊎◌, ◌+◌, ◌<◌, ◌++◌, IfErr, IfOk, IfSome, OnErr, OnOk, length, vec_capacity, vec_len};

use crate::status::{Status, after_failed_read};
use std::alloc::Global;
use std::io::Read;

// How many bytes are asked of the reader at a time.
const READ_SIZE: usize = 65_536;

/// All bytes of `r`, or the status of what kept it from being read.
///
/// An interrupted read is made again. A reader that doesn't end within `u64::MAX` reads counts as
/// faulty. No clause says that one that ends sooner doesn't: tests make some 100,000 reads.
pub fn read_all<R: Read>(alloc: Global, r: &mut R) -> Result<Vec<u8>, Status>
    ensures bytes { IfOk result (λ input.
        IfSome (R.remaining r.old) (λ bytes. input.items ≡ bytes)) }
    ensures end { OnOk result (IsAtEnd (R.remaining r.new)) }
    ensures err { IfErr result (λ status. (status ≡ Status.Memory) ⊎ (status ≡ Status.Fault)) }
{
    read_within(alloc, r, u64::MAX)
}

// `read_all`, where a reader that doesn't end within `most` reads counts as faulty.
fn read_within<R: Read>(alloc: Global, r: &mut R, most: u64) -> Result<Vec<u8>, Status>
    ensures bytes { IfOk result (λ input.
        IfSome (R.remaining r.old) (λ bytes. input.items ≡ bytes)) }
    ensures end { OnOk result (IsAtEnd (R.remaining r.new)) }
    ensures err { IfErr result (λ status. (status ≡ Status.Memory) ⊎ (status ≡ Status.Fault)) }
{
    let mut input = Vec::new(alloc);
    let mut chunk = [0u8; READ_SIZE];
    for _try in 0..most {
        match r.read(&mut chunk) {
            Ok(0) => return Ok(input),
            Ok(count) => append(&mut input, &chunk[..count])?,
            Err(fault) => after_failed_read(fault.kind())?,
        }
    }
    Err(Status::Fault)
}

// Appends `bytes`. Fails only if there is neither room nor memory for more.
fn append(input: &mut Vec<u8>, bytes: &[u8]) -> Result<(), Status>
    ensures ok { OnOk result (input.new.items ≡ input.old.items ++ bytes.now) }
    ensures full { OnErr result (vec_capacity input.old < vec_len input.old + length bytes.now) }
    ensures err { IfErr result (λ status. status ≡ Status.Memory) }
{
    match input.extend_from_slice(bytes) {
        Ok(()) => Ok(()),
        Err(_) => Err(Status::Memory),
    }
}

#[cfg(test)]
mod tests;
