//! An error of your own, to which `?` converts those of a length and of memory.
ghost use Rattle.ga_core.specs.Length.{FitsInline};
ghost use Rattle.ga_core_examples.specs.declared.own_errors.StoreError.TheVariants.{Memory, Ragged};
ghost use Rattle.std.specs.Prelude.{◌≡◌, ◌≢◌, ◌↔◌, IfOk, IsErrOf, length};

use ga_core::{AllocError, ArrayLength, GenericArray, LengthError};
use std::alloc::Global;

#[derive(Clone, Copy, Debug, PartialEq, Eq)]
enum StoreError {
    /// There was another number of bytes.
    Ragged,
    /// There was no memory for them.
    Memory,
}

impl From<LengthError> for StoreError {
    ghost from_gives = { λ _ error. error ≡ Ragged };

    fn from(_error: LengthError) -> Self {
        StoreError::Ragged
    }
}

impl From<AllocError> for StoreError {
    ghost from_gives = { λ _ error. error ≡ Memory };

    fn from(_error: AllocError) -> Self {
        StoreError::Memory
    }
}

/// A vector of exactly N bytes.
fn load<N: ArrayLength<u8>>(alloc: Global, bytes: &[u8]) -> Result<Vec<u8>, StoreError>
    requires fits { FitsInline N.USIZE }
    ensures ok { IfOk result (λ loaded. loaded.items ≡ bytes.now) }
    ensures ragged { IsErrOf result Ragged ↔ (length bytes.now ≢ N.USIZE) }
{
    let array: GenericArray<u8, N> = GenericArray::try_from_iter(bytes.iter().copied())?;
    Ok(array.into_vec(alloc)?)
}
