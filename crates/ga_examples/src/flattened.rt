//! Rows made by a map and joined, of any length, and bytes cut into samples.
ghost use Rattle.generic_array.specs.Length.{FitsInline};
ghost use Rattle.generic_array.specs.Rows.{rows};
ghost use Rattle.std.specs.Int.{cast_signed, from_be_bytes, w16};
ghost use Rattle.std.specs.List.{flat_map};
ghost use Rattle.std.specs.Prelude.{◌≡◌, ◌*◌, ◌/◌, ◌%◌, ◌↔◌, ◌∷◌, [], IfOk, IsOk, length, map};

use generic_array::sequence::{Flatten, Unflatten};
use generic_array::{ArrayLength, GenericArray, GenericArrayRef, LengthError, U2, arr};

/// The halves of bytes, the high one first.
fn halves_of<N: ArrayLength<u8> + ArrayLength<GenericArray<u8, U2>>, M: ArrayLength<u8>>(
    bytes: GenericArray<u8, N>,
) -> GenericArray<u8, M>
    requires fits { FitsInline M.USIZE }
    requires twice { M.USIZE ≡ N.USIZE * 2 }
    ensures { result ≡ flat_map (λ b. b / 16 ∷ b % 16 ∷ []) bytes }
{
    let pairs: GenericArray<GenericArray<u8, U2>, N> = bytes.map_inline(|byte: u8| arr![
        byte / 16,
        byte % 16
    ]);
    pairs.flatten()
}

/// The sample of two bytes in network order.
fn sample_of(bytes: GenericArray<u8, U2>) -> i16
    ensures { result ≡ cast_signed w16 (from_be_bytes w16 bytes) }
{
    i16::from_be_bytes(bytes.into_array())
}

/// The samples of so many bytes.
fn samples_of<N: ArrayLength<i16> + ArrayLength<GenericArray<u8, U2>>, M: ArrayLength<u8>>(
    bytes: &[u8],
) -> Result<GenericArray<i16, N>, LengthError>
    requires fits { FitsInline M.USIZE }
    requires twice { M.USIZE ≡ N.USIZE * 2 }
    ensures variant { IsOk result ↔ (length bytes.now ≡ M.USIZE) }
    ensures ok { IfOk result (λ samples.
        samples ≡ map (λ row. cast_signed w16 (from_be_bytes w16 row)) (rows 2 bytes.now)) }
{
    let view = GenericArrayRef::<u8, M>::try_from_slice(bytes)?;
    let pairs: GenericArray<GenericArray<u8, U2>, N> = GenericArray::from_view(view).unflatten();
    Ok(pairs.map_inline(sample_of))
}
