//! Conversions by the traits of std, and a header of two arrays.
ghost use Rattle.std.specs.Prelude.{◌≡◌, IfOk, Ok, drop, take};

use generic_array::sequence::{Concat, Split};
use generic_array::{
    AllocError, ArrayLength, BoxedArray, GenericArray, InlineLength, LengthError, U2, U4, U6,
};
use std::alloc::Global;

/// To a vector, and from what that gave to a boxed slice.
fn through_a_vector<N: ArrayLength<u32> + InlineLength>(
    alloc: Global,
    array: GenericArray<u32, N>,
) -> Result<Result<GenericArray<u32, N>, LengthError>, AllocError>
    ensures { IfOk result (λ again. again ≡ Ok array) }
{
    let Ok(array) = GenericArray::<_, N>::try_from_vec(array.into_vec(alloc)?) else {
        return Ok(Err(LengthError));
    };
    Ok(GenericArray::try_from_boxed_slice(array.into_boxed_slice(alloc)?))
}

fn boxed_through_a_vector<N: ArrayLength<u32>>(
    alloc: Global,
    array: GenericArray<u32, N>,
) -> Result<Result<BoxedArray<u32, N>, LengthError>, AllocError>
    ensures { IfOk result (λ again. again ≡ Ok array) }
{
    let boxed = BoxedArray::from_inline(alloc, array)?;
    let Ok(boxed) = BoxedArray::<_, N>::try_from_vec(alloc, boxed.into_vec()?)? else {
        return Ok(Err(LengthError));
    };
    BoxedArray::try_from_boxed_slice(alloc, boxed.into_boxed_slice()?)
}

/// A header that is made by `concat`, and read by `split`.
#[derive(Drop)]
struct Header {
    kind: GenericArray<u8, U2>,
    size: GenericArray<u8, U4>,
}

fn encoded(header: Header) -> GenericArray<u8, U6>
    ensures kind { take 2 result ≡ header.kind }
    ensures size { drop 2 result ≡ header.size }
{
    let Header { kind, size } = header;
    kind.concat(size)
}

fn decoded(bytes: GenericArray<u8, U6>) -> Header
    ensures kind { result.kind ≡ take 2 bytes }
    ensures size { result.size ≡ drop 2 bytes }
{
    let (kind, size) = bytes.split();
    Header { kind, size }
}

fn there_and_back(header: Header) -> Header
    ensures { result ≡ header }
{
    decoded(encoded(header))
}

/// Six bytes taken apart and joined again, which the clause `whole` of `split` shows.
fn joined_again(bytes: GenericArray<u8, U6>) -> GenericArray<u8, U6>
    ensures { result ≡ bytes }
{
    let (kind, size): (GenericArray<u8, U2>, GenericArray<u8, U4>) = bytes.split();
    kind.concat(size)
}
