//! Callers of the macros, each proved: items are evaluated once and in order, behind the allocator.
ghost use Rattle.std.specs.Prelude.{◌≡◌, ◌∷◌, [], IfOk, replicate};

use generic_array::{AllocError, BoxedArray, GenericArray, U2, U3, arr, box_arr};
use std::alloc::Global;

/// The next number.
macro_rules! next {
    ($number:ident) => {{
        $number = $number.wrapping_add(1);
        $number
    }};
}

/// The allocator, once the number is the next.
macro_rules! counted {
    ($number:ident, $alloc:ident) => {{
        $number = $number.wrapping_add(1);
        $alloc
    }};
}

/// Five items by three macros, and the number of the last.
fn items_in_order() -> (
    GenericArray<u32, U3>,
    GenericArray<u32, U3>,
    GenericArray<u32, U3>,
    u32,
)
    ensures { result ≡ (1 ∷ 2 ∷ 3 ∷ [], replicate 3 4, replicate 3 5, 5) }
{
    let mut number = 0u32;
    let listed = arr![next!(number), next!(number), next!(number),,];
    let of_a_length = arr![next!(number); U3];
    let of_a_number = arr![next!(number); 3];
    (listed, of_a_length, of_a_number, number)
}

fn boxed_items_in_order(alloc: Global) -> (Result<BoxedArray<u32, U2>, AllocError>, u32)
    ensures array { IfOk result.0 (λ array. array ≡ 2 ∷ 3 ∷ []) }
    ensures count { result.1 ≡ 3 }
{
    let mut number = 0u32;
    let array = box_arr!(counted!(number, alloc), [next!(number), next!(number),,]);
    (array, number)
}
