//! `arr!` and `box_arr!`, for arrays whose items are written out. Behind them stands a law for each
//! form: a function that nothing calls, with the macro as body.
ghost use Rattle.ga_core.specs.Length.{FitsInline};
ghost use Rattle.std.specs.Prelude.{◌≡◌, IfOk, [], ◌∷◌, replicate};

use ga_boxed::BoxedArray;
use ga_core::{AllocError, ArrayLength, GenericArray, U1, U2, U3, Unsigned};
use std::alloc::Global;

/// An inline array: `arr![a, b, c]` has these items, and `arr![x; U6]` or `arr![x; 6]` has six
/// copies of `x`, which is `Copy` and is evaluated once. Commas may follow the last item.
///
/// Requires a length of at most `MAX_INLINE`. The counterpart of `arr!`, which can also be used in
/// constants.
#[macro_export]
macro_rules! arr {
    ($item:expr; $N:ty) => {
        $crate::GenericArray::<_, $N>::from_copies($item)
    };
    ($item:expr; $count:literal) => {
        $crate::GenericArray::<_, $crate::Const<$count>>::from_copies($item)
    };
    ($($item:expr),* $(,)*) => {
        $crate::GenericArray::from_array([$($item),*])
    };
    ($($other:tt)*) => {
        compile_error!("write arr![a, b, ..], or arr![x; N] with N a length type or a number")
    };
}

/// A boxed array, or `AllocError`: `box_arr!(alloc, [a, b, c])` has these items, and
/// `box_arr!(alloc, [x; U6])` or `box_arr!(alloc, [x; 6])` has six copies of `x`, which is `Copy`
/// and is evaluated once. Commas may follow the last item.
///
/// The first form has the items on the stack, and moves them to the block in one piece; the others
/// write them in the block. The counterpart of `box_arr!`.
#[macro_export]
macro_rules! box_arr {
    ($alloc:expr, [$item:expr; $N:ty]) => {
        $crate::BoxedArray::<_, $N>::from_copies($alloc, $item)
    };
    ($alloc:expr, [$item:expr; $count:literal]) => {
        $crate::BoxedArray::<_, $crate::Const<$count>>::from_copies($alloc, $item)
    };
    ($alloc:expr, [$($item:expr),* $(,)*]) => {
        $crate::BoxedArray::from_array($alloc, [$($item),*])
    };
    ($($other:tt)*) => {
        compile_error!("write box_arr!(alloc, [a, b, ..]), or box_arr!(alloc, [x; N]) with N a length type or a number")
    };
}

// Items written out stand in the order in which they are written.
fn arr_of_items<T: Default + Drop>(first: T, second: T, third: T) -> GenericArray<T, U3>
    ensures { result ≡ first ∷ second ∷ third ∷ [] }
{
    arr![first, second, third]
}

fn arr_of_two_items<T: Default + Drop>(first: T, second: T) -> GenericArray<T, U2>
    ensures { result ≡ first ∷ second ∷ [] }
{
    arr![first, second]
}

// Of items of a named type: of an open one the checker asks that the native array behind the macro
// fits in memory.
fn box_arr_of_items(
    alloc: Global,
    first: u64,
    second: u64,
    third: u64,
) -> Result<BoxedArray<u64, U3>, AllocError>
    ensures { IfOk result (λ boxed. boxed ≡ first ∷ second ∷ third ∷ []) }
{
    box_arr!(alloc, [first, second, third])
}

fn box_arr_of_two_items(
    alloc: Global,
    first: u64,
    second: u64,
) -> Result<BoxedArray<u64, U2>, AllocError>
    ensures { IfOk result (λ boxed. boxed ≡ first ∷ second ∷ []) }
{
    box_arr!(alloc, [first, second])
}

// There are as many copies as the length says.
fn arr_of_a_length<T: Copy + Default + Drop, N: ArrayLength<T>>(item: T) -> GenericArray<T, N>
    requires { FitsInline N.USIZE }
    ensures { result ≡ replicate N.USIZE item }
{
    arr![item; N]
}

fn box_arr_of_a_length<T: Copy, N: Unsigned>(
    alloc: Global,
    item: T,
) -> Result<BoxedArray<T, N>, AllocError>
    ensures { IfOk result (λ boxed. boxed ≡ replicate N.USIZE item) }
{
    box_arr!(alloc, [item; N])
}

// And as many as the number says.
fn arr_of_a_number<T: Copy + Default + Drop>(item: T) -> GenericArray<T, U3>
    ensures { result ≡ replicate 3 item }
{
    arr![item; 3]
}

fn arr_of_one_copy<T: Copy + Default + Drop>(item: T) -> GenericArray<T, U1>
    ensures { result ≡ item ∷ [] }
{
    arr![item; 1]
}

fn box_arr_of_a_number<T: Copy>(alloc: Global, item: T) -> Result<BoxedArray<T, U3>, AllocError>
    ensures { IfOk result (λ boxed. boxed ≡ replicate 3 item) }
{
    box_arr!(alloc, [item; 3])
}
