//! Closures over rows: arrays of arrays read by index, turned and made, at any lengths.
//!
//! A closure that indexes says so by a `requires`. A type of rows that its result alone names stands
//! in a captured `PhantomData`, which costs nothing at run time.
ghost use Rattle.ga_core.specs.Length.{FitsInline};
ghost use Rattle.std.specs.List.{range_with_len};
ghost use Rattle.std.specs.Prelude.{◌≡◌, ◌<◌, [], All, length, map, replicate, slice_index, slice_index_or};

use ga_core::{
    ArrayLength, BorrowedItems, Const, GenericArray, GenericArrayRef, InlineLength, U2, U3,
};
use std::marker::PhantomData;

/// `R` rows of `C` numbers each.
type Matrix<C, const R: usize> = GenericArray<GenericArray<u64, C>, Const<R>>;

/// `D` slabs of `R` rows of `C` numbers each.
type Tensor<C, R, const D: usize> = GenericArray<GenericArray<GenericArray<u64, C>, R>, Const<D>>;

/// The numbers of a column, from the first row to the last. The row is the closure's argument.
fn column<C, M, const R: usize>(matrix: &Matrix<C, R>, column: usize) -> GenericArray<u64, M>
where
    C: ArrayLength<u64> + InlineLength,
    M: ArrayLength<u64> + InlineLength,
    requires rows { M.USIZE ≡ R }
    requires inside { column < C.USIZE }
    ensures { result ≡ map (λ row. slice_index row column) matrix.now }
{
    GenericArrayRef::<GenericArray<u64, C>, M>::from_slice(matrix.as_slice()).map_inline_ref(
        |row: &GenericArray<u64, C>| -> u64
            requires { column < C.USIZE }
        { row[column] },
    )
}

/// The numbers whose row is their column, from the first row to the last. A slice of rows is
/// captured, and indexed twice.
fn diagonal<C: ArrayLength<u64> + InlineLength, const R: usize>(
    matrix: &Matrix<C, R>,
) -> GenericArray<u64, C>
    requires { R ≡ C.USIZE }
    ensures { result ≡ map (λ i. slice_index (slice_index_or matrix.now i []) i)
        (range_with_len 0 C.USIZE) }
{
    let rows = matrix.as_slice();
    GenericArray::generate(
        |i: usize| -> u64
            requires { (i < length rows.now) × (i < C.USIZE) }
        { rows[i][i] },
    )
}

/// The columns as rows. `M` is the number of rows as a length, and `L` that of columns as a number.
/// A matrix is captured, and the closure returns rows of another type.
fn transpose<C, M, const R: usize, const L: usize>(matrix: &Matrix<C, R>) -> Matrix<M, L>
where
    C: ArrayLength<u64> + InlineLength,
    M: ArrayLength<u64> + InlineLength,
    requires fits { FitsInline L }
    requires rows { M.USIZE ≡ R }
    requires columns { L ≡ C.USIZE }
    ensures { result ≡ map (λ j. map (λ row. slice_index row j) matrix.now)
        (range_with_len 0 C.USIZE) }
{
    let shapes = PhantomData::<(Matrix<C, R>, GenericArray<u64, M>)>;
    GenericArray::generate(
        |place: usize| -> GenericArray<u64, M>
            requires { (place < C.USIZE) × (M.USIZE ≡ R) }
            ensures { result ≡ map (λ row. slice_index row place) matrix.entry.now }
        {
            let _ = &shapes;
            column(matrix, place)
        },
    )
}

/// The matrix of zeros. The result alone names the type of its rows.
fn zeros<C: ArrayLength<u64> + InlineLength, const R: usize>() -> Matrix<C, R>
    requires { FitsInline R }
    ensures { result ≡ replicate R (replicate C.USIZE 0) }
{
    let row = PhantomData::<GenericArray<u64, C>>;
    GenericArray::generate(|_row: usize| {
        let _ = &row;
        GenericArray::<u64, C>::from_copies(0)
    })
}

/// A copy of a row.
fn row_of<C: ArrayLength<u64> + InlineLength, const R: usize>(
    matrix: &Matrix<C, R>,
    row: usize,
) -> GenericArray<u64, C>
    requires { row < R }
    ensures { result ≡ slice_index_or matrix.now row [] }
{
    GenericArray::from_view(matrix[row].view())
}

/// The rows in the order of these places. A matrix is captured.
fn rows_in_order<C: ArrayLength<u64> + InlineLength, const R: usize>(
    matrix: &Matrix<C, R>,
    order: GenericArray<usize, Const<R>>,
) -> Matrix<C, R>
    requires { All (λ i. i < R) order }
    ensures { result ≡ map (λ i. slice_index_or matrix.now i []) order.entry }
{
    order.map_inline(
        |i: usize| -> GenericArray<u64, C>
            requires { i < R }
            ensures { result ≡ slice_index_or matrix.entry.now i [] }
        { row_of(matrix, i) },
    )
}

/// The number in row `j` and column `k` of each slab.
fn tube<C, R, const D: usize>(
    tensor: &Tensor<C, R, D>,
    j: usize,
    k: usize,
) -> GenericArray<u64, Const<D>>
where
    C: ArrayLength<u64> + InlineLength,
    R: ArrayLength<GenericArray<u64, C>> + InlineLength,
    requires rows { j < R.USIZE }
    requires columns { k < C.USIZE }
    ensures { result ≡ map (λ slab. slice_index (slice_index_or slab j []) k) tensor.now }
{
    tensor.map_inline_ref(
        |slab: &GenericArray<GenericArray<u64, C>, R>| -> u64
            requires { (j < R.USIZE) × (k < C.USIZE) }
        { slab[j][k] },
    )
}

#[test]
fn rows_are_turned_and_picked(rt: HostRuntime) {
    let matrix: Matrix<U3, 2> = GenericArray::from_array([
        GenericArray::from_array([1, 2, 3]),
        GenericArray::from_array([4, 5, 6]),
    ]);
    let pairs: Matrix<U2, 3> = transpose(&matrix);
    assert!(rt; pairs[2].as_slice() == [3, 6].as_slice());
    let other = rows_in_order(&matrix, GenericArray::from_array([1, 0]));
    assert!(rt; other[0].as_slice() == [4, 5, 6].as_slice());
    let square: Matrix<U3, 3> = zeros();
    assert!(rt; diagonal(&square).as_slice() == [0, 0, 0].as_slice());
    let slabs: Tensor<U2, U3, 2> = GenericArray::from_array([pairs, transpose(&other)]);
    assert!(rt; tube(&slabs, 1, 0).as_slice() == [2, 5].as_slice());
}
