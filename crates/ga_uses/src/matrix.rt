//! Matrices of whole numbers, of any size: sums, columns, diagonals, blocks, the transpose and
//! products.
//!
//! Contracts see a matrix as the list of its rows, and a row as the list of its numbers. The laws
//! of these lists are in `proofs/MatrixLemmas.antt`: a caller names them by
//! `#[tactic(auto, using(ga_uses::proofs::MatrixLemmas::matrix_laws))]`.
ghost use Rattle.ga_uses.specs.Matrix.{IsMatrix, column_of, diagonal_of, dot_product, identity_matrix, matrix_product, matrix_sum, row_product, row_sum, transpose, unit_row};
ghost use Rattle.generic_array.specs.Length.{FitsInline};
ghost use Rattle.std.specs.List.{All};
ghost use Rattle.std.specs.Prelude.{◌≡◌, ◌+◌, ◌*◌, ◌%◌, ◌^◌, ◌<◌, ◌≤◌, ◌↔◌, [], IsTrue, drop, fold, length, map, replicate, slice_index, slice_index_or, take};

use generic_array::{
    ArrayLength, BorrowedItems, Const, GenericArray, GenericArrayRef, InlineLength, Unsigned,
};
use std::marker::PhantomData;

/// `R` rows of `C` numbers each.
///
/// The number of rows is a number, and no type with a bound, so that a function of any lengths takes
/// a matrix by value. Such a function names in its signature, if only by a `PhantomData`, the type
/// of each matrix that it passes on.
pub type Matrix<C, const R: usize> = GenericArray<GenericArray<u64, C>, Const<R>>;

/// The matrix of zeros.
#[tactic(auto, using(ga_core::proofs::PlaceLemmas::repeated))]
pub fn zeros<C, const R: usize>() -> Matrix<C, R>
where
    C: ArrayLength<u64> + InlineLength,
    requires fits { FitsInline R }
    ensures { result ≡ replicate R (replicate C.USIZE 0) }
{
    // Captured, since the checker wants the type of the result among what a closure captures.
    let shape = PhantomData::<GenericArray<u64, C>>;
    GenericArray::generate(
        |_row: usize| -> GenericArray<u64, C>
            ensures { result ≡ replicate C.USIZE 0 }
        {
            let _ = &shape;
            GenericArray::from_copies(0)
        },
    )
}

/// The matrix with 1 where the row is the column, and else 0.
#[tactic(auto, unfolding(crate::specs::Matrix::identity_matrix))]
pub fn identity<C, const R: usize>() -> Matrix<C, R>
where
    C: ArrayLength<u64> + InlineLength,
    requires fits { FitsInline R }
    requires square { R ≡ C.USIZE }
    ensures { result ≡ identity_matrix C.USIZE }
{
    let shape = PhantomData::<GenericArray<u64, C>>;
    GenericArray::generate(
        |row: usize| -> GenericArray<u64, C>
            ensures { result ≡ unit_row C.USIZE row }
        {
            let _ = &shape;
            unit(row)
        },
    )
}

// The row that is 1 at a place and else 0.
fn unit<C>(place: usize) -> GenericArray<u64, C>
where
    C: ArrayLength<u64> + InlineLength,
    ensures { result ≡ unit_row C.USIZE place }
{
    GenericArray::generate(|column: usize| if column == place { 1 } else { 0 })
}

/// The numbers of a column, from the first row to the last. The slice may be a part of the rows.
pub fn column<C, M>(rows: &[GenericArray<u64, C>], column: usize) -> GenericArray<u64, M>
where
    C: ArrayLength<u64> + InlineLength,
    M: ArrayLength<u64> + InlineLength,
    requires column { column < C.USIZE }
    requires rows { length rows.now ≡ M.USIZE }
    ensures { result ≡ column_of rows.now column }
{
    GenericArrayRef::<GenericArray<u64, C>, M>::from_slice(rows).map_inline_ref(
        |row: &GenericArray<u64, C>| -> u64
            requires { column < C.USIZE }
            ensures { result ≡ slice_index row.now column }
        { row[column] },
    )
}

/// The sums of the numbers in the same place, modulo 2^64.
pub fn sum<C, const R: usize>(left: Matrix<C, R>, right: Matrix<C, R>) -> Matrix<C, R>
where
    C: ArrayLength<u64> + InlineLength,
    ensures { result ≡ matrix_sum left right }
{
    left.zip_inline(
        right,
        |l: GenericArray<u64, C>, r: GenericArray<u64, C>| sum_of_rows(&l, &r),
    )
}

fn sum_of_rows<C: ArrayLength<u64>>(
    left: &GenericArray<u64, C>,
    right: &GenericArray<u64, C>,
) -> GenericArray<u64, C>
    ensures { result ≡ row_sum left.now right.now }
{
    left.zip_inline_ref(right.view(), |l: &u64, r: &u64| l.wrapping_add(*r))
}

/// The columns as rows. `M` is the number of rows as a length, and `L` that of columns as a number.
pub fn transposed<C, M, const R: usize, const L: usize>(matrix: Matrix<C, R>) -> Matrix<M, L>
where
    C: ArrayLength<u64> + InlineLength,
    M: ArrayLength<u64> + InlineLength,
    requires rows { M.USIZE ≡ R }
    requires columns { L ≡ C.USIZE }
    ensures turned { result ≡ transpose C.USIZE matrix }
    ensures widths { IsMatrix R C.USIZE matrix }
{
    let rows = matrix.as_slice();
    look_at_rows(rows);
    transpose_rows(rows)
}

// The columns as rows, of borrowed rows.
#[tactic(auto, unfolding(crate::specs::Matrix::transpose))]
fn transpose_rows<C, M, const L: usize>(rows: &[GenericArray<u64, C>]) -> Matrix<M, L>
where
    C: ArrayLength<u64> + InlineLength,
    M: ArrayLength<u64> + InlineLength,
    requires rows { length rows.now ≡ M.USIZE }
    requires columns { L ≡ C.USIZE }
    ensures { result ≡ transpose C.USIZE rows.now }
{
    let shape = PhantomData::<GenericArray<u64, M>>;
    GenericArray::generate(
        |place: usize| -> GenericArray<u64, M>
            requires place { place < C.USIZE }
            requires rows { length rows.now ≡ M.USIZE }
            ensures { result ≡ column_of rows.entry.now place }
        {
            let _ = &shape;
            column(rows, place)
        },
    )
}

/// Whether the matrix is its transpose. Makes the transpose and compares the rows.
#[tactic(auto, using(ga_core::proofs::NestedLemmas::rows_decide))]
pub fn is_symmetric<C, const R: usize>(matrix: &Matrix<C, R>) -> bool
where
    C: ArrayLength<u64> + InlineLength,
    requires { R ≡ C.USIZE }
    ensures { IsTrue result ↔ (matrix.now ≡ transpose C.USIZE matrix.now) }
{
    let rows = matrix.as_slice();
    let columns: Matrix<C, R> = transpose_rows(rows);
    rows == columns.as_slice()
}

/// The numbers whose column is their row, from the first row to the last.
pub fn diagonal<C, const R: usize>(matrix: &Matrix<C, R>) -> GenericArray<u64, C>
where
    C: ArrayLength<u64> + InlineLength,
    requires { R ≡ C.USIZE }
    ensures { result ≡ diagonal_of matrix.now }
{
    let rows = matrix.as_slice();
    GenericArray::generate(
        |place: usize| -> u64
            requires row { place < length rows.now }
            requires column { place < C.USIZE }
            ensures { result ≡ slice_index (slice_index_or rows.entry.now place []) place }
        { rows[place][place] },
    )
}

/// The sum of the diagonal, modulo 2^64.
pub fn trace<C, const R: usize>(matrix: &Matrix<C, R>) -> u64
where
    C: ArrayLength<u64> + InlineLength,
    requires { R ≡ C.USIZE }
    ensures { result ≡ fold (λ total number. (total + number) % 2 ^ 64) 0 (diagonal_of matrix.now) }
{
    total(diagonal(matrix))
}

fn total<K: ArrayLength<u64>>(numbers: GenericArray<u64, K>) -> u64
    ensures { result ≡ fold (λ total number. (total + number) % 2 ^ 64) 0 numbers }
{
    numbers
        .into_iter()
        .fold(0, |total: u64, number: u64| total.wrapping_add(number))
}

/// Copies `H` rows of `W` numbers, from the row `top` and the column `left` on.
pub fn block<C, W, const R: usize, const H: usize>(
    matrix: &Matrix<C, R>,
    top: usize,
    left: usize,
) -> Matrix<W, H>
where
    C: ArrayLength<u64> + InlineLength,
    W: ArrayLength<u64> + InlineLength,
    requires rows { top + H ≤ R }
    requires columns { left + W.USIZE ≤ C.USIZE }
    ensures { result ≡ map (λ row. take W.USIZE (drop left row)) (take H (drop top matrix.now)) }
{
    let rows = &matrix.as_slice()[top..top + H];
    let shape = PhantomData::<GenericArray<u64, W>>;
    GenericArrayRef::<GenericArray<u64, C>, Const<H>>::from_slice(rows).map_inline_ref(
        |row: &GenericArray<u64, C>| -> GenericArray<u64, W>
            requires { left + W.USIZE ≤ C.USIZE }
            ensures { result ≡ take W.USIZE (drop left row.now) }
        {
            let _ = &shape;
            part(row, left)
        },
    )
}

// The numbers of a row from a place on.
fn part<C, W>(row: &GenericArray<u64, C>, from: usize) -> GenericArray<u64, W>
where
    C: ArrayLength<u64> + InlineLength,
    W: ArrayLength<u64> + InlineLength,
    requires { from + W.USIZE ≤ C.USIZE }
    ensures { result ≡ take W.USIZE (drop from row.now) }
{
    let numbers = &row.as_slice()[from..from + W::USIZE];
    GenericArray::from_view(GenericArrayRef::from_slice(numbers))
}

/// Copies the rows at these places, in this order. A place may come more than once.
pub fn permuted<C, const R: usize>(
    matrix: &Matrix<C, R>,
    order: &GenericArray<usize, Const<R>>,
) -> Matrix<C, R>
where
    C: ArrayLength<u64> + InlineLength,
    requires { All (λ place. place < R) order.now }
    ensures { result ≡ map (λ place. slice_index_or matrix.now place []) order.now }
{
    let rows = matrix.as_slice();
    order.map_inline_ref(
        |place: &usize| -> GenericArray<u64, C>
            requires { place.now < length rows.now }
            ensures { result ≡ slice_index_or rows.entry.now place.now [] }
        { GenericArray::from_view(rows[*place].view()) },
    )
}

/// Each number of the left times the right, as a row, modulo 2^64.
pub fn outer<C, const R: usize>(
    left: &GenericArray<u64, Const<R>>,
    right: &GenericArray<u64, C>,
) -> Matrix<C, R>
where
    C: ArrayLength<u64> + InlineLength,
    ensures { result ≡ map (λ l. map (λ r. (l * r) % 2 ^ 64) right.now) left.now }
{
    left.map_inline_ref(|l: &u64| times_number(right, *l))
}

fn times_number<C: ArrayLength<u64>>(row: &GenericArray<u64, C>, by: u64) -> GenericArray<u64, C>
    ensures { result ≡ map (λ number. (by * number) % 2 ^ 64) row.now }
{
    row.map_inline_ref(|number: &u64| by.wrapping_mul(*number))
}

/// Each row times the vector, modulo 2^64. The slice may be a part of the rows.
pub fn times_vector<C, M>(
    rows: &[GenericArray<u64, C>],
    vector: &GenericArray<u64, C>,
) -> GenericArray<u64, M>
where
    C: ArrayLength<u64> + InlineLength,
    M: ArrayLength<u64> + InlineLength,
    requires rows { length rows.now ≡ M.USIZE }
    ensures { result ≡ map (λ row. dot_product row vector.now) rows.now }
{
    let rows = GenericArrayRef::<GenericArray<u64, C>, M>::from_slice(rows);
    rows.map_inline_ref(|row: &GenericArray<u64, C>| dot(row, vector))
}

fn dot<K: ArrayLength<u64>>(left: &GenericArray<u64, K>, right: &GenericArray<u64, K>) -> u64
    ensures { result ≡ dot_product left.now right.now }
{
    total(left.zip_inline_ref(right.view(), |l: &u64, r: &u64| l.wrapping_mul(*r)))
}

/// Each row of the left times each column of the right, modulo 2^64.
#[tactic(auto, unfolding(crate::specs::Matrix::matrix_product))]
pub fn product<K, C, const R: usize, const L: usize>(
    left: Matrix<K, R>,
    right: Matrix<C, L>,
) -> Matrix<C, R>
where
    K: ArrayLength<u64> + InlineLength,
    C: ArrayLength<u64> + InlineLength,
    requires inner { L ≡ K.USIZE }
    ensures product { result ≡ matrix_product C.USIZE left right }
    ensures left_widths { IsMatrix R K.USIZE left }
    ensures right_widths { IsMatrix L C.USIZE right }
{
    look_at_rows(left.as_slice());
    let right = right.as_slice();
    look_at_rows(right);
    left.map_inline(
        |row: GenericArray<u64, K>| -> GenericArray<u64, C>
            requires { length right.now ≡ K.USIZE }
            ensures { result ≡ row_product C.USIZE row right.entry.now }
        { row_times(&row, right) },
    )
}

// A row times each column.
fn row_times<K, C>(
    row: &GenericArray<u64, K>,
    right: &[GenericArray<u64, C>],
) -> GenericArray<u64, C>
where
    K: ArrayLength<u64> + InlineLength,
    C: ArrayLength<u64> + InlineLength,
    requires { length right.now ≡ K.USIZE }
    ensures { result ≡ row_product C.USIZE row.now right.now }
{
    GenericArray::generate(
        |place: usize| -> u64
            requires place { place < C.USIZE }
            requires rows { length right.now ≡ K.USIZE }
            ensures { result ≡ dot_product row.entry.now (column_of right.entry.now place) }
        { dot(row, &column(right, place)) },
    )
}

// Looks at each row: so a proof knows how many numbers it has, and that they fit in 64 bits.
fn look_at_rows<C: ArrayLength<u64>>(rows: &[GenericArray<u64, C>])
    ensures { IsMatrix (length rows.now) C.USIZE rows.now }
{
    for row in rows {
        look_at(row.as_slice());
    }
}

fn look_at(numbers: &[u64])
    ensures { All (λ number. number < 2 ^ 64) numbers.now }
{}
