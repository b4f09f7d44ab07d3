//! Matrices as arrays of rows, by value through functions of any lengths, with exact results.
ghost use Rattle.generic_array.specs.Length.{FitsInline};
ghost use Rattle.generic_array.specs.Rows.{rows};
ghost use Rattle.std.specs.List.{flat_map, range_with_len};
ghost use Rattle.std.specs.Prelude.{◌≡◌, ℕ, ◌+◌, ◌*◌, ◌%◌, ◌^◌, ◌<◌, ◌↔◌, IsTrue, length, map};

use generic_array::sequence::{Flatten, Unflatten};
use generic_array::{
    ArrayLength, BorrowedItems, Const, GenericArray, GenericArrayRef, InlineLength, U2, U3, U6, arr,
};
use std::marker::PhantomData;

/// `R` rows of `C` items each.
///
/// That the number of rows is a number, and no type with a bound, lets a function of any lengths
/// take such an array by value, of signed items too.
type Rows<T, C, const R: usize> = GenericArray<GenericArray<T, C>, Const<R>>;

/// The items of all rows, in order.
fn flat_items<T, C, N, const R: usize>(rows: Rows<T, C, R>) -> GenericArray<T, N>
where
    T: Default + Drop,
    C: ArrayLength<T> + InlineLength,
    N: ArrayLength<T> + InlineLength,
    requires { N.USIZE ≡ R * C.USIZE }
    ensures { result ≡ flat_map (λ row. row) rows }
{
    rows.flatten()
}

/// The items cut into rows.
fn cut<T, C, N, const R: usize>(items: GenericArray<T, N>) -> Rows<T, C, R>
where
    T: Default + Drop,
    C: ArrayLength<T> + InlineLength,
    N: ArrayLength<T> + InlineLength,
    requires fits { FitsInline R }
    requires width { 0 < C.USIZE }
    requires area { N.USIZE ≡ R * C.USIZE }
    ensures cut { result ≡ rows C.USIZE items }
    ensures joined { flat_map (λ row. row) result ≡ items }
{
    items.unflatten()
}

/// The same items in rows of another length. The type of the items in between stands in the
/// signature.
fn reshape<T, C, D, N, const R: usize, const S: usize>(
    matrix: Rows<T, C, R>,
    _flat: PhantomData<GenericArray<T, N>>,
) -> Rows<T, D, S>
where
    T: Default + Drop,
    C: ArrayLength<T> + InlineLength,
    D: ArrayLength<T> + InlineLength,
    N: ArrayLength<T> + InlineLength,
    requires fits { FitsInline S }
    requires width { 0 < D.USIZE }
    requires before { N.USIZE ≡ R * C.USIZE }
    requires after { N.USIZE ≡ S * D.USIZE }
    ensures { flat_map (λ row. row) result ≡ flat_map (λ row. row) matrix }
{
    let items: GenericArray<T, N> = flat_items(matrix);
    cut(items)
}

/// The rows of a native array of arrays.
fn of_native<T, C, const R: usize, const WIDTH: usize>(rows: &[[T; WIDTH]; R]) -> Rows<T, C, R>
where
    T: Copy + Default + Drop,
    C: ArrayLength<T> + InlineLength,
    requires fits { FitsInline R }
    requires width { C.USIZE ≡ WIDTH }
    ensures { result ≡ rows.now }
{
    let shape = PhantomData::<GenericArray<T, C>>;
    GenericArrayRef::<[T; WIDTH], Const<R>>::from_slice(rows).map_inline_ref(
        |row: &[T; WIDTH]| -> GenericArray<T, C>
            requires { C.USIZE ≡ WIDTH }
            ensures { result ≡ row.now }
        {
            let _ = &shape;
            GenericArray::from_view(GenericArrayRef::from_slice(row))
        },
    )
}

/// Whether the rows are the same. Compares slices: `==` of arrays of rows says nothing to a proof.
fn are_equal<C, const R: usize>(left: &Rows<i64, C, R>, right: &Rows<i64, C, R>) -> bool
where
    C: ArrayLength<i64> + InlineLength,
    ensures { IsTrue result ↔ (left.now ≡ right.now) }
{
    left.as_slice() == right.as_slice()
}

/// What stands in each place of a matrix. A trait in place of a closure, since the calls of two
/// levels are proved of a trait alone.
trait Formula {
    // The number in a row and a column.
    ghost value: { Self → ℕ → ℕ → ℕ };

    /// The number in a row and a column.
    fn at(&self, row: usize, column: usize) -> u64
        ensures { result ≡ value self.now row column };
}

fn row_by_formula<F: Formula, C: ArrayLength<u64> + InlineLength>(
    formula: &F,
    row: usize,
) -> GenericArray<u64, C>
    ensures { result ≡ map (F.value formula.now row) (range_with_len 0 C.USIZE) }
{
    GenericArray::generate(|column: usize| formula.at(row, column))
}

/// The matrix of what a formula gives in each place.
fn by_formula<F: Formula, C: ArrayLength<u64> + InlineLength, const R: usize>(
    formula: &F,
) -> Rows<u64, C, R>
    requires { FitsInline R }
    ensures { result ≡ map (λ row. map (F.value formula.now row) (range_with_len 0 C.USIZE))
        (range_with_len 0 R) }
{
    let shape = PhantomData::<GenericArray<u64, C>>;
    GenericArray::generate(
        |row: usize| -> GenericArray<u64, C>
            ensures { result ≡ map (F.value formula.entry.now row) (range_with_len 0 C.USIZE) }
        {
            let _ = &shape;
            row_by_formula(formula, row)
        },
    )
}

/// Numbers counted on from row to row.
struct CountedOn {
    width: u64,
}

impl Formula for CountedOn {
    ghost value = { λ counted row column. (row * counted.width + column) % 2 ^ 64 };

    fn at(&self, row: usize, column: usize) -> u64 {
        (row as u64)
            .wrapping_mul(self.width)
            .wrapping_add(column as u64)
    }
}

fn three_pairs() -> Rows<i64, U2, 3>
    ensures { length result ≡ 3 }
{
    of_native(&[[1, -2], [3, 4], [5, 6]])
}

#[test]
fn pairs_are_made_and_joined(rt: HostRuntime) {
    assert!(rt; are_equal(&three_pairs(), &three_pairs()));
    let items: GenericArray<i64, U6> = flat_items(three_pairs());
    assert!(rt; items == arr![1, -2, 3, 4, 5, 6]);
    let threes: Rows<i64, U3, 2> = reshape(three_pairs(), PhantomData::<GenericArray<i64, U6>>);
    assert!(rt; threes[1] == arr![4, 5, 6]);
    let counted: Rows<u64, U2, 3> = by_formula(&CountedOn { width: 2 });
    assert!(rt; counted[2] == arr![4, 5]);
}
