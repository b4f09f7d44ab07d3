//! The laws of matrices, called at any size. The type of each matrix that is passed on stands in
//! the signature.
ghost use Rattle.std.specs.Prelude.{◌≡◌, ◌∷◌, [], slice_index_or};

use ga_uses::matrix::{Matrix, identity, permuted, product, transposed};
use generic_array::{ArrayLength, GenericArray, InlineLength};
use std::marker::PhantomData;

#[tactic(auto, using(ga_uses::proofs::MatrixLemmas::matrix_laws))]
fn transpose_twice<C, M, const R: usize, const L: usize>(
    matrix: Matrix<C, R>,
    _turned: PhantomData<Matrix<M, L>>,
) -> Matrix<C, R>
where
    C: ArrayLength<u64> + InlineLength,
    M: ArrayLength<u64> + InlineLength,
    requires rows { M.USIZE ≡ R }
    requires columns { L ≡ C.USIZE }
    ensures { result ≡ matrix }
{
    let turned: Matrix<M, L> = transposed(matrix);
    transposed(turned)
}

#[tactic(auto, using(ga_uses::proofs::MatrixLemmas::matrix_laws))]
fn times_identity<C, const R: usize, const L: usize>(
    matrix: Matrix<C, R>,
    _identity: PhantomData<Matrix<C, L>>,
) -> Matrix<C, R>
where
    C: ArrayLength<u64> + InlineLength,
    requires { L ≡ C.USIZE }
    ensures { result ≡ matrix }
{
    let identity: Matrix<C, L> = identity();
    product(matrix, identity)
}

/// The two rows exchanged.
fn exchange_rows<C>(matrix: &Matrix<C, 2>) -> Matrix<C, 2>
where
    C: ArrayLength<u64> + InlineLength,
    ensures { result ≡ slice_index_or matrix.now 1 [] ∷ slice_index_or matrix.now 0 [] ∷ [] }
{
    permuted(matrix, &GenericArray::from_array([1, 0]))
}
