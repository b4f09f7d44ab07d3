//! A run over joined lists is one over the first and then one over the second, of calls at the
//! entries of any sequence.
//!
//! Each function's contract is a law, which holds of each closure, whatever it returns. Its body is
//! empty, so it holds no call's body to anything: the clause `run` of each call does. `run` says
//! that the call made such a run, and by the law a run over joined lists is one over each in turn.
ghost use Rattle.generic_array.specs.Laws.{ErrorRunsJoin, FoldsJoin, FoldsToErrorJoin, GoodFoldsJoin, GoodRunsJoin, RunsJoin};
ghost use Rattle.generic_array.specs.Entries.{CallAt, CallAtPair, FoldAt};
ghost use Rattle.generic_array.specs.Steps.{StepGivesReply};

use generic_array::sequence::{GenericSequence, SequenceItem};

/// Runs of `map`: what its clause `run` says, joined.
pub fn maps_join<T, U, S: GenericSequence<T>, F: FnMut(SequenceItem<S>) -> U>(_s: &S, _f: &F)
    ensures { RunsJoin (CallAt S.entry F.step) }
{}

/// Runs of `zip`, over the pairs of items: what its clause `run` says, joined.
pub fn zips_join<
    T,
    B,
    U,
    S: GenericSequence<T>,
    Rhs: GenericSequence<B>,
    F: FnMut(SequenceItem<S>, SequenceItem<Rhs>) -> U,
>(_s: &S, _rhs: &Rhs, _f: &F)
    ensures { RunsJoin (CallAtPair S.entry Rhs.entry F.step) }
{}

/// Runs of `try_map`, as its clause `run` says them: those with no error, and those to an error,
/// which make no call after it.
pub fn try_maps_join<T, U, E, S: GenericSequence<T>, F: FnMut(SequenceItem<S>) -> Result<U, E>>(
    _s: &S,
    _f: &F,
)
    ensures good { GoodRunsJoin (CallAt S.entry F.step) }
    ensures error { ErrorRunsJoin (CallAt S.entry F.step) }
{}

/// Runs of `fold`, as its clause `run` says them: the second starts from what the first came to.
pub fn folds_join<T, A, S: GenericSequence<T>, F: FnMut(A, SequenceItem<S>) -> A>(_s: &S, _f: &F)
    ensures { FoldsJoin (FoldAt S.entry F.step) }
{}

/// Runs of `try_fold`, as its clause `run` says them: those with no error, and those to an error.
pub fn try_folds_join<T, A, E, S: GenericSequence<T>, F: FnMut(A, SequenceItem<S>) -> Result<A, E>>(
    _s: &S,
    _f: &F,
)
    ensures good { GoodFoldsJoin (FoldAt S.entry F.step) }
    ensures error { FoldsToErrorJoin (FoldAt S.entry F.step) }
{}

/// Runs of steps, as the clause `run` of `run_steps` says them: one that is stopped anywhere and
/// taken up again is one run.
pub fn runs_of_steps_join<T, R, G: FnMut(&[T]) -> R>(_look: &G)
    ensures { RunsJoin (StepGivesReply (CallAt (λ slice. slice.now) G.step)) }
{}
