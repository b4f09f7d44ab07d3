//! Generic functions that know the traits alone, at work for every kind of sequence.
ghost use Rattle.ga_core.specs.Calls.{MayFold, MayMap};
ghost use Rattle.ga_core.specs.Entries.{ActsInFold, ActsOnEntry, CallAt, FoldAt};
ghost use Rattle.ga_core.specs.Runs.{ClosureRun, FoldRun};
ghost use Rattle.std.specs.Iterator.{ActsAsOnTwo};
ghost use Rattle.std.specs.Prelude.{◌≡◌, IfOk, IsOk, List, OnErr, fold, map};

use crate::functional::{
    FunctionalSequence, Mapped, MappedError, MappedGenericSequence, MappedPlace, fold_made,
};
use crate::sequence::{GenericSequence, SequenceItem};

/// The fold by `f` over the entries, from `init`: a caller of `fold_by` that knows the traits
/// alone.
pub fn total_by<T, S: FunctionalSequence<T>, A, F: FnMut(A, SequenceItem<S>) -> A>(
    s: S,
    init: A,
    f: &mut F,
) -> A
    requires callable { MayFold S.entry F.pre F.step f.old init (S.items s) }
    ensures run { FoldRun (FoldAt S.entry F.step) f.old init (S.items s) result f.new }
    ensures acts { (h : A → T → A) → ActsInFold S.entry F.step f.old h
        → result ≡ fold h init (S.items s) }
{
    s.fold_by(init, f)
}

/// Folds the values of `f` at the entries by `g`, starting from `init`.
///
/// All calls of `f` come first. Allocates before them: if that fails, neither closure is called.
pub fn map_total_by<
    T,
    U,
    S: FunctionalSequence<T> + MappedGenericSequence<T, U>,
    A: Drop,
    F: FnMut(SequenceItem<S>) -> U,
    G: FnMut(A, U) -> A,
>(
    s: S,
    place: MappedPlace<S, T, U>,
    f: &mut F,
    init: A,
    g: &mut G,
) -> Result<A, MappedError<S, T, U>>
    requires fits { S.Mapped.Fits }
    requires callable { MayMap S.entry F.pre F.step f.old (S.items s) }
    requires then_callable { (values : List U) (reached : F)
        → ClosureRun (CallAt S.entry F.step) f.old (S.items s) values reached
        → MayFold (λ item. item) G.pre G.step g.old init values }
    ensures run { IfOk result (λ total. (values : List U)
        × ClosureRun (CallAt S.entry F.step) f.old (S.items s) values f.new
        × FoldRun G.step g.old init values total g.new) }
    ensures acts { IfOk result (λ total. (h : T → U) (k : A → U → A)
        → ActsOnEntry S.entry F.step f.old h
        → ActsAsOnTwo G.FnMut g.old k → total ≡ fold k init (map h (S.items s))) }
    ensures err { OnErr result ((f.new ≡ f.old) × (g.new ≡ g.old)) }
    ensures promised { S.Mapped.NeedsNoMemory → IsOk result }
{
    match s.map_by(place, f) {
        Ok(mapped) => Ok(fold_made::<U, Mapped<S, T, U>, A, G>(mapped, init, g)),
        Err(refused) => Err(refused),
    }
}
