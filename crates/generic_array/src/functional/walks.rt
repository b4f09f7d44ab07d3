//! The walks over the entries of `into_iter`. Each stands once, over any iterator, for all kinds.
//!
//! The iterator is a type parameter of its own: a closure that holds a sequence's associated
//! iterator isn't covered by the checker.
ghost use Rattle.ga_core.specs.Calls.{MayFold, MayMap, MayTryFold, MayTryGenerate, MayTryMap, MayZip};
ghost use Rattle.ga_core.specs.Entries.{CallAt, CallAtPair, FoldAt};
ghost use Rattle.ga_core.specs.Runs.{ClosureRun, TryClosureRan, TryClosureRun, FoldRun, TryFoldRun};
ghost use Rattle.generic_array.specs.Built.{built_items};
ghost use Rattle.generic_array.specs.GivenEntries.{AllEntries, AllEntriesOf, CallAtNext, CallAtNextPair, GivesEntries, MayCallAtNext, MayCallAtNextPair, SomeEntries, SomeEntriesOf};
ghost use Rattle.std.specs.List.{range_with_len, zip};
ghost use Rattle.std.specs.Iterator.{ActsAsOnTwo};
ghost use Rattle.std.specs.Prelude.{◌≡◌, IfOk, IsOk, None, OnErr, Some, fold, length};

use crate::sequence::{FallibleGenericSequence, GenericSequence};
use ga_core::blocks::BLOCK;
use std::mem;

// The entries of a sequence. It has as many as its length says.
#[inline(always)]
pub(super) fn entries_of<T, S: GenericSequence<T>>(s: S) -> S::IntoIter
    ensures gives { GivesEntries S.IntoIter.can_next S.IntoIter.next_gives
        S.IntoIter.remaining S.entry
        result (S.items s) }
    ensures long { length (S.items s) ≡ S.Length.USIZE }
{
    // For the prover alone: the view's ghost field says how many entries there are, and nothing
    // else does.
    let _ = s.view();
    s.into_iter()
}

// Folds the entries into one value by `f`, in order, starting from `init`.
#[inline(always)]
pub(super) fn fold_entries<T, I: Iterator + Drop, A, F: FnMut(A, I::Item) -> A>(
    entries: I,
    init: A,
    f: &mut F,
) -> A
    requires callable { SomeEntries I.can_next I.next_gives I.remaining entries
        (λ (entry : I.Item → T) values. MayFold entry F.pre F.step f.old init values) }
    ensures run { AllEntries I.can_next I.next_gives I.remaining entries
        (λ (entry : I.Item → T) values.
        FoldRun (FoldAt entry F.step) f.old init values result f.new) }
{
    if mem::size_of_val(&entries) > 32 {
        return fold_in_blocks::<T, I, A, F>(entries, init, f);
    }
    let mut answer = init;
    for entry in entries {
        answer = f(answer, entry);
    }
    answer
}

// The same in blocks, for iterators that hold an array. Not inlined always: once the compiler knows
// the array's bounds, it no longer sees that a default written to a slot leaves the iterator's own.
#[inline]
fn fold_in_blocks<T, I: Iterator + Drop, A, F: FnMut(A, I::Item) -> A>(
    mut entries: I,
    init: A,
    f: &mut F,
) -> A
    requires callable { SomeEntries I.can_next I.next_gives I.remaining entries
        (λ (entry : I.Item → T) values. MayFold entry F.pre F.step f.old init values) }
    ensures run { AllEntries I.can_next I.next_gives I.remaining entries
        (λ (entry : I.Item → T) values.
        FoldRun (FoldAt entry F.step) f.old init values result f.new) }
{
    let mut answer = init;
    while let Some(entry) = entries.next() {
        answer = f(answer, entry);
        for _more in 1..BLOCK {
            match entries.next() {
                Some(entry) => answer = f(answer, entry),
                None => return answer,
            }
        }
    }
    answer
}

// `fold_entries` of a closure that may fail: its first error, after which no call is made.
#[inline(always)]
pub(super) fn try_fold_entries<T, I: Iterator + Drop, A, E, F: FnMut(A, I::Item) -> Result<A, E>>(
    entries: I,
    init: A,
    f: &mut F,
) -> Result<A, E>
    requires callable { SomeEntries I.can_next I.next_gives I.remaining entries
        (λ (entry : I.Item → T) values. MayTryFold entry F.pre F.step f.old init values) }
    ensures run { AllEntries I.can_next I.next_gives I.remaining entries
        (λ (entry : I.Item → T) values.
        TryFoldRun (FoldAt entry F.step) f.old init values result f.new) }
{
    let mut answer = init;
    for entry in entries {
        match f(answer, entry) {
            Ok(next) => answer = next,
            Err(error) => return Err(error),
        }
    }
    Ok(answer)
}

// The fold by `g` over the items of what was made, from `init`.
//
// `same` always holds and stands here for the prover alone: without it the proof of `map_total_by`
// takes 30 seconds in place of 3. A call's proof says a lone condition as a whole, which is long
// where there are many type parameters, and each of two by itself.
#[inline(always)]
pub(crate) fn fold_made<U, M: GenericSequence<U>, A, G: FnMut(A, U) -> A>(
    made: M::Sequence,
    init: A,
    g: &mut G,
) -> A
    requires callable { MayFold (λ item. item) G.pre G.step g.old init (M.Sequence.items made) }
    requires same { init ≡ init }
    ensures run { FoldRun G.step g.old init (M.Sequence.items made) result g.new }
    ensures acts { (k : A → U → A) → ActsAsOnTwo G.FnMut g.old k
        → result ≡ fold k init (M.Sequence.items made) }
{
    fold_entries::<U, <M::Sequence as IntoIterator>::IntoIter, A, G>(made.into_iter(), init, g)
}

// The next entry.
#[inline]
fn next_of<I: Iterator>(entries: &mut I) -> I::Item
    requires can { I.can_next entries.old }
    requires more { (after : I) → I.next_gives entries.old None after → ⊥ }
    ensures gives { I.next_gives entries.old (Some result) entries.new }
    ensures can { I.can_next entries.new }
{
    match entries.next() {
        Some(entry) => entry,
        None => unreachable!(),
    }
}

// The values of `f` at the entries, as a sequence of the kind `M`.
#[inline(always)]
pub(super) fn map_entries<T, I: Iterator + Drop, U, M: GenericSequence<U>, F: FnMut(I::Item) -> U>(
    mut entries: I,
    place: M::Place,
    f: &mut F,
) -> Result<M::Sequence, M::Error>
    requires fits { M.Fits }
    requires callable { SomeEntriesOf I.can_next I.next_gives I.remaining M.Length.USIZE entries
        (λ (entry : I.Item → T) values. MayMap entry F.pre F.step f.old values) }
    ensures len { IfOk result (λ made. length (M.Sequence.items made) ≡ M.Length.USIZE) }
    ensures run { IfOk result (λ made.
        AllEntriesOf I.can_next I.next_gives I.remaining M.Length.USIZE entries
        (λ (entry : I.Item → T) values.
        ClosureRun (CallAt entry F.step) f.old values (M.Sequence.items made) f.new)) }
    ensures err { OnErr result (f.new ≡ f.old) }
    ensures promised { M.NeedsNoMemory → IsOk result }
{
    M::generate_by(
        place,
        &mut |_index: usize| -> U
            requires { MayCallAtNext I.can_next I.next_gives F.pre entries f.now }
            ensures call { CallAtNext I.can_next I.next_gives F.step entries.entry
                f.entry.now result
                entries.exit f.exit.now }
            ensures same { f.exit.ghost_name ≡ f.entry.ghost_name }
        { f(next_of(&mut entries)) },
    )
}

// `try_generate_by`. For the prover alone: it states the run as a record, from which a proof finds
// the closure's step.
#[inline(always)]
fn try_build<U, E, M: FallibleGenericSequence<U>, G: FnMut(usize) -> Result<U, E>>(
    place: M::Place,
    g: &mut G,
) -> Result<Result<M::Sequence, E>, M::Error>
    requires fits { M.Fits }
    requires callable { MayTryGenerate G.pre G.step g.old M.Length.USIZE }
    ensures len { IfOk result (λ built.
        IfOk built (λ made. length (M.Sequence.items made) ≡ M.Length.USIZE)) }
    ensures run { IfOk result (λ built.
        TryClosureRan G.step g.old (range_with_len 0 M.Length.USIZE)
        (built_items M.Sequence.items built) g.new) }
    ensures err { OnErr result (g.new ≡ g.old) }
    ensures promised { M.NeedsNoMemory → IsOk result }
{
    M::try_generate_by(place, g)
}

// The values of `f` at the entries, as a sequence of the kind `M`, or its first error.
#[inline(always)]
pub(super) fn try_map_entries<
    T,
    I: Iterator + Drop,
    U,
    E,
    M: FallibleGenericSequence<U>,
    F: FnMut(I::Item) -> Result<U, E>,
>(mut entries: I, place: M::Place, f: &mut F) -> Result<Result<M::Sequence, E>, M::Error>
    requires fits { M.Fits }
    requires callable { SomeEntriesOf I.can_next I.next_gives I.remaining M.Length.USIZE entries
        (λ (entry : I.Item → T) values. MayTryMap entry F.pre F.step f.old values) }
    ensures len { IfOk result (λ built.
        IfOk built (λ made. length (M.Sequence.items made) ≡ M.Length.USIZE)) }
    ensures run { IfOk result (λ built.
        AllEntriesOf I.can_next I.next_gives I.remaining M.Length.USIZE entries
        (λ (entry : I.Item → T) values.
        TryClosureRun (CallAt entry F.step) f.old values
        (built_items M.Sequence.items built) f.new)) }
    ensures err { OnErr result (f.new ≡ f.old) }
    ensures promised { M.NeedsNoMemory → IsOk result }
{
    try_build::<U, E, M, _>(
        place,
        &mut |_index: usize| -> Result<U, E>
            requires { MayCallAtNext I.can_next I.next_gives F.pre entries f.now }
            ensures call { CallAtNext I.can_next I.next_gives F.step entries.entry
                f.entry.now result
                entries.exit f.exit.now }
            ensures same { f.exit.ghost_name ≡ f.entry.ghost_name }
        { f(next_of(&mut entries)) },
    )
}

// The values of `f` at the pairs of entries, as a sequence of the kind `M`.
pub(super) fn zip_entries<
    T,
    B,
    I: Iterator + Drop,
    J: Iterator + Drop,
    U,
    M: GenericSequence<U>,
    F: FnMut(I::Item, J::Item) -> U,
>(mut left: I, mut right: J, place: M::Place, f: &mut F) -> Result<M::Sequence, M::Error>
    requires fits { M.Fits }
    requires callable { SomeEntriesOf I.can_next I.next_gives I.remaining M.Length.USIZE left
        (λ (entry : I.Item → T) values. SomeEntriesOf J.can_next J.next_gives J.remaining
        M.Length.USIZE right
        (λ (other : J.Item → B) others. MayZip entry other F.pre F.step f.old values others)) }
    ensures len { IfOk result (λ made. length (M.Sequence.items made) ≡ M.Length.USIZE) }
    ensures run { IfOk result (λ made.
        AllEntriesOf I.can_next I.next_gives I.remaining M.Length.USIZE left
        (λ (entry : I.Item → T) values. AllEntriesOf J.can_next J.next_gives J.remaining
        M.Length.USIZE right
        (λ (other : J.Item → B) others.
        ClosureRun (CallAtPair entry other F.step) f.old (zip values others) (M.Sequence.items made)
        f.new))) }
    ensures err { OnErr result (f.new ≡ f.old) }
    ensures promised { M.NeedsNoMemory → IsOk result }
{
    M::generate_by(
        place,
        &mut |_index: usize| -> U
            requires { MayCallAtNextPair I.can_next I.next_gives J.can_next J.next_gives F.pre
                left right f.now }
            ensures call { CallAtNextPair I.can_next I.next_gives J.can_next J.next_gives F.step
                left.entry
                right.entry f.entry.now result left.exit right.exit f.exit.now }
            ensures same { f.exit.ghost_name ≡ f.entry.ghost_name }
        { f(next_of(&mut left), next_of(&mut right)) },
    )
}
