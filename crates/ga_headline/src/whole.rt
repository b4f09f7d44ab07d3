//! The headline end to end: a sequence is mapped and walked over, of any kind, and one that can be
//! filled is built before.
ghost use Rattle.ga_headline.specs.Whole.{Comes, KeepsPromises, MapKeepsPromises, MapStoppedAt, StoppedAt};
ghost use Rattle.generic_array.specs.Account.{Account};
ghost use Rattle.generic_array.specs.Calls.{MayTryMap};
ghost use Rattle.generic_array.specs.Entries.{CallAt, MayCallAt};
ghost use Rattle.generic_array.specs.Runs.{TryClosureRun};
ghost use Rattle.generic_array.specs.Steps.{MaySteps, StepsRun};
ghost use Rattle.std.specs.Prelude.{◌≡◌, ◌+◌, ◌≤◌, List, ◌++◌, IfErr, IfOk, Ok, OnErr, length};
ghost use Rattle.std.specs.Vec.{vec_capacity, vec_len};

use generic_array::functional::{
    FunctionalSequence, Mapped, MappedError, MappedGenericSequence, MappedPlace, MappedSequence,
};
use generic_array::sequence::{FallibleGenericSequence, FromFallibleIterator, SequenceItem};
use generic_array::steps::{Reply, Step, TwoEndedSequence, run_steps};
use generic_array::{AllocError, FillError, Never};

/// Which part of `map_walk` or `build_map_walk` stopped, and why. `B` is the error of the build,
/// and `Never` where there is none.
#[derive(Drop)]
pub enum Stopped<B, D, Q> {
    /// The build: an item's error, another number of items, or no memory.
    Build(B),
    /// The map: the closure's first error.
    Call(D),
    /// The map: no memory, before any call.
    NotMapped(Q),
    /// The walk: no room for the replies, before any step.
    NotWalked(AllocError),
}

/// The iterator by value over what a map of `S` to `U` makes.
pub type Walked<S, T, U> = <MappedSequence<S, T, U> as TwoEndedSequence<U>>::TwoEnded;

/// Maps a sequence of any kind, inline, boxed or borrowed, by a closure that may fail, and runs
/// steps over what was made.
///
/// The clauses say both parts in order: the calls up to the first error, and the list that is cut
/// from both ends. They say how both closures are left, wherever the run stops. `look` need be
/// callable only in states that such a run reaches.
pub fn map_walk<T, U, D, R, S, F, G>(
    s: S,
    mapped_place: MappedPlace<S, T, U>,
    f: &mut F,
    steps: Vec<Step<U>>,
    look: &mut G,
    replies: &mut Vec<Reply<U, R>>,
) -> Result<Walked<S, T, U>, Stopped<Never, D, MappedError<S, T, U>>>
where
    U: Drop,
    S: FunctionalSequence<T> + MappedGenericSequence<T, U>,
    Mapped<S, T, U>: FallibleGenericSequence<U>,
    MappedSequence<S, T, U>: TwoEndedSequence<U>,
    F: FnMut(SequenceItem<S>) -> Result<U, D>,
    G: FnMut(&[U]) -> R,
    requires mapped_fits { S.Mapped.Fits }
    requires callable { MayTryMap S.entry F.pre F.step f.old (S.items s) }
    requires then_callable { (values : List U) (reached : F)
        → TryClosureRun (CallAt S.entry F.step) f.old (S.items s) (Ok values) reached
        → MaySteps (MayCallAt (λ slice. slice.now) G.pre) (CallAt (λ slice. slice.now) G.step)
        (values, look.old) steps.items }
    ensures ok { IfOk result (λ left. (values : List U) × (given : List (Reply U R))
        × TryClosureRun (CallAt S.entry F.step) f.old (S.items s) (Ok values) f.new
        × (replies.new.items ≡ replies.old.items ++ given)
        × StepsRun (CallAt (λ slice. slice.now) G.step) (values, look.old) steps.items given
        (S.Mapped.Sequence.TwoEnded.items left, look.new)
        × Account values steps.items given (S.Mapped.Sequence.TwoEnded.items left)) }
    ensures stopped { IfErr result (λ why.
        MapStoppedAt (TryClosureRun (CallAt S.entry F.step)) f.old (S.items s) why f.new) }
    ensures unwalked { OnErr result ((look.new ≡ look.old)
        × (replies.new.items ≡ replies.old.items)) }
    ensures promised { IfErr result (λ why. MapKeepsPromises S.Mapped.NeedsNoMemory
        (vec_len replies.old + length steps.items ≤ vec_capacity replies.old) why) }
    ensures kept { vec_capacity replies.old ≤ vec_capacity replies.new }
{
    match s.try_map_by(mapped_place, f) {
        // `walk` of what was made, written out: the checker gives up on the call with all these
        // bounds.
        Ok(Ok(mapped)) => {
            let mut left = mapped.into_two_ended();
            match run_steps(&mut left, steps, look, replies) {
                Ok(()) => Ok(left),
                Err(refused) => Err(Stopped::NotWalked(refused)),
            }
        }
        Ok(Err(error)) => Err(Stopped::Call(error)),
        Err(refused) => Err(Stopped::NotMapped(refused)),
    }
}

/// Builds a sequence of what an iterator gives, maps it by a closure that may fail, and runs steps
/// over what was made.
///
/// A build and `map_walk`. The clauses say the parts in order: the fill, the calls up to the first
/// error, and the list that is cut from both ends. They say how the iterator and both closures are
/// left, wherever the run stops. The closures need be callable only in states that such a run
/// reaches.
pub fn build_map_walk<T, E, U, D, R, S, I, F, G>(
    place: S::Place,
    items: &mut I,
    mapped_place: MappedPlace<S, T, U>,
    f: &mut F,
    steps: Vec<Step<U>>,
    look: &mut G,
    replies: &mut Vec<Reply<U, R>>,
) -> Result<Walked<S, T, U>, Stopped<FillError<E, S::Error>, D, MappedError<S, T, U>>>
where
    E: Drop,
    U: Drop,
    S: FromFallibleIterator<T> + FunctionalSequence<T> + MappedGenericSequence<T, U>,
    Mapped<S, T, U>: FallibleGenericSequence<U>,
    MappedSequence<S, T, U>: TwoEndedSequence<U>,
    MappedPlace<S, T, U>: Drop,
    I: Iterator<Item = Result<T, E>>,
    F: FnMut(SequenceItem<S>) -> Result<U, D>,
    G: FnMut(&[U]) -> R,
    requires fits { S.Fits }
    requires mapped_fits { S.Mapped.Fits }
    requires can { I.can_next items.old }
    requires callable { (list : List T) (after : I)
        → Comes I.next_gives items.old S.Length.USIZE list after
        → MayTryMap S.entry F.pre F.step f.old list }
    requires then_callable { (list : List T) (after : I) (values : List U) (reached : F)
        → Comes I.next_gives items.old S.Length.USIZE list after
        → TryClosureRun (CallAt S.entry F.step) f.old list (Ok values) reached
        → MaySteps (MayCallAt (λ slice. slice.now) G.pre) (CallAt (λ slice. slice.now) G.step)
        (values, look.old) steps.items }
    ensures ok { IfOk result (λ left. (list : List T) × (values : List U)
        × (given : List (Reply U R))
        × Comes I.next_gives items.old S.Length.USIZE list items.new
        × TryClosureRun (CallAt S.entry F.step) f.old list (Ok values) f.new
        × (replies.new.items ≡ replies.old.items ++ given)
        × StepsRun (CallAt (λ slice. slice.now) G.step) (values, look.old) steps.items given
        (S.Mapped.Sequence.TwoEnded.items left, look.new)
        × Account values steps.items given (S.Mapped.Sequence.TwoEnded.items left)) }
    ensures stopped { IfErr result (λ why. StoppedAt I.next_gives S.Length.USIZE
        (TryClosureRun (CallAt S.entry F.step)) items.old f.old why items.new f.new) }
    ensures unwalked { OnErr result ((look.new ≡ look.old)
        × (replies.new.items ≡ replies.old.items)) }
    ensures promised { IfErr result (λ why. KeepsPromises S.NeedsNoMemory S.Mapped.NeedsNoMemory
        (vec_len replies.old + length steps.items ≤ vec_capacity replies.old) why) }
    ensures kept { vec_capacity replies.old ≤ vec_capacity replies.new }
{
    let made = match S::from_fallible_iter_ref(place, items) {
        Ok(made) => made,
        Err(error) => return Err(Stopped::Build(error)),
    };
    match map_walk(made, mapped_place, f, steps, look, replies) {
        Ok(left) => Ok(left),
        Err(Stopped::Call(error)) => Err(Stopped::Call(error)),
        Err(Stopped::NotMapped(refused)) => Err(Stopped::NotMapped(refused)),
        Err(Stopped::NotWalked(refused)) => Err(Stopped::NotWalked(refused)),
    }
}
