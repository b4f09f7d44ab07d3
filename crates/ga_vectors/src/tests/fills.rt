//! Fills from an iterator whose answers are written down: how they end, and how often they ask.
ghost use Rattle.generic_array.specs.Length.{FitsInline};
ghost use Rattle.std.specs.Iterator.{at_most};
ghost use Rattle.std.specs.Prelude.{◌-◌};

use crate::tests::numbers::digits;
use generic_array::sequence::FromFallibleIterator;
use generic_array::{
    AllocError, ArrayLength, BoxedArray, FillError, GenericArray, LengthError, Unsigned,
};
use std::alloc::Global;
use std::convert::AsSlice;

/// What a fallible fill takes.
pub type Answer = Result<u32, &'static str>;

/// Returns these answers in order, ends among them, and then ends for good. The hint needn't be
/// right, but it is at least the number of answers.
#[derive(Drop)]
pub struct Scripted<'a, T> {
    answers: &'a [Option<T>],
    hint: usize,
    asked: usize,
}

impl<'a, T: Copy> Scripted<'a, T> {
    /// The iterator of these answers, which hints at so many items.
    pub fn hinting_at(hint: usize, answers: &'a [Option<T>]) -> Self {
        Scripted {
            answers,
            hint,
            asked: 0,
        }
    }

    /// The iterator of these answers, with their number as the hint.
    pub fn new(answers: &'a [Option<T>]) -> Self {
        Scripted::hinting_at(answers.len(), answers)
    }

    /// What a fill that ended so left of this iterator.
    fn run(mut self, end: End) -> Run<T> {
        (end, self.asked, self.next())
    }
}

impl<T: Copy> Iterator for Scripted<'_, T> {
    type Item = T;

    ghost remaining = { λ items. at_most (items.hint - items.asked) };

    fn next(&mut self) -> Option<T> {
        let asked = self.asked;
        self.asked = asked.saturating_add(1);
        match self.answers.get(asked) {
            Some(answer) if asked < self.hint => *answer,
            _ => None,
        }
    }

    fn size_hint(&self) -> (usize, Option<usize>) {
        let left = self.hint.saturating_sub(self.asked);
        (left, Some(left))
    }
}

/// How a fill ends.
#[derive(Clone, Copy, PartialEq, Eq)]
pub enum End {
    /// With items of these digits.
    Made(u32),
    Item(&'static str),
    WrongLength,
    NoMemory,
}

/// How a fill ended, how often it asked its iterator, and what that returns next.
pub type Run<T> = (End, usize, Option<T>);

/// `try_from_iter_ref` of an inline array.
pub fn inline_fill<N: ArrayLength<u32>>(mut items: Scripted<'_, u32>) -> Run<u32>
    requires { FitsInline N.USIZE }
{
    let end = match GenericArray::<u32, N>::try_from_iter_ref(&mut items) {
        Ok(made) => End::Made(digits(made.as_slice())),
        Err(LengthError) => End::WrongLength,
    };
    items.run(end)
}

/// `try_boxed_from_iter_ref`.
pub fn boxed_fill<N: Unsigned>(alloc: Global, mut items: Scripted<'_, u32>) -> Run<u32> {
    let end = match BoxedArray::<u32, N>::try_boxed_from_iter_ref(alloc, &mut items) {
        Ok(Ok(made)) => End::Made(digits(made.as_slice())),
        Ok(Err(LengthError)) => End::WrongLength,
        Err(AllocError) => End::NoMemory,
    };
    items.run(end)
}

/// `try_from_fallible_iter_ref` of an inline array.
pub fn inline_fallible_fill<N: ArrayLength<u32>>(mut items: Scripted<'_, Answer>) -> Run<Answer>
    requires { FitsInline N.USIZE }
{
    let end = match GenericArray::<u32, N>::try_from_fallible_iter_ref(&mut items) {
        Ok(Ok(made)) => End::Made(digits(made.as_slice())),
        Ok(Err(error)) => End::Item(error),
        Err(LengthError) => End::WrongLength,
    };
    items.run(end)
}

/// `try_boxed_from_fallible_iter_ref`.
pub fn boxed_fallible_fill<N: Unsigned>(
    alloc: Global,
    mut items: Scripted<'_, Answer>,
) -> Run<Answer> {
    let filled = BoxedArray::<u32, N>::try_boxed_from_fallible_iter_ref(alloc, &mut items);
    items.run(end_of_fill(filled))
}

/// `from_fallible_iter_ref` of a boxed array, by the trait.
pub fn boxed_fill_by_trait<N: Unsigned>(
    alloc: Global,
    mut items: Scripted<'_, Answer>,
) -> Run<Answer> {
    let filled = BoxedArray::<u32, N>::from_fallible_iter_ref(alloc, &mut items);
    items.run(end_of_fill(filled))
}

fn end_of_fill<S: AsSlice<u32> + Drop>(
    filled: Result<S, FillError<&'static str, AllocError>>,
) -> End {
    match filled {
        Ok(made) => End::Made(digits(made.as_slice())),
        Err(FillError::Item(error)) => End::Item(error),
        Err(FillError::Length(LengthError)) => End::WrongLength,
        Err(FillError::Place(AllocError)) => End::NoMemory,
    }
}
