//! An array that is being built, item by item or from what is left of another.
ghost use Rattle.ga_core.specs.Fill.{Asks, TakeGoodRuns, TakeRuns, Takes, TakesGood};
ghost use Rattle.ga_core.specs.Lends.{LendsItems};
ghost use Rattle.ga_views.specs.Length.{FitsInline};
ghost use Rattle.std.specs.Borrow.{sem};
ghost use Rattle.std.specs.Prelude.{◌≡◌, ◌≢◌, ◌⊎◌, ◌+◌, ◌-◌, ◌<◌, ◌≤◌, ◌↔◌, IfOk, IsFalse, IsTrue, None, OnErr, Some, List, [], ◌∷◌, ◌++◌, drop, length, take};

mod edits;

use crate::array::GenericArray;
use crate::array_iter::GenericArrayIter;
use crate::blocks::BLOCK;
use crate::length::ArrayLength;
use crate::store::{Store, put_at};
pub use edits::carry_to_end;
use ga_views::LengthError;
use std::marker::{Model, PhantomData};

/// The first items of an array of `N`. Contracts see it as the list of these items.
///
/// The counterpart of `ArrayBuilder`. The items are dropped with it, unless it is finished. It is
/// also a list of at most `N` items: `edits` has the calls of a `Vec`.
#[derive(Drop)]
pub struct ArrayBuilder<T, N: ArrayLength<T>> {
    // The items so far lie in the first slots; the other slots hold defaults. The number stands
    // before the store, which lets the compiler see that a write to a slot leaves it.
    position: usize,
    store: N::ArrayType,
    of: PhantomData<T>,
}

impl<T, N: ArrayLength<T>> Model for ArrayBuilder<T, N> {
    ghost use Rattle.ga_views.specs.Length.{FitsInline};
    ghost use Rattle.std.specs.Prelude.{◌≡◌, ◌≤◌, List, length, take};

    ghost Value = { List T };

    ghost view = { λ builder. take builder.position (N.ArrayType.items builder.store) };

    ghost invariant = { λ builder. (builder.position ≤ N.USIZE)
        × (length (N.ArrayType.items builder.store) ≡ N.USIZE) × FitsInline N.USIZE };
}

impl<T: Default + Drop, N: ArrayLength<T>> ArrayBuilder<T, N> {
    /// A builder without items. Requires `N <= MAX_INLINE`. Fills its `N` slots with defaults.
    // Inlined always, so that the compiler knows the position.
    #[inline(always)]
    pub fn new() -> Self
        requires fits { FitsInline N.USIZE }
        ensures { result ≡ [] }
    {
        ArrayBuilder {
            position: 0,
            store: Store::with_defaults(N::USIZE),
            of: PhantomData,
        }
    }

    /// Appends an item. Requires that the builder isn't full. O(1).
    #[inline]
    pub fn push(&mut self, item: T)
        requires room { length self.old < N.USIZE }
        ensures items { self.new ≡ self.old ++ item ∷ [] }
        ensures len { length self.new ≡ length self.old + 1 }
        ensures bound { length self.new ≤ N.USIZE }
    {
        let slot = self.position;
        put_at(&mut self.store, slot, item);
        self.position = slot + 1;
    }

    /// Appends the first `count` items that `items` has left, in order, in one pass. All items of
    /// the builder, or of the array, are moved in one piece.
    ///
    /// Requires that the builder has room for `count` items, and that as many are left. `extend`
    /// takes from any iterator, item by item.
    #[inline(always)]
    pub fn take_from<K: ArrayLength<T>>(&mut self, items: &mut GenericArrayIter<T, K>, count: usize)
        requires room { length self.old + count ≤ N.USIZE }
        requires enough { count ≤ length items.old }
        ensures taken { self.new ≡ self.old ++ take count items.old }
        ensures left { items.new ≡ drop count items.old }
        ensures bound { length self.new ≤ N.USIZE }
    {
        let first = self.position;
        items.exchange_or_move::<N::ArrayType>(self.store.part_mut(first, count), N::USIZE);
        self.position = first + count;
    }
}

impl<T, N: ArrayLength<T>> ArrayBuilder<T, N> {
    /// How many items there are, which is the index of the next. O(1).
    #[inline]
    pub fn position(&self) -> usize
        ensures len { result ≡ length self.now }
        ensures bound { length self.now ≤ N.USIZE }
        ensures fits { FitsInline N.USIZE }
    {
        self.position
    }

    /// Whether there are `N` items. O(1).
    #[inline]
    pub fn is_full(&self) -> bool
        ensures full { IsTrue result ↔ (length self.now ≡ N.USIZE) }
        ensures bound { length self.now ≤ N.USIZE }
        ensures fits { FitsInline N.USIZE }
    {
        self.position() == N::USIZE
    }

    /// The items so far, in order. O(1).
    #[inline]
    pub fn as_slice(&self) -> &[T]
        ensures items { result.now ≡ self.now }
        ensures bound { length self.now ≤ N.USIZE }
        ensures fits { FitsInline N.USIZE }
    {
        &self.store.as_slice()[..self.position]
    }

    /// The items so far, in order, for writing. O(1).
    #[inline]
    pub fn as_mut_slice(&mut self) -> &mut [T]
        ensures* writes_back { sem 𝓛 (LendsItems T.row self.entry result) }
        ensures items { result.now ≡ self.old }
        ensures bound { length result.now ≤ N.USIZE }
        ensures fits { FitsInline N.USIZE }
    {
        let len = self.position;
        self.store.part_mut(0, len)
    }

    /// The array of the items. Requires that the builder is full. Moves the items, and allocates
    /// nothing.
    #[inline]
    pub fn finish(self) -> GenericArray<T, N>
        requires full { length self ≡ N.USIZE }
        ensures { result ≡ self }
    {
        let ArrayBuilder {
            position: _,
            store,
            of: _,
        } = self;
        GenericArray::from_store(store)
    }
}

impl<T: Default + Drop, N: ArrayLength<T>> ArrayBuilder<T, N> {
    /// Appends the items of `items` until the builder is full or the iterator ends.
    ///
    /// Goes on at the builder's position. Calls `next` only while the builder isn't full. Size
    /// hints aren't consulted.
    pub fn extend<I: Iterator<Item = T>>(&mut self, items: &mut I)
        requires can { I.can_next items.old }
        ensures taken { (taken : List T) × (self.new ≡ self.old ++ taken)
            × Takes I.next_gives items.old (N.USIZE - length self.old) taken items.new }
        ensures runs { TakeRuns I.next_gives items.old (N.USIZE - length self.old) (λ taken.
            self.new ≡ self.old ++ taken) }
        ensures asks { Asks I.next_gives items.old (N.USIZE - length self.old) items.new }
        ensures bound { length self.new ≤ N.USIZE }
        ensures can { length self.new ≡ N.USIZE → I.can_next items.new }
    {
        self.fill(items);
    }

    // `extend` in blocks, which the compiler unrolls.
    #[inline(always)]
    pub(crate) fn fill<I: Iterator<Item = T>>(&mut self, items: &mut I)
        requires can { I.can_next items.old }
        ensures taken { (taken : List T) × (self.new ≡ self.old ++ taken)
            × Takes I.next_gives items.old (N.USIZE - length self.old) taken items.new }
        ensures can { length self.new ≡ N.USIZE → I.can_next items.new }
        ensures bound { length self.new ≤ N.USIZE }
    {
        while N::USIZE - self.position() >= BLOCK {
            if !self.take_some(items, BLOCK) {
                return;
            }
        }
        let room = N::USIZE - self.position();
        self.take_some(items, room);
    }

    // Appends the next `count` items, and returns whether there were as many.
    #[inline(always)]
    fn take_some<I: Iterator<Item = T>>(&mut self, items: &mut I, count: usize) -> bool
        requires room { length self.old + count ≤ N.USIZE }
        requires can { I.can_next items.old }
        ensures taken { (taken : List T) × (self.new ≡ self.old ++ taken)
            × Takes I.next_gives items.old count taken items.new }
        ensures all { IsTrue result → length self.new ≡ length self.old + count }
        ensures short { IsFalse result → length self.new < length self.old + count }
        ensures can { length self.new ≡ length self.old + count → I.can_next items.new }
        ensures bound { length self.new ≤ N.USIZE }
    {
        let mut turn = 0;
        while is_below(turn, count) {
            match items.next() {
                Some(item) => self.push(item),
                None => return false,
            }
            turn += 1;
        }
        true
    }

    /// Appends the `Ok` values of `items`, as `extend` does, up to the first `Err`, which it
    /// returns. The values before that stay in the builder.
    pub fn try_extend<I: Iterator<Item = Result<T, E>>, E: Drop>(
        &mut self,
        items: &mut I,
    ) -> Result<(), E>
        requires can { I.can_next items.old }
        ensures taken { (taken : List T) × (self.new ≡ self.old ++ taken)
            × TakesGood I.next_gives items.old (N.USIZE - length self.old) taken result items.new }
        ensures runs { TakeGoodRuns I.next_gives items.old (N.USIZE - length self.old) result
            (λ taken. self.new ≡ self.old ++ taken) }
        ensures bound { length self.new ≤ N.USIZE }
        ensures can { length self.new ≡ N.USIZE → I.can_next items.new }
        ensures can_on { OnErr result (I.can_next items.new) }
    {
        while !self.is_full() {
            match items.next() {
                Some(Ok(item)) => self.push(item),
                Some(Err(error)) => return Err(error),
                None => return Ok(()),
            }
        }
        Ok(())
    }

    // The array of the items where the builder is full and `items` has ended, else `LengthError`.
    //
    // A builder that isn't full asks nothing.
    pub(crate) fn finish_at_end<I: Iterator>(
        self,
        items: &mut I,
    ) -> Result<GenericArray<T, N>, LengthError>
    where
        I::Item: Drop,
        requires can { length self ≡ N.USIZE → I.can_next items.old }
        ensures ok { IfOk result (λ array. (array ≡ self) × (length self ≡ N.USIZE)
            × I.next_gives items.old None items.new) }
        ensures err { OnErr result (((length self ≢ N.USIZE) × (items.new ≡ items.old))
            ⊎ ((length self ≡ N.USIZE)
            × ((more : I.Item) × I.next_gives items.old (Some more) items.new))) }
    {
        if self.is_full() && items.next().is_none() {
            return Ok(self.finish());
        }
        Err(LengthError)
    }
}

// `<`. By a call, since the checker asks of a loop that counts that its iterator ends.
#[inline(always)]
fn is_below(turn: usize, count: usize) -> bool
    ensures more { IsTrue result → turn < count }
    ensures done { IsFalse result → count ≤ turn }
{
    turn < count
}
