//! One block of memory, of whose slots a range in the middle holds items.
ghost use Rattle.ga_boxed.specs.Live.{live};
ghost use Rattle.std.specs.Borrow.{sem};
ghost use Rattle.std.specs.Prelude.{◌≡◌, ◌≢◌, ◌+◌, ◌<◌, ◌∷◌, ◌++◌, [], IfOk, IsOk, MatchOption, length};

mod cells;

use cells::{Base, Cells, Deed, allocate, deallocate, fits};
use ga_core::AllocError;
use std::alloc::Global;
use std::marker::Model;

/// A block for a number of items that is fixed when it is made. Contracts see it as the list of the
/// items that it holds, and its room: the number of items that can be put behind them.
///
/// The slots of items taken from the front are not used again.
pub struct LiveBlock<T> {
    base: Base<T>,
    size: usize,
    start: usize,
    end: usize,
    cells: Cells<T>,
    deed: Deed<T, Global>,
    alloc: Global,
}

impl<T> Model for LiveBlock<T> {
    ghost use Rattle.ga_boxed.specs.Live.{Live, live, live_code};
    ghost use Rattle.std.specs.Prelude.{◌≡◌, ◌+◌, length};

    ghost Value = { Live T };

    ghost coded = { live_code T.code };

    ghost view = { λ block. live block.cells.items block.cells.room };

    // The bounds are those of the cells, and the deed is that of the whole block.
    ghost invariant = { λ block. record {
      at : block.cells.at ≡ block.base.ptr;
      passed : block.cells.passed ≡ block.start;
      items : block.start + length block.cells.items ≡ block.end;
      room : block.end + block.cells.room ≡ block.size;
      deed_at : block.deed.at ≡ block.base.ptr;
      deed_len : block.deed.len ≡ block.size;
      deed_alloc : block.deed.alloc ≡ block.alloc;
    } };
}

impl<T> LiveBlock<T> {
    ghost use Rattle.ga_boxed.specs.BlockLends.{LendsLive};

    /// A block for `size` items that holds none. Fails if memory is short, or if a block can't
    /// have so many bytes. Allocates nothing if `size` is 0.
    pub fn new(alloc: Global, size: usize) -> Result<Self, AllocError>
        ensures block { IfOk result (λ block. block ≡ live [] size) }
        ensures empty { size ≡ 0 → IsOk result }
    {
        if !fits::<T>(size) {
            return Err(AllocError);
        }
        let (base, cells, deed) = allocate(&alloc, size)?;
        Ok(LiveBlock {
            base,
            size,
            start: 0,
            end: 0,
            cells,
            deed,
            alloc,
        })
    }

    /// How many items can still be put. O(1).
    #[inline]
    pub fn room(&self) -> usize
        ensures { result ≡ self.now.room }
    {
        self.size - self.end
    }

    /// The number of items. O(1).
    #[inline]
    pub fn len(&self) -> usize
        ensures { result ≡ length self.now.items }
    {
        self.end - self.start
    }

    // The allocator that the block came from.
    #[inline]
    pub(crate) fn allocator(&self) -> Global {
        self.alloc
    }

    // The same block. The caller says how many items it has, so that the compiler knows it too.
    #[inline]
    pub(crate) fn with_len(mut self, len: usize) -> Self
        requires len { len ≡ length self.items }
        ensures { result ≡ self }
    {
        self.end = self.start + len;
        self
    }

    /// Puts an item behind the others, into room that is there. O(1).
    #[inline]
    pub fn put(&mut self, item: T)
        requires room { 0 < self.old.room }
        ensures items { self.new.items ≡ self.old.items ++ item ∷ [] }
        ensures room { self.new.room + 1 ≡ self.old.room }
    {
        let end = self.end;
        self.end = end + 1;
        self.cells.put(self.base, end, item);
    }

    // Takes the first item. Its slot isn't used again.
    #[inline]
    pub(crate) fn take_first(&mut self) -> T
        requires enough { self.old.items ≢ [] }
        ensures items { self.old.items ≡ result ∷ self.new.items }
        ensures room { self.new.room ≡ self.old.room }
    {
        let first = self.start;
        self.start = first + 1;
        self.cells.take_first(self.base, first)
    }

    /// Takes the first item. Its slot isn't used again. O(1).
    #[inline]
    pub fn take_front(&mut self) -> Option<T>
        ensures { MatchOption result
            ((self.old.items ≡ []) × (self.new ≡ self.old))
            (λ item. (self.old.items ≡ item ∷ self.new.items) × (self.new.room ≡ self.old.room)) }
    {
        if self.start == self.end {
            return None;
        }
        Some(self.take_first())
    }

    // Takes the last item. Its slot is room for another.
    #[inline]
    pub(crate) fn take_last(&mut self) -> T
        requires enough { self.old.items ≢ [] }
        ensures items { self.old.items ≡ self.new.items ++ result ∷ [] }
        ensures room { self.new.room ≡ self.old.room + 1 }
    {
        let last = self.end - 1;
        self.end = last;
        self.cells.take_last(self.base, last)
    }

    /// Takes the last item. Its slot is room for another. O(1).
    #[inline]
    pub fn take_back(&mut self) -> Option<T>
        ensures { MatchOption result
            ((self.old.items ≡ []) × (self.new ≡ self.old))
            (λ item. (self.old.items ≡ self.new.items ++ item ∷ [])
            × (self.new.room ≡ self.old.room + 1)) }
    {
        if self.start == self.end {
            return None;
        }
        Some(self.take_last())
    }

    /// The items, in order. O(1).
    #[inline]
    pub fn as_slice(&self) -> &[T]
        ensures { result.now ≡ self.now.items }
    {
        self.all(self.len())
    }

    /// The items, in order, for writing. O(1).
    #[inline]
    pub fn as_mut_slice(&mut self) -> &mut [T]
        ensures* writes_back { sem 𝓛 (LendsLive T.row self.entry result) }
        ensures items { result.now ≡ self.old.items }
    {
        let len = self.len();
        self.all_mut(len)
    }

    // The items, of which there are `len`. Where a caller passes a constant, the compiler knows the
    // slice's length.
    #[inline]
    pub(crate) fn all(&self, len: usize) -> &[T]
        requires len { len ≡ length self.now.items }
        ensures { result.now ≡ self.now.items }
    {
        self.cells.slice(self.base, self.start, len)
    }

    // The same for writing, which can't be a range of `as_mut_slice`: the check doesn't follow that
    // back to the block.
    #[inline]
    pub(crate) fn all_mut(&mut self, len: usize) -> &mut [T]
        requires len { len ≡ length self.old.items }
        ensures* writes_back { sem 𝓛 (LendsLive T.row self.entry result) }
        ensures items { result.now ≡ self.old.items }
    {
        let (base, start) = (self.base, self.start);
        self.cells.slice_mut(base, start, len)
    }

    // A block of the items of a native array, which are moved in one piece. If the allocation
    // fails, drops them.
    pub(crate) fn from_array<const U: usize>(
        alloc: Global,
        items: [T; U],
    ) -> Result<Self, AllocError>
    where
        T: Drop,
        ensures items { IfOk result (λ block. block ≡ live items 0) }
        ensures empty { U ≡ 0 → IsOk result }
    {
        if !fits::<T>(U) {
            return Err(AllocError);
        }
        let (base, mut cells, deed) = allocate(&alloc, U)?;
        cells.put_array(base, items);
        Ok(LiveBlock {
            base,
            size: U,
            start: 0,
            end: U,
            cells,
            deed,
            alloc,
        })
    }

    // Deallocates the block.
    fn give_back(self)
        requires empty { self.items ≡ [] }
    {
        let LiveBlock {
            base,
            size,
            start: _,
            end: _,
            cells,
            deed,
            alloc,
        } = self;
        deallocate(&alloc, base, size, cells, deed);
    }
}

/// Drops the items from the front, and deallocates the block.
impl<T: Drop> Drop for LiveBlock<T> {
    fn drop(mut self) {
        while let Some(_item) = self.take_front() {}
        self.give_back();
    }
}
