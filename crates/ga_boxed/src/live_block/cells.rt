//! What touches the block's pointer. Each of these functions is as small as its proof allows.
ghost use Rattle.std.specs.Prelude.{◌≡◌, ◌≢◌, ◌<◌, ◌+◌, ◌*◌, ◌^◌, ◌∷◌, ◌++◌, [], ◌↔◌, ℕ, List, ⊤, IfOk, IsOk, IsTrue, length};
ghost use Rattle.std.specs.Borrow.{sem};
ghost use Rattle.std.specs.Mem.{type_size};
ghost use base.Fml.{ftrue};
ghost use denote.RawPtr.{Ptr};
ghost use Rattle.ga_boxed.specs.CellsOwn.{cells_lent, cells_own, deed_owns};

use std::alloc::{AllocError, Allocator};
use std::marker::{Model, PhantomData, Send, Sync};
use std::mem::{align_of, size_of};
use std::slice;

// The most bytes that a block may have: `isize::MAX`.
const MAX_BYTES: usize = 0x7fff_ffff_ffff_ffff;

// Where the block begins. It owns nothing.
pub(crate) struct Base<T> {
    ptr: *mut T,
}

impl<T> Clone for Base<T> {
    ghost is_clone = { λ base copy. copy ≡ base };

    ghost is_infallible = { λ _. ⊤ };

    fn clone(&self) -> Result<Base<T>, AllocError> {
        Ok(*self)
    }
}

impl<T> Copy for Base<T> {}

// An address alone gives no access.
unsafe impl<T> Send for Base<T> {}

unsafe impl<T> Sync for Base<T> {}

// The owner of the slots: `passed` that are empty, then the items, then room for more. It takes no
// space, since the block holds the pointer and the bounds.
pub(crate) struct Cells<T> {
    mark: PhantomData<*const T>,
    ghost at: { Ptr },
    ghost passed: { ℕ },
    ghost items: { List T },
    ghost room: { ℕ },
}

impl<T> Model for Cells<T> {
    ghost also_owns = { λ cells. cells_own T.row cells.at cells.passed cells.items cells.room };

    ghost also_shares = { λ cells _ κ. cells_lent T.row cells.at cells.passed cells.items
        cells.room κ };
}

// The cells cross threads as their items do.
unsafe impl<T: Send> Send for Cells<T> {}

unsafe impl<T: Sync> Sync for Cells<T> {}

// The right to deallocate the block of `len` slots at `at`: none if `len` is 0, since there is no
// block then. It takes no space.
pub(crate) struct Deed<T, A: Allocator> {
    mark: PhantomData<*const (T, A)>,
    ghost at: { Ptr },
    ghost len: { ℕ },
    ghost alloc: { A },
}

impl<T, A: Allocator> Model for Deed<T, A> {
    ghost also_owns = { λ deed. deed_owns T.row (A.dealloc_token deed.alloc) deed.at deed.len };

    ghost also_shares = { λ _ _ _. ftrue };
}

// The right crosses threads where any may give a block back to the allocator. A `&` to it holds
// nothing.
unsafe impl<T, A: Allocator + Send> Send for Deed<T, A> {}

unsafe impl<T, A: Allocator> Sync for Deed<T, A> {}

// Whether a block may have `len` slots: they have fewer than 2^63 bytes.
pub(crate) fn fits<T>(len: usize) -> bool
    ensures { IsTrue result ↔ (len * type_size T.row < 2 ^ 63) }
{
    let size = size_of::<T>();
    if size == 0 {
        return true;
    }
    len <= MAX_BYTES / size
}

// A block of `len` slots, all of them room. If `len` is 0, allocates nothing and returns a
// dangling pointer.
pub(crate) fn allocate<T, A: Allocator>(
    alloc: &A,
    len: usize,
) -> Result<(Base<T>, Cells<T>, Deed<T, A>), AllocError>
    requires fits { len * type_size T.row < 2 ^ 63 }
    ensures at { IfOk result (λ r. r.1.at ≡ r.0.ptr) }
    ensures passed { IfOk result (λ r. r.1.passed ≡ 0) }
    ensures items { IfOk result (λ r. r.1.items ≡ []) }
    ensures room { IfOk result (λ r. r.1.room ≡ len) }
    ensures deed_at { IfOk result (λ r. r.2.at ≡ r.0.ptr) }
    ensures deed_len { IfOk result (λ r. r.2.len ≡ len) }
    ensures deed_alloc { IfOk result (λ r. r.2.alloc ≡ alloc.now) }
    ensures empty { len ≡ 0 → IsOk result }
{
    if len == 0 {
        let none: [T; 0] = [];
        let base = Base {
            ptr: &raw const none as *mut T,
        };
        return Ok((
            base,
            Cells { mark: PhantomData },
            Deed { mark: PhantomData },
        ));
    }
    match alloc.allocate(len * size_of::<T>(), align_of::<T>()) {
        Ok(block) => {
            let base = Base {
                ptr: block as *mut T,
            };
            Ok((
                base,
                Cells { mark: PhantomData },
                Deed { mark: PhantomData },
            ))
        }
        Err(error) => Err(error),
    }
}

// Deallocates the block of `len` slots, which holds no item. Does nothing if `len` is 0.
pub(crate) fn deallocate<T, A: Allocator>(
    alloc: &A,
    base: Base<T>,
    len: usize,
    cells: Cells<T>,
    deed: Deed<T, A>,
)
    requires at { cells.at ≡ base.ptr }
    requires items { cells.items ≡ [] }
    requires room { cells.passed + cells.room ≡ len }
    requires deed_at { deed.at ≡ base.ptr }
    requires deed_len { deed.len ≡ len }
    requires deed_alloc { deed.alloc ≡ alloc.now }
{
    let Cells { mark: _ } = cells;
    let Deed { mark: _ } = deed;
    if len != 0 {
        unsafe {
            alloc.deallocate(base.ptr as *mut u8, len * size_of::<T>(), align_of::<T>());
        }
    }
}

impl<T> Cells<T> {
    ghost use Rattle.ga_boxed.specs.CellsLend.{lends_items};

    // Writes `item` into the first slot of the room, which is at `index`.
    #[inline]
    pub(crate) fn put(&mut self, base: Base<T>, index: usize, item: T)
        requires at { base.ptr ≡ self.old.at }
        requires index { index ≡ self.old.passed + length self.old.items }
        requires room { 0 < self.old.room }
        ensures at { self.new.at ≡ self.old.at }
        ensures passed { self.new.passed ≡ self.old.passed }
        ensures items { self.new.items ≡ self.old.items ++ item ∷ [] }
        ensures room { self.new.room + 1 ≡ self.old.room }
    {
        unsafe { base.ptr.add(index).write(item) }
    }

    // Writes the items of a native array into room for as many, where nothing was put before.
    pub(crate) fn put_array<const U: usize>(&mut self, base: Base<T>, items: [T; U])
        requires at { base.ptr ≡ self.old.at }
        requires passed { self.old.passed ≡ 0 }
        requires items { self.old.items ≡ [] }
        requires room { self.old.room ≡ U }
        ensures at { self.new.at ≡ self.old.at }
        ensures passed { self.new.passed ≡ 0 }
        ensures items { self.new.items ≡ items }
        ensures room { self.new.room ≡ 0 }
    {
        unsafe { base.ptr.cast::<[T; U]>().write(items) }
    }

    // Reads the first item, which is at `index`, out of its slot.
    #[inline]
    pub(crate) fn take_first(&mut self, base: Base<T>, index: usize) -> T
        requires at { base.ptr ≡ self.old.at }
        requires index { index ≡ self.old.passed }
        requires enough { self.old.items ≢ [] }
        ensures at { self.new.at ≡ self.old.at }
        ensures passed { self.new.passed ≡ self.old.passed + 1 }
        ensures items { self.old.items ≡ result ∷ self.new.items }
        ensures room { self.new.room ≡ self.old.room }
    {
        unsafe { base.ptr.add(index).read() }
    }

    // Reads the last item, which is at `index`, out of its slot.
    #[inline]
    pub(crate) fn take_last(&mut self, base: Base<T>, index: usize) -> T
        requires at { base.ptr ≡ self.old.at }
        requires index { index + 1 ≡ self.old.passed + length self.old.items }
        requires enough { self.old.items ≢ [] }
        ensures at { self.new.at ≡ self.old.at }
        ensures passed { self.new.passed ≡ self.old.passed }
        ensures items { self.old.items ≡ self.new.items ++ result ∷ [] }
        ensures room { self.new.room ≡ self.old.room + 1 }
    {
        unsafe { base.ptr.add(index).read() }
    }

    // The items, of which there are `len`, from the slot `index` on.
    #[inline]
    pub(crate) fn slice(&self, base: Base<T>, index: usize, len: usize) -> &[T]
        requires at { base.ptr ≡ self.now.at }
        requires index { index ≡ self.now.passed }
        requires len { len ≡ length self.now.items }
        ensures { result.now ≡ self.now.items }
    {
        unsafe { slice::from_raw_parts(base.ptr.add(index), len) }
    }

    // The items for writing, of which there are `len`, from the slot `index` on.
    #[inline]
    pub(crate) fn slice_mut(&mut self, base: Base<T>, index: usize, len: usize) -> &mut [T]
        requires at { base.ptr ≡ self.old.at }
        requires index { index ≡ self.old.passed }
        requires len { len ≡ length self.old.items }
        ensures* writes_back { sem 𝓛 (lends_items T.row self.entry result) }
        ensures items { result.now ≡ self.old.items }
    {
        unsafe { slice::from_raw_parts_mut(base.ptr.add(index), len) }
    }
}
