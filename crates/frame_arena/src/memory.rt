//! Raw memory: a block of cells, each empty or holding a value. Pointers are made and followed here
//! alone, each in one small function that is proved by hand, and no contract outside the crate names one.
ghost use Rattle.std.specs.Prelude.{◌≡◌, ℕ, ◌<◌, List, Option, Some, None, map, length, take, drop, replicate, get_or, slice_set, IfOk, ⊤};
ghost use Rattle.std.specs.Borrow.{sem};
ghost use Rattle.std.specs.Vec.Ownership.{FitsInBlock};
ghost use base.Fml.{ftrue};
ghost use denote.RawPtr.{Ptr};
ghost use Rattle.frame_arena.specs.Offsets.{IsRun};
ghost use Rattle.frame_arena.specs.Ownership.{cells_own, cells_lent, deed_owns};

use std::alloc::{AllocError, Allocator};
use std::marker::{Model, PhantomData, Send, Sync};
use std::mem::{align_of, size_of};
use std::slice;

/// Where a block begins. It owns nothing, so that it may be copied.
pub struct Base<T> {
    ptr: *mut T,
}

impl<T> Clone for Base<T> {
    ghost is_clone = { λ x y. y ≡ x };

    ghost is_infallible = { λ _. ⊤ };

    fn clone(&self) -> Result<Base<T>, AllocError> {
        Ok(*self)
    }
}

impl<T> Copy for Base<T> {}

unsafe impl<T> Send for Base<T> {}

unsafe impl<T> Sync for Base<T> {}

/// The owner of a block's cells. It takes no space: who holds it keeps the pointer and the length.
pub struct Cells<T> {
    mark: PhantomData<*const T>,
    ghost at: { Ptr },
    ghost slots: { List (Option T) },
}

impl<T> Model for Cells<T> {
    ghost also_owns = { λ c. cells_own T.row c.at c.slots };

    ghost also_shares = { λ c _ κ. cells_lent T.row c.at c.slots κ };
}

unsafe impl<T: Send> Send for Cells<T> {}

unsafe impl<T: Sync> Sync for Cells<T> {}

/// The right to give the block of `len` cells at `at` back to `alloc`, which can be used once. It takes
/// no space.
pub struct Deed<T, A: Allocator> {
    mark: PhantomData<*const (T, A)>,
    ghost at: { Ptr },
    ghost len: { ℕ },
    ghost alloc: { A },
}

impl<T, A: Allocator> Model for Deed<T, A> {
    ghost also_owns = { λ d. deed_owns T.row (A.dealloc_token d.alloc) d.at d.len };

    ghost also_shares = { λ _ _ _. ftrue };
}

unsafe impl<T, A: Allocator + Send> Send for Deed<T, A> {}

// A `&` to it holds nothing.
unsafe impl<T, A: Allocator> Sync for Deed<T, A> {}

/// A block of so many empty cells.
pub(crate) fn allocate<T, A: Allocator>(
    alloc: &A,
    len: usize,
) -> Result<(Base<T>, Cells<T>, Deed<T, A>), AllocError>
    requires { FitsInBlock T.row len }
    ensures { IfOk result (λ r. (r.1.at ≡ r.0.ptr) × (r.1.slots ≡ replicate len None) × (r.2.at ≡ r.0.ptr) × (r.2.len ≡ len) × (r.2.alloc ≡ alloc.now)) }
{
    match alloc.allocate(len * size_of::<T>(), align_of::<T>()) {
        Ok(block) => {
            let base = Base {
                ptr: block as *mut T,
            };
            Ok((
                base,
                Cells { mark: PhantomData },
                Deed { mark: PhantomData },
            ))
        }
        Err(error) => Err(error),
    }
}

/// Gives a block back, whatever its cells hold. The right to do so is used up.
pub(crate) fn deallocate<T, A: Allocator>(
    alloc: &A,
    base: Base<T>,
    len: usize,
    cells: Cells<T>,
    deed: Deed<T, A>,
)
    requires { (cells.at ≡ base.ptr) × (length cells.slots ≡ len) × (deed.at ≡ base.ptr) × (deed.len ≡ len) × (deed.alloc ≡ alloc.now) }
{
    let Cells { mark: _ } = cells;
    let Deed { mark: _ } = deed;
    unsafe {
        alloc.deallocate(base.ptr as *mut u8, len * size_of::<T>(), align_of::<T>());
    }
}

impl<T> Cells<T> {
    ghost use Rattle.frame_arena.specs.Lends.{lends_run};

    /// Writes a value into an empty cell.
    pub(crate) fn write(&mut self, base: Base<T>, index: usize, item: T)
        requires { (base.ptr ≡ self.old.at) × (index < length self.old.slots) × (get_or self.old.slots index None ≡ None) }
        ensures { (self.new.at ≡ self.old.at) × (self.new.slots ≡ slice_set self.old.slots index (Some item)) }
    {
        unsafe { base.ptr.add(index).write(item) }
    }

    /// The `len` values from `from` on.
    pub(crate) fn slice(&self, base: Base<T>, from: usize, len: usize) -> &[T]
        requires { (base.ptr ≡ self.now.at) × IsRun self.now.slots from len }
        ensures { take len (drop from self.now.slots) ≡ map Some result.now }
    {
        unsafe { slice::from_raw_parts(base.ptr.add(from), len) }
    }

    /// The `len` values from `from` on, to write to.
    pub(crate) fn slice_mut(&mut self, base: Base<T>, from: usize, len: usize) -> &mut [T]
        requires { (base.ptr ≡ self.old.at) × IsRun self.old.slots from len }
        ensures* writes_back { sem 𝓛 (lends_run T.row self.entry from len result) }
        ensures value { take len (drop from self.old.slots) ≡ map Some result.now }
    {
        unsafe { slice::from_raw_parts_mut(base.ptr.add(from), len) }
    }
}
