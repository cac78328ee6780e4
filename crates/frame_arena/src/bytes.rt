//! Bytes in a block of memory of their own, which is freed when they are let go.
ghost use Rattle.std.specs.Prelude.{◌≡◌, ◌^◌, ◌<◌, IfOk, length, replicate};
ghost use Rattle.std.specs.Borrow.{sem};

use crate::memory::{Base, Cells, Deed, allocate, deallocate};
use std::alloc::{AllocError, Global};
use std::marker::Model;

/// A list of bytes. It keeps its length.
pub(crate) struct Bytes {
    base: Base<u8>,
    len: usize,
    cells: Cells<u8>,
    deed: Deed<u8, Global>,
    alloc: Global,
}

impl Model for Bytes {
    ghost use Rattle.std.specs.Prelude.{ℕ, List};
    ghost use Rattle.frame_arena.specs.Offsets.{somes};
    ghost use Rattle.frame_arena.specs.Bytes.{IsBlock};

    ghost Value = { List ℕ };

    ghost view = { λ bytes. somes bytes.cells.slots };

    ghost invariant = { λ bytes. IsBlock bytes.base.ptr bytes.len bytes.cells bytes.deed bytes.alloc };
}

impl Bytes {
    ghost use Rattle.frame_arena.specs.BytesLends.{lends_bytes};

    /// Zeros. They are refused only where memory ran out.
    pub(crate) fn zeros(alloc: Global, len: usize) -> Result<Bytes, AllocError>
        requires { len < 2 ^ 63 }
        ensures { IfOk result (λ bytes. bytes ≡ replicate len 0) }
    {
        let (base, mut cells, deed) = allocate::<u8, Global>(&alloc, len)?;
        for index in 0..len {
            cells.write(base, index, 0);
        }
        Ok(Bytes {
            base,
            len,
            cells,
            deed,
            alloc,
        })
    }

    /// All the bytes.
    pub(crate) fn as_slice(&self) -> &[u8]
        ensures { result.now ≡ self.now }
    {
        self.cells.slice(self.base, 0, self.len)
    }

    /// All the bytes, to write to.
    pub(crate) fn as_mut_slice(&mut self) -> &mut [u8]
        ensures* writes_back { sem 𝓛 (lends_bytes self.entry result) }
        ensures value { result.now ≡ self.old }
    {
        let (base, len) = (self.base, self.len);
        self.cells.slice_mut(base, 0, len)
    }
}

impl Drop for Bytes {
    fn drop(self) {
        let Bytes {
            base,
            len,
            cells,
            deed,
            alloc,
        } = self;
        deallocate(&alloc, base, len, cells, deed);
    }
}
