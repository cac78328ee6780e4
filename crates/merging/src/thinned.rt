//! A list that stays short: of more elements each second one is left out, of still more each second one of those, and so on.

use std::alloc::{AllocError, Global};

/// The most elements that are kept, but for the last one.
pub const MOST: usize = 4096;

/// Each element whose number a power of 2 divides, and the last one.
#[derive(Drop)]
pub struct Thinned<T> {
    alloc: Global,
    kept: Vec<T>,
    /// The last one, if it isn't kept.
    last: Option<T>,
    /// How many there were.
    count: u64,
    /// The power of 2.
    stride: u64,
}

impl<T: Drop> Thinned<T> {
    /// There was none.
    pub fn new(alloc: Global) -> Self {
        Thinned {
            alloc,
            kept: Vec::new(alloc),
            last: None,
            count: 0,
            stride: 1,
        }
    }

    /// Adds an element.
    pub fn push(&mut self, element: T) -> Result<(), AllocError> {
        if self.kept.len() >= MOST {
            self.halve()?;
        }
        let number = self.count;
        self.count = number.saturating_add(1);
        if number % self.stride.max(1) == 0 {
            self.last = None;
            self.kept.push(element)?;
        } else {
            self.last = Some(element);
        }
        Ok(())
    }

    /// Leaves out each second element.
    fn halve(&mut self) -> Result<(), AllocError> {
        let all = std::mem::replace(&mut self.kept, Vec::new(self.alloc));
        for (at, element) in all.into_iter().enumerate() {
            if at % 2 == 0 {
                self.kept.push(element)?;
            }
        }
        self.stride = self.stride.saturating_mul(2);
        Ok(())
    }

    /// What was kept, the last element among it; how many there were; and of how many one was kept.
    pub fn finish(self) -> Result<(Vec<T>, u64, u64), AllocError> {
        let Thinned {
            mut kept,
            last,
            count,
            stride,
            ..
        } = self;
        if let Some(element) = last {
            kept.push(element)?;
        }
        Ok((kept, count, stride))
    }
}
