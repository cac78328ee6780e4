//! The plain form of an arena: a list of pages, each a list of bytes, read and written byte by byte.

use host_types::limits::PAGE_SIZE;
use std::alloc::{AllocError, Global};
use std::cmp::Ordering;

/// Pages of zeros at first.
#[derive(Drop)]
pub(crate) struct PlainPages {
    pages: Vec<Vec<u8>>,
}

impl PlainPages {
    pub(crate) fn new(alloc: Global, frames: u32) -> Result<Self, AllocError> {
        let mut pages = Vec::new(alloc);
        for _ in 0..frames {
            pages.push(vec![in alloc; 0; PAGE_SIZE as usize]?)?;
        }
        Ok(PlainPages { pages })
    }

    /// A byte of a page, and zero where there is none.
    pub(crate) fn byte(&self, frame: u32, at: u32) -> u8 {
        match self.pages.get(frame as usize) {
            Some(page) => page.get(at as usize).copied().unwrap_or(0),
            None => 0,
        }
    }

    /// Writes a byte of a page.
    pub(crate) fn set(&mut self, frame: u32, at: u32, byte: u8) {
        if let Some(page) = self.pages.get_mut(frame as usize) {
            if let Some(offset) = page.get_mut(at as usize) {
                *offset = byte;
            }
        }
    }

    /// The number in some bytes, the lowest byte first.
    pub(crate) fn read(&self, frame: u32, at: u32, size: u32) -> u64 {
        let mut number = 0u64;
        for offset in 0..size {
            let byte = self.byte(frame, at.wrapping_add(size - 1 - offset));
            number = number.wrapping_mul(256).wrapping_add(u64::from(byte));
        }
        number
    }

    /// Writes the lowest bytes of a number, the lowest first.
    pub(crate) fn write(&mut self, frame: u32, at: u32, size: u32, value: u64) {
        let mut rest = value;
        for offset in 0..size {
            self.set(frame, at.wrapping_add(offset), (rest % 256) as u8);
            rest /= 256;
        }
    }

    /// Writes some bytes.
    pub(crate) fn put(&mut self, frame: u32, at: u32, bytes: &[u8]) {
        let mut offset = at;
        for byte in bytes {
            self.set(frame, offset, *byte);
            offset = offset.wrapping_add(1);
        }
    }

    /// Fills a page with zeros.
    pub(crate) fn clear(&mut self, frame: u32) {
        for at in 0..PAGE_SIZE {
            self.set(frame, at, 0);
        }
    }

    /// Copies a page into another.
    pub(crate) fn copy(&mut self, from: u32, to: u32) {
        for at in 0..PAGE_SIZE {
            let byte = self.byte(from, at);
            self.set(to, at, byte);
        }
    }

    /// How two pages compare, byte by byte from the first.
    pub(crate) fn order(&self, a: u32, b: u32) -> Ordering {
        for at in 0..PAGE_SIZE {
            let order = self.byte(a, at).cmp(&self.byte(b, at));
            if order != Ordering::Equal {
                return order;
            }
        }
        Ordering::Equal
    }

    /// Whether all bytes of a page are zero.
    pub(crate) fn is_zero(&self, frame: u32) -> bool {
        for at in 0..PAGE_SIZE {
            if self.byte(frame, at) != 0 {
                return false;
            }
        }
        true
    }

    /// `31 * f + byte` modulo `2^64`, over a page's bytes from 0 on.
    pub(crate) fn fingerprint(&self, frame: u32) -> u64 {
        let mut fingerprint = 0u64;
        for at in 0..PAGE_SIZE {
            let byte = u64::from(self.byte(frame, at));
            fingerprint = fingerprint.wrapping_mul(31).wrapping_add(byte);
        }
        fingerprint
    }
}
