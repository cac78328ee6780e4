//! Pages compared by vectors: 256 bytes are looked at between two branches, as four vectors of 64.
ghost use Rattle.std.specs.Prelude.{◌≡◌, ◌+◌, ◌≤◌, ◌↔◌, IsTrue, length, take, replicate};
ghost use Rattle.std.specs.Cmp.Lexicographic.{slice_cmp};
ghost use Rattle.std.specs.Ordering.{nat_cmp};
ghost use Rattle.host_types.specs.Bytes.{part_of};
ghost use Rattle.host_types.specs.Pages.{zero_page};

use host_types::limits::PAGE_SIZE;
use std::cmp::Ordering;
use std::simd::prelude::*;

/// How many bytes are looked at between two branches.
const STEP: usize = 256;

/// How many bytes are looked at before all others: where two pages differ, they mostly do there.
const HEAD: usize = 8;

/// Whether two lists of bytes, of one length, are the same.
pub(crate) fn same(a: &[u8], b: &[u8]) -> bool
    requires { length a.now ≡ length b.now }
    ensures { IsTrue result ↔ (a.now ≡ b.now) }
{
    let at = alike(a, b);
    &a[at..] == &b[at..]
}

/// How two lists of bytes, of one length, compare, byte by byte from the first.
pub(crate) fn order(a: &[u8], b: &[u8]) -> Ordering
    requires { length a.now ≡ length b.now }
    ensures { result ≡ slice_cmp nat_cmp a.now b.now }
{
    let head = a.len().min(HEAD);
    let first = a[..head].cmp(&b[..head]);
    if first != Ordering::Equal {
        return first;
    }
    order_by_steps(a, b)
}

/// The same where the first bytes are mostly alike. It stands apart, so that `order` needs no registers for it.
#[inline(never)]
fn order_by_steps(a: &[u8], b: &[u8]) -> Ordering
    requires { length a.now ≡ length b.now }
    ensures { result ≡ slice_cmp nat_cmp a.now b.now }
{
    let at = alike(a, b);
    a[at..].cmp(&b[at..])
}

/// Whether all bytes of a page are zero.
pub(crate) fn is_zero(page: &[u8]) -> bool
    requires { length page.now ≡ PAGE_SIZE }
    ensures { IsTrue result ↔ (page.now ≡ zero_page) }
{
    let mut at = 0;
    while at < PAGE_SIZE as usize {
        if !is_zero_at(page, at) {
            return false;
        }
        at += STEP;
    }
    true
}

/// An offset before which two lists are the same: the first 256 bytes that differ begin there, or fewer
/// than 256 are left.
fn alike(a: &[u8], b: &[u8]) -> usize
    requires { length a.now ≡ length b.now }
    ensures within { result ≤ length a.now }
    ensures alike { take result a.now ≡ take result b.now }
{
    let mut at = 0;
    while a.len() - at >= STEP && is_same_at(a, b, at) {
        at += STEP;
    }
    at
}

/// Whether two lists have the same 256 bytes at an offset.
#[inline(always)]
fn is_same_at(a: &[u8], b: &[u8], at: usize) -> bool
    requires a { at + 256 ≤ length a.now }
    requires b { at + 256 ≤ length b.now }
    ensures { IsTrue result ↔ (part_of a.now at 256 ≡ part_of b.now at 256) }
{
    are_zeros(
        apart(a, b, at),
        apart(a, b, at + 64),
        apart(a, b, at + 128),
        apart(a, b, at + 192),
    )
}

/// Whether a list has 256 zeros at an offset.
#[inline(always)]
fn is_zero_at(bytes: &[u8], at: usize) -> bool
    requires { at + 256 ≤ length bytes.now }
    ensures { IsTrue result ↔ (part_of bytes.now at 256 ≡ replicate 256 0) }
{
    are_zeros(
        lanes_at(bytes, at),
        lanes_at(bytes, at + 64),
        lanes_at(bytes, at + 128),
        lanes_at(bytes, at + 192),
    )
}

/// The bits in which 64 bytes at an offset differ.
#[inline(always)]
fn apart(a: &[u8], b: &[u8], at: usize) -> u8x64
    requires a { at + 64 ≤ length a.now }
    requires b { at + 64 ≤ length b.now }
    ensures { (result ≡ replicate 64 0) ↔ (part_of a.now at 64 ≡ part_of b.now at 64) }
{
    lanes_at(a, at) ^ lanes_at(b, at)
}

/// The 64 bytes at an offset.
#[inline(always)]
fn lanes_at(bytes: &[u8], at: usize) -> u8x64
    requires { at + 64 ≤ length bytes.now }
    ensures { result ≡ part_of bytes.now at 64 }
{
    u8x64::from_slice(&bytes[at..])
}

/// Whether four vectors hold zeros alone.
#[inline(always)]
fn are_zeros(first: u8x64, second: u8x64, third: u8x64, fourth: u8x64) -> bool
    ensures { IsTrue result ↔ ((first ≡ replicate 64 0) × (second ≡ replicate 64 0)
        × (third ≡ replicate 64 0) × (fourth ≡ replicate 64 0)) }
{
    let any = (first | second) | (third | fourth);
    any.simd_ne(u8x64::splat(0)).to_bitmask() == 0
}
