//! The search of a value for a CR or an LF, several bytes at a time.
ghost use Rattle.std.specs.Prelude.{◌+◌, ◌≤◌, ◌<◌, IsTrue, length};
ghost use Rattle.unftp_control_codecs.specs.Values.{LacksRunEnd};

use std::simd::prelude::*;

const CR: u8 = b'\r';

/// Whether the `N` bytes at `from` are greater than a CR, so that none is a CR or an LF.
#[inline(always)]
fn are_plain<const N: usize>(bytes: &[u8], from: usize) -> bool
    requires lanes { (0 < N) × (N ≤ 64) }
    requires room { from + N ≤ length bytes.now }
    ensures { IsTrue result → LacksRunEnd bytes.now from (from + N) }
{
    let block = Simd::<u8, N>::from_slice(&bytes[from..]);
    block.simd_le(Simd::splat(CR)).to_bitmask() == 0
}

/// The same of all bytes, which are `N` or more. Some of the last `N` may be read twice.
#[inline(always)]
fn all_are_plain<const N: usize>(bytes: &[u8]) -> bool
    requires lanes { (0 < N) × (N ≤ 64) }
    requires room { N ≤ length bytes.now }
    ensures { IsTrue result → LacksRunEnd bytes.now 0 (length bytes.now) }
{
    let last = bytes.len() - N;
    let mut at = 0usize;
    while at < last {
        if !are_plain::<N>(bytes, at) {
            return false;
        }
        at += N;
    }
    are_plain::<N>(bytes, last)
}

/// The same of up to three bytes.
#[inline(always)]
fn few_are_plain(bytes: &[u8]) -> bool
    ensures { IsTrue result → LacksRunEnd bytes.now 0 (length bytes.now) }
{
    for &byte in bytes {
        if byte <= CR {
            return false;
        }
    }
    true
}

/// Whether all bytes of a value are greater than a CR, so that it has no CR and no LF. One with a
/// TAB is not plain by this.
// over many bytes `memchr2` takes five times the instructions on the oldest x86-64
#[inline(always)]
pub fn is_plain(value: &[u8]) -> bool
    // Where it is true, no byte of the value is a CR or an LF.
    ensures { IsTrue result → LacksRunEnd value.now 0 (length value.now) }
{
    match value.len() {
        64.. => all_are_plain::<64>(value),
        16.. => all_are_plain::<16>(value),
        8.. => all_are_plain::<8>(value),
        4.. => all_are_plain::<4>(value),
        _ => few_are_plain(value),
    }
}
