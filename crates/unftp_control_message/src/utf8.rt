//! Bytes as text.
ghost use Rattle.std.specs.Prelude.{◌≡◌, ◌≤◌, ◌<◌, ℕ, IfOk, IsTrue, MatchOption, length, slice_index, string_bytes};
ghost use Rattle.std.specs.Str.{IsUtf8};
ghost use Rattle.std.specs.Str.Lossy.{utf8_lossy};

use simdutf8::from_utf8_baseline;
use std::alloc::{AllocError, Global};
use std::simd::prelude::*;
use std::str::from_utf8;

/// A text of so many bytes or more takes less time by `long_text` than by std.
const LONG: usize = 128;

/// For how many ill-formed parts a text has room from the start: each has one byte at least, and
/// U+FFFD has three.
const PARTS: usize = 16;

/// The bytes as a text, or none where they are not UTF-8.
#[inline(always)]
pub fn text(bytes: &[u8]) -> Option<&str>
    // `None` exactly where the bytes are not UTF-8; else the text has exactly these bytes.
    ensures { MatchOption result (¬ (IsUtf8 bytes.now))
        (λ text. (text.now ≡ bytes.now) × IsUtf8 bytes.now) }
{
    if bytes.len() >= LONG {
        return long_text(bytes);
    }
    match from_utf8(bytes) {
        Ok(text) => Some(text),
        Err(_) => None,
    }
}

/// The same of a long text. They are tested 64 at a time, unless the first 32 are ASCII or
/// ill-formed: then std takes less time.
#[inline(never)]
fn long_text(bytes: &[u8]) -> Option<&str>
    requires { 32 ≤ length bytes.now }
    ensures { MatchOption result (¬ (IsUtf8 bytes.now))
        (λ text. (text.now ≡ bytes.now) × IsUtf8 bytes.now) }
{
    let (front, _) = bytes.split_at(32);
    if is_ascii(front) || is_ill_formed(front) {
        return match from_utf8(bytes) {
            Ok(text) => Some(text),
            Err(_) => None,
        };
    }
    // the form without byte shuffles: the oldest x86-64, which the library for C is for, has none
    match from_utf8_baseline(bytes) {
        Ok(text) => Some(text),
        Err(_) => None,
    }
}

/// Whether the first 32 bytes are ASCII.
#[inline(always)]
fn is_ascii(bytes: &[u8]) -> bool
    requires { 32 ≤ length bytes.now }
    ensures { IsTrue result → (k : ℕ) → k < 32 → slice_index bytes.now k < 128 }
{
    u8x32::from_slice(bytes)
        .simd_ge(u8x32::splat(0x80))
        .to_bitmask()
        == 0
}

/// Whether the bytes have a part that is ill-formed UTF-8, whatever comes after them.
fn is_ill_formed(bytes: &[u8]) -> bool
    ensures { IsTrue result → ¬ (IsUtf8 bytes.now) }
{
    match from_utf8(bytes) {
        Ok(_) => false,
        Err(error) => error.error_len().is_some(),
    }
}

/// The bytes as a new text, each ill-formed part of UTF-8 replaced by U+FFFD. It has room for
/// `PARTS` of them at once.
// `String::from_utf8_lossy` tests the bytes once more, and makes room several times
pub(crate) fn replaced(alloc: Global, bytes: &[u8]) -> Result<String, AllocError>
    ensures { IfOk result (λ text. string_bytes text ≡ utf8_lossy bytes.now) }
{
    let mut text = String::with_capacity(alloc, bytes.len().saturating_add(2 * PARTS))?;
    for chunk in bytes.utf8_chunks() {
        text.push_str(chunk.valid())?;
        if !chunk.invalid().is_empty() {
            text.push('\u{FFFD}')?;
        }
    }
    Ok(text)
}
