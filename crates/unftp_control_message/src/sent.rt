//! A value as it is sent, and as bytes or text.
ghost use Rattle.std.specs.Prelude.{◌≡◌, ◌≤◌, ◌==◌, ◌<◌, ◌*◌, ◌++◌, IsTrue, IfOk, OnErr, length, string_bytes, drop};
ghost use Rattle.std.specs.Str.Lossy.{utf8_lossy};
ghost use Rattle.unftp_control_message.specs.SentValues.{after_nul, begins_with_cr_nul, cr_nul_count, first_unit_len, four_cr_nul, sent_bytes, unescaped, sent_value};

use crate::utf8::replaced;
use bytes::Bytes;
use memchr::memchr;
use std::alloc::{AllocError, Global};
use std::str::from_utf8;

const CR: u8 = b'\r';

const NUL: u8 = 0;

/// Four CR NUL, as a number.
const FOUR_CR_NUL: u64 = 0x000d_000d_000d_000d;

/// A value, as it is sent (RFC 854).
#[derive(Clone, Copy)]
pub enum Sent<'a> {
    /// The bytes of the value.
    Plain(&'a [u8]),
    /// The bytes of the value, with a NUL after some of its carriage returns.
    Escaped(&'a [u8]),
}

impl<'a> Sent<'a> {
    /// The bytes that are sent for it.
    pub fn sent(self) -> &'a [u8]
        // Exactly the bytes that are sent for the value.
        ensures { result.now ≡ sent_bytes self.entry }
    {
        match self {
            Sent::Plain(bytes) | Sent::Escaped(bytes) => bytes,
        }
    }

    /// Whether it has no bytes.
    #[inline]
    pub fn is_empty(self) -> bool
        // True exactly where the value has no bytes.
        ensures { result ≡ (length (sent_value self.entry) == 0) }
    {
        self.sent().is_empty()
    }

    /// How many bytes the value has.
    pub fn value_len(self) -> usize
        // The number of the value's bytes.
        ensures { result ≡ length (sent_value self.entry) }
    {
        match self {
            Sent::Plain(bytes) => bytes.len(),
            Sent::Escaped(sent) => unescaped_len(sent),
        }
    }

    /// Writes the value to the start of an area, and changes no later byte of it. It takes no
    /// memory. The area has to have `value_len` bytes at least.
    pub fn write_to(self, area: &mut [u8])
        // The area has room for the value.
        requires { length (sent_value self) ≤ length area.old }
        // The area begins with the value, and its later bytes stay.
        ensures { area.new ≡ sent_value self.entry
            ++ drop (length (sent_value self.entry)) area.old }
    {
        match self {
            Sent::Plain(bytes) => {
                let (front, _) = area.split_at_mut(bytes.len());
                front.copy_from_slice(bytes);
            }
            Sent::Escaped(sent) => unescape_to(sent, area),
        }
    }

    /// Its bytes, in new memory; none take none.
    pub fn to_bytes(self, alloc: Global) -> Result<Bytes, AllocError>
        // At `Ok` exactly the bytes of the value.
        ensures ok { IfOk result (λ bytes. bytes ≡ sent_value self.entry) }
        // It is out of memory only where the value has bytes.
        ensures memory { OnErr result (0 < length (sent_value self.entry)) }
    {
        if self.is_empty() {
            return Ok(Bytes::new());
        }
        match self {
            Sent::Plain(bytes) => Bytes::copy_from_slice(alloc, bytes),
            Sent::Escaped(sent) => Ok(Bytes::from_vec(unescape(alloc, sent)?)?),
        }
    }

    /// Its text in new memory, each ill-formed part of UTF-8 replaced by U+FFFD; an empty one takes
    /// none.
    #[inline]
    #[tactic(auto, using(crate::proofs::SentLemmas::texts))]
    pub fn to_text(self, alloc: Global) -> Result<String, AllocError>
        // At `Ok` the text of the value's bytes, each ill-formed part of UTF-8 replaced by U+FFFD.
        ensures ok { IfOk result (λ text. string_bytes text ≡ utf8_lossy (sent_value self.entry)) }
        // It is out of memory only where that text is not empty.
        ensures memory { OnErr result (0 < length (utf8_lossy (sent_value self.entry))) }
    {
        if self.is_empty() {
            return Ok(String::new(alloc));
        }
        match self {
            Sent::Plain(bytes) => new_text(alloc, bytes),
            Sent::Escaped(sent) => owned_text(alloc, unescape(alloc, sent)?),
        }
    }
}

/// The bytes as a new text, with no more room than they need where they are well-formed UTF-8.
#[inline(always)]
#[tactic(auto, using(crate::proofs::SentLemmas::texts))]
fn new_text(alloc: Global, bytes: &[u8]) -> Result<String, AllocError>
    ensures { IfOk result (λ text. string_bytes text ≡ utf8_lossy bytes.now) }
{
    match from_utf8(bytes) {
        Ok(text) => String::from_str(alloc, text),
        Err(_) => replaced(alloc, bytes),
    }
}

/// The bytes as text, in their own memory where they are well-formed UTF-8.
fn owned_text(alloc: Global, bytes: Vec<u8>) -> Result<String, AllocError>
    ensures { IfOk result (λ text. string_bytes text ≡ utf8_lossy bytes.items) }
{
    match String::from_utf8(bytes) {
        Ok(text) => Ok(text),
        Err(error) => replaced(alloc, error.as_bytes()),
    }
}

/// Whether the bytes begin with CR NUL.
#[inline]
pub fn begins_with_cr_nul(bytes: &[u8]) -> bool
    // True exactly where the first two bytes are CR and NUL.
    ensures { result ≡ begins_with_cr_nul bytes.now }
{
    match bytes {
        [first, second, ..] => *first == CR && *second == NUL,
        _ => false,
    }
}

/// Whether the bytes begin with four CR NUL.
#[inline(always)]
fn begins_with_four_cr_nul(bytes: &[u8]) -> bool
    ensures { IsTrue result → bytes.now ≡ four_cr_nul ++ drop 8 bytes.now }
{
    match bytes {
        [a, b, c, d, e, f, g, h, ..] => {
            u64::from_le_bytes([*a, *b, *c, *d, *e, *f, *g, *h]) == FOUR_CR_NUL
        }
        _ => false,
    }
}

/// How many CR NUL the bytes begin with.
pub fn cr_nul_count(bytes: &[u8]) -> usize
    // How many CR NUL the bytes begin with, one after the other.
    ensures count { result ≡ cr_nul_count bytes.now }
    // They are within the bytes: each CR NUL has two.
    ensures within { 2 * result ≤ length bytes.now }
{
    let mut count = 0usize;
    let mut rest = bytes;
    'fours: while begins_with_four_cr_nul(rest) {
        let (_, further) = rest.split_at(8);
        count += 4;
        rest = further;
    }
    count + few_cr_nul_count(rest)
}

/// How many CR NUL the bytes begin with, one by one.
fn few_cr_nul_count(bytes: &[u8]) -> usize
    ensures count { result ≡ cr_nul_count bytes.now }
    ensures within { 2 * result ≤ length bytes.now }
{
    let mut count = 0usize;
    let mut rest = bytes;
    'run: while let [CR, NUL, further @ ..] = rest {
        count += 1;
        rest = further;
    }
    count
}

/// How many bytes are sent for the first byte of the value.
fn first_unit_len(bytes: &[u8]) -> usize
    ensures { result ≡ first_unit_len bytes.now }
{
    if begins_with_cr_nul(bytes) { 2 } else { 1 }
}

/// The bytes without a NUL at the start.
fn after_nul(bytes: &[u8]) -> &[u8]
    ensures { result.now ≡ after_nul bytes.now }
{
    match bytes {
        [first, rest @ ..] if *first == NUL => rest,
        _ => bytes,
    }
}

/// The value for which these bytes are sent, in new memory.
pub fn unescape(alloc: Global, sent: &[u8]) -> Result<Vec<u8>, AllocError>
    // At `Ok` the bytes without each NUL that comes directly after a CR.
    ensures { IfOk result (λ value. value.items ≡ unescaped sent.now) }
{
    let mut value = Vec::with_capacity(alloc, sent.len())?;
    let mut rest = sent;
    'parts: loop {
        if begins_with_cr_nul(rest) {
            let count = cr_nul_count(rest);
            value.resize(value.len() + count, CR)?;
            let (_, further) = rest.split_at(2 * count);
            rest = further;
        } else {
            let Some(end) = memchr(CR, rest) else {
                value.extend_from_slice(rest)?;
                return Ok(value);
            };
            let (part, further) = rest.split_at(end + 1);
            value.extend_from_slice(part)?;
            rest = after_nul(further);
        }
    }
}

/// How many bytes the value has for which these are sent.
pub fn unescaped_len(sent: &[u8]) -> usize
    // The number of the bytes without each NUL that comes directly after a CR.
    ensures { result ≡ length (unescaped sent.now) }
{
    let mut len = 0usize;
    let mut rest = sent;
    'units: while !rest.is_empty() {
        let (_, further) = rest.split_at(first_unit_len(rest));
        len += 1;
        rest = further;
    }
    len
}

/// Writes the value for which these bytes are sent to the start of an area, and changes no later
/// byte of it. It takes no memory.
pub fn unescape_to(sent: &[u8], area: &mut [u8])
    // The area has room for the value.
    requires { length (unescaped sent.now) ≤ length area.old }
    // The area begins with the bytes without each NUL directly after a CR, and its later bytes
    // stay.
    ensures { area.new ≡ unescaped sent.now ++ drop (length (unescaped sent.now)) area.old }
{
    let mut at = 0usize;
    let mut rest = sent;
    'units: while !rest.is_empty() {
        area[at] = rest[0];
        let (_, further) = rest.split_at(first_unit_len(rest));
        at += 1;
        rest = further;
    }
}
