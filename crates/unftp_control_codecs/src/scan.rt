//! The one way by which codecs and decoders scan bytes for a line feed.
ghost use Rattle.std.specs.Prelude.{◌≡◌, ◌+◌, ◌-◌, ◌<◌, ◌≤◌, if◌then◌else◌, length, MatchOption, Some};
ghost use Rattle.unftp_control_codecs.specs.LineFeed.{IsBlock, line_feed_from};

use std::marker::Model;
use std::simd::prelude::*;
use unftp_control_defs::count::Count;

const LINE_FEED: u8 = b'\n';

/// How many bytes are compared at once, while so many are left.
const BLOCK: usize = 32;

/// How many are, where fewer are left: 16, then 8, then 4. The last ones are compared one by one.
const HALF_BLOCK: usize = 16;

const QUARTER_BLOCK: usize = 8;

const FEW: usize = 4;

/// How many bytes were compared with a line feed, a number that only contracts see.
#[derive(Drop)]
pub(crate) struct ScanCount {
    scanned: Count,
}

impl Model for ScanCount {
    ghost use Rattle.std.specs.Prelude.{ℕ};

    ghost Value = { ℕ };

    ghost view = { λ tests. tests.scanned };
}

impl ScanCount {
    /// A count of 0.
    pub(crate) fn none() -> ScanCount
        ensures { result ≡ 0 }
    {
        ScanCount {
            scanned: Count::new(),
        }
    }

    /// The number of bytes compared.
    pub(crate) fn count(&self) -> Count
        ensures { result ≡ self.now }
    {
        self.scanned.same()
    }

    #[inline(always)]
    fn add_scanned(&mut self, count: usize)
        ensures { self.new ≡ self.old + count }
    {
        self.scanned.raise_by(count);
    }
}

/// Bytes that were compared at once: where they begin, how many they are, and a bit for each, 1
/// where it is a line feed, the lowest for the first.
#[derive(Clone, Copy)]
pub(crate) struct Block {
    pub(crate) start: usize,
    pub(crate) length: usize,
    pub(crate) line_feeds: u64,
}

/// A slice that is scanned for a line feed: it is private, and only `compare` reads its bytes, and
/// counts each that it reads.
#[derive(Drop)]
pub(crate) struct Scan<'a, 'c> {
    bytes: &'a [u8],
    tests: &'c mut ScanCount,
}

impl<'a, 'c> Scan<'a, 'c> {
    /// Scans these bytes, and counts each that it compares here.
    pub(crate) fn over(bytes: &'a [u8], tests: &'c mut ScanCount) -> Scan<'a, 'c>
        ensures bytes { result.bytes.now ≡ bytes.now }
        ensures tests { result.tests.now ≡ tests.old }
        ensures same_reference { result.tests.ghost_name ≡ tests.entry.ghost_name }
    {
        Scan { bytes, tests }
    }

    /// The first line feed at or after `from`. Each byte from there to it, or to the end, is
    /// compared once, and none after it.
    pub(crate) fn find_line_feed(&mut self, from: usize) -> Option<usize>
        requires { from ≤ length self.old.bytes.now }
        ensures found { result ≡ line_feed_from self.old.bytes.now from }
        ensures tests { MatchOption result
            (self.new.tests.now ≡ self.old.tests.now + (length self.old.bytes.now - from))
            (λ k. self.new.tests.now ≡ self.old.tests.now + (k + 1 - from)) }
        ensures bytes { self.new.bytes.now ≡ self.old.bytes.now }
        ensures same_reference { self.new.tests.ghost_name ≡ self.old.tests.ghost_name }
    {
        let mut at = from;
        while self.bytes.len() - at >= FEW {
            if self.is_line_feed(at) {
                return Some(at);
            }
            if self.is_line_feed(at + 1) {
                return Some(at + 1);
            }
            if self.is_line_feed(at + 2) {
                return Some(at + 2);
            }
            if self.is_line_feed(at + 3) {
                return Some(at + 3);
            }
            at += FEW;
        }
        self.find_among_few(at)
    }

    /// The same, where few bytes are left.
    #[inline(always)]
    fn find_among_few(&mut self, from: usize) -> Option<usize>
        requires { from ≤ length self.old.bytes.now }
        ensures found { result ≡ line_feed_from self.old.bytes.now from }
        ensures tests { MatchOption result
            (self.new.tests.now ≡ self.old.tests.now + (length self.old.bytes.now - from))
            (λ k. self.new.tests.now ≡ self.old.tests.now + (k + 1 - from)) }
        ensures bytes { self.new.bytes.now ≡ self.old.bytes.now }
        ensures same_reference { self.new.tests.ghost_name ≡ self.old.tests.ghost_name }
    {
        let mut at = from;
        while at < self.bytes.len() {
            if self.is_line_feed(at) {
                return Some(at);
            }
            at += 1;
        }
        None
    }

    /// Compares one byte with a line feed.
    #[inline(always)]
    fn is_line_feed(&mut self, at: usize) -> bool
        requires { at < length self.old.bytes.now }
        ensures found { line_feed_from self.old.bytes.now at
            ≡ (if result then Some at else line_feed_from self.old.bytes.now (at + 1)) }
        ensures tests { self.new.tests.now ≡ self.old.tests.now + 1 }
        ensures bytes { self.new.bytes.now ≡ self.old.bytes.now }
        ensures same_reference { self.new.tests.ghost_name ≡ self.old.tests.ghost_name }
    {
        self.compare::<1>(at).line_feeds != 0
    }

    /// Compares bytes by blocks, from `from` on: returns the first block with a line feed, or none
    /// at the end. Each byte from `from` to the end of that block is compared once.
    #[inline(always)]
    pub(crate) fn next_block(&mut self, from: usize) -> Block
        requires { from ≤ length self.old.bytes.now }
        ensures block { IsBlock result self.old.bytes.now }
        ensures before { line_feed_from self.old.bytes.now from
            ≡ line_feed_from self.old.bytes.now result.start }
        ensures at_end { result.line_feeds ≡ 0
            → (result.start ≡ length self.old.bytes.now) × (result.length ≡ 0) }
        ensures tests { self.new.tests.now + from
            ≡ self.old.tests.now + (result.start + result.length) }
        ensures never_fewer { self.old.tests.now ≤ self.new.tests.now }
        ensures bytes { self.new.bytes.now ≡ self.old.bytes.now }
        ensures same_reference { self.new.tests.ghost_name ≡ self.old.tests.ghost_name }
    {
        let mut at = from;
        let mut left = self.bytes.len() - from;
        // tested first, so that a piece of a few bytes takes the least time
        if left < QUARTER_BLOCK {
            return self.next_of_few(at);
        }
        while left >= BLOCK {
            let block = self.compare::<BLOCK>(at);
            if block.line_feeds != 0 {
                return block;
            }
            at += BLOCK;
            left -= BLOCK;
        }
        if left >= HALF_BLOCK {
            let block = self.compare::<HALF_BLOCK>(at);
            if block.line_feeds != 0 {
                return block;
            }
            at += HALF_BLOCK;
            left -= HALF_BLOCK;
        }
        if left >= QUARTER_BLOCK {
            let block = self.compare::<QUARTER_BLOCK>(at);
            if block.line_feeds != 0 {
                return block;
            }
            at += QUARTER_BLOCK;
        }
        self.next_of_few(at)
    }

    /// The same, where few bytes are left.
    #[inline(always)]
    fn next_of_few(&mut self, from: usize) -> Block
        requires { from ≤ length self.old.bytes.now }
        ensures block { IsBlock result self.old.bytes.now }
        ensures before { line_feed_from self.old.bytes.now from
            ≡ line_feed_from self.old.bytes.now result.start }
        ensures at_end { result.line_feeds ≡ 0
            → (result.start ≡ length self.old.bytes.now) × (result.length ≡ 0) }
        ensures tests { self.new.tests.now + from
            ≡ self.old.tests.now + (result.start + result.length) }
        ensures never_fewer { self.old.tests.now ≤ self.new.tests.now }
        ensures bytes { self.new.bytes.now ≡ self.old.bytes.now }
        ensures same_reference { self.new.tests.ghost_name ≡ self.old.tests.ghost_name }
    {
        let mut at = from;
        if self.bytes.len() - at >= FEW {
            let block = self.compare::<FEW>(at);
            if block.line_feeds != 0 {
                return block;
            }
            at += FEW;
        }
        while at < self.bytes.len() {
            let block = self.compare::<1>(at);
            if block.line_feeds != 0 {
                return block;
            }
            at += 1;
        }
        Block {
            start: at,
            length: 0,
            line_feeds: 0,
        }
    }

    /// Compares the next `N` bytes with a line feed, at once.
    #[inline(always)]
    fn compare<const N: usize>(&mut self, start: usize) -> Block
        requires lanes { (0 < N) × (N ≤ 32) }
        requires room { start + N ≤ length self.old.bytes.now }
        ensures block { IsBlock result self.old.bytes.now }
        ensures place { (result.start ≡ start) × (result.length ≡ N) }
        ensures none { result.line_feeds ≡ 0 → line_feed_from self.old.bytes.now start
            ≡ line_feed_from self.old.bytes.now (start + N) }
        ensures tests { self.new.tests.now ≡ self.old.tests.now + N }
        ensures bytes { self.new.bytes.now ≡ self.old.bytes.now }
        ensures same_reference { self.new.tests.ghost_name ≡ self.old.tests.ghost_name }
    {
        self.tests.add_scanned(N);
        let bytes = Simd::<u8, N>::from_slice(&self.bytes[start..]);
        Block {
            start,
            length: N,
            line_feeds: bytes.simd_eq(Simd::splat(LINE_FEED)).to_bitmask(),
        }
    }
}
