//! Finds the lines of bytes that change only as their owner takes them and appends others.
ghost use Rattle.std.specs.Prelude.{◌≡◌, ◌≤◌, ◌+◌, ⊤, MatchOption, length};
ghost use Rattle.unftp_control_codecs.specs.Finder.{ComparedAfter, GoesOnAfter, HasCompared, after_found, after_line_feed, codec_of, new_finder, restarted};
ghost use Rattle.unftp_control_codecs.specs.FirstLine.{first_line, goes_on};
ghost use Rattle.unftp_control_codecs.specs.LineFeed.{IsBlock, line_feed_from};

use crate::scan::{Block, Scan, ScanCount};
use crate::{FirstLine, is_too_long};
use std::marker::Model;
use unftp_control_defs::count::Count;

/// Finds lines as `FtpCodec` does, and compares each byte with a line feed once, though many at a
/// time: it keeps what it has seen of the bytes after a line. Between its calls the line that it
/// has found, or what it drops, has to leave the bytes at their start; beside that they may only
/// grow at their end.
#[derive(Drop)]
pub struct LineFinder {
    compared: usize,
    line_feeds: u64,
    tests: ScanCount,
    limit: Option<usize>,
    skipping: bool,
}

impl Model for LineFinder {
    ghost use Rattle.unftp_control_codecs.specs.Finder.{Finder};

    ghost Value = { Finder };

    ghost view = { λ finder. record {
      compared = finder.compared;
      line_feeds = finder.line_feeds;
      tests = finder.tests;
      limit = finder.limit;
      skipping = finder.skipping;
    } };
}

impl LineFinder {
    /// One that has begun no line, with this limit, if there is one.
    pub fn new(limit: Option<usize>) -> LineFinder
        // A limit is at least 1.
        requires { MatchOption limit ⊤ (λ most. 1 ≤ most) }
        // It has begun no line and compared no byte, and has this limit.
        ensures { result ≡ new_finder limit }
    {
        LineFinder {
            compared: 0,
            line_feeds: 0,
            tests: ScanCount::none(),
            limit,
            skipping: false,
        }
    }

    /// How many bytes were compared with a line feed. Only contracts see it.
    pub fn tests(&self) -> Count
        // The number of bytes compared so far.
        ensures { result ≡ self.now.tests }
    {
        self.tests.count()
    }

    /// Finds the first line of `bytes`, and goes on after it: the next call gets the bytes after
    /// the line, or after those that are dropped. No memory is taken.
    #[inline(always)]
    pub fn find_line(&mut self, bytes: &[u8]) -> FirstLine
        // The bytes begin with those that it has compared, with line feeds where it keeps them.
        requires { HasCompared self.old bytes.now }
        // It is what the definition finds at the start of the bytes, under the finder's limit.
        ensures found { result ≡ first_line (codec_of self.old) bytes.now }
        // Whether it is dropping a line that is too long is as the definition gives it; the limit
        // stays.
        ensures codec { codec_of self.new ≡ record (goes_on (codec_of self.old) bytes.now) {
          place = 0;
          tests = self.new.tests;
        } }
        // It goes on after the line or the dropped bytes, and each byte was compared once that was
        // not before.
        ensures goes_on { GoesOnAfter (after_found result) self.old bytes.now self.new }
        // Where no line is complete, all bytes that are left are compared; after a line at most 31
        // are.
        ensures ahead { ComparedAfter result bytes.now self.new.compared }
    {
        let Some(end) = self.next_line_feed(bytes) else {
            if !is_too_long(self.limit, self.skipping, bytes.len()) {
                return FirstLine::Incomplete { dropped: 0 };
            }
            (self.compared, self.skipping) = (0, true);
            return FirstLine::Incomplete {
                dropped: bytes.len(),
            };
        };
        if !is_too_long(self.limit, self.skipping, end) {
            return FirstLine::Complete { length: end + 1 };
        }
        self.skipping = false;
        FirstLine::TooLong { length: end + 1 }
    }

    /// The first line feed of `bytes`. What is known of the bytes is then of those after it.
    #[inline(always)]
    fn next_line_feed(&mut self, bytes: &[u8]) -> Option<usize>
        requires { HasCompared self.old bytes.now }
        ensures found { result ≡ line_feed_from bytes.now 0 }
        ensures goes_on { GoesOnAfter (after_line_feed result) self.old bytes.now self.new }
        ensures ahead { MatchOption result
            ((self.new.compared ≡ length bytes.now) × (self.new.line_feeds ≡ 0))
            (λ _. self.new.compared ≤ 31) }
        ensures limit { self.new.limit ≡ self.old.limit }
        ensures skipping { self.new.skipping ≡ self.old.skipping }
    {
        let block = self.first_block(bytes);
        if block.line_feeds == 0 {
            self.compared = block.start;
            return None;
        }
        let before = block.line_feeds.trailing_zeros() as usize;
        self.compared = block.length - (before + 1);
        self.line_feeds = block.line_feeds >> (before + 1);
        Some(block.start + before)
    }

    /// The block that has the first line feed of `bytes`: what is known of them, or the next one
    /// that is compared; or none at the end.
    #[inline(always)]
    fn first_block(&mut self, bytes: &[u8]) -> Block
        requires { HasCompared self.old bytes.now }
        ensures block { IsBlock result bytes.now }
        ensures before { line_feed_from bytes.now 0 ≡ line_feed_from bytes.now result.start }
        ensures at_end { result.line_feeds ≡ 0 → (result.start ≡ length bytes.now)
            × (result.length ≡ 0) × (self.old.line_feeds ≡ 0) }
        ensures once { self.new.tests + self.old.compared
            ≡ self.old.tests + (result.start + result.length) }
        ensures never_fewer { self.old.tests ≤ self.new.tests }
        ensures same { self.new ≡ record self.old { tests = self.new.tests } }
    {
        if self.line_feeds == 0 {
            return Scan::over(bytes, &mut self.tests).next_block(self.compared);
        }
        Block {
            start: 0,
            length: self.compared,
            line_feeds: self.line_feeds,
        }
    }

    /// Goes on with other bytes, from the start of a line.
    pub fn restart(&mut self)
        // It has begun no line, and keeps its limit and its count of compared bytes.
        ensures { self.new ≡ restarted self.old }
    {
        (self.compared, self.line_feeds, self.skipping) = (0, 0, false);
    }
}
