//! Reads what a line says, takes lines from the start of a buffer, and appends replies to the end
//! of one.
#![tactic(auto)]

ghost use Rattle.std.specs.Prelude.{◌≡◌, ◌||◌, ◌+◌, ◌-◌, ◌≤◌, if◌then◌else◌, false, None, IsTrue, ⊤, ◌++◌, length, drop, vec_len, Some, Ok, Err, MatchOption, IsOk, OnOk, OnErr, IfErr};
ghost use Rattle.unftp_control_defs.specs.Events.{exceeds, out_of_memory};
ghost use Rattle.unftp_control_defs.specs.FtpReply.{Nothing, encoded};
ghost use Rattle.unftp_control_defs.specs.Room.{LacksRoom};
ghost use Rattle.unftp_control_message.specs.ErrorMeaning.{fault_of};
ghost use Rattle.unftp_control_message.specs.ReplyMeaning.{reply_of};
ghost use Rattle.unftp_control_codecs.specs.Codec.{is_too_long, new_codec};
ghost use Rattle.unftp_control_codecs.specs.FirstLine.{first_line, goes_on, reset};
ghost use Rattle.unftp_control_codecs.specs.Decoding.{Decodes, IsOutOfMemory};

mod encoding;
mod finder;
pub mod line_parser;
mod lines;
mod scan;

use crate::encoding::append_reply;
pub use crate::encoding::begins_with_digit;
pub use crate::finder::LineFinder;
use crate::line_parser::parse;
pub use crate::lines::{EncodeLinesError, encode_lines, is_reply_code};
use crate::scan::{Scan, ScanCount};
use std::alloc::Global;
use std::marker::Model;
use unftp_control_defs::buffer::remove_front;
use unftp_control_defs::count::Count;
use unftp_control_message::Command;
use unftp_control_message::reply::Reply;
use unftp_control_message::reply::error::{ControlChanError, ControlChanErrorKind, ParseErrorKind};

/// Decodes the commands of a control connection, and encodes its replies.
///
/// It keeps the scan offset of its buffer, where the search for a line feed goes on: no byte before
/// it is searched again. `place` returns it.
///
/// With a limit it keeps no line that is longer: the bytes of such a line leave the buffer as they
/// come, and `skipping` returns whether some did. The scan offset is then 0.
#[derive(Drop)]
pub struct FtpCodec {
    place: usize,
    tests: ScanCount,
    limit: Option<usize>,
    skipping: bool,
}

impl Model for FtpCodec {
    ghost use Rattle.std.specs.Prelude.{◌≡◌, IsTrue};
    ghost use Rattle.unftp_control_codecs.specs.Codec.{Codec};

    ghost Value = { Codec };

    ghost view = { λ codec. record {
      place = codec.place;
      tests = codec.tests;
      limit = codec.limit;
      skipping = codec.skipping;
    } };

    ghost invariant = { λ codec. IsTrue codec.skipping → codec.place ≡ 0 };
}

/// What a codec finds at the start of its bytes.
#[derive(Debug, Clone, Copy)]
pub enum FirstLine {
    /// No line is complete.
    Incomplete {
        /// How many bytes are dropped: all, where the line is longer than the limit already.
        dropped: usize,
    },
    /// A line is complete, and longer than the limit.
    TooLong {
        /// How many bytes it has, its line feed counted.
        length: usize,
    },
    /// A line is complete.
    Complete {
        /// How many bytes it has, its line feed counted.
        length: usize,
    },
}

impl FtpCodec {
    /// A new codec: nothing scanned, no limit.
    pub fn new() -> FtpCodec
        // Nothing is scanned, no byte is dropped, and there is no limit.
        ensures { result ≡ new_codec None }
    {
        FtpCodec::at(0)
    }

    /// A new codec with a limit: a line of more than `limit` bytes, its line feed counted, is
    /// refused, whatever it holds (RFC 959 names no limit).
    pub fn with_limit(limit: usize) -> FtpCodec
        // The limit is at least 1.
        requires { 1 ≤ limit }
        // Nothing is scanned, no byte is dropped, and the limit is this one.
        ensures { result ≡ new_codec (Some limit) }
    {
        FtpCodec::resume(Some(limit), 0, false)
    }

    /// A codec with this scan offset and no limit, for a caller that keeps only the offset. The
    /// first line then ends at the first line feed at or after it, so there should be none before
    /// it.
    pub fn at(place: usize) -> FtpCodec
        // It has this scan offset and no limit, has dropped no byte, and has scanned none itself.
        ensures { result ≡ record { place = place; tests = 0; limit = None; skipping = false } }
    {
        FtpCodec::resume(None, place, false)
    }

    /// A codec that goes on where another one with this limit stopped, for a caller that keeps only
    /// what `place` and `skipping` returned. It has scanned nothing itself.
    pub fn resume(limit: Option<usize>, place: usize, skipping: bool) -> FtpCodec
        // A limit is at least 1.
        requires limit { MatchOption limit ⊤ (λ most. 1 ≤ most) }
        // Where bytes of the first line were dropped, the scan offset is 0.
        requires place { IsTrue skipping → place ≡ 0 }
        // It has exactly this limit, scan offset and `skipping`, and has scanned no byte itself.
        ensures { result
            ≡ record { place = place; tests = 0; limit = limit; skipping = skipping } }
    {
        FtpCodec {
            place,
            tests: ScanCount::none(),
            limit,
            skipping,
        }
    }

    /// Whether the bytes so far of a line that is longer than the limit were dropped. The rest of
    /// it is dropped too, and at its line feed it is refused.
    pub fn skipping(&self) -> bool
        // True exactly where the bytes so far of the first line were dropped.
        ensures skipping { result ≡ self.now.skipping }
        // Where it is true, the scan offset is 0.
        ensures place { IsTrue result → self.now.place ≡ 0 }
    {
        self.skipping
    }

    /// Forgets the line that it has begun: its scan offset is 0, and it drops no bytes. The limit
    /// and the count of scanned bytes stay.
    pub fn reset(&mut self)
        // The scan offset is 0 and `skipping` is false; the limit and the count of scanned bytes
        // stay.
        ensures { self.new ≡ reset self.old }
    {
        (self.place, self.skipping) = (0, false);
    }

    /// The scan offset: where the next search for a line feed begins, in bytes from the start of
    /// the buffer.
    pub fn place(&self) -> usize
        // Exactly the scan offset.
        ensures { result ≡ self.now.place }
    {
        self.place
    }

    /// How many bytes were compared with a line feed: those up to each that was found, and all
    /// where none was. Only contracts see it.
    pub fn tests(&self) -> Count
        // The number of bytes scanned so far.
        ensures { result ≡ self.now.tests }
    {
        self.tests.count()
    }

    /// Decodes the first line of `bytes`: returns its length in bytes, and its command (RFC 959,
    /// section 5.3). While no line is complete, these are 0 and `None`. A line ends at its line
    /// feed.
    ///
    /// With a limit, a line that is longer is refused with `LineTooLong`, without a source,
    /// whatever it holds. Its bytes are dropped before it ends: where `bytes` has no line feed, and
    /// holds `limit` bytes or more or goes on with a line of which some were dropped, the length of
    /// all of `bytes` is returned with `None`, and the caller goes on after them.
    ///
    /// It is for bytes that hold many lines: the next call gets the bytes after the line, and
    /// nothing is moved. The scan offset has to be within `bytes`, as it is after each call: within
    /// the bytes after the line, or the same bytes with more at their end. The bytes before it are
    /// not scanned again.
    ///
    /// A line that is no command is refused with `Utf8Error` (the parser's `InvalidUtf8`) or
    /// `InvalidCommand` (its `InvalidCommand` and `InvalidEol`), with the parser's error as source;
    /// the length is that of the refused line. When out of memory, with the kind `OutOfMemory`, the
    /// length is 0, and the scan offset is as before.
    pub fn decode_slice(
        &mut self,
        alloc: Global,
        bytes: &[u8],
    ) -> (usize, Result<Option<Command>, ControlChanError>)
        // The scan offset is within the bytes.
        requires { self.old.place ≤ length bytes.now }
        // The first line is taken and its event returned, or `None` while no line is complete. Out
        // of memory comes only for a line that may take memory, and then no byte is taken.
        ensures decodes { Decodes self.old self.new
            bytes.now (drop result.0 bytes.now) result.1 }
        // The scan offset is within the bytes that are left.
        ensures within { result.0 + self.new.place ≤ length bytes.now }
        // Unless it is out of memory, the count grows by the bytes from the old scan offset to the
        // new one, each once.
        ensures counted { ¬ IsOutOfMemory result.1
            → self.new.tests + self.old.place ≡ self.old.tests + self.new.place + result.0 }
    {
        let mut scan = Scan::over(bytes, &mut self.tests);
        let Some(end) = scan.find_line_feed(self.place) else {
            return (self.drop_or_keep(bytes.len()), Ok(None));
        };
        if self.is_too_long(end) {
            self.reset();
            return (end + 1, Err(ControlChanErrorKind::LineTooLong.into()));
        }
        let (line, _) = bytes.split_at(end + 1);
        match parse(alloc, line) {
            Ok(command) => {
                self.reset();
                (end + 1, Ok(Some(command)))
            }
            Err(error) if matches!(error.kind(), ParseErrorKind::OutOfMemory) => {
                (0, Err(error.into()))
            }
            Err(error) => {
                self.reset();
                (end + 1, Err(error.into()))
            }
        }
    }

    /// Finds the first line of `bytes` and leaves it to the caller to parse it. A line that is
    /// complete and not too long is found again by the next call, until `reset` is called; after
    /// any other the codec goes on as after `decode_slice`. No memory is taken.
    ///
    /// The scan offset has to be within `bytes`, as for `decode_slice`.
    // `decode_slice` doesn't call it: a piece of one byte would take a third longer
    pub fn find_line(&mut self, bytes: &[u8]) -> FirstLine
        // The scan offset is within the bytes.
        requires { self.old.place ≤ length bytes.now }
        // It is what the definition finds for this codec and these bytes.
        ensures found { result ≡ first_line self.old bytes.now }
        // The codec goes on as the definition has it for this codec and these bytes.
        ensures codec { self.new ≡ goes_on self.old bytes.now }
    {
        match Scan::over(bytes, &mut self.tests).find_line_feed(self.place) {
            None => FirstLine::Incomplete {
                dropped: self.drop_or_keep(bytes.len()),
            },
            Some(end) if self.is_too_long(end) => {
                self.reset();
                FirstLine::TooLong { length: end + 1 }
            }
            Some(end) => FirstLine::Complete { length: end + 1 },
        }
    }

    /// Whether the first line is too long, where so many bytes come before its line feed.
    fn is_too_long(&self, length: usize) -> bool
        ensures { result ≡ is_too_long self.now (length + 1) }
    {
        is_too_long(self.limit, self.skipping, length)
    }

    /// Goes on after so many bytes without a line feed: returns how many of them are dropped, which
    /// is all of them where the line is too long already.
    fn drop_or_keep(&mut self, length: usize) -> usize
        ensures dropped { self.new ≡ record self.old {
          place = length - result;
          skipping = is_too_long self.old (length + 1);
        } }
        ensures all { result ≡ if is_too_long self.old (length + 1) then length else 0 }
    {
        if !self.is_too_long(length) {
            self.place = length;
            return 0;
        }
        (self.place, self.skipping) = (0, true);
        length
    }

    /// Takes the first line from the start of `buf` and returns its command, or `None` while no
    /// line is complete: it is `decode_slice`, and then the line is removed.
    ///
    /// It is for a buffer that holds one line or a few. What follows the line is moved to the start
    /// of `buf`, so the time grows with what `buf` holds: many lines in one buffer are faster
    /// decoded by `decode_slice`.
    ///
    /// The scan offset has to be within `buf`, as it is after each call, also where `buf` has grown
    /// at its end since. The errors are those of `decode_slice`: a refused line leaves `buf` as any
    /// other does, and what follows it stays; when out of memory, `buf` and the scan offset are as
    /// before. With a limit, `buf` is emptied where `decode_slice` drops all bytes.
    pub fn decode(
        &mut self,
        alloc: Global,
        buf: &mut Vec<u8>,
    ) -> Result<Option<Command>, ControlChanError>
        // The scan offset is within the buffer.
        requires { self.old.place ≤ vec_len buf.old }
        // The first line leaves the buffer and its event is returned, or `None` while no line is
        // complete. Out of memory comes only for a line that may take memory, and the buffer stays.
        ensures decodes { Decodes self.old self.new buf.old.items buf.new.items result }
        // The scan offset is within the buffer.
        ensures within { self.new.place ≤ vec_len buf.new }
        // Unless it is out of memory, the count grows by the bytes from the old scan offset to the
        // new one, each once.
        ensures counted { ¬ IsOutOfMemory result
            → self.new.tests + self.old.place + vec_len buf.new
            ≡ self.old.tests + self.new.place + vec_len buf.old }
    {
        let (taken, answer) = self.decode_slice(alloc, buf.as_slice());
        remove_front(buf, taken);
        answer
    }

    /// Appends the bytes of the reply to `buf` and changes no earlier byte (RFC 959, section 4.2);
    /// `Reply::None` has none. It is `encode_reply`, and the reply is dropped.
    ///
    /// It fails only when out of memory, with the kind `OutOfMemory`: where `buf` lacks room for
    /// the reply and can't grow. `buf` is then as it was.
    pub fn encode(&mut self, reply: Reply, buf: &mut Vec<u8>) -> Result<(), ControlChanError>
        // At `Ok` exactly the bytes of the reply are appended; `Reply::None` has none.
        ensures ok { OnOk result (buf.new.items ≡ buf.old.items ++ encoded (reply_of reply)) }
        // At an error the buffer holds what it held.
        ensures err { OnErr result (buf.new.items ≡ buf.old.items) }
        // An error is out of memory, and comes only where the buffer lacks room for those bytes.
        ensures memory { IfErr result (λ error. (fault_of error ≡ out_of_memory)
            × LacksRoom buf.old (encoded (reply_of reply))) }
        // For `Reply::None` it always returns `Ok`.
        ensures no_memory { reply_of reply ≡ Nothing → IsOk result }
        // The codec stays as it was.
        ensures codec { self.new ≡ self.old }
    {
        let appended = append_reply(&reply, buf);
        // the result is large, and would be copied where the reply were dropped after it
        drop(reply);
        Ok(appended?)
    }
}

/// Whether a line is too long, where so many bytes come before its line feed.
fn is_too_long(limit: Option<usize>, skipping: bool, length: usize) -> bool
    ensures { result ≡ skipping || exceeds limit (length + 1) }
{
    match limit {
        _ if skipping => true,
        Some(limit) => limit <= length,
        None => false,
    }
}

/// Appends the bytes of the reply to `buf` and changes no earlier byte (RFC 959, section 4.2);
/// `Reply::None` has none. `buf` grows once at most.
///
/// It fails only when out of memory, with the kind `OutOfMemory`: where `buf` lacks room for the
/// reply and can't grow. `buf` is then as it was.
pub fn encode_reply(reply: &Reply, buf: &mut Vec<u8>) -> Result<(), ControlChanError>
    // At `Ok` exactly the bytes of the reply are appended; `Reply::None` has none.
    ensures ok { OnOk result (buf.new.items ≡ buf.old.items ++ encoded (reply_of reply.now)) }
    // At an error the buffer holds what it held.
    ensures err { OnErr result (buf.new.items ≡ buf.old.items) }
    // An error is out of memory, and comes only where the buffer lacks room for those bytes.
    ensures memory { IfErr result (λ error. (fault_of error ≡ out_of_memory)
        × LacksRoom buf.old (encoded (reply_of reply.now))) }
    // For `Reply::None` it always returns `Ok`.
    ensures no_memory { reply_of reply.now ≡ Nothing → IsOk result }
{
    Ok(append_reply(reply, buf)?)
}
