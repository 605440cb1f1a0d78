//! The pending bytes, and the events of their lines.
ghost use Rattle.std.specs.Prelude.{◌≡◌, ◌<◌, ◌≤◌, ◌+◌, ◌++◌, [], None, Some, IfOk, IfSome, IsTrue, OnErr, OnOk, drop, if◌then◌else◌, is_some, length, take, true, false};
ghost use Rattle.unftp_control_defs.specs.Buffer.{IsTakenWithin, pending_in};
ghost use Rattle.unftp_control_defs.specs.Events.{Refused, event_for, event_of, line_too_long};
ghost use Rattle.unftp_control_defs.specs.Lines.{IsLine, lines_of};
ghost use Rattle.unftp_control_defs.specs.Outcome.{outcome};
ghost use Rattle.unftp_control_codecs.specs.Memory.{MayTakeMemory};
ghost use Rattle.unftp_control_serve.specs.ClientLines.{after_front_line, first_client_line, front_line};
ghost use Rattle.unftp_control_serve.specs.Decoder.{IsSeenAhead, MayRunOut, TakesNext, buffered_after, cleared, found_as, kept_bytes, line_after, line_in, no_bytes, pushed, saturating_u64, without_line};
ghost use Rattle.unftp_control_serve.specs.EventMeaning.{event_meant};

use crate::event::Event;
use crate::skipped::Skipped;
use std::alloc::{AllocError, Global};
use std::marker::Model;
use unftp_control_codecs::line_parser::parse;
use unftp_control_codecs::{FirstLine, LineFinder};
use unftp_control_defs::buffer::PendingBytes;
use unftp_control_defs::count::Count;
use unftp_control_message::reply::error::{ControlChanErrorKind, ParseErrorKind};

/// What a client's next line is.
#[derive(Debug, Clone, Copy, PartialEq, Eq)]
pub enum ClientLine {
    /// One within the limit.
    Complete,
    /// One that is longer than the limit: its bytes are not kept.
    TooLong,
}

/// What is known of the first line of the pending bytes.
#[derive(Clone, Copy)]
pub(crate) enum First {
    /// Nothing: no search was made, or no line is complete.
    Unknown,
    /// It has so many bytes.
    Line(usize),
    /// It is longer than the limit, and complete.
    TooLong,
}

/// Cuts an input that comes in pieces into lines, and returns the event of each: for a server with
/// an event loop of its own. A piece is pushed, and events are taken until there is none; between
/// two of them the server does what it likes, and after the last it may clear what is pending.
///
/// What reads no commands, such as a proxy, takes the lines themselves: `find_line` finds the
/// first, `found_line` returns its bytes, and `take_line` takes it, as late as the caller likes.
// The finder is at the first pending byte, or after the first line, where that was found. It keeps
// no bytes of a line that is longer than its limit: they are `skipped`. The last `line` bytes that
// were taken are those of the line that was taken last.
#[derive(Drop)]
pub struct EventDecoder {
    finder: LineFinder,
    buffer: PendingBytes,
    first: First,
    line: usize,
    skipped: Skipped,
    held: Count,
}

impl Model for EventDecoder {
    ghost use Rattle.std.specs.Prelude.{◌-◌, length, drop, take, vec_capacity};
    ghost use Rattle.unftp_control_defs.specs.Buffer.{pending_in};
    ghost use Rattle.unftp_control_serve.specs.Decoder.{IsDecoder, Pending, pending_of};

    ghost Value = { Pending };

    ghost view = { λ decoder. pending_of decoder.finder decoder.first decoder.skipped
        (take decoder.line (drop (decoder.buffer.start - decoder.line) decoder.buffer.bytes.items))
        (pending_in decoder.buffer) (length decoder.buffer.bytes.items) decoder.held };

    ghost invariant = { λ decoder. IsDecoder decoder.finder decoder.first decoder.skipped
        decoder.buffer.bytes.items decoder.buffer.start decoder.line decoder.held
        (vec_capacity decoder.buffer.bytes) };
}

impl EventDecoder {
    /// A decoder that was pushed nothing. A line may have any length, and all its bytes are kept
    /// until its line feed comes: for input that is not trusted, set a limit.
    pub fn new(alloc: Global) -> EventDecoder
        // No byte is pending or scanned, and there is no limit.
        ensures { result ≡ no_bytes None }
    {
        EventDecoder::limited(alloc, None)
    }

    /// A decoder that was pushed nothing. A line of more than `limit` bytes, its line feed counted,
    /// is one event, a refusal with `LineTooLong`, and none of its bytes are kept once they are too
    /// many (RFC 959 names no limit).
    pub fn with_limit(alloc: Global, limit: usize) -> EventDecoder
        // The limit is at least 1.
        requires { 1 ≤ limit }
        // No byte is pending or scanned, and the limit is this one.
        ensures { result ≡ no_bytes (Some limit) }
    {
        EventDecoder::limited(alloc, Some(limit))
    }

    /// A decoder that was pushed nothing, with this limit, if there is one.
    pub(crate) fn limited(alloc: Global, limit: Option<usize>) -> EventDecoder
        requires { IfSome limit (λ limit. 1 ≤ limit) }
        ensures { result ≡ no_bytes limit }
    {
        EventDecoder {
            finder: LineFinder::new(limit),
            buffer: PendingBytes::new(alloc),
            first: First::Unknown,
            line: 0,
            skipped: Skipped::none(),
            held: Count::new(),
        }
    }

    /// The pending bytes: those after the last line that was taken. Those of a line that is too
    /// long are not among them, once they were dropped. Where `next_event` has returned `None`,
    /// they are an incomplete line.
    pub fn pending(&self) -> &[u8]
        // Exactly the pending bytes that are kept: not those of a line that is too long, once
        // dropped.
        ensures { result.now ≡ kept_bytes self.now }
    {
        self.buffer.pending()
    }

    /// The bytes of the line that was taken last, its line feed among them: that whose event the
    /// last call of `next_event` returned. They are empty where the line is too long, where that
    /// call returned no event, and after `push`, `find_line` or `clear`.
    pub fn line(&self) -> &[u8]
        // The line that was taken last, where no call has changed the decoder since; empty where it
        // is too long.
        ensures { result.now ≡ self.now.line }
    {
        let line_start = self.buffer.start - self.line;
        let (_, line_on) = self.buffer.bytes.as_slice().split_at(line_start);
        line_on.split_at(self.line).0
    }

    /// How many bytes are pending, with those of a line that is too long, or `u64::MAX` where there
    /// are more.
    pub fn left(&self) -> u64
        // The number of the pending bytes, dropped ones counted, or 2^64 - 1 where there are more.
        ensures { result ≡ saturating_u64 (length self.now.bytes) }
    {
        let kept = self.buffer.pending().len();
        self.skipped.count().saturating_add(kept as u64)
    }

    /// How many bytes were compared with a line feed. Only contracts see it.
    pub fn tests(&self) -> Count
        // The number of bytes compared so far.
        ensures { result ≡ self.now.scanned }
    {
        self.finder.tests()
    }

    /// The most bytes that its buffer has held. Only contracts see it.
    pub fn held(&self) -> Count
        // The most bytes that the buffer has held so far.
        ensures { result ≡ self.now.held }
    {
        self.held.same()
    }

    /// Appends a piece to the pending bytes. When out of memory, nothing changes; it only is where
    /// the buffer would hold more bytes than it ever did, and never for an empty piece.
    #[inline(always)]
    pub fn push(&mut self, piece: &[u8]) -> Result<(), AllocError>
        // At `Ok` the piece comes after the pending bytes, and the buffer holds at most twice the
        // pending bytes that are kept.
        ensures ok { OnOk result (self.new ≡ pushed self.old piece.now) }
        // At an error nothing changes.
        ensures err { OnErr result (self.new ≡ self.old) }
        // An error comes only for a piece that is not empty.
        ensures some { OnErr result (¬ (piece.now ≡ [])) }
        // It is out of memory only where the buffer would hold more bytes than it ever did.
        ensures memory { OnErr result (self.old.held < self.old.buffered + length piece.now) }
    {
        let most = self.buffer.bytes.len() + piece.len();
        self.buffer.push(piece)?;
        self.held.raise_to(most);
        self.line = 0;
        Ok(())
    }

    /// Finds the first line of the pending bytes, and leaves it there; or `None` where none is
    /// complete. No byte is scanned twice, however often it is called, and no memory is taken.
    ///
    /// Where it returns `None`, its buffer holds the pending bytes only: so with a limit, where all
    /// lines are taken before the next piece is pushed, it never holds more than the limit and one
    /// piece.
    #[inline(always)]
    pub fn find_line(&mut self) -> Option<ClientLine>
        // `Complete` or `TooLong`, as the first line of the pending bytes is; `None` exactly where
        // no line is complete.
        ensures line { result ≡ first_client_line self.old.limit (lines_of self.old.bytes) }
        // The line is found, and stays pending. Where none is complete, the buffer holds only the
        // incomplete line, or nothing of one that is too long.
        ensures found { self.new ≡ found_as self.old result self.new.scanned }
        // No byte is scanned twice: the scanned bytes and those that are not yet stay the same in
        // sum.
        ensures scanned { self.new.scanned + self.new.unscanned ≡ self.old.scanned + self.old.unscanned }
        // Where a line is found, at most 31 bytes after it are scanned.
        ensures ahead { IfSome result (λ _. IsSeenAhead self.new.unscanned
            (length (after_front_line self.new.bytes))) }
        // The count of scanned bytes never falls.
        ensures never_fewer { self.old.scanned ≤ self.new.scanned }
        // The buffer holds no more bytes than before.
        ensures buffered { self.new.buffered ≤ self.old.buffered }
    {
        if !self.is_found() {
            return self.search();
        }
        self.line = 0;
        self.found_kind()
    }

    /// Whether the first line was found, and is not taken yet.
    #[inline(always)]
    pub fn is_found(&self) -> bool
        // True exactly where the first line was found, and is not taken yet.
        ensures found { result ≡ self.now.found }
        // Where it is true, the pending bytes begin with a complete line.
        ensures line { IsTrue result → IsLine (front_line self.now.bytes) }
    {
        match self.first {
            First::Unknown => false,
            First::Line(_) => true,
            First::TooLong => true,
        }
    }

    /// What the line is that was found.
    #[inline(always)]
    fn found_kind(&self) -> Option<ClientLine>
        requires { IsTrue self.now.found }
        ensures kind { result ≡ first_client_line self.now.limit (lines_of self.now.bytes) }
        ensures ahead { IfSome result (λ _. IsSeenAhead self.now.unscanned
            (length (after_front_line self.now.bytes))) }
    {
        match self.first {
            First::Unknown => None,
            First::Line(_) => Some(ClientLine::Complete),
            First::TooLong => Some(ClientLine::TooLong),
        }
    }

    /// Finds the first line, which was not found yet.
    #[inline(always)]
    fn search(&mut self) -> Option<ClientLine>
        requires { self.old.found ≡ false }
        ensures line { result ≡ first_client_line self.old.limit (lines_of self.old.bytes) }
        ensures found { self.new ≡ found_as self.old result self.new.scanned }
        ensures scanned { self.new.scanned + self.new.unscanned ≡ self.old.scanned + self.old.unscanned }
        ensures ahead { IfSome result (λ _. IsSeenAhead self.new.unscanned
            (length (after_front_line self.new.bytes))) }
        ensures never_fewer { self.old.scanned ≤ self.new.scanned }
        ensures buffered { self.new.buffered ≤ self.old.buffered }
    {
        self.line = 0;
        match self.finder.find_line(self.buffer.pending()) {
            FirstLine::Incomplete { dropped } => {
                drop_front(&mut self.buffer, &mut self.skipped, dropped);
                self.buffer.settle();
                None
            }
            FirstLine::TooLong { length } => {
                drop_front(&mut self.buffer, &mut self.skipped, length);
                self.first = First::TooLong;
                Some(ClientLine::TooLong)
            }
            FirstLine::Complete { length } => {
                self.first = First::Line(length);
                Some(ClientLine::Complete)
            }
        }
    }

    /// The bytes of the line that was found and is not taken yet, its line feed among them; empty
    /// where it is too long, and where none was found.
    #[inline(always)]
    pub fn found_line(&self) -> &[u8]
        // The line that was found and is not taken yet; empty where there is none, or it is too
        // long.
        ensures { result.now ≡ line_in self.now }
    {
        match self.first {
            First::Line(length) => self.buffer.pending().split_at(length).0,
            First::TooLong => &[],
            First::Unknown => &[],
        }
    }

    /// The event of the line that was found and is not taken yet (RFC 959, section 5.3). It may be
    /// out of memory, but not for a line that is too long, or whose command takes no value.
    #[inline(always)]
    pub fn found_event(&self) -> Result<Event, AllocError>
        // A line was found, and is not taken yet.
        requires { IsTrue self.now.found }
        // At `Ok` it is the event of that line, under the limit.
        ensures ok { IfOk result (λ event.
            event_meant event ≡ event_for self.now.limit (front_line self.now.bytes)) }
        // It is out of memory only where that line is within the limit and may take memory.
        ensures err { OnErr result (MayRunOut self.now.limit self.now.bytes) }
    {
        match self.first {
            First::Line(_) => event_of(*self.buffer.bytes.allocator(), self.found_line()),
            First::TooLong => Ok(too_long()),
            First::Unknown => Ok(too_long()),
        }
    }

    /// Takes the line that was found: `line` returns its bytes.
    #[inline(always)]
    pub fn take_line(&mut self)
        // A line was found, and is not taken yet.
        requires { IsTrue self.old.found }
        // That line is taken, and no other byte; `line` then returns it, or nothing where it is too
        // long.
        ensures { self.new ≡ without_line self.old }
    {
        match self.first {
            First::Line(length) => {
                self.buffer.start += length;
                self.line = length;
            }
            First::TooLong => {
                self.skipped = Skipped::none();
                self.line = 0;
            }
            First::Unknown => {}
        }
        self.first = First::Unknown;
    }

    /// Takes the first line of the pending bytes, and returns its event (RFC 959, section 5.3), or
    /// `None` where no line is complete, as `find_line` does. When out of memory, the line stays,
    /// and the next call finds it again; it never is for a line that is too long, or whose command
    /// takes no value.
    // inlined, the event is made in its caller; else its 136 bytes move three times
    #[inline(always)]
    pub fn next_event(&mut self) -> Result<Option<Event>, AllocError>
        // The first line is taken and its event returned, or `None` only where no line is complete.
        // Out of memory, the line stays pending.
        ensures takes_next { TakesNext self.old result self.new }
        // `line` then returns the line of the event: nothing where it is too long, or no event was
        // returned.
        ensures line { self.new.line ≡ line_after self.old result self.new }
        // Where no line is complete, the buffer holds only the bytes that are kept; else it holds
        // as many as before.
        ensures buffered { self.new.buffered ≡ buffered_after self.old result self.new }
        // The limit stays.
        ensures limit { self.new.limit ≡ self.old.limit }
        // The most that the buffer has held stays.
        ensures held { self.new.held ≡ self.old.held }
        // At `Ok` no line is found that is not taken yet.
        ensures found { OnOk result (self.new.found ≡ false) }
        // Out of memory, the line is found, and not taken.
        ensures stays_found { OnErr result (self.new.found ≡ true) }
        // No byte is scanned twice, also where the line stays pending.
        ensures scanned { self.new.scanned + self.new.unscanned ≡ self.old.scanned + self.old.unscanned }
        // Out of memory comes only for a complete line within the limit that may take memory.
        ensures may_run_out { OnErr result (MayRunOut self.old.limit self.old.bytes) }
        // The count of scanned bytes never falls.
        ensures never_fewer { self.old.scanned ≤ self.new.scanned }
    {
        let Some(_) = self.find_line() else {
            return Ok(None);
        };
        let event = self.found_event()?;
        self.take_line();
        Ok(Some(event))
    }

    /// Drops all pending bytes, as a server does where the session ends, or before TLS begins: no
    /// later event comes of them. They are not scanned any more.
    pub fn clear(&mut self)
        // No byte is pending or in the buffer, `line` is empty, and no line is found; the limit and
        // the counts stay.
        ensures cleared { self.new ≡ cleared self.old }
        // A limit is at least 1.
        ensures limit { IfSome self.new.limit (λ limit. 1 ≤ limit) }
    {
        self.finder.restart();
        self.buffer.clear();
        self.first = First::Unknown;
        self.line = 0;
        self.skipped = Skipped::none();
    }
}

/// Removes so many bytes from the start of the buffer: they are dropped.
#[inline(always)]
fn drop_front(buffer: &mut PendingBytes, skipped: &mut Skipped, count: usize)
    requires within { IsTakenWithin buffer.old }
    requires count { count ≤ length (pending_in buffer.old) }
    ensures buffer { pending_in buffer.new ≡ drop count (pending_in buffer.old) }
    ensures bytes { buffer.new.bytes ≡ buffer.old.bytes }
    ensures within { IsTakenWithin buffer.new }
    ensures skipped { skipped.new ≡ skipped.old ++ take count (pending_in buffer.old) }
{
    if count == 0 {
        return;
    }
    let (front, _) = buffer.pending().split_at(count);
    skipped.add(front);
    buffer.start += count;
}

/// The event of a line that is too long.
fn too_long() -> Event
    ensures { event_meant result ≡ Refused line_too_long }
{
    Event::Refused(ControlChanErrorKind::LineTooLong.into())
}

/// The event of a line that is not too long; or out of memory.
fn event_of(alloc: Global, line: &[u8]) -> Result<Event, AllocError>
    ensures ok { IfOk result (λ event. event_meant event ≡ event_of (outcome line.now)) }
    ensures err { OnErr result (MayTakeMemory line.now) }
{
    match parse(alloc, line) {
        Ok(command) => Ok(Event::Command(command)),
        Err(error) => match error.kind() {
            ParseErrorKind::OutOfMemory => Err(AllocError),
            _ => Ok(Event::Refused(error.into())),
        },
    }
}
