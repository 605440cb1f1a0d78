//! The pending bytes, and the replies that they begin with.
ghost use Rattle.std.specs.Prelude.{◌≡◌, ◌+◌, ◌<◌, ◌≤◌, ℕ, List, None, Some, OnOk, OnErr, IfSome, IsTrue, false, drop, length, [], Option, Result};
ghost use Rattle.unftp_control_defs.specs.Bytes.{Bytes};
ghost use Rattle.unftp_control_defs.specs.Input.{input_state_of};
ghost use Rattle.unftp_control_defs.specs.ReplyReader.{FrontReply, IsPartial, IsMalformed};
ghost use Rattle.unftp_control_defs.specs.ReplyLimit.{IsTooLongReply, within_limit};
ghost use Rattle.unftp_control_read.specs.ReplyDecoding.{FindsFirst, IsReturned, TakesNextReply, cleared, held_after, no_bytes, settled, pushed};
ghost use Rattle.unftp_control_read.specs.Receiving.{AppendsPending};
ghost use Rattle.unftp_control_read.specs.declared.decoder.FirstReply.{FirstReply as RustFirst};
ghost use Rattle.unftp_control_read.specs.declared.errors.NextReplyError.{NextReplyError as RustError};

use crate::errors::{NextReplyError, ReceiveError};
use crate::receiving::{add_room, read_after};
use crate::reply::ReceivedReply;
use crate::search::{Search, first_bytes, is_full};
use crate::{Front, read_front};
use std::alloc::{AllocError, Global};
use std::io::Read;
use std::marker::Model;
use unftp_control_defs::buffer::PendingBytes;
use unftp_control_defs::count::Count;
use unftp_control_defs::input::{Input, PIECE};

/// The reply that the pending bytes begin with.
#[derive(Debug, Clone, Copy, PartialEq, Eq)]
pub struct FirstReply {
    /// Its three digits, as a number.
    pub code: u16,
    /// How many bytes it has, its last end of line included.
    pub length: usize,
}

/// Cuts replies from an input that comes in pieces: for a client with an event loop of its own. A
/// piece is pushed, and replies are taken until there is none; between two of them the client does
/// what it likes, and after the last it may clear what is pending.
// The search, which counts from the first pending byte, keeps how far it has come, so that no byte
// is searched again with each piece.
#[derive(Drop)]
pub struct ReplyDecoder {
    buffer: PendingBytes,
    limit: Option<usize>,
    search: Search,
    held: Count,
}

impl Model for ReplyDecoder {
    ghost use Rattle.std.specs.Prelude.{length, vec_capacity};
    ghost use Rattle.unftp_control_defs.specs.Buffer.{pending_in};
    ghost use Rattle.unftp_control_read.specs.ReplyDecoding.{IsReplyDecoder, PendingReplies, pending_replies};

    ghost Value = { PendingReplies };

    ghost view = { λ decoder. pending_replies decoder.limit
        (pending_in decoder.buffer) (length decoder.buffer.bytes.items) decoder.held };

    ghost invariant = { λ decoder. IsReplyDecoder decoder.limit decoder.search
        decoder.buffer.bytes.items decoder.buffer.start decoder.held
        (vec_capacity decoder.buffer.bytes) };
}

impl ReplyDecoder {
    /// A decoder that was pushed nothing. A reply may have any length, and all its bytes are kept
    /// until its last line is complete: for a server that is not trusted, set a limit.
    pub fn new(alloc: Global) -> ReplyDecoder
        // Nothing is pending or was ever held, and there is no limit.
        ensures { result ≡ no_bytes None }
    {
        ReplyDecoder {
            buffer: PendingBytes::new(alloc),
            limit: None,
            search: Search::new(),
            held: Count::new(),
        }
    }

    /// A decoder that was pushed nothing. A reply may have at most `limit` bytes, its line ends
    /// counted (RFC 959 names no limit).
    pub fn with_limit(alloc: Global, limit: usize) -> ReplyDecoder
        // The limit is at least one byte.
        requires { 1 ≤ limit }
        // Nothing is pending or was ever held, and a reply may have at most `limit` bytes.
        ensures { result ≡ no_bytes (Some limit) }
    {
        ReplyDecoder {
            buffer: PendingBytes::new(alloc),
            limit: Some(limit),
            search: Search::new(),
            held: Count::new(),
        }
    }

    /// The pending bytes: those after the last reply that was taken. Where `next_reply` has
    /// returned `None`, they are a part of a reply.
    pub fn pending(&self) -> &[u8]
        // All pending bytes are returned.
        ensures { result.now ≡ self.now.bytes }
    {
        self.buffer.pending()
    }

    /// Appends a piece to the pending bytes. When out of memory, nothing changes; it only is where
    /// the buffer would hold more bytes than it ever did, and never for an empty piece.
    pub fn push(&mut self, piece: &[u8]) -> Result<(), AllocError>
        // At `Ok` the piece follows the pending bytes, and replies that were taken may have left
        // the buffer.
        ensures ok { OnOk result (self.new ≡ pushed self.old piece.now) }
        // At an error nothing changes.
        ensures err { OnErr result (self.new ≡ self.old) }
        // It is never out of memory for an empty piece.
        ensures some { OnErr result (¬ (piece.now ≡ [])) }
        // It is out of memory only where the buffer would hold more bytes than it ever did.
        ensures memory { OnErr result (self.old.held < self.old.buffered + length piece.now) }
    {
        let most = self.buffer.bytes.len() + piece.len();
        self.buffer.push(piece)?;
        self.held.raise_to(most);
        Ok(())
    }

    /// Takes the first reply of the pending bytes (RFC 959, section 4.2), or returns `None` where
    /// they are only a part of one. At an error all bytes stay: so `Malformed` and `TooLong` are
    /// returned from then on, whatever is pushed, and after `OutOfMemory` the next call finds the
    /// same reply again.
    ///
    /// Where it returns `None`, its buffer holds only the pending bytes. So with a limit, where all
    /// replies are taken before the next piece is pushed, it never holds more than the limit and
    /// one piece.
    pub fn next_reply(&mut self) -> Result<Option<ReceivedReply>, NextReplyError>
        // A reply is the first, within the limit, and is removed. Else all bytes stay pending: at
        // `None` as a part of a reply below the limit, at an error for the reason that it names.
        ensures takes_next { TakesNextReply self.old result self.new }
        // A reply that the pending bytes begin with, within the limit, is returned, or the result
        // is `OutOfMemory`.
        ensures whole { (code : ℕ) (lines : List Bytes) (used : ℕ)
            → FrontReply self.old.bytes code lines used
            → IfSome self.old.limit (λ limit. used ≤ limit)
            → IsReturned code lines result }
        // `None` is returned for each part of a reply that is not too long.
        ensures partial { IsPartial self.old.bytes
            → ¬ IsTooLongReply self.old.limit self.old.bytes
            → result ≡ Ok None }
        // `Malformed` is returned where the bytes that a reply may have are malformed.
        ensures malformed { IsMalformed (within_limit self.old.limit self.old.bytes)
            → result ≡ Err NextReplyError.Malformed }
        // `TooLong` is returned where as many bytes as a reply may have are only a part of one.
        ensures too_long { IsTooLongReply self.old.limit self.old.bytes
            → result ≡ Err NextReplyError.TooLong }
        // At `None` the buffer holds only the pending bytes, and else as many as before.
        ensures buffered { self.new.buffered ≡ held_after self.old result self.new }
        // The limit stays the same.
        ensures limit { self.new.limit ≡ self.old.limit }
        // The most bytes that the buffer has held stay the same.
        ensures held { self.new.held ≡ self.old.held }
    {
        let reply = self.take_next()?;
        if reply.is_none() {
            self.settle();
        }
        Ok(reply)
    }

    /// Takes the first reply, whose bytes stay in the buffer.
    fn take_next(&mut self) -> Result<Option<ReceivedReply>, NextReplyError>
        ensures takes_next { TakesNextReply self.old result self.new }
        ensures buffered { self.new.buffered ≡ self.old.buffered }
        ensures limit { self.new.limit ≡ self.old.limit }
        ensures held { self.new.held ≡ self.old.held }
    {
        let alloc = *self.buffer.bytes.allocator();
        let searched = first_bytes(self.buffer.pending(), self.limit);
        match read_front(alloc, &mut self.search, searched)? {
            Front::Whole { code, lines, used } => {
                self.buffer.start += used;
                self.search = Search::new();
                Ok(Some(ReceivedReply { code, lines }))
            }
            Front::Partial => {
                if is_full(searched, self.limit) {
                    return Err(NextReplyError::TooLong);
                }
                Ok(None)
            }
        }
    }

    /// Finds the first reply of the pending bytes, and leaves it there (RFC 959, section 4.2); or
    /// returns `None` where they are only a part of one. The search goes on where it stopped before
    /// the last piece. No line is copied and no memory is taken, so it is never `OutOfMemory`.
    ///
    /// For a proxy, which passes a reply on as it came: `pending` has its bytes, `consume` removes
    /// them, and `settle` lets them leave the buffer.
    pub fn find_first(&mut self) -> Result<Option<FirstReply>, NextReplyError>
        // A reply has the code and the length of the first, within the limit. `None` is a part of
        // one below the limit, and an error has its reason, which is never `OutOfMemory`.
        ensures finds { FindsFirst self.old.limit self.old.bytes result }
        // The pending bytes, the limit and what the buffer holds stay the same.
        ensures same { self.new ≡ self.old }
    {
        self.search.find_first(self.buffer.pending(), self.limit)
    }

    /// Removes so many bytes from the start of the pending bytes, as those of a reply that was
    /// found.
    pub fn consume(&mut self, count: usize)
        // At least `count` bytes are pending.
        requires { count ≤ length self.old.bytes }
        // The first `count` pending bytes are removed, and nothing else changes.
        ensures { self.new ≡ record self.old { bytes = drop count self.old.bytes } }
    {
        self.buffer.start += count;
        self.search.restart();
    }

    /// Removes the replies that were taken or consumed from the buffer: the pending bytes move to
    /// its start, and it holds only them. `next_reply` does so where it returns `None`. It is for a
    /// caller that uses `find_first` and `consume`, once there is no further reply.
    pub fn settle(&mut self)
        // The buffer holds only the pending bytes, and nothing else changes.
        ensures { self.new ≡ settled self.old }
    {
        self.buffer.settle();
    }

    /// Drops all pending bytes, as a client does before TLS begins: no later reply comes of them.
    pub fn clear(&mut self)
        // No byte is pending or in the buffer. The limit and the most that it has held stay the
        // same.
        ensures { self.new ≡ cleared self.old }
    {
        self.buffer.clear();
        self.search.restart();
    }

    /// Reads once, and appends what is read to the pending bytes. When out of memory, nothing is
    /// read. The room for a read is held, whatever it gives.
    pub(crate) fn fill_from<R: Read>(
        &mut self,
        reader: &mut Input<R>,
    ) -> Result<usize, ReceiveError>
        ensures { AppendsPending PIECE self.old self.new
            (input_state_of R.remaining reader.old) (input_state_of R.remaining reader.new) result }
    {
        let len = self.buffer.bytes.len();
        add_room(&mut self.buffer.bytes)?;
        self.held.raise_to(self.buffer.bytes.len());
        read_after(&mut self.buffer.bytes, len, reader)
    }
}

/// One answer is found for the first reply, by whatever search.
pub fn first_replies_are_one()
    // For the same bytes and limit, two results that are right by `FindsFirst` are equal.
    ensures { (limit : Option ℕ) (bytes : Bytes)
        (found other : Result (Option RustFirst) RustError)
        → FindsFirst limit bytes found → FindsFirst limit bytes other → found ≡ other }
{}
