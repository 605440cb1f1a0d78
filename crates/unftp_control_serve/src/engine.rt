//! The engine: lines in, replies out.
ghost use Rattle.std.specs.Prelude.{◌≡◌, ◌<◌, ◌≤◌, ◌+◌, ◌⊎◌, List, max, None, Some, IfSome, IfOk, OnOk, OnErr, IsErrOf, IsTrue, MatchResult, is_ok, if◌then◌else◌, true, false, length, vec_capacity};
ghost use Rattle.unftp_control_defs.specs.FtpReply.{Nothing, encoded};
ghost use Rattle.unftp_control_message.specs.ReplyMeaning.{reply_of};
ghost use Rattle.unftp_control_serve.specs.Endings.{EventOutcome, OnMemory, OnWrite, PieceOutcome, RunOutcome, snapshot_with};
ghost use Rattle.unftp_control_serve.specs.Decoder.{IsSeenAhead, kept_length};
ghost use Rattle.unftp_control_serve.specs.EventMeaning.{event_meant};
ghost use Rattle.unftp_control_serve.specs.Writing.{Begins, SendsReply};
ghost use Rattle.unftp_control_serve.specs.Engine.{IsFed, FailedAfter, IsRunning, LacksPieceRoom, bytes_with, fresh, more_left};

use crate::decoder::EventDecoder;
use crate::error::ServeError;
use crate::event::Event;
use crate::send::Sink;
use crate::session::Session;
use std::alloc::Global;
use std::marker::Model;
use unftp_control_codecs::encode_reply;
use unftp_control_defs::count::Count;
use unftp_control_message::reply::Reply;
use unftp_control_message::reply::error::ControlChanError;

/// Encodes the reply into a buffer that is used again.
fn encode_into(reply: &Reply, reply_bytes: &mut Vec<u8>) -> Result<(), ControlChanError>
    ensures bytes { OnOk result (reply_bytes.new.items ≡ encoded (reply_of reply.now)) }
    ensures no_memory { OnErr result (¬ (reply_of reply.now ≡ Nothing)) }
    ensures memory { OnErr result
        (vec_capacity reply_bytes.old < length (encoded (reply_of reply.now))) }
{
    reply_bytes.clear();
    encode_reply(reply, reply_bytes)
}

/// Sends a reply, whose bytes are held in `reply_bytes`. It is out of memory only where this buffer
/// lacks room for them, or the output does.
fn send_reply<K: Sink>(
    reply_bytes: &mut Vec<u8>,
    reply: Reply,
    output: &mut K,
) -> Result<(), ServeError>
    ensures sends { SendsReply result (reply_of reply) (K.state output.old) (K.state output.new) }
    ensures cuts { OnWrite result K.cuts }
    ensures memory { OnMemory result ((vec_capacity reply_bytes.old
        < length (encoded (reply_of reply))) ⊎ K.lacks output.old (encoded (reply_of reply))) }
{
    match encode_into(&reply, reply_bytes) {
        Ok(()) => output.send(reply_bytes.as_slice()),
        Err(_) => Err(ServeError::OutOfMemory),
    }
}

/// Passes the event to the handler, and sends its replies, one after the other.
fn answer_event<H: Session, K: Sink>(
    reply_bytes: &mut Vec<u8>,
    event: Event,
    handler: &mut H,
    output: &mut K,
) -> Result<(), ServeError>
    ensures heard { Begins (H.heard handler.new) (H.heard handler.old) }
    ensures outcome { (heard : List H.Heard) → Begins heard (H.heard handler.new)
        → EventOutcome (H.law heard)
        (snapshot_with H.state H.failures K.state handler.old output.old)
        (event_meant event)
        (snapshot_with H.state H.failures K.state handler.new output.new)
        result }
    ensures cuts { OnWrite result K.cuts }
{
    let alloc = *reply_bytes.allocator();
    let first = handler.first(alloc, event).map_err(ServeError::Handler)?;
    send_reply(reply_bytes, first, output)?;
    while let Some(reply) = handler.further(alloc).map_err(ServeError::Handler)? {
        send_reply(reply_bytes, reply, output)?;
    }
    Ok(())
}

/// Answers each pending line, up to the one that leaves the handler done: returns whether there was
/// one.
fn answer_lines<H: Session, K: Sink>(
    decoder: &mut EventDecoder,
    reply_bytes: &mut Vec<u8>,
    handler: &mut H,
    output: &mut K,
) -> Result<bool, ServeError>
    ensures heard { Begins (H.heard handler.new) (H.heard handler.old) }
    ensures outcome { (heard : List H.Heard) → Begins heard (H.heard handler.new)
        → RunOutcome decoder.old.limit (H.law heard)
        (snapshot_with H.state H.failures K.state handler.old output.old) decoder.old.bytes
        (snapshot_with H.state H.failures K.state handler.new output.new)
        decoder.new.bytes result }
    ensures cuts { OnWrite result K.cuts }
    ensures unscanned { IfOk result (λ ended. IsSeenAhead decoder.new.unscanned
        (if ended then length decoder.new.bytes else 0)) }
    ensures kept { IfOk result (λ ended. ended ≡ false
        → decoder.new.buffered ≡ kept_length decoder.old.limit decoder.new.bytes) }
    ensures limit { decoder.new.limit ≡ decoder.old.limit }
    ensures held { decoder.new.held ≡ decoder.old.held }
    ensures scanned { decoder.new.scanned ≤ decoder.old.scanned + decoder.old.unscanned }
    ensures scanned_once { OnOk result (decoder.new.scanned + decoder.new.unscanned
        ≡ decoder.old.scanned + decoder.old.unscanned) }
    ensures never_fewer { decoder.old.scanned ≤ decoder.new.scanned }
{
    loop {
        let event = match decoder.next_event()? {
            Some(event) => event,
            None => return Ok(false),
        };
        answer_event(reply_bytes, event, handler, output)?;
        if handler.done() {
            return Ok(true);
        }
    }
}

/// Whether its session goes on.
#[derive(Drop)]
enum Phase {
    /// It takes the lines of what it is fed.
    Running,
    /// The handler has ended the session: no byte is read as a line any more.
    Finished,
    /// A call of `feed` returned an error.
    Failed,
}

/// Cuts an input that comes in pieces into lines, and answers each.
#[derive(Drop)]
pub struct Engine {
    decoder: EventDecoder,
    reply_bytes: Vec<u8>,
    left: u64,
    phase: Phase,
}

impl Model for Engine {
    ghost use Rattle.std.specs.Prelude.{◌≡◌, false};
    ghost use Rattle.unftp_control_serve.specs.Decoder.{kept_length};
    ghost use Rattle.unftp_control_serve.specs.Engine.{EngineState, has_failed, has_finished};

    ghost Value = { EngineState };

    ghost view = { λ engine. record {
      incomplete = engine.decoder.bytes;
      left = engine.left;
      failed = has_failed engine.phase;
      finished = has_finished engine.phase;
      scanned = engine.decoder.scanned;
      limit = engine.decoder.limit;
      buffered = engine.decoder.buffered;
      held = engine.decoder.held;
    } };

    ghost invariant = { λ engine. has_failed engine.phase ≡ false
        → (engine.decoder.unscanned ≡ 0)
        × (engine.decoder.buffered
        ≡ kept_length engine.decoder.limit engine.decoder.bytes) };
}

impl Engine {
    /// An engine that was fed nothing. A line may have any length, and all its bytes are kept until
    /// its line feed comes: for input that is not trusted, set a limit.
    pub fn new(alloc: Global) -> Engine
        // It was fed nothing, and has no limit.
        ensures { result ≡ fresh None }
    {
        Engine::limited(alloc, None)
    }

    /// An engine that was fed nothing. A line of more than `limit` bytes, its line feed counted, is
    /// one event, a refusal with `LineTooLong`, and none of its bytes are kept once they are too
    /// many (RFC 959 names no limit).
    pub fn with_limit(alloc: Global, limit: usize) -> Engine
        // The limit is at least 1.
        requires { 1 ≤ limit }
        // It was fed nothing, and has this limit.
        ensures { result ≡ fresh (Some limit) }
    {
        Engine::limited(alloc, Some(limit))
    }

    /// An engine that was fed nothing, with this limit, if there is one.
    pub(crate) fn limited(alloc: Global, limit: Option<usize>) -> Engine
        requires { IfSome limit (λ limit. 1 ≤ limit) }
        ensures { result ≡ fresh limit }
    {
        Engine {
            decoder: EventDecoder::limited(alloc, limit),
            reply_bytes: Vec::new(alloc),
            left: 0,
            phase: Phase::Running,
        }
    }

    /// How many bytes came after the last line that was taken, of what was fed by calls that
    /// returned `Ok`: after the last line feed, or, once the run has ended, after the line that
    /// ended it; or `u64::MAX` where there are more.
    pub fn left(&self) -> u64
        // How many bytes came after the last line that was taken, or `u64::MAX` where more did.
        ensures { result ≡ self.now.left }
    {
        self.left
    }

    /// Whether the handler has ended the session: from then on no byte is read as a line. An engine
    /// that failed isn't finished.
    pub fn finished(&self) -> bool
        // True exactly where the handler has ended the session.
        ensures { result ≡ self.now.finished }
    {
        matches!(self.phase, Phase::Finished)
    }

    /// How many bytes were compared with a line feed. Only contracts see it.
    pub fn tests(&self) -> Count
        // The number of bytes compared so far.
        ensures { result ≡ self.now.scanned }
    {
        self.decoder.tests()
    }

    /// The most bytes that its buffer has held. Only contracts see it.
    pub fn held(&self) -> Count
        // The most bytes that the buffer has held so far.
        ensures { result ≡ self.now.held }
    {
        self.decoder.held()
    }

    /// Takes the next piece of the input, and answers each line that is now complete (RFC 959,
    /// section 5.3): its event is passed to the handler, and each of its replies is written and
    /// flushed, or appended where `output` is a `Vec`, before the next reply is asked for or the
    /// next line is taken. The bytes after the last line feed are kept; with a limit, those of a
    /// line that is too long are dropped, and `left` still counts them.
    ///
    /// Where an event leaves the handler done, the engine is finished: its replies are the last,
    /// and the bytes after its line are dropped. From then on a piece is counted by `left`, and
    /// nothing else is done with it, at `Ok`.
    ///
    /// `Handler`, `Write`, `WriteZero` and `OutOfMemory` come where the handler, the writer or an
    /// allocation fails: the replies to the lines before and the first ones to the next line are
    /// written and flushed, no later one is asked for, and `left` stays. Each makes the engine a
    /// failed one: from then on it returns `Stopped` and does nothing.
    pub fn feed<H: Session, K: Sink>(
        &mut self,
        piece: &[u8],
        handler: &mut H,
        output: &mut K,
    ) -> Result<(), ServeError>
        // What the handler has heard only grows.
        ensures heard { Begins (H.heard handler.new) (H.heard handler.old) }
        // A running engine answers the lines of the pending bytes and the piece, up to the
        // session's end. At an error the replies before it are written and flushed, and then perhaps
        // a beginning of one more; without memory for the piece nothing is done.
        ensures outcome { IsRunning self.old → (heard : List H.Heard)
            → Begins heard (H.heard handler.new) → PieceOutcome self.old.limit (H.law heard)
            (snapshot_with H.state H.failures K.state handler.old output.old)
            (bytes_with self.old piece.now) (LacksPieceRoom self.old piece.now)
            (snapshot_with H.state H.failures K.state handler.new output.new) result }
        // `Write` and `WriteZero` come only over an output that may write a beginning of a reply,
        // and fail.
        ensures cuts { OnWrite result K.cuts }
        // At `Ok` only the incomplete line is pending, or nothing once the session has ended; at
        // most 31 bytes after its end were scanned. An error makes the engine a failed one, and
        // nothing else does.
        ensures fed { IsRunning self.old → MatchResult result
            (λ _. (heard : List H.Heard) → Begins heard (H.heard handler.new)
            → IsFed (H.law heard) (H.state handler.old) self.old piece.now self.new)
            (λ _. FailedAfter self.old piece.now self.new) }
        // With a limit, the buffer has held at most what it had held before, or the limit and the
        // piece.
        ensures bound { IfSome self.old.limit (λ limit.
            self.new.held ≤ max self.old.held (limit + length piece.now)) }
        // A finished engine counts the piece at `Ok`, and does nothing else.
        ensures over { self.old.finished ≡ true → IsTrue (is_ok result)
            × (handler.new ≡ handler.old) × (output.new ≡ output.old)
            × (self.new ≡ more_left self.old piece.now) }
        // A failed engine returns `Stopped`, and does nothing.
        ensures stopped { self.old.failed ≡ true → IsErrOf result ServeError.Stopped
            × (handler.new ≡ handler.old) × (output.new ≡ output.old) × (self.new ≡ self.old) }
    {
        match self.phase {
            Phase::Failed => Err(ServeError::Stopped),
            Phase::Finished => {
                self.left = self.left.saturating_add(piece.len() as u64);
                Ok(())
            }
            Phase::Running => self.answer(piece, handler, output),
        }
    }

    /// Answers the lines of the pending bytes and a piece after them. Once the run has ended, the
    /// bytes after its last line are dropped.
    fn answer<H: Session, K: Sink>(
        &mut self,
        piece: &[u8],
        handler: &mut H,
        output: &mut K,
    ) -> Result<(), ServeError>
        requires { IsRunning self.old }
        ensures heard { Begins (H.heard handler.new) (H.heard handler.old) }
        ensures outcome { (heard : List H.Heard)
            → Begins heard (H.heard handler.new) → PieceOutcome self.old.limit (H.law heard)
            (snapshot_with H.state H.failures K.state handler.old output.old)
            (bytes_with self.old piece.now) (LacksPieceRoom self.old piece.now)
            (snapshot_with H.state H.failures K.state handler.new output.new) result }
        ensures cuts { OnWrite result K.cuts }
        ensures fed { MatchResult result
            (λ _. (heard : List H.Heard) → Begins heard (H.heard handler.new)
            → IsFed (H.law heard) (H.state handler.old) self.old piece.now self.new)
            (λ _. FailedAfter self.old piece.now self.new) }
        ensures bound { IfSome self.old.limit (λ limit.
            self.new.held ≤ max self.old.held (limit + length piece.now)) }
    {
        if let Err(error) = self.decoder.push(piece) {
            self.phase = Phase::Failed;
            return Err(error.into());
        }
        match answer_lines(&mut self.decoder, &mut self.reply_bytes, handler, output) {
            Ok(ended) => {
                self.left = self.decoder.left();
                if ended {
                    self.decoder.clear();
                    self.phase = Phase::Finished;
                }
                Ok(())
            }
            Err(error) => {
                self.phase = Phase::Failed;
                Err(error)
            }
        }
    }
}
