//! A whole connection, from the first read to the end of the input.
ghost use Rattle.std.specs.Prelude.{◌≤◌, ◌+◌, ℕ, None, Some, Option, IfOk, IfErr, IfSome, OnOk, List};
ghost use Rattle.unftp_control_serve.specs.Endings.{Snapshot, snapshot_of};
ghost use Rattle.unftp_control_defs.specs.Input.{InputState, input_state_of};
ghost use Rattle.unftp_control_serve.specs.Service.{AreReadBack, ServedInPieces, Reports, ServeEnded, Serves, ServesKnown};
ghost use Rattle.unftp_control_serve.specs.declared.service.Served.{Served as Report};

use crate::engine::Engine;
use crate::error::ServeError;
use crate::output::Output;
use crate::session::Session;
use std::alloc::Global;
use std::io::{Read, Write};
use unftp_control_defs::count::Count;
use unftp_control_defs::input::{Input, PIECE};

/// What `serve` returns at the end of its input, or of the session.
#[derive(Drop)]
pub struct Served {
    /// How many bytes came after the last line feed; where the handler ended the session, how many
    /// of those after the line that ended it were read. `u64::MAX` where there are more.
    pub left: u64,
    /// Whether the handler ended the session, and not the input.
    pub done: bool,
    /// How many bytes were compared with a line feed. Only contracts see it.
    pub tests: Count,
    /// The most bytes that were held in the buffer. Only contracts see it.
    pub held: Count,
}

/// Answers the lines that the reader gives (RFC 959, section 5.3), until it gives no more or the
/// handler is done.
///
/// Each reply is written whole and flushed before the next line is taken, and before more is read.
/// Once the handler is done, no later byte is parsed.
///
/// At `Ok` the reader has come to its end, or the handler is done. `Read` is a failed read, after
/// which all complete lines are answered; `Write` and `WriteZero` are a failed write or flush,
/// after which a beginning of a reply may be written; `Handler` and `OutOfMemory` are a failed
/// handler or allocation. At each of these four the replies to the lines before are written and
/// flushed, and so are the first ones to the next line; no later one is asked for. `TooManyReads`
/// comes after 2^64 - 1 reads. It is never `Stopped`.
///
/// A line may have any length, and all its bytes are kept until its line feed comes: for input that
/// is not trusted, use `serve_with_limit`.
#[tactic(auto, using(crate::proofs::ServiceLemmas::served_serves))]
pub fn serve<R: Read, W: Write, H: Session>(
    alloc: Global,
    reader: &mut Input<R>,
    writer: &mut Output<W>,
    handler: &mut H,
) -> Result<Served, ServeError>
    // At `Ok`, over any streams, the writes took exactly the replies to the lines that the reads
    // gave, up to the session's end; they are flushed, and the handler is in its last state.
    ensures serves { IfOk result (Serves None (H.law (H.heard handler.new))
        (snapshot_of H.state H.failures W.contents handler.old writer.old)
        (snapshot_of H.state H.failures W.contents handler.new writer.new)
        (input_state_of R.remaining reader.old)
        (input_state_of R.remaining reader.new)) }
    // At `Ok` a client reads exactly the replies in what was written, where each of them is plain.
    ensures read_back { OnOk result (AreReadBack None (H.law (H.heard handler.new))
        (H.state handler.old)
        (input_state_of R.remaining reader.old) (input_state_of R.remaining reader.new)) }
    // At `Ok` the input came in pieces of at most 4,096 bytes, and the last read gave the session's
    // end, or nothing at the reader's end. No read, write, flush or handler failed.
    ensures ok { IfOk result (ServedInPieces None (H.law (H.heard handler.new))
        (snapshot_of H.state H.failures W.contents handler.old writer.old)
        (snapshot_of H.state H.failures W.contents handler.new writer.new)
        (input_state_of R.remaining reader.old)
        (input_state_of R.remaining reader.new)) }
    // At an error the replies to the lines before, and the first ones to the next, are written and
    // flushed, and of one more a beginning, or all where its flush failed. What failed is counted.
    ensures err { IfErr result (ServeEnded None (H.law (H.heard handler.new))
        (snapshot_of H.state H.failures W.contents handler.old writer.old)
        (snapshot_of H.state H.failures W.contents handler.new writer.new)
        (input_state_of R.remaining reader.old)
        (input_state_of R.remaining reader.new)) }
{
    serve_lines(alloc, None, reader, writer, handler)
}

/// As `serve`, with a limit: a line of more than `limit` bytes, its line feed counted, gets one
/// event, a refusal with `LineTooLong`, whatever it holds (RFC 959 names no limit). Its bytes are
/// dropped once they are too many, so at most `limit` and 4,096 bytes of the input are held.
///
/// `left` counts the dropped bytes too. The errors are those of `serve`.
#[tactic(auto, using(crate::proofs::ServiceLemmas::served_limited))]
pub fn serve_with_limit<R: Read, W: Write, H: Session>(
    alloc: Global,
    limit: usize,
    reader: &mut Input<R>,
    writer: &mut Output<W>,
    handler: &mut H,
) -> Result<Served, ServeError>
    // The limit is at least 1.
    requires { 1 ≤ limit }
    // At `Ok` it is as `serve` has it, where each line of more than `limit` bytes is one refusal.
    ensures serves { IfOk result (Serves (Some limit) (H.law (H.heard handler.new))
        (snapshot_of H.state H.failures W.contents handler.old writer.old)
        (snapshot_of H.state H.failures W.contents handler.new writer.new)
        (input_state_of R.remaining reader.old)
        (input_state_of R.remaining reader.new)) }
    // At `Ok` a client reads exactly the replies in what was written, where each of them is plain.
    ensures read_back { OnOk result (AreReadBack (Some limit) (H.law (H.heard handler.new))
        (H.state handler.old)
        (input_state_of R.remaining reader.old) (input_state_of R.remaining reader.new)) }
    // At Ok the buffer has held at most the limit and one piece.
    ensures bound { IfOk result (λ served. served.held ≤ limit + 4096) }
    // At `Ok` the input came in pieces of at most 4,096 bytes, and the last read gave the session's
    // end, or nothing at the reader's end. No read, write, flush or handler failed.
    ensures ok { IfOk result (ServedInPieces (Some limit) (H.law (H.heard handler.new))
        (snapshot_of H.state H.failures W.contents handler.old writer.old)
        (snapshot_of H.state H.failures W.contents handler.new writer.new)
        (input_state_of R.remaining reader.old)
        (input_state_of R.remaining reader.new)) }
    // At an error the replies to the lines before, and the first ones to the next, are written and
    // flushed, and of one more a beginning, or all where its flush failed. What failed is counted.
    ensures err { IfErr result (ServeEnded (Some limit) (H.law (H.heard handler.new))
        (snapshot_of H.state H.failures W.contents handler.old writer.old)
        (snapshot_of H.state H.failures W.contents handler.new writer.new)
        (input_state_of R.remaining reader.old)
        (input_state_of R.remaining reader.new)) }
{
    serve_lines(alloc, Some(limit), reader, writer, handler)
}

/// Answers the lines that the reader gives. A line may have so many bytes, its line feed counted,
/// if that is limited.
fn serve_lines<R: Read, W: Write, H: Session>(
    alloc: Global,
    limit: Option<usize>,
    reader: &mut Input<R>,
    writer: &mut Output<W>,
    handler: &mut H,
) -> Result<Served, ServeError>
    requires { IfSome limit (λ limit. 1 ≤ limit) }
    ensures ok { IfOk result (ServedInPieces limit (H.law (H.heard handler.new))
        (snapshot_of H.state H.failures W.contents handler.old writer.old)
        (snapshot_of H.state H.failures W.contents handler.new writer.new)
        (input_state_of R.remaining reader.old)
        (input_state_of R.remaining reader.new)) }
    ensures err { IfErr result (ServeEnded limit (H.law (H.heard handler.new))
        (snapshot_of H.state H.failures W.contents handler.old writer.old)
        (snapshot_of H.state H.failures W.contents handler.new writer.new)
        (input_state_of R.remaining reader.old)
        (input_state_of R.remaining reader.new)) }
{
    let mut engine = Engine::limited(alloc, limit);
    let mut room = [0u8; PIECE];
    for _turn in 0..u64::MAX {
        let read = match reader.read_piece(&mut room) {
            Ok(read) => read,
            Err(error) => return Err(ServeError::Read(error)),
        };
        let Some(piece) = read else {
            return Ok(served_by(&engine));
        };
        engine.feed(piece, handler, writer)?;
        let is_over = engine.finished();
        if is_over {
            return Ok(served_by(&engine));
        }
    }
    Err(ServeError::TooManyReads)
}

/// What an engine reports of the service.
fn served_by(engine: &Engine) -> Served
    ensures { Reports result engine.now }
{
    Served {
        left: engine.left(),
        done: engine.finished(),
        tests: engine.tests(),
        held: engine.held(),
    }
}

/// What follows of `Serves` where the bytes of the whole input are known, read or not, as those of
/// a slice are.
pub fn known_input_is_served<H: Session>()
    // Where the whole input is known, the output, the handler's last state and, but for up to 31,
    // the scanned bytes follow from it, read or not. All is read unless the session ended before.
    ensures { (heard : List H.Heard) (limit : Option ℕ) (before after : Snapshot H.State)
        (input input_after : InputState) (served : Report)
        → Serves limit (H.law heard) before after input input_after served
        → IfSome input.remaining
        (ServesKnown limit (H.law heard) before after input_after.remaining served) }
{}
