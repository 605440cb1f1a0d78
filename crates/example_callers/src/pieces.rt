//! A server's own loop over the engine.
ghost use Rattle.std.specs.Prelude.{◌≡◌, [], None, Some, map, IfOk, OnOk, length};
ghost use Rattle.std.specs.List.{concat};
ghost use Rattle.example_callers.specs.Pieces.{AnswersPieces};
ghost use Rattle.example_callers.specs.Sessions.{snapshot_at_start};
ghost use Rattle.unftp_control_serve.specs.Decoder.{saturating_u64};
ghost use Rattle.unftp_control_serve.specs.Endings.{snapshot_of};
ghost use Rattle.unftp_control_defs.specs.Run.{unread, text_for};
ghost use Rattle.unftp_control_serve.specs.Writing.{HasWritten, OutputState, output_state_of};

use std::alloc::Global;
use std::io::Write;
use unftp_control_serve::{Engine, Output, ServeError, Session};

/// Answers what a client sent, piece by piece, and returns how many bytes come after the last line
/// that was answered: the start of a line, or what came after the end of the session.
pub fn answer_pieces<H: Session, W: Write>(
    alloc: Global,
    pieces: &[&[u8]],
    handler: &mut H,
    output: &mut Output<W>,
) -> Result<u64, ServeError>
    ensures written { OnOk result (HasWritten
        (output_state_of W.contents output.old) (output_state_of W.contents output.new)
        (text_for None (H.law (H.heard handler.new)) (H.state handler.old)
        (concat (map (λ piece. piece.now) pieces.now)))) }
    ensures left { IfOk result (λ left.
        left ≡ saturating_u64 (length (unread None (H.law (H.heard handler.new))
        (H.state handler.old) (concat (map (λ piece. piece.now) pieces.now))))) }
    // the handler's last state, what was flushed, and where it failed at an error
    ensures answered { AnswersPieces (H.law (H.heard handler.new))
        (snapshot_of H.state H.failures W.contents handler.old output.old)
        (map (λ piece. piece.now) pieces.now)
        (snapshot_of H.state H.failures W.contents handler.new output.new) result }
{
    let mut engine = Engine::new(alloc);
    for piece in pieces {
        engine.feed(piece, handler, output)?;
    }
    Ok(engine.left())
}

/// The replies to what a client sent, piece by piece, for a server that sends them itself.
pub fn replies_to_pieces<H: Session>(
    alloc: Global,
    pieces: &[&[u8]],
    handler: &mut H,
) -> Result<Vec<u8>, ServeError>
    ensures replies { IfOk result (λ replies. replies.items
        ≡ text_for None (H.law (H.heard handler.new)) (H.state handler.old)
        (concat (map (λ piece. piece.now) pieces.now))) }
    ensures answered { (output : OutputState) × AnswersPieces (H.law (H.heard handler.new))
        (snapshot_at_start (H.state handler.old) (H.failures handler.old) (Some []))
        (map (λ piece. piece.now) pieces.now)
        (record {
          state = H.state handler.new;
          failures = H.failures handler.new;
          output = output;
        }) result }
{
    let mut engine = Engine::new(alloc);
    let mut replies = Vec::new(alloc);
    for piece in pieces {
        engine.feed(piece, handler, &mut replies)?;
    }
    Ok(replies)
}
