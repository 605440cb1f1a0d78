//! What README shows first.
ghost use Rattle.std.specs.Prelude.{◌≡◌, Some, OnOk};
ghost use Rattle.example_callers.specs.Sessions.{SessionEnded, snapshot_at_start, unused_input};
ghost use Rattle.unftp_control_serve.specs.Endings.{snapshot_of};
ghost use Rattle.unftp_control_defs.specs.Input.{input_state_of};
ghost use Rattle.unftp_control_defs.specs.Run.{text_for};

use std::alloc::Global;
use std::io::{Read, Write};
use unftp_control_serve::{Input, Output, ServeError, Served, Session, serve_with_limit};

/// Answers the lines of a client, until it sends no more or the handler ends the session, and gives
/// the streams back. A line of more than 8,192 bytes gets one refusal.
pub fn answer_client<R: Read, W: Write, H: Session>(
    alloc: Global,
    stream_in: R,
    stream_out: W,
    handler: &mut H,
) -> (Result<Served, ServeError>, Input<R>, Output<W>)
    // at Ok exactly the replies to the lines that the reads gave were written, of any two streams
    ensures written { OnOk result.0 (result.2.taken
        ≡ text_for (Some 8192) (H.law (H.heard handler.new)) (H.state handler.old)
        result.1.given) }
    // and all that `serve_with_limit` says, at Ok and at each error
    ensures session { SessionEnded (Some 8192) (H.law (H.heard handler.new))
        (snapshot_at_start (H.state handler.old) (H.failures handler.old) (W.contents stream_out))
        (snapshot_of H.state H.failures W.contents handler.new result.2)
        (unused_input (R.remaining stream_in)) (input_state_of R.remaining result.1) result.0 }
{
    let mut input = Input::new(stream_in);
    let mut output = Output::new(stream_out);
    let served = serve_with_limit(alloc, 8192, &mut input, &mut output, handler);
    (served, input, output)
}
