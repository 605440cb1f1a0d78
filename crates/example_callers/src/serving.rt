//! A connection served to its end.
ghost use Rattle.std.specs.Prelude.{◌+◌, ◌≤◌, None, Some, IfErr, IfOk, OnOk};
ghost use Rattle.unftp_control_serve.specs.Endings.{snapshot_of};
ghost use Rattle.unftp_control_defs.specs.Input.{input_state_of};
ghost use Rattle.unftp_control_serve.specs.Service.{AreReadBack, ServeEnded, Serves};

use std::alloc::Global;
use std::io::{Read, Write};
use unftp_control_serve::{Input, Output, ServeError, Served, Session, serve, serve_with_limit};

/// Answers the lines of a connection to its end.
pub fn serve_connection<R: Read, W: Write, H: Session>(
    alloc: Global,
    input: &mut Input<R>,
    output: &mut Output<W>,
    handler: &mut H,
) -> Result<Served, ServeError>
    ensures serves { IfOk result (Serves None (H.law (H.heard handler.new))
        (snapshot_of H.state H.failures W.contents handler.old output.old)
        (snapshot_of H.state H.failures W.contents handler.new output.new)
        (input_state_of R.remaining input.old) (input_state_of R.remaining input.new)) }
    ensures read_back { OnOk result (AreReadBack None (H.law (H.heard handler.new))
        (H.state handler.old)
        (input_state_of R.remaining input.old) (input_state_of R.remaining input.new)) }
    ensures err { IfErr result (ServeEnded None (H.law (H.heard handler.new))
        (snapshot_of H.state H.failures W.contents handler.old output.old)
        (snapshot_of H.state H.failures W.contents handler.new output.new)
        (input_state_of R.remaining input.old) (input_state_of R.remaining input.new)) }
{
    serve(alloc, input, output, handler)
}

/// The most bytes of a line, its line feed counted: enough for a verb and a path of 4,096 bytes.
const LINE_LIMIT: usize = 8192;

/// Answers the lines of a client that is not trusted: a longer line gets one refusal, and its bytes
/// are not kept.
pub fn serve_stranger<R: Read, W: Write, H: Session>(
    alloc: Global,
    input: &mut Input<R>,
    output: &mut Output<W>,
    handler: &mut H,
) -> Result<Served, ServeError>
    ensures serves { IfOk result (Serves (Some LINE_LIMIT) (H.law (H.heard handler.new))
        (snapshot_of H.state H.failures W.contents handler.old output.old)
        (snapshot_of H.state H.failures W.contents handler.new output.new)
        (input_state_of R.remaining input.old) (input_state_of R.remaining input.new)) }
    ensures read_back { OnOk result (AreReadBack (Some LINE_LIMIT) (H.law (H.heard handler.new))
        (H.state handler.old)
        (input_state_of R.remaining input.old) (input_state_of R.remaining input.new)) }
    ensures bound { IfOk result (λ served. served.held ≤ LINE_LIMIT + 4096) }
    ensures err { IfErr result (ServeEnded (Some LINE_LIMIT) (H.law (H.heard handler.new))
        (snapshot_of H.state H.failures W.contents handler.old output.old)
        (snapshot_of H.state H.failures W.contents handler.new output.new)
        (input_state_of R.remaining input.old) (input_state_of R.remaining input.new)) }
{
    serve_with_limit(alloc, LINE_LIMIT, input, output, handler)
}
