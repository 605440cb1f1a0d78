//! A connection of a client that has to log in.
ghost use Rattle.std.specs.Prelude.{◌≤◌, ◌+◌, IfErr, IfOk, OnOk, Some};
ghost use Rattle.unftp_control_defs.specs.Bytes.{Bytes};
ghost use Rattle.unftp_control_defs.specs.Input.{HasRead, input_state_of};
ghost use Rattle.unftp_control_serve.specs.Service.{AreReadBack, ServeEnded, Serves};
ghost use Rattle.unftp_control_serve.specs.Writing.{HasWritten, output_state_of};
ghost use Rattle.unftp_control_login.specs.Asked.{IsClosed, asked_law};
ghost use Rattle.unftp_control_login.specs.GateState.{asked_gate, gate_snapshot, gated};
ghost use Rattle.unftp_control_login.specs.Promises.{MembersAlone, SendsPlainExchanges};

use crate::accounts::Accounts;
use crate::gate::Gate;
use std::alloc::Global;
use std::io::{Read, Write};
use unftp_control_serve::{Input, Output, ServeError, Served, Session, serve_with_limit};

/// Serves a connection behind a login (RFC 959, section 4.1.1): `serve_with_limit` with a `Gate`,
/// whose handler is any `Session`. Where the gate is before its first event, to a command that
/// needs a login a client reads a reply that reports no failure only after a name and a password
/// that the accounts accept.
///
/// A line may have `line_limit` bytes, its line feed counted, and a longer one gets one refusal.
/// The limit has to be at least 1.
///
/// What it returns and leaves of the streams is as for `serve` at `Ok`, and as for
/// `serve_with_limit` at each error. `Handler` is an error of the handler, or out of memory for a
/// reply of the gate's own.
pub fn serve_members<R: Read, W: Write, A: Accounts, H: Session>(
    alloc: Global,
    line_limit: usize,
    reader: &mut Input<R>,
    writer: &mut Output<W>,
    gate: &mut Gate<A, H>,
) -> Result<Served, ServeError>
    // A line may have at least one byte.
    requires { 1 ≤ line_limit }
    // At `Ok` exactly the replies to the lines that were read are written and flushed. The gate is
    // in the state after them, with what its accounts were asked.
    ensures serves { IfOk result (Serves (Some line_limit)
        (asked_law (H.law (H.heard gate.new.inner.handler)))
        (gate_snapshot A.accepts H.state H.failures W.contents gate.old writer.old)
        (gate_snapshot A.accepts H.state H.failures W.contents gate.new writer.new)
        (input_state_of R.remaining reader.old) (input_state_of R.remaining reader.new)) }
    // At `Ok` a client reads these replies, and nothing else, where each of them is plain.
    ensures read_back { OnOk result (AreReadBack (Some line_limit)
        (asked_law (H.law (H.heard gate.new.inner.handler)))
        (asked_gate A.accepts H.state gate.old)
        (input_state_of R.remaining reader.old) (input_state_of R.remaining reader.new)) }
    // At `Ok`, where the gate was before its first event and its handler gives readable exchanges,
    // a reply with a code below 400 to what needs a login comes only after one.
    ensures members { IsClosed (gated A.accepts H.state gate.old)
        → SendsPlainExchanges (H.law (H.heard gate.new.inner.handler))
        (H.state gate.old.inner.handler) → OnOk result ((read written : Bytes)
        × HasRead (input_state_of R.remaining reader.old) (input_state_of R.remaining reader.new)
        read
        × HasWritten (output_state_of W.contents writer.old) (output_state_of W.contents writer.new)
        written
        × MembersAlone (Some line_limit) (A.accepts gate.old.accounts.accounts) read written) }
    // At `Ok` the buffer has held at most the limit on a line and 4,096 bytes.
    ensures bound { IfOk result (λ served. served.held ≤ line_limit + 4096) }
    // At an error all lines before the last piece that was read were answered, and after a failed
    // read those of this piece too. `ServeEnded` has what each error leaves.
    ensures err { IfErr result (ServeEnded (Some line_limit)
        (asked_law (H.law (H.heard gate.new.inner.handler)))
        (gate_snapshot A.accepts H.state H.failures W.contents gate.old writer.old)
        (gate_snapshot A.accepts H.state H.failures W.contents gate.new writer.new)
        (input_state_of R.remaining reader.old) (input_state_of R.remaining reader.new)) }
{
    serve_with_limit(alloc, line_limit, reader, writer, gate)
}
