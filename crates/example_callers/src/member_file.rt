//! A file for who has logged in.
ghost use Rattle.std.specs.Prelude.{◌≡◌, [], IfErr, IfOk, OnOk, Some};
ghost use Rattle.example_callers.specs.Transfers.{new_transfers, state_of, transfer_failures, transfers_law};
ghost use Rattle.unftp_control_defs.specs.Bytes.{Bytes};
ghost use Rattle.unftp_control_defs.specs.Input.{HasRead, input_state_of};
ghost use Rattle.unftp_control_login.specs.Asked.{IsClosed, asked_law};
ghost use Rattle.unftp_control_login.specs.CallsOf.{failures_of};
ghost use Rattle.unftp_control_login.specs.GateState.{asked_gate, gate_snapshot, gated};
ghost use Rattle.unftp_control_login.specs.Promises.{MembersAlone, guarded};
ghost use Rattle.unftp_control_serve.specs.Service.{AreReadBack, ServeEnded, Serves};
ghost use Rattle.unftp_control_serve.specs.Writing.{HasWritten, output_state_of};

use crate::transfers::{DataConnection, Transfers, laws};
use std::alloc::Global;
use std::io::{Read, Write};
use unftp_control_login::{Accounts, Gate, LoginLimit, serve_members};
use unftp_control_serve::{Input, Output, ServeError, Served};

/// The most bytes of a line, its line feed counted.
const LINE_LIMIT: usize = 4096;

/// How many logins may fail; the last of them ends the session.
const FAILED_LOGINS: u32 = 3;

/// A gate before the first event, behind which who has logged in retrieves a file, or stores it.
pub fn file_gate<A: Accounts, D: DataConnection>(
    accounts: A,
    connection: D,
    file: Vec<u8>,
) -> Gate<A, Transfers<D>>
    ensures state { gated A.accepts (state_of D.answers) result ≡ guarded (Some FAILED_LOGINS)
        (A.accepts accounts) (new_transfers (D.answers connection) file.items) }
    ensures connection { result.inner.handler.connection ≡ connection }
    ensures asked { result.accounts.questions ≡ [] }
    ensures failures { failures_of transfer_failures result.inner ≡ 0 }
{
    let limit = LoginLimit::new(FAILED_LOGINS);
    Gate::new(accounts, Transfers::new(connection, file)).with_limit(limit)
}

/// Serves a connection over which who has logged in retrieves the file of this gate, or stores it.
pub fn serve_file<R: Read, W: Write, A: Accounts, D: DataConnection>(
    alloc: Global,
    reader: &mut Input<R>,
    writer: &mut Output<W>,
    gate: &mut Gate<A, Transfers<D>>,
) -> Result<Served, ServeError>
    // Exactly the replies to the lines that were read are written, by what the gate's own data
    // connection answered; and it was called as its transfers call, no more and no less.
    ensures serves { IfOk result (Serves (Some LINE_LIMIT)
        (asked_law (transfers_law (D.answers gate.new.inner.handler.connection)))
        (gate_snapshot A.accepts (state_of D.answers) transfer_failures W.contents gate.old
        writer.old)
        (gate_snapshot A.accepts (state_of D.answers) transfer_failures W.contents gate.new
        writer.new)
        (input_state_of R.remaining reader.old) (input_state_of R.remaining reader.new)) }
    ensures read_back { OnOk result (AreReadBack (Some LINE_LIMIT)
        (asked_law (transfers_law (D.answers gate.new.inner.handler.connection)))
        (asked_gate A.accepts (state_of D.answers) gate.old)
        (input_state_of R.remaining reader.old) (input_state_of R.remaining reader.new)) }
    // 150 and 226 come only after a name and a password that the accounts accept
    ensures members { IsClosed (gated A.accepts (state_of D.answers) gate.old)
        → OnOk result ((read written : Bytes)
        × HasRead (input_state_of R.remaining reader.old) (input_state_of R.remaining reader.new)
        read
        × HasWritten (output_state_of W.contents writer.old) (output_state_of W.contents writer.new)
        written
        × MembersAlone (Some LINE_LIMIT) (A.accepts gate.old.accounts.accounts) read written) }
    ensures err { IfErr result (ServeEnded (Some LINE_LIMIT)
        (asked_law (transfers_law (D.answers gate.new.inner.handler.connection)))
        (gate_snapshot A.accepts (state_of D.answers) transfer_failures W.contents gate.old
        writer.old)
        (gate_snapshot A.accepts (state_of D.answers) transfer_failures W.contents gate.new
        writer.new)
        (input_state_of R.remaining reader.old) (input_state_of R.remaining reader.new)) }
{
    laws::transfers_are_exchanges();
    serve_members(alloc, LINE_LIMIT, reader, writer, gate)
}
