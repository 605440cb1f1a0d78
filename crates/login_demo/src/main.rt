//! Serves one control connection over standard input and output to who has logged in, with a tree
//! of files in memory: each line is answered when it is complete, up to QUIT.
//!
//! Both have to block: where one doesn't, a read or a write fails when nothing can be read or
//! written. A failed one ends the program with status 1 and a line on standard error that names the
//! error.
#![tactic(auto)]

ghost use Rattle.std.specs.Prelude.{◌≡◌, ◌≤◌, ◌+◌, [], IfErr, IfOk, OnOk, Some};
ghost use Rattle.unftp_control_defs.specs.Bytes.{Bytes};
ghost use Rattle.unftp_control_defs.specs.Input.{HasRead, input_state_of};
ghost use Rattle.unftp_control_login.specs.Asked.{IsClosed};
ghost use Rattle.unftp_control_login.specs.CallsOf.{failures_of};
ghost use Rattle.unftp_control_login.specs.GateState.{asked_gate, gate_snapshot, gated};
ghost use Rattle.unftp_control_login.specs.Promises.{MembersAlone};
ghost use Rattle.unftp_control_serve.specs.Service.{AreReadBack, ServeEnded, Serves};
ghost use Rattle.unftp_control_serve.specs.Writing.{HasWritten, output_state_of};
ghost use Rattle.login_demo.specs.Guarded.{failures_of_files, first_gate, guarded_law, state_of_files};

mod accounts;
mod examples;
mod facts;
mod files;
mod laws;
mod paths;
mod session;
mod standing;
mod tree;

use crate::accounts::{Account, Table};
use crate::files::Files;
use std::alloc::Global;
use std::io::{Read, Write};
use std::process::ExitCode;
use unftp_control_login::{Accounts, Gate, LoginLimit, serve_members};
use unftp_control_serve::{Input, Output, ServeError, Served};

/// How many bytes a line may have, its line feed counted.
const LIMIT: usize = 4096;

/// How many logins may fail; the last of them ends the session.
const FAILED_LOGINS: u32 = 3;

/// Who may log in.
const ACCOUNTS: &[Account] = &[
    Account {
        name: "anna",
        password: "secret",
    },
    Account {
        name: "ben",
        password: "other",
    },
];

/// A gate before the first event, behind which who has logged in finds the tree.
pub fn files_gate<A: Accounts>(accounts: A) -> Gate<A, Files>
    // The gate is before its first event, with these accounts, and at most three logins may fail.
    ensures state { gated A.accepts state_of_files result ≡ first_gate (A.accepts accounts) }
    // The accounts have not been asked.
    ensures asked { result.accounts.questions ≡ [] }
    // The handler has not failed.
    ensures failures { failures_of failures_of_files result.inner ≡ 0 }
{
    let limit = LoginLimit::new(FAILED_LOGINS);
    Gate::new(accounts, Files::new()).with_limit(limit)
}

/// Answers the lines that the reader gives, until it gives no more, QUIT is answered, or too many
/// logins failed. Each reply is written whole and flushed before the next line is taken, and before
/// more is read.
pub fn run<R: Read, W: Write, A: Accounts>(
    alloc: Global,
    reader: &mut Input<R>,
    writer: &mut Output<W>,
    gate: &mut Gate<A, Files>,
) -> Result<Served, ServeError>
    // At `Ok` exactly the replies of the gate and its tree to the lines that the reads gave were
    // written, and the gate is in the state after them.
    ensures serves { IfOk result (Serves (Some LIMIT) guarded_law
        (gate_snapshot A.accepts state_of_files failures_of_files W.contents gate.old writer.old)
        (gate_snapshot A.accepts state_of_files failures_of_files W.contents gate.new writer.new)
        (input_state_of R.remaining reader.old) (input_state_of R.remaining reader.new)) }
    // A client reads these replies, and nothing else, where each of them is plain.
    ensures read_back { OnOk result (AreReadBack (Some LIMIT) guarded_law
        (asked_gate A.accepts state_of_files gate.old)
        (input_state_of R.remaining reader.old) (input_state_of R.remaining reader.new)) }
    // At `Ok`, where the gate was before its first event, a client reads a reply without failure to
    // a command that needs a login only after the accounts have accepted a name and its password.
    ensures members { IsClosed (gated A.accepts state_of_files gate.old)
        → OnOk result ((read written : Bytes)
        × HasRead (input_state_of R.remaining reader.old) (input_state_of R.remaining reader.new)
        read
        × HasWritten (output_state_of W.contents writer.old) (output_state_of W.contents writer.new)
        written
        × MembersAlone (Some LIMIT) (A.accepts gate.old.accounts.accounts) read written) }
    // At `Ok` the buffer has held at most the limit and one piece: 8,192 bytes.
    ensures bound { IfOk result (λ served. served.held ≤ LIMIT + 4096) }
    // At an error the call leaves what `serve_with_limit` leaves, for the caller's gate.
    ensures err { IfErr result (ServeEnded (Some LIMIT) guarded_law
        (gate_snapshot A.accepts state_of_files failures_of_files W.contents gate.old writer.old)
        (gate_snapshot A.accepts state_of_files failures_of_files W.contents gate.new writer.new)
        (input_state_of R.remaining reader.old) (input_state_of R.remaining reader.new)) }
{
    laws::files_replies_are_plain();
    serve_members(alloc, LIMIT, reader, writer, gate)
}

fn main(rt: HostRuntime) -> ExitCode {
    if let Err(cause) = print!(rt; "220 Ready\r\n") {
        let _ = eprintln!(rt; "login_demo: writing failed: {cause}");
        return ExitCode::FAILURE;
    }
    let mut reader = Input::new(rt.stdin());
    let mut writer = Output::new(rt.stdout());
    let mut gate = files_gate(Table { accounts: ACCOUNTS });
    match run(rt.alloc(), &mut reader, &mut writer, &mut gate) {
        Ok(_) => ExitCode::SUCCESS,
        Err(error) => {
            let _ = match &error {
                ServeError::Read(cause) | ServeError::Write(cause) => {
                    eprintln!(rt; "login_demo: {error}: {cause}")
                }
                _ => eprintln!(rt; "login_demo: {error}"),
            };
            ExitCode::FAILURE
        }
    }
}
