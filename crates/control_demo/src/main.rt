//! Serves one control connection over standard input and output: each line is answered when it is
//! complete, up to QUIT.
//!
//! Both have to block: where one doesn't, a read or a write fails when nothing can be read or
//! written. A failed one ends the program with status 1 and a line on standard error that names the
//! error.
#![tactic(auto)]

ghost use Rattle.std.specs.Prelude.{Bool, ℕ, None, false, IfErr, IfOk, OnOk};
ghost use Rattle.unftp_control_defs.specs.Input.{input_state_of};
ghost use Rattle.unftp_control_serve.specs.Service.{AreReadBack, ServeEnded, Serves};
ghost use Rattle.unftp_control_serve.specs.Writing.{output_state_of};
ghost use Rattle.control_demo.specs.Responses.{responses_law};
ghost use Rattle.unftp_control_defs.specs.Run.{as_session};

mod responses;

use responses::Responses;
use std::alloc::Global;
use std::io::{Read, Write};
use std::process::ExitCode;
use unftp_control_serve::{Input, Output, ServeError, Served, serve};

/// Answers the lines that the reader gives, until it gives no more or QUIT is answered. Each reply
/// is written whole and flushed before the next line is taken, and before more is read.
pub fn run<R: Read, W: Write>(
    alloc: Global,
    reader: &mut Input<R>,
    writer: &mut Output<W>,
) -> Result<Served, ServeError>
    // At `Ok`, over any streams, exactly the replies to the lines that the reads gave were written
    // and flushed, up to QUIT.
    ensures serves { IfOk result (λ served. (quit : Bool) × (failures : ℕ)
        × Serves None (as_session responses_law)
        (record { state = false; failures = 0; output = output_state_of W.contents writer.old })
        (record {
          state = quit;
          failures = failures;
          output = output_state_of W.contents writer.new;
        })
        (input_state_of R.remaining reader.old)
        (input_state_of R.remaining reader.new) served) }
    // A client reads these replies, and nothing else, where each of them is plain.
    ensures read_back { OnOk result (AreReadBack None (as_session responses_law) false
        (input_state_of R.remaining reader.old) (input_state_of R.remaining reader.new)) }
    // At an error the call leaves what `serve` leaves, for some last state of the handler and some
    // count of its failures.
    ensures err { IfErr result (λ error. (quit : Bool) × (failures : ℕ)
        × ServeEnded None (as_session responses_law)
        (record { state = false; failures = 0; output = output_state_of W.contents writer.old })
        (record {
          state = quit;
          failures = failures;
          output = output_state_of W.contents writer.new;
        })
        (input_state_of R.remaining reader.old)
        (input_state_of R.remaining reader.new) error) }
{
    serve(alloc, reader, writer, &mut Responses::new())
}

fn main(rt: HostRuntime) -> ExitCode {
    let mut reader = Input::new(rt.stdin());
    let mut writer = Output::new(rt.stdout());
    match run(rt.alloc(), &mut reader, &mut writer) {
        Ok(_) => ExitCode::SUCCESS,
        Err(error) => {
            let _ = match &error {
                ServeError::Read(cause) | ServeError::Write(cause) => {
                    eprintln!(rt; "control_demo: {error}: {cause}")
                }
                _ => eprintln!(rt; "control_demo: {error}"),
            };
            ExitCode::FAILURE
        }
    }
}
