//! A connection whose commands come under TLS, after AUTH in clear text (RFC 4217, section 4).
ghost use Rattle.std.specs.Prelude.{◌≡◌, ℕ, Bool, Some, false, IfErr, IfOk};
ghost use Rattle.unftp_control_login.specs.SessionState.{snapshot};
ghost use Rattle.example_callers.specs.UntilTls.{BeginsTls, LeavesStream, is_auth_tls, until_tls};
ghost use Rattle.unftp_control_serve.specs.EventMeaning.{event_meant};
ghost use Rattle.unftp_control_defs.specs.Input.{input_state_of};
ghost use Rattle.unftp_control_serve.specs.Service.{ServeEnded};
ghost use Rattle.unftp_control_serve.specs.Writing.{output_state_of};
ghost use Rattle.unftp_control_defs.specs.Run.{as_session};

use std::alloc::Global;
use std::io::{Read, Write};
use unftp_control_message::reply::error::ControlChanError;
use unftp_control_message::reply::{Reply, ReplyCode};
use unftp_control_message::{AuthParam, Command};
use unftp_control_serve::{Count, Event, Handler, Input, Output, ServeError, serve_with_limit};

/// Asks for AUTH TLS, and is done once it has answered it.
#[derive(Drop)]
struct UntilTls {
    is_done: bool,
    failures: Count,
}

impl Handler for UntilTls {
    ghost State = { Bool };

    ghost state = { λ until_tls. until_tls.is_done };

    ghost law = { until_tls };

    ghost failures = { λ until_tls. until_tls.failures };

    fn handle(&mut self, alloc: Global, event: Event) -> Result<Reply, ControlChanError> {
        self.is_done = is_auth_tls(&event);
        drop(event);
        let answer = if self.is_done {
            Reply::new(alloc, ReplyCode::AuthOkayNoDataNeeded, "Upgrading to TLS")
        } else {
            Reply::new(alloc, ReplyCode::NotLoggedIn, "Begin with AUTH TLS")
        };
        if answer.is_err() {
            self.failures.raise();
        }
        answer
    }

    fn done(&self) -> bool {
        self.is_done
    }
}

/// Whether the event is AUTH TLS.
fn is_auth_tls(event: &Event) -> bool
    ensures { result ≡ is_auth_tls (event_meant event.now) }
{
    matches!(
        event,
        Event::Command(Command::Auth {
            protocol: AuthParam::Tls,
        })
    )
}

/// The most bytes of a line, its line feed counted.
const LINE_LIMIT: usize = 512;

/// Serves a connection in clear text up to AUTH TLS, and returns whether TLS begins: whether the
/// client came so far, and nothing of what it sent after AUTH was read. The reader then has yet to
/// give the first byte of TLS. The session under TLS is a new engine's.
///
/// Bytes that came after AUTH in clear text must not be taken for commands under TLS: where some
/// were read with it, the answer is `false`, and the connection has to be closed.
pub fn serve_until_tls<R: Read, W: Write>(
    alloc: Global,
    input: &mut Input<R>,
    output: &mut Output<W>,
) -> Result<bool, ServeError>
    // Of any two streams: exactly the replies to what was read were written, and where TLS begins,
    // nothing was read after AUTH's line.
    ensures stream { IfOk result (LeavesStream
        (output_state_of W.contents output.old) (output_state_of W.contents output.new)
        (input_state_of R.remaining input.old) (input_state_of R.remaining input.new)) }
    // nothing is read after the piece with AUTH TLS; TLS begins where no byte came after it there
    ensures tls { IfOk result (BeginsTls
        (output_state_of W.contents output.old) (output_state_of W.contents output.new)
        (input_state_of R.remaining input.old) (input_state_of R.remaining input.new)) }
    // and at an error all that `serve_with_limit` says
    ensures err { IfErr result (λ error. (is_done : Bool) × (failures : ℕ)
        × ServeEnded (Some 512) (as_session until_tls)
        (snapshot false 0 (output_state_of W.contents output.old))
        (snapshot is_done failures (output_state_of W.contents output.new))
        (input_state_of R.remaining input.old) (input_state_of R.remaining input.new) error) }
{
    let mut until_tls = UntilTls {
        is_done: false,
        failures: Count::new(),
    };
    let served = serve_with_limit(alloc, LINE_LIMIT, input, output, &mut until_tls)?;
    Ok(served.done && served.left == 0)
}
