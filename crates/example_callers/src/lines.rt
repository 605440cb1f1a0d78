//! What a log shows of a line.
ghost use Rattle.std.specs.Prelude.{◌≡◌, ◌⊎◌, ◌++◌, IfOk, OnErr, OnOk};
ghost use Rattle.unftp_control_serve.specs.EventMeaning.{event_meant};
ghost use Rattle.unftp_control_defs.specs.Events.{event_of};
ghost use Rattle.unftp_control_log.specs.LogLine.{log_line};
ghost use Rattle.unftp_control_codecs.specs.Memory.{MayTakeMemory};
ghost use Rattle.unftp_control_defs.specs.Outcome.{outcome};
ghost use Rattle.unftp_control_defs.specs.Room.{LacksRoom};

use std::alloc::{AllocError, Global};
use unftp_control_codecs::line_parser::{ParseErrorKind, parse};
use unftp_control_log::write_log_line;
use unftp_control_serve::Event;

/// The event of a line.
fn event_of(alloc: Global, line: &[u8]) -> Result<Event, AllocError>
    ensures ok { IfOk result (λ event. event_meant event ≡ event_of (outcome line.now)) }
    ensures err { OnErr result (MayTakeMemory line.now) }
{
    match parse(alloc, line) {
        Ok(command) => Ok(Event::Command(command)),
        Err(refusal) => match refusal.kind() {
            ParseErrorKind::OutOfMemory => Err(AllocError),
            ParseErrorKind::InvalidCommand
            | ParseErrorKind::InvalidUtf8
            | ParseErrorKind::InvalidEol => Ok(Event::Refused(refusal.into())),
        },
    }
}

/// Appends to a log what a client's line says, without a line end: its command, with asterisks for
/// a password or an account, or why it is refused. It takes memory for the texts of the command,
/// and for what `log` has no room for. When out of memory, nothing is appended.
pub fn log_line(alloc: Global, line: &[u8], log: &mut Vec<u8>) -> Result<(), AllocError>
    ensures ok { OnOk result
        (log.new.items ≡ log.old.items ++ log_line (event_of (outcome line.now)) line.now) }
    ensures err { OnErr result (log.new.items ≡ log.old.items) }
    // it runs out of memory only where the line's command holds bytes, or the log lacks room
    ensures memory { OnErr result (MayTakeMemory line.now
        ⊎ LacksRoom log.old (log_line (event_of (outcome line.now)) line.now)) }
{
    let event = event_of(alloc, line)?;
    let logged = write_log_line(&event, line, log);
    drop(event);
    logged
}
