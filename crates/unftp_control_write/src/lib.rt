//! Writes the line that a command is sent as, and the one that a client's line is forwarded as.
#![tactic(auto)]

ghost use Rattle.std.specs.Prelude.{◌≡◌, ◌++◌, Ok, Err, OnOk, OnErr, IfErr};
ghost use Rattle.unftp_control_message.specs.CommandMeaning.{command_of};
ghost use Rattle.unftp_control_defs.specs.Canonical.{HasLine, canonical_line};
ghost use Rattle.unftp_control_defs.specs.Lines.{IsLine};
ghost use Rattle.unftp_control_defs.specs.Outcome.{outcome};
ghost use Rattle.unftp_control_defs.specs.Room.{LacksRoom};

mod canonical;
mod clear;
mod forwarding;
mod line;

use crate::canonical::line_of;
pub use clear::is_clear;
pub use forwarding::{ForwardError, forward, is_line, without_end};
use itoa::Buffer;
use thiserror::Error;
use unftp_control_message::Command;

/// Why no line is written.
#[derive(Debug, Drop, Error)]
pub enum WriteCommandError {
    /// No line whose one line feed is its last byte is read as this command.
    #[error("no line gives this command")]
    NoLine,
    /// An allocation failed.
    #[error("out of memory")]
    OutOfMemory,
}

/// Appends the canonical line of the command, with its CR LF, to `buf` and changes no earlier byte
/// (RFC 959, section 5.3). The line is read back as the command: verbs and names are in upper case,
/// each CR of a text is sent as CR NUL (RFC 854), and a path of LIST that begins with a dash
/// follows `-- `. That of PASS has the password's bytes.
///
/// It is refused with `NoLine` where no line is read as this command, as one with an empty path or
/// with a line feed in a text, and for that no memory is asked for; and with `OutOfMemory` where
/// the buffer has no room for the line and can't grow, which it does once at most. `buf` is then as
/// it was.
pub fn write_command(command: &Command, buf: &mut Vec<u8>) -> Result<(), WriteCommandError>
    // At `Ok` exactly the canonical line of the command is appended.
    ensures ok { OnOk result
        (buf.new.items ≡ buf.old.items ++ canonical_line (command_of command.now)) }
    // At `Ok` this line has one line feed, its last byte.
    ensures line { OnOk result (IsLine (canonical_line (command_of command.now))) }
    // At `Ok` this line means the command.
    ensures read_back { OnOk result
        (outcome (canonical_line (command_of command.now)) ≡ Ok (command_of command.now)) }
    // At an error the buffer holds what it held.
    ensures err { OnErr result (buf.new.items ≡ buf.old.items) }
    // Where the command has a line, an error is out of memory, and comes only where the buffer
    // lacks room for the canonical line.
    ensures has_line { HasLine (command_of command.now)
        → IfErr result (λ error. (error ≡ WriteCommandError.OutOfMemory)
        × LacksRoom buf.old (canonical_line (command_of command.now))) }
    // Out of memory comes only where the command has a line.
    ensures memory { result ≡ Err WriteCommandError.OutOfMemory → HasLine (command_of command.now) }
    // `NoLine` comes wherever the command has no line.
    ensures no_line { ¬ HasLine (command_of command.now) → result ≡ Err WriteCommandError.NoLine }
{
    let mut digits = Buffer::new();
    let Some(line) = line_of(command, &mut digits) else {
        return Err(WriteCommandError::NoLine);
    };
    let length = buf.len();
    if line.append(buf).is_err() {
        buf.truncate(length);
        return Err(WriteCommandError::OutOfMemory);
    }
    Ok(())
}
