//! The usual replies: what a server answers to a command for which it does nothing.
ghost use Rattle.std.specs.Prelude.{◌≡◌, ◌≤◌, ℕ, [], length, unwrap_or};
ghost use Rattle.unftp_control_defs.specs.FtpCommand.{FtpCommand, said};
ghost use Rattle.unftp_control_defs.specs.Bytes.{Bytes};
ghost use Rattle.unftp_control_defs.specs.FtpReply.{CodeAndMsg, IsReadable, encoded};
ghost use Rattle.unftp_control_defs.specs.Said.{command_number, value_bytes};
ghost use Rattle.unftp_control_message.specs.ReplyMeaning.{number_of};
ghost use Rattle.unftp_control_commands.specs.UsualReplies.{command_reply, needs_tls, reply_by_number, reply_by_value};

use crate::auth::NO_TLS;
use crate::mode::{mode_line, mode_of};
use crate::opts::{option_of, opts_line};
use crate::stru::{stru_line, structure_of};
use unftp_control_defs::verb::Verb;
use unftp_control_message::reply::ReplyCode;

/// The code and the text of the usual reply to a command, by the number of its verb and by its
/// value. A server without TLS answers so each command that it doesn't have.
pub fn usual_line(number: u32, value: &[u8]) -> (ReplyCode, &'static str)
    // The code and the text are those of the definition's reply by this number and this value.
    ensures { CodeAndMsg (number_of result.0) result.1.now ≡ reply_by_number number value.now }
{
    match number {
        _ if number == Verb::Noop.number() => (ReplyCode::CommandOkay, "OK"),
        _ if number == Verb::Quit.number() => (ReplyCode::ClosingControlConnection, "Bye"),
        _ if number == Verb::Help.number() => (ReplyCode::HelpMessage, "This is an FTP server"),
        _ if number == Verb::Syst.number() => (ReplyCode::SystemType, "UNIX Type: L8"),
        _ if number == Verb::Acct.number() => (
            ReplyCode::CommandOkayNotImplemented,
            "No account is needed",
        ),
        _ if number == Verb::Allo.number() => (
            ReplyCode::CommandOkayNotImplemented,
            "No storage has to be allocated",
        ),
        _ if number == Verb::TypeCode.number() => (
            ReplyCode::CommandNotImplementedForParameter,
            "The representation type stays as it is",
        ),
        _ if needs_tls(number) => (ReplyCode::CommandNotImplemented, NO_TLS),
        _ => line_by_value(number, value),
    }
}

/// Whether it is a command of TLS, by the number of its verb.
fn needs_tls(number: u32) -> bool
    ensures { result ≡ needs_tls number }
{
    number == Verb::Auth.number()
        || number == Verb::Prot.number()
        || number == Verb::Pbsz.number()
        || number == Verb::Ccc.number()
}

/// The code and the text of the reply to STRU, MODE and OPTS, by the value, and to any other
/// command that the server doesn't have.
fn line_by_value(number: u32, value: &[u8]) -> (ReplyCode, &'static str)
    ensures { CodeAndMsg (number_of result.0) result.1.now ≡ reply_by_value number value.now }
{
    match number {
        _ if number == Verb::Stru.number() => stru_line(&structure_of(value)),
        _ if number == Verb::Mode.number() => mode_line(&mode_of(value)),
        _ if number == Verb::Opts.number() => opts_line(&option_of(value)),
        _ => (ReplyCode::CommandNotImplemented, "Not implemented"),
    }
}

/// The usual reply to a command is the one by the number of its verb and by its value. It is short
/// and readable.
pub fn usual_lines_are_of_commands()
    // The reply by the number of a command's verb and by its value, empty where it has none, is the
    // usual reply to the command.
    ensures commands { (command : FtpCommand) → reply_by_number (command_number command)
        (unwrap_or (value_bytes (said command).value) []) ≡ command_reply command }
    // The reply has at most 64 bytes on the connection, for every number and value.
    ensures short { (n : ℕ) (value : Bytes) → length (encoded (reply_by_number n value)) ≤ 64 }
    // The reply is sent, and a client reads it back as it is, for every number and value.
    ensures readable { (n : ℕ) (value : Bytes) → IsReadable (reply_by_number n value) }
{}
