//! The usual replies to events, and those of a login.
ghost use Rattle.std.specs.Prelude.{◌≡◌, nat_lt, option_map};
ghost use Rattle.unftp_control_defs.specs.FtpReply.{CodeAndMsg};
ghost use Rattle.unftp_control_message.specs.ReplyMeaning.{number_of};
ghost use Rattle.unftp_control_c.specs.Areas.{written};
ghost use Rattle.unftp_control_c.specs.NumberedReplies.{encoded_or_invalid, event_reply, is_command_number, login_bytes, refusal_by_number, step_of, step_reply, usual_bytes};

use crate::reply::write_line;
use crate::status::Status;
use unftp_control_commands::usual_line;
use unftp_control_defs::verb::Verb;
use unftp_control_login::LoginStep;
use unftp_control_message::reply::ReplyCode;

/// The usual reply to an event: `unftp_usual_reply` of include/unftp_control.h.
#[unsafe(no_mangle)]
pub extern "C" fn unftp_usual_reply(
    event: u32,
    value: &[u8],
    out: &mut [u8],
    len: &mut usize,
) -> u32
    // The usual reply by this number and value is written, or `out` is unchanged and the result
    // reports why: an invalid argument, or no room.
    ensures { record { result = result; area = out.new; text_length = len.new }
        ≡ written (usual_bytes event value.now) out.old }
{
    write_if_any(event_line(event, value), out, len)
}

/// The reply at a step of a login: `unftp_login_reply` of include/unftp_control.h.
#[unsafe(no_mangle)]
pub extern "C" fn unftp_login_reply(
    step: u32,
    accepted: u32,
    out: &mut [u8],
    len: &mut usize,
) -> u32
    // The gate's reply at this step is written, or `out` is unchanged and the result reports why:
    // an invalid argument, or no room.
    ensures { record { result = result; area = out.new; text_length = len.new }
        ≡ written (login_bytes step accepted) out.old }
{
    write_if_any(step_line(step_of(step), accepted > 0), out, len)
}

/// Writes the reply of this code and text to the start of the area, where it has room for it, and
/// reports how long it is: the number of what has come of it.
fn write_if_any(line: Option<(ReplyCode, &'static str)>, area: &mut [u8], len: &mut usize) -> u32
    ensures { record { result = result; area = area.new; text_length = len.new }
        ≡ written (encoded_or_invalid (option_map
        (λ line. CodeAndMsg (number_of line.0) line.1.now) line.entry)) area.old }
{
    let Some((code, text)) = line else {
        *len = 0;
        return Status::InvalidArgument.number();
    };
    write_line(code.number(), text.as_bytes(), area, len)
}

/// The code and the text of the usual reply to an event, by its number and its value.
fn event_line(event: u32, value: &[u8]) -> Option<(ReplyCode, &'static str)>
    ensures { option_map (λ line. CodeAndMsg (number_of line.0) line.1.now) result
        ≡ event_reply event value.now }
{
    if is_command_number(event) {
        return Some(usual_line(event, value));
    }
    refusal_line(event)
}

/// Whether it is the number of a command.
fn is_command_number(event: u32) -> bool
    ensures { result ≡ is_command_number event }
{
    Verb::User.number() <= event && event <= Verb::Other.number()
}

/// The code and the text of the reply to a line that is refused, or for which memory ran out.
fn refusal_line(event: u32) -> Option<(ReplyCode, &'static str)>
    ensures { option_map (λ line. CodeAndMsg (number_of line.0) line.1.now) result
        ≡ refusal_by_number event }
{
    Some(match event {
        _ if event == Status::InvalidCommand.number() => {
            (ReplyCode::ParameterSyntaxError, "Invalid parameter")
        }
        _ if event == Status::InvalidUtf8.number() => {
            (ReplyCode::CommandSyntaxError, "The command is not UTF-8")
        }
        _ if event == Status::InvalidEol.number() => {
            (ReplyCode::CommandSyntaxError, "Invalid line ending")
        }
        _ if event == Status::LineTooLong.number() => {
            (ReplyCode::CommandSyntaxError, "Line too long")
        }
        _ if event == Status::OutOfMemory.number() => {
            (ReplyCode::ServiceNotAvailable, "Out of memory")
        }
        _ => return None,
    })
}

/// The step of a number; at any other the event is passed on.
fn step_of(number: u32) -> LoginStep
    ensures { result ≡ step_of number }
{
    match number {
        1 => LoginStep::NeedPassword,
        2 => LoginStep::AskAccounts,
        3 => LoginStep::NeedName,
        4 => LoginStep::NeedLogin,
        _ => LoginStep::PassOn,
    }
}

/// The code and the text of the reply at a step, those of the gate in Rattle.
fn step_line(step: LoginStep, accepted: bool) -> Option<(ReplyCode, &'static str)>
    ensures { option_map (λ line. CodeAndMsg (number_of line.0) line.1.now) result
        ≡ step_reply step accepted }
{
    Some(match step {
        LoginStep::PassOn => return None,
        LoginStep::NeedPassword => (ReplyCode::NeedPassword, "User name okay, need password"),
        LoginStep::AskAccounts if accepted => {
            (ReplyCode::UserLoggedIn, "User logged in, proceed")
        }
        LoginStep::AskAccounts => (ReplyCode::NotLoggedIn, "Login incorrect"),
        LoginStep::NeedName => (ReplyCode::BadCommandSequence, "Send USER first"),
        LoginStep::NeedLogin => (ReplyCode::NotLoggedIn, "Log in with USER and PASS"),
    })
}
