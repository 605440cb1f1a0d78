//! A server with an event loop of its own: it pushes what it has read, takes one event at a time,
//! and sends what it likes before it takes the next.
ghost use Rattle.std.specs.Prelude.{◌≡◌, ◌++◌, flat_map, IfErr, IfOk, OnErr, OnOk};
ghost use Rattle.unftp_control_message.specs.CommandMeaning.{command_of};
ghost use Rattle.unftp_control_message.specs.ErrorMeaning.{fault_of};
ghost use Rattle.unftp_control_serve.specs.EventMeaning.{event_meant};
ghost use Rattle.unftp_control_defs.specs.Events.{Command as CommandEvent, out_of_memory};
ghost use Rattle.unftp_control_defs.specs.FtpReply.{CodeAndMsg, encoded};
ghost use Rattle.unftp_control_message.specs.ReplyMeaning.{number_of};
ghost use Rattle.unftp_control_serve.specs.Writing.{Begins};
ghost use Rattle.example_callers.specs.EventLoop.{AnswersNext, LeavesUnanswered, loop_replies, turn_after};

use std::alloc::Global;
use unftp_control_codecs::encode_reply;
use unftp_control_message::AuthParam::Tls;
use unftp_control_message::Command;
use unftp_control_message::reply::error::ControlChanError;
use unftp_control_message::reply::{Reply, ReplyCode};
use unftp_control_serve::{Event, EventDecoder};

/// What the server does next.
#[derive(Clone, Copy, Debug, PartialEq, Eq)]
pub enum Turn {
    /// It sends what there is, and reads on: no line is complete.
    Read,
    /// It takes the next event.
    GoOn,
    /// It sends what there is, and closes the connection.
    Close,
    /// It sends what there is, and begins TLS.
    StartTls,
}

/// Appends a reply to what is to be sent.
pub(crate) fn reply(
    alloc: Global,
    out: &mut Vec<u8>,
    code: ReplyCode,
    text: &str,
) -> Result<(), ControlChanError>
    ensures ok { OnOk result
        (out.new.items ≡ out.old.items ++ encoded (CodeAndMsg (number_of code) text.now)) }
    ensures err { OnErr result (out.new.items ≡ out.old.items) }
    ensures memory { IfErr result (λ error. fault_of error ≡ out_of_memory) }
{
    encode_reply(&Reply::new(alloc, code, text)?, out)
}

/// What the server does after an event, where these bytes come after its line.
fn turn_after(event: &Event, following: &[u8]) -> Turn
    ensures { result ≡ turn_after (event_meant event.now) following.now }
{
    match event {
        Event::Command(Command::Quit) => Turn::Close,
        Event::Command(Command::Auth { protocol: Tls }) if following.is_empty() => Turn::StartTls,
        _ => Turn::GoOn,
    }
}

/// Appends the replies to a command, or the first of them when out of memory.
fn reply_to_command(
    alloc: Global,
    command: &Command,
    following: &[u8],
    out: &mut Vec<u8>,
) -> Result<(), ControlChanError>
    ensures ok { OnOk result (out.new.items ≡ out.old.items
        ++ flat_map encoded (loop_replies (CommandEvent (command_of command.now)) following.now)) }
    ensures err { OnErr result (Begins out.new.items out.old.items) }
    ensures memory { IfErr result (λ error. fault_of error ≡ out_of_memory) }
{
    match command {
        Command::Retr { .. } => {
            reply(alloc, out, ReplyCode::FileStatusOkay, "Sending data")?;
            reply(alloc, out, ReplyCode::ClosingDataConnection, "Sent")
        }
        Command::Quit => reply(alloc, out, ReplyCode::ClosingControlConnection, "Bye"),
        Command::Auth { protocol: Tls } if following.is_empty() => {
            reply(alloc, out, ReplyCode::AuthOkayNoDataNeeded, "Begin TLS")
        }
        _ => reply(alloc, out, ReplyCode::CommandNotImplemented, "Not here"),
    }
}

/// Appends the replies to an event, or the first of them when out of memory.
fn reply_to(
    alloc: Global,
    event: &Event,
    following: &[u8],
    out: &mut Vec<u8>,
) -> Result<(), ControlChanError>
    ensures ok { OnOk result (out.new.items
        ≡ out.old.items ++ flat_map encoded (loop_replies (event_meant event.now) following.now)) }
    ensures err { OnErr result (Begins out.new.items out.old.items) }
    ensures memory { IfErr result (λ error. fault_of error ≡ out_of_memory) }
{
    match event {
        Event::Command(command) => reply_to_command(alloc, command, following, out),
        Event::Refused(_) => reply(alloc, out, ReplyCode::CommandSyntaxError, "Not understood"),
    }
}

/// Answers the next event: RETR by two replies, QUIT and AUTH TLS by the last one. After AUTH the
/// server must find nothing pending before it begins TLS: bytes that came in clear text are not
/// taken for commands under TLS (RFC 4217).
///
/// It fails only when out of memory, and has then appended nothing.
#[tactic(auto, using(crate::proofs::EventLoopLemmas::left_unanswered))]
pub fn answer_next(
    alloc: Global,
    decoder: &mut EventDecoder,
    out: &mut Vec<u8>,
) -> Result<Turn, ControlChanError>
    // replies and turn are those of the table, and it reads on only where no line is pending
    ensures ok { IfOk result (λ turn.
        AnswersNext decoder.old out.old.items turn decoder.new out.new.items) }
    ensures err { OnErr result
        (LeavesUnanswered decoder.old out.old.items decoder.new out.new.items) }
    ensures memory { IfErr result (λ error. fault_of error ≡ out_of_memory) }
    ensures limit { decoder.new.limit ≡ decoder.old.limit }
{
    let Some(event) = decoder.next_event()? else {
        return Ok(Turn::Read);
    };
    let length = out.len();
    let answer = reply_to(alloc, &event, decoder.pending(), out);
    let turn = turn_after(&event, decoder.pending());
    drop(event);
    if let Err(error) = answer {
        out.truncate(length);
        return Err(error);
    }
    if let Turn::Close = turn {
        decoder.clear();
    }
    Ok(turn)
}
