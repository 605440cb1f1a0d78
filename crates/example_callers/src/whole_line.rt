//! A server that serves what the grammar drops of a line: the type of TYPE, EPSV ALL, and the facts
//! of OPTS MLST. Its data connections are left out: only EPSV is not implemented.
ghost use Rattle.std.specs.Prelude.{◌≡◌, ◌↔◌, false, true, IfErr, IfOk, IsTrue, OnErr};
ghost use Rattle.unftp_control_serve.specs.Decoder.{FindsNoLine};
ghost use Rattle.unftp_control_message.specs.ErrorMeaning.{fault_of};
ghost use Rattle.unftp_control_serve.specs.EventMeaning.{event_meant};
ghost use Rattle.unftp_control_defs.specs.Events.{out_of_memory};
ghost use Rattle.unftp_control_defs.specs.FtpReply.{CodeAndMsg};
ghost use Rattle.unftp_control_message.specs.ReplyMeaning.{number_of};
ghost use Rattle.example_callers.specs.EventLoop.{LeavesUnanswered};
ghost use Rattle.example_callers.specs.WholeLine.{AnswersLine, AsksFor, SaysOneOf, modes_after, line_reply};

use crate::event_loop::reply;
use crate::fact_list::{Facts, facts_asked, facts_text};
use std::alloc::Global;
use unftp_control_message::Command;
use unftp_control_message::reply::ReplyCode;
use unftp_control_message::reply::error::ControlChanError;
use unftp_control_serve::{Event, EventDecoder};

/// What a line asks beside its command.
#[derive(Clone, Copy, Debug, PartialEq, Eq)]
pub enum Asked {
    /// Text, as TYPE A does.
    Ascii,
    /// Bytes as they are, as TYPE I does.
    Image,
    /// No data connections but those of EPSV, as EPSV ALL does.
    EpsvOnly,
    /// Only these facts in listings, as OPTS MLST does.
    FactsOnly(Facts),
    /// None of these.
    Nothing,
}

/// What the client has asked for so far.
#[derive(Clone, Copy, Debug, PartialEq, Eq)]
pub struct Modes {
    /// Whether data are bytes as they are.
    pub image: bool,
    /// Whether data connections are those of EPSV only.
    pub epsv_only: bool,
    /// The facts that listings have.
    pub facts: Facts,
}

/// Whether the text is one of these, whatever the case of its letters.
fn says_one_of(text: &[u8], words: &[u8], others: &[u8]) -> bool
    ensures { IsTrue result ↔ SaysOneOf text.now words.now others.now }
{
    text.eq_ignore_ascii_case(words) || text.eq_ignore_ascii_case(others)
}

/// What the text asks, whatever the case of its letters.
fn asked_by(text: &[u8]) -> Asked
    ensures { AsksFor text.now result }
{
    if says_one_of(text, b"TYPE A", b"TYPE A N") {
        Asked::Ascii
    } else if says_one_of(text, b"TYPE I", b"TYPE L 8") {
        Asked::Image
    } else if text.eq_ignore_ascii_case(b"EPSV ALL") {
        Asked::EpsvOnly
    } else if let Some(facts) = facts_asked(text) {
        Asked::FactsOnly(facts)
    } else {
        Asked::Nothing
    }
}

/// The reply to an event whose line asks this; the modes change as it says.
fn agree(modes: &mut Modes, event: &Event, asked: Asked) -> (ReplyCode, &'static str)
    ensures reply { CodeAndMsg (number_of result.0) result.1.now
        ≡ line_reply modes.old.epsv_only (event_meant event.now) asked }
    ensures modes { modes.new ≡ modes_after modes.old (event_meant event.now) asked }
{
    match (event, asked) {
        (Event::Command(Command::TypeCode), Asked::Ascii) => {
            modes.image = false;
            (ReplyCode::CommandOkay, "Type is A")
        }
        (Event::Command(Command::TypeCode), Asked::Image) => {
            modes.image = true;
            (ReplyCode::CommandOkay, "Type is I")
        }
        (Event::Command(Command::TypeCode), _) => {
            (ReplyCode::CommandNotImplementedForParameter, "No such type")
        }
        (Event::Command(Command::Epsv), Asked::EpsvOnly) => {
            modes.epsv_only = true;
            (ReplyCode::CommandOkay, "EPSV only")
        }
        (Event::Command(Command::Pasv | Command::Port { .. }), _) if modes.epsv_only => {
            (ReplyCode::BadCommandSequence, "EPSV only")
        }
        (Event::Refused(_), Asked::FactsOnly(facts)) => {
            modes.facts = facts;
            (ReplyCode::CommandOkay, facts_text(facts))
        }
        (Event::Command(_), _) => (ReplyCode::CommandNotImplemented, "Not here"),
        (Event::Refused(_), _) => (ReplyCode::CommandSyntaxError, "Not understood"),
    }
}

/// Answers the next event by what its line asks, and remembers that; whether there was one.
///
/// It fails only when out of memory: nothing is appended then, and the modes are as before; the
/// line stays, or is taken and not answered.
#[tactic(auto, using(crate::proofs::EventLoopLemmas::left_unanswered))]
pub fn answer_line(
    alloc: Global,
    decoder: &mut EventDecoder,
    modes: &mut Modes,
    out: &mut Vec<u8>,
) -> Result<bool, ControlChanError>
    ensures none { IfOk result (λ more. more ≡ false → FindsNoLine decoder.old decoder.new
        × (modes.new ≡ modes.old) × (out.new.items ≡ out.old.items)) }
    ensures line { IfOk result (λ more. (more ≡ true) → AnswersLine
        decoder.old modes.old out.old.items decoder.new modes.new out.new.items) }
    ensures err { OnErr result ((modes.new ≡ modes.old)
        × LeavesUnanswered decoder.old out.old.items decoder.new out.new.items) }
    ensures memory { IfErr result (λ error. fault_of error ≡ out_of_memory) }
    ensures limit { decoder.new.limit ≡ decoder.old.limit }
{
    let Some(event) = decoder.next_event()? else {
        return Ok(false);
    };
    let asked = asked_by(decoder.line().trim_ascii_end());
    let mut now = *modes;
    let (code, text) = agree(&mut now, &event, asked);
    drop(event);
    reply(alloc, out, code, text)?;
    *modes = now;
    Ok(true)
}
