//! What the handler answers.
ghost use Rattle.std.specs.Prelude.{◌≡◌, Bool, false, IfOk, IfErr, option_map, string_bytes};
ghost use Rattle.unftp_control_message.specs.CommandMeaning.{command_of};
ghost use Rattle.unftp_control_defs.specs.Events.{out_of_memory, Refused};
ghost use Rattle.unftp_control_defs.specs.FtpCommand.{Mlst as FtpMlst, Site as FtpSite};
ghost use Rattle.unftp_control_message.specs.ErrorMeaning.{fault_of};
ghost use Rattle.unftp_control_message.specs.ReplyMeaning.{reply_of};
ghost use Rattle.unftp_control_serve.specs.EventMeaning.{event_meant};
ghost use Rattle.control_demo.specs.Responses.{command_reply, event_reply, not_implemented, responses_law};

use std::alloc::Global;
use unftp_control_commands::{
    Auth, Epsv, Feat, Help, Mode, Opts, Passive, Prot, Stru, facts_reply,
};
use unftp_control_message::Command;
use unftp_control_message::reply::error::{ControlChanError, Source};
use unftp_control_message::reply::{Reply, ReplyCode};
use unftp_control_serve::{Count, Event, Handler};

/// The port that EPSV reports. It is not opened.
const PORT: u16 = 2121;

/// The facts of the one file that the handler knows (RFC 3659, section 7.5): it has 1,234 bytes,
/// and was last modified on 2023-12-01 at 12:00:00 UTC.
const FACTS: &str = "type=file;size=1234;modify=20231201120000;";

/// Answers each event by itself, and is done once QUIT came.
#[derive(Drop)]
pub struct Responses {
    quit: bool,
    failures: Count,
}

impl Responses {
    /// A handler to which no QUIT came, and which has not failed so far.
    pub fn new() -> Responses
        // No QUIT came.
        ensures quit { result.quit ≡ false }
        // It has not failed.
        ensures failures { result.failures ≡ 0 }
    {
        Responses {
            quit: false,
            failures: Count::new(),
        }
    }
}

impl Handler for Responses {
    ghost State = { Bool };

    ghost state = { λ responses. responses.quit };

    ghost law = { responses_law };

    ghost failures = { λ responses. responses.failures };

    fn handle(&mut self, alloc: Global, event: Event) -> Result<Reply, ControlChanError> {
        self.quit = self.quit || event.is_quit();
        let answer = answer_event(alloc, event);
        if answer.is_err() {
            self.failures.raise();
        }
        answer
    }

    fn done(&self) -> bool {
        self.quit
    }
}

/// The response to an event. It fails only when out of memory.
fn answer_event(alloc: Global, event: Event) -> Result<Reply, ControlChanError>
    ensures ok { IfOk result (λ reply. reply_of reply ≡ event_reply (event_meant event)) }
    ensures err { IfErr result (λ error. fault_of error ≡ out_of_memory) }
{
    match event {
        Event::Command(command) => answer_command(alloc, command),
        Event::Refused(error) => answer_refusal(alloc, error),
    }
}

/// The response to a command.
fn answer_command(alloc: Global, command: Command) -> Result<Reply, ControlChanError>
    ensures ok { IfOk result (λ reply. reply_of reply ≡ command_reply (command_of command)) }
    ensures err { IfErr result (λ error. fault_of error ≡ out_of_memory) }
{
    match command {
        Command::Auth { protocol } => Ok(Auth::new(protocol).reply(alloc, false)?.0),
        Command::Prot { param } => Ok(Prot::new(param).reply(alloc, false)?.0),
        Command::Feat => Feat.reply(alloc, false, false, false),
        Command::Epsv => Epsv::new().reply(alloc, Passive::Port(PORT)),
        Command::Help => Help.reply(alloc),
        Command::Mode { mode } => Mode::new(mode).reply(alloc),
        Command::Opts { option } => Opts::new(option).reply(alloc),
        Command::Stru { structure } => Stru::new(structure).reply(alloc),
        Command::Mlst { path } => answer_mlst(alloc, path),
        Command::Noop => Reply::new(alloc, ReplyCode::CommandOkay, "OK"),
        Command::Quit => Reply::new(alloc, ReplyCode::ClosingControlConnection, "Bye"),
        Command::Site { command, arguments } => answer_site(alloc, command, arguments),
        _ => not_implemented(alloc),
    }
}

/// The response to MLST.
fn answer_mlst(alloc: Global, path: Option<String>) -> Result<Reply, ControlChanError>
    ensures ok { IfOk result (λ reply.
        reply_of reply ≡ command_reply (FtpMlst (option_map string_bytes path))) }
    ensures err { IfErr result (λ error. fault_of error ≡ out_of_memory) }
{
    match &path {
        Some(path) => facts_reply(alloc, FACTS, path.as_str()),
        None => facts_reply(alloc, FACTS, "/"),
    }
}

/// The response to SITE.
fn answer_site(alloc: Global, command: String, arguments: String) -> Result<Reply, ControlChanError>
    ensures ok { IfOk result (λ reply.
        reply_of reply ≡ command_reply (FtpSite (string_bytes command) (string_bytes arguments))) }
    ensures err { IfErr result (λ error. fault_of error ≡ out_of_memory) }
{
    match command.as_str() {
        "ECHO" => Ok(Reply::new_with_string(ReplyCode::CommandOkay, arguments)),
        _ => not_implemented(alloc),
    }
}

/// The response to any other command.
fn not_implemented(alloc: Global) -> Result<Reply, ControlChanError>
    ensures ok { IfOk result (λ reply. reply_of reply ≡ not_implemented) }
    ensures err { IfErr result (λ error. fault_of error ≡ out_of_memory) }
{
    Reply::new(alloc, ReplyCode::CommandNotImplemented, "Not implemented")
}

/// The response to a line that is no command: why the parser refused it, or else the kind of the
/// error.
fn answer_refusal(alloc: Global, error: ControlChanError) -> Result<Reply, ControlChanError>
    ensures ok { IfOk result (λ reply. reply_of reply ≡ event_reply (Refused (fault_of error))) }
    ensures err { IfErr result (λ error. fault_of error ≡ out_of_memory) }
{
    let text = match error.source() {
        Source::Parse(parse) => format!(in alloc; "{}", parse.kind())?,
        _ => format!(in alloc; "{}", error.kind())?,
    };
    Ok(Reply::new_with_string(ReplyCode::CommandSyntaxError, text))
}
