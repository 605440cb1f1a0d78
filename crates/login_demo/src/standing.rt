//! The replies that don't depend on the working directory.
ghost use Rattle.std.specs.Prelude.{◌≡◌, IfOk, IfErr};
ghost use Rattle.unftp_control_message.specs.CommandMeaning.{command_of};
ghost use Rattle.unftp_control_message.specs.ErrorMeaning.{fault_of, kind_meant};
ghost use Rattle.unftp_control_defs.specs.Events.{Parse, out_of_memory};
ghost use Rattle.unftp_control_defs.specs.FtpReply.{CodeAndMsg};
ghost use Rattle.unftp_control_message.specs.ReplyMeaning.{number_of, reply_of};
ghost use Rattle.login_demo.specs.Standing.{fixed_reply, refusal_code, refusal_reply, site_reply, standing_reply, unread_text};
ghost use Rattle.unftp_control_message.specs.ParseRefusal.{refusal_of};

use std::alloc::Global;
use unftp_control::commands::{Auth, Feat, Help, Mode, Opts, Prot, Stru};
use unftp_control_message::Command;
use unftp_control_message::reply::error::{
    ControlChanError, ControlChanErrorKind, ParseErrorKind, Source,
};
use unftp_control_message::reply::{Reply, ReplyCode};

/// The features (RFC 2389, section 3.2), MLST with its facts (RFC 3659, section 7.8).
const FEATURES: &[&str] = &["MDTM", "MLST type*;size*;modify*;", "SIZE", "UTF8"];

/// The commands that do something (RFC 959, section 4.1.3).
const COMMANDS: &[&str] = &[
    "Commands:",
    " ABOR ACCT ALLO CDUP CWD FEAT HELP MDTM MLST MODE NOOP OPTS",
    " PASS PWD QUIT SITE SIZE STRU SYST TYPE USER",
    "END",
];

/// The reply to a command that needs no working directory. It fails only when out of memory.
pub fn standing_reply(alloc: Global, command: Command) -> Result<Reply, ControlChanError>
    // At `Ok` the reply is the definition's to this command.
    ensures ok { IfOk result (λ reply. reply_of reply ≡ standing_reply (command_of command)) }
    // The only error is out of memory.
    ensures err { IfErr result (λ error. fault_of error ≡ out_of_memory) }
{
    match command {
        Command::Auth { protocol } => Ok(Auth::new(protocol).reply(alloc, false)?.0),
        Command::Prot { param } => Ok(Prot::new(param).reply(alloc, false)?.0),
        Command::Mode { mode } => Mode::new(mode).reply(alloc),
        Command::Opts { option } => Opts::new(option).reply(alloc),
        Command::Stru { structure } => Stru::new(structure).reply(alloc),
        Command::Feat => Feat.reply_with(alloc, FEATURES),
        Command::Help => Help.reply_with(alloc, COMMANDS),
        Command::Site { command, arguments } => {
            drop(arguments);
            site_reply(alloc, command.as_str())
        }
        other => line_reply(alloc, other),
    }
}

/// The reply to SITE, by its subcommand.
fn site_reply(alloc: Global, name: &str) -> Result<Reply, ControlChanError>
    ensures ok { IfOk result (λ reply. reply_of reply ≡ site_reply name.now) }
    ensures err { IfErr result (λ error. fault_of error ≡ out_of_memory) }
{
    let code = match name {
        "HELP" => ReplyCode::HelpMessage,
        _ => ReplyCode::CommandNotImplementedForParameter,
    };
    Reply::new(alloc, code, "SITE has HELP only")
}

/// The reply of one line to a command whose parameters don't matter.
fn line_reply(alloc: Global, command: Command) -> Result<Reply, ControlChanError>
    ensures ok { IfOk result (λ reply. reply_of reply ≡ fixed_reply (command_of command)) }
    ensures err { IfErr result (λ error. fault_of error ≡ out_of_memory) }
{
    let (code, text) = fixed_line(&command);
    drop(command);
    Reply::new(alloc, code, text)
}

/// Its code and its text.
fn fixed_line(command: &Command) -> (ReplyCode, &'static str)
    ensures { CodeAndMsg (number_of result.0) result.1.now ≡ fixed_reply (command_of command.now) }
{
    match command {
        Command::Pass { .. } => (ReplyCode::BadCommandSequence, "Send USER first"),
        Command::Acct { .. } => (ReplyCode::CommandOkayNotImplemented, "No account is needed"),
        Command::Syst => (ReplyCode::SystemType, "UNIX Type: L8"),
        Command::TypeCode => (ReplyCode::CommandOkay, "Type is set"),
        Command::Noop => (ReplyCode::CommandOkay, "OK"),
        Command::Allo {} => (
            ReplyCode::CommandOkayNotImplemented,
            "No space has to be reserved",
        ),
        Command::Abor => (ReplyCode::ClosingDataConnection, "No transfer is under way"),
        Command::Retr { .. }
        | Command::Stor { .. }
        | Command::Appe { .. }
        | Command::Stou
        | Command::List { .. }
        | Command::Nlst { .. }
        | Command::Mlsd { .. } => (ReplyCode::CantOpenDataConnection, "No data connection"),
        Command::Rnto { .. } => (ReplyCode::BadCommandSequence, "Send RNFR first"),
        Command::Other { .. } => (ReplyCode::CommandSyntaxError, "Unknown command"),
        _ => (ReplyCode::CommandNotImplemented, "Not implemented"),
    }
}

/// The reply to a line that is no command: why the parser refused it, or that it was too long (RFC
/// 959, section 5.4). It fails only when out of memory.
pub fn refusal_reply(alloc: Global, error: ControlChanError) -> Result<Reply, ControlChanError>
    // At `Ok` the reply is the definition's to this refused line.
    ensures ok { IfOk result (λ reply. reply_of reply ≡ refusal_reply (fault_of error)) }
    // The only error is out of memory.
    ensures err { IfErr result (λ error. fault_of error ≡ out_of_memory) }
{
    let (code, text) = match error.source() {
        Source::Parse(parse) => (
            refusal_code(parse.kind()),
            format!(in alloc; "{}", parse.kind())?,
        ),
        _ => (
            ReplyCode::CommandSyntaxError,
            String::from_str(alloc, unread_text(error.kind()))?,
        ),
    };
    Ok(Reply::new_with_string(code, text))
}

/// The code for what the parser refused: 501 for a parameter that a known verb doesn't take.
fn refusal_code(kind: &ParseErrorKind) -> ReplyCode
    ensures { number_of result ≡ refusal_code (Parse (refusal_of kind.now)) }
{
    match kind {
        ParseErrorKind::InvalidCommand => ReplyCode::ParameterSyntaxError,
        _ => ReplyCode::CommandSyntaxError,
    }
}

/// The text for an error that has no line.
fn unread_text(kind: &ControlChanErrorKind) -> &'static str
    ensures { result.now ≡ unread_text (kind_meant kind.now) }
{
    match kind {
        ControlChanErrorKind::LineTooLong => "Line too long",
        _ => "Not understood",
    }
}
