//! What a log shows of a control connection, in printable text, without passwords and accounts: a
//! line of a client, and an exchange: a line, or the greeting, with its replies.
#![tactic(auto)]

ghost use Rattle.std.specs.Prelude.{◌≡◌, ◌++◌, IfOk, OnErr, OnOk, None};
ghost use Rattle.unftp_control_defs.specs.Events.{event_of};
ghost use Rattle.unftp_control_defs.specs.Outcome.{outcome};
ghost use Rattle.unftp_control_defs.specs.Room.{LacksRoom};
ghost use Rattle.unftp_control_codecs.specs.Memory.{IsRefusal};
ghost use Rattle.unftp_control_log.specs.LogLine.{hides, hides_part, log_line, logged, visible};
ghost use Rattle.unftp_control_log.specs.Meaning.{visible_meant};
ghost use Rattle.unftp_control_serve.specs.EventMeaning.{event_meant};

mod command;
pub mod examples;
pub mod laws;
mod parameter;
mod refusal;
mod text;
mod visible;
mod words;
mod write;

use crate::command::{visible_parts, visible_verb};
use crate::parameter::{hides_part, shown_value};
use crate::refusal::{reason, visible_refusal};
use crate::text::append_visible;
use crate::visible::{Logged, Visible};
pub use crate::write::{Exchange, write_exchange};
use itoa::Buffer;
use std::alloc::AllocError;
use unftp_control_codecs::line_parser::{ParseErrorKind, Words, parameter_value};
use unftp_control_message::parts::Kind;
use unftp_control_serve::Event;

/// What a log shows of the event; `digits` has room for those of a number. No memory is taken.
fn visible_event<'a>(event: &'a Event, line: &'a [u8], digits: &'a mut Buffer) -> Visible<'a>
    ensures { visible_meant result ≡ visible (event_meant event.now) line.now }
{
    match event {
        Event::Command(command) => {
            let words = Words::of(line);
            let sent = shown_value(words, parameter_value(words.parameter()));
            visible_parts(&command.parts(), sent, digits)
        }
        Event::Refused(error) => visible_refusal(reason(error), line),
    }
}

/// What a log shows of the event of a line, without making its command, and whether that is not all
/// of the line. The value is read only where it has a type of its own. No memory is taken.
fn logged_line<'a>(line: &'a [u8], digits: &'a mut Buffer) -> Logged<'a>
    ensures visible { visible_meant result.visible ≡ visible (event_of (outcome line.now)) line.now }
    ensures hides { result.hides ≡ hides (event_of (outcome line.now)) line.now }
{
    let words = Words::of(line);
    match words.kind() {
        Kind::Typed => match words.parts() {
            Ok(parts) => {
                let sent = parameter_value(words.parameter());
                Logged {
                    visible: visible_parts(&parts, shown_value(words, sent), digits),
                    hides: hides_part(words, sent),
                }
            }
            Err(refused) => logged_refusal(refused, line),
        },
        _ => match words.sent() {
            Ok(sent) => Logged {
                visible: visible_verb(words.verb(), words.name(), shown_value(words, sent)),
                hides: hides_part(words, sent),
            },
            Err(refused) => logged_refusal(refused, line),
        },
    }
}

/// What a log shows of a line that is refused so.
fn logged_refusal<'a>(refused: ParseErrorKind, line: &'a [u8]) -> Logged<'a>
    requires { IsRefusal (outcome line.now) refused }
    ensures visible { visible_meant result.visible ≡ visible (event_of (outcome line.now)) line.now }
    ensures hides { result.hides ≡ hides (event_of (outcome line.now)) line.now }
{
    Logged {
        visible: visible_refusal(refused.reason(), line),
        hides: true,
    }
}

/// Appends what a log shows of an event, in printable ASCII without a line end, and changes no
/// earlier byte of `buf`. `line` is what `EventDecoder::line` returned with the event: empty where
/// the line is too long.
///
/// | a line | its log line |
/// |---|---|
/// | `xcwd a`, `BYE`, `type a` | `CWD a`, `QUIT`, `TYPE a` |
/// | `LIST -la x`, `RETR a` and a byte 0xe9 | `LIST -la x`, `RETR a\xe9` |
/// | `REST +5`, `auth tls` | `REST 5`, `AUTH TLS` |
/// | `site chmod 644 a` | `SITE CHMOD 644 a` |
/// | `SITE PSWD old new`, `SITE secret` | `SITE PSWD ***`, `SITE ***` |
/// | `PASS secret`, `PASS`, `LANG`, `PSAS secret` | `PASS ***`, `PASS ***`, `LANG ***`, `***` |
/// | `NOOP x` | `refused NOOP: Invalid command` |
///
/// A command is its canonical verb, and after a space the value of the line's parameter as the
/// bytes that were sent, in the escapes of Rust's `escape_ascii`; CR NUL is one CR (RFC 854). STRU,
/// MODE, PROT, AUTH, OPTS, PBSZ and REST have the value of their command, and SYST and HELP none.
/// The value of PASS and ACCT is `***`, also an empty one (RFC 959, section 4.1.1).
///
/// A verb with no rule of its own may be a mistyped PASS, or a password: it is `***`. Listed are
/// the words of the registry of FTP's commands (RFC 5797, section 3), ALGS (RFC 6384), HOST (RFC
/// 7151) and those of RFC 1123, section 4.1.3.1. They are shown, with `***` for their arguments,
/// also where there are none. So it is with the listed subcommands of SITE but CHMOD, IDLE, MD5,
/// UMASK and UTIME, whose arguments are shown. Another subcommand is `***`.
///
/// A refused line is `refused`, its verb where it is listed or has a rule, and the words of
/// the error, such as `Invalid command`, `Non-UTF8 character while parsing` or
/// `Invalid end-of-line`. So a log shows of a password that it has an invalid line ending. Nothing
/// else is shown of the parameter, nor anything of that of a line whose own verb hides it, with
/// whatever event.
///
/// It takes no memory but what `buf` needs, and fails only where `buf` lacks room for the line and
/// can't grow: `buf` is then as it was. Nothing that is hidden is written to `buf`, not even to be
/// removed again.
pub fn write_log_line(event: &Event, line: &[u8], buf: &mut Vec<u8>) -> Result<(), AllocError>
    // At `Ok` exactly the log line of the event is appended.
    ensures ok { OnOk result
        (buf.new.items ≡ buf.old.items ++ log_line (event_meant event.now) line.now) }
    // At an error `buf` stays the same.
    ensures err { OnErr result (buf.new.items ≡ buf.old.items) }
    // It is out of memory only where `buf` lacks room for exactly the log line.
    ensures memory { OnErr result
        (LacksRoom buf.old (log_line (event_meant event.now) line.now)) }
{
    let mut digits = Buffer::new();
    append_visible(&visible_event(event, line, &mut digits), buf)
}

/// Appends what `write_log_line` appends for a line and its event, without making the event: so
/// there is no memory for a command. `line` is a line of any length, with its line feed or without
/// one.
///
/// It returns whether a part of the line is not shown. Such parts are a refused line, a secret, a
/// verb that is not shown, and the arguments of a verb or a subcommand that hides them, also where
/// it has none. So are a text that SYST and HELP ignore, and a parameter with an invalid line
/// ending. A server may repeat such a part in its reply.
pub fn write_log_of(line: &[u8], buf: &mut Vec<u8>) -> Result<bool, AllocError>
    // At `Ok` exactly the log line of the line's event, without a limit, is appended.
    ensures ok { OnOk result (buf.new.items ≡ buf.old.items ++ logged None line.now) }
    // At `Ok` it returns whether a part of the line is not shown.
    ensures hides { IfOk result (λ part. part ≡ hides_part None line.now) }
    // At an error `buf` stays the same.
    ensures err { OnErr result (buf.new.items ≡ buf.old.items) }
    // It is out of memory only where `buf` lacks room for exactly the log line.
    ensures memory { OnErr result (LacksRoom buf.old (logged None line.now)) }
{
    let mut digits = Buffer::new();
    let Logged { visible, hides } = logged_line(line, &mut digits);
    append_visible(&visible, buf)?;
    Ok(hides)
}
