//! The fields of the command that parts are.
ghost use Rattle.std.specs.Prelude.{◌≡◌, ◌<◌, Ok, Option, IfErr, IfOk, OnErr, length, option_map, string_bytes};
ghost use Rattle.unftp_control_defs.specs.Bytes.{Bytes as Sequence};
ghost use Rattle.unftp_control_defs.specs.FtpCommand.{FtpCommand, Text, by_named_text, by_raw, kind, maybe_raw, maybe_text};
ghost use Rattle.unftp_control_defs.specs.Said.{outcome_of};
ghost use Rattle.unftp_control_defs.specs.Verbs.{upper};
ghost use Rattle.unftp_control_defs.specs.declared.verb.Kind.TheVariants as kinds;
ghost use Rattle.unftp_control_defs.specs.declared.verb.Verb.TheVariants as verbs;
ghost use Rattle.unftp_control_message.specs.PartsMeaning.{FailsAs, MakesCommand, TakesOptionalText, said_value, said_len, said_of};

use crate::Command;
use crate::parts::{Parts, Value};
use crate::reply::error::ParseErrorKind;
use bytes::Bytes;
use std::alloc::{AllocError, Global};

/// A text in memory of its own; an empty one takes none.
#[inline]
pub fn owned(alloc: Global, text: &str) -> Result<String, AllocError>
    // At `Ok` the new text has the same bytes.
    ensures ok { IfOk result (λ owned. string_bytes owned ≡ text.now) }
    // It is out of memory only for a text that is not empty.
    ensures memory { OnErr result (0 < length text.now) }
{
    if text.is_empty() {
        return Ok(String::new(alloc));
    }
    String::from_str(alloc, text)
}

/// The name in upper case, in memory of its own; an empty one takes none.
fn upper_cased(alloc: Global, name: &str) -> Result<String, AllocError>
    ensures ok { IfOk result (λ upper_cased. string_bytes upper_cased ≡ upper name.now) }
    ensures memory { OnErr result (0 < length (upper name.now)) }
{
    let mut name = owned(alloc, name)?;
    name.make_ascii_uppercase();
    Ok(name)
}

/// The bytes of the value.
#[tactic(auto, using(crate::proofs::PartsLemmas::taking))]
pub fn bytes(alloc: Global, parts: &Parts<'_>) -> Result<Bytes, ParseErrorKind>
    // The verb takes any bytes, or none.
    requires { kind parts.now.verb ≡ kinds.Raw }
    // At `Ok` a command of such a verb holds these bytes: those of the value, or none without a
    // value.
    ensures ok { IfOk result (λ bytes. (make : Sequence → FtpCommand) (name : Sequence)
        → by_raw make name (said_value parts.now.value) ≡ Ok (make bytes)) }
    // `InvalidCommand` comes only where the verb takes no such value, `OutOfMemory` only where the
    // parts hold bytes, and no other error comes.
    ensures err { IfErr result (λ kind. FailsAs parts.now kind) }
{
    match parts.value {
        Value::None => Ok(Bytes::new()),
        Value::Raw(sent) => Ok(sent.to_bytes(alloc)?),
        _ => Err(ParseErrorKind::InvalidCommand),
    }
}

/// The bytes of the value, or none.
#[tactic(auto, using(crate::proofs::PartsLemmas::taking))]
pub fn optional_bytes(alloc: Global, parts: &Parts<'_>) -> Result<Option<Bytes>, ParseErrorKind>
    // The verb takes any bytes, or none.
    requires { kind parts.now.verb ≡ kinds.Raw }
    // At `Ok` these are the bytes of the value, or `None` where there is no value.
    ensures ok { IfOk result (λ bytes. said_value parts.now.value ≡ maybe_raw bytes) }
    // `InvalidCommand` comes only where the verb takes no such value, `OutOfMemory` only where the
    // parts hold bytes, and no other error comes.
    ensures err { IfErr result (λ kind. FailsAs parts.now kind) }
{
    match parts.value {
        Value::None => Ok(None),
        Value::Raw(sent) => Ok(Some(sent.to_bytes(alloc)?)),
        _ => Err(ParseErrorKind::InvalidCommand),
    }
}

/// The text of the value.
#[tactic(auto, using(crate::proofs::PartsLemmas::taking))]
pub fn text(alloc: Global, parts: &Parts<'_>) -> Result<String, ParseErrorKind>
    // The verb takes a text that is not empty.
    requires { kind parts.now.verb ≡ kinds.Text }
    // At `Ok` the value is a text, and this is that text.
    ensures ok { IfOk result (λ text. said_value parts.now.value ≡ Text (string_bytes text)) }
    // `InvalidCommand` comes only where the verb takes no such value, `OutOfMemory` only where the
    // parts hold bytes, and no other error comes.
    ensures err { IfErr result (λ kind. FailsAs parts.now kind) }
{
    match parts.value {
        Value::Text(text) => Ok(owned(alloc, text)?),
        Value::Lossy(sent) => Ok(sent.to_text(alloc)?),
        _ => Err(ParseErrorKind::InvalidCommand),
    }
}

/// The text of the value, or none.
#[tactic(auto, using(crate::proofs::PartsLemmas::taking))]
pub fn optional_text(alloc: Global, parts: &Parts<'_>) -> Result<Option<String>, ParseErrorKind>
    // The verb takes a text or none.
    requires { TakesOptionalText (kind parts.now.verb) }
    // At `Ok` this is the text of the value, or `None` where there is no value.
    ensures ok { IfOk result
        (λ text. said_value parts.now.value ≡ maybe_text (option_map string_bytes text)) }
    // `InvalidCommand` comes only where the verb takes no such value, `OutOfMemory` only where the
    // parts hold bytes, and no other error comes.
    ensures err { IfErr result (λ kind. FailsAs parts.now kind) }
{
    match parts.value {
        Value::None => Ok(None),
        Value::Text(text) => Ok(Some(owned(alloc, text)?)),
        Value::Lossy(sent) => Ok(Some(sent.to_text(alloc)?)),
        _ => Err(ParseErrorKind::InvalidCommand),
    }
}

/// The text after a name; it may be empty.
#[tactic(auto, using(crate::proofs::PartsLemmas::taking))]
fn arguments(alloc: Global, parts: &Parts<'_>) -> Result<String, ParseErrorKind>
    requires { TakesOptionalText (kind parts.now.verb) }
    ensures ok { IfOk result (λ arguments. (make : Sequence → Sequence → FtpCommand)
        (name : Sequence) → by_named_text make name (said_value parts.now.value)
        ≡ Ok (make name (string_bytes arguments))) }
    ensures err { IfErr result (λ kind. FailsAs parts.now kind) }
{
    match parts.value {
        Value::None => Ok(String::new(alloc)),
        Value::Text(text) => Ok(owned(alloc, text)?),
        Value::Lossy(sent) => Ok(sent.to_text(alloc)?),
        _ => Err(ParseErrorKind::InvalidCommand),
    }
}

/// SITE with another subcommand.
pub fn site(alloc: Global, parts: &Parts<'_>) -> Result<Command, ParseErrorKind>
    // The verb is that of another subcommand of SITE.
    requires { parts.now.verb ≡ verbs.Site }
    // At `Ok` the parts say this command. Else the verb takes no such value, at `InvalidCommand`,
    // or the parts hold bytes, at `OutOfMemory`.
    ensures { MakesCommand (outcome_of (said_of parts.now)) (said_len (said_of parts.now)) result }
{
    let arguments = arguments(alloc, parts)?;
    Ok(Command::Site {
        command: upper_cased(alloc, parts.name)?,
        arguments,
    })
}

/// A verb with no rule of its own.
pub fn other(alloc: Global, parts: &Parts<'_>) -> Result<Command, ParseErrorKind>
    // The verb has no rule of its own.
    requires { parts.now.verb ≡ verbs.Other }
    // At `Ok` the parts say this command. Else the verb takes no such value, at `InvalidCommand`,
    // or the parts hold bytes, at `OutOfMemory`.
    ensures { MakesCommand (outcome_of (said_of parts.now)) (said_len (said_of parts.now)) result }
{
    let arguments = arguments(alloc, parts)?;
    Ok(Command::Other {
        command_name: upper_cased(alloc, parts.name)?,
        arguments,
    })
}
