//! The commands whose parameter has a type of its own.
ghost use Rattle.std.specs.Prelude.{[]};
ghost use Rattle.std.specs.Str.Lossy.{utf8_lossy};
ghost use Rattle.unftp_control_defs.specs.Rules.{auth, buffer_sizes, chosen, modes, offset, options, protections, structures, typed_outcome};
ghost use Rattle.unftp_control_defs.specs.declared.verb.Verb.TheVariants as spec;
ghost use Rattle.unftp_control_codecs.specs.Memory.{ReadsTo};
ghost use Rattle.unftp_control_message.specs.SentValues.{unescaped, sent_value};

use crate::line_parser::verb::is_same_word;
use std::str::from_utf8;
use unftp_control_message::parts::{Choice, Value, Verb};
use unftp_control_message::reply::error::ParseErrorKind;
use unftp_control_message::sent::{Sent, unescape_to, unescaped_len};
use unftp_control_message::{AuthParam, ModeParam, Opt, ProtParam, StruParam};

type Typed<'a> = Result<Value<'a>, ParseErrorKind>;

/// What the verb's own type makes of the value.
pub fn typed<'a>(verb: Verb, sent: Sent<'_>) -> Typed<'a>
    // The value of the verb's own type by the definition, or the refusal; it is never out of
    // memory.
    ensures { ReadsTo (typed_outcome verb (sent_value sent.entry)) verb [] result }
{
    match sent {
        Sent::Plain(bytes) => typed_bytes(verb, bytes),
        Sent::Escaped(sent) => typed_escaped(verb, sent),
    }
}

/// What the verb's own type makes of a value that is sent so.
#[tactic(auto, using(crate::proofs::TypedLemmas::same_answer))]
fn typed_escaped<'a>(verb: Verb, sent: &[u8]) -> Typed<'a>
    ensures { ReadsTo (typed_outcome verb (unescaped sent.now)) verb [] result }
{
    match verb {
        Verb::Auth => auth_escaped(sent),
        // with a CR it is refused, with and without the NULs
        _ => typed_bytes(verb, sent),
    }
}

/// What the verb's own type makes of the bytes.
fn typed_bytes<'a>(verb: Verb, value: &[u8]) -> Typed<'a>
    ensures { ReadsTo (typed_outcome verb value.now) verb [] result }
{
    match verb {
        Verb::Auth => auth(value),
        Verb::Mode => mode(value),
        Verb::Opts => opts(value),
        Verb::Pbsz => pbsz(value),
        Verb::Prot => prot(value),
        Verb::Rest => rest(value),
        Verb::Stru => stru(value),
        _ => Err(ParseErrorKind::InvalidCommand),
    }
}

/// STRU and a structure (RFC 959, section 3.1.2).
fn stru<'a>(value: &[u8]) -> Typed<'a>
    ensures { ReadsTo (chosen structures value.now) spec.Stru [] result }
{
    let structure = match value {
        b"F" => StruParam::File,
        b"R" => StruParam::Record,
        b"P" => StruParam::Page,
        _ => return Err(ParseErrorKind::InvalidCommand),
    };
    Ok(Value::Chosen(Choice::Structure(structure)))
}

/// MODE and a transfer mode (RFC 959, section 3.4).
fn mode<'a>(value: &[u8]) -> Typed<'a>
    ensures { ReadsTo (chosen modes value.now) spec.Mode [] result }
{
    let mode = match value {
        b"S" => ModeParam::Stream,
        b"B" => ModeParam::Block,
        b"C" => ModeParam::Compressed,
        _ => return Err(ParseErrorKind::InvalidCommand),
    };
    Ok(Value::Chosen(Choice::Mode(mode)))
}

/// PROT and a protection level (RFC 2228, section 3).
fn prot<'a>(value: &[u8]) -> Typed<'a>
    ensures { ReadsTo (chosen protections value.now) spec.Prot [] result }
{
    let param = match value {
        b"C" => ProtParam::Clear,
        b"S" => ProtParam::Safe,
        b"E" => ProtParam::Confidential,
        b"P" => ProtParam::Private,
        _ => return Err(ParseErrorKind::InvalidCommand),
    };
    Ok(Value::Chosen(Choice::Protection(param)))
}

/// OPTS and the option UTF8, its two words both in upper case or both in lower case (RFC 2389,
/// section 4).
fn opts<'a>(value: &[u8]) -> Typed<'a>
    ensures { ReadsTo (chosen options value.now) spec.Opts [] result }
{
    let on = if b"UTF8 ON".as_slice() == value || b"utf8 on".as_slice() == value {
        true
    } else if b"UTF8 OFF".as_slice() == value || b"utf8 off".as_slice() == value {
        false
    } else {
        return Err(ParseErrorKind::InvalidCommand);
    };
    Ok(Value::Chosen(Choice::Setting(Opt::Utf8 { on })))
}

/// AUTH and a mechanism, ignoring ASCII case (RFC 2228, section 3; RFC 4217, section 2).
#[inline(always)]
#[tactic(auto, using(crate::proofs::OutcomeLemmas::outcomes))]
fn auth<'a>(value: &[u8]) -> Typed<'a>
    ensures { ReadsTo (auth value.now) spec.Auth [] result }
{
    if value.len() > 3 {
        return Err(ParseErrorKind::InvalidCommand);
    }
    from_utf8(value)?;
    let protocol = if is_same_word(b"TLS", value) {
        AuthParam::Tls
    } else if is_same_word(b"SSL", value) {
        AuthParam::Ssl
    } else {
        return Err(ParseErrorKind::InvalidCommand);
    };
    Ok(Value::Chosen(Choice::Mechanism(protocol)))
}

/// AUTH and a mechanism that is sent so. No mechanism has more than three bytes.
fn auth_escaped<'a>(sent: &[u8]) -> Typed<'a>
    ensures { ReadsTo (auth (unescaped sent.now)) spec.Auth [] result }
{
    let len = unescaped_len(sent);
    if len > 3 {
        return Err(ParseErrorKind::InvalidCommand);
    }
    let mut value = [0u8; 3];
    unescape_to(sent, &mut value);
    auth(value.split_at(len).0)
}

/// PBSZ and the size 0 (RFC 4217, section 9).
fn pbsz<'a>(value: &[u8]) -> Typed<'a>
    ensures { ReadsTo (chosen buffer_sizes value.now) spec.Pbsz [] result }
{
    match value {
        b"0" => Ok(Value::Chosen(Choice::NoBuffer)),
        _ => Err(ParseErrorKind::InvalidCommand),
    }
}

/// REST and an offset (RFC 3659, section 5).
#[tactic(auto, using(crate::proofs::OffsetLemmas::offsets))]
fn rest<'a>(value: &[u8]) -> Typed<'a>
    ensures { ReadsTo (offset (utf8_lossy value.now)) spec.Rest [] result }
{
    let Ok(text) = from_utf8(value) else {
        return Err(ParseErrorKind::InvalidCommand);
    };
    match text.parse::<u64>() {
        Ok(offset) => Ok(Value::Number(offset)),
        Err(_) => Err(ParseErrorKind::InvalidCommand),
    }
}
