//! The line that a proxy sends to a server for a client's line.
ghost use Rattle.std.specs.Prelude.{◌≡◌, ◌↔◌, ◌++◌, false, Err, IfErr, IsTrue, MatchOption, OnErr, OnOk, option_map, take, vec_len};
ghost use Rattle.unftp_control_message.specs.PartsMeaning.{IsInPlace, said_of};
ghost use Rattle.unftp_control_defs.specs.Bytes.{LF, Lacks, crlf};
ghost use Rattle.unftp_control_defs.specs.Forwarded.{before_end, kind_keeps, with_parameter};
ghost use Rattle.unftp_control_defs.specs.FtpCommand.{kind, unless_empty};
ghost use Rattle.unftp_control_defs.specs.Lines.{IsLine};
ghost use Rattle.unftp_control_defs.specs.Outcome.{outcome};
ghost use Rattle.unftp_control_defs.specs.Verbs.{upper};
ghost use Rattle.unftp_control_write.specs.Forwarding.{IsForwardError, IsForwarded, LacksRoomFor, sent_line};
ghost use Rattle.unftp_control_defs.specs.Room.{LacksRoom};

use crate::line::Line;
use itoa::Buffer;
use std::alloc::AllocError;
use thiserror::Error;
use unftp_control_codecs::line_parser::{ParseError, kind_keeps, parts, split};
use unftp_control_message::parts::Parts;

/// Why no line is forwarded.
#[derive(Debug, Drop, Error)]
pub enum ForwardError {
    /// The bytes are not one line: no line feed is their last byte, or one comes before it.
    #[error("not one line")]
    NotALine,
    /// The line is no command, for this reason.
    #[error("{0}")]
    Refused(ParseError),
    /// The buffer has to grow, and can't.
    #[error("out of memory")]
    OutOfMemory,
}

/// Forwards a client's line: appends to `buf` the line that a server is sent for it, and changes no
/// earlier byte. It is the verb in upper case, a space and the parameter's bytes as they came, up
/// to the line's end, which becomes CR LF: also bytes that are not UTF-8, and a bare carriage
/// return. For a verb that takes no value, or one of a type of its own, as a number, it is the
/// canonical line of the command, as `write_command` writes it: that says all that the line says
/// (RFC 959, section 5.3). What is sent has one line feed, its last byte, and means the same. That
/// of PASS has the password's bytes.
///
/// Bytes without a line feed at their end, or with another before it, are refused with `NotALine`,
/// so that no second line is sent with the first. A line that `parse` refuses is refused with
/// `Refused` and the parser's error. It takes no memory but what `buf` needs: `OutOfMemory` is
/// returned only where `buf` has no room for the line and can't grow, which it does once at most.
/// At each error `buf` is as it was.
pub fn forward(line: &[u8], buf: &mut Vec<u8>) -> Result<(), ForwardError>
    // At `Ok` exactly the forwarded line is appended. It has one line feed, its last byte, and
    // means the same command as the line.
    ensures ok { OnOk result (IsForwarded line.now buf.old.items buf.new.items) }
    // At an error the buffer holds what it held.
    ensures err { OnErr result (buf.new.items ≡ buf.old.items) }
    // `NotALine` comes only for bytes that are not one line, `Refused` only with the line's own
    // refusal, and `OutOfMemory` only for a command.
    ensures why { IfErr result (λ error. IsForwardError line.now error) }
    // It is out of memory only where the buffer lacks room for the forwarded line.
    ensures memory { result ≡ Err ForwardError.OutOfMemory → LacksRoomFor line.now buf.old }
    // `NotALine` comes wherever the bytes are not one line.
    ensures not_a_line { ¬ IsLine line.now → result ≡ Err ForwardError.NotALine }
{
    let Some(text) = without_end(line) else {
        return Err(ForwardError::NotALine);
    };
    let parts = match parts(line) {
        Ok(parts) => parts,
        Err(refusal) => return Err(ForwardError::Refused(ParseError::from(refusal))),
    };
    append_or_nothing(text, parts, buf)
}

/// Appends the line that is forwarded for a text, a line without its end, that is these parts; or
/// nothing when out of memory.
fn append_or_nothing(text: &[u8], parts: Parts<'_>, buf: &mut Vec<u8>) -> Result<(), ForwardError>
    requires { kind_keeps (kind parts.verb) ≡ false → IsInPlace parts.value }
    ensures ok { OnOk result (buf.new.items
        ≡ buf.old.items ++ sent_line text.now (said_of parts.entry)) }
    ensures err { OnErr result (buf.new.items ≡ buf.old.items) }
    ensures memory { IfErr result (λ error. (error ≡ ForwardError.OutOfMemory)
        × LacksRoom buf.old (sent_line text.now (said_of parts.entry))) }
{
    let length = buf.len();
    match append_line(text, parts, buf) {
        Ok(()) => Ok(()),
        Err(_) => {
            buf.truncate(length);
            Err(ForwardError::OutOfMemory)
        }
    }
}

/// The line without its end, a line feed and a carriage return before it; none where the bytes are
/// not one line.
pub fn without_end(line: &[u8]) -> Option<&[u8]>
    // `None` exactly where the bytes are not one line; else the bytes before its LF or CR LF.
    ensures { MatchOption result (¬ IsLine line.now)
        (λ text. IsLine line.now × (text.now ≡ before_end line.now)) }
{
    let body = line.strip_suffix(b"\n")?;
    if !lacks_line_feed(body) {
        return None;
    }
    Some(body.strip_suffix(b"\r").unwrap_or(body))
}

/// Whether the bytes are one line: one line feed, their last byte (RFC 959, section 5.3).
pub fn is_line(bytes: &[u8]) -> bool
    // True exactly for bytes with one line feed, their last byte.
    ensures { IsTrue result ↔ IsLine bytes.now }
{
    without_end(bytes).is_some()
}

/// Whether the text has no line feed.
fn lacks_line_feed(text: &[u8]) -> bool
    ensures { IsTrue result ↔ Lacks LF text.now }
{
    !text.contains(&b'\n')
}

/// Appends the line that is forwarded for a text, a line without its end, that is these parts; or
/// perhaps a part of it when out of memory.
fn append_line(text: &[u8], parts: Parts<'_>, buf: &mut Vec<u8>) -> Result<(), AllocError>
    requires { kind_keeps (kind parts.verb) ≡ false → IsInPlace parts.value }
    ensures ok { OnOk result (buf.new.items
        ≡ buf.old.items ++ sent_line text.now (said_of parts.entry)) }
    ensures kept { take (vec_len buf.old) buf.new.items ≡ buf.old.items }
    ensures memory { OnErr result
        (LacksRoom buf.old (sent_line text.now (said_of parts.entry))) }
{
    if kind_keeps(parts.verb.kind()) {
        let (verb, parameter) = split(text);
        return append_kept_line(verb, parameter, buf);
    }
    let mut digits = Buffer::new();
    let line = Line {
        verb: parts.verb.word().as_bytes(),
        word: None,
        value: parts.value.bytes(&mut digits),
    };
    line.append(buf)
}

/// Appends the verb in upper case, the parameter after a space, if there is one, and CR LF; or
/// perhaps a part of them when out of memory.
fn append_kept_line<'a>(
    verb: &'a [u8],
    parameter: &'a [u8],
    buf: &mut Vec<u8>,
) -> Result<(), AllocError>
    ensures ok { OnOk result (buf.new.items ≡ buf.old.items
        ++ (with_parameter (upper verb.now) parameter.now ++ crlf)) }
    ensures kept { take (vec_len buf.old) buf.new.items ≡ buf.old.items }
    ensures memory { OnErr result
        (LacksRoom buf.old (with_parameter (upper verb.now) parameter.now ++ crlf)) }
{
    let length = buf.len();
    let line = Line {
        verb,
        word: unless_empty(parameter),
        value: None,
    };
    line.append(buf)?;
    let (_, appended) = buf.split_at_mut(length);
    let (verb, _) = appended.split_at_mut(verb.len());
    verb.make_ascii_uppercase();
    Ok(())
}

/// The bytes, or none where there are none.
fn unless_empty(bytes: &[u8]) -> Option<&[u8]>
    ensures { option_map (λ bytes. bytes.now) result ≡ unless_empty bytes.now }
{
    if bytes.is_empty() {
        return None;
    }
    Some(bytes)
}
