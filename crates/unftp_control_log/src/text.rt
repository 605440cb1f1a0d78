//! The text of a log line.
ghost use Rattle.std.specs.Prelude.{◌≡◌, ◌≤◌, ◌++◌, ◌↔◌, IsTrue, length, option_map, take, vec_capacity, vec_len, OnErr, OnOk};
ghost use Rattle.std.specs.List.{AllByRecursion};
ghost use Rattle.unftp_control_defs.specs.Room.{LacksRoom};
ghost use Rattle.unftp_control_defs.specs.Verbs.{upper};
ghost use Rattle.unftp_control_log.specs.LogLine.{IsShownPlain, RefusedLine, shown, visible_text};
ghost use Rattle.unftp_control_log.specs.Meaning.{visible_meant};
ghost use Rattle.unftp_control_message.specs.SentValues.{first_unit_len, sent_value, unescaped};
ghost use Rattle.unftp_control_write.specs.Lines.{spaced_part};

use crate::visible::Visible;
use std::alloc::AllocError;
use unftp_control_message::sent::{Sent, begins_with_cr_nul};

/// How long the text is in the escapes of `escape_ascii`, where so much can be counted.
fn shown_length(text: &[u8]) -> usize
    ensures { result ≤ length (shown text.now) }
{
    let mut length: usize = 0;
    for _byte in text.escape_ascii() {
        length = length.saturating_add(1);
    }
    length
}

/// Whether the byte is shown as it is.
fn is_plain(byte: u8) -> bool
    ensures { IsTrue result ↔ IsShownPlain byte }
{
    matches!(byte, b' '..=b'~') && !matches!(byte, b'"' | b'\'' | b'\\')
}

/// Whether each byte of the text is.
fn are_plain(text: &[u8]) -> bool
    ensures { IsTrue result ↔ AllByRecursion IsShownPlain text.now }
{
    text.iter().all(|byte| is_plain(*byte))
}

/// Appends the text in the escapes of Rust's `escape_ascii`, or perhaps a part of it when out of
/// memory, for a caller that removes it then. The buffer grows once at most, and only where it
/// lacks room for them.
pub fn append_shown(text: &[u8], buf: &mut Vec<u8>) -> Result<(), AllocError>
    // At `Ok` exactly the escaped text is appended.
    ensures ok { OnOk result (buf.new.items ≡ buf.old.items ++ shown text.now) }
    // At `Ok` and at an error the earlier bytes of `buf` stay the same.
    ensures kept { take (vec_len buf.old) buf.new.items ≡ buf.old.items }
    // It is out of memory only where `buf` lacks room for exactly the escaped text.
    ensures memory { OnErr result (LacksRoom buf.old (shown text.now)) }
    // The buffer's capacity never falls.
    ensures capacity { vec_capacity buf.old ≤ vec_capacity buf.new }
{
    if are_plain(text) {
        return buf.extend_from_slice(text);
    }
    append_escaped(text, buf)
}

/// The same where there is something to escape.
fn append_escaped(text: &[u8], buf: &mut Vec<u8>) -> Result<(), AllocError>
    ensures ok { OnOk result (buf.new.items ≡ buf.old.items ++ shown text.now) }
    ensures kept { take (vec_len buf.old) buf.new.items ≡ buf.old.items }
    ensures memory { OnErr result (LacksRoom buf.old (shown text.now)) }
    ensures capacity { vec_capacity buf.old ≤ vec_capacity buf.new }
{
    buf.reserve(shown_length(text))?;
    for byte in text.escape_ascii() {
        buf.push(byte)?;
    }
    Ok(())
}

/// How many bytes are sent for the first byte of a value (RFC 854).
fn unit_len(bytes: &[u8]) -> usize
    ensures { result ≡ first_unit_len bytes.now }
{
    if begins_with_cr_nul(bytes) { 2 } else { 1 }
}

/// Appends the value for which these bytes are sent, in these escapes: the NUL after a CR is none
/// of its bytes (RFC 854).
fn append_unescaped(sent: &[u8], buf: &mut Vec<u8>) -> Result<(), AllocError>
    ensures ok { OnOk result (buf.new.items ≡ buf.old.items ++ shown (unescaped sent.now)) }
    ensures kept { take (vec_len buf.old) buf.new.items ≡ buf.old.items }
    ensures memory { OnErr result (LacksRoom buf.old (shown (unescaped sent.now))) }
{
    let mut rest = sent;
    'bytes: while !rest.is_empty() {
        let (first, _) = rest.split_at(1);
        let (_, further) = rest.split_at(unit_len(rest));
        append_shown(first, buf)?;
        rest = further;
    }
    Ok(())
}

/// Appends a value in these escapes, or perhaps a part of it when out of memory.
fn append_sent(value: Sent<'_>, buf: &mut Vec<u8>) -> Result<(), AllocError>
    ensures ok { OnOk result
        (buf.new.items ≡ buf.old.items ++ shown (sent_value value.entry)) }
    ensures kept { take (vec_len buf.old) buf.new.items ≡ buf.old.items }
    ensures memory { OnErr result (LacksRoom buf.old (shown (sent_value value.entry))) }
{
    match value {
        Sent::Plain(bytes) => append_shown(bytes, buf),
        Sent::Escaped(sent) => append_unescaped(sent, buf),
    }
}

/// Appends a space and the value in these escapes, if there is one, or perhaps a part of them when
/// out of memory.
fn append_value(value: Option<Sent<'_>>, buf: &mut Vec<u8>) -> Result<(), AllocError>
    ensures ok { OnOk result (buf.new.items ≡ buf.old.items
        ++ spaced_part (option_map shown (option_map sent_value value.entry))) }
    ensures kept { take (vec_len buf.old) buf.new.items ≡ buf.old.items }
    ensures memory { OnErr result (LacksRoom buf.old
        (spaced_part (option_map shown (option_map sent_value value.entry)))) }
{
    let Some(value) = value else {
        return Ok(());
    };
    buf.push(b' ')?;
    append_sent(value, buf)
}

/// Appends a word in upper case.
fn append_word(word: &[u8], buf: &mut Vec<u8>) -> Result<(), AllocError>
    ensures ok { OnOk result (buf.new.items ≡ buf.old.items ++ upper word.now) }
    ensures kept { take (vec_len buf.old) buf.new.items ≡ buf.old.items }
    ensures memory { OnErr result (LacksRoom buf.old (upper word.now)) }
    ensures capacity { vec_capacity buf.old ≤ vec_capacity buf.new }
{
    let length = buf.len();
    buf.extend_from_slice(word)?;
    buf.as_mut_slice()
        .split_at_mut(length)
        .1
        .make_ascii_uppercase();
    Ok(())
}

/// Appends a space and the verb of a refused line in upper case, if there is one.
fn append_verb(verb: Option<&[u8]>, buf: &mut Vec<u8>) -> Result<(), AllocError>
    ensures ok { OnOk result (buf.new.items ≡ buf.old.items
        ++ spaced_part (option_map (λ verb. upper verb.now) verb.entry)) }
    ensures kept { take (vec_len buf.old) buf.new.items ≡ buf.old.items }
    ensures memory { OnErr result (LacksRoom buf.old
        (spaced_part (option_map (λ verb. upper verb.now) verb.entry))) }
    ensures capacity { vec_capacity buf.old ≤ vec_capacity buf.new }
{
    let Some(verb) = verb else {
        return Ok(());
    };
    buf.push(b' ')?;
    append_word(verb, buf)
}

/// Appends what is shown of a refused line, or perhaps a part of it when out of memory.
fn append_refusal(verb: Option<&[u8]>, reason: &str, buf: &mut Vec<u8>) -> Result<(), AllocError>
    ensures ok { OnOk result (buf.new.items ≡ buf.old.items
        ++ visible_text (RefusedLine (option_map (λ verb. upper verb.now) verb.entry) reason.now)) }
    ensures kept { take (vec_len buf.old) buf.new.items ≡ buf.old.items }
    ensures memory { OnErr result (LacksRoom buf.old
        (visible_text (RefusedLine (option_map (λ verb. upper verb.now) verb.entry) reason.now))) }
{
    buf.extend_from_slice(b"refused")?;
    append_verb(verb, buf)?;
    buf.extend_from_slice(b": ")?;
    buf.extend_from_slice(reason.as_bytes())
}

/// Appends what is shown, or perhaps a part of it when out of memory.
fn append_parts(visible: &Visible<'_>, buf: &mut Vec<u8>) -> Result<(), AllocError>
    ensures ok { OnOk result
        (buf.new.items ≡ buf.old.items ++ visible_text (visible_meant visible.now)) }
    ensures kept { take (vec_len buf.old) buf.new.items ≡ buf.old.items }
    ensures memory { OnErr result (LacksRoom buf.old (visible_text (visible_meant visible.now))) }
{
    match visible {
        Visible::Verb { verb, value } => {
            append_word(verb, buf)?;
            append_value(*value, buf)
        }
        Visible::Subcommand { name, arguments } => {
            buf.extend_from_slice(b"SITE ")?;
            append_word(name, buf)?;
            append_value(*arguments, buf)
        }
        Visible::Refused { verb, reason } => append_refusal(*verb, reason, buf),
    }
}

/// Appends what is shown. When out of memory, the buffer is as it was.
pub(crate) fn append_visible(visible: &Visible<'_>, buf: &mut Vec<u8>) -> Result<(), AllocError>
    ensures ok { OnOk result
        (buf.new.items ≡ buf.old.items ++ visible_text (visible_meant visible.now)) }
    ensures err { OnErr result (buf.new.items ≡ buf.old.items) }
    ensures memory { OnErr result (LacksRoom buf.old (visible_text (visible_meant visible.now))) }
{
    let length = buf.len();
    let written = append_parts(visible, buf);
    if written.is_err() {
        buf.truncate(length);
    }
    written
}
