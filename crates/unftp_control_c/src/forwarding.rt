//! The line that is forwarded for a line.
ghost use Rattle.std.specs.Prelude.{◌≡◌, ◌≢◌, ◌++◌, ◌==◌, ◌&&◌, [], if◌then◌else◌, take};
ghost use Rattle.unftp_control_commands.specs.Areas.{HasText};
ghost use Rattle.unftp_control_defs.specs.Bytes.{Bytes, crlf};
ghost use Rattle.unftp_control_defs.specs.Canonical.{with_optional};
ghost use Rattle.unftp_control_defs.specs.Forwarded.{with_parameter};
ghost use Rattle.unftp_control_defs.specs.FtpCommand.{word};
ghost use Rattle.unftp_control_defs.specs.Lines.{IsLine};
ghost use Rattle.unftp_control_defs.specs.Outcome.{outcome};
ghost use Rattle.unftp_control_defs.specs.Said.{value_bytes};
ghost use Rattle.unftp_control_defs.specs.Verbs.{parameter_of, upper, verb_of};
ghost use Rattle.unftp_control_message.specs.PartsMeaning.{said_value};
ghost use Rattle.unftp_control_write.specs.ClearLines.{is_clear};
ghost use Rattle.unftp_control_c.specs.Areas.{Made, filled, written};
ghost use Rattle.unftp_control_c.specs.ForwardedLines.{ForwardsTo, HasNoText, IsForwardedLine, IsWritable, forwarded_text};
ghost use Rattle.unftp_control_c.specs.Numbers.{status_number};
ghost use Rattle.unftp_control_c.specs.declared.status.Status.TheVariants.{Done, NoLine};

use crate::status::{Status, kind_status};
use itoa::Buffer;
use unftp_control_codecs::line_parser::{Words, kind_keeps, split};
use unftp_control_commands::pieces::put;
use unftp_control_message::parts::{Value, Verb};
use unftp_control_write::{is_clear, without_end};

/// What is sent for a line.
#[derive(Clone, Copy)]
enum Forwarded<'a> {
    /// The verb in upper case and the parameter as it came, of a line without its end.
    Kept(&'a [u8]),
    /// A verb, and the value that it has, if any.
    Typed(Verb, Value<'a>),
}

/// The line that is forwarded for a line: `unftp_forward` of include/unftp_control.h.
#[unsafe(no_mangle)]
pub extern "C" fn unftp_forward(
    line: &[u8],
    out: &mut [u8],
    len: &mut usize,
    clear: &mut u32,
) -> u32
    // The forwarded line is written, or `out` is unchanged and the result reports why.
    ensures writes { (bytes : Made) × IsForwardedLine line.now bytes
        × (record { result = result; area = out.new; text_length = len.new }
        ≡ written bytes out.old) }
    // `clear` is 1 where the result is `Done` and what is written is clear, and else 0.
    ensures clear { clear.new ≡ (if (result == status_number Done)
        && is_clear (take len.new out.new) then 1 else 0) }
    // At `Done` what is written has one line feed, its last byte.
    ensures one_line { result ≡ status_number Done → IsLine (take len.new out.new) }
    // `NoLine` never comes where the bytes are one line, with one line feed, its last byte.
    ensures is_line { IsLine line.now → result ≢ status_number NoLine }
    // `NoLine` comes wherever the bytes are not such a line.
    ensures not_a_line { ¬ IsLine line.now → result ≡ status_number NoLine }
    // At `Done` what is written has the same outcome as the line.
    ensures read_back { result ≡ status_number Done
        → outcome (take len.new out.new) ≡ outcome line.now }
{
    (*len, *clear) = (0, 0);
    let forwarded = match read_forwarded(line) {
        Ok(forwarded) => forwarded,
        Err(status) => return status.number(),
    };
    let number = write_forwarded(forwarded, out, len);
    if number == Status::Done.number() {
        let (written, _) = out.split_at(*len);
        *clear = u32::from(is_clear(written));
    }
    number
}

/// What is sent for the line, or why nothing is. A parameter that is sent as it came is not read,
/// but for where it ends.
fn read_forwarded(line: &[u8]) -> Result<Forwarded<'_>, Status>
    ensures { ForwardsTo line.now result }
{
    let Some(text) = without_end(line) else {
        return Err(Status::NoLine);
    };
    let words = Words::of(line);
    if kind_keeps(words.kind()) {
        return match words.sent() {
            Ok(_) => Ok(Forwarded::Kept(text)),
            Err(kind) => Err(kind_status(&kind)),
        };
    }
    match words.parts() {
        Ok(parts) => Ok(Forwarded::Typed(parts.verb, parts.value)),
        Err(kind) => Err(kind_status(&kind)),
    }
}

/// Writes what is sent to the start of the area, where it has room for it, and reports how long it
/// is: the number of what has come of it. It is counted before it is written.
fn write_forwarded(forwarded: Forwarded<'_>, area: &mut [u8], len: &mut usize) -> u32
    requires { IsWritable forwarded }
    ensures { record { result = result; area = area.new; text_length = len.new }
        ≡ filled (forwarded_text forwarded.entry) area.old }
{
    put_forwarded(forwarded, &mut [], len);
    if *len > area.len() {
        return Status::NoRoom.number();
    }
    put_forwarded(forwarded, area, len);
    Status::Done.number()
}

/// Writes it to the start of the area, where it has room for it, and its length to `len`. Without
/// room a part of it may be written; an empty area serves to count.
fn put_forwarded(forwarded: Forwarded<'_>, area: &mut [u8], len: &mut usize)
    requires { IsWritable forwarded }
    ensures { HasText area.old (forwarded_text forwarded.entry) area.new len.new }
{
    match forwarded {
        Forwarded::Kept(text) => put_kept(text, area, len),
        Forwarded::Typed(verb, value) => put_typed(verb, value, area, len),
    }
}

/// Writes the text's verb in upper case, its parameter after a space, if there is one, and CR LF.
fn put_kept(text: &[u8], area: &mut [u8], len: &mut usize)
    ensures { HasText area.old
        (with_parameter (upper (verb_of text.now)) (parameter_of text.now) ++ crlf)
        area.new len.new }
{
    let (verb, parameter) = split(text);
    begin_upper(verb, area, len);
    if parameter.is_empty() {
        return put(b"\r\n", area, len);
    }
    put(b" ", area, len);
    put(parameter, area, len);
    put(b"\r\n", area, len);
}

/// Writes the verb, the value in its canonical form after a space, if there is one, and CR LF.
fn put_typed(verb: Verb, value: Value<'_>, area: &mut [u8], len: &mut usize)
    requires { HasNoText (said_value value) }
    ensures { HasText area.old
        (with_optional (word verb) (value_bytes (said_value value.entry)) ++ crlf)
        area.new len.new }
{
    let mut digits = Buffer::new();
    *len = 0;
    put(verb.word().as_bytes(), area, len);
    let Some(value) = value.bytes(&mut digits) else {
        return put(b"\r\n", area, len);
    };
    put(b" ", area, len);
    put(value, area, len);
    put(b"\r\n", area, len);
}

/// Writes the word in upper case to the start of the area, where it has room for it, and its length
/// to `len`.
fn begin_upper(word: &[u8], area: &mut [u8], len: &mut usize)
    ensures { HasText area.old (upper word.now) area.new len.new }
{
    *len = word.len();
    if word.len() <= area.len() {
        let (front, _) = area.split_at_mut(word.len());
        front.copy_from_slice(word);
        front.make_ascii_uppercase();
    }
}
