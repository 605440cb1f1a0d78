//! The next event of the pending bytes.
ghost use Rattle.std.specs.Prelude.{◌≡◌, ◌<◌, ◌≤◌, ◌+◌, ◌++◌, [], IsTrue, true, false, length};
ghost use Rattle.unftp_control_codecs.specs.WordsMeaning.{EndsAfterByte};
ghost use Rattle.unftp_control_defs.specs.Bytes.{Bytes, crlf};
ghost use Rattle.unftp_control_defs.specs.FtpCommand.{Nothing, Outcome, number};
ghost use Rattle.unftp_control_defs.specs.Said.{IsSaid};
ghost use Rattle.unftp_control_defs.specs.Verbs.{upper};
ghost use Rattle.unftp_control_commands.specs.Areas.{overwritten};
ghost use Rattle.unftp_control_message.specs.PartsMeaning.{IsInPlace, said_of};
ghost use Rattle.unftp_control_c.specs.Next.{GivesCommand, HasTexts, Leaves, LeavesLine, call_with, codec_of, given_of, gives, is_valid, left_with, line_text, given_meant, no_lengths, resumed, scans, used_up, value_place};

use crate::status::{Status, kind_status};
use itoa::Buffer;
use std::alloc::Global;
use unftp_control_codecs::line_parser::Words;
use unftp_control_codecs::{FirstLine, FtpCodec};
use unftp_control_commands::pieces::overwrite;
use unftp_control_message::Command;
use unftp_control_message::parts::{Parts, Value, Verb};

/// What a caller keeps of a connection: `struct unftp_connection` of include/unftp_control.h.
#[repr(C)]
#[derive(Clone, Copy)]
pub struct Connection {
    /// How many bytes a line may have, its line feed counted; 0 for any number.
    pub limit: usize,
    /// How many of the pending bytes were scanned for a line feed.
    pub offset: usize,
    /// 1 where the first line is too long and bytes of it were dropped, else 0.
    pub skipping: u32,
}

/// What was taken of the pending bytes: `struct unftp_line` of include/unftp_control.h.
#[repr(C)]
#[derive(Clone, Copy)]
pub struct Line {
    /// How many bytes are used up.
    pub used: usize,
    /// How long the command's name is, which the area begins with.
    pub name_len: usize,
    /// How long the command's value is.
    pub value_len: usize,
    /// Where the value begins in the pending bytes; 0 where it follows the name in the area.
    pub value_at: usize,
}

/// What a caller gets of a command: its name is in the case of the line.
#[derive(Clone, Copy)]
struct Given<'a> {
    number: u32,
    name: &'a str,
    value: &'a [u8],
}

/// The next event of the pending bytes: `unftp_next` of include/unftp_control.h.
#[unsafe(no_mangle)]
pub extern "C" fn unftp_next(
    alloc: Global,
    connection: &mut Connection,
    bytes: &[u8],
    area: &mut [u8],
    line: &mut Line,
) -> u32
    // What is left is the definition's function of the arguments; or memory ran out for a complete
    // line that may take memory, and connection and area are unchanged.
    ensures leaves { Leaves (call_with connection.old bytes.now area.old)
        (left_with result connection.new area.new line.new) }
    // A name is UTF-8, and so is a value, except those of USER, PASS, ACCT and STAT.
    ensures texts { HasTexts bytes.now (left_with result connection.new area.new line.new) }
{
    *line = Line {
        used: 0,
        name_len: 0,
        value_len: 0,
        value_at: 0,
    };
    if !is_valid(connection, bytes.len()) {
        return Status::InvalidArgument.number();
    }
    let mut codec = resume(connection);
    take_first(alloc, bytes, &mut codec, connection, area, line)
}

/// Whether the offset is within so many bytes, and is 0 while bytes are skipped.
fn is_valid(connection: &Connection, len: usize) -> bool
    ensures { result ≡ is_valid connection.now len }
{
    connection.offset <= len
        && (connection.skipping == 0 || connection.skipping == 1 && connection.offset == 0)
}

/// A codec that goes on where the last call stopped.
fn resume(connection: &Connection) -> FtpCodec
    requires { connection.now.skipping ≡ 1 → connection.now.offset ≡ 0 }
    ensures { result ≡ codec_of connection.now }
{
    let limit = if connection.limit == 0 {
        None
    } else {
        Some(connection.limit)
    };
    FtpCodec::resume(limit, connection.offset, connection.skipping == 1)
}

/// Takes the first line, where one is complete, by a codec that has scanned nothing so far.
fn take_first(
    alloc: Global,
    bytes: &[u8],
    codec: &mut FtpCodec,
    connection: &mut Connection,
    area: &mut [u8],
    line: &mut Line,
) -> u32
    requires lengths { line.old ≡ no_lengths }
    requires valid { is_valid connection.old (length bytes.now) ≡ true }
    requires codec { codec.old ≡ codec_of connection.old }
    ensures leaves { Leaves (call_with connection.old bytes.now area.old)
        (left_with result connection.new area.new line.new) }
    // Each byte of the line is scanned once, but those that an earlier call has scanned.
    ensures scans { codec.new.tests ≡ scans (call_with connection.old bytes.now area.old) }
{
    match codec.find_line(bytes) {
        FirstLine::Incomplete { dropped } => {
            report(Status::More, dropped, codec, connection, line)
        }
        FirstLine::TooLong { length } => {
            report(Status::LineTooLong, length, codec, connection, line)
        }
        FirstLine::Complete { length } => {
            let (front, _) = bytes.split_at(length);
            codec.reset();
            take_line(alloc, front, codec, connection, area, line)
        }
    }
}

/// Takes a complete line, after which the codec is at the start of the next.
fn take_line(
    alloc: Global,
    bytes: &[u8],
    codec: &FtpCodec,
    connection: &mut Connection,
    area: &mut [u8],
    line: &mut Line,
) -> u32
    requires lengths { line.old ≡ no_lengths }
    requires codec { (codec.now.place ≡ 0) × (codec.now.skipping ≡ false) }
    ensures { (pending : Bytes) → LeavesLine (call_with connection.old pending area.old) bytes.now
        (left_with result connection.new area.new line.new) }
{
    let words = Words::of(bytes);
    if let Some(verb) = words.lone_verb() {
        return give_verb(verb, bytes, connection, line);
    }
    if let Some(value) = words.usual_value() {
        return give_value(words.verb(), value, bytes, connection, line);
    }
    match words.parts() {
        Ok(parts) => give_command(alloc, parts, bytes, connection, area, line),
        Err(kind) => report(kind_status(&kind), bytes.len(), codec, connection, line),
    }
}

/// Reports why no command is given, after so many bytes are used up. The connection goes on where
/// the codec is.
fn report(
    status: Status,
    used: usize,
    codec: &FtpCodec,
    connection: &mut Connection,
    line: &mut Line,
) -> u32
    requires { line.old ≡ no_lengths }
    ensures { (bytes area : Bytes) → left_with result connection.new area line.new
        ≡ used_up (call_with connection.old bytes area) status used
        (resumed connection.old codec.now) }
{
    line.used = used;
    connection.offset = codec.place();
    connection.skipping = u32::from(codec.skipping());
    status.number()
}

/// Gives the verb of a line that says nothing else.
#[inline(always)]
fn give_verb(verb: Verb, bytes: &[u8], connection: &mut Connection, line: &mut Line) -> u32
    requires { line.old ≡ no_lengths }
    ensures { (pending area : Bytes) → left_with result connection.new area line.new
        ≡ gives (call_with connection.old pending area) bytes.now
        (given_of (record { verb = verb; name = []; value = Nothing })) }
{
    (line.used, connection.offset, connection.skipping) = (bytes.len(), 0, 0);
    verb.number()
}

/// Gives the verb of a line, and its value, which is right before the line's CR LF.
#[inline(always)]
fn give_value(
    verb: Verb,
    value: &[u8],
    bytes: &[u8],
    connection: &mut Connection,
    line: &mut Line,
) -> u32
    requires some { 0 < length value.now }
    requires end { EndsAfterByte bytes.now (value.now ++ crlf) }
    ensures { (pending area : Bytes) → left_with result connection.new area line.new
        ≡ gives (call_with connection.old pending area) bytes.now
        (record { number = number verb; name = []; value = value.now }) }
{
    *line = Line {
        used: bytes.len(),
        name_len: 0,
        value_len: value.len(),
        value_at: bytes.len() - 2 - value.len(),
    };
    (connection.offset, connection.skipping) = (0, 0);
    verb.number()
}

/// Gives the command that parts of the line are.
#[inline(always)]
fn give_command(
    alloc: Global,
    parts: Parts<'_>,
    bytes: &[u8],
    connection: &mut Connection,
    area: &mut [u8],
    line: &mut Line,
) -> u32
    requires { line.old ≡ no_lengths }
    ensures { (answer : Outcome) → IsSaid answer (said_of parts.entry)
        → (pending : Bytes) → GivesCommand (call_with connection.old pending area.old) bytes.now
        answer (IsInPlace parts.entry.value)
        (left_with result connection.new area.new line.new) }
{
    if is_word(&parts) {
        return give_verb(parts.verb, bytes, connection, line);
    }
    if !parts.value.is_in_place() {
        return give_made(alloc, parts, bytes, connection, area, line);
    }
    let mut digits = Buffer::new();
    give(
        given_of_parts(parts, &mut digits),
        bytes,
        connection,
        area,
        line,
    )
}

/// Whether the parts have neither a name nor a value, so that their verb says all.
#[inline(always)]
fn is_word(parts: &Parts<'_>) -> bool
    ensures { IsTrue result → said_of parts.now
        ≡ record { verb = parts.now.verb; name = []; value = Nothing } }
{
    matches!(parts.value, Value::None) && parts.name.is_empty()
}

/// Gives the command that is made of parts, for the memory that it takes. It is for a value that
/// has to be put together: for CR NUL in it, and for ill-formed UTF-8 in a text.
#[inline(never)]
fn give_made(
    alloc: Global,
    parts: Parts<'_>,
    bytes: &[u8],
    connection: &mut Connection,
    area: &mut [u8],
    line: &mut Line,
) -> u32
    requires lengths { line.old ≡ no_lengths }
    requires made { ¬ IsInPlace parts.value }
    ensures { (answer : Outcome) → IsSaid answer (said_of parts.entry)
        → (pending : Bytes) → GivesCommand (call_with connection.old pending area.old) bytes.now
        answer ⊥ (left_with result connection.new area.new line.new) }
{
    match Command::from_parts(alloc, &parts) {
        Ok(command) => {
            let mut digits = Buffer::new();
            let given = given_of_parts(command.parts(), &mut digits);
            let number = give(given, bytes, connection, area, line);
            drop(command);
            number
        }
        Err(_) => Status::OutOfMemory.number(),
    }
}

/// What a caller is given for parts; `digits` has room for those of a number.
#[inline(always)]
fn given_of_parts<'a>(parts: Parts<'a>, digits: &'a mut Buffer) -> Given<'a>
    requires { IsInPlace parts.value }
    ensures { given_meant result ≡ given_of (said_of parts.entry) }
{
    Given {
        number: parts.verb.number(),
        name: parts.name,
        value: parts.value.bytes(digits).unwrap_or(&[]),
    }
}

/// Gives a line: writes its name to the area, and its value where the line doesn't have it as it
/// is, where the area has room for both. Reports how long they are, and where the value is, and
/// returns the number of the command.
#[inline(always)]
fn give(
    given: Given<'_>,
    bytes: &[u8],
    connection: &mut Connection,
    area: &mut [u8],
    line: &mut Line,
) -> u32
    ensures { (pending : Bytes) → left_with result connection.new area.new line.new
        ≡ gives (call_with connection.old pending area.old) bytes.now (given_meant given.entry) }
{
    let Given {
        number,
        name,
        value,
    } = given;
    let value_at = value_place(bytes, value);
    *line = Line {
        used: 0,
        name_len: name.len(),
        value_len: value.len(),
        value_at,
    };
    let text = if value_at > 0 { &[] } else { value };
    if name.len() + text.len() > area.len() {
        return Status::NoRoom.number();
    }
    write_texts(name, text, area);
    (line.used, connection.offset, connection.skipping) = (bytes.len(), 0, 0);
    number
}

/// The line without its end, CR LF or LF.
#[inline(always)]
pub fn line_text(line: &[u8]) -> &[u8]
    // It is the line without its CR LF, or else without its last byte.
    ensures { result.now ≡ line_text line.now }
{
    let end = if line.ends_with(b"\r\n") { 2 } else { 1 };
    let (text, _) = line.split_at(line.len().saturating_sub(end));
    text
}

/// Where the line has the value as it is: right before its end, after another byte. Else it is 0.
#[inline(always)]
fn value_place(line: &[u8], value: &[u8]) -> usize
    ensures { result ≡ value_place line.now value.now }
{
    let text = line_text(line);
    if value.is_empty() || !text.ends_with(value) {
        return 0;
    }
    text.len() - value.len()
}

/// Writes the name in upper case, and the text after it, to the start of the area, which has room
/// for both.
#[inline(always)]
fn write_texts(name: &str, text: &[u8], area: &mut [u8])
    requires { length name.now + length text.now ≤ length area.old }
    ensures { area.new ≡ overwritten (upper name.now ++ text.now) area.old }
{
    let (front, rest) = area.split_at_mut(name.len());
    if !name.is_empty() {
        front.copy_from_slice(name.as_bytes());
        front.make_ascii_uppercase();
    }
    if !text.is_empty() {
        overwrite(text, rest);
    }
}
