//! The bytes of replies.
ghost use Rattle.std.specs.Prelude.{◌≡◌, ◌==◌, ◌≤◌, ℕ, ◌∷◌, ◌++◌, ◌+◌, ◌%◌, take, length, map, flat_map, vec_capacity, vec_len, decimal, IsOk, MatchOption, OnErr, OnOk, if◌then◌else◌};
ghost use Rattle.unftp_control_defs.specs.Bytes.{SP, crlf};
ghost use Rattle.unftp_control_defs.specs.FtpReply.{Nothing, CodeAndMsg, MultiLine, HasThreeDigits, encoded, padded, spaced_line};
ghost use Rattle.unftp_control_defs.specs.Room.{LacksRoom};
ghost use Rattle.unftp_control_message.specs.ReplyMeaning.{reply_of};
ghost use Rattle.unftp_control_codecs.specs.Encoding.{padded_line, lines_before_last};

use std::alloc::AllocError;
use std::convert::AsSlice;
use unftp_control_message::reply::Reply;

/// How many bytes end a line: CR LF.
const LINE_END: usize = 2;

/// Appends the bytes of the reply. The buffer grows once at most, and only where it lacks room for
/// them; when out of memory, it is as it was.
pub fn append_reply(reply: &Reply, buf: &mut Vec<u8>) -> Result<(), AllocError>
    // At `Ok` exactly the bytes of the reply are appended; `Reply::None` has none.
    ensures ok { OnOk result (buf.new.items ≡ buf.old.items ++ encoded (reply_of reply.now)) }
    // At an error the buffer holds what it held.
    ensures err { OnErr result (buf.new.items ≡ buf.old.items) }
    // For `Reply::None` it always returns `Ok`.
    ensures no_memory { reply_of reply.now ≡ Nothing → IsOk result }
    // It is out of memory only where the buffer lacks room for those bytes.
    ensures memory { OnErr result (LacksRoom buf.old (encoded (reply_of reply.now))) }
{
    let length = buf.len();
    let appended = append_parts(reply, buf);
    if appended.is_err() {
        buf.truncate(length);
    }
    appended
}

/// Appends the bytes of the reply, or perhaps a part of them when out of memory. The buffer grows
/// once at most.
fn append_parts(reply: &Reply, buf: &mut Vec<u8>) -> Result<(), AllocError>
    ensures ok { OnOk result (buf.new.items ≡ buf.old.items ++ encoded (reply_of reply.now)) }
    ensures kept { take (vec_len buf.old) buf.new.items ≡ buf.old.items }
    ensures no_memory { reply_of reply.now ≡ Nothing → IsOk result }
    ensures memory { OnErr result (LacksRoom buf.old (encoded (reply_of reply.now))) }
{
    match reply {
        Reply::None => Ok(()),
        Reply::CodeAndMsg { code, msg } => append_line(code.number(), msg.as_bytes(), buf),
        Reply::MultiLine { code, lines } => append_lines(code.number(), lines.as_slice(), buf),
    }
}

/// Appends a reply of one line, or perhaps a part of it when out of memory.
fn append_line(code: u32, text: &[u8], buf: &mut Vec<u8>) -> Result<(), AllocError>
    ensures ok { OnOk result (buf.new.items
        ≡ buf.old.items ++ encoded (CodeAndMsg code text.now)) }
    ensures kept { take (vec_len buf.old) buf.new.items ≡ buf.old.items }
    ensures memory { OnErr result (LacksRoom buf.old (encoded (CodeAndMsg code text.now))) }
{
    buf.reserve(code_len(code).saturating_add(text_len(text)))?;
    append_code(code, buf)?;
    append_text(text, buf)
}

/// How many bytes follow the code of a reply of one line, where so many can be counted.
fn text_len(text: &[u8]) -> usize
    ensures { result ≤ length (if length text.now == 0 then crlf else spaced_line text.now) }
{
    if text.is_empty() {
        return LINE_END;
    }
    spaced_line_len(text)
}

/// How many bytes a space, the text and CR LF are, where so many can be counted.
fn spaced_line_len(text: &[u8]) -> usize
    ensures { result ≤ length (spaced_line text.now) }
{
    text.len().saturating_add(1 + LINE_END)
}

/// How many bytes a line before the last has, where so many can be counted.
fn padded_line_len(line: &[u8]) -> usize
    ensures { result ≤ length (padded_line line.now) }
{
    if begins_with_digit(line) {
        return spaced_line_len(line);
    }
    line.len().saturating_add(LINE_END)
}

/// How many digits the code has. One that has not three, as `ReplyCode` has some, has one.
fn code_len(code: u32) -> usize
    ensures { result ≤ length (decimal code) }
{
    match code {
        100..=999 => 3,
        _ => 1,
    }
}

/// How many bytes lines before the last have, where so many can be counted.
fn padded_lines_len<S: AsSlice<u8>>(lines: &[S]) -> usize
    ensures { result ≤ length (flat_map padded_line (map S.items lines.now)) }
{
    let mut len: usize = 0;
    for line in lines {
        len = len.saturating_add(padded_line_len(line.as_slice()));
    }
    len
}

/// How many bytes the code, a dash and all lines before the last have, if there are any, where so
/// many can be counted.
fn lines_before_last_len<S: AsSlice<u8>>(code: u32, lines: &[S]) -> usize
    ensures { result ≤ length (lines_before_last code (map S.items lines.now)) }
{
    if lines.is_empty() {
        return 0;
    }
    code_len(code)
        .saturating_add(1)
        .saturating_add(padded_lines_len(lines))
}

/// Appends the code in decimal.
#[inline]
fn append_code(code: u32, buf: &mut Vec<u8>) -> Result<(), AllocError>
    ensures ok { OnOk result (buf.new.items ≡ buf.old.items ++ decimal code) }
    ensures kept { take (vec_len buf.old) buf.new.items ≡ buf.old.items }
    ensures memory { OnErr result (LacksRoom buf.old (decimal code)) }
    ensures capacity { vec_capacity buf.old ≤ vec_capacity buf.new }
{
    // nearly every code, and faster than by `itoa`, whose digits are copied once more
    if let Some(digits) = three_digits(code) {
        return buf.extend_from_slice(&digits);
    }
    let mut digits = itoa::Buffer::new();
    buf.extend_from_slice(digits.format(code).as_bytes())
}

/// The digits of the number, where it has three.
fn three_digits(number: u32) -> Option<[u8; 3]>
    ensures { MatchOption result (¬ HasThreeDigits number) (λ digits. digits ≡ decimal number) }
{
    match number {
        100..=999 => Some([digit(number / 100), digit(number / 10), digit(number)]),
        _ => None,
    }
}

/// The last digit of the number.
fn digit(number: u32) -> u8
    ensures { result ≡ 48 + number % 10 }
{
    b'0' + (number % 10) as u8
}

/// Appends what follows the code of a reply of one line: a space and the text, or nothing where it
/// is empty, and CR LF.
fn append_text(text: &[u8], buf: &mut Vec<u8>) -> Result<(), AllocError>
    ensures ok { OnOk result (buf.new.items
        ≡ buf.old.items ++ (if length text.now == 0 then crlf else spaced_line text.now)) }
    ensures kept { take (vec_len buf.old) buf.new.items ≡ buf.old.items }
    ensures memory { OnErr result (LacksRoom buf.old
        (if length text.now == 0 then crlf else spaced_line text.now)) }
{
    if text.is_empty() {
        return buf.extend_from_slice(b"\r\n");
    }
    append_spaced_line(text, buf)
}

/// Appends the text and CR LF.
#[inline]
fn append_ended(text: &[u8], buf: &mut Vec<u8>) -> Result<(), AllocError>
    ensures ok { OnOk result (buf.new.items ≡ buf.old.items ++ (text.now ++ crlf)) }
    ensures kept { take (vec_len buf.old) buf.new.items ≡ buf.old.items }
    ensures memory { OnErr result (LacksRoom buf.old (text.now ++ crlf)) }
    ensures capacity { vec_capacity buf.old ≤ vec_capacity buf.new }
{
    buf.extend_from_slice(text)?;
    buf.extend_from_slice(b"\r\n")
}

/// Appends a space, the text and CR LF.
#[inline]
fn append_spaced_line(text: &[u8], buf: &mut Vec<u8>) -> Result<(), AllocError>
    ensures ok { OnOk result (buf.new.items ≡ buf.old.items ++ spaced_line text.now) }
    ensures kept { take (vec_len buf.old) buf.new.items ≡ buf.old.items }
    ensures memory { OnErr result (LacksRoom buf.old (spaced_line text.now)) }
    ensures capacity { vec_capacity buf.old ≤ vec_capacity buf.new }
{
    buf.push(b' ')?;
    append_ended(text, buf)
}

/// Whether the text begins with a digit. A line before the last of a reply then follows a space, so
/// that no client takes it for the last one (RFC 959, section 4.2).
pub fn begins_with_digit(text: &[u8]) -> bool
    // True exactly where a line before the last is padded with a space.
    ensures { padded text.now ≡ (if result then SP ∷ text.now else text.now) }
{
    match text {
        [first, ..] => first.is_ascii_digit(),
        [] => false,
    }
}

/// Appends a line before the last: a space where it begins with a digit, the line and CR LF.
fn append_padded_line(line: &[u8], buf: &mut Vec<u8>) -> Result<(), AllocError>
    ensures ok { OnOk result (buf.new.items ≡ buf.old.items ++ padded_line line.now) }
    ensures kept { take (vec_len buf.old) buf.new.items ≡ buf.old.items }
    ensures memory { OnErr result (LacksRoom buf.old (padded_line line.now)) }
    ensures capacity { vec_capacity buf.old ≤ vec_capacity buf.new }
{
    if begins_with_digit(line) {
        return append_spaced_line(line, buf);
    }
    append_ended(line, buf)
}

/// Appends lines before the last.
fn append_padded_lines<S: AsSlice<u8>>(lines: &[S], buf: &mut Vec<u8>) -> Result<(), AllocError>
    ensures ok { OnOk result
        (buf.new.items ≡ buf.old.items ++ flat_map padded_line (map S.items lines.now)) }
    ensures kept { take (vec_len buf.old) buf.new.items ≡ buf.old.items }
    ensures memory { OnErr result
        (LacksRoom buf.old (flat_map padded_line (map S.items lines.now))) }
    ensures capacity { vec_capacity buf.old ≤ vec_capacity buf.new }
{
    for line in lines {
        append_padded_line(line.as_slice(), buf)?;
    }
    Ok(())
}

/// Appends the code, a dash and all lines before the last, if there are any.
fn append_lines_before_last<S: AsSlice<u8>>(
    code: u32,
    lines: &[S],
    buf: &mut Vec<u8>,
) -> Result<(), AllocError>
    ensures ok { OnOk result (buf.new.items
        ≡ buf.old.items ++ lines_before_last code (map S.items lines.now)) }
    ensures kept { take (vec_len buf.old) buf.new.items ≡ buf.old.items }
    ensures memory { OnErr result
        (LacksRoom buf.old (lines_before_last code (map S.items lines.now))) }
    ensures capacity { vec_capacity buf.old ≤ vec_capacity buf.new }
{
    if lines.is_empty() {
        return Ok(());
    }
    append_code(code, buf)?;
    buf.push(b'-')?;
    append_padded_lines(lines, buf)
}

/// The last line, which is empty where there is none, and the lines before it.
fn last_and_front<S: AsSlice<u8>>(lines: &[S]) -> (&[u8], &[S])
    ensures { (code : ℕ) → encoded (MultiLine code (map S.items lines.now))
        ≡ lines_before_last code (map S.items result.1.now)
        ++ (decimal code ++ spaced_line result.0.now) }
{
    match lines.split_last() {
        Some((last, front)) => (last.as_slice(), front),
        None => (b"", lines),
    }
}

/// Appends a reply with this code and these lines, or perhaps a part of it when out of memory. The
/// buffer grows once at most, and only where it lacks room for the reply.
pub fn append_lines<S: AsSlice<u8>>(
    code: u32,
    lines: &[S],
    buf: &mut Vec<u8>,
) -> Result<(), AllocError>
    // At `Ok` exactly the bytes of the reply with this code and these lines are appended.
    ensures ok { OnOk result (buf.new.items
        ≡ buf.old.items ++ encoded (MultiLine code (map S.items lines.now))) }
    // The bytes that the buffer held stay, whatever the result.
    ensures kept { take (vec_len buf.old) buf.new.items ≡ buf.old.items }
    // It is out of memory only where the buffer lacks room for those bytes.
    ensures memory { OnErr result
        (LacksRoom buf.old (encoded (MultiLine code (map S.items lines.now)))) }
{
    let (last, front) = last_and_front(lines);
    let last_len = code_len(code).saturating_add(spaced_line_len(last));
    buf.reserve(lines_before_last_len(code, front).saturating_add(last_len))?;
    append_lines_before_last(code, front, buf)?;
    append_code(code, buf)?;
    append_spaced_line(last, buf)
}
