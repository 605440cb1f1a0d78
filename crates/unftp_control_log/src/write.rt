//! An exchange as a line of a log.
ghost use Rattle.std.specs.Prelude.{◌≡◌, ◌≤◌, ◌++◌, OnErr, OnOk, decimal, flat_map, map, take, vec_capacity, vec_len};
ghost use Rattle.unftp_control_defs.specs.Room.{LacksRoom};
ghost use Rattle.unftp_control_read.specs.Reading.{contents};
ghost use Rattle.unftp_control_read.specs.ReplyDecoding.{content};
ghost use Rattle.unftp_control_log.specs.ExchangeLine.{exchange_line, further_line, further_reply, line_text, lines_text, replies_text, reply_text};
ghost use Rattle.unftp_control_log.specs.Exchanges.{entry_of, held_text};

use crate::text::append_shown;
use itoa::Buffer;
use std::alloc::AllocError;
use unftp_control_read::ReceivedReply;

/// A line of the client, or the greeting, with its replies (RFC 959, section 5.4).
#[derive(Debug, Drop)]
pub struct Exchange {
    /// The line as a log shows it (`write_log_line`). `None` is the connection, which the server
    /// greets.
    pub line: Option<Vec<u8>>,
    /// The preliminary replies to it, and then the final one.
    pub replies: Vec<ReceivedReply>,
}

/// Appends a line of a reply after the first one. As of all that follow, when out of memory there
/// is perhaps a part of it.
fn append_further_line(line: &[u8], buf: &mut Vec<u8>) -> Result<(), AllocError>
    ensures ok { OnOk result (buf.new.items ≡ buf.old.items ++ further_line line.now) }
    ensures kept { take (vec_len buf.old) buf.new.items ≡ buf.old.items }
    ensures memory { OnErr result (LacksRoom buf.old (further_line line.now)) }
    ensures capacity { vec_capacity buf.old ≤ vec_capacity buf.new }
{
    buf.extend_from_slice(b"\\r\\n")?;
    append_shown(line, buf)
}

/// Appends the lines of a reply after the first one.
fn append_further_lines(lines: &[Vec<u8>], buf: &mut Vec<u8>) -> Result<(), AllocError>
    ensures ok { OnOk result
        (buf.new.items ≡ buf.old.items ++ flat_map further_line (map (λ line. line.items) lines.now)) }
    ensures kept { take (vec_len buf.old) buf.new.items ≡ buf.old.items }
    ensures memory { OnErr result
        (LacksRoom buf.old (flat_map further_line (map (λ line. line.items) lines.now))) }
    ensures capacity { vec_capacity buf.old ≤ vec_capacity buf.new }
{
    for line in lines {
        append_further_line(line.as_slice(), buf)?;
    }
    Ok(())
}

/// Appends the lines of a reply.
fn append_lines(lines: &Vec<Vec<u8>>, buf: &mut Vec<u8>) -> Result<(), AllocError>
    ensures ok { OnOk result (buf.new.items ≡ buf.old.items ++ lines_text (contents lines.now)) }
    ensures kept { take (vec_len buf.old) buf.new.items ≡ buf.old.items }
    ensures memory { OnErr result (LacksRoom buf.old (lines_text (contents lines.now))) }
    ensures capacity { vec_capacity buf.old ≤ vec_capacity buf.new }
{
    let Some((first, further)) = lines.as_slice().split_first() else {
        return Ok(());
    };
    if first.is_empty() && further.is_empty() {
        return Ok(());
    }
    buf.push(b' ')?;
    append_shown(first.as_slice(), buf)?;
    append_further_lines(further, buf)
}

/// Appends a reply: its code and its lines.
fn append_reply(reply: &ReceivedReply, buf: &mut Vec<u8>) -> Result<(), AllocError>
    ensures ok { OnOk result (buf.new.items ≡ buf.old.items ++ reply_text (content reply.now)) }
    ensures kept { take (vec_len buf.old) buf.new.items ≡ buf.old.items }
    ensures memory { OnErr result (LacksRoom buf.old (reply_text (content reply.now))) }
    ensures capacity { vec_capacity buf.old ≤ vec_capacity buf.new }
{
    let mut digits = Buffer::new();
    buf.extend_from_slice(digits.format(reply.code).as_bytes())?;
    append_lines(&reply.lines, buf)
}

/// Appends a reply after the first one.
fn append_further_reply(reply: &ReceivedReply, buf: &mut Vec<u8>) -> Result<(), AllocError>
    ensures ok { OnOk result (buf.new.items ≡ buf.old.items ++ further_reply (content reply.now)) }
    ensures kept { take (vec_len buf.old) buf.new.items ≡ buf.old.items }
    ensures memory { OnErr result (LacksRoom buf.old (further_reply (content reply.now))) }
    ensures capacity { vec_capacity buf.old ≤ vec_capacity buf.new }
{
    buf.extend_from_slice(b" | ")?;
    append_reply(reply, buf)
}

/// Appends the replies after the first one.
fn append_further_replies(replies: &[ReceivedReply], buf: &mut Vec<u8>) -> Result<(), AllocError>
    ensures ok { OnOk result
        (buf.new.items ≡ buf.old.items ++ flat_map further_reply (map content replies.now)) }
    ensures kept { take (vec_len buf.old) buf.new.items ≡ buf.old.items }
    ensures memory { OnErr result
        (LacksRoom buf.old (flat_map further_reply (map content replies.now))) }
    ensures capacity { vec_capacity buf.old ≤ vec_capacity buf.new }
{
    for reply in replies {
        append_further_reply(reply, buf)?;
    }
    Ok(())
}

/// Appends the replies.
fn append_replies(replies: &Vec<ReceivedReply>, buf: &mut Vec<u8>) -> Result<(), AllocError>
    ensures ok { OnOk result
        (buf.new.items ≡ buf.old.items ++ replies_text (map content replies.now.items)) }
    ensures kept { take (vec_len buf.old) buf.new.items ≡ buf.old.items }
    ensures memory { OnErr result
        (LacksRoom buf.old (replies_text (map content replies.now.items))) }
    ensures capacity { vec_capacity buf.old ≤ vec_capacity buf.new }
{
    let Some((first, further)) = replies.as_slice().split_first() else {
        return Ok(());
    };
    buf.push(b' ')?;
    append_reply(first, buf)?;
    append_further_replies(further, buf)
}

/// Appends what the exchange is to.
fn append_line(line: &Option<Vec<u8>>, buf: &mut Vec<u8>) -> Result<(), AllocError>
    ensures ok { OnOk result (buf.new.items ≡ buf.old.items ++ line_text (held_text line.now)) }
    ensures kept { take (vec_len buf.old) buf.new.items ≡ buf.old.items }
    ensures memory { OnErr result (LacksRoom buf.old (line_text (held_text line.now))) }
    ensures capacity { vec_capacity buf.old ≤ vec_capacity buf.new }
{
    let Some(line) = line else {
        return Ok(());
    };
    buf.extend_from_slice(line.as_slice())?;
    Ok(buf.push(b' ')?)
}

/// Appends what the exchange is to, and its replies.
fn append_exchange(exchange: &Exchange, buf: &mut Vec<u8>) -> Result<(), AllocError>
    ensures ok { OnOk result
        (buf.new.items ≡ buf.old.items ++ exchange_line (entry_of exchange.now)) }
    ensures kept { take (vec_len buf.old) buf.new.items ≡ buf.old.items }
    ensures memory { OnErr result (LacksRoom buf.old (exchange_line (entry_of exchange.now))) }
{
    append_line(&exchange.line, buf)?;
    buf.extend_from_slice(b"->")?;
    append_replies(&exchange.replies, buf)
}

/// Appends the exchange as one line of a log, without a line end, and changes no earlier byte of
/// `buf`: its line, `->`, and its replies with ` | ` between two of them. A reply is its code, and
/// after a space its text, if any, in the escapes of Rust's `escape_ascii`, with an escaped CR LF
/// between two lines. So it is `USER bob -> 331 Need password`, `RETR a -> 150 Opening | 226 Done`,
/// and for the greeting `-> 220 Ready`. A code is written as a number, so 000 as `0`.
///
/// It takes no memory but what `buf` needs, and fails only where `buf` has no room for the line and
/// can't grow. `buf` is then as it was.
pub fn write_exchange(exchange: &Exchange, buf: &mut Vec<u8>) -> Result<(), AllocError>
    // At `Ok` exactly the exchange's line is appended. A reply without a text is only its code.
    ensures ok { OnOk result
        (buf.new.items ≡ buf.old.items ++ exchange_line (entry_of exchange.now)) }
    // At an error `buf` stays the same.
    ensures err { OnErr result (buf.new.items ≡ buf.old.items) }
    // It is out of memory only where `buf` lacks room for exactly the exchange's line.
    ensures memory { OnErr result (LacksRoom buf.old (exchange_line (entry_of exchange.now))) }
{
    let length = buf.len();
    let written = append_exchange(exchange, buf);
    if written.is_err() {
        buf.truncate(length);
    }
    written
}
