//! The line of a log for an exchange: a line of a client, and its replies.
ghost use Rattle.std.specs.Prelude.{◌≡◌, ◌≢◌, ◌↔◌, ◌<◌, ◌++◌, [], ◌∷◌, IfErr, IfOk, IsTrue, length, map};
ghost use Rattle.unftp_control_defs.specs.FtpCommand.{unless_empty};
ghost use Rattle.unftp_control_defs.specs.TakingSteps.{AreReplies, TakesReply};
ghost use Rattle.unftp_control_log.specs.LogLine.{IsPrintable};
ghost use Rattle.unftp_control_read.specs.ReplyDecoding.{content};
ghost use Rattle.unftp_control_log.specs.Exchanges.{Read, held_text};
ghost use Rattle.unftp_control_c.specs.Areas.{Made, made, written};
ghost use Rattle.unftp_control_c.specs.ExchangeLines.{ArePrintable, IsExchangeLine, IsLeftUnread, IsNotRead, shown_exchange};

use crate::areas::write;
use crate::status::Status;
use std::alloc::{AllocError, Global};
use unftp_control_log::{Exchange, write_exchange};
use unftp_control_read::{
    FoundReply, Front, ReadReplyError, ReceivedReply, find_reply, read_reply,
};

/// The line of a log for an exchange: `unftp_log_exchange` of include/unftp_control.h.
#[unsafe(no_mangle)]
pub extern "C" fn unftp_log_exchange(
    alloc: Global,
    shown: &[u8],
    replies: &[u8],
    out: &mut [u8],
    len: &mut usize,
) -> u32
    // The log's line is written, of what is shown and of the replies that the bytes are. Otherwise
    // `out` is unchanged, and the result reports why.
    ensures { (bytes : Made) × IsExchangeLine shown.now replies.now bytes
        × (record { result = result; area = out.new; text_length = len.new }
        ≡ written bytes out.old) }
{
    write(exchange_line(alloc, shown, replies), out, len)
}

/// The line of the log, or why there is none.
fn exchange_line(alloc: Global, shown: &[u8], bytes: &[u8]) -> Result<Vec<u8>, Status>
    ensures { IsExchangeLine shown.now bytes.now (made result) }
{
    if !are_printable(shown) {
        return Err(Status::InvalidArgument);
    }
    let replies = match all_replies(alloc, bytes) {
        Ok(replies) => replies,
        Err(Status::OutOfMemory) => return Err(fault_of(bytes)),
        Err(status) => return Err(status),
    };
    match shown_exchange(alloc, shown, replies) {
        Ok(text) => Ok(text),
        Err(_) => Err(Status::OutOfMemory),
    }
}

/// Whether each byte is a space, or a character of ASCII that prints.
fn are_printable(text: &[u8]) -> bool
    ensures { IsTrue result ↔ ArePrintable text.now }
{
    text.iter().all(|byte| is_printable(*byte))
}

/// Whether the byte is one of these.
fn is_printable(byte: u8) -> bool
    ensures { IsTrue result ↔ IsPrintable byte }
{
    matches!(byte, b' '..=b'~')
}

/// Why there is no line where memory ran out before all replies were read: that of a reply at
/// fault, if there is one. No memory is taken.
fn fault_of(bytes: &[u8]) -> Status
    ensures { IsNotRead bytes.now result }
{
    let mut rest = bytes;
    while !rest.is_empty() {
        rest = match find_reply(rest) {
            FoundReply::Whole { used, .. } => rest.split_at(used).1,
            FoundReply::Partial => return Status::More,
            FoundReply::Malformed => return Status::Malformed,
        };
    }
    Status::OutOfMemory
}

/// The replies that the bytes are, one after the other, or why they are not.
fn all_replies(alloc: Global, bytes: &[u8]) -> Result<Vec<ReceivedReply>, Status>
    ensures ok { IfOk result (λ replies. AreReplies bytes.now (map content replies.items) []) }
    ensures err { IfErr result (IsLeftUnread bytes.now) }
{
    let mut replies = Vec::new(alloc);
    let mut rest = bytes;
    while !rest.is_empty() {
        rest = take_reply(alloc, rest, &mut replies)?;
    }
    Ok(replies)
}

/// Adds the first reply of the bytes to the replies, and returns the bytes after it.
fn take_reply<'a>(
    alloc: Global,
    bytes: &'a [u8],
    replies: &mut Vec<ReceivedReply>,
) -> Result<&'a [u8], Status>
    requires { bytes.now ≢ [] }
    ensures ok { IfOk result (λ rest. (reply : Read) × TakesReply bytes.now reply rest.now
        × (map content replies.new.items ≡ map content replies.old.items ++ reply ∷ [])) }
    ensures fewer { IfOk result (λ rest. length rest.now < length bytes.now) }
    ensures err { IfErr result (IsLeftUnread bytes.now) }
{
    match read_reply(alloc, bytes) {
        Ok(Front::Whole { code, lines, used }) => {
            if replies.push(ReceivedReply { code, lines }).is_err() {
                return Err(Status::OutOfMemory);
            }
            Ok(bytes.split_at(used).1)
        }
        Ok(Front::Partial) => Err(Status::More),
        Err(ReadReplyError::Malformed) => Err(Status::Malformed),
        Err(ReadReplyError::OutOfMemory) => Err(Status::OutOfMemory),
    }
}

/// The line of what is shown of a line, and of these replies.
fn shown_exchange(
    alloc: Global,
    shown: &[u8],
    replies: Vec<ReceivedReply>,
) -> Result<Vec<u8>, AllocError>
    ensures { IfOk result
        (λ text. text.items ≡ shown_exchange shown.now (map content replies.items)) }
{
    let line = shown_line(alloc, shown)?;
    let exchange = Exchange { line, replies };
    let mut text = Vec::new(alloc);
    write_exchange(&exchange, &mut text)?;
    Ok(text)
}

/// What is shown of a line, or none where that is nothing.
fn shown_line(alloc: Global, shown: &[u8]) -> Result<Option<Vec<u8>>, AllocError>
    ensures { IfOk result (λ line. held_text line ≡ unless_empty shown.now) }
{
    if shown.is_empty() {
        return Ok(None);
    }
    let mut line = Vec::new(alloc);
    line.extend_from_slice(shown)?;
    Ok(Some(line))
}
