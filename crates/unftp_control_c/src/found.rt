//! The lines of a reply that was received.
ghost use Rattle.std.specs.Prelude.{◌≡◌, IfOk};
ghost use Rattle.unftp_control_read.specs.Reading.{contents};
ghost use Rattle.unftp_control_c.specs.Areas.{Made, made, written};
ghost use Rattle.unftp_control_c.specs.Replies.{IsFoundText, found_text};

use crate::areas::write;
use crate::status::Status;
use std::alloc::{AllocError, Global};
use unftp_control_read::{Front, ReadReplyError, read_reply};

/// The lines of the reply at the start: `unftp_reply_lines` of include/unftp_control.h.
#[unsafe(no_mangle)]
pub extern "C" fn unftp_reply_lines(
    alloc: Global,
    bytes: &[u8],
    out: &mut [u8],
    len: &mut usize,
) -> u32
    // The lines of the reply at the start, each with CR LF after it, are written, or `out` is
    // unchanged and the result reports why.
    ensures { (text : Made) × IsFoundText bytes.now text
        × (record { result = result; area = out.new; text_length = len.new }
        ≡ written text out.old) }
{
    write(found_text(alloc, bytes), out, len)
}

/// The lines, each with a CR LF after it, or why there are none.
fn found_text(alloc: Global, bytes: &[u8]) -> Result<Vec<u8>, Status>
    ensures { IsFoundText bytes.now (made result) }
{
    let lines = match read_reply(alloc, bytes) {
        Ok(Front::Whole { lines, .. }) => lines,
        Ok(Front::Partial) => return Err(Status::More),
        Err(ReadReplyError::Malformed) => return Err(Status::Malformed),
        Err(ReadReplyError::OutOfMemory) => return Err(Status::OutOfMemory),
    };
    match joined(alloc, &lines) {
        Ok(text) => Ok(text),
        Err(_) => Err(Status::OutOfMemory),
    }
}

/// The lines, each with a CR LF after it.
fn joined(alloc: Global, lines: &Vec<Vec<u8>>) -> Result<Vec<u8>, AllocError>
    ensures { IfOk result (λ text. text.items ≡ found_text (contents lines.now)) }
{
    let mut text = Vec::new(alloc);
    for line in lines {
        text.extend_from_slice(line.as_slice())?;
        text.extend_from_slice(b"\r\n")?;
    }
    Ok(text)
}
