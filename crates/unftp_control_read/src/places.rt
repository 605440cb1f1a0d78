//! Where the lines of a reply are.
ghost use Rattle.std.specs.Prelude.{◌≡◌, ◌≤◌, ◌==◌, ◌||◌, ℕ, List, drop, length, map};
ghost use Rattle.unftp_control_defs.specs.Bytes.{Bytes};
ghost use Rattle.unftp_control_defs.specs.ReplyReader.{IsReply};
ghost use Rattle.unftp_control_read.specs.ReplyLines.{AreLinePlaces, FindsLine, text_at, reply_text};
ghost use Rattle.unftp_control_read.specs.declared.places.LinePlace.{LinePlace as RustPlace};

use crate::lines::first_line;

/// Where a line of a reply is.
#[derive(Debug, Clone, Copy, PartialEq, Eq)]
pub struct LinePlace {
    /// Where its text begins.
    pub text_at: usize,
    /// How many bytes its text has.
    pub text_len: usize,
    /// Where the next line begins; after the last one, where the reply ends.
    pub next: usize,
}

/// Where the line of a reply is that begins at `at` (RFC 959, section 4.2); `None` where no line
/// that begins there is complete. Of the first line, at 0, and of the last, the text is what comes
/// after the code and the byte that follows that; of those between it is all of the line.
pub fn line_at(reply: &[u8], at: usize) -> Option<LinePlace>
    // The offset is within the reply, or at its end.
    requires { at ≤ length reply.now }
    // `Some` is the place of the line that begins at `at`. At `None` no CR LF comes from there on.
    ensures { FindsLine reply.now at result }
{
    let (_, rest) = reply.split_at(at);
    let Some((line, after)) = first_line(rest) else {
        return None;
    };
    let next = reply.len() - after.len();
    let code = code_len(has_code(at, next, reply.len()), line);
    Some(LinePlace {
        text_at: at + code,
        text_len: line.len() - code,
        next,
    })
}

/// Whether the line from `at` to `next` has a code, as the first and the last of `len` bytes have.
fn has_code(at: usize, next: usize, len: usize) -> bool
    ensures { result ≡ (at == 0 || len == next) }
{
    at == 0 || len == next
}

/// How many bytes come before the text of a line: a code and the byte that follows it, if any.
fn code_len(has_code: bool, line: &[u8]) -> usize
    ensures within { result ≤ length line.now }
    ensures text { drop result line.now ≡ reply_text has_code line.now }
{
    if has_code { line.len().min(4) } else { 0 }
}

/// The places of the lines of a reply, found one after the other, have the texts that are read of
/// it.
pub fn lines_are_at_places()
    // Where the bytes are one reply of these lines, the texts at the places are these lines, in
    // order.
    ensures { (bytes : Bytes) (code : ℕ) (lines : List Bytes) (places : List RustPlace)
        → IsReply bytes code lines → AreLinePlaces bytes 0 places
        → map (text_at bytes) places ≡ lines }
{}
