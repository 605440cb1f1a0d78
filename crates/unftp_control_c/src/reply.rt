//! Replies: one that is written, and the first of those that were received.
ghost use Rattle.std.specs.Prelude.{◌≡◌, ◌↔◌, ◌≤◌, ◌+◌, ◌*◌, ◌==◌, ℕ, [], ◌∷◌, ◌++◌, if◌then◌else◌, length, take, List, IsTrue};
ghost use Rattle.std.specs.Str.Lines.{strip_carriage_return};
ghost use Rattle.unftp_control_defs.specs.Bytes.{Bytes, LF, Lacks, crlf};
ghost use Rattle.unftp_control_defs.specs.FtpReply.{CodeAndMsg, MultiLine, encoded, spaced_line};
ghost use Rattle.unftp_control_defs.specs.ReplyReader.{FrontReply, IsMalformed, IsPartial, ReadsBack};
ghost use Rattle.unftp_control_codecs.specs.Encoding.{padded_line};
ghost use Rattle.unftp_control_commands.specs.Areas.{HasText};
ghost use Rattle.unftp_control_commands.specs.ReplyTexts.{quoted};
ghost use Rattle.unftp_control_c.specs.Areas.{filled, written};
ghost use Rattle.unftp_control_c.specs.Numbers.{status_number};
ghost use Rattle.unftp_control_c.specs.Replies.{reply_bytes, text_lines, text_reply};
ghost use Rattle.unftp_control_c.specs.declared.status.Status.TheVariants.{Done, More, Malformed};

use crate::areas::write;
use crate::status::Status;
use itoa::Buffer;
use unftp_control_codecs::{begins_with_digit, is_reply_code};
use unftp_control_commands::pieces::{cut, overwrite_both, put};
use unftp_control_commands::write_quoted;
use unftp_control_read::find_reply;

/// The bytes of a reply: `unftp_reply` of include/unftp_control.h.
#[unsafe(no_mangle)]
pub extern "C" fn unftp_reply(code: u32, text: &[u8], out: &mut [u8], len: &mut usize) -> u32
    // The bytes of the reply with this code and text are written, or `out` is unchanged and the
    // result reports an unknown code or no room.
    ensures writes { record { result = result; area = out.new; text_length = len.new }
        ≡ written (reply_bytes code text.now) out.old }
    // At `Done` a client finds exactly this reply in what is written.
    ensures read_back { result ≡ status_number Done
        → ReadsBack (take len.new out.new) (text_reply code text.now ∷ []) }
{
    if !is_reply_code(code) {
        return write(Err(Status::UnknownCode), out, len);
    }
    if is_one_line(text) {
        return write_line(code, text, out, len);
    }
    if surely_fit(text.len(), out.len()) {
        return write_fitting_lines(code, text, out, len);
    }
    write_lines(code, text, out, len)
}

/// Whether an area of so many bytes has room for the reply of any lines of so long a text. A byte
/// of the text takes three at most, and the two codes take ten with what is around them.
fn surely_fit(text_len: usize, area_len: usize) -> bool
    ensures { IsTrue result ↔ (3 * text_len + 10 ≤ area_len) }
{
    10 <= area_len && text_len <= (area_len - 10) / 3
}

/// Writes the reply of the text's lines to the start of the area, which has room for it, and
/// reports how long it is.
fn write_fitting_lines(code: u32, text: &[u8], area: &mut [u8], len: &mut usize) -> u32
    requires lines { ¬ Lacks LF text.now }
    requires room { length (encoded (MultiLine code (text_lines text.now))) ≤ length area.old }
    ensures { record { result = result; area = area.new; text_length = len.new }
        ≡ filled (encoded (MultiLine code (text_lines text.now))) area.old }
{
    put_lines(code, text, area, len);
    Status::Done.number()
}

/// Writes the reply of one line to the start of the area, where it has room for it, and reports how
/// long it is: the number of what has come of it.
pub fn write_line(code: u32, text: &[u8], area: &mut [u8], len: &mut usize) -> u32
    // The reply of one line is written where the area has room for it. Otherwise the area is
    // unchanged, and the length is the room that is needed.
    ensures { record { result = result; area = area.new; text_length = len.new }
        ≡ filled (encoded (CodeAndMsg code text.now)) area.old }
{
    let mut digits = Buffer::new();
    let digits = digits.format(code).as_bytes();
    let space = space_before(text);
    let front = digits.len() + space.len();
    *len = front + text.len() + 2;
    if *len > area.len() {
        return Status::NoRoom.number();
    }
    let (start, rest) = area.split_at_mut(front);
    overwrite_both(digits, space, start);
    overwrite_both(text, b"\r\n", rest);
    Status::Done.number()
}

/// The space between a code and the text, or nothing before an empty one.
fn space_before(text: &[u8]) -> &'static [u8]
    ensures line { result.now ++ (text.now ++ crlf)
        ≡ (if length text.now == 0 then crlf else spaced_line text.now) }
    ensures short { length result.now ≤ 1 }
{
    if text.is_empty() { b"" } else { b" " }
}

/// Writes the reply of the text's lines to the start of the area, where it has room for it, and
/// reports how long it is: the number of what has come of it. The lines are counted before any is
/// written.
fn write_lines(code: u32, text: &[u8], area: &mut [u8], len: &mut usize) -> u32
    requires { ¬ Lacks LF text.now }
    ensures { record { result = result; area = area.new; text_length = len.new }
        ≡ filled (encoded (MultiLine code (text_lines text.now))) area.old }
{
    put_lines(code, text, &mut [], len);
    if *len > area.len() {
        return Status::NoRoom.number();
    }
    write_fitting_lines(code, text, area, len)
}

/// Writes the reply of the text's lines to the start of the area, where it has room for it, and its
/// length to `len`. Without room a part of it may be written; an empty area serves to count.
fn put_lines(code: u32, text: &[u8], area: &mut [u8], len: &mut usize)
    requires { ¬ Lacks LF text.now }
    ensures { HasText area.old (encoded (MultiLine code (text_lines text.now))) area.new len.new }
{
    let mut digits = Buffer::new();
    let digits = digits.format(code).as_bytes();
    *len = 0;
    put(digits, area, len);
    put(b"-", area, len);
    let mut rest = text;
    'lines: while let Some((line, after)) = cut(rest, b'\n') {
        put_padded(without_carriage_return(line), area, len);
        rest = after;
    }
    put(digits, area, len);
    put_spaced(rest, area, len);
}

/// Writes a line before the last, with its end, after what is in the area.
fn put_padded(line: &[u8], area: &mut [u8], len: &mut usize)
    ensures { (start text : Bytes) → HasText start text area.old len.old
        → HasText start (text ++ padded_line line.now) area.new len.new }
{
    if begins_with_digit(line) {
        return put_spaced(line, area, len);
    }
    put_ended(line, area, len);
}

/// Writes a space, a line and its end after what is in the area.
fn put_spaced(line: &[u8], area: &mut [u8], len: &mut usize)
    ensures { (start text : Bytes) → HasText start text area.old len.old
        → HasText start (text ++ spaced_line line.now) area.new len.new }
{
    put(b" ", area, len);
    put_ended(line, area, len);
}

/// Writes a line and its end after what is in the area.
fn put_ended(line: &[u8], area: &mut [u8], len: &mut usize)
    ensures { (start text : Bytes) → HasText start text area.old len.old
        → HasText start (text ++ (line.now ++ crlf)) area.new len.new }
{
    put(line, area, len);
    put(b"\r\n", area, len);
}

/// A line before a line feed, without the carriage return that belongs to the line's end.
fn without_carriage_return(line: &[u8]) -> &[u8]
    ensures { result.now ≡ strip_carriage_return line.now }
{
    match line.split_last() {
        Some((last, front)) if *last == b'\r' => front,
        _ => line,
    }
}

/// Whether the text has no line feed.
fn is_one_line(text: &[u8]) -> bool
    ensures { IsTrue result ↔ Lacks LF text.now }
{
    !text.contains(&b'\n')
}

/// The path between double quotes: `unftp_quoted_path` of include/unftp_control.h.
#[unsafe(no_mangle)]
pub extern "C" fn unftp_quoted_path(path: &[u8], out: &mut [u8], len: &mut usize) -> u32
    // The path between double quotes is written where `out` has room for it. Otherwise `out` is
    // unchanged, and `len` is the room that is needed.
    ensures { record { result = result; area = out.new; text_length = len.new }
        ≡ filled (quoted path.now) out.old }
{
    write_quoted(path, &mut [], len);
    if *len > out.len() {
        return Status::NoRoom.number();
    }
    write_quoted(path, out, len);
    Status::Done.number()
}

/// What was found: `struct unftp_found_reply` of include/unftp_control.h.
#[repr(C)]
#[derive(Clone, Copy)]
pub struct FoundReply {
    /// How many bytes the reply takes.
    pub used: usize,
    /// Its code.
    pub code: u32,
}

/// Finds the reply at the start: `unftp_front_reply` of include/unftp_control.h.
#[unsafe(no_mangle)]
pub extern "C" fn unftp_front_reply(bytes: &[u8], reply: &mut FoundReply) -> u32
    // At `Done` the bytes begin with a reply of this code and length.
    ensures found { result ≡ status_number Done
        → ((lines : List Bytes) × FrontReply bytes.now reply.new.code lines reply.new.used)
        × (reply.new.used ≤ length bytes.now) }
    // Where the bytes begin with a reply, the result is `Done`, with its code and length.
    ensures whole { (code : ℕ) (lines : List Bytes) (used : ℕ)
        → FrontReply bytes.now code lines used
        → (result ≡ status_number Done) × (reply.new ≡ record { used = used; code = code }) }
    // Where more bytes are needed for a reply, the result is `More`, and code and length are 0.
    ensures more { IsPartial bytes.now
        → (result ≡ status_number More) × (reply.new ≡ record { used = 0; code = 0 }) }
    // Where the bytes are malformed, the result is `Malformed`, and code and length are 0.
    ensures malformed { IsMalformed bytes.now
        → (result ≡ status_number Malformed) × (reply.new ≡ record { used = 0; code = 0 }) }
{
    *reply = FoundReply { used: 0, code: 0 };
    match find_reply(bytes) {
        unftp_control_read::FoundReply::Whole { code, used } => {
            *reply = FoundReply {
                used,
                code: u32::from(code),
            };
            Status::Done.number()
        }
        unftp_control_read::FoundReply::Partial => Status::More.number(),
        unftp_control_read::FoundReply::Malformed => Status::Malformed.number(),
    }
}
