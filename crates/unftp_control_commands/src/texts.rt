//! Texts that a reply takes: a path between quotes, and a text in one line.
ghost use Rattle.std.specs.Prelude.{◌≡◌, ◌==◌, if◌then◌else◌, ◌++◌, map, IfOk, IfErr, string_bytes};
ghost use Rattle.unftp_control_defs.specs.Bytes.{Bytes, NUL, LF, Lacks};
ghost use Rattle.unftp_control_defs.specs.Events.{out_of_memory};
ghost use Rattle.unftp_control_defs.specs.Values.{escaped};
ghost use Rattle.unftp_control_message.specs.ErrorMeaning.{fault_of};
ghost use Rattle.unftp_control_commands.specs.Areas.{HasText};
ghost use Rattle.unftp_control_commands.specs.ReplyTexts.{HasNoFirstQuote, doubled, quoted, single_line};

use crate::pieces::{cut, put};
use std::alloc::{AllocError, Global};
use unftp_control_message::reply::error::ControlChanError;

/// The path between double quotes, with each double quote in it doubled, as the replies to PWD and
/// MKD have it (RFC 959, section 5.4 and appendix II). It fails only when out of memory, with the
/// kind `OutOfMemory`. A path that may not be UTF-8 is quoted by `quoted_bytes`.
pub fn quoted_path(alloc: Global, path: &str) -> Result<String, ControlChanError>
    // At `Ok` the text is the path between double quotes, with each double quote in it doubled.
    ensures ok { IfOk result (λ text. string_bytes text ≡ quoted path.now) }
    // The only error is out of memory.
    ensures err { IfErr result (λ error. fault_of error ≡ out_of_memory) }
{
    let doubled = doubled_quotes(alloc, path)?;
    Ok(format!(in alloc; "\"{doubled}\"")?)
}

/// The same text as of `quoted_path`, for a path of any bytes. `encode_lines` makes a reply of it.
/// It fails only when out of memory, with the kind `OutOfMemory`.
pub fn quoted_bytes(alloc: Global, path: &[u8]) -> Result<Vec<u8>, ControlChanError>
    // At `Ok` the text is the path between double quotes, with each double quote in it doubled.
    ensures ok { IfOk result (λ text. text.items ≡ quoted path.now) }
    // The only error is out of memory.
    ensures err { IfErr result (λ error. fault_of error ≡ out_of_memory) }
{
    let mut len: usize = 0;
    write_quoted(path, &mut [], &mut len);
    let mut text = vec![in alloc; 0u8; len]?;
    write_quoted(path, text.as_mut_slice(), &mut len);
    Ok(text)
}

/// Writes the path between double quotes, with each double quote in it doubled, to the start of the
/// area, where it has room for all of it. Writes its length to `len`: more than `usize::MAX` as
/// `usize::MAX`. Without room any part of it may be written; an empty area serves to count.
pub fn write_quoted(path: &[u8], area: &mut [u8], len: &mut usize)
    // The length is that of the quoted path, up to 2^64 - 1. An area with room for all of it has it
    // at its start, and then its former bytes.
    ensures { HasText area.old (quoted path.now) area.new len.new }
{
    *len = 0;
    put(b"\"", area, len);
    let mut rest = path;
    'quotes: while let Some((part, after)) = cut(rest, b'"') {
        put(part, area, len);
        put(b"\"\"", area, len);
        rest = after;
    }
    put(rest, area, len);
    put(b"\"", area, len);
}

/// The path with each double quote doubled.
fn doubled_quotes(alloc: Global, path: &str) -> Result<String, AllocError>
    ensures { IfOk result (λ text. string_bytes text ≡ doubled path.now) }
{
    path.replace(alloc, '"', "\"\"")
}

/// The text in one line, which a client can read back. Each carriage return is CR NUL (RFC 854),
/// and each line feed is NUL, as FTP servers write the line feeds of a file name. It fails only
/// when out of memory, with the kind `OutOfMemory`.
pub fn single_line_text(alloc: Global, text: &str) -> Result<String, ControlChanError>
    // At `Ok` the text has each CR as CR NUL and each LF as NUL, and is unchanged otherwise.
    ensures ok { IfOk result (λ line. string_bytes line ≡ single_line text.now) }
    // The only error is out of memory.
    ensures err { IfErr result (λ error. fault_of error ≡ out_of_memory) }
{
    let escaped = escaped_text(alloc, text)?;
    Ok(without_line_feeds(alloc, escaped.as_str())?)
}

/// The text with each carriage return as CR NUL.
fn escaped_text(alloc: Global, text: &str) -> Result<String, AllocError>
    ensures { IfOk result (λ sent. string_bytes sent ≡ escaped text.now) }
{
    text.replace(alloc, '\r', "\r\0")
}

/// The text with each line feed as NUL.
fn without_line_feeds(alloc: Global, text: &str) -> Result<String, AllocError>
    ensures { IfOk result (λ line. string_bytes line
        ≡ map (λ b. if b == LF then NUL else b) text.now) }
{
    text.replace(alloc, '\n', "\0")
}

/// A path between quotes reads back: where two quoted paths, each followed by no further quote,
/// begin the same text, they are one path, and the same follows. A path without a line feed has
/// none between quotes.
pub fn quoted_paths_read_back()
    // Where two quoted paths, each followed by no quote, begin the same text, the paths are equal,
    // and so is what follows.
    ensures read_back { (path other rest other_rest : Bytes)
        → HasNoFirstQuote rest → HasNoFirstQuote other_rest
        → quoted path ++ rest ≡ quoted other ++ other_rest
        → (path ≡ other) × (rest ≡ other_rest) }
    // Between quotes, a path without a line feed has none.
    ensures no_line_feed { (path : Bytes) → Lacks LF path → Lacks LF (quoted path) }
{}

/// A text in one line has no line feed, and reads back: two texts without NUL that give the same
/// line are equal.
pub fn single_lines_read_back()
    // A text in one line has no line feed.
    ensures no_line_feed { (text : Bytes) → Lacks LF (single_line text) }
    // Two texts without NUL that give the same line are equal.
    ensures read_back { (text other : Bytes) → Lacks NUL text → Lacks NUL other
        → single_line text ≡ single_line other → text ≡ other }
{}
