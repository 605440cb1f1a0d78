//! Lines without the bytes that servers read in different ways.
ghost use Rattle.std.specs.Prelude.{◌≡◌};
ghost use Rattle.std.specs.Char.{is_ascii_alphanumeric};
ghost use Rattle.std.specs.List.{list_all};
ghost use Rattle.unftp_control_write.specs.ClearLines.{has_clear_verb, is_clear, is_plain, is_plain_line};

use unftp_control_codecs::line_parser::split;

/// The byte that begins a command of Telnet's (RFC 854).
const IAC: u8 = 255;

/// Whether the line is clear: its verb has only letters and digits of ASCII, and at least one, and
/// before the CR LF at its end there is no CR, LF, NUL or byte 255. So it has none of the bytes
/// that servers are known to read in different ways. A proxy that refuses commands sends no other
/// line, since a server may see a command in it that the proxy doesn't.
///
/// It is a form of line, and no promise that all servers read it alike. Known exceptions are
/// `TYPE  I` with two spaces, NOOP with spaces or 5,000 bytes after it, `SIZE ~/a`, and `MDTM
/// 20010203040506 a`, by which vsftpd sets the time of a file.
pub fn is_clear(line: &[u8]) -> bool
    // True exactly where the verb is one or more letters and digits of ASCII, and no CR, LF, NUL or
    // byte 255 comes before the CR LF at the end.
    ensures { result ≡ is_clear line.now }
{
    has_clear_verb(line) && is_plain_line(line)
}

/// Whether it has a verb that consists of letters and digits of ASCII.
fn has_clear_verb(line: &[u8]) -> bool
    ensures { result ≡ has_clear_verb line.now }
{
    let (verb, _) = split(line);
    !verb.is_empty() && are_alphanumeric(verb)
}

/// Whether it is plain up to its end, which is CR LF.
fn is_plain_line(line: &[u8]) -> bool
    ensures { result ≡ is_plain_line line.now }
{
    let (text, end) = line.split_at(line.len().saturating_sub(2));
    are_plain(text) && end == b"\r\n".as_slice()
}

/// Whether each byte is a letter or a digit of ASCII.
fn are_alphanumeric(bytes: &[u8]) -> bool
    ensures { result ≡ list_all is_ascii_alphanumeric bytes.now }
{
    let mut rest = bytes;
    while let [byte, after @ ..] = rest {
        if !byte.is_ascii_alphanumeric() {
            return false;
        }
        rest = after;
    }
    true
}

/// Whether no byte is one that servers are known to read in different ways, in a line.
fn are_plain(bytes: &[u8]) -> bool
    ensures { result ≡ list_all is_plain bytes.now }
{
    let mut rest = bytes;
    while let [byte, after @ ..] = rest {
        if matches!(*byte, b'\0' | b'\n' | b'\r' | IAC) {
            return false;
        }
        rest = after;
    }
    true
}
