//! The value of a parameter.
ghost use Rattle.std.specs.Prelude.{◌≡◌, ◌≢◌, ◌≤◌, ◌↔◌, ◌<◌, ◌+◌, ◌++◌, IsTrue, IfSome, option_map, length, []};
ghost use Rattle.unftp_control_defs.specs.Bytes.{crlf};
ghost use Rattle.unftp_control_defs.specs.ComputedValue.{value_of};
ghost use Rattle.unftp_control_message.specs.SentValues.{sent_value};
ghost use Rattle.unftp_control_codecs.specs.Values.{IsFreshEnd, IsLaterLen, IsPlainEnd, Resumes, begins_with_line_end, first_value_of};

use crate::line_parser::plain::is_plain;
use memchr::memchr2;
use unftp_control_message::sent::{Sent, begins_with_cr_nul, cr_nul_count};

const LF: u8 = b'\n';

const CR: u8 = b'\r';

/// How many bytes, after a byte of the value, come before the next CR or LF.
fn plain_len(bytes: &[u8]) -> usize
    ensures { IsPlainEnd bytes.now result }
{
    match memchr2(CR, LF, bytes) {
        Some(end) => end,
        None => bytes.len(),
    }
}

/// How many bytes, directly after the first unit or a CR NUL, come before the next CR or LF; an LF
/// that comes first is one of them.
fn fresh_len(bytes: &[u8]) -> usize
    ensures { IsFreshEnd bytes.now result }
{
    if bytes.is_empty() || bytes[0] == CR {
        return 0;
    }
    let (_, rest) = bytes.split_at(1);
    1 + plain_len(rest)
}

/// Where a value ends, directly after the first unit or a CR NUL: how many bytes are sent for the
/// rest of it, or none before an invalid line ending.
fn later_len(bytes: &[u8]) -> Option<usize>
    ensures { IsLaterLen bytes.now result }
{
    let mut len = 0usize;
    let mut rest = bytes;
    'parts: loop {
        if begins_with_cr_nul(rest) {
            let run = 2 * cr_nul_count(rest);
            let (_, further) = rest.split_at(run);
            len += run;
            rest = further;
        } else {
            let end = fresh_len(rest);
            let (_, after) = rest.split_at(end);
            if begins_with_line_end(after) {
                return Some(len + end);
            }
            if !begins_with_cr_nul(after) {
                return None;
            }
            let (_, further) = after.split_at(2);
            len += end + 2;
            rest = further;
        }
    }
}

/// Whether the bytes begin with an end of line: LF or CR LF.
#[inline]
fn begins_with_line_end(bytes: &[u8]) -> bool
    ensures { result ≡ begins_with_line_end bytes.now }
{
    matches!(bytes, [LF, ..] | [CR, LF, ..])
}

/// Whether the value of the parameter is empty: there is only an end of line, or nothing at all.
#[inline(always)]
pub fn has_no_value(parameter: &[u8]) -> bool
    // True exactly where the value of the parameter is empty.
    ensures { IsTrue result ↔ (value_of parameter.now ≡ Some []) }
{
    match parameter {
        [] | [LF, ..] | [CR, LF] => true,
        _ => false,
    }
}

/// Whether the bytes are CR LF.
#[inline(always)]
fn is_crlf(bytes: &[u8]) -> bool
    ensures { IsTrue result → bytes.now ≡ crlf }
{
    matches!(bytes, [CR, LF])
}

/// The value of the usual parameter, which has only bytes greater than a CR before its CR LF.
#[inline(always)]
fn usual_value(parameter: &[u8]) -> Option<&[u8]>
    ensures value { IfSome result (λ value. value_of parameter.now ≡ Some value.now) }
    ensures end { IfSome result (λ value. parameter.now ≡ value.now ++ crlf) }
{
    let (value, end) = parameter.split_at(parameter.len().saturating_sub(2));
    if !is_crlf(end) {
        return None;
    }
    if is_plain(value) {
        return Some(value);
    }
    None
}

/// The same, where it is not empty.
#[inline(always)]
pub fn some_usual_value(parameter: &[u8]) -> Option<&[u8]>
    // Where it is a value, it is that of the parameter.
    ensures value { IfSome result (λ value. value_of parameter.now ≡ Some value.now) }
    // Where it is a value, the parameter is this value and CR LF.
    ensures end { IfSome result (λ value. parameter.now ≡ value.now ++ crlf) }
    // Where it is a value, it is not empty.
    ensures some { IfSome result (λ value. 0 < length value.now) }
{
    let value = usual_value(parameter)?;
    if value.is_empty() {
        return None;
    }
    Some(value)
}

/// The value of parameter bytes; none after an invalid line ending. It takes no memory.
#[inline(always)]
pub fn parameter_value<'a>(parameter: &'a [u8]) -> Option<Sent<'a>>
    // The value of the parameter, or `None` exactly where it has none by the definition.
    ensures { option_map sent_value result ≡ value_of parameter.now }
{
    if has_no_value(parameter) {
        return Some(Sent::Plain(b""));
    }
    match usual_value(parameter) {
        Some(value) => Some(Sent::Plain(value)),
        None => some_value(parameter),
    }
}

/// The value of parameter bytes where it is not empty; none after an invalid line ending.
#[inline(never)]
fn some_value<'a>(parameter: &'a [u8]) -> Option<Sent<'a>>
    requires { value_of parameter.now ≢ Some [] }
    ensures { option_map sent_value result ≡ value_of parameter.now }
{
    let (first, rest) = parameter.split_at(1);
    if rest == b"\n".as_slice() {
        return Some(Sent::Plain(first));
    }
    if begins_with_cr_nul(parameter) {
        return escaped_value(parameter, 2);
    }
    // there is no CR within the value
    let end = 1 + fresh_len(rest);
    let (value, after) = parameter.split_at(end);
    if begins_with_line_end(after) {
        return Some(Sent::Plain(value));
    }
    // what follows can't mend a bare CR, and there may be no end at all
    if !begins_with_cr_nul(after) {
        return None;
    }
    escaped_value(parameter, end + 2)
}

/// The value of a parameter, as it is sent, which goes on after a first CR NUL.
fn escaped_value<'a>(parameter: &'a [u8], front: usize) -> Option<Sent<'a>>
    requires within { front ≤ length parameter.now }
    requires goes_on { Resumes parameter.now front }
    ensures { option_map sent_value result ≡ first_value_of parameter.now }
{
    let (_, later) = parameter.split_at(front);
    let (sent, _) = parameter.split_at(front + later_len(later)?);
    Some(Sent::Escaped(sent))
}
