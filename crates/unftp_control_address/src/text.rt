//! Numbers and hosts as text. Each function appends what its comment names, or perhaps a part of
//! it when out of memory.
ghost use Rattle.std.specs.Prelude.{◌≡◌, ◌≤◌, ◌<◌, ◌++◌, ◌+◌, ◌∷◌, codes, decimal, flat_map, length, take, vec_capacity, vec_len, OnErr, OnOk};
ghost use Rattle.std.specs.Char.{digit_char};
ghost use Rattle.std.specs.Net.Addr.{ipv6_segments};
ghost use Rattle.std.specs.Net.Text.{groups_text, hex, hex_groups_text, ip_text, ipv6_text, leading_zero_digits, longest_zero_run};
ghost use Rattle.unftp_control_defs.specs.Room.{LacksRoom};
ghost use Rattle.unftp_control_address.specs.HostPorts.{joined_numbers};

use itoa::Buffer;
use std::alloc::AllocError;
use std::net::{IpAddr, Ipv6Addr};

/// Appends the number in decimal.
pub(crate) fn append_number(number: u16, buf: &mut Vec<u8>) -> Result<(), AllocError>
    ensures ok { OnOk result (buf.new.items ≡ buf.old.items ++ decimal number) }
    ensures kept { take (vec_len buf.old) buf.new.items ≡ buf.old.items }
    ensures memory { OnErr result (LacksRoom buf.old (decimal number)) }
    ensures capacity { vec_capacity buf.old ≤ vec_capacity buf.new }
{
    let mut digits = Buffer::new();
    buf.extend_from_slice(digits.format(number).as_bytes())
}

/// Appends the separator, and the number in decimal.
pub(crate) fn append_next(separator: u8, number: u8, buf: &mut Vec<u8>) -> Result<(), AllocError>
    ensures ok { OnOk result (buf.new.items ≡ buf.old.items ++ separator ∷ decimal number) }
    ensures kept { take (vec_len buf.old) buf.new.items ≡ buf.old.items }
    ensures memory { OnErr result (LacksRoom buf.old (separator ∷ decimal number)) }
    ensures capacity { vec_capacity buf.old ≤ vec_capacity buf.new }
{
    buf.push(separator)?;
    append_number(u16::from(number), buf)
}

/// Appends the separator and a number, for each number.
fn append_further(separator: u8, numbers: &[u8], buf: &mut Vec<u8>) -> Result<(), AllocError>
    ensures ok { OnOk result (buf.new.items
        ≡ buf.old.items ++ flat_map (λ n. separator ∷ decimal n) numbers.now) }
    ensures kept { take (vec_len buf.old) buf.new.items ≡ buf.old.items }
    ensures memory { OnErr result
        (LacksRoom buf.old (flat_map (λ n. separator ∷ decimal n) numbers.now)) }
    ensures capacity { vec_capacity buf.old ≤ vec_capacity buf.new }
{
    for number in numbers {
        append_next(separator, *number, buf)?;
    }
    Ok(())
}

/// Appends numbers in decimal with the separator between them.
pub(crate) fn append_joined(
    separator: u8,
    numbers: &[u8],
    buf: &mut Vec<u8>,
) -> Result<(), AllocError>
    ensures ok { OnOk result
        (buf.new.items ≡ buf.old.items ++ joined_numbers separator numbers.now) }
    ensures kept { take (vec_len buf.old) buf.new.items ≡ buf.old.items }
    ensures memory { OnErr result (LacksRoom buf.old (joined_numbers separator numbers.now)) }
    ensures capacity { vec_capacity buf.old ≤ vec_capacity buf.new }
{
    let [first, further @ ..] = numbers else {
        return Ok(());
    };
    append_number(u16::from(*first), buf)?;
    append_further(separator, further, buf)
}

/// The digit of a number below sixteen.
fn hex_digit(number: u16) -> u8
    requires { number < 16 }
    ensures { result ≡ digit_char number }
{
    match number as u8 {
        digit @ 0..=9 => b'0' + digit,
        digit => b'a' + (digit - 10),
    }
}

/// How many of four digits of a segment are zeros before its first digit.
fn leading_zeros(segment: u16) -> usize
    ensures value { result ≡ leading_zero_digits segment }
    ensures few { result < 4 }
{
    if segment < 0x10 {
        3
    } else if segment < 0x100 {
        2
    } else if segment < 0x1000 {
        1
    } else {
        0
    }
}

/// Appends a segment of an IPv6 address, in hexadecimal without leading zeros (RFC 5952, sections
/// 4.1 and 4.3).
#[tactic(auto, unfolding(std::specs::Net::Text::hex))]
fn append_segment(segment: u16, buf: &mut Vec<u8>) -> Result<(), AllocError>
    ensures ok { OnOk result (buf.new.items ≡ buf.old.items ++ hex segment) }
    ensures kept { take (vec_len buf.old) buf.new.items ≡ buf.old.items }
    ensures memory { OnErr result (LacksRoom buf.old (hex segment)) }
    ensures capacity { vec_capacity buf.old ≤ vec_capacity buf.new }
{
    let digits = [
        hex_digit(segment / 0x1000),
        hex_digit(segment / 0x100 % 0x10),
        hex_digit(segment / 0x10 % 0x10),
        hex_digit(segment % 0x10),
    ];
    let (_, shown) = digits.split_at(leading_zeros(segment));
    buf.extend_from_slice(shown)
}

/// Appends a colon and a segment.
fn append_next_segment(segment: u16, buf: &mut Vec<u8>) -> Result<(), AllocError>
    ensures ok { OnOk result (buf.new.items ≡ buf.old.items ++ (codes ":" ++ hex segment)) }
    ensures kept { take (vec_len buf.old) buf.new.items ≡ buf.old.items }
    ensures memory { OnErr result (LacksRoom buf.old (codes ":" ++ hex segment)) }
    ensures capacity { vec_capacity buf.old ≤ vec_capacity buf.new }
{
    buf.push(b':')?;
    append_segment(segment, buf)
}

/// Appends a colon and a segment, for each segment.
fn append_next_segments(segments: &[u16], buf: &mut Vec<u8>) -> Result<(), AllocError>
    ensures ok { OnOk result
        (buf.new.items ≡ buf.old.items ++ flat_map (λ s. codes ":" ++ hex s) segments.now) }
    ensures kept { take (vec_len buf.old) buf.new.items ≡ buf.old.items }
    ensures memory { OnErr result
        (LacksRoom buf.old (flat_map (λ s. codes ":" ++ hex s) segments.now)) }
    ensures capacity { vec_capacity buf.old ≤ vec_capacity buf.new }
{
    for segment in segments {
        append_next_segment(*segment, buf)?;
    }
    Ok(())
}

/// Appends segments with a colon between them.
fn append_segments(segments: &[u16], buf: &mut Vec<u8>) -> Result<(), AllocError>
    ensures ok { OnOk result (buf.new.items ≡ buf.old.items ++ groups_text segments.now) }
    ensures kept { take (vec_len buf.old) buf.new.items ≡ buf.old.items }
    ensures memory { OnErr result (LacksRoom buf.old (groups_text segments.now)) }
    ensures capacity { vec_capacity buf.old ≤ vec_capacity buf.new }
{
    let [first, next @ ..] = segments else {
        return Ok(());
    };
    append_segment(*first, buf)?;
    append_next_segments(next, buf)
}

/// The first of the longest runs of zeros: where it begins, and how long it is.
fn longest_zero_run(segments: &[u16]) -> (usize, usize)
    ensures value { result ≡ longest_zero_run segments.now }
    ensures within { result.0 + result.1 ≤ length segments.now }
{
    let mut longest = (0, 0);
    let mut run = 0;
    for place in (0..segments.len()).rev() {
        run = if segments[place] == 0 { run + 1 } else { 0 };
        let (start, len) = longest;
        longest = if len <= run {
            (0, run)
        } else {
            (start + 1, len)
        };
    }
    longest
}

/// Appends segments with two colons in place of the first of their longest runs of zeros (RFC 5952,
/// section 4.2).
#[tactic(auto, unfolding(std::specs::Net::Text::hex_groups_text))]
fn append_compressed(segments: &[u16], buf: &mut Vec<u8>) -> Result<(), AllocError>
    ensures ok { OnOk result (buf.new.items ≡ buf.old.items ++ hex_groups_text segments.now) }
    ensures kept { take (vec_len buf.old) buf.new.items ≡ buf.old.items }
    ensures memory { OnErr result (LacksRoom buf.old (hex_groups_text segments.now)) }
    ensures capacity { vec_capacity buf.old ≤ vec_capacity buf.new }
{
    let (start, len) = longest_zero_run(segments);
    if len <= 1 {
        return append_segments(segments, buf);
    }
    append_segments(&segments[..start], buf)?;
    buf.extend_from_slice(b"::")?;
    append_segments(&segments[start + len..], buf)
}

/// Appends an IPv6 address, where it is that of an IPv4 address (RFC 4291, section 2.5.5.2) with
/// that one as such is written (RFC 5952, section 5).
#[tactic(auto, unfolding(std::specs::Net::Text::ipv6_text))]
fn append_ipv6(ip: Ipv6Addr, buf: &mut Vec<u8>) -> Result<(), AllocError>
    ensures ok { OnOk result (buf.new.items ≡ buf.old.items ++ ipv6_text (ipv6_segments ip)) }
    ensures kept { take (vec_len buf.old) buf.new.items ≡ buf.old.items }
    ensures memory { OnErr result (LacksRoom buf.old (ipv6_text (ipv6_segments ip))) }
    ensures capacity { vec_capacity buf.old ≤ vec_capacity buf.new }
{
    let Some(mapped) = ip.to_ipv4_mapped() else {
        return append_compressed(&ip.segments(), buf);
    };
    buf.extend_from_slice(b"::ffff:")?;
    append_joined(b'.', &mapped.octets(), buf)
}

/// Appends a host as `Display` writes it.
pub(crate) fn append_host(ip: IpAddr, buf: &mut Vec<u8>) -> Result<(), AllocError>
    ensures ok { OnOk result (buf.new.items ≡ buf.old.items ++ ip_text ip) }
    ensures kept { take (vec_len buf.old) buf.new.items ≡ buf.old.items }
    ensures memory { OnErr result (LacksRoom buf.old (ip_text ip)) }
    ensures capacity { vec_capacity buf.old ≤ vec_capacity buf.new }
{
    match ip {
        IpAddr::V4(ip) => append_joined(b'.', &ip.octets(), buf),
        IpAddr::V6(ip) => append_ipv6(ip, buf),
    }
}

/// The result of a writer, and the buffer as it was where it is out of memory.
pub(crate) fn or_undone(
    written: Result<(), AllocError>,
    length: usize,
    buf: &mut Vec<u8>,
) -> Result<(), AllocError>
    ensures same { result ≡ written }
    ensures ok { OnOk written (buf.new.items ≡ buf.old.items) }
    ensures err { OnErr written (buf.new.items ≡ take length buf.old.items) }
{
    if written.is_err() {
        buf.truncate(length);
    }
    written
}
