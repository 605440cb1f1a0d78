//! The address of EPRT, and the port of the reply 229 (RFC 2428).
ghost use Rattle.std.specs.Prelude.{◌≡◌, ◌≤◌, [], ◌∷◌, ◌++◌, decimal, vec_capacity, None, Some, MatchOption, MatchResult, OnErr, OnOk, take, vec_len};
ghost use Rattle.std.specs.Net.Grammar.{IsIpText};
ghost use Rattle.std.specs.Net.Text.{ip_text};
ghost use Rattle.unftp_control_defs.specs.Room.{LacksRoom};
ghost use Rattle.unftp_control_address.specs.Extended.{BAR, IsExtended, IsRefused, IsRefusedHost, bracketed_port, ended_port, extended_port, extended_port_text, extended_text, family, fields, is_delimiter};

use crate::number::{cut, short};
use crate::text::{append_host, append_next, append_number, or_undone};
use std::alloc::AllocError;
use std::net::{IpAddr, Ipv4Addr, Ipv6Addr, SocketAddr};
use thiserror::Error;

/// Why a value of EPRT is no address.
#[derive(Debug, Clone, Copy, PartialEq, Eq, Error)]
pub enum AddressError {
    /// It is not written as such a value is: a server answers 501.
    #[error("malformed address")]
    Malformed,
    /// Its protocol is a number other than 1 and 2: a server answers 522 with those that it has.
    #[error("unknown network protocol")]
    UnknownProtocol,
}

/// The address that a value of EPRT spells, such as `|1|132.235.1.2|6275|` or `|2|::1|6275|` (RFC
/// 2428, section 2): a delimiter, the protocol, which is 1 for IPv4 and 2 for IPv6, the delimiter,
/// the host as `Ipv4Addr` or `Ipv6Addr` parses it, the delimiter, the port of one to five digits,
/// the delimiter, and nothing else. The delimiter is a visible character of ASCII that no address
/// has, and no closing bracket.
///
/// A value is refused with `UnknownProtocol` where its protocol is another number of 16 bits, and
/// else with `Malformed`.
pub fn read_extended(value: &[u8]) -> Result<SocketAddr, AddressError>
    // At `Ok` the value spells the address. `UnknownProtocol` is for three fields whose first is a
    // number below 65536 but neither 1 nor 2, and `Malformed` for any other value.
    ensures { MatchResult result (IsExtended value.now) (IsRefused value.now) }
{
    let Some((protocol, host, port)) = fields(value) else {
        return Err(AddressError::Malformed);
    };
    let Some(protocol) = short(protocol) else {
        return Err(AddressError::Malformed);
    };
    let ip = read_host(protocol, host)?;
    match short(port) {
        Some(port) => Ok(SocketAddr::new(ip, port)),
        None => Err(AddressError::Malformed),
    }
}

/// The protocol, the host and the port between the delimiters.
fn fields(value: &[u8]) -> Option<(&[u8], &[u8], &[u8])>
    ensures { MatchOption result (fields value.now ≡ None) (λ parts. fields value.now
        ≡ Some (record { protocol = parts.0.now; host = parts.1.now; port = parts.2.now })) }
{
    let (delimiter, rest) = value.split_first()?;
    if !is_delimiter(*delimiter) {
        return None;
    }
    let (protocol, rest) = cut(rest, *delimiter)?;
    let (host, rest) = cut(rest, *delimiter)?;
    let (port, end) = cut(rest, *delimiter)?;
    if !end.is_empty() {
        return None;
    }
    Some((protocol, host, port))
}

/// The host of this protocol.
fn read_host(protocol: u16, host: &[u8]) -> Result<IpAddr, AddressError>
    ensures { MatchResult result (λ ip. (family ip ≡ protocol) × IsIpText host.now ip)
        (IsRefusedHost protocol host.now) }
{
    match protocol {
        1 => match Ipv4Addr::parse_ascii(host) {
            Ok(ip) => Ok(IpAddr::V4(ip)),
            Err(_) => Err(AddressError::Malformed),
        },
        2 => match Ipv6Addr::parse_ascii(host) {
            Ok(ip) => Ok(IpAddr::V6(ip)),
            Err(_) => Err(AddressError::Malformed),
        },
        _ => Err(AddressError::UnknownProtocol),
    }
}

/// Whether the byte can be between the parts of a value of EPRT or of a reply 229.
fn is_delimiter(byte: u8) -> bool
    ensures { result ≡ is_delimiter byte }
{
    byte.is_ascii_graphic()
        && !(byte.is_ascii_hexdigit() || byte == b':' || byte == b'.')
        && byte != b')'
}

/// The number of the address family (RFC 2428, section 2).
fn family(ip: IpAddr) -> u8
    ensures { result ≡ family ip }
{
    match ip {
        IpAddr::V4(_) => 1,
        IpAddr::V6(_) => 2,
    }
}

/// Appends an address as a value of EPRT has it, such as `|1|132.235.1.2|6275|` (RFC 2428, section
/// 2), without the flow information and the scope of an IPv6 address. It takes no memory but what
/// `buf` needs, and fails only where `buf` has no room for the text and can't grow. `buf` is then
/// as it was.
pub fn write_extended(address: SocketAddr, buf: &mut Vec<u8>) -> Result<(), AllocError>
    // At `Ok` exactly the text of the address for EPRT is appended.
    ensures ok { OnOk result (buf.new.items ≡ buf.old.items ++ extended_text address) }
    // At an error the buffer holds what it held.
    ensures err { OnErr result (buf.new.items ≡ buf.old.items) }
    // It is out of memory only where the buffer lacks room for that text.
    ensures memory { OnErr result (LacksRoom buf.old (extended_text address)) }
{
    let length = buf.len();
    or_undone(append_extended(address, buf), length, buf)
}

/// Appends the value of EPRT for an address, or perhaps a part of it when out of memory.
fn append_extended(address: SocketAddr, buf: &mut Vec<u8>) -> Result<(), AllocError>
    ensures ok { OnOk result (buf.new.items ≡ buf.old.items ++ extended_text address) }
    ensures kept { take (vec_len buf.old) buf.new.items ≡ buf.old.items }
    ensures memory { OnErr result (LacksRoom buf.old (extended_text address)) }
{
    let ip = address.ip();
    append_next(b'|', family(ip), buf)?;
    append_next_host(ip, buf)?;
    append_last(address.port(), buf)
}

/// Appends a delimiter and the host.
fn append_next_host(ip: IpAddr, buf: &mut Vec<u8>) -> Result<(), AllocError>
    ensures ok { OnOk result (buf.new.items ≡ buf.old.items ++ BAR ∷ ip_text ip) }
    ensures kept { take (vec_len buf.old) buf.new.items ≡ buf.old.items }
    ensures memory { OnErr result (LacksRoom buf.old (BAR ∷ ip_text ip)) }
    ensures capacity { vec_capacity buf.old ≤ vec_capacity buf.new }
{
    buf.push(b'|')?;
    append_host(ip, buf)
}

/// Appends the port between two delimiters.
fn append_last(port: u16, buf: &mut Vec<u8>) -> Result<(), AllocError>
    ensures ok { OnOk result (buf.new.items ≡ buf.old.items ++ BAR ∷ (decimal port ++ BAR ∷ [])) }
    ensures kept { take (vec_len buf.old) buf.new.items ≡ buf.old.items }
    ensures memory { OnErr result (LacksRoom buf.old (BAR ∷ (decimal port ++ BAR ∷ []))) }
{
    buf.push(b'|')?;
    append_number(port, buf)?;
    Ok(buf.push(b'|')?)
}

/// The port in the text of a reply 229 (RFC 2428, section 3), or `None` where there is none: after
/// the text's first opening bracket come a delimiter three times, one to five digits that spell a
/// port, the delimiter and a closing bracket, such as `(|||6446|)`.
pub fn find_extended_port(text: &[u8]) -> Option<u16>
    // Exactly the port that the definition finds in the text of a 229, or `None` where it finds
    // none.
    ensures { result ≡ extended_port text.now }
{
    let (_, inner) = cut(text, b'(')?;
    bracketed_port(inner)
}

/// The port of a text that begins with the delimiters, the port and a closing bracket.
fn bracketed_port(text: &[u8]) -> Option<u16>
    ensures { result ≡ bracketed_port text.now }
{
    let [first, second, third, rest @ ..] = text else {
        return None;
    };
    if !is_delimiter(*first) || *second != *first || *third != *first {
        return None;
    }
    ended_port(rest, *first)
}

/// The port before the delimiter, where a closing bracket comes after that.
fn ended_port(text: &[u8], delimiter: u8) -> Option<u16>
    ensures { result ≡ ended_port delimiter text.now }
{
    let (port, end) = cut(text, delimiter)?;
    if !end.starts_with(b")") {
        return None;
    }
    short(port)
}

/// Appends a port as the text of a reply 229 has it, in brackets: `(|||6446|)` (RFC 2428, section
/// 3). It takes no memory but what `buf` needs, and fails only where `buf` has no room for the text
/// and can't grow. `buf` is then as it was.
pub fn write_extended_port(port: u16, buf: &mut Vec<u8>) -> Result<(), AllocError>
    // At `Ok` exactly the text of the port for a 229 is appended.
    ensures ok { OnOk result (buf.new.items ≡ buf.old.items ++ extended_port_text port) }
    // At an error the buffer holds what it held.
    ensures err { OnErr result (buf.new.items ≡ buf.old.items) }
    // It is out of memory only where the buffer lacks room for that text.
    ensures memory { OnErr result (LacksRoom buf.old (extended_port_text port)) }
{
    let length = buf.len();
    or_undone(append_extended_port(port, buf), length, buf)
}

/// Appends a port in brackets, or perhaps a part of it when out of memory.
fn append_extended_port(port: u16, buf: &mut Vec<u8>) -> Result<(), AllocError>
    ensures ok { OnOk result (buf.new.items ≡ buf.old.items ++ extended_port_text port) }
    ensures kept { take (vec_len buf.old) buf.new.items ≡ buf.old.items }
    ensures memory { OnErr result (LacksRoom buf.old (extended_port_text port)) }
{
    buf.extend_from_slice(b"(|||")?;
    append_number(port, buf)?;
    buf.extend_from_slice(b"|)")
}
