//! The address of PORT and of the reply 227 (RFC 959, section 4.1.2).
ghost use Rattle.std.specs.Prelude.{◌≡◌, ◌++◌, OnErr, OnOk, option_map, take, vec_len};
ghost use Rattle.std.specs.List.{position_or_len};
ghost use Rattle.unftp_control_defs.specs.Room.{LacksRoom};
ghost use Rattle.unftp_control_address.specs.HostPorts.{first_host_port, host_port, host_port_of, host_port_text, is_outside};

use crate::number::octets;
use crate::text::{append_joined, or_undone};
use std::alloc::AllocError;
use std::net::{Ipv4Addr, SocketAddrV4};

/// The address that a value of PORT spells, `h1,h2,h3,h4,p1,p2` (RFC 959, section 4.1.2), or `None`
/// where it spells none, which a server answers by 501: six numbers with a comma between each two,
/// each of one to three digits and below 256, and nothing else. Leading zeros are decimal.
pub fn read_host_port(value: &[u8]) -> Option<SocketAddrV4>
    // Exactly the address that the value spells by the definition, or `None` where it spells none.
    ensures { option_map host_port_of result ≡ host_port value.now }
{
    let [a, b, c, d, high, low] = octets::<6>(value, b',')?;
    let port = 256 * u16::from(high) + u16::from(low);
    Some(SocketAddrV4::new(Ipv4Addr::new(a, b, c, d), port))
}

/// The address in the text of a reply 227, with or without brackets and other text around it, or
/// `None` where there is none: of the text's words of digits and commas the first that
/// `read_host_port` reads (RFC 1123, section 4.1.2.6).
pub fn find_host_port(text: &[u8]) -> Option<SocketAddrV4>
    // The first address in the text by the definition, or `None` where there is none.
    ensures { option_map host_port_of result ≡ first_host_port text.now }
{
    let mut rest = text;
    loop {
        let (word, after) = rest.split_at(word_len(rest));
        if let Some(address) = read_host_port(word) {
            return Some(address);
        }
        if after.is_empty() {
            return None;
        }
        let (_, later) = after.split_at(1);
        rest = later;
    }
}

/// How many digits and commas the text begins with.
fn word_len(text: &[u8]) -> usize
    ensures { result ≡ position_or_len is_outside text.now }
{
    match text.iter().position(|b| is_outside(*b)) {
        Some(end) => end,
        None => text.len(),
    }
}

/// Whether the byte is in no address.
fn is_outside(byte: u8) -> bool
    ensures { result ≡ is_outside byte }
{
    !(byte.is_ascii_digit() || byte == b',')
}

/// Appends an address as a value of PORT has it, and the brackets of a reply 227:
/// `127,0,0,1,195,80` (RFC 959, section 4.1.2). It takes no memory but what `buf` needs, and fails
/// only where `buf` has no room for the text and can't grow. `buf` is then as it was.
pub fn write_host_port(address: SocketAddrV4, buf: &mut Vec<u8>) -> Result<(), AllocError>
    // At `Ok` exactly the text of the address for PORT is appended.
    ensures ok { OnOk result
        (buf.new.items ≡ buf.old.items ++ host_port_text (host_port_of address)) }
    // At an error the buffer holds what it held.
    ensures err { OnErr result (buf.new.items ≡ buf.old.items) }
    // It is out of memory only where the buffer lacks room for that text.
    ensures memory { OnErr result (LacksRoom buf.old (host_port_text (host_port_of address))) }
{
    let length = buf.len();
    or_undone(append_host_port(address, buf), length, buf)
}

/// Appends the six numbers of an address, or perhaps a part of them when out of memory.
fn append_host_port(address: SocketAddrV4, buf: &mut Vec<u8>) -> Result<(), AllocError>
    ensures ok { OnOk result
        (buf.new.items ≡ buf.old.items ++ host_port_text (host_port_of address)) }
    ensures kept { take (vec_len buf.old) buf.new.items ≡ buf.old.items }
    ensures memory { OnErr result (LacksRoom buf.old (host_port_text (host_port_of address))) }
{
    let [a, b, c, d] = address.ip().octets();
    let [high, low] = address.port().to_be_bytes();
    append_joined(b',', &[a, b, c, d, high, low], buf)
}
