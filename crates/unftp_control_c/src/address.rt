//! The addresses of data connections.
ghost use Rattle.std.specs.Prelude.{◌≡◌, [], Ok, IfErr, IfOk, IsErr, IsOk, OnOk, Result, length, option_map};
ghost use Rattle.unftp_control_address.specs.HostPorts.{host_port_of, host_port_text};
ghost use Rattle.unftp_control_c.specs.Addresses.{Address as Given, AreBytesOf, HasLength, IsNotWritten, IsReadBy, IsReadExtended, IsText, IsWrittenBy, form_for, form_of, found_meant, host_bytes, left_by, or_none};
ghost use Rattle.unftp_control_c.specs.Areas.{Made, made, written};
ghost use Rattle.unftp_control_c.specs.declared.address.Form.TheVariants.{Eprt, Port};
ghost use Rattle.unftp_control_c.specs.declared.status.Status.{Status as RustStatus};
ghost use Rattle.unftp_control_c.specs.declared.status.Status.TheVariants.{InvalidArgument, OutOfMemory};

use crate::areas::write;
use crate::status::Status;
use std::alloc::{AllocError, Global};
use std::net::{IpAddr, Ipv4Addr, Ipv6Addr, SocketAddr, SocketAddrV4};
use unftp_control_address::{
    AddressError, find_extended_port, find_host_port, read_extended, read_host_port,
    write_extended, write_extended_port, write_host_port,
};
use unftp_control_commands::pieces::overwrite;

/// Where an address is read from, or written for: `enum unftp_address_form` of
/// include/unftp_control.h.
#[derive(Clone, Copy)]
pub enum Form {
    /// The value of PORT.
    Port = 0,
    /// The value of EPRT.
    Eprt = 1,
    /// The text of a reply 227.
    Reply227 = 2,
    /// The text of a reply 229.
    Reply229 = 3,
}

impl Form {
    /// That of a number, if there is one.
    fn of(number: u32) -> Option<Form>
        ensures { result ≡ form_of number }
    {
        match number {
            0 => Some(Form::Port),
            1 => Some(Form::Eprt),
            2 => Some(Form::Reply227),
            3 => Some(Form::Reply229),
            _ => None,
        }
    }
}

/// What was read: `struct unftp_address` of include/unftp_control.h.
#[repr(C)]
#[derive(Clone, Copy)]
pub struct Address {
    /// How many bytes the host has.
    pub ip_len: usize,
    /// The port.
    pub port: u32,
}

/// Reads an address: `unftp_read_address` of include/unftp_control.h.
#[unsafe(no_mangle)]
pub extern "C" fn unftp_read_address(
    form: u32,
    text: &[u8],
    ip: &mut [u8],
    address: &mut Address,
) -> u32
    // `ip`, its length and the port get exactly the address that the text has in this form. Without
    // an address or room `ip` is unchanged, and the result reports why.
    ensures { (found : Result Given RustStatus) × IsReadBy (form_of form) text.now found
        × (record {
          result = result;
          area = ip.new;
          ip_length = address.new.ip_len;
          port = address.new.port;
        } ≡ left_by found ip.old) }
{
    match read(form, text) {
        Ok((host, port)) => give(host, port, ip, address),
        Err(status) => {
            *address = Address { ip_len: 0, port: 0 };
            status.number()
        }
    }
}

/// The host, if there is one, and the port that a text has, or why it has none.
fn read(form: u32, text: &[u8]) -> Result<(Option<IpAddr>, u16), Status>
    ensures { IsReadBy (form_of form) text.now (found_meant result) }
{
    let Some(form) = Form::of(form) else {
        return Err(Status::InvalidArgument);
    };
    match form {
        Form::Port => found(read_host_port(text)),
        Form::Eprt => read_eprt(text),
        Form::Reply227 => found(find_host_port(text)),
        Form::Reply229 => match find_extended_port(text) {
            Some(port) => Ok((None, port)),
            None => Err(Status::NoAddress),
        },
    }
}

/// An address that was found, or that none was.
fn found(address: Option<SocketAddrV4>) -> Result<(Option<IpAddr>, u16), Status>
    ensures { found_meant result ≡ or_none (option_map host_port_of address) }
{
    match address {
        Some(address) => Ok((Some(IpAddr::V4(*address.ip())), address.port())),
        None => Err(Status::NoAddress),
    }
}

/// The address that a value of EPRT spells.
fn read_eprt(text: &[u8]) -> Result<(Option<IpAddr>, u16), Status>
    ensures { IsReadExtended text.now (found_meant result) }
{
    match read_extended(text) {
        Ok(address) => Ok((Some(address.ip()), address.port())),
        Err(AddressError::Malformed) => Err(Status::NoAddress),
        Err(AddressError::UnknownProtocol) => Err(Status::UnknownProtocol),
    }
}

/// Writes a host to the start of the area, where it has room for it, and reports its length and the
/// port: the number of what has come of it.
fn give(host: Option<IpAddr>, port: u16, ip: &mut [u8], address: &mut Address) -> u32
    ensures { record {
      result = result;
      area = ip.new;
      ip_length = address.new.ip_len;
      port = address.new.port;
    } ≡ left_by (Ok (host_bytes host, port)) ip.old }
{
    match host {
        None => give_bytes(&[], port, ip, address),
        Some(IpAddr::V4(host)) => give_bytes(&host.octets(), port, ip, address),
        Some(IpAddr::V6(host)) => give_bytes(&host.octets(), port, ip, address),
    }
}

/// The same of the bytes of a host.
fn give_bytes(bytes: &[u8], port: u16, ip: &mut [u8], address: &mut Address) -> u32
    ensures { record {
      result = result;
      area = ip.new;
      ip_length = address.new.ip_len;
      port = address.new.port;
    } ≡ left_by (Ok (bytes.now, port)) ip.old }
{
    *address = Address {
        ip_len: bytes.len(),
        port: u32::from(port),
    };
    if bytes.len() > ip.len() {
        return Status::NoRoom.number();
    }
    overwrite(bytes, ip);
    Status::Done.number()
}

/// Writes an address: `unftp_write_address` of include/unftp_control.h.
#[unsafe(no_mangle)]
pub extern "C" fn unftp_write_address(
    alloc: Global,
    form: u32,
    ip: &[u8],
    port: u32,
    out: &mut [u8],
    len: &mut usize,
) -> u32
    // The text of the address in this form is written where `out` has room for it. Otherwise `out`
    // is unchanged, and the result reports why.
    ensures { (text : Made) × IsWrittenBy (form_for form port) ip.now port text
        × (record { result = result; area = out.new; text_length = len.new }
        ≡ written text out.old) }
{
    write(address_text(alloc, form, ip, port), out, len)
}

/// The text of an address, or why there is none.
fn address_text(alloc: Global, form: u32, ip: &[u8], port: u32) -> Result<Vec<u8>, Status>
    ensures { IsWrittenBy (form_for form port) ip.now port (made result) }
{
    let Some(form) = Form::of(form) else {
        return Err(Status::InvalidArgument);
    };
    let Ok(port) = u16::try_from(port) else {
        return Err(Status::InvalidArgument);
    };
    let mut text = Vec::new(alloc);
    append_address(form, ip, port, &mut text)?;
    Ok(text)
}

/// Appends the text of an address to nothing.
fn append_address(form: Form, ip: &[u8], port: u16, text: &mut Vec<u8>) -> Result<(), Status>
    requires { text.old.items ≡ [] }
    ensures length { OnOk result (HasLength form (length ip.now)) }
    ensures ok { OnOk result (IsText form ip.now port text.new.items) }
    ensures err { IfErr result (IsNotWritten form (length ip.now)) }
{
    match form {
        Form::Port => append_host_port(ip, port, text),
        Form::Reply227 => append_host_port(ip, port, text),
        Form::Eprt => append_extended(ip, port, text),
        Form::Reply229 => or_out_of_memory(write_extended_port(port, text)),
    }
}

/// Appends the text of an IPv4 address to nothing.
fn append_host_port(ip: &[u8], port: u16, text: &mut Vec<u8>) -> Result<(), Status>
    requires { text.old.items ≡ [] }
    ensures length { OnOk result (length ip.now ≡ 4) }
    ensures ok { OnOk result (text.new.items ≡ host_port_text (ip.now, port)) }
    ensures err { IfErr result (IsNotWritten Port (length ip.now)) }
{
    let [a, b, c, d] = ip else {
        return Err(Status::InvalidArgument);
    };
    let host = Ipv4Addr::new(*a, *b, *c, *d);
    or_out_of_memory(write_host_port(SocketAddrV4::new(host, port), text))
}

/// Appends the value of EPRT for an address to nothing.
fn append_extended(ip: &[u8], port: u16, text: &mut Vec<u8>) -> Result<(), Status>
    requires { text.old.items ≡ [] }
    ensures length { OnOk result (HasLength Eprt (length ip.now)) }
    ensures ok { OnOk result (IsText Eprt ip.now port text.new.items) }
    ensures err { IfErr result (IsNotWritten Eprt (length ip.now)) }
{
    let host = host_of(ip)?;
    or_out_of_memory(write_extended(SocketAddr::new(host, port), text))
}

/// The host of four or sixteen bytes.
fn host_of(ip: &[u8]) -> Result<IpAddr, Status>
    ensures length { OnOk result (HasLength Eprt (length ip.now)) }
    ensures ok { IfOk result (AreBytesOf ip.now) }
    ensures err { IfErr result (λ status. (status ≡ InvalidArgument)
        × ¬ (HasLength Eprt (length ip.now))) }
{
    if let [a, b, c, d] = ip {
        return Ok(IpAddr::V4(Ipv4Addr::new(*a, *b, *c, *d)));
    }
    let Ok(octets) = <[u8; 16]>::try_from(ip) else {
        return Err(Status::InvalidArgument);
    };
    Ok(IpAddr::V6(Ipv6Addr::from_octets(octets)))
}

/// The status where memory ran out.
fn or_out_of_memory(written: Result<(), AllocError>) -> Result<(), Status>
    ensures ok { OnOk result (IsOk written) }
    ensures err { IfErr result (λ status. (status ≡ OutOfMemory) × IsErr written) }
{
    written.map_err(|_| Status::OutOfMemory)
}
