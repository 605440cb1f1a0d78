//! What follows from how addresses are read and written.
ghost use Rattle.std.specs.Prelude.{◌≡◌, ◌≤◌, ◌==◌, ◌++◌, Some, length, not, true};
ghost use Rattle.std.specs.List.{list_all};
ghost use Rattle.std.specs.Net.Socket.{IsPlainSocket, IsSocketAddr, socket_port};
ghost use Rattle.std.specs.declared.net.socket_addr.SocketAddr.{SocketAddr as RustAddress};
ghost use Rattle.unftp_control_defs.specs.Bytes.{Bytes};
ghost use Rattle.unftp_control_address.specs.Extended.{IsExtended, LEFT, extended_port, extended_port_text, extended_text};
ghost use Rattle.unftp_control_address.specs.HostPorts.{begins_outside, first_host_port, host_port, host_port_of, host_port_text, is_outside};

use std::net::SocketAddrV4;

/// An address that is written for PORT or a 227 is read back as the same. It is also found in a
/// text that has no digit or comma before it, nor directly after it.
pub fn host_ports_read_back(address: SocketAddrV4)
    // The text of an address for PORT is read back as the address.
    ensures read { host_port (host_port_text (host_port_of address)) ≡ Some (host_port_of address) }
    // In a longer text it is found where no digit or comma is before it, or directly after it.
    ensures found { (before after : Bytes) → list_all is_outside before ≡ true
        → begins_outside after ≡ true
        → first_host_port (before ++ (host_port_text (host_port_of address) ++ after))
        ≡ Some (host_port_of address) }
{}

/// An address that is written for EPRT is read back as the same, where it has no flow information
/// and no scope.
pub fn extended_addresses_read_back()
    // The text of an address for EPRT spells the address, where that has no flow information and no
    // scope.
    ensures { (address : RustAddress) → IsSocketAddr address
        → IsPlainSocket address (socket_port address)
        → IsExtended (extended_text address) address }
{}

/// A value of EPRT spells one address at most.
pub fn one_extended_address()
    // A value of EPRT spells at most one address.
    ensures { (value : Bytes) (a b : RustAddress) → IsExtended value a → IsExtended value b → a ≡ b }
{}

/// A port that is written for a 229 is found in a text that has no opening bracket before it.
pub fn extended_ports_are_found(port: u16)
    // The text of a port for a 229 is found where no opening bracket is before it, whatever
    // follows.
    ensures { (before after : Bytes) → list_all (λ b. not (b == LEFT)) before ≡ true
        → extended_port (before ++ (extended_port_text port ++ after)) ≡ Some port }
{}

/// The text of an address has at most 23 bytes for PORT and a 227, and 49 for EPRT; that of a port
/// for a 229 has at most 11.
pub fn addresses_are_short(address: SocketAddrV4, port: u16)
    // The text of an address for PORT and a 227 has at most 23 bytes.
    ensures host_port { length (host_port_text (host_port_of address)) ≤ 23 }
    // The text of an address for EPRT has at most 49 bytes.
    ensures extended { (address : RustAddress) → IsSocketAddr address
        → length (extended_text address) ≤ 49 }
    // The text of a port for a 229 has at most 11 bytes.
    ensures extended_port { length (extended_port_text port) ≤ 11 }
{}
