//! The addresses of FTP's data connections, as commands and replies spell them. Whose address it
//! is plays no part here: that is the caller's to decide.
#![tactic(auto)]

pub mod examples;
mod extended;
mod host_port;
pub mod laws;
mod number;
mod text;

pub use crate::extended::{
    AddressError, find_extended_port, read_extended, write_extended, write_extended_port,
};
pub use crate::host_port::{find_host_port, read_host_port, write_host_port};
