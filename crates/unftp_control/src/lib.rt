//! The control protocol layer of an FTP server: bytes of a control connection come in, and typed
//! commands or named refusals come out; replies go in, and their bytes come out (RFC 959).
//!
//! The modules are crates of their own but `laws` and `commands::Mlst`, and this one re-exports
//! them, with the crate `bytes` of the fields that are raw bytes.
#![tactic(auto)]

pub mod command;
pub mod commands;
pub mod error;
pub mod laws;
pub mod write;

pub use bytes;
pub use unftp_control_address as address;
pub use unftp_control_client as client;
pub use unftp_control_codecs as codecs;
pub use unftp_control_codecs::line_parser;
pub use unftp_control_facts as facts;
pub use unftp_control_log as log;
pub use unftp_control_login as login;
pub use unftp_control_message::{parts, password, reply, sent};
pub use unftp_control_proxy as proxy;
pub use unftp_control_read as read;
pub use unftp_control_serve as serve;
