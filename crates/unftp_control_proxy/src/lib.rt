//! A proxy on a control connection, without input and output: it stands between a client and a
//! server, takes the client's lines, and sends each to the server or answers it itself. The client
//! is given one exchange for each of its lines, in order (RFC 959, section 5.4).
#![tactic(auto)]

mod answer;
mod errors;
pub mod examples;
pub mod laws;
mod proxy;
mod sending;
pub mod steps;

pub use crate::answer::Answer;
pub use crate::errors::{ReplaceError, SendError};
pub use crate::proxy::{Limits, NextReply, Proxy};
pub use unftp_control_serve::ClientLine;
