//! A control connection served: pieces of its input come in, the command or the refusal of each
//! line is an event, a handler answers it, and the replies go out. A server with a loop of its own
//! takes the events, or lets an engine answer a piece; `serve` takes a reader and a writer.
#![tactic(auto)]

mod decoder;
mod engine;
mod error;
mod event;
pub mod examples;
mod handler;
mod output;
mod send;
mod service;
mod session;
mod skipped;

pub use decoder::{ClientLine, EventDecoder};
pub use engine::Engine;
pub use error::ServeError;
pub use event::Event;
pub use handler::Handler;
pub use output::Output;
pub use send::Sink;
pub use service::{Served, known_input_is_served, serve, serve_with_limit};
pub use session::Session;
pub use unftp_control_defs::count::Count;
pub use unftp_control_defs::input::{Input, PIECE};
