//! What goes back to a client, and to the caller: replies and errors.

mod code;
pub mod error;
mod reply;

pub use code::{ReplyCode, same_codes};
pub use reply::{Reply, same_replies};
