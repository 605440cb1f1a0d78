//! A session that transfers a file over the caller's data connection.
mod answers;
mod data;
pub mod laws;
mod session;
mod transfer;

pub use answers::Answers;
pub use data::DataConnection;
pub use session::{Transfers, serve_transfers};
pub use transfer::{Ending, Transfer};
