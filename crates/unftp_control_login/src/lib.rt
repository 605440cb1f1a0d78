//! A login before any handler: a gate that takes names and passwords, and lets so many logins fail
//! (RFC 959, section 4.1.1). It is a session itself, and `serve_members` serves a connection by it.
#![tactic(auto)]

mod accounts;
mod asked;
mod calls;
pub mod examples;
mod gate;
mod inner;
pub mod laws;
mod limit;
mod members;
mod stage;

pub use accounts::Accounts;
pub use gate::Gate;
pub use limit::LoginLimit;
pub use members::serve_members;
pub use stage::{LoginStep, Progress, Role};
