//! What the contracts of `unftp_control` mean: lines, commands, replies, events and runs, as
//! definitions in `specs/`.
#![tactic(auto)]

pub mod buffer;
pub mod count;
pub mod input;
pub mod parameters;
pub mod verb;
