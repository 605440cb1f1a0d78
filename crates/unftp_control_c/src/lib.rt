//! The calls for C: include/unftp_control.h declares them, and says what each is for.
#![tactic(auto)]

mod address;
mod areas;
mod canonical;
mod clear;
mod client;
pub mod examples;
mod exchange;
mod facts;
mod forwarding;
mod found;
pub mod laws;
mod log;
mod login;
mod next;
mod next_reply;
mod parameter;
mod reply;
mod status;
mod usual;
mod version;
