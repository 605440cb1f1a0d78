//! Callers of the library, which are proved here: many are snippets of docs/RATTLE.md.
#![tactic(auto)]

pub mod client;
pub mod codec;
pub mod codes;
pub mod event_loop;
pub mod examples;
pub mod fact_list;
pub mod first;
pub mod handler;
pub mod lines;
pub mod log;
pub mod member_file;
pub mod no_files;
pub mod pieces;
pub mod proxy;
pub mod relay;
pub mod restarting;
pub mod serving;
pub mod transfers;
pub mod upgrading;
pub mod whole_line;
