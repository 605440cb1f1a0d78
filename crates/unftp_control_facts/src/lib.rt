//! What a server shows of its files: facts, as MLST and MLSD have them (RFC 3659, section 7), and
//! lines of LIST in the form of `ls -l`.
#![tactic(auto)]

mod columns;
mod date;
pub mod examples;
mod facts;
mod file;
mod listing;

pub use facts::{Metadata, format_facts, modify_text, one_text_of_facts};
pub use file::{FileKind, FileStatus};
pub use listing::{LineError, facts_line, list_line, one_line_of_a_file};
