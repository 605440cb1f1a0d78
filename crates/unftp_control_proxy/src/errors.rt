//! Why a line is not decided, and why a reply is not replaced.

use thiserror::Error;
use unftp_control_codecs::line_parser::ParseError;

/// Why a line is not decided so. Nothing has changed, and the line is still to be decided.
#[derive(Debug, Drop, Error)]
pub enum SendError {
    /// No line may be decided: none was found by `next_line`, or the proxy waits for the server.
    #[error("no line to decide")]
    NoLine,
    /// What would be sent is not one line; so also where the client's line is longer than the
    /// limit, since its bytes are not kept.
    #[error("not one line")]
    NotALine,
    /// The line is no command, for this reason.
    #[error("{0}")]
    Refused(ParseError),
    /// What would be sent is not clear: servers read such lines in different ways, or send no reply
    /// to them.
    #[error("line that servers read in different ways")]
    Unclear,
    /// What would be sent is longer than a line that is sent may be.
    #[error("line too long to be sent")]
    TooLong,
    /// The answer is no final reply: its code is 1yz, or it has none (RFC 959, section 4.2.1).
    #[error("not a final reply")]
    NotFinal,
    /// A client would not read the answer back as one reply: a line feed is in a text of it, or its
    /// code has not three digits (RFC 959, section 4.2).
    #[error("not a plain reply")]
    NotPlain,
    /// As many lines were sent as 64 bits count.
    #[error("too many commands")]
    TooManyCommands,
    /// An allocation failed.
    #[error("out of memory")]
    OutOfMemory,
}

/// Why no other reply is given in place of the server's.
#[derive(Debug, Drop, Error)]
pub enum ReplaceError {
    /// No reply is complete, or what the server sent is none.
    #[error("no reply")]
    NoReply,
    /// The reply is not owed.
    #[error("reply that is not owed")]
    NotOwed,
    /// The other one is not one whole reply of the same code.
    #[error("another reply")]
    AnotherReply,
    /// An allocation failed.
    #[error("out of memory")]
    OutOfMemory,
}
