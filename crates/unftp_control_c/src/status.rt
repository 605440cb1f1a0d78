//! What a call reports to its caller.
ghost use Rattle.std.specs.Prelude.{◌≡◌};
ghost use Rattle.unftp_control_c.specs.Numbers.{status_number, kind_status, line_status};

use unftp_control_message::reply::error::ParseErrorKind;
use unftp_control_write::WriteCommandError;

/// What a call reports where it gives no command.
#[derive(Clone, Copy)]
pub enum Status {
    /// It has done what was asked.
    Done = 0,
    /// More bytes are needed.
    More = 101,
    /// The line is no command that the server knows.
    InvalidCommand = 102,
    /// The verb, the subcommand of SITE or AUTH's parameter is not UTF-8.
    InvalidUtf8 = 103,
    /// The line doesn't end as a line has to.
    InvalidEol = 104,
    /// The line is longer than the limit.
    LineTooLong = 105,
    /// An allocation failed.
    OutOfMemory = 106,
    /// An area of the caller's is too small.
    NoRoom = 107,
    /// No line whose one line feed is its last byte is read as the command, or the bytes are no
    /// such line.
    NoLine = 108,
    /// The first line, or the first after some replies, opens no reply.
    Malformed = 109,
    /// No reply has this code.
    UnknownCode = 110,
    /// An argument is invalid, such as an offset past the pending bytes: include/unftp_control.h
    /// lists them for each call.
    InvalidArgument = 111,
    /// The text has no such address.
    NoAddress = 112,
    /// The address is of a protocol other than IPv4 and IPv6.
    UnknownProtocol = 113,
    /// As many bytes as a reply may have are only a part of one.
    ReplyTooLong = 114,
}

impl Status {
    /// Its number.
    pub fn number(self) -> u32
        // It is the definition's number of the status.
        ensures { result ≡ status_number self }
    {
        self as u32
    }
}

/// Why the parser refuses a line.
pub fn kind_status(kind: &ParseErrorKind) -> Status
    // It is the status of the same name.
    ensures { result ≡ kind_status kind.now }
{
    match kind {
        ParseErrorKind::InvalidCommand => Status::InvalidCommand,
        ParseErrorKind::InvalidUtf8 => Status::InvalidUtf8,
        ParseErrorKind::InvalidEol => Status::InvalidEol,
        ParseErrorKind::OutOfMemory => Status::OutOfMemory,
    }
}

/// Why a command has no line.
pub fn line_status(error: &WriteCommandError) -> Status
    // It is the status of the same name.
    ensures { result ≡ line_status error.now }
{
    match error {
        WriteCommandError::NoLine => Status::NoLine,
        WriteCommandError::OutOfMemory => Status::OutOfMemory,
    }
}
