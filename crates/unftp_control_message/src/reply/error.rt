//! The errors of the control channel, and those of the parser of its lines.
ghost use Rattle.std.specs.Prelude.{◌≡◌, ◌↔◌, IsTrue};
ghost use Rattle.unftp_control_defs.specs.Texts.{kind_reason};
ghost use Rattle.unftp_control_message.specs.ErrorMeaning.{kind_meant};
ghost use Rattle.unftp_control_message.specs.declared.reply.error.ControlChanErrorKind.{ControlChanErrorKind as RustKind};

mod parse_error;

pub use parse_error::{ParseError, ParseErrorKind, Result, same_parse_errors};
use std::alloc::AllocError;
use std::error::Error;
use std::marker::Model;
use std::str::Utf8Error;
use std::{fmt, io};

/// What went wrong on the control channel.
///
/// This library itself returns `Utf8Error`, `InvalidCommand`, `OutOfMemory` and `LineTooLong`, and
/// makes an `IoError` of std's; the other kinds are there for the server that uses it.
#[derive(Debug, Drop, PartialEq, Eq)]
pub enum ControlChanErrorKind {
    /// Reading or writing failed.
    IoError,
    /// A line could not be read.
    ParseError,
    /// The server failed by itself.
    InternalServerError,
    /// The user could not be authenticated, for another reason than what the user sent.
    AuthenticationError,
    /// A message of the data channel could not be made a reply.
    InternalMsgError,
    /// A verb, or a part of a parameter that has to be, is not UTF-8.
    Utf8Error,
    /// A command is not known.
    UnknownCommand {
        /// The command as it was sent.
        command: String,
    },
    /// The parser refused a line with `InvalidCommand` or `InvalidEol`.
    InvalidCommand,
    /// The client sent nothing for too long.
    ControlChannelTimeout,
    /// The control channel is in a state in which it must not be.
    IllegalState,
    /// An allocation failed.
    OutOfMemory,
    /// A line is longer than the limit.
    LineTooLong,
}

impl ControlChanErrorKind {
    /// The text of the kind, without the command that it may hold.
    pub fn reason(&self) -> &'static str
        // The text of the definition for this kind; that of `UnknownCommand` lacks the command.
        ensures { result.now ≡ kind_reason (kind_meant self.now) }
    {
        match self {
            ControlChanErrorKind::IoError => "Failed to perform IO",
            ControlChanErrorKind::ParseError => "Failed to parse command",
            ControlChanErrorKind::InternalServerError => "Internal Server Error",
            ControlChanErrorKind::AuthenticationError => {
                "Something went wrong when trying to authenticate"
            }
            ControlChanErrorKind::InternalMsgError => "Failed to map event from data channel",
            ControlChanErrorKind::Utf8Error => "Non-UTF8 character in command",
            ControlChanErrorKind::UnknownCommand { .. } => "Unknown command",
            ControlChanErrorKind::InvalidCommand => "Invalid command (invalid parameter)",
            ControlChanErrorKind::ControlChannelTimeout => {
                "Encountered read timeout on the control channel"
            }
            ControlChanErrorKind::IllegalState => "Control channel in illegal state",
            ControlChanErrorKind::OutOfMemory => "Out of memory",
            ControlChanErrorKind::LineTooLong => "Line too long",
        }
    }
}

/// The text of the kind, the same under all flags of the formatter.
impl fmt::Display for ControlChanErrorKind {
    ghost use Rattle.std.specs.Prelude.{Some};
    ghost use Rattle.unftp_control_defs.specs.Texts.{kind_text};
    ghost use Rattle.unftp_control_message.specs.ErrorMeaning.{kind_meant};

    ghost output = { λ kind. Some (kind_text (kind_meant kind)) };

    ghost styled_output = { λ kind _. Some (kind_text (kind_meant kind)) };

    fn fmt<W: fmt::Write>(&self, f: &mut fmt::Formatter<W>) -> fmt::Result {
        f.write_str(match self {
            ControlChanErrorKind::UnknownCommand { command } => {
                f.write_str("Unknown command: ")?;
                return f.write_str(command.as_str());
            }
            kind => kind.reason(),
        })
    }
}

/// What an error comes from.
#[derive(Debug, Drop)]
pub enum Source {
    /// From nothing else.
    None,
    /// From a line that the parser answered no command for.
    Parse(ParseError),
    /// From bytes that are not UTF-8.
    Utf8(Utf8Error),
    /// From reading or writing.
    Io(io::Error),
}

/// An error of the control channel: its kind, and what it comes from.
#[derive(Debug, Drop)]
pub struct ControlChanError {
    kind: ControlChanErrorKind,
    source: Source,
}

impl Model for ControlChanError {
    ghost use Rattle.unftp_control_message.specs.ErrorParts.{KindAndSource};

    ghost Value = { KindAndSource };

    ghost view = { λ error. record { kind = error.kind; source = error.source } };
}

impl ControlChanError {
    /// An error of this kind that comes from nothing else.
    pub fn new(kind: ControlChanErrorKind) -> ControlChanError
        // The error has this kind.
        ensures kind { result.kind ≡ kind }
        // The error comes from nothing else.
        ensures source { result.source ≡ Source.None }
    {
        ControlChanError {
            kind,
            source: Source::None,
        }
    }

    /// Its kind.
    pub fn kind(&self) -> &ControlChanErrorKind
        // Exactly the kind of the error.
        ensures { result.now ≡ self.now.kind }
    {
        &self.kind
    }

    /// What it comes from.
    pub fn source(&self) -> &Source
        // Exactly the source of the error.
        ensures { result.now ≡ self.now.source }
    {
        &self.source
    }
}

/// The text of its kind after `control channel error: `, the same under all flags of the formatter;
/// its source is not shown.
impl fmt::Display for ControlChanError {
    ghost use Rattle.std.specs.Prelude.{Some};
    ghost use Rattle.unftp_control_defs.specs.Texts.{error_text};
    ghost use Rattle.unftp_control_message.specs.ErrorMeaning.{kind_meant};

    ghost output = { λ error. Some (error_text (kind_meant error.kind)) };

    ghost styled_output = { λ error _. Some (error_text (kind_meant error.kind)) };

    fn fmt<W: fmt::Write>(&self, f: &mut fmt::Formatter<W>) -> fmt::Result {
        f.write_str("control channel error: ")?;
        fmt::Display::fmt(&self.kind, f)
    }
}

impl Error for ControlChanError {}

/// An error of this kind that comes from nothing else.
impl From<ControlChanErrorKind> for ControlChanError {
    ghost use Rattle.std.specs.Prelude.{◌≡◌};
    ghost use Rattle.unftp_control_message.specs.declared.reply.error.Source.TheVariants.{None};

    ghost from_gives = { λ kind error. (error.kind ≡ kind) × (error.source ≡ None) };

    fn from(kind: ControlChanErrorKind) -> ControlChanError {
        ControlChanError::new(kind)
    }
}

/// The kind `IoError`, with that error as its source.
impl From<io::Error> for ControlChanError {
    ghost use Rattle.std.specs.Prelude.{◌≡◌};
    ghost use Rattle.unftp_control_message.specs.declared.reply.error.ControlChanErrorKind.TheVariants.{IoError};
    ghost use Rattle.unftp_control_message.specs.declared.reply.error.Source.TheVariants.{Io};

    ghost from_gives = { λ io error. (error.kind ≡ IoError) × (error.source ≡ Io io) };

    fn from(error: io::Error) -> ControlChanError {
        ControlChanError {
            kind: ControlChanErrorKind::IoError,
            source: Source::Io(error),
        }
    }
}

/// The kind `Utf8Error`, with that error as its source.
impl From<Utf8Error> for ControlChanError {
    ghost use Rattle.std.specs.Prelude.{◌≡◌};
    ghost use Rattle.unftp_control_message.specs.declared.reply.error.ControlChanErrorKind.TheVariants.{Utf8Error};
    ghost use Rattle.unftp_control_message.specs.declared.reply.error.Source.TheVariants.{Utf8};

    ghost from_gives = { λ utf8 error. (error.kind ≡ Utf8Error) × (error.source ≡ Utf8 utf8) };

    fn from(error: Utf8Error) -> ControlChanError {
        ControlChanError {
            kind: ControlChanErrorKind::Utf8Error,
            source: Source::Utf8(error),
        }
    }
}

/// The kind that the parser's error becomes, with that error as its source.
impl From<ParseError> for ControlChanError {
    ghost use Rattle.std.specs.Prelude.{◌≡◌};
    ghost use Rattle.unftp_control_message.specs.ErrorMeaning.{converted};
    ghost use Rattle.unftp_control_message.specs.declared.reply.error.Source.TheVariants.{Parse};

    ghost from_gives = { λ parse error. (error.kind ≡ converted parse)
        × (error.source ≡ Parse parse) };

    fn from(error: ParseError) -> ControlChanError {
        let kind = match error.kind() {
            ParseErrorKind::InvalidUtf8 => ControlChanErrorKind::Utf8Error,
            ParseErrorKind::InvalidCommand | ParseErrorKind::InvalidEol => {
                ControlChanErrorKind::InvalidCommand
            }
            ParseErrorKind::OutOfMemory => ControlChanErrorKind::OutOfMemory,
        };
        ControlChanError {
            kind,
            source: Source::Parse(error),
        }
    }
}

/// Out of memory.
impl From<AllocError> for ControlChanError {
    ghost use Rattle.std.specs.Prelude.{◌≡◌};
    ghost use Rattle.unftp_control_defs.specs.Events.{out_of_memory};
    ghost use Rattle.unftp_control_message.specs.ErrorMeaning.{fault_of};

    ghost from_gives = { λ _ error. fault_of error ≡ out_of_memory };

    fn from(_error: AllocError) -> ControlChanError {
        ControlChanError::new(ControlChanErrorKind::OutOfMemory)
    }
}

/// `==` of kinds is equality of what they mean.
pub fn same_kinds()
    // `==` of two kinds is true exactly where they mean the same.
    ensures { (a b : RustKind)
        → IsTrue (⟦<ControlChanErrorKind as PartialEq>⟧.eq a b) ↔ (kind_meant a ≡ kind_meant b) }
{}
