//! Why a line is no command.
ghost use Rattle.std.specs.Prelude.{◌≡◌, ◌↔◌, IsTrue};
ghost use Rattle.unftp_control_defs.specs.Texts.{reading_text};
ghost use Rattle.unftp_control_message.specs.ParseRefusal.{refusal_of};
ghost use Rattle.unftp_control_message.specs.declared.reply.error.parse_error.ParseErrorKind.{ParseErrorKind as RustKind};

use std::alloc::AllocError;
use std::error::Error;
use std::marker::Model;
use std::str::Utf8Error;
use std::{fmt, result};

/// Why `parse` answers no command.
#[derive(Debug, Drop, PartialEq, Eq, Clone)]
pub enum ParseErrorKind {
    /// The verb doesn't take this value (RFC 959, section 4.1), or that of AUTH is longer than
    /// three bytes.
    InvalidCommand,
    /// The verb is not UTF-8, or a part of the parameter that has to be.
    InvalidUtf8,
    /// The parameter has no end of line, or a CR after its first byte that neither LF nor NUL
    /// follows (RFC 854).
    InvalidEol,
    /// An allocation failed. Whether the line is a command is not known.
    OutOfMemory,
}

impl ParseErrorKind {
    /// The text of the kind.
    pub fn reason(&self) -> &'static str
        // The text of the definition for this refusal, or for out of memory.
        ensures { result.now ≡ reading_text (refusal_of self.now) }
    {
        match self {
            ParseErrorKind::InvalidCommand => "Invalid command",
            ParseErrorKind::InvalidUtf8 => "Non-UTF8 character while parsing",
            ParseErrorKind::InvalidEol => "Invalid end-of-line",
            ParseErrorKind::OutOfMemory => "Out of memory",
        }
    }
}

/// The text of the kind, the same under all flags of the formatter.
impl fmt::Display for ParseErrorKind {
    ghost use Rattle.std.specs.Prelude.{Some};
    ghost use Rattle.unftp_control_defs.specs.Texts.{reading_text};
    ghost use Rattle.unftp_control_message.specs.ParseRefusal.{refusal_of};

    ghost output = { λ kind. Some (reading_text (refusal_of kind)) };

    ghost styled_output = { λ kind _. Some (reading_text (refusal_of kind)) };

    fn fmt<W: fmt::Write>(&self, f: &mut fmt::Formatter<W>) -> fmt::Result {
        f.write_str(self.reason())
    }
}

impl From<AllocError> for ParseErrorKind {
    ghost use Rattle.std.specs.Prelude.{◌≡◌};
    ghost use Rattle.unftp_control_message.specs.declared.reply.error.parse_error.ParseErrorKind.TheVariants.{OutOfMemory};

    ghost from_gives = { λ _ kind. kind ≡ OutOfMemory };

    fn from(_failed: AllocError) -> ParseErrorKind {
        ParseErrorKind::OutOfMemory
    }
}

impl From<Utf8Error> for ParseErrorKind {
    ghost use Rattle.std.specs.Prelude.{◌≡◌};
    ghost use Rattle.unftp_control_message.specs.declared.reply.error.parse_error.ParseErrorKind.TheVariants.{InvalidUtf8};

    ghost from_gives = { λ _ kind. kind ≡ InvalidUtf8 };

    fn from(_error: Utf8Error) -> ParseErrorKind {
        ParseErrorKind::InvalidUtf8
    }
}

/// The error of `parse`. Contracts see it as its kind.
#[derive(Debug, Drop, PartialEq, Eq)]
pub struct ParseError {
    kind: ParseErrorKind,
}

impl Model for ParseError {
    ghost use Rattle.unftp_control_message.specs.declared.reply.error.parse_error.ParseErrorKind.{ParseErrorKind};

    ghost Value = { ParseErrorKind };

    ghost view = { λ error. error.kind };

    ghost inverse = { λ kind. record { kind = kind } };
}

impl ParseError {
    /// Its kind.
    pub fn kind(&self) -> &ParseErrorKind
        // Exactly the kind of the error.
        ensures { result.now ≡ self.now }
    {
        &self.kind
    }
}

impl From<ParseErrorKind> for ParseError {
    ghost from_gives = { λ kind error. error ≡ kind };

    fn from(kind: ParseErrorKind) -> ParseError {
        ParseError { kind }
    }
}

impl From<Utf8Error> for ParseError {
    ghost use Rattle.std.specs.Prelude.{◌≡◌};
    ghost use Rattle.unftp_control_message.specs.declared.reply.error.parse_error.ParseErrorKind.TheVariants.{InvalidUtf8};

    ghost from_gives = { λ _ error. error ≡ InvalidUtf8 };

    fn from(_error: Utf8Error) -> ParseError {
        ParseError {
            kind: ParseErrorKind::InvalidUtf8,
        }
    }
}

/// The text of its kind after `parse error: `, the same under all flags of the formatter.
impl fmt::Display for ParseError {
    ghost use Rattle.std.specs.Prelude.{Some};
    ghost use Rattle.unftp_control_defs.specs.Texts.{parse_error_text};
    ghost use Rattle.unftp_control_message.specs.ParseRefusal.{refusal_of};

    ghost output = { λ kind. Some (parse_error_text (refusal_of kind)) };

    ghost styled_output = { λ kind _. Some (parse_error_text (refusal_of kind)) };

    fn fmt<W: fmt::Write>(&self, f: &mut fmt::Formatter<W>) -> fmt::Result {
        f.write_str("parse error: ")?;
        fmt::Display::fmt(&self.kind, f)
    }
}

impl Error for ParseError {}

/// What `parse` answers.
pub type Result<T> = result::Result<T, ParseError>;

/// `==` of the parser's errors and of their kinds is equality, and a clone of a kind is equal.
pub fn same_parse_errors()
    // `==` of two errors is true exactly where their kinds are equal.
    ensures errors { (a b : RustKind) → IsTrue (⟦<ParseError as PartialEq>⟧.eq a b) ↔ (a ≡ b) }
    // `==` of two kinds is true exactly where they are equal.
    ensures kinds { (a b : RustKind) → IsTrue (⟦<ParseErrorKind as PartialEq>⟧.eq a b) ↔ (a ≡ b) }
    // A clone of a kind is equal to it.
    ensures clone { (a b : RustKind) → ⟦<ParseErrorKind as Clone>⟧.is_clone a b → b ≡ a }
{}
