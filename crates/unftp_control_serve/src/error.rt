//! Why serving ends early.
use std::alloc::AllocError;
use std::error::Error;
use std::{fmt, io};
use unftp_control_message::reply::error::ControlChanError;

/// Why serving ended before the input did.
#[derive(Debug, Drop)]
pub enum ServeError {
    /// A read failed. All lines that were read are answered.
    Read(io::Error),
    /// A write or a flush failed. A beginning of the replies is written, and the handler has taken
    /// the event whose reply was not written whole, or not flushed.
    Write(io::Error),
    /// The writer took nothing of a reply. What is written and taken is as for `Write`.
    WriteZero,
    /// The handler failed at an event, or at a reply after the first to it. The lines before its
    /// line are answered, and the replies that it gave to the event are written.
    Handler(ControlChanError),
    /// An allocation failed. Some lines are answered, and the handler may have taken the event of
    /// one more, of which the first replies may be written.
    OutOfMemory,
    /// The engine failed in an earlier call. Nothing is written or taken.
    Stopped,
    /// So many reads gave bytes that 64 bits don't count them. All lines that were read are
    /// answered.
    TooManyReads,
}

impl fmt::Display for ServeError {
    ghost use Rattle.std.specs.Prelude.{Some};
    ghost use Rattle.unftp_control_serve.specs.ErrorTexts.{serve_error_text};

    ghost output = { λ error. Some (serve_error_text error) };

    fn fmt<W: fmt::Write>(&self, f: &mut fmt::Formatter<W>) -> fmt::Result {
        f.write_str(match self {
            ServeError::Read(_) => "reading failed",
            ServeError::Write(_) => "writing failed",
            ServeError::WriteZero => "the writer took nothing",
            ServeError::Handler(_) => "the handler failed",
            ServeError::OutOfMemory => "out of memory",
            ServeError::Stopped => "the engine has stopped",
            ServeError::TooManyReads => "too many reads",
        })
    }
}

impl Error for ServeError {}

/// Out of memory, outside the handler.
impl From<AllocError> for ServeError {
    ghost use Rattle.std.specs.Prelude.{◌≡◌};
    ghost use Rattle.unftp_control_serve.specs.declared.error.ServeError.TheVariants.{OutOfMemory};

    ghost from_gives = { λ _ error. error ≡ OutOfMemory };

    fn from(_error: AllocError) -> ServeError {
        ServeError::OutOfMemory
    }
}
