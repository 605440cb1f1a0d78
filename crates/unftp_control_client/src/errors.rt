//! Why no command is sent.
use std::alloc::AllocError;
use thiserror::Error;
use unftp_control_write::WriteCommandError;

/// Why no command is sent.
#[derive(Debug, Drop, Error)]
pub enum SendError {
    /// No line whose one line feed is its last byte is read as this command.
    #[error("no line gives this command")]
    NoLine,
    /// The bytes are not one line: no line feed is their last byte, or one comes before it.
    #[error("not one line")]
    NotALine,
    /// An allocation failed.
    #[error("out of memory")]
    OutOfMemory,
    /// As many commands were sent as 64 bits count.
    #[error("too many commands")]
    TooManyCommands,
}

impl From<WriteCommandError> for SendError {
    ghost use Rattle.std.specs.Prelude.{◌≡◌};
    ghost use Rattle.unftp_control_client.specs.Exchange.{send_error_of};

    ghost from_gives = { λ refusal error. error ≡ send_error_of refusal };

    fn from(refusal: WriteCommandError) -> SendError {
        match refusal {
            WriteCommandError::NoLine => SendError::NoLine,
            WriteCommandError::OutOfMemory => SendError::OutOfMemory,
        }
    }
}

impl From<AllocError> for SendError {
    ghost use Rattle.std.specs.Prelude.{◌≡◌};
    ghost use Rattle.unftp_control_client.specs.declared.errors.SendError.TheVariants.{OutOfMemory};

    // A failed allocation is out of memory.
    ghost from_gives = { λ _ error. error ≡ OutOfMemory };

    fn from(_failed: AllocError) -> SendError {
        SendError::OutOfMemory
    }
}
