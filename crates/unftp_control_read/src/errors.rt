//! Why there is no next reply.
use crate::ReadReplyError;
use std::alloc::AllocError;
use std::io;
use thiserror::Error;

/// Why no reply is taken from the pending bytes.
#[derive(Debug, Drop, Error)]
pub enum NextReplyError {
    /// The first line is complete and opens no reply.
    #[error("malformed reply")]
    Malformed,
    /// As many bytes as a reply may have are only a part of one.
    #[error("reply too long")]
    TooLong,
    /// An allocation for the lines of a complete reply failed.
    #[error("out of memory")]
    OutOfMemory,
}

impl From<ReadReplyError> for NextReplyError {
    ghost use Rattle.std.specs.Prelude.{◌≡◌};
    ghost use Rattle.unftp_control_read.specs.ReplyDecoding.{error_of};

    ghost from_gives = { λ refusal error. error ≡ error_of refusal };

    fn from(refusal: ReadReplyError) -> NextReplyError {
        match refusal {
            ReadReplyError::Malformed => NextReplyError::Malformed,
            ReadReplyError::OutOfMemory => NextReplyError::OutOfMemory,
        }
    }
}

/// Why no reply is received from a reader.
#[derive(Debug, Drop, Error)]
pub enum ReceiveError {
    /// A read failed, or was interrupted.
    #[error("reading failed")]
    Read(io::Error),
    /// The first line is complete and opens no reply.
    #[error("malformed reply")]
    Malformed,
    /// As many bytes as a reply may have are only a part of one.
    #[error("reply too long")]
    TooLong,
    /// An allocation failed: for the bytes of the next read, or for the lines of a complete reply.
    #[error("out of memory")]
    OutOfMemory,
    /// More reads gave bytes than 64 bits count: never returned, since all these bytes would be
    /// held.
    #[error("too many reads")]
    TooManyReads,
}

impl From<NextReplyError> for ReceiveError {
    ghost use Rattle.std.specs.Prelude.{◌≡◌};
    ghost use Rattle.unftp_control_read.specs.Receiving.{failure_of};

    ghost from_gives = { λ refusal error. error ≡ failure_of refusal };

    fn from(refusal: NextReplyError) -> ReceiveError {
        match refusal {
            NextReplyError::Malformed => ReceiveError::Malformed,
            NextReplyError::TooLong => ReceiveError::TooLong,
            NextReplyError::OutOfMemory => ReceiveError::OutOfMemory,
        }
    }
}

impl From<AllocError> for ReceiveError {
    ghost use Rattle.std.specs.Prelude.{◌≡◌};
    ghost use Rattle.unftp_control_read.specs.declared.errors.ReceiveError.TheVariants.{OutOfMemory};

    // A failed allocation is out of memory.
    ghost from_gives = { λ _ error. error ≡ OutOfMemory };

    fn from(_failed: AllocError) -> ReceiveError {
        ReceiveError::OutOfMemory
    }
}
