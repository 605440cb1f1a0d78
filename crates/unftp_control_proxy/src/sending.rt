//! Lines that a server may be sent.
ghost use Rattle.std.specs.Prelude.{◌≡◌, ◌++◌, IfErr, IfOk, IsOk, OnErr, OnOk, vec_len};
ghost use Rattle.unftp_control_defs.specs.Room.{LacksRoom};
ghost use Rattle.unftp_control_proxy.specs.ProxyCalls.{IsUnsent, MayBeSent};

use crate::errors::SendError;
use unftp_control_write::{is_clear, is_line};

/// Whether the line may be sent to the server, and if not, why. One that is clear is one line, so
/// its bytes are scanned once.
#[tactic(auto, using(crate::proofs::SendLemmas::clear_is_line))]
pub(crate) fn check(limit: usize, line: &[u8]) -> Result<(), SendError>
    ensures ok { IsOk result → MayBeSent limit line.now }
    ensures why { IfErr result (λ error. IsUnsent limit line.now error) }
{
    if !is_clear(line) {
        if !is_line(line) {
            return Err(SendError::NotALine);
        }
        return Err(SendError::Unclear);
    }
    if line.len() > limit {
        return Err(SendError::TooLong);
    }
    Ok(())
}

/// Appends the line, and returns how many bytes were there before it.
pub(crate) fn append(line: &[u8], to_server: &mut Vec<u8>) -> Result<usize, SendError>
    ensures length { IfOk result (λ length. length ≡ vec_len to_server.old) }
    ensures ok { OnOk result (to_server.new.items ≡ to_server.old.items ++ line.now) }
    ensures err { OnErr result (to_server.new.items ≡ to_server.old.items) }
    ensures why { IfErr result (λ error. (error ≡ SendError.OutOfMemory)
        × LacksRoom to_server.old line.now) }
{
    let length = to_server.len();
    match to_server.extend_from_slice(line) {
        Ok(()) => Ok(length),
        Err(_) => Err(SendError::OutOfMemory),
    }
}
