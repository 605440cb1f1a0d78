//! A proxy that forwards each line of a client to a server.
ghost use Rattle.std.specs.Prelude.{◌≡◌, MatchOption};
ghost use Rattle.example_callers.specs.Forwarding.{IsReplyInPlace};
ghost use Rattle.unftp_control_write.specs.Forwarding.{IsForwarded};

use unftp_control_write::{ForwardError, forward};

/// Forwards a client's line: appends what the server is sent. Where it is not forwarded, nothing is
/// appended, and the client gets the reply that is returned.
pub fn forward_line(line: &[u8], out: &mut Vec<u8>) -> Option<&'static str>
    ensures { MatchOption result (IsForwarded line.now out.old.items out.new.items)
        (λ reply. (out.new.items ≡ out.old.items) × IsReplyInPlace line.now reply.now) }
{
    match forward(line, out) {
        Ok(()) => None,
        Err(ForwardError::NotALine) => Some("500 Not one line\r\n"),
        Err(ForwardError::Refused(_)) => Some("500 Not understood\r\n"),
        Err(ForwardError::OutOfMemory) => Some("421 Out of memory\r\n"),
    }
}
