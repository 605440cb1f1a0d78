//! A client.
ghost use Rattle.std.specs.Prelude.{◌≡◌, List, IsTrue, IfErr, IfOk, MatchOption};
ghost use Rattle.example_callers.specs.NextCode.{ReadsAgreement, ReceivesAgreement, ReceivesCode};
ghost use Rattle.unftp_control_defs.specs.Bytes.{Bytes};
ghost use Rattle.unftp_control_defs.specs.Input.{input_state_of};
ghost use Rattle.unftp_control_defs.specs.ReplyReader.{FrontReply, IsPartial};
ghost use Rattle.unftp_control_read.specs.Reading.{ReturnsRefusal};

use std::alloc::Global;
use std::io::Read;
use unftp_control_client::Client;
use unftp_control_read::{Front, Input, ReadReplyError, ReceiveError, ReplyDecoder, read_reply};

/// The code of the server's next reply, or `None` where it has closed the connection.
pub fn next_code<R: Read>(
    replies: &mut ReplyDecoder,
    stream: &mut Input<R>,
) -> Result<Option<u16>, ReceiveError>
    // of any stream: it is the first reply of what was received before and is read, and what
    // follows it is pending; there is none only at the stream's end, and at an error all that was
    // read is pending
    ensures receives { ReceivesCode replies.old (input_state_of R.remaining stream.old) result
        replies.new (input_state_of R.remaining stream.new) }
    ensures limit { replies.new.limit ≡ replies.old.limit }
{
    match replies.read_reply(stream)? {
        Some(reply) => Ok(Some(reply.code)),
        None => Ok(None),
    }
}

/// Reads the reply to AUTH TLS, which was sent last, and returns whether TLS may begin: the server
/// agrees, and nothing was received after its reply.
///
/// Bytes that came after the reply in clear text must not be taken for replies under TLS: where
/// there are any, the connection has to be closed.
pub fn tls_agreed<R: Read>(client: &mut Client, stream: &mut Input<R>) -> Result<bool, ReceiveError>
    // the next reply is taken, and TLS begins exactly where there is one and the client says so
    ensures receives { ReceivesAgreement client.old (input_state_of R.remaining stream.old) result
        client.new (input_state_of R.remaining stream.new) }
    // where TLS begins, the reply is a 234, and the last byte that was read is its last one
    ensures reply { IfOk result (λ agreed. IsTrue agreed → ReadsAgreement client.old.replies.bytes
        (input_state_of R.remaining stream.old) (input_state_of R.remaining stream.new)) }
    ensures limit { client.new.replies.limit ≡ client.old.replies.limit }
{
    match client.read_reply(stream)? {
        Some(_) => Ok(client.tls_agreed()),
        None => Ok(false),
    }
}

/// The code of the first reply in `received` and how many bytes it takes, once it is complete.
pub fn first_code(alloc: Global, received: &[u8]) -> Result<Option<(u16, usize)>, ReadReplyError>
    ensures front { IfOk result (λ front. MatchOption front
        (IsPartial received.now)
        (λ first. (lines : List Bytes) × FrontReply received.now first.0 lines first.1)) }
    ensures err { IfErr result (λ error. ReturnsRefusal received.now error) }
{
    match read_reply(alloc, received)? {
        Front::Whole { code, lines, used } => {
            drop(lines);
            Ok(Some((code, used)))
        }
        // the client reads more, and calls again
        Front::Partial => Ok(None),
    }
}
