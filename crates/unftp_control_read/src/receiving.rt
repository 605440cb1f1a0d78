//! Replies from a reader.
ghost use Rattle.std.specs.Prelude.{◌≡◌, ◌≢◌, ◌+◌, ◌≤◌, None, Ok, Some, length, max, ◌++◌, replicate, take, vec_capacity, vec_len, IfErr, IfSome, OnOk, OnErr};
ghost use Rattle.unftp_control_defs.specs.Bytes.{Bytes};
ghost use Rattle.unftp_control_defs.specs.Input.{InputState, input_state_of};
ghost use Rattle.unftp_control_defs.specs.ReplyReader.{IsPartial};
ghost use Rattle.unftp_control_defs.specs.TakingSteps.{TakesReply};
ghost use Rattle.unftp_control_read.specs.ReplyDecoding.{PendingReplies, content};
ghost use Rattle.unftp_control_read.specs.Receiving.{AppendsPiece, Receives};
ghost use Rattle.unftp_control_read.specs.declared.reply.ReceivedReply.{ReceivedReply as Reply};

use crate::decoder::ReplyDecoder;
use crate::errors::ReceiveError;
use crate::reply::ReceivedReply;
use std::alloc::AllocError;
use std::io::Read;
use unftp_control_defs::input::{Input, PIECE};

/// Appends as many zeros as are read at a time.
pub(crate) fn add_room(buf: &mut Vec<u8>) -> Result<(), AllocError>
    ensures ok { OnOk result (buf.new.items ≡ buf.old.items ++ replicate PIECE 0) }
    ensures err { OnErr result (buf.new.items ≡ buf.old.items) }
    ensures capacity { vec_capacity buf.old ≤ vec_capacity buf.new }
{
    match buf.len().checked_add(PIECE) {
        Some(end) => buf.resize(end, 0),
        None => Err(AllocError),
    }
}

/// Reads once, and leaves what is read after the first `len` bytes, where the buffer has room.
pub(crate) fn read_after<R: Read>(
    buf: &mut Vec<u8>,
    len: usize,
    reader: &mut Input<R>,
) -> Result<usize, ReceiveError>
    requires { vec_len buf.old ≡ len + PIECE }
    ensures appends { AppendsPiece PIECE (take len buf.old.items) buf.new.items
        (input_state_of R.remaining reader.old) (input_state_of R.remaining reader.new) result }
    ensures read { IfErr result (λ error. error ≢ ReceiveError.OutOfMemory) }
    ensures capacity { vec_capacity buf.new ≡ vec_capacity buf.old }
{
    let (_, room) = buf.as_mut_slice().split_at_mut(len);
    match reader.read(room) {
        Ok(n) => {
            buf.truncate(len + n);
            Ok(n)
        }
        Err(error) => {
            buf.truncate(len);
            Err(ReceiveError::Read(error))
        }
    }
}

impl ReplyDecoder {
    /// Takes the first reply of the pending bytes, and reads on while they are only a part of one
    /// (RFC 959, section 4.2), at most 4096 bytes at a time. It returns `None` only at the reader's
    /// end, with less than a reply pending. Bytes that were read after the reply stay pending.
    ///
    /// At an error all bytes stay pending, those that were read too. `Read` is any error of the
    /// reader, also `Interrupted`: after it, and after `OutOfMemory`, the call can be made again.
    /// `Malformed` and `TooLong` are returned from then on. `TooManyReads` is never returned.
    pub fn read_reply<R: Read>(
        &mut self,
        reader: &mut Input<R>,
    ) -> Result<Option<ReceivedReply>, ReceiveError>
        // A reply is the first of the pending bytes and those that were read. What follows it is
        // pending; without one all are, at `None` as a part of a reply at the reader's end.
        ensures receives { Receives self.old (input_state_of R.remaining reader.old) result
            self.new (input_state_of R.remaining reader.new) }
        // The limit stays the same.
        ensures limit { self.new.limit ≡ self.old.limit }
        // With a limit, at most the limit and 4,095 bytes are pending, or as many as before.
        ensures pending { IfSome self.old.limit (λ limit.
            length self.new.bytes ≤ max (length self.old.bytes) (limit + 4095)) }
        // With a limit, the buffer holds at most the limit and 4,095 bytes, or as many as before.
        ensures buffered { IfSome self.old.limit (λ limit.
            self.new.buffered ≤ max self.old.buffered (limit + 4095)) }
        // With a limit, the buffer has held at most the limit and 4,095 bytes at once, or as many
        // as before.
        ensures held { IfSome self.old.limit (λ limit.
            self.new.held ≤ max self.old.held (limit + 4095)) }
    {
        for _turn in 0..u64::MAX {
            if let Some(reply) = self.next_reply()? {
                return Ok(Some(reply));
            }
            if self.fill_from(reader)? == 0 {
                return Ok(None);
            }
        }
        // each read gave a byte, and so many are not held
        let held = self.pending().len();
        prove!(held < usize::MAX);
        Err(ReceiveError::TooManyReads)
    }
}

/// What follows of `Receives` where the bytes that the reader has yet to give are known, before and
/// after, as those of a slice are.
pub fn known_input_is_received()
    // The reply is the first of the pending bytes and the remaining input, and what follows it is
    // left.
    ensures reply { (before after : PendingReplies) (input input_after : InputState) (reply : Reply)
        → Receives before input (Ok (Some reply)) after input_after
        → IfSome input.remaining (λ bytes. IfSome input_after.remaining (λ left.
        TakesReply (before.bytes ++ bytes) (content reply) (after.bytes ++ left))) }
    // The whole input is a part of a reply, and pending.
    ensures end { (before after : PendingReplies) (input input_after : InputState)
        → Receives before input (Ok None) after input_after
        → IfSome input.remaining (λ bytes. IsPartial (before.bytes ++ bytes)
        × (after.bytes ≡ before.bytes ++ bytes)) }
{}
