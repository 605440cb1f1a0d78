//! A client's end of a control connection, without input and output: it writes the lines of
//! commands, and says to which of them each reply is.
#![tactic(auto)]

ghost use Rattle.std.specs.Prelude.{◌≡◌, ◌↔◌, ◌+◌, ◌-◌, ◌^◌, ◌<◌, ◌≤◌, ◌++◌, ℕ, List, [], Some, None, Ok, Err, IsTrue, IfErr, IfOk, IfSome, OnErr, OnOk, drop, length, max, take, vec_len};
ghost use Rattle.unftp_control_message.specs.CommandMeaning.{command_of};
ghost use Rattle.unftp_control_defs.specs.Bytes.{Bytes};
ghost use Rattle.unftp_control_defs.specs.Canonical.{HasLine, canonical_line};
ghost use Rattle.unftp_control_defs.specs.Input.{input_state_of};
ghost use Rattle.unftp_control_defs.specs.Lines.{IsLine};
ghost use Rattle.unftp_control_defs.specs.Outcome.{outcome};
ghost use Rattle.unftp_control_defs.specs.ReplyLimit.{IsTooLongReply, within_limit};
ghost use Rattle.unftp_control_defs.specs.ReplyReader.{FrontReply, IsMalformed, IsPartial};
ghost use Rattle.unftp_control_read.specs.ReplyDecoding.{IsReturned, TakesNextReply, held_after, pushed};
ghost use Rattle.unftp_control_read.specs.Receiving.{Receives};
ghost use Rattle.unftp_control_client.specs.Dialogue.{after_command, commands_owed};
ghost use Rattle.unftp_control_client.specs.Exchange.{IsNext, IsOtherError, MayBeginTls, new_client, only_reply};
ghost use Rattle.unftp_control_defs.specs.Room.{LacksRoom};

mod dialogue;
mod errors;
pub mod examples;
pub mod laws;
mod order;

pub use crate::dialogue::{ClientReply, Dialogue, To, same_client_replies};
pub use crate::errors::SendError;
pub use crate::order::Order;
use std::alloc::{AllocError, Global};
use std::io::Read;
use unftp_control_defs::input::Input;
use unftp_control_message::Command;
use unftp_control_read::{NextReplyError, ReceiveError, ReplyDecoder};
use unftp_control_write::{is_line, write_command};

/// A client's end of a control connection. It writes the lines that the caller sends, and takes
/// replies from the bytes that the caller receives. A server replies in order, so the client knows
/// to which command each reply is (RFC 959, sections 4.2 and 5.4). Commands may be sent before
/// the replies to earlier ones came.
#[derive(Drop)]
pub struct Client {
    replies: ReplyDecoder,
    dialogue: Dialogue,
}

impl Client {
    /// A client that has sent and received nothing. The greeting is expected first. A reply may
    /// have any length: for a server that is not trusted, set a limit.
    pub fn new(alloc: Global) -> Client
        // Nothing was sent or received, and there is no limit.
        ensures { result ≡ new_client None }
    {
        Client {
            replies: ReplyDecoder::new(alloc),
            dialogue: Dialogue::new(),
        }
    }

    /// A client that has sent and received nothing. A reply may have at most `limit` bytes, its
    /// line ends counted (RFC 959 names no limit).
    pub fn with_limit(alloc: Global, limit: usize) -> Client
        // The limit is at least one byte.
        requires { 1 ≤ limit }
        // Nothing was sent or received, and a reply may have at most `limit` bytes.
        ensures { result ≡ new_client (Some limit) }
    {
        Client {
            replies: ReplyDecoder::with_limit(alloc, limit),
            dialogue: Dialogue::new(),
        }
    }

    /// Appends the canonical line of the command to `out`, as `write_command` does, and returns the
    /// command's place among all that were sent (RFC 959, section 5.3). The command is then owed a
    /// reply: the caller sends the bytes, each once.
    ///
    /// It is refused with `NoLine` where no line is read as this command, with `OutOfMemory` where
    /// `out` has no room for the line and can't grow, and with `TooManyCommands` where 2^64 - 1
    /// commands were sent. At an error nothing changes: `out` is as it was, and so is what is owed.
    pub fn send(&mut self, command: &Command, out: &mut Vec<u8>) -> Result<u64, SendError>
        // At `Ok` the place is how many commands were sent before.
        ensures place { IfOk result (λ place. place ≡ self.old.dialogue.sent) }
        // At `Ok` one more command was sent, with the canonical line, and nothing else changes.
        ensures ok { OnOk result (self.new ≡ record self.old {
          dialogue = after_command (canonical_line (command_of command.now)) self.old.dialogue;
        }) }
        // At `Ok` exactly the canonical line is appended to `out`.
        ensures out { OnOk result
            (out.new.items ≡ out.old.items ++ canonical_line (command_of command.now)) }
        // At `Ok` the canonical line is one line: its only line feed is its last byte.
        ensures line { OnOk result (IsLine (canonical_line (command_of command.now))) }
        // At `Ok` the canonical line is read as the same command.
        ensures read_back { OnOk result
            (outcome (canonical_line (command_of command.now)) ≡ Ok (command_of command.now)) }
        // At an error the client stays the same.
        ensures err { OnErr result (self.new ≡ self.old) }
        // At an error `out` stays the same.
        ensures out_err { OnErr result (out.new.items ≡ out.old.items) }
        // Where no line is read as the command, the result is `NoLine`.
        ensures no_line { ¬ HasLine (command_of command.now) → result ≡ Err SendError.NoLine }
        // For any other command the error is `OutOfMemory`, only where `out` lacks room for the
        // line, or `TooManyCommands`, only where 2^64 - 1 were sent.
        ensures has_line { HasLine (command_of command.now) → IfErr result (λ error.
            IsOtherError self.old.dialogue.sent
            (LacksRoom out.old (canonical_line (command_of command.now))) error) }
    {
        let length = out.len();
        write_command(command, out)?;
        self.add_line(out, length)
    }

    /// Appends a line to `out` as it is, for what no `Command` says, as `TYPE A` or `OPTS MLST
    /// size`, and returns its place as `send` does (RFC 959, section 5.3). It is then owed a reply.
    ///
    /// Bytes without a line feed at their end, or with another before it, are refused with
    /// `NotALine`, so that no second line is sent with the first. It is refused with `OutOfMemory`
    /// and `TooManyCommands` as `send` is. At an error nothing changes.
    pub fn send_line(&mut self, line: &[u8], out: &mut Vec<u8>) -> Result<u64, SendError>
        // At `Ok` the place is how many commands were sent before.
        ensures place { IfOk result (λ place. place ≡ self.old.dialogue.sent) }
        // At `Ok` one more command was sent, with this line, and nothing else changes.
        ensures ok { OnOk result
            (self.new ≡ record self.old { dialogue = after_command line.now self.old.dialogue }) }
        // At `Ok` exactly the line is appended to `out`.
        ensures out { OnOk result (out.new.items ≡ out.old.items ++ line.now) }
        // At an error the client stays the same.
        ensures err { OnErr result (self.new ≡ self.old) }
        // At an error `out` stays the same.
        ensures out_err { OnErr result (out.new.items ≡ out.old.items) }
        // Bytes that are not one line are refused with `NotALine`.
        ensures not_a_line { ¬ IsLine line.now → result ≡ Err SendError.NotALine }
        // For a line the error is `OutOfMemory`, only where `out` lacks room for it, or
        // `TooManyCommands`, only where 2^64 - 1 were sent.
        ensures is_line { IsLine line.now → IfErr result (λ error.
            IsOtherError self.old.dialogue.sent (LacksRoom out.old line.now) error) }
    {
        if !is_line(line) {
            return Err(SendError::NotALine);
        }
        let length = out.len();
        out.extend_from_slice(line)?;
        self.add_line(out, length)
    }

    /// Counts the command whose line comes after this many bytes, and returns its place; or removes
    /// the line where 64 bits don't count it.
    fn add_line(&mut self, out: &mut Vec<u8>, length: usize) -> Result<u64, SendError>
        requires { length ≤ vec_len out.old }
        ensures place { IfOk result (λ place. place ≡ self.old.dialogue.sent) }
        ensures ok { OnOk result (self.new ≡ record self.old {
          dialogue = after_command (drop length out.old.items) self.old.dialogue;
        }) }
        ensures out { OnOk result (out.new.items ≡ out.old.items) }
        ensures err { OnErr result (self.new ≡ self.old) }
        ensures out_err { OnErr result (out.new.items ≡ take length out.old.items) }
        ensures why { IfErr result (λ error. (error ≡ SendError.TooManyCommands)
            × (self.old.dialogue.sent ≡ 2 ^ 64 - 1)) }
    {
        let (_, line) = out.split_at(length);
        let Some(place) = self.dialogue.add_line(line) else {
            out.truncate(length);
            return Err(SendError::TooManyCommands);
        };
        Ok(place)
    }

    /// Appends a piece of what the server sent to the pending bytes. When out of memory, nothing
    /// changes; it only is where the buffer would hold more bytes than it ever did, and never for
    /// an empty piece.
    pub fn receive(&mut self, piece: &[u8]) -> Result<(), AllocError>
        // At `Ok` the piece follows the pending bytes, and replies that were taken may have left
        // the buffer.
        ensures ok { OnOk result (self.new
            ≡ record self.old { replies = pushed self.old.replies piece.now }) }
        // At an error nothing changes.
        ensures err { OnErr result (self.new ≡ self.old) }
        // It is never out of memory for an empty piece.
        ensures some { OnErr result (¬ (piece.now ≡ [])) }
        // It is out of memory only where the buffer would hold more bytes than it ever did.
        ensures memory { OnErr result
            (self.old.replies.held < self.old.replies.buffered + length piece.now) }
    {
        self.replies.push(piece)
    }

    /// Takes the first reply of the pending bytes, with what it is to, or returns `None` where they
    /// are only a part of one (RFC 959, sections 4.2 and 5.4). The greeting comes first, then the
    /// replies to each command in turn. After one whose code is 1yz another follows to the same. A
    /// reply that comes where none is owed is to `Nothing`.
    ///
    /// At an error all bytes stay pending, and what is owed is as before. `Malformed` and `TooLong`
    /// are returned from then on. After `OutOfMemory` the next call finds the same reply again.
    pub fn next_reply(&mut self) -> Result<Option<ClientReply>, NextReplyError>
        // A reply is the first, within the limit, and is removed. Else all bytes stay pending: at
        // `None` as a part of a reply below the limit, at an error for the reason that it names.
        ensures takes_next { TakesNextReply self.old.replies (only_reply result) self.new.replies }
        // A reply is the greeting, or to the first command that is owed one, or to nothing, and is
        // counted as such. At `None` and at an error what is owed stays the same.
        ensures dialogue { IsNext self.old.dialogue result self.new.dialogue }
        // A reply that the pending bytes begin with, within the limit, is returned, or the result
        // is `OutOfMemory`.
        ensures whole { (code : ℕ) (lines : List Bytes) (used : ℕ)
            → FrontReply self.old.replies.bytes code lines used
            → IfSome self.old.replies.limit (λ limit. used ≤ limit)
            → IsReturned code lines (only_reply result) }
        // `None` is returned for each part of a reply that is not too long.
        ensures partial { IsPartial self.old.replies.bytes
            → ¬ IsTooLongReply self.old.replies.limit self.old.replies.bytes
            → result ≡ Ok None }
        // `Malformed` is returned where the bytes that a reply may have are malformed.
        ensures malformed { IsMalformed
            (within_limit self.old.replies.limit self.old.replies.bytes)
            → result ≡ Err NextReplyError.Malformed }
        // `TooLong` is returned where as many bytes as a reply may have are only a part of one.
        ensures too_long { IsTooLongReply self.old.replies.limit self.old.replies.bytes
            → result ≡ Err NextReplyError.TooLong }
        // At `None` the buffer holds only the pending bytes, and else as many as before.
        ensures buffered { self.new.replies.buffered
            ≡ held_after self.old.replies (only_reply result) self.new.replies }
        // The limit stays the same.
        ensures limit { self.new.replies.limit ≡ self.old.replies.limit }
        // The most bytes that the buffer has held stay the same.
        ensures held { self.new.replies.held ≡ self.old.replies.held }
    {
        match self.replies.next_reply()? {
            Some(reply) => Ok(Some(self.dialogue.add_reply(reply))),
            None => Ok(None),
        }
    }

    /// Takes the first reply of the pending bytes, as `next_reply` does, and reads on while they
    /// are only a part of one, at most 4096 bytes at a time. It returns `None` only at the reader's
    /// end, with less than a reply pending. Bytes that were read after the reply stay pending.
    ///
    /// At an error all bytes stay pending, those that were read too, and what is owed is as before.
    /// `Read` is any error of the reader, also `Interrupted`: after it, and after `OutOfMemory`,
    /// the call can be made again. `Malformed` and `TooLong` are returned from then on.
    /// `TooManyReads` is never returned.
    pub fn read_reply<R: Read>(
        &mut self,
        reader: &mut Input<R>,
    ) -> Result<Option<ClientReply>, ReceiveError>
        // A reply is the greeting, or to the first command that is owed one, or to nothing, and is
        // counted as such. At `None` and at an error what is owed stays the same.
        ensures dialogue { IsNext self.old.dialogue result self.new.dialogue }
        // A reply is the first of the pending bytes and those that were read. What follows it is
        // pending; without one all are, at `None` as a part of a reply at the reader's end.
        ensures receives { Receives self.old.replies (input_state_of R.remaining reader.old)
            (only_reply result) self.new.replies (input_state_of R.remaining reader.new) }
        // The limit stays the same.
        ensures limit { self.new.replies.limit ≡ self.old.replies.limit }
        // With a limit, at most the limit and 4,095 bytes are pending, or as many as before.
        ensures pending { IfSome self.old.replies.limit (λ limit.
            length self.new.replies.bytes ≤ max (length self.old.replies.bytes) (limit + 4095)) }
        // With a limit, the buffer holds at most the limit and 4,095 bytes, or as many as before.
        ensures buffered { IfSome self.old.replies.limit (λ limit.
            self.new.replies.buffered ≤ max self.old.replies.buffered (limit + 4095)) }
        // With a limit, the buffer has held at most the limit and 4,095 bytes at once, or as many
        // as before.
        ensures held { IfSome self.old.replies.limit (λ limit.
            self.new.replies.held ≤ max self.old.replies.held (limit + 4095)) }
    {
        match self.replies.read_reply(reader)? {
            Some(received) => Ok(Some(self.dialogue.add_reply(received))),
            None => Ok(None),
        }
    }

    /// How many commands are owed their final reply.
    pub fn owed(&self) -> u64
        // The count is that of the commands that were sent, less those that have their final reply.
        ensures { result ≡ commands_owed self.now.dialogue }
    {
        self.dialogue.owed()
    }

    /// The pending bytes: those after the last reply that was taken.
    pub fn pending(&self) -> &[u8]
        // All pending bytes are returned.
        ensures { result.now ≡ self.now.replies.bytes }
    {
        self.replies.pending()
    }

    /// Whether TLS may begin: the last reply was a 234 to the last command that was sent, which
    /// asks for TLS, and no byte was received after it (RFC 4217, section 4). A line asks for TLS
    /// where it is AUTH TLS or AUTH SSL, in letters of any case: 234 to AUTH with another
    /// mechanism, or to another command, begins none.
    ///
    /// Bytes that came after the reply in clear text must not be taken for replies under TLS: where
    /// there are any, the connection has to be closed.
    pub fn tls_agreed(&self) -> bool
        // It is true exactly where the last reply was a 234 to the last command that asks for TLS,
        // no command is owed a reply, and no byte is pending.
        ensures { IsTrue result ↔ MayBeginTls self.now }
    {
        self.dialogue.agreed && self.owed() == 0 && self.pending().is_empty()
    }
}
