//! A client's lines and a server's replies, and what each is sent.
ghost use Rattle.std.specs.Prelude.{◌≡◌, ◌≢◌, ◌↔◌, ◌≤◌, ◌<◌, ◌+◌, ◌++◌, [], false, nat_le, true, None, Some, Ok, Err, IfErr, IfOk, IsTrue, OnErr, OnOk, drop, is_some, length, take, vec_len};
ghost use Rattle.unftp_control_defs.specs.Bytes.{Bytes};
ghost use Rattle.unftp_control_defs.specs.Forwarded.{forwarded_line};
ghost use Rattle.unftp_control_defs.specs.Lines.{IsLine, lines_of};
ghost use Rattle.unftp_control_read.specs.ReplyDecoding.{FindsFirst, pushed as pushed_reply};
ghost use Rattle.unftp_control_write.specs.Forwarding.{IsForwarded};
ghost use Rattle.unftp_control_client.specs.Dialogue.{after_reply, owes_reply};
ghost use Rattle.unftp_control_proxy.specs.ProxyAnswers.{IsReplyOf, answer_reply, is_answer};
ghost use Rattle.unftp_control_serve.specs.ClientLines.{first_client_line};
ghost use Rattle.unftp_control_serve.specs.Decoder.{found_as, kept_bytes, line_in, pushed, without_line};
ghost use Rattle.unftp_control_proxy.specs.ProxyCalls.{AnsweredBy, BeginsTls, GivesNext, GivesOther, IsAnswerError, IsAppendedError, IsCheckError, IsDecidable, IsForwardingError, IsFull, IsNextError, IsReplaceError, IsSendError, IsUnclearError, MayBeSent, SentAs, after_fate, is_due, new_proxy, send_error, server_owes, waits, IsScannedFor};

use crate::answer::Answer;
use crate::errors::{ReplaceError, SendError};
use crate::sending::{append, check};
use std::alloc::{AllocError, Global};
use std::marker::Model;
use std::mem;
use unftp_control_client::{Dialogue, Order};
use unftp_control_read::{FirstReply, FoundReply, NextReplyError, ReplyDecoder, find_reply};
use unftp_control_serve::{ClientLine, EventDecoder};
use unftp_control_write::{ForwardError, forward, is_line};

/// What a proxy keeps and sends at most.
#[derive(Clone, Copy, Debug)]
pub struct Limits {
    /// The most bytes of a client's line, its line feed counted.
    pub line: usize,
    /// The most bytes of a line that is sent to the server, its line feed counted. A server may
    /// reply twice to a longer line, or not at all: this has to be no more than it takes.
    pub sent: usize,
    /// The most bytes of a server's reply, its line ends counted.
    pub reply: usize,
    /// How many final replies the server may owe, the greeting counted. While it owes so many, no
    /// further line is taken. At least 1, since else none would ever be.
    pub waiting: usize,
}

/// What the client is given next.
#[derive(Debug, Clone, Copy, PartialEq, Eq)]
pub enum NextReply {
    /// The proxy's own answer was given.
    Answered,
    /// A reply of the server with this code was given. Where it is 1yz, another reply to the same
    /// line follows.
    Passed(u16),
    /// A reply with this code came that no line is owed, as 421 before a server closes the
    /// connection (RFC 959, section 5.4). It stays: where it were given to the client, that would
    /// take it for the reply to its next line.
    Unasked(u16),
}

/// A proxy between a client and a server. The caller gives it what both sent, in any pieces, and
/// takes from it what each is to be sent.
///
/// After each piece from either side the caller calls `next_reply` until it returns `None`, then
/// `next_line` once, and decides the line by `forward`, `send_as_it_is`, `replace` or `answer`; and
/// so on until no line is taken. A reply that is given makes room for a line.
///
/// No line is taken after one that the proxy answers itself, until the answer is given; nor after
/// AUTH TLS, until its reply is (RFC 4217, section 4). After a 234 to that, `tls_agreed` returns
/// true, and what is pending is no line: the caller takes no further one.
// An answer that is held is one final reply, and the line that is taken is the one that it is to.
#[derive(Drop)]
pub struct Proxy {
    client: EventDecoder,
    server: ReplyDecoder,
    order: Order,
    answer: Option<Answer>,
    limits: Limits,
}

impl Model for Proxy {
    ghost use Rattle.std.specs.Prelude.{IfSome, is_some, true, ◌≡◌};
    ghost use Rattle.unftp_control_proxy.specs.ProxyAnswers.{answer_reply, is_answer};
    ghost use Rattle.unftp_control_proxy.specs.ProxyCalls.{ProxyState, proxy_state};

    ghost Value = { ProxyState };

    ghost view = { λ proxy. proxy_state proxy.client proxy.server proxy.order.dialogue
        proxy.answer proxy.limits };

    ghost invariant = { λ proxy.
        IfSome proxy.answer (λ answer. is_answer (answer_reply answer) ≡ true)
        × (proxy.order.taken ≡ is_some proxy.answer) };
}

impl Proxy {
    /// A proxy that was given nothing. The client is owed the server's greeting first.
    pub fn new(alloc: Global, limits: Limits) -> Proxy
        // The limits on the client's lines, on replies and on what is owed are at least 1.
        requires { (1 ≤ limits.line) × (1 ≤ limits.reply) × (1 ≤ limits.waiting) }
        // Nothing came, was sent or was given, and the greeting is owed.
        ensures { result ≡ new_proxy limits }
    {
        Proxy {
            client: EventDecoder::with_limit(alloc, limits.line),
            server: ReplyDecoder::with_limit(alloc, limits.reply),
            order: Order::new(),
            answer: None,
            limits,
        }
    }

    /// A piece of what the client sent. When out of memory, nothing changes; it only is where the
    /// buffer would hold more bytes than it ever did, and never for an empty piece.
    pub fn from_client(&mut self, piece: &[u8]) -> Result<(), AllocError>
        // At `Ok` the piece follows the client's bytes. At most its length more is held, and lines
        // that were taken may have left the buffer.
        ensures ok { OnOk result
            (self.new ≡ record self.old { client = pushed self.old.client piece.now }) }
        // At an error nothing changes.
        ensures err { OnErr result (self.new ≡ self.old) }
        // It is never out of memory for an empty piece.
        ensures some { OnErr result (¬ (piece.now ≡ [])) }
        // It is out of memory only where the buffer would hold more bytes than it ever did.
        ensures memory { OnErr result
            (self.old.client.held < self.old.client.buffered + length piece.now) }
    {
        self.client.push(piece)
    }

    /// A piece of what the server sent. When out of memory, nothing changes; it only is where the
    /// buffer would hold more bytes than it ever did, and never for an empty piece.
    pub fn from_server(&mut self, piece: &[u8]) -> Result<(), AllocError>
        // At `Ok` the piece follows the server's bytes. At most its length more is held, and
        // replies that were given may have left the buffer.
        ensures ok { OnOk result
            (self.new ≡ record self.old { server = pushed_reply self.old.server piece.now }) }
        // At an error nothing changes.
        ensures err { OnErr result (self.new ≡ self.old) }
        // It is never out of memory for an empty piece.
        ensures some { OnErr result (¬ (piece.now ≡ [])) }
        // It is out of memory only where the buffer would hold more bytes than it ever did.
        ensures memory { OnErr result
            (self.old.server.held < self.old.server.buffered + length piece.now) }
    {
        self.server.push(piece)
    }

    /// Whether no line is taken now: the server owes as many replies as it may; or an answer is not
    /// given yet; or AUTH TLS has no reply yet. Nothing should be read from the client then.
    pub fn waits_for_server(&self) -> bool
        // It is true exactly where the server owes as many replies as it may, an answer is held, or
        // a line that asks for TLS has no final reply.
        ensures { result ≡ waits self.now }
    {
        self.owes_all() || !self.order.may_take()
    }

    /// Whether the server owes as many replies as it may.
    fn owes_all(&self) -> bool
        ensures { result ≡ nat_le self.now.limits.waiting (server_owes self.now.dialogue) }
    {
        let greeting = u64::from(self.order.dialogue.answered.is_none());
        self.order.dialogue.owed().saturating_add(greeting) >= self.limits.waiting as u64
    }

    /// How far the dialogue with the server has come: how many replies it owes (`owed`), and
    /// whether it has agreed to begin TLS (`agreed`).
    pub fn dialogue(&self) -> Dialogue
        // The dialogue is the one with the server.
        ensures { result ≡ self.now.dialogue }
    {
        self.order.dialogue
    }

    /// What the client's next line is; or `None` where none is complete. `line` then returns its
    /// bytes, until it is decided. It may be decided only where the proxy doesn't wait for the
    /// server. It takes no memory, and scans no byte for a line feed twice. A call that sends a
    /// line reads it once more, to see that it is one clear line.
    ///
    /// Where it returns `None`, fewer bytes of the client are held than a line may have: so where
    /// it does before each piece, never more than the limit and one piece.
    pub fn next_line(&mut self) -> Option<ClientLine>
        // The result is what the client's first line is, `Complete` or `TooLong`, or `None` where
        // no line is complete.
        ensures next { result
            ≡ first_client_line self.old.client.limit (lines_of self.old.client.bytes) }
        // At `Some` the first line is found. At `None` only the incomplete line is held of the
        // client's bytes, or nothing of one that is too long.
        ensures client { self.new.client ≡ found_as self.old.client result self.new.client.scanned }
        // The client's bytes and all else stay the same, and no byte is scanned for a line feed
        // twice.
        ensures same { IsScannedFor self.old self.new }
    {
        self.client.find_line()
    }

    /// The line that `next_line` found, as it came; empty where it is too long, and where none was
    /// found.
    pub fn line(&self) -> &[u8]
        // The bytes are the line that was found. There are none where it is too long, and where no
        // line was found.
        ensures { result.now ≡ line_in self.now.client }
    {
        self.client.found_line()
    }

    /// Whether the line that was found may be decided now.
    fn is_decidable(&self) -> bool
        ensures { IsTrue result ↔ IsDecidable self.now }
    {
        self.client.is_found() && !self.waits_for_server()
    }

    /// Decides the line: it is forwarded as its command, as `forward` of `unftp_control_write`
    /// does.
    ///
    /// `NoLine` where no line may be decided, `NotALine` where it is too long, and `Refused` where
    /// it is no command. `Unclear` where servers read what would be sent in different ways, as with
    /// a Telnet byte. `TooLong` where that is longer than what may be sent, `OutOfMemory` where
    /// `to_server` has no room for it and can't grow, and `TooManyCommands` where 2^64 - 1 lines
    /// were sent. At an error the line is still to be decided, and nothing is appended.
    pub fn forward(&mut self, to_server: &mut Vec<u8>) -> Result<(), SendError>
        // At `Ok` exactly the forwarded line is appended, which is read as the command of the
        // client's line.
        ensures ok { OnOk result
            (IsForwarded (line_in self.old.client) to_server.old.items to_server.new.items) }
        // At `Ok` the client's line is taken, and what was appended is the line sent for it.
        ensures decided { OnOk result (self.new ≡ after_fate self.old
            (SentAs (drop (vec_len to_server.old) to_server.new.items))) }
        // It is `Ok` only where a line was found and the proxy didn't wait for the server.
        ensures may { OnOk result (IsDecidable self.old) }
        // It is `Ok` only for a line that is not too long.
        ensures shown { OnOk result (line_in self.old.client ≢ []) }
        // At `Ok` one clear line was appended, no longer than a line that is sent may be.
        ensures sent { OnOk result (MayBeSent self.old.limits.sent
            (drop (vec_len to_server.old) to_server.new.items)) }
        // Each error comes only for its reason, `OutOfMemory` only where `to_server` lacks room for
        // the forwarded line.
        ensures why { IfErr result
            (IsForwardingError self.old (line_in self.old.client) to_server.old) }
        // At an error the proxy stays the same.
        ensures err { OnErr result (self.new ≡ self.old) }
        // At an error `to_server` stays the same.
        ensures out_err { OnErr result (to_server.new.items ≡ to_server.old.items) }
    {
        if !self.is_decidable() {
            return Err(SendError::NoLine);
        }
        let line = self.client.found_line();
        if line.is_empty() {
            return Err(SendError::NotALine);
        }
        let length = to_server.len();
        if let Err(error) = forward(line, to_server) {
            return Err(send_error(error));
        }
        self.send_appended(length, to_server)
    }

    /// Decides the line: the line itself is sent, as it came, also one that is refused, as `OPTS
    /// MLST size`.
    ///
    /// `Unclear` as with `forward`, of the line itself, and where it ends by LF without a CR: some
    /// servers send no reply to that, and each later reply would be given to another line. Else as
    /// `forward`.
    pub fn send_as_it_is(&mut self, to_server: &mut Vec<u8>) -> Result<(), SendError>
        // At `Ok` the client's line is taken, and is the line sent for it.
        ensures ok { OnOk result
            (self.new ≡ after_fate self.old (SentAs (line_in self.old.client))) }
        // It is `Ok` only where a line was found and the proxy didn't wait for the server.
        ensures may { OnOk result (IsDecidable self.old) }
        // At `Ok` exactly the client's line is appended.
        ensures appended { OnOk result
            (to_server.new.items ≡ to_server.old.items ++ line_in self.old.client) }
        // It is `Ok` only for one clear line, no longer than a line that is sent may be.
        ensures sent { OnOk result
            (MayBeSent self.old.limits.sent (line_in self.old.client)) }
        // Each error comes only for its reason, `OutOfMemory` only where `to_server` lacks room for
        // the line.
        ensures why { IfErr result (IsSendError self.old (line_in self.old.client) to_server.old) }
        // At an error the proxy stays the same.
        ensures err { OnErr result (self.new ≡ self.old) }
        // At an error `to_server` stays the same.
        ensures out_err { OnErr result (to_server.new.items ≡ to_server.old.items) }
    {
        let line = self.client.found_line();
        self.check(line)?;
        let length = append(line, to_server)?;
        self.note_line(length, to_server)
    }

    /// Decides the line: another one is sent in its place, as PORT with another address. Else as
    /// `send_as_it_is`, of that line; `NotALine` where it is not one.
    pub fn replace(&mut self, other: &[u8], to_server: &mut Vec<u8>) -> Result<(), SendError>
        // At `Ok` the client's line is taken, and the other one is the line sent for it.
        ensures ok { OnOk result (self.new ≡ after_fate self.old (SentAs other.now)) }
        // It is `Ok` only where a line was found and the proxy didn't wait for the server.
        ensures may { OnOk result (IsDecidable self.old) }
        // At `Ok` exactly the other line is appended.
        ensures appended { OnOk result (to_server.new.items ≡ to_server.old.items ++ other.now) }
        // It is `Ok` only for one clear line, no longer than a line that is sent may be.
        ensures sent { OnOk result (MayBeSent self.old.limits.sent other.now) }
        // Each error comes only for its reason, `OutOfMemory` only where `to_server` lacks room for
        // the other line.
        ensures why { IfErr result (IsSendError self.old other.now to_server.old) }
        // At an error the proxy stays the same.
        ensures err { OnErr result (self.new ≡ self.old) }
        // At an error `to_server` stays the same.
        ensures out_err { OnErr result (to_server.new.items ≡ to_server.old.items) }
    {
        self.check(other)?;
        let length = append(other, to_server)?;
        self.note_line(length, to_server)
    }

    /// Decides the line: the line itself is sent, as it came, also where it is not clear. It is for
    /// a caller that knows its server, and that it replies once to such a line: if it doesn't, each
    /// later reply is given to another line.
    ///
    /// Never `Unclear`. Else as `send_as_it_is`.
    pub fn send_unclear(&mut self, to_server: &mut Vec<u8>) -> Result<(), SendError>
        // At `Ok` the client's line is taken, and is the line sent for it.
        ensures ok { OnOk result
            (self.new ≡ after_fate self.old (SentAs (line_in self.old.client))) }
        // It is `Ok` only where a line was found and the proxy didn't wait for the server.
        ensures may { OnOk result (IsDecidable self.old) }
        // At `Ok` exactly the client's line is appended.
        ensures appended { OnOk result
            (to_server.new.items ≡ to_server.old.items ++ line_in self.old.client) }
        // At `Ok` it is one line, which need not be clear: its only line feed is its last byte.
        ensures sent { OnOk result (IsLine (line_in self.old.client)) }
        // At `Ok` it is no longer than a line that is sent may be.
        ensures short { OnOk result (length (line_in self.old.client) ≤ self.old.limits.sent) }
        // Each error comes only for its reason, which is never `Unclear`; `OutOfMemory` only where
        // `to_server` lacks room for the line.
        ensures why { IfErr result
            (IsUnclearError self.old (line_in self.old.client) to_server.old) }
        // At an error the proxy stays the same.
        ensures err { OnErr result (self.new ≡ self.old) }
        // At an error `to_server` stays the same.
        ensures out_err { OnErr result (to_server.new.items ≡ to_server.old.items) }
    {
        if !self.is_decidable() {
            return Err(SendError::NoLine);
        }
        let line = self.client.found_line();
        if !is_line(line) {
            return Err(SendError::NotALine);
        }
        if line.len() > self.limits.sent {
            return Err(SendError::TooLong);
        }
        let length = append(line, to_server)?;
        self.note_line(length, to_server)
    }

    /// Decides the line: the bytes of `to_server` from `length` on, which the caller appended, are
    /// what is sent for it. Else as `send_as_it_is`, of these bytes, but never `OutOfMemory`; at an
    /// error they are removed.
    fn send_appended(&mut self, length: usize, to_server: &mut Vec<u8>) -> Result<(), SendError>
        requires { length ≤ vec_len to_server.old }
        ensures ok { OnOk result
            (self.new ≡ after_fate self.old (SentAs (drop length to_server.old.items))) }
        ensures may { OnOk result (IsDecidable self.old) }
        ensures kept { OnOk result (to_server.new.items ≡ to_server.old.items) }
        ensures sent { OnOk result
            (MayBeSent self.old.limits.sent (drop length to_server.old.items)) }
        ensures why { IfErr result (IsAppendedError self.old (drop length to_server.old.items)) }
        ensures err { OnErr result (self.new ≡ self.old) }
        ensures removed { OnErr result (to_server.new.items ≡ take length to_server.old.items) }
    {
        let (_, line) = to_server.as_slice().split_at(length);
        if let Err(error) = self.check(line) {
            to_server.truncate(length);
            return Err(error);
        }
        self.note_line(length, to_server)
    }

    /// Whether this line may be sent for the one that was found, and if not, why.
    fn check(&self, line: &[u8]) -> Result<(), SendError>
        ensures may { OnOk result (IsDecidable self.now) }
        ensures sent { OnOk result (MayBeSent self.now.limits.sent line.now) }
        ensures why { IfErr result (IsCheckError self.now line.now) }
    {
        if !self.is_decidable() {
            return Err(SendError::NoLine);
        }
        check(self.limits.sent, line)
    }

    /// Decides the line as one for which the bytes from `length` on are sent; or removes these
    /// where as many lines were sent as are counted.
    fn note_line(&mut self, length: usize, to_server: &mut Vec<u8>) -> Result<(), SendError>
        requires found { IsTrue self.old.client.found }
        requires none { waits self.old ≡ false }
        requires within { length ≤ vec_len to_server.old }
        ensures ok { OnOk result
            (self.new ≡ after_fate self.old (SentAs (drop length to_server.old.items))) }
        ensures kept { OnOk result (to_server.new.items ≡ to_server.old.items) }
        ensures why { IfErr result (λ error. (error ≡ SendError.TooManyCommands)
            × IsFull self.old.dialogue) }
        ensures err { OnErr result (self.new ≡ self.old) }
        ensures removed { OnErr result (to_server.new.items ≡ take length to_server.old.items) }
    {
        let (_, line) = to_server.as_slice().split_at(length);
        if self.order.send(line).is_none() {
            to_server.truncate(length);
            return Err(SendError::TooManyCommands);
        }
        self.client.take_line();
        Ok(())
    }

    /// Decides the line: the client is given this answer in its place, once the server owes no
    /// reply, and nothing is sent for it. It takes no memory.
    ///
    /// `NotFinal` where another reply to the same line would have to follow, and `NotPlain` where a
    /// client would not read it as one reply. At an error nothing changes.
    pub fn answer(&mut self, answer: Answer) -> Result<(), SendError>
        // At `Ok` the client's line is taken, and the answer is held until it is given.
        ensures ok { OnOk result
            (self.new ≡ after_fate self.old (AnsweredBy (answer_reply answer))) }
        // It is `Ok` only where a line was found and the proxy didn't wait for the server.
        ensures may { OnOk result (IsDecidable self.old) }
        // At `Ok` the answer is one final reply, and plain.
        ensures single { OnOk result (is_answer (answer_reply answer) ≡ true) }
        // `NoLine` comes only where no line may be decided, `NotFinal` only for a reply that is not
        // final, `NotPlain` only for a final one that is not plain, and no other error.
        ensures why { IfErr result (IsAnswerError self.old (answer_reply answer)) }
        // At an error the proxy stays the same.
        ensures err { OnErr result (self.new ≡ self.old) }
    {
        if !self.is_decidable() {
            return Err(SendError::NoLine);
        }
        answer.check()?;
        self.hold(answer);
        self.client.take_line();
        Ok(())
    }

    /// Holds the answer until it is given.
    fn hold(&mut self, answer: Answer)
        requires single { is_answer (answer_reply answer) ≡ true }
        requires none { waits self.old ≡ false }
        ensures { self.new ≡ record self.old { answer = Some (answer_reply answer) } }
    {
        self.order.take();
        let before = mem::replace(&mut self.answer, Some(answer));
        drop(before);
    }

    /// Appends what the client is given next: the proxy's own answer, once the server owes no
    /// reply; or the server's next reply, as it came (RFC 959, section 4.2). `None` where none is
    /// complete: then less of what the server sent is held than a reply may have, so where all are
    /// given before each piece, never more than the limit and one piece.
    ///
    /// `Malformed` and `TooLong` are returned from then on. `OutOfMemory` comes only where
    /// `to_client` has no room for the answer that is due, or for a reply that is owed: the next
    /// call finds it again. Each is given once, and whole. At an error nothing changes.
    pub fn next_reply(
        &mut self,
        to_client: &mut Vec<u8>,
    ) -> Result<Option<NextReply>, NextReplyError>
        // The answer that is due is given, else the reply that is owed next, as it came. A reply
        // that is not owed is `Unasked`, and stays. At `None` there is nothing to give.
        ensures ok { IfOk result (λ next.
            GivesNext self.old next to_client.old.items to_client.new.items self.new) }
        // At an error the proxy stays the same.
        ensures err { OnErr result (self.new ≡ self.old) }
        // At an error `to_client` stays the same.
        ensures out_err { OnErr result (to_client.new.items ≡ to_client.old.items) }
        // It is `OutOfMemory` only where `to_client` lacks room for the due answer or the reply
        // owed next. Any other error comes of the server's bytes, with no answer due.
        ensures why { IfErr result (IsNextError self.old to_client.old) }
    {
        let answer = match &self.answer {
            Some(answer) if self.order.may_answer(answer.code()) => answer,
            _ => return self.pass_reply(to_client),
        };
        if answer.append_to(to_client).is_err() {
            return Err(NextReplyError::OutOfMemory);
        }
        self.order.answer(answer.code());
        let given = mem::replace(&mut self.answer, None);
        drop(given);
        Ok(Some(NextReply::Answered))
    }

    /// Appends the server's next reply, where it is owed.
    fn pass_reply(&mut self, to_client: &mut Vec<u8>) -> Result<Option<NextReply>, NextReplyError>
        requires { is_due self.old ≡ false }
        ensures ok { IfOk result (λ next.
            GivesNext self.old next to_client.old.items to_client.new.items self.new) }
        ensures err { OnErr result (self.new ≡ self.old) }
        ensures out_err { OnErr result (to_client.new.items ≡ to_client.old.items) }
        ensures why { IfErr result (IsNextError self.old to_client.old) }
    {
        let Some(first) = self.server.find_first()? else {
            self.server.settle();
            return Ok(None);
        };
        if !self.order.dialogue.owes_reply() {
            return Ok(Some(NextReply::Unasked(first.code)));
        }
        let (reply, _) = self.server.pending().split_at(first.length);
        if to_client.extend_from_slice(reply).is_err() {
            return Err(NextReplyError::OutOfMemory);
        }
        self.note_reply(first);
        Ok(Some(NextReply::Passed(first.code)))
    }

    /// The server's first reply was given, or another one in its place: it is owed no longer, and
    /// its bytes are removed.
    fn note_reply(&mut self, first: FirstReply)
        requires { first.length ≤ length self.old.server.bytes }
        ensures { self.new ≡ record self.old {
          server = record self.old.server { bytes = drop first.length self.old.server.bytes };
          dialogue = after_reply self.old.dialogue first.code;
        } }
    {
        self.server.consume(first.length);
        self.order.pass(u32::from(first.code));
    }

    /// The first reply of what the server sent, which `server_pending` begins with; or `None` where
    /// none is complete. It stays. It takes no memory.
    pub fn first_reply(&mut self) -> Result<Option<FirstReply>, NextReplyError>
        // A reply has the code and the length of the first, within the limit. `None` is a part of
        // one below the limit, and an error has its reason, which is never `OutOfMemory`.
        ensures finds { FindsFirst self.old.server.limit self.old.server.bytes result }
        // The proxy stays the same.
        ensures same { self.new ≡ self.old }
    {
        self.server.find_first()
    }

    /// As `next_reply`, with these bytes in place of the server's next reply: they have to be one
    /// whole reply of the same code, as a 227 with another address. It is for a reply that
    /// `first_reply` found.
    ///
    /// `NoReply` where none is complete, `NotOwed` where it is owed to no line, `AnotherReply`
    /// where these bytes are not one reply of its code, and `OutOfMemory` where `to_client` has no
    /// room for them. At an error nothing changes.
    pub fn replace_reply(
        &mut self,
        other: &[u8],
        to_client: &mut Vec<u8>,
    ) -> Result<(), ReplaceError>
        // At `Ok` exactly these bytes, one whole reply, are appended for the reply of the same code
        // that is owed next, which is removed.
        ensures ok { OnOk result (GivesOther self.old other.now to_client.old.items
            to_client.new.items self.new) }
        // At an error the proxy stays the same.
        ensures err { OnErr result (self.new ≡ self.old) }
        // At an error `to_client` stays the same.
        ensures out_err { OnErr result (to_client.new.items ≡ to_client.old.items) }
        // Each error comes only for its reason, `OutOfMemory` only where `to_client` lacks room for
        // these bytes.
        ensures why { IfErr result (IsReplaceError self.old other.now to_client.old) }
    {
        let first = match self.server.find_first() {
            Ok(Some(first)) => first,
            Ok(None) => return Err(ReplaceError::NoReply),
            Err(_) => return Err(ReplaceError::NoReply),
        };
        if !self.order.dialogue.owes_reply() {
            return Err(ReplaceError::NotOwed);
        }
        if !is_reply_of(first.code, other) {
            return Err(ReplaceError::AnotherReply);
        }
        if to_client.extend_from_slice(other).is_err() {
            return Err(ReplaceError::OutOfMemory);
        }
        self.note_reply(first);
        Ok(())
    }

    /// What the server sent and was not given: a part of a reply; or, after `Unasked`, what it says
    /// before it closes.
    pub fn server_pending(&self) -> &[u8]
        // The bytes are all that the server sent and that were not given.
        ensures { result.now ≡ self.now.server.bytes }
    {
        self.server.pending()
    }

    /// What is kept of what the client sent and was not decided: after an AUTH to which the server
    /// agreed, what is for the server as it is (RFC 4217, section 4).
    pub fn client_pending(&self) -> &[u8]
        // The bytes are those of the client that are kept and not decided.
        ensures { result.now ≡ kept_bytes self.now.client }
    {
        self.client.pending()
    }

    /// Whether the server has agreed to begin TLS, and owes no reply: what is pending of both sides
    /// then, and what comes, is no line and no reply (RFC 4217, section 4).
    pub fn tls_agreed(&self) -> bool
        // It is true exactly where the server has agreed to begin TLS, and no line is owed a reply.
        ensures { IsTrue result ↔ BeginsTls self.now }
    {
        self.order.dialogue.agreed && self.order.dialogue.owed() == 0
    }
}

/// Why a line is not sent that is not forwarded for this reason.
fn send_error(error: ForwardError) -> SendError
    ensures { result ≡ send_error error }
{
    match error {
        ForwardError::NotALine => SendError::NotALine,
        ForwardError::Refused(kind) => SendError::Refused(kind),
        ForwardError::OutOfMemory => SendError::OutOfMemory,
    }
}

/// Whether the bytes are one whole reply of this code.
fn is_reply_of(code: u16, bytes: &[u8]) -> bool
    ensures { IsTrue result ↔ IsReplyOf code bytes.now }
{
    match find_reply(bytes) {
        FoundReply::Whole { code: found, used } => found == code && used == bytes.len(),
        _ => false,
    }
}
