//! The order in which a proxy takes lines, sends or answers them, and passes replies on.
ghost use Rattle.std.specs.Prelude.{◌≡◌, ◌<◌, ◌-◌, ◌^◌, MatchOption};
ghost use Rattle.unftp_control_client.specs.Dialogue.{next_to};
ghost use Rattle.unftp_control_client.specs.Order.{Sends, Takes, after_answer, after_call, after_pass, may_answer, may_take, new_order};

use crate::dialogue::{Dialogue, To, is_preliminary};

/// The order of a proxy between a client and a server (RFC 959, section 5.4). The proxy takes the
/// client's lines one after the other, and sends each to the server or answers it itself. A call
/// that would break the order is refused, and changes nothing.
#[derive(Clone, Copy)]
pub struct Order {
    /// How far the dialogue with the server has come.
    pub dialogue: Dialogue,
    /// A line of the client is taken, which is neither sent nor answered yet.
    pub taken: bool,
}

impl Order {
    /// Nothing was taken, sent or received.
    pub fn new() -> Order
        // Nothing was taken, sent or received.
        ensures { result ≡ new_order }
    {
        Order {
            dialogue: Dialogue::new(),
            taken: false,
        }
    }

    /// Whether the client's next line may be taken now: the last one is sent or answered, and no
    /// line that asks for TLS is owed its reply. What comes after such a line may be no line
    /// (RFC 4217, section 4).
    pub fn may_take(&self) -> bool
        // It is true exactly where no line is taken, and no line that asks for TLS is owed its
        // reply.
        ensures { result ≡ may_take self.now }
    {
        !self.taken && !self.dialogue.awaits_tls()
    }

    /// Takes the client's next line, and returns true; or false where none may be taken.
    pub fn take(&mut self) -> bool
        // It is true exactly where a line might be taken before.
        ensures taken { result ≡ may_take self.old }
        // A line is taken; where none may be, nothing changes.
        ensures after { self.new ≡ after_call self.old Takes }
    {
        let may = self.may_take();
        if may {
            self.taken = true;
        }
        may
    }

    /// Notes that this line is sent to the server for the one that is taken, or for the next one
    /// where none is, and returns its place among those that were sent. Where 64 bits don't count
    /// it, it returns `None`.
    pub fn send(&mut self, line: &[u8]) -> Option<u64>
        // At `Some` the place is how many lines were sent before; `None` is returned only where
        // 2^64 - 1 were.
        ensures place { MatchOption result (self.old.dialogue.sent ≡ 2 ^ 64 - 1)
            (λ place. (place ≡ self.old.dialogue.sent) × (place < 2 ^ 64 - 1)) }
        // The line is sent, and none is taken any more. Where 64 bits don't count it, nothing
        // changes.
        ensures after { self.new ≡ after_call self.old (Sends line.now) }
    {
        let place = self.dialogue.add_line(line)?;
        self.taken = false;
        Some(place)
    }

    /// Notes that the server's next reply has this code, and returns what it is to. The client is
    /// given it, unless it is to nothing.
    pub fn pass(&mut self, code: u32) -> To
        // The reply is the greeting until that is complete, then to the first line without a final
        // reply, and to nothing where each has one.
        ensures to { result ≡ next_to self.old.dialogue }
        // A final reply completes what it is to. Whether a line is taken stays the same.
        ensures after { self.new ≡ after_pass self.old code }
    {
        self.dialogue.add_code(code)
    }

    /// Whether a reply with this code may be given now to the line that is taken.
    pub fn may_answer(&self, code: u32) -> bool
        // It is true exactly where a line is taken, the server owes no reply, and the code is that
        // of a final reply.
        ensures { result ≡ may_answer self.now code }
    {
        self.taken && !self.dialogue.owes_reply() && !is_preliminary(code)
    }

    /// Notes that the client is given a reply with this code to the line that is taken, and returns
    /// true. It returns false where the reply may not be given: no line is taken, or the server
    /// owes a reply, or another reply to the same line would have to follow.
    pub fn answer(&mut self, code: u32) -> bool
        // It is true exactly where the line might be answered so before.
        ensures given { result ≡ may_answer self.old code }
        // The line is answered, and is taken no more. Where it may not be answered so, nothing
        // changes.
        ensures after { self.new ≡ after_answer self.old code }
    {
        let may = self.may_answer(code);
        if may {
            self.taken = false;
        }
        may
    }
}
