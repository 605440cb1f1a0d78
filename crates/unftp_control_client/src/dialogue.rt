//! How far the dialogue with a server has come.
ghost use Rattle.std.specs.Prelude.{◌≡◌, ◌↔◌, ◌<◌, ◌-◌, ◌^◌, IfSome, IsTrue, MatchOption};
ghost use Rattle.std.specs.Str.{str_eq_ignore_ascii_case};
ghost use Rattle.unftp_control_defs.specs.Turns.{is_preliminary};
ghost use Rattle.unftp_control_client.specs.Dialogue.{after_command, after_reply, asks_for_tls, new_dialogue, awaits_tls, commands_owed, next_to, owes_reply};
ghost use Rattle.unftp_control_client.specs.Steps.{reply_to};
ghost use Rattle.unftp_control_client.specs.declared.dialogue.ClientReply.{ClientReply as RustReply};
ghost use Rattle.unftp_control_client.specs.declared.dialogue.To.{To as RustTo};

use unftp_control_read::{ReceivedReply, same_received_replies};

/// What a reply is to.
#[derive(Clone, Copy, Debug, PartialEq, Eq)]
pub enum To {
    /// The connection: the server greets the client (RFC 959, section 5.4).
    Greeting,
    /// The command of this place among all that were sent. The first one has place 0.
    Command(u64),
    /// Nothing: no reply was owed. A server may say 421 so before it closes the connection.
    Nothing,
}

/// A reply, and what it is to.
#[derive(Debug, PartialEq, Eq, Drop)]
pub struct ClientReply {
    /// What it is to.
    pub to: To,
    /// What was received. Where its code is 1yz, another reply to the same command follows.
    pub reply: ReceivedReply,
}

/// `==` of what two replies are to is equality, and a clone is equal; two replies are equal exactly
/// where their codes and lines are, and what they are to.
pub fn same_client_replies()
    // `==` of what two replies are to is true exactly where both are equal.
    ensures to { (a b : RustTo) → IsTrue (⟦<To as PartialEq>⟧.eq a b) ↔ (a ≡ b) }
    // A clone of what a reply is to is equal to its original.
    ensures clone { (a b : RustTo) → ⟦<To as Clone>⟧.is_clone a b → b ≡ a }
    // `==` of two replies is true exactly for the same code and lines, to the same.
    ensures reply { (a b : RustReply)
        → IsTrue (⟦<ClientReply as PartialEq>⟧.eq a b) ↔ (reply_to a ≡ reply_to b) }
{
    same_received_replies();
}

/// How far the dialogue with a server has come (RFC 959, section 5.4): what a `Client` keeps beside
/// the bytes, for a caller that keeps these itself.
#[derive(Clone, Copy)]
pub struct Dialogue {
    /// How many commands were sent.
    pub sent: u64,
    /// How many of them have their final reply, once the greeting is complete.
    pub answered: Option<u64>,
    /// The place of the last command that asks for TLS.
    pub asked: Option<u64>,
    /// Whether the last reply was a 234 to that command.
    pub agreed: bool,
}

/// Whether another reply to the same command follows one with this code (RFC 959, section 4.2.1).
pub(crate) fn is_preliminary(code: u32) -> bool
    ensures { result ≡ is_preliminary code }
{
    (100..200).contains(&code)
}

/// Whether the line asks for TLS: it is AUTH TLS or AUTH SSL, which servers take for the same, in
/// letters of any case (RFC 4217, section 4).
fn asks_for_tls(line: &[u8]) -> bool
    ensures { result ≡ asks_for_tls line.now }
{
    is_spelled(line, b"AUTH TLS\r\n")
        || is_spelled(line, b"AUTH TLS\n")
        || is_spelled(line, b"AUTH SSL\r\n")
        || is_spelled(line, b"AUTH SSL\n")
}

/// Whether the line is this text, in letters of any case.
fn is_spelled(line: &[u8], text: &[u8]) -> bool
    ensures { result ≡ str_eq_ignore_ascii_case line.now text.now }
{
    line.eq_ignore_ascii_case(text)
}

impl Dialogue {
    /// Nothing was sent or received.
    pub fn new() -> Dialogue
        // Nothing was sent or received.
        ensures { result ≡ new_dialogue }
    {
        Dialogue {
            sent: 0,
            answered: None,
            asked: None,
            agreed: false,
        }
    }

    /// How many commands are owed their final reply.
    pub fn owed(&self) -> u64
        // The count is that of the commands that were sent, less those that have their final reply.
        ensures { result ≡ commands_owed self.now }
    {
        self.sent.saturating_sub(self.answered.unwrap_or(0))
    }

    /// Whether a reply is owed: the greeting, or one to a command.
    pub fn owes_reply(&self) -> bool
        // It is true exactly where the greeting or a command that was sent has no final reply.
        ensures { result ≡ owes_reply self.now }
    {
        match self.answered {
            Some(answered) => answered < self.sent,
            None => true,
        }
    }

    /// Whether the last command that asks for TLS is owed its reply. What comes after its line may
    /// be no line (RFC 4217, section 4).
    pub fn awaits_tls(&self) -> bool
        // It is true exactly where a command asked for TLS, and the last that did has no final
        // reply.
        ensures { result ≡ awaits_tls self.now }
    {
        match self.asked {
            Some(place) => self.answered.unwrap_or(0) <= place,
            None => false,
        }
    }

    /// Notes that the line of a command is sent, and returns the command's place. Where 64 bits
    /// don't count it, it returns `None`, and nothing changes.
    pub fn add_line(&mut self, line: &[u8]) -> Option<u64>
        // At `Some` one more command was sent, with this line and this place. At `None` nothing
        // changes, and 2^64 - 1 commands were sent.
        ensures place { MatchOption result
            ((self.new ≡ self.old) × (self.old.sent ≡ 2 ^ 64 - 1))
            (λ place. (self.new ≡ after_command line.now self.old) × (place ≡ self.old.sent)) }
        // A place is less than 2^64 - 1.
        ensures counted { IfSome result (λ place. place < 2 ^ 64 - 1) }
    {
        let place = self.sent;
        self.sent = place.checked_add(1)?;
        if asks_for_tls(line) {
            self.asked = Some(place);
        }
        Some(place)
    }

    /// Notes that a reply came, and says what it is to.
    pub(crate) fn add_reply(&mut self, reply: ReceivedReply) -> ClientReply
        ensures to { result ≡ record { to = next_to self.old; reply = reply } }
        ensures after { self.new ≡ after_reply self.old reply.code }
    {
        let to = self.add_code(u32::from(reply.code));
        ClientReply { to, reply }
    }

    /// Notes that a reply with this code came, and returns what it is to.
    pub fn add_code(&mut self, code: u32) -> To
        // The reply is the greeting until that is complete, then to the first command without a
        // final reply, and to nothing where each has one.
        ensures to { result ≡ next_to self.old }
        // A final reply completes what it is to. TLS is agreed exactly where the code is 234, to
        // the last command that asks for TLS.
        ensures after { self.new ≡ after_reply self.old code }
    {
        let is_final = !is_preliminary(code);
        self.agreed = false;
        let Some(place) = self.answered else {
            if is_final {
                self.answered = Some(0);
            }
            return To::Greeting;
        };
        if place >= self.sent {
            return To::Nothing;
        }
        self.agreed = code == 234 && self.asked == Some(place);
        if is_final {
            self.answered = Some(place + 1);
        }
        To::Command(place)
    }
}
