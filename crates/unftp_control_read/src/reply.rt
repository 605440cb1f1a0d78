//! What a client receives.
ghost use Rattle.std.specs.Prelude.{◌≡◌, ◌↔◌, IsTrue};
ghost use Rattle.unftp_control_read.specs.ReplyDecoding.{content};
ghost use Rattle.unftp_control_read.specs.declared.reply.ReceivedReply.{ReceivedReply as RustReply};

/// A reply as it was received.
#[derive(Debug, PartialEq, Eq, Drop)]
pub struct ReceivedReply {
    /// Its three digits, as a number.
    pub code: u16,
    /// Its lines, as `Front::Whole` has them.
    pub lines: Vec<Vec<u8>>,
}

/// Two replies are equal exactly where their codes and lines are.
pub fn same_received_replies()
    // `==` is true exactly for the same code and the same lines.
    ensures { (a b : RustReply)
        → IsTrue (⟦<ReceivedReply as PartialEq>⟧.eq a b) ↔ (content a ≡ content b) }
{}
