//! What a handler receives.
ghost use Rattle.std.specs.Prelude.{◌≡◌};
ghost use Rattle.unftp_control_defs.specs.Events.{is_quit};
ghost use Rattle.unftp_control_serve.specs.EventMeaning.{event_meant};

use unftp_control_message::Command;
use unftp_control_message::reply::error::ControlChanError;

/// A line, read: its command, or why it is none.
#[derive(Debug, Drop)]
pub enum Event {
    /// A command.
    Command(Command),
    /// A refused line: the kind is `Utf8Error` or `InvalidCommand`, and the parser's error is the
    /// source; or the kind is `LineTooLong`, of a line that is longer than the limit, and there is
    /// no source.
    Refused(ControlChanError),
}

impl Event {
    /// Whether it is QUIT, with which a session ends (RFC 959, section 4.1.1).
    pub fn is_quit(&self) -> bool
        // True exactly for the command QUIT.
        ensures { result ≡ is_quit (event_meant self.now) }
    {
        matches!(self, Event::Command(Command::Quit))
    }
}
