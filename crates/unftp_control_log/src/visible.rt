//! What a log shows of an event, before it is written.

use unftp_control_message::sent::Sent;

/// What a log shows of an event: it holds nothing of what is hidden. Its words may be in letters of
/// any case.
#[derive(Drop)]
pub(crate) enum Visible<'a> {
    /// A verb and its value.
    Verb {
        verb: &'a [u8],
        value: Option<Sent<'a>>,
    },
    /// A subcommand of SITE and its arguments.
    Subcommand {
        name: &'a [u8],
        arguments: Option<Sent<'a>>,
    },
    /// A refused line: its verb, where it is listed, and why.
    Refused {
        verb: Option<&'a [u8]>,
        reason: &'static str,
    },
}

/// What a log shows of a line, and whether that is not all of it.
pub(crate) struct Logged<'a> {
    pub visible: Visible<'a>,
    pub hides: bool,
}
