//! Calls that were made: a list that only contracts see.
ghost use Rattle.std.specs.Prelude.{◌≡◌, ◌++◌, ◌∷◌, [], List};
ghost use Rattle.unftp_control_login.specs.HandlerCalls.{HandlerCall};
ghost use Rattle.unftp_control_login.specs.CallMeaning.{call_of};

use std::marker::Model;
use std::mem::size_of;
use unftp_control_message::reply::ReplyCode;
use unftp_control_serve::Event;

const _: () = prove!(size_of::<Calls>() == 0);

/// A call, to be recorded.
#[derive(Clone, Copy)]
pub(crate) enum Note<'a> {
    /// The accounts are asked whether this password is that of this name.
    Asks { name: &'a [u8], password: &'a [u8] },
    /// The handler receives this event.
    Passes(&'a Event),
    /// The handler is asked for the next of the replies that follow.
    AsksFurther,
    /// Memory is asked for this reply.
    Makes { code: ReplyCode, text: &'a str },
}

/// A list of calls that contracts know and no code can read: it takes no byte. Outside this module
/// it begins empty, and is only extended.
#[derive(Drop)]
pub(crate) struct Calls {
    seal: (),
    ghost calls: { List HandlerCall },
}

impl Model for Calls {
    ghost use Rattle.std.specs.Prelude.{List};
    ghost use Rattle.unftp_control_login.specs.HandlerCalls.{HandlerCall};
    ghost use base.Fml.{ftrue};

    ghost Value = { List HandlerCall };

    ghost view = { λ calls. calls.calls };

    ghost also_owns = { λ _. ftrue };
}

impl Calls {
    /// No calls so far.
    pub(crate) fn none() -> Calls
        ensures { result ≡ [] }
    {
        Calls { seal: () }
    }

    /// This one after the others.
    #[inline(always)]
    pub(crate) fn push(&mut self, note: &Note<'_>)
        ensures { self.new ≡ self.old ++ call_of note.now ∷ [] }
    {
        *self = self.with(note);
    }

    #[inline(always)]
    fn with(&self, _note: &Note<'_>) -> Calls
        ensures { result ≡ self.now ++ call_of _note.now ∷ [] }
    {
        Calls { seal: () }
    }
}
