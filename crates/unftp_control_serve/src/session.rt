//! What gives the replies to the events, one after the other, and the law that it keeps.
ghost use Rattle.std.specs.Prelude.{◌≡◌, ℕ, List, []};
ghost use Rattle.unftp_control_defs.specs.Run.{SessionLaw, as_session};
ghost use Rattle.unftp_control_serve.specs.Answering.{FirstAnswer, FurtherAnswer};
ghost use Rattle.unftp_control_serve.specs.EventMeaning.{event_meant};
ghost use Rattle.unftp_control_serve.specs.Writing.{Begins};

use crate::event::Event;
use crate::handler::Handler;
use std::alloc::Global;
use unftp_control_message::reply::Reply;
use unftp_control_message::reply::error::ControlChanError;

/// Answers the events of a connection, one after the other, each with one reply or with several, as
/// 150 and 226 to RETR (RFC 959, section 5.4). Every `Handler` is one, with one reply to each.
///
/// Its law states what that of a handler states, and which replies follow in a state. What comes
/// from outside, as what a data connection answers, is heard in the calls: the law is a function of
/// all that is heard in the session, and each call keeps it whatever is heard later.
pub trait Session {
    // What contracts see of it: its state, what it has heard so far, its law, a number that falls
    // with each reply that follows, and how often it has failed.
    ghost State: { Type 0 };

    ghost Heard: { Type 0 };

    ghost state: { Self → State };

    ghost heard: { Self → List Heard };

    ghost law: { List Heard → SessionLaw State };

    ghost left: { State → ℕ };

    ghost failures: { Self → ℕ };

    /// Returns the first reply to an event. An error has to be one that the law's `may_fail`
    /// allows: it ends the connection, and the state is unspecified after it.
    fn first(&mut self, alloc: Global, event: Event) -> Result<Reply, ControlChanError>
        // What it has heard only grows.
        ensures heard { Begins (heard self.new) (heard self.old) }
        // Whatever is heard later, the reply and the state after it are those that the law gives
        // for the event, and an error is one that it allows, and is counted.
        ensures answers { (all : List Heard) → Begins all (heard self.new)
            → FirstAnswer (law all) (state self.old) (state self.new) (failures self.old)
            (failures self.new) (event_meant event) result };

    /// Returns the next reply to the event, if there is one. It is called after each reply, once
    /// that is written and flushed, until there is none: a transfer happens here. An error has to
    /// be one that the law's `may_break` allows, and ends the connection too.
    fn further(&mut self, alloc: Global) -> Result<Option<Reply>, ControlChanError>
        // What it has heard only grows.
        ensures heard { Begins (heard self.new) (heard self.old) }
        // Whatever is heard later, it is the next reply by the law, with a smaller number left
        // after it, or none; an error is one that the law allows, and is counted.
        ensures answers { (all : List Heard) → Begins all (heard self.new)
            → FurtherAnswer (law all) (state self.old) (state self.new) (failures self.old)
            (failures self.new) left result };

    /// Whether the session ends here: it is asked after each event, once all its replies are sent,
    /// and never before the first.
    fn done(&self) -> bool
        // By the law of any list, heard or not, true exactly where it is done in this state.
        ensures { (all : List Heard) → result ≡ (law all).done (state self.now) };
}

/// One reply to each event.
impl<H: Handler> Session for H {
    ghost State = { H.State };

    ghost Heard = { Unit {0} };

    ghost state = { H.state };

    ghost heard = { λ handler. [] };

    ghost law = { λ heard. as_session H.law };

    ghost left = { λ state. 0 };

    ghost failures = { H.failures };

    #[inline(always)]
    fn first(&mut self, alloc: Global, event: Event) -> Result<Reply, ControlChanError> {
        self.handle(alloc, event)
    }

    #[inline(always)]
    fn further(&mut self, _alloc: Global) -> Result<Option<Reply>, ControlChanError> {
        Ok(None)
    }

    #[inline(always)]
    fn done(&self) -> bool {
        Handler::done(self)
    }
}
