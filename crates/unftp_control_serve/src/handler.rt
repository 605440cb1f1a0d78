//! What answers the events, and the law that it keeps.
ghost use Rattle.std.specs.Prelude.{◌≡◌, ◌+◌, ℕ, IfOk, IfErr, OnOk, OnErr};
ghost use Rattle.unftp_control_defs.specs.Run.{Law};
ghost use Rattle.unftp_control_message.specs.ErrorMeaning.{fault_of};
ghost use Rattle.unftp_control_message.specs.ReplyMeaning.{reply_of};
ghost use Rattle.unftp_control_serve.specs.EventMeaning.{event_meant};

use crate::event::Event;
use std::alloc::Global;
use unftp_control_message::reply::Reply;
use unftp_control_message::reply::error::ControlChanError;

/// Answers the events of a connection, one after the other, each with one reply. What gives several
/// replies to an event is a `Session`.
///
/// Its law states, as functions and relations of its state, the reply to an event, the state that
/// follows, with which errors it may fail, of which kind and from which source, and in which states
/// it is done. It counts its failures: the count takes no byte, and only contracts see it.
pub trait Handler {
    // What contracts see of it.
    ghost State: { Type 0 };

    ghost state: { Self → State };

    ghost law: { Law State };

    ghost failures: { Self → ℕ };

    /// Returns the reply to an event. An error has to be one that the law's `may_fail` allows: it
    /// ends the connection, and the handler's state is unspecified after it.
    fn handle(&mut self, alloc: Global, event: Event) -> Result<Reply, ControlChanError>
        // At `Ok` it is the reply that the law gives to the event in this state.
        ensures says { IfOk result (λ reply.
            reply_of reply ≡ law.says (state self.old) (event_meant event)) }
        // At `Ok` the state is the one that the law gives after the event.
        ensures next { OnOk result
            (state self.new ≡ law.next (state self.old) (event_meant event)) }
        // At `Ok` no failure is counted.
        ensures quiet { OnOk result (failures self.new ≡ failures self.old) }
        // An error is one that the law allows at the event in this state.
        ensures may_fail { IfErr result (λ error.
            law.may_fail (state self.old) (event_meant event) (fault_of error)) }
        // An error is counted as one failure.
        ensures counted { OnErr result (failures self.new ≡ failures self.old + 1) };

    /// Whether the session ends here: it is asked after each event, once its reply is sent, and
    /// never before the first. Where it returns `true`, no later byte is read as a line. A
    /// handler that never ends a session returns `false`.
    fn done(&self) -> bool
        // True exactly where the law is done in this state.
        ensures { result ≡ law.done (state self.now) };
}
