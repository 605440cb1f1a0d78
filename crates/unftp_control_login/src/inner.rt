//! The one way by which the handler after another one is called, and by which that other one asks
//! memory for a reply.
ghost use Rattle.std.specs.Prelude.{◌≡◌, ◌∷◌, [], List, OnOk};
ghost use Rattle.unftp_control_defs.specs.FtpReply.{CodeAndMsg};
ghost use Rattle.unftp_control_defs.specs.Run.{after};
ghost use Rattle.unftp_control_message.specs.ReplyMeaning.{number_of};
ghost use Rattle.unftp_control_serve.specs.Answering.{FurtherAnswer};
ghost use Rattle.unftp_control_serve.specs.EventMeaning.{event_meant};
ghost use Rattle.unftp_control_serve.specs.Writing.{Begins};
ghost use Rattle.unftp_control_login.specs.HandlerCalls.{AsksFurther, CallsMade, tells};
ghost use Rattle.unftp_control_login.specs.CallsOf.{calls_of};
ghost use Rattle.unftp_control_login.specs.Gate.{Answers, PassesOn};
ghost use Rattle.unftp_control_login.specs.GateState.{Decided};

use crate::calls::{Calls, Note};
use std::alloc::Global;
use unftp_control_defs::count::Count;
use unftp_control_message::reply::error::ControlChanError;
use unftp_control_message::reply::{Reply, ReplyCode};
use unftp_control_serve::{Event, Session};

/// The handler after another one. It is private, and each event that it receives is recorded, and
/// each time that it is asked for a reply that follows. So is each reply of that other one for
/// which memory is asked here, and those that run out of memory are counted. The list and the count
/// take no byte, and only contracts see them.
#[derive(Drop)]
pub(crate) struct Inner<H: Session> {
    handler: H,
    calls: Calls,
    refused: Count,
}

impl<H: Session> Inner<H> {
    /// This handler, which has received nothing so far.
    pub(crate) fn new(handler: H) -> Inner<H>
        ensures handler { result.handler ≡ handler }
        ensures calls { result.calls ≡ [] }
        ensures refused { result.refused ≡ 0 }
    {
        Inner {
            handler,
            calls: Calls::none(),
            refused: Count::new(),
        }
    }

    /// The handler, which can receive nothing by this.
    pub(crate) fn handler(&self) -> &H
        ensures { result.now ≡ self.now.handler }
    {
        &self.handler
    }

    /// Has the handler receive an event, and returns its first reply.
    pub(crate) fn pass_on(&mut self, alloc: Global, event: Event) -> Result<Reply, ControlChanError>
        ensures heard { Begins (H.heard self.new.handler) (H.heard self.old.handler) }
        ensures decided { (heard : List H.Heard) → Begins heard (H.heard self.new.handler)
            → Decided H.state H.failures (H.law heard) self.old self.new
            (PassesOn (event_meant event)) result }
    {
        self.calls.push(&Note::Passes(&event));
        self.handler.first(alloc, event)
    }

    /// Asks the handler for the next of its replies to the event.
    pub(crate) fn further(&mut self, alloc: Global) -> Result<Option<Reply>, ControlChanError>
        ensures heard { Begins (H.heard self.new.handler) (H.heard self.old.handler) }
        ensures answers { (heard : List H.Heard) → Begins heard (H.heard self.new.handler)
            → FurtherAnswer (H.law heard) (H.state self.old.handler) (H.state self.new.handler)
            (H.failures self.old.handler) (H.failures self.new.handler) H.left result }
        ensures calls { (heard : List H.Heard) → Begins heard (H.heard self.new.handler)
            → CallsMade (H.law heard) ((AsksFurther, H.state self.old.handler) ∷ [])
            (calls_of H.failures self.old) (calls_of H.failures self.new) result }
    {
        self.calls.push(&Note::AsksFurther);
        self.handler.further(alloc)
    }

    /// Has the handler receive an event, and drops all its replies to it.
    pub(crate) fn tell(&mut self, alloc: Global, event: Event) -> Result<(), ControlChanError>
        ensures heard { Begins (H.heard self.new.handler) (H.heard self.old.handler) }
        ensures next { OnOk result ((heard : List H.Heard)
            → Begins heard (H.heard self.new.handler) → H.state self.new.handler
            ≡ after (H.law heard) (H.state self.old.handler) (event_meant event)) }
        ensures calls { (heard : List H.Heard) → Begins heard (H.heard self.new.handler)
            → CallsMade (H.law heard)
            (tells (H.law heard) (H.state self.old.handler) (event_meant event))
            (calls_of H.failures self.old) (calls_of H.failures self.new) result }
    {
        drop(self.pass_on(alloc, event)?);
        while let Some(reply) = self.further(alloc)? {
            drop(reply);
        }
        Ok(())
    }

    /// A reply of the handler before it.
    pub(crate) fn own_reply(
        &mut self,
        alloc: Global,
        code: ReplyCode,
        text: &str,
    ) -> Result<Reply, ControlChanError>
        ensures handler { self.new.handler ≡ self.old.handler }
        ensures decided { (heard : List H.Heard) → Decided H.state H.failures (H.law heard) self.old
            self.new (Answers (CodeAndMsg (number_of code) text.now)) result }
    {
        self.calls.push(&Note::Makes { code, text });
        let reply = Reply::new(alloc, code, text);
        if reply.is_err() {
            self.refused.raise();
        }
        reply
    }

    /// Whether the handler is done.
    pub(crate) fn done(&self) -> bool
        ensures { (heard : List H.Heard) → result ≡ (H.law heard).done (H.state self.now.handler) }
    {
        self.handler.done()
    }
}
