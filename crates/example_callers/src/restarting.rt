//! A session with two replies to an event.
ghost use Rattle.std.specs.Prelude.{◌≡◌, if◌then◌else◌, [], IfErr, IfOk, false};
ghost use Rattle.example_callers.specs.Restarting.{RestartState, is_rein, restarting, restarting_reply};
ghost use Rattle.unftp_control_defs.specs.Events.{out_of_memory};
ghost use Rattle.unftp_control_message.specs.ErrorMeaning.{fault_of};
ghost use Rattle.unftp_control_message.specs.ReplyMeaning.{reply_of};
ghost use Rattle.unftp_control_serve.specs.EventMeaning.{event_meant};

use crate::handler::answer_event;
use std::alloc::Global;
use unftp_control_message::Command;
use unftp_control_message::reply::error::ControlChanError;
use unftp_control_message::reply::{Reply, ReplyCode};
use unftp_control_serve::{Count, Event, Session};

/// Answers REIN with 120 and then 220 (RFC 959, section 5.4), and all else as `Basic` does.
#[derive(Drop)]
pub struct Restarting {
    restarts: bool,
    is_done: bool,
    failures: Count,
}

impl Restarting {
    /// At the beginning of a session.
    pub fn new() -> Restarting
        ensures restarts { result.restarts ≡ false }
        ensures is_done { result.is_done ≡ false }
        ensures failures { result.failures ≡ 0 }
    {
        Restarting {
            restarts: false,
            is_done: false,
            failures: Count::new(),
        }
    }
}

/// Whether an event is REIN, which is a command without a variant of its own.
fn is_rein(event: &Event) -> bool
    ensures { result ≡ is_rein (event_meant event.now) }
{
    match event {
        Event::Command(Command::Other { command_name, .. }) => command_name.as_str() == "REIN",
        _ => false,
    }
}

/// The first reply to an event. It fails only when out of memory.
fn first_reply(alloc: Global, event: &Event) -> Result<Reply, ControlChanError>
    ensures ok { IfOk result (λ reply. reply_of reply ≡ restarting_reply (event_meant event.now)) }
    ensures err { IfErr result (λ error. fault_of error ≡ out_of_memory) }
{
    if is_rein(event) {
        return Reply::new(alloc, ReplyCode::InNMinutes, "Service ready soon");
    }
    answer_event(alloc, event)
}

impl Session for Restarting {
    ghost State = { RestartState };

    // it hears nothing, and its law doesn't depend on what is heard
    ghost Heard = { Unit {0} };

    ghost state = { λ session.
        record { restarts = session.restarts; is_done = session.is_done } };

    ghost heard = { λ session. [] };

    ghost law = { λ heard. restarting };

    ghost left = { λ state. if state.restarts then 1 else 0 };

    ghost failures = { λ session. session.failures };

    fn first(&mut self, alloc: Global, event: Event) -> Result<Reply, ControlChanError> {
        self.restarts = is_rein(&event);
        self.is_done = event.is_quit();
        let reply = first_reply(alloc, &event);
        drop(event);
        if reply.is_err() {
            self.failures.raise();
        }
        reply
    }

    fn further(&mut self, alloc: Global) -> Result<Option<Reply>, ControlChanError> {
        if !self.restarts {
            return Ok(None);
        }
        self.restarts = false;
        match Reply::new(alloc, ReplyCode::ServiceReady, "Service ready") {
            Ok(reply) => Ok(Some(reply)),
            Err(error) => {
                self.failures.raise();
                Err(error)
            }
        }
    }

    fn done(&self) -> bool {
        self.is_done
    }
}
