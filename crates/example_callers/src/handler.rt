//! A handler with its law.
ghost use Rattle.std.specs.Prelude.{◌≡◌, Bool, IfErr, IfOk, false};
ghost use Rattle.example_callers.specs.Basic.{basic, basic_reply};
ghost use Rattle.unftp_control_message.specs.ErrorMeaning.{fault_of};
ghost use Rattle.unftp_control_serve.specs.EventMeaning.{event_meant};
ghost use Rattle.unftp_control_defs.specs.Events.{out_of_memory};
ghost use Rattle.unftp_control_message.specs.ReplyMeaning.{reply_of};

use std::alloc::Global;
use unftp_control_message::Command;
use unftp_control_message::reply::error::ControlChanError;
use unftp_control_message::reply::{Reply, ReplyCode};
use unftp_control_serve::{Count, Event, Handler};

/// Answers NOOP and QUIT, and is done after QUIT.
#[derive(Drop)]
pub struct Basic {
    is_done: bool,
    failures: Count,
}

impl Basic {
    /// At the beginning of a session.
    pub fn new() -> Basic
        ensures is_done { result.is_done ≡ false }
        ensures failures { result.failures ≡ 0 }
    {
        Basic {
            is_done: false,
            failures: Count::new(),
        }
    }
}

impl Handler for Basic {
    // what the law's state is of this value,
    ghost State = { Bool };

    ghost state = { λ handler. handler.is_done };

    // what it answers, its next state, with which faults it may fail, and when it is done
    ghost law = { basic };

    ghost failures = { λ handler. handler.failures };

    fn handle(&mut self, alloc: Global, event: Event) -> Result<Reply, ControlChanError> {
        self.is_done = event.is_quit();
        let answer = answer_event(alloc, &event);
        drop(event);
        if answer.is_err() {
            self.failures.raise();
        }
        answer
    }

    fn done(&self) -> bool {
        self.is_done
    }
}

/// The reply to an event. It fails only when out of memory.
pub(crate) fn answer_event(alloc: Global, event: &Event) -> Result<Reply, ControlChanError>
    ensures ok { IfOk result (λ reply. reply_of reply ≡ basic_reply (event_meant event.now)) }
    ensures err { IfErr result (λ error. fault_of error ≡ out_of_memory) }
{
    match event {
        Event::Command(Command::Noop) => Reply::new(alloc, ReplyCode::CommandOkay, "OK"),
        Event::Command(Command::Quit) => {
            Reply::new(alloc, ReplyCode::ClosingControlConnection, "Bye")
        }
        Event::Command(_) => Reply::new(alloc, ReplyCode::CommandNotImplemented, "Not implemented"),
        Event::Refused(_) => Reply::new(alloc, ReplyCode::CommandSyntaxError, "Not understood"),
    }
}
