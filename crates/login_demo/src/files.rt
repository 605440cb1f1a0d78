//! The handler.
ghost use Rattle.std.specs.Prelude.{◌≡◌};
ghost use Rattle.login_demo.specs.Session.{files_law, new_session};
ghost use Rattle.login_demo.specs.declared.session.Session.{Session as SessionValue};

use crate::session::Session;
use crate::standing::refusal_reply;
use std::alloc::Global;
use unftp_control_message::reply::Reply;
use unftp_control_message::reply::error::ControlChanError;
use unftp_control_serve::{Count, Event, Handler};

/// Serves the tree: the session of one client.
#[derive(Drop)]
pub struct Files {
    session: Session,
    failures: Count,
}

impl Files {
    /// A session at its beginning, at the root, which has not failed so far.
    pub fn new() -> Files
        // The session is at its beginning.
        ensures session { result.session ≡ new_session }
        // It has not failed.
        ensures failures { result.failures ≡ 0 }
    {
        Files {
            session: Session::new(),
            failures: Count::new(),
        }
    }
}

impl Handler for Files {
    ghost State = { SessionValue };

    ghost state = { λ files. files.session };

    ghost law = { files_law };

    ghost failures = { λ files. files.failures };

    fn handle(&mut self, alloc: Global, event: Event) -> Result<Reply, ControlChanError> {
        let answer = match event {
            Event::Command(command) => self.session.answer(alloc, command),
            Event::Refused(error) => refusal_reply(alloc, error),
        };
        if answer.is_err() {
            self.failures.raise();
        }
        answer
    }

    fn done(&self) -> bool {
        self.session.is_over
    }
}
