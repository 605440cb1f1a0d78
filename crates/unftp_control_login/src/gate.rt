//! A login gate before a handler.
ghost use Rattle.std.specs.Prelude.{◌≡◌, ◌++◌, false, true, [], List, IsTrue, None, OnErr, OnOk};
ghost use Rattle.unftp_control_defs.specs.FtpReply.{CodeAndMsg};
ghost use Rattle.unftp_control_serve.specs.Answering.{FirstAnswer, FurtherAnswer};
ghost use Rattle.unftp_control_serve.specs.EventMeaning.{event_meant};
ghost use Rattle.unftp_control_serve.specs.Writing.{Begins};
ghost use Rattle.unftp_control_message.specs.ReplyMeaning.{number_of};
ghost use Rattle.unftp_control_login.specs.Login.{after_answer, role_in};
ghost use Rattle.unftp_control_login.specs.LoginLimit.{one_fewer};
ghost use Rattle.unftp_control_login.specs.CallsOf.{failures_of};
ghost use Rattle.unftp_control_login.specs.Asked.{AskedGate, asked_law};
ghost use Rattle.unftp_control_login.specs.Gate.{Answers, LogsIn, Refuses, answered_stage, asked_at, attempts_after, decision_at, is_logged_in, limited, login_needed, name_in, nobody, password_in, password_needed, questions};
ghost use Rattle.unftp_control_login.specs.declared.stage.LoginStep.TheVariants.{AskAccounts};
ghost use Rattle.unftp_control_login.specs.GateState.{Decided, GateAsked, GateCalled, asked_gate, gated};

use crate::accounts::Accounts;
use crate::asked::AskedAccounts;
use crate::inner::Inner;
use crate::limit::LoginLimit;
use crate::stage::{LoginStep, Progress, Role, Stage};
use bytes::Bytes;
use std::alloc::Global;
use std::mem;
use unftp_control_message::Command;
use unftp_control_message::reply::error::ControlChanError;
use unftp_control_message::reply::{Reply, ReplyCode};
use unftp_control_serve::{Event, Session};

/// Takes names and passwords, and passes on to its handler what is allowed (RFC 959,
/// section 4.1.1).
///
/// - USER is answered 331, whatever the name, and flushes the login. PASS is answered 230 where the
///   accounts accept it for the name, 530 where they don't, and 503 where no name was given since
///   the last password. After 530 the client begins again with USER.
/// - A command that needs a login is answered 530 without one, and the handler doesn't receive it.
///   QUIT, AUTH, PBSZ, PROT, FEAT, HELP, NOOP and SYST need none, and neither does a refused line.
/// - AUTH flushes the login, also where the handler refuses it (RFC 2228, section 3; RFC 4217,
///   section 4).
/// - Where a login is accepted, the handler receives USER with the name: by this it learns who has
///   logged in. It is asked for all its replies to that, and they are dropped. It receives USER at
///   no other time, and never PASS.
/// - A command that is passed on has the handler's replies, and no other has more than one reply.
/// - With a limit it counts the logins that fail: each PASS that it answers 530 or 503. The last
///   one that may fail is answered 421, and ends the session (RFC 959, section 5.4). A login that
///   succeeds doesn't change the count.
/// - It is done after QUIT, after that 421, and where the handler is.
#[derive(Drop)]
pub struct Gate<A: Accounts, H: Session> {
    accounts: AskedAccounts<A>,
    limit: LoginLimit,
    stage: Stage,
    quit: bool,
    passed: bool,
    inner: Inner<H>,
}

impl<A: Accounts, H: Session> Gate<A, H> {
    /// A gate before the first event, over this handler. Any number of logins may fail.
    pub fn new(accounts: A, inner: H) -> Gate<A, H>
        // The gate asks these accounts.
        ensures accounts { result.accounts.accounts ≡ accounts }
        // They were asked nothing so far.
        ensures questions { result.accounts.questions ≡ [] }
        // Any number of logins may fail.
        ensures left { result.limit.left ≡ None }
        // No name was given.
        ensures stage { result.stage ≡ nobody }
        // QUIT has not come.
        ensures quit { result.quit ≡ false }
        // No event was passed on.
        ensures passed { result.passed ≡ false }
        // The handler is this one.
        ensures inner { result.inner.handler ≡ inner }
        // No reply of the gate's own has run out of memory.
        ensures failures { result.inner.refused ≡ 0 }
    {
        Gate {
            accounts: AskedAccounts::new(accounts),
            limit: LoginLimit::none(),
            stage: Stage {
                progress: Progress::NoName,
                name: Bytes::new(),
            },
            quit: false,
            passed: false,
            inner: Inner::new(inner),
        }
    }

    /// The same gate, of which no more logins may fail than this.
    pub fn with_limit(self, limit: LoginLimit) -> Gate<A, H>
        // The gate is the same but for its limit.
        ensures { result ≡ record self { limit = limit } }
    {
        Gate { limit, ..self }
    }

    /// The handler.
    pub fn handler(&self) -> &H
        // The handler is the one that the gate has.
        ensures { result.now ≡ self.now.inner.handler }
    {
        self.inner.handler()
    }

    /// Answers a password by which the login fails: the last that may fail by 421.
    fn refuse(
        &mut self,
        alloc: Global,
        code: ReplyCode,
        text: &str,
    ) -> Result<Reply, ControlChanError>
        ensures handler { self.new.inner.handler ≡ self.old.inner.handler }
        ensures decided { (heard : List H.Heard) → Decided H.state H.failures (H.law heard)
            self.old.inner self.new.inner (limited self.old.limit.left
            (Refuses (CodeAndMsg (number_of code) text.now))) result }
        ensures left { self.new.limit.left ≡ one_fewer self.old.limit.left }
        ensures kept { (self.new.accounts ≡ self.old.accounts)
            × (self.new.stage ≡ self.old.stage) × (self.new.quit ≡ self.old.quit)
            × (self.new.passed ≡ self.old.passed) }
    {
        if self.limit.count() {
            return self.inner.own_reply(
                alloc,
                ReplyCode::ServiceNotAvailable,
                "Too many failed logins, closing control connection",
            );
        }
        self.inner.own_reply(alloc, code, text)
    }

    /// Lets the handler know who has logged in. Nobody has where it fails.
    fn admit(&mut self, alloc: Global, username: Bytes) -> Result<Reply, ControlChanError>
        ensures heard { Begins (H.heard self.new.inner.handler) (H.heard self.old.inner.handler) }
        ensures decided { (heard : List H.Heard) → Begins heard (H.heard self.new.inner.handler)
            → Decided H.state H.failures (H.law heard) self.old.inner self.new.inner
            (LogsIn username) result }
        ensures stage { OnOk result (self.new.stage ≡ record self.old.stage {
          progress = after_answer true self.old.stage.progress;
        }) }
        ensures nobody { OnErr result (self.new.stage ≡ self.old.stage) }
        ensures kept { (self.new.accounts ≡ self.old.accounts)
            × (self.new.limit ≡ self.old.limit) × (self.new.quit ≡ self.old.quit)
            × (self.new.passed ≡ self.old.passed) }
    {
        let user = Event::Command(Command::User { username });
        self.inner.tell(alloc, user)?;
        let reply = self
            .inner
            .own_reply(alloc, ReplyCode::UserLoggedIn, "User logged in, proceed");
        if reply.is_ok() {
            self.stage.progress = self.stage.progress.answered(true);
        }
        reply
    }

    /// Keeps the name that USER gives, and asks for its password.
    fn need_password(&mut self, alloc: Global, name: Bytes) -> Result<Reply, ControlChanError>
        ensures handler { self.new.inner.handler ≡ self.old.inner.handler }
        ensures decided { (heard : List H.Heard) → Decided H.state H.failures (H.law heard)
            self.old.inner self.new.inner (Answers password_needed) result }
        ensures stage { self.new.stage ≡ record self.old.stage { name = name } }
        ensures kept { (self.new.accounts ≡ self.old.accounts)
            × (self.new.limit ≡ self.old.limit) × (self.new.quit ≡ self.old.quit)
            × (self.new.passed ≡ self.old.passed) }
    {
        self.stage.name = name;
        self.inner.own_reply(
            alloc,
            ReplyCode::NeedPassword,
            "User name okay, need password",
        )
    }

    /// Asks the accounts whether the password is that of the name, which is used up. The client is
    /// admitted where it is, and else refused.
    fn ask_accounts(&mut self, alloc: Global, event: &Event) -> Result<Reply, ControlChanError>
        ensures heard { Begins (H.heard self.new.inner.handler) (H.heard self.old.inner.handler) }
        ensures decided { (heard : List H.Heard) → Begins heard (H.heard self.new.inner.handler)
            → Decided H.state H.failures (H.law heard) self.old.inner self.new.inner
            (limited self.old.limit.left (decision_at AskAccounts
            (A.accepts self.old.accounts.accounts) self.old.stage.name (event_meant event.now)))
            result }
        ensures left { self.new.limit.left ≡ attempts_after self.old.limit.left
            (decision_at AskAccounts (A.accepts self.old.accounts.accounts) self.old.stage.name
            (event_meant event.now)) }
        ensures stage { OnOk result (self.new.stage ≡ answered_stage AskAccounts
            (A.accepts self.old.accounts.accounts) self.old.stage (event_meant event.now)) }
        ensures nobody { OnErr result (IsTrue (is_logged_in self.new.stage.progress)
            → IsTrue (is_logged_in self.old.stage.progress)) }
        ensures asked { self.new.accounts.questions ≡ self.old.accounts.questions
            ++ asked_at AskAccounts self.old.stage.name (event_meant event.now) }
        ensures kept { (self.new.accounts.accounts ≡ self.old.accounts.accounts)
            × (self.new.quit ≡ self.old.quit) × (self.new.passed ≡ self.old.passed) }
    {
        let username = mem::replace(&mut self.stage.name, Bytes::new());
        let password = password_in(event);
        if self.accounts.ask(username.as_slice(), password) {
            return self.admit(alloc, username);
        }
        self.stage.progress = self.stage.progress.answered(false);
        self.refuse(alloc, ReplyCode::NotLoggedIn, "Login incorrect")
    }

    /// Answers an event that needs a login, which the handler doesn't receive.
    fn turn_away(&mut self, alloc: Global, event: Event) -> Result<Reply, ControlChanError>
        ensures handler { self.new.inner.handler ≡ self.old.inner.handler }
        ensures decided { (heard : List H.Heard) → Decided H.state H.failures (H.law heard)
            self.old.inner self.new.inner (Answers login_needed) result }
        ensures kept { (self.new.accounts ≡ self.old.accounts)
            × (self.new.limit ≡ self.old.limit) × (self.new.stage ≡ self.old.stage)
            × (self.new.quit ≡ self.old.quit) × (self.new.passed ≡ self.old.passed) }
    {
        drop(event);
        self.inner
            .own_reply(alloc, ReplyCode::NotLoggedIn, "Log in with USER and PASS")
    }

    /// Does what a step says with its event. The progress is already that after the event.
    fn take(
        &mut self,
        alloc: Global,
        step: LoginStep,
        event: Event,
    ) -> Result<Reply, ControlChanError>
        ensures heard { Begins (H.heard self.new.inner.handler) (H.heard self.old.inner.handler) }
        ensures decided { (heard : List H.Heard) → Begins heard (H.heard self.new.inner.handler)
            → Decided H.state H.failures (H.law heard) self.old.inner self.new.inner
            (limited self.old.limit.left (decision_at step
            (A.accepts self.old.accounts.accounts) self.old.stage.name (event_meant event)))
            result }
        ensures left { self.new.limit.left ≡ attempts_after self.old.limit.left (decision_at step
            (A.accepts self.old.accounts.accounts) self.old.stage.name (event_meant event)) }
        ensures stage { OnOk result (self.new.stage ≡ answered_stage step
            (A.accepts self.old.accounts.accounts) self.old.stage (event_meant event)) }
        ensures nobody { OnErr result (IsTrue (is_logged_in self.new.stage.progress)
            → IsTrue (is_logged_in self.old.stage.progress)) }
        ensures asked { self.new.accounts.questions ≡ self.old.accounts.questions
            ++ asked_at step self.old.stage.name (event_meant event) }
        ensures kept { (self.new.accounts.accounts ≡ self.old.accounts.accounts)
            × (self.new.quit ≡ self.old.quit) × (self.new.passed ≡ self.old.passed) }
    {
        match step {
            LoginStep::PassOn => self.inner.pass_on(alloc, event),
            LoginStep::NeedPassword => self.need_password(alloc, name_in(event)),
            LoginStep::AskAccounts => self.ask_accounts(alloc, &event),
            LoginStep::NeedName => {
                self.refuse(alloc, ReplyCode::BadCommandSequence, "Send USER first")
            }
            LoginStep::NeedLogin => self.turn_away(alloc, event),
        }
    }
}

impl<A: Accounts, H: Session> Session for Gate<A, H> {
    ghost State = { AskedGate H.State };

    ghost Heard = { H.Heard };

    ghost state = { asked_gate A.accepts H.state };

    ghost heard = { λ gate. H.heard gate.inner.handler };

    ghost law = { λ heard. asked_law (H.law heard) };

    ghost left = { λ state. H.left state.gate.inner };

    ghost failures = { λ gate. failures_of H.failures gate.inner };

    /// The first reply to an event. Out of memory is returned for a reply of its own, and every
    /// other error is that of its handler. Nobody is logged in by an event that fails.
    ///
    /// At `Ok` and at an error alike, the accounts were asked once about a password that came after
    /// a name, whether it is that of the name, and nothing at any other event (`asked`). The
    /// handler received each event that is passed on, once, and where a login is accepted it
    /// received USER and was asked for all replies to that. Then memory was asked for the gate's
    /// own reply, if it has one: an error is returned where one of these failed (`calls`).
    fn first(&mut self, alloc: Global, event: Event) -> Result<Reply, ControlChanError>
        // The list of what the session had heard stays, and may have more at its end.
        ensures heard { Begins (H.heard self.new.inner.handler) (H.heard self.old.inner.handler) }
        // The first reply, the state after it and the errors that may come are those of the gate's
        // law, whatever is heard later.
        ensures answers { (heard : List H.Heard) → Begins heard (H.heard self.new.inner.handler)
            → FirstAnswer (asked_law (H.law heard)) (asked_gate A.accepts H.state self.old)
            (asked_gate A.accepts H.state self.new) (failures_of H.failures self.old.inner)
            (failures_of H.failures self.new.inner) (event_meant event) result }
        // At `Ok` and at an error alike, the accounts were asked once about a password that came
        // after a name, and nothing at other events.
        ensures asked { self.new.accounts.questions ≡ self.old.accounts.questions
            ++ questions self.old.stage (event_meant event) }
        // At `Ok` each call that follows from the gate's decision was made once. At an error one of
        // them failed, and none was made after it.
        ensures calls { (heard : List H.Heard) → Begins heard (H.heard self.new.inner.handler)
            → GateCalled H.failures (H.law heard) (gated A.accepts H.state self.old)
            self.old.inner (event_meant event) self.new.inner result }
        // An event that fails logs nobody in.
        ensures nobody { OnErr result (IsTrue (is_logged_in self.new.stage.progress)
            → IsTrue (is_logged_in self.old.stage.progress)) }
    {
        let role = role_in(&event);
        let step = self.stage.progress.step(role);
        self.stage.progress = self.stage.progress.after(role);
        self.passed = step.passes_on();
        self.quit |= event.is_quit();
        self.take(alloc, step, event)
    }

    /// The handler's next reply to an event that was passed on, for which it is asked, once
    /// (`calls`). To any other event no reply follows.
    fn further(&mut self, alloc: Global) -> Result<Option<Reply>, ControlChanError>
        // The list of what the session had heard stays, and may have more at its end.
        ensures heard { Begins (H.heard self.new.inner.handler) (H.heard self.old.inner.handler) }
        // The next reply, or `None`, the state after it and the errors that may come are those of
        // the gate's law, whatever is heard later.
        ensures answers { (heard : List H.Heard) → Begins heard (H.heard self.new.inner.handler)
            → FurtherAnswer (asked_law (H.law heard)) (asked_gate A.accepts H.state self.old)
            (asked_gate A.accepts H.state self.new) (failures_of H.failures self.old.inner)
            (failures_of H.failures self.new.inner) (λ state. H.left state.gate.inner) result }
        // The accounts and what they were asked, the limit, the login and whether QUIT has come
        // stay the same.
        ensures kept { (self.new.accounts ≡ self.old.accounts)
            × (self.new.limit ≡ self.old.limit) × (self.new.stage ≡ self.old.stage)
            × (self.new.quit ≡ self.old.quit) }
        // The handler was asked for its next reply, once, where the event was passed on, and else
        // nothing was called.
        ensures calls { (heard : List H.Heard) → Begins heard (H.heard self.new.inner.handler)
            → GateAsked H.failures (H.law heard) (gated A.accepts H.state self.old)
            self.old.inner self.new.inner result }
    {
        if !self.passed {
            return Ok(None);
        }
        self.inner.further(alloc)
    }

    fn done(&self) -> bool {
        self.quit || self.limit.is_used_up() || self.inner.done()
    }
}

/// What an event is to a login.
fn role_in(event: &Event) -> Role
    ensures { result ≡ role_in (event_meant event.now) }
{
    match event {
        Event::Command(command) => Role::of(command.parts().verb.number()),
        Event::Refused(_) => Role::Open,
    }
}

/// The name of USER; of another event none.
fn name_in(event: Event) -> Bytes
    ensures { result ≡ name_in (event_meant event) }
{
    match event {
        Event::Command(Command::User { username }) => username,
        other => {
            drop(other);
            Bytes::new()
        }
    }
}

/// The password of PASS; of another event none.
fn password_in(event: &Event) -> &[u8]
    ensures { result.now ≡ password_in (event_meant event.now) }
{
    match event {
        Event::Command(Command::Pass { password }) => password.as_ref(),
        _ => &[],
    }
}
