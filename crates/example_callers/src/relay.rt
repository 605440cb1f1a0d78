//! A proxy in front of a server that is only to be read from.
ghost use Rattle.std.specs.Prelude.{◌≡◌};
ghost use Rattle.unftp_control_defs.specs.Outcome.{outcome};
ghost use Rattle.example_callers.specs.Relays.{Passes, allows, decided, may_go_as_it_is, sent_last};

use std::alloc::{AllocError, Global};
use unftp_control_codecs::line_parser::{parts, split};
use unftp_control_defs::verb::{Verb, verb_named};
use unftp_control_message::reply::{Reply, ReplyCode};
use unftp_control_proxy::{Answer, ClientLine, NextReply, Proxy, SendError};
use unftp_control_read::NextReplyError;

/// Why nothing more passes: a reply with this code came that no line is owed; the server sent no
/// reply, or a longer one than a reply may be; or it has agreed to begin TLS.
#[derive(Debug, Clone, Copy, PartialEq, Eq)]
pub enum End {
    Unasked(u16),
    Malformed,
    TooLong,
    Tls,
}

/// What is done with a line: it is sent, or answered.
#[derive(Clone, Copy)]
pub enum Decision {
    Forward,
    SendAsItIs,
    NotAllowed,
    NotUnderstood,
    TooLong,
}

/// Whether a line of this verb may go to the server: one that logs in, asks or reads. MDTM is not
/// among them, since some servers take a time before its path, and give it to the file.
fn allows(verb: Verb) -> bool
    ensures { result ≡ allows verb }
{
    match verb {
        Verb::User | Verb::Pass | Verb::Acct | Verb::Auth | Verb::Quit | Verb::Noop => true,
        Verb::Syst | Verb::Feat | Verb::Help | Verb::Stat | Verb::Opts => true,
        Verb::TypeCode | Verb::Stru | Verb::Mode | Verb::Allo | Verb::Rest => true,
        Verb::Pasv | Verb::Epsv | Verb::Port | Verb::Abor => true,
        Verb::Pwd | Verb::Cwd | Verb::Cdup => true,
        Verb::Retr | Verb::List | Verb::Nlst | Verb::Mlst | Verb::Mlsd => true,
        Verb::Size => true,
        Verb::Stor | Verb::Appe | Verb::Stou | Verb::Rnfr | Verb::Rnto | Verb::Dele => false,
        Verb::Rmd | Verb::Mkd | Verb::Mdtm | Verb::Site | Verb::Md5 | Verb::Other => false,
        Verb::Ccc | Verb::Pbsz | Verb::Prot => false,
    }
}

/// Whether a line that is no command may go to the server as it is: its verb is allowed, and not
/// AUTH, of which another mechanism may begin TLS too.
fn may_go_as_it_is(line: &[u8]) -> bool
    ensures { result ≡ may_go_as_it_is line.now }
{
    match verb_named(split(line).0) {
        Some(Verb::Auth) => false,
        Some(verb) => allows(verb),
        None => false,
    }
}

/// What is done with a line, by the command that it is: so no other spelling of a verb passes.
fn decided_by_verb(line: &[u8]) -> Decision
    ensures { result ≡ decided line.now (outcome line.now) }
{
    match parts(line) {
        Ok(parts) if allows(parts.verb) => Decision::Forward,
        Ok(_) => Decision::NotAllowed,
        Err(_) if may_go_as_it_is(line) => Decision::SendAsItIs,
        Err(_) => Decision::NotUnderstood,
    }
}

/// A proxy, and what each side is to be sent.
#[derive(Drop)]
pub struct Connection {
    pub proxy: Proxy,
    pub to_client: Vec<u8>,
    pub to_server: Vec<u8>,
}

impl Connection {
    /// Lets pass all that can pass of what came, and returns why nothing more passes, if that is
    /// so. A reply that is given makes room for a line, so it gives all replies, takes a line, and
    /// so on. What was appended may be sent, also when out of memory.
    #[tactic(auto, using(crate::proofs::RelayLemmas::passing))]
    pub fn pass_all(&mut self, alloc: Global) -> Result<Option<End>, AllocError>
        ensures { Passes self.old self.new }
    {
        for _ in 0..u64::MAX {
            match self.give_reply() {
                Ok(Some(NextReply::Unasked(code))) => return Ok(Some(End::Unasked(code))),
                Ok(Some(_)) => continue,
                Ok(None) => {}
                Err(NextReplyError::Malformed) => return Ok(Some(End::Malformed)),
                Err(NextReplyError::TooLong) => return Ok(Some(End::TooLong)),
                Err(NextReplyError::OutOfMemory) => return Err(AllocError),
            }
            if self.proxy.tls_agreed() {
                return Ok(Some(End::Tls));
            }
            if !self.take_line(alloc)? {
                return Ok(None);
            }
        }
        Ok(None)
    }

    /// Gives the client what it is given next.
    fn give_reply(&mut self) -> Result<Option<NextReply>, NextReplyError>
        ensures { Passes self.old self.new }
    {
        self.proxy.next_reply(&mut self.to_client)
    }

    /// Takes the client's next line, where there is one and the proxy doesn't wait for the server.
    #[tactic(auto, using(crate::proofs::RelayLemmas::passing))]
    fn take_line(&mut self, alloc: Global) -> Result<bool, AllocError>
        ensures { Passes self.old self.new }
    {
        if self.proxy.waits_for_server() {
            return Ok(false);
        }
        let decision = match self.find_line() {
            None => return Ok(false),
            Some(ClientLine::TooLong) => Decision::TooLong,
            Some(ClientLine::Complete) => decided_by_verb(self.proxy.line()),
        };
        match self.carry_out(alloc, decision) {
            Ok(()) => Ok(true),
            Err(error) => self.refuse(&error),
        }
    }

    /// Finds the client's next line.
    fn find_line(&mut self) -> Option<ClientLine>
        ensures { Passes self.old self.new }
    {
        self.proxy.next_line()
    }

    /// Does with the line what was decided.
    #[tactic(auto, using(crate::proofs::RelayLemmas::passing))]
    fn carry_out(&mut self, alloc: Global, decision: Decision) -> Result<(), SendError>
        ensures { Passes self.old self.new }
    {
        match decision {
            Decision::Forward => self.proxy.forward(&mut self.to_server),
            Decision::SendAsItIs => self.proxy.send_as_it_is(&mut self.to_server),
            Decision::NotAllowed => {
                self.answer(alloc, ReplyCode::CommandNotImplemented, "Not allowed here")
            }
            Decision::NotUnderstood => {
                self.answer(alloc, ReplyCode::CommandSyntaxError, "Not understood")
            }
            Decision::TooLong => Err(SendError::TooLong),
        }
    }

    /// Answers the line with this code and text.
    #[tactic(auto, using(crate::proofs::RelayLemmas::passing))]
    fn answer(&mut self, alloc: Global, code: ReplyCode, text: &str) -> Result<(), SendError>
        ensures { Passes self.old self.new }
    {
        match Reply::new(alloc, code, text) {
            Ok(reply) => self.proxy.answer(Answer::Reply(reply)),
            Err(_) => Err(SendError::OutOfMemory),
        }
    }

    /// Answers a line that can't be sent with 500, unless it can be once there is memory.
    #[tactic(auto, using(crate::proofs::RelayLemmas::passing))]
    fn refuse(&mut self, error: &SendError) -> Result<bool, AllocError>
        ensures { Passes self.old self.new }
    {
        let answer = match error {
            SendError::OutOfMemory | SendError::TooManyCommands => return Err(AllocError),
            SendError::TooLong => Answer::LineTooLong,
            _ => Answer::NotUnderstood,
        };
        Ok(self.proxy.answer(answer).is_ok())
    }
}

/// What the client and the server are sent last, where nothing more passes: what the server says
/// before it closes, or what comes after AUTH and its 234 (RFC 4217, section 4).
pub fn sent_last(proxy: &Proxy, end: End) -> (&[u8], &[u8])
    ensures { (result.0.now, result.1.now) ≡ sent_last proxy.now end }
{
    match end {
        End::Unasked(_) => (proxy.server_pending(), b""),
        End::Tls => (proxy.server_pending(), proxy.client_pending()),
        End::Malformed | End::TooLong => (b"", b""),
    }
}
