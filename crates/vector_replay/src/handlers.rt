//! The streams and the handlers of sessions, which fail when they are asked to.
ghost use Rattle.std.specs.Prelude.{◌≡◌, ◌&&◌, IfOk, Some, bytes_eq, codes, string_bytes};
ghost use Rattle.std.specs.Io.{WritesAtMost};
ghost use Rattle.unftp_control_defs.specs.Events.{Refused};
ghost use Rattle.unftp_control_message.specs.CommandMeaning.{command_of};
ghost use Rattle.unftp_control_message.specs.ErrorMeaning.{fault_of};
ghost use Rattle.unftp_control_message.specs.ReplyMeaning.{reply_of};
ghost use Rattle.unftp_control_serve.specs.EventMeaning.{event_meant};
ghost use Rattle.vector_replay.specs.Script.{ScriptState, command_reply, event_reply, not_implemented, script_law, site_reply};

use example_callers::transfers::{Answers, DataConnection};
use std::alloc::{AllocError, Global};
use std::io;
use std::io::{Read, Write};
use unftp_control_commands::Help;
use unftp_control_login::Accounts;
use unftp_control_message::Command;
use unftp_control_message::reply::error::{ControlChanError, Source};
use unftp_control_message::reply::{Reply, ReplyCode};
use unftp_control_serve::{Count, Event, Handler};

/// What each call does, by words that commas divide; the last one is that of all later calls too.
#[derive(Clone, Copy)]
pub struct Turns<'a>(pub &'a str);

impl Turns<'_> {
    /// The most bytes of the next call, which its word is; or by `E` and a number the system's
    /// error with which it fails. By another word, as `all` or `ok`, it does all that it can.
    pub fn next(&mut self) -> io::Result<usize> {
        let (turn, later) = self.0.split_once(',').unwrap_or((self.0, self.0));
        self.0 = later;
        match turn.strip_prefix("E") {
            Some(number) => Err(io::Error::from_raw_os_error(number.parse().unwrap_or(0))),
            None => Ok(turn.parse().unwrap_or(usize::MAX)),
        }
    }

    /// The next call, which takes and gives no bytes.
    pub fn pass(&mut self) -> io::Result<()> {
        let _ = self.next()?;
        Ok(())
    }
}

/// Gives pieces of its bytes.
#[derive(Drop)]
pub struct Pieces<'a, 'b> {
    /// The bytes that were not read.
    pub rest: &'a [u8],
    /// How many reads were made.
    pub reads: usize,
    /// The most bytes that a read gives.
    pub step: usize,
    pub turns: Turns<'b>,
}

impl Read for Pieces<'_, '_> {
    ghost remaining = { λ pieces. Some pieces.rest.now };

    fn read(&mut self, buf: &mut [u8]) -> io::Result<usize> {
        self.reads = self.reads.saturating_add(1);
        // a read of no bytes would be the end of the input, and no case has one
        let most = self.turns.next()?.min(self.step).max(1);
        let n = buf.len().min(most).min(self.rest.len());
        let (taken, rest) = self.rest.split_at(n);
        buf[..n].copy_from_slice(taken);
        self.rest = rest;
        Ok(n)
    }
}

/// Holds what is written.
#[derive(Drop)]
pub struct Room<'a> {
    pub held: Vec<u8>,
    /// How many flushes succeeded.
    pub flushed: usize,
    pub writes: Turns<'a>,
    pub flushes: Turns<'a>,
}

impl Write for Room<'_> {
    ghost contents = { λ room. Some room.held.items };

    fn write(&mut self, buf: &[u8]) -> io::Result<usize> {
        let n = self.writes.next()?.min(buf.len());
        self.held.extend_from_slice(buf.split_at(n).0)?;
        Ok(n)
    }

    fn flush(&mut self) -> io::Result<()> {
        self.flushes.pass()?;
        self.flushed = self.flushed.saturating_add(1);
        Ok(())
    }
}

/// Answers NOOP, QUIT, HELP, SITE and refused lines as `control_demo` does, and any other command
/// by 502; or nothing at all. It is done once QUIT came. At an event whose turn is an error it
/// fails with that of the line, or else with the turn's.
#[derive(Drop)]
pub struct Scripted<'a> {
    pub is_silent: bool,
    pub turns: Turns<'a>,
    /// How many events it has taken.
    pub taken: u32,
    pub has_quit: bool,
    pub failures: Count,
}

impl Handler for Scripted<'_> {
    ghost State = { ScriptState };

    ghost state = { λ scripted.
        record { is_silent = scripted.is_silent; has_quit = scripted.has_quit } };

    ghost law = { script_law };

    ghost failures = { λ scripted. scripted.failures };

    fn handle(&mut self, alloc: Global, event: Event) -> Result<Reply, ControlChanError> {
        self.taken = self.taken.saturating_add(1);
        self.has_quit = self.has_quit || event.is_quit();
        let answer = match self.turns.next() {
            Err(error) => Err(error_at(event, error)),
            Ok(_) if self.is_silent => {
                drop(event);
                Ok(Reply::None)
            }
            Ok(_) => answer_event(alloc, event),
        };
        if answer.is_err() {
            self.failures.raise();
        }
        answer
    }

    fn done(&self) -> bool {
        self.has_quit
    }
}

/// The error of a refused line, or that of a turn.
fn error_at(event: Event, error: io::Error) -> ControlChanError {
    match event {
        Event::Refused(refusal) => refusal,
        Event::Command(command) => {
            drop(command);
            error.into()
        }
    }
}

/// The reply to an event.
fn answer_event(alloc: Global, event: Event) -> Result<Reply, ControlChanError>
    ensures { IfOk result (λ reply. reply_of reply ≡ event_reply (event_meant event)) }
{
    match event {
        Event::Command(command) => answer_command(alloc, command),
        Event::Refused(error) => answer_refusal(alloc, error),
    }
}

/// The reply to a command.
fn answer_command(alloc: Global, command: Command) -> Result<Reply, ControlChanError>
    ensures { IfOk result (λ reply. reply_of reply ≡ command_reply (command_of command)) }
{
    match command {
        Command::Noop => Reply::new(alloc, ReplyCode::CommandOkay, "OK"),
        Command::Quit => Reply::new(alloc, ReplyCode::ClosingControlConnection, "Bye"),
        Command::Help => Help.reply(alloc),
        Command::Site { command, arguments } => answer_site(alloc, command, arguments),
        _ => not_implemented(alloc),
    }
}

/// The reply to SITE.
fn answer_site(alloc: Global, command: String, arguments: String) -> Result<Reply, ControlChanError>
    ensures { IfOk result (λ reply.
        reply_of reply ≡ site_reply (string_bytes command) (string_bytes arguments)) }
{
    match command.as_str() {
        "ECHO" => Ok(Reply::new_with_string(ReplyCode::CommandOkay, arguments)),
        _ => not_implemented(alloc),
    }
}

/// The reply to any other command.
fn not_implemented(alloc: Global) -> Result<Reply, ControlChanError>
    ensures { IfOk result (λ reply. reply_of reply ≡ not_implemented) }
{
    Reply::new(alloc, ReplyCode::CommandNotImplemented, "Not implemented")
}

/// The reply to a line that is no command: why the parser refused it, or else the kind of the
/// error.
fn answer_refusal(alloc: Global, error: ControlChanError) -> Result<Reply, ControlChanError>
    ensures { IfOk result (λ reply. reply_of reply ≡ event_reply (Refused (fault_of error))) }
{
    let text = match error.source() {
        Source::Parse(parse) => format!(in alloc; "{}", parse.kind())?,
        _ => format!(in alloc; "{}", error.kind())?,
    };
    Ok(Reply::new_with_string(ReplyCode::CommandSyntaxError, text))
}

/// Accounts of one name.
#[derive(Drop)]
pub struct OneAccount;

impl Accounts for OneAccount {
    ghost accepts = { λ _ name password.
        bytes_eq (codes "anna") name && bytes_eq (codes "secret") password };

    fn accepts(&self, name: &[u8], password: &[u8]) -> bool {
        "anna".as_bytes() == name && "secret".as_bytes() == password
    }
}

/// How many bytes a data connection takes without memory for them.
const ROOM: usize = 64;

/// What a data connection gives at each transfer to the server.
const GIVEN: &[u8] = b"stored";

/// How many bytes it takes or gives at once.
const STEP: usize = 4;

/// A data connection that holds what it took, and fails when it is asked to.
#[derive(Drop)]
pub struct Wire<'a> {
    pieces: Pieces<'static, 'a>,
    /// What it took.
    pub taken: Vec<u8>,
    answers: Answers,
}

impl<'a> Wire<'a> {
    /// A data connection whose calls have these turns.
    pub fn new(alloc: Global, turns: Turns<'a>) -> Result<Wire<'a>, AllocError> {
        Ok(Wire {
            pieces: Pieces {
                rest: GIVEN,
                reads: 0,
                step: STEP,
                turns,
            },
            taken: Vec::with_capacity(alloc, ROOM)?,
            answers: Answers::new(),
        })
    }
}

impl DataConnection for Wire<'_> {
    ghost answers = { λ wire. wire.answers };

    fn open(&mut self) -> io::Result<()> {
        self.pieces.rest = GIVEN;
        let result = self.pieces.turns.pass();
        self.answers.opened(&result);
        result
    }

    fn send(&mut self, bytes: &[u8]) -> io::Result<usize> {
        let result = take(&mut self.pieces.turns, &mut self.taken, bytes);
        self.answers.sent(bytes, &result);
        result
    }

    fn receive(&mut self, buffer: &mut [u8]) -> io::Result<usize> {
        let result = self.pieces.read(buffer);
        self.answers.received(buffer, &result);
        result
    }

    fn close(&mut self) -> io::Result<()> {
        let result = self.pieces.turns.pass();
        self.answers.closed(&result);
        result
    }
}

/// Takes some of these bytes, by the next turn.
fn take(turns: &mut Turns<'_>, taken: &mut Vec<u8>, bytes: &[u8]) -> io::Result<usize>
    ensures { WritesAtMost result bytes.now }
{
    let n = turns.next()?.min(STEP).min(bytes.len());
    taken.extend_from_slice(bytes.split_at(n).0)?;
    Ok(n)
}
