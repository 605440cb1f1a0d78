//! A session that transfers a file.
ghost use Rattle.std.specs.Prelude.{◌≡◌, ◌∷◌, [], List, None, Some, IfErr, IfOk, IfSome, OnErr, OnOk};
ghost use Rattle.std.specs.Io.KnownBytes.{Appends};
ghost use Rattle.unftp_control_defs.specs.Events.{out_of_memory};
ghost use Rattle.unftp_control_defs.specs.Run.{last_state, run_for, text_for};
ghost use Rattle.unftp_control_defs.specs.Input.{input_state_of};
ghost use Rattle.unftp_control_serve.specs.Endings.{snapshot_of};
ghost use Rattle.unftp_control_serve.specs.Service.{AreReadBack, ServeEnded, Serves};
ghost use Rattle.unftp_control_message.specs.ErrorMeaning.{fault_of};
ghost use Rattle.unftp_control_message.specs.ReplyMeaning.{reply_of};
ghost use Rattle.unftp_control_serve.specs.Answering.{FirstAnswer, FurtherAnswer};
ghost use Rattle.unftp_control_serve.specs.EventMeaning.{event_meant};
ghost use Rattle.unftp_control_serve.specs.Writing.{Begins};
ghost use Rattle.example_callers.specs.DataAnswers.{DataAnswer};
ghost use Rattle.example_callers.specs.CameTo.{RanOut};
ghost use Rattle.example_callers.specs.Transfers.{new_transfers, transfer_failures, first_reply, follow_up, left_in, offset_after, state_of, transfer_of, transfers_law};

use crate::transfers::data::DataConnection;
use crate::transfers::transfer::{Transfer, final_reply, retrieve, store};
use std::alloc::Global;
use std::io::{Read, Write};
use unftp_control_message::Command;
use unftp_control_message::reply::error::ControlChanError;
use unftp_control_message::reply::{Reply, ReplyCode};
use unftp_control_serve::{Count, Event, Input, Output, ServeError, Served, Session, serve};

/// Serves one file, which is held in memory: RETR sends it and STOR replaces it, whichever path
/// they name (RFC 959, section 4.1.3), from the offset of REST on (RFC 3659, section 5). Both are
/// answered 150 before the transfer, and 226, 425, 426 or 451 after it (RFC 959, section 5.4).
///
/// It fails only when out of memory, and the file is as it was then. Where that is for bytes that
/// STOR received, the data connection is left open.
#[derive(Drop)]
pub struct Transfers<D: DataConnection> {
    connection: D,
    file: Vec<u8>,
    offset: usize,
    pending: Option<Transfer>,
    quit: bool,
    failures: Count,
}

impl<D: DataConnection> Transfers<D> {
    /// A session with this file, before the first event.
    pub fn new(connection: D, file: Vec<u8>) -> Transfers<D>
        ensures connection { result.connection ≡ connection }
        ensures state { state_of D.answers result ≡ new_transfers
            (D.answers connection) file.items }
        ensures failures { transfer_failures result ≡ 0 }
    {
        Transfers {
            connection,
            file,
            offset: 0,
            pending: None,
            quit: false,
            failures: Count::new(),
        }
    }

    /// The file.
    pub fn file(&self) -> &[u8]
        ensures { result.now ≡ self.now.file.items }
    {
        self.file.as_slice()
    }

    /// The data connection.
    pub fn connection(&self) -> &D
        ensures { result.now ≡ self.now.connection }
    {
        &self.connection
    }

    /// Makes this transfer, and returns the reply after it. It fails only when out of memory: for
    /// that reply, or for what STOR keeps.
    fn answer_transfer(
        &mut self,
        alloc: Global,
        transfer: Transfer,
    ) -> Result<Reply, ControlChanError>
        requires { self.old.pending ≡ None }
        ensures heard { Begins (D.answers self.new.connection) (D.answers self.old.connection) }
        ensures ok { IfOk result (λ reply. (answers : List DataAnswer)
            → Begins answers (D.answers self.new.connection)
            → follow_up (state_of D.answers self.old) (Some transfer) answers
            ≡ (reply_of reply, state_of D.answers self.new) ∷ []) }
        ensures pending { self.new.pending ≡ None }
        ensures failures { self.new.failures ≡ self.old.failures }
        ensures err { IfErr result (λ error. fault_of error ≡ out_of_memory) }
        ensures kept { OnErr result (self.new.file.items ≡ self.old.file.items) }
        ensures ran_out { OnErr result (RanOut (D.answers self.old.connection)
            (D.answers self.new.connection) transfer self.old.offset self.old.file.items) }
    {
        let offset = self.offset;
        self.offset = 0;
        match transfer {
            Transfer::Retrieve => {
                final_reply(alloc, retrieve(&mut self.connection, &self.file, offset))
            }
            Transfer::Store => store(alloc, &mut self.connection, &mut self.file, offset),
        }
    }
}

/// Which transfer an event asks for.
fn transfer_of(event: &Event) -> Option<Transfer>
    ensures { result ≡ transfer_of (event_meant event.now) }
{
    match event {
        Event::Command(Command::Retr { .. }) => Some(Transfer::Retrieve),
        Event::Command(Command::Stor { .. }) => Some(Transfer::Store),
        _ => None,
    }
}

/// Where the next transfer begins after an event, in a file of so many bytes.
fn offset_after(offset: usize, end: usize, event: &Event) -> usize
    ensures { result ≡ offset_after offset end (event_meant event.now) }
{
    match event {
        Event::Command(Command::Rest { offset: to }) => {
            let to = *to as usize;
            if to <= end { to } else { offset }
        }
        _ => offset,
    }
}

/// The first reply to an event, where the file has so many bytes. It fails only when out of memory.
fn first_reply(alloc: Global, end: usize, event: &Event) -> Result<Reply, ControlChanError>
    ensures ok { IfOk result (λ reply. reply_of reply ≡ first_reply end (event_meant event.now)) }
    ensures err { IfErr result (λ error. fault_of error ≡ out_of_memory) }
{
    let (code, text) = match event {
        Event::Command(Command::Retr { .. } | Command::Stor { .. }) => {
            (ReplyCode::FileStatusOkay, "Opening data connection")
        }
        Event::Command(Command::Rest { offset }) if *offset as usize <= end => {
            (
                ReplyCode::FileActionPending,
                "Send RETR or STOR to transfer from there",
            )
        }
        Event::Command(Command::Rest { .. }) => (
            ReplyCode::ParameterSyntaxError,
            "Beyond the end of the file",
        ),
        Event::Command(Command::TypeCode) => (ReplyCode::CommandOkay, "Always in image type"),
        Event::Command(Command::Abor) => (
            ReplyCode::ClosingDataConnection,
            "No transfer in progress",
        ),
        Event::Command(Command::Quit) => (ReplyCode::ClosingControlConnection, "Bye"),
        Event::Command(_) => (ReplyCode::CommandNotImplemented, "Not implemented"),
        Event::Refused(_) => (ReplyCode::CommandSyntaxError, "Not understood"),
    };
    Reply::new(alloc, code, text)
}

impl<D: DataConnection> Session for Transfers<D> {
    ghost use Rattle.example_callers.specs.DataAnswers.{DataAnswer};
    ghost use Rattle.example_callers.specs.Transfers.{TransferState, transfer_failures, left_in, state_of, transfers_law};

    ghost State = { TransferState };

    ghost Heard = { DataAnswer };

    ghost state = { state_of D.answers };

    ghost heard = { λ transfers. D.answers transfers.connection };

    ghost law = { transfers_law };

    ghost left = { left_in };

    ghost failures = { transfer_failures };

    /// The first reply to an event, which leaves the file as it is, and makes no call.
    fn first(&mut self, alloc: Global, event: Event) -> Result<Reply, ControlChanError>
        ensures heard { Begins (D.answers self.new.connection) (D.answers self.old.connection) }
        ensures answers { (said : List DataAnswer) → Begins said (D.answers self.new.connection)
            → FirstAnswer (transfers_law said) (state_of D.answers self.old)
            (state_of D.answers self.new) (transfer_failures self.old) (transfer_failures self.new)
            (event_meant event) result }
        ensures kept { (self.new.file.items ≡ self.old.file.items)
            × (self.new.connection ≡ self.old.connection) }
    {
        let end = self.file.len();
        self.pending = transfer_of(&event);
        self.offset = offset_after(self.offset, end, &event);
        self.quit = event.is_quit();
        let reply = first_reply(alloc, end, &event);
        drop(event);
        if reply.is_err() {
            self.failures.raise();
        }
        reply
    }

    /// The reply after the transfer that is to follow, which it makes. At an error the file is as
    /// it was.
    fn further(&mut self, alloc: Global) -> Result<Option<Reply>, ControlChanError>
        ensures heard { Begins (D.answers self.new.connection) (D.answers self.old.connection) }
        ensures answers { (said : List DataAnswer) → Begins said (D.answers self.new.connection)
            → FurtherAnswer (transfers_law said) (state_of D.answers self.old)
            (state_of D.answers self.new) (transfer_failures self.old)
            (transfer_failures self.new) left_in
            result }
        ensures kept { OnErr result (self.new.file.items ≡ self.old.file.items) }
        ensures ran_out { OnErr result (IfSome self.old.pending (λ transfer.
            RanOut (D.answers self.old.connection) (D.answers self.new.connection) transfer
            self.old.offset self.old.file.items)) }
    {
        let Some(transfer) = self.pending.take() else {
            return Ok(None);
        };
        let reply = self.answer_transfer(alloc, transfer);
        match reply {
            Ok(reply) => Ok(Some(reply)),
            Err(error) => {
                self.failures.raise();
                Err(error)
            }
        }
    }

    fn done(&self) -> bool {
        self.quit
    }
}

/// Answers the lines that the reader gives, as `serve` does, with the same errors. Each transfer is
/// over before the next line is taken, so ABOR finds none to abort, and is answered 226 (RFC 959,
/// section 4.1.3).
///
/// A line may have any length: for input that is not trusted, call `serve_with_limit` with these
/// transfers, under the same law.
#[tactic(auto, using(crate::proofs::TransferRunLemmas::written, crate::proofs::TransferRunLemmas::state))]
pub fn serve_transfers<R: Read, W: Write, D: DataConnection>(
    alloc: Global,
    reader: &mut Input<R>,
    writer: &mut Output<W>,
    transfers: &mut Transfers<D>,
) -> Result<Served, ServeError>
    // At Ok, where the bytes of the input are known: what was written, byte by byte, by all that
    // the data connection answered; and the last state: the file, and that each of its answers is
    // one that the run used.
    ensures written { IfOk result (λ served. IfSome (R.remaining reader.old.reader) (λ input.
        Appends (W.contents writer.old.writer) (W.contents writer.new.writer)
        (text_for None (transfers_law (D.answers transfers.new.connection))
        (state_of D.answers transfers.old) input))) }
    ensures state { IfOk result (λ served. IfSome (R.remaining reader.old.reader) (λ input.
        state_of D.answers transfers.new
        ≡ last_state (transfers_law (D.answers transfers.new.connection))
        (state_of D.answers transfers.old)
        (run_for None (transfers_law (D.answers transfers.new.connection))
        (state_of D.answers transfers.old) input))) }
    // At Ok, of any reader and any writer, and at each error.
    ensures ok { IfOk result (Serves None (transfers_law (D.answers transfers.new.connection))
        (snapshot_of (state_of D.answers) transfer_failures W.contents transfers.old writer.old)
        (snapshot_of (state_of D.answers) transfer_failures W.contents transfers.new writer.new)
        (input_state_of R.remaining reader.old) (input_state_of R.remaining reader.new)) }
    ensures read_back { OnOk result (AreReadBack None
        (transfers_law (D.answers transfers.new.connection)) (state_of D.answers transfers.old)
        (input_state_of R.remaining reader.old) (input_state_of R.remaining reader.new)) }
    ensures err { IfErr result (ServeEnded None (transfers_law (D.answers transfers.new.connection))
        (snapshot_of (state_of D.answers) transfer_failures W.contents transfers.old writer.old)
        (snapshot_of (state_of D.answers) transfer_failures W.contents transfers.new writer.new)
        (input_state_of R.remaining reader.old) (input_state_of R.remaining reader.new)) }
{
    serve(alloc, reader, writer, transfers)
}
