//! One transfer.
ghost use Rattle.std.specs.Prelude.{◌≡◌, ◌++◌, [], IfErr, IfOk, OnErr, drop, take};
ghost use Rattle.unftp_control_defs.specs.Bytes.{Bytes};
ghost use Rattle.unftp_control_defs.specs.Events.{out_of_memory};
ghost use Rattle.unftp_control_message.specs.ErrorMeaning.{fault_of};
ghost use Rattle.unftp_control_message.specs.ReplyMeaning.{reply_of};
ghost use Rattle.unftp_control_serve.specs.Writing.{Begins};
ghost use Rattle.example_callers.specs.CameTo.{CameTo, IsCutOff, RanOut};
ghost use Rattle.example_callers.specs.Transfers.{closing, final_reply, receiving, sending, stored, with_opening};

use crate::transfers::data::DataConnection;
use std::alloc::Global;
use unftp_control_message::reply::error::ControlChanError;
use unftp_control_message::reply::{Reply, ReplyCode};

/// Which way the file goes.
#[derive(Debug, PartialEq, Eq, Clone, Copy)]
pub enum Transfer {
    /// To the client: RETR.
    Retrieve,
    /// From the client: STOR.
    Store,
}

/// How a transfer ended.
#[derive(Debug, PartialEq, Eq, Clone, Copy)]
pub enum Ending {
    /// All was transferred, and the connection closed.
    Complete,
    /// The connection couldn't be opened.
    NotOpened,
    /// It failed before all was transferred.
    Aborted,
    /// It couldn't be closed.
    NotClosed,
}

/// How many bytes are received at most at once.
const PIECE: usize = 4096;

/// Sends the file from this offset on, over a connection that is opened before and closed after.
#[tactic(auto, using(crate::proofs::TransferLemmas::sent_more))]
pub fn retrieve<D: DataConnection>(connection: &mut D, file: &[u8], offset: usize) -> Ending
    ensures came_to { (sent : Bytes) × CameTo (with_opening (sending (drop offset file.now)))
        (D.answers connection.old) (D.answers connection.new) result sent }
{
    if connection.open().is_err() {
        return Ending::NotOpened;
    }
    let mut rest = split(file, offset).1;
    while !rest.is_empty() {
        match connection.send(rest) {
            Ok(0) | Err(_) => return Ending::Aborted,
            Ok(n) => rest = rest.split_at(n).1,
        }
    }
    close(connection)
}

/// Stores what comes over the connection after the file's bytes before the offset, in place of the
/// others, where all of it comes, and returns the reply after it. Else the file stays as it is.
///
/// It fails only when out of memory: for those bytes, before it opens the connection; for what was
/// received, and leaves it open; or for the reply, after all calls.
pub fn store<D: DataConnection>(
    alloc: Global,
    connection: &mut D,
    file: &mut Vec<u8>,
    offset: usize,
) -> Result<Reply, ControlChanError>
    ensures heard { Begins (D.answers connection.new) (D.answers connection.old) }
    ensures ok { IfOk result (λ reply. (ending : Ending) × (received : Bytes)
        × (reply_of reply ≡ final_reply ending)
        × (file.new.items ≡ stored offset file.old.items ending received)
        × CameTo (with_opening receiving) (D.answers connection.old) (D.answers connection.new)
        ending received) }
    ensures err { IfErr result (λ error. fault_of error ≡ out_of_memory) }
    ensures kept { OnErr result (file.new.items ≡ file.old.items) }
    ensures ran_out { OnErr result (RanOut (D.answers connection.old) (D.answers connection.new)
        Transfer.Store offset file.old.items) }
{
    let mut stored = Vec::new(alloc);
    stored.extend_from_slice(split(file, offset).0)?;
    let ending = receive(connection, &mut stored)?;
    let reply = final_reply(alloc, ending)?;
    if ending == Ending::Complete {
        *file = stored;
    }
    Ok(reply)
}

/// Appends the bytes that come over a connection, which is opened before and closed after. It fails
/// only when out of memory for some of them.
fn receive<D: DataConnection>(
    connection: &mut D,
    stored: &mut Vec<u8>,
) -> Result<Ending, ControlChanError>
    ensures heard { Begins (D.answers connection.new) (D.answers connection.old) }
    ensures ok { IfOk result (λ ending. (received : Bytes)
        × (stored.new.items ≡ stored.old.items ++ received)
        × CameTo (with_opening receiving) (D.answers connection.old) (D.answers connection.new)
        ending received) }
    ensures err { IfErr result (λ error. fault_of error ≡ out_of_memory) }
    ensures ran_out { OnErr result
        (IsCutOff (D.answers connection.old) (D.answers connection.new)) }
{
    let Ok(()) = connection.open() else {
        return Ok(Ending::NotOpened);
    };
    let mut piece = [0u8; PIECE];
    loop {
        match connection.receive(&mut piece) {
            Ok(0) => return Ok(close(connection)),
            Ok(n) => stored.extend_from_slice(piece.split_at(n).0)?,
            Err(_) => return Ok(Ending::Aborted),
        }
    }
}

/// The reply after a transfer. It fails only when out of memory.
pub fn final_reply(alloc: Global, ending: Ending) -> Result<Reply, ControlChanError>
    ensures ok { IfOk result (λ reply. reply_of reply ≡ final_reply ending) }
    ensures err { IfErr result (λ error. fault_of error ≡ out_of_memory) }
{
    let (code, text) = match ending {
        Ending::Complete => (ReplyCode::ClosingDataConnection, "Transfer complete"),
        Ending::NotOpened => (
            ReplyCode::CantOpenDataConnection,
            "Can't open data connection",
        ),
        Ending::Aborted => (
            ReplyCode::ConnectionClosed,
            "Connection closed; transfer aborted",
        ),
        Ending::NotClosed => (ReplyCode::LocalError, "Data connection could not be closed"),
    };
    Reply::new(alloc, code, text)
}

/// The bytes before and after this offset.
fn split(bytes: &[u8], offset: usize) -> (&[u8], &[u8])
    ensures before { result.0.now ≡ take offset bytes.now }
    ensures after { result.1.now ≡ drop offset bytes.now }
{
    bytes.split_at(offset.min(bytes.len()))
}

/// Closes the connection after a transfer.
fn close<D: DataConnection>(connection: &mut D) -> Ending
    ensures { CameTo closing (D.answers connection.old) (D.answers connection.new) result [] }
{
    match connection.close() {
        Ok(()) => Ending::Complete,
        Err(_) => Ending::NotClosed,
    }
}
