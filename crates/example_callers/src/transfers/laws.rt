//! Laws of sessions with transfers, each the contract of a function that does nothing.
ghost use Rattle.std.specs.Prelude.{◌≡◌, List, None};
ghost use Rattle.unftp_control_defs.specs.Bytes.{Bytes};
ghost use Rattle.unftp_control_defs.specs.Events.{FtpEvent, Command};
ghost use Rattle.unftp_control_defs.specs.FtpCommand.{Retr, Stor};
ghost use Rattle.unftp_control_defs.specs.FtpReply.{IsReadable};
ghost use Rattle.unftp_control_defs.specs.Turns.{GivesExchanges, SaysOnly};
ghost use Rattle.example_callers.specs.DataAnswers.{DataAnswer};
ghost use Rattle.example_callers.specs.TransferLaws.{AtEvent, ComesBack, Retrieves, Stores, TransfersNothing};
ghost use Rattle.example_callers.specs.Transfers.{TransferState, transfer_of, transfers_law};

/// Whatever the data connection answers, each event has preliminary replies, and then one that is
/// final (RFC 959, section 5.4); each reply is sent, and a client reads it as what it is.
#[tactic(auto, using(crate::proofs::TransferLawLemmas::each_reply))]
pub fn transfers_are_exchanges()
    ensures exchanges { (answers : List DataAnswer) → GivesExchanges (transfers_law answers) }
    ensures readable { (answers : List DataAnswer) → SaysOnly IsReadable (transfers_law answers) }
{}

/// A RETR that is answered 226 has sent exactly the bytes of the file from the offset of REST on,
/// in order; with another reply a beginning of them was sent.
pub fn all_is_sent()
    ensures { (answers : List DataAnswer) (s : TransferState) (path : Bytes)
        → AtEvent Retrieves answers s (Command (Retr path)) }
{}

/// A STOR that is answered 226 has stored exactly the bytes that the connection gave, after those
/// before the offset of REST; with another reply the file is as it was.
pub fn all_is_stored()
    ensures { (answers : List DataAnswer) (s : TransferState) (path : Bytes)
        → AtEvent Stores answers s (Command (Stor path)) }
{}

/// What was stored and then retrieved, each answered 226, is the same bytes.
pub fn files_come_back()
    ensures { (answers : List DataAnswer) (s : TransferState) (to from : Bytes)
        → ComesBack answers s to from }
{}

/// Any other event leaves the file as it is, and makes no call to the data connection.
#[tactic(auto, using(crate::proofs::TransferLawLemmas::transfers_nothing))]
pub fn other_events_transfer_nothing()
    ensures { (answers : List DataAnswer) (s : TransferState) (event : FtpEvent)
        → transfer_of event ≡ None
        → AtEvent TransfersNothing answers s event }
{}
