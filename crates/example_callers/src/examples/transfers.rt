//! Transfers worked out by hand: what the definitions say of them.
ghost use Rattle.std.specs.Prelude.{◌≡◌, ℕ, true, false, [], ◌∷◌, Ok, Err, codes};
ghost use Rattle.unftp_control_defs.specs.Events.{Command, Refused, line_too_long, out_of_memory};
ghost use Rattle.unftp_control_defs.specs.FtpCommand.{Abor, Noop, Quit, Rest, TypeCode};
ghost use Rattle.example_callers.specs.DataAnswers.{Opened, Took, Gave, Closed, OpenFailed, SendFailed, ReceiveFailed, CloseFailed, answer_to_close, answer_to_open, answer_to_receive, answer_to_send, received_in, sent_in};
ghost use Rattle.example_callers.specs.CameTo.{CameTo, RanOut};
ghost use Rattle.example_callers.specs.TransferLaws.{Completes, Retrieves, Stores, TransfersNothing, answers_for, replies_to, state_after_event};
ghost use Rattle.example_callers.specs.Transfers.{new_transfers, closing, left_in, transfer_outcome, receiving, sending, stored, transfers_law, with_opening};
ghost use Rattle.example_callers.specs.TransferExamples.{abc, all_received, all_data_sent, codes_to, file_after, holding, later, replies_at, retr, stor, stored_and_sent};
ghost use Rattle.example_callers.specs.declared.transfers.transfer.Ending.TheVariants.{Complete, NotOpened, Aborted, NotClosed};
ghost use Rattle.example_callers.specs.declared.transfers.transfer.Transfer.TheVariants.{Retrieve, Store};

/// What is recorded of a call: which it was, and what it took or gave.
pub fn answers_say_so()
    ensures opened { (answer_to_open {T = ℕ} {E = ℕ} (Ok 0) ≡ Opened)
        × (answer_to_open {T = ℕ} {E = ℕ} (Err 0) ≡ OpenFailed) }
    ensures took { (answer_to_send {E = ℕ} abc (Ok 2) ≡ Took abc 2)
        × (answer_to_send {E = ℕ} abc (Err 0) ≡ SendFailed) }
    ensures gave { (answer_to_receive {E = ℕ} abc (Ok 2) ≡ Gave (codes "ab"))
        × (answer_to_receive {E = ℕ} abc (Err 0) ≡ ReceiveFailed) }
    ensures closed { (answer_to_close {T = ℕ} {E = ℕ} (Ok 0) ≡ Closed)
        × (answer_to_close {T = ℕ} {E = ℕ} (Err 0) ≡ CloseFailed) }
    ensures all_sent { (sent_in all_data_sent ≡ abc) × (sent_in all_received ≡ []) }
    ensures all_received { (received_in all_received ≡ codes "xyz") ×
        (received_in all_data_sent ≡ []) }
{}

/// A transfer uses the answers to its own calls: to open, to send what is left or to receive, and
/// to close.
pub fn calls_are_used()
    ensures sent { transfer_outcome Retrieve abc all_data_sent
        ≡ record { ending = Complete; used = 4; bytes = abc } }
    ensures received { transfer_outcome Store abc all_received
        ≡ record { ending = Complete; used = 5; bytes = codes "xyz" } }
    ensures not_closed { sending abc (Took abc 3 ∷ CloseFailed ∷ [])
        ≡ record { ending = NotClosed; used = 2; bytes = abc } }
    ensures other_bytes { (sending abc (Took (codes "xbc") 3 ∷ [])).used ≡ 0 }
    ensures not_all_offered { (sending abc (Took (codes "a") 1 ∷ [])).used ≡ 0 }
    ensures sent_twice { (sending abc (SendFailed ∷ Took abc 3 ∷ [])).used ≡ 1 }
    ensures received_twice { (receiving (ReceiveFailed ∷ Gave [] ∷ Closed ∷ [])).used ≡ 1 }
    ensures never_opened { (with_opening closing (Closed ∷ [])).used ≡ 0 }
    ensures opened_twice { (with_opening closing (Opened ∷ Opened ∷ [])).used ≡ 1 }
    ensures never_closed { (closing (Opened ∷ [])).used ≡ 0 }
    ensures closed_at_once { (with_opening receiving (Opened ∷ Closed ∷ [])).used ≡ 1 }
    // a call that has no answer counts: so none can be left out
    ensures not_answered { ((with_opening closing []).used ≡ 1) × ((sending abc []).used ≡ 1)
        × ((receiving []).used ≡ 1) × ((closing []).used ≡ 1) }
    ensures refused_uncalled { (codes_to [] retr ≡ 150 ∷ 425 ∷ [])
        × ((state_after_event (later []) (holding 0 abc) retr).used ≡ 3) }
{}

/// The code of each reply.
pub fn transfers_are_answered()
    ensures retrieved { codes_to all_data_sent retr ≡ 150 ∷ 226 ∷ [] }
    ensures not_opened { codes_to (OpenFailed ∷ []) retr ≡ 150 ∷ 425 ∷ [] }
    ensures not_sent { codes_to (Opened ∷ Took abc 2 ∷ SendFailed ∷ []) retr ≡ 150 ∷ 426 ∷ [] }
    ensures none_taken { codes_to (Opened ∷ Took abc 0 ∷ []) retr ≡ 150 ∷ 426 ∷ [] }
    ensures not_closed { codes_to (Opened ∷ Took abc 3 ∷ CloseFailed ∷ []) retr
        ≡ 150 ∷ 451 ∷ [] }
    ensures stored { codes_to all_received stor ≡ 150 ∷ 226 ∷ [] }
    ensures not_received { codes_to (Opened ∷ Gave abc ∷ ReceiveFailed ∷ []) stor
        ≡ 150 ∷ 426 ∷ [] }
    ensures at_the_end { codes_to [] (Command (Rest 3)) ≡ 350 ∷ [] }
    ensures past_the_end { codes_to [] (Command (Rest 4)) ≡ 501 ∷ [] }
    ensures others { (codes_to [] (Command TypeCode) ≡ 200 ∷ [])
        × (codes_to [] (Command Abor) ≡ 226 ∷ []) × (codes_to [] (Command Quit) ≡ 221 ∷ [])
        × (codes_to [] (Command Noop) ≡ 502 ∷ [])
        × (codes_to [] (Refused line_too_long) ≡ 500 ∷ []) }
{}

/// The file after STOR, the place at which the next transfer begins, and the end of the session.
pub fn states_follow()
    ensures stored { file_after all_received 0 stor ≡ codes "xyz" }
    ensures appended { file_after all_received 3 stor ≡ codes "abcxyz" }
    ensures endings { (stored 1 abc NotOpened (codes "x") ≡ abc)
        × (stored 1 abc Aborted (codes "x") ≡ abc) × (stored 1 abc NotClosed (codes "x") ≡ abc) }
    ensures retrieved { state_after_event (later all_data_sent) (holding 0 abc) retr
        ≡ record (holding 0 abc) { used = 6 } }
    ensures rest { state_after_event [] (holding 0 abc) (Command (Rest 3)) ≡ holding 3 abc }
    ensures past_the_end { state_after_event [] (holding 1 abc) (Command (Rest 4))
        ≡ holding 1 abc }
    ensures from_rest { answers_for (later (Opened ∷ Took (codes "c") 1 ∷ Closed ∷ all_data_sent))
        (holding 2 abc) retr ≡ Opened ∷ Took (codes "c") 1 ∷ Closed ∷ [] }
    ensures one_transfer { (state_after_event (later all_data_sent) (holding 2 abc) retr).offset
        ≡ 0 }
    ensures quit { (transfers_law []).done
        (state_after_event [] (holding 0 abc) (Command Quit)) ≡ true }
    ensures goes_on { (transfers_law []).done
        (state_after_event [] (holding 0 abc) (Command Abor)) ≡ false }
    ensures first { new_transfers (Opened ∷ Closed ∷ []) abc ≡ holding 0 abc }
    ensures left { (left_in (holding 0 abc) ≡ 0)
        × (left_in ((transfers_law []).next (holding 0 abc) retr) ≡ 1) }
    ensures faults { ((transfers_law []).may_fail (holding 0 abc) retr line_too_long → ⊥)
        × ((transfers_law []).may_break (holding 0 abc) out_of_memory → ⊥)
        × ((transfers_law []).may_break ((transfers_law []).next (holding 0 abc) retr)
        line_too_long → ⊥) }
{}

/// What was stored comes back: it is what `files_come_back` asks for, and what it says.
pub fn a_file_comes_back()
    ensures at_the_start { (holding 0 abc).offset ≡ 0 }
    ensures was_stored { Completes (replies_to (later stored_and_sent) (holding 0 abc) stor) }
    ensures was_retrieved { Completes (replies_to (later stored_and_sent)
        (state_after_event (later stored_and_sent) (holding 0 abc) stor) retr) }
    ensures same { sent_in (answers_for (later stored_and_sent)
        (state_after_event (later stored_and_sent) (holding 0 abc) stor) retr) ≡ codes "xyz" }
    ensures not_stored { Completes (replies_to (later (Opened ∷ Gave abc ∷ ReceiveFailed ∷ []))
        (holding 0 abc) stor) → ⊥ }
    ensures from_an_offset { sent_in (answers_for (later stored_and_sent)
        (state_after_event (later stored_and_sent) (holding 1 abc) stor) retr) ≡ [] }
{}

/// What the laws of transfers let a session do, and what not.
pub fn laws_refuse()
    ensures retrieved { Retrieves (holding 0 abc) (holding 0 abc)
        (replies_at Complete) all_data_sent }
    ensures other_bytes { Retrieves (holding 0 abc) (holding 0 abc) (replies_at Aborted)
        (Opened ∷ Took (codes "b") 1 ∷ []) → ⊥ }
    ensures a_part { Retrieves (holding 0 abc) (holding 0 abc) (replies_at Complete)
        (Opened ∷ Took abc 2 ∷ []) → ⊥ }
    ensures changed { Retrieves (holding 0 abc) (holding 0 []) (replies_at Complete) all_data_sent
        → ⊥ }
    ensures stored { Stores (holding 3 abc) (holding 0 (codes "abcxyz")) (replies_at Complete)
        all_received }
    ensures not_stored { Stores (holding 0 abc) (holding 0 abc) (replies_at Complete)
        all_received → ⊥ }
    ensures emptied { Stores (holding 0 abc) (holding 0 []) (replies_at Aborted) [] → ⊥ }
    ensures sent { Stores (holding 0 abc) (holding 0 abc) (replies_at Aborted) all_data_sent → ⊥ }
    ensures nothing { TransfersNothing (holding 0 abc) (holding 3 abc) [] [] }
    ensures a_call { TransfersNothing (holding 0 abc) (holding 0 abc) [] (Opened ∷ []) → ⊥ }
    ensures one_used { TransfersNothing (holding 0 abc) (record (holding 0 abc) { used = 3 })
        [] [] → ⊥ }
    ensures other_file { TransfersNothing (holding 0 abc) (holding 0 []) [] [] → ⊥ }
{}

/// For what memory may run out: never for RETR before its reply, nor for an empty file before the
/// first byte of STOR, nor after the last.
pub fn memory_runs_out_so()
    ensures kept { RanOut [] [] Store 1 abc }
    ensures empty { RanOut [] [] Store 0 abc → ⊥ }
    ensures retrieving { RanOut [] [] Retrieve 1 abc → ⊥ }
    ensures received { RanOut [] (Opened ∷ Gave abc ∷ []) Store 0 [] }
    ensures opened { RanOut [] (Opened ∷ []) Store 0 [] → ⊥ }
    ensures reply { RanOut [] all_received Store 0 [] }
{}
