//! Examples of what whole sessions, pieces, event loops and readers of replies come to.
#![tactic(auto, unfolding(unftp_control_defs::proofs::Computing::at_bytes))]

ghost use Rattle.std.specs.Prelude.{◌≡◌, ℕ, Bool, List, [], ◌∷◌, ◌++◌, Some, None, Ok, Err, codes, true, false};
ghost use Rattle.std.specs.Io.KnownBytes.{Appends, IsAtEnd};
ghost use Rattle.example_callers.specs.Basic.{basic};
ghost use Rattle.example_callers.specs.EventLoop.{AnswersNext, LeavesUnanswered};
ghost use Rattle.example_callers.specs.ExampleTalks.{before_session};
ghost use Rattle.example_callers.specs.NextCode.{ReceivesAgreement, ReceivesCode};
ghost use Rattle.example_callers.specs.Pieces.{AnswersPieces, FailsAtPiece, HasNoRoom};
ghost use Rattle.example_callers.specs.Sessions.{SessionEnded, snapshot_at_start, unused_input};
ghost use Rattle.example_callers.specs.UntilTls.{LeavesStream};
ghost use Rattle.example_callers.specs.WholeLine.{AnswersLine, ascii_modes, image_modes};
ghost use Rattle.unftp_control_defs.specs.Bytes.{Bytes};
ghost use Rattle.unftp_control.specs.ClientRuns.{asking, client_with};
ghost use Rattle.unftp_control_serve.specs.Decoder.{Pending, no_bytes as no_lines, pushed as lines_pushed};
ghost use Rattle.unftp_control_serve.specs.Endings.{Snapshot};
ghost use Rattle.unftp_control_client.specs.Exchange.{MayBeginTls};
ghost use Rattle.unftp_control_defs.specs.Input.{InputState};
ghost use Rattle.unftp_control_read.specs.ReplyDecoding.{PendingReplies, TakesFirst, appended, content};
ghost use Rattle.unftp_control_read.specs.Receiving.{HasFailure};
ghost use Rattle.unftp_control_serve.specs.Service.{ReadFailed};
ghost use Rattle.unftp_control_serve.specs.Writing.{OutputState, appended_output};
ghost use Rattle.unftp_control_client.specs.declared.Client.{Client as RustClient};
ghost use Rattle.unftp_control_client.specs.declared.dialogue.ClientReply.{ClientReply as RustReply};
ghost use Rattle.unftp_control_client.specs.declared.dialogue.To.TheVariants.{Command};
ghost use Rattle.unftp_control_serve.specs.declared.service.Served.{Served};
ghost use Rattle.unftp_control_serve.specs.declared.error.ServeError.{ServeError as RustError};
ghost use Rattle.unftp_control_read.specs.declared.errors.ReceiveError.{ReceiveError as RustFailure};
ghost use Rattle.unftp_control_defs.specs.Run.{as_session};

use crate::event_loop::Turn;
use crate::whole_line::Modes;
use unftp_control_serve::ServeError;

/// What a session is at Ok, where all was read, and at its errors.
pub fn sessions_end_so()
    ensures written { (after : Snapshot Bool) (input : InputState) (served : Served)
        → SessionEnded None (as_session basic) (snapshot_at_start false 2 None) after
        (unused_input None)
        input
        (Ok served)
        → input.given ≡ codes "NOOP\r\nNO"
        → (after.output.taken ≡ codes "200 OK\r\n") × (after.state ≡ false) × (after.failures ≡ 2) }
    ensures not_written { (after : Snapshot Bool) (input : InputState) (served : Served)
        → SessionEnded None (as_session basic) (snapshot_at_start false 0 None) after
        (unused_input None)
        input
        (Ok served)
        → input.given ≡ codes "NOOP\r\nNO" → after.output.taken ≡ codes "200 OK\r" → ⊥ }
    ensures read { (after : Snapshot Bool) (input : InputState) (error : _)
        → SessionEnded None (as_session basic) (before_session 0) after (unused_input None) input
        (Err (ServeError.Read error))
        → ReadFailed None (as_session basic) (before_session 0) after (unused_input None) input }
    ensures not_stopped { (after : Snapshot Bool) (input : InputState)
        → ¬ SessionEnded None (as_session basic) (before_session 0) after (unused_input None) input
        (Err ServeError.Stopped) }
{}

/// What the pieces of an input come to.
pub fn pieces_end_so()
    ensures answered { (after : Snapshot Bool)
        → AnswersPieces {T = ℕ} (as_session basic) (before_session 0)
        (codes "NOOP\r" ∷ codes "\nNO" ∷ []) after
        (Ok 2)
        → Appends (Some (codes "x")) after.output.written (codes "200 OK\r\n") }
    ensures no_piece { (after : Snapshot Bool) (error : RustError)
        → ¬ FailsAtPiece (as_session basic) (before_session 0) [] after error }
    ensures no_room { (after : Snapshot Bool)
        → HasNoRoom (as_session basic) (before_session 0) (codes "NOOP\r\n") (codes "P") after
        ServeError.OutOfMemory
        → Appends (Some (codes "x")) after.output.written (codes "200 OK\r\n") }
    ensures empty_piece { (after : Snapshot Bool)
        → ¬ HasNoRoom (as_session basic) (before_session 0)
        (codes "NOOP\r\n") [] after ServeError.OutOfMemory }
    ensures another_error { (after : Snapshot Bool)
        → ¬ HasNoRoom (as_session basic) (before_session 0)
        (codes "NOOP\r\n") (codes "P") after ServeError.WriteZero }
{}

/// What a turn of an event loop is where no line is pending, and where one is.
pub fn turns_of_a_loop_are_so()
    ensures read { (after : Pending) (sent' : Bytes) → AnswersNext
        (lines_pushed (no_lines None) (codes "QU")) (codes "x") Turn.Read after sent'
        → sent' ≡ codes "x" }
    ensures line { (after : Pending) (sent' : Bytes) → ¬ AnswersNext
        (lines_pushed (no_lines None) (codes "QUIT\r\n")) (codes "x") Turn.Read after sent' }
    ensures closed { (after : Pending) (sent' : Bytes) → AnswersNext
        (lines_pushed (no_lines None) (codes "QUIT\r\nNO")) (codes "x") Turn.Close after sent'
        → (after.bytes ≡ []) × (sent' ≡ codes "x221 Bye\r\n") }
{}

/// What is left of a line that is not answered: it stays, or what follows it does.
pub fn lines_are_left_so()
    ensures stays { LeavesUnanswered (lines_pushed (no_lines None) (codes "NOOP\r\nNO")) (codes "x")
        (lines_pushed (no_lines None) (codes "NOOP\r\nNO")) (codes "x") }
    ensures taken { LeavesUnanswered (lines_pushed (no_lines None) (codes "NOOP\r\nNO")) (codes "x")
        (lines_pushed (no_lines None) (codes "NO")) (codes "x") }
    ensures all_taken { (after : Pending) (sent' : Bytes) → LeavesUnanswered
        (lines_pushed (no_lines None) (codes "NOOP\r\nNO")) (codes "x") after sent'
        → after.bytes ≡ [] → ⊥ }
    ensures no_line { (after : Pending) (sent' : Bytes) → ¬ LeavesUnanswered
        (lines_pushed (no_lines None) (codes "NOOP")) (codes "x") after sent' }
    ensures sent { (before after : Pending) (sent' : Bytes)
        → LeavesUnanswered before (codes "x") after sent' → sent' ≡ codes "x" }
{}

/// What a line that asks for a type comes to: all of its reply, its type, and what follows it.
pub fn types_are_answered_so()
    ensures answered { AnswersLine (lines_pushed (no_lines None) (codes "TYPE I\nNO")) ascii_modes
        (codes "x") (lines_pushed (no_lines None) (codes "NO")) image_modes
        (codes "x200 Type is I\r\n") }
    ensures line { (modes modes' : Modes) (after : Pending) (sent' : Bytes) → AnswersLine
        (lines_pushed (no_lines None) (codes "TYPE I\nNO")) modes (codes "x") after modes' sent'
        → (after.bytes ≡ codes "NO") × (modes' ≡ record modes { image = true })
        × (sent' ≡ codes "x200 Type is I\r\n") }
    ensures no_line { (modes modes' : Modes) (after : Pending) (sent' : Bytes) → ¬ AnswersLine
        (lines_pushed (no_lines None) (codes "TYPE I")) modes (codes "x") after modes' sent' }
{}

/// How a stream goes on after AUTH TLS: with the first byte that was not read.
pub fn streams_go_on_so()
    ensures begins { LeavesStream (appended_output (codes "x"))
        (appended_output (codes "x234 Upgrading to TLS\r\n"))
        (unused_input (Some (codes "AUTH TLS\r\nX")))
        (record {
          given = codes "AUTH TLS\r\n";
          reads = 10 ∷ [];
          failures = 0;
          remaining = Some (codes "X");
        }) true }
    ensures replied { (after : OutputState) (left : InputState) (begins : Bool)
        → LeavesStream (appended_output (codes "x")) after (unused_input None) left begins
        → left.given ≡ codes "AUTH TLS\r\n"
        → after.taken ≡ codes "x234 Upgrading to TLS\r\n" }
    ensures read_on { (before after : OutputState) (left : InputState)
        → LeavesStream before after (unused_input None) left true
        → left.given ≡ codes "AUTH TLS\r\nX" → ⊥ }
{}

/// What is received of a reply, of the end of the input, and at an error.
pub fn codes_are_received_so()
    ensures code { (before after : PendingReplies) (input left : InputState)
        → ReceivesCode before input (Ok (Some 220)) after left
        → (read : Bytes) × (lines : List Bytes)
        × TakesFirst (appended before read) (220, lines) after }
    ensures end { (before after : PendingReplies) (input left : InputState)
        → ReceivesCode before input (Ok None) after left → IsAtEnd left.remaining }
    ensures error { (before after : PendingReplies) (input left : InputState)
        (error : RustFailure) → ReceivesCode before input (Err error) after left
        → (read : Bytes) × HasFailure before.limit (before.bytes ++ read) error
        × (after.bytes ≡ before.bytes ++ read) }
{}

/// When a client agrees to TLS: at a reply, after which TLS may begin.
pub fn agreements_are_received_so()
    ensures agreed { (taken : RustReply) → taken.to ≡ Command 0
        → content taken.reply ≡ (234, [] ∷ [])
        → ReceivesAgreement (client_with (asking 1 (Some 0) 0 false) (codes "234\r\n"))
        (unused_input None) (Ok true)
        (client_with (asking 1 (Some 1) 0 true) []) (unused_input None) }
    ensures pending { (before after : RustClient) (input left : InputState)
        → ReceivesAgreement before input (Ok true) after left → after.replies.bytes ≡ [] }
    ensures greeting { (before after : RustClient) (input left : InputState)
        → ReceivesAgreement before input (Ok true) after left
        → before.dialogue.answered ≡ None → ⊥ }
    ensures reply { (before after : RustClient) (input left : InputState)
        → ReceivesAgreement before input (Ok true) after left
        → (read : Bytes) × (reply : ℕ × List Bytes)
        × TakesFirst (appended before.replies read) reply after.replies }
    ensures not_agreed { (before after : RustClient) (input left : InputState)
        → ReceivesAgreement before input (Ok false) after left → MayBeginTls after
        → after.dialogue ≡ before.dialogue }
    ensures error { (before after : RustClient) (input left : InputState) (error : RustFailure)
        → ReceivesAgreement before input (Err error) after left
        → after.dialogue ≡ before.dialogue }
{}
