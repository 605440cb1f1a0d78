//! Snapshots worked out by hand: what the definitions of the clauses of `feed` say of them.
ghost use Rattle.std.specs.Prelude.{⊤, ◌≡◌, false, true, ◌+◌, ◌≤◌, ℕ, [], ◌∷◌, None, Some, Ok, Err, codes};
ghost use Rattle.std.specs.Io.KnownBytes.{Appends};
ghost use Rattle.unftp_control_defs.specs.Bytes.{Bytes};
ghost use Rattle.unftp_control_defs.specs.Events.{Fault, Command};
ghost use Rattle.unftp_control_defs.specs.FtpCommand.{User};
ghost use Rattle.unftp_control_defs.specs.FtpReply.{CodeAndMsg};
ghost use Rattle.unftp_control_serve.specs.Endings.{Snapshot, Finished, Write, Handler, LineMemory, ReplyMemory, IsCauseOf, RunFinished, EventFailed, RunEnded, RunFailed, RunOutcome, PieceOutcome, NoRoom, OnWrite};
ghost use Rattle.unftp_control_serve.specs.Engine.{IsFed, LacksPieceRoom, fed};
ghost use Rattle.unftp_control.specs.Snapshots.{counter, noop, silent, snapshot, two_replies, waiting};
ghost use Rattle.unftp_control_serve.specs.Writing.{Begins, IsFlushed, OneFlush, OneWrite, OutputState, Sends, output_state_of};
ghost use Rattle.unftp_control_serve.specs.declared.output.Output.{Output};

use unftp_control_serve::ServeError;

/// The handler took both events, their replies were written and flushed, and nothing failed.
pub fn all_events_are_answered()
    ensures answered { (after : Snapshot ℕ)
        → RunFinished counter (snapshot 3 (codes "x") 1) (noop ∷ noop ∷ []) after
        → (after.state ≡ 5) × (after.output.unflushed ≤ 0)
        × Appends (Some (codes "x")) after.output.written (codes "200 OK\r\n200 OK\r\n") }
    ensures none_left { (after : Snapshot ℕ)
        → RunEnded counter (snapshot 3 (codes "x") 1) [] (noop ∷ []) [] Finished after → ⊥ }
{}

/// One write takes the front of the bytes, and a failed one nothing; a flush leaves none unflushed.
pub fn writes_are_recorded_so()
    ensures ok { (before after : OutputState)
        → OneWrite {E = ℕ} (Ok 2) (codes "200 OK\r\n") before after
        → before.taken ≡ codes "x" → before.unflushed ≡ 1
        → (after.taken ≡ codes "x20") × (after.unflushed ≡ 3) × (after.failures ≡ before.failures) }
    ensures failed { (before after : OutputState)
        → OneWrite {E = ℕ} (Err 32) (codes "200 OK\r\n") before after
        → before.taken ≡ codes "x" → before.failures ≡ 1
        → (after.taken ≡ codes "x") × (after.failures ≡ 2) }
    ensures not_flushed { (before after : OutputState)
        → OneFlush {T = ℕ} {E = ℕ} (Err 5) before after
        → before.unflushed ≡ 1 → after.unflushed ≡ 0 → ⊥ }
{}

/// What is recorded of an output: what its writes took, and what is known of its writer.
pub fn outputs_are_seen_so()
    ensures known { (output : Output ℕ) → output.taken ≡ codes "x" → output.unflushed ≡ 1
        → output.failures ≡ 2 → output_state_of (λ writer. Some (writer ∷ [])) output ≡ record {
          taken = codes "x";
          unflushed = 1;
          failures = 2;
          written = Some (output.writer ∷ []);
        } }
    ensures unknown { (output : Output ℕ) → (output_state_of (λ _. None) output).written ≡ None }
{}

/// The writer failed at the reply to the second of two events: the first was written and flushed,
/// and then a part.
pub fn a_write_failed_at_a_reply()
    ensures written { (after : Snapshot ℕ)
        → RunEnded counter (snapshot 3 (codes "x") 1) (noop ∷ []) (noop ∷ []) []
        (Write (codes "20"))
        after
        → Appends (Some (codes "x")) after.output.written (codes "200 OK\r\n20") }
    ensures no_event { (part : Bytes) (after : Snapshot ℕ)
        → RunEnded counter (snapshot 3 (codes "x") 1) (noop ∷ []) [] [] (Write part) after → ⊥ }
{}

/// The handler failed at the event, with a fault that its law allows. Nothing was written.
pub fn the_handler_failed_at_an_event()
    ensures failed { (fault : Fault) (after : Snapshot ℕ)
        → RunEnded counter (snapshot 3 (codes "x") 1) [] (noop ∷ []) [] (Handler fault) after
        → (after.failures ≡ 1) × (after.output.failures ≡ 0) }
    ensures no_event { (fault : Fault) (after : Snapshot ℕ)
        → RunEnded counter (snapshot 3 (codes "x") 1) (noop ∷ []) [] [] (Handler fault) after → ⊥ }
{}

/// It stopped between the replies to one event: the first was written. `two_replies` answers 150
/// and then 226.
pub fn stopped_within_a_turn()
    ensures written { (fault : Fault) (after : Snapshot ℕ)
        → RunEnded two_replies (snapshot 0 [] 0) [] (noop ∷ []) ((CodeAndMsg 150 [], 1) ∷ [])
        (Handler fault) after
        → Appends (Some []) after.output.written (codes "150\r\n") }
    ensures all_sent { (part : Bytes) (after : Snapshot ℕ)
        → RunEnded two_replies (snapshot 0 [] 0) [] (noop ∷ [])
        ((CodeAndMsg 150 [], 1) ∷ (CodeAndMsg 226 [], 0) ∷ []) (Write part) after → ⊥ }
{}

/// Memory ran out for the command of a line, which the handler didn't take. It never does for no
/// reply.
pub fn memory_ran_out()
    ensures line { (after : Snapshot ℕ)
        → RunEnded counter (snapshot 3 (codes "x") 1) [] (Command (User (codes "a")) ∷ [])
        [] LineMemory after
        → (after.state ≡ 3) × Appends (Some (codes "x")) after.output.written []
        × (after.output.unflushed ≤ 1) }
    ensures no_reply { (after : Snapshot ℕ)
        → RunEnded silent (snapshot 3 (codes "x") 1) [] (noop ∷ []) [] ReplyMemory after → ⊥ }
{}

/// Memory ran out for the command of a line: it is the next line of the input, which may take some.
pub fn memory_ran_out_for_a_line()
    ensures a_field { RunFailed None counter (snapshot 3 (codes "x") 1) (codes "NOOP\r\nUSER a\r\n")
        (snapshot 4 (codes "x200 OK\r\n") 0) ServeError.OutOfMemory (noop ∷ []) }
    ensures no_field { (before after : Snapshot ℕ)
        (v : RunFailed None counter before (codes "NOOP\r\nUSER a\r\n") after
        ServeError.OutOfMemory []) → v.cause ≡ LineMemory → ⊥ }
{}

/// At one event it is never the memory for its line.
pub fn an_event_fails()
    ensures line { (before after : Snapshot ℕ) (error : ServeError)
        (v : EventFailed counter before noop after error) → v.cause ≡ LineMemory → ⊥ }
{}

/// What may be unflushed, and what a text begins with.
pub fn flushes_and_beginnings()
    ensures a_text { (unflushed : ℕ) → IsFlushed (codes "x") (codes "ab") 1 unflushed
        → unflushed ≤ 2 }
    ensures other_bytes { Begins (codes "ab") (codes "b") → ⊥ }
{}

/// How much an engine keeps of an incomplete line that is within the limit, and of one that is not.
pub fn an_engine_keeps_this()
    ensures at_the_limit { (fed counter 3 (waiting (Some 5)) (codes "OP") 0).buffered ≡ 4 }
    ensures over_the_limit { (fed counter 3 (waiting (Some 4)) (codes "OP") 0).buffered ≡ 0 }
{}

/// What is left after a piece: all its lines are answered, each byte was scanned once, and the
/// incomplete line is pending; or there was no room for it.
pub fn pieces_are_answered()
    ensures answered { (after : Snapshot ℕ) → PieceOutcome {T = ℕ} None counter
        (snapshot 3 (codes "x") 1) (codes "NOOP\r\nNO") ⊥ after (Ok 0) → after.state ≡ 4 }
    ensures without_room { PieceOutcome {T = ℕ} None counter (snapshot 3 [] 0) (codes "NO") ⊤
        (snapshot 3 [] 0) (Err ServeError.OutOfMemory) }
    ensures left { (after : Snapshot ℕ) (left : Bytes) → RunOutcome None counter (snapshot 3 [] 0)
        (codes "NOOP\r\nNO") after left (Ok false) → left ≡ codes "NO" }
    ensures goes_on { (after : Snapshot ℕ) (left : Bytes) → RunOutcome None counter (snapshot 3 [] 0)
        (codes "NOOP\r\nNO") after left (Ok true) → ⊥ }
    ensures fed { IsFed counter 3 (waiting (Some 5)) (codes "OP")
        (fed counter 3 (waiting (Some 5)) (codes "OP") 4) }
    ensures one_missed { ¬ IsFed counter 3 (waiting (Some 5)) (codes "OP")
        (fed counter 3 (waiting (Some 5)) (codes "OP") 3) }
    ensures one_twice { ¬ IsFed counter 3 (waiting (Some 5)) (codes "OP")
        (fed counter 3 (waiting (Some 5)) (codes "OP") 5) }
{}

/// There is no lack of memory for no piece, and no other error means one.
pub fn an_engine_fails()
    ensures no_piece { ¬ LacksPieceRoom (waiting (Some 5)) [] }
    ensures lacks { LacksPieceRoom (record (waiting (Some 5)) { held = 3; buffered = 2 }) (codes "OP") }
    ensures has_room { ¬ LacksPieceRoom (record (waiting (Some 5)) { held = 4; buffered = 2 }) (codes "OP") }
    ensures other_error { (before after : Snapshot ℕ)
        → NoRoom ServeError.WriteZero ⊤ before after → ⊥ }
{}

/// Which errors mean which cause.
pub fn errors_of_feed()
    ensures write_zero { (part : Bytes) → IsCauseOf (Write part) ServeError.WriteZero }
    ensures finished { IsCauseOf Finished ServeError.OutOfMemory → ⊥ }
    ensures stopped { IsCauseOf LineMemory ServeError.Stopped → ⊥ }
    // the clauses on a sink promise what they say at these errors
    ensures on_write { (error : _) → OnWrite {T = ℕ} (Err (ServeError.Write error)) ⊥ → ⊥ }
{}

/// What each error of a sending means: the writer failed, or nothing was written.
pub fn sendings_fail()
    ensures write { (before after : OutputState) (error : _)
        → Sends {T = ℕ} (Err (ServeError.Write error)) (codes "x") before after
        → after.failures ≡ before.failures + 1 }
    ensures memory { (before after : OutputState)
        → Sends {T = ℕ} (Err ServeError.OutOfMemory) (codes "x") before after → after ≡ before }
    ensures stopped { (before after : OutputState)
        → Sends {T = ℕ} (Err ServeError.Stopped) (codes "x") before after → ⊥ }
{}
