//! Snapshots worked out by hand: what the definitions of the clauses of `serve` say of them.
ghost use Rattle.std.specs.Prelude.{◌≡◌, ◌≤◌, ℕ, true, false, [], ◌∷◌, List, None, Some, codes};
ghost use Rattle.std.specs.List.{concat};
ghost use Rattle.std.specs.Io.KnownBytes.{Appends};
ghost use Rattle.unftp_control_defs.specs.Bytes.{Bytes};
ghost use Rattle.unftp_control_defs.specs.Events.{events};
ghost use Rattle.unftp_control_defs.specs.Input.{InputState};
ghost use Rattle.unftp_control_serve.specs.Endings.{Snapshot, RunFinished};
ghost use Rattle.unftp_control.specs.RunEnd.{EndsAfter, EndsNowhere};
ghost use Rattle.unftp_control.specs.Snapshots.{counter, counter_to_five, noop, snapshot, snapshot_of_any_writer};
ghost use Rattle.unftp_control_serve.specs.Service.{ServedInPieces, EndsInLast, EndedLate, NoRoomForPiece, ServeEnded, Serves, ServesKnown, most_held};
ghost use Rattle.unftp_control_serve.specs.Writing.{Begins};
ghost use Rattle.unftp_control_serve.specs.declared.service.Served.{Served};

use unftp_control_serve::ServeError;

/// Which errors `serve` returns, and what each one says.
pub fn errors_of_serve()
    ensures stopped { (before after : Snapshot ℕ) (input input_after : InputState)
        → ServeEnded None counter before after input input_after ServeError.Stopped → ⊥ }
    // the lines that were read before the last piece are answered
    ensures late { (before after : Snapshot ℕ) (input input_after : InputState) (error : ServeError)
        (v : EndedLate None counter before after input input_after error)
        → Begins v.done (events None (concat v.pieces)) }
    ensures no_room { (before after : Snapshot ℕ) (input input_after : InputState)
        (v : NoRoomForPiece None counter before after input input_after)
        → RunFinished counter before (events None (concat v.pieces)) after × (v.last ≡ [] → ⊥) }
    // a buffer that has held six bytes has room for five
    ensures had_room { (before after : Snapshot ℕ) (input input_after : InputState)
        (v : NoRoomForPiece None counter before after input input_after)
        → v.pieces ≡ codes "NOOP\r\n" ∷ [] → v.last ≡ codes "PWD\r\n" → ⊥ }
{}

/// An input without its last line feed that was served whole, of a reader and a writer whose
/// contracts know nothing, such as sockets. What was read and written is in their records, after
/// what was there before.
pub fn any_stream_is_served()
    ensures whole { (after : Snapshot ℕ) (input : InputState) (served : Served)
        → Serves None counter (snapshot_of_any_writer 3 (codes "x") 1) after
        (record { given = codes "PWD\n"; reads = 4 ∷ []; failures = 0; remaining = None }) input
        served
        → input.given ≡ codes "PWD\nNOOP\r\nNO"
        → (after.output.taken ≡ codes "x200 OK\r\n") × (after.output.unflushed ≡ 0)
        × (after.state ≡ 4) × (served.done ≡ false) × (served.left ≡ 2) × (served.tests ≡ 8) }
    ensures not_written { (after : Snapshot ℕ) (input : InputState) (served : Served)
        → Serves None counter (snapshot_of_any_writer 3 (codes "x") 1) after
        (record { given = []; reads = []; failures = 0; remaining = None }) input served
        → input.given ≡ codes "NOOP\r\n" → after.output.taken ≡ codes "x200 OK\r" → ⊥ }
    // at the reader's end the last read gave nothing
    ensures not_at_the_end { (before after : Snapshot ℕ) (input : InputState) (served : Served)
        → Serves None counter before after input input served
        → served.done ≡ false → input.reads ≡ 8 ∷ [] → ⊥ }
    // a read that gave nothing is the last one
    ensures read_no_more { (before after : Snapshot ℕ) (input input_after : InputState)
        (served : Served) → ServedInPieces None counter before after input input_after served
        → input.reads ≡ [] → input_after.reads ≡ 4 ∷ 0 ∷ 0 ∷ [] → ⊥ }
{}

/// Where a run ends: at the fifth event, and nowhere where there are fewer.
pub fn a_run_ends_so()
    ensures nowhere { EndsNowhere counter_to_five 3 (noop ∷ []) }
    ensures after { EndsAfter counter_to_five 3 (noop ∷ noop ∷ noop ∷ []) (noop ∷ []) noop }
    ensures not_before { EndsAfter counter_to_five 3 (noop ∷ noop ∷ noop ∷ []) [] noop → ⊥ }
    ensures not_later { EndsAfter counter_to_five 3 (noop ∷ noop ∷ noop ∷ []) (noop ∷ noop ∷ [])
        noop → ⊥ }
{}

/// A session that the handler ended, and some bytes after its end, of which two were not read.
pub fn a_session_is_ended()
    ensures whole { (after : Snapshot ℕ) (served : Served)
        → ServesKnown None counter_to_five (snapshot 4 (codes "x") 1) after (Some (codes "NO"))
        served (codes "NOOP\r\nNOOP\r\nNO")
        → Appends (Some (codes "x")) after.output.written (codes "200 OK\r\n")
        × (after.state ≡ 5) × (served.done ≡ true) × (served.left ≡ 6)
        × (6 ≤ served.tests) × (served.tests ≤ 14) }
    ensures going_on { (after : Snapshot ℕ) (input input_after : InputState) (served : Served)
        (all : ServedInPieces None counter_to_five (snapshot 4 (codes "x") 0) after input input_after
        served)
        → served.done ≡ true → all.pieces ≡ codes "NOOP" ∷ [] → ⊥ }
    ensures in_last { (after : Snapshot ℕ) (input input_after : InputState) (pieces : List Bytes)
        (v : EndsInLast None counter_to_five (snapshot 4 (codes "x") 0) after input input_after
        pieces)
        → v.first ≡ codes "NOOP" ∷ codes "\r\n" ∷ [] → ⊥ }
{}

/// What is held of pieces: of a line that is too long nothing is kept after its piece.
pub fn pieces_are_held_so()
    ensures limited { most_held (Some 6) [] (codes "NOOP" ∷ codes " XY" ∷ codes "Z\n" ∷ []) ≡ 7 }
{}
