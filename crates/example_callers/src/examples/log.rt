//! Examples of the definitions, worked out by hand: what they say at the boundary, and next to it.
#![tactic(auto, unfolding(unftp_control_defs::proofs::Computing::at_bytes))]

ghost use Rattle.std.specs.Prelude.{◌≡◌, ◌+◌, [], ◌∷◌, None, Some, codes};
ghost use Rattle.unftp_control_defs.specs.Input.{InputState};
ghost use Rattle.unftp_control_defs.specs.Lines.{lines_of};
ghost use Rattle.unftp_control_serve.specs.Writing.{OutputState, appended_output};
ghost use Rattle.unftp_control_message.specs.ErrorParts.{KindAndSource};
ghost use Rattle.example_callers.specs.Log.{LogEnded, LogsAll, StopsAt, StopsInLast, log_entry, log_of};

use unftp_control_serve::ServeError;

/// Each complete line has its log line and a line feed, one that is too long too.
pub fn entries_are_written()
    ensures too_long { log_entry (Some 5) (codes "NOOP\r\n") ≡ codes "refused: Line too long\n" }
    ensures no_line_end { log_entry None (codes "NOOP\r\n") ≡ codes "NOOP" → ⊥ }
    ensures in_order { log_of None (codes "NOOP\r\n" ∷ codes "PASS a\r\n" ∷ [])
        ≡ codes "NOOP\nPASS ***\n" }
    ensures incomplete { log_of None (lines_of (codes "NO")) ≡ [] }
    ensures line_feed { log_of None (lines_of (codes "NO\n")) ≡ [] → ⊥ }
{}

/// A log stops at a line that is not logged: nothing of it is written when out of memory, and the
/// writer failed once more where that is the error.
pub fn a_log_stops_so()
    ensures memory { StopsAt None (codes "NOOP\r\n" ∷ []) (appended_output (codes "x"))
        (appended_output (codes "x")) ServeError.OutOfMemory }
    ensures all_logged { (before after : OutputState) (error : ServeError)
        (v : StopsAt None (codes "NOOP\r\n" ∷ []) before after error)
        → v.logged ≡ codes "NOOP\r\n" ∷ [] → ⊥ }
    ensures no_write_failed { (lines : _) (before after : OutputState)
        → StopsAt None lines before after ServeError.WriteZero
        → after.failures ≡ before.failures → ⊥ }
    ensures read { (lines : _) (before after : OutputState) (error : _)
        → StopsAt None lines before after (ServeError.Read error) → ⊥ }
{}

/// At the end all complete lines are logged, and the last read gave nothing.
pub fn all_is_logged()
    ensures whole { LogsAll None (appended_output (codes "x")) (appended_output (codes "xNOOP\n"))
        (record { given = []; reads = []; failures = 2; remaining = None })
        (record { given = codes "NOOP\r\nNO"; reads = 8 ∷ 0 ∷ []; failures = 2; remaining = None })
        (0 ∷ []) 0 }
    ensures line_left { (after : OutputState) (input input_after : InputState)
        (v : LogsAll None (appended_output (codes "x")) after input input_after (0 ∷ []) 0)
        → v.pieces ≡ codes "NOOP\r\nNO" ∷ [] → after.taken ≡ codes "x" → ⊥ }
    ensures not_to_the_end { (before after : OutputState) (input input_after : InputState)
        (v : LogsAll None before after input input_after (0 ∷ []) 0)
        → v.pieces ≡ codes "NOOP" ∷ [] → input.reads ≡ [] → input_after.reads ≡ 4 ∷ [] → ⊥ }
{}

/// An error comes in the last piece, which is not empty, and after the lines of those before it.
pub fn errors_come_in_time()
    ensures no_room { StopsInLast None (appended_output (codes "x")) (appended_output (codes "x"))
        (record { given = []; reads = []; failures = 2; remaining = None })
        (record { given = codes "NO"; reads = 2 ∷ []; failures = 2; remaining = None })
        ServeError.OutOfMemory }
    ensures room_for_nothing { (before after : OutputState) (input input_after : InputState)
        (v : StopsInLast None before after input input_after ServeError.OutOfMemory)
        → v.pieces ≡ [] → v.last ≡ [] → ⊥ }
    ensures too_late { (after : OutputState) (input input_after : InputState) (error : ServeError)
        (v : StopsInLast None (appended_output (codes "x")) after input input_after error)
        → v.pieces ≡ codes "NOOP\r\nNO" ∷ [] → v.between.taken ≡ codes "x" → ⊥ }
{}

/// Which errors `log_lines` returns: a read failed once more where that is the error, and else none
/// did.
pub fn errors_of_a_log()
    ensures read { (error : _) → LogEnded None (appended_output []) (appended_output [])
        (record { given = []; reads = []; failures = 2; remaining = None })
        (record { given = []; reads = []; failures = 3; remaining = None })
        (ServeError.Read error) }
    ensures no_read_failed { (before after : OutputState) (input input_after : InputState)
        (error : _) → LogEnded None before after input input_after (ServeError.Read error)
        → input_after.failures ≡ input.failures → ⊥ }
    ensures read_failed { (before after : OutputState) (input input_after : InputState)
        → LogEnded None before after input input_after ServeError.WriteZero
        → input_after.failures ≡ input.failures + 1 → ⊥ }
    ensures too_soon { (before after : OutputState) (input input_after : InputState)
        (v : LogEnded None before after input input_after ServeError.TooManyReads)
        → v.0.pieces ≡ codes "NO" ∷ [] → ⊥ }
    ensures handler { (before after : OutputState) (input input_after : InputState)
        (error : KindAndSource)
        → LogEnded None before after input input_after (ServeError.Handler error) → ⊥ }
    ensures stopped { (before after : OutputState) (input input_after : InputState)
        → LogEnded None before after input input_after ServeError.Stopped → ⊥ }
{}
