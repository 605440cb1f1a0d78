//! Events, runs of a handler, inputs in pieces.
#![tactic(auto, unfolding(unftp_control_defs::proofs::Computing::at_bytes))]

ghost use Rattle.std.specs.Prelude.{◌≡◌, ◌+◌, ◌==◌, ℕ, true, false, [], ◌∷◌, ◌++◌, Some, None, codes};
ghost use Rattle.unftp_control_defs.specs.Events.{FtpEvent, Command, Refused, events, refusal_fault, line_too_long, event_for};
ghost use Rattle.unftp_control_defs.specs.FtpCommand.{Noop, Pwd, Quit, InvalidCommand as NoCommand, InvalidUtf8};
ghost use Rattle.unftp_control_defs.specs.FtpReply.{CodeAndMsg};
ghost use Rattle.unftp_control_defs.specs.Run.{SessionLaw, as_session, run_of, ends, text_for, unread, after_end};
ghost use Rattle.unftp_control_defs.specs.Pieces.{events_in_turn, events_in_turn, replies_in_turn};
ghost use Rattle.unftp_control_defs.specs.TakingSteps.{TakesEvent};

/// One event for each complete line, in order.
pub fn lines_are_events()
    ensures some { events None (codes "PWD\r\nNOOP x\n" ++ 255 ∷ codes "\nNOOP\r\n")
        ≡ Command Pwd ∷ Refused (refusal_fault NoCommand) ∷ Refused (refusal_fault InvalidUtf8)
        ∷ Command Noop ∷ [] }
{}

/// A line with more bytes than the limit, its line feed counted, is refused, whatever it holds, and
/// no other line.
pub fn long_lines_are_refused()
    ensures at_the_limit { event_for (Some 6) (codes "NOOP\r\n") ≡ Command Noop }
    ensures over_the_limit { event_for (Some 5) (codes "NOOP\r\n")
        ≡ Refused line_too_long }
{}

/// Pieces give the events of their input, however it is split.
pub fn pieces_have_events()
    ensures rest_first { events_in_turn None (codes "NO") (codes "OP\n" ∷ []) ≡ Command Noop ∷ [] }
{}

/// A handler that puts the count of its events into the code of its reply, and is done once there
/// are two. It is not asked before the first event.
pub fn runs_end_so()
    ensures { let law : SessionLaw ℕ = as_session (record {
      says = λ count _. CodeAndMsg (200 + count) [];
      next = λ count _. count + 1;
      may_fail = λ _ _ _. ⊥;
      done = λ count. count == 2;
    }) in
        let noop : FtpEvent = Command Noop in
        (run_of law 0 (noop ∷ noop ∷ noop ∷ []) ≡ noop ∷ noop ∷ [])
        × (run_of law 2 (noop ∷ noop ∷ []) ≡ noop ∷ noop ∷ [])
        × (ends law 0 (noop ∷ []) ≡ false)
        × (ends law 0 (noop ∷ noop ∷ []) ≡ true)
        × (ends law 0 (noop ∷ noop ∷ noop ∷ []) ≡ true)
        × (ends law 2 (noop ∷ noop ∷ []) ≡ false)
        × (text_for None law 0 (codes "NOOP\r\nNOOP\nNOOP\n") ≡ codes "200\r\n201\r\n")
        × (unread None law 0 (codes "NOOP\nNOOP\nNOOP\nNO") ≡ codes "NOOP\nNO")
        × (unread None law 0 (codes "NOOP\nNO") ≡ codes "NO")
        × (after_end None law 0 (codes "NOOP\nNOOP\nNO") ≡ codes "NO")
        × (after_end None law 0 (codes "NOOP\nNO") ≡ [])
        × (replies_in_turn None law 0 []
        (codes "NO" ∷ codes "OP\nNOOP\nNO" ∷ codes "OP\n" ∷ [])
        ≡ CodeAndMsg 200 [] ∷ CodeAndMsg 201 [] ∷ []) }
{}

/// Which event the first line of pending bytes is, and which bytes are pending after it.
pub fn events_are_taken_so()
    ensures first { TakesEvent None (codes "NOOP\nNO") (Command Noop) (codes "NO") }
    ensures other_event { ¬ TakesEvent None (codes "NOOP\nNO") (Command Quit) (codes "NO") }
    ensures byte_left_out { ¬ TakesEvent None (codes "NOOP\nNO") (Command Noop) (codes "O") }
    ensures no_line { ¬ TakesEvent None (codes "NOOP") (Command Noop) [] }
{}
