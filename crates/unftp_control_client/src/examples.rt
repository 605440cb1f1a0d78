//! Examples of what a proxy may do over its dialogue with a server.
#![tactic(auto, unfolding(unftp_control_defs::proofs::Computing::at_bytes))]

ghost use Rattle.std.specs.Prelude.{◌≡◌, ◌∷◌, ℕ, List, [], Some, codes};
ghost use Rattle.unftp_control_defs.specs.Bytes.{Bytes};
ghost use Rattle.unftp_control_client.specs.Dialogue.{new_dialogue};
ghost use Rattle.unftp_control_client.specs.ForwardingSteps.{Forwarded, IsForwardingStep, Passed};
ghost use Rattle.unftp_control_client.specs.declared.dialogue.Dialogue.{Dialogue as RustDialogue};
ghost use Rattle.unftp_control_client.specs.declared.dialogue.To.TheVariants.{Command, Greeting, Nothing};
ghost use Rattle.unftp_control_client.specs.Order.{Answers, OrderCall, Passes, Sends, Takes, after_calls, finals_owed, given_by, lines_taken, new_order};

/// It forwards a line at any time, and passes on a reply that is owed.
pub fn these_are_forwarding_steps()
    ensures forwarded { IsForwardingStep new_dialogue (Forwarded (codes "NOOP\r\n"))
        (record new_dialogue { sent = 1 }) }
    ensures not_noted { ¬ IsForwardingStep new_dialogue
        (Forwarded (codes "NOOP\r\n")) new_dialogue }
    ensures passed { IsForwardingStep new_dialogue
        (Passed (record { to = Greeting; reply = (220, []) }))
        (record new_dialogue { answered = Some 0 }) }
    ensures unasked { (before after : RustDialogue) (reply : ℕ × List Bytes)
        → ¬ IsForwardingStep before (Passed (record { to = Nothing; reply = reply })) after }
{}

/// Calls out of turn are refused: an answer before the greeting, a second one to the same line, a
/// line that is taken beside another, an answer while a reply is owed, and a line after AUTH TLS.
pub fn calls_out_of_turn_are_refused()
    ensures given { given_by 0 new_order
        (Takes ∷ Answers (502, []) ∷ Passes (220, []) ∷ Answers (502, []) ∷ Answers (504, [])
        ∷ Takes ∷ Takes ∷ Sends (codes "NOOP\r\n") ∷ Takes ∷ Answers (500, []) ∷ Passes (200, [])
        ∷ Answers (500, []) ∷ Passes (421, []) ∷ [])
        ≡ record { to = Greeting; reply = (220, []) }
        ∷ record { to = Command 0; reply = (502, []) }
        ∷ record { to = Command 1; reply = (200, []) }
        ∷ record { to = Command 2; reply = (500, []) } ∷ [] }
    ensures taken { lines_taken new_order (Takes ∷ Takes ∷ Sends (codes "NOOP\r\n") ∷ Takes
        ∷ Sends (codes "SYST\r\n") ∷ Sends (codes "PWD\r\n") ∷ []) ≡ 3 }
    ensures tls { lines_taken new_order (Takes ∷ Sends (codes "AUTH TLS\r\n") ∷ Takes ∷ []) ≡ 1 }
    ensures owed { finals_owed (after_calls new_order (Takes ∷ Sends (codes "NOOP\r\n") ∷ Takes ∷ []))
        ≡ 3 }
{}
