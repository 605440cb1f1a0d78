//! The replies to one event, and how a client cuts them apart.
#![tactic(auto, unfolding(unftp_control_defs::proofs::Computing::at_bytes))]

ghost use Rattle.std.specs.Prelude.{◌≡◌, Bool, true, false, if◌then◌else◌, [], ◌∷◌, Some, None, codes};
ghost use Rattle.unftp_control_defs.specs.Events.{FtpEvent, Command};
ghost use Rattle.unftp_control_defs.specs.FtpCommand.{Noop};
ghost use Rattle.unftp_control_defs.specs.FtpReply.{CodeAndMsg};
ghost use Rattle.unftp_control_defs.specs.Run.{SessionLaw, Follows, text_for, turn};
ghost use Rattle.unftp_control_defs.specs.Turns.{GivesExchanges, IsExchange, cut_after_final, is_preliminary};

/// A handler that answers 150 to each event, and then 226. Its state says whether the 226 is to
/// come.
pub fn turns_are_so()
    ensures { let law : SessionLaw Bool = record {
      says = λ _ _. CodeAndMsg 150 [];
      next = λ _ _. true;
      more = λ waits. if waits then (CodeAndMsg 226 [], false) ∷ [] else [];
      may_fail = λ _ _ _. ⊥;
      may_break = λ _ _. ⊥;
      done = λ _. false;
    } in
        let noop : FtpEvent = Command Noop in
        (turn law false noop ≡ (CodeAndMsg 150 [], true) ∷ (CodeAndMsg 226 [], false) ∷ [])
        × (text_for None law false (codes "NOOP\nNOOP\n") ≡ codes "150\r\n226\r\n150\r\n226\r\n")
        × Follows law true (Some (CodeAndMsg 226 [])) false
        × Follows law false None false
        × ¬ Follows law true None true
        × ¬ Follows law true (Some (CodeAndMsg 226 [])) true
        × ¬ Follows law false (Some (CodeAndMsg 226 [])) false
        × GivesExchanges law }
{}

/// 1yz is preliminary (RFC 959, section 4.2).
pub fn preliminary_codes()
    ensures least { is_preliminary 100 ≡ true }
    ensures greatest { is_preliminary 199 ≡ true }
    ensures below { is_preliminary 99 ≡ false }
    ensures above { is_preliminary 200 ≡ false }
{}

/// Some preliminary replies, and then a final one.
pub fn exchanges_are_so()
    ensures two { IsExchange (CodeAndMsg 199 [] ∷ CodeAndMsg 200 [] ∷ []) }
    ensures no_final { ¬ IsExchange (CodeAndMsg 150 [] ∷ []) }
    ensures two_final { ¬ IsExchange (CodeAndMsg 200 [] ∷ CodeAndMsg 200 [] ∷ []) }
    ensures final_first { ¬ IsExchange (CodeAndMsg 226 [] ∷ CodeAndMsg 150 [] ∷ []) }
{}

/// Replies are cut after each final one; the last part may lack it.
pub fn replies_are_cut_so()
    ensures two { cut_after_final (CodeAndMsg 150 [] ∷ CodeAndMsg 226 [] ∷ CodeAndMsg 200 [] ∷ [])
        ≡ (CodeAndMsg 150 [] ∷ CodeAndMsg 226 [] ∷ []) ∷ (CodeAndMsg 200 [] ∷ []) ∷ [] }
    ensures incomplete { cut_after_final (CodeAndMsg 226 [] ∷ CodeAndMsg 150 [] ∷ [])
        ≡ (CodeAndMsg 226 [] ∷ []) ∷ (CodeAndMsg 150 [] ∷ []) ∷ [] }
{}
