//! Ill-formed UTF-8 in a text.
#![tactic(auto, unfolding(unftp_control_defs::proofs::Computing::at_bytes))]

ghost use Rattle.std.specs.Prelude.{[], ◌∷◌, codes};
ghost use Rattle.unftp_control_defs.specs.LossyText.{LossyText};

/// Texts in which U+FFFD, EF BF BD, replaces each ill-formed part.
pub fn ill_formed_parts_are_replaced()
    ensures empty { LossyText [] [] }
    ensures parts { LossyText (0xFF ∷ 0xE2 ∷ 0x82 ∷ codes "b")
        (0xEF ∷ 0xBF ∷ 0xBD ∷ 0xEF ∷ 0xBF ∷ 0xBD ∷ codes "b") }
    ensures overlong_kept { ¬ LossyText (0xC1 ∷ 0x80 ∷ []) (0xC1 ∷ 0x80 ∷ []) }
    ensures byte_dropped { ¬ LossyText (0xFF ∷ []) [] }
    ensures text_added { ¬ LossyText [] (codes "a") }
{}
