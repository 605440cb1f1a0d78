//! The values of parameters.
#![tactic(auto, unfolding(unftp_control_defs::proofs::Computing::at_bytes))]

ghost use Rattle.std.specs.Prelude.{◌++◌, [], ◌∷◌, codes};
ghost use Rattle.unftp_control_defs.specs.Values.{Reads, HasNoValue};

/// The parameters that each rule reads.
pub fn parameters_have_values()
    ensures crlf_before_more { Reads (codes "ab\r\nx") (codes "ab") }
    ensures cr_nul_first { Reads (13 ∷ 0 ∷ codes "b\r\n") (codes "\rb") }
    ensures cr_nul_later { Reads (codes "a\r" ++ 0 ∷ codes "b\r\n") (codes "a\rb") }
    ensures bare_cr_first { Reads (codes "\rX\n") (codes "\rX") }
    ensures crlf_first { Reads (codes "\r\nx\n") (codes "\r\nx") }
    ensures lf_after_the_first { Reads (codes "a\n\r\n") (codes "a\n") }
    ensures cut_short { ¬ Reads (codes "ab\r\n") (codes "a") }
    ensures cr_kept { ¬ Reads (codes "ab\r\n") (codes "ab\r") }
    ensures nul_kept { ¬ Reads (codes "a\r" ++ 0 ∷ codes "\r\n") (codes "a\r" ++ 0 ∷ []) }
    ensures no_end { ¬ Reads (codes "a") (codes "a") }
{}

/// An invalid line ending is one that no rule reads.
pub fn line_endings_are_invalid()
    ensures bare_cr { HasNoValue (codes "a\rb\r\n") }
    ensures lf_after_cr_nul { HasNoValue (codes "x\r" ++ 0 ∷ codes "\n") }
    ensures empty { ¬ HasNoValue [] }
    ensures crlf { ¬ HasNoValue (codes "ab\r\n") }
{}
