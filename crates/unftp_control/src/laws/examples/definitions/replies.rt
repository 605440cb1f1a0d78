//! Replies: their bytes, what a client sees of them, and which of them it can read back.
#![tactic(auto, unfolding(unftp_control_defs::proofs::Computing::at_bytes))]

ghost use Rattle.std.specs.Prelude.{◌≡◌, ◌++◌, [], ◌∷◌, true, false, Some, codes};
ghost use Rattle.unftp_control_defs.specs.Events.{IllegalState, IoError, ParseError};
ghost use Rattle.unftp_control_defs.specs.FtpReply.{Nothing, CodeAndMsg, MultiLine, HasThreeDigits, IsPlain, encoded, is_positive, padded, reply_as_read};
ghost use Rattle.unftp_control_defs.specs.Texts.{error_text, kind_text};

/// A line that begins with a digit gets a space.
pub fn lines_are_padded_so()
    ensures greatest { padded (codes "9a") ≡ codes " 9a" }
    ensures above_the_digits { padded (codes ":0") ≡ codes ":0" }
{}

/// A reply without a text.
pub fn replies_are_encoded_so()
    ensures empty_text { encoded (CodeAndMsg 200 []) ≡ codes "200\r\n" }
{}

/// The example of RFC 959, section 4.2.
pub fn the_reply_of_the_rfc_is_encoded_so()
    ensures { encoded (MultiLine 123 (codes "First line" ∷ codes "Second line"
        ∷ codes "  234 A line beginning with numbers" ∷ codes "The last line" ∷ []))
        ≡ codes "123-First line\r\nSecond line\r\n  234 A line beginning with numbers\r\n"
        ++ codes "123 The last line\r\n" }
{}

/// What a client sees.
pub fn replies_are_shown_so()
    ensures no_lines { reply_as_read (MultiLine 200 []) ≡ Some (200, [] ∷ []) }
    ensures other_lines { reply_as_read (MultiLine 211 (codes "1a" ∷ codes "2b" ∷ codes "3c" ∷ []))
        ≡ Some (211, codes " 1a" ∷ codes " 2b" ∷ codes "3c" ∷ []) }
{}

/// The codes 200 to 399, and no reply (RFC 959, section 4.2.1).
pub fn replies_are_positive_so()
    ensures below { is_positive (CodeAndMsg 199 []) ≡ false }
    ensures least { is_positive (CodeAndMsg 200 []) ≡ true }
    ensures lines_greatest { is_positive (MultiLine 399 []) ≡ true }
    ensures lines_above { is_positive (MultiLine 400 []) ≡ false }
{}

/// Codes of three digits.
pub fn codes_have_three_digits()
    ensures below { ¬ HasThreeDigits 99 }
    ensures least { HasThreeDigits 100 }
    ensures greatest { HasThreeDigits 999 }
    ensures above { ¬ HasThreeDigits 1000 }
{}

/// Which replies a client can read back.
pub fn plain_replies_are_so()
    ensures nothing { IsPlain Nothing }
    ensures lines { IsPlain (MultiLine 211 (codes "211 x" ∷ [] ∷ [])) }
    ensures two_digits { ¬ IsPlain (CodeAndMsg 99 []) }
    ensures line_feed { ¬ IsPlain (CodeAndMsg 200 (codes "a\nb")) }
    ensures line_feed_in_a_line { ¬ IsPlain (MultiLine 211 (codes "a" ∷ codes "b\n" ∷ [])) }
{}

/// What errors print.
pub fn errors_have_these_texts()
    ensures io { kind_text IoError ≡ codes "Failed to perform IO" }
    ensures parse { kind_text ParseError ≡ codes "Failed to parse command" }
    ensures whole { error_text IllegalState
        ≡ codes "control channel error: Control channel in illegal state" }
{}
