//! Replies as a client reads them.
#![tactic(auto, unfolding(unftp_control_defs::proofs::Computing::at_bytes))]

ghost use Rattle.std.specs.Prelude.{◌≡◌, ℕ, List, [], ◌∷◌, ◌++◌, None, Some, codes};
ghost use Rattle.unftp_control_defs.specs.Buffer.{held_after_piece};
ghost use Rattle.unftp_control_defs.specs.Bytes.{Bytes};
ghost use Rattle.unftp_control_defs.specs.FtpReply.{Nothing, CodeAndMsg};
ghost use Rattle.unftp_control_defs.specs.Input.{InputState};
ghost use Rattle.unftp_control_defs.specs.ReplyLimit.{IsTooLongReply};
ghost use Rattle.unftp_control_defs.specs.ReplyReader.{LacksCrlf, SpellsCode, GoesOn, FrontReply, HasFront, Opens, IsMalformed, IsPartial, AllReplies, ReadsBack};
ghost use Rattle.unftp_control_defs.specs.TakingSteps.{TakesReply, AreReplies, Pushed, Taken, AreTakingSteps};
ghost use Rattle.unftp_control_serve.specs.Service.{AreReadBack};
ghost use Rattle.unftp_control.specs.Snapshots.{counter};

/// Where a text has no CR LF.
pub fn texts_lack_crlf()
    ensures lf_before_cr { LacksCrlf (codes "\n\r") }
    ensures two_crs { LacksCrlf (codes "\r\ra\n") }
    ensures crlf { ¬ LacksCrlf (codes "\r\n") }
    ensures within { ¬ LacksCrlf (codes "a\r\r\nb") }
{}

/// A code is three digits.
pub fn codes_are_spelled_so()
    ensures each_place { SpellsCode (codes "421") 421 }
    ensures other_code { ¬ SpellsCode (codes "421") 124 }
    ensures two { ¬ SpellsCode (codes "42") 42 }
    ensures four { ¬ SpellsCode (codes "4210") 4210 }
    ensures above_the_digits { ¬ SpellsCode (codes "42:") 430 }
{}

/// A reply of several lines ends at a line that begins with its code and a space.
pub fn lines_go_on_so()
    ensures dash { GoesOn (codes "211") (codes "211-x") }
    ensures other_code { GoesOn (codes "211") (codes "212 x") }
    ensures text { ¬ GoesOn (codes "211") (codes "211 x") }
    ensures no_text { ¬ GoesOn (codes "211") (codes "211 ") }
{}

/// The first line of a reply: three digits, and then nothing, a space or a dash.
pub fn lines_open_replies()
    ensures code_only { Opens (codes "211") }
    ensures dash { Opens (codes "211-x") }
    ensures letter { ¬ Opens (codes "211x") }
    ensures four_digits { ¬ Opens (codes "2111 x") }
    ensures two_digits { ¬ Opens (codes "21") }
{}

/// The reply at the start of the bytes; `standard` is the example of RFC 959, section 4.2.
pub fn replies_are_read_so()
    ensures standard { FrontReply
        (codes "123-First line\r\nSecond line\r\n  234 A line beginning with numbers\r\n"
        ++ codes "123 The last line\r\n220 x\r\n")
        123 (codes "First line" ∷ codes "Second line" ∷ codes "  234 A line beginning with numbers"
        ∷ codes "The last line" ∷ []) 85 }
    ensures codes_first { FrontReply (codes "211-a\r\n212 b\r\n211\r\n211-c\r\n211 d\r\n")
        211 (codes "a" ∷ codes "212 b" ∷ codes "211" ∷ codes "211-c" ∷ codes "d" ∷ []) 33 }
    ensures bare_cr_and_lf { FrontReply (codes "211 a\rb\nc\r\n") 211 (codes "a\rb\nc" ∷ []) 11 }
{}

/// What is not the reply at the start of the bytes.
pub fn replies_are_not_read_so()
    ensures other_code { ¬ FrontReply (codes "211 a\r\n") 212 (codes "a" ∷ []) 7 }
    ensures line_end_left { ¬ FrontReply (codes "211 a\r\n") 211 (codes "a" ∷ []) 5 }
    ensures line_end_in_the_text { ¬ FrontReply (codes "211 a\r\n211 b\r\n") 211
        (codes "a\r\n211 b" ∷ []) 14 }
    ensures past_the_last_line { ¬ FrontReply (codes "211-a\r\n211 b\r\n211 c\r\n") 211
        (codes "a" ∷ codes "211 b" ∷ codes "c" ∷ []) 21 }
    ensures no_last_line { ¬ HasFront (codes "211-a\r\n212 b\r\n211\r\n") }
    ensures no_code { ¬ HasFront (codes "21 a\r\n") }
{}

/// A reply that is not complete.
pub fn replies_are_partial_so()
    ensures no_line_end { IsPartial (codes "211 a\r") }
    ensures letters { IsPartial (codes "a") }
    ensures no_last_line { IsPartial (codes "211-a\r\n212 b\r\n211\r\n") }
    ensures text { ¬ IsPartial (codes "211 a\r\n") }
    ensures last_line { ¬ IsPartial (codes "211-a\r\n211 b\r\n") }
    ensures no_code { ¬ IsPartial (codes "x\r\n") }
{}

/// A first line that opens no reply.
pub fn replies_are_malformed_so()
    ensures two_digits { IsMalformed (codes "21 a\r\n") }
    ensures four_digits { IsMalformed (codes "2111 a\r\n211 a\r\n") }
    ensures no_line_end { ¬ IsMalformed (codes "x") }
    ensures code_only { ¬ IsMalformed (codes "211\r\n") }
    ensures no_last_line { ¬ IsMalformed (codes "211-a\r\nx\r\n") }
{}

/// A reply is too long where it has more bytes than the limit, its line ends counted, and a part of
/// one where it has at least as many.
pub fn replies_are_too_long_so()
    ensures text { IsTooLongReply (Some 6) (codes "211 a\r\n") }
    ensures text_at_the_limit { ¬ IsTooLongReply (Some 7) (codes "211 a\r\n") }
    ensures next_reply_past_the_limit { ¬ IsTooLongReply (Some 8) (codes "211 a\r\n22") }
    ensures part_at_the_limit { IsTooLongReply (Some 6) (codes "211 a\r") }
    ensures part_below_the_limit { ¬ IsTooLongReply (Some 7) (codes "211 a\r") }
    ensures several { IsTooLongReply (Some 13) (codes "211-a\r\n211 b\r\n") }
    ensures several_at_the_limit { ¬ IsTooLongReply (Some 14) (codes "211-a\r\n211 b\r\n") }
    ensures malformed { IsTooLongReply (Some 5) (codes "21 a\r\n") }
    ensures malformed_at_the_limit { ¬ IsTooLongReply (Some 6) (codes "21 a\r\n") }
    ensures no_limit { ¬ IsTooLongReply None (codes "211 a\r") }
{}

/// Which bytes are read as what these replies show, and as nothing else.
pub fn replies_are_read_back_so()
    ensures nothing { ReadsBack [] (Nothing ∷ []) }
    ensures two { ReadsBack (codes "200 a\r\n221\r\n")
        (CodeAndMsg 200 (codes "a") ∷ Nothing ∷ CodeAndMsg 221 [] ∷ []) }
    ensures not_written { ¬ ReadsBack [] (CodeAndMsg 200 [] ∷ []) }
    ensures other_text { ¬ ReadsBack (codes "200 a\r\n") (CodeAndMsg 200 (codes "ab") ∷ []) }
    ensures second_left_out { ¬ ReadsBack (codes "200 a\r\n221\r\n")
        (CodeAndMsg 200 (codes "a") ∷ []) }
    ensures line_end_in_the_text { ¬ ReadsBack (codes "200 a\r\n221\r\n")
        (CodeAndMsg 200 (codes "a\r\n221") ∷ []) }
    ensures four_digits { ¬ ReadsBack (codes "1000\r\n") (CodeAndMsg 1000 [] ∷ []) }
    ensures all_but_one { ¬ AllReplies (codes "200 a\r\n221\r\n") ((200, codes "a" ∷ []) ∷ []) }
{}

/// What a client reads of the reply to a NOOP, over streams whose contracts know nothing.
pub fn a_reply_is_read_so()
    ensures holds { AreReadBack None counter 3
        (record { given = []; reads = []; failures = 0; remaining = None })
        (record { given = codes "NOOP\r\n"; reads = 6 ∷ []; failures = 0; remaining = None }) }
    ensures only { (before after : InputState) → AreReadBack None counter 3 before after
        → before.given ≡ [] → after.given ≡ codes "NOOP\r\n"
        → (others : List (ℕ × List Bytes)) → AllReplies (codes "200 OK\r\n") others
        → others ≡ (200, codes "OK" ∷ []) ∷ [] }
    // what the reads gave before is not taken back
    ensures not_of_less { (before after : InputState) → AreReadBack None counter 3 before after
        → before.given ≡ codes "N" → after.given ≡ [] → ⊥ }
{}

/// Which bytes are these replies and then others.
pub fn replies_follow_one_another_so()
    ensures first { TakesReply (codes "211 a\r\n22") (211, codes "a" ∷ []) (codes "22") }
    ensures byte_left_out { ¬ TakesReply (codes "211 a\r\n22") (211, codes "a" ∷ []) (codes "2") }
    ensures one { AreReplies (codes "211 a\r\n22") ((211, codes "a" ∷ []) ∷ []) (codes "22") }
    ensures reply_left_out { ¬ AreReplies (codes "211 a\r\n22") [] (codes "22") }
{}

/// Which steps of a client lead from no bytes to these.
pub fn replies_are_taken_so()
    ensures two_pieces { AreTakingSteps TakesReply []
        (Pushed (codes "211 a\r") ∷ Pushed (codes "\n22") ∷ Taken (211, codes "a" ∷ []) ∷ [])
        (codes "22") }
    ensures not_complete { ¬ AreTakingSteps TakesReply []
        (Pushed (codes "211 a\r") ∷ Taken (211, codes "a" ∷ []) ∷ Pushed (codes "\n22") ∷ [])
        (codes "22") }
    ensures piece_forgotten { ¬ AreTakingSteps TakesReply [] (Pushed (codes "22") ∷ []) [] }
{}

/// How many bytes a buffer holds after a piece: those that were taken leave it only where they are
/// more than what is pending then.
pub fn a_buffer_holds_this_after_a_piece()
    ensures as_many_taken { held_after_piece 10 4 2 ≡ 12 }
    ensures more_taken { held_after_piece 11 4 2 ≡ 6 }
{}
