//! Examples of the definitions, worked out by hand: what calls leave, at the boundary.
#![tactic(auto, unfolding(unftp_control_defs::proofs::Computing::at_bytes))]

ghost use Rattle.std.specs.Prelude.{◌≡◌, [], ◌∷◌, ◌++◌, Ok, Err, codes};
ghost use Rattle.unftp_control_defs.specs.FtpCommand.{number};
ghost use Rattle.unftp_control_defs.specs.FtpReply.{CodeAndMsg, MultiLine};
ghost use Rattle.unftp_control_defs.specs.declared.verb.Verb.TheVariants as verb;
ghost use Rattle.unftp_control_commands.specs.Areas.{HasText};
ghost use Rattle.unftp_control_c.specs.CanonicalLines.{CanonicalMayTakeMemory, IsCanonical};
ghost use Rattle.unftp_control_c.specs.ForwardedLines.{ForwardsTo, IsForwardedLine, IsWritable, forwarded_text};
ghost use Rattle.unftp_control_c.specs.declared.forwarding.Forwarded.TheVariants.{Typed};
ghost use Rattle.unftp_control_message.specs.declared.parts.Value.TheVariants as read;
ghost use Rattle.unftp_control_c.specs.Next.{AreTexts, HasTexts, Leaves, LineMayTakeMemory, next_of, scans, value_place};
ghost use Rattle.unftp_control_c.specs.Rows.{a_call, leaving};
ghost use Rattle.unftp_control_c.specs.Replies.{IsFoundText, found_text, reply_bytes, text_lines, text_reply};
ghost use Rattle.unftp_control_c.specs.declared.status.Status.TheVariants.{InvalidCommand, InvalidEol, Malformed, More, NoLine, OutOfMemory, UnknownCode};

pub mod addresses;
pub mod calls;
pub mod files;
pub mod parameters;
pub mod replies;
pub mod sessions;
pub mod usual;

/// Complete lines. `a_call` has the pending bytes, the offset, whether bytes were dropped, the
/// limit and the area; `leaving` the result, how many bytes are used, the offset, whether bytes
/// were dropped, the limit, the area with the lengths of the name and the value, and where the
/// value is.
pub fn lines_are_taken()
    // of a limit of 8 bytes, the line has 8; the value stays there
    ensures command { next_of (a_call (codes "RETR a\r\nQ") 0 0 8 [])
        ≡ leaving 14 8 0 0 8 [] 0 1 5 }
    ensures too_long { next_of (a_call (codes "RETR a\r\nQ") 0 0 7 (codes "."))
        ≡ leaving 105 8 0 0 7 (codes ".") 0 0 0 }
    // the name is written in upper case, in an area that has a byte more
    ensures name { next_of (a_call (codes "lang d\n") 0 0 0 (codes "....."))
        ≡ leaving 44 7 0 0 0 (codes "LANG.") 4 1 5 }
    // and so is a value that the line has in another form, in an area that has one less
    ensures value { next_of (a_call (codes "auth tls\n") 0 0 0 (codes "...."))
        ≡ leaving 35 9 0 0 0 (codes "TLS.") 0 3 0 }
    ensures no_room { next_of (a_call (codes "auth tls\n") 3 0 0 (codes ".."))
        ≡ leaving 107 0 3 0 0 (codes "..") 0 3 0 }
{}

/// Where a line has a value as it is: at its end, and not elsewhere in it.
pub fn values_have_places()
    ensures end { value_place (codes "REST +7\r\n") (codes "7") ≡ 6 }
    ensures middle { value_place (codes "REST 07\r\n") (codes "0") ≡ 0 }
    ensures bare_line_feed { value_place (codes "RETR a\n") (codes "a") ≡ 5 }
    ensures of_the_end { value_place (codes "RETR a\r\n") (codes "a\r") ≡ 0 }
    ensures whole_line { value_place (codes "a\n") (codes "a") ≡ 0 }
    ensures longer { value_place (codes "a\n") (codes "aa") ≡ 0 }
    ensures none { value_place (codes "NOOP\r\n") [] ≡ 0 }
{}

/// What is given as text, and as the bytes that were sent.
pub fn some_values_are_texts()
    ensures any_bytes { AreTexts (number verb.Stat) [] (255 ∷ []) }
    ensures text { AreTexts (number verb.Retr) (codes "A") (codes "a") }
    ensures ill_formed_value { ¬ AreTexts (number verb.Retr) [] (255 ∷ []) }
    ensures ill_formed_name { ¬ AreTexts (number verb.Stat) (255 ∷ []) [] }
    ensures no_command { HasTexts (codes "a") (leaving 101 0 1 0 0 [] 0 0 0) }
{}

/// Incomplete lines, and what is no call.
pub fn bytes_are_kept()
    ensures incomplete { next_of (a_call (codes "NOOP") 2 0 5 []) ≡ leaving 101 0 4 0 5 [] 0 0 0 }
    ensures too_long_already { next_of (a_call (codes "NOOP") 2 0 4 [])
        ≡ leaving 101 4 0 1 4 [] 0 0 0 }
    ensures offset_past_the_end { next_of (a_call (codes "\n") 2 0 0 [])
        ≡ leaving 111 0 2 0 0 [] 0 0 0 }
    ensures skipping_past_the_start { next_of (a_call (codes "a\n") 1 1 0 [])
        ≡ leaving 111 0 1 1 0 [] 0 0 0 }
{}

/// What a call leaves: what `next_of` says, or where memory may run out, nothing but that it has.
pub fn calls_leave()
    ensures line { Leaves (a_call (codes "NOOP\nQ") 0 0 0 []) (leaving 10 5 0 0 0 [] 0 0 0) }
    ensures line_not_used_up { ¬ Leaves (a_call (codes "NOOP\nQ") 0 0 0 [])
        (leaving 10 0 0 0 0 [] 0 0 0) }
    ensures memory { Leaves (a_call (codes "USER a\n") 3 0 0 [])
        (leaving 106 0 3 0 0 [] 0 0 0) }
    ensures no_memory { ¬ Leaves (a_call (codes "NOOP\n") 0 0 0 [])
        (leaving 106 0 0 0 0 [] 0 0 0) }
{}

/// How many bytes are scanned: from the offset up to a line feed, or to the end.
pub fn bytes_are_scanned()
    ensures line_begun { scans (a_call (codes "NOOP\nQ\n") 2 0 0 []) ≡ 3 }
    ensures nothing_new { scans (a_call (codes "NOOP") 4 0 0 []) ≡ 0 }
{}

/// Lines for which memory may run out, and none.
pub fn some_lines_may_take_memory()
    ensures path { LineMayTakeMemory (a_call (codes "RETR a\n") 0 0 0 []) }
    ensures no_value { ¬ LineMayTakeMemory (a_call (codes "NOOP\n") 0 0 0 []) }
    ensures too_long { ¬ LineMayTakeMemory (a_call (codes "RETR a\n") 0 0 6 []) }
    ensures no_such_call { ¬ LineMayTakeMemory (a_call (codes "RETR a\n") 0 2 0 []) }
{}

/// Replies of one line and of several, and what is no code.
pub fn replies_have_codes_and_lines()
    ensures sixth_kind { reply_bytes 600 [] ≡ Err UnknownCode }
    ensures not_encoded { ¬ (reply_bytes 600 [] ≡ Ok (codes "600\r\n")) }
    ensures code_without_a_name { reply_bytes 299 [] ≡ Ok (codes "299\r\n") }
    // the second line begins with a digit; no byte is dropped that isn't UTF-8
    ensures latin_1 { reply_bytes 200 (233 ∷ codes "\n2\n" ++ 255 ∷ [])
        ≡ Ok (codes "200-" ++ 233 ∷ codes "\r\n 2\r\n200 " ++ 255 ∷ codes "\r\n") }
    ensures one_line { text_reply 200 (codes "a") ≡ CodeAndMsg 200 (codes "a") }
    ensures two_lines { text_reply 200 (codes "a\n")
        ≡ MultiLine 200 (codes "a" ∷ [] ∷ []) }
    ensures cr_of_no_line { ¬ (text_reply 200 (codes "a\r\nb")
        ≡ MultiLine 200 (codes "a\r" ∷ codes "b" ∷ [])) }
{}

/// Areas to which texts are written, with room and without.
pub fn areas_have_texts()
    ensures written { HasText (codes "xyz") (codes "ab") (codes "abz") 2 }
    ensures not_written { ¬ HasText (codes "xyz") (codes "ab") (codes "xyz") 2 }
    ensures no_room { HasText (codes "x") (codes "ab") (codes "x") 2 }
    ensures no_part { ¬ HasText (codes "x") (codes "ab") (codes "x") 1 }
{}

/// The lines of replies that were received.
pub fn replies_have_lines()
    ensures several { found_text (codes "a" ∷ [] ∷ codes " b" ∷ []) ≡ codes "a\r\n\r\n b\r\n" }
    ensures code_only { IsFoundText (codes "200\r\n5") (Ok (codes "\r\n")) }
    ensures more { IsFoundText (codes "200 a") (Err More) }
    ensures not_all { ¬ IsFoundText (codes "200 a") (Ok (codes "a\r\n")) }
    ensures malformed { IsFoundText (codes "a\r\n") (Err Malformed) }
    ensures no_reply { ¬ IsFoundText (codes "a\r\n") (Err OutOfMemory) }
{}

/// The lines of texts: a CR directly before an LF belongs to the line's end, and no other does.
pub fn texts_have_lines()
    ensures cr_lf_at_the_end { text_lines (codes "a\r\n") ≡ codes "a" ∷ [] ∷ [] }
    ensures another_cr { text_lines (codes "a\r\r\n\rb") ≡ codes "a\r" ∷ codes "\rb" ∷ [] }
{}

/// Lines and their canonical lines.
pub fn lines_have_canonical_lines()
    ensures command { IsCanonical (codes "noop \n") (Ok (codes "NOOP\r\n")) }
    ensures other_line { ¬ IsCanonical (codes "noop\n") (Ok (codes "noop\n")) }
    ensures refusal { IsCanonical (codes "NOOP x\r\n") (Err InvalidCommand) }
    // of bytes that are no line: the name has a line feed
    ensures no_line { IsCanonical (codes "USER a\n\n") (Err NoLine) }
    ensures has_line { ¬ IsCanonical (codes "NOOP\r\n") (Err NoLine) }
{}

/// Lines and the lines that are forwarded for them.
pub fn lines_are_forwarded()
    ensures parameter { IsForwardedLine (codes "type a\n") (Ok (codes "TYPE a\r\n")) }
    ensures other_parameter { ¬ IsForwardedLine (codes "type a\n") (Ok (codes "TYPE I\r\n")) }
    ensures no_line_feed { IsForwardedLine (codes "TYPE A") (Err NoLine) }
    ensures refusal { IsForwardedLine (codes "NOOP x\r\n") (Err InvalidCommand) }
    ensures memory { ¬ IsForwardedLine (codes "NOOP\n") (Err OutOfMemory) }
    ensures not_sent { ForwardsTo (codes "TYPE A") (Err NoLine) }
    ensures refused { ¬ ForwardsTo (codes "TYPE A") (Err InvalidCommand) }
    ensures level { IsWritable (Typed verb.Prot read.None) }
    ensures no_value { forwarded_text (Typed verb.Pasv read.None) ≡ codes "PASV\r\n" }
{}

/// Lines for whose canonical lines memory may run out, and none.
pub fn some_canonical_lines_may_take_memory()
    // reading it takes none, but its canonical line does
    ensures no_value { CanonicalMayTakeMemory (codes "NOOP\r\n") }
    // it has no canonical line, but a value that is read
    ensures no_line { CanonicalMayTakeMemory (codes "USER a\n\n") }
    ensures refused_verb { ¬ CanonicalMayTakeMemory (255 ∷ codes "\r\n") }
{}
