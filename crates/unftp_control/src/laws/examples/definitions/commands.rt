//! Commands: the types of their fields, their lines, and which of them have one.
#![tactic(auto, unfolding(unftp_control_defs::proofs::Computing::at_bytes))]

ghost use Rattle.std.specs.Prelude.{◌≡◌, [], ◌∷◌, Err, Ok, Option, Some, None, codes};
ghost use Rattle.unftp_control_defs.specs.Bytes.{Bytes};
ghost use Rattle.unftp_control_defs.specs.Canonical.{HasLine, canonical_line, IsUpperCaseName, IsNonEmptyText, IsOptionalText};
ghost use Rattle.unftp_control_defs.specs.FtpCommand.{Allo, InvalidCommand, List as Listing, Md5, Noop, Other, Rest, Retr, Site, TypeCode, User, Nothing, Number, Raw, Text, plain, said};
ghost use Rattle.unftp_control_defs.specs.Said.{HasTypedFields, MeansCommand, outcome_of, word_and_value};
ghost use Rattle.unftp_control_defs.specs.declared.verb.Verb.TheVariants as verb;

/// Texts are UTF-8, an offset has 64 bits, and of bytes nothing is asked.
pub fn fields_are_of_their_types()
    // 195 169 is U+00E9, and no character has the byte 255
    ensures user { HasTypedFields (User (255 ∷ [])) }
    ensures retr { HasTypedFields (Retr (195 ∷ 169 ∷ [])) }
    ensures ill_formed_retr { ¬ HasTypedFields (Retr (255 ∷ [])) }
    ensures ill_formed_options { ¬ HasTypedFields (Listing (Some (255 ∷ [])) None) }
    ensures greatest_rest { HasTypedFields (Rest 18446744073709551615) }
    ensures too_great_rest { ¬ HasTypedFields (Rest 18446744073709551616) }
    ensures ill_formed_site { ¬ HasTypedFields (Site (255 ∷ []) []) }
{}

/// What a command says, and which command says it.
pub fn commands_say_a_verb_and_a_value()
    ensures text { said (Retr (codes "a")) ≡ plain verb.Retr (Text (codes "a")) }
    ensures empty_name { said (User []) ≡ plain verb.User Nothing }
    ensures number { outcome_of (plain verb.Rest (Number 5)) ≡ Ok (Rest 5) }
    ensures digits { outcome_of (plain verb.Rest (Text (codes "5"))) ≡ Err InvalidCommand }
    ensures told { MeansCommand (Ok Noop) (plain verb.Noop Nothing) }
    ensures empty_raw { ¬ MeansCommand (Ok (User [])) (plain verb.User (Raw [])) }
    ensures subcommand { word_and_value (said (Md5 (codes "a")))
        ≡ (codes "MD5", Some (codes "a")) }
{}

/// Texts and names that a line has room for.
pub fn texts_fit_a_line()
    ensures text { IsNonEmptyText (codes "a\r") }
    ensures empty_text { ¬ IsNonEmptyText [] }
    ensures text_with_lf { ¬ IsNonEmptyText (codes "a\n") }
    ensures some_empty_text { ¬ IsOptionalText (Some []) }
    ensures name { IsUpperCaseName (codes "AZ-9") }
    ensures beside_the_letters { IsUpperCaseName (codes "`{") }
    ensures first_letter { ¬ IsUpperCaseName (codes "Aa") }
    ensures space { ¬ IsUpperCaseName (codes "A B") }
{}

/// Which commands have a line.
pub fn commands_have_lines_or_none()
    ensures lf_in_user { ¬ HasLine (User (codes "\n")) }
    ensures retr { HasLine (Retr (codes "a")) }
    ensures empty_retr { ¬ HasLine (Retr []) }
    ensures empty_list { ¬ HasLine (Listing None (Some [])) }
    ensures site { HasLine (Site (codes "ECHO") (codes "a")) }
    ensures lowercase_site { ¬ HasLine (Site (codes "echo") []) }
    ensures other_noop { ¬ HasLine (Other (codes "NOOP") []) }
    ensures two_words { ¬ HasLine (Other (codes "A B") []) }
    ensures noop { HasLine Noop }
    ensures no_options { (options : Bytes) (path : Option Bytes)
        → ¬ HasLine (Listing (Some options) path) }
    ensures no_other_site { ¬ HasLine (Other (codes "SITE") []) }
    ensures no_site_md5 { ¬ HasLine (Site (codes "MD5") []) }
    // the parameters that these need, which their commands don't keep (RFC 959, section 4.1)
    ensures type_code { canonical_line TypeCode ≡ codes "TYPE I\r\n" }
    ensures allo { canonical_line Allo ≡ codes "ALLO 0\r\n" }
{}
