//! Log lines and lines of exchanges, worked out by hand.
#![tactic(auto, unfolding(unftp_control_defs::proofs::Computing::at_bytes))]

ghost use Rattle.std.specs.Prelude.{◌≡◌, [], ◌∷◌, ◌++◌, true, false, None, Some, codes};
ghost use Rattle.unftp_control_defs.specs.Events.{Command, InvalidCommand as InvalidCommandKind, NoSource, Parse, Refused, UnknownCommand, line_too_long, refusal_fault};
ghost use Rattle.unftp_control_defs.specs.FtpCommand.{Chosen, Feat, InvalidCommand, InvalidEol, Md5, Noop, Number, Other, Pass, Site, Text, User, said};
ghost use Rattle.unftp_control_defs.specs.declared.parameters.AuthParam.TheVariants.{Tls};
ghost use Rattle.unftp_control_defs.specs.declared.parameters.Choice.TheVariants.{Mechanism};
ghost use Rattle.unftp_control_defs.specs.declared.verb.Verb.TheVariants.{Acct as VerbAcct, Help, Other as VerbOther, Rest, Retr as VerbRetr, TypeCode};
ghost use Rattle.unftp_control_defs.specs.Texts.{kind_reason};
ghost use Rattle.unftp_control_log.specs.Known.{fault_in, known, known_value, listed_subcommand, shows_parameter, subcommand_by};
ghost use Rattle.unftp_control_log.specs.LogLine.{IsPrintable, IsShownPlain, RefusedLine, Subcommand, Verb, hides_after, hides_parameter, hides_part, is_listed, listed_verb, logged, parameter_by, reason, shown, shown_argument, shown_parameter, shown_value, shows_after, shows_arguments, unless_too_long, visible, visible_said, visible_text, visible_value, visible_verb};
ghost use Rattle.unftp_control_log.specs.ExchangeLine.{exchange_line, lines_text, replies_text, reply_text};

/// Printable are a space, a tilde and what is between them; all else is escaped, and so are quotes
/// and the backslash.
pub fn bytes_are_shown()
    ensures tilde { IsPrintable 126 }
    ensures delete { IsPrintable 127 → ⊥ }
    ensures high { shown (195 ∷ 169 ∷ 255 ∷ []) ≡ codes "\\xc3\\xa9\\xff" }
    ensures quotes { shown (codes "'\"\\") ≡ codes "\\'\\\"\\\\" }
{}

/// Listed are the verbs with a rule, and the other words of the registry, in letters of any case.
pub fn verbs_are_listed()
    ensures ruled { is_listed (codes "PASS") ≡ true }
    ensures last { is_listed (codes "XRMD") ≡ true }
    ensures lower_case { is_listed (codes "adat") ≡ true }
    ensures mistyped { is_listed (codes "PSAS") ≡ false }
    ensures of_the_field { is_listed (codes "CLNT") ≡ false }
    ensures no_arguments { shows_arguments (codes "Pswd") ≡ Some false }
    ensures no_subcommand { shows_arguments (codes "PASSWD") ≡ None }
    ensures further { listed_verb (codes "Lang\r\n") ≡ Some (codes "LANG") }
    ensures longer { listed_verb (codes "NOOPS\r\n") ≡ None }
    ensures no_line { listed_verb [] ≡ None }
{}

/// Shown of a line is the value of its parameter, but after a verb that hides it.
pub fn parameters_are_shown()
    ensures path { shown_parameter (codes "retr a\r\n") ≡ Some (codes "a\r\n") }
    ensures mode { shown_argument (codes "chmod 644 a\n") ≡ Some (codes "644 a\n") }
    ensures passwords { shown_argument (codes "PSWD a b\n") ≡ None }
    ensures password { shown_parameter (codes "PASS a\r\n") ≡ None }
    ensures unlisted { parameter_by None (codes "a\r\n") ≡ None }
    ensures help { hides_parameter Help ≡ true }
    ensures representation { hides_parameter TypeCode ≡ false }
    ensures bytes { shown_value (codes "RETR a" ++ 233 ∷ codes "\r\n")
        ≡ Some (codes "a" ++ 233 ∷ []) }
    ensures carriage_return { shown_value (codes "RETR a\r" ++ 0 ∷ codes "b\r\n")
        ≡ Some (codes "a\rb") }
    ensures options { shown_value (codes "LIST -la x\r\n") ≡ Some (codes "-la x") }
    ensures empty { shown_value (codes "USER \r\n") ≡ None }
    ensures line_end { shown_value (codes "TYPE A\rx\r\n") ≡ None }
    ensures hidden { shown_value (codes "PASS a\r\n") ≡ Some (codes "a") → ⊥ }
{}

/// A command shows its verb and the value of its line, but no secret.
pub fn commands_are_visible()
    ensures user { visible (Command (User (codes "anna"))) (codes "USER anna\r\n")
        ≡ Verb (codes "USER") (Some (codes "anna")) }
    ensures no_password { visible (Command (Pass [])) (codes "PASS\r\n")
        ≡ Verb (codes "PASS") (Some (codes "***")) }
    ensures no_account { visible_verb VerbAcct [] None
        ≡ Verb (codes "ACCT") (Some (codes "***")) }
    ensures listed { visible (Command (Other (codes "ADAT") (codes "c2VjcmV0")))
        (codes "ADAT c2VjcmV0\r\n") ≡ Verb (codes "ADAT") (Some (codes "***")) }
    ensures mistyped { visible (Command (Other (codes "PSAS") (codes "secret")))
        (codes "PSAS secret\r\n") ≡ Verb (codes "***") None }
    ensures alone { visible (Command (Other (codes "SECRET") [])) (codes "secret\r\n")
        ≡ Verb (codes "***") None }
    ensures line_of_another { visible (Command (User (codes "anna"))) (codes "PASS secret\r\n")
        ≡ Verb (codes "USER") None }
    ensures command { visible (Command (User (codes "anna"))) (codes "PASS secret\r\n")
        ≡ Verb (codes "USER") (Some (codes "anna")) → ⊥ }
{}

/// A word and a number are shown as a canonical line has them, and any other value as it was sent.
pub fn values_are_visible()
    ensures offset { visible_value (Number 5) (Some (codes "+5")) ≡ Some (codes "5") }
    ensures word { visible_value (Chosen (Mechanism Tls)) (Some (codes "tls"))
        ≡ Some (codes "TLS") }
    ensures text { visible_value (Text (codes "a")) (Some (233 ∷ [])) ≡ Some (233 ∷ []) }
    ensures no_value { visible_value (Text (codes "a")) None ≡ Some (codes "a") → ⊥ }
{}

/// SITE shows its subcommand where it is listed, and then some arguments.
pub fn subcommands_are_visible()
    ensures mode { visible_said (said (Site (codes "CHMOD") (codes "644 a")))
        (Some (codes "644 a")) ≡ Subcommand (codes "CHMOD") (Some (codes "644 a")) }
    ensures digest { visible_said (said (Md5 (codes "a"))) (Some (233 ∷ []))
        ≡ Subcommand (codes "MD5") (Some (233 ∷ [])) }
    ensures passwords { visible_said (said (Site (codes "PSWD") (codes "old new"))) None
        ≡ Subcommand (codes "PSWD") (Some (codes "***")) }
    ensures unlisted { visible_said (said (Site (codes "SECRET") (codes "a"))) None
        ≡ Subcommand (codes "***") None }
    ensures no_subcommand { visible_said (said (Site [] [])) None
        ≡ Subcommand (codes "***") None }
    ensures shown { visible_said (said (Site (codes "PSWD") (codes "old new")))
        (Some (codes "old new")) ≡ Subcommand (codes "PSWD") (Some (codes "old new")) → ⊥ }
{}

/// What is visible, as a text: the verb, the subcommand and the value in escapes.
pub fn texts_are_written()
    ensures value { visible_text (Verb (codes "RETR") (Some (codes "a\r\nb")))
        ≡ codes "RETR a\\r\\nb" }
    ensures arguments { visible_text (Subcommand (codes "CHMOD") (Some (codes "644 a")))
        ≡ codes "SITE CHMOD 644 a" }
    ensures refused { visible_text (RefusedLine (Some (codes "PASS")) (codes "Line too long"))
        ≡ codes "refused PASS: Line too long" }
    ensures no_verb { visible_text (RefusedLine None (codes "Line too long"))
        ≡ codes "refused: Line too long" }
{}

/// A refused line shows its verb, where it is listed, and why it is refused.
pub fn refusals_are_visible()
    ensures parser { reason (Parse (Some InvalidEol)) InvalidCommandKind
        ≡ codes "Invalid end-of-line" }
    ensures kind { reason NoSource InvalidCommandKind
        ≡ codes "Invalid command (invalid parameter)" }
    ensures command { kind_reason (UnknownCommand (codes "PSAS secret")) ≡ codes "Unknown command" }
    ensures verb { visible (Refused (refusal_fault InvalidCommand)) (codes "NOOP x\r\n")
        ≡ RefusedLine (Some (codes "NOOP")) (codes "Invalid command") }
    ensures no_verb { visible (Refused (refusal_fault InvalidEol)) (codes "PASSx\ry\r\n")
        ≡ RefusedLine None (codes "Invalid end-of-line") }
{}

/// Lines of which a part is hidden, and others.
pub fn parts_are_hidden()
    ensures path { hides_part None (codes "RETR a***b\r\n") ≡ false }
    ensures no_value { hides_part None (codes "NOOP\r\n") ≡ false }
    ensures password { hides_part None (codes "PASS\r\n") ≡ true }
    ensures unlisted { hides_part None (codes "secret\r\n") ≡ true }
    ensures listed { hides_part None (codes "LANG\r\n") ≡ true }
    ensures mode { hides_part None (codes "SITE CHMOD 644 a\r\n") ≡ false }
    ensures passwords { hides_part None (codes "SITE PSWD a b\r\n") ≡ true }
    ensures system { hides_part None (codes "SYST\r\n") ≡ false }
    ensures text { hides_part None (codes "HELP me\r\n") ≡ true }
    ensures line_end { hides_part None (codes "TYPE A\rx\r\n") ≡ true }
    ensures refused { hides_part None (codes "NOOP x\r\n") ≡ true }
    ensures too_long { hides_part (Some 5) (codes "NOOP\r\n") ≡ true }
    ensures offset { hides_after Rest [] (Some (codes "+5")) ≡ false }
    ensures no_offset { hides_after Rest [] None ≡ true }
    ensures help { hides_after Help [] (Some []) ≡ false }
    ensures other { shows_after VerbOther (codes "RETR") ≡ false }
    ensures plain { IsShownPlain 126 }
    ensures quoted { ¬ IsShownPlain 34 }
{}

/// Whole lines, from what a client sent.
pub fn lines_are_shown()
    ensures command { logged None (codes "retr a\n") ≡ codes "RETR a" }
    ensures ignored { logged None (codes "type a\r\n") ≡ codes "TYPE a" }
    ensures offset { logged None (codes "REST +5\r\n") ≡ codes "REST 5" }
    ensures bytes { logged None (codes "site md5 a" ++ 233 ∷ codes "\r\n")
        ≡ codes "SITE MD5 a\\xe9" }
    ensures parameter { logged None (codes "NOOP x\r\n") ≡ codes "refused NOOP: Invalid command" }
    ensures password { logged None (codes "PASS se\rcret\r\n")
        ≡ codes "refused PASS: Invalid end-of-line" }
    ensures too_long { logged (Some 5) (codes "NOOP\r\n") ≡ codes "refused: Line too long" }
    ensures whole { unless_too_long (Some 6) (codes "NOOP\r\n") ≡ codes "NOOP\r\n" }
    ensures dropped { unless_too_long (Some 5) (codes "NOOP\r\n") ≡ [] }
{}

/// A password after PASS without a space, after a mistyped PASS, or on a line of its own; and an
/// account.
pub fn mistyped_passwords_stay_hidden()
    ensures tab { logged None (codes "PASS\tsecret\r\n") ≡ codes "***" }
    ensures no_break_space { logged None (codes "PASS" ++ 194 ∷ 160 ∷ codes "secret\r\n")
        ≡ codes "***" }
    ensures account { logged None (codes "ACCT\tstaff\r\n") ≡ codes "***" }
    ensures mistyped { logged None (codes "PSAS secret\r\n") ≡ codes "***" }
    ensures alone { logged None (codes "hunter2\r\n") ≡ codes "***" }
    ensures after_site { logged None (codes "SITE secret\r\n") ≡ codes "SITE ***" }
    ensures shown { logged None (codes "hunter2\r\n") ≡ codes "HUNTER2" → ⊥ }
{}

/// What may be known of a line.
pub fn lines_are_known()
    ensures subcommand { listed_subcommand (codes "site Pswd a\r\n") ≡ Some (codes "PSWD") }
    ensures no_site { listed_subcommand (codes "SITES PSWD a\r\n") ≡ None }
    ensures unlisted { listed_subcommand (codes "SITE PASSWD a\r\n") ≡ None }
    ensures elsewhere { subcommand_by (Some VerbRetr) (codes "PSWD\r\n") ≡ None }
    ensures path { shows_parameter (codes "RETR a\r\n") ≡ true }
    ensures account { shows_parameter (codes "ACCT a\r\n") ≡ false }
    ensures system { shows_parameter (codes "SYST a\r\n") ≡ false }
    ensures unknown { shows_parameter (codes "PSAS a\r\n") ≡ false }
    ensures passwords { shows_parameter (codes "SITE PSWD old new\r\n") ≡ false }
    ensures value { known_value (Command Feat) (codes "RETR a\r\n") ≡ Some (codes "a") }
    ensures refused_value { known_value (Refused line_too_long) (codes "RETR a\r\n") ≡ None }
    ensures refused { fault_in (Refused line_too_long) ≡ Some line_too_long }
    ensures accepted { fault_in (Command Noop) ≡ None }
    ensures same { known None (codes "PASS a\r\n") ≡ known None (codes "pass hunter2\n") }
    ensures no_verb { known None (codes "a\r\n") ≡ known None (codes "hunter2 b\r\n") }
    ensures verbs { known None (codes "PASS a\r\n") ≡ known None (codes "ACCT a\r\n") → ⊥ }
    ensures line_end { known None (codes "PASS a\r\n") ≡ known None (codes "PASS a\rb\r\n") → ⊥ }
    ensures types { known None (codes "TYPE A\r\n") ≡ known None (codes "TYPE I\r\n") → ⊥ }
    ensures long_lines { known (Some 1) (codes "RETR a\r\n") ≡ known (Some 1) (codes "b\r\n") }
{}

/// Lines of a log.
pub fn exchanges_are_written()
    ensures line { exchange_line (record {
      line = Some (codes "USER bob");
      replies = (331, codes "Need password" ∷ []) ∷ [];
    }) ≡ codes "USER bob -> 331 Need password" }
    ensures greeting { exchange_line (record {
      line = None;
      replies = (220, codes "Ready" ∷ []) ∷ [];
    }) ≡ codes "-> 220 Ready" }
    ensures preliminary { exchange_line (record {
      line = Some (codes "RETR a");
      replies = (150, codes "Opening" ∷ []) ∷ (226, codes "Done" ∷ []) ∷ [];
    }) ≡ codes "RETR a -> 150 Opening | 226 Done" }
    ensures several { reply_text (211, codes "Features:" ∷ codes " MDTM" ∷ codes "End" ∷ [])
        ≡ codes "211 Features:\\r\\n MDTM\\r\\nEnd" }
    ensures escaped { lines_text (codes "a\tb" ∷ []) ≡ codes " a\\tb" }
    ensures code_only { reply_text (530, [] ∷ []) ≡ codes "530" }
    ensures empty_lines { reply_text (211, [] ∷ [] ∷ []) ≡ codes "211 \\r\\n" }
    ensures hidden { exchange_line (record {
      line = Some (codes "refused: Unknown command");
      replies = (500, [] ∷ []) ∷ [];
    }) ≡ codes "refused: Unknown command -> 500" }
    ensures space_after_a_code { lines_text ([] ∷ []) ≡ codes " " → ⊥ }
    ensures no_reply { replies_text [] ≡ [] }
    ensures line_end { lines_text (codes "a" ∷ codes "b" ∷ []) ≡ codes " a\r\nb" → ⊥ }
{}
