//! What a log, a client and a login in C keep and report.
#![tactic(auto, unfolding(unftp_control_defs::proofs::Computing::at_bytes))]

ghost use Rattle.std.specs.Prelude.{◌≡◌, ◌∷◌, [], true, false, bytes_eq, codes, Err, None, Ok, Some};
ghost use Rattle.unftp_control_defs.specs.Bytes.{Bytes};
ghost use Rattle.unftp_control_defs.specs.Events.{Command as Event};
ghost use Rattle.unftp_control_defs.specs.FtpCommand.{Auth, Noop, Pass, User};
ghost use Rattle.unftp_control_defs.specs.declared.parameters.AuthParam.TheVariants.{Tls};
ghost use Rattle.unftp_control_client.specs.Dialogue.{new_dialogue};
ghost use Rattle.unftp_control_client.specs.declared.dialogue.To.TheVariants.{Command, Greeting, Nothing};
ghost use Rattle.unftp_control_c.specs.Clients.{dialogue_of, may_begin_tls, new_client, place_in, to_number};
ghost use Rattle.unftp_control_c.specs.ExchangeLines.{IsExchangeLine, IsLeftUnread};
ghost use Rattle.unftp_control_c.specs.LogLines.{IsLogLine, numbered_hides, numbered_log_line};
ghost use Rattle.unftp_control_login.specs.Gate.{nobody};
ghost use Rattle.unftp_control_login.specs.declared.stage.LoginStep.TheVariants.{NeedLogin, PassOn};
ghost use Rattle.unftp_control_login.specs.declared.stage.Progress.TheVariants.{Asked, LoggedIn, Named, NoName};
ghost use Rattle.unftp_control_login.specs.declared.stage.Role.TheVariants.{Closed, Name, Open};
ghost use Rattle.unftp_control_c.specs.Logins.{KeepsSame, event_role, kept_after_all, progress_of, step_number};
ghost use Rattle.unftp_control_c.specs.declared.status.Status.TheVariants.{InvalidArgument, Malformed, More, NoLine, OutOfMemory};

/// Log lines, by what `unftp_next` returned: 2 is PASS, and 105 a line that is too long.
pub fn lines_are_logged()
    ensures password { numbered_log_line 2 (codes "PASS a\r\n") ≡ codes "PASS ***" }
    ensures representation { numbered_log_line 6 (codes "TYPE I\r\n") ≡ codes "TYPE I" }
    ensures end_of_a_line { numbered_log_line 105 (codes "PASS a\r\n")
        ≡ codes "refused: Line too long" }
    ensures refused { numbered_log_line 104 (codes "PASS a\rb\r\n")
        ≡ codes "refused PASS: Invalid end-of-line" }
    ensures secret { numbered_hides 2 (codes "PASS a\r\n") ≡ true }
    ensures all { numbered_hides 6 (codes "TYPE I\r\n") ≡ false }
    ensures hidden { numbered_hides 105 (codes "NOOP\n") ≡ true }
    ensures memory { IsLogLine 10 (codes "NOOP\n") (Err OutOfMemory) }
    ensures always { ¬ IsLogLine 10 (codes "NOOP\n") (Err NoLine) }
    ensures raw { ¬ IsLogLine 2 (codes "PASS a\n") (Ok (codes "PASS a")) }
{}

/// The lines of exchanges: 31 and 127 are no printable bytes, and 32 and 126 are.
pub fn exchanges_are_logged()
    ensures greeting { IsExchangeLine [] (codes "220 a\r\n") (Ok (codes "-> 220 a")) }
    ensures several { IsExchangeLine (codes "RETR a") (codes "150 b\r\n226 c\r\n")
        (Ok (codes "RETR a -> 150 b | 226 c")) }
    ensures code_only { IsExchangeLine (codes "***") (codes "530\r\n") (Ok (codes "*** -> 530")) }
    ensures no_reply { IsExchangeLine (32 ∷ 126 ∷ []) [] (Ok (codes " ~ ->")) }
    ensures control { IsExchangeLine (31 ∷ []) [] (Err InvalidArgument) }
    ensures delete { IsExchangeLine (127 ∷ []) (codes "a\r\n") (Err InvalidArgument) }
    ensures space { ¬ IsExchangeLine (codes " ") [] (Err InvalidArgument) }
    ensures incomplete { IsExchangeLine (codes "RETR a") (codes "150 b\r\n226 c") (Err More) }
    ensures complete { ¬ IsExchangeLine (codes "NOOP") [] (Err More) }
    ensures malformed { IsExchangeLine [] (codes "220 a\r\nb\r\n") (Err Malformed) }
    ensures memory { IsExchangeLine [] [] (Err OutOfMemory) }
    ensures left_unread { IsLeftUnread (codes "b\r\n") OutOfMemory }
    ensures nothing_to_read { ¬ IsLeftUnread [] More }
    ensures fault_first { ¬ IsExchangeLine [] (codes "b\r\n") (Err OutOfMemory) }
    ensures no_memory { ¬ IsExchangeLine (127 ∷ []) [] (Err OutOfMemory) }
    ensures reply_left_out { ¬ IsExchangeLine [] (codes "220 a\r\n") (Ok (codes "->")) }
{}

/// What a client keeps: a flag says whether a number is there.
pub fn clients_keep_a_dialogue()
    ensures start { dialogue_of new_client ≡ new_dialogue }
    ensures greeted { dialogue_of (record new_client { greeted = 1 })
        ≡ record new_dialogue { answered = Some 0 } }
    ensures not_greeted { dialogue_of (record new_client { answered = 1 }) ≡ new_dialogue }
    ensures asks { dialogue_of (record new_client { sent = 1; asks = 1 })
        ≡ record new_dialogue { sent = 1; asked = Some 0 } }
    ensures place { place_in (Command 3) ≡ 3 }
    ensures no_place { place_in Nothing ≡ 0 }
    ensures numbers { to_number Greeting ∷ to_number (Command 3) ∷ to_number Nothing ∷ []
        ≡ 0 ∷ 1 ∷ 2 ∷ [] }
{}

/// When TLS may begin.
pub fn tls_may_begin()
    ensures agreed { may_begin_tls
        (record { sent = 1; answered = Some 1; asked = Some 0; agreed = true }) 0 ≡ true }
    ensures pending { may_begin_tls
        (record { sent = 1; answered = Some 1; asked = Some 0; agreed = true }) 1 ≡ false }
    ensures owed { may_begin_tls
        (record { sent = 2; answered = Some 1; asked = Some 0; agreed = true }) 0 ≡ false }
    ensures not_agreed { may_begin_tls
        (record { sent = 1; answered = Some 1; asked = Some 0; agreed = false }) 0 ≡ false }
{}

/// What an event is to a login, by its number: 1 is USER, 10 NOOP, 14 RETR, and 102 to 106 no
/// command.
pub fn events_have_roles()
    ensures name { event_role 1 ≡ Name }
    ensures needs_login { event_role 14 ≡ Closed }
    ensures needs_none { event_role 10 ≡ Open }
    ensures refused { event_role 102 ≡ Open }
    ensures out_of_memory { event_role 106 ≡ Open }
    ensures no_line_yet { event_role 101 ≡ Closed }
    ensures no_event { event_role 107 ≡ Closed }
    ensures first_step { step_number PassOn ≡ 0 }
    ensures last_step { step_number NeedLogin ≡ 4 }
    ensures last { progress_of 3 ≡ Asked }
    ensures unknown { progress_of 4 ≡ NoName }
{}

/// Whether the same is kept of two logins that differ in their names.
pub fn logins_keep_names()
    ensures named { ¬ KeepsSame (record { progress = Named; name = codes "anna" })
        (record { progress = Named; name = codes "otto" }) }
    ensures logged_in { KeepsSame (record { progress = LoggedIn; name = codes "anna" })
        (record { progress = LoggedIn; name = codes "otto" }) }
{}

/// Whole logins, where the accounts accept each password of one name, or of all.
pub fn sessions_log_in()
    ensures member { kept_after_all (λ name password. bytes_eq name (codes "anna")) nobody
        (Event (User (codes "anna")) ∷ Event (Pass (codes "secret")) ∷ [])
        ≡ record { progress = LoggedIn; name = [] } }
    ensures other_name { kept_after_all (λ name password. bytes_eq name (codes "anna")) nobody
        (Event (User (codes "otto")) ∷ Event (Pass (codes "secret")) ∷ [])
        ≡ nobody }
    ensures named { kept_after_all (λ name password. true) nobody
        (Event (User (codes "anna")) ∷ Event Noop ∷ [])
        ≡ record { progress = Named; name = codes "anna" } }
    ensures tls { kept_after_all (λ name password. true) nobody
        (Event (User (codes "anna")) ∷ Event (Pass []) ∷ Event (Auth Tls) ∷ [])
        ≡ nobody }
{}
