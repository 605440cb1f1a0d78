//! Examples of a client's dialogue with a server, worked out by hand.
#![tactic(auto, unfolding(unftp_control_defs::proofs::Computing::at_bytes))]

ghost use Rattle.std.specs.Prelude.{◌≡◌, ◌-◌, ◌^◌, ℕ, [], ◌∷◌, None, Some, Ok, Err, true, false, codes, vec_capacity, vec_len, ⊤};
ghost use Rattle.std.specs.Global.{Vec};
ghost use Rattle.unftp_control_client.specs.Dialogue.{asks_for_tls, new_dialogue};
ghost use Rattle.unftp_control_client.specs.ForwardingSteps.{Answered, Forwarded, IsForwardingStep, Passed, is_line, replies_given};
ghost use Rattle.unftp_control_client.specs.Exchange.{IsNext, IsOtherError, MayBeginTls, new_client};
ghost use Rattle.unftp_control_client.specs.Steps.{AreExchanges, AreClientSteps, EndsInAgreement, IsClientStep, Received, SentLine, Took};
ghost use Rattle.unftp_control_client.specs.declared.Client.{Client as RustClient};
ghost use Rattle.unftp_control_client.specs.declared.dialogue.ClientReply.{ClientReply as RustReply};
ghost use Rattle.unftp_control_client.specs.declared.dialogue.To.TheVariants.{Greeting, Command, Nothing};
ghost use Rattle.unftp_control_client.specs.declared.errors.SendError.TheVariants.{OutOfMemory, TooManyCommands};
ghost use Rattle.unftp_control_defs.specs.Room.{LacksRoom};
ghost use Rattle.unftp_control.specs.ClientRuns.{asking, auth_tls, client_with, dialogue, noop, reply_with, retr};

/// The lines that ask for TLS: AUTH with TLS or SSL, in letters of any case, and its line end.
pub fn these_lines_ask_for_tls()
    ensures lower_case { asks_for_tls (codes "auth tls\r\n") ≡ true }
    ensures longer_mechanism { asks_for_tls (codes "AUTH TLS-C\r\n") ≡ false }
    ensures older_name { asks_for_tls (codes "AUTH SSL\n") ≡ true }
    ensures other_mechanism { asks_for_tls (codes "AUTH GSSAPI\r\n") ≡ false }
    ensures two_lines { asks_for_tls (codes "AUTH TLS\r\nNOOP\r\n") ≡ false }
{}

/// When TLS may begin: after 234 to the last command, with nothing after it.
pub fn tls_may_begin_here()
    ensures agreed { MayBeginTls (client_with (asking 1 (Some 1) 0 true) []) }
    ensures with_more { ¬ MayBeginTls (client_with (asking 1 (Some 1) 0 true) (codes "2")) }
    ensures owed { ¬ MayBeginTls (client_with (asking 2 (Some 1) 0 true) []) }
    ensures not_agreed { ¬ MayBeginTls (client_with (asking 1 (Some 1) 0 false) []) }
{}

/// What a call that takes a reply leaves, at a reply and at an error.
pub fn these_are_next()
    ensures greeting { (taken : RustReply) → taken.to ≡ Greeting → taken.reply.code ≡ 220
        → IsNext {E = Unit {0}} new_dialogue (Ok (Some taken)) (dialogue 0 (Some 0)) }
    ensures to_a_command { (taken : RustReply) → taken.to ≡ Command 0
        → ¬ IsNext {E = Unit {0}} new_dialogue (Ok (Some taken)) (dialogue 0 (Some 0)) }
    ensures noted_at_an_error { ¬ IsNext {E = ℕ} (dialogue 1 None) (Err 0) (dialogue 1 (Some 0)) }
{}

/// Why no command is sent that has a line: room was lacking for that, or the count was full.
pub fn these_errors_are_others()
    ensures memory { IsOtherError 0 ⊤ OutOfMemory }
    ensures memory_with_room { ¬ IsOtherError 0 ⊥ OutOfMemory }
    ensures full { IsOtherError (2 ^ 64 - 1) ⊥ TooManyCommands }
    ensures one_left { ¬ IsOtherError (2 ^ 64 - 2) ⊤ TooManyCommands }
{}

/// Room for a line of six bytes in a buffer of eight.
pub fn this_room_is_lacking()
    ensures three_used { (out : Vec ℕ) → vec_len out ≡ 3 → vec_capacity out ≡ 8
        → LacksRoom out noop }
    ensures two_used { (out : Vec ℕ) → vec_len out ≡ 2 → vec_capacity out ≡ 8
        → ¬ LacksRoom out noop }
{}

/// What a client's calls change.
pub fn these_are_steps()
    ensures sent { IsClientStep (client_with new_dialogue []) (SentLine noop)
        (client_with (dialogue 1 None) []) }
    ensures not_counted { ¬ IsClientStep (client_with new_dialogue []) (SentLine noop)
        (client_with new_dialogue []) }
    ensures reply_left { ¬ IsClientStep (client_with new_dialogue (codes "220\r\n2"))
        (Took (reply_with 220 Greeting)) (client_with (dialogue 0 (Some 0)) (codes "220\r\n2")) }
{}

/// Runs that end in an agreement to begin TLS, and some that don't.
pub fn these_end_in_agreement()
    ensures agreed { EndsInAgreement
        (Took (reply_with 220 Greeting) ∷ SentLine noop ∷ SentLine auth_tls
        ∷ Took (reply_with 200 (Command 0)) ∷ Took (reply_with 234 (Command 1)) ∷ []) }
    ensures later_line { ¬ EndsInAgreement
        (Took (reply_with 220 Greeting) ∷ SentLine auth_tls ∷ Took (reply_with 234 (Command 0))
        ∷ SentLine noop ∷ []) }
{}

/// Whole runs. RETR and NOOP are sent at once, before the greeting came.
pub fn these_are_runs()
    ensures unasked { AreClientSteps (new_client None)
        (Received (codes "220\r\n421\r\n")
        ∷ Took (reply_with 220 Greeting) ∷ Took (reply_with 421 Nothing) ∷ [])
        (client_with (dialogue 0 (Some 0)) []) }
    ensures settled_by_150 { (client : RustClient) → ¬ AreClientSteps (new_client None)
        (SentLine retr ∷ SentLine noop ∷ Received (codes "220\r\n150\r\n226\r\n")
        ∷ Took (reply_with 220 Greeting) ∷ Took (reply_with 150 (Command 0))
        ∷ Took (reply_with 226 (Command 1)) ∷ []) client }
{}

/// Replies that are exchanges: of RETR, which has a preliminary reply, and of NOOP.
pub fn these_are_exchanges()
    ensures two_commands { AreExchanges Greeting
        (reply_with 220 Greeting ∷ reply_with 150 (Command 0) ∷ reply_with 226 (Command 0)
        ∷ reply_with 200 (Command 1) ∷ []) }
    ensures settled_by_150 { ¬ AreExchanges Greeting
        (reply_with 220 Greeting ∷ reply_with 150 (Command 0) ∷ reply_with 226 (Command 1) ∷ []) }
    ensures command_left_out { ¬ AreExchanges Greeting
        (reply_with 220 Greeting ∷ reply_with 200 (Command 1) ∷ []) }
{}

/// Where a proxy may answer a line itself: between two exchanges, after the greeting, by a final
/// reply.
pub fn these_answers_are_in_turn()
    ensures between { IsForwardingStep (dialogue 1 (Some 1)) (Answered (502, []))
        (dialogue 1 (Some 1)) }
    ensures owed { ¬ IsForwardingStep (dialogue 2 (Some 1)) (Answered (502, []))
        (dialogue 2 (Some 1)) }
    ensures not_greeted { ¬ IsForwardingStep (dialogue 0 None) (Answered (502, []))
        (dialogue 0 None) }
    ensures preliminary { ¬ IsForwardingStep (dialogue 1 (Some 1)) (Answered (150, []))
        (dialogue 1 (Some 1)) }
{}

/// What the client of a proxy gets: a line that the proxy answers has a place among those that it
/// forwards.
pub fn these_replies_are_given()
    ensures in_place { replies_given 0 0 (Passed (reply_with 220 Greeting) ∷ Forwarded noop
        ∷ Passed (reply_with 200 (Command 0)) ∷ Answered (502, [] ∷ []) ∷ Forwarded noop
        ∷ Passed (reply_with 200 (Command 1)) ∷ [])
        ≡ reply_with 220 Greeting ∷ reply_with 200 (Command 0) ∷ reply_with 502 (Command 1)
        ∷ reply_with 200 (Command 2) ∷ [] }
    ensures reply_is_no_line { is_line (Passed (reply_with 200 (Command 0))) ≡ false }
    ensures answered_is_a_line { is_line (Answered (502, [])) ≡ true }
{}
