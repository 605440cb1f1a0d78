//! Sessions worked out by hand: what the definitions of a login say of them.
ghost use Rattle.std.specs.Prelude.{◌≡◌, ◌++◌, ℕ, not, true, false, [], ◌∷◌, None, Some, Ok, Err, codes};
ghost use Rattle.std.specs.List.{list_all};
ghost use Rattle.unftp_control_defs.specs.FtpCommand.{User, Pass, Acct, Syst, Stat, TypeCode, Stru, Mode, Help, Noop, Pasv, Epsv, Port, Retr, Stor, Appe, List, Nlst, Mlst, Mlsd, Feat, Pwd, Cwd, Cdup, Opts, Dele, Rmd, Quit, Mkd, Allo, Abor, Stou, Rnfr, Rnto, Auth, Ccc, Pbsz, Prot, Size, Rest, Mdtm, Md5, Site, Other};
ghost use Rattle.unftp_control_defs.specs.Events.{Command, Refused, line_too_long, out_of_memory};
ghost use Rattle.unftp_control_defs.specs.FtpReply.{Nothing, CodeAndMsg, MultiLine, IsReadable};
ghost use Rattle.unftp_control_defs.specs.Run.{last_state, replies, at_each};
ghost use Rattle.unftp_control_defs.specs.declared.parameters.AuthParam.TheVariants.{Tls};
ghost use Rattle.unftp_control_defs.specs.declared.parameters.ModeParam.TheVariants.{Stream};
ghost use Rattle.unftp_control_defs.specs.declared.parameters.Opt.TheVariants.{Utf8};
ghost use Rattle.unftp_control_defs.specs.declared.parameters.ProtParam.TheVariants.{Private};
ghost use Rattle.unftp_control_defs.specs.declared.parameters.StruParam.TheVariants.{File};
ghost use Rattle.unftp_control_message.specs.ErrorMeaning.{fault_of};
ghost use Rattle.unftp_control_message.specs.declared.reply.error.ControlChanError.{ControlChanError as RustError};
ghost use Rattle.unftp_control_serve.specs.Endings.{snapshot_with};
ghost use Rattle.unftp_control_serve.specs.Writing.{appended_output};
ghost use Rattle.unftp_control_login.specs.Login.{GaveName, HasLoggedIn, IsLoggedIn, after_answer, flushes_login, login_after, login_step, needs_login, role_of};
ghost use Rattle.unftp_control_login.specs.declared.stage.LoginStep.TheVariants.{AskAccounts, NeedLogin, NeedName, NeedPassword, PassOn};
ghost use Rattle.unftp_control_login.specs.declared.stage.Progress.TheVariants.{Asked, LoggedIn, Named, NoName};
ghost use Rattle.unftp_control_login.specs.declared.stage.Role.TheVariants.{Closed, Flush, Name, Open, Password};
ghost use Rattle.unftp_control_login.specs.HandlerCalls.{AllCalled, Asks, AsksFurther, CallsMade, FailedCall, Makes, Passes, tells};
ghost use Rattle.unftp_control_login.specs.Asked.{IsClosed, all_questions, asked_law, questions_for};
ghost use Rattle.unftp_control_login.specs.Gate.{Answers, LogsIn, PassesOn, Refuses, calls_by, closed, decided, gated_law, logged_in, login_needed, name_needed, nobody, not_accepted, password_needed, questions, stage_after, stage_after_all};
ghost use Rattle.unftp_control_login.specs.GateState.{GateCalled};
ghost use Rattle.unftp_control_login.specs.LoginLimit.{EndsWith, failed_in_run, is_failure, too_many};
ghost use Rattle.unftp_control_login.specs.Promises.{AgreeOnAll, AllLookAlike, DifferInPasswords, FailsAlike, IsRefusedLogin, IsTurnedAway, LearnsName, LooksAlike, MembersAlone, NoFailure, PasswordFits, ReachesHandler, SendsPlainExchanges, ServesMembersAlone, gate_calls, guarded};
ghost use Rattle.unftp_control_login.specs.SessionState.{snapshot};
ghost use Rattle.unftp_control_login.specs.Examples.{anna, anna_and_ben, answers_once, ben, counting, gate_asked, here, inner_with, login, only_anna, opened, pass, secret, silent, so_far, stage, transferring, user, wrong};

/// Which events need a login, and which undo one.
pub fn logins_are_needed()
    ensures needed { list_all (λ command. needs_login (Command command))
        (Acct [] ∷ Stat None ∷ TypeCode ∷ Stru File ∷ Mode Stream ∷ Pasv ∷ Epsv ∷ Port [] ∷ Retr []
        ∷ Stor [] ∷ Appe [] ∷ List None None ∷ Nlst None ∷ Mlst None ∷ Mlsd None ∷ Pwd ∷ Cwd []
        ∷ Cdup ∷ Opts (Utf8 true) ∷ Dele [] ∷ Rmd [] ∷ Mkd [] ∷ Allo ∷ Abor ∷ Stou ∷ Rnfr []
        ∷ Rnto [] ∷ Ccc ∷ Size [] ∷ Rest 0 ∷ Mdtm [] ∷ Md5 [] ∷ Site [] [] ∷ Other [] [] ∷ [])
        ≡ true }
    ensures anyone { list_all (λ command. not (needs_login (Command command)))
        (User [] ∷ Pass [] ∷ Quit ∷ Auth Tls ∷ Pbsz ∷ Prot Private ∷ Feat ∷ Help ∷ Noop ∷ Syst ∷ [])
        ≡ true }
    ensures refused { needs_login (Refused line_too_long) ≡ false }
    ensures flushed { (flushes_login (user anna) ≡ true)
        × (flushes_login (Command (Auth Tls)) ≡ true) × (flushes_login (pass wrong) ≡ false) }
{}

/// What is done with an event, by how far the login has come: 14 is RETR, and 28 QUIT.
pub fn logins_have_steps()
    ensures closed { role_of 14 ≡ Closed }
    ensures open { role_of 28 ≡ Open }
    ensures no_verb { role_of 0 ≡ Closed }
    ensures stranger { login_step NoName Closed ≡ NeedLogin }
    ensures named { login_step Named Closed ≡ NeedLogin }
    ensures member { login_step LoggedIn Closed ≡ PassOn }
    ensures needs_none { login_step NoName Open ≡ PassOn }
    ensures tls { login_step Named Flush ≡ PassOn }
    ensures name { login_step LoggedIn Name ≡ NeedPassword }
    ensures password { login_step Named Password ≡ AskAccounts }
    ensures no_name { login_step NoName Password ≡ NeedName }
{}

/// How far a login has come after an event and an answer.
pub fn logins_come_on()
    ensures again { login_after LoggedIn Name ≡ Named }
    ensures asked { login_after Named Password ≡ Asked }
    ensures stays { login_after LoggedIn Password ≡ LoggedIn }
    ensures flushed { login_after LoggedIn Flush ≡ NoName }
    ensures late { login_after Asked Open ≡ NoName }
    ensures accepted { after_answer true Asked ≡ LoggedIn }
    ensures refused { after_answer false Asked ≡ NoName }
    ensures not_asked { after_answer true Named ≡ Named }
{}

/// Where a login is, with its name, and what is decided there.
pub fn logins_have_stages()
    ensures named { stage_after only_anna nobody (user anna) ≡ stage Named anna }
    ensures used { stage_after only_anna (stage Named anna) (pass wrong) ≡ nobody }
    ensures member { stage_after_all only_anna nobody login ≡ stage LoggedIn [] }
    ensures kept { stage_after only_anna (stage Named anna) (Command Noop) ≡ stage Named anna }
    ensures accepted { decided only_anna (stage Named anna) (pass secret) ≡ LogsIn anna }
    ensures refused { decided only_anna (stage Named anna) (pass wrong) ≡ Refuses not_accepted }
    ensures open { decided only_anna nobody (Command Quit) ≡ PassesOn (Command Quit) }
{}

/// A client logs in with a name and its password, and with nothing less.
pub fn a_client_logs_in()
    ensures member { HasLoggedIn only_anna anna
        (user anna ∷ Command Noop ∷ pass secret ∷ Command Pwd ∷ pass wrong ∷ []) }
    ensures nothing_sent { IsLoggedIn only_anna [] → ⊥ }
    ensures wrong_password { IsLoggedIn only_anna (user anna ∷ pass wrong ∷ []) → ⊥ }
    ensures other_name { IsLoggedIn only_anna (user wrong ∷ pass secret ∷ []) → ⊥ }
    // a refused password has used up the name
    ensures second_password { IsLoggedIn only_anna (user anna ∷ pass wrong ∷ pass secret ∷ []) → ⊥ }
    ensures another_user { IsLoggedIn only_anna (login ++ user wrong ∷ []) → ⊥ }
    ensures name_given { GaveName anna (user wrong ∷ user anna ∷ Command Noop ∷ []) }
    ensures name_changed { GaveName anna (user anna ∷ user wrong ∷ []) → ⊥ }
{}

/// What a gate answers, and which events its handler receives: it counts them.
pub fn a_gate_answers()
    ensures replies { replies (gated_law counting) (closed only_anna 0)
        (Command Pwd ∷ pass secret ∷ user anna ∷ pass wrong ∷ pass secret ∷ user anna
        ∷ pass secret ∷ Command Pwd ∷ pass secret ∷ user anna ∷ Command Pwd ∷ [])
        ≡ login_needed ∷ name_needed ∷ password_needed ∷ not_accepted ∷ name_needed
        ∷ password_needed ∷ logged_in ∷ here ∷ name_needed ∷ password_needed ∷ login_needed ∷ [] }
    ensures received { (last_state (gated_law counting) (closed only_anna 0)
        (Command Pwd ∷ Command Noop ∷ user anna ∷ pass wrong ∷ [])).inner ≡ 1 }
    ensures quit { (gated_law counting).done
        (last_state (gated_law counting) (closed only_anna 0) (Command Quit ∷ [])) ≡ true }
    ensures handler_done { (gated_law counting).done (closed only_anna 9) ≡ true }
{}

/// A handler that gives two replies to an event: both pass the gate, and neither to a login does.
pub fn follow_ups_pass()
    ensures replies { replies (gated_law transferring) (closed only_anna [])
        (Command Pwd ∷ user anna ∷ pass secret ∷ Command Pwd ∷ [])
        ≡ login_needed ∷ password_needed ∷ logged_in ∷ opened ∷ here ∷ [] }
    ensures dropped { (last_state (gated_law transferring) (closed only_anna []) login).inner ≡ [] }
    ensures turned_away { IsTurnedAway transferring (closed only_anna []) [] (Command Pwd) }
    ensures served { ServesMembersAlone only_anna transferring [] → ⊥ }
{}

/// What the accounts are asked: only about a password, of the name before it, and once.
pub fn accounts_are_asked()
    ensures asked { questions (stage Named anna) (pass secret) ≡ Asks anna secret ∷ [] }
    ensures twice { questions (stage Named anna) (pass wrong)
        ≡ Asks anna wrong ∷ Asks anna (wrong ++ codes "!") ∷ [] → ⊥ }
    ensures no_name { (questions nobody (pass secret) ≡ [])
        × (questions (stage LoggedIn []) (pass secret) ≡ []) }
{}

/// What a gate calls: the handler receives an event once, and is then asked for each
/// reply that follows; and memory is asked for one reply.
pub fn calls_are_made()
    ensures refused_login { gate_calls counting (last_state (gated_law counting)
        (closed only_anna 0) (user anna ∷ [])) (pass wrong) ≡ Makes not_accepted ∷ [] }
    ensures login { gate_calls counting (last_state (gated_law counting) (closed only_anna 0)
        (user anna ∷ [])) (pass secret)
        ≡ Passes (user anna) ∷ AsksFurther ∷ Makes logged_in ∷ [] }
    ensures anyone { gate_calls counting (closed only_anna 0) (Command Noop)
        ≡ Passes (Command Noop) ∷ AsksFurther ∷ [] }
    ensures follow_ups { gate_calls transferring (closed only_anna []) (Command Noop)
        ≡ Passes (Command Noop) ∷ AsksFurther ∷ AsksFurther ∷ [] }
    ensures last { gate_calls counting (guarded (Some 1) only_anna 0) (pass wrong)
        ≡ Makes too_many ∷ [] }
    ensures run { at_each (gate_calls counting) (gated_law counting) (closed only_anna 0)
        (user anna ∷ pass wrong ∷ [])
        ≡ (Makes password_needed ∷ []) ∷ (Makes not_accepted ∷ []) ∷ [] }
{}

/// Accounts that give one session: those that differ only in another user's password.
pub fn accounts_answer_alike()
    ensures alike { AgreeOnAll only_anna anna_and_ben (user anna ∷ pass wrong ∷ []) }
    ensures asked { AgreeOnAll only_anna anna_and_ben (user ben ∷ pass wrong ∷ []) → ⊥ }
{}

/// Why a call fails: the handler failed, and nothing was called after it; or memory was refused.
pub fn calls_fail()
    ensures called { AllCalled (calls_by counting 0 (LogsIn anna)) (so_far [] 0 0)
        (so_far (Passes (user anna) ∷ AsksFurther ∷ Makes logged_in ∷ []) 0 0) }
    ensures twice { AllCalled (calls_by counting 0 (PassesOn (Command Noop))) (so_far [] 0 0)
        (so_far (Passes (Command Noop) ∷ Passes (Command Noop) ∷ []) 0 0) → ⊥ }
    ensures dropped { AllCalled (tells transferring [] (Command Noop)) (so_far [] 0 0)
        (so_far (Passes (Command Noop) ∷ AsksFurther ∷ AsksFurther ∷ []) 0 0) }
    ensures not_dropped { AllCalled (tells transferring [] (Command Noop)) (so_far [] 0 0)
        (so_far (Passes (Command Noop) ∷ AsksFurther ∷ []) 0 0) → ⊥ }
    ensures failed { FailedCall counting (calls_by counting 0 (LogsIn anna)) (so_far [] 0 0)
        (so_far (Passes (user anna) ∷ []) 0 1) out_of_memory }
    ensures went_on { FailedCall counting (calls_by counting 0 (LogsIn anna)) (so_far [] 0 0)
        (so_far (Passes (user anna) ∷ Makes logged_in ∷ []) 0 1) out_of_memory → ⊥ }
    ensures refused { FailedCall counting (calls_by counting 0 (Answers here)) (so_far [] 0 0)
        (so_far (Makes here ∷ []) 1 0) out_of_memory }
    ensures not_refused { FailedCall counting (calls_by counting 0 (Answers here)) (so_far [] 0 0)
        (so_far (Makes here ∷ []) 0 0) out_of_memory → ⊥ }
{}

/// Which calls were made, by the result: all of them, or those up to one that failed as it may.
pub fn calls_end_so()
    ensures made { CallsMade {T = ℕ} counting (calls_by counting 0 (Answers here)) (so_far [] 0 0)
        (so_far (Makes here ∷ []) 0 0) (Ok 0) }
    ensures not_made { ¬ CallsMade {T = ℕ} counting (calls_by counting 0 (Answers here))
        (so_far [] 0 0) (so_far [] 0 0) (Ok 0) }
    ensures refused { (error : RustError) → fault_of error ≡ out_of_memory
        → CallsMade {T = ℕ} counting (calls_by counting 0 (Answers here)) (so_far [] 0 0)
        (so_far (Makes here ∷ []) 1 0) (Err error) }
    ensures not_refused { (error : RustError) → ¬ CallsMade {T = ℕ} counting
        (calls_by counting 0 (Answers here)) (so_far [] 0 0) (so_far (Makes here ∷ []) 0 0)
        (Err error) }
{}

/// What a gate has called for the first reply to an event: the handler, where it passes that on.
pub fn a_gate_has_called()
    ensures passed { GateCalled {T = ℕ} (λ failed. failed) counting (closed only_anna 0)
        (inner_with [] 0 0) (Command Noop) (inner_with (Passes (Command Noop) ∷ []) 0 0) (Ok 0) }
    ensures asked_further { ¬ GateCalled {T = ℕ} (λ failed. failed) counting (closed only_anna 0)
        (inner_with [] 0 0) (Command Noop)
        (inner_with (Passes (Command Noop) ∷ AsksFurther ∷ []) 0 0) (Ok 0) }
    ensures barred { ¬ GateCalled {T = ℕ} (λ failed. failed) counting (closed only_anna 0)
        (inner_with [] 0 0) (Command Pwd) (inner_with (Passes (Command Pwd) ∷ []) 0 0) (Ok 0) }
    ensures failed { (error : RustError) → fault_of error ≡ out_of_memory
        → GateCalled {T = ℕ} (λ failed. failed) counting (closed only_anna 0) (inner_with [] 0 0)
        (Command Noop) (inner_with (Passes (Command Noop) ∷ []) 0 1) (Err error) }
    ensures last { GateCalled {T = ℕ} (λ failed. failed) counting
        (guarded (Some 1) only_anna 0) (inner_with [] 0 0) (pass wrong)
        (inner_with (Makes too_many ∷ []) 0 0) (Ok 0) }
    ensures not_last { ¬ GateCalled {T = ℕ} (λ failed. failed) counting
        (guarded (Some 2) only_anna 0) (inner_with [] 0 0) (pass wrong)
        (inner_with (Makes too_many ∷ []) 0 0) (Ok 0) }
    ensures other_fault { (error : RustError) → fault_of error ≡ line_too_long
        → ¬ GateCalled {T = ℕ} (λ failed. failed) counting (closed only_anna 0) (inner_with [] 0 0)
        (Command Noop) (inner_with (Passes (Command Noop) ∷ []) 0 1) (Err error) }
{}

/// Who is turned away, and who reaches the handler.
pub fn events_are_gated()
    ensures turned_away { IsTurnedAway counting (closed only_anna 0) (user anna ∷ []) (Command Pwd) }
    ensures member { IsTurnedAway counting (closed only_anna 0) login (Command Pwd) → ⊥ }
    ensures reaches { ReachesHandler counting (closed only_anna 0) login (Command Pwd) }
    ensures stranger { ReachesHandler counting (closed only_anna 0) [] (Command Pwd) → ⊥ }
    ensures learns { LearnsName counting (closed only_anna 0) (user anna ∷ []) anna secret }
    ensures no_name { LearnsName counting (closed only_anna 0) (user anna ∷ []) anna wrong → ⊥ }
{}

/// What serving only members means, of events and of bytes.
pub fn members_are_served()
    ensures no_failure { NoFailure (CodeAndMsg 399 []) × NoFailure Nothing }
    ensures failure { NoFailure (CodeAndMsg 400 []) → ⊥ }
    ensures anyone_served { ServesMembersAlone only_anna counting 0 → ⊥ }
    ensures anyone_served_in_bytes { MembersAlone None only_anna (codes "PWD\r\n")
        (codes "257 here\r\n") → ⊥ }
    ensures stranger { MembersAlone None only_anna (codes "PWD\r\n") (codes "530 no\r\n") }
    ensures no_event { MembersAlone None only_anna [] (codes "530 no\r\n") → ⊥ }
    ensures plain { IsReadable (CodeAndMsg 100 (codes "x")) × SendsPlainExchanges counting 0 }
    ensures nothing_sent { SendsPlainExchanges silent 0 → ⊥ }
    ensures answered_once { SendsPlainExchanges answers_once false }
    ensures over { SendsPlainExchanges answers_once true → ⊥ }
    ensures line_feed { IsReadable (MultiLine 200 (codes "a\n" ∷ [])) → ⊥ }
{}

/// Which lines can be sent, and which logins are refused.
pub fn refused_logins()
    ensures sent { PasswordFits (Some 13) secret }
    ensures too_long { PasswordFits (Some 12) secret → ⊥ }
    ensures line_feed { PasswordFits None (codes "a\nb") → ⊥ }
    ensures refused { IsRefusedLogin None only_anna anna wrong
        × IsRefusedLogin None only_anna wrong secret }
    ensures accepted { IsRefusedLogin None only_anna anna secret → ⊥ }
{}

/// Which passwords look alike: after a name, those that are both refused for it, though one is that
/// of another user.
pub fn passwords_look_alike()
    ensures alike { LooksAlike only_anna only_anna (user anna ∷ []) (pass wrong) (pass (codes "other")) }
    ensures his_own { LooksAlike anna_and_ben anna_and_ben (user ben ∷ []) (pass wrong)
        (pass (codes "other")) → ⊥ }
    ensures told_apart { LooksAlike only_anna only_anna (user anna ∷ []) (pass wrong) (pass secret) → ⊥ }
    ensures no_name { LooksAlike only_anna only_anna [] (pass wrong) (pass secret) }
    ensures other_events { LooksAlike only_anna only_anna [] (Command Noop) (Command Quit) → ⊥ }
    ensures each { AllLookAlike anna_and_ben anna_and_ben (user anna ∷ pass wrong ∷ Command Noop ∷ [])
        (user anna ∷ pass (codes "other") ∷ Command Noop ∷ []) }
    ensures one_more { AllLookAlike only_anna only_anna (Command Noop ∷ []) [] → ⊥ }
    ensures same_lines { DifferInPasswords None (codes "NOOP\r\nPASS a\r\n")
        (codes "NOOP\r\nPASS b\r\n") }
    ensures other_lines { DifferInPasswords None (codes "TYPE a\r\n") (codes "TYPE i\r\n") → ⊥ }
    ensures never_fails { FailsAlike None counting 0 (codes "NOOP\r\n") [] → ⊥ }
{}

/// What a limit of two failed logins answers: the second is the last.
pub fn a_limit_counts()
    ensures replies { replies (gated_law counting) (guarded (Some 2) only_anna 0)
        (user anna ∷ pass wrong ∷ user anna ∷ pass secret ∷ pass wrong ∷ [])
        ≡ password_needed ∷ not_accepted ∷ password_needed ∷ logged_in ∷ too_many ∷ [] }
    ensures count { failed_in_run (gated_law counting) (guarded (Some 2) only_anna 0)
        (pass wrong ∷ user anna ∷ pass secret ∷ pass wrong ∷ pass wrong ∷ []) ≡ 2 }
    ensures done { ((gated_law counting).done (guarded (Some 0) only_anna 0) ≡ true)
        × ((gated_law counting).done (guarded (Some 1) only_anna 9) ≡ true) }
    ensures last { EndsWith too_many (gated_law counting)
        (guarded (Some 1) only_anna 0) (Command Noop ∷ pass wrong ∷ Command Noop ∷ []) }
    ensures not_last { EndsWith too_many (gated_law counting)
        (guarded (Some 2) only_anna 0) (pass wrong ∷ []) → ⊥ }
    ensures left { (last_state (gated_law counting) (guarded (Some 2) only_anna 0)
        (pass wrong ∷ login)).left ≡ Some 1 }
    ensures unlimited { failed_in_run (gated_law counting) (closed only_anna 0)
        (pass wrong ∷ pass wrong ∷ []) ≡ 2 }
    ensures none { failed_in_run (gated_law counting) (closed only_anna 0) login ≡ 0 }
    ensures preliminary { is_failure opened ≡ false }
    ensures not_ended { EndsWith here counting 0 (Command Noop ∷ []) → ⊥ }
{}

/// What the accounts are asked in a session, and which gate is before its first event.
#[tactic(auto, unfolding(unftp_control_defs::proofs::Computing::at_bytes))]
pub fn questions_are_asked()
    ensures session { (last_state (asked_law counting) (gate_asked [] (closed only_anna 0))
        (pass wrong ∷ user anna ∷ pass wrong ∷ Command Noop ∷ user anna ∷ pass secret ∷ pass wrong
        ∷ [])).asked ≡ Asks anna wrong ∷ Asks anna secret ∷ [] }
    ensures before { ((asked_law counting).next
        (gate_asked (Asks ben wrong ∷ []) (closed only_anna 0)) (Command Noop)).asked
        ≡ Asks ben wrong ∷ [] }
    ensures all { all_questions counting (closed only_anna 0)
        (user anna ∷ pass wrong ∷ pass secret ∷ []) ≡ Asks anna wrong ∷ [] }
    ensures within { questions_for (Some 13) counting (closed only_anna 0)
        (codes "USER anna\r\nPASS secret\r\n") ≡ Asks anna secret ∷ [] }
    ensures too_long { questions_for (Some 12) counting (closed only_anna 0)
        (codes "USER anna\r\nPASS secret\r\n") ≡ [] }
    ensures over { questions_for None counting (closed only_anna 0)
        (codes "USER anna\r\nQUIT\r\nPASS secret\r\n") ≡ [] }
    ensures closed { IsClosed {S = ℕ} (guarded (Some 1) only_anna 0) }
    ensures named { IsClosed {S = ℕ} (record (closed only_anna 0) { stage = stage Named anna }) → ⊥ }
    ensures quit { IsClosed {S = ℕ} (record (closed only_anna 0) { quit = true }) → ⊥ }
    ensures passed { IsClosed {S = ℕ} (record (closed only_anna 0) { passed = true }) → ⊥ }
{}

/// A session as contracts see it, here one that is the count of its failures, and another one.
pub fn sessions_are_seen_so()
    ensures same { (failures : ℕ)
        → snapshot_with (λ s. s) (λ s. s) (λ output. output) failures (appended_output [])
        ≡ snapshot failures failures (appended_output []) }
    ensures failed_once { snapshot {S = ℕ} 3 0 (appended_output []) ≡ snapshot 3 1 (appended_output [])
        → ⊥ }
{}
