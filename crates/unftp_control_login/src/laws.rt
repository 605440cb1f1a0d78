//! What a login gate promises of all inputs, each the contract of a function that does
//! nothing.
ghost use Rattle.std.specs.Prelude.{◌≡◌, ◌<◌, ◌≤◌, ◌++◌, ◌⊎◌, ℕ, true, false, List, Option, Some, IsTrue};
ghost use Rattle.unftp_control_defs.specs.Bytes.{Bytes};
ghost use Rattle.unftp_control_defs.specs.Events.{FtpEvent, Command};
ghost use Rattle.unftp_control_defs.specs.FtpCommand.{Quit};
ghost use Rattle.unftp_control_defs.specs.Run.{after, last_state, replies_to, run_for, text_for};
ghost use Rattle.unftp_control_login.specs.Login.{Accounts, GaveName, IsLoggedIn, is_login, needs_login};
ghost use Rattle.unftp_control_login.specs.Asked.{asked_law, questions_for};
ghost use Rattle.unftp_control_login.specs.Gate.{Gated, gated_law, unlimited};
ghost use Rattle.unftp_control_login.specs.HandlerCalls.{HandlerCall};
ghost use Rattle.unftp_control_login.specs.LoginLimit.{EndsWith, failed_in_run, is_failed_login, too_many};
ghost use Rattle.unftp_control_login.specs.Promises.{AccountsStayHidden, CallsHidePasswords, ErrorsHidePasswords, IsTurnedAway, LearnsName, MembersAlone, PasswordsStayHidden, ReachesHandler, RefusedLoginsLookAlike, RefusedPasswordsLookAlike, SendsPlainExchanges, ServesMembersAlone, gate_calls, guarded};

use unftp_control_serve::Session;

/// Whatever handler the gate has, and whatever came before: an event that needs a login comes
/// after one, or its only reply is 530 and the handler doesn't receive it (RFC 959, section 5.4).
pub fn gated_by_login<H: Session>()
    // An event that needs a login comes after a login, or its only reply is 530 and the handler's
    // state stays the same.
    ensures { (heard : List H.Heard)
        (accepts : Accounts) (failures : Option ℕ) (inner : H.State) (before : List FtpEvent)
        (event : FtpEvent) → IsTrue (needs_login event) → IsLoggedIn accepts before
        ⊎ IsTurnedAway (H.law heard) (guarded failures accepts inner) before event }
{}

/// Each event but USER and PASS reaches the handler after a login, and one that needs no login
/// always does; and where a password is accepted, the handler receives USER with the name.
pub fn members_reach_the_handler<H: Session>()
    // After a login the handler receives each event but USER and PASS, and the replies are its own.
    ensures member { (heard : List H.Heard)
        (accepts : Accounts) (failures : Option ℕ) (inner : H.State) (before : List FtpEvent)
        (event : FtpEvent) → is_login event ≡ false → IsLoggedIn accepts before
        → ReachesHandler (H.law heard) (guarded failures accepts inner) before event }
    // The handler always receives an event that needs no login, but USER and PASS, and the replies
    // are its own.
    ensures anyone { (heard : List H.Heard)
        (accepts : Accounts) (failures : Option ℕ) (inner : H.State) (before : List FtpEvent)
        (event : FtpEvent) → is_login event ≡ false → needs_login event ≡ false
        → ReachesHandler (H.law heard) (guarded failures accepts inner) before event }
    // Where the accounts accept a password for the name that was given, PASS leaves the handler in
    // its state after USER with that name.
    ensures name { (heard : List H.Heard)
        (accepts : Accounts) (failures : Option ℕ) (inner : H.State) (before : List FtpEvent)
        (name password : Bytes) → GaveName name before → accepts name password ≡ true
        → LearnsName (H.law heard) (guarded failures accepts inner) before name password }
{}

/// Over an input the accounts of a gate are asked about each password that comes after a name, once
/// and in order, and nothing else. Those before it stay.
pub fn accounts_are_asked_once<H: Session>()
    // In the run over an input the accounts are asked about each password that comes after a name,
    // once and in order, and nothing else.
    ensures { (heard : List H.Heard) (limit : Option ℕ) (asked : List HandlerCall)
        (gate : Gated H.State) (input : Bytes) → (last_state (asked_law (H.law heard))
        (record { gate = gate; asked = asked }) (run_for limit (asked_law (H.law heard))
        (record { gate = gate; asked = asked }) input)).asked
        ≡ asked ++ questions_for limit (H.law heard) gate input }
{}

/// Whatever handler the gate has, and whatever a client sends: to an event that needs a login, a
/// reply that reports no failure comes only after a login. With a limit on failed logins, it stays
/// so.
pub fn members_alone_are_served<H: Session>()
    // Whatever came before, a reply to an event that needs a login has a code of 400 or more, or it
    // comes after a login.
    ensures { (heard : List H.Heard) (accepts : Accounts) (failures : Option ℕ) (inner : H.State)
        → ServesMembersAlone accepts (gated_law (H.law heard)) (guarded failures accepts inner) }
{}

/// In bytes, of a handler that gives each event preliminary replies and then a final one, all sent
/// and plain, until it is done. Whatever the input: a reply in the output to a command that needs a
/// login, and that reports no failure, comes only after a USER and a PASS that the accounts accept.
pub fn members_alone_are_served_in_bytes<H: Session>()
    // Where the handler gives readable exchanges, a client reads the output as one list of replies.
    // A code below 400 among those to what needs a login comes only after one.
    ensures { (heard : List H.Heard) (inner : H.State) → SendsPlainExchanges (H.law heard) inner
        → (limit : Option ℕ) (accepts : Accounts) (failures : Option ℕ)
        (input : Bytes) → MembersAlone limit accepts input (text_for limit
        (gated_law (H.law heard)) (guarded failures accepts inner) input) }
{}

/// The output reveals about a password only whether it was accepted: two inputs whose events differ
/// in passwords that the accounts answer alike, for the name that was given, have one output.
pub fn passwords_stay_hidden<H: Session>()
    // Two inputs have one output where their events are the same, but for passwords that the
    // accounts answer alike for the name that was given.
    ensures { (heard : List H.Heard) (limit : Option ℕ) (accepts : Accounts)
        (failures : Option ℕ) (inner : H.State) → PasswordsStayHidden limit accepts
        (gated_law (H.law heard)) (guarded failures accepts inner) }
{}

/// Nor does an error reveal more, where the inputs differ only in lines that give passwords.
/// However a session over one of them fails, one over the other may fail with the same error, and
/// with the same bytes written. And at each event the gate makes the same calls: the handler
/// receives the same, and memory is asked for the same replies. It fails where one of these calls
/// fails, and only there (`calls` of its `first` and `further`).
pub fn errors_hide_passwords<H: Session>()
    // Where two inputs differ only in lines that give passwords, which are answered alike, each
    // error over one may come over the other, with the same bytes written.
    ensures errors { (heard : List H.Heard) (limit : Option ℕ) (accepts : Accounts)
        (failures : Option ℕ) (inner : H.State) → ErrorsHidePasswords limit accepts
        (gated_law (H.law heard)) (guarded failures accepts inner) }
    // Where the events of two inputs are the same but for passwords that are answered alike, the
    // gate makes the same calls at each event.
    ensures calls { (heard : List H.Heard) (limit : Option ℕ) (accepts : Accounts)
        (failures : Option ℕ) (inner : H.State) → CallsHidePasswords limit accepts
        (gated_law (H.law heard)) (guarded failures accepts inner) (gate_calls (H.law heard)) }
{}

/// What is written and called depends on the accounts only by their answers to what the session may
/// ask: whether a password is that of the name that was given before it. Two accounts that answer
/// these alike give one output. So no output reveals what they would answer of another name or of
/// another password.
pub fn accounts_stay_hidden<H: Session>()
    // Two accounts that answer alike to all that an input may ask of them give one output, and the
    // gate makes the same calls.
    ensures { (heard : List H.Heard)
        (limit : Option ℕ) (accepts other : Accounts) (failures : Option ℕ) (inner : H.State)
        → AccountsStayHidden limit accepts other (gate_calls (H.law heard)) (gated_law (H.law heard))
        (guarded failures accepts inner) (guarded failures other inner) }
{}

/// In bytes: two passwords that the accounts answer alike for the name that was given, in lines of
/// PASS within the limit, give one output. So a wrong password gives what another user's gives.
pub fn refused_passwords_look_alike<H: Session>()
    // Two inputs that differ in one canonical PASS line, within the limit and after complete lines,
    // have one output where both passwords, without a line feed, are answered alike.
    ensures { (heard : List H.Heard) (limit : Option ℕ) (accepts : Accounts)
        (failures : Option ℕ) (inner : H.State) → RefusedPasswordsLookAlike limit accepts
        (gated_law (H.law heard)) (guarded failures accepts inner) }
{}

/// A login that is refused gives the same output whether its name is known or not.
pub fn refused_logins_look_alike<H: Session>()
    // Two inputs that differ in the canonical USER and PASS lines of one refused login have one
    // output, within the limit, after complete lines and with no line feed in name or password.
    ensures { (heard : List H.Heard) (limit : Option ℕ) (accepts : Accounts)
        (failures : Option ℕ) (inner : H.State) → RefusedLoginsLookAlike limit accepts
        (gated_law (H.law heard)) (guarded failures accepts inner) }
{}

/// In a session no more logins fail than the limit allows, and the last that may fail is answered
/// 421, which is the last reply of the session.
pub fn failed_logins_are_limited<H: Session>()
    // With a limit of at least 1, no more logins of a run fail than it allows.
    ensures count { (heard : List H.Heard) (s : Gated H.State) (left : ℕ) (events : List FtpEvent)
        → s.left ≡ Some left → 1 ≤ left → failed_in_run (gated_law (H.law heard)) s events ≤ left }
    // Where as many logins fail as a limit of at least 1 allows, 421 is the last reply, and the
    // session ends.
    ensures last { (heard : List H.Heard) (s : Gated H.State) (left : ℕ) (events : List FtpEvent)
        → s.left ≡ Some left → 1 ≤ left → failed_in_run (gated_law (H.law heard)) s events ≡ left
        → EndsWith too_many (gated_law (H.law heard)) s events }
{}

/// While more than one login may fail, and at each event that is no failed login, a limit changes
/// neither the replies nor whether the session ends.
pub fn few_failures_change_nothing<H: Session>()
    // While more than one login may fail, and at each event that is no failed login, the limit
    // changes no reply.
    ensures says { (heard : List H.Heard) (s : Gated H.State) (left : ℕ) (event : FtpEvent)
        → s.left ≡ Some left → (1 < left) ⊎ (is_failed_login event
        (replies_to (gated_law (H.law heard)) (unlimited s) event) ≡ false)
        → replies_to (gated_law (H.law heard)) s event
        ≡ replies_to (gated_law (H.law heard)) (unlimited s) event }
    // While at least one more login may fail, the limit changes whether the session ends only at
    // the last failed login that may.
    ensures done { (heard : List H.Heard) (s : Gated H.State) (left : ℕ) (event : FtpEvent)
        → s.left ≡ Some left → 1 ≤ left → (1 < left) ⊎ (is_failed_login event
        (replies_to (gated_law (H.law heard)) (unlimited s) event) ≡ false)
        → (gated_law (H.law heard)).done (after (gated_law (H.law heard)) s event)
        ≡ (gated_law (H.law heard)).done (after (gated_law (H.law heard)) (unlimited s) event) }
{}

/// The session ends with the replies to QUIT (RFC 959, section 4.1.1).
pub fn quit_ends_the_session<H: Session>()
    // After the replies to QUIT the session is done.
    ensures { (heard : List H.Heard) (s : Gated H.State)
        → (gated_law (H.law heard)).done (after (gated_law (H.law heard)) s (Command Quit)) ≡ true }
{}
