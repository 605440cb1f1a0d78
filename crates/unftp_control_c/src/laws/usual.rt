//! Laws of the usual replies, and of those of a login.
ghost use Rattle.std.specs.Prelude.{◌≡◌, ◌≢◌, ◌≤◌, ℕ, Ok, Err};
ghost use Rattle.unftp_control_defs.specs.Bytes.{Bytes};
ghost use Rattle.unftp_control_defs.specs.Events.{FtpEvent};
ghost use Rattle.unftp_control_defs.specs.FtpReply.{IsReadable, encoded};
ghost use Rattle.unftp_control_commands.specs.UsualReplies.{usual_reply};
ghost use Rattle.unftp_control_login.specs.Gate.{decision_at, password_in};
ghost use Rattle.unftp_control_login.specs.Login.{Accounts};
ghost use Rattle.unftp_control_login.specs.declared.stage.LoginStep.{LoginStep};
ghost use Rattle.unftp_control_c.specs.Areas.{written};
ghost use Rattle.unftp_control_c.specs.Logins.{step_number};
ghost use Rattle.unftp_control_c.specs.Next.{given_for};
ghost use Rattle.unftp_control_c.specs.NumberedReplies.{login_bytes, own_reply, step_of, step_reply, usual_bytes};
ghost use Rattle.unftp_control_c.specs.declared.status.Status.{Status};
ghost use Rattle.unftp_control_c.specs.declared.status.Status.TheVariants.{InvalidArgument};

/// Each event has its usual reply, and no other number has one.
pub fn usual_replies_are_of_events()
    // The number and the value that `unftp_next` gives for an event have the usual reply to it.
    ensures events { (event : FtpEvent)
        → usual_bytes (given_for event).number (given_for event).value
        ≡ Ok (encoded (usual_reply event)) }
    // A number that is neither from 1 to 44 nor from 102 to 106 is an invalid argument.
    ensures numbers { (number : ℕ) (value : Bytes) → ¬ ((1 ≤ number) × (number ≤ 44))
        → ¬ ((102 ≤ number) × (number ≤ 106)) → usual_bytes number value ≡ Err InvalidArgument }
    // Where there is no reply, the number is an invalid argument and that of no event.
    ensures no_event { (number : ℕ) (value : Bytes) (status : Status)
        → usual_bytes number value ≡ Err status → (status ≡ InvalidArgument)
        × ((event : FtpEvent) → (given_for event).number ≢ number) }
    // A client reads each usual reply back as it is.
    ensures readable { (event : FtpEvent) → IsReadable (usual_reply event) }
    // What is written has at most 64 bytes.
    ensures room { (number : ℕ) (value out : Bytes)
        → (written (usual_bytes number value) out).text_length ≤ 64 }
{}

/// The replies of a login are those of the gate in Rattle to the same events.
pub fn login_replies_are_of_the_gate()
    // The reply at a step is the one in the gate's decision there. An event that is passed on has
    // none.
    ensures decided { (step : LoginStep) (accepts : Accounts) (name : Bytes) (event : FtpEvent)
        → step_reply step (accepts name (password_in event))
        ≡ own_reply (decision_at step accepts name event) }
    // The number of a step is read as that step.
    ensures steps { (step : LoginStep) → step_of (step_number step) ≡ step }
    // What is written has at most 64 bytes.
    ensures room { (step accepted : ℕ) (out : Bytes)
        → (written (login_bytes step accepted) out).text_length ≤ 64 }
{}
