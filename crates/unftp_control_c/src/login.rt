//! A login: which events a server passes on, and which it answers itself.
ghost use Rattle.std.specs.Prelude.{◌≡◌, ◌==◌, ◌≢◌, if◌then◌else◌};
ghost use Rattle.unftp_control_login.specs.Login.{login_after, login_step};
ghost use Rattle.unftp_control_login.specs.declared.stage.Progress.TheVariants.{Asked};
ghost use Rattle.unftp_control_c.specs.Logins.{event_role, is_refused, progress_of, stage_number, step_number};
ghost use Rattle.unftp_control_c.specs.Numbers.{status_number};
ghost use Rattle.unftp_control_c.specs.declared.status.Status.TheVariants.{Done, InvalidArgument};

use crate::status::Status;
use unftp_control_login::{Progress, Role};

/// What a server keeps of a login: `struct unftp_login` of include/unftp_control.h.
#[repr(C)]
#[derive(Clone, Copy)]
pub struct Login {
    /// The number of how far it has come.
    pub stage: u32,
}

/// How far a login has come, by its number.
fn progress_of(stage: u32) -> Progress
    ensures { result ≡ progress_of stage }
{
    match stage {
        1 => Progress::Named,
        2 => Progress::LoggedIn,
        3 => Progress::Asked,
        _ => Progress::NoName,
    }
}

/// What an event is to a login, by its number.
fn event_role(event: u32) -> Role
    ensures { result ≡ event_role event }
{
    if is_refused(event) {
        return Role::Open;
    }
    Role::of(event)
}

/// Whether it is the number of a line that is refused, or for which memory ran out.
fn is_refused(event: u32) -> bool
    ensures { result ≡ is_refused event }
{
    event == Status::InvalidCommand.number()
        || event == Status::InvalidUtf8.number()
        || event == Status::InvalidEol.number()
        || event == Status::LineTooLong.number()
        || event == Status::OutOfMemory.number()
}

/// What is done with an event: `unftp_login_event` of include/unftp_control.h.
#[unsafe(no_mangle)]
pub extern "C" fn unftp_login_event(login: &mut Login, event: u32) -> u32
    // The result is the number of what is done with this event at this stage.
    ensures step { result
        ≡ step_number (login_step (progress_of login.old.stage) (event_role event)) }
    // The stage is then the one after this event.
    ensures stage { login.new.stage
        ≡ stage_number (login_after (progress_of login.old.stage) (event_role event)) }
{
    let progress = progress_of(login.stage);
    let role = event_role(event);
    login.stage = progress.after(role) as u32;
    progress.step(role) as u32
}

/// What the accounts have answered: `unftp_login_answer` of include/unftp_control.h.
#[unsafe(no_mangle)]
pub extern "C" fn unftp_login_answer(login: &mut Login, accepted: u32) -> u32
    // Where the accounts were asked, the result is `Done`, and the stage is 2 where they accepted,
    // and 0 where they did not.
    ensures asked { login.old.stage ≡ stage_number Asked → (result ≡ status_number Done)
        × (login.new.stage ≡ (if accepted == 0 then 0 else 2)) }
    // Where they were not asked, the result is an invalid argument, and the struct is unchanged.
    ensures not_asked { login.old.stage ≢ stage_number Asked
        → (result ≡ status_number InvalidArgument) × (login.new ≡ login.old) }
{
    let progress = progress_of(login.stage);
    if !matches!(progress, Progress::Asked) {
        return Status::InvalidArgument.number();
    }
    login.stage = progress.answered(accepted != 0) as u32;
    Status::Done.number()
}
