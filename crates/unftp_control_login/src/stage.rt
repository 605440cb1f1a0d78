//! How far a login has come, and what is done with an event: for a gate, and for a server in C.
ghost use Rattle.std.specs.Prelude.{◌≡◌};
ghost use Rattle.unftp_control_login.specs.Gate.{passes_on};
ghost use Rattle.unftp_control_login.specs.Login.{after_answer, is_open, login_after, login_step, role_of};

use bytes::Bytes;
use unftp_control_defs::verb::Verb;

/// What an event is to a login (RFC 959, section 4.1.1).
#[derive(Clone, Copy)]
pub enum Role {
    /// USER: it gives a name, and flushes the login.
    Name,
    /// PASS: it gives a password.
    Password,
    /// AUTH: it flushes the login (RFC 4217, section 4).
    Flush,
    /// It needs no login.
    Open,
    /// It needs a login.
    Closed,
}

/// How far a login has come. The numbers are those of `struct unftp_login`.
#[derive(Clone, Copy)]
pub enum Progress {
    /// No name was given, or the login was refused or flushed.
    NoName = 0,
    /// A name was given, and a password has to follow.
    Named = 1,
    /// The client is logged in.
    LoggedIn = 2,
    /// The accounts are asked about a password.
    Asked = 3,
}

/// What a server does with an event. The numbers are those of `enum unftp_login_step`.
#[derive(Clone, Copy)]
pub enum LoginStep {
    /// It answers the event as it would without a login.
    PassOn = 0,
    /// It keeps the name, and asks for the password.
    NeedPassword = 1,
    /// It asks the accounts whether the password is that of the name.
    AskAccounts = 2,
    /// It asks for a name first.
    NeedName = 3,
    /// It asks for a login first.
    NeedLogin = 4,
}

impl Role {
    /// That of a command, by the number of its verb. A number of no verb needs a login.
    pub fn of(number: u32) -> Role
        // USER is `Name`, PASS `Password`, AUTH `Flush`, a command that needs no login `Open`, and
        // any other number `Closed`.
        ensures { result ≡ role_of number }
    {
        match number {
            _ if number == Verb::User.number() => Role::Name,
            _ if number == Verb::Pass.number() => Role::Password,
            _ if number == Verb::Auth.number() => Role::Flush,
            _ if is_open(number) => Role::Open,
            _ => Role::Closed,
        }
    }
}

impl LoginStep {
    /// Whether the event is passed on.
    pub(crate) fn passes_on(self) -> bool
        ensures { result ≡ passes_on self }
    {
        matches!(self, LoginStep::PassOn)
    }
}

/// Whether a command needs no login, by the number of its verb, which is not USER, PASS or AUTH.
fn is_open(number: u32) -> bool
    ensures { result ≡ is_open number }
{
    number == Verb::Quit.number()
        || number == Verb::Pbsz.number()
        || number == Verb::Prot.number()
        || number == Verb::Feat.number()
        || number == Verb::Help.number()
        || number == Verb::Noop.number()
        || number == Verb::Syst.number()
}

impl Progress {
    /// What is done with an event.
    pub fn step(self, role: Role) -> LoginStep
        // USER needs a password, and PASS asks the accounts after a name, or else needs one. A
        // command that needs a login passes only after it, and all else passes.
        ensures { result ≡ login_step self role }
    {
        match (role, self) {
            (Role::Name, _) => LoginStep::NeedPassword,
            (Role::Password, Progress::Named) => LoginStep::AskAccounts,
            (Role::Password, _) => LoginStep::NeedName,
            (Role::Closed, Progress::LoggedIn) => LoginStep::PassOn,
            (Role::Closed, _) => LoginStep::NeedLogin,
            (Role::Flush | Role::Open, _) => LoginStep::PassOn,
        }
    }

    /// How far it has come after an event.
    pub fn after(self, role: Role) -> Progress
        // USER makes it `Named`, AUTH `NoName`, and PASS after a name `Asked`. At any other event
        // it stays, but `Asked` becomes `NoName`.
        ensures { result ≡ login_after self role }
    {
        match (role, self) {
            (Role::Name, _) => Progress::Named,
            (Role::Flush, _) | (_, Progress::Asked) => Progress::NoName,
            (Role::Password, Progress::Named) => Progress::Asked,
            (_, progress) => progress,
        }
    }

    /// How far it has come after an answer of the accounts. One that nothing asked for changes
    /// nothing.
    pub fn answered(self, accepted: bool) -> Progress
        // `Asked` becomes `LoggedIn` where the password is accepted, and else `NoName`. Any other
        // progress stays.
        ensures { result ≡ after_answer accepted self }
    {
        match self {
            Progress::Asked if accepted => Progress::LoggedIn,
            Progress::Asked => Progress::NoName,
            progress => progress,
        }
    }
}

/// How far a login has come, and the name that was given, until a password uses it up.
#[derive(Drop)]
pub struct Stage {
    pub(crate) progress: Progress,
    pub(crate) name: Bytes,
}
