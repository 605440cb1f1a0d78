//! The one way by which the accounts are asked.
ghost use Rattle.std.specs.Prelude.{◌≡◌, ◌++◌, ◌∷◌, []};
ghost use Rattle.unftp_control_login.specs.HandlerCalls.{Asks};

use crate::accounts::Accounts;
use crate::calls::{Calls, Note};

/// Accounts with a list of what they were asked. They are private, and each question is recorded.
/// The list takes no byte, and only contracts see it.
#[derive(Drop)]
pub(crate) struct AskedAccounts<A: Accounts> {
    accounts: A,
    questions: Calls,
}

impl<A: Accounts> AskedAccounts<A> {
    /// These accounts, which were asked nothing so far.
    pub(crate) fn new(accounts: A) -> AskedAccounts<A>
        ensures accounts { result.accounts ≡ accounts }
        ensures questions { result.questions ≡ [] }
    {
        AskedAccounts {
            accounts,
            questions: Calls::none(),
        }
    }

    /// Asks once whether the password is that of the name.
    pub(crate) fn ask(&mut self, name: &[u8], password: &[u8]) -> bool
        ensures answer { result ≡ A.accepts self.old.accounts name.now password.now }
        ensures accounts { self.new.accounts ≡ self.old.accounts }
        ensures questions { self.new.questions
            ≡ self.old.questions ++ Asks name.now password.now ∷ [] }
    {
        self.questions.push(&Note::Asks { name, password });
        self.accounts.accepts(name, password)
    }
}
