//! Who may log in.
ghost use Rattle.std.specs.Prelude.{◌&&◌, bytes_eq};
ghost use Rattle.std.specs.List.{list_any};

use unftp_control_login::Accounts;

/// A name and its password.
#[derive(Clone, Copy)]
pub struct Account {
    pub name: &'static str,
    pub password: &'static str,
}

/// Accounts in a table.
#[derive(Drop)]
pub struct Table {
    pub accounts: &'static [Account],
}

impl Accounts for Table {
    ghost accepts = { λ table name password. list_any (λ account.
        bytes_eq account.name.now name && bytes_eq account.password.now password)
        table.accounts.now };

    fn accepts(&self, name: &[u8], password: &[u8]) -> bool {
        self.accounts.iter().any(|account| {
            account.name.as_bytes() == name && account.password.as_bytes() == password
        })
    }
}
