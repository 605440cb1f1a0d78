//! Who may log in.
ghost use Rattle.std.specs.Prelude.{◌≡◌, ℕ, List, Bool};

/// Who may log in.
pub trait Accounts {
    ghost accepts: { Self → List ℕ → List ℕ → Bool };

    /// Whether the password is that of the name, both as the client sent them (RFC 959, section
    /// 4.1.1). A name that isn't known has no password.
    ///
    /// The answer depends only on the accounts, the name and the password, so it is the same
    /// however often it is asked. Nothing is said of how long it takes.
    fn accepts(&self, name: &[u8], password: &[u8]) -> bool
        // The answer depends only on the accounts, the name and the password.
        ensures { result ≡ accepts self.now name.now password.now };
}
