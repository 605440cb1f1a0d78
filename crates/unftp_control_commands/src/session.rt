//! What a command changes beside its reply.
ghost use Rattle.std.specs.Prelude.{◌≡◌, ◌↔◌, IsTrue};
ghost use Rattle.unftp_control_commands.specs.declared.session.SessionChange.{SessionChange as RustChange};

/// What the session has to do once the reply is sent.
#[derive(Debug, PartialEq, Eq, Clone, Copy)]
pub enum SessionChange {
    /// Nothing.
    Nothing,
    /// Begin TLS on the control connection.
    SecureControlChannel,
    /// Use TLS on data connections from now on, or no longer.
    DataTls(bool),
}

/// `==` of changes is equality, and a clone is equal.
pub fn same_changes()
    // `==` returns true exactly for equal changes.
    ensures equal { (a b : RustChange) → IsTrue (⟦<SessionChange as PartialEq>⟧.eq a b) ↔ (a ≡ b) }
    // A clone equals its original.
    ensures clone { (a b : RustChange) → ⟦<SessionChange as Clone>⟧.is_clone a b → b ≡ a }
{}
