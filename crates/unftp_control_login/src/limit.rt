//! How many logins of a session may fail.
ghost use Rattle.std.specs.Prelude.{◌≡◌, ◌≤◌, None, Some};
ghost use Rattle.unftp_control_login.specs.LoginLimit.{is_last, is_used_up, one_fewer};

/// How many more logins of a session may fail, the last of which ends it.
#[derive(Drop)]
pub struct LoginLimit {
    left: Option<u32>,
}

impl LoginLimit {
    /// So many logins may fail, and the last of them ends the session. It has to be at least 1.
    pub fn new(limit: u32) -> LoginLimit
        // At least one login may fail.
        requires { 1 ≤ limit }
        // So many logins may fail.
        ensures { result.left ≡ Some limit }
    {
        LoginLimit { left: Some(limit) }
    }

    /// Any number may fail.
    pub(crate) fn none() -> LoginLimit
        ensures { result.left ≡ None }
    {
        LoginLimit { left: None }
    }

    /// Counts a login that fails, and returns whether it is the last that may.
    pub(crate) fn count(&mut self) -> bool
        ensures last { result ≡ is_last self.old.left }
        ensures left { self.new.left ≡ one_fewer self.old.left }
    {
        match self.left {
            Some(left) => {
                self.left = Some(left.saturating_sub(1));
                left <= 1
            }
            None => false,
        }
    }

    /// Whether the last login that may has failed.
    pub(crate) fn is_used_up(&self) -> bool
        ensures { result ≡ is_used_up self.now.left }
    {
        self.left == Some(0)
    }
}
