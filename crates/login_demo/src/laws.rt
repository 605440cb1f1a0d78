//! What the definitions promise, each the contract of a function that does nothing.
ghost use Rattle.std.specs.Prelude.{◌≡◌, Some};
ghost use Rattle.unftp_control_defs.specs.Run.{as_session};
ghost use Rattle.unftp_control_login.specs.Promises.{SendsPlainExchanges};
ghost use Rattle.login_demo.specs.Session.{files_law, found};
ghost use Rattle.login_demo.specs.Tree.{entry_names};
ghost use Rattle.login_demo.specs.Walking.{path_text};
ghost use Rattle.login_demo.specs.declared.session.Session.{Session};
ghost use Rattle.login_demo.specs.declared.tree.Directory.{Directory};
ghost use Rattle.login_demo.specs.declared.tree.Entry.{Entry};

/// Each event has one reply that is sent and is final, and a client can read it back (RFC 959,
/// section 4.2).
pub fn files_replies_are_plain()
    // Until the session is over, the tree has one reply to each event, which is readable and final.
    ensures { (first : Session) → SendsPlainExchanges (as_session files_law) first }
{}

/// The path from the root with which an entry is shown leads to it from each directory.
pub fn shown_paths_lead_back()
    // From each directory, the path that is shown for an entry leads to it.
    ensures { (directory : Directory) (entry : Entry)
        → found directory (path_text (entry_names entry)) ≡ Some entry }
{}
