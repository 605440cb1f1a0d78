//! Sessions: what commands say in a directory, and where they lead.
ghost use Rattle.std.specs.Prelude.{◌≡◌, ◌++◌, true, false, Some, None, codes};
ghost use Rattle.unftp_control_defs.specs.Events.{InvalidCommand, NoSource, out_of_memory};
ghost use Rattle.unftp_control_defs.specs.FtpCommand.{Cwd, Quit};
ghost use Rattle.unftp_control_defs.specs.FtpReply.{CodeAndMsg};
ghost use Rattle.unftp_control_defs.specs.Run.{as_session, text_for};
ghost use Rattle.login_demo.specs.Session.{command_reply, files_law, found, new_session, session_after};

use crate::session::Session;
use crate::tree::{Directory, Entry, File};

/// What paths lead to.
pub fn paths_are_found_so()
    ensures same_name { found Directory.Pub (codes "pub") ≡ None }
    ensures parent { found Directory.Pub (codes "..") ≡ Some (Entry.Directory Directory.Root) }
    ensures slash_after_a_file { found Directory.Pub (codes "readme.txt/")
        ≡ Some (Entry.File File.Readme) }
{}

/// CWD and CDUP (RFC 959, section 4.1.1): a file is no directory.
pub fn moves_are_answered_so()
    ensures directory { command_reply Directory.Root (Cwd (codes "pub"))
        ≡ CodeAndMsg 250 (codes "Directory changed") }
    ensures file { command_reply Directory.Pub (Cwd (codes "readme.txt"))
        ≡ CodeAndMsg 550 (codes "No such directory") }
{}

/// Where a session is after a command.
pub fn sessions_go_on_so()
    ensures directory { (over : _)
        → session_after (record { directory = Directory.Root; is_over = over }) (Cwd (codes "pub"))
        ≡ record { directory = Directory.Pub; is_over = over } }
    ensures file { (over : _)
        → session_after (record { directory = Directory.Pub; is_over = over })
        (Cwd (codes "readme.txt")) ≡ record { directory = Directory.Pub; is_over = over } }
    ensures end { (over : _)
        → session_after (record { directory = Directory.Notes; is_over = over }) Quit
        ≡ record { directory = Directory.Notes; is_over = true } }
{}

/// When it is done, and with which faults it may fail.
pub fn the_law_is_so()
    ensures done { files_law.done (record { directory = Directory.Root; is_over = true }) ≡ true }
    ensures not_done { files_law.done new_session ≡ false }
    ensures memory { (session event : _) → files_law.may_fail session event out_of_memory }
    ensures other_fault { (session event : _) → ¬ files_law.may_fail session event
        (record { kind = InvalidCommand; source = NoSource }) }
{}

/// A whole session, with a line that is too long.
pub fn a_session_is_written_so()
    ensures { text_for (Some 14) (as_session files_law) new_session
        (codes "CWD pub\r\nCWD readme.txt\r\nPWD\r\nQUIT\r\nNOOP\r\n")
        ≡ codes "250 Directory changed\r\n500 Line too long\r\n"
        ++ codes "257 \"/pub\" is the current directory\r\n221 Goodbye\r\n" }
{}
