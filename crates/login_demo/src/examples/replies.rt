//! What is said of entries, and to commands that ask for none.
ghost use Rattle.std.specs.Prelude.{◌≡◌, [], ◌∷◌, Some, None, codes};
ghost use Rattle.unftp_control_defs.specs.Events.{InvalidCommand, LineTooLong, NoSource, Parse, UnknownCommand, refusal_fault};
ghost use Rattle.unftp_control_defs.specs.FtpCommand.{InvalidCommand as NoCommand};
ghost use Rattle.unftp_control_defs.specs.FtpReply.{CodeAndMsg, MultiLine};
ghost use Rattle.login_demo.specs.Facts.{mlst_reply, pwd_reply};
ghost use Rattle.login_demo.specs.Standing.{refusal_reply};

use crate::tree::{Directory, Entry, File};

/// PWD (RFC 959, appendix II).
pub fn directories_are_shown_so()
    ensures quoted { pwd_reply Directory.Quoted
        ≡ CodeAndMsg 257 (codes "\"/pub/a \"\"quoted\"\" name\" is the current directory") }
{}

/// MLST, SIZE and MDTM (RFC 3659).
pub fn entries_are_shown_so()
    ensures file { mlst_reply (Some (Entry.File File.Readme)) ≡ MultiLine 250
        (codes " Listing" ∷ codes " type=file;size=1234;modify=20240229123456; /pub/readme.txt"
        ∷ codes "End" ∷ []) }
    ensures none { mlst_reply None ≡ CodeAndMsg 550 (codes "No such file or directory") }
{}

/// Lines that are no command. A kind with a text of its own shows none of it.
pub fn refusals_are_answered_so()
    ensures parameter { refusal_reply (refusal_fault NoCommand)
        ≡ CodeAndMsg 501 (codes "Invalid command") }
    ensures source_first { refusal_reply (record { kind = LineTooLong; source = Parse None })
        ≡ CodeAndMsg 500 (codes "Out of memory") }
    ensures no_source { refusal_reply (record { kind = InvalidCommand; source = NoSource })
        ≡ CodeAndMsg 500 (codes "Not understood") }
    ensures unknown { refusal_reply (record {
      kind = UnknownCommand (codes "\n");
      source = NoSource;
    })
        ≡ CodeAndMsg 500 (codes "Not understood") }
{}
