//! The lines that are forwarded for lines, and which of them keep their parameter.
#![tactic(auto, unfolding(unftp_control_defs::proofs::Computing::at_bytes))]

ghost use Rattle.std.specs.Prelude.{◌≡◌, ◌∷◌, ◌++◌, true, false, codes};
ghost use Rattle.unftp_control_defs.specs.Forwarded.{before_end, forwarded_line, keeps_parameter};
ghost use Rattle.unftp_control_defs.specs.FtpCommand.{FtpCommand, Rest};

/// An end is an LF, or CR LF; a CR before anything else is no part of it.
pub fn lines_end()
    ensures crlf { before_end (codes "a\r\n") ≡ codes "a" }
    ensures two_crs { before_end (codes "a\r\r\n") ≡ codes "a\r" }
{}

/// Verbs in upper case that take no value, or one of a type of their own, keep no parameter. Any
/// other word is a verb without a row, which does.
pub fn verbs_keep_parameters()
    ensures alone { keeps_parameter (codes "NOOP") ≡ false }
    ensures typed { keeps_parameter (codes "REST") ≡ false }
    ensures lower_case { keeps_parameter (codes "noop") ≡ true }
    ensures list { keeps_parameter (codes "LIST") ≡ true }
    ensures site { keeps_parameter (codes "SITE") ≡ true }
{}

/// A name that is not UTF-8 keeps its bytes, whatever command holds it.
pub fn names_keep_their_bytes()
    ensures name { (command : FtpCommand)
        → forwarded_line (codes "retr a" ++ 233 ∷ codes "\n") command
        ≡ codes "RETR a" ++ 233 ∷ codes "\r\n" }
    ensures offset { forwarded_line (codes "rest +07\n") (Rest 7) ≡ codes "REST 7\r\n" }
{}
