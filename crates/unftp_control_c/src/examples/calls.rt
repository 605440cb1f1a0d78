//! What a caller of `unftp_next` does, and what it is given.
#![tactic(auto, unfolding(unftp_control_defs::proofs::Computing::at_bytes))]

ghost use Rattle.std.specs.Prelude.{◌≡◌, ◌∷◌, [], false, codes};
ghost use Rattle.unftp_control_defs.specs.Events.{Command, Refused, InvalidCommand, OutOfMemory, refusal_fault};
ghost use Rattle.unftp_control_defs.specs.FtpCommand.{InvalidEol as RefusedEol, Retr, Site};
ghost use Rattle.unftp_control_c.specs.Rows.{leaving};
ghost use Rattle.unftp_control_c.specs.Taking.{AreCallerSteps, Called, IsNumberOf, Received, given_by, gives_none, new_caller, scanned_by};
ghost use Rattle.unftp_control_c.specs.Next.{given_for};

/// Which steps of a caller lead from a new connection to these pending bytes.
pub fn callers_make_steps()
    // a line in two pieces, a call before the second, and one after it
    ensures line { AreCallerSteps (new_caller 9)
        (Received (codes "NO") ∷ Called [] (leaving 101 0 2 0 9 [] 0 0 0)
        ∷ Received (codes "OP\nQ") ∷ Called [] (leaving 10 5 0 0 9 [] 0 0 0) ∷ [])
        (record {
          connection = record { limit = 9; offset = 0; skipping = 0 };
          bytes = codes "Q";
        }) }
    ensures piece_forgotten { ¬ AreCallerSteps (new_caller 0) (Received (codes "N") ∷ [])
        (new_caller 0) }
    // no byte is there
    ensures no_such_call { ¬ AreCallerSteps (new_caller 0)
        (Called [] (leaving 10 0 0 0 0 [] 0 0 0) ∷ []) (new_caller 0) }
{}

/// How many bytes such steps scan: those of a call that is made again are not counted.
pub fn callers_scan_bytes()
    ensures pieces { scanned_by (new_caller 9)
        (Received (codes "NO") ∷ Called [] (leaving 101 0 2 0 9 [] 0 0 0)
        ∷ Received (codes "OP\nQ") ∷ Called [] (leaving 10 5 0 0 9 [] 0 0 0) ∷ []) ≡ 5 }
    ensures made_again { scanned_by (new_caller 9)
        (Received (codes "LANG\n") ∷ Called [] (leaving 107 0 0 0 9 [] 4 0 0) ∷ []) ≡ 0 }
{}

/// What an event is given as, and what a call gives.
pub fn callers_are_given_lines()
    ensures command { given_for (Command (Retr (codes "a")))
        ≡ record { number = 14; name = []; value = codes "a" } }
    ensures subcommand { given_for (Command (Site (codes "CHMOD") (codes "a")))
        ≡ record { number = 43; name = codes "CHMOD"; value = codes "a" } }
    // in the pending bytes, and in an area that has one byte more
    ensures in_line { given_by (codes "RETR a\nQ") (leaving 14 7 0 0 0 [] 0 1 5)
        ≡ record { number = 14; name = []; value = codes "a" } ∷ [] }
    ensures in_area { given_by (codes "auth tls\n") (leaving 35 9 0 0 0 (codes "TLS.") 0 3 0)
        ≡ record { number = 35; name = []; value = codes "TLS" } ∷ [] }
    ensures refusal { gives_none 102 ≡ false }
{}

/// The numbers of refused lines, by the kinds of their faults.
pub fn refused_lines_have_numbers()
    ensures eol { (given_for (Refused (refusal_fault RefusedEol))).number ≡ 104 }
    ensures eol_kind { IsNumberOf InvalidCommand 104 }
    ensures other_kind { ¬ IsNumberOf InvalidCommand 103 }
    ensures no_line { ¬ IsNumberOf OutOfMemory 106 }
{}
