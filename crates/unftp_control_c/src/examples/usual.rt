//! The usual replies and those of a login, by their numbers.
#![tactic(auto, unfolding(unftp_control_defs::proofs::Computing::at_bytes))]

ghost use Rattle.std.specs.Prelude.{◌≡◌, [], codes, Err, Ok};
ghost use Rattle.unftp_control_c.specs.NumberedReplies.{login_bytes, usual_bytes};
ghost use Rattle.unftp_control_c.specs.declared.status.Status.TheVariants.{InvalidArgument};

/// Events, by what `unftp_next` returned and its value: 7 is STRU, 44 a verb that is no other's, 102
/// a line that is refused, and 101 none.
pub fn events_have_usual_replies()
    ensures structure { usual_bytes 7 (codes "F") ≡ Ok (codes "200 In File structure mode\r\n") }
    ensures records { usual_bytes 7 (codes "R")
        ≡ Ok (codes "504 Only File structure mode is supported\r\n") }
    ensures not_okay { ¬ (usual_bytes 7 (codes "R")
        ≡ Ok (codes "200 In File structure mode\r\n")) }
    ensures utf8 { usual_bytes 25 (codes "UTF8 ON") ≡ Ok (codes "200 Always in UTF-8 mode.\r\n") }
    ensures no_utf8 { usual_bytes 25 (codes "UTF8 OFF")
        ≡ Ok (codes "504 Non UTF-8 mode not supported\r\n") }
    ensures tls { usual_bytes 35 (codes "TLS") ≡ Ok (codes "502 TLS/SSL not configured\r\n") }
    ensures other { usual_bytes 44 (codes "a") ≡ Ok (codes "502 Not implemented\r\n") }
    ensures parameter { usual_bytes 102 [] ≡ Ok (codes "501 Invalid parameter\r\n") }
    ensures not_the_verb { ¬ (usual_bytes 102 [] ≡ Ok (codes "500 Invalid parameter\r\n")) }
    ensures long { usual_bytes 105 [] ≡ Ok (codes "500 Line too long\r\n") }
    ensures memory { usual_bytes 106 [] ≡ Ok (codes "421 Out of memory\r\n") }
    ensures done { usual_bytes 0 [] ≡ Err InvalidArgument }
    ensures past_the_last { usual_bytes 45 [] ≡ Err InvalidArgument }
    ensures more { usual_bytes 101 [] ≡ Err InvalidArgument }
    ensures room { ¬ (usual_bytes 107 [] ≡ Ok (codes "421 Out of memory\r\n")) }
{}

/// Steps, by their numbers, and what the accounts answer: any number but 0 accepts.
pub fn steps_have_replies()
    ensures password { login_bytes 1 0 ≡ Ok (codes "331 User name okay, need password\r\n") }
    ensures accepted { login_bytes 2 7 ≡ Ok (codes "230 User logged in, proceed\r\n") }
    ensures refused { login_bytes 2 0 ≡ Ok (codes "530 Login incorrect\r\n") }
    ensures not_accepted { ¬ (login_bytes 2 0 ≡ login_bytes 2 1) }
    ensures name { login_bytes 3 1 ≡ Ok (codes "503 Send USER first\r\n") }
    ensures login { login_bytes 4 0 ≡ Ok (codes "530 Log in with USER and PASS\r\n") }
    ensures passed_on { login_bytes 0 1 ≡ Err InvalidArgument }
    ensures no_step { login_bytes 5 1 ≡ Err InvalidArgument }
{}
