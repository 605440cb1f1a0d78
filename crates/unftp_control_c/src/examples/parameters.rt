//! Parameters of lines as bytes, worked out by hand.
#![tactic(auto, unfolding(unftp_control_defs::proofs::Computing::at_bytes))]

ghost use Rattle.std.specs.Prelude.{◌≡◌, ◌≢◌, [], ◌∷◌, ◌++◌, Ok, Err, Some, codes};
ghost use Rattle.unftp_control_c.specs.Parameters.{list_path_bytes, or_invalid_eol, parameter_bytes};
ghost use Rattle.unftp_control_c.specs.declared.status.Status.TheVariants.{InvalidEol};

/// The value of a parameter: what follows the verb and one byte, without the line's end.
pub fn lines_have_parameters()
    ensures one_byte { parameter_bytes (codes "TYPE A\r\n") ≡ Ok (codes "A") }
    ensures second_space { parameter_bytes (codes "TYPE  A \n") ≡ Ok (codes " A ") }
    ensures no_space_dropped { parameter_bytes (codes "TYPE  A\r\n") ≢ Ok (codes "A") }
    ensures none { parameter_bytes (codes "LIST\r\n") ≡ Ok [] }
    ensures not_utf8 { parameter_bytes (codes "RETR " ++ 233 ∷ codes "\r\n") ≡ Ok (233 ∷ []) }
    ensures cr_nul { parameter_bytes (codes "RETR a\r\0b\r\n") ≡ Ok (codes "a\rb") }
    ensures nul_kept { parameter_bytes (codes "RETR a\r\0b\r\n") ≢ Ok (codes "a\r\0b") }
    ensures first_cr { parameter_bytes (codes "RETR \rb\r\n") ≡ Ok (codes "\rb") }
    ensures later_cr { parameter_bytes (codes "TYPE A\rb\r\n") ≡ Err InvalidEol }
{}

/// The parameter of SITE, and that of its subcommand: a value has no line end any more.
pub fn subcommands_have_parameters()
    ensures site { parameter_bytes (codes "SITE CHMOD 644 a\r\n") ≡ Ok (codes "CHMOD 644 a") }
    ensures after_site { parameter_bytes (codes "CHMOD 644 a\r\n") ≡ Ok (codes "644 a") }
    ensures of_the_value { parameter_bytes (codes "CHMOD 644 a") ≡ Err InvalidEol }
{}

/// The path of LIST: what follows the words that begin with a dash, and `--`.
pub fn lines_have_list_paths()
    ensures option { list_path_bytes (codes "LIST -la x\r\n") ≡ Ok (codes "x") }
    ensures option_kept { list_path_bytes (codes "LIST -la x\r\n") ≢ Ok (codes "-la x") }
    ensures two_dashes { list_path_bytes (codes "NLST -l -- -x\n") ≡ Ok (codes "-x") }
    ensures dashes_kept { list_path_bytes (codes "LIST -- -x\r\n") ≢ Ok (codes "-- -x") }
    ensures only_options { list_path_bytes (codes "LIST -l\r\n") ≡ Ok [] }
    ensures not_utf8 { list_path_bytes (codes "LIST -a " ++ 233 ∷ codes "\r\n") ≡ Ok (233 ∷ []) }
    ensures cr_nul { list_path_bytes (codes "LIST -a \r\0b\r\n") ≡ Ok (codes "\rb") }
    ensures later_cr { list_path_bytes (codes "LIST -a x\rb\r\n") ≡ Err InvalidEol }
{}

/// A value that is written, also an empty one.
pub fn values_are_made()
    ensures empty { or_invalid_eol (Some []) ≡ Ok [] }
    ensures not_refused { or_invalid_eol (Some []) ≢ Err InvalidEol }
{}
