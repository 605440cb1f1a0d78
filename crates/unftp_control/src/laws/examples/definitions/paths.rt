//! The path of LIST.
#![tactic(auto, unfolding(unftp_control_defs::proofs::Computing::at_bytes))]

ghost use Rattle.std.specs.Prelude.{codes};
ghost use Rattle.unftp_control_defs.specs.Paths.{IsOptionWord, ListPath};

/// Which words are options.
pub fn option_words_are_so()
    ensures letters { IsOptionWord (codes "-la") }
    ensures three_dashes { IsOptionWord (codes "---") }
    ensures no_dash { ¬ IsOptionWord (codes "a-") }
    ensures two_dashes { ¬ IsOptionWord (codes "--") }
    ensures two_words { ¬ IsOptionWord (codes "-a b") }
{}

/// The path after the options.
pub fn texts_have_paths()
    ensures no_option { ListPath (codes "a -la") (codes "a -la") }
    ensures two_options { ListPath (codes "-l -a b c") (codes "b c") }
    ensures two_dashes { ListPath (codes "-l -- -b") (codes "-b") }
    ensures option_kept { ¬ ListPath (codes "-l b") (codes "-l b") }
    ensures dashes_kept { ¬ ListPath (codes "-- b") (codes "-- b") }
    ensures option_after_two_dashes { ¬ ListPath (codes "-- -b c") (codes "c") }
{}
