//! Lines, and where a line is cut into its verb and its parameter.
#![tactic(auto, unfolding(unftp_control_defs::proofs::Computing::at_bytes))]

ghost use Rattle.std.specs.Prelude.{◌≡◌, [], ◌∷◌, codes, false, true};
ghost use Rattle.unftp_control_defs.specs.Bytes.{LF, crlf, Lacks};
ghost use Rattle.unftp_control_defs.specs.Lines.{IsLine, Lines};
ghost use Rattle.unftp_control_defs.specs.Verbs.{Cut, is_separator};

/// A text lacks a byte where no byte of it is that one.
pub fn texts_lack_a_byte()
    ensures empty { Lacks LF [] }
    ensures other_bytes { Lacks LF (codes "a\r") }
    ensures last { ¬ Lacks LF (codes "a\n") }
{}

/// A line has one LF, its last byte.
pub fn lines_have_one_lf()
    ensures crlf { IsLine (codes "NOOP\r\n") }
    ensures empty { ¬ IsLine [] }
    ensures more { ¬ IsLine (codes "A\nB") }
{}

/// The lines of an input, and its incomplete line.
pub fn inputs_have_lines()
    ensures lines_and_rest { Lines (codes "NOOP\r\nPWD\nNO\r")
        (codes "NOOP\r\n" ∷ codes "PWD\n" ∷ []) (codes "NO\r") }
    ensures byte_left_out { ¬ Lines (codes "A\nB") (codes "A\n" ∷ []) [] }
    ensures two_in_one { ¬ Lines (codes "A\nB\n") (codes "A\nB\n" ∷ []) [] }
    ensures line_in_the_rest { ¬ Lines (codes "A\n") [] (codes "A\n") }
{}

/// What ends a verb: SP, CR and LF, and no other white space.
pub fn separators_are_these()
    ensures cr { is_separator 13 ≡ true }
    ensures tab { is_separator 9 ≡ false }
{}

/// One separator is cut out, and the rest is the parameter.
pub fn lines_are_split_so()
    ensures space { Cut (codes "RETR a b\r\n") (codes "RETR") (codes "a b\r\n") }
    ensures two_spaces { Cut (codes "RETR  a") (codes "RETR") (codes " a") }
    ensures no_separator { Cut (codes "NOOP") (codes "NOOP") [] }
    ensures separator_kept { ¬ Cut (codes "RETR a") (codes "RETR") (codes " a") }
    ensures second_space { ¬ Cut (codes "A B C") (codes "A B") (codes "C") }
    ensures letter_cut_out { ¬ Cut (codes "ABC") (codes "A") (codes "C") }
{}
