//! Examples of the definitions, worked out by hand: for each one that holds and one that doesn't,
//! at the boundary.
#![tactic(auto, unfolding(unftp_control_defs::proofs::Computing::at_bytes))]

ghost use Rattle.std.specs.Prelude.{◌≡◌, [], ◌∷◌, None, Some, codes, false, negsuc, pos, true};
ghost use Rattle.unftp_control_facts.specs.Facts.{modify_fact};
ghost use Rattle.unftp_control_facts.specs.Files.{kind_fact, kind_letter};
ghost use Rattle.unftp_control_facts.specs.Examples.{a_directory};
ghost use Rattle.unftp_control_facts.specs.Listing.{HasNoLine, IsDate, IsFactsLine, IsListLine, IsOneLine, is_recent, left, mode_text, month_name, ended_name, owner, right, year_text};
ghost use Rattle.unftp_control_facts.specs.declared.file.FileKind.TheVariants.{Directory, File, Link};
ghost use Rattle.unftp_control_facts.specs.declared.listing.LineError.TheVariants.{InvalidName, OutOfMemory};

/// The fact of a time, where one is known (RFC 3659, section 7.5.3).
pub fn times_are_facts()
    ensures known { modify_fact (Some (codes "20231201120000"))
        ≡ codes "modify=20231201120000;" }
    ensures unknown { modify_fact None ≡ [] }
{}

/// Kinds in both listings.
pub fn kinds_have_letters_and_facts()
    ensures file { kind_letter File ∷ kind_fact File ≡ codes "-type=file;" }
    ensures directory { kind_letter Directory ∷ kind_fact Directory ≡ codes "dtype=dir;" }
    ensures link { kind_letter Link ∷ kind_fact Link ≡ codes "ltype=OS.unix=symlink;" }
    ensures link_is_no_file { ¬ (kind_fact Link ≡ kind_fact File) }
{}

/// The nine low bits of a mode are shown: 0644, 0751, and 04751 of a directory, as `stat` has it.
pub fn modes_have_nine_letters()
    ensures file { mode_text 420 ≡ codes "rw-r--r--" }
    ensures program { mode_text 489 ≡ codes "rwxr-x--x" }
    ensures higher_bits { mode_text 18921 ≡ codes "rwxr-x--x" }
    ensures none { mode_text 0 ≡ codes "---------" }
    ensures not_the_group { ¬ (mode_text 416 ≡ codes "rw----r--") }
{}

/// What is in a column, and what exceeds it.
pub fn columns_have_widths()
    ensures size { right 12 (codes "99999999999") ≡ codes " 99999999999" }
    ensures full { right 12 (codes "999999999999") ≡ codes "999999999999" }
    ensures size_over_the_column { right 12 (codes "1000000000000") ≡ codes "1000000000000" }
    ensures day { right 2 (codes "9") ≡ codes " 9" }
    ensures day_of_two_digits { right 2 (codes "10") ≡ codes "10" }
    ensures no_zero { ¬ (right 2 (codes "9") ≡ codes "09") }
    ensures user { left 8 (codes "1000") ≡ codes "1000    " }
    ensures user_over_the_column { left 8 (codes "123456789") ≡ codes "123456789" }
    ensures not_told { owner 0 ≡ codes "ftp" }
    ensures told { owner 1 ≡ codes "1" }
{}

/// Months and years.
pub fn dates_have_names()
    ensures first { month_name 1 ≡ codes "Jan" }
    ensures last { month_name 12 ≡ codes "Dec" }
    ensures not_the_next { ¬ (month_name 1 ≡ codes "Feb") }
    ensures four_digits { year_text (pos 9999) ≡ codes "9999" }
    ensures few_digits { year_text (pos 79) ≡ codes "0079" }
    ensures before_0 { year_text (negsuc 0) ≡ codes "0000" }
{}

/// How old a file is whose date has the time of day: less than 182 days, and not in the future.
pub fn half_a_year_is_recent()
    ensures now { is_recent (pos 0) ≡ true }
    ensures future { is_recent (negsuc 0) ≡ false }
    ensures just { is_recent (pos 15_724_799_999_999_999) ≡ true }
    ensures half_a_year { is_recent (pos 15_724_800_000_000_000) ≡ false }
{}

/// Names that can be in a line.
pub fn names_are_of_one_line()
    ensures spaces { IsOneLine (codes " a b ") }
    ensures any_bytes { IsOneLine (0 ∷ 9 ∷ 255 ∷ []) }
    ensures carriage_return { ¬ IsOneLine (codes "a\r") }
    ensures line_feed { ¬ IsOneLine (codes "a\nb") }
    ensures refused { HasNoLine (codes "\n") InvalidName }
    ensures not_refused { ¬ HasNoLine (codes "n") InvalidName }
    ensures memory { HasNoLine (codes "n") OutOfMemory }
    ensures end { ended_name (codes "a b") ≡ codes " a b\r\n" }
{}

/// Noon on 1 December 2023, at that time and 182 days later.
pub fn dates_are_of_utc()
    ensures recent { IsDate (pos 1_701_432_000_000_000_000) (pos 1_701_432_000_000_000_000)
        (codes "Dec  1 12:00") }
    ensures half_a_year_ago { IsDate (pos 1_717_156_800_000_000_000)
        (pos 1_701_432_000_000_000_000) (codes "Dec  1  2023") }
    ensures not_in_january { ¬ IsDate (pos 1_701_432_000_000_000_000)
        (pos 1_701_432_000_000_000_000) (codes "Jan  1 12:00") }
    ensures no_time_of_day { ¬ IsDate (pos 1_717_156_800_000_000_000)
        (pos 1_701_432_000_000_000_000) (codes "Dec  1 12:00") }
{}

/// A directory whose time is not known, 182 days after the Unix epoch.
pub fn files_have_lines()
    ensures list { IsListLine a_directory (pos 15_724_800_000_000_000) (codes "pub")
        (codes "drwxr-xr-x   2 1000     ftp              4096 Jan  1  1970 pub\r\n") }
    ensures facts { IsFactsLine a_directory (codes "pub")
        (codes "type=dir;size=4096;unix.uid=1000; pub\r\n") }
    ensures no_group { ¬ IsFactsLine a_directory (codes "pub")
        (codes "type=dir;size=4096;unix.uid=1000;unix.gid=0; pub\r\n") }
{}
