//! Lines of files, worked out by hand.
#![tactic(auto, unfolding(unftp_control_defs::proofs::Computing::at_bytes))]

ghost use Rattle.std.specs.Prelude.{◌≡◌, None, Some, Err, codes, negsuc, pos};
ghost use Rattle.unftp_control_facts.specs.declared.file.FileKind.TheVariants.{BlockDevice};
ghost use Rattle.unftp_control_facts.specs.declared.listing.LineError.TheVariants.{InvalidName};
ghost use Rattle.unftp_control_c.specs.FileLines.{HasFactsLine, IsSecond, kind_of, name_status, second_of, untold};
ghost use Rattle.unftp_control_c.specs.declared.status.Status.TheVariants.{InvalidArgument, NoRoom, OutOfMemory};

/// Numbers of kinds, and seconds that are instants, at the bounds.
pub fn files_have_kinds_and_times()
    ensures last_kind { kind_of 6 ≡ Some BlockDevice }
    ensures no_kind { kind_of 7 ≡ None }
    ensures first_second { IsSecond (negsuc 377_705_023_200) }
    ensures before_the_first { ¬ IsSecond (negsuc 377_705_023_201) }
    ensures last_second { IsSecond (pos 253_402_207_200) }
    ensures after_the_last { ¬ IsSecond (pos 253_402_207_201) }
    ensures unknown { second_of untold ≡ None }
{}

/// A file with zeros only, with a name that is of one line and with one that isn't.
pub fn names_of_two_lines_are_invalid()
    ensures line_feed { HasFactsLine untold (codes "a\n") (Err InvalidArgument) }
    ensures memory { HasFactsLine untold (codes "a") (Err OutOfMemory) }
    ensures not_invalid { ¬ HasFactsLine untold (codes "a") (Err InvalidArgument) }
    ensures no_memory { ¬ HasFactsLine untold (codes "a\n") (Err OutOfMemory) }
    ensures room { ¬ HasFactsLine untold (codes "a") (Err NoRoom) }
    ensures status { name_status InvalidName ≡ InvalidArgument }
{}
