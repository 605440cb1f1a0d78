//! Reads worked out by hand: which of them a client needs, and what an error means.
ghost use Rattle.std.specs.Prelude.{[], ◌∷◌, None, Some, codes};
ghost use Rattle.std.specs.declared.io.Error.{Error as IoError};
ghost use Rattle.unftp_control_read.specs.ReplyDecoding.{appended, no_bytes};
ghost use Rattle.unftp_control_read.specs.Receiving.{HasFailure, IsNeeded};
ghost use Rattle.unftp_control_read.specs.declared.errors.ReceiveError.TheVariants.{Read, TooLong, TooManyReads};

/// Only a part of a reply was there before the last piece; or a reply was there already, or as many
/// bytes as it may have.
pub fn reads_are_needed()
    ensures line_end { IsNeeded (appended (no_bytes None) (codes "211 a\r")) (codes "\n2" ∷ []) }
    ensures whole { ¬ IsNeeded (appended (no_bytes None) (codes "211 a\r\n")) (codes "2" ∷ []) }
    ensures long { ¬ IsNeeded (appended (no_bytes (Some 6)) (codes "211 a\r")) (codes "\n" ∷ []) }
{}

/// What an error means for the pending bytes.
pub fn these_failures_are_so()
    ensures read { (error : IoError) → HasFailure None (codes "211 a\r") (Read error) }
    ensures read_at_the_limit { (error : IoError)
        → ¬ HasFailure (Some 6) (codes "211 a\r") (Read error) }
    ensures too_long { HasFailure (Some 6) (codes "211 a\r") TooLong }
    ensures not_too_long { ¬ HasFailure (Some 7) (codes "211 a\r") TooLong }
    ensures never { ¬ HasFailure None (codes "211 a\r") TooManyReads }
{}
