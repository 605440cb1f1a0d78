//! Examples of the definitions, worked out by hand: pending bytes, and how many were scanned.
#![tactic(auto, unfolding(unftp_control_defs::proofs::Computing::at_bytes))]

ghost use Rattle.std.specs.Prelude.{◌≡◌, ◌-◌, ◌^◌, ℕ, [], None, Some, Ok, Err, codes, false, true};
ghost use Rattle.unftp_control_codecs.specs.Finder.{ComparedAfter, Finder, GoesOnAfter, HasCompared, new_finder, restarted};
ghost use Rattle.unftp_control_codecs.specs.declared.FirstLine.TheVariants.{Complete, Incomplete, TooLong};
ghost use Rattle.unftp_control_serve.specs.Decoder.{IsDecoder, IsFirst, IsSeenAhead, TakesNext, buffered_after, cleared, pending_of};
ghost use Rattle.unftp_control_serve.specs.Engine.{AreScanned, FailedAfter, more_left};
ghost use Rattle.unftp_control_serve.specs.Examples.{a_pending, a_running_engine, after_a_line};
ghost use Rattle.unftp_control_serve.specs.declared.decoder.First.TheVariants as first;

/// What a finder knows of the bytes that it has compared: each line feed among them, and no more.
pub fn bytes_are_compared()
    ensures nothing { HasCompared (new_finder None) (codes "NO") }
    ensures a_line_feed { HasCompared (record (new_finder None) { compared = 3; line_feeds = 4 })
        (codes "QT\nNO") }
    ensures one_missed { ¬ HasCompared (record (new_finder None) { compared = 3 }) (codes "QT\nNO") }
    ensures one_invented { ¬ HasCompared (record (new_finder None) { compared = 3; line_feeds = 6 })
        (codes "QT\nNO") }
    ensures past_the_end { ¬ HasCompared (record (new_finder None) { compared = 3 }) (codes "NO") }
    ensures restarted { restarted (record (new_finder (Some 9)) {
      compared = 3;
      line_feeds = 4;
      tests = 8;
      skipping = true;
    }) ≡ record (new_finder (Some 9)) { tests = 8 } }
{}

/// A finder goes on after a line: 8 bytes were compared with the first one, and 3 of them are left.
pub fn a_finder_goes_on()
    ensures counted { GoesOnAfter 5 (new_finder None) (codes "QUI\r\nNO\nA")
        (record (new_finder None) { compared = 3; line_feeds = 4; tests = 8 }) }
    ensures one_uncounted { ¬ GoesOnAfter 5 (new_finder None) (codes "QUI\r\nNO\nA")
        (record (new_finder None) { compared = 3; line_feeds = 4; tests = 7 }) }
    ensures forgotten { ¬ GoesOnAfter 5 (new_finder None) (codes "QUI\r\nNO\nA")
        (record (new_finder None) { tests = 8 }) }
    ensures all { ComparedAfter (Incomplete 0) (codes "NO") 2 }
    ensures not_all { ¬ ComparedAfter (Incomplete 0) (codes "NO") 1 }
    ensures less_than_a_block { ComparedAfter (Complete 6) [] 31 }
    ensures a_block { ¬ ComparedAfter (Complete 6) [] 32 }
    ensures a_block_after_a_long_line { ¬ ComparedAfter (TooLong 6) [] 32 }
{}

/// Of 100 bytes 60 come after the end: the others are scanned once, and at most 31 of these.
pub fn few_are_scanned()
    ensures fewest { AreScanned 40 100 60 }
    ensures most { AreScanned 71 100 60 }
    ensures one_missed { ¬ AreScanned 39 100 60 }
    ensures a_block_after_the_end { ¬ AreScanned 72 100 60 }
    ensures one_twice { ¬ AreScanned 101 100 0 }
    ensures ahead { IsSeenAhead 69 100 }
    ensures a_block_ahead { ¬ IsSeenAhead 68 100 }
    ensures more_than_there_are { ¬ IsSeenAhead 101 100 }
{}

/// What is known of the first line: with a limit of 6 bytes, and of 5.
pub fn a_first_line_is_so()
    ensures line { IsFirst (after_a_line 6) [] (codes "NOOP\r\nNO\nA") (first.Line 6) }
    ensures part { ¬ IsFirst (after_a_line 6) [] (codes "NOOP\r\nNO\nA") (first.Line 5) }
    ensures two_lines { ¬ IsFirst (after_a_line 9) [] (codes "NOOP\r\nNO\nA") (first.Line 9) }
    ensures over_the_limit { ¬ IsFirst (after_a_line 5) [] (codes "NOOP\r\nNO\nA") (first.Line 6) }
    ensures dropped { IsFirst (after_a_line 5) (codes "NOOP\r\n") (codes "NO\nA") first.TooLong }
    ensures within { ¬ IsFirst (after_a_line 6) (codes "NOOP\r\n") (codes "NO\nA") first.TooLong }
    ensures not_ended { ¬ IsFirst (after_a_line 3) (codes "NOOP") (codes "\r\n") first.TooLong }
    ensures unknown { IsFirst (after_a_line 5) [] (codes "NOOP\r\nNO\nA") first.Unknown }
    ensures lost { ¬ IsFirst (after_a_line 5) (codes "NO") (codes "OP") first.Unknown }
{}

/// A buffer with a line that was taken, one that was found, and four bytes after it, of which three
/// were compared with it.
pub fn a_decoder_is_so()
    ensures well { IsDecoder (after_a_line 6) (first.Line 6) [] (codes "QUIT\r\nNOOP\r\nNO\nA") 6 6 16 16 }
    ensures other_start { ¬ IsDecoder (after_a_line 6) (first.Line 6) []
        (codes "QUIT\r\nNOOP\r\nNO\nA") 5 5 16 16 }
    ensures held_less { ¬ IsDecoder (after_a_line 6) (first.Line 6) []
        (codes "QUIT\r\nNOOP\r\nNO\nA") 6 6 15 16 }
    ensures without_room { ¬ IsDecoder (after_a_line 6) (first.Line 6) []
        (codes "QUIT\r\nNOOP\r\nNO\nA") 6 6 16 15 }
    ensures limit_of_none { ¬ IsDecoder (new_finder (Some 0)) first.Unknown [] [] 0 0 0 0 }
    ensures seen { (pending_of (after_a_line 6) (first.Line 6) [] (codes "QUIT\r\n")
        (codes "NOOP\r\nNO\nA") 16 16).unscanned ≡ 1 }
    ensures seen_before_it { (pending_of (after_a_line 6) first.Unknown [] (codes "QUIT\r\n")
        (codes "NO\nA") 16 16).unscanned ≡ 1 }
    ensures bytes { (pending_of (after_a_line 3) first.TooLong (codes "NOOP\r\n") [] (codes "NO\nA") 16
        16).bytes ≡ codes "NOOP\r\nNO\nA" }
    ensures kept { (pending_of (after_a_line 3) first.TooLong (codes "NOOP\r\n") [] (codes "NO\nA") 16
        16).kept ≡ 4 }
{}

/// What is left of pending bytes: all at an error, and none once they are cleared.
pub fn pending_bytes_stay()
    ensures at_an_error { TakesNext {E = ℕ} a_pending (Err 7)
        (record a_pending { scanned = 9; unscanned = 0 }) }
    ensures lost { ¬ TakesNext {E = ℕ} a_pending (Err 7) (record a_pending { bytes = []; kept = 0 }) }
    ensures dropped { ¬ TakesNext {E = ℕ} a_pending (Err 7) (record a_pending { kept = 8 }) }
    ensures none_there { ¬ TakesNext {E = ℕ} a_pending (Ok None) a_pending }
    ensures buffer_at_an_error { buffered_after {E = ℕ} a_pending (Err 7)
        (record a_pending { kept = 0 }) ≡ 16 }
    ensures buffer_without_a_line { buffered_after {E = ℕ} a_pending (Ok None)
        (record a_pending { kept = 4 }) ≡ 4 }
    ensures cleared { cleared a_pending ≡ record a_pending {
      bytes = [];
      kept = 0;
      found = false;
      line = [];
      unscanned = 0;
      buffered = 0;
    } }
    ensures not_cleared { ¬ (cleared a_pending ≡ a_pending) }
{}

/// An engine that failed at a piece of two bytes, after 4 of which 4 were scanned.
pub fn an_engine_has_failed()
    ensures scanned { FailedAfter a_running_engine (codes "OP")
        (record a_running_engine { failed = true; scanned = 6; held = 6 }) }
    ensures unscanned { FailedAfter a_running_engine (codes "OP")
        (record a_running_engine { failed = true }) }
    ensures goes_on { ¬ FailedAfter a_running_engine (codes "OP") a_running_engine }
    ensures left { ¬ FailedAfter a_running_engine (codes "OP")
        (record a_running_engine { failed = true; left = 0 }) }
    ensures limit { ¬ FailedAfter a_running_engine (codes "OP")
        (record a_running_engine { failed = true; limit = None }) }
    ensures scanned_twice { ¬ FailedAfter a_running_engine (codes "OP")
        (record a_running_engine { failed = true; scanned = 7 }) }
    ensures uncounted { ¬ FailedAfter a_running_engine (codes "OP")
        (record a_running_engine { failed = true; scanned = 3 }) }
    ensures held_more { ¬ FailedAfter a_running_engine (codes "OP")
        (record a_running_engine { failed = true; held = 7 }) }
    ensures more { (more_left a_running_engine (codes "OP")).left ≡ 6 }
    ensures most { (more_left (record a_running_engine { left = 2 ^ 64 - 2 }) (codes "OP")).left
        ≡ 2 ^ 64 - 1 }
{}
