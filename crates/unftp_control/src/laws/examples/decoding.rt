//! Calls of `decode`, and what a codec finds, worked out by hand.
#![tactic(auto, unfolding(unftp_control_defs::proofs::Computing::at_bytes))]

ghost use Rattle.std.specs.Prelude.{[], ◌∷◌, false, true, None, Some, Ok, codes};
ghost use Rattle.unftp_control_codecs.specs.Calls.{AreDecodeCalls};
ghost use Rattle.unftp_control_codecs.specs.Codec.{new_codec};
ghost use Rattle.unftp_control_codecs.specs.FirstLine.{IsDropped};
ghost use Rattle.unftp_control_message.specs.declared.Command.TheVariants.{Noop};

/// Which calls lead from a new codec and an empty buffer to a codec and a buffer.
pub fn decode_calls_are_so()
    // two bytes without a line feed, and then the rest of the line
    ensures line { AreDecodeCalls (new_codec None) [] (record {
      appended = codes "NO";
      answer = Ok None;
      codec = record { place = 2; tests = 2; limit = None; skipping = false };
      buffer = codes "NO";
    } ∷ record {
      appended = codes "OP\r\nQ";
      answer = Ok (Some Noop);
      codec = record { place = 0; tests = 6; limit = None; skipping = false };
      buffer = codes "Q";
    } ∷ []) (record { place = 0; tests = 6; limit = None; skipping = false }) (codes "Q") }
    ensures scanned_twice { ¬ AreDecodeCalls (new_codec None) [] (record {
      appended = codes "NO";
      answer = Ok None;
      codec = record { place = 2; tests = 3; limit = None; skipping = false };
      buffer = codes "NO";
    } ∷ []) (record { place = 2; tests = 3; limit = None; skipping = false }) (codes "NO") }
    ensures other_buffer { ¬ AreDecodeCalls (new_codec None) [] [] (new_codec None) (codes "Q") }
{}

/// Bytes that a codec has dropped: those that begin a line which is too long, and it skips that.
pub fn bytes_are_dropped_so()
    ensures none { IsDropped (new_codec (Some 3)) [] }
    ensures too_long { IsDropped (record (new_codec (Some 3)) { skipping = true }) (codes "abc") }
    ensures within { ¬ IsDropped (record (new_codec (Some 4)) { skipping = true }) (codes "abc") }
    ensures not_skipping { ¬ IsDropped (new_codec (Some 3)) (codes "abc") }
    ensures line_feed { ¬ IsDropped (record (new_codec (Some 3)) { skipping = true })
        (codes "abc\n") }
{}
