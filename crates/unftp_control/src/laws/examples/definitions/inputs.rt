//! What was read: of a reader whose bytes its own contracts don't know, and of one where they do.
#![tactic(auto, unfolding(unftp_control_defs::proofs::Computing::at_bytes))]

ghost use Rattle.std.specs.Prelude.{◌≡◌, ℕ, [], ◌∷◌, Option, None, Some, Ok, Err, codes, length};
ghost use Rattle.unftp_control_defs.specs.Bytes.{Bytes};
ghost use Rattle.unftp_control_defs.specs.Input.{InputState, HasEnded, HasRead, OneRead, ReadFails, ReadsEnd, ReadsPiece, WereRead, input_state_of};
ghost use Rattle.unftp_control_defs.specs.declared.input.Input.{Input as RustInput};

/// The reads gave exactly these bytes, after those that they gave before.
pub fn reads_are_recorded_so()
    ensures forgotten { (before after : InputState) → HasRead before after (codes "P")
        → before.given ≡ codes "NO" → after.given ≡ codes "NOOP" → ⊥ }
    ensures known { (before : InputState) (after : InputState) (left : Bytes)
        → HasRead before after (codes "NO") → before.remaining ≡ Some (codes "NOOP")
        → after.remaining ≡ Some left → left ≡ codes "OP" }
{}

/// One read gives the front of the buffer, and a failed one nothing.
pub fn one_read_is_recorded_so()
    ensures ok { (before after : InputState) → OneRead {E = ℕ} (Ok 2) (codes "OPxx") before after
        → before.given ≡ codes "NO" → before.reads ≡ 2 ∷ []
        → (after.given ≡ codes "NOOP") × (after.reads ≡ 2 ∷ 2 ∷ [])
        × (after.failures ≡ before.failures) }
    ensures failed { (before after : InputState)
        → OneRead {E = ℕ} (Err 104) (codes "OPxx") before after
        → before.given ≡ codes "NO" → before.failures ≡ 1
        → (after.given ≡ codes "NO") × (after.failures ≡ 2) }
    ensures not_the_end { (before after : InputState)
        → OneRead {E = ℕ} (Ok 0) (codes "xxxx") before after → after.remaining ≡ Some (codes "N")
        → ⊥ }
{}

/// A read gives a piece of at least one byte and at most 4,096, or comes to the end, or fails.
pub fn reads_give_pieces_so()
    ensures piece { ReadsPiece (record {
      given = codes "NO";
      reads = 2 ∷ [];
      failures = 1;
      remaining = Some (codes "OPN");
    }) (record {
      given = codes "NOOP";
      reads = 2 ∷ 2 ∷ [];
      failures = 1;
      remaining = Some (codes "N");
    }) (codes "OP") }
    ensures byte_left_out { (before after : InputState) → before.given ≡ codes "NO"
        → after.given ≡ codes "NOP" → ¬ ReadsPiece before after (codes "OP") }
    ensures not_listed { (before after : InputState) → before.reads ≡ []
        → after.reads ≡ 1 ∷ [] → ¬ ReadsPiece before after (codes "OP") }
    ensures failed_too { (before after : InputState) → before.failures ≡ 0
        → after.failures ≡ 1 → ¬ ReadsPiece before after (codes "OP") }
    ensures empty { (before after : InputState) → ¬ ReadsPiece before after [] }
    ensures too_large { (before after : InputState) (piece : Bytes) → length piece ≡ 4097
        → ¬ ReadsPiece before after piece }
{}

/// What a read leaves that gives no piece.
pub fn reads_give_none_so()
    ensures ended { ReadsEnd
        (record { given = codes "NO"; reads = 2 ∷ []; failures = 1; remaining = Some [] })
        (record { given = codes "NO"; reads = 2 ∷ 0 ∷ []; failures = 1; remaining = Some [] }) }
    ensures not_the_end { (before after : InputState) → after.remaining ≡ Some (codes "N")
        → ¬ ReadsEnd before after }
    ensures end_not_listed { (before after : InputState) → before.reads ≡ [] → after.reads ≡ []
        → ¬ ReadsEnd before after }
    ensures end_counted { (before after : InputState) → before.failures ≡ 0
        → after.failures ≡ 1 → ¬ ReadsEnd before after }
    ensures failed { ReadFails
        (record { given = codes "NO"; reads = 2 ∷ []; failures = 1; remaining = None })
        (record { given = codes "NO"; reads = 2 ∷ []; failures = 2; remaining = None }) }
    ensures not_counted { (before after : InputState) → before.failures ≡ 1
        → after.failures ≡ 1 → ¬ ReadFails before after }
    ensures given { (before after : InputState) → before.given ≡ [] → after.given ≡ codes "N"
        → ¬ ReadFails before after }
    ensures listed { (before after : InputState) → before.reads ≡ [] → after.reads ≡ 0 ∷ []
        → ¬ ReadFails before after }
{}

/// What contracts see of an input is its record, and what its reader has left.
pub fn inputs_are_seen_so()
    ensures record_of { (remaining : ℕ → Option Bytes) (input : RustInput ℕ)
        → input.given ≡ codes "NO" → input.reads ≡ 2 ∷ [] → input.failures ≡ 1
        → remaining input.reader ≡ Some (codes "OP")
        → input_state_of remaining input ≡ record {
          given = codes "NO";
          reads = 2 ∷ [];
          failures = 1;
          remaining = Some (codes "OP");
        } }
{}

/// Each piece is listed with how many bytes it has, at least one and at most 4,096; and the last
/// read gave nothing where the input has ended.
pub fn pieces_are_recorded_so()
    ensures reads { (before after : InputState)
        → WereRead before after (codes "NOOP" ∷ codes "\r\n" ∷ []) (0 ∷ [])
        → before.reads ≡ 5 ∷ [] → after.reads ≡ 5 ∷ 4 ∷ 2 ∷ 0 ∷ [] }
    ensures empty { (before after : InputState) → WereRead before after ([] ∷ []) [] → ⊥ }
    ensures ended { HasEnded (record {
      given = codes "NO";
      reads = 2 ∷ 0 ∷ [];
      failures = 0;
      remaining = None;
    }) }
    ensures not_ended { (input : InputState) → HasEnded input → input.reads ≡ 2 ∷ [] → ⊥ }
{}
