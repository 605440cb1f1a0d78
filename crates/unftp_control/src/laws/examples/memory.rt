//! Lines worked out by hand: which of them may need an allocation.
ghost use Rattle.std.specs.Prelude.{ℕ, None, Some, Ok, Err, codes};
ghost use Rattle.unftp_control_codecs.specs.Memory.{MayTakeMemory, OnOutOfMemory};
ghost use Rattle.unftp_control_message.specs.declared.reply.error.parse_error.ParseErrorKind.TheVariants as kind;
ghost use Rattle.unftp_control_serve.specs.Decoder.{MayRunOut};

/// A line may take memory where its command holds bytes, or a password, and no refused line does.
pub fn lines_may_take_memory()
    ensures field { MayTakeMemory (codes "USER a\r\n") }
    ensures empty_password { MayTakeMemory (codes "PASS\r\n") }
    ensures empty_field { ¬ MayTakeMemory (codes "USER\r\n") }
    ensures no_path { ¬ MayTakeMemory (codes "LIST -l\r\n") }
    ensures no_end { ¬ MayTakeMemory (codes "USER a") }
{}

/// The first line of some bytes may need an allocation, or there is none that does.
pub fn a_first_line_may_take_memory()
    ensures field { MayRunOut (Some 8) (codes "USER a\r\nNO") }
    ensures no_value { ¬ MayRunOut None (codes "NOOP\r\nUSER a\r\n") }
    ensures too_long { ¬ MayRunOut (Some 7) (codes "USER a\r\n") }
{}

/// What is asked only of a call that was out of memory.
pub fn only_memory_is_asked_of()
    ensures ran_out { ¬ OnOutOfMemory {T = ℕ} (Err kind.OutOfMemory) ⊥ }
    ensures refused { OnOutOfMemory {T = ℕ} (Err kind.InvalidCommand) ⊥ }
    ensures made { OnOutOfMemory {T = ℕ} (Ok 0) ⊥ }
{}
