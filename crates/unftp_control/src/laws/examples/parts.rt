//! Parts of commands, worked out by hand: where their values are, and why no command is made of
//! them.
ghost use Rattle.std.specs.Prelude.{Ok, Err};
ghost use Rattle.unftp_control_defs.specs.FtpCommand.{InvalidCommand, Noop};
ghost use Rattle.unftp_control_message.specs.PartsMeaning.{Fails, IsInPlace, MakesCommand};
ghost use Rattle.unftp_control_message.specs.declared.Command.TheVariants as command;
ghost use Rattle.unftp_control_message.specs.declared.parts.Value.TheVariants as value;
ghost use Rattle.unftp_control_message.specs.declared.reply.error.parse_error.ParseErrorKind.TheVariants as kind;
ghost use Rattle.unftp_control_message.specs.declared.sent.Sent.TheVariants as sent;

/// Values that are in place, whatever was read: all but one with NULs after carriage returns, and
/// one of which bytes are replaced.
pub fn values_are_in_place_so(bytes: &[u8], text: &str)
    ensures none { IsInPlace value.None }
    ensures plain { IsInPlace (value.Raw (sent.Plain bytes.entry)) }
    ensures escaped { ¬ IsInPlace (value.Raw (sent.Escaped bytes.entry)) }
    ensures text { IsInPlace (value.Text text.entry) }
    ensures replaced { ¬ IsInPlace (value.Lossy (sent.Plain bytes.entry)) }
{}

/// Why no command is made: it is refused, or memory runs out for a byte at least.
pub fn commands_fail_so()
    ensures refused { Fails (Err InvalidCommand) 0 kind.InvalidCommand }
    ensures not_refused { ¬ Fails (Ok Noop) 1 kind.InvalidCommand }
    ensures one_byte { Fails (Ok Noop) 1 kind.OutOfMemory }
    ensures no_byte { ¬ Fails (Ok Noop) 0 kind.OutOfMemory }
    ensures another_kind { ¬ Fails (Err InvalidCommand) 1 kind.InvalidEol }
{}

/// What making a command comes to.
pub fn commands_are_made_so()
    ensures made { MakesCommand (Ok Noop) 0 (Ok command.Noop) }
    ensures another { ¬ MakesCommand (Ok Noop) 0 (Ok command.Quit) }
    ensures out_of_memory { MakesCommand (Ok Noop) 1 (Err kind.OutOfMemory) }
    ensures needs_none { ¬ MakesCommand (Ok Noop) 0 (Err kind.OutOfMemory) }
{}
