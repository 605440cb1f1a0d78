//! The commands of the control connection.
ghost use Rattle.std.specs.Prelude.{◌≡◌, ◌↔◌, IsTrue};
ghost use Rattle.unftp_control_message.specs.CommandMeaning.{command_of};
ghost use Rattle.unftp_control_message.specs.declared.Command.{Command as RustCommand};

pub use unftp_control_message::{AuthParam, Command, ModeParam, Opt, ProtParam, StruParam};

/// `==` of commands is equality of what they mean.
pub fn same_commands()
    // `==` returns true exactly for commands with the same meaning.
    ensures { (a b : RustCommand)
        → IsTrue (⟦<Command as PartialEq>⟧.eq a b) ↔ (command_of a ≡ command_of b) }
{}
