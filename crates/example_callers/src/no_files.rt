//! A reply that is the same for several commands.
ghost use Rattle.std.specs.Prelude.{◌≡◌, IfErr, IfOk};
ghost use Rattle.example_callers.specs.NoFiles.{command_reply, names_a_file};
ghost use Rattle.unftp_control_message.specs.CommandMeaning.{command_of};
ghost use Rattle.unftp_control_message.specs.ErrorMeaning.{fault_of};
ghost use Rattle.unftp_control_defs.specs.Events.{out_of_memory};
ghost use Rattle.unftp_control_message.specs.ReplyMeaning.{reply_of};

use std::alloc::Global;
use unftp_control_message::Command;
use unftp_control_message::reply::error::ControlChanError;
use unftp_control_message::reply::{Reply, ReplyCode};

/// Whether the command asks for a file.
fn names_a_file(command: &Command) -> bool
    ensures { result ≡ names_a_file (command_of command.now) }
{
    matches!(
        command,
        Command::Retr { path: _ } | Command::Size { file: _ } | Command::Mdtm { file: _ }
    )
}

/// The reply to a command of a server that has no files.
pub fn answer_command(alloc: Global, command: &Command) -> Result<Reply, ControlChanError>
    ensures ok { IfOk result (λ reply. reply_of reply ≡ command_reply (command_of command.now)) }
    ensures err { IfErr result (λ error. fault_of error ≡ out_of_memory) }
{
    if names_a_file(command) {
        return Reply::new(alloc, ReplyCode::FileError, "No such file");
    }
    match command {
        Command::Noop => Reply::new(alloc, ReplyCode::CommandOkay, "OK"),
        _ => Reply::new(alloc, ReplyCode::CommandNotImplemented, "Not implemented"),
    }
}
