//! A session: where a client is, and the replies to it.
ghost use Rattle.std.specs.Prelude.{◌≡◌, option_map, string_bytes, unwrap_or, codes, IfOk, IfErr, OnOk};
ghost use Rattle.unftp_control_message.specs.CommandMeaning.{command_of};
ghost use Rattle.unftp_control_message.specs.ErrorMeaning.{fault_of};
ghost use Rattle.unftp_control_defs.specs.Events.{out_of_memory};
ghost use Rattle.unftp_control_message.specs.ReplyMeaning.{reply_of};
ghost use Rattle.login_demo.specs.Session.{command_reply, found, moved_reply, moved_to, new_session, session_after, tree_reply};

use crate::facts::{mdtm_reply, mlst_reply, pwd_reply, size_reply};
use crate::paths::walk;
use crate::standing::standing_reply;
use crate::tree::{Directory, Entry};
use std::alloc::{AllocError, Global};
use unftp_control_message::Command;
use unftp_control_message::reply::error::ControlChanError;
use unftp_control_message::reply::{Reply, ReplyCode};

/// The working directory, and whether QUIT came.
#[derive(Clone, Copy)]
pub struct Session {
    /// The working directory.
    pub directory: Directory,
    /// Whether QUIT came.
    pub is_over: bool,
}

impl Session {
    /// A session at its beginning, at the root.
    pub fn new() -> Session
        // It is the session at the root, to which no QUIT came.
        ensures { result ≡ new_session }
    {
        Session {
            directory: Directory::Root,
            is_over: false,
        }
    }

    /// Answers a command. It fails only when out of memory.
    pub fn answer(&mut self, alloc: Global, command: Command) -> Result<Reply, ControlChanError>
        // At `Ok` the reply is the definition's to this command in the session's directory.
        ensures says { IfOk result (λ reply.
            reply_of reply ≡ command_reply self.old.directory (command_of command)) }
        // At `Ok` the session is the definition's after this command.
        ensures next { OnOk result (self.new ≡ session_after self.old (command_of command)) }
        // The only error is out of memory.
        ensures err { IfErr result (λ error. fault_of error ≡ out_of_memory) }
    {
        match command {
            Command::Cwd { path } => self.change_directory(alloc, path.as_str()),
            Command::Cdup => self.change_directory(alloc, ".."),
            Command::User { username } => {
                drop(username);
                self.directory = Directory::Root;
                Reply::new(alloc, ReplyCode::UserLoggedIn, "Logged in")
            }
            Command::Quit => {
                self.is_over = true;
                Reply::new(alloc, ReplyCode::ClosingControlConnection, "Goodbye")
            }
            other => tree_reply(alloc, self.directory, other),
        }
    }

    /// Goes to the directory to which the path leads (RFC 959, section 4.1.1).
    fn change_directory(&mut self, alloc: Global, path: &str) -> Result<Reply, ControlChanError>
        ensures says { IfOk result (λ reply.
            reply_of reply ≡ moved_reply (found self.old.directory path.now)) }
        ensures directory { OnOk result (self.new.directory
            ≡ moved_to self.old.directory (found self.old.directory path.now)) }
        ensures is_over { OnOk result (self.new.is_over ≡ self.old.is_over) }
        ensures err { IfErr result (λ error. fault_of error ≡ out_of_memory) }
    {
        match found(alloc, self.directory, path)? {
            Some(Entry::Directory(directory)) => {
                self.directory = directory;
                Reply::new(alloc, ReplyCode::FileActionOkay, "Directory changed")
            }
            _ => Reply::new(alloc, ReplyCode::FileError, "No such directory"),
        }
    }
}

/// What the path leads to from the directory, if there is something.
fn found(alloc: Global, directory: Directory, path: &str) -> Result<Option<Entry>, AllocError>
    ensures { IfOk result (λ entry. entry ≡ found directory path.now) }
{
    let names = walk(alloc, Entry::Directory(directory).names(), path)?;
    Ok(Entry::at(names.as_slice()))
}

/// The reply, in the directory, to a command that changes nothing.
fn tree_reply(
    alloc: Global,
    directory: Directory,
    command: Command,
) -> Result<Reply, ControlChanError>
    ensures ok { IfOk result (λ reply.
        reply_of reply ≡ tree_reply directory (command_of command)) }
    ensures err { IfErr result (λ error. fault_of error ≡ out_of_memory) }
{
    match command {
        Command::Pwd => pwd_reply(alloc, directory),
        Command::Mlst { path } => {
            mlst_reply(alloc, found(alloc, directory, path_or_here(&path))?)
        }
        Command::Size { file } => size_reply(alloc, found(alloc, directory, file.as_str())?),
        Command::Mdtm { file } => mdtm_reply(alloc, found(alloc, directory, file.as_str())?),
        other => standing_reply(alloc, other),
    }
}

/// The path, or that of the working directory where there is none.
fn path_or_here(path: &Option<String>) -> &str
    ensures { result.now ≡ unwrap_or (option_map string_bytes path.now) (codes ".") }
{
    match path {
        Some(path) => path.as_str(),
        None => ".",
    }
}
