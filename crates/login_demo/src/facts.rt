//! The replies about an entry of the tree, or about none.
ghost use Rattle.std.specs.Prelude.{◌≡◌, IfOk, IfErr};
ghost use Rattle.unftp_control_message.specs.ErrorMeaning.{fault_of};
ghost use Rattle.unftp_control_defs.specs.Events.{out_of_memory};
ghost use Rattle.unftp_control_facts.specs.Facts.{IsFacts};
ghost use Rattle.unftp_control_message.specs.ReplyMeaning.{reply_of};
ghost use Rattle.login_demo.specs.Facts.{entry_facts, facts_known, mdtm_reply, mlst_reply, no_file, pwd_reply, size_reply};

use crate::paths::path_text;
use crate::tree::{Directory, Entry, File};
use jiff::Timestamp;
use std::alloc::Global;
use unftp_control::commands::{Metadata, Mlst, modify_text, quoted_path};
use unftp_control_message::reply::error::ControlChanError;
use unftp_control_message::reply::{Reply, ReplyCode};

/// The facts of an entry.
#[derive(Drop)]
pub struct EntryFacts {
    is_directory: bool,
    size: u64,
    modified: Option<Timestamp>,
}

impl EntryFacts {
    /// The facts of this entry.
    pub fn new(entry: Entry) -> EntryFacts
        // The text of its facts is the definition's for the entry.
        ensures { IsFacts (facts_known result) (entry_facts entry) }
    {
        match entry {
            Entry::Directory(_) => EntryFacts {
                is_directory: true,
                size: 0,
                modified: None,
            },
            Entry::File(file) => EntryFacts {
                is_directory: false,
                size: file.size(),
                modified: Some(file.modified()),
            },
        }
    }
}

impl Metadata for EntryFacts {
    ghost facts_of = { facts_known };

    fn len(&self) -> u64 {
        self.size
    }

    fn is_dir(&self) -> bool {
        self.is_directory
    }

    fn modified(&self) -> Option<Timestamp> {
        self.modified
    }

    fn uid(&self) -> u32 {
        0
    }

    fn gid(&self) -> u32 {
        0
    }
}

/// The reply to PWD in this directory. It fails only when out of memory.
pub fn pwd_reply(alloc: Global, directory: Directory) -> Result<Reply, ControlChanError>
    // At `Ok` the reply is 257 with the path of this directory between double quotes.
    ensures ok { IfOk result (λ reply. reply_of reply ≡ pwd_reply directory) }
    // The only error is out of memory.
    ensures err { IfErr result (λ error. fault_of error ≡ out_of_memory) }
{
    let path = path_text(alloc, Entry::Directory(directory).names())?;
    let mut text = quoted_path(alloc, path.as_str())?;
    text.push_str(" is the current directory")?;
    Ok(Reply::new_with_string(ReplyCode::DirCreated, text))
}

/// The reply to MLST with a path that leads to this. It fails only when out of memory.
pub fn mlst_reply(alloc: Global, found: Option<Entry>) -> Result<Reply, ControlChanError>
    // At `Ok` the reply is 250 with the facts of what was found and its path from the root, or 550.
    ensures ok { IfOk result (λ reply. reply_of reply ≡ mlst_reply found) }
    // The only error is out of memory.
    ensures err { IfErr result (λ error. fault_of error ≡ out_of_memory) }
{
    match found {
        Some(entry) => {
            let path = path_text(alloc, entry.names())?;
            let facts = EntryFacts::new(entry);
            Mlst::new(None).reply(alloc, path.as_str(), Ok(&facts))
        }
        None => Reply::new(alloc, ReplyCode::FileError, "No such file or directory"),
    }
}

/// The reply to SIZE with a path that leads to this. It fails only when out of memory.
pub fn size_reply(alloc: Global, found: Option<Entry>) -> Result<Reply, ControlChanError>
    // At `Ok` the reply is 213 with the size of the file that was found, or 550 where no file was.
    ensures ok { IfOk result (λ reply. reply_of reply ≡ size_reply found) }
    // The only error is out of memory.
    ensures err { IfErr result (λ error. fault_of error ≡ out_of_memory) }
{
    match found {
        Some(Entry::File(file)) => {
            let size = file.size();
            let text = format!(in alloc; "{size}")?;
            Ok(Reply::new_with_string(ReplyCode::FileStatus, text))
        }
        _ => no_file(alloc),
    }
}

/// The reply to MDTM with a path that leads to this. It fails only when out of memory.
pub fn mdtm_reply(alloc: Global, found: Option<Entry>) -> Result<Reply, ControlChanError>
    // At `Ok` the reply is 213 with the time of the file that was found, or 550 where no file was.
    ensures ok { IfOk result (λ reply. reply_of reply ≡ mdtm_reply found) }
    // The only error is out of memory.
    ensures err { IfErr result (λ error. fault_of error ≡ out_of_memory) }
{
    match found {
        Some(Entry::File(file)) => modified_reply(alloc, file),
        _ => no_file(alloc),
    }
}

/// The reply to MDTM of a file.
fn modified_reply(alloc: Global, file: File) -> Result<Reply, ControlChanError>
    ensures ok { IfOk result (λ reply. reply_of reply ≡ mdtm_reply (Some (Entry.File file))) }
    ensures err { IfErr result (λ error. fault_of error ≡ out_of_memory) }
{
    match modify_text(alloc, file.modified())? {
        Some(text) => Ok(Reply::new_with_string(ReplyCode::FileStatus, text)),
        None => no_file(alloc),
    }
}

/// The reply where a path leads to no file.
fn no_file(alloc: Global) -> Result<Reply, ControlChanError>
    ensures ok { IfOk result (λ reply. reply_of reply ≡ no_file) }
    ensures err { IfErr result (λ error. fault_of error ≡ out_of_memory) }
{
    Reply::new(alloc, ReplyCode::FileError, "No such file")
}
