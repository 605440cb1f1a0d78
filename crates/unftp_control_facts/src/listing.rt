//! The lines of a listing.
ghost use Rattle.std.specs.Prelude.{◌≡◌, ◌↔◌, ◌∷◌, ◌++◌, IfErr, IfOk, IsTrue, OnOk, decimal, ℤ};
ghost use Rattle.unftp_control_defs.specs.Bytes.{Bytes};
ghost use Rattle.unftp_control_facts.specs.declared.file.FileStatus.{FileStatus as Status};
ghost use Rattle.unftp_control_facts.specs.Listing.{HasNoLine, IsFactsLine, IsListLine, IsOneLine, list_front, ended_name, nanosecond_or_epoch, right};

use crate::columns::{push_mode, push_owner, push_right};
use crate::date::push_date;
use crate::facts::facts_with;
use crate::file::FileStatus;
use itoa::Buffer;
use jiff::Timestamp;
use std::alloc::{AllocError, Global};
use thiserror::Error;

/// Why a file has no line.
#[derive(Clone, Copy, Debug, PartialEq, Eq, Error)]
pub enum LineError {
    /// The name has a carriage return or a line feed: a client would read two lines.
    #[error("carriage return or line feed in a name")]
    InvalidName,
    /// An allocation failed.
    #[error("out of memory")]
    OutOfMemory,
}

/// The line of a file in the reply to MLSD, with its end: its facts, a space and the name (RFC
/// 3659, section 7.2). The facts are those of `format_facts`, but for a type of its own where it is
/// neither a file nor a directory. It is refused with `InvalidName` where the name has a carriage
/// return or a line feed, and for that no memory is asked for.
pub fn facts_line(alloc: Global, file: &FileStatus, name: &[u8]) -> Result<Vec<u8>, LineError>
    // At `Ok` the line is one of MLSD for this file and name, as the definition writes it.
    ensures ok { IfOk result (λ line. IsFactsLine file.now name.now line.items) }
    // At `Ok` the name has neither a carriage return nor a line feed.
    ensures name { OnOk result (IsOneLine name.now) }
    // `InvalidName` comes only where the name has a carriage return or a line feed, and
    // `OutOfMemory` only where it has neither.
    ensures err { IfErr result (HasNoLine name.now) }
{
    if !is_one_line(name) {
        return Err(LineError::InvalidName);
    }
    made_facts_line(alloc, file, name).map_err(|_| LineError::OutOfMemory)
}

/// The same for a name that can be in a line.
fn made_facts_line(alloc: Global, file: &FileStatus, name: &[u8]) -> Result<Vec<u8>, AllocError>
    ensures { IfOk result (λ line. IsFactsLine file.now name.now line.items) }
{
    let facts = facts_with(alloc, file.kind.fact(), file)?;
    let mut line = facts.into_bytes();
    push_name(&mut line, name)?;
    Ok(line)
}

/// The line of a file in the reply to LIST, with its end, in the form of `ls -l`, as
/// `-rw-r--r--   1 ftp      ftp              1234 Dec  1 12:00 a.txt`. It has what the file is and
/// its permissions, the number of its names, the user and the group, the size, when it was modified
/// in UTC, and the name. A user or a group of 0 is written as `ftp`. A time in the future, or of
/// 182 days ago or more, has the year in place of the time of day. A year before 0 is written as
/// 0000, and an unknown time as that of the Unix epoch. It is refused with `InvalidName` where the
/// name has a carriage return or a line feed, and for that no memory is asked for.
pub fn list_line(
    alloc: Global,
    file: &FileStatus,
    now: Timestamp,
    name: &[u8],
) -> Result<Vec<u8>, LineError>
    // At `Ok` the line is one of LIST for this file and name at this time, in the form of `ls -l`.
    ensures ok { IfOk result (λ line. IsListLine file.now now.nanosecond name.now line.items) }
    // At `Ok` the name has neither a carriage return nor a line feed.
    ensures name { OnOk result (IsOneLine name.now) }
    // `InvalidName` comes only where the name has a carriage return or a line feed, and
    // `OutOfMemory` only where it has neither.
    ensures err { IfErr result (HasNoLine name.now) }
{
    if !is_one_line(name) {
        return Err(LineError::InvalidName);
    }
    made_list_line(alloc, file, now, name).map_err(|_| LineError::OutOfMemory)
}

/// The same for a name that can be in a line.
fn made_list_line(
    alloc: Global,
    file: &FileStatus,
    now: Timestamp,
    name: &[u8],
) -> Result<Vec<u8>, AllocError>
    ensures { IfOk result (λ line. IsListLine file.now now.nanosecond name.now line.items) }
{
    let mut line = Vec::new(alloc);
    push_front(&mut line, file)?;
    push_size(&mut line, file.size)?;
    line.push(b' ')?;
    push_date(&mut line, or_epoch(file.modified), now)?;
    push_name(&mut line, name)?;
    Ok(line)
}

/// A time that is known, or the Unix epoch.
fn or_epoch(modified: Option<Timestamp>) -> Timestamp
    ensures { result.nanosecond ≡ nanosecond_or_epoch modified }
{
    match modified {
        Some(instant) => instant,
        None => Timestamp::UNIX_EPOCH,
    }
}

/// Appends what is before the size.
fn push_front(line: &mut Vec<u8>, file: &FileStatus) -> Result<(), AllocError>
    ensures { OnOk result (line.new.items ≡ line.old.items ++ list_front file.now) }
{
    line.push(file.kind.letter())?;
    push_mode(line, file.mode)?;
    line.push(b' ')?;
    let mut digits = Buffer::new();
    push_right(line, 3, digits.format(file.links).as_bytes())?;
    line.push(b' ')?;
    push_owner(line, file.uid)?;
    line.push(b' ')?;
    push_owner(line, file.gid)
}

/// Appends a space and the size in its column.
fn push_size(line: &mut Vec<u8>, size: u64) -> Result<(), AllocError>
    ensures { OnOk result (line.new.items ≡ line.old.items ++ 32 ∷ right 12 (decimal size)) }
{
    line.push(b' ')?;
    let mut digits = Buffer::new();
    push_right(line, 12, digits.format(size).as_bytes())
}

/// Appends a space, the name and the end of the line.
fn push_name(line: &mut Vec<u8>, name: &[u8]) -> Result<(), AllocError>
    ensures { OnOk result (line.new.items ≡ line.old.items ++ ended_name name.now) }
{
    line.push(b' ')?;
    line.extend_from_slice(name)?;
    line.extend_from_slice(b"\r\n")
}

/// Whether the name can be in a line.
fn is_one_line(name: &[u8]) -> bool
    ensures { IsTrue result ↔ IsOneLine name.now }
{
    !name.contains(&b'\r') && !name.contains(&b'\n')
}

/// A file has one line of MLSD, and one of LIST at one time.
pub fn one_line_of_a_file()
    // A file of a name has one line in the reply to MLSD.
    ensures facts { (file : Status) (name line other : Bytes) → IsFactsLine file name line
        → IsFactsLine file name other → line ≡ other }
    // A file of a name has one line in the reply to LIST at one time.
    ensures list { (file : Status) (now : ℤ) (name line other : Bytes)
        → IsListLine file now name line → IsListLine file now name other → line ≡ other }
{}
