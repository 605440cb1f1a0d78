//! What a caller in C gives of a file, and its lines in MLSD and in LIST.
ghost use Rattle.std.specs.Prelude.{◌≡◌, IfErr, MatchOption, OnOk};
ghost use Rattle.unftp_control_facts.specs.Listing.{HasNoLine};
ghost use Rattle.unftp_control_c.specs.Areas.{Made, made, written};
ghost use Rattle.unftp_control_c.specs.FileLines.{CanBeTold, HasFactsLine, HasListLine, HasTime, IsInstant, IsSecond, IsStatusOf, IsTime, kind_of, name_status, second_of};

use crate::areas::write;
use crate::status::Status;
use jiff::Timestamp;
use std::alloc::Global;
use unftp_control_facts::{FileKind, FileStatus, LineError, facts_line, list_line};

/// What a caller in C gives of a file: `struct unftp_file` of include/unftp_control.h.
#[repr(C)]
#[derive(Clone, Copy)]
pub struct File {
    /// How many bytes it has.
    pub size: u64,
    /// When it was last modified, in seconds of the Unix epoch.
    pub modified: i64,
    /// 0 where that is not known.
    pub has_modified: u32,
    /// The number of what it is.
    pub kind: u32,
    /// Its permissions: the nine low bits.
    pub mode: u32,
    /// How many names it has.
    pub links: u32,
    /// The user that it belongs to, or 0.
    pub uid: u32,
    /// The group that it belongs to, or 0.
    pub gid: u32,
}

impl File {
    /// The same in the types of the library, where its kind has a number and its time is an
    /// instant.
    fn status(&self) -> Option<FileStatus>
        ensures { MatchOption result (¬ CanBeTold self.now)
            (λ file. CanBeTold self.now × IsStatusOf self.now file) }
    {
        let kind = kind_of(self.kind)?;
        let modified = self.time()?;
        Some(FileStatus {
            kind,
            mode: self.mode,
            links: self.links,
            uid: self.uid,
            gid: self.gid,
            size: self.size,
            modified,
        })
    }

    /// When it was modified, where that is known and an instant.
    fn time(&self) -> Option<Option<Timestamp>>
        ensures { MatchOption result (¬ HasTime self.now)
            (λ time. HasTime self.now × IsTime (second_of self.now) time) }
    {
        if self.has_modified == 0 {
            return Some(None);
        }
        Some(Some(instant(self.modified)?))
    }
}

/// What has this number, if anything has.
fn kind_of(number: u32) -> Option<FileKind>
    ensures { result ≡ kind_of number }
{
    match number {
        0 => Some(FileKind::File),
        1 => Some(FileKind::Directory),
        2 => Some(FileKind::Link),
        3 => Some(FileKind::Pipe),
        4 => Some(FileKind::Socket),
        5 => Some(FileKind::CharacterDevice),
        6 => Some(FileKind::BlockDevice),
        _ => None,
    }
}

/// The instant so many seconds after the Unix epoch, if there is one.
fn instant(second: i64) -> Option<Timestamp>
    ensures { MatchOption result (¬ IsSecond second)
        (λ instant. IsSecond second × IsInstant second instant) }
{
    match Timestamp::from_second(second) {
        Ok(instant) => Some(instant),
        Err(_) => None,
    }
}

/// Writes the line of a file in MLSD: `unftp_facts_line` of include/unftp_control.h.
#[unsafe(no_mangle)]
pub extern "C" fn unftp_facts_line(
    alloc: Global,
    file: &File,
    name: &[u8],
    out: &mut [u8],
    len: &mut usize,
) -> u32
    // The line of MLSD for this file and name is written, or `out` is unchanged and the result
    // reports why.
    ensures { (line : Made) × HasFactsLine file.now name.now line
        × (record { result = result; area = out.new; text_length = len.new }
        ≡ written line out.old) }
{
    write(facts_text(alloc, file, name), out, len)
}

/// The line of a file in MLSD, or why there is none.
fn facts_text(alloc: Global, file: &File, name: &[u8]) -> Result<Vec<u8>, Status>
    ensures { HasFactsLine file.now name.now (made result) }
{
    let Some(file) = file.status() else {
        return Err(Status::InvalidArgument);
    };
    match facts_line(alloc, &file, name) {
        Ok(line) => Ok(line),
        Err(error) => Err(name_status(error)),
    }
}

/// Writes the line of a file in LIST: `unftp_list_line` of include/unftp_control.h.
#[unsafe(no_mangle)]
pub extern "C" fn unftp_list_line(
    alloc: Global,
    file: &File,
    now: i64,
    name: &[u8],
    out: &mut [u8],
    len: &mut usize,
) -> u32
    // The line of LIST for this file and name at this time is written, or `out` is unchanged and
    // the result reports why.
    ensures { (line : Made) × HasListLine file.now now name.now line
        × (record { result = result; area = out.new; text_length = len.new }
        ≡ written line out.old) }
{
    write(list_text(alloc, file, now, name), out, len)
}

/// The line of a file in LIST, or why there is none.
fn list_text(alloc: Global, file: &File, now: i64, name: &[u8]) -> Result<Vec<u8>, Status>
    ensures { HasListLine file.now now name.now (made result) }
{
    let Some(now) = instant(now) else {
        return Err(Status::InvalidArgument);
    };
    let Some(file) = file.status() else {
        return Err(Status::InvalidArgument);
    };
    match list_line(alloc, &file, now, name) {
        Ok(line) => Ok(line),
        Err(error) => Err(name_status(error)),
    }
}

/// Why a name has no line.
fn name_status(error: LineError) -> Status
    ensures { result ≡ name_status error }
{
    match error {
        LineError::InvalidName => Status::InvalidArgument,
        LineError::OutOfMemory => Status::OutOfMemory,
    }
}
