//! What listings show of a file.
ghost use Rattle.std.specs.Prelude.{◌≡◌, ◌∷◌, []};
ghost use Rattle.unftp_control_facts.specs.Facts.{FileFacts};
ghost use Rattle.unftp_control_facts.specs.Files.{facts_of_file, is_directory, kind_letter, kind_fact};

use crate::facts::Metadata;
use jiff::Timestamp;

/// What a file is, by the letters of `ls -l`.
#[derive(Clone, Copy, Debug, PartialEq, Eq)]
pub enum FileKind {
    /// A regular file: `-`.
    File = 0,
    /// A directory: `d`.
    Directory = 1,
    /// A symbolic link: `l`.
    Link = 2,
    /// A pipe: `p`.
    Pipe = 3,
    /// A socket: `s`.
    Socket = 4,
    /// A device of characters, such as a terminal: `c`.
    CharacterDevice = 5,
    /// A device of blocks, such as a disk: `b`.
    BlockDevice = 6,
}

impl FileKind {
    /// Its letter in a line of LIST.
    pub(crate) fn letter(self) -> u8
        ensures { result ≡ kind_letter self }
    {
        match self {
            FileKind::File => b'-',
            FileKind::Directory => b'd',
            FileKind::Link => b'l',
            FileKind::Pipe => b'p',
            FileKind::Socket => b's',
            FileKind::CharacterDevice => b'c',
            FileKind::BlockDevice => b'b',
        }
    }

    /// Its fact (RFC 3659, section 7.5.1).
    pub(crate) fn fact(self) -> &'static str
        ensures { result.now ≡ kind_fact self }
    {
        match self {
            FileKind::File => "type=file;",
            FileKind::Directory => "type=dir;",
            FileKind::Link => "type=OS.unix=symlink;",
            FileKind::Pipe => "type=OS.unix=pipe;",
            FileKind::Socket => "type=OS.unix=socket;",
            FileKind::CharacterDevice => "type=OS.unix=chr;",
            FileKind::BlockDevice => "type=OS.unix=blk;",
        }
    }
}

/// What a line shows of a file beside its name.
#[derive(Clone, Copy, Debug)]
pub struct FileStatus {
    /// What it is.
    pub kind: FileKind,
    /// Its permissions: the nine low bits. The others are not shown.
    pub mode: u32,
    /// How many names it has.
    pub links: u32,
    /// The user that it belongs to, or 0 where that is not known.
    pub uid: u32,
    /// The group that it belongs to, or 0 where that is not known.
    pub gid: u32,
    /// Its length in bytes.
    pub size: u64,
    /// When it was last modified, where that is known.
    pub modified: Option<Timestamp>,
}

impl Metadata for FileStatus {
    ghost facts_of = { facts_of_file };

    fn len(&self) -> u64 {
        self.size
    }

    fn is_dir(&self) -> bool {
        match self.kind {
            FileKind::Directory => true,
            _ => false,
        }
    }

    fn modified(&self) -> Option<Timestamp> {
        self.modified
    }

    fn uid(&self) -> u32 {
        self.uid
    }

    fn gid(&self) -> u32 {
        self.gid
    }
}
