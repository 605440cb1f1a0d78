//! The tree: a few directories and files.
ghost use Rattle.std.specs.Prelude.{◌≡◌, map, Some};
ghost use Rattle.unftp_control_facts.specs.Facts.{IsTimeText};
ghost use Rattle.login_demo.specs.Tree.{entry_at, entry_names, file_size, file_time, has_names};

use jiff::Timestamp;

/// 2024-02-29 at 12:34:56 UTC, in seconds since 1970.
const README_MODIFIED: i64 = 1_709_210_096;

/// 2026-01-01 at 00:00:00 UTC, in seconds since 1970.
const TODAY_MODIFIED: i64 = 1_767_225_600;

/// A directory.
#[derive(Clone, Copy)]
pub enum Directory {
    /// `/`
    Root,
    /// `/pub`
    Pub,
    /// `/pub/notes`
    Notes,
    /// `/pub/a "quoted" name`
    Quoted,
}

/// A file.
#[derive(Clone, Copy)]
pub enum File {
    /// `/pub/readme.txt`
    Readme,
    /// `/pub/notes/today.txt`
    Today,
}

impl File {
    /// Its size in bytes.
    pub fn size(self) -> u64
        // It is the definition's size of the file.
        ensures { result ≡ file_size self }
    {
        match self {
            File::Readme => 1234,
            File::Today => 0,
        }
    }

    /// When it was last modified.
    pub fn modified(self) -> Timestamp
        // It is an instant within the definition's second of UTC for the file.
        ensures { IsTimeText result.nanosecond (Some (file_time self)) }
    {
        match self {
            File::Readme => Timestamp::constant(README_MODIFIED, 0),
            File::Today => Timestamp::constant(TODAY_MODIFIED, 0),
        }
    }
}

/// A directory or a file.
#[derive(Clone, Copy)]
pub enum Entry {
    /// A directory.
    Directory(Directory),
    /// A file.
    File(File),
}

/// All that there is.
const ENTRIES: &[Entry] = &[
    Entry::Directory(Directory::Root),
    Entry::Directory(Directory::Pub),
    Entry::Directory(Directory::Notes),
    Entry::Directory(Directory::Quoted),
    Entry::File(File::Readme),
    Entry::File(File::Today),
];

impl Entry {
    /// Its names from the root.
    pub fn names(self) -> &'static [&'static str]
        // The names are the definition's for the entry.
        ensures { map (λ name. name.now) result.now ≡ entry_names self }
    {
        match self {
            Entry::Directory(Directory::Root) => &[],
            Entry::Directory(Directory::Pub) => &["pub"],
            Entry::Directory(Directory::Notes) => &["pub", "notes"],
            Entry::Directory(Directory::Quoted) => &["pub", "a \"quoted\" name"],
            Entry::File(File::Readme) => &["pub", "readme.txt"],
            Entry::File(File::Today) => &["pub", "notes", "today.txt"],
        }
    }

    /// Whether these are its names from the root.
    fn has_names(self, names: &[&str]) -> bool
        ensures { result ≡ has_names (map (λ name. name.now) names.now) self }
    {
        self.names() == names
    }

    /// The entry with these names from the root, if there is one.
    pub fn at(names: &[&str]) -> Option<Entry>
        // It is the definition's entry with these names, or `None` where there is none.
        ensures { result ≡ entry_at (map (λ name. name.now) names.now) }
    {
        ENTRIES.iter().copied().find(|entry| entry.has_names(names))
    }
}
