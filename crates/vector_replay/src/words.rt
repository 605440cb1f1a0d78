//! The words of a case.
use bstr::ByteVec;
use std::alloc::{AllocError, AllocFailed, Global};
use std::num::NonZeroUsize;
use std::str;
use std::str::FromStr;
use unftp_control_message::reply::error::ControlChanError;

/// Why a line is not answered as a case.
#[derive(Clone, Copy, Debug)]
pub enum CaseError {
    /// It is no case.
    NoCase,
    /// There is no memory for what it is made of.
    OutOfMemory,
}

impl From<AllocError> for CaseError {
    fn from(_error: AllocError) -> CaseError {
        CaseError::OutOfMemory
    }
}

impl<T: Drop> From<AllocFailed<T>> for CaseError {
    fn from(_error: AllocFailed<T>) -> CaseError {
        CaseError::OutOfMemory
    }
}

/// A reply that is made fails only so.
impl From<ControlChanError> for CaseError {
    fn from(_error: ControlChanError) -> CaseError {
        CaseError::OutOfMemory
    }
}

/// A word, or the bytes that it has between quotes.
#[derive(Drop)]
pub enum Word<'a> {
    Bare(&'a str),
    Bytes(Vec<u8>),
}

impl<'a> Word<'a> {
    fn read(alloc: Global, word: &'a str) -> Result<Word<'a>, CaseError> {
        let Some(opened) = word.strip_prefix("\"") else {
            return Ok(Word::Bare(word));
        };
        let quoted = opened.strip_suffix("\"").ok_or(CaseError::NoCase)?;
        Ok(Word::Bytes(Vec::unescape_bytes(alloc, quoted)?))
    }

    /// What it has between quotes.
    pub fn bytes(&self) -> Result<&[u8], CaseError> {
        match self {
            Word::Bytes(bytes) => Ok(bytes.as_slice()),
            Word::Bare(_) => Err(CaseError::NoCase),
        }
    }

    /// The text that it has between quotes.
    pub fn text(&self) -> Result<&str, CaseError> {
        str::from_utf8(self.bytes()?).ok().ok_or(CaseError::NoCase)
    }
}

/// The words of a case, and how many of them are read.
#[derive(Drop)]
pub struct Words<'a> {
    pub all: &'a [Word<'a>],
    pub at: usize,
}

impl<'a> Words<'a> {
    /// The next word.
    fn next(&mut self) -> Result<&'a Word<'a>, CaseError> {
        let word = self.all.get(self.at).ok_or(CaseError::NoCase)?;
        self.at = self.at.saturating_add(1);
        Ok(word)
    }

    /// The next word, without quotes.
    pub fn name(&mut self) -> Result<&'a str, CaseError> {
        match self.next()? {
            Word::Bare(word) => Ok(*word),
            Word::Bytes(_) => Err(CaseError::NoCase),
        }
    }

    /// What the next word has between quotes.
    pub fn bytes(&mut self) -> Result<&'a [u8], CaseError> {
        self.next()?.bytes()
    }

    /// The text that the next word has between quotes.
    pub fn text(&mut self) -> Result<&'a str, CaseError> {
        self.next()?.text()
    }

    /// The number that the next word is.
    pub fn number<T: FromStr + Drop>(&mut self) -> Result<T, CaseError>
    where
        T::Err: Drop,
    {
        self.name()?.parse::<T>().ok().ok_or(CaseError::NoCase)
    }

    /// All that follow.
    pub fn rest(&mut self) -> &'a [Word<'a>] {
        let at = self.at.min(self.all.len());
        self.at = self.all.len();
        self.all.split_at(at).1
    }

    /// The limit that the next word is.
    pub fn limit(&mut self) -> Result<Option<NonZeroUsize>, CaseError> {
        read_limit(self.name()?)
    }
}

/// How many bytes something may have at most: at least 1, or `none`.
pub fn read_limit(word: &str) -> Result<Option<NonZeroUsize>, CaseError> {
    match word {
        "none" => Ok(None),
        _ => Ok(Some(word.parse().ok().ok_or(CaseError::NoCase)?)),
    }
}

/// The words of a line, which tabs divide.
pub fn read_words(alloc: Global, line: &str) -> Result<Vec<Word<'_>>, CaseError> {
    let mut words = Vec::new(alloc);
    for word in line.split('\t') {
        words.push(Word::read(alloc, word)?)?;
    }
    Ok(words)
}
