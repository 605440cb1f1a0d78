//! Where answers go, and the marks of the calls.
use crate::shown::Quoted;
use crate::words::CaseError;
use bstr::ByteSlice;
use std::alloc::Global;
use std::fmt::{Debug, Display};
use std::io::{BufWriter, Stderr, Stdout, Write};
use std::{io, mem};
use unftp_control_codecs::encode_reply;
use unftp_control_message::reply::Reply;

/// How many bytes a text or a reply may have without taking memory.
const ROOM: usize = 1024;

/// Whether the words were a case.
pub type Answered = Result<(), CaseError>;

/// Standard output for the answers, and standard error where marks are asked for. The first failure
/// is kept, and then nothing more is written.
#[derive(Drop)]
pub struct Answers {
    pub alloc: Global,
    out: BufWriter<Stdout>,
    marks: Option<Stderr>,
    /// The last text or reply, and that text under flags.
    plain: Vec<u8>,
    flagged: Vec<u8>,
    /// Whether the call of the line has begun.
    pub is_begun: bool,
    failed: io::Result<()>,
}

impl Answers {
    /// Answers to standard output, and marks to standard error where they are asked for.
    pub fn new(rt: &HostRuntime, has_marks: bool) -> io::Result<Answers> {
        let alloc = rt.alloc();
        Ok(Answers {
            alloc,
            out: BufWriter::new(alloc, rt.stdout())?,
            marks: if has_marks { Some(rt.stderr()) } else { None },
            plain: Vec::with_capacity(alloc, ROOM)?,
            flagged: Vec::with_capacity(alloc, ROOM)?,
            is_begun: false,
            failed: Ok(()),
        })
    }

    /// Keeps the first failure.
    fn note(&mut self, written: io::Result<()>) {
        if self.failed.is_ok() {
            self.failed = written;
        }
    }

    /// Writes a part of an answer.
    pub fn put(&mut self, part: impl Display + Drop) {
        let written = write!(self.out, "{part}");
        self.note(written);
    }

    /// Writes a part of an answer where this is so.
    pub fn put_where(&mut self, is_so: bool, part: &str) {
        if is_so {
            self.put(part);
        }
    }

    /// Writes the last text or reply between quotes.
    fn put_plain(&mut self) {
        let written = write!(self.out, "{}", Quoted(self.plain.as_slice()));
        self.note(written);
    }

    /// Writes a text between quotes, and ` alike` where it is the same under flags.
    pub fn put_text(&mut self, plain: impl Display + Drop, flagged: impl Display + Drop) {
        if fill(&mut self.plain, plain) && fill(&mut self.flagged, flagged) {
            let is_alike = self.plain == self.flagged;
            self.put_plain();
            self.put_where(is_alike, " alike");
        }
    }

    /// Writes the bytes of a reply.
    pub fn put_reply(&mut self, reply: &Reply) {
        self.plain.clear();
        let encoded = encode_reply(reply, &mut self.plain);
        self.put_plain();
        self.put_where(encoded.is_err(), " failed");
    }

    /// Writes what was appended to a buffer of one byte; or why nothing was, where it has no other.
    pub fn put_appended<E: Debug + Drop>(&mut self, made: Result<(), E>, buf: &[u8]) -> Answered {
        match (made, buf) {
            (Ok(()), [b'x', appended @ ..]) => self.put(Quoted(appended)),
            (Err(error), [b'x']) => self.put(format_args!("{error:?}")),
            _ => self.put("changed"),
        }
        Ok(())
    }

    /// Writes a part of a mark where marks are asked for.
    pub fn mark(&mut self, part: impl Display + Drop) {
        if let Some(marks) = &mut self.marks {
            let written = write!(marks, "{part}");
            self.note(written);
        }
    }

    /// The call of the line begins, if it hasn't: the memory for it.
    pub fn begin(&mut self) -> Global {
        if !self.is_begun {
            self.is_begun = true;
            self.mark("begin\n");
        }
        self.alloc
    }

    /// Whether a call ran out of memory, and is made again: each error has one name for it.
    pub fn ran_out<T, E: Debug>(&mut self, made: &Result<T, E>) -> bool {
        let Err(error) = made else {
            return false;
        };
        let is_filled = fill(&mut self.plain, format_args!("{error:?}"));
        let text = self.plain.as_slice();
        let (name, other) = (b"OutOfMemory".as_slice(), b"AllocError".as_slice());
        let is_so = is_filled && (text.contains_str(name) || text == other);
        if is_so {
            self.mark("out of memory\n");
        }
        is_so
    }

    /// Ends an answer; the first failure so far is returned.
    pub fn end_line(&mut self, answered: Answered) -> io::Result<()> {
        self.begin();
        match answered {
            Ok(()) => {}
            Err(CaseError::NoCase) => self.put("bad-case"),
            Err(CaseError::OutOfMemory) => return Err(io::ErrorKind::OutOfMemory.into()),
        }
        self.is_begun = false;
        self.mark("end\n");
        self.put("\n");
        mem::replace(&mut self.failed, Ok(()))
    }

    /// Writes what is buffered.
    pub fn flush(&mut self) -> io::Result<()> {
        self.out.flush()
    }
}

/// Makes this the text; whether there was room.
fn fill(text: &mut Vec<u8>, shown: impl Display + Drop) -> bool {
    text.clear();
    write!(text, "{shown}").is_ok()
}

/// Begins the call of the line: what it returns; once more where it ran out of memory.
macro_rules! once_more {
    ($answers:expr, $call:expr) => {{
        $answers.begin();
        let made = $call;
        if $answers.ran_out(&made) {
            drop(made);
            $call
        } else {
            made
        }
    }};
}

pub(crate) use once_more;
