//! Calls that decode lines from bytes that come in pieces, and that log one.
ghost use Rattle.std.specs.Prelude.{◌≡◌, ◌≤◌, ◌+◌, vec_len};

use crate::answers::{Answered, Answers, once_more};
use crate::shown::{Quoted, Shown};
use crate::words::{CaseError, Word, Words};
use std::alloc::{AllocError, Global};
use std::num::NonZeroUsize;
use unftp_control_codecs::FtpCodec;
use unftp_control_log::write_log_line;
use unftp_control_message::Command;
use unftp_control_message::reply::error::{ControlChanError, ControlChanErrorKind, Source};
use unftp_control_serve::{Event, EventDecoder};

/// Takes what is complete of bytes that come in pieces.
pub trait Taker: Drop {
    /// A piece comes.
    fn push(&mut self, piece: &[u8]) -> Result<(), AllocError>;

    /// Takes the next, and writes it or why there is none; whether there was one.
    fn take(&mut self, answers: &mut Answers) -> Result<bool, CaseError>;

    /// Drops what came, if it can.
    fn clear(&mut self) {}

    /// Makes a step of its own, if it has one of this name.
    fn act(&mut self, _step: &str, _bytes: &[u8], _answers: &mut Answers) -> Answered {
        Err(CaseError::NoCase)
    }

    /// Writes what is left.
    fn put_left(&self, _answers: &mut Answers) {}
}

/// Makes a step: `next`, `push` or `feed`, after which all that is complete is taken, or another.
fn make_step<T: Taker>(taker: &mut T, step: &str, bytes: &[u8], answers: &mut Answers) -> Answered {
    let takes: u64 = match step {
        "feed" => u64::MAX,
        "next" => 1,
        "push" => 0,
        "clear" => {
            taker.clear();
            return Ok(());
        }
        step => return taker.act(step, bytes, answers),
    };
    if step != "next" {
        once_more!(answers, taker.push(bytes))?;
    }
    for _ in 0..takes {
        if !once_more!(answers, taker.take(answers))? {
            break;
        }
    }
    Ok(())
}

/// Makes the steps, and writes what is left after each: `next`, `clear`, a piece that is fed, or
/// another word and its bytes.
pub fn make_steps<T: Taker>(
    taker: &mut T,
    steps: &[Word<'_>],
    separator: &str,
    answers: &mut Answers,
) -> Answered {
    answers.begin();
    let mut name = "feed";
    let mut before = "";
    for step in steps {
        let (made, bytes) = match step {
            Word::Bytes(bytes) => (name, bytes.as_slice()),
            Word::Bare(word @ ("next" | "clear")) => (*word, b"".as_slice()),
            Word::Bare(word) => {
                name = *word;
                continue;
            }
        };
        answers.put(before);
        make_step(taker, made, bytes, answers)?;
        taker.put_left(answers);
        name = "feed";
        before = separator;
    }
    Ok(())
}

/// How many bytes a codec's buffer may have without taking memory.
const ROOM: usize = 1 << 16;

/// A codec, and its bytes.
#[derive(Drop)]
struct Decoding {
    alloc: Global,
    codec: FtpCodec,
    bytes: Vec<u8>,
    /// Whether slices are decoded, of which the codec takes no byte away.
    is_slice: bool,
    /// How many bytes were taken of those that are still there, and how many by the last call.
    start: usize,
    taken: usize,
    ghost within: { start + codec.place ≤ vec_len bytes },
}

impl Decoding {
    /// What `decode` or `decode_slice` returns.
    fn decode(&mut self) -> Result<Option<Command>, ControlChanError> {
        if !self.is_slice {
            self.start = 0;
            return self.codec.decode(self.alloc, &mut self.bytes);
        }
        let (_, rest) = self.bytes.as_slice().split_at(self.start);
        let (taken, decoded) = self.codec.decode_slice(self.alloc, rest);
        self.start += taken;
        self.taken = taken;
        decoded
    }

    /// Writes how many bytes a call on a slice took, and what the codec is then.
    fn put_taken(&self, answers: &mut Answers) {
        let (taken, place) = (self.taken, self.codec.place());
        answers.put(format_args!(" taken={taken} place={place}"));
        answers.put_where(self.codec.skipping(), " skipping");
    }
}

impl Taker for Decoding {
    fn push(&mut self, piece: &[u8]) -> Result<(), AllocError> {
        self.bytes.extend_from_slice(piece)
    }

    fn take(&mut self, answers: &mut Answers) -> Result<bool, CaseError> {
        let event = match self.decode() {
            Ok(None) => return Ok(false),
            Ok(Some(command)) => Event::Command(command),
            Err(error) => Event::Refused(error),
        };
        put_event(event, answers)?;
        if self.is_slice {
            self.put_taken(answers);
        }
        answers.put(" | ");
        Ok(true)
    }

    /// Writes how many bytes are left; also the scan offset, where it isn't at their end, and
    /// whether bytes are skipped.
    fn put_left(&self, answers: &mut Answers) {
        if self.is_slice {
            answers.put("none");
            return self.put_taken(answers);
        }
        let (place, left) = (self.codec.place(), self.bytes.len());
        answers.put(format_args!("left={left}"));
        if place != left {
            answers.put(format_args!(" place={place}"));
        }
        answers.put_where(self.codec.skipping(), " skipping");
    }
}

/// A codec with this limit or without one, at this scan offset.
fn codec_at(limit: Option<NonZeroUsize>, place: usize) -> FtpCodec
    ensures { result.place ≡ place }
{
    match limit {
        Some(limit) => FtpCodec::resume(Some(limit.get()), place, false),
        None => FtpCodec::resume(None, place, false),
    }
}

/// `decode LIMIT PIECE..`, or `decode_slice LIMIT PLACE BYTES PIECE..`
pub fn answer_decode(is_slice: bool, words: &mut Words<'_>, answers: &mut Answers) -> Answered {
    let limit = words.limit()?;
    let place: usize = if is_slice { words.number()? } else { 0 };
    let front = if is_slice { words.bytes()? } else { &[] };
    if place > front.len() {
        return Err(CaseError::NoCase);
    }
    let mut bytes = Vec::with_capacity(answers.alloc, ROOM)?;
    bytes.extend_from_slice(front)?;
    let mut decoding = Decoding {
        alloc: answers.alloc,
        codec: codec_at(limit, place),
        bytes,
        is_slice,
        start: 0,
        taken: 0,
    };
    make_steps(&mut decoding, words.rest(), " | ", answers)
}

/// A decoder of events.
#[derive(Drop)]
struct Events {
    decoder: EventDecoder,
    /// Whether each event's line is written too.
    has_lines: bool,
}

impl Taker for Events {
    fn push(&mut self, piece: &[u8]) -> Result<(), AllocError> {
        self.decoder.push(piece)
    }

    fn take(&mut self, answers: &mut Answers) -> Result<bool, CaseError> {
        let Some(event) = self.decoder.next_event()? else {
            return Ok(false);
        };
        put_event(event, answers)?;
        if self.has_lines {
            answers.put(format_args!(" of {}", Quoted(self.decoder.line())));
        }
        answers.put(" | ");
        Ok(true)
    }

    fn clear(&mut self) {
        self.decoder.clear();
    }

    /// Writes how many bytes are left, and how many of these are pending, where it isn't all.
    fn put_left(&self, answers: &mut Answers) {
        let (left, pending) = (self.decoder.left(), self.decoder.pending().len() as u64);
        answers.put(format_args!("left={left}"));
        if pending != left {
            answers.put(format_args!(" pending={pending}"));
        }
    }
}

/// Writes the kinds of a refusal and of what that comes from; memory that ran out is none.
fn put_error(error: &ControlChanError, answers: &mut Answers) -> Answered {
    if let ControlChanErrorKind::OutOfMemory = error.kind() {
        return Err(CaseError::OutOfMemory);
    }
    answers.put(format_args!("err {:?}", error.kind()));
    if let Source::Parse(source) = error.source() {
        answers.put(format_args!(" {:?}", source.kind()));
    }
    Ok(())
}

/// Writes what a line is read as: its command or its refusal.
fn put_event(event: Event, answers: &mut Answers) -> Answered {
    let answered = match &event {
        Event::Command(command) => {
            answers.put(format_args!("ok {}", Shown(command)));
            Ok(())
        }
        Event::Refused(error) => put_error(error, answers),
    };
    drop(event);
    answered
}

/// A decoder with this limit, or without one.
fn decoder_with(alloc: Global, limit: Option<NonZeroUsize>) -> EventDecoder {
    match limit {
        Some(limit) => EventDecoder::with_limit(alloc, limit.get()),
        None => EventDecoder::new(alloc),
    }
}

/// `events LIMIT STEP..`, or `event_lines LIMIT STEP..`, which writes each event's line too.
pub fn answer_events(has_lines: bool, words: &mut Words<'_>, answers: &mut Answers) -> Answered {
    let decoder = decoder_with(answers.alloc, words.limit()?);
    let mut events = Events { decoder, has_lines };
    make_steps(&mut events, words.rest(), " | ", answers)
}

/// `log LIMIT LINE`
pub fn answer_log(words: &mut Words<'_>, answers: &mut Answers) -> Answered {
    let (limit, line) = (words.limit()?, words.bytes()?);
    let mut buf = Vec::from_slice(answers.alloc, b"x")?;
    let mut decoder = decoder_with(answers.alloc, limit);
    decoder.push(line)?;
    let Ok(Some(event)) = decoder.next_event() else {
        return Err(CaseError::NoCase);
    };
    let logged = once_more!(answers, write_log_line(&event, decoder.line(), &mut buf));
    drop(event);
    answers.put_appended(logged, buf.as_slice())
}
