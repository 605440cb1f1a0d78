//! Sessions: `serve` and `feed` over streams and handlers that may fail.
use crate::answers::{Answered, Answers};
use crate::handlers::{OneAccount, Pieces, Room, Scripted, Turns, Wire};
use crate::shown::Quoted;
use crate::words::{CaseError, Word, Words, read_limit};
use example_callers::log::log_lines;
use example_callers::member_file::{file_gate, serve_file};
use example_callers::transfers::Transfers;
use std::alloc::Global;
use std::fmt::Display;
use std::num::NonZeroUsize;
use unftp_control_login::Gate;
use unftp_control_serve::{
    Count, Engine, Input, Output, ServeError, Served, Session, Sink, serve, serve_with_limit,
};

/// How many bytes there are for how each call ended.
const ENDS: usize = 48;

/// How many bytes of replies are written before the writer's buffer grows.
const ROOM: usize = 1 << 16;

/// The value of an option, if it is there; an empty one where it has no value.
fn value_of<'b>(options: &[Word<'b>], name: &str) -> Option<&'b str> {
    for option in options {
        if let Word::Bare(word) = option {
            let (found, value) = word.split_once('=').unwrap_or((*word, ""));
            if found == name {
                return Some(value);
            }
        }
    }
    None
}

/// What a session is made of.
#[derive(Clone, Copy)]
struct SessionCase<'a> {
    alloc: Global,
    /// Whether it is served, and not fed.
    is_served: bool,
    /// The words before its bytes: names, some with `=` and a value.
    options: &'a [Word<'a>],
    limit: Option<NonZeroUsize>,
    /// The bytes that are served, or that a buffer holds before replies are appended.
    first: &'a [u8],
    /// The pieces that are fed.
    pieces: &'a [Word<'a>],
}

impl<'a> SessionCase<'a> {
    /// The session of these words.
    fn read(
        alloc: Global,
        is_served: bool,
        words: &mut Words<'a>,
    ) -> Result<SessionCase<'a>, CaseError> {
        let all = words.rest();
        let bytes_at = all.iter().position(|word| word.bytes().is_ok());
        let (options, given) = all.split_at(bytes_at.unwrap_or(all.len()).min(all.len()));
        let mut given = Words { all: given, at: 0 };
        let has_first = is_served || value_of(options, "appended").is_some();
        Ok(SessionCase {
            alloc,
            is_served,
            options,
            limit: read_limit(value_of(options, "limit").unwrap_or("none"))?,
            first: if has_first { given.bytes()? } else { &[] },
            pieces: given.rest(),
        })
    }

    /// Whether this option is there.
    fn has(&self, name: &str) -> bool {
        value_of(self.options, name).is_some()
    }

    /// The turns that an option says.
    fn turns(&self, name: &str) -> Turns<'a> {
        Turns(value_of(self.options, name).unwrap_or("all"))
    }
}

/// Notes how a call ended, for which there is room, and whether the handler has ended the session.
fn note(ends: &mut String, end: impl Display + Drop, is_done: bool) {
    let _ = write!(ends, "{end}{} | ", if is_done { " done" } else { "" });
}

/// Notes how a call that serves ended.
fn note_served(ends: &mut String, served: Result<Served, ServeError>) {
    match served {
        Ok(served) => note(ends, format_args!("ok left={}", served.left), served.done),
        Err(error) => note(ends, format_args!("{error:?}"), false),
    }
}

/// Serves what the reader gives, and once more where that is asked for.
fn serve_all<H: Session>(
    case: &SessionCase<'_>,
    reader: &mut Pieces<'_, '_>,
    room: &mut Room<'_>,
    handler: &mut H,
    ends: &mut String,
) {
    let (mut reader, mut writer) = (Input::new(reader), Output::new(room));
    let calls: u32 = if case.has("again") { 2 } else { 1 };
    for _ in 0..calls {
        if ends.contains("OutOfMemory") {
            break;
        }
        let served = match case.limit {
            None => serve(case.alloc, &mut reader, &mut writer, handler),
            Some(limit) => {
                serve_with_limit(case.alloc, limit.get(), &mut reader, &mut writer, handler)
            }
        };
        note_served(ends, served);
    }
}

/// Serves what the reader gives to who logs in.
fn serve_member(
    case: &SessionCase<'_>,
    reader: &mut Pieces<'_, '_>,
    room: &mut Room<'_>,
    gate: &mut Gate<OneAccount, Transfers<Wire<'_>>>,
    ends: &mut String,
) {
    let (mut reader, mut writer) = (Input::new(reader), Output::new(room));
    note_served(ends, serve_file(case.alloc, &mut reader, &mut writer, gate));
}

/// Logs what the reader gives.
fn log_all(
    case: &SessionCase<'_>,
    reader: &mut Pieces<'_, '_>,
    room: &mut Room<'_>,
    ends: &mut String,
) {
    let (mut reader, mut writer) = (Input::new(reader), Output::new(room));
    match log_lines(case.alloc, &mut reader, &mut writer) {
        Ok(()) => note(ends, "ok", false),
        Err(error) => note(ends, format_args!("{error:?}"), false),
    }
}

/// Feeds the pieces to an engine.
fn feed<H: Session, K: Sink>(
    case: &SessionCase<'_>,
    sink: &mut K,
    handler: &mut H,
    ends: &mut String,
) {
    let mut engine = match case.limit {
        None => Engine::new(case.alloc),
        Some(limit) => Engine::with_limit(case.alloc, limit.get()),
    };
    for piece in case.pieces {
        if let Word::Bytes(piece) = piece {
            let fed = engine.feed(piece.as_slice(), handler, sink);
            let (left, is_done) = (engine.left(), engine.finished());
            match fed {
                Ok(()) => note(ends, format_args!("ok left={left}"), is_done),
                Err(error) => note(ends, format_args!("{error:?} left={left}"), is_done),
            }
        }
    }
    drop(engine);
}

/// The streams of a session, and how each of its calls ended.
#[derive(Drop)]
struct Streams<'a> {
    reader: Pieces<'a, 'a>,
    room: Room<'a>,
    ends: String,
}

impl<'a> Streams<'a> {
    /// Those of this session, with the memory that is not the calls' own.
    fn new(case: &SessionCase<'a>) -> Result<Streams<'a>, CaseError> {
        let calls = case.pieces.len().saturating_add(8);
        let reserved = if case.has("appended") {
            case.first.len()
        } else {
            ROOM
        };
        Ok(Streams {
            reader: Pieces {
                rest: case.first,
                reads: 0,
                step: usize::MAX,
                turns: case.turns("reads"),
            },
            room: Room {
                held: Vec::with_capacity(case.alloc, reserved)?,
                flushed: 0,
                writes: case.turns("writes"),
                flushes: case.turns("flushes"),
            },
            ends: String::with_capacity(case.alloc, ENDS.saturating_mul(calls))?,
        })
    }

    /// Writes how the calls ended, and what was written and read. Calls that ran out of memory are
    /// marked.
    fn put(&self, case: &SessionCase<'_>, answers: &mut Answers) -> Answered {
        let (ends, written) = (self.ends.as_str(), Quoted(self.room.held.as_slice()));
        if ends.contains("OutOfMemory") {
            answers.mark(format_args!("{ends}written={written}\n"));
            return Err(CaseError::OutOfMemory);
        }
        answers.put(format_args!("{ends}written={written} flushed={}", self.room.flushed));
        if case.is_served {
            let (reads, unread) = (self.reader.reads, Quoted(self.reader.rest));
            answers.put(format_args!(" reads={reads} unread={unread}"));
        }
        Ok(())
    }
}

/// Writes how the session goes by this handler.
fn put_session<H: Session>(
    case: &SessionCase<'_>,
    handler: &mut H,
    answers: &mut Answers,
) -> Answered {
    let Streams {
        mut reader,
        mut room,
        mut ends,
    } = Streams::new(case)?;
    answers.begin();
    if case.is_served {
        serve_all(case, &mut reader, &mut room, handler, &mut ends);
    } else if case.has("appended") {
        // there is room for them
        let _ = room.held.extend_from_slice(case.first);
        feed(case, &mut room.held, handler, &mut ends);
    } else {
        feed(case, &mut Output::new(&mut room), handler, &mut ends);
    }
    Streams { reader, room, ends }.put(case, answers)
}

/// `log_lines WORD.. INPUT`
pub fn answer_log_lines(words: &mut Words<'_>, answers: &mut Answers) -> Answered {
    let case = SessionCase::read(answers.alloc, true, words)?;
    let Streams {
        mut reader,
        mut room,
        mut ends,
    } = Streams::new(&case)?;
    answers.begin();
    log_all(&case, &mut reader, &mut room, &mut ends);
    Streams { reader, room, ends }.put(&case, answers)
}

/// Writes how the session of who logs in goes, and what it transfers.
fn put_member(case: &SessionCase<'_>, answers: &mut Answers) -> Answered {
    let wire = Wire::new(case.alloc, case.turns("turns"))?;
    let mut gate = file_gate(OneAccount, wire, Vec::new(case.alloc));
    let Streams {
        mut reader,
        mut room,
        mut ends,
    } = Streams::new(case)?;
    answers.begin();
    serve_member(case, &mut reader, &mut room, &mut gate, &mut ends);
    Streams { reader, room, ends }.put(case, answers)?;
    put_transfers(gate.handler(), answers);
    Ok(())
}

/// Writes what was transferred.
fn put_transfers(transfers: &Transfers<Wire<'_>>, answers: &mut Answers) {
    let sent = Quoted(transfers.connection().taken.as_slice());
    answers.put(format_args!(" sent={sent} file={}", Quoted(transfers.file())));
}

/// `serve WORD.. INPUT`, or `feed WORD.. PIECE..`
pub fn answer_session(is_served: bool, words: &mut Words<'_>, answers: &mut Answers) -> Answered {
    let case = SessionCase::read(answers.alloc, is_served, words)?;
    if is_served && case.has("login") {
        put_member(&case, answers)?;
    } else if case.has("transfers") {
        let wire = Wire::new(case.alloc, case.turns("turns"))?;
        let mut transfers = Transfers::new(wire, Vec::new(case.alloc));
        put_session(&case, &mut transfers, answers)?;
        put_transfers(&transfers, answers);
    } else {
        let mut scripted = Scripted {
            is_silent: case.has("silent"),
            turns: case.turns("turns"),
            taken: 0,
            has_quit: false,
            failures: Count::new(),
        };
        put_session(&case, &mut scripted, answers)?;
        answers.put(format_args!(" taken={}", scripted.taken));
    }
    Ok(())
}
