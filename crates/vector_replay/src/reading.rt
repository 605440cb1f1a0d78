//! Calls that read replies, and those of a client.
use crate::answers::{Answered, Answers, once_more};
use crate::decoding::{Taker, make_steps};
use crate::shown::Quoted;
use crate::words::{CaseError, Words};
use std::alloc::AllocError;
use unftp_control_client::{Client, To};
use unftp_control_codecs::line_parser::parse;
use unftp_control_read::{Front, NextReplyError, ReadReplyError, ReplyDecoder, read_reply};

/// How many bytes of lines are sent without memory for them.
const ROOM: usize = 1 << 16;

/// Writes the code of a reply and its lines.
fn put_reply(code: u16, lines: &[Vec<u8>], answers: &mut Answers) {
    answers.put(format_args!("{code:03}"));
    let mut separator = ":";
    for line in lines {
        answers.put(format_args!("{separator}{}", Quoted(line.as_slice())));
        separator = ",";
    }
}

/// Writes the reply at the start of some bytes after the separator, and returns how many bytes it
/// has; or writes why there is none.
fn put_front(bytes: &[u8], separator: &str, answers: &mut Answers) -> Option<usize> {
    let end = match once_more!(answers, read_reply(answers.alloc, bytes)) {
        Ok(Front::Whole { code, lines, used }) => {
            answers.put(separator);
            put_reply(code, lines.as_slice(), answers);
            return Some(used.min(bytes.len()));
        }
        Ok(Front::Partial) => "",
        Err(ReadReplyError::Malformed) => " malformed",
        Err(ReadReplyError::OutOfMemory) => " failed",
    };
    answers.put(format_args!(" rest={}{end}", bytes.len()));
    None
}

/// `read BYTES`
pub fn answer_read(words: &mut Words<'_>, answers: &mut Answers) -> Answered {
    let mut rest = words.bytes()?;
    let mut separator = "";
    // a reply takes bytes, so the last call finds none
    for _ in 0..=rest.len() {
        let Some(used) = put_front(rest, separator, answers) else {
            break;
        };
        rest = rest.split_at(used.min(rest.len())).1;
        separator = ";";
    }
    Ok(())
}

/// Writes why no reply is taken, if there is a reason; memory that ran out is none.
fn put_no_reply(error: Option<NextReplyError>, answers: &mut Answers) -> Result<bool, CaseError> {
    answers.put(match error {
        None => "",
        Some(NextReplyError::Malformed) => "malformed | ",
        Some(NextReplyError::TooLong) => "too-long | ",
        Some(NextReplyError::OutOfMemory) => return Err(CaseError::OutOfMemory),
    });
    Ok(false)
}

impl Taker for ReplyDecoder {
    fn push(&mut self, piece: &[u8]) -> Result<(), AllocError> {
        ReplyDecoder::push(self, piece)
    }

    fn take(&mut self, answers: &mut Answers) -> Result<bool, CaseError> {
        let taken = self.next_reply();
        if let Ok(Some(reply)) = &taken {
            put_reply(reply.code, reply.lines.as_slice(), answers);
            answers.put(" | ");
            return Ok(true);
        }
        put_no_reply(taken.err(), answers)
    }

    fn clear(&mut self) {
        ReplyDecoder::clear(self);
    }

    fn put_left(&self, answers: &mut Answers) {
        answers.put(format_args!("left={}", self.pending().len()));
    }
}

/// `receive LIMIT STEP..`
pub fn answer_receive(words: &mut Words<'_>, answers: &mut Answers) -> Answered {
    let mut decoder = match words.limit()? {
        Some(limit) => ReplyDecoder::with_limit(answers.alloc, limit.get()),
        None => ReplyDecoder::new(answers.alloc),
    };
    make_steps(&mut decoder, words.rest(), " | ", answers)
}

/// A client, and a buffer for the lines that it sends.
#[derive(Drop)]
struct Talk {
    client: Client,
    out: Vec<u8>,
}

impl Talk {
    /// Sends the command that a line is read as; whether it was.
    fn send_command(&mut self, line: &[u8], answers: &mut Answers) -> bool {
        let Ok(command) = once_more!(answers, parse(answers.alloc, line)) else {
            return false;
        };
        let is_sent = self.client.send(&command, &mut self.out).is_ok();
        drop(command);
        is_sent
    }
}

impl Taker for Talk {
    fn push(&mut self, piece: &[u8]) -> Result<(), AllocError> {
        self.client.receive(piece)
    }

    fn take(&mut self, answers: &mut Answers) -> Result<bool, CaseError> {
        let taken = self.client.next_reply();
        let Ok(Some(taken)) = taken else {
            return put_no_reply(taken.err(), answers);
        };
        match taken.to {
            To::Greeting => answers.put("greeting"),
            To::Command(place) => answers.put(place),
            To::Nothing => answers.put("nothing"),
        }
        answers.put(format_args!(" {:03} | ", taken.reply.code));
        drop(taken);
        Ok(true)
    }

    fn act(&mut self, step: &str, bytes: &[u8], answers: &mut Answers) -> Answered {
        let is_sent = match step {
            "send" => self.client.send_line(bytes, &mut self.out).is_ok(),
            "command" => self.send_command(bytes, answers),
            _ => return Err(CaseError::NoCase),
        };
        answers.put_where(!is_sent, "not sent | ");
        Ok(())
    }
}

/// `client LIMIT ACT..`: `send` and a line, `command` and the line of one, or a piece that comes.
pub fn answer_client(words: &mut Words<'_>, answers: &mut Answers) -> Answered {
    let client = match words.limit()? {
        Some(limit) => Client::with_limit(answers.alloc, limit.get()),
        None => Client::new(answers.alloc),
    };
    let out = Vec::with_capacity(answers.alloc, ROOM)?;
    let mut talk = Talk { client, out };
    make_steps(&mut talk, words.rest(), "", answers)?;
    let (owed, left) = (talk.client.owed(), talk.client.pending().len());
    answers.put(format_args!("owed={owed} left={left}"));
    answers.put_where(talk.client.tls_agreed(), " tls");
    Ok(())
}
