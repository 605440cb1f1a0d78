//! A relay between a client and a server.
use crate::answers::{Answered, Answers};
use crate::shown::Quoted;
use crate::words::{CaseError, Word, Words};
use example_callers::relay::{Connection, End, sent_last};
use std::alloc::{AllocError, Global};
use unftp_control_proxy::{Limits, Proxy};

/// How many bytes an answer may have without taking memory.
const ROOM: usize = 1 << 16;

/// What the proxy keeps and sends at most.
const LIMITS: Limits = Limits {
    line: 4096,
    sent: 2048,
    reply: 65536,
    waiting: 16,
};

/// What came of the pieces so far, and what separates the next part from that.
#[derive(Drop)]
struct Comes {
    text: String,
    separator: &'static str,
}

impl Comes {
    /// Notes a part, for which there is room.
    fn note(&mut self, part: &str) {
        let _ = write!(self.text, "{}{part}", self.separator);
        self.separator = " ";
    }

    /// Notes what a side is sent.
    fn note_bytes(&mut self, side: &str, bytes: &[u8]) {
        if !bytes.is_empty() {
            self.note(side);
            let _ = write!(self.text, "={}", Quoted(bytes));
        }
    }

    /// Notes what both sides are sent.
    fn note_sent(&mut self, to_client: &[u8], to_server: &[u8]) {
        self.note_bytes("to-client", to_client);
        self.note_bytes("to-server", to_server);
    }

    /// Notes why nothing more passes, and what both sides are sent last.
    fn note_end(&mut self, connection: &Connection, end: End) {
        self.note(match end {
            End::Unasked(_) => "unasked",
            End::Malformed => "malformed",
            End::TooLong => "too-long",
            End::Tls => "tls",
        });
        if let End::Unasked(code) = end {
            let _ = write!(self.text, " {code}");
        }
        let (to_client, to_server) = sent_last(&connection.proxy, end);
        self.note_sent(to_client, to_server);
    }

    /// Notes what came of a piece; whether more may pass.
    fn note_piece(
        &mut self,
        connection: &mut Connection,
        passed: Result<Option<End>, AllocError>,
    ) -> bool {
        let before = self.text.len();
        let (to_client, to_server) = (&connection.to_client, &connection.to_server);
        self.note_sent(to_client.as_slice(), to_server.as_slice());
        connection.to_client.clear();
        connection.to_server.clear();
        match passed {
            Ok(Some(end)) => self.note_end(connection, end),
            Ok(None) if self.text.len() == before => self.note("nothing"),
            Ok(None) => {}
            Err(_) => self.note("OutOfMemory"),
        }
        self.separator = " | ";
        matches!(passed, Ok(None))
    }
}

/// A connection on which nothing came.
fn new_connection(alloc: Global) -> Connection {
    Connection {
        proxy: Proxy::new(alloc, LIMITS),
        to_client: Vec::new(alloc),
        to_server: Vec::new(alloc),
    }
}

/// Gives the connection a piece of what this side sent, and lets pass all that can pass.
fn pass_piece(
    alloc: Global,
    connection: &mut Connection,
    side: &str,
    piece: &[u8],
) -> Result<Option<End>, AllocError> {
    if side == "client" {
        connection.proxy.from_client(piece)?;
    } else {
        connection.proxy.from_server(piece)?;
    }
    connection.pass_all(alloc)
}

/// `relay`, and for each piece `client` or `server` and its bytes
pub fn answer_relay(words: &mut Words<'_>, answers: &mut Answers) -> Answered {
    let text = String::with_capacity(answers.alloc, ROOM)?;
    let mut comes = Comes {
        text,
        separator: "",
    };
    let alloc = answers.begin();
    let mut connection = new_connection(alloc);
    let mut side = "";
    for word in words.rest() {
        let passed = match (word, side) {
            (Word::Bare(name), _) => {
                side = *name;
                continue;
            }
            (Word::Bytes(piece), "client" | "server") => {
                pass_piece(alloc, &mut connection, side, piece.as_slice())
            }
            _ => return Err(CaseError::NoCase),
        };
        if passed.is_err() {
            comes.note_piece(&mut connection, passed);
            answers.mark(format_args!("{}\n", comes.text));
            return Err(CaseError::OutOfMemory);
        }
        if !comes.note_piece(&mut connection, passed) {
            break;
        }
    }
    answers.put(comes.text.as_str());
    Ok(())
}
