//! Answers cases of calls of the library (`vectors/README.md`): reads one a line from standard
//! input, and writes its answer. What is no case is answered by `bad-case`. With an argument it
//! also writes to standard error when a call begins and ends, and when one ran out of memory.
#![tactic(auto)]

mod answers;
mod decoding;
mod handlers;
mod lines;
mod reading;
mod relaying;
mod replies;
mod sessions;
mod shown;
mod words;

use answers::{Answered, Answers};
use std::io::{BufRead, BufReader};
use std::process::ExitCode;
use std::{env, io};
use words::{CaseError, Word, Words, read_words};

/// Makes the call of this name.
fn make_call(name: &str, words: &mut Words<'_>, answers: &mut Answers) -> Answered {
    match name {
        "parse" => lines::answer_parse(words, answers),
        "display" => lines::answer_display(words, answers),
        "password" => lines::answer_password(words, answers),
        "password_from_text" => lines::answer_password_from_text(words, answers),
        "is_verb" => lines::answer_is_verb(words, answers),
        "text" => lines::answer_text(words, answers),
        "write" => lines::answer_write(words, answers),
        "canonical" => lines::answer_canonical(words, answers),
        "forward" => lines::answer_forward(words, answers),
        "parameter" => lines::answer_parameter(words, answers),
        "list_path" => lines::answer_list_path(words, answers),
        "decode" => decoding::answer_decode(false, words, answers),
        "decode_slice" => decoding::answer_decode(true, words, answers),
        "events" => decoding::answer_events(false, words, answers),
        "event_lines" => decoding::answer_events(true, words, answers),
        "log" => decoding::answer_log(words, answers),
        "encode" => replies::answer_encode(words, answers),
        "lines" => replies::answer_lines(words, answers),
        "says" => replies::answer_says(words, answers),
        "code" => replies::answer_code(words, answers),
        "read" => reading::answer_read(words, answers),
        "receive" => reading::answer_receive(words, answers),
        "client" => reading::answer_client(words, answers),
        "reply" => replies::answer_reply(words, answers),
        "epsv" => replies::answer_epsv(words, answers),
        "quoted_path" => replies::answer_quoted_path(words, answers),
        "single_line" => replies::answer_single_line(words, answers),
        "serve" => sessions::answer_session(true, words, answers),
        "feed" => sessions::answer_session(false, words, answers),
        "log_lines" => sessions::answer_log_lines(words, answers),
        "relay" => relaying::answer_relay(words, answers),
        _ => Err(CaseError::NoCase),
    }
}

/// Answers the case of these words, all of which it takes.
fn answer_words(given: &[Word<'_>], answers: &mut Answers) -> Answered {
    let mut words = Words { all: given, at: 0 };
    let name = words.name()?;
    make_call(name, &mut words, answers)?;
    if words.rest().is_empty() {
        Ok(())
    } else {
        Err(CaseError::NoCase)
    }
}

/// Answers the case that a line is, once more where its call ran out of memory.
fn answer_case(line: &str, answers: &mut Answers) -> Answered {
    let words = read_words(answers.alloc, line)?;
    let answered = answer_words(words.as_slice(), answers);
    if answers.is_begun && answers.ran_out(&answered) {
        answer_words(words.as_slice(), answers)
    } else {
        answered
    }
}

/// Answers the lines of standard input, with marks where an argument asks for them.
fn replay(rt: &HostRuntime) -> io::Result<()> {
    let mut answers = Answers::new(rt, env::args(rt)?.nth(1).is_some())?;
    for line in BufReader::new(answers.alloc, rt.reader())?.lines(answers.alloc) {
        let answered = answer_case(line?.as_str(), &mut answers);
        answers.end_line(answered)?;
    }
    answers.flush()
}

fn main(rt: HostRuntime) -> ExitCode {
    match replay(&rt) {
        Ok(()) => ExitCode::SUCCESS,
        Err(error) => {
            let _ = eprintln!(rt; "vector_replay: {error}");
            ExitCode::FAILURE
        }
    }
}
