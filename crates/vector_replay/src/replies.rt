//! Calls that make replies, and texts for replies.
use crate::answers::{Answered, Answers, once_more};
use crate::lines::read_command;
use crate::shown::Quoted;
use crate::words::{CaseError, Word, Words};
use std::alloc::Global;
use std::str::from_utf8;
use unftp_control_codecs::{encode_lines, encode_reply};
use unftp_control_commands::{
    Auth, Epsv, Feat, Help, Mode, Opts, Passive, Prot, SessionChange, Stru, make_epsv_reply,
    quoted_bytes, quoted_path, single_line_text,
};
use unftp_control_message::Command;
use unftp_control_message::reply::error::ControlChanError;
use unftp_control_message::reply::{Reply, ReplyCode};

/// The reply of these words: `none`; `msg`, a code and a text; or `multi`, a code and texts.
fn reply_of(alloc: Global, words: &mut Words<'_>) -> Result<Reply, CaseError> {
    let form = words.name()?;
    if form == "none" {
        return Ok(Reply::none());
    }
    let code = ReplyCode::from_number(words.number()?).ok_or(CaseError::NoCase)?;
    match form {
        "msg" => Ok(Reply::new(alloc, code, words.text()?)?),
        "multi" => {
            let texts = words.rest().iter().map(|line| line.text().unwrap_or(""));
            Ok(Reply::new_multiline(alloc, code, texts)?)
        }
        _ => Err(CaseError::NoCase),
    }
}

/// Writes the bytes of a clone of the reply, after that is gone.
fn put_clone(reply: Reply, mut buf: Vec<u8>, answers: &mut Answers) -> Answered {
    let cloned = reply.clone(answers.alloc);
    let is_same = matches!(&cloned, Ok(copy) if *copy == reply);
    drop(reply);
    let copy = cloned?;
    let encoded = once_more!(answers, encode_reply(&copy, &mut buf));
    drop(copy);
    answers.put_appended(encoded, buf.as_slice())?;
    answers.put_where(!is_same, " unequal");
    Ok(())
}

/// `encode REPLY..`
pub fn answer_encode(words: &mut Words<'_>, answers: &mut Answers) -> Answered {
    let buf = Vec::from_slice(answers.alloc, b"x")?;
    let reply = reply_of(answers.begin(), words)?;
    put_clone(reply, buf, answers)
}

/// `lines CODE LINE..`
pub fn answer_lines(words: &mut Words<'_>, answers: &mut Answers) -> Answered {
    let code = words.number()?;
    let mut lines = Vec::new(answers.alloc);
    for line in words.rest() {
        lines.push(line.bytes()?)?;
    }
    let mut buf = Vec::from_slice(answers.alloc, b"x")?;
    let encoded = once_more!(answers, encode_lines(code, lines.as_slice(), &mut buf));
    answers.put_appended(encoded, buf.as_slice())
}

/// `says REPLY..`
pub fn answer_says(words: &mut Words<'_>, answers: &mut Answers) -> Answered {
    let reply = reply_of(answers.alloc, words)?;
    answers.begin();
    answers.put_text(format_args!("{reply:?}"), format_args!("{reply:#60.3?}"));
    answers.put_where(reply.is_positive(), " positive");
    answers.put_where(reply.is_plain(), " plain");
    drop(reply);
    Ok(())
}

/// `code NUMBER`
pub fn answer_code(words: &mut Words<'_>, answers: &mut Answers) -> Answered {
    match ReplyCode::from_number(words.number()?) {
        Some(code) => answers.put(format_args!("{code:?} {}", code.number())),
        None => answers.put("none"),
    }
    Ok(())
}

/// Whether this is one of the settings.
fn has(settings: &[Word<'_>], name: &str) -> bool {
    settings.iter().any(|word| matches!(word, Word::Bare(setting) if *setting == name))
}

/// The port that the setting is, or one that was bound before.
fn passive(settings: &[Word<'_>]) -> Passive {
    let mut words = Words {
        all: settings,
        at: 0,
    };
    words.number().map_or(Passive::Prebound, Passive::Port)
}

/// A reply, and what the session has to do after it where the command may change it.
type Replied = Result<(Reply, Option<SessionChange>), CaseError>;

/// The reply to a command, of a server with these settings.
fn reply_to(alloc: Global, command: &Command, settings: &[Word<'_>]) -> Replied {
    let tls = has(settings, "tls");
    let reply = match command {
        Command::Auth { protocol } => return changing(Auth::new(*protocol).reply(alloc, tls)),
        Command::Prot { param } => return changing(Prot::new(*param).reply(alloc, tls)),
        Command::Epsv => Epsv::new().reply(alloc, passive(settings)),
        Command::Feat => {
            let (restart, md5) = (has(settings, "restart"), has(settings, "site_md5"));
            Feat.reply(alloc, tls, restart, md5)
        }
        Command::Help => Help.reply(alloc),
        Command::Mode { mode } => Mode::new(*mode).reply(alloc),
        Command::Opts { option } => Opts::new(*option).reply(alloc),
        Command::Stru { structure } => Stru::new(*structure).reply(alloc),
        _ => return Err(CaseError::NoCase),
    };
    Ok((reply?, None))
}

/// A reply to a command that may change the session.
fn changing(made: Result<(Reply, SessionChange), ControlChanError>) -> Replied {
    let (reply, change) = made?;
    Ok((reply, Some(change)))
}

/// `reply LINE SETTING..`
pub fn answer_reply(words: &mut Words<'_>, answers: &mut Answers) -> Answered {
    let command = read_command(answers.alloc, words.bytes()?)?;
    let replied = reply_to(answers.begin(), &command, words.rest());
    drop(command);
    let (reply, change) = replied?;
    answers.put_reply(&reply);
    drop(reply);
    if let Some(change) = change {
        answers.put(format_args!(" {change:?}"));
    }
    Ok(())
}

/// `epsv PORT`
pub fn answer_epsv(words: &mut Words<'_>, answers: &mut Answers) -> Answered {
    let port = words.number()?;
    let reply = make_epsv_reply(answers.begin(), port)?;
    answers.put_reply(&reply);
    drop(reply);
    Ok(())
}

/// `quoted_path PATH`
pub fn answer_quoted_path(words: &mut Words<'_>, answers: &mut Answers) -> Answered {
    let path = words.bytes()?;
    let alloc = answers.begin();
    let quoted = quoted_bytes(alloc, path)?;
    let is_same = match from_utf8(path) {
        Ok(text) => quoted_path(alloc, text)?.as_bytes() == quoted.as_slice(),
        Err(_) => true,
    };
    answers.put(Quoted(quoted.as_slice()));
    answers.put_where(!is_same, " unequal");
    Ok(())
}

/// `single_line TEXT`
pub fn answer_single_line(words: &mut Words<'_>, answers: &mut Answers) -> Answered {
    let text = words.text()?;
    let line = single_line_text(answers.begin(), text)?;
    answers.put(Quoted(line.as_bytes()));
    Ok(())
}
