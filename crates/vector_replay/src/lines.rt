//! Calls that read and write the line of a command, and those on passwords and errors.
use crate::answers::{Answered, Answers, once_more};
use crate::shown::{Quoted, Shown};
use crate::words::{CaseError, Word, Words};
use bytes::Bytes;
use std::alloc::Global;
use std::fmt::{Debug, Display};
use std::io;
use unftp_control_client::SendError;
use unftp_control_codecs::line_parser::{
    ParseError, ParseErrorKind, is_verb, list_path, parameter, parse, parts,
};
use unftp_control_codecs::{EncodeLinesError, FtpCodec};
use unftp_control_message::Command;
use unftp_control_message::parts::{Parts, Value};
use unftp_control_message::password::Password;
use unftp_control_message::reply::error::{ControlChanError, ControlChanErrorKind};
use unftp_control_message::sent::Sent;
use unftp_control_read::{NextReplyError, ReadReplyError, ReceiveError};
use unftp_control_write::{ForwardError, WriteCommandError, forward, write_command};

/// The command that a line is.
pub fn read_command(alloc: Global, line: &[u8]) -> Result<Command, CaseError> {
    parse(alloc, line).ok().ok_or(CaseError::NoCase)
}

/// Writes why a line is refused; memory that ran out is no reason.
fn put_refusal(error: ParseError, answers: &mut Answers) -> Answered {
    match error.kind() {
        ParseErrorKind::OutOfMemory => Err(CaseError::OutOfMemory),
        kind => {
            answers.put(format_args!("err {kind:?}"));
            Ok(())
        }
    }
}

/// `parse LINE`
pub fn answer_parse(words: &mut Words<'_>, answers: &mut Answers) -> Answered {
    let line = words.bytes()?;
    match parse(answers.begin(), line) {
        Ok(command) => {
            answers.put(format_args!("ok {}", Shown(&command)));
            drop(command);
            Ok(())
        }
        Err(error) => put_refusal(error, answers),
    }
}

/// Writes the text of a clone of the command after that is gone.
fn put_clone(command: Command, answers: &mut Answers) -> Answered {
    let cloned = command.clone(answers.begin());
    let is_same = matches!(&cloned, Ok(copy) if *copy == command);
    drop(command);
    let Ok(copy) = cloned else {
        return Err(CaseError::OutOfMemory);
    };
    answers.put_text(format_args!("{copy}"), format_args!("{copy:#60.3}"));
    drop(copy);
    answers.put_where(!is_same, " unequal");
    Ok(())
}

/// `display LINE`
pub fn answer_display(words: &mut Words<'_>, answers: &mut Answers) -> Answered {
    let command = read_command(answers.alloc, words.bytes()?)?;
    put_clone(command, answers)
}

/// The text of a field.
fn text(alloc: Global, field: &Word<'_>) -> Result<String, CaseError> {
    Ok(String::from_str(alloc, field.text()?)?)
}

/// The command of a line, with this value in place of its own.
fn with_value(alloc: Global, line: &[u8], value: &Word<'_>) -> Result<Command, CaseError> {
    let of_line = parts(line).ok().ok_or(CaseError::NoCase)?;
    let value = match of_line.value {
        Value::Raw(_) => Value::Raw(Sent::Plain(value.bytes()?)),
        _ => Value::Text(value.text()?),
    };
    let made = Command::from_parts(alloc, &Parts { value, ..of_line });
    made.ok().ok_or(CaseError::NoCase)
}

/// The command that is written: that of a line; one with a value that no line gives; or LIST with
/// options, another subcommand of SITE or another verb.
fn read_written(alloc: Global, words: &[Word<'_>]) -> Result<Command, CaseError> {
    Ok(match words {
        [line] => read_command(alloc, line.bytes()?)?,
        [Word::Bare("List"), options] => Command::List {
            options: Some(text(alloc, options)?),
            path: None,
        },
        [Word::Bare("Site"), command] => Command::Site {
            command: text(alloc, command)?,
            arguments: String::new(alloc),
        },
        [Word::Bare("Other"), verb] => Command::Other {
            command_name: text(alloc, verb)?,
            arguments: String::new(alloc),
        },
        [line, value] => with_value(alloc, line.bytes()?, value)?,
        _ => return Err(CaseError::NoCase),
    })
}

/// `write LINE`, `write LINE VALUE`, or `write VARIANT TEXT`
pub fn answer_write(words: &mut Words<'_>, answers: &mut Answers) -> Answered {
    let mut buf = Vec::from_slice(answers.alloc, b"x")?;
    let command = read_written(answers.alloc, words.rest())?;
    let written = once_more!(answers, write_command(&command, &mut buf));
    drop(command);
    answers.put_appended(written, buf.as_slice())
}

/// Writes what a new codec reads the line as, and whether it is another command or leaves bytes.
fn put_read_back(command: &Command, mut line: Vec<u8>, answers: &mut Answers) {
    answers.put(format_args!("{} is ", Quoted(line.as_slice())));
    let mut codec = FtpCodec::new();
    let decoded = once_more!(answers, codec.decode(answers.alloc, &mut line));
    let is_same = matches!(&decoded, Ok(Some(other)) if *other == *command);
    if let Ok(Some(other)) = &decoded {
        answers.put(format_args!("ok {}", Shown(other)));
    }
    drop(decoded);
    answers.put_where(!is_same || !line.is_empty(), " unequal");
}

/// Writes the command's line, and what that is read as.
fn put_canonical(command: &Command, answers: &mut Answers) -> Answered {
    let mut line = Vec::new(answers.alloc);
    match write_command(command, &mut line) {
        Ok(()) => put_read_back(command, line, answers),
        Err(WriteCommandError::NoLine) => answers.put("NoLine"),
        Err(WriteCommandError::OutOfMemory) => return Err(CaseError::OutOfMemory),
    }
    Ok(())
}

/// `canonical LINE`
pub fn answer_canonical(words: &mut Words<'_>, answers: &mut Answers) -> Answered {
    let line = words.bytes()?;
    match parse(answers.begin(), line) {
        Ok(command) => {
            let answered = put_canonical(&command, answers);
            drop(command);
            answered
        }
        Err(error) => put_refusal(error, answers),
    }
}

/// `forward LINE`
pub fn answer_forward(words: &mut Words<'_>, answers: &mut Answers) -> Answered {
    let line = words.bytes()?;
    let mut buf = Vec::from_slice(answers.alloc, b"x")?;
    let forwarded = once_more!(answers, forward(line, &mut buf));
    match (forwarded, buf.as_slice()) {
        (Err(ForwardError::Refused(error)), [b'x']) => put_refusal(error, answers),
        (forwarded, buf) => answers.put_appended(forwarded, buf),
    }
}

/// Writes a value through an area as long as its line, or that there is none.
fn put_value(value: Option<Sent<'_>>, area: &mut [u8], answers: &mut Answers) -> Answered {
    let Some(value) = value else {
        answers.put("none");
        return Ok(());
    };
    let len = value.value_len();
    if len > area.len() {
        answers.put("longer");
        return Ok(());
    }
    value.write_to(area);
    answers.put(Quoted(area.split_at(len).0));
    Ok(())
}

/// `parameter LINE`
pub fn answer_parameter(words: &mut Words<'_>, answers: &mut Answers) -> Answered {
    let line = words.bytes()?;
    let mut area = Vec::from_slice(answers.alloc, line)?;
    answers.begin();
    put_value(parameter(line), area.as_mut_slice(), answers)
}

/// `list_path LINE`
pub fn answer_list_path(words: &mut Words<'_>, answers: &mut Answers) -> Answered {
    let line = words.bytes()?;
    let mut area = Vec::from_slice(answers.alloc, line)?;
    answers.begin();
    put_value(list_path(line), area.as_mut_slice(), answers)
}

/// `is_verb WORD..`
pub fn answer_is_verb(words: &mut Words<'_>, answers: &mut Answers) -> Answered {
    answers.begin();
    let mut separator = "";
    for word in words.rest() {
        answers.put(format_args!("{separator}{}", is_verb(word.bytes()?)));
        separator = " ";
    }
    Ok(())
}

/// Writes what Display and Debug write.
fn put_both<T: Debug + Display>(value: &T, answers: &mut Answers) {
    answers.begin();
    answers.put_text(format_args!("{value}"), format_args!("{value:#60.3}"));
    answers.put(" ");
    answers.put_text(format_args!("{value:?}"), format_args!("{value:#60.3?}"));
}

/// `password BYTES`
pub fn answer_password(words: &mut Words<'_>, answers: &mut Answers) -> Answered {
    let password = Password::new(Bytes::copy_from_slice(answers.alloc, words.bytes()?)?);
    answers.begin();
    let copy = password.clone()?;
    let is_same = copy == password;
    drop(password);
    put_both(&copy, answers);
    answers.put(format_args!(" bytes={}", Quoted(copy.as_ref())));
    answers.put_where(!is_same, " unequal");
    Ok(())
}

/// `password_from_text TEXT`
pub fn answer_password_from_text(words: &mut Words<'_>, answers: &mut Answers) -> Answered {
    let text = words.text()?;
    let password = Password::from_text(answers.begin(), text)?;
    answers.put(Quoted(password.as_ref()));
    Ok(())
}

/// Writes what Display and Debug write of each of these.
fn put_all<T: Debug + Display>(values: &[T], answers: &mut Answers) -> Answered {
    let mut separator = "";
    for value in values {
        answers.put(separator);
        put_both(value, answers);
        separator = " | ";
    }
    Ok(())
}

/// The errors of a type by their names, of those that have no field; and one that has.
macro_rules! errors {
    ($type:ident: $($unit:ident)*) => { [$($type::$unit),*] };
    ($type:ident: $($unit:ident)*; $other:expr) => { [$($type::$unit,)* $other] };
}

/// Writes what these write.
macro_rules! put_errors {
    ($answers:expr, $($errors:tt)*) => { put_all(&errors!($($errors)*), $answers) };
}

/// The kinds of the parser.
const PARSE_KINDS: [ParseErrorKind; 4] =
    errors!(ParseErrorKind: InvalidCommand InvalidUtf8 InvalidEol OutOfMemory);

/// Those of the control channel; that of an unknown command has FOO.
fn control_kinds(alloc: Global) -> Result<Vec<ControlChanErrorKind>, CaseError> {
    let command = String::from_str(alloc, "FOO")?;
    let kinds = errors!(
        ControlChanErrorKind: IoError ParseError InternalServerError AuthenticationError
        InternalMsgError Utf8Error InvalidCommand ControlChannelTimeout IllegalState OutOfMemory
        LineTooLong; ControlChanErrorKind::UnknownCommand { command }
    );
    Ok(Vec::from_array(alloc, kinds)?)
}

/// `text TYPE`: all errors of this type.
pub fn answer_text(words: &mut Words<'_>, answers: &mut Answers) -> Answered {
    let alloc = answers.alloc;
    match words.name()? {
        "ParseErrorKind" => put_all(&PARSE_KINDS, answers),
        "ParseError" => put_all(&PARSE_KINDS.map(ParseError::from), answers),
        "ControlChanErrorKind" => put_all(control_kinds(alloc)?.as_slice(), answers),
        "ControlChanError" => {
            let kinds = control_kinds(alloc)?.into_iter();
            let errors: Vec<ControlChanError> = kinds.map(ControlChanError::from).collect(alloc)?;
            put_all(errors.as_slice(), answers)
        }
        name => put_other(name, answers),
    }
}

/// Those of a type of another call.
fn put_other(name: &str, answers: &mut Answers) -> Answered {
    match name {
        "EncodeLinesError" => put_errors!(answers, EncodeLinesError: CodeOutOfRange OutOfMemory),
        "WriteCommandError" => put_errors!(answers, WriteCommandError: NoLine OutOfMemory),
        "ForwardError" => put_errors!(
            answers, ForwardError: NotALine OutOfMemory;
            ForwardError::Refused(ParseErrorKind::InvalidCommand.into())
        ),
        "SendError" => put_errors!(
            answers, SendError: NoLine NotALine OutOfMemory TooManyCommands
        ),
        "ReadReplyError" => put_errors!(answers, ReadReplyError: Malformed OutOfMemory),
        "NextReplyError" => put_errors!(answers, NextReplyError: Malformed TooLong OutOfMemory),
        "ReceiveError" => put_errors!(
            answers, ReceiveError: Malformed TooLong OutOfMemory TooManyReads;
            ReceiveError::Read(io::Error::from_raw_os_error(4))
        ),
        _ => Err(CaseError::NoCase),
    }
}
