//! What a command says: a verb, a name and a value, borrowed from its line or from the command.
ghost use Rattle.std.specs.Prelude.{◌≡◌, ◌↔◌, IsTrue, option_map, string_bytes};
ghost use Rattle.unftp_control_defs.specs.FtpCommand.{maybe_raw, maybe_text, said, unless_empty};
ghost use Rattle.unftp_control_defs.specs.Said.{HasTypedFields, outcome_of, name_and_value, value_bytes, word_and_value};
ghost use Rattle.unftp_control_message.specs.CommandMeaning.{command_of};
ghost use Rattle.unftp_control_message.specs.PartsMeaning.{IsInPlace, MakesCommand, said_value, said_len, said_of, spelled};

use crate::password::Password;
use crate::reply::error::ParseErrorKind;
use crate::sent::Sent;
use crate::{Command, fields};
use bytes::Bytes;
use itoa::Buffer;
use std::alloc::Global;
pub use unftp_control_defs::parameters::Choice;
pub use unftp_control_defs::verb::{Kind, Verb};

/// The value of a command, where it was read.
#[derive(Clone, Copy)]
pub enum Value<'a> {
    /// None; also where it is empty.
    None,
    /// Bytes as they are, in no particular encoding.
    Raw(Sent<'a>),
    /// A text.
    Text(&'a str),
    /// A text that is not there as it is: it is sent with a NUL after some of its carriage returns,
    /// or has ill-formed UTF-8, which is replaced by U+FFFD.
    Lossy(Sent<'a>),
    /// One of a few.
    Chosen(Choice),
    /// An offset.
    Number(u64),
}

/// What a line or a command says. It owns nothing.
#[derive(Clone, Copy)]
pub struct Parts<'a> {
    /// Which command it is.
    pub verb: Verb,
    /// The name of another subcommand of SITE, or of another verb, in upper or lower case; else
    /// empty.
    pub name: &'a str,
    /// Its value.
    pub value: Value<'a>,
}

impl<'a> Value<'a> {
    /// Whether it is where it was read, as it is.
    #[inline(always)]
    pub fn is_in_place(self) -> bool
        // True for every value but `Lossy`, and `Raw` of `Sent::Escaped`.
        ensures { IsTrue result ↔ IsInPlace self.entry }
    {
        !matches!(self, Value::Raw(Sent::Escaped(_)) | Value::Lossy(_))
    }

    /// Its bytes, or none where it has no value; `digits` has room for those of a number.
    #[inline(always)]
    pub fn bytes(self, digits: &'a mut Buffer) -> Option<&'a [u8]>
        // The value is neither `Lossy` nor `Raw` of `Sent::Escaped`.
        requires { IsInPlace self }
        // The bytes of the value, a number in decimal, or `None` exactly where there is no value.
        ensures { option_map (λ bytes. bytes.now) result ≡ value_bytes (said_value self.entry) }
    {
        if let Value::Number(number) = self {
            return Some(digits.format(number).as_bytes());
        }
        match self {
            Value::None | Value::Number(_) => None,
            Value::Raw(sent) | Value::Lossy(sent) => Some(sent.sent()),
            Value::Text(text) => Some(text.as_bytes()),
            Value::Chosen(choice) => Some(choice.word()),
        }
    }
}

impl<'a> Parts<'a> {
    /// The word that it has on a line, which is its verb or its subcommand of SITE, and its value
    /// (RFC 959, section 5.3); `digits` has room for those of a number.
    #[inline(always)]
    pub fn word_and_value(self, digits: &'a mut Buffer) -> (&'a str, Option<&'a [u8]>)
        // The value is neither `Lossy` nor `Raw` of `Sent::Escaped`.
        requires { IsInPlace self.value }
        // The verb's word, which for SITE MD5 is MD5, or the name where the verb has no word.
        ensures word { result.0.now ≡ (word_and_value (spelled self.entry)).0 }
        // The bytes of the value, a number in decimal, or `None` exactly where there is no value.
        ensures value { option_map (λ bytes. bytes.now) result.1
            ≡ (word_and_value (spelled self.entry)).1 }
    {
        let word = self.verb.word();
        let word = if word.is_empty() { self.name } else { word };
        (word, self.value.bytes(digits))
    }
}

/// A command with the field that a call made of the parts.
macro_rules! with_field {
    ($made:expr, $field:ident, $command:expr) => {
        match $made {
            Ok($field) => Ok($command),
            Err(kind) => Err(kind),
        }
    };
}

/// A command whose verb takes a value of this form.
macro_rules! of_value {
    ($parts:expr, $value:pat, $command:expr) => {
        match $parts.value {
            $value => Ok($command),
            _ => Err(ParseErrorKind::InvalidCommand),
        }
    };
}

/// The command of one row of the table.
macro_rules! made {
    (nothing; $alloc:expr, $parts:expr, $variant:ident {}) => {
        of_value!($parts, Value::None, Command::$variant {})
    };
    (no_buffer; $alloc:expr, $parts:expr, $variant:ident {}) => {
        of_value!($parts, Value::Chosen(Choice::NoBuffer), Command::$variant {})
    };
    (chosen $choice:ident; $alloc:expr, $parts:expr, $variant:ident { $field:ident }) => {
        of_value!($parts, Value::Chosen(Choice::$choice($field)), Command::$variant { $field })
    };
    (number; $alloc:expr, $parts:expr, $variant:ident { $field:ident }) => {
        of_value!($parts, Value::Number($field), Command::$variant { $field })
    };
    (password; $alloc:expr, $parts:expr, $variant:ident { $field:ident }) => {
        with_field!(fields::bytes($alloc, $parts), bytes, Command::$variant {
            $field: Password::new(bytes)
        })
    };
    (listing; $alloc:expr, $parts:expr, $variant:ident { $options:ident, $path:ident }) => {
        with_field!(fields::optional_text($alloc, $parts), $path, Command::$variant {
            $options: None,
            $path
        })
    };
    ($takes:ident; $alloc:expr, $parts:expr, $variant:ident { $field:ident }) => {
        with_field!(fields::$takes($alloc, $parts), $field, Command::$variant { $field })
    };
    ($takes:ident; $alloc:expr, $parts:expr, $variant:ident { $name:ident, $arguments:ident }) => {
        fields::$takes($alloc, $parts)
    };
}

/// The command that parts are.
macro_rules! command_of {
    ($alloc:expr, $parts:expr, $($variant:ident $($takes:ident)+ { $($field:ident),* })*) => {
        match $parts.verb {
            $(Verb::$variant => made!($($takes)+; $alloc, $parts, $variant { $($field),* }),)*
        }
    };
}

/// The verb of a command.
macro_rules! verb_of {
    ($command:expr, $($variant:ident $($takes:ident)+ { $($field:ident),* })*) => {
        match $command {
            $(Command::$variant { .. } => Verb::$variant,)*
        }
    };
}

impl Command {
    /// The command that parts are, in memory of its own (RFC 959, section 5.3).
    ///
    /// `InvalidCommand` where the verb takes no such value, and `OutOfMemory` where there is none
    /// for its texts.
    pub fn from_parts(alloc: Global, parts: &Parts<'_>) -> Result<Command, ParseErrorKind>
        // At `Ok` the parts say this command. Else the verb takes no such value, at
        // `InvalidCommand`, or the parts hold bytes, at `OutOfMemory`.
        ensures { MakesCommand (outcome_of (said_of parts.now))
            (said_len (said_of parts.now)) result }
    {
        for_each_command!(command_of!(alloc, parts))
    }

    /// The word that it has on its line, which is its verb or its subcommand of SITE, and its value
    /// before any CR is written as CR NUL (RFC 854); `digits` has room for those of a number.
    pub fn name_and_value<'a>(&'a self, digits: &'a mut Buffer) -> (&'a str, Option<&'a [u8]>)
        // The verb's word, which for SITE MD5 is MD5, or the name where the verb has no word.
        ensures name { result.0.now ≡ (name_and_value (command_of self.now)).0 }
        // The bytes of the command's value, a number in decimal, or `None` exactly where it has
        // none.
        ensures value { option_map (λ bytes. bytes.now) result.1
            ≡ (name_and_value (command_of self.now)).1 }
        // The texts of the command are UTF-8, and its offset has 64 bits.
        ensures typed { HasTypedFields (command_of self.now) }
    {
        self.parts().word_and_value(digits)
    }

    /// What the command says, in its own memory (RFC 959, section 5.3). The value is none where the
    /// command has none, and for an empty name, password, account or argument; of LIST it is only
    /// the path.
    pub fn parts(&self) -> Parts<'_>
        // The parts say what the command says: its verb, its name and its value, of LIST the path.
        ensures says { spelled result ≡ said (command_of self.now) }
        // The value is neither `Lossy` nor `Raw` of `Sent::Escaped`.
        ensures in_place { IsInPlace result.value }
        // The texts of the command are UTF-8, and its offset has 64 bits.
        ensures typed { HasTypedFields (command_of self.now) }
    {
        Parts {
            verb: self.verb(),
            name: self.name(),
            value: self.value(),
        }
    }

    /// Which command it is.
    #[inline(always)]
    fn verb(&self) -> Verb
        ensures { result ≡ (said (command_of self.now)).verb }
    {
        for_each_command!(verb_of!(self))
    }

    /// The name of another subcommand of SITE, or of another verb; else empty.
    #[inline(always)]
    fn name(&self) -> &str
        ensures { result.now ≡ (said (command_of self.now)).name }
    {
        match self {
            Command::Site { command: name, .. }
            | Command::Other {
                command_name: name,
                ..
            } => name.as_str(),
            _ => "",
        }
    }

    /// Its value; of LIST the path.
    #[inline(always)]
    #[tactic(auto, using(crate::proofs::SaidLemmas::texts))]
    fn value(&self) -> Value<'_>
        ensures value { said_value result ≡ (said (command_of self.now)).value }
        ensures in_place { IsInPlace result }
        ensures typed { HasTypedFields (command_of self.now) }
    {
        match self {
            Command::User { username: value } | Command::Acct { account: value } => {
                bytes(value.as_slice())
            }
            Command::Pass { password } => bytes(password.as_ref()),
            Command::Stat { path } => optional_bytes(path),
            Command::Stru { structure } => Value::Chosen(Choice::Structure(*structure)),
            Command::Mode { mode } => Value::Chosen(Choice::Mode(*mode)),
            Command::Opts { option } => Value::Chosen(Choice::Setting(*option)),
            Command::Auth { protocol } => Value::Chosen(Choice::Mechanism(*protocol)),
            Command::Prot { param } => Value::Chosen(Choice::Protection(*param)),
            Command::Pbsz {} => Value::Chosen(Choice::NoBuffer),
            Command::Rest { offset } => Value::Number(*offset),
            Command::List { path, .. }
            | Command::Nlst { path }
            | Command::Mlst { path }
            | Command::Mlsd { path } => optional_text(path),
            Command::Site { arguments, .. } | Command::Other { arguments, .. } => {
                text(arguments.as_str())
            }
            Command::Port { addr: text }
            | Command::Retr { path: text }
            | Command::Stor { path: text }
            | Command::Appe { path: text }
            | Command::Cwd { path: text }
            | Command::Dele { path: text }
            | Command::Rmd { path: text }
            | Command::Mkd { path: text }
            | Command::Rnfr { file: text }
            | Command::Rnto { file: text }
            | Command::Size { file: text }
            | Command::Mdtm { file: text }
            | Command::Md5 { file: text } => Value::Text(text.as_str()),
            _ => Value::None,
        }
    }
}

/// Bytes, or none where there are none.
fn bytes(bytes: &[u8]) -> Value<'_>
    ensures value { said_value result ≡ maybe_raw (unless_empty bytes.now) }
    ensures in_place { IsInPlace result }
{
    if bytes.is_empty() {
        return Value::None;
    }
    Value::Raw(Sent::Plain(bytes))
}

/// Bytes or none.
fn optional_bytes(bytes: &Option<Bytes>) -> Value<'_>
    ensures value { said_value result ≡ maybe_raw bytes.now }
    ensures in_place { IsInPlace result }
{
    match bytes {
        Some(bytes) => Value::Raw(Sent::Plain(bytes.as_slice())),
        None => Value::None,
    }
}

/// A text, or none where it is empty.
fn text(text: &str) -> Value<'_>
    ensures value { said_value result ≡ maybe_text (unless_empty text.now) }
    ensures in_place { IsInPlace result }
{
    if text.is_empty() {
        return Value::None;
    }
    Value::Text(text)
}

/// A text or none.
fn optional_text(text: &Option<String>) -> Value<'_>
    ensures value { said_value result ≡ maybe_text (option_map string_bytes text.now) }
    ensures in_place { IsInPlace result }
{
    match text {
        Some(text) => Value::Text(text.as_str()),
        None => Value::None,
    }
}
