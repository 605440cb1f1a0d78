//! Commands as the vector files write them.
use std::fmt;
use std::fmt::{Debug, Display, Formatter, Write};
use unftp_control_message::parts::{Choice, Parts, Value, Verb};
use unftp_control_message::{Command, Opt};

/// Bytes between double quotes, in ASCII: what is printable as it is, and all else escaped.
#[derive(Clone, Copy)]
pub struct Quoted<'a>(pub &'a [u8]);

impl Display for Quoted<'_> {
    fn fmt<W: Write>(&self, f: &mut Formatter<W>) -> fmt::Result {
        f.write_str("\"")?;
        for byte in self.0 {
            write_escaped(f, *byte)?;
        }
        f.write_str("\"")
    }
}

/// Writes a byte as it is between quotes.
fn write_escaped<W: Write>(f: &mut Formatter<W>, byte: u8) -> fmt::Result {
    match byte {
        b'\r' => f.write_str("\\r"),
        b'\n' => f.write_str("\\n"),
        b'\0' => f.write_str("\\0"),
        b'\\' => f.write_str("\\\\"),
        b' '..=b'~' => f.write_char(char::from(byte)),
        _ => write!(f, "\\x{byte:02x}"),
    }
}

/// The variant and the name of the field with its value; empty where it has none.
fn heading(verb: Verb) -> &'static str {
    match verb {
        Verb::User => "User username",
        Verb::Pass => "Pass password",
        Verb::Acct => "Acct account",
        Verb::Stat => "Stat path",
        Verb::Stru => "Stru structure",
        Verb::Mode => "Mode mode",
        Verb::Port => "Port addr",
        Verb::Retr => "Retr path",
        Verb::Stor => "Stor path",
        Verb::Appe => "Appe path",
        Verb::List => "List options=None path",
        Verb::Nlst => "Nlst path",
        Verb::Mlst => "Mlst path",
        Verb::Mlsd => "Mlsd path",
        Verb::Cwd => "Cwd path",
        Verb::Opts => "Opts option",
        Verb::Dele => "Dele path",
        Verb::Rmd => "Rmd path",
        Verb::Mkd => "Mkd path",
        Verb::Rnfr => "Rnfr file",
        Verb::Rnto => "Rnto file",
        Verb::Auth => "Auth protocol",
        Verb::Prot => "Prot param",
        Verb::Size => "Size file",
        Verb::Rest => "Rest offset",
        Verb::Mdtm => "Mdtm file",
        Verb::Md5 => "Md5 file",
        Verb::Site => "Site command",
        Verb::Other => "Other command_name",
        _ => "",
    }
}

/// A parameter by its variant's name.
fn write_choice<W: Write>(f: &mut Formatter<W>, choice: Choice) -> fmt::Result {
    match choice {
        Choice::Structure(structure) => Debug::fmt(&structure, f),
        Choice::Mode(mode) => Debug::fmt(&mode, f),
        Choice::Protection(level) => Debug::fmt(&level, f),
        Choice::Mechanism(mechanism) => Debug::fmt(&mechanism, f),
        Choice::Setting(Opt::Utf8 { on }) => write!(f, "Utf8 on={on}"),
        Choice::NoBuffer => f.write_str("0"),
    }
}

/// A value: one that isn't there is empty bytes of some verbs, and none of others.
fn write_value<W: Write>(f: &mut Formatter<W>, verb: Verb, value: Value<'_>) -> fmt::Result {
    match value {
        Value::None => f.write_str(match verb {
            Verb::User | Verb::Pass | Verb::Acct | Verb::Site | Verb::Other => "\"\"",
            _ => "None",
        }),
        Value::Raw(sent) | Value::Lossy(sent) => Display::fmt(&Quoted(sent.sent()), f),
        Value::Text(text) => Display::fmt(&Quoted(text.as_bytes()), f),
        Value::Chosen(choice) => write_choice(f, choice),
        Value::Number(number) => Display::fmt(&number, f),
    }
}

/// A command as its variant and its fields, texts between quotes.
#[derive(Clone, Copy)]
pub struct Shown<'a>(pub &'a Command);

impl Display for Shown<'_> {
    fn fmt<W: Write>(&self, f: &mut Formatter<W>) -> fmt::Result {
        let Parts { verb, name, value } = self.0.parts();
        let heading = heading(verb);
        // options are never read, and would show so
        let has_options = matches!(
            self.0,
            Command::List {
                options: Some(_),
                ..
            }
        );
        if heading.is_empty() || has_options {
            return Debug::fmt(self.0, f);
        }
        write!(f, "{heading}=")?;
        if let Verb::Site | Verb::Other = verb {
            write!(f, "{} arguments=", Quoted(name.as_bytes()))?;
        }
        write_value(f, verb, value)
    }
}
