//! The lines of commands, and which commands have none.
ghost use Rattle.std.specs.Prelude.{◌≡◌, ◌≢◌, ◌↔◌, None, IsTrue, codes, option_map, string_bytes};
ghost use Rattle.unftp_control_message.specs.CommandMeaning.{command_of};
ghost use Rattle.unftp_control_defs.specs.Canonical.{HasLine, IsNonEmptyText, IsOptionalText, IsUpperCaseName, canonical_body, site_body, with_optional};
ghost use Rattle.unftp_control_defs.specs.FtpCommand.{List as Listing, verbs};
ghost use Rattle.unftp_control_defs.specs.Said.{HasTypedFields};
ghost use Rattle.unftp_control_defs.specs.Rules.{row_of};
ghost use Rattle.unftp_control_write.specs.Lines.{ReturnsLine, is_name_byte, line_body};

use crate::line::Line;
use itoa::Buffer;
use unftp_control_codecs::line_parser::is_verb;
use unftp_control_message::Command;

/// The line of the command, or none where no line gives the command; `digits` has room for those of
/// a number.
pub(crate) fn line_of<'a>(command: &'a Command, digits: &'a mut Buffer) -> Option<Line<'a>>
    ensures line { ReturnsLine (HasLine (command_of command.now))
        (canonical_body (command_of command.now)) result }
    ensures typed { HasTypedFields (command_of command.now) }
{
    let (name, value) = command.name_and_value(digits);
    match command {
        Command::TypeCode => line(name.as_bytes(), None, Some(b"I")),
        Command::Allo {} => line(name.as_bytes(), None, Some(b"0")),
        Command::List { options, path } => list_line(options, path),
        Command::Md5 { .. } => line(b"SITE", Some(name.as_bytes()), value),
        Command::Site { .. } => site_line(name, value),
        Command::Other { .. } => other_line(name, value),
        _ => line(name.as_bytes(), None, value),
    }
}

/// The line with this verb, a word and a value, where it has them; none where the value is empty or
/// has a line feed.
fn line<'a>(verb: &'a [u8], word: Option<&'a [u8]>, value: Option<&'a [u8]>) -> Option<Line<'a>>
    ensures { ReturnsLine (IsOptionalText (option_map (λ value. value.now) value.entry))
        (line_body verb.now (option_map (λ word. word.now) word.entry)
        (option_map (λ value. value.now) value.entry)) result }
{
    match value {
        Some(value) if !is_non_empty_text(value) => None,
        _ => Some(Line { verb, word, value }),
    }
}

/// LIST with its path, which is marked where it begins with a dash.
fn list_line<'a>(options: &'a Option<String>, path: &'a Option<String>) -> Option<Line<'a>>
    ensures { ReturnsLine
        (HasLine (Listing (option_map string_bytes options.now) (option_map string_bytes path.now)))
        (canonical_body (Listing (option_map string_bytes options.now)
        (option_map string_bytes path.now))) result }
{
    if options.is_some() {
        return None;
    }
    let Some(path) = path else {
        return line(b"LIST", None, None);
    };
    let mark = if path.as_str().starts_with('-') {
        Some(b"--".as_slice())
    } else {
        None
    };
    line(b"LIST", mark, Some(path.as_bytes()))
}

/// SITE with a name and its arguments; only SITE where there is neither.
fn site_line<'a>(name: &'a str, arguments: Option<&'a [u8]>) -> Option<Line<'a>>
    ensures { ReturnsLine
        (IsUpperCaseName name.now × (name.now ≢ codes "MD5")
        × IsOptionalText (option_map (λ value. value.now) arguments.entry))
        (site_body name.now (option_map (λ value. value.now) arguments.entry)) result }
{
    if !is_upper_case_name(name) || name == "MD5" {
        return None;
    }
    if name.is_empty() && arguments.is_none() {
        return line(b"SITE", None, None);
    }
    line(b"SITE", Some(name.as_bytes()), arguments)
}

/// A verb with no rule of its own, and its arguments.
fn other_line<'a>(name: &'a str, arguments: Option<&'a [u8]>) -> Option<Line<'a>>
    ensures { ReturnsLine
        (IsUpperCaseName name.now × (row_of name.now verbs ≡ None)
        × IsOptionalText (option_map (λ value. value.now) arguments.entry))
        (with_optional name.now (option_map (λ value. value.now) arguments.entry)) result }
{
    if !is_upper_case_name(name) || is_verb(name.as_bytes()) {
        return None;
    }
    line(name.as_bytes(), None, arguments)
}

/// Whether the text is not empty and has no line feed.
fn is_non_empty_text(text: &[u8]) -> bool
    ensures { IsTrue result ↔ IsNonEmptyText text.now }
{
    !text.is_empty() && !text.contains(&b'\n')
}

/// Whether the name is upper-cased: without separators and letters `a` to `z`.
fn is_upper_case_name(name: &str) -> bool
    ensures { IsTrue result ↔ IsUpperCaseName name.now }
{
    name.as_bytes().iter().all(|byte| is_name_byte(*byte))
}

/// Whether the byte is one of such a name.
fn is_name_byte(byte: u8) -> bool
    ensures { result ≡ is_name_byte byte }
{
    !matches!(byte, b' ' | b'\r' | b'\n' | b'a'..=b'z')
}
