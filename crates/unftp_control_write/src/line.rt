//! The parts of a line.
ghost use Rattle.std.specs.Prelude.{◌≡◌, ◌≤◌, [], ◌∷◌, ◌++◌, ◌==◌, count_by, length, option_map, take, vec_capacity, vec_len, OnErr, OnOk};
ghost use Rattle.unftp_control_defs.specs.Bytes.{CR, crlf};
ghost use Rattle.unftp_control_defs.specs.Values.{escaped};
ghost use Rattle.unftp_control_write.specs.Lines.{body_of, spaced_part};
ghost use Rattle.unftp_control_defs.specs.Room.{LacksRoom};

use std::alloc::AllocError;

/// How many bytes end a line: CR LF.
const LINE_END: usize = 2;

/// A line without its CR LF: a verb, a word after a space, and a value after another.
#[derive(Drop)]
pub(crate) struct Line<'a> {
    /// The verb.
    pub(crate) verb: &'a [u8],
    /// A subcommand of SITE, the mark before a path of LIST, or a parameter as it is written, where
    /// there is one.
    pub(crate) word: Option<&'a [u8]>,
    /// The value, where there is one; each CR of it is written as CR NUL.
    pub(crate) value: Option<&'a [u8]>,
}

impl<'a> Line<'a> {
    /// Appends the line and its CR LF, or perhaps a part of them when out of memory. The buffer
    /// grows once at most, and only where it lacks room for them.
    pub(crate) fn append(&self, buf: &mut Vec<u8>) -> Result<(), AllocError>
        ensures ok { OnOk result (buf.new.items ≡ buf.old.items ++ (body_of self.now ++ crlf)) }
        ensures kept { take (vec_len buf.old) buf.new.items ≡ buf.old.items }
        ensures memory { OnErr result (LacksRoom buf.old (body_of self.now ++ crlf)) }
    {
        buf.reserve(self.room())?;
        buf.extend_from_slice(self.verb)?;
        self.append_word(buf)?;
        self.append_value(buf)?;
        buf.extend_from_slice(b"\r\n")
    }

    /// Appends a space and the word, if there is one.
    fn append_word(&self, buf: &mut Vec<u8>) -> Result<(), AllocError>
        ensures ok { OnOk result (buf.new.items
            ≡ buf.old.items ++ spaced_part (option_map (λ word. word.now) self.now.word)) }
        ensures kept { take (vec_len buf.old) buf.new.items ≡ buf.old.items }
        ensures memory { OnErr result
            (LacksRoom buf.old (spaced_part (option_map (λ word. word.now) self.now.word))) }
        ensures capacity { vec_capacity buf.old ≤ vec_capacity buf.new }
    {
        let Some(word) = self.word else {
            return Ok(());
        };
        buf.push(b' ')?;
        buf.extend_from_slice(word)
    }

    /// Appends a space and the value, if there is one.
    fn append_value(&self, buf: &mut Vec<u8>) -> Result<(), AllocError>
        ensures ok { OnOk result (buf.new.items ≡ buf.old.items
            ++ spaced_part (option_map escaped (option_map (λ value. value.now) self.now.value))) }
        ensures kept { take (vec_len buf.old) buf.new.items ≡ buf.old.items }
        ensures memory { OnErr result (LacksRoom buf.old
            (spaced_part (option_map escaped (option_map (λ value. value.now) self.now.value)))) }
        ensures capacity { vec_capacity buf.old ≤ vec_capacity buf.new }
    {
        let Some(value) = self.value else {
            return Ok(());
        };
        buf.push(b' ')?;
        append_escaped(value, buf)
    }

    /// How many bytes the line has with its CR LF, where so many can be counted.
    fn room(&self) -> usize
        ensures { result ≤ length (body_of self.now ++ crlf) }
    {
        LINE_END
            .saturating_add(self.verb.len())
            .saturating_add(self.word_room())
            .saturating_add(self.value_room())
    }

    /// How many bytes the word has with its space, if there is one.
    fn word_room(&self) -> usize
        ensures { result ≤ length (spaced_part (option_map (λ word. word.now) self.now.word)) }
    {
        match self.word {
            Some(word) => word.len().saturating_add(1),
            None => 0,
        }
    }

    /// How many bytes the value has with its space, if there is one.
    fn value_room(&self) -> usize
        ensures { result
            ≤ length (spaced_part (option_map escaped (option_map (λ value. value.now) self.now.value))) }
    {
        let Some(value) = self.value else {
            return 0;
        };
        escaped_len(value).saturating_add(1)
    }
}

/// How many bytes the text has with each CR as CR NUL, where so many can be counted.
fn escaped_len(text: &[u8]) -> usize
    ensures { result ≤ length (escaped text.now) }
{
    text.len().saturating_add(carriage_returns(text))
}

/// How many CRs the text has.
fn carriage_returns(text: &[u8]) -> usize
    ensures { result ≡ count_by (λ b. b == CR) text.now }
{
    text.iter().filter(|byte| **byte == b'\r').count()
}

/// Appends the text with each CR as CR NUL.
fn append_escaped(text: &[u8], buf: &mut Vec<u8>) -> Result<(), AllocError>
    ensures ok { OnOk result (buf.new.items ≡ buf.old.items ++ escaped text.now) }
    ensures kept { take (vec_len buf.old) buf.new.items ≡ buf.old.items }
    ensures memory { OnErr result (LacksRoom buf.old (escaped text.now)) }
    ensures capacity { vec_capacity buf.old ≤ vec_capacity buf.new }
{
    for byte in text {
        append_escaped_byte(*byte, buf)?;
    }
    Ok(())
}

/// Appends the byte, and a NUL after a CR.
fn append_escaped_byte(byte: u8, buf: &mut Vec<u8>) -> Result<(), AllocError>
    ensures ok { OnOk result (buf.new.items ≡ buf.old.items ++ escaped (byte ∷ [])) }
    ensures kept { take (vec_len buf.old) buf.new.items ≡ buf.old.items }
    ensures memory { OnErr result (LacksRoom buf.old (escaped (byte ∷ []))) }
    ensures capacity { vec_capacity buf.old ≤ vec_capacity buf.new }
{
    buf.push(byte)?;
    if byte == b'\r' {
        buf.push(b'\0')?;
    }
    Ok(())
}
