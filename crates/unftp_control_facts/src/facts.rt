//! The facts of a file (RFC 3659, section 7.5).
ghost use Rattle.std.specs.Prelude.{◌≡◌, ◌+◌, ◌∷◌, [], ◌<◌, ◌++◌, Option, IfOk, IfErr, OnOk, string_bytes, option_map};
ghost use Rattle.unftp_control_defs.specs.Bytes.{Bytes};
ghost use Rattle.unftp_control_defs.specs.Events.{out_of_memory};
ghost use Rattle.unftp_control_message.specs.ErrorMeaning.{fault_of};
ghost use Rattle.unftp_control_facts.specs.Facts.{FileFacts, HasFacts, IsFacts, IsModified, IsTimeText, id_fact, modify_fact, two_digits, type_fact};

use jiff::Timestamp;
use jiff::tz::Offset;
use std::alloc::{AllocError, Global};
use unftp_control_message::reply::error::ControlChanError;

/// What a server knows of a file. Each answer is a function of the value.
pub trait Metadata {
    ghost facts_of: { Self → FileFacts };

    /// Its length in bytes.
    fn len(&self) -> u64
        // It is the size in the facts of the value.
        ensures { result ≡ (facts_of self.now).size };

    /// Whether it is a directory.
    fn is_dir(&self) -> bool
        // It is true exactly where the facts of the value say directory.
        ensures { result ≡ (facts_of self.now).is_dir };

    /// When it was last modified, where that is known.
    fn modified(&self) -> Option<Timestamp>
        // It is the time in the facts of the value, or `None`.
        ensures { result ≡ (facts_of self.now).modified };

    /// The user that it belongs to; 0 is left out.
    fn uid(&self) -> u32
        // It is the user in the facts of the value.
        ensures { result ≡ (facts_of self.now).uid };

    /// The group that it belongs to; 0 is left out.
    fn gid(&self) -> u32
        // It is the group in the facts of the value.
        ensures { result ≡ (facts_of self.now).gid };
}

/// Appends a digit.
fn push_digit(text: &mut String, digit: u8) -> Result<(), AllocError>
    requires { digit < 10 }
    ensures { OnOk result (string_bytes text.new ≡ string_bytes text.old ++ (48 + digit) ∷ []) }
{
    text.push(char::from(b'0' + digit))?;
    Ok(())
}

/// Appends a number in two digits.
fn push_two_digits(text: &mut String, n: u8) -> Result<(), AllocError>
    requires { n < 100 }
    ensures { OnOk result (string_bytes text.new ≡ string_bytes text.old ++ two_digits n) }
{
    push_digit(text, n / 10)?;
    push_digit(text, n % 10)
}

/// The second of UTC that holds the instant, as YYYYMMDDHHMMSS (RFC 3659, section 2.3), or `None`
/// where its year is before 0. This is the text of the modify fact and of the reply to MDTM.
pub fn modify_text(alloc: Global, instant: Timestamp) -> Result<Option<String>, AllocError>
    // At `Ok` the text is the civil second of UTC that holds the instant, or `None` where its year
    // is before 0.
    ensures { IfOk result (λ text. IsTimeText instant.nanosecond (option_map string_bytes text)) }
{
    let utc = Offset::UTC.to_datetime(instant);
    let date = utc.date();
    let time = utc.time();
    let year = date.year();
    if year < 0 {
        return Ok(None);
    }
    let mut text = String::new(alloc);
    let year = year.unsigned_abs();
    push_two_digits(&mut text, (year / 100) as u8)?;
    push_two_digits(&mut text, (year % 100) as u8)?;
    push_two_digits(&mut text, date.month().unsigned_abs())?;
    push_two_digits(&mut text, date.day().unsigned_abs())?;
    push_two_digits(&mut text, time.hour().unsigned_abs())?;
    push_two_digits(&mut text, time.minute().unsigned_abs())?;
    push_two_digits(&mut text, time.second().unsigned_abs())?;
    Ok(Some(text))
}

/// The second of UTC of an instant that may not be known, where its year is not before 0.
fn modified_text(alloc: Global, modified: Option<Timestamp>) -> Result<Option<String>, AllocError>
    ensures { IfOk result (λ text. IsModified modified (option_map string_bytes text)) }
{
    match modified {
        Some(instant) => modify_text(alloc, instant),
        None => Ok(None),
    }
}

/// Appends the fact of a time.
fn push_modify(text: &mut String, time: &Option<String>) -> Result<(), AllocError>
    ensures { OnOk result (string_bytes text.new
        ≡ string_bytes text.old ++ modify_fact (option_map string_bytes time.now)) }
{
    if let Some(time) = time {
        write!(text, "modify={time};")?;
    }
    Ok(())
}

/// Appends the fact of an identity above 0.
fn push_id(text: &mut String, name: &str, id: u32) -> Result<(), AllocError>
    ensures { OnOk result (string_bytes text.new ≡ string_bytes text.old ++ id_fact name.now id) }
{
    if id > 0 {
        write!(text, "{name}{id};")?;
    }
    Ok(())
}

/// The fact of a type.
fn type_text(is_dir: bool) -> &'static str
    ensures { result.now ≡ type_fact is_dir }
{
    if is_dir { "type=dir;" } else { "type=file;" }
}

/// The facts of a file in one text: type and size, when it was modified, and user and group where
/// they are above 0. The time is a second of UTC, where it is known and its year is from 0 to 9999.
/// It fails only when out of memory, with the kind `OutOfMemory`.
pub fn format_facts<M: Metadata>(alloc: Global, metadata: &M) -> Result<String, ControlChanError>
    // At `Ok` the text is that of the facts of the file, as the definition writes them.
    ensures ok { IfOk result (λ facts. IsFacts (M.facts_of metadata.now) (string_bytes facts)) }
    // The only error is out of memory.
    ensures err { IfErr result (λ error. fault_of error ≡ out_of_memory) }
{
    Ok(facts_with(alloc, type_text(metadata.is_dir()), metadata)?)
}

/// The facts of a file in one text, of which the first, that of the type, is given.
pub(crate) fn facts_with<M: Metadata>(
    alloc: Global,
    first: &str,
    metadata: &M,
) -> Result<String, AllocError>
    ensures { IfOk result (λ facts.
        HasFacts first.now (M.facts_of metadata.now) (string_bytes facts)) }
{
    let time = modified_text(alloc, metadata.modified())?;
    let size = metadata.len();
    let mut text = format!(in alloc; "{first}size={size};")?;
    push_modify(&mut text, &time)?;
    push_id(&mut text, "unix.uid=", metadata.uid())?;
    push_id(&mut text, "unix.gid=", metadata.gid())?;
    Ok(text)
}

/// A file has one text of facts.
pub fn one_text_of_facts()
    // Two texts of the facts of one file are equal.
    ensures { (file : FileFacts) (facts other : Bytes) → IsFacts file facts → IsFacts file other
        → facts ≡ other }
{}
