//! A line's verb and parameter, what it says, and the command that it is.
ghost use Rattle.std.specs.Prelude.{◌≡◌, ◌≢◌, ◌≤◌, ◌<◌, ℕ, [], IsTrue, false, length, option_map, slice_index, IfErr, IfOk, IfSome, MatchOption, true};
ghost use Rattle.std.specs.List.{position_or_len};
ghost use Rattle.std.specs.Str.{is_utf8};
ghost use Rattle.unftp_control_message.specs.CommandMeaning.{command_of};
ghost use Rattle.unftp_control_message.specs.SentValues.{sent_value};
ghost use Rattle.unftp_control_defs.specs.Bytes.{Bytes};
ghost use Rattle.unftp_control_defs.specs.Canonical.{HasLine};
ghost use Rattle.unftp_control_defs.specs.Lines.{IsLine};
ghost use Rattle.unftp_control_defs.specs.Paths.{path_of};
ghost use Rattle.unftp_control_defs.specs.FtpCommand.{Nothing, Outcome};
ghost use Rattle.unftp_control_defs.specs.Said.{IsSaid, KindSaysBack};
ghost use Rattle.unftp_control_defs.specs.Verbs.{is_separator, parameter_of, upper, verb_of};
ghost use Rattle.unftp_control_defs.specs.Outcome.{value_outcome, outcome, parameter_outcome, site_outcome};
ghost use Rattle.unftp_control_defs.specs.Rules.{subcommand_outcome, taken};
ghost use Rattle.unftp_control_defs.specs.ComputedValue.{value_of};
ghost use Rattle.unftp_control_defs.specs.declared.verb.Kind.TheVariants as kinds;
ghost use Rattle.unftp_control_codecs.specs.Memory.{MayTakeMemory, OnOutOfMemory, ParsesTo, PartsTo, ReadsTo};
ghost use Rattle.unftp_control_codecs.specs.ParseAnswer.{Returns};
ghost use Rattle.unftp_control_codecs.specs.WordsMeaning.{AreWords, BeginsWithWords, EndsAfterByte, IsLone, IsSubcommand, IsUsual, Sends, refuses};

use crate::line_parser::fields::{listing, optional_text, path_in, raw, text};
use crate::line_parser::typed::typed;
use crate::line_parser::value::{parameter_value, some_usual_value};
use crate::line_parser::verb::is_same_word;
use memchr::memchr3;
use std::alloc::Global;
use std::result;
use std::simd::prelude::*;
use std::str::from_utf8;
use unftp_control_defs::verb::verb_named;
use unftp_control_message::parts::{Kind, Parts, Value, Verb};
use unftp_control_message::reply::error::{ParseErrorKind, Result};
use unftp_control_message::sent::Sent;
use unftp_control_message::{Command, utf8};

/// How many bytes the longest verb with a rule of its own has. `memchr3` takes longer over so few.
const LONGEST_VERB: usize = 4;

const LF: u8 = b'\n';

/// How many bytes come before the first that ends a word.
#[inline(never)]
fn word_len(bytes: &[u8]) -> usize
    ensures place { result ≡ position_or_len is_separator bytes.now }
    ensures within { result ≤ length bytes.now }
{
    match memchr3(b' ', b'\r', b'\n', bytes) {
        Some(end) => end,
        None => bytes.len(),
    }
}

/// Whether the first four bytes are greater than a space, so that none of them ends a verb.
#[inline(always)]
fn four_go_on(line: &[u8]) -> bool
    requires { 4 ≤ length line.now }
    ensures { IsTrue result
        → (k : ℕ) → k < 4 → is_separator (slice_index line.now k) ≡ false }
{
    let four = u8x4::from_slice(line);
    four.simd_le(u8x4::splat(b' ')).to_bitmask() == 0
}

/// Whether the verb has three bytes, each greater than a space.
#[inline(always)]
fn has_three_letters(line: &[u8]) -> bool
    requires { 4 ≤ length line.now }
    ensures { IsTrue result → position_or_len is_separator line.now ≡ 3 }
{
    matches!(line[3], b' ' | b'\r' | b'\n') && line[0] > b' ' && line[1] > b' ' && line[2] > b' '
}

/// The length of the verb.
#[inline(always)]
fn verb_len(line: &[u8]) -> usize
    ensures place { result ≡ position_or_len is_separator line.now }
    ensures within { result ≤ length line.now }
{
    if line.len() <= 4 {
        return any_verb_len(line);
    }
    if !four_go_on(line) {
        return if has_three_letters(line) {
            3
        } else {
            any_verb_len(line)
        };
    }
    // most verbs have four letters
    if matches!(line[4], b' ' | b'\r' | b'\n') {
        return 4;
    }
    let (_, rest) = line.split_at(4);
    4 + word_len(rest)
}

/// The length of a verb of any length.
#[inline(never)]
fn any_verb_len(line: &[u8]) -> usize
    ensures place { result ≡ position_or_len is_separator line.now }
    ensures within { result ≤ length line.now }
{
    let front = line.len().min(LONGEST_VERB + 1);
    for at in 0..front {
        if matches!(line[at], b' ' | b'\r' | b'\n') {
            return at;
        }
    }
    let (_, rest) = line.split_at(front);
    front + word_len(rest)
}

/// The verb, and the parameter bytes after the one byte that ends it.
#[inline(always)]
pub fn split<'a>(line: &'a [u8]) -> (&'a [u8], &'a [u8])
    // The bytes before the first space, CR or LF.
    ensures verb { result.0.now ≡ verb_of line.now }
    // The bytes after that space, CR or LF.
    ensures parameter { result.1.now ≡ parameter_of line.now }
{
    let end = verb_len(line);
    let (verb, rest) = line.split_at(end);
    if rest.is_empty() {
        return (verb, rest);
    }
    let (_, parameter) = line.split_at(end + 1);
    (verb, parameter)
}

/// The command that a line is (RFC 959, section 5.3). The line may have any bytes, with its line
/// feed or without one; each text of the command is new memory, and nothing else is kept of the
/// line.
///
/// It is refused with `InvalidUtf8` where the verb, or the SITE subcommand, is not UTF-8; else with
/// `InvalidEol` where the parameter has no end or a bare carriage return after its first byte (RFC
/// 854); else with `InvalidCommand` where the verb doesn't take the value, or with `InvalidUtf8`
/// where AUTH's, of at most three bytes, is not UTF-8. A verb that ignores its parameter takes any.
/// Out of memory for the texts of its command, a line is refused with `OutOfMemory`; no other
/// refusal takes memory.
pub fn parse(alloc: Global, line: &[u8]) -> Result<Command>
    // For every byte string it is the command or the refusal that the grammar gives, or out of
    // memory.
    ensures answer { Returns (outcome line.now) result }
    // It is out of memory only where the line's command holds bytes, or is a password.
    ensures memory { OnOutOfMemory result (MayTakeMemory line.now) }
    // Where the line has one line feed, its last byte, `write_command` has a line for the command.
    ensures has_line { IsLine line.now → IfOk result (λ command. HasLine (command_of command)) }
{
    Ok(command_in(alloc, line)?)
}

/// The command of the line, or the kind of its refusal.
#[tactic(auto, using(crate::proofs::ParsingMemoryLemmas::commands))]
fn command_in(alloc: Global, line: &[u8]) -> result::Result<Command, ParseErrorKind>
    ensures { ParsesTo (outcome line.now) result }
{
    let parts = parts(line)?;
    Command::from_parts(alloc, &parts)
}

/// What a line says, as `parse` reads it (RFC 959, section 5.3): its verb, its name and its value,
/// all of them in the line. It takes no memory, and is refused as by `parse`.
// it is inlined, and what it calls: to move its result takes as long as to find it
#[inline(always)]
pub fn parts(line: &[u8]) -> result::Result<Parts<'_>, ParseErrorKind>
    // The verb, the name in any case and the value of the line's command, a text borrowed where it
    // can be, or the line's refusal. It is never out of memory.
    ensures { PartsTo (outcome line.now) result }
{
    Words::of(line).parts()
}

/// The value of a line's parameter (RFC 959, section 5.3): the bytes that were sent, a CR NUL as
/// one CR (RFC 854), without the line's end. It is `None` exactly where the parameter has an
/// invalid line ending. The verb is not read, and no memory is taken.
///
/// The parameter of SITE is a subcommand and a parameter of that. For the value of the latter call
/// it with the bytes of the line after SITE and the one byte that follows it.
pub fn parameter(line: &[u8]) -> Option<Sent<'_>>
    // The value of the line's parameter, or `None` exactly where it has none by the grammar.
    ensures { option_map sent_value result ≡ value_of (parameter_of line.now) }
{
    let (_, parameter) = split(line);
    parameter_value(parameter)
}

/// The path of LIST or NLST: what comes in the value of the parameter after words that begin with a
/// dash, options as those of `ls`, and after `--`. It is `None` exactly where `parameter` is. No
/// memory is taken.
pub fn list_path(line: &[u8]) -> Option<Sent<'_>>
    // The path of LIST in the value of the line's parameter, or `None` exactly where there is no
    // value.
    ensures { option_map sent_value result ≡ option_map path_of (value_of (parameter_of line.now)) }
{
    Some(path_in(parameter(line)?))
}

/// What a line begins with, and the parameter after it, all of them in the line: what `parts` reads
/// first (RFC 959, section 5.3).
#[derive(Clone, Copy)]
pub struct Words<'a> {
    /// The verb; of SITE that of the subcommand.
    verb: Verb,
    /// What is made of the parameter.
    kind: Kind,
    /// The name of another subcommand of SITE, or of another verb; else empty.
    name: &'a [u8],
    /// The parameter bytes.
    parameter: &'a [u8],
}

impl<'a> Words<'a> {
    /// The words that a line begins with. It takes no memory.
    #[inline(always)]
    pub fn of(line: &'a [u8]) -> Words<'a>
        // They are the verb, the name and the parameter that the line begins with, of SITE those of
        // its subcommand.
        ensures begins { BeginsWithWords line.now result }
        // What the line means follows from these words.
        ensures means { AreWords (outcome line.now) result }
        // The line ends with the parameter, after another byte where the parameter is not empty.
        ensures in_line { EndsAfterByte line.now result.parameter.now }
    {
        let (word, parameter) = split(line);
        let Some(verb) = verb_named(word) else {
            return Words {
                verb: Verb::Other,
                kind: Kind::OptionalText,
                name: word,
                parameter,
            };
        };
        match verb.kind() {
            Kind::Subcommand => site(parameter),
            kind => Words {
                verb,
                kind,
                name: b"",
                parameter,
            },
        }
    }

    /// The verb; of SITE that of the subcommand.
    #[inline(always)]
    pub fn verb(self) -> Verb
        // Exactly its verb.
        ensures { result ≡ self.entry.verb }
    {
        self.verb
    }

    /// What the verb makes of its parameter.
    #[inline(always)]
    pub fn kind(self) -> Kind
        // Exactly its kind.
        ensures { result ≡ self.entry.kind }
    {
        self.kind
    }

    /// The name of another subcommand of SITE, or of another verb, in the case of the line; else it
    /// is empty. It may not be UTF-8: `sent` and `parts` refuse such a line.
    #[inline(always)]
    pub fn name(self) -> &'a [u8]
        // Exactly its name.
        ensures { result.now ≡ self.entry.name.now }
    {
        self.name
    }

    /// The parameter bytes.
    #[inline(always)]
    pub fn parameter(self) -> &'a [u8]
        // Exactly its parameter.
        ensures { result.now ≡ self.entry.parameter.now }
    {
        self.parameter
    }

    /// The verb, where it is all that the line says: its parameter is ignored, or is what the CR LF
    /// of a line without one leaves. It is none for `NOOP` before only a line feed, though that
    /// says no more. It is for callers to whom a value's absence is worth a test.
    #[inline(always)]
    pub fn lone_verb(self) -> Option<Verb>
        // It is the verb exactly where this ignores its parameter, or takes none and the parameter
        // is one line feed.
        ensures lone { MatchOption result (¬ IsLone self.entry)
            (λ verb. IsLone self.entry × (verb ≡ self.entry.verb)) }
        // Where it is a verb, the line says this verb, without a name or a value.
        ensures says { IfSome result (λ verb. (answer : Outcome) → AreWords answer self.entry
            → IsSaid answer (record { verb = verb; name = []; value = Nothing })) }
    {
        match (self.kind, self.parameter) {
            (Kind::Ignored, _) | (Kind::Alone, [LF]) => Some(self.verb),
            _ => None,
        }
    }

    /// The value, where the verb takes a text or bytes and the line has a usual one: well-formed
    /// UTF-8 of a text, of bytes that are all greater than a CR, before the line's CR LF. It is for
    /// callers to whom the place of a value in its line is worth a test. It takes no memory.
    #[inline(always)]
    pub fn usual_value(self) -> Option<&'a [u8]>
        // Where it is a value, it is not empty, the parameter is this value and CR LF, and the line
        // says it.
        ensures { IfSome result (λ value. IsUsual self.entry value.now) }
    {
        match self.kind {
            Kind::Raw => {
                let value = some_usual_value(self.parameter)?;
                Some(value)
            }
            Kind::Text => {
                let value = some_usual_value(self.parameter)?;
                utf8::text(value)?;
                Some(value)
            }
            _ => None,
        }
    }

    /// The value that the verb takes, as it was sent, for callers that make nothing of it: no text
    /// is tested. It is none where the verb ignores a parameter with an invalid line ending. The
    /// line is refused as by `parts`, and no memory is taken.
    #[inline(always)]
    pub fn sent(self) -> result::Result<Option<Sent<'a>>, ParseErrorKind>
        // The verb takes no value of a type of its own.
        requires { self.kind ≢ kinds.Typed }
        // At `Ok` it is the value of the parameter, and the line is a command of this verb and
        // name. An error is the line's refusal, and never out of memory.
        ensures { (answer : Outcome) → AreWords answer self.entry
            → Sends answer self.entry result }
    {
        self.text_name()?;
        match parameter_value(self.parameter) {
            Some(sent) if refuses(self.kind, sent) => Err(ParseErrorKind::InvalidCommand),
            None if !matches!(self.kind, Kind::Ignored) => Err(ParseErrorKind::InvalidEol),
            sent => Ok(sent),
        }
    }

    /// What the line says: `parts` of the line. It is refused as that is, and takes no memory.
    #[inline(always)]
    pub fn parts(self) -> result::Result<Parts<'a>, ParseErrorKind>
        // The kind is not `Subcommand`, as it never is after `of`.
        requires { self.kind ≢ kinds.Subcommand }
        // It is what the line says, a text borrowed where it can be, or the line's refusal. It is
        // never out of memory.
        ensures parts { (answer : Outcome) → AreWords answer self.entry → PartsTo answer result }
        // At `Ok` the parts have this verb.
        ensures verb { IfOk result (λ parts. parts.verb ≡ self.entry.verb) }
    {
        Ok(Parts {
            verb: self.verb,
            name: self.text_name()?,
            value: value(self.kind, self.verb, self.parameter)?,
        })
    }

    /// The name as a text.
    #[inline(always)]
    #[tactic(auto, using(crate::proofs::OutcomeLemmas::outcomes))]
    fn text_name(self) -> result::Result<&'a str, ParseErrorKind>
        ensures ok { IfOk result (λ text. (text.now ≡ self.entry.name.now)
            × (is_utf8 self.entry.name.now ≡ true)) }
        ensures err { IfErr result (λ error. (error ≡ ParseErrorKind.InvalidUtf8)
            × (is_utf8 self.entry.name.now ≡ false)) }
    {
        if self.name.is_empty() {
            return Ok("");
        }
        Ok(from_utf8(self.name)?)
    }
}

/// The words of SITE: a subcommand, and the parameter of that (RFC 959, section 4.1.3).
#[inline(always)]
fn site(parameter: &[u8]) -> Words<'_>
    ensures begins { IsSubcommand parameter.now result }
    ensures means { AreWords (site_outcome parameter.now) result }
    ensures in_line { EndsAfterByte parameter.now result.parameter.now }
{
    let (name, parameter) = split(parameter);
    if is_same_word(name, b"MD5") {
        return Words {
            verb: Verb::Md5,
            kind: Kind::Text,
            name: b"",
            parameter,
        };
    }
    Words {
        verb: Verb::Site,
        kind: Kind::OptionalText,
        name,
        parameter,
    }
}

/// Whether a verb of this kind refuses the value: a verb without a parameter takes only an empty
/// one, and a text is not empty.
#[inline(always)]
fn refuses(kind: Kind, sent: Sent<'_>) -> bool
    ensures { result ≡ refuses kind (sent_value sent.entry) }
{
    match kind {
        Kind::Alone => !sent.is_empty(),
        Kind::Text => sent.is_empty(),
        _ => false,
    }
}

/// What a verb of this kind makes of parameter bytes. A line without a parameter is not read
/// further.
#[inline(always)]
#[tactic(auto, using(crate::proofs::TextLemmas::texts))]
fn value(kind: Kind, verb: Verb, parameter: &[u8]) -> result::Result<Value<'_>, ParseErrorKind>
    requires { kind ≢ kinds.Subcommand }
    ensures { (name : Bytes) → KindSaysBack kind verb name
        → ReadsTo (parameter_outcome kind verb name parameter.now) verb name result }
{
    if matches!(kind, Kind::Ignored) {
        return Ok(Value::None);
    }
    match parameter_value(parameter) {
        Some(sent) => taken(kind, verb, sent),
        None => Err(ParseErrorKind::InvalidEol),
    }
}

/// What a verb of this kind makes of a value.
#[inline(always)]
#[tactic(auto, using(crate::proofs::TextLemmas::texts))]
fn taken<'a>(kind: Kind, verb: Verb, sent: Sent<'a>) -> result::Result<Value<'a>, ParseErrorKind>
    ensures { (name : Bytes) → KindSaysBack kind verb name
        → ReadsTo (taken kind verb name (sent_value sent.entry)) verb name result }
{
    if refuses(kind, sent) {
        return Err(ParseErrorKind::InvalidCommand);
    }
    match kind {
        Kind::Alone => Ok(Value::None),
        Kind::Raw => Ok(raw(sent)),
        Kind::Text => Ok(text(sent)),
        Kind::OptionalText => Ok(optional_text(sent)),
        Kind::Listing => Ok(listing(sent)),
        Kind::Typed => typed(verb, sent),
        Kind::Ignored | Kind::Subcommand => Err(ParseErrorKind::InvalidCommand),
    }
}
