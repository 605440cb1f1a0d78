//! The value that a verb takes, from the value of its parameter.
ghost use Rattle.std.specs.Prelude.{◌≡◌, ◌≤◌, length, drop};
ghost use Rattle.std.specs.Str.Lossy.{utf8_lossy};
ghost use Rattle.unftp_control_defs.specs.Paths.{path_of};
ghost use Rattle.unftp_control_defs.specs.FtpCommand.{Text, maybe_raw, maybe_text, unless_empty};
ghost use Rattle.unftp_control_defs.specs.Rules.{optional_text};
ghost use Rattle.unftp_control_message.specs.PartsMeaning.{IsBorrowed, said_value};
ghost use Rattle.unftp_control_message.specs.SentValues.{sent_value};

use unftp_control_message::parts::Value;
use unftp_control_message::sent::Sent;
use unftp_control_message::utf8;

/// The value as text; in the line where it is there as it is.
#[inline(always)]
#[tactic(auto, using(crate::proofs::TextLemmas::texts))]
pub fn text(sent: Sent<'_>) -> Value<'_>
    // The text of the value, each ill-formed part of UTF-8 replaced by U+FFFD.
    ensures value { said_value result ≡ Text (utf8_lossy (sent_value sent.entry)) }
    // A text is borrowed as it was sent, unless it was sent with CR NUL or is ill-formed UTF-8.
    ensures borrowed { IsBorrowed result }
{
    let Sent::Plain(bytes) = sent else {
        return Value::Lossy(sent);
    };
    match utf8::text(bytes) {
        Some(text) => Value::Text(text),
        None => Value::Lossy(sent),
    }
}

/// The value as bytes, or none where it is empty.
#[inline(always)]
pub fn raw(sent: Sent<'_>) -> Value<'_>
    // The bytes of the value, or `Value::None` where it is empty.
    ensures value { said_value result ≡ maybe_raw (unless_empty (sent_value sent.entry)) }
    // A text is borrowed as it was sent, unless it was sent with CR NUL or is ill-formed UTF-8.
    ensures borrowed { IsBorrowed result }
{
    if sent.is_empty() {
        return Value::None;
    }
    Value::Raw(sent)
}

/// The value as text, or none where it is empty.
#[inline(always)]
pub fn optional_text(sent: Sent<'_>) -> Value<'_>
    // The text of the value, or `Value::None` where it is empty.
    ensures value { said_value result ≡ optional_text (sent_value sent.entry) }
    // A text is borrowed as it was sent, unless it was sent with CR NUL or is ill-formed UTF-8.
    ensures borrowed { IsBorrowed result }
{
    if sent.is_empty() {
        return Value::None;
    }
    text(sent)
}

/// Where the path of LIST begins in its value.
fn path_start(value: &[u8]) -> usize
    ensures place { result ≤ length value.now }
    ensures path { drop result value.now ≡ path_of value.now }
{
    let mut at = 0usize;
    let mut in_word = false;
    while at < value.len() {
        if in_word {
            in_word = value[at] != b' ';
        } else {
            if value[at] != b'-' {
                return at;
            }
            let (_, rest) = value.split_at(at + 1);
            if rest == b"-".as_slice() {
                return value.len();
            }
            if rest.starts_with(b"- ".as_slice()) {
                return at + 3;
            }
            in_word = true;
        }
        at += 1;
    }
    at
}

/// The path of LIST, or none where nothing is after its options.
#[tactic(auto, using(crate::proofs::TextLemmas::texts))]
pub fn listing(sent: Sent<'_>) -> Value<'_>
    // The path of LIST in the text of the value, or `Value::None` where it is empty.
    ensures value { said_value result
        ≡ maybe_text (unless_empty (path_of (utf8_lossy (sent_value sent.entry)))) }
    // A text is borrowed as it was sent, unless it was sent with CR NUL or is ill-formed UTF-8.
    ensures borrowed { IsBorrowed result }
{
    optional_text(path_in(sent))
}

/// The path of LIST in its value.
// it is found in what is sent: a CR and its NUL are both in an option, or both in the path
pub fn path_in<'a>(sent: Sent<'a>) -> Sent<'a>
    // Exactly the path of LIST in the value.
    ensures { sent_value result ≡ path_of (sent_value sent.entry) }
{
    let (_, path) = sent.sent().split_at(path_start(sent.sent()));
    match sent {
        Sent::Plain(_) => Sent::Plain(path),
        Sent::Escaped(_) => Sent::Escaped(path),
    }
}
