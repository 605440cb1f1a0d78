//! What a log shows of a command.
ghost use Rattle.std.specs.Prelude.{◌≡◌, Some, option_map};
ghost use Rattle.unftp_control_defs.specs.Verbs.{upper};
ghost use Rattle.unftp_control_message.specs.PartsMeaning.{said_value, spelled};
ghost use Rattle.unftp_control_message.specs.SentValues.{sent_value};
ghost use Rattle.unftp_control_log.specs.LogLine.{Verb as ShownVerb, asterisks, is_listed, shows_arguments, visible_other, visible_said, visible_site, visible_value, visible_verb};
ghost use Rattle.unftp_control_log.specs.Meaning.{visible_meant};

use crate::visible::Visible;
use crate::words::{is_listed, shows_arguments};
use itoa::Buffer;
use unftp_control_message::parts::{Parts, Value, Verb};
use unftp_control_message::sent::Sent;

/// What a log shows in place of what it hides.
const ASTERISKS: &[u8] = b"***";

/// What a log shows of a command that says this, and of the value that is shown of its line;
/// `digits` has room for those of a number. No memory is taken.
pub(crate) fn visible_parts<'a>(
    parts: &Parts<'a>,
    sent: Option<Sent<'a>>,
    digits: &'a mut Buffer,
) -> Visible<'a>
    ensures { visible_meant result
        ≡ visible_said (spelled parts.now) (option_map sent_value sent.entry) }
{
    let value = visible_value(parts.value, sent, digits);
    visible_verb(parts.verb, parts.name.as_bytes(), value)
}

/// What a log shows of a verb with this name and value.
pub(crate) fn visible_verb<'a>(verb: Verb, name: &'a [u8], value: Option<Sent<'a>>) -> Visible<'a>
    ensures { visible_meant result ≡ visible_verb verb name.now (option_map sent_value value.entry) }
{
    let word = verb.word().as_bytes();
    match verb {
        Verb::Pass | Verb::Acct => hidden_value(word),
        Verb::Other => visible_other(name),
        Verb::Site => visible_site(name, value),
        Verb::Md5 => Visible::Subcommand {
            name: word,
            arguments: value,
        },
        _ => Visible::Verb { verb: word, value },
    }
}

/// The value that is shown: a word or a number in its canonical form, and any other as it was sent.
fn visible_value<'a>(
    value: Value<'a>,
    sent: Option<Sent<'a>>,
    digits: &'a mut Buffer,
) -> Option<Sent<'a>>
    ensures { option_map sent_value result
        ≡ visible_value (said_value value.entry) (option_map sent_value sent.entry) }
{
    if let Value::Number(number) = value {
        return Some(Sent::Plain(digits.format(number).as_bytes()));
    }
    match value {
        Value::Chosen(choice) => Some(Sent::Plain(choice.word())),
        _ => sent,
    }
}

/// A verb whose value is hidden.
fn hidden_value(verb: &[u8]) -> Visible<'_>
    ensures { visible_meant result ≡ ShownVerb (upper verb.now) (Some asterisks) }
{
    Visible::Verb {
        verb,
        value: Some(Sent::Plain(ASTERISKS)),
    }
}

/// A verb with no rule of its own: nothing is shown of one that is not listed.
fn visible_other(verb: &[u8]) -> Visible<'_>
    ensures { visible_meant result ≡ visible_other (is_listed verb.now) (upper verb.now) }
{
    if is_listed(verb) {
        hidden_value(verb)
    } else {
        Visible::Verb {
            verb: ASTERISKS,
            value: None,
        }
    }
}

/// A subcommand of SITE, and its arguments where they are shown.
fn visible_site<'a>(name: &'a [u8], arguments: Option<Sent<'a>>) -> Visible<'a>
    ensures { visible_meant result ≡ visible_site (shows_arguments name.now) (upper name.now)
        (option_map sent_value arguments.entry) }
{
    match shows_arguments(name) {
        Some(true) => Visible::Subcommand { name, arguments },
        Some(false) => Visible::Subcommand {
            name,
            arguments: Some(Sent::Plain(ASTERISKS)),
        },
        None => Visible::Subcommand {
            name: ASTERISKS,
            arguments: None,
        },
    }
}
