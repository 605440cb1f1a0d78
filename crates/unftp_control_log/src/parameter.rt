//! What a log shows of a line's parameter.
ghost use Rattle.std.specs.Prelude.{◌≡◌, option_map};
ghost use Rattle.unftp_control_codecs.specs.WordsMeaning.{BeginsWithWords};
ghost use Rattle.unftp_control_defs.specs.Bytes.{Bytes};
ghost use Rattle.unftp_control_defs.specs.ComputedValue.{value_of};
ghost use Rattle.unftp_control_log.specs.LogLine.{hides_after, shown_value, shows_after};
ghost use Rattle.unftp_control_message.specs.SentValues.{sent_value};

use crate::words::shows_arguments;
use unftp_control_codecs::line_parser::Words;
use unftp_control_message::parts::Verb;
use unftp_control_message::sent::Sent;

/// Whether a log shows the parameter of these words.
fn shows_parameter(words: Words<'_>) -> bool
    ensures { result ≡ shows_after words.entry.verb words.entry.name.now }
{
    match words.verb() {
        Verb::Pass | Verb::Acct | Verb::Syst | Verb::Help | Verb::Other => false,
        Verb::Site => shows_arguments(words.name()).unwrap_or(false),
        _ => true,
    }
}

/// The value of the parameter of these words, which is sent so, where it is shown and not empty.
/// No memory is taken.
pub(crate) fn shown_value<'a>(words: Words<'_>, sent: Option<Sent<'a>>) -> Option<Sent<'a>>
    ensures { (line : Bytes) → BeginsWithWords line words.entry
        → option_map sent_value sent.entry ≡ value_of words.entry.parameter.now
        → option_map sent_value result ≡ shown_value line }
{
    if !shows_parameter(words) {
        return None;
    }
    let value = sent?;
    if value.is_empty() {
        return None;
    }
    Some(value)
}

/// Whether a log does not show all of the command of these words, whose value is sent so.
pub(crate) fn hides_part(words: Words<'_>, sent: Option<Sent<'_>>) -> bool
    ensures { result ≡ hides_after words.entry.verb words.entry.name.now
        (option_map sent_value sent.entry) }
{
    match (words.verb(), sent) {
        (Verb::Syst | Verb::Help, Some(text)) => !text.is_empty(),
        (_, Some(_)) => !shows_parameter(words),
        (_, None) => true,
    }
}
