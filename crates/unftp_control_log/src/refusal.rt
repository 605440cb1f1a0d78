//! What a log shows of a refused line.
ghost use Rattle.std.specs.Prelude.{◌≡◌, option_map};
ghost use Rattle.unftp_control_defs.specs.Verbs.{upper};
ghost use Rattle.unftp_control_log.specs.LogLine.{RefusedLine, listed_verb, reason};
ghost use Rattle.unftp_control_log.specs.Meaning.{visible_meant};
ghost use Rattle.unftp_control_message.specs.ErrorMeaning.{fault_of};

use crate::visible::Visible;
use crate::words::is_listed;
use unftp_control_codecs::line_parser::split;
use unftp_control_message::reply::error::{ControlChanError, Source};

/// The verb of the line, in its own case, where it is listed.
fn listed_verb(line: &[u8]) -> Option<&[u8]>
    ensures { option_map (λ verb. upper verb.now) result ≡ listed_verb line.now }
{
    let (verb, _) = split(line);
    if is_listed(verb) { Some(verb) } else { None }
}

/// Why the line was refused: the parser's words, or else those for the kind, without the command
/// that it may hold.
pub(crate) fn reason(error: &ControlChanError) -> &'static str
    ensures { result.now ≡ reason (fault_of error.now).source (fault_of error.now).kind }
{
    match error.source() {
        Source::Parse(error) => error.kind().reason(),
        Source::None | Source::Utf8(_) | Source::Io(_) => error.kind().reason(),
    }
}

/// What a log shows of a line that was refused for this reason. No memory is taken.
pub(crate) fn visible_refusal<'a>(why: &'static str, line: &'a [u8]) -> Visible<'a>
    ensures { visible_meant result ≡ RefusedLine (listed_verb line.now) why.now }
{
    Visible::Refused {
        verb: listed_verb(line),
        reason: why,
    }
}
