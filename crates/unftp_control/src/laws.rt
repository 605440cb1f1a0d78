//! Laws of the definitions, each the contract of a function that does nothing: what ties a value
//! that is computed to the relation that a reader believes.
ghost use Rattle.std.specs.Prelude.{◌≡◌, ◌↔◌, if◌then◌else◌, ◌<◌, ◌≤◌, ◌+◌, ◌^◌, ℕ, Option, true, false, List, [], ◌∷◌, ◌++◌, length, take, Some, None, Ok, codes};
ghost use Rattle.std.specs.Char.{IsScalar, encode_utf8};
ghost use Rattle.std.specs.List.{AllByRecursion, concat, sum_by};
ghost use Rattle.std.specs.Str.Lossy.{utf8_lossy};
ghost use Rattle.unftp_control_commands.specs.Answers.{port_reply};
ghost use Rattle.unftp_control_defs.specs.Bytes.{Bytes, LF, crlf, Lacks};
ghost use Rattle.unftp_control_defs.specs.Canonical.{canonical_line, HasLine};
ghost use Rattle.unftp_control_defs.specs.Forwarded.{before_end, forwarded_line, keeps_parameter};
ghost use Rattle.unftp_control_defs.specs.TakingSteps.{TakingStep, TakesEvent, AreTakingSteps, all_pushed, all_taken};
ghost use Rattle.unftp_control_defs.specs.Pieces.{events_in_turn, events_in_turn, replies_in_turn};
ghost use Rattle.unftp_control_defs.specs.Events.{FtpEvent, Refused, events, exceeds, line_too_long, event_for};
ghost use Rattle.unftp_control_defs.specs.FtpCommand.{FtpCommand, User};
ghost use Rattle.unftp_control_defs.specs.Said.{HasTypedFields};
ghost use Rattle.unftp_control_defs.specs.Run.{as_session, run_for, ends_for, text_for, unread, after_end, ends, last_state, replies, run_of};
ghost use Rattle.unftp_control_defs.specs.Lines.{IsLine, Lines, lines_of, incomplete_line};
ghost use Rattle.unftp_control_defs.specs.LossyText.{Character, LossyText, first_part};
ghost use Rattle.unftp_control_defs.specs.Outcome.{outcome};
ghost use Rattle.unftp_control_defs.specs.Paths.{ListPath, path_of};
ghost use Rattle.unftp_control_codecs.specs.Calls.{AreDecodeCalls, DecodeCall};
ghost use Rattle.unftp_control_codecs.specs.Codec.{Codec, new_codec};
ghost use Rattle.unftp_control_serve.specs.Decoder.{Pending, TakesLine, line_after};
ghost use Rattle.unftp_control_serve.specs.EventMeaning.{event_meant, refuses_length};
ghost use Rattle.unftp_control_serve.specs.declared.event.Event.{Event};
ghost use Rattle.unftp_control_defs.specs.Values.{Reads, HasNoValue, escaped};
ghost use Rattle.unftp_control_defs.specs.ComputedValue.{value_of};
ghost use Rattle.unftp_control_defs.specs.Verbs.{Cut, verb_of, parameter_of, upper};
ghost use Rattle.unftp_control.specs.RunEnd.{EndsAfter, EndsNowhere};

pub mod both_ends;
pub mod examples;
pub mod proxied;
pub mod replies;

pub use both_ends::{any_order, canonical_lines_change_nothing, conversation};
pub use proxied::conversation_through_a_proxy;
pub use replies::{
    any_cutting_of_replies, one_front, one_reading, replies_read_back, replies_stay,
    too_long_replies_stay,
};
pub use unftp_control_read::known_input_is_received;
pub use unftp_control_serve::known_input_is_served;
use unftp_control_serve::{Handler, Session};

/// An input has one list of lines and one incomplete line, `lines_of` and `incomplete_line` (RFC
/// 959, section 5.3).
pub fn one_list_of_lines()
    // The computed lines and the computed incomplete line are those of the input.
    ensures computed { (input : Bytes) → Lines input (lines_of input) (incomplete_line input) }
    // An input has no other lines, and no other incomplete line.
    ensures only { (input : Bytes) (lines : List Bytes) (incomplete : Bytes)
        → Lines input lines incomplete
        → (lines ≡ lines_of input) × (incomplete ≡ incomplete_line input) }
{}

/// A line has one verb and one parameter, `verb_of` and `parameter_of` (RFC 959, section 5.3).
pub fn one_verb()
    // The computed verb and the computed parameter are those of the line.
    ensures computed { (line : Bytes) → Cut line (verb_of line) (parameter_of line) }
    // A line has no other verb, and no other parameter.
    ensures only { (line verb parameter : Bytes) → Cut line verb parameter
        → (verb ≡ verb_of line) × (parameter ≡ parameter_of line) }
{}

/// A parameter has one value, which `value_of` computes, or an invalid line ending, where it gives
/// none (RFC 854).
pub fn one_value()
    // A parameter has this value exactly where `value_of` computes it.
    ensures value { (parameter v : Bytes) → Reads parameter v ↔ (value_of parameter ≡ Some v) }
    // A parameter has an invalid line ending exactly where `value_of` computes none.
    ensures bad_end { (parameter : Bytes) → HasNoValue parameter ↔ (value_of parameter ≡ None) }
{}

/// The text of LIST has one path, `path_of`.
pub fn one_path()
    // The text of LIST has this path exactly where `path_of` computes it.
    ensures { (text path : Bytes) → ListPath text path ↔ (path_of text ≡ path) }
{}

/// The text of bytes, with U+FFFD for each ill-formed part, is the one that
/// `String::from_utf8_lossy` gives, and no other. The encoding of a scalar value is one part,
/// whatever follows, and no other part is a character (Unicode, section 3.9).
pub fn one_lossy_text()
    // A text is the bytes with U+FFFD for each ill-formed part exactly where it is the text of
    // `String::from_utf8_lossy`.
    ensures text { (bytes text : Bytes) → LossyText bytes text ↔ (utf8_lossy bytes ≡ text) }
    // The encoding of a scalar value at the start of bytes is one part, a character, whatever
    // follows.
    ensures character { (c : ℕ) (more : Bytes) → IsScalar c
        → first_part (encode_utf8 c ++ more) ≡ Character (length (encode_utf8 c)) }
    // A part that is a character is the encoding of a scalar value.
    ensures no_other { (bytes : Bytes) (n : ℕ) → first_part bytes ≡ Character n
        → (c : ℕ) × IsScalar c × (take n bytes ≡ encode_utf8 c) }
{}

/// Lines that differ only in the case of the ASCII letters of their verb have one outcome, and so
/// have lines of SITE whose names differ so (RFC 959, section 5.3).
pub fn case_folds()
    // Lines that differ only in the ASCII case of their verb have one outcome.
    ensures verb { (line other verb other_verb parameter : Bytes)
        → Cut line verb parameter → Cut other other_verb parameter
        → upper verb ≡ upper other_verb
        → outcome line ≡ outcome other }
    // Lines of SITE that differ only in the ASCII case of their verb and their subcommand have one
    // outcome.
    ensures name { (line other verb other_verb parameter other_parameter : Bytes)
        (name other_name arguments : Bytes)
        → Cut line verb parameter → Cut other other_verb other_parameter
        → upper verb ≡ codes "SITE" → upper other_verb ≡ codes "SITE"
        → Cut parameter name arguments → Cut other_parameter other_name arguments
        → upper name ≡ upper other_name
        → outcome line ≡ outcome other }
{}

/// A name without a line feed that is sent with each CR as CR NUL is the name that is read (RFC
/// 854).
pub fn escape_reads_back()
    // The name that USER sends, each CR as CR NUL, is the name that is read.
    ensures { (name : Bytes) → Lacks LF name
        → outcome (codes "USER " ++ escaped name ++ crlf) ≡ Ok (User name) }
{}

/// The canonical line of a command that has a line has one LF, its last byte, and means that
/// command, where its fields are of their types (RFC 959, section 5.3).
pub fn canonical_lines_read_back()
    // The canonical line of a command that has a line has one line feed, its last byte.
    ensures line { (command : FtpCommand) → HasLine command → IsLine (canonical_line command) }
    // The canonical line means the command, where the command has a line, and fields of their
    // types.
    ensures read_back { (command : FtpCommand) → HasLine command → HasTypedFields command
        → outcome (canonical_line command) ≡ Ok command }
{}

/// A command has a line, and fields of their types, exactly where a line whose one LF is its last
/// byte means it (RFC 959, section 5.3).
pub fn commands_of_lines()
    // A command has a line, and fields of their types, exactly where a line with one line feed, its
    // last byte, means it.
    ensures { (command : FtpCommand) → (HasLine command × HasTypedFields command)
        ↔ ((line : Bytes) × IsLine line × (outcome line ≡ Ok command)) }
{}

/// The line that is forwarded for a line has one LF, its last byte, and means the same command.
/// Where the parameter is kept, so are its bytes up to the line's end, after the verb in upper case
/// (RFC 959, section 5.3).
pub fn forwarded_lines_read_back()
    // The forwarded line of a line that is a command has one line feed, its last byte.
    ensures line { (line : Bytes) (command : FtpCommand) → IsLine line → outcome line ≡ Ok command
        → IsLine (forwarded_line line command) }
    // The forwarded line means the command that the line means.
    ensures read_back { (line : Bytes) (command : FtpCommand)
        → IsLine line → outcome line ≡ Ok command
        → outcome (forwarded_line line command) ≡ Ok command }
    // Where the parameter is kept, the forwarded line has the line's verb in upper case.
    ensures verb { (line : Bytes) (command : FtpCommand)
        → keeps_parameter (upper (verb_of line)) ≡ true
        → verb_of (forwarded_line line command) ≡ upper (verb_of line) }
    // Where the parameter is kept, the forwarded line has its bytes as they came, up to the line's
    // end.
    ensures parameter { (line : Bytes) (command : FtpCommand)
        → keeps_parameter (upper (verb_of line)) ≡ true
        → before_end (parameter_of (forwarded_line line command))
        ≡ before_end (parameter_of line) }
{}

/// Two ports whose EPSV replies are equal are equal (RFC 2428, section 3).
pub fn epsv_ports_differ()
    // Two ports whose EPSV replies are equal are equal.
    ensures { (port other : ℕ) → port < 2 ^ 16 → other < 2 ^ 16 → port_reply port ≡ port_reply other
        → port ≡ other }
{}

/// The pieces that an input comes in give its events and the replies to them, however it is split;
/// the pieces after the one in which the handler ends the session give no reply.
pub fn any_cutting<H: Session>()
    // The pieces of an input give the events of the whole input, however it is split.
    ensures same_events { (limit : Option ℕ) (pieces : List Bytes)
        → events_in_turn limit [] pieces ≡ events limit (concat pieces) }
    // The replies to the pieces are the replies to the run of the whole input.
    ensures replies { (heard : List H.Heard) (limit : Option ℕ) (s : H.State)
        (pieces : List Bytes)
        → replies_in_turn limit (H.law heard) s [] pieces
        ≡ replies (H.law heard) s (run_for limit (H.law heard) s (concat pieces)) }
{}

/// A handler with one reply to each event gives as many replies as it takes events.
pub fn one_reply_each<H: Handler>()
    // A handler gives as many replies as it takes events.
    ensures { (s : H.State) (events : List FtpEvent)
        → length (replies (as_session H.law) s events) ≡ length events }
{}

/// The events that a server takes, and then those of the pending bytes, are the events of the
/// input, whatever the pieces, and whenever an event is taken. Where no line is pending, the server
/// has taken all of them, and the incomplete line is pending.
pub fn events_taken_in_steps()
    // The events that were taken, and then those of the pending bytes, are the events of the input.
    ensures same_events { (limit : Option ℕ) (steps : List (TakingStep FtpEvent)) (pending : Bytes)
        → AreTakingSteps (TakesEvent limit) [] steps pending
        → all_taken steps ++ events limit pending
        ≡ events limit (all_pushed steps) }
    // The incomplete line of the pending bytes is that of the input.
    ensures incomplete { (limit : Option ℕ) (steps : List (TakingStep FtpEvent)) (pending : Bytes)
        → AreTakingSteps (TakesEvent limit) [] steps pending
        → incomplete_line pending ≡ incomplete_line (all_pushed steps) }
    // Where no line is pending, the events that were taken are all events of the input, and the
    // incomplete line is pending.
    ensures all { (limit : Option ℕ) (steps : List (TakingStep FtpEvent)) (pending : Bytes)
        → AreTakingSteps (TakesEvent limit) [] steps pending → Lacks LF pending
        → (all_taken steps ≡ events limit (all_pushed steps))
        × (pending ≡ incomplete_line (all_pushed steps)) }
{}

/// The line that a decoder returns is the line of its last event. It is empty where that line is
/// longer than the limit, which the event then reports, and no other event does.
pub fn lines_of_events()
    // The line that a decoder returns for an event is the line that was taken. It is empty where
    // that line is too long.
    ensures line { (before after : Pending) (event : Event)
        (taken : TakesLine before (event_meant event) after)
        → line_after {E = Unit {0}} before (Ok (Some event)) after
        ≡ (if refuses_length (event_meant event) then [] else taken.takes.line) }
    // An event refuses a line for its length exactly where the line exceeds the limit.
    ensures too_long { (limit : Option ℕ) (line : Bytes)
        → refuses_length (event_for limit line) ≡ exceeds limit (length line) }
{}

/// Bytes after the line that ended the session change nothing: not what is written, nor the
/// handler's state, nor where the bytes after the end begin.
pub fn nothing_after_the_end<H: Session>()
    // Bytes after the line that ended the session change nothing of what is written.
    ensures text { (heard : List H.Heard) (limit : Option ℕ) (s : H.State)
        (input more other : Bytes)
        → ends_for limit (H.law heard) s input ≡ true
        → text_for limit (H.law heard) s (input ++ more)
        ≡ text_for limit (H.law heard) s (input ++ other) }
    // Bytes after the line that ended the session don't change the handler's state.
    ensures state { (heard : List H.Heard) (limit : Option ℕ) (s : H.State)
        (input more other : Bytes)
        → ends_for limit (H.law heard) s input ≡ true
        → last_state (H.law heard) s (run_for limit (H.law heard) s (input ++ more))
        ≡ last_state (H.law heard) s (run_for limit (H.law heard) s (input ++ other)) }
    // Bytes after an input that ended the session follow, unchanged, those that the end left.
    ensures unread { (heard : List H.Heard) (limit : Option ℕ) (s : H.State)
        (input more : Bytes)
        → ends_for limit (H.law heard) s input ≡ true
        → after_end limit (H.law heard) s (input ++ more)
        ≡ after_end limit (H.law heard) s input ++ more }
{}

/// A run ends with the first event that leaves the handler done, and has no later one; where none
/// does, it has all events. The lines of its events, and then the unread bytes, are the input.
pub fn one_run<H: Session>()
    // No event leaves the handler done exactly where `ends` computes false.
    ensures nowhere { (heard : List H.Heard) (s : H.State) (events : List FtpEvent)
        → EndsNowhere (H.law heard) s events ↔ (ends (H.law heard) s events ≡ false) }
    // Where no event leaves the handler done, the run has all events.
    ensures all { (heard : List H.Heard) (s : H.State) (events : List FtpEvent)
        → EndsNowhere (H.law heard) s events → run_of (H.law heard) s events ≡ events }
    // Where an event is the first that leaves the handler done, the run has the events up to it,
    // and `ends` computes true.
    ensures ended { (heard : List H.Heard) (s : H.State) (events first : List FtpEvent)
        (event : FtpEvent)
        → EndsAfter (H.law heard) s events first event
        → (run_of (H.law heard) s events ≡ first ++ event ∷ [])
        × (ends (H.law heard) s events ≡ true) }
    // Where `ends` computes true, there is a first event that leaves the handler done.
    ensures found { (heard : List H.Heard) (s : H.State) (events : List FtpEvent)
        → ends (H.law heard) s events ≡ true
        → (first : List FtpEvent) × (event : FtpEvent)
        × EndsAfter (H.law heard) s events first event }
    // The lines of a run's events, and then the unread bytes, are the input.
    ensures unread { (heard : List H.Heard) (limit : Option ℕ) (s : H.State) (input : Bytes)
        → concat (take (length (run_for limit (H.law heard) s input)) (lines_of input))
        ++ unread limit (H.law heard) s input ≡ input }
{}

/// The run of a handler that is never done has all events, and leaves the incomplete line.
pub fn never_done<H: Session>()
    // The run of a handler that is never done has all events.
    ensures run { (heard : List H.Heard) → ((s : H.State) → (H.law heard).done s ≡ false)
        → (limit : Option ℕ) (s : H.State) (input : Bytes)
        → run_for limit (H.law heard) s input ≡ events limit input }
    // The run of such a handler doesn't end.
    ensures end { (heard : List H.Heard) → ((s : H.State) → (H.law heard).done s ≡ false)
        → (limit : Option ℕ) (s : H.State) (input : Bytes)
        → ends_for limit (H.law heard) s input ≡ false }
    // Such a handler leaves the incomplete line, and there are no bytes after an end.
    ensures unread { (heard : List H.Heard) → ((s : H.State) → (H.law heard).done s ≡ false)
        → (limit : Option ℕ) (s : H.State) (input : Bytes)
        → (unread limit (H.law heard) s input ≡ incomplete_line input)
        × (after_end limit (H.law heard) s input ≡ []) }
{}

/// A limit changes nothing for an input whose lines are within it. The content of a longer line
/// makes no difference.
pub fn limit_refuses_long_lines()
    // Where each line of an input is within the limit, its events are the events without a limit.
    ensures within { (limit : ℕ) (input : Bytes)
        → AllByRecursion (λ line. length line ≤ limit) (lines_of input)
        → events (Some limit) input ≡ events None input }
    // A line that is longer than the limit is refused as too long, whatever it holds.
    ensures longer { (limit : ℕ) (line : Bytes) → limit < length line
        → event_for (Some limit) line ≡ Refused line_too_long }
{}

/// From an empty buffer on, and where memory never runs out, a codec scans the bytes that left the
/// buffer once, and the others up to its scan offset. So it scans at most what was appended.
pub fn tests_add_up()
    // Over calls that are never out of memory, from an empty buffer on, the bytes scanned and those
    // in the buffer are together as many as the scan offset and the bytes appended.
    ensures total { (limit : Option ℕ) (calls : List DecodeCall) (codec : Codec) (buffer : Bytes)
        → AreDecodeCalls (new_codec limit) [] calls codec buffer
        → codec.tests + length buffer
        ≡ codec.place + sum_by (λ call. length call.appended) calls }
    // Over such calls the codec scans at most as many bytes as were appended.
    ensures bound { (limit : Option ℕ) (calls : List DecodeCall) (codec : Codec) (buffer : Bytes)
        → AreDecodeCalls (new_codec limit) [] calls codec buffer
        → codec.tests ≤ sum_by (λ call. length call.appended) calls }
{}
