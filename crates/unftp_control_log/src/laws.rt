//! What holds of all log lines, and of the lines of all exchanges, each the contract of a function
//! that does nothing.
ghost use Rattle.std.specs.Prelude.{◌≡◌, ℕ, Option, false, [], IfSome, None, Some};
ghost use Rattle.std.specs.List.{AllByRecursion};
ghost use Rattle.unftp_control_defs.specs.Bytes.{Bytes};
ghost use Rattle.unftp_control_defs.specs.Events.{Command, Fault, FaultSource, FtpEvent, Refused, UnknownCommand};
ghost use Rattle.unftp_control_defs.specs.FtpCommand.{Acct, FtpCommand, Other, Pass, unless_empty};
ghost use Rattle.unftp_control_defs.specs.Verbs.{parameter_of, verb_of};
ghost use Rattle.unftp_control_defs.specs.ComputedValue.{value_of};
ghost use Rattle.unftp_control_log.specs.Known.{known, shows_parameter};
ghost use Rattle.unftp_control_log.specs.LogLine.{IsPrintable, hides_part, is_listed, log_line, logged, shown_parameter};
ghost use Rattle.unftp_control_log.specs.ExchangeLine.{exchange_line};
ghost use Rattle.unftp_control_log.specs.Exchanges.{Entry};

/// Whatever the event and its line: each byte is printable ASCII, so that there is no control
/// character, no escape sequence of a terminal and no line end.
pub fn log_lines_are_printable()
    // Each byte of a log line is a space or a printing character of ASCII, whatever the event and
    // the line.
    ensures { (event : FtpEvent) (line : Bytes) → AllByRecursion IsPrintable (log_line event line) }
{}

/// Of every line, under any limit: its log line depends on nothing but what `known` says of it.
/// This is its verb and its subcommand of SITE where these are listed, why it is refused, and of a
/// command the value of its parameter, only where that is shown.
pub fn secrets_stay_hidden()
    // Two lines of which the same is known have the same log line: the reason of a refusal, the
    // listed verb and SITE subcommand, and of a command the value that is shown.
    ensures { (limit : Option ℕ) (line other : Bytes) → known limit line ≡ known limit other
        → logged limit line ≡ logged limit other }
{}

/// Of every event with every line, also with one that is not its own. The log line is the same for
/// all passwords and all accounts. It is the same for all arguments of a verb with no rule of its
/// own, and for all such verbs that are not listed. It is the same for all lines whose own verb
/// hides their parameter. A refused line shows no byte after its verb, and an error that holds a
/// command shows none of it.
pub fn events_hide_secrets()
    // The log line of a PASS is the same for all passwords and lines.
    ensures password { (password other line another : Bytes)
        → log_line (Command (Pass password)) line ≡ log_line (Command (Pass other)) another }
    // The log line of an ACCT is the same for all accounts and lines.
    ensures account { (account other line another : Bytes)
        → log_line (Command (Acct account)) line ≡ log_line (Command (Acct other)) another }
    // The log line of a verb without a rule is the same for all arguments and lines.
    ensures arguments { (verb arguments other line another : Bytes)
        → log_line (Command (Other verb arguments)) line
        ≡ log_line (Command (Other verb other)) another }
    // The log line is the same for all verbs without a rule that are not listed, and for all their
    // arguments.
    ensures unlisted { (verb another arguments other line : Bytes)
        → is_listed verb ≡ false → is_listed another ≡ false
        → log_line (Command (Other verb arguments)) line
        ≡ log_line (Command (Other another other)) line }
    // A command has the same log line with all lines whose own verb hides their parameter.
    ensures parameters { (command : FtpCommand) (line other : Bytes)
        → shows_parameter line ≡ false → shows_parameter other ≡ false
        → log_line (Command command) line ≡ log_line (Command command) other }
    // The log line of a refusal shows no byte of the line after its verb.
    ensures refused { (fault : Fault) (line other : Bytes) → verb_of line ≡ verb_of other
        → log_line (Refused fault) line ≡ log_line (Refused fault) other }
    // The log line of an error that holds an unknown command shows none of the command.
    ensures unknown { (source : FaultSource) (command other line : Bytes)
        → log_line (Refused (record { kind = UnknownCommand command; source = source })) line
        ≡ log_line (Refused (record { kind = UnknownCommand other; source = source })) line }
{}

/// A line of which no part is hidden is a command, and its log line has the value of its parameter.
pub fn what_is_not_hidden_is_shown()
    // A line of which no part is hidden is not refused.
    ensures command { (line : Bytes) → hides_part None line ≡ false
        → (known None line).fault ≡ None }
    // Where no part of a line is hidden and its verb or SITE subcommand shows its parameter, the
    // value is shown, unless it is empty.
    ensures value { (line parameter : Bytes) → hides_part None line ≡ false
        → shown_parameter line ≡ Some parameter → (v : Bytes) × (value_of parameter ≡ Some v)
        × ((known None line).value ≡ unless_empty v) }
    // Where no part of a line is hidden and its verb shows no parameter, as with SYST and HELP, the
    // value of the parameter is empty.
    ensures none { (line : Bytes) → hides_part None line ≡ false → shown_parameter line ≡ None
        → value_of (parameter_of line) ≡ Some [] }
{}

/// Each byte of an exchange's line is printable ASCII, where what is shown of its line is: so there
/// is no control character and no line end.
pub fn exchange_lines_are_printable()
    // Where each byte of what is shown of the line is printable, so is each byte of the exchange's
    // line.
    ensures { (entry : Entry) → IfSome entry.line (AllByRecursion IsPrintable)
        → AllByRecursion IsPrintable (exchange_line entry) }
{}
