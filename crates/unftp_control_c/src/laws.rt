//! What the calls promise one after the other, and what they give: each the contract of a function
//! that does nothing.
ghost use Rattle.std.specs.Prelude.{◌≡◌, ◌≢◌, ◌<◌, ◌≤◌, ◌+◌, ◌*◌, ◌++◌, ◌⊎◌, ℕ, suc, List, [], ◌∷◌, Ok, Err, Option, None, Some, true, false, IsTrue, map, length, slice_index};
ghost use Rattle.std.specs.List.{AllByRecursion, count_by, filter};
ghost use Rattle.unftp_control_defs.specs.Bytes.{Bytes, LF, Lacks};
ghost use Rattle.unftp_control_defs.specs.Canonical.{HasLine};
ghost use Rattle.unftp_control_defs.specs.Events.{Command, Fault, FtpEvent, Refused, event_for, events};
ghost use Rattle.unftp_control_defs.specs.FtpCommand.{FtpCommand};
ghost use Rattle.unftp_control_defs.specs.Said.{HasTypedFields};
ghost use Rattle.unftp_control_defs.specs.Lines.{IsLine};
ghost use Rattle.unftp_control_defs.specs.TakingSteps.{AreReplies};
ghost use Rattle.unftp_control_codecs.specs.LineFeed.{is_line_feed, line_feed_from};
ghost use Rattle.unftp_control_commands.specs.ReplyTexts.{quoted};
ghost use Rattle.unftp_control_client.specs.Dialogue.{after_command, after_reply, next_to};
ghost use Rattle.unftp_control_client.specs.Order.{IsToTaken, OrderCall, after_calls, finals_owed, given_by, lines_taken};
ghost use Rattle.unftp_control_client.specs.Steps.{AreDialogueSteps, AreExchanges, ClientStep, EndsInAgreement, ReplyTo, SentLine, Took, is_final, replies_owed};
ghost use Rattle.unftp_control_client.specs.declared.dialogue.To.TheVariants.{Greeting};
ghost use Rattle.unftp_control_log.specs.Known.{known};
ghost use Rattle.unftp_control_log.specs.LogLine.{IsPrintable, hides_part, logged};
ghost use Rattle.unftp_control_login.specs.Gate.{decided, decision_at, nobody, stage_after};
ghost use Rattle.unftp_control_login.specs.Login.{Accounts, IsLoggedIn, is_login, login_step, needs_login};
ghost use Rattle.unftp_control_login.specs.declared.stage.LoginStep.TheVariants.{PassOn};
ghost use Rattle.unftp_control_login.specs.declared.stage.Progress.{Progress};
ghost use Rattle.unftp_control_login.specs.declared.stage.Stage.{Stage};
ghost use Rattle.unftp_control_c.specs.Addresses.{IsWrittenBy, form_for};
ghost use Rattle.unftp_control_c.specs.Areas.{Made, filled, written};
ghost use Rattle.unftp_control_c.specs.Clients.{dialogue_of, may_begin_tls, new_client, order_of, place_in, to_number};
ghost use Rattle.unftp_control_c.specs.ExchangeLines.{IsExchangeLine};
ghost use Rattle.unftp_control_c.specs.LogLines.{IsLogLine, numbered_hides, numbered_log_line};
ghost use Rattle.unftp_control_c.specs.Logins.{KeepsSame, event_role, kept_after, kept_after_all, progress_of, stage_number};
ghost use Rattle.unftp_control_c.specs.Next.{NextCall, Given, Leaves, Left, given_for, line_limit, needed_room, scans};
ghost use Rattle.unftp_control_c.specs.NextReply.{IsSearchIn, ReplyCall, is_valid_search, reply_call, seen_length};
ghost use Rattle.unftp_control_c.specs.Numbers.{status_number};
ghost use Rattle.unftp_control_c.specs.Parameters.{list_path_bytes, parameter_bytes};
ghost use Rattle.unftp_control_c.specs.Replies.{IsFoundText, reply_bytes};
ghost use Rattle.unftp_control_c.specs.Taking.{AreCallerSteps, Caller, CallerStep, IsNumberOf, after_call, all_given, caller_call, gives_none, input_of, new_caller, scanned_by, unscanned};
ghost use Rattle.unftp_control_c.specs.TakingReplies.{AreReplySteps, ReplyStep, codes_in, new_search, received_in, scanned_in, unsearched};
ghost use Rattle.unftp_control_c.specs.declared.client.Client.{Client as RustClient};
ghost use Rattle.unftp_control_c.specs.declared.next_reply.ReplySearch.{ReplySearch};
ghost use Rattle.unftp_control_c.specs.declared.status.Status.TheVariants.{LineTooLong, More, NoRoom, OutOfMemory};

pub mod usual;

/// Whatever a caller receives, and whenever it calls `unftp_next`, with whatever areas: its calls
/// give the events of what it received, in order, each by its number, name and value.
pub fn calls_take_events()
    // What the calls have given so far are the first events of the input, in order, each by its
    // number, name and value.
    ensures first { (limit : ℕ) (steps : List CallerStep) (after : Caller)
        → AreCallerSteps (new_caller limit) steps after
        → (later : List Given) × (all_given (new_caller limit) steps ++ later
        ≡ map given_for (events (line_limit limit) (input_of steps))) }
    // Where a call asks for more, all events of the input have been given.
    ensures all { (limit : ℕ) (steps : List CallerStep) (after : Caller) (area : Bytes)
        (left : Left) → AreCallerSteps (new_caller limit) steps after
        → Leaves (caller_call after area) left → left.result ≡ status_number More
        → all_given (new_caller limit) steps
        ≡ map given_for (events (line_limit limit) (input_of steps)) }
    // A call that uses nothing up asks for more, or has no room or no memory, where the connection
    // began as new.
    ensures nothing_used { (limit : ℕ) (steps : List CallerStep) (after : Caller) (area : Bytes)
        (left : Left) → AreCallerSteps (new_caller limit) steps after
        → Leaves (caller_call after area) left → left.line.used ≡ 0
        → gives_none left.result ≡ true }
{}

/// A call without room or memory may be made again.
pub fn calls_are_made_again()
    // A call without room or memory changes neither the connection nor the pending bytes.
    ensures kept { (caller : Caller) (area : Bytes) (left : Left)
        → Leaves (caller_call caller area) left
        → (left.result ≡ status_number NoRoom) ⊎ (left.result ≡ status_number OutOfMemory)
        → after_call caller left ≡ caller }
    // A call without room has less than it reports to need.
    ensures too_little { (caller : Caller) (area : Bytes) (left : Left)
        → Leaves (caller_call caller area) left → left.result ≡ status_number NoRoom
        → length area < needed_room left.line }
    // After a call without room, a call with as much as that one reported gives the line, or is out
    // of memory.
    ensures room { (caller : Caller) (area wider : Bytes) (left again : Left)
        → Leaves (caller_call caller area) left → left.result ≡ status_number NoRoom
        → needed_room left.line ≤ length wider → Leaves (caller_call caller wider) again
        → (again.result ≡ status_number OutOfMemory) ⊎ (gives_none again.result ≡ false) }
{}

/// With a limit, fewer bytes than it allows stay pending where a call asks for more; and no call
/// changes the limit.
pub fn pending_bytes_are_bounded()
    // With a limit, fewer bytes than it allows stay pending where a call asks for more.
    ensures fewer { (caller : Caller) (area : Bytes) (left : Left)
        → Leaves (caller_call caller area) left → left.result ≡ status_number More
        → 1 ≤ caller.connection.limit
        → length (after_call caller left).bytes < caller.connection.limit }
    // No call changes the limit.
    ensures limit { (caller : Caller) (area : Bytes) (left : Left)
        → Leaves (caller_call caller area) left
        → left.connection.limit ≡ caller.connection.limit }
{}

/// The calls of `unftp_next` scan each byte for a line feed once.
pub fn bytes_are_scanned_once()
    // The bytes that calls scan, without calls that are made again, and the bytes not scanned yet
    // are together as many as were received.
    ensures once { (limit : ℕ) (steps : List CallerStep) (after : Caller)
        → AreCallerSteps (new_caller limit) steps after
        → scanned_by (new_caller limit) steps + unscanned after ≡ length (input_of steps) }
    // Each call, also one that is made again, scans at most the bytes not scanned yet.
    ensures each { (caller : Caller) (area : Bytes)
        → scans (caller_call caller area) ≤ unscanned caller }
{}

/// The number, the name and the value that are given for an event say which it is.
pub fn events_are_given_apart()
    // Two commands that lines can say are equal where their numbers, names and values are.
    ensures commands { (command other : FtpCommand)
        → HasLine command → HasTypedFields command → HasLine other → HasTypedFields other
        → given_for (Command command) ≡ given_for (Command other) → command ≡ other }
    // Two lines, each with one line feed, its last byte, have the same event where they have the
    // same number, name and value.
    ensures events { (limit other_limit : Option ℕ) (line other : Bytes)
        → IsLine line → IsLine other
        → given_for (event_for limit line) ≡ given_for (event_for other_limit other)
        → event_for limit line ≡ event_for other_limit other }
    // The number of a refused line is one of those for the kind of its fault.
    ensures kinds { (limit : Option ℕ) (line : Bytes) (fault : Fault)
        → event_for limit line ≡ Refused fault
        → IsNumberOf fault.kind (given_for (Refused fault)).number }
{}

/// How much room the areas of the calls need at most.
pub fn rooms_are_bounded()
    // The name and the value of a line of n bytes have at most 3 n bytes.
    ensures line { (call : NextCall) (left : Left) (k : ℕ) → Leaves call left
        → line_feed_from call.bytes call.connection.offset ≡ Some k
        → left.line.name_len + left.line.value_len ≤ 3 * (k + 1) }
    // With a limit, an area of three times the limit has room for each line.
    ensures limit { (call : NextCall) (left : Left) → Leaves call left
        → 1 ≤ call.connection.limit → 3 * call.connection.limit ≤ length call.area
        → left.result ≢ status_number NoRoom }
    // The reply of a text of n bytes in one line has at most n + 6 bytes.
    ensures reply_of_a_line { (code : ℕ) (text out : Bytes) → Lacks LF text
        → (written (reply_bytes code text) out).text_length ≤ length text + 6 }
    // The reply of a text of n bytes with k line feeds has at most n + 2 k + 10 bytes.
    ensures reply { (code : ℕ) (text out : Bytes)
        → (written (reply_bytes code text) out).text_length
        ≤ length text + 2 * count_by is_line_feed text + 10 }
    // A path of n bytes between double quotes has at most 2 n + 2 bytes.
    ensures quoted { (path out : Bytes)
        → (filled (quoted path) out).text_length ≤ 2 * length path + 2 }
    // The lines of a reply have at most as many bytes as the input that has the reply.
    ensures lines { (bytes : Bytes) (text : Made) (out : Bytes)
        → IsFoundText bytes text → (written text out).text_length ≤ length bytes }
    // The value of a line's parameter has at most as many bytes as the line, and so has the path of
    // LIST in it.
    ensures parameter { (line out : Bytes)
        → ((written (parameter_bytes line) out).text_length ≤ length line)
        × ((written (list_path_bytes line) out).text_length ≤ length line) }
    // The text of an address has at most 49 bytes.
    ensures address { (number port : ℕ) (ip : Bytes) (text : Made) (out : Bytes)
        → ((k : ℕ) → slice_index ip k < 256) → IsWrittenBy (form_for number port) ip port text
        → (written text out).text_length ≤ 49 }
{}

/// How much room a log line needs at most.
pub fn log_rooms_are_bounded()
    // The log's line has at most 4 n + 42 bytes for a line of n bytes.
    ensures { (number : ℕ) (line : Bytes) (bytes : Made) (out : Bytes)
        → IsLogLine number line bytes → (written bytes out).text_length ≤ 4 * length line + 42 }
{}

/// A log line is that of the log of the library in Rattle, whose laws hold of it.
pub fn log_lines_are_logged()
    // By the number that `unftp_next` returns for a line, its log line is that of the log in
    // Rattle.
    ensures same { (limit : Option ℕ) (line : Bytes) → IsLine line
        → numbered_log_line (given_for (event_for limit line)).number line ≡ logged limit line }
    // By this number a part of the line is hidden exactly where the log in Rattle hides one.
    ensures hides { (limit : Option ℕ) (line : Bytes) → IsLine line
        → numbered_hides (given_for (event_for limit line)).number line
        ≡ hides_part limit line }
    // By the number of a line that is too long, the log's line is the same for every line.
    ensures too_long { (line other : Bytes)
        → numbered_log_line (status_number LineTooLong) line
        ≡ numbered_log_line (status_number LineTooLong) other }
    // Each byte of a log's line is printable.
    ensures printable { (number : ℕ) (line : Bytes)
        → AllByRecursion IsPrintable (numbered_log_line number line) }
    // By one number, two lines of which the same may be known have the same log line.
    ensures secrets { (number : ℕ) (line other : Bytes) → known None line ≡ known None other
        → numbered_log_line number line ≡ numbered_log_line number other }
{}

/// The line of an exchange is printable, whatever a client or a server sent: so no line of a log
/// can be forged.
pub fn lines_of_exchanges_are_printable()
    // Each byte of an exchange's line is printable, whatever a client and a server sent.
    ensures { (shown replies text : Bytes) → IsExchangeLine shown replies (Ok text)
        → AllByRecursion IsPrintable text }
{}

/// There is one line of an exchange, or one reason why there is none, but where memory runs out. So
/// each error comes exactly where it is meant to.
pub fn exchanges_have_one_line()
    // The line, or the reason why there is none, follows from what is shown and from the bytes,
    // except where memory ran out.
    ensures same { (shown replies : Bytes) (bytes other : Made)
        → IsExchangeLine shown replies bytes → IsExchangeLine shown replies other
        → bytes ≢ Err OutOfMemory → other ≢ Err OutOfMemory → bytes ≡ other }
    // Out of memory comes only where there is a line, so never in place of another error.
    ensures memory { (shown replies : Bytes) → IsExchangeLine shown replies (Err OutOfMemory)
        → (text : Bytes) × IsExchangeLine shown replies (Ok text) }
{}

/// The calls of a client are steps of one dialogue, whatever lines and replies it notes. In it the
/// replies that were owed are for the greeting, line 0, line 1 and so on: each time some
/// preliminary ones, and then a final one (RFC 959, sections 4.2 and 5.4).
pub fn client_calls_are_a_dialogue()
    // A call that notes a line is a step of the dialogue.
    ensures line { (before after : RustClient) (line : Bytes)
        → dialogue_of after ≡ after_command line (dialogue_of before)
        → AreDialogueSteps (dialogue_of before) (SentLine line ∷ []) (dialogue_of after) }
    // A call for a reply is a step of the dialogue, where its number and place are those of what
    // the reply is to.
    ensures reply { (before after : RustClient) (taken : ReplyTo)
        → to_number taken.to ≡ to_number (next_to (dialogue_of before))
        → place_in taken.to ≡ place_in (next_to (dialogue_of before))
        → dialogue_of after ≡ after_reply (dialogue_of before) taken.reply.0
        → AreDialogueSteps (dialogue_of before) (Took taken ∷ []) (dialogue_of after) }
    // Steps, followed by further steps, are steps of one dialogue.
    ensures in_turn { (first later : List ClientStep) (before middle after : RustClient)
        → AreDialogueSteps (dialogue_of before) first (dialogue_of middle)
        → AreDialogueSteps (dialogue_of middle) later (dialogue_of after)
        → AreDialogueSteps (dialogue_of before) (first ++ later) (dialogue_of after) }
    // The replies that were owed are exchanges, for the greeting and then for each line in order.
    // The last one may be incomplete.
    ensures exchanges { (steps : List ClientStep) (after : RustClient)
        → AreDialogueSteps (dialogue_of new_client) steps (dialogue_of after)
        → AreExchanges Greeting (replies_owed steps) }
    // TLS may begin only where the last line asks for it, the last reply is a 234 to that line, and
    // no byte is pending.
    ensures tls { (steps : List ClientStep) (after : RustClient) (pending : ℕ)
        → AreDialogueSteps (dialogue_of new_client) steps (dialogue_of after)
        → IsTrue (may_begin_tls (dialogue_of after) pending)
        → EndsInAgreement steps × (pending ≡ 0) }
{}

/// Any calls of a proxy, also those that are refused. It gives its client each reply that is owed
/// by `unftp_client_reply`, and each answer for which `unftp_client_answer` returned 1. Then the
/// client gets only the greeting and one exchange for each line that was taken, in order.
pub fn calls_keep_the_order()
    // Whatever calls are made, the client is given exchanges, for the greeting and then for each
    // line in order. The last one may be incomplete.
    ensures exchanges { (calls : List OrderCall)
        → AreExchanges Greeting (given_by 0 (order_of new_client) calls) }
    // No reply is to a line that was not taken before.
    ensures taken { (calls : List OrderCall)
        → AllByRecursion (IsToTaken (lines_taken (order_of new_client) calls))
        (given_by 0 (order_of new_client) calls) }
    // The final replies that the client was given, and those that it is still owed, are one more
    // than the lines that were taken.
    ensures complete { (calls : List OrderCall)
        → length (filter is_final (given_by 0 (order_of new_client) calls))
        + finals_owed (after_calls (order_of new_client) calls)
        ≡ suc (lines_taken (order_of new_client) calls) }
{}

/// A server that does at each event what `unftp_login_event` returns, keeps the name of each USER,
/// and asks the accounts where it is to, does what a login gate does (RFC 959, section 4.1.1).
pub fn logins_are_gated()
    // What the gate decides at an event is the decision at the step for the event's number.
    ensures decided { (accepts : Accounts) (kept : Stage) (event : FtpEvent)
        → decided accepts kept event ≡ decision_at
        (login_step kept.progress (event_role (given_for event).number)) accepts kept.name event }
    // What is kept after an event, by its number, is what the gate keeps.
    ensures stage { (accepts : Accounts) (kept : Stage) (event : FtpEvent)
        → kept_after accepts kept event ≡ stage_after accepts kept event }
    // A name that no password is to follow changes neither the decision at an event nor what counts
    // after it.
    ensures names { (accepts : Accounts) (kept other : Stage) (event : FtpEvent)
        → KeepsSame kept other → (decided accepts kept event ≡ decided accepts other event)
        × KeepsSame (kept_after accepts kept event) (kept_after accepts other event) }
    // An event that needs a login is passed on only after a login.
    ensures members { (accepts : Accounts) (before : List FtpEvent) (event : FtpEvent)
        → IsTrue (needs_login event) → login_step (kept_after_all accepts nobody before).progress
        (event_role (given_for event).number) ≡ PassOn → IsLoggedIn accepts before }
    // After a login each event is passed on, except USER and PASS.
    ensures served { (accepts : Accounts) (before : List FtpEvent) (event : FtpEvent)
        → IsLoggedIn accepts before → is_login event ≡ false
        → login_step (kept_after_all accepts nobody before).progress
        (event_role (given_for event).number) ≡ PassOn }
    // The number of a stage is read as that stage.
    ensures numbers { (progress : Progress) → progress_of (stage_number progress) ≡ progress }
    // The number 0 is the stage before any name.
    ensures zero { progress_of 0 ≡ nobody.progress }
{}

/// Whatever a caller receives, in whatever pieces, and whenever it calls `unftp_next_reply`: its
/// calls give the replies of what it received, in order (RFC 959, section 4.2).
pub fn calls_find_replies()
    // The codes that the calls give are those of the replies of the input before the pending bytes,
    // in order.
    ensures codes { (limit : ℕ) (steps : List ReplyStep) (after : ReplyCall)
        → AreReplySteps (new_search limit) steps after → (replies : List (ℕ × List Bytes))
        × AreReplies (received_in steps) replies after.bytes
        × (map (λ reply. reply.0) replies ≡ codes_in steps) }
    // What the calls leave is a search that has come so far in the pending bytes.
    ensures searched { (limit : ℕ) (steps : List ReplyStep) (after : ReplyCall)
        → AreReplySteps (new_search limit) steps after → IsSearchIn after.search after.bytes }
    // Such a search is not refused as an invalid argument.
    ensures not_refused { (search : ReplySearch) (bytes : Bytes) → IsSearchIn search bytes
        → is_valid_search search (seen_length (reply_call search bytes)) ≡ true }
{}

/// The calls of `unftp_next_reply` scan no byte twice for a line feed.
pub fn replies_are_scanned_once()
    // The most that calls scan, without calls that find a malformed reply, and the bytes not
    // scanned yet are together as many as were received.
    ensures { (limit : ℕ) (steps : List ReplyStep) (after : ReplyCall)
        → AreReplySteps (new_search limit) steps after
        → scanned_in (new_search limit) steps + unsearched after ≡ length (received_in steps) }
{}
