//! Laws of both ends of a control connection.
ghost use Rattle.std.specs.Prelude.{◌≡◌, ◌≤◌, ℕ, Option, None, Some, List, [], ◌++◌, length, map};
ghost use Rattle.std.specs.List.{AllByRecursion, concat};
ghost use Rattle.unftp_control_defs.specs.Bytes.{Bytes};
ghost use Rattle.unftp_control_defs.specs.Events.{Command, event_for, events};
ghost use Rattle.unftp_control_defs.specs.FtpCommand.{FtpCommand};
ghost use Rattle.unftp_control_defs.specs.FtpReply.{FtpReply, IsReadable};
ghost use Rattle.unftp_control_defs.specs.Lines.{IsLine, incomplete_line, lines_of};
ghost use Rattle.unftp_control_defs.specs.ReplyReader.{HasFront};
ghost use Rattle.unftp_control_defs.specs.Run.{replies, run_for, text_for, replies_by_event};
ghost use Rattle.unftp_control_defs.specs.TakingSteps.{AreTakingSteps, TakesReply, TakingStep, all_pushed, all_taken};
ghost use Rattle.unftp_control_defs.specs.Turns.{IsExchange, cut_reads};
ghost use Rattle.unftp_control_client.specs.declared.Client.{Client as RustClient};
ghost use Rattle.unftp_control_client.specs.declared.dialogue.To.TheVariants.{Greeting};
ghost use Rattle.unftp_control.specs.Acts.{AreFirst, IsConversation, IsUnderstood, Server, Act, came_to_client, exchanges, sent_by_client, taken_by_client, turns_to, written_by};
ghost use Rattle.unftp_control.specs.Conversation.{CanBeSent, KeepsMeaning, Show, ShowTurns, canonical_of, forwarded_of, rewritten, sent};

use unftp_control_serve::Session;

/// The lines of a client arrive, whatever they hold.
pub fn lines_arrive()
    // Where each command has a line within the limit, and fields of their types, the server's
    // events are the commands, in order.
    ensures commands { (limit : Option ℕ) (commands : List FtpCommand)
        → AllByRecursion (CanBeSent limit) commands
        → events limit (sent commands) ≡ map Command commands }
    // Any lines, each with one line feed, its last byte, are one event each, in order.
    ensures lines { (limit : Option ℕ) (lines : List Bytes) → AllByRecursion IsLine lines
        → events limit (concat lines) ≡ map (event_for limit) lines }
{}

/// A client that writes lines and takes replies, and a server that answers its input, understand
/// each other, whatever the pieces in either direction. Where each reply is sent and plain, the
/// client reads exactly those that the handler gives, in order. Where those to each line are some
/// preliminary ones and then a final one, the client cuts them after each final one. Then it has
/// for each line of the run, at its place, the handler's replies to that line. So a refused line
/// costs one reply, as any other. What the server writes is `text_for`, by the contract of `serve`;
/// where its run ends is in `one_run` (RFC 959, sections 4.2, 5.3 and 5.4).
pub fn conversation<H: Session>()
    // Where each reply of the run is readable, the replies that the client has taken are the run's
    // first, in order, whatever the pieces.
    ensures so_far { (heard : List H.Heard) (limit : Option ℕ) (s : H.State) (input : Bytes)
        (steps : List (TakingStep (ℕ × List Bytes))) (pending later : Bytes)
        → let all = replies (H.law heard) s (run_for limit (H.law heard) s input) in
        AllByRecursion IsReadable all → AreTakingSteps TakesReply [] steps pending
        → all_pushed steps ++ later ≡ text_for limit (H.law heard) s input
        → (more : List (ℕ × List Bytes)) × Show (all_taken steps ++ more) all }
    // Where each is readable, all bytes came and no more can be taken, the client has taken all
    // replies, and no byte is pending.
    ensures all { (heard : List H.Heard) (limit : Option ℕ) (s : H.State) (input : Bytes)
        (steps : List (TakingStep (ℕ × List Bytes))) (pending : Bytes)
        → let all = replies (H.law heard) s (run_for limit (H.law heard) s input) in
        AllByRecursion IsReadable all → AreTakingSteps TakesReply [] steps pending
        → all_pushed steps ≡ text_for limit (H.law heard) s input → ¬ HasFront pending
        → Show (all_taken steps) all × (pending ≡ []) }
    // Where all replies of the run were read, and those to each event are an exchange, cutting them
    // after each final reply gives each line its own replies, in order.
    ensures turns { (heard : List H.Heard) (limit : Option ℕ) (s : H.State) (input : Bytes)
        (read : List (ℕ × List Bytes))
        → let run = run_for limit (H.law heard) s input in
        AllByRecursion IsExchange (replies_by_event (H.law heard) s run)
        → Show read (replies (H.law heard) s run)
        → ShowTurns read (replies_by_event (H.law heard) s run)
        × (length (cut_reads read) ≡ length run) }
{}

/// A client may send lines, pieces may come to either end and replies may be taken in any order. A
/// server is understood where each of its replies is sent and plain, and those to each line are
/// some preliminary ones and then a final one. Then the replies that the client has taken are the
/// first ones: that to the greeting, and then those to each of its lines, each at its place. Once
/// all bytes came and no more can be taken, they are all, and no byte is pending (RFC 959, sections
/// 4.2 and 5.4). The law joins `conversation` with the law `replies_are_exchanges` of clients.
pub fn any_order<H: Session>()
    // Where the server is understood, the replies that the client has taken are the first, to the
    // greeting and then to each line, each with its command.
    ensures so_far { (heard : List H.Heard) (state : H.State) (limit client_limit : Option ℕ)
        (greeting : FtpReply) (acts : List Act) (client : RustClient)
        → let server : Server H.State =
        record { law = H.law heard; state = state; limit = limit; greeting = greeting } in
        IsConversation server client_limit acts client
        → IsUnderstood (turns_to server (sent_by_client acts))
        → AreFirst (taken_by_client acts)
        (exchanges Greeting (turns_to server (sent_by_client acts))) }
    // Where the server is understood, all bytes came and no more can be taken, the client has taken
    // all replies, and no byte is pending.
    ensures all { (heard : List H.Heard) (state : H.State) (limit client_limit : Option ℕ)
        (greeting : FtpReply) (acts : List Act) (client : RustClient)
        → let server : Server H.State =
        record { law = H.law heard; state = state; limit = limit; greeting = greeting } in
        IsConversation server client_limit acts client
        → IsUnderstood (turns_to server (sent_by_client acts))
        → came_to_client acts ≡ written_by server (sent_by_client acts)
        → ¬ HasFront client.replies.bytes
        → (map Some (taken_by_client acts)
        ≡ exchanges Greeting (turns_to server (sent_by_client acts)))
        × (client.replies.bytes ≡ []) }
{}

/// A proxy that rewrites each line as one that means the same changes nothing: neither the events
/// of the input, nor what a server writes. Such are the canonical line of a command, and the line
/// that `forward` writes for it; a line that is refused is sent as it is.
pub fn canonical_lines_change_nothing<H: Session>()
    // Replacing each line that is a command by its canonical line keeps the meaning of each line.
    ensures canonical { KeepsMeaning canonical_of }
    // Replacing each line that is a command by its forwarded line keeps the meaning of each line.
    ensures forwarded { KeepsMeaning forwarded_of }
    // Where each line of an input is replaced by one that means the same, the events without a
    // limit are the same.
    ensures same_events { (rewrite : Bytes → Bytes) (input : Bytes) → KeepsMeaning rewrite
        → events None (rewritten rewrite input) ≡ events None input }
    // Where each line is also within a limit before and after, the events under that limit are the
    // same.
    ensures within { (rewrite : Bytes → Bytes) (limit : ℕ) (input : Bytes)
        → KeepsMeaning rewrite
        → AllByRecursion (λ line. (length line ≤ limit) × (length (rewrite line) ≤ limit))
        (lines_of input)
        → events (Some limit) (rewritten rewrite input) ≡ events (Some limit) input }
    // Where each line of an input is replaced by one that means the same, a server without a limit
    // writes the same.
    ensures written { (heard : List H.Heard) (rewrite : Bytes → Bytes) (s : H.State)
        (input : Bytes)
        → KeepsMeaning rewrite
        → text_for None (H.law heard) s (rewritten rewrite input)
        ≡ text_for None (H.law heard) s input }
    // Where each line is also within a limit before and after, a server with that limit writes the
    // same.
    ensures written_within { (heard : List H.Heard) (rewrite : Bytes → Bytes) (limit : ℕ)
        (s : H.State) (input : Bytes)
        → KeepsMeaning rewrite
        → AllByRecursion (λ line. (length line ≤ limit) × (length (rewrite line) ≤ limit))
        (lines_of input)
        → text_for (Some limit) (H.law heard) s (rewritten rewrite input)
        ≡ text_for (Some limit) (H.law heard) s input }
    // Where each line of an input is replaced by one that means the same, the incomplete line is
    // the same.
    ensures incomplete { (rewrite : Bytes → Bytes) (input : Bytes) → KeepsMeaning rewrite
        → incomplete_line (rewritten rewrite input) ≡ incomplete_line input }
{}
