//! What holds of each run of a client, each the contract of a function that does nothing.
ghost use Rattle.std.specs.Prelude.{◌≡◌, ◌<◌, ◌≤◌, ℕ, suc, Option, None, Some, Ok, Err, List, [], ◌∷◌, ◌++◌, length, IsTrue, ◌+◌};
ghost use Rattle.std.specs.List.{AllByRecursion, concat, filter};
ghost use Rattle.unftp_control_defs.specs.Bytes.{Bytes};
ghost use Rattle.unftp_control_defs.specs.Input.{InputState};
ghost use Rattle.unftp_control_defs.specs.TakingSteps.{AreTakingSteps, TakesReply};
ghost use Rattle.unftp_control_read.specs.ReplyDecoding.{TakesFirst, TakesNextReply, content, pushed};
ghost use Rattle.unftp_control_read.specs.Receiving.{Receives};
ghost use Rattle.unftp_control_read.specs.declared.errors.NextReplyError.{NextReplyError};
ghost use Rattle.unftp_control_read.specs.declared.errors.ReceiveError.{ReceiveError};
ghost use Rattle.unftp_control_client.specs.Dialogue.{after_command, new_dialogue, commands_owed};
ghost use Rattle.unftp_control_client.specs.Exchange.{IsNext, new_client};
ghost use Rattle.unftp_control_client.specs.ForwardingSteps.{AreForwardingSteps, ForwardingStep, IsGreeted, is_line, replies_given};
ghost use Rattle.unftp_control_client.specs.Order.{IsToTaken, OrderCall, after_calls, finals_owed, given_by, lines_taken, new_order};
ghost use Rattle.unftp_control_client.specs.Steps.{AreDialogueSteps, AreExchanges, AreClientSteps, ClientStep, EndsInAgreement, Received, SentLine, Took, lines_sent, decoder_steps, is_final, replies_owed, reply_to};
ghost use Rattle.unftp_control_client.specs.declared.Client.{Client as RustClient};
ghost use Rattle.unftp_control_client.specs.declared.dialogue.ClientReply.{ClientReply as RustReply};
ghost use Rattle.unftp_control_client.specs.declared.dialogue.Dialogue.{Dialogue as RustDialogue};
ghost use Rattle.unftp_control_client.specs.declared.dialogue.To.TheVariants.{Greeting, Command, Nothing};

/// What the contract of each call ensures makes it a step, or none where it takes no reply or
/// fails; and calls one after the other are steps. So the law `replies_are_exchanges` is one of all
/// runs. A call of `send` or `receive` that fails leaves the client as it was.
pub fn calls_are_steps()
    // A call of `send` or `send_line` that succeeds is a step that sends its line.
    ensures send { (before after : RustClient) (line : Bytes)
        → after ≡ record before { dialogue = after_command line before.dialogue }
        → AreClientSteps before (SentLine line ∷ []) after }
    // A call of `receive` that succeeds is a step that receives its piece.
    ensures receive { (before after : RustClient) (piece : Bytes)
        → after ≡ record before { replies = pushed before.replies piece }
        → AreClientSteps before (Received piece ∷ []) after }
    // A call of `next_reply` that returns a reply is a step that takes it.
    ensures next_reply { (before after : RustClient) (taken : RustReply)
        → TakesFirst before.replies (content taken.reply) after.replies
        → IsNext {E = Unit {0}} before.dialogue (Ok (Some taken)) after.dialogue
        → AreClientSteps before (Took (reply_to taken) ∷ []) after }
    // A call of `next_reply` that returns `None` is no step.
    ensures none { (before after : RustClient)
        → TakesNextReply before.replies (Ok None) after.replies
        → IsNext {E = NextReplyError} before.dialogue (Ok None) after.dialogue
        → AreClientSteps before [] after }
    // A call of `next_reply` that fails is no step.
    ensures failed { (before after : RustClient) (error : NextReplyError)
        → TakesNextReply before.replies (Err error) after.replies
        → IsNext before.dialogue (Err error) after.dialogue
        → AreClientSteps before [] after }
{}

/// So are the calls of `read_reply`: what they read is received, also where they take none or fail.
pub fn reads_are_steps()
    // A call of `read_reply` that returns a reply receives the pieces that it read, and then takes
    // the reply.
    ensures read_reply { (before after : RustClient) (taken : RustReply) (input left : InputState)
        (receives : Receives before.replies input (Ok (Some taken.reply)) after.replies left)
        → IsNext {E = Unit {0}} before.dialogue (Ok (Some taken)) after.dialogue
        → AreClientSteps before
        (Received (concat receives.pieces) ∷ Took (reply_to taken) ∷ []) after }
    // A call of `read_reply` that returns `None` receives what it read.
    ensures read_none { (before after : RustClient) (input left : InputState)
        (receives : Receives before.replies input (Ok None) after.replies left)
        → IsNext {E = ReceiveError} before.dialogue (Ok None) after.dialogue
        → AreClientSteps before (Received (concat receives.pieces) ∷ []) after }
    // A call of `read_reply` that fails receives what it read.
    ensures read_failed { (before after : RustClient) (error : ReceiveError)
        (input left : InputState)
        (receives : Receives before.replies input (Err error) after.replies left)
        → IsNext before.dialogue (Err error) after.dialogue
        → AreClientSteps before (Received (concat receives.pieces) ∷ []) after }
    // Steps, and steps from where they end, are steps together.
    ensures in_turn { (first later : List ClientStep) (before middle after : RustClient)
        → AreClientSteps before first middle → AreClientSteps middle later after
        → AreClientSteps before (first ++ later) after }
{}

/// Whatever a client sends, and however the server's bytes are split, the replies that it takes and
/// that were owed are exchanges: the greeting, then those to command 0, to command 1 and so on. An
/// exchange is some preliminary replies and then a final one (RFC 959, sections 4.2 and 5.4).
pub fn replies_are_exchanges()
    // The replies taken that were owed are exchanges: for the greeting, and then for each command
    // in turn.
    ensures exchanges { (limit : Option ℕ) (steps : List ClientStep) (client : RustClient)
        → AreClientSteps (new_client limit) steps client
        → AreExchanges Greeting (replies_owed steps) }
    // No command has a reply before it was sent.
    ensures sent_before { (limit : Option ℕ) (before later : List ClientStep) (place : ℕ)
        (reply : ℕ × List Bytes) (client : RustClient)
        → AreClientSteps (new_client limit)
        (before ++ Took (record { to = Command place; reply = reply }) ∷ later) client
        → place < length (lines_sent before) }
    // A reply is to nothing only where the greeting and each command have their final reply.
    ensures unasked { (limit : Option ℕ) (before later : List ClientStep)
        (reply : ℕ × List Bytes) (client : RustClient)
        → AreClientSteps (new_client limit)
        (before ++ Took (record { to = Nothing; reply = reply }) ∷ later) client
        → suc (length (lines_sent before)) ≤ length (filter is_final (replies_owed before)) }
    // The replies are those that a decoder takes of what was received.
    ensures taken { (limit : Option ℕ) (steps : List ClientStep) (client : RustClient)
        → AreClientSteps (new_client limit) steps client
        → AreTakingSteps TakesReply [] (decoder_steps steps) client.replies.bytes }
{}

/// TLS may begin only where the last reply that was taken is a 234 to the last line that was sent,
/// which asks for TLS (RFC 4217, section 4). `tls_agreed` asks for this, and for no pending byte.
pub fn tls_begins_after_234()
    // Where TLS is agreed and no command is owed a reply, the last line that was sent asks for TLS,
    // and the last reply that was taken is a 234 to it.
    ensures { (limit : Option ℕ) (steps : List ClientStep) (client : RustClient)
        → AreClientSteps (new_client limit) steps client
        → IsTrue client.dialogue.agreed → commands_owed client.dialogue ≡ 0
        → EndsInAgreement steps }
{}

/// The same holds for a caller that keeps the bytes itself, and beside them a `Dialogue` to which it
/// adds each line that it sends and the code of each reply that it finds.
pub fn dialogues_are_exchanges()
    // The replies taken that were owed are exchanges: for the greeting, and then for each line in
    // turn.
    ensures exchanges { (steps : List ClientStep) (dialogue : RustDialogue)
        → AreDialogueSteps new_dialogue steps dialogue → AreExchanges Greeting
        (replies_owed steps) }
    // No line has a reply before it was sent.
    ensures sent_before { (before later : List ClientStep) (place : ℕ) (reply : ℕ × List Bytes)
        (dialogue : RustDialogue) → AreDialogueSteps new_dialogue
        (before ++ Took (record { to = Command place; reply = reply }) ∷ later) dialogue
        → place < length (lines_sent before) }
    // A reply is to nothing only where the greeting and each line have their final reply.
    ensures unasked { (before later : List ClientStep) (reply : ℕ × List Bytes)
        (dialogue : RustDialogue) → AreDialogueSteps new_dialogue
        (before ++ Took (record { to = Nothing; reply = reply }) ∷ later) dialogue
        → suc (length (lines_sent before)) ≤ length (filter is_final (replies_owed before)) }
    // Where TLS is agreed and no line is owed a reply, the last line that was sent asks for TLS,
    // and the last reply that was taken is a 234 to it.
    ensures agreed { (steps : List ClientStep) (dialogue : RustDialogue)
        → AreDialogueSteps new_dialogue steps dialogue → IsTrue dialogue.agreed
        → commands_owed dialogue ≡ 0 → EndsInAgreement steps }
{}

/// A proxy forwards lines to a server, passes on the replies that are owed, and ends the session at
/// any other. It answers a line itself only where the server has greeted and owes no
/// reply. All that the client gets is the greeting and one exchange for each line, in order,
/// whoever answers it.
pub fn answers_are_exchanges()
    // What the client is given are exchanges: for the greeting, and then for each line in turn. The
    // last may lack its final reply.
    ensures exchanges { (steps : List ForwardingStep) (dialogue : RustDialogue)
        → AreForwardingSteps new_dialogue steps dialogue
        → AreExchanges Greeting (replies_given 0 0 steps) }
    // Where the server owes no reply, each line has its final one, and the greeting is complete.
    ensures complete { (steps : List ForwardingStep) (dialogue : RustDialogue)
        → AreForwardingSteps new_dialogue steps dialogue
        → IsGreeted dialogue.answered → commands_owed dialogue ≡ 0
        → length (filter is_final (replies_given 0 0 steps))
        ≡ suc (length (filter is_line steps)) }
{}

/// Of all calls that a proxy makes, in whatever order, those that are refused too, and with
/// whatever lines and replies. All that its client gets is the greeting and one exchange for each
/// line that was taken, in order, whoever answers it.
pub fn calls_keep_the_order()
    // What the client is given are exchanges: for the greeting, and then for each line in turn. The
    // last may lack its final reply.
    ensures exchanges { (calls : List OrderCall)
        → AreExchanges Greeting (given_by 0 new_order calls) }
    // Each reply is to the greeting, or to a line that was taken.
    ensures taken { (calls : List OrderCall)
        → AllByRecursion (IsToTaken (lines_taken new_order calls)) (given_by 0 new_order calls) }
    // The final replies that the client was given, and those that it is still owed, are one more
    // than the lines that were taken.
    ensures complete { (calls : List OrderCall)
        → length (filter is_final (given_by 0 new_order calls))
        + finals_owed (after_calls new_order calls) ≡ suc (lines_taken new_order calls) }
{}
