//! Examples of what a client and a server understand of each other, worked out by hand.
#![tactic(auto, unfolding(unftp_control_defs::proofs::Computing::at_bytes))]

ghost use Rattle.std.specs.Prelude.{◌≡◌, ◌≢◌, ◌∷◌, ◌++◌, [], None, Some, codes, false};
ghost use Rattle.std.specs.List.{concat};
ghost use Rattle.unftp_control_defs.specs.Events.{events};
ghost use Rattle.unftp_control_defs.specs.FtpCommand.{Noop, Retr};
ghost use Rattle.unftp_control_defs.specs.FtpReply.{CodeAndMsg, MultiLine, Nothing, IsReadable};
ghost use Rattle.unftp_control_defs.specs.ReplyReader.{HasFront};
ghost use Rattle.unftp_control_defs.specs.Run.{text_for};
ghost use Rattle.unftp_control_defs.specs.TakingSteps.{AreTakingSteps, TakesReply, all_pushed};
ghost use Rattle.unftp_control_proxy.specs.ProxyCalls.{new_proxy};
ghost use Rattle.unftp_control_proxy.specs.Traffic.{ChangesNothing, IsTraffic, client_lines};
ghost use Rattle.unftp_control_proxy.specs.declared.proxy.Limits.{Limits as RustLimits};
ghost use Rattle.unftp_control_client.specs.Steps.{Received, SentLine};
ghost use Rattle.unftp_control_client.specs.declared.Client.{Client as RustClient};
ghost use Rattle.unftp_control_client.specs.declared.dialogue.To.TheVariants.{Command, Greeting};
ghost use Rattle.unftp_control.specs.Acts.{AreFirst, AtClient, AtServer, InOrder, IsConversation, IsUnderstood, came_to_client, exchanges, sent_by_client, turns_to, written_by};
ghost use Rattle.unftp_control.specs.ClientRuns.{after_noop, client_with, dialogue, farewell_server, noop, noop_traffic, replies_in_pieces, reply_with, talk};
ghost use Rattle.unftp_control.specs.Snapshots.{farewell};
ghost use Rattle.unftp_control.specs.Conversation.{CanBeSent, KeepsMeaning, Show, ShowTurns, forwarded_of, rewritten};

/// Commands that a client can send.
pub fn commands_are_sent_so()
    ensures at_the_limit { CanBeSent (Some 6) Noop }
    ensures over_the_limit { ¬ CanBeSent (Some 5) Noop }
    ensures no_line { ¬ CanBeSent None (Retr []) }
{}

/// What is read of replies, each at its place.
pub fn replies_are_shown_so()
    ensures readable { IsReadable (CodeAndMsg 200 (codes "OK")) }
    ensures nothing { ¬ IsReadable Nothing }
    ensures two { Show ((220, codes "a" ∷ []) ∷ (211, codes " 1" ∷ codes "b" ∷ []) ∷ [])
        (CodeAndMsg 220 (codes "a") ∷ MultiLine 211 (codes "1" ∷ codes "b" ∷ []) ∷ []) }
    ensures one_is_missing { ¬ Show ((200, [] ∷ []) ∷ [])
        (CodeAndMsg 200 [] ∷ CodeAndMsg 221 [] ∷ []) }
    ensures by_turns { ShowTurns ((150, [] ∷ []) ∷ (226, [] ∷ []) ∷ (200, [] ∷ []) ∷ [])
        ((CodeAndMsg 150 [] ∷ CodeAndMsg 226 [] ∷ []) ∷ (CodeAndMsg 200 [] ∷ []) ∷ []) }
    ensures cut_too_late { ¬ ShowTurns ((226, [] ∷ []) ∷ (200, [] ∷ []) ∷ [])
        ((CodeAndMsg 226 [] ∷ CodeAndMsg 200 [] ∷ []) ∷ []) }
{}

/// What a server says: its greeting, and its replies to each line, up to QUIT.
pub fn acts_are_so()
    ensures said { turns_to farewell_server (codes "NOOP\r\nQUIT\r\nNOOP\r\n")
        ≡ (CodeAndMsg 220 [] ∷ []) ∷ (CodeAndMsg 200 [] ∷ []) ∷ (CodeAndMsg 221 [] ∷ []) ∷ [] }
{}

/// No byte comes before it was sent, at either end.
pub fn acts_are_in_order()
    ensures all { InOrder farewell_server talk }
    ensures not_sent { ¬ InOrder farewell_server (AtServer (codes "N") ∷ []) }
    ensures not_said { ¬ InOrder farewell_server (AtClient (Received (codes "220\r\n2")) ∷ []) }
    ensures conversation { IsConversation farewell_server None
        (AtClient (SentLine noop) ∷ AtServer (codes "NO") ∷ []) (client_with (dialogue 1 None) []) }
    ensures came_first { (client : RustClient) → ¬ IsConversation farewell_server None
        (AtServer (codes "NO") ∷ AtClient (SentLine noop) ∷ []) client }
{}

/// NOOP is sent, and the client takes the greeting and the reply: it is what `any_order` asks for,
/// up to its end.
pub fn a_conversation_goes_so()
    ensures whole { IsConversation farewell_server None talk (client_with (dialogue 1 (Some 1)) []) }
    ensures understood { IsUnderstood (turns_to farewell_server (sent_by_client talk)) }
    ensures all_came { came_to_client talk ≡ written_by farewell_server (sent_by_client talk) }
    ensures nothing_left { ¬ HasFront (client_with (dialogue 1 (Some 1)) []).replies.bytes }
{}

/// The same through a proxy: it is what `conversation_through_a_proxy` asks for, up to its end, and
/// what `served_as_without_a_proxy` does.
pub fn a_conversation_passes_so()
    ensures traffic { (limits : RustLimits)
        → IsTraffic (new_proxy limits) noop_traffic (after_noop limits) }
    ensures unchanged { ChangesNothing noop_traffic }
    ensures all_came { noop_traffic.from_server
        ≡ written_by farewell_server noop_traffic.to_server }
    ensures served { noop_traffic.from_server
        ≡ codes "220\r\n" ++ text_for None farewell false noop_traffic.to_server }
    ensures nothing_kept { (limits : RustLimits) → (after_noop limits).server.bytes ≡ [] }
    ensures understood { IsUnderstood
        (turns_to farewell_server (concat (client_lines noop_traffic.lines))) }
    ensures taken { AreTakingSteps TakesReply [] replies_in_pieces [] }
    ensures pushed { all_pushed replies_in_pieces ≡ noop_traffic.to_client }
    ensures nothing_left { ¬ HasFront [] }
{}

/// Turns that a client understands, and what each of their replies is to.
pub fn replies_are_exchanged_so()
    ensures understood { IsUnderstood ((CodeAndMsg 220 [] ∷ [])
        ∷ (CodeAndMsg 150 [] ∷ CodeAndMsg 226 [] ∷ []) ∷ []) }
    ensures no_final { ¬ IsUnderstood ((CodeAndMsg 150 [] ∷ []) ∷ []) }
    ensures three { exchanges Greeting ((CodeAndMsg 220 [] ∷ [])
        ∷ (CodeAndMsg 150 [] ∷ CodeAndMsg 226 [] ∷ []) ∷ (CodeAndMsg 221 [] ∷ []) ∷ [])
        ≡ Some (reply_with 220 Greeting) ∷ Some (reply_with 150 (Command 0))
        ∷ Some (reply_with 226 (Command 0)) ∷ Some (reply_with 221 (Command 1)) ∷ [] }
    ensures first { AreFirst (reply_with 220 Greeting ∷ [])
        (exchanges Greeting ((CodeAndMsg 220 [] ∷ []) ∷ (CodeAndMsg 200 [] ∷ []) ∷ [])) }
    ensures another_place { ¬ AreFirst (reply_with 220 (Command 0) ∷ [])
        (exchanges Greeting ((CodeAndMsg 220 [] ∷ []) ∷ (CodeAndMsg 200 [] ∷ []) ∷ [])) }
{}

/// Lines that are rewritten, and a line that doesn't keep its meaning.
pub fn lines_are_rewritten_so()
    ensures forwarded { rewritten forwarded_of (codes "noop \ntype a\nNOOP x\nQU")
        ≡ codes "NOOP\r\nTYPE a\r\nNOOP x\nQU" }
    ensures same { KeepsMeaning (λ line. line) }
    ensures no_line_of_two { ¬ KeepsMeaning (λ line. line ++ line) }
    // the forwarded line has eight bytes
    ensures over_the_limit { events (Some 7) (rewritten forwarded_of (codes "type a\n"))
        ≢ events (Some 7) (codes "type a\n") }
{}
