//! Laws of a client and a server with a proxy between them.
ghost use Rattle.std.specs.Prelude.{◌≡◌, ℕ, None, List, [], ◌++◌};
ghost use Rattle.std.specs.List.{concat};
ghost use Rattle.unftp_control_defs.specs.Bytes.{Bytes};
ghost use Rattle.unftp_control_defs.specs.FtpReply.{FtpReply};
ghost use Rattle.unftp_control_defs.specs.ReplyReader.{HasFront};
ghost use Rattle.unftp_control_defs.specs.Run.{all_replies};
ghost use Rattle.unftp_control_defs.specs.TakingSteps.{AreTakingSteps, TakesReply, TakingStep, all_pushed, all_taken};
ghost use Rattle.unftp_control_proxy.specs.ProxyCalls.{ProxyState, new_proxy};
ghost use Rattle.unftp_control_proxy.specs.Traffic.{ChangesNothing, IsTraffic, Traffic, client_lines};
ghost use Rattle.unftp_control_proxy.specs.declared.proxy.Limits.{Limits as RustLimits};
ghost use Rattle.unftp_control_serve.specs.Writing.{Begins};
ghost use Rattle.unftp_control.specs.Acts.{IsUnderstood, Server, turns_to, written_by};
ghost use Rattle.unftp_control.specs.Conversation.{Show, ShowTurns};

use unftp_control_serve::Session;

/// A proxy changes nothing where it sends for each line one that means the same, and gives each
/// reply as it came. Through such a proxy a client understands a server that takes lines of any
/// length as with no proxy between. Whatever the pieces, the replies that it takes are the first
/// ones: that to the greeting, and then those to each of its own lines, in order (RFC 959, sections
/// 4.2 and 5.4). What the proxy took of the server's bytes may be a beginning of them, so it holds
/// at each time.
pub fn conversation_through_a_proxy<H: Session>()
    // Before an understood server without a limit, the replies that a client takes through a proxy
    // that changes nothing are the first, to the greeting and then its own lines.
    ensures so_far { (heard : List H.Heard) (state : H.State) (greeting : FtpReply)
        (limits : RustLimits) (traffic : Traffic) (later : ProxyState)
        (steps : List (TakingStep (ℕ × List Bytes))) (pending more : Bytes)
        → let server : Server H.State =
        record { law = H.law heard; state = state; limit = None; greeting = greeting } in
        IsTraffic (new_proxy limits) traffic later → ChangesNothing traffic
        → Begins (written_by server traffic.to_server) traffic.from_server
        → IsUnderstood (turns_to server (concat (client_lines traffic.lines)))
        → AreTakingSteps TakesReply [] steps pending
        → all_pushed steps ++ more ≡ traffic.to_client
        → (unread : List (ℕ × List Bytes)) × Show (all_taken steps ++ unread)
        (all_replies (turns_to server (concat (client_lines traffic.lines)))) }
    // Once all came and no more can be taken, each line of the client has its own replies, and no
    // byte is pending.
    ensures all { (heard : List H.Heard) (state : H.State) (greeting : FtpReply)
        (limits : RustLimits) (traffic : Traffic) (later : ProxyState)
        (steps : List (TakingStep (ℕ × List Bytes))) (pending : Bytes)
        → let server : Server H.State =
        record { law = H.law heard; state = state; limit = None; greeting = greeting } in
        IsTraffic (new_proxy limits) traffic later → ChangesNothing traffic
        → traffic.from_server ≡ written_by server traffic.to_server → later.server.bytes ≡ []
        → IsUnderstood (turns_to server (concat (client_lines traffic.lines)))
        → AreTakingSteps TakesReply [] steps pending → all_pushed steps ≡ traffic.to_client
        → ¬ HasFront pending
        → ShowTurns (all_taken steps) (turns_to server (concat (client_lines traffic.lines)))
        × (pending ≡ []) }
{}
