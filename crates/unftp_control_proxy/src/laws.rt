//! What holds of all that passes a proxy, each the contract of a function that does nothing.
ghost use Rattle.std.specs.Prelude.{◌≡◌, ◌<◌, ◌≤◌, ◌++◌, suc, None, length, max};
ghost use Rattle.std.specs.List.{AllByRecursion, concat, filter};
ghost use Rattle.unftp_control_defs.specs.Bytes.{Bytes};
ghost use Rattle.unftp_control_defs.specs.Events.{events};
ghost use Rattle.unftp_control_defs.specs.Lines.{lines_of};
ghost use Rattle.unftp_control_defs.specs.Run.{as_session, text_for};
ghost use Rattle.unftp_control_client.specs.ForwardingSteps.{IsGreeted};
ghost use Rattle.unftp_control_client.specs.Dialogue.{commands_owed};
ghost use Rattle.unftp_control_client.specs.Steps.{AreExchanges, is_final};
ghost use Rattle.unftp_control_client.specs.declared.dialogue.To.TheVariants.{Greeting};
ghost use Rattle.unftp_control_proxy.specs.ProxyCalls.{ProxyState, new_proxy, server_owes};
ghost use Rattle.unftp_control_proxy.specs.Traffic.{ChangesNothing, IsDecidedLine, IsPassedReply, IsTraffic, Traffic, bytes_that_came, client_lines, client_replies, fates_in, fates_of, given_in, held_fate, joined_traffic, no_traffic, passed_in, all_sent};
ghost use Rattle.unftp_control_proxy.specs.declared.proxy.Limits.{Limits as RustLimits};

use unftp_control_serve::Handler;

/// Whatever comes from both sides, in whatever pieces, and in whatever order the calls are made,
/// the client is given the greeting and one exchange for each of its lines, in order. This is some
/// preliminary replies of the server and its final one, or the proxy's own answer (RFC 959,
/// sections 4.2 and 5.4). No reply is given that is not owed.
pub fn one_exchange_for_each_line()
    // The client is given the greeting and one exchange for each of its lines, in order. The last
    // exchange may lack its final reply.
    ensures exchanges { (limits : RustLimits) (traffic : Traffic) (later : ProxyState)
        → IsTraffic (new_proxy limits) traffic later
        → AreExchanges Greeting (client_replies traffic.steps) }
    // The client is given the bytes of these replies, and no other byte.
    ensures given { (limits : RustLimits) (traffic : Traffic) (later : ProxyState)
        → IsTraffic (new_proxy limits) traffic later → traffic.to_client ≡ given_in traffic.steps }
    // Each decided line has, in turn, its own fate: the line that was sent for it, or the proxy's
    // answer. Only an answer that is held is not given yet.
    ensures fates { (limits : RustLimits) (traffic : Traffic) (later : ProxyState)
        → IsTraffic (new_proxy limits) traffic later
        → fates_of traffic.lines ≡ fates_in traffic.steps ++ held_fate later.answer }
    // Where the greeting is complete, the server owes no reply and no answer is held, each decided
    // line has its final reply.
    ensures complete { (limits : RustLimits) (traffic : Traffic) (later : ProxyState)
        → IsTraffic (new_proxy limits) traffic later → IsGreeted later.dialogue.answered
        → commands_owed later.dialogue ≡ 0 → later.answer ≡ None
        → length (filter is_final (client_replies traffic.steps)) ≡ suc (length traffic.lines) }
    // The server owes at most `waiting` final replies, the greeting counted, or one where `waiting`
    // is 0.
    ensures bounded { (limits : RustLimits) (traffic : Traffic) (later : ProxyState)
        → IsTraffic (new_proxy limits) traffic later
        → server_owes later.dialogue ≤ max 1 limits.waiting }
{}

/// The lines that were decided are the first ones of what the client sent, each sent as one line or
/// answered by one final reply. The replies, each whole, are those of what the server sent. Another
/// that is given in place of one has its code.
pub fn all_that_came_is_passed()
    // The decided lines are the first lines of what the client sent, each sent as one line or
    // answered by one final reply. The bytes after them are pending.
    ensures lines { (limits : RustLimits) (traffic : Traffic) (later : ProxyState)
        → IsTraffic (new_proxy limits) traffic later → AllByRecursion IsDecidedLine traffic.lines
        × (traffic.from_client ≡ concat (client_lines traffic.lines) ++ later.client.bytes) }
    // The replies that came, each whole, are the first of what the server sent, and each is given
    // as one of its code. The bytes after them are pending.
    ensures replies { (limits : RustLimits) (traffic : Traffic) (later : ProxyState)
        → IsTraffic (new_proxy limits) traffic later
        → AllByRecursion IsPassedReply (passed_in traffic.steps)
        × (traffic.from_server ≡ bytes_that_came (passed_in traffic.steps) ++ later.server.bytes) }
{}

/// The server is sent the lines that were decided for it, and reads these lines and no other one,
/// whatever they hold. So no byte of a line that was answered, and no second line within one, comes
/// to it as a command.
pub fn nothing_else_is_sent()
    // Cut after each line feed, what the server is sent is exactly the lines that were decided for
    // it.
    ensures { (before later : ProxyState) (traffic : Traffic) → IsTraffic before traffic later
        → lines_of traffic.to_server ≡ all_sent traffic.lines }
{}

/// A proxy that sends for each line one that means the same, and gives each reply as it came,
/// changes nothing. The client is given the server's bytes, but for the last ones, which the proxy
/// still has, and the server has the events of the client's lines.
pub fn forwarding_all_changes_nothing()
    // Where nothing is changed, the client is given the server's bytes, but for the last ones,
    // which the proxy still has.
    ensures given { (limits : RustLimits) (traffic : Traffic) (later : ProxyState)
        → IsTraffic (new_proxy limits) traffic later → ChangesNothing traffic
        → traffic.to_client ++ later.server.bytes ≡ traffic.from_server }
    // Where nothing is changed, a server without a limit has the events of the client's decided
    // lines.
    ensures same_events { (before later : ProxyState) (traffic : Traffic)
        → IsTraffic before traffic later → ChangesNothing traffic
        → events None traffic.to_server ≡ events None (concat (client_lines traffic.lines)) }
    // Where two parts of the traffic change nothing, both together change nothing.
    ensures in_turn { (first second : Traffic) → ChangesNothing first → ChangesNothing second
        → ChangesNothing (joined_traffic first second) }
{}

/// Of such a proxy before a server that answers each line by a handler, after a greeting. The
/// client is given what that server would write for its lines with no proxy between, but for what
/// the proxy still has.
pub fn served_as_without_a_proxy<H: Handler>()
    // Where nothing is changed and the server greets and answers by a handler, the client is given
    // what that server would write to the decided lines, but for what the proxy still has.
    ensures { (limits : RustLimits) (traffic : Traffic) (later : ProxyState) (s : H.State)
        (greeting : Bytes)
        → IsTraffic (new_proxy limits) traffic later → ChangesNothing traffic
        → traffic.from_server ≡ greeting ++ text_for None (as_session H.law) s traffic.to_server
        → traffic.to_client ++ later.server.bytes ≡ greeting
        ++ text_for None (as_session H.law) s (concat (client_lines traffic.lines)) }
{}

/// Nothing passes where no call is made, and what passes in one call after the other passes in all.
pub fn traffic_is_joined()
    // Where no call is made, nothing passes.
    ensures nothing { (proxy : ProxyState) → IsTraffic proxy no_traffic proxy }
    // What passes in one call and then in another passes in both.
    ensures joined { (before middle later : ProxyState) (first second : Traffic)
        → IsTraffic before first middle → IsTraffic middle second later
        → IsTraffic before (joined_traffic first second) later }
{}
