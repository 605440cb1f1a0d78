//! What passes a proxy in each of its calls.
ghost use Rattle.std.specs.Prelude.{◌≡◌, ◌≢◌, ◌++◌, ℕ, Bool, [], Ok, drop, length, true};
ghost use Rattle.unftp_control_defs.specs.Bytes.{Bytes};
ghost use Rattle.unftp_control_defs.specs.Forwarded.{forwarded_line};
ghost use Rattle.unftp_control_defs.specs.FtpCommand.{FtpCommand};
ghost use Rattle.unftp_control_defs.specs.FtpReply.{FtpReply};
ghost use Rattle.unftp_control_defs.specs.Lines.{IsLine};
ghost use Rattle.unftp_control_defs.specs.Outcome.{outcome};
ghost use Rattle.unftp_control_read.specs.ReplyDecoding.{pushed as pushed_reply};
ghost use Rattle.unftp_control_write.specs.Forwarding.{IsForwarded};
ghost use Rattle.unftp_control_client.specs.Dialogue.{next_to};
ghost use Rattle.unftp_control_proxy.specs.ProxyAnswers.{is_answer};
ghost use Rattle.unftp_control_serve.specs.ClientLines.{front_line};
ghost use Rattle.unftp_control_serve.specs.Decoder.{line_in, pushed};
ghost use Rattle.unftp_control_proxy.specs.ProxyCalls.{AnsweredBy, GivesAnswer, IsDecidable, IsScannedFor, PassesReply, ProxyState, ReplyBytes, SentAs, after_fate, with_settled};
ghost use Rattle.unftp_control_proxy.specs.Traffic.{IsTraffic, client_piece, no_traffic, one_answer, one_line, one_reply, server_piece};

/// What the contract of each call ensures says what passes in it; so with `traffic_is_joined` the
/// laws of traffic are laws of all calls, in whatever order they are made.
pub fn calls_are_traffic()
    // A call of `from_client` that succeeds is traffic of its piece.
    ensures from_client { (before later : ProxyState) (piece : Bytes)
        → later ≡ record before { client = pushed before.client piece }
        → IsTraffic before (client_piece piece) later }
    // A call of `from_server` that succeeds is traffic of its piece.
    ensures from_server { (before later : ProxyState) (piece : Bytes)
        → later ≡ record before { server = pushed_reply before.server piece }
        → IsTraffic before (server_piece piece) later }
    // In a call of `next_line` nothing passes.
    ensures next_line { (before later : ProxyState) → IsScannedFor before later
        → IsTraffic before no_traffic later }
    // In a call of `next_reply` that returns `None` nothing passes.
    ensures none_given { (before later : ProxyState) → later ≡ with_settled before
        → IsTraffic before no_traffic later }
    // A call of `next_reply` that gives an answer is traffic of this answer.
    ensures answered { (before later : ProxyState) (reply : FtpReply)
        → GivesAnswer before reply later → IsTraffic before (one_answer reply) later }
    // A call of `next_reply` or `replace_reply` that gives a reply is traffic of the one that came
    // and the one that was given.
    ensures reply { (before later : ProxyState) (came given : ReplyBytes)
        → PassesReply before came given later
        → IsTraffic before (one_reply
        (record { to = next_to before.dialogue; came = came; given = given })) later }
{}

/// So is a line that is decided. What is forwarded means what the client's line means; another one
/// is sent as it is, or in place of the client's; or the line is answered.
pub fn lines_are_traffic()
    // A call of `forward` that succeeds is traffic of the client's line and the forwarded line,
    // which is appended and means the same command.
    ensures forward { (before later : ProxyState) (sent sent_later : Bytes)
        → IsDecidable before → line_in before.client ≢ []
        → IsForwarded (line_in before.client) sent sent_later
        → later ≡ after_fate before (SentAs (drop (length sent) sent_later))
        → (command : FtpCommand) × (outcome (front_line before.client.bytes) ≡ Ok command)
        × (sent_later ≡ sent ++ forwarded_line (front_line before.client.bytes) command)
        × (outcome (forwarded_line (front_line before.client.bytes) command)
        ≡ outcome (front_line before.client.bytes))
        × IsTraffic before (one_line (front_line before.client.bytes)
        (SentAs (forwarded_line (front_line before.client.bytes) command))) later }
    // A call that sends one line for the client's is traffic of both.
    ensures send { (before later : ProxyState) (sent : Bytes) → IsDecidable before → IsLine sent
        → later ≡ after_fate before (SentAs sent)
        → IsTraffic before (one_line (front_line before.client.bytes) (SentAs sent)) later }
    // Where the line that was found is one line, it is the client's first line.
    ensures as_it_is { (proxy : ProxyState) → IsDecidable proxy → IsLine (line_in proxy.client)
        → line_in proxy.client ≡ front_line proxy.client.bytes }
    // A call of `answer` that succeeds is traffic of the client's line and its answer.
    ensures answer { (before later : ProxyState) (reply : FtpReply) → IsDecidable before
        → is_answer reply ≡ true → later ≡ after_fate before (AnsweredBy reply)
        → IsTraffic before (one_line (front_line before.client.bytes) (AnsweredBy reply)) later }
{}
