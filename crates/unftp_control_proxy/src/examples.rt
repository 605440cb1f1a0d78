//! Examples of the definitions, at the boundary and next to it.
#![tactic(auto, unfolding(unftp_control_defs::proofs::Computing::at_bytes))]

ghost use Rattle.std.specs.Global.{Vec};
ghost use Rattle.std.specs.Prelude.{◌≡◌, ◌∷◌, ◌++◌, ◌+◌, ◌-◌, ◌^◌, ◌<◌, ℕ, [], Some, None, codes, false, true, vec_capacity, vec_len};
ghost use Rattle.unftp_control_defs.specs.Bytes.{Bytes};
ghost use Rattle.unftp_control_defs.specs.FtpReply.{CodeAndMsg, MultiLine, Nothing, encoded};
ghost use Rattle.unftp_control_defs.specs.Lines.{lines_of};
ghost use Rattle.unftp_control_message.specs.declared.reply.error.parse_error.ParseErrorKind.{ParseErrorKind};
ghost use Rattle.unftp_control_message.specs.declared.reply.error.parse_error.ParseErrorKind.TheVariants.{InvalidCommand};
ghost use Rattle.unftp_control_read.specs.ReplyDecoding.{PendingReplies, pending_replies};
ghost use Rattle.unftp_control_read.specs.declared.errors.NextReplyError.TheVariants as NextReplyError;
ghost use Rattle.unftp_control_write.specs.ClearLines.{is_clear};
ghost use Rattle.unftp_control_client.specs.Dialogue.{after_command, after_reply, new_dialogue, awaits_tls, owes_reply};
ghost use Rattle.unftp_control_client.specs.declared.dialogue.To.TheVariants.{Command, Greeting};
ghost use Rattle.unftp_control_proxy.specs.ProxyAnswers.{IsFinalReply, is_answer, is_final_reply, long_reply, refused_reply};
ghost use Rattle.unftp_control_serve.specs.ClientLines.{after_front_line, first_client_line, front_line, unless_too_long};
ghost use Rattle.unftp_control_serve.specs.Decoder.{found_as, line_in, no_bytes, pushed, without_line};
ghost use Rattle.unftp_control_serve.specs.declared.decoder.ClientLine.TheVariants as ClientLine;
ghost use Rattle.unftp_control_proxy.specs.ProxyCalls.{AnsweredBy, BeginsTls, GivesNext, GivesOther, IsAnswerError, IsAppendedError, IsCheckError, IsDecidable, IsForwardingError, IsGiven, IsNextError, IsReplaceError, IsSendError, IsUnclearError, IsUnsent, MayBeSent, ProxyState, ReplyBytes, SentAs, is_due, new_proxy, server_owes, waits, with_settled};
ghost use Rattle.unftp_control_proxy.specs.Traffic.{ChangesNothing, GivesOwn, GivesReply, SendsLine, client_replies, fates_in, given_in, one_line, one_reply};
ghost use Rattle.unftp_control_proxy.specs.declared.errors.ReplaceError.TheVariants as ReplaceError;
ghost use Rattle.unftp_control_proxy.specs.declared.errors.SendError.TheVariants as SendError;
ghost use Rattle.unftp_control_proxy.specs.declared.proxy.Limits.{Limits as RustLimits};
ghost use Rattle.unftp_control_proxy.specs.declared.proxy.NextReply.TheVariants.{Answered, Passed, Unasked};

/// Lines that are clear, and others.
pub fn lines_are_clear()
    ensures clear { is_clear (codes "SITE CHMOD 777 a\r\n") ≡ true }
    ensures tab_in_a_path { is_clear (codes "RETR a\tb\r\n") ≡ true }
    ensures bare_cr { is_clear (codes "TYPE A\rSITE x\r\n") ≡ false }
    ensures cr_after_verb { is_clear (codes "NOOP\rSITE x\r\n") ≡ false }
    ensures cr_nul { is_clear (codes "RETR a\r\0b\r\n") ≡ false }
    ensures telnet { is_clear (codes "CWD " ++ 255 ∷ 244 ∷ codes "b\r\n") ≡ false }
    ensures tab { is_clear (codes "SITE\tx\r\n") ≡ false }
    ensures underscore { is_clear (codes "FOO_BAR x\r\n") ≡ false }
    ensures lf_alone { is_clear (codes "SITE x\n") ≡ false }
    ensures no_verb { is_clear (codes " SITE x\r\n") ≡ false }
    ensures empty { is_clear (codes "\r\n") ≡ false }
{}

/// When no line is taken: the greeting is owed, as many replies as may be, an answer is held, or
/// AUTH TLS has no reply.
pub fn proxies_wait()
    ensures greeting { server_owes new_dialogue ≡ 1 }
    ensures full { (proxy : ProxyState) → proxy.limits.waiting ≡ 1 → proxy.dialogue ≡ new_dialogue
        → waits proxy ≡ true }
    ensures goes_on { (limits : RustLimits)
        → waits (new_proxy (record limits { waiting = 2 })) ≡ false }
    ensures answered { (limits : RustLimits)
        → waits (record (new_proxy (record limits { waiting = 2 })) {
          answer = Some refused_reply;
        }) ≡ true }
    ensures asks { awaits_tls (after_command (codes "AUTH TLS\r\n") new_dialogue) ≡ true }
    ensures greeted { awaits_tls (after_reply
        (after_command (codes "AUTH TLS\r\n") new_dialogue) 220) ≡ true }
    ensures replied { awaits_tls (after_reply (after_reply
        (after_command (codes "AUTH TLS\r\n") new_dialogue) 220) 502) ≡ false }
    ensures asks_nothing { awaits_tls (after_command (codes "NOOP\r\n") new_dialogue) ≡ false }
{}

/// An answer is due once no reply is owed, the greeting among them; and it is given then.
pub fn answers_wait()
    ensures not_greeted { (limits : RustLimits)
        → is_due (record (new_proxy limits) { answer = Some refused_reply }) ≡ false }
    ensures greeted { (limits : RustLimits) → is_due (record (new_proxy limits) {
      answer = Some refused_reply;
      dialogue = after_reply new_dialogue 220;
    }) ≡ true }
    ensures preliminary { owes_reply (after_reply new_dialogue 120) ≡ true }
    ensures none { (limits : RustLimits)
        → is_due (record (new_proxy limits) { dialogue = after_reply new_dialogue 220 }) ≡ false }
    ensures in_order { client_replies (SendsLine (codes "NOOP\r\n")
        ∷ GivesReply (record {
          to = Command 0;
          came = record { code = 200; lines = codes "a" ∷ []; bytes = codes "200 a\r\n" };
          given = record { code = 200; lines = codes "a" ∷ []; bytes = codes "200 a\r\n" };
        }) ∷ GivesOwn (CodeAndMsg 502 (codes "No")) ∷ [])
        ≡ record { to = Command 0; reply = (200, codes "a" ∷ []) }
        ∷ record { to = Command 1; reply = (502, codes "No" ∷ []) } ∷ [] }
    ensures fates { fates_in (SendsLine (codes "NOOP\r\n") ∷ GivesOwn refused_reply ∷ [])
        ≡ SentAs (codes "NOOP\r\n") ∷ AnsweredBy refused_reply ∷ [] }
    ensures given { given_in (SendsLine (codes "NOOP\r\n") ∷ GivesOwn refused_reply ∷ [])
        ≡ codes "500 Not understood\r\n" }
{}

/// Replies after which another to the same line follows, or none.
pub fn replies_are_final()
    ensures yes { is_final_reply (CodeAndMsg 200 (codes "OK")) ≡ true }
    ensures no { is_final_reply (CodeAndMsg 199 (codes "OK")) ≡ false }
    ensures none { is_final_reply Nothing ≡ false }
{}

/// A line is answered with one reply: no text has a line feed.
pub fn answers_are_single()
    ensures lines { is_answer (MultiLine 200 (codes "a" ∷ codes "b" ∷ [])) ≡ true }
    ensures two_replies { is_answer (CodeAndMsg 200 (codes "a\r\n200 b")) ≡ false }
    ensures no_code { is_answer (CodeAndMsg 0 (codes "a")) ≡ false }
    ensures refused { encoded refused_reply ≡ codes "500 Not understood\r\n" }
    ensures too_long { encoded long_reply ≡ codes "500 Line too long\r\n" }
    ensures single { IsFinalReply (codes "502 No\r\n") }
    ensures preliminary { ¬ IsFinalReply (codes "150 a\r\n") }
    ensures two { ¬ IsFinalReply (codes "200 a\r\n200 b\r\n") }
{}

/// Lines that may be sent, and why others are not.
pub fn lines_may_be_sent()
    ensures sent { MayBeSent 6 (codes "NOOP\r\n") }
    ensures long { ¬ MayBeSent 5 (codes "NOOP\r\n") }
    ensures unclear { ¬ MayBeSent 6 (codes "NO\rP\r\n") }
    ensures too_long { IsUnsent 5 (codes "NOOP\r\n") SendError.TooLong }
    ensures not_too_long { ¬ IsUnsent 6 (codes "NOOP\r\n") SendError.TooLong }
    ensures unclear_first { ¬ IsUnsent 5 (codes "NO\rP\r\n") SendError.TooLong }
    ensures no_line_first { ¬ IsUnsent 6 (codes "NOOP") SendError.Unclear }
{}

/// Why a line is not decided, or a reply not replaced.
pub fn errors_have_reasons()
    ensures decidable { (proxy : ProxyState) (out : Vec ℕ) → IsDecidable proxy
        → ¬ IsForwardingError proxy (codes "NOOP\r\n") out SendError.NoLine }
    ensures refused { (proxy : ProxyState) (out : Vec ℕ) → IsDecidable proxy
        → IsForwardingError proxy (codes "NOOP x\r\n") out (SendError.Refused InvalidCommand) }
    ensures command { (proxy : ProxyState) (out : Vec ℕ) (kind : ParseErrorKind)
        → ¬ IsForwardingError proxy (codes "NOOP\r\n") out (SendError.Refused kind) }
    ensures refused_first { (proxy : ProxyState) (out : Vec ℕ)
        → ¬ IsForwardingError proxy (codes "NOOP x\r\n") out SendError.OutOfMemory }
    ensures owed { (proxy : ProxyState) (out : Vec ℕ) → proxy.dialogue ≡ new_dialogue
        → ¬ IsReplaceError proxy [] out ReplaceError.NotOwed }
    ensures short { (proxy : ProxyState) (out : Vec ℕ) → proxy.limits.sent ≡ 6
        → ¬ IsUnclearError proxy (codes "NOOP\r\n") out SendError.TooLong }
{}

/// Why a line is not sent: here six bytes, which may be sent where it is decidable.
pub fn sending_fails()
    ensures waiting { (proxy : ProxyState) → waits proxy ≡ true
        → IsCheckError proxy (codes "NOOP\r\n") SendError.NoLine }
    ensures decidable { (proxy : ProxyState) → IsDecidable proxy
        → ¬ IsCheckError proxy (codes "NOOP\r\n") SendError.NoLine }
    ensures full { (proxy : ProxyState) → IsDecidable proxy → proxy.limits.sent ≡ 6
        → proxy.dialogue.sent ≡ 2 ^ 64 - 1
        → IsAppendedError proxy (codes "NOOP\r\n") SendError.TooManyCommands }
    ensures one_left { (proxy : ProxyState) → proxy.dialogue.sent ≡ 2 ^ 64 - 2
        → ¬ IsAppendedError proxy (codes "NOOP\r\n") SendError.TooManyCommands }
    ensures no_room { (proxy : ProxyState) (out : Vec ℕ) → IsDecidable proxy
        → proxy.limits.sent ≡ 6 → vec_len out ≡ 3 → vec_capacity out ≡ 8
        → IsSendError proxy (codes "NOOP\r\n") out SendError.OutOfMemory }
    ensures room { (proxy : ProxyState) (out : Vec ℕ) → vec_len out ≡ 2 → vec_capacity out ≡ 8
        → ¬ IsSendError proxy (codes "NOOP\r\n") out SendError.OutOfMemory }
    ensures no_room_unclear { (proxy : ProxyState) (out : Vec ℕ) → IsDecidable proxy
        → proxy.limits.sent ≡ 6 → vec_len out ≡ 3 → vec_capacity out ≡ 8
        → IsUnclearError proxy (codes "NOOP\r\n") out SendError.OutOfMemory }
    ensures room_unclear { (proxy : ProxyState) (out : Vec ℕ) → vec_len out ≡ 2
        → vec_capacity out ≡ 8
        → ¬ IsUnclearError proxy (codes "NOOP\r\n") out SendError.OutOfMemory }
    ensures never_unclear { (proxy : ProxyState) (out : Vec ℕ)
        → ¬ IsUnclearError proxy (codes "NO\rP\r\n") out SendError.Unclear }
{}

/// Why a line is not answered with a reply: it is not final, and else not plain.
pub fn answering_fails()
    ensures not_final { (proxy : ProxyState) → IsDecidable proxy
        → IsAnswerError proxy (CodeAndMsg 150 (codes "a")) SendError.NotFinal }
    ensures is_final { (proxy : ProxyState)
        → ¬ IsAnswerError proxy (CodeAndMsg 200 (codes "a\nb")) SendError.NotFinal }
    ensures not_plain { (proxy : ProxyState) → IsDecidable proxy
        → IsAnswerError proxy (CodeAndMsg 200 (codes "a\nb")) SendError.NotPlain }
    ensures not_final_first { (proxy : ProxyState)
        → ¬ IsAnswerError proxy (CodeAndMsg 150 (codes "a\nb")) SendError.NotPlain }
    ensures no_memory { (proxy : ProxyState)
        → ¬ IsAnswerError proxy (CodeAndMsg 200 (codes "a")) SendError.OutOfMemory }
{}

/// Why a reply is not replaced, or none is given: here the greeting is owed.
pub fn replacing_fails()
    ensures part { (proxy : ProxyState) (out : Vec ℕ) → proxy.server.limit ≡ None
        → proxy.server.bytes ≡ codes "220 a\r" → IsReplaceError proxy [] out ReplaceError.NoReply }
    ensures whole { (proxy : ProxyState) (out : Vec ℕ) → proxy.server.limit ≡ None
        → proxy.server.bytes ≡ codes "220 a\r\n"
        → ¬ IsReplaceError proxy [] out ReplaceError.NoReply }
    ensures other_code { (proxy : ProxyState) (out : Vec ℕ) → proxy.dialogue ≡ new_dialogue
        → proxy.server.limit ≡ None → proxy.server.bytes ≡ codes "220 a\r\n"
        → IsReplaceError proxy (codes "120 b\r\n") out ReplaceError.AnotherReply }
    ensures same_code { (proxy : ProxyState) (out : Vec ℕ)
        → proxy.server.bytes ≡ codes "220 a\r\n"
        → ¬ IsReplaceError proxy (codes "220 b\r\n") out ReplaceError.AnotherReply }
    ensures room { (proxy : ProxyState) (out : Vec ℕ) → vec_len out ≡ 1 → vec_capacity out ≡ 8
        → ¬ IsReplaceError proxy (codes "220 b\r\n") out ReplaceError.OutOfMemory }
    ensures malformed { (proxy : ProxyState) (out : Vec ℕ) → is_due proxy ≡ false
        → proxy.server.limit ≡ Some 6 → proxy.server.bytes ≡ codes "21 a\r\n"
        → IsNextError proxy out NextReplyError.Malformed }
    ensures due { (proxy : ProxyState) (out : Vec ℕ) → is_due proxy ≡ true
        → ¬ IsNextError proxy out NextReplyError.Malformed }
{}

/// What `next_reply` and `replace_reply` give: a whole reply, or another of its code.
pub fn replies_are_given()
    ensures passed { (limits : RustLimits) → let before : ProxyState =
        record (new_proxy limits) { server = pending_replies None (codes "220 a\r\n2") 8 8 } in
        GivesNext before (Some (Passed 220)) [] (codes "220 a\r\n") (record before {
          server = pending_replies None (codes "2") 8 8;
          dialogue = after_reply new_dialogue 220;
        }) }
    ensures dropped { (before later : ProxyState)
        → ¬ GivesNext before (Some (Passed 200)) [] [] later }
    ensures owed { (limits : RustLimits) (out : Bytes) (later : ProxyState)
        → ¬ GivesNext (new_proxy limits) (Some (Unasked 421)) [] out later }
    ensures too_early { (limits : RustLimits) (out : Bytes) (later : ProxyState)
        → ¬ GivesNext (record (new_proxy limits) { answer = Some refused_reply })
        (Some Answered) [] out later }
    ensures other { (limits : RustLimits) → let before : ProxyState =
        record (new_proxy limits) { server = pending_replies None (codes "220 a\r\n") 7 7 } in
        GivesOther before (codes "220 b\r\n") [] (codes "220 b\r\n") (record before {
          server = pending_replies None [] 7 7;
          dialogue = after_reply new_dialogue 220;
        }) }
    ensures other_code { (limits : RustLimits) (later : ProxyState) → let before : ProxyState =
        record (new_proxy limits) { server = pending_replies None (codes "220 a\r\n") 7 7 } in
        ¬ GivesOther before (codes "120 b\r\n") [] (codes "120 b\r\n") later }
{}

/// A line that means the same changes nothing, and so does a reply as it came.
pub fn traffic_changes_nothing()
    ensures same { ChangesNothing (one_line (codes "noop\n") (SentAs (codes "NOOP\r\n"))) }
    ensures another { ¬ ChangesNothing (one_line (codes "NOOP\r\n") (SentAs (codes "PWD\r\n"))) }
    ensures answered { ¬ ChangesNothing
        (one_line (codes "NOOP\r\n") (AnsweredBy refused_reply)) }
    ensures as_it_came { (reply : ReplyBytes) → ChangesNothing
        (one_reply (record { to = Greeting; came = reply; given = reply })) }
    ensures replaced { ¬ ChangesNothing (one_reply (record {
      to = Greeting;
      came = record { code = 227; lines = codes "a" ∷ []; bytes = codes "227 a\r\n" };
      given = record { code = 227; lines = codes "b" ∷ []; bytes = codes "227 b\r\n" };
    })) }
{}

/// The first line of some bytes, and what is shown of it.
pub fn lines_are_first()
    ensures line { front_line (codes "NOOP\r\nQU") ≡ codes "NOOP\r\n" }
    ensures rest { after_front_line (codes "NOOP\r\nQU") ≡ codes "QU" }
    ensures shown { unless_too_long (Some 6) (codes "NOOP\r\n") ≡ codes "NOOP\r\n" }
    ensures too_long { unless_too_long (Some 5) (codes "NOOP\r\n") ≡ [] }
{}

/// What the first line is, what is held once it was looked for, and what is left once it is taken.
pub fn lines_are_found()
    ensures complete { first_client_line (Some 6) (lines_of (codes "NOOP\r\nQU"))
        ≡ Some ClientLine.Complete }
    ensures too_long { first_client_line (Some 5) (lines_of (codes "NOOP\r\nQU"))
        ≡ Some ClientLine.TooLong }
    ensures none { first_client_line (Some 6) (lines_of (codes "NOOP\r")) ≡ None }
    ensures kept { (found_as (pushed (no_bytes (Some 6)) (codes "NOOP\r")) None 5).buffered ≡ 5 }
    ensures dropped { (found_as (pushed (no_bytes (Some 5)) (codes "NOOP\r")) None 5).buffered ≡ 0 }
    ensures found { line_in (found_as (pushed (no_bytes None) (codes "NOOP\r\nQU"))
        (Some ClientLine.Complete) 6) ≡ codes "NOOP\r\n" }
    ensures not_found { line_in (pushed (no_bytes None) (codes "NOOP\r\nQU")) ≡ [] }
    ensures taken { (without_line (found_as (pushed (no_bytes None) (codes "NOOP\r\nQU"))
        (Some ClientLine.Complete) 6)).bytes ≡ codes "QU" }
{}

/// When nothing is given, and when all was given that can be: here an answer of 20 bytes is due.
pub fn all_is_given()
    ensures no_room { (proxy : ProxyState) (out : Vec ℕ) → proxy.answer ≡ Some refused_reply
        → proxy.dialogue ≡ after_reply new_dialogue 220 → vec_capacity out < vec_len out + 20
        → IsNextError proxy out NextReplyError.OutOfMemory }
    ensures nothing_to_give { (proxy : ProxyState) (out : Vec ℕ) → proxy.answer ≡ None
        → proxy.server.bytes ≡ [] → ¬ IsNextError proxy out NextReplyError.OutOfMemory }
    ensures not_given { (proxy : ProxyState) → is_due proxy ≡ true → ¬ IsGiven proxy }
    ensures given_is_kept { (proxy : ProxyState) → proxy.server.bytes ≡ []
        → proxy.server.buffered ≡ 7 → ¬ IsGiven proxy }
    ensures settled { (limits : RustLimits) (server : PendingReplies) → with_settled
        (record (new_proxy limits) { server = record server { bytes = codes "2"; buffered = 8 } })
        ≡ record (new_proxy limits) { server = record server { bytes = codes "2"; buffered = 1 } } }
{}

/// TLS begins where the server has agreed to it by a 234, and not where it refused.
pub fn tls_begins()
    ensures refused { (proxy : ProxyState) → proxy.dialogue
        ≡ after_reply (after_command (codes "AUTH TLS\r\n") (after_reply new_dialogue 220)) 502
        → ¬ BeginsTls proxy }
    ensures agreed { (proxy : ProxyState) → proxy.dialogue
        ≡ after_reply (after_command (codes "AUTH TLS\r\n") (after_reply new_dialogue 220)) 234
        → BeginsTls proxy }
{}
