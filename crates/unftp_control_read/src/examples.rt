//! Examples of the definitions, at the boundary and next to it.
#![tactic(auto, unfolding(unftp_control_defs::proofs::Computing::at_bytes))]

ghost use Rattle.std.specs.Prelude.{◌≡◌, ◌∷◌, ℕ, [], None, Some, Ok, Err, codes};
ghost use Rattle.std.specs.declared.io.Error.{Error as IoError};
ghost use Rattle.unftp_control_defs.specs.Input.{InputState};
ghost use Rattle.unftp_control_read.specs.ReplyDecoding.{FindsFirst, HasError, IsReplyDecoder, PendingReplies, TakesNextReply, after_read, cleared, held_after, pending_replies, settled};
ghost use Rattle.unftp_control_read.specs.Receiving.{FailsToRead, after_failure, held_by_reads};
ghost use Rattle.unftp_control_read.specs.ReplyLines.{FindsLine};
ghost use Rattle.unftp_control_read.specs.Search.{IsSearched, begun_at};
ghost use Rattle.unftp_control_read.specs.declared.errors.NextReplyError.{NextReplyError as RustError};
ghost use Rattle.unftp_control_read.specs.declared.errors.NextReplyError.TheVariants as NextReplyError;
ghost use Rattle.unftp_control_read.specs.declared.errors.ReceiveError.TheVariants as ReceiveError;
ghost use Rattle.unftp_control_read.specs.declared.reply.ReceivedReply.{ReceivedReply as RustReply};

/// What a buffer of nine bytes holds, of which two are pending, once it is cleared or settled, and
/// where a reply was asked for.
pub fn buffers_hold_this()
    ensures cleared { cleared (pending_replies (Some 9) (codes "22") 9 9)
        ≡ pending_replies (Some 9) [] 0 9 }
    ensures settled { settled (pending_replies None (codes "22") 9 9)
        ≡ pending_replies None (codes "22") 2 9 }
    ensures none { (after : PendingReplies) → after.bytes ≡ codes "22"
        → held_after {E = RustError} (pending_replies None (codes "22") 9 9) (Ok None) after ≡ 2 }
    ensures taken { (reply : RustReply) (after : PendingReplies) → held_after {E = RustError}
        (pending_replies None (codes "22") 9 9) (Ok (Some reply)) after ≡ 9 }
    ensures failed { (error : RustError) (after : PendingReplies)
        → held_after (pending_replies None (codes "22") 9 9) (Err error) after ≡ 9 }
{}

/// What a buffer has held once it had room for a read, whatever that gave.
pub fn reads_have_room()
    ensures read { after_read (pending_replies None (codes "2") 1 9) (codes "2")
        ≡ pending_replies None (codes "22") 2 4097 }
    ensures more_before { after_read (pending_replies None (codes "2") 1 4098) (codes "2")
        ≡ pending_replies None (codes "22") 2 4098 }
    ensures failed { (error : IoError) → after_failure (pending_replies None (codes "2") 1 9)
        (ReceiveError.Read error) ≡ pending_replies None (codes "2") 1 4097 }
    ensures out_of_memory { after_failure (pending_replies None (codes "2") 1 9)
        ReceiveError.OutOfMemory ≡ pending_replies None (codes "2") 1 9 }
    ensures no_read { held_by_reads 7 9 [] ≡ 7 }
    ensures two_reads { held_by_reads 7 1 (codes "22" ∷ [] ∷ []) ≡ 4099 }
    ensures held_before { held_by_reads 4100 1 (codes "22" ∷ [] ∷ []) ≡ 4100 }
{}

/// A read that fails is counted, and one that lacks its room isn't made.
pub fn reads_fail()
    ensures counted { (before after : InputState) (error : IoError)
        → FailsToRead before after (ReceiveError.Read error) → before.failures ≡ 1
        → after.failures ≡ 2 }
    ensures not_made { (before after : InputState)
        → FailsToRead before after ReceiveError.OutOfMemory → after ≡ before }
    ensures no_reason { (before after : InputState)
        → ¬ FailsToRead before after ReceiveError.TooManyReads }
{}

/// What is so of a decoder: no more is taken than its buffer holds, which has room for what it has
/// held; and no bytes are passed over that have a line end.
pub fn decoders_are_so()
    ensures all_taken { IsReplyDecoder None (begun_at 0 0)
        (codes "220 a\r\n") 7 7 7 }
    ensures more_taken { ¬ IsReplyDecoder None (begun_at 0 0)
        (codes "220 a\r\n") 8 7 7 }
    ensures less_room { ¬ IsReplyDecoder None (begun_at 0 0)
        (codes "220 a\r\n") 7 8 7 }
    ensures searched { IsSearched (codes "a\r\n") (begun_at 0 2) }
    ensures passed_over { ¬ IsSearched (codes "a\r\n") (begun_at 0 3) }
    ensures line_passed_over { ¬ IsSearched (codes "a\r\n") (begun_at 3 3) }
{}

/// Memory lacks only for a complete reply, and never to find one; at an error all bytes stay.
pub fn errors_are_so()
    ensures whole { HasError (Some 7) (codes "220 a\r\n") NextReplyError.OutOfMemory }
    ensures part { ¬ HasError (Some 6) (codes "220 a\r\n") NextReplyError.OutOfMemory }
    ensures found { ¬ FindsFirst (Some 7) (codes "220 a\r\n") (Err NextReplyError.OutOfMemory) }
    ensures dropped { (error : RustError) → ¬ TakesNextReply
        (pending_replies None (codes "220 a\r\n") 7 7) (Err error) (pending_replies None [] 7 7) }
{}

/// Lines that are found: with the text after the code, or all of a line between the first and the
/// last; and none where no line is complete.
pub fn lines_are_found()
    ensures first { FindsLine (codes "211-a\r\n211 \r\n") 0
        (Some (record { text_at = 4; text_len = 1; next = 7 })) }
    ensures last { FindsLine (codes "211-a\r\n211 \r\n") 7
        (Some (record { text_at = 11; text_len = 0; next = 13 })) }
    ensures with_code { ¬ FindsLine (codes "211-a\r\n211 \r\n") 0
        (Some (record { text_at = 0; text_len = 5; next = 7 })) }
    ensures two_lines { ¬ FindsLine (codes "211-a\r\n211 \r\n") 0
        (Some (record { text_at = 4; text_len = 7; next = 13 })) }
    ensures end { FindsLine (codes "220 a\r\n") 7 None }
    ensures part { FindsLine (codes "220 a\r") 0 None }
    ensures complete { ¬ FindsLine (codes "220 a\r\n") 0 None }
{}
