//! Laws of replies as a client reads them.
ghost use Rattle.std.specs.Prelude.{◌≡◌, ◌↔◌, ◌⊎◌, ◌<◌, ◌≤◌, ℕ, Option, List, [], ◌++◌, length, flat_map, Some};
ghost use Rattle.std.specs.List.{AllByRecursion};
ghost use Rattle.unftp_control_defs.specs.Bytes.{Bytes};
ghost use Rattle.unftp_control_defs.specs.FtpReply.{FtpReply, IsPlain, encoded, reply_as_read};
ghost use Rattle.unftp_control_defs.specs.ReplyLimit.{IsTooLongReply};
ghost use Rattle.unftp_control_defs.specs.ReplyReader.{LacksCrlf, with_crlf, FrontReply, HasFront, Opens, IsMalformed, IsPartial, AllReplies, ReadsBack};
ghost use Rattle.unftp_control_defs.specs.TakingSteps.{TakesReply, AreReplies, TakingStep, AreTakingSteps, all_pushed, all_taken};

/// The bytes begin with a reply, or with a part of one, or they are malformed; and exactly one of
/// these holds (RFC 959, section 4.2).
pub fn one_reading()
    // Bytes begin with a reply, or are a part of one, or are malformed.
    ensures some { (bytes : Bytes) → HasFront bytes ⊎ (IsPartial bytes ⊎ IsMalformed bytes) }
    // Bytes that begin with a reply are not a part of one.
    ensures front_is_whole { (bytes : Bytes) → HasFront bytes → ¬ IsPartial bytes }
    // Bytes that begin with a reply are not malformed.
    ensures front_is_formed { (bytes : Bytes) → HasFront bytes → ¬ IsMalformed bytes }
    // Bytes that are a part of a reply are not malformed.
    ensures partial_is_formed { (bytes : Bytes) → IsPartial bytes → ¬ IsMalformed bytes }
{}

/// The bytes begin with at most one reply, which has one code, one list of lines and one length,
/// which is within them.
pub fn one_front()
    // Bytes begin with at most one reply, which has one code, one list of lines and one length.
    ensures only { (bytes : Bytes) (code other : ℕ) (lines others : List Bytes) (used taken : ℕ)
        → FrontReply bytes code lines used → FrontReply bytes other others taken
        → (code ≡ other) × (lines ≡ others) × (used ≡ taken) }
    // A reply at the start of the bytes has at least one byte, and no more than there are.
    ensures within { (bytes : Bytes) (code : ℕ) (lines : List Bytes) (used : ℕ)
        → FrontReply bytes code lines used
        → (0 < used) × (used ≤ length bytes) }
{}

/// The reply at the start of the bytes stays the same when bytes are appended, and malformed bytes
/// stay malformed (RFC 959, section 4.2).
pub fn replies_stay()
    // A reply at the start of the bytes stays the same, whatever follows.
    ensures front { (bytes more : Bytes) (code : ℕ) (lines : List Bytes) (used : ℕ)
        → FrontReply bytes code lines used → FrontReply (bytes ++ more) code lines used }
    // Malformed bytes stay malformed, whatever follows.
    ensures malformed { (bytes more : Bytes) → IsMalformed bytes → IsMalformed (bytes ++ more) }
{}

/// The bytes of plain replies are read back as what they show, and as nothing else, whatever
/// follows (RFC 959, section 4.2).
pub fn replies_read_back()
    // The bytes of a plain reply that is sent are read as what it shows, whatever follows them.
    ensures front { (reply : FtpReply) (more : Bytes) → IsPlain reply
        → (code : ℕ) (lines : List Bytes) → reply_as_read reply ≡ Some (code, lines)
        → FrontReply (encoded reply ++ more) code lines (length (encoded reply)) }
    // The bytes of plain replies are read back as what the replies show, and as nothing else.
    ensures all { (replies : List FtpReply) → AllByRecursion IsPlain replies
        → ReadsBack (flat_map encoded replies) replies }
{}

/// However the input is split, and whenever replies are taken, the taken replies are those of the
/// whole input, and the bytes after them are pending. Once no reply is at the start of the pending
/// bytes, an input has one list of replies (RFC 959, section 4.2).
pub fn any_cutting_of_replies()
    // The input is the replies that were taken, one after the other, and then the pending bytes.
    ensures replies { (steps : List (TakingStep (ℕ × List Bytes))) (pending : Bytes)
        → AreTakingSteps TakesReply [] steps pending
        → AreReplies (all_pushed steps) (all_taken steps) pending }
    // An input has one list of replies, and one end after them, where no reply begins at that end.
    ensures only { (input : Bytes) (replies others : List (ℕ × List Bytes)) (pending end : Bytes)
        → AreReplies input replies pending → ¬ HasFront pending
        → AreReplies input others end → ¬ HasFront end
        → (replies ≡ others) × (pending ≡ end) }
    // An input is these replies with nothing after them exactly where they are all its replies.
    ensures all { (input : Bytes) (replies : List (ℕ × List Bytes))
        → AreReplies input replies [] ↔ AllReplies input replies }
{}

/// A reply that is too long stays so when bytes are appended. A reply, or a line that opens none,
/// is too long where it has more bytes than the limit. A part of a reply is too long where it has
/// at least as many (RFC 959, section 4.2).
pub fn too_long_replies_stay()
    // A reply that is too long stays so, whatever follows.
    ensures appended { (limit : Option ℕ) (bytes more : Bytes)
        → IsTooLongReply limit bytes → IsTooLongReply limit (bytes ++ more) }
    // Where bytes are too long for a reply, a reply at the start of them and further bytes is
    // longer than the limit.
    ensures longer { (limit : ℕ) (bytes more : Bytes) (code : ℕ) (lines : List Bytes) (used : ℕ)
        → IsTooLongReply (Some limit) bytes → FrontReply (bytes ++ more) code lines used
        → limit < used }
    // A reply at the start of the bytes is too long exactly where it has more bytes than the limit.
    ensures front { (limit : ℕ) (bytes : Bytes) (code : ℕ) (lines : List Bytes) (used : ℕ)
        → FrontReply bytes code lines used
        → IsTooLongReply (Some limit) bytes ↔ (limit < used) }
    // A part of a reply is too long exactly where it has at least as many bytes as the limit.
    ensures partial { (limit : ℕ) (bytes : Bytes) → IsPartial bytes
        → IsTooLongReply (Some limit) bytes ↔ (limit ≤ length bytes) }
    // A first line that opens no reply is too long exactly where it has more bytes than the limit.
    ensures malformed { (limit : ℕ) (first rest : Bytes) → LacksCrlf first → ¬ Opens first
        → IsTooLongReply (Some limit) (with_crlf first ++ rest)
        ↔ (limit < length (with_crlf first)) }
{}
