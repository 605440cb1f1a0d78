//! What calls of `unftp_next_reply` leave, and of `unftp_next_reply_line`.
#![tactic(auto, unfolding(unftp_control_defs::proofs::Computing::at_bytes))]

ghost use Rattle.std.specs.Prelude.{◌≡◌, ◌∷◌, [], true, false, codes};
ghost use Rattle.unftp_control_c.specs.NextReply.{LeavesReply, LeavesReplyLine, is_valid_search, no_reply, reply_call, reply_left, stops_at};
ghost use Rattle.unftp_control_c.specs.TakingReplies.{Called, Received, codes_in, new_search, scanned_in};

/// Which searches are refused: those whose places are not in order, or past the bytes.
pub fn searches_are_valid()
    ensures at_end { is_valid_search (record { limit = 0; line = 3; offset = 3 }) 3 ≡ true }
    ensures past { is_valid_search (record { limit = 0; line = 0; offset = 4 }) 3 ≡ false }
    ensures no_order { is_valid_search (record { limit = 0; line = 2; offset = 1 }) 3 ≡ false }
    ensures refused { LeavesReply
        (reply_call (record { limit = 2; line = 0; offset = 3 }) (codes "220"))
        (reply_left 111 (record { limit = 2; line = 0; offset = 3 }) no_reply) }
    ensures not_more { ¬ LeavesReply
        (reply_call (record { limit = 2; line = 0; offset = 3 }) (codes "220"))
        (reply_left 101 (record { limit = 2; line = 0; offset = 3 }) no_reply) }
{}

/// How many bytes two calls scan for a reply in two pieces, and which code they give.
pub fn replies_are_scanned()
    ensures scanned { scanned_in (new_search 0)
        (Received (codes "220 ")
        ∷ Called (reply_left 101 (record { limit = 0; line = 0; offset = 4 }) no_reply)
        ∷ Received (codes "a\r\n2")
        ∷ Called (reply_left 0 (record { limit = 0; line = 0; offset = 0 })
        (record { used = 7; code = 220 })) ∷ []) ≡ 7 }
    ensures codes { codes_in
        (Called (reply_left 101 (record { limit = 0; line = 0; offset = 4 }) no_reply)
        ∷ Called (reply_left 0 (record { limit = 0; line = 0; offset = 0 })
        (record { used = 7; code = 220 })) ∷ []) ≡ 220 ∷ [] }
    ensures limit { stops_at (reply_call (record { limit = 3; line = 0; offset = 0 }) (codes "220 a"))
        (reply_left 114 (record { limit = 3; line = 0; offset = 3 }) no_reply) ≡ 3 }
{}

/// Which lines calls find: none at the end, and none past it.
pub fn lines_of_replies_are_found()
    ensures end { LeavesReplyLine (codes "220 a\r\n") (record { text_at = 4; text_len = 1; next = 7 })
        101 (record { text_at = 4; text_len = 1; next = 7 }) }
    ensures past { LeavesReplyLine (codes "220 a\r\n")
        (record { text_at = 0; text_len = 0; next = 8 }) 111
        (record { text_at = 0; text_len = 0; next = 8 }) }
    ensures complete { ¬ LeavesReplyLine (codes "220 a\r\n")
        (record { text_at = 0; text_len = 0; next = 0 }) 101
        (record { text_at = 0; text_len = 0; next = 0 }) }
{}
