//! The next reply of the pending bytes, and the lines of one.
ghost use Rattle.std.specs.Prelude.{◌≡◌, ◌≤◌, length, true};
ghost use Rattle.unftp_control_defs.specs.ReplyLimit.{within_limit};
ghost use Rattle.unftp_control_read.specs.Search.{begun_at};
ghost use Rattle.unftp_control_c.specs.Next.{line_limit};
ghost use Rattle.unftp_control_c.specs.NextReply.{LeavesReply, LeavesReplyLine, is_valid_search, no_reply, reply_call, reply_left, scans_reply};
ghost use Rattle.unftp_control_c.specs.Numbers.{status_number};

use crate::reply::FoundReply;
use crate::status::Status;
use unftp_control_read::{NextReplyError, Search, first_bytes, line_at};

/// What a caller keeps of a search for replies: `struct unftp_reply_search` of
/// include/unftp_control.h.
#[repr(C)]
#[derive(Clone, Copy)]
pub struct ReplySearch {
    /// How many bytes a reply may have, its line ends counted; 0 for any number.
    pub limit: usize,
    /// Where the first of the pending lines begins that is not passed: those before it are lines of
    /// a reply that goes on after them.
    pub line: usize,
    /// How many of the pending bytes were scanned for a line feed.
    pub offset: usize,
}

/// The next reply of the pending bytes: `unftp_next_reply` of include/unftp_control.h.
#[unsafe(no_mangle)]
pub extern "C" fn unftp_next_reply(
    search: &mut ReplySearch,
    bytes: &[u8],
    reply: &mut FoundReply,
) -> u32
    // From zeros, or from what earlier calls left, it finds the first reply under the limit, or why
    // there is none. Invalid places are reported, and change nothing.
    ensures leaves { LeavesReply (reply_call search.old bytes.now)
        (reply_left result search.new reply.new) }
    // The reply has at most as many bytes as are pending.
    ensures within { reply.new.used ≤ length bytes.now }
{
    *reply = FoundReply { used: 0, code: 0 };
    let limit = if search.limit == 0 {
        None
    } else {
        Some(search.limit)
    };
    if !is_valid_search(search, first_bytes(bytes, limit).len()) {
        return Status::InvalidArgument.number();
    }
    let mut resumed = Search::resume(search.line, search.offset);
    take_reply(bytes, limit, &mut resumed, search, reply)
}

/// Whether the places are in order, and within so many bytes.
fn is_valid_search(search: &ReplySearch, len: usize) -> bool
    ensures { result ≡ is_valid_search search.now len }
{
    search.line <= search.offset && search.offset <= len
}

/// Takes the first reply, where one is complete, by a search that has scanned nothing so far.
fn take_reply(
    bytes: &[u8],
    limit: Option<usize>,
    resumed: &mut Search,
    search: &mut ReplySearch,
    reply: &mut FoundReply,
) -> u32
    requires limit { limit ≡ line_limit search.old.limit }
    requires resumed { resumed.old ≡ begun_at search.old.line search.old.offset }
    requires valid { is_valid_search search.old (length (within_limit limit bytes.now)) ≡ true }
    requires reply { reply.old ≡ no_reply }
    ensures leaves { LeavesReply (reply_call search.old bytes.now)
        (reply_left result search.new reply.new) }
    ensures within { reply.new.used ≤ length bytes.now }
    // No byte is scanned that an earlier call has scanned, and none after the reply.
    ensures scans { resumed.new.scanned ≤ scans_reply (reply_call search.old bytes.now)
        (reply_left result search.new reply.new) }
{
    match resumed.find_first(bytes, limit) {
        Ok(Some(first)) => {
            *reply = FoundReply {
                used: first.length,
                code: u32::from(first.code),
            };
            (search.line, search.offset) = (0, 0);
            Status::Done.number()
        }
        Ok(None) => go_on(Status::More, resumed, search),
        Err(NextReplyError::TooLong) => go_on(Status::ReplyTooLong, resumed, search),
        Err(NextReplyError::Malformed) => Status::Malformed.number(),
        Err(NextReplyError::OutOfMemory) => unreachable!(),
    }
}

/// Reports why no reply is complete. The next call goes on where the search is.
fn go_on(status: Status, resumed: &Search, search: &mut ReplySearch) -> u32
    ensures result { result ≡ status_number status }
    ensures search { search.new ≡ record search.old {
      line = resumed.now.line;
      offset = resumed.now.offset;
    } }
{
    (search.line, search.offset) = (resumed.line(), resumed.offset());
    status.number()
}

/// Where a line of a reply is: `struct unftp_reply_line` of include/unftp_control.h.
#[repr(C)]
#[derive(Clone, Copy)]
pub struct ReplyLine {
    /// Where its text begins.
    pub text_at: usize,
    /// How many bytes its text has.
    pub text_len: usize,
    /// Where the next line begins; after the last one, where the reply ends.
    pub next: usize,
}

/// The next line of a reply: `unftp_next_reply_line` of include/unftp_control.h.
#[unsafe(no_mangle)]
pub extern "C" fn unftp_next_reply_line(bytes: &[u8], line: &mut ReplyLine) -> u32
    // The struct gets the place of the line at `next`. Where no line is complete there, or `next`
    // is past the bytes, it is unchanged, and the result reports which.
    ensures { LeavesReplyLine bytes.now line.old result line.new }
{
    if line.next > bytes.len() {
        return Status::InvalidArgument.number();
    }
    match line_at(bytes, line.next) {
        None => Status::More.number(),
        Some(place) => {
            *line = ReplyLine {
                text_at: place.text_at,
                text_len: place.text_len,
                next: place.next,
            };
            Status::Done.number()
        }
    }
}
