//! The search for the reply at the start of some bytes. It takes no memory, and goes on where it
//! stopped when more bytes have come.
ghost use Rattle.std.specs.Prelude.{◌≡◌, ◌<◌, ◌≤◌, ℕ, IfSome, IsTrue, Some, false, true, length};
ghost use Rattle.unftp_control_defs.specs.Bytes.{Bytes};
ghost use Rattle.unftp_control_defs.specs.ReplyLimit.{within_limit};
ghost use Rattle.unftp_control_read.specs.Reading.{ReturnsFound};
ghost use Rattle.unftp_control_read.specs.ReplyDecoding.{FindsByScan, FindsFirst};
ghost use Rattle.unftp_control_read.specs.Search.{EndsBefore, HasScanned, IsAtLine, IsSearched, IsSearchWithin, Steps, begun_at};

use crate::FoundReply;
use crate::decoder::FirstReply;
use crate::errors::NextReplyError;
use crate::lines::{last_text, next_line};
use crate::opening::{AfterCode, code_of, opening_of};
use unftp_control_defs::count::Count;

/// How far the search for the reply at the start has come, in bytes that its owner keeps and to
/// which more may be appended. Two numbers are all of it, so that a caller can keep it elsewhere.
#[derive(Drop)]
pub struct Search {
    line: usize,
    offset: usize,
    scanned: Count,
}

/// What is found at a line of a reply of several, after the first; `None` where the reply goes on.
fn pass_later(bytes: &[u8], line: &[u8], after: &[u8]) -> Option<FoundReply>
    requires { length after.now < length bytes.now }
    ensures ends { IfSome result (EndsBefore bytes.now after.now) }
    ensures steps { IsAtLine bytes.now false line.now after.now
        → Steps bytes.now after.now result }
{
    let Some((digits, _)) = bytes.split_at_checked(3) else {
        return Some(FoundReply::Malformed);
    };
    let Some(code) = code_of(digits) else {
        return Some(FoundReply::Malformed);
    };
    match last_text(digits, line) {
        None => None,
        Some(_) => {
            let used = bytes.len() - after.len();
            Some(FoundReply::Whole { code, used })
        }
    }
}

/// What is found at the first line; `None` where it opens a reply of several.
fn pass_first(bytes: &[u8], line: &[u8], after: &[u8]) -> Option<FoundReply>
    requires { length after.now < length bytes.now }
    ensures ends { IfSome result (EndsBefore bytes.now after.now) }
    ensures steps { IsAtLine bytes.now true line.now after.now
        → Steps bytes.now after.now result }
{
    let Some(opening) = opening_of(line) else {
        return Some(FoundReply::Malformed);
    };
    let code = opening.code;
    match opening.kind {
        AfterCode::One(_) => {
            let used = bytes.len() - after.len();
            Some(FoundReply::Whole { code, used })
        }
        AfterCode::Several(_) => None,
    }
}

/// What is found at this line, which `after` follows; `None` where a reply of several goes on.
fn pass_line(bytes: &[u8], is_first: bool, line: &[u8], after: &[u8]) -> Option<FoundReply>
    requires { length after.now < length bytes.now }
    ensures ends { IfSome result (EndsBefore bytes.now after.now) }
    ensures steps { IsAtLine bytes.now is_first line.now after.now
        → Steps bytes.now after.now result }
{
    if is_first {
        return pass_first(bytes, line, after);
    }
    pass_later(bytes, line, after)
}

impl Search {
    /// Nothing is searched.
    pub fn new() -> Search
        // It begins at the first byte, and has scanned none.
        ensures new { result ≡ begun_at 0 0 }
        // Its line and offset are true of any bytes.
        ensures searched { (bytes : Bytes) → IsSearched bytes result }
    {
        Search::resume(0, 0)
    }

    /// A search that goes on where another one stopped, for a caller that keeps only what `line`
    /// and `offset` returned. It has scanned nothing itself.
    pub fn resume(line: usize, offset: usize) -> Search
        // It goes on at this line and this offset, and has scanned nothing itself.
        ensures { result ≡ begun_at line offset }
    {
        Search {
            line,
            offset,
            scanned: Count::new(),
        }
    }

    /// Where the first line begins that is not passed: those before it are lines of a reply that
    /// goes on after them.
    pub fn line(&self) -> usize
        // The position is the one that the search keeps.
        ensures { result ≡ self.now.line }
    {
        self.line
    }

    /// How many bytes were scanned for a line feed.
    pub fn offset(&self) -> usize
        // The number is the one that the search keeps.
        ensures { result ≡ self.now.offset }
    {
        self.offset
    }

    /// Nothing is searched any more.
    pub(crate) fn restart(&mut self)
        ensures { (bytes : Bytes) → IsSearched bytes self.new }
    {
        *self = Search::new();
    }

    /// Finds the reply at the start. A byte is scanned again for a line feed only in a last line
    /// that is found again, or in a first line that opens no reply.
    ///
    /// Where the search has not come so far in these bytes, but in others, what it finds means
    /// nothing.
    pub(crate) fn find_front(&mut self, bytes: &[u8]) -> FoundReply
        requires { IsSearchWithin self.old (length bytes.now) }
        ensures finds { IsSearched bytes.now self.old → ReturnsFound bytes.now result }
        ensures searched { IsSearched bytes.now self.old → IsSearched bytes.now self.new }
        ensures within { IsSearchWithin self.new (length bytes.now) }
        ensures scanned { HasScanned self.old (length bytes.now) result self.new }
    {
        let (_, mut rest) = bytes.split_at(self.line);
        while let Some((line, after)) = next_line(
            rest,
            self.offset - self.line,
            &mut self.scanned,
        ) {
            if let Some(found) = pass_line(bytes, self.line == 0, line, after) {
                return found;
            }
            self.line = bytes.len() - after.len();
            self.offset = self.line;
            rest = after;
        }
        self.offset = bytes.len();
        FoundReply::Partial
    }
    /// Finds the first reply of the bytes (RFC 959, section 4.2), or returns `None` where they are
    /// only a part of one. With a limit, a reply may have at most so many bytes, and no other byte
    /// is searched. No memory is taken, so it is never `OutOfMemory`.
    ///
    /// A byte is scanned again for a line feed only in a last line that is found again, or in a
    /// first line that opens no reply. Where the search has not come so far in these bytes, but in
    /// others, what it finds means nothing.
    pub fn find_first(
        &mut self,
        bytes: &[u8],
        limit: Option<usize>,
    ) -> Result<Option<FirstReply>, NextReplyError>
        // The line begins at the offset or before it, and the offset is within the bytes that a
        // reply may have.
        requires { IsSearchWithin self.old (length (within_limit limit bytes.now)) }
        // Where line and offset are true of these bytes, the result is their first reply, or `None`
        // for a part of one below the limit, or the reason why there is none.
        ensures finds { IsSearched (within_limit limit bytes.now) self.old
            → FindsFirst limit bytes.now result }
        // Where line and offset are true of these bytes before the call, they are after it.
        ensures searched { IsSearched (within_limit limit bytes.now) self.old
            → IsSearched (within_limit limit bytes.now) self.new }
        // The bytes from the offset to the end of the reply are scanned. At `None` and `TooLong`
        // all from it on are, and the offset is then at their end; at `Malformed` at most all.
        ensures scanned { FindsByScan self.old (length (within_limit limit bytes.now)) result
            self.new }
    {
        let searched = first_bytes(bytes, limit);
        match self.find_front(searched) {
            FoundReply::Whole { code, used } => Ok(Some(FirstReply { code, length: used })),
            FoundReply::Malformed => Err(NextReplyError::Malformed),
            FoundReply::Partial => {
                if is_full(searched, limit) {
                    return Err(NextReplyError::TooLong);
                }
                Ok(None)
            }
        }
    }
}

/// The bytes that a reply may have: the first `limit` ones, or all.
pub fn first_bytes(bytes: &[u8], limit: Option<usize>) -> &[u8]
    // The bytes are the first `limit` ones, or all where they are fewer or there is no limit.
    ensures { result.now ≡ within_limit limit bytes.now }
{
    match limit {
        Some(limit) => bytes.split_at(limit.min(bytes.len())).0,
        None => bytes,
    }
}

/// Whether there are as many bytes as a reply may have.
pub(crate) fn is_full(bytes: &[u8], limit: Option<usize>) -> bool
    ensures yes { IsTrue result
        → (most : ℕ) × (limit ≡ Some most) × (most ≤ length bytes.now) }
    ensures no { result ≡ false → IfSome limit (λ most. length bytes.now < most) }
{
    match limit {
        Some(most) => most <= bytes.len(),
        None => false,
    }
}
