//! Reads replies, as a client of RFC 959 does: the one at the start of some bytes, or one after the
//! other from bytes that come in pieces.
#![tactic(auto)]

ghost use Rattle.std.specs.Prelude.{◌≡◌, ◌↔◌, ℕ, List, IsTrue, IfOk, IfErr, MatchResult};
ghost use Rattle.unftp_control_defs.specs.Bytes.{Bytes};
ghost use Rattle.unftp_control_defs.specs.ReplyReader.{FrontReply, IsPartial, IsMalformed};
ghost use Rattle.unftp_control_read.specs.Reading.{ReturnsFront, ReturnsRefusal, ReturnsFound, IsWhole, IsFound, IsWithin, front_meant};
ghost use Rattle.unftp_control_read.specs.Search.{IsSearched};
ghost use Rattle.unftp_control_read.specs.declared.Front.{Front as RustFront};
ghost use Rattle.unftp_control_read.specs.declared.FoundReply.{FoundReply as RustFound};

mod copying;
mod decoder;
mod errors;
pub mod examples;
mod lines;
mod opening;
mod places;
mod receiving;
mod reply;
mod search;

use crate::copying::copy_lines;
pub use crate::decoder::{FirstReply, ReplyDecoder, first_replies_are_one};
pub use crate::errors::{NextReplyError, ReceiveError};
pub use crate::places::{LinePlace, line_at, lines_are_at_places};
pub use crate::receiving::known_input_is_received;
pub use crate::reply::{ReceivedReply, same_received_replies};
pub use crate::search::{Search, first_bytes};
use std::alloc::Global;
use thiserror::Error;
pub use unftp_control_defs::input::Input;

/// What some bytes begin with.
#[derive(Debug, PartialEq, Eq, Drop)]
pub enum Front {
    /// A complete reply.
    Whole {
        /// Its three digits, as a number.
        code: u16,
        /// Its lines without their end of line: of the first and the last the text after the code
        /// and its sign, of those between the whole line. A reply of only three digits has one
        /// empty line.
        lines: Vec<Vec<u8>>,
        /// How many bytes it takes, its last end of line included.
        used: usize,
    },
    /// Less than a reply: the first line is not complete, or a reply of several lines has no last
    /// line yet.
    Partial,
}

/// Why no reply is read.
#[derive(Debug, Drop, Error)]
pub enum ReadReplyError {
    /// The first line is complete and opens no reply.
    #[error("malformed reply")]
    Malformed,
    /// An allocation for the lines of a complete reply failed.
    #[error("out of memory")]
    OutOfMemory,
}

/// Reads the reply at the start of `bytes` (RFC 959, section 4.2). A line ends at CR LF, and a bare
/// CR or LF belongs to it.
///
/// Whether there is one is decided first, in one pass and without memory; then its lines are
/// copied. So `Partial` and `Malformed` take no memory, and `OutOfMemory` is returned only where a
/// complete reply is there. The bytes after the reply are ignored.
pub fn read_reply(alloc: Global, bytes: &[u8]) -> Result<Front, ReadReplyError>
    // `Whole` has the code, the lines and the length of the reply at the start. `Partial` is
    // returned only for a part of a reply.
    ensures front { IfOk result (λ front. ReturnsFront bytes.now front) }
    // `Malformed` is returned only for malformed bytes, `OutOfMemory` only where they begin with a
    // complete reply.
    ensures refusal { IfErr result (λ refusal. ReturnsRefusal bytes.now refusal) }
    // Where the bytes begin with a reply, its code, lines and length are returned, or the result is
    // `OutOfMemory`.
    ensures whole { (code : ℕ) (lines : List Bytes) (used : ℕ)
        → FrontReply bytes.now code lines used
        → MatchResult result (λ front. IsWhole code lines used front) (λ refusal.
        refusal ≡ ReadReplyError.OutOfMemory) }
    // A complete reply has at least one byte, and no more than there are.
    ensures within { IfOk result (λ front. IsWithin bytes.now front) }
    // `Partial` is returned for each part of a reply.
    ensures partial { IsPartial bytes.now → result ≡ Ok Front.Partial }
    // `Malformed` is returned for all malformed bytes.
    ensures malformed { IsMalformed bytes.now → result ≡ Err ReadReplyError.Malformed }
{
    read_front(alloc, &mut Search::new(), bytes)
}

/// What `read_reply` returns, by a search that may have begun when there were fewer bytes.
pub(crate) fn read_front(
    alloc: Global,
    search: &mut Search,
    bytes: &[u8],
) -> Result<Front, ReadReplyError>
    requires { IsSearched bytes.now search.old }
    ensures searched { IsSearched bytes.now search.new }
    ensures front { IfOk result (λ front. ReturnsFront bytes.now front) }
    ensures refusal { IfErr result (λ refusal. ReturnsRefusal bytes.now refusal) }
    ensures within { IfOk result (λ front. IsWithin bytes.now front) }
{
    match search.find_front(bytes) {
        FoundReply::Whole { code, used } => match copy_lines(alloc, bytes) {
            Ok(lines) => Ok(Front::Whole { code, lines, used }),
            Err(_) => Err(ReadReplyError::OutOfMemory),
        },
        FoundReply::Partial => Ok(Front::Partial),
        FoundReply::Malformed => Err(ReadReplyError::Malformed),
    }
}

/// What some bytes begin with, without the lines of a reply.
#[derive(Debug, Clone, Copy, PartialEq, Eq)]
pub enum FoundReply {
    /// A complete reply.
    Whole {
        /// Its three digits, as a number.
        code: u16,
        /// How many bytes it takes, its last end of line included.
        used: usize,
    },
    /// Less than a reply: the first line is not complete, or a reply of several lines has no last
    /// line yet.
    Partial,
    /// The first line is complete and opens no reply.
    Malformed,
}

/// Finds the reply at the start of `bytes`, as `read_reply` does (RFC 959, section 4.2). It copies
/// no lines, so it takes no memory.
pub fn find_reply(bytes: &[u8]) -> FoundReply
    // `Whole` has the code and the length of the reply at the start. `Partial` is returned only for
    // a part of a reply, `Malformed` only for malformed bytes.
    ensures found { ReturnsFound bytes.now result }
    // Where the bytes begin with a reply, its code and length are found.
    ensures whole { (code : ℕ) (lines : List Bytes) (used : ℕ)
        → FrontReply bytes.now code lines used → IsFound code used result }
    // `Partial` is returned for each part of a reply.
    ensures partial { IsPartial bytes.now → result ≡ FoundReply.Partial }
    // `Malformed` is returned for all malformed bytes.
    ensures malformed { IsMalformed bytes.now → result ≡ FoundReply.Malformed }
{
    Search::new().find_front(bytes)
}

/// Two fronts are equal exactly where their contents are.
pub fn same_fronts()
    // `==` is true exactly for the same code, lines and length, or for two `Partial`.
    ensures { (a b : RustFront)
        → IsTrue (⟦<Front as PartialEq>⟧.eq a b) ↔ (front_meant a ≡ front_meant b) }
{}

/// `==` of what is found is equality, and a clone is equal.
pub fn same_found_replies()
    // `==` is true exactly where both are equal.
    ensures equal { (a b : RustFound) → IsTrue (⟦<FoundReply as PartialEq>⟧.eq a b) ↔ (a ≡ b) }
    // A clone is equal to its original.
    ensures clone { (a b : RustFound) → ⟦<FoundReply as Clone>⟧.is_clone a b → b ≡ a }
{}
