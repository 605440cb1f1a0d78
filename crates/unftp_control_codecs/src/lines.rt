//! Replies with any code of three digits.
ghost use Rattle.std.specs.Prelude.{◌≡◌, ◌↔◌, ◌++◌, ◌∷◌, [], drop, map, vec_len, IsTrue, OnOk, OnErr, IsErrOf};
ghost use Rattle.std.specs.List.{AllByRecursion};
ghost use Rattle.unftp_control_defs.specs.Bytes.{LF, Lacks};
ghost use Rattle.unftp_control_defs.specs.FtpReply.{MultiLine, encoded};
ghost use Rattle.unftp_control_defs.specs.ReplyReader.{ReadsBack};
ghost use Rattle.unftp_control_defs.specs.Room.{LacksRoom};
ghost use Rattle.unftp_control_codecs.specs.ReplyCodes.{IsReplyCode};

use crate::encoding::append_lines;
use std::convert::AsSlice;
use thiserror::Error;

/// Why no reply is encoded.
#[derive(Debug, Drop, Error)]
pub enum EncodeLinesError {
    /// The code is not from 100 to 599.
    #[error("no reply has this code")]
    CodeOutOfRange,
    /// An allocation failed.
    #[error("out of memory")]
    OutOfMemory,
}

/// Whether a reply can have this code: it is from 100 to 599 (RFC 959, section 4.2).
pub fn is_reply_code(code: u32) -> bool
    // True exactly for a code from 100 to 599.
    ensures { IsTrue result ↔ IsReplyCode code }
{
    (100..=599).contains(&code)
}

/// Appends the bytes of a reply with this code and these lines to `buf` and changes no earlier byte
/// (RFC 959, section 4.2): those of `Reply::MultiLine`, and without a line those of an empty one.
/// `buf` grows once at most. The code may also be one that `ReplyCode` doesn't have, as 334 of
/// RFC 2228.
///
/// It is refused with `CodeOutOfRange` where the code is not from 100 to 599, and for that no
/// memory is asked for; and with `OutOfMemory` where `buf` lacks room for the reply and can't grow.
/// `buf` is then as it was.
pub fn encode_lines<S: AsSlice<u8>>(
    code: u32,
    lines: &[S],
    buf: &mut Vec<u8>,
) -> Result<(), EncodeLinesError>
    // At `Ok` exactly the bytes of the reply with this code and these lines are appended.
    ensures ok { OnOk result (buf.new.items
        ≡ buf.old.items ++ encoded (MultiLine code (map S.items lines.now))) }
    // At `Ok`, where no line has a line feed, a client finds exactly this reply in what was
    // appended.
    ensures read_back { OnOk result (AllByRecursion (Lacks LF) (map S.items lines.now)
        → ReadsBack (drop (vec_len buf.old) buf.new.items)
        (MultiLine code (map S.items lines.now) ∷ [])) }
    // At an error the buffer holds what it held.
    ensures err { OnErr result (buf.new.items ≡ buf.old.items) }
    // `CodeOutOfRange` comes exactly where the code is not from 100 to 599, whether there is memory
    // or not.
    ensures out_of_range { IsErrOf result EncodeLinesError.CodeOutOfRange ↔ ¬ IsReplyCode code }
    // It is out of memory only where the buffer lacks room for those bytes.
    ensures memory { IsErrOf result EncodeLinesError.OutOfMemory
        → LacksRoom buf.old (encoded (MultiLine code (map S.items lines.now))) }
{
    if !is_reply_code(code) {
        return Err(EncodeLinesError::CodeOutOfRange);
    }
    let length = buf.len();
    if append_lines(code, lines, buf).is_err() {
        buf.truncate(length);
        return Err(EncodeLinesError::OutOfMemory);
    }
    Ok(())
}
