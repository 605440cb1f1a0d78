//! Copies the lines of a reply.
ghost use Rattle.std.specs.Prelude.{◌≡◌, ◌∷◌, [], ℕ, List, IfOk};
ghost use Rattle.unftp_control_defs.specs.Bytes.{Bytes};
ghost use Rattle.unftp_control_defs.specs.ComputedReply.{Whole, cuts_of, front_after, later_lines};
ghost use Rattle.unftp_control_defs.specs.ReplyReader.{FrontReply, HasFront};
ghost use Rattle.unftp_control_read.specs.Reading.{contents};

use crate::lines::{first_line, last_text};
use crate::opening::{AfterCode, opening_of};
use std::alloc::{AllocError, Global};

/// The lines of the reply at the start.
pub(crate) fn copy_lines(alloc: Global, bytes: &[u8]) -> Result<Vec<Vec<u8>>, AllocError>
    requires { HasFront bytes.now }
    ensures { IfOk result (λ copied. (code : ℕ) (lines : List Bytes) (used : ℕ)
        → FrontReply bytes.now code lines used → contents copied ≡ lines) }
{
    let Some((line, after)) = first_line(bytes) else {
        unreachable!()
    };
    let Some(opening) = opening_of(line) else {
        unreachable!()
    };
    match opening.kind {
        AfterCode::One(text) => copy_one(alloc, text),
        AfterCode::Several(first) => copy_several(alloc, first, opening.digits, after),
    }
}

/// The one line that is this text.
fn copy_one(alloc: Global, text: &[u8]) -> Result<Vec<Vec<u8>>, AllocError>
    ensures { IfOk result (λ copied. contents copied ≡ text.now ∷ []) }
{
    let mut lines = Vec::new(alloc);
    lines.push(Vec::from_slice(alloc, text)?)?;
    Ok(lines)
}

/// The first line and the later ones, which these bytes begin with.
fn copy_several(
    alloc: Global,
    first: &[u8],
    digits: &[u8],
    bytes: &[u8],
) -> Result<Vec<Vec<u8>>, AllocError>
    ensures { IfOk result (λ copied. (opened code : ℕ) (lines : List Bytes) (rest : Bytes)
        → front_after opened (first.now ∷ []) (later_lines digits.now (cuts_of bytes.now))
        ≡ Whole code lines rest → contents copied ≡ lines) }
{
    let mut lines = copy_one(alloc, first)?;
    let mut rest = bytes;
    while let Some((line, after)) = first_line(rest) {
        if let Some(last) = last_text(digits, line) {
            lines.push(Vec::from_slice(alloc, last)?)?;
            return Ok(lines);
        }
        lines.push(Vec::from_slice(alloc, line)?)?;
        rest = after;
    }
    Ok(lines)
}
