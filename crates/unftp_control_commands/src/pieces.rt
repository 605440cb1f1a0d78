//! Texts that are written piece by piece to an area of a caller's, without memory.
ghost use Rattle.std.specs.Prelude.{◌≡◌, ◌≤◌, ◌+◌, ◌++◌, ◌∷◌, length, take, drop, MatchOption};
ghost use Rattle.unftp_control_defs.specs.Bytes.{Bytes, Lacks};
ghost use Rattle.unftp_control_commands.specs.Areas.{HasText, overwritten};

use memchr::memchr;

/// The bytes before the first such byte, and those after it; none where there is no such byte.
pub fn cut(bytes: &[u8], byte: u8) -> Option<(&[u8], &[u8])>
    // At `None` the byte does not occur. Otherwise the first part lacks it, and the first part, the
    // byte and the second part make up the input.
    ensures { MatchOption result (Lacks byte bytes.now) (λ sides. Lacks byte sides.0.now
        × (bytes.now ≡ sides.0.now ++ byte ∷ sides.1.now)) }
{
    match memchr(byte, bytes) {
        Some(at) => {
            let (front, _) = bytes.split_at(at);
            let (_, rest) = bytes.split_at(at + 1);
            Some((front, rest))
        }
        None => None,
    }
}

/// Writes the text to the start of the area, which has room for it.
pub fn overwrite(text: &[u8], area: &mut [u8])
    // The area is at least as long as the text.
    requires { length text.now ≤ length area.old }
    // The text is at the start of the area, and the bytes after it are unchanged.
    ensures { area.new ≡ overwritten text.now area.old }
{
    let (front, _) = area.split_at_mut(text.len());
    front.copy_from_slice(text);
}

/// Writes two texts, one after the other, to the start of the area, which has room for both.
#[tactic(auto, using(crate::proofs::AreaLemmas::one_after_the_other))]
pub fn overwrite_both(text: &[u8], next: &[u8], area: &mut [u8])
    // The area is at least as long as both texts together.
    requires { length text.now + length next.now ≤ length area.old }
    // Both texts are at the start of the area, and the bytes after them are unchanged.
    ensures { area.new ≡ overwritten (text.now ++ next.now) area.old }
{
    let (front, rest) = area.split_at_mut(text.len());
    front.copy_from_slice(text);
    if !next.is_empty() {
        overwrite(next, rest);
    }
}

/// Writes the piece to this place of the area, which has room for it there.
fn overwrite_at(at: usize, piece: &[u8], area: &mut [u8])
    requires { at + length piece.now ≤ length area.old }
    ensures { area.new ≡ take at area.old ++ overwritten piece.now (drop at area.old) }
{
    let (_, rest) = area.split_at_mut(at);
    overwrite(piece, rest);
}

/// Writes a piece of a text after those before it, where the area has room for it, and adds its
/// length to theirs: more than `usize::MAX` is counted as `usize::MAX`. An area that lacks room for
/// the whole text may have any bytes after it; an empty one serves to count.
pub fn put(piece: &[u8], area: &mut [u8], len: &mut usize)
    // Where the area and the length fit a text before the call, they fit that text and the piece
    // after it.
    ensures { (start text : Bytes) → HasText start text area.old len.old
        → HasText start (text ++ piece.now) area.new len.new }
{
    let at = *len;
    let end = at.saturating_add(piece.len());
    *len = end;
    if end <= area.len() {
        overwrite_at(at, piece, area);
    }
}
