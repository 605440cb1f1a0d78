//! Lines that end with CR LF.
ghost use Rattle.std.specs.Prelude.{◌≡◌, ◌≢◌, ℕ, ◌+◌, ◌-◌, ◌<◌, ◌≤◌, ◌∷◌, ◌++◌, length, slice_index, false, IsTrue, IfSome, IfNone};
ghost use Rattle.unftp_control_defs.specs.Bytes.{CR, LF, SP};
ghost use Rattle.unftp_control_defs.specs.ReplyReader.{LacksCrlf, GoesOn, with_crlf};
ghost use Rattle.unftp_control_read.specs.Search.{LacksCrlfUpTo};

use bstr::ByteSlice;
use unftp_control_defs::count::Count;

/// The position of the first line feed from `from` on. The bytes from there to it, or to the end,
/// are scanned, and counted.
fn line_feed_from(bytes: &[u8], from: usize, scanned: &mut Count) -> Option<usize>
    requires { from ≤ length bytes.now }
    ensures to_it { IfSome result (λ at. scanned.new + from ≡ scanned.old + (at + 1)) }
    ensures to_the_end { IfNone result (scanned.new + from ≡ scanned.old + length bytes.now) }
    ensures found { IfSome result (λ at. (from ≤ at) × (at < length bytes.now)
        × (slice_index bytes.now at ≡ LF)) }
    ensures before { IfSome result (λ at. (k : ℕ) → from ≤ k → k < at
        → slice_index bytes.now k ≢ LF) }
    ensures none { IfNone result ((k : ℕ) → from ≤ k → k < length bytes.now
        → slice_index bytes.now k ≢ LF) }
{
    let (_, ahead) = bytes.split_at(from);
    let Some(at) = ahead.find_byte(b'\n') else {
        scanned.raise_by(ahead.len());
        return None;
    };
    scanned.raise_by(at + 1);
    Some(from + at)
}

/// Whether there is a CR before this position.
fn ends_line(bytes: &[u8], at: usize) -> bool
    requires { at < length bytes.now }
    ensures yes { IsTrue result → (0 < at) × (slice_index bytes.now (at - 1) ≡ CR) }
    ensures no { result ≡ false → (k : ℕ) → at ≡ k + 1 → slice_index bytes.now k ≢ CR }
{
    at > 0 && bytes[at - 1] == b'\r'
}

/// The position of the first CR LF whose LF is not among the first `searched` bytes.
fn crlf_place(bytes: &[u8], searched: usize, scanned: &mut Count) -> Option<usize>
    requires { searched ≤ length bytes.now }
    ensures found { IfSome result (λ at. (at + 1 < length bytes.now)
        × (slice_index bytes.now at ≡ CR) × (slice_index bytes.now (at + 1) ≡ LF)) }
    ensures first { LacksCrlfUpTo searched bytes.now
        → IfSome result (λ at. LacksCrlfUpTo at bytes.now) }
    ensures none { LacksCrlfUpTo searched bytes.now
        → IfNone result (LacksCrlfUpTo (length bytes.now) bytes.now) }
    ensures to_it { IfSome result (λ at. scanned.new + searched ≡ scanned.old + (at + 2)) }
    ensures to_the_end { IfNone result (scanned.new + searched ≡ scanned.old + length bytes.now) }
{
    let mut from = searched;
    while let Some(at) = line_feed_from(bytes, from, scanned) {
        if ends_line(bytes, at) {
            return Some(at - 1);
        }
        from = at + 1;
    }
    None
}

/// The first line, without its CR LF, and what follows, where the first `searched` bytes have no
/// CR LF. The bytes after these, to the end of the line or of the bytes, are scanned, and counted.
pub(crate) fn next_line<'a>(
    bytes: &'a [u8],
    searched: usize,
    scanned: &mut Count,
) -> Option<(&'a [u8], &'a [u8])>
    requires { searched ≤ length bytes.now }
    ensures cut { IfSome result (λ cut. bytes.now ≡ with_crlf cut.0.now ++ cut.1.now) }
    ensures is_line { LacksCrlfUpTo searched bytes.now
        → IfSome result (λ cut. LacksCrlf cut.0.now) }
    ensures none { LacksCrlfUpTo searched bytes.now
        → IfNone result (LacksCrlfUpTo (length bytes.now) bytes.now) }
    ensures to_it { IfSome result (λ cut.
        scanned.new + searched ≡ scanned.old + (length cut.0.now + 2)) }
    ensures to_the_end { IfNone result (scanned.new + searched ≡ scanned.old + length bytes.now) }
{
    let at = crlf_place(bytes, searched, scanned)?;
    let (line, end) = bytes.split_at(at);
    let (_, rest) = end.split_at(2);
    Some((line, rest))
}

/// The first line, without its CR LF, and what follows.
pub(crate) fn first_line(bytes: &[u8]) -> Option<(&[u8], &[u8])>
    ensures cut { IfSome result (λ cut. bytes.now ≡ with_crlf cut.0.now ++ cut.1.now) }
    ensures is_line { IfSome result (λ cut. LacksCrlf cut.0.now) }
    ensures none { IfNone result (LacksCrlf bytes.now) }
{
    next_line(bytes, 0, &mut Count::new())
}

/// The text of a last line, which begins with the digits and a space.
pub(crate) fn last_text<'a>(digits: &[u8], line: &'a [u8]) -> Option<&'a [u8]>
    ensures found { IfSome result (λ text. line.now ≡ digits.now ++ SP ∷ text.now) }
    ensures none { IfNone result (GoesOn digits.now line.now) }
{
    line.strip_prefix(digits)?.strip_prefix(b" ")
}
