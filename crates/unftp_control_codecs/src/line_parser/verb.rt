//! Verbs of lines.
ghost use Rattle.std.specs.Prelude.{◌≡◌, bytes_eq};
ghost use Rattle.unftp_control_defs.specs.Forwarded.{kind_keeps};
ghost use Rattle.unftp_control_defs.specs.Verbs.{upper};

use unftp_control_defs::verb::Kind;

/// Whether the words are the same, ignoring ASCII case.
#[inline]
pub fn is_same_word(word: &[u8], other: &[u8]) -> bool
    // True exactly where the words are equal in upper case.
    ensures { result ≡ bytes_eq (upper word.now) (upper other.now) }
{
    word.eq_ignore_ascii_case(other)
}

/// Whether a line of a verb of this kind is forwarded with its own parameter, since its command may
/// hold less than that (RFC 959, section 5.3).
pub fn kind_keeps(kind: Kind) -> bool
    // False exactly for `Alone` and `Typed`.
    ensures { result ≡ kind_keeps kind }
{
    !matches!(kind, Kind::Alone | Kind::Typed)
}
