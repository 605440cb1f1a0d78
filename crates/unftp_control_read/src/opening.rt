//! The first line of a reply.
ghost use Rattle.std.specs.Prelude.{◌≡◌, ◌≤◌, length, take, MatchOption};
ghost use Rattle.unftp_control_defs.specs.ComputedReply.{Nothing, code_of, opening};
ghost use Rattle.unftp_control_read.specs.Reading.{opened_by};

/// The number that three digits spell.
pub(crate) fn code_of(digits: &[u8]) -> Option<u16>
    ensures { result ≡ code_of digits.now }
{
    let [a, b, c] = digits else {
        return None;
    };
    if a.is_ascii_digit() && b.is_ascii_digit() && c.is_ascii_digit() {
        Some(u16::from(*a - b'0') * 100 + u16::from(*b - b'0') * 10 + u16::from(*c - b'0'))
    } else {
        None
    }
}

/// What follows the code: the one text, after a space or empty if nothing follows, or the first of
/// several after a dash.
#[derive(Drop)]
pub(crate) enum AfterCode<'a> {
    /// The one text.
    One(&'a [u8]),
    /// The first of several.
    Several(&'a [u8]),
}

/// How a line opens a reply: its code, the digits that spell it, and what follows them.
#[derive(Drop)]
pub(crate) struct Opening<'a> {
    pub(crate) code: u16,
    pub(crate) digits: &'a [u8],
    pub(crate) kind: AfterCode<'a>,
}

/// How the line opens a reply.
pub(crate) fn opening_of(line: &[u8]) -> Option<Opening<'_>>
    ensures { MatchOption result (opening line.now ≡ Nothing) (λ opened. (3 ≤ length line.now)
        × (opened.digits.now ≡ take 3 line.now)
        × (opening line.now ≡ opened_by opened.code opened.kind)) }
{
    let (digits, after) = line.split_at_checked(3)?;
    let code = code_of(digits)?;
    let kind = match after {
        [] => AfterCode::One(after),
        [b' ', text @ ..] => AfterCode::One(text),
        [b'-', text @ ..] => AfterCode::Several(text),
        _ => return None,
    };
    Some(Opening { code, digits, kind })
}
