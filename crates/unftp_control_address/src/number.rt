//! Numbers in decimal, and lists of them.
ghost use Rattle.std.specs.Prelude.{◌≡◌, ◌≢◌, ◌<◌, ◌≤◌, ◌==◌, []};
ghost use Rattle.std.specs.Prelude.{Some, ◌∷◌, MatchOption, false, length, option_map, List, ℕ};
ghost use Rattle.std.specs.List.{before_first, after_first, list_all, position_or_len};
ghost use Rattle.std.specs.Char.{is_ascii_digit};
ghost use Rattle.unftp_control_address.specs.Numbers.{is_number, number_below, octet, octets_between, of_length, short};

/// The text before the first such byte, and what is after it; none where there is no such byte.
pub(crate) fn cut(text: &[u8], byte: u8) -> Option<(&[u8], &[u8])>
    ensures { MatchOption result (length text.now ≤ position_or_len (λ b. b == byte) text.now)
        (λ sides. (position_or_len (λ b. b == byte) text.now < length text.now)
        × (sides.0.now ≡ before_first (λ b. b == byte) text.now)
        × (sides.1.now ≡ after_first (λ b. b == byte) text.now)) }
{
    let end = text.iter().position(|b| *b == byte)?;
    let (front, _) = text.split_at(end);
    let (_, rest) = text.split_at(end + 1);
    Some((front, rest))
}

/// Whether each byte is a digit.
fn are_digits(text: &[u8]) -> bool
    ensures { result ≡ list_all is_ascii_digit text.now }
{
    text.iter().all(|b| b.is_ascii_digit())
}

/// Whether the text is digits, at least one and at most so many.
fn is_number(text: &[u8], most: usize) -> bool
    ensures { result ≡ is_number most text.now }
{
    !text.is_empty() && text.len() <= most && are_digits(text)
}

/// The number that the text spells, of at most so many digits; none where it spells none.
fn number(text: &[u8], most: usize) -> Option<u32>
    requires { most ≤ 5 }
    ensures { result ≡ number_below most 100000 text.now }
{
    if !is_number(text, most) {
        return None;
    }
    let mut number = 0u32;
    for byte in text {
        number = 10 * number + u32::from(*byte - b'0');
    }
    Some(number)
}

/// A number of 8 bits, of one to three digits.
#[tactic(auto, using(crate::proofs::NumberLemmas::narrow, crate::proofs::NumberLemmas::narrow_none))]
pub(crate) fn octet(text: &[u8]) -> Option<u8>
    ensures { result ≡ octet text.now }
{
    u8::try_from(number(text, 3)?).ok()
}

/// A number of 16 bits, of one to five digits.
#[tactic(auto, using(crate::proofs::NumberLemmas::narrow, crate::proofs::NumberLemmas::narrow_none))]
pub(crate) fn short(text: &[u8]) -> Option<u16>
    ensures { result ≡ short text.now }
{
    u16::try_from(number(text, 5)?).ok()
}

/// The number before the first separator, and what is after it.
#[tactic(auto, using(crate::proofs::OctetLemmas::no_front, crate::proofs::OctetLemmas::bad_front, crate::proofs::OctetLemmas::front))]
fn octet_before(text: &[u8], separator: u8) -> Option<(u8, &[u8])>
    ensures { MatchOption result
        ((ns : List ℕ) → octets_between separator text.now ≡ Some ns → length ns ≤ 1)
        (λ first. octets_between separator text.now
        ≡ option_map (λ ns. first.0 ∷ ns) (octets_between separator first.1.now)) }
{
    let (front, rest) = cut(text, separator)?;
    let number = octet(front)?;
    Some((number, rest))
}

/// The number that is the whole text.
#[tactic(auto, using(crate::proofs::OctetLemmas::not_one, crate::proofs::OctetLemmas::one))]
fn last_octet(text: &[u8], separator: u8) -> Option<u8>
    requires { is_ascii_digit separator ≡ false }
    ensures { MatchOption result
        ((ns : List ℕ) → octets_between separator text.now ≡ Some ns → length ns ≢ 1)
        (λ n. octets_between separator text.now ≡ Some (n ∷ [])) }
{
    octet(text)
}

/// The numbers between the separators, where there are so many and nothing else.
pub(crate) fn octets<const N: usize>(text: &[u8], separator: u8) -> Option<[u8; N]>
    requires some { 0 < N }
    requires separates { is_ascii_digit separator ≡ false }
    ensures { result ≡ of_length N (octets_between separator text.now) }
{
    let mut octets = [0u8; N];
    let mut rest = text;
    let last = N - 1;
    for place in 0..last {
        let (octet, more) = octet_before(rest, separator)?;
        octets[place] = octet;
        rest = more;
    }
    octets[last] = last_octet(rest, separator)?;
    Some(octets)
}
