//! The facts that a client wants in listings, as OPTS MLST names them (RFC 3659, section 7.9).
ghost use Rattle.std.specs.Prelude.{◌≡◌};
ghost use Rattle.example_callers.specs.FactList.{facts_asked, facts_in, facts_text, names};

/// Which facts a listing has (RFC 3659, section 7.5).
#[derive(Clone, Copy, Debug, PartialEq, Eq)]
pub struct Facts {
    /// Whether an entry is a file or a directory.
    pub kind: bool,
    /// How many bytes it has.
    pub size: bool,
    /// When it was changed last.
    pub modify: bool,
}

/// Whether a name of the list, in which semicolons divide them, is this one, whatever the case of
/// its letters.
fn names(list: &[u8], fact: &[u8]) -> bool
    ensures { result ≡ names list.now fact.now }
{
    list.split(|byte| *byte == b';')
        .any(|name| name.eq_ignore_ascii_case(fact))
}

/// Those of the facts of a list that this server has.
fn facts_in(list: &[u8]) -> Facts
    ensures { result ≡ facts_in list.now }
{
    Facts {
        kind: names(list, b"type"),
        size: names(list, b"size"),
        modify: names(list, b"modify"),
    }
}

/// The facts that the text asks for, where it is OPTS MLST.
pub fn facts_asked(text: &[u8]) -> Option<Facts>
    ensures { result ≡ facts_asked text.now }
{
    let (words, rest) = text.split_at(text.len().min(9));
    if !words.eq_ignore_ascii_case(b"OPTS MLST") {
        return None;
    }
    match rest {
        [] => Some(facts_in(rest)),
        [b' ', list @ ..] => Some(facts_in(list)),
        _ => None,
    }
}

/// The reply to OPTS MLST: the facts that listings will have.
pub fn facts_text(facts: Facts) -> &'static str
    ensures { result.now ≡ facts_text facts }
{
    match (facts.kind, facts.size, facts.modify) {
        (true, true, true) => "MLST OPTS type;size;modify;",
        (true, true, false) => "MLST OPTS type;size;",
        (true, false, true) => "MLST OPTS type;modify;",
        (true, false, false) => "MLST OPTS type;",
        (false, true, true) => "MLST OPTS size;modify;",
        (false, true, false) => "MLST OPTS size;",
        (false, false, true) => "MLST OPTS modify;",
        (false, false, false) => "MLST OPTS",
    }
}
