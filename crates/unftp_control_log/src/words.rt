//! The words that a log shows.
ghost use Rattle.std.specs.Prelude.{◌≡◌, bytes_eq};
ghost use Rattle.std.specs.List.{list_any};
ghost use Rattle.unftp_control_defs.specs.Rules.{row_of};
ghost use Rattle.unftp_control_defs.specs.Verbs.{upper};
ghost use Rattle.unftp_control_log.specs.LogLine.{further_verbs, is_listed, shows_arguments, site_words};

use unftp_control_defs::verb::verb_named;

/// Whether a log shows this verb, in letters of any case: one with a rule of its own, or another of
/// the registry of FTP's commands (RFC 5797, section 3). ALGS is of RFC 6384, HOST of RFC 7151,
/// XCUP and XRMD of RFC 1123, section 4.1.3.1. No memory is taken.
pub(crate) fn is_listed(verb: &[u8]) -> bool
    ensures { result ≡ is_listed verb.now }
{
    verb_named(verb).is_some() || is_further_in_any_case(verb)
}

/// Calls a function with these letters in upper case.
macro_rules! in_upper_case {
    ($call:ident, $($letter:ident)+) => {
        $call(&[$($letter.to_ascii_uppercase()),+])
    };
}

/// Whether the verb, in letters of any case, has no rule of its own, and is of that registry: its
/// words have three or four letters.
fn is_further_in_any_case(verb: &[u8]) -> bool
    ensures { result ≡ list_any (bytes_eq (upper verb.now)) further_verbs }
{
    match verb {
        [a, b, c] => in_upper_case!(is_further_verb, a b c),
        [a, b, c, d] => in_upper_case!(is_further_verb, a b c d),
        _ => false,
    }
}

/// Whether the verb has no rule of its own, and is of that registry.
fn is_further_verb(verb: &[u8]) -> bool
    ensures { result ≡ list_any (bytes_eq verb.now) further_verbs }
{
    matches!(
        verb,
        b"ADAT"
            | b"ALGS"
            | b"CONF"
            | b"ENC"
            | b"EPRT"
            | b"HOST"
            | b"LANG"
            | b"LPRT"
            | b"LPSV"
            | b"MIC"
            | b"REIN"
            | b"SMNT"
            | b"XCUP"
            | b"XRMD"
    )
}

/// Whether a log shows the arguments of this subcommand of SITE, in letters of any case; none where
/// it does not even show the subcommand: those that it shows have three to five letters.
pub(crate) fn shows_arguments(subcommand: &[u8]) -> Option<bool>
    ensures { result ≡ shows_arguments subcommand.now }
{
    match subcommand {
        [a, b, c] => in_upper_case!(upper_case_shows_arguments, a b c),
        [a, b, c, d] => in_upper_case!(upper_case_shows_arguments, a b c d),
        [a, b, c, d, e] => in_upper_case!(upper_case_shows_arguments, a b c d e),
        _ => None,
    }
}

/// So it is of one in upper case.
fn upper_case_shows_arguments(subcommand: &[u8]) -> Option<bool>
    ensures { result ≡ row_of subcommand.now site_words }
{
    match subcommand {
        b"CHMOD" | b"IDLE" | b"MD5" | b"UMASK" | b"UTIME" => Some(true),
        b"EXEC" | b"GPASS" | b"GROUP" | b"HELP" | b"PSWD" => Some(false),
        _ => None,
    }
}
