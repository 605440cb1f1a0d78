//! The verbs: their words, and what each takes as its parameter.
ghost use Rattle.std.specs.Prelude.{◌≡◌, ◌↔◌, IsSome, IsTrue, Some, false};
ghost use Rattle.unftp_control_defs.specs.Bytes.{Bytes};
ghost use Rattle.unftp_control_defs.specs.FtpCommand.{kind, number, verbs, word};
ghost use Rattle.unftp_control_defs.specs.Rules.{row_of};
ghost use Rattle.unftp_control_defs.specs.Verbs.{upper};
ghost use Rattle.unftp_control_defs.specs.Words.{from_four_bytes, to_four_bytes, verb_of_number};

/// What a verb takes as its parameter.
#[derive(Clone, Copy)]
pub enum Kind {
    /// Anything, which it ignores.
    Ignored,
    /// No value.
    Alone,
    /// Any bytes, or none.
    Raw,
    /// A text that is not empty.
    Text,
    /// A text, or none.
    OptionalText,
    /// The path of LIST after its options, or none where nothing is after them.
    Listing,
    /// A value of the verb's own type: a code, a mechanism, an option or a number.
    Typed,
    /// SITE: a subcommand and its parameter.
    Subcommand,
}

/// Which command it is, in the order of `Command`.
#[derive(Clone, Copy)]
pub enum Verb {
    /// USER: a user name (RFC 959, section 4.1.1).
    User,
    /// PASS: a password (RFC 959, section 4.1.1).
    Pass,
    /// ACCT: an account (RFC 959, section 4.1.1).
    Acct,
    /// SYST (RFC 959, section 4.1.3).
    Syst,
    /// STAT: a path or none (RFC 959, section 4.1.3).
    Stat,
    /// TYPE (RFC 959, section 4.1.2).
    TypeCode,
    /// STRU: a structure (RFC 959, section 4.1.2).
    Stru,
    /// MODE: a transfer mode (RFC 959, section 4.1.2).
    Mode,
    /// HELP (RFC 959, section 4.1.3).
    Help,
    /// NOOP (RFC 959, section 4.1.3).
    Noop,
    /// PASV (RFC 959, section 4.1.2).
    Pasv,
    /// EPSV (RFC 2428, section 3).
    Epsv,
    /// PORT: an address (RFC 959, section 4.1.2).
    Port,
    /// RETR: a path (RFC 959, section 4.1.3).
    Retr,
    /// STOR: a path (RFC 959, section 4.1.3).
    Stor,
    /// APPE: a path (RFC 959, section 4.1.3).
    Appe,
    /// LIST: a path or none, after options (RFC 959, section 4.1.3).
    List,
    /// NLST: a path or none (RFC 959, section 4.1.3).
    Nlst,
    /// MLST: a path or none (RFC 3659, section 7).
    Mlst,
    /// MLSD: a path or none (RFC 3659, section 7).
    Mlsd,
    /// FEAT (RFC 2389, section 3).
    Feat,
    /// PWD (RFC 959, section 4.1.3) or XPWD (RFC 1123, section 4.1.3.1).
    Pwd,
    /// CWD (RFC 959, section 4.1.1) or XCWD (RFC 1123, section 4.1.3.1): a path.
    Cwd,
    /// CDUP (RFC 959, section 4.1.1).
    Cdup,
    /// OPTS: an option and its setting (RFC 2389, section 4).
    Opts,
    /// DELE: a path (RFC 959, section 4.1.3).
    Dele,
    /// RMD: a path (RFC 959, section 4.1.3).
    Rmd,
    /// QUIT (RFC 959, section 4.1.1) or BYE, a word of the field.
    Quit,
    /// MKD (RFC 959, section 4.1.3) or XMKD (RFC 1123, section 4.1.3.1): a path.
    Mkd,
    /// ALLO (RFC 959, section 4.1.3).
    Allo,
    /// ABOR (RFC 959, section 4.1.3).
    Abor,
    /// STOU (RFC 959, section 4.1.3).
    Stou,
    /// RNFR: a path (RFC 959, section 4.1.3).
    Rnfr,
    /// RNTO: a path (RFC 959, section 4.1.3).
    Rnto,
    /// AUTH: a mechanism (RFC 2228, section 3).
    Auth,
    /// CCC (RFC 2228, section 3).
    Ccc,
    /// PBSZ: a size (RFC 2228, section 3).
    Pbsz,
    /// PROT: a protection level (RFC 2228, section 3).
    Prot,
    /// SIZE: a path (RFC 3659, section 4).
    Size,
    /// REST: an offset (RFC 3659, section 5).
    Rest,
    /// MDTM: a path (RFC 3659, section 3).
    Mdtm,
    /// SITE MD5: a path. Its word is a subcommand of SITE.
    Md5,
    /// Another subcommand of SITE and its arguments (RFC 959, section 4.1.3).
    Site,
    /// A verb with no rule of its own, and its arguments.
    Other,
}

impl Verb {
    /// Its number for C, its canonical word, and what it takes. Other subcommands of SITE and other
    /// verbs have no word here.
    // a caller wants one of the three, and then no tuple is made
    #[inline(always)]
    fn row(self) -> (u32, &'static str, Kind)
        // The number of its row in the definition's table.
        ensures number { result.0 ≡ number self }
        // The word of its row in the definition's table.
        ensures word { result.1.now ≡ word self }
        // The kind of its row in the definition's table.
        ensures kind { result.2 ≡ kind self }
    {
        match self {
            Verb::User => (1, "USER", Kind::Raw),
            Verb::Pass => (2, "PASS", Kind::Raw),
            Verb::Acct => (3, "ACCT", Kind::Raw),
            Verb::Syst => (4, "SYST", Kind::Ignored),
            Verb::Stat => (5, "STAT", Kind::Raw),
            Verb::TypeCode => (6, "TYPE", Kind::Ignored),
            Verb::Stru => (7, "STRU", Kind::Typed),
            Verb::Mode => (8, "MODE", Kind::Typed),
            Verb::Help => (9, "HELP", Kind::Ignored),
            Verb::Noop => (10, "NOOP", Kind::Alone),
            Verb::Pasv => (11, "PASV", Kind::Alone),
            Verb::Epsv => (12, "EPSV", Kind::Ignored),
            Verb::Port => (13, "PORT", Kind::Text),
            Verb::Retr => (14, "RETR", Kind::Text),
            Verb::Stor => (15, "STOR", Kind::Text),
            Verb::Appe => (16, "APPE", Kind::Text),
            Verb::List => (17, "LIST", Kind::Listing),
            Verb::Nlst => (18, "NLST", Kind::OptionalText),
            Verb::Mlst => (19, "MLST", Kind::OptionalText),
            Verb::Mlsd => (20, "MLSD", Kind::OptionalText),
            Verb::Feat => (21, "FEAT", Kind::Alone),
            Verb::Pwd => (22, "PWD", Kind::Alone),
            Verb::Cwd => (23, "CWD", Kind::Text),
            Verb::Cdup => (24, "CDUP", Kind::Alone),
            Verb::Opts => (25, "OPTS", Kind::Typed),
            Verb::Dele => (26, "DELE", Kind::Text),
            Verb::Rmd => (27, "RMD", Kind::Text),
            Verb::Quit => (28, "QUIT", Kind::Alone),
            Verb::Mkd => (29, "MKD", Kind::Text),
            Verb::Allo => (30, "ALLO", Kind::Ignored),
            Verb::Abor => (31, "ABOR", Kind::Alone),
            Verb::Stou => (32, "STOU", Kind::Alone),
            Verb::Rnfr => (33, "RNFR", Kind::Text),
            Verb::Rnto => (34, "RNTO", Kind::Text),
            Verb::Auth => (35, "AUTH", Kind::Typed),
            Verb::Ccc => (36, "CCC", Kind::Alone),
            Verb::Pbsz => (37, "PBSZ", Kind::Typed),
            Verb::Prot => (38, "PROT", Kind::Typed),
            Verb::Size => (39, "SIZE", Kind::Text),
            Verb::Rest => (40, "REST", Kind::Typed),
            Verb::Mdtm => (41, "MDTM", Kind::Text),
            Verb::Md5 => (42, "MD5", Kind::Text),
            Verb::Site => (43, "", Kind::Subcommand),
            Verb::Other => (44, "", Kind::OptionalText),
        }
    }

    /// Its number for C.
    pub fn number(self) -> u32
        // The verb's number in the definition's table.
        ensures { result ≡ number self }
    {
        self.row().0
    }

    /// Its canonical word; of SITE MD5 the subcommand. Empty for other subcommands and other verbs.
    pub fn word(self) -> &'static str
        // The verb's word in the definition's table.
        ensures { result.now ≡ word self }
    {
        self.row().1
    }

    /// What it takes.
    pub fn kind(self) -> Kind
        // The kind that the definition's table has for the verb.
        ensures { result ≡ kind self }
    {
        self.row().2
    }
}

/// The word, padded with NUL to four bytes; none where no verb has its length.
fn to_four_bytes(word: &[u8]) -> Option<[u8; 4]>
    ensures { result ≡ to_four_bytes word.now }
{
    match word {
        [a, b, c] => Some([*a, *b, *c, 0]),
        [a, b, c, d] if *d != 0 => Some([*a, *b, *c, *d]),
        _ => None,
    }
}

/// The verb of a word that is padded with NUL to four bytes, if it is one.
#[tactic(auto, using(crate::proofs::WordLemmas::verb_of_word))]
fn verb_of(word: &[u8; 4]) -> Option<Verb>
    ensures { result ≡ row_of (from_four_bytes word.now) verbs }
{
    verb_of_number(u32::from_be_bytes(*word))
}

/// The verb of a word as a number, its first letter the highest byte: of ABOR, 41 42 4F 52.
fn verb_of_number(number: u32) -> Option<Verb>
    ensures { result ≡ verb_of_number number }
{
    Some(match number {
        0x41424F52 => Verb::Abor,
        0x41434354 => Verb::Acct,
        0x414C4C4F => Verb::Allo,
        0x41505045 => Verb::Appe,
        0x41555448 => Verb::Auth,
        0x42594500 => Verb::Quit,
        0x43434300 => Verb::Ccc,
        0x43445550 => Verb::Cdup,
        0x43574400 => Verb::Cwd,
        0x44454C45 => Verb::Dele,
        0x45505356 => Verb::Epsv,
        0x46454154 => Verb::Feat,
        0x48454C50 => Verb::Help,
        0x4C495354 => Verb::List,
        0x4D44544D => Verb::Mdtm,
        0x4D4B4400 => Verb::Mkd,
        0x4D4C5344 => Verb::Mlsd,
        0x4D4C5354 => Verb::Mlst,
        0x4D4F4445 => Verb::Mode,
        0x4E4C5354 => Verb::Nlst,
        0x4E4F4F50 => Verb::Noop,
        0x4F505453 => Verb::Opts,
        0x50415353 => Verb::Pass,
        0x50415356 => Verb::Pasv,
        0x5042535A => Verb::Pbsz,
        0x504F5254 => Verb::Port,
        0x50524F54 => Verb::Prot,
        0x50574400 => Verb::Pwd,
        0x51554954 => Verb::Quit,
        0x52455354 => Verb::Rest,
        0x52455452 => Verb::Retr,
        0x524D4400 => Verb::Rmd,
        0x524E4652 => Verb::Rnfr,
        0x524E544F => Verb::Rnto,
        0x53495445 => Verb::Site,
        0x53495A45 => Verb::Size,
        0x53544154 => Verb::Stat,
        0x53544F52 => Verb::Stor,
        0x53544F55 => Verb::Stou,
        0x53545255 => Verb::Stru,
        0x53595354 => Verb::Syst,
        0x54595045 => Verb::TypeCode,
        0x55534552 => Verb::User,
        0x58435744 => Verb::Cwd,
        0x584D4B44 => Verb::Mkd,
        0x58505744 => Verb::Pwd,
        _ => return None,
    })
}

/// The bytes, their ASCII letters in upper case.
fn upper_cased(word: [u8; 4]) -> [u8; 4]
    ensures { result ≡ upper word }
{
    let [a, b, c, d] = word;
    [
        a.to_ascii_uppercase(),
        b.to_ascii_uppercase(),
        c.to_ascii_uppercase(),
        d.to_ascii_uppercase(),
    ]
}

/// Whether a byte may be a letter in lower case. If none is, the word is in upper case.
fn may_have_lower_case(word: [u8; 4]) -> bool
    ensures { result ≡ false → upper word ≡ word }
{
    let [a, b, c, d] = word;
    a >= b'a' || b >= b'a' || c >= b'a' || d >= b'a'
}

/// The verb of a word that is padded with NUL to four bytes, ignoring ASCII case, if it is one.
#[inline(always)]
#[tactic(auto, using(crate::proofs::WordLemmas::words))]
fn padded_verb(padded: [u8; 4]) -> Option<Verb>
    ensures { (word : Bytes) → to_four_bytes word ≡ Some padded
        → result ≡ row_of (upper word) verbs }
{
    // clients send verbs in upper case
    match verb_of(&padded) {
        Some(verb) => Some(verb),
        None if may_have_lower_case(padded) => verb_of(&upper_cased(padded)),
        None => None,
    }
}

/// The verb that a word is, ignoring ASCII case.
// most verbs have four letters, which are read at once
#[inline(always)]
#[tactic(auto, using(crate::proofs::WordLemmas::words))]
pub fn verb_named(word: &[u8]) -> Option<Verb>
    // The verb whose word in the definition's table this is, ignoring ASCII case; else `None`.
    ensures { result ≡ row_of (upper word.now) verbs }
{
    match word {
        [a, b, c, d] if *d != 0 => padded_verb([*a, *b, *c, *d]),
        [a, b, c] => padded_verb([*a, *b, *c, 0]),
        _ => None,
    }
}

/// Whether the word is a verb with a rule of its own, in upper case (RFC 959, section 5.3). It
/// takes no memory.
#[tactic(auto, using(crate::proofs::WordLemmas::words))]
pub fn is_verb(word: &[u8]) -> bool
    // True exactly for the words of the definition's table, in upper case.
    ensures { IsTrue result ↔ IsSome (row_of word.now verbs) }
{
    match to_four_bytes(word) {
        Some(word) => verb_of(&word).is_some(),
        None => false,
    }
}
