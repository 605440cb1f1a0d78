//! The parameters that name one of a few choices.
ghost use Rattle.std.specs.Prelude.{◌≡◌, ◌↔◌, IsTrue};
ghost use Rattle.unftp_control_defs.specs.Said.{choice_word};
ghost use Rattle.unftp_control_defs.specs.declared.parameters.AuthParam.{AuthParam as RustAuthParam};
ghost use Rattle.unftp_control_defs.specs.declared.parameters.ModeParam.{ModeParam as RustModeParam};
ghost use Rattle.unftp_control_defs.specs.declared.parameters.Opt.{Opt as RustOpt};
ghost use Rattle.unftp_control_defs.specs.declared.parameters.ProtParam.{ProtParam as RustProtParam};
ghost use Rattle.unftp_control_defs.specs.declared.parameters.StruParam.{StruParam as RustStruParam};

/// The security mechanism that AUTH asks for (RFC 4217, section 4).
#[derive(Debug, PartialEq, Eq, Clone, Copy)]
pub enum AuthParam {
    /// `SSL`, which is older than the RFC.
    Ssl,
    /// `TLS`.
    Tls,
}

/// The transfer mode that MODE asks for (RFC 959, section 3.4).
#[derive(Debug, PartialEq, Eq, Clone, Copy)]
pub enum ModeParam {
    /// `S`: the file as a stream of bytes.
    Stream,
    /// `B`: the file as blocks, each with a header.
    Block,
    /// `C`: the file compressed.
    Compressed,
}

/// The option that OPTS sets (RFC 2389, section 4).
#[derive(Debug, PartialEq, Eq, Clone, Copy)]
pub enum Opt {
    /// `UTF8`: whether path names are UTF-8 (RFC 2640).
    Utf8 {
        /// `ON` or `OFF`.
        on: bool,
    },
}

/// The protection of the data channel that PROT asks for (RFC 2228, section 3).
#[derive(Debug, PartialEq, Eq, Clone, Copy)]
pub enum ProtParam {
    /// `C`: none.
    Clear,
    /// `S`: only integrity.
    Safe,
    /// `E`: only confidentiality.
    Confidential,
    /// `P`: integrity and confidentiality.
    Private,
}

/// The file structure that STRU asks for (RFC 959, section 3.1.2).
#[derive(Debug, PartialEq, Eq, Clone, Copy)]
pub enum StruParam {
    /// `F`: no inner structure.
    File,
    /// `R`: records.
    Record,
    /// `P`: indexed pages.
    Page,
}

/// `==` of these parameters is equality, and a clone is equal.
pub fn same_parameters()
    // `==` of two AUTH parameters is true exactly where they are equal.
    ensures auth { (a b : RustAuthParam) → IsTrue (⟦<AuthParam as PartialEq>⟧.eq a b) ↔ (a ≡ b) }
    // A clone of an AUTH parameter is equal to it.
    ensures auth_clone { (a b : RustAuthParam) → ⟦<AuthParam as Clone>⟧.is_clone a b → b ≡ a }
    // `==` of two MODE parameters is true exactly where they are equal.
    ensures mode { (a b : RustModeParam) → IsTrue (⟦<ModeParam as PartialEq>⟧.eq a b) ↔ (a ≡ b) }
    // A clone of a MODE parameter is equal to it.
    ensures mode_clone { (a b : RustModeParam) → ⟦<ModeParam as Clone>⟧.is_clone a b → b ≡ a }
    // `==` of two OPTS options is true exactly where they are equal.
    ensures opt { (a b : RustOpt) → IsTrue (⟦<Opt as PartialEq>⟧.eq a b) ↔ (a ≡ b) }
    // A clone of an OPTS option is equal to it.
    ensures opt_clone { (a b : RustOpt) → ⟦<Opt as Clone>⟧.is_clone a b → b ≡ a }
    // `==` of two PROT parameters is true exactly where they are equal.
    ensures prot { (a b : RustProtParam) → IsTrue (⟦<ProtParam as PartialEq>⟧.eq a b) ↔ (a ≡ b) }
    // A clone of a PROT parameter is equal to it.
    ensures prot_clone { (a b : RustProtParam) → ⟦<ProtParam as Clone>⟧.is_clone a b → b ≡ a }
    // `==` of two STRU parameters is true exactly where they are equal.
    ensures stru { (a b : RustStruParam) → IsTrue (⟦<StruParam as PartialEq>⟧.eq a b) ↔ (a ≡ b) }
    // A clone of a STRU parameter is equal to it.
    ensures stru_clone { (a b : RustStruParam) → ⟦<StruParam as Clone>⟧.is_clone a b → b ≡ a }
{}

/// The value of a command that takes one of a few.
#[derive(Clone, Copy)]
pub enum Choice {
    /// Of STRU.
    Structure(StruParam),
    /// Of MODE.
    Mode(ModeParam),
    /// Of PROT.
    Protection(ProtParam),
    /// Of AUTH.
    Mechanism(AuthParam),
    /// Of OPTS.
    Setting(Opt),
    /// Of PBSZ: the size 0 (RFC 4217, section 9).
    NoBuffer,
}

impl Choice {
    /// Its word on a line, in upper case.
    pub fn word(&self) -> &'static [u8]
        // The word that the definition's table has for this choice.
        ensures { result.now ≡ choice_word self.now }
    {
        match self {
            Choice::Structure(StruParam::File) => b"F",
            Choice::Structure(StruParam::Record) => b"R",
            Choice::Structure(StruParam::Page) => b"P",
            Choice::Mode(ModeParam::Stream) => b"S",
            Choice::Mode(ModeParam::Block) => b"B",
            Choice::Mode(ModeParam::Compressed) => b"C",
            Choice::Protection(ProtParam::Clear) => b"C",
            Choice::Protection(ProtParam::Safe) => b"S",
            Choice::Protection(ProtParam::Confidential) => b"E",
            Choice::Protection(ProtParam::Private) => b"P",
            Choice::Mechanism(AuthParam::Ssl) => b"SSL",
            Choice::Mechanism(AuthParam::Tls) => b"TLS",
            Choice::Setting(Opt::Utf8 { on: true }) => b"UTF8 ON",
            Choice::Setting(Opt::Utf8 { on: false }) => b"UTF8 OFF",
            Choice::NoBuffer => b"0",
        }
    }
}
