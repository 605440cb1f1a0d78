//! A password whose bytes never appear in Display or Debug output.
ghost use Rattle.std.specs.Prelude.{◌≡◌, ◌↔◌, ℕ, List, IsTrue, IfOk, Some, codes};
ghost use Rattle.std.specs.Fmt.{DisplaysOnOk, DisplaysStyledOnOk};

use bytes::Bytes;
use std::alloc::{AllocError, Global};
use std::convert::AsSlice;
use std::fmt;
use std::marker::Model;

/// A password as the bytes that the client sent (RFC 959, section 4.1.1), in no particular
/// encoding. Contracts see these bytes.
///
/// Its bytes and their number appear in no text, under any flag of the formatter: the text is the
/// same for all passwords. The clauses are `output` and `styled_output` of Display, and `writes`
/// and `styled` of Debug's `fmt`. They hold where `fmt` returns `Ok`, and say nothing of the
/// indented parts of another value's `{:#?}`.
///
/// It is not wiped when it is dropped, and `==` may take longer for passwords that are alike at
/// their beginning.
#[derive(Drop)]
pub struct Password {
    bytes: Bytes,
}

impl Model for Password {
    ghost use Rattle.std.specs.Prelude.{ℕ, List};

    ghost Value = { List ℕ };

    ghost view = { λ password. password.bytes };
}

impl Password {
    /// Holds these bytes, and takes no memory.
    pub fn new(bytes: Bytes) -> Password
        // It holds exactly these bytes.
        ensures { result ≡ bytes }
    {
        Password { bytes }
    }

    /// Holds the bytes of the text; `AllocError` when out of memory.
    pub fn from_text(alloc: Global, text: &str) -> Result<Password, AllocError>
        // At `Ok` it holds exactly the bytes of the text.
        ensures { IfOk result (λ password. password ≡ text.now) }
    {
        Ok(Password::new(Bytes::copy_from_slice(alloc, text.as_bytes())?))
    }

    /// Its bytes.
    pub fn as_ref(&self) -> &[u8]
        // Exactly the bytes that it holds.
        ensures { result.now ≡ self.now }
    {
        self.bytes.as_slice()
    }

    /// An equal password, or `AllocError` when out of memory, which leaves this one as it is.
    pub fn clone(&self) -> Result<Password, AllocError>
        // At `Ok` the new password has the same bytes.
        ensures { IfOk result (λ password. password ≡ self.now) }
    {
        Ok(Password {
            bytes: self.bytes.clone()?,
        })
    }
}

impl AsSlice<u8> for Password {
    ghost items = { λ password. password };

    fn as_slice(&self) -> &[u8] {
        self.as_ref()
    }
}

/// Equality of the bytes.
impl PartialEq for Password {
    ghost use Rattle.std.specs.Prelude.{nat_eq};
    ghost use Rattle.std.specs.Cmp.{partial_equiv_from_equiv};
    ghost use Rattle.std.specs.Cmp.Lexicographic.{nat_list_eq_equiv, pointwise};

    ghost eq = { pointwise nat_eq };

    ghost laws = { partial_equiv_from_equiv nat_list_eq_equiv };

    fn eq(&self, other: &Self) -> bool {
        self.as_ref() == other.as_ref()
    }
}

impl Eq for Password {
    ghost use Rattle.std.specs.Cmp.Lexicographic.{nat_list_eq_equiv};

    ghost laws = { nat_list_eq_equiv };
}

/// One text for all passwords, under all flags.
impl fmt::Display for Password {
    ghost use Rattle.std.specs.Prelude.{Some, codes};

    ghost output = { λ _. Some (codes "*******") };

    ghost styled_output = { λ _ _. Some (codes "*******") };

    fn fmt<W: fmt::Write>(&self, f: &mut fmt::Formatter<W>) -> fmt::Result {
        f.write_str("*******")
    }
}

/// One text for all passwords, under all flags.
impl fmt::Debug for Password {
    ghost use Rattle.std.specs.Prelude.{Some, codes};

    ghost debug_output = { λ _. Some (codes "Password { bytes: ******* }") };

    fn fmt<W: fmt::Write>(&self, f: &mut fmt::Formatter<W>) -> fmt::Result
        // At `Ok`, under no flags, it has written this one text, whatever the password.
        ensures writes { DisplaysOnOk W.write_str_gives f.old result
            (Some (codes "Password { bytes: ******* }")) f.new }
        // At `Ok` it has written the same text under any flags, where it is no indented part of
        // another value's `{:#?}`.
        ensures styled { DisplaysStyledOnOk W.write_str_gives f.old result
            (Some (codes "Password { bytes: ******* }")) f.new }
    {
        f.write_str("Password { bytes: ******* }")
    }
}

/// `==` of passwords is equality of their bytes.
pub fn same_passwords()
    // `==` of two passwords is true exactly where their bytes are equal.
    ensures { (a b : List ℕ) → IsTrue (⟦<Password as PartialEq>⟧.eq a b) ↔ (a ≡ b) }
{}
