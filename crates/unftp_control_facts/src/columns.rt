//! The columns of a line of LIST.
ghost use Rattle.std.specs.Prelude.{◌≡◌, ◌≤◌, ◌++◌, OnOk, length, replicate};
ghost use Rattle.unftp_control_facts.specs.Listing.{bit_letter, left, mode_text, owner, right, rwx};

use itoa::Buffer;
use std::alloc::AllocError;

/// Appends the nine letters of the permissions.
pub(crate) fn push_mode(line: &mut Vec<u8>, mode: u32) -> Result<(), AllocError>
    ensures { OnOk result (line.new.items ≡ line.old.items ++ mode_text mode) }
{
    push_rwx(line, mode / 64)?;
    push_rwx(line, mode / 8)?;
    push_rwx(line, mode)
}

/// Appends the three letters of the lowest bits.
fn push_rwx(line: &mut Vec<u8>, bits: u32) -> Result<(), AllocError>
    ensures { OnOk result (line.new.items ≡ line.old.items ++ rwx bits) }
{
    line.extend_from_slice(&[
        bit_letter(bits / 4, b'r'),
        bit_letter(bits / 2, b'w'),
        bit_letter(bits, b'x'),
    ])
}

/// The letter where the lowest bit is set, and a dash where it isn't.
fn bit_letter(bits: u32, letter: u8) -> u8
    ensures { result ≡ bit_letter bits letter }
{
    if bits % 2 == 1 { letter } else { b'-' }
}

/// Appends a user or a group in its column.
pub(crate) fn push_owner(line: &mut Vec<u8>, id: u32) -> Result<(), AllocError>
    ensures { OnOk result (line.new.items ≡ line.old.items ++ left 8 (owner id)) }
{
    if id == 0 {
        return push_left(line, 8, b"ftp");
    }
    let mut digits = Buffer::new();
    push_left(line, 8, digits.format(id).as_bytes())
}

/// Appends a text at the right of a column of so many bytes, which a longer one exceeds.
pub(crate) fn push_right(line: &mut Vec<u8>, width: usize, text: &[u8]) -> Result<(), AllocError>
    requires { width ≤ 12 }
    ensures { OnOk result (line.new.items ≡ line.old.items ++ right width text.now) }
{
    push_spaces(line, width.saturating_sub(text.len()))?;
    line.extend_from_slice(text)
}

/// Appends a text at the left of such a column.
fn push_left(line: &mut Vec<u8>, width: usize, text: &[u8]) -> Result<(), AllocError>
    requires { width ≤ 12 }
    ensures { OnOk result (line.new.items ≡ line.old.items ++ left width text.now) }
{
    line.extend_from_slice(text)?;
    push_spaces(line, width.saturating_sub(text.len()))
}

/// Appends so many spaces.
fn push_spaces(line: &mut Vec<u8>, count: usize) -> Result<(), AllocError>
    requires { count ≤ 12 }
    ensures { OnOk result (line.new.items ≡ line.old.items ++ replicate count 32) }
{
    line.resize(line.len() + count, b' ')
}
