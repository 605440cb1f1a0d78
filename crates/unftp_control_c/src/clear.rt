//! Lines without the bytes that servers read in different ways.
ghost use Rattle.std.specs.Prelude.{◌≡◌, if◌then◌else◌};
ghost use Rattle.unftp_control_write.specs.ClearLines.{is_clear};

use unftp_control_write::is_clear;

/// Whether the line is clear: `unftp_is_clear` of include/unftp_control.h.
#[unsafe(no_mangle)]
pub extern "C" fn unftp_is_clear(line: &[u8]) -> u32
    // It is 1 where the line is clear, and 0 where it isn't.
    ensures { result ≡ (if is_clear line.now then 1 else 0) }
{
    u32::from(is_clear(line))
}
