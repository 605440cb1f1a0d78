//! Areas of the caller's, to which texts are written.
ghost use Rattle.std.specs.Prelude.{◌≡◌};
ghost use Rattle.unftp_control_c.specs.Areas.{made, written};

use crate::status::Status;
use unftp_control_commands::pieces::overwrite;

/// Writes the text to the start of the area, where it has room for it, and reports how long it is:
/// the number of what has come of it.
pub fn write(text: Result<Vec<u8>, Status>, area: &mut [u8], len: &mut usize) -> u32
    // A text is written where the area has room for it. Otherwise the area is unchanged. The result
    // and the length are the definition's.
    ensures { record { result = result; area = area.new; text_length = len.new }
        ≡ written (made text) area.old }
{
    *len = 0;
    let text = match text {
        Ok(text) => text,
        Err(status) => return status.number(),
    };
    *len = text.len();
    if text.len() > area.len() {
        return Status::NoRoom.number();
    }
    overwrite(text.as_slice(), area);
    Status::Done.number()
}
