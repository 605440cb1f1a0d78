//! The parameter of a line, as bytes.
ghost use Rattle.std.specs.Prelude.{◌≡◌, option_map};
ghost use Rattle.unftp_control_message.specs.SentValues.{sent_value};
ghost use Rattle.unftp_control_c.specs.Areas.{written};
ghost use Rattle.unftp_control_c.specs.Parameters.{list_path_bytes, or_invalid_eol, parameter_bytes};

use crate::status::Status;
use unftp_control_codecs::line_parser::{list_path, parameter};
use unftp_control_message::sent::Sent;

/// The parameter of a line: `unftp_parameter` of include/unftp_control.h.
#[unsafe(no_mangle)]
pub extern "C" fn unftp_parameter(line: &[u8], out: &mut [u8], len: &mut usize) -> u32
    // The value of the line's parameter is written, or `out` is unchanged and the result reports an
    // invalid line ending or no room.
    ensures { record { result = result; area = out.new; text_length = len.new }
        ≡ written (parameter_bytes line.now) out.old }
{
    write_value(parameter(line), out, len)
}

/// The path of LIST or NLST: `unftp_list_path` of include/unftp_control.h.
#[unsafe(no_mangle)]
pub extern "C" fn unftp_list_path(line: &[u8], out: &mut [u8], len: &mut usize) -> u32
    // The path of LIST in that value is written, or `out` is unchanged and the result reports an
    // invalid line ending or no room.
    ensures { record { result = result; area = out.new; text_length = len.new }
        ≡ written (list_path_bytes line.now) out.old }
{
    write_value(list_path(line), out, len)
}

/// Writes the value to the start of the area, where it has room for it, and reports how long it is:
/// the number of what has come of it.
fn write_value(value: Option<Sent<'_>>, area: &mut [u8], len: &mut usize) -> u32
    ensures { record { result = result; area = area.new; text_length = len.new }
        ≡ written (or_invalid_eol (option_map sent_value value.entry)) area.old }
{
    *len = 0;
    let Some(value) = value else {
        return Status::InvalidEol.number();
    };
    *len = value.value_len();
    if *len > area.len() {
        return Status::NoRoom.number();
    }
    value.write_to(area);
    Status::Done.number()
}
