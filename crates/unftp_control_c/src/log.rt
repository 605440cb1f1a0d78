//! The line of a log for a line of a client.
ghost use Rattle.std.specs.Prelude.{◌≡◌, ◌++◌, ◌==◌, if◌then◌else◌, IfOk, OnOk};
ghost use Rattle.unftp_control_c.specs.Areas.{Made, written};
ghost use Rattle.unftp_control_c.specs.LogLines.{IsLogLine, numbered_hides, numbered_log_line};
ghost use Rattle.unftp_control_c.specs.Numbers.{status_number};
ghost use Rattle.unftp_control_c.specs.declared.status.Status.TheVariants.{OutOfMemory};

use crate::areas::write;
use crate::status::Status;
use std::alloc::{AllocError, Global};
use unftp_control_log::{write_log_line, write_log_of};
use unftp_control_message::reply::error::ControlChanErrorKind;
use unftp_control_serve::Event;

/// The line of a log for a line of a client: `unftp_log_line` of include/unftp_control.h. It takes
/// memory for that alone, and not for a command.
#[unsafe(no_mangle)]
pub extern "C" fn unftp_log_line(
    alloc: Global,
    number: u32,
    line: &[u8],
    out: &mut [u8],
    len: &mut usize,
    hides: &mut u32,
) -> u32
    // The log's line is written, or `out` is unchanged and the result reports why: out of memory,
    // or no room.
    ensures writes { (bytes : Made) × IsLogLine number line.now bytes
        × (record { result = result; area = out.new; text_length = len.new }
        ≡ written bytes out.old) }
    // `hides` is 1 where the log's line doesn't show all of the line, and 0 where it does, or where
    // memory ran out.
    ensures hides { hides.new ≡ (if result == status_number OutOfMemory then 0
        else (if numbered_hides number line.now then 1 else 0)) }
{
    *hides = 0;
    let mut buf = Vec::new(alloc);
    match append_log_line(number, line, &mut buf) {
        Ok(hides_part) => {
            *hides = u32::from(hides_part);
            write(Ok(buf), out, len)
        }
        Err(_) => write(Err(Status::OutOfMemory), out, len),
    }
}

/// Appends the line of the log, and returns whether a part of the line is not shown.
fn append_log_line(number: u32, line: &[u8], buf: &mut Vec<u8>) -> Result<bool, AllocError>
    ensures ok { OnOk result (buf.new.items ≡ buf.old.items ++ numbered_log_line number line.now) }
    ensures hides { IfOk result (λ part. part ≡ numbered_hides number line.now) }
{
    if number == Status::LineTooLong.number() {
        let event = Event::Refused(ControlChanErrorKind::LineTooLong.into());
        write_log_line(&event, &[], buf)?;
        return Ok(true);
    }
    write_log_of(line, buf)
}
