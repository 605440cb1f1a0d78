//! The canonical line of a command.
ghost use Rattle.std.specs.Prelude.{◌≡◌, ◌≢◌, take, Err, IfOk};
ghost use Rattle.unftp_control_defs.specs.Lines.{IsLine};
ghost use Rattle.unftp_control_defs.specs.Outcome.{outcome};
ghost use Rattle.unftp_control_c.specs.Areas.{Made, made, written};
ghost use Rattle.unftp_control_c.specs.CanonicalLines.{CanonicalMayTakeMemory, IsCanonical};
ghost use Rattle.unftp_control_c.specs.Numbers.{status_number};
ghost use Rattle.unftp_control_c.specs.declared.status.Status.TheVariants.{Done, NoLine, OutOfMemory};

use crate::areas::write;
use crate::status::{Status, kind_status, line_status};
use std::alloc::Global;
use unftp_control_codecs::line_parser::parse;
use unftp_control_write::write_command;

/// The canonical line of a line's command: `unftp_canonical` of include/unftp_control.h.
#[unsafe(no_mangle)]
pub extern "C" fn unftp_canonical(
    alloc: Global,
    line: &[u8],
    out: &mut [u8],
    len: &mut usize,
) -> u32
    // Out of memory comes only where the line may take memory, or its command has a line.
    ensures memory { result ≡ status_number OutOfMemory → CanonicalMayTakeMemory line.now }
    // The canonical line of the line's command is written, or `out` is unchanged and the result
    // reports why.
    ensures writes { (bytes : Made) × IsCanonical line.now bytes
        × (record { result = result; area = out.new; text_length = len.new }
        ≡ written bytes out.old) }
    // `NoLine` never comes for a line whose only line feed is its last byte.
    ensures has_line { IsLine line.now → result ≢ status_number NoLine }
    // At `Done` what is written has the same outcome as the line.
    ensures read_back { result ≡ status_number Done
        → outcome (take len.new out.new) ≡ outcome line.now }
{
    write(canonical_line(alloc, line), out, len)
}

/// The canonical line, or why there is none.
fn canonical_line(alloc: Global, line: &[u8]) -> Result<Vec<u8>, Status>
    ensures canonical { IsCanonical line.now (made result) }
    ensures read_back { IfOk result (λ buf. outcome buf.items ≡ outcome line.now) }
{
    let command = match parse(alloc, line) {
        Ok(command) => command,
        Err(refused) => return Err(kind_status(refused.kind())),
    };
    let mut buf = Vec::new(alloc);
    let written = write_command(&command, &mut buf);
    drop(command);
    match written {
        Ok(()) => Ok(buf),
        Err(error) => Err(line_status(&error)),
    }
}
