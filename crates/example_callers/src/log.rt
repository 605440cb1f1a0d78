//! The log of one control connection: an entry for each line that its client sent.
ghost use Rattle.std.specs.Io.KnownBytes.{IsAtEnd};
ghost use Rattle.std.specs.Prelude.{◌≡◌, ◌++◌, ◌∷◌, [], Some, IfErr, OnOk};
ghost use Rattle.unftp_control_defs.specs.Bytes.{LF};
ghost use Rattle.unftp_control_defs.specs.Input.{input_state_of};
ghost use Rattle.unftp_control_defs.specs.Lines.{incomplete_line, lines_of};
ghost use Rattle.unftp_control_log.specs.LogLine.{log_line};
ghost use Rattle.unftp_control_serve.specs.EventMeaning.{event_meant};
ghost use Rattle.unftp_control_serve.specs.Writing.{Sends, IsSent, output_state_of};
ghost use Rattle.example_callers.specs.Log.{LogEnded, LogsAll, StopsAt, log_of};

use std::alloc::{AllocError, Global};
use std::io::{Read, Write};
use unftp_control_log::write_log_line;
use unftp_control_serve::{Event, EventDecoder, Input, Output, PIECE, ServeError, Sink};

/// How many bytes a line may have, its line feed counted.
const LIMIT: usize = 8192;

/// Makes the entry of an event: its log line and a line feed.
fn make_entry(event: &Event, line: &[u8], entry: &mut Vec<u8>) -> Result<(), AllocError>
    ensures { OnOk result (entry.new.items ≡ log_line (event_meant event.now) line.now ++ LF ∷ []) }
{
    entry.clear();
    write_log_line(event, line, entry)?;
    Ok(entry.push(b'\n')?)
}

/// Writes the entry of an event. When out of memory, nothing is written.
fn write_entry<W: Write>(
    event: &Event,
    line: &[u8],
    entry: &mut Vec<u8>,
    writer: &mut Output<W>,
) -> Result<(), ServeError>
    ensures { Sends result (log_line (event_meant event.now) line.now ++ LF ∷ [])
        (output_state_of W.contents writer.old) (output_state_of W.contents writer.new) }
{
    make_entry(event, line, entry)?;
    writer.send(entry.as_slice())
}

/// Writes the entries of all pending lines.
fn log_pending<W: Write>(
    decoder: &mut EventDecoder,
    entry: &mut Vec<u8>,
    writer: &mut Output<W>,
) -> Result<(), ServeError>
    ensures ok { OnOk result (IsSent (log_of decoder.old.limit (lines_of decoder.old.bytes))
        (output_state_of W.contents writer.old) (output_state_of W.contents writer.new)) }
    ensures err { IfErr result (StopsAt decoder.old.limit (lines_of decoder.old.bytes)
        (output_state_of W.contents writer.old) (output_state_of W.contents writer.new)) }
    ensures pending { OnOk result (decoder.new.bytes ≡ incomplete_line decoder.old.bytes) }
    ensures limit { decoder.new.limit ≡ decoder.old.limit }
{
    loop {
        let event = match decoder.next_event()? {
            Some(event) => event,
            None => return Ok(()),
        };
        let written = write_entry(&event, decoder.line(), entry, writer);
        drop(event);
        written?;
    }
}

/// Writes an entry for each line that the reader gives, until it gives no more. Each is written
/// whole and flushed before the next line is taken, and before more is read; a line of more than
/// 8,192 bytes is logged as a refused one. Bytes after the last line feed are not logged.
///
/// `Read` is a failed read, after which all complete lines are logged; `Write` and `WriteZero` are
/// a failed write or flush, after which a beginning of an entry may be written; `OutOfMemory` is a
/// failed allocation, after which the entries of the lines before are written and flushed;
/// `TooManyReads` comes after 2^64 - 1 reads. It returns no other error.
pub fn log_lines<R: Read, W: Write>(
    alloc: Global,
    reader: &mut Input<R>,
    writer: &mut Output<W>,
) -> Result<(), ServeError>
    // At Ok, of any reader and any writer, exactly the log lines of the lines that the reads gave
    // were written and flushed, each with a line feed; the last read gave nothing, at the reader's
    // end; and what is so at each error.
    ensures ok { OnOk result (LogsAll (Some LIMIT)
        (output_state_of W.contents writer.old) (output_state_of W.contents writer.new)
        (input_state_of R.remaining reader.old) (input_state_of R.remaining reader.new)
        (0 ∷ []) 0) }
    ensures at_end { OnOk result (IsAtEnd (R.remaining reader.new.reader)) }
    ensures err { IfErr result (LogEnded (Some LIMIT)
        (output_state_of W.contents writer.old) (output_state_of W.contents writer.new)
        (input_state_of R.remaining reader.old) (input_state_of R.remaining reader.new)) }
{
    let mut decoder = EventDecoder::with_limit(alloc, LIMIT);
    let mut entry = Vec::new(alloc);
    let mut room = [0u8; PIECE];
    for _turn in 0..u64::MAX {
        let read = match reader.read_piece(&mut room) {
            Ok(read) => read,
            Err(error) => return Err(ServeError::Read(error)),
        };
        let Some(piece) = read else {
            return Ok(());
        };
        decoder.push(piece)?;
        log_pending(&mut decoder, &mut entry, writer)?;
    }
    Err(ServeError::TooManyReads)
}
