//! A writer whose writes are recorded.
ghost use Rattle.std.specs.Prelude.{◌≡◌, []};
ghost use Rattle.std.specs.Io.{WritesAtMost};
ghost use Rattle.unftp_control_serve.specs.Writing.{OneFlush, OneWrite, output_state_of};

use std::io;
use std::io::Write;
use unftp_control_defs::count::{Count, Trace};

/// A writer with a record of all bytes that its writes took, of how many of the last of them were
/// not flushed, and of how often it failed. The record takes no byte, and only contracts see it.
#[derive(Drop)]
pub struct Output<W> {
    writer: W,
    taken: Trace,
    unflushed: Count,
    failures: Count,
}

impl<W: Write> Output<W> {
    /// This writer, which has not failed so far.
    pub fn new(writer: W) -> Output<W>
        // It writes to this writer.
        ensures writer { result.writer ≡ writer }
        // No write has taken a byte so far.
        ensures taken { result.taken ≡ [] }
        // No byte is unflushed.
        ensures unflushed { result.unflushed ≡ 0 }
        // No write and no flush has failed so far.
        ensures failures { result.failures ≡ 0 }
    {
        Output {
            writer,
            taken: Trace::new(),
            unflushed: Count::new(),
            failures: Count::new(),
        }
    }

    /// The writer, as the last call left it: bytes that were not flushed are still not. What is
    /// written to it then is in no record.
    pub fn into_inner(self) -> W
        // Exactly the writer of the output.
        ensures { result ≡ self.writer }
    {
        let Output {
            writer,
            taken: _,
            unflushed: _,
            failures: _,
        } = self;
        writer
    }

    /// Writes once. Each error counts, `Interrupted` too, and so does a write that takes nothing of
    /// bytes that are not empty.
    pub(crate) fn write(&mut self, bytes: &[u8]) -> io::Result<usize>
        ensures bound { WritesAtMost result bytes.now }
        ensures wrote { OneWrite result bytes.now
            (output_state_of W.contents self.old) (output_state_of W.contents self.new) }
    {
        let result = self.writer.write(bytes);
        match &result {
            Ok(n) => {
                self.taken.extend_by(bytes, *n);
                self.unflushed.raise_by(*n);
                if *n == 0 && !bytes.is_empty() {
                    self.failures.raise();
                }
            }
            Err(_) => self.failures.raise(),
        }
        result
    }

    /// Flushes once. Each error counts.
    pub(crate) fn flush(&mut self) -> io::Result<()>
        ensures flushed { OneFlush result
            (output_state_of W.contents self.old) (output_state_of W.contents self.new) }
    {
        let result = self.writer.flush();
        match &result {
            Ok(()) => self.unflushed.reset(),
            Err(_) => self.failures.raise(),
        }
        result
    }
}
