//! A reader whose reads are recorded.
ghost use Rattle.std.specs.Prelude.{◌≡◌, [], MatchOption, MatchResult};
ghost use Rattle.std.specs.Io.{ReadsAtMost};
ghost use Rattle.unftp_control_defs.specs.Input.{OneRead, ReadFails, ReadsEnd, ReadsPiece, input_state_of};

use crate::count::{Count, Trace};
use std::io;
use std::io::Read;

/// How many bytes a piece has at most.
pub const PIECE: usize = 4096;

/// A reader with a record of all bytes that its reads gave, of how many each gave, and of how many
/// reads failed. The record takes no byte, and only contracts see it.
#[derive(Drop)]
pub struct Input<R> {
    reader: R,
    given: Trace,
    reads: Trace,
    failures: Count,
}

impl<R: Read> Input<R> {
    /// This reader, which was not read so far.
    pub fn new(reader: R) -> Input<R>
        // It reads from this reader.
        ensures reader { result.reader ≡ reader }
        // No read has given a byte so far.
        ensures given { result.given ≡ [] }
        // No read is recorded so far.
        ensures reads { result.reads ≡ [] }
        // No read has failed so far.
        ensures failures { result.failures ≡ 0 }
    {
        Input {
            reader,
            given: Trace::new(),
            reads: Trace::new(),
            failures: Count::new(),
        }
    }

    /// The reader, as the last call left it. What is read of it then is in no record.
    pub fn into_inner(self) -> R
        // Exactly the reader that the input holds.
        ensures { result ≡ self.reader }
    {
        let Input {
            reader,
            given: _,
            reads: _,
            failures: _,
        } = self;
        reader
    }

    /// Reads once, as `Read::read` does. Each error counts, `Interrupted` too.
    pub fn read(&mut self, buf: &mut [u8]) -> io::Result<usize>
        // At `Ok` the number of bytes read is at most the buffer's length.
        ensures bound { ReadsAtMost result buf.new }
        // The record grows by one read: at `Ok(n)` by the buffer's first `n` bytes, none only at
        // the reader's end or where the buffer is empty; at an error by a failure and no byte.
        ensures reads { OneRead result buf.new
            (input_state_of R.remaining self.old) (input_state_of R.remaining self.new) }
    {
        let result = self.reader.read(buf);
        match &result {
            Ok(n) => {
                self.given.extend_by(buf, *n);
                self.reads.push(*n);
            }
            Err(_) => self.failures.raise(),
        }
        result
    }

    /// Reads once into `room`, and returns the piece that came, or `None` at the reader's end. At
    /// an error nothing came. Each error counts, `Interrupted` too.
    pub fn read_piece<'a>(&mut self, room: &'a mut [u8; PIECE]) -> io::Result<Option<&'a [u8]>>
        // It makes one read. It returns the piece that came, of 1 to 4,096 bytes, or `None` at the
        // reader's end. At an error no byte came, and one more failure is recorded.
        ensures { MatchResult result (λ next. MatchOption next
            (ReadsEnd (input_state_of R.remaining self.old) (input_state_of R.remaining self.new))
            (λ piece. ReadsPiece (input_state_of R.remaining self.old)
            (input_state_of R.remaining self.new) piece.now))
            (λ _. ReadFails (input_state_of R.remaining self.old)
            (input_state_of R.remaining self.new)) }
    {
        let n = self.read(room)?;
        if n == 0 {
            return Ok(None);
        }
        let (piece, _) = room.split_at(n);
        Ok(Some(piece))
    }
}
