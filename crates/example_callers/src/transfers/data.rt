//! The data connection, whose answers are recorded.
ghost use Rattle.std.specs.Prelude.{◌≡◌, ◌<◌, ◌∷◌, [], ◌++◌, List, length};
ghost use Rattle.std.specs.Io.{ReadsAtMost, WritesAtMost};
ghost use Rattle.example_callers.specs.DataAnswers.{DataAnswer, answer_to_close, answer_to_open, answer_to_receive, answer_to_send};

use std::io;

/// The caller's data connection (RFC 959, section 3.2): it is opened for each transfer, and closed
/// at its end. A call that fails leaves it closed.
pub trait DataConnection {
    // What it answered to each call so far, in order: each call adds its own answer, and there is
    // no other way to add one. A socket keeps it in `Answers`.
    ghost answers: { Self → List DataAnswer };

    /// Opens it.
    fn open(&mut self) -> io::Result<()>
        ensures { answers self.new ≡ answers self.old ++ answer_to_open result ∷ [] };

    /// Sends a beginning of these bytes, and returns how many. It is a failure where that is 0.
    fn send(&mut self, bytes: &[u8]) -> io::Result<usize>
        requires { 0 < length bytes.now }
        ensures bound { WritesAtMost result bytes.now }
        ensures answered { answers self.new
            ≡ answers self.old ++ answer_to_send bytes.now result ∷ [] };

    /// Receives bytes into the front of this buffer, and returns how many: none only at the end of
    /// the data.
    fn receive(&mut self, buffer: &mut [u8]) -> io::Result<usize>
        requires { 0 < length buffer.old }
        ensures bound { ReadsAtMost result buffer.new }
        ensures answered { answers self.new
            ≡ answers self.old ++ answer_to_receive buffer.new result ∷ [] };

    /// Closes it, which ends the data that was sent.
    fn close(&mut self) -> io::Result<()>
        ensures { answers self.new ≡ answers self.old ++ answer_to_close result ∷ [] };
}
