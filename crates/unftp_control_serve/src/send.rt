//! Where the replies go.
ghost use Rattle.std.specs.Prelude.{◌≡◌, [], IsTrue, is_ok};
ghost use Rattle.unftp_control_defs.specs.Bytes.{Bytes};
ghost use Rattle.unftp_control_defs.specs.Room.{LacksRoom};
ghost use Rattle.unftp_control_serve.specs.Endings.{OnMemory, OnWrite};
ghost use Rattle.unftp_control_serve.specs.Writing.{OutputState, Sends, Writes, appended_state_of, output_state_of};

use crate::error::ServeError;
use crate::output::Output;
use std::io::Write;
use unftp_control_defs::buffer::append;

/// Takes the replies of an engine, one after the other: an `Output` writes and flushes each, and a
/// `Vec` holds them for a server that sends them itself.
pub trait Sink {
    // What contracts see of it: for a `Vec`, its bytes are written, and no write has failed. And
    // whether it may write a beginning of a reply, and then fail; and when it lacks room for bytes.
    ghost state: { Self → OutputState };

    ghost cuts: { Type 0 };

    ghost lacks: { Self → Bytes → Type 0 };

    /// Sends the bytes of a reply; where there are none, it does nothing, at `Ok`. At `Write` and
    /// `WriteZero` a beginning of them may be written; at `OutOfMemory`, which comes only where it
    /// lacks room for them, none is. It returns no other error.
    fn send(&mut self, bytes: &[u8]) -> Result<(), ServeError>
        // At `Ok` exactly the bytes are written and flushed, at `Write` and `WriteZero` a beginning
        // of them is written, or all, and at `OutOfMemory` none. No other error comes.
        ensures sends { Sends result bytes.now (state self.old) (state self.new) }
        // `Write` and `WriteZero` come only where it may write a beginning of a reply, and fail.
        ensures cuts { OnWrite result cuts }
        // It is out of memory only where it lacks room for the bytes.
        ensures memory { OnMemory result (lacks self.old bytes.now) }
        // Where there are no bytes, it returns `Ok`.
        ensures nothing { bytes.now ≡ [] → IsTrue (is_ok result) };
}

/// Each reply is written and flushed. It takes no memory.
impl<W: Write> Sink for Output<W> {
    ghost state = { output_state_of W.contents };

    ghost cuts = { Unit {0} };

    ghost lacks = { λ output bytes. ⊥ };

    fn send(&mut self, bytes: &[u8]) -> Result<(), ServeError> {
        if bytes.is_empty() {
            return Ok(());
        }
        write_whole(self, bytes)?;
        self.flush().map_err(ServeError::Write)
    }
}

/// Each reply is appended, or none of it when out of memory.
impl Sink for Vec<u8> {
    ghost state = { appended_state_of };

    ghost cuts = { ⊥ };

    ghost lacks = { LacksRoom };

    fn send(&mut self, bytes: &[u8]) -> Result<(), ServeError> {
        Ok(append(self, bytes)?)
    }
}

/// Writes all of the bytes, or a beginning of them where the writer fails.
fn write_whole<W: Write>(output: &mut Output<W>, bytes: &[u8]) -> Result<(), ServeError>
    ensures { Writes result bytes.now
        (output_state_of W.contents output.old)
        (output_state_of W.contents output.new) }
{
    let mut rest = bytes;
    while !rest.is_empty() {
        match output.write(rest) {
            Ok(0) => return Err(ServeError::WriteZero),
            Ok(n) => rest = rest.split_at(n).1,
            Err(error) => return Err(ServeError::Write(error)),
        }
    }
    Ok(())
}
