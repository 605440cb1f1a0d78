//! The codec without the engine.
ghost use Rattle.std.specs.Prelude.{◌≡◌, ◌+◌, ◌≤◌, ◌++◌, length, drop, IfErr, OnErr, OnOk, codes, if◌then◌else◌};
ghost use Rattle.std.specs.Vec.{vec_len};
ghost use Rattle.example_callers.specs.NextNoop.{IsNextNoop};
ghost use Rattle.unftp_control_codecs.specs.Decoding.{Decoded, Decodes};
ghost use Rattle.unftp_control_message.specs.ErrorMeaning.{fault_of};
ghost use Rattle.unftp_control_defs.specs.Events.{out_of_memory};
ghost use Rattle.unftp_control_defs.specs.FtpReply.{CodeAndMsg, encoded};

use std::alloc::Global;
use unftp_control::command::same_commands;
use unftp_control_codecs::FtpCodec;
use unftp_control_message::Command;
use unftp_control_message::reply::error::{ControlChanError, ControlChanErrorKind};
use unftp_control_message::reply::{Reply, ReplyCode};

/// Whether the line that the codec returned is NOOP: `None` while no line is complete.
fn is_noop(
    decoded: Result<Option<Command>, ControlChanError>,
) -> Result<Option<bool>, ControlChanError>
    ensures { IsNextNoop decoded result }
{
    match decoded {
        Ok(None) => Ok(None),
        Ok(Some(command)) => {
            // a law, for the proof: commands are equal where they mean the same
            same_commands();
            let is_noop = command == Command::Noop;
            drop(command);
            Ok(Some(is_noop))
        }
        // the line is still there, and can be decoded once there is memory
        Err(error) if *error.kind() == ControlChanErrorKind::OutOfMemory => Err(error),
        // the line is refused, and gone
        Err(_) => Ok(Some(false)),
    }
}

/// Whether the next line of `buf` is NOOP: `None` while no line is complete. The line leaves
/// `buf`, and what follows it is moved to the start.
pub fn next_is_noop(
    alloc: Global,
    codec: &mut FtpCodec,
    buf: &mut Vec<u8>,
) -> Result<Option<bool>, ControlChanError>
    requires { codec.old.place ≤ vec_len buf.old }
    ensures next { (decoded : Decoded)
        × Decodes codec.old codec.new buf.old.items buf.new.items decoded
        × IsNextNoop decoded result }
    ensures within { codec.new.place ≤ vec_len buf.new }
{
    is_noop(codec.decode(alloc, buf))
}

/// Whether the first line of `bytes` is NOOP, and how many bytes it has: 0 and `None` while no line
/// is complete. The next call gets the bytes after the line, and nothing is moved.
pub fn first_is_noop(
    alloc: Global,
    codec: &mut FtpCodec,
    bytes: &[u8],
) -> (usize, Result<Option<bool>, ControlChanError>)
    requires { codec.old.place ≤ length bytes.now }
    ensures first { (decoded : Decoded)
        × Decodes codec.old codec.new bytes.now (drop result.0 bytes.now) decoded
        × IsNextNoop decoded result.1 }
    ensures within { result.0 + codec.new.place ≤ length bytes.now }
{
    let (taken, decoded) = codec.decode_slice(alloc, bytes);
    (taken, is_noop(decoded))
}

/// Appends the reply to a line.
pub fn answer(
    alloc: Global,
    codec: &mut FtpCodec,
    is_noop: bool,
    out: &mut Vec<u8>,
) -> Result<(), ControlChanError>
    ensures ok { OnOk result (out.new.items ≡ out.old.items ++ encoded (CodeAndMsg
        (if is_noop then 200 else 502)
        (if is_noop then codes "OK" else codes "Not implemented"))) }
    ensures err { OnErr result (out.new.items ≡ out.old.items) }
    ensures memory { IfErr result (λ error. fault_of error ≡ out_of_memory) }
    ensures codec { codec.new ≡ codec.old }
{
    let reply = if is_noop {
        Reply::new(alloc, ReplyCode::CommandOkay, "OK")?
    } else {
        Reply::new(alloc, ReplyCode::CommandNotImplemented, "Not implemented")?
    };
    codec.encode(reply, out)
}
