//! MODE (RFC 959, section 4.1.2).
ghost use Rattle.std.specs.Prelude.{◌≡◌, if◌then◌else◌, IfOk, IfErr, bytes_eq, codes};
ghost use Rattle.unftp_control_defs.specs.Events.{out_of_memory};
ghost use Rattle.unftp_control_defs.specs.FtpReply.{CodeAndMsg};
ghost use Rattle.unftp_control_defs.specs.declared.parameters.ModeParam.TheVariants.{Block, Stream};
ghost use Rattle.unftp_control_message.specs.ErrorMeaning.{fault_of};
ghost use Rattle.unftp_control_message.specs.ReplyMeaning.{number_of, reply_of};
ghost use Rattle.unftp_control_commands.specs.Answers.{mode_reply};

use std::alloc::Global;
use std::marker::Model;
use unftp_control_defs::parameters::ModeParam;
use unftp_control_message::reply::error::ControlChanError;
use unftp_control_message::reply::{Reply, ReplyCode};

/// MODE with its transfer mode.
#[derive(Debug, Drop)]
pub struct Mode {
    params: ModeParam,
}

impl Model for Mode {
    ghost use Rattle.unftp_control_defs.specs.declared.parameters.ModeParam.{ModeParam};

    ghost Value = { ModeParam };

    ghost view = { λ command. command.params };
}

impl Mode {
    /// MODE with this transfer mode.
    pub fn new(params: ModeParam) -> Mode
        // The command's transfer mode is the one passed in.
        ensures { result ≡ params }
    {
        Mode { params }
    }

    /// 200 for the stream mode, and 504 for any other (RFC 959, section 4.1.2). It fails only when
    /// out of memory, with the kind `OutOfMemory`.
    pub fn reply(&self, alloc: Global) -> Result<Reply, ControlChanError>
        // At `Ok` the reply is the definition's for this transfer mode.
        ensures ok { IfOk result (λ reply. reply_of reply ≡ mode_reply self.now) }
        // The only error is out of memory.
        ensures err { IfErr result (λ error. fault_of error ≡ out_of_memory) }
    {
        let (code, text) = mode_line(&self.params);
        Reply::new(alloc, code, text)
    }
}

/// The code and the text of the reply to MODE with this transfer mode.
pub(crate) fn mode_line(mode: &ModeParam) -> (ReplyCode, &'static str)
    ensures { CodeAndMsg (number_of result.0) result.1.now ≡ mode_reply mode.now }
{
    match mode {
        ModeParam::Stream => (ReplyCode::CommandOkay, "Using Stream transfer mode"),
        _ => (
            ReplyCode::CommandNotImplementedForParameter,
            "Only Stream transfer mode is supported",
        ),
    }
}

/// The transfer mode of a value: for any but `S` one that is not supported.
pub(crate) fn mode_of(value: &[u8]) -> ModeParam
    ensures { result ≡ (if bytes_eq value.now (codes "S") then Stream else Block) }
{
    if value == b"S".as_slice() {
        ModeParam::Stream
    } else {
        ModeParam::Block
    }
}
