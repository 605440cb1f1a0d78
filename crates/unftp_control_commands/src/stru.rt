//! STRU (RFC 959, section 4.1.2).
ghost use Rattle.std.specs.Prelude.{◌≡◌, if◌then◌else◌, IfOk, IfErr, bytes_eq, codes};
ghost use Rattle.unftp_control_defs.specs.Events.{out_of_memory};
ghost use Rattle.unftp_control_defs.specs.FtpReply.{CodeAndMsg};
ghost use Rattle.unftp_control_defs.specs.declared.parameters.StruParam.TheVariants.{File, Record};
ghost use Rattle.unftp_control_message.specs.ErrorMeaning.{fault_of};
ghost use Rattle.unftp_control_message.specs.ReplyMeaning.{number_of, reply_of};
ghost use Rattle.unftp_control_commands.specs.Answers.{stru_reply};

use std::alloc::Global;
use std::marker::Model;
use unftp_control_defs::parameters::StruParam;
use unftp_control_message::reply::error::ControlChanError;
use unftp_control_message::reply::{Reply, ReplyCode};

/// STRU with its file structure.
#[derive(Debug, Drop)]
pub struct Stru {
    params: StruParam,
}

impl Model for Stru {
    ghost use Rattle.unftp_control_defs.specs.declared.parameters.StruParam.{StruParam};

    ghost Value = { StruParam };

    ghost view = { λ command. command.params };
}

impl Stru {
    /// STRU with this file structure.
    pub fn new(params: StruParam) -> Stru
        // The command's file structure is the one passed in.
        ensures { result ≡ params }
    {
        Stru { params }
    }

    /// 200 for the file structure, and 504 for any other (RFC 959, section 4.1.2). It fails only
    /// when out of memory, with the kind `OutOfMemory`.
    pub fn reply(&self, alloc: Global) -> Result<Reply, ControlChanError>
        // At `Ok` the reply is the definition's for this file structure.
        ensures ok { IfOk result (λ reply. reply_of reply ≡ stru_reply self.now) }
        // The only error is out of memory.
        ensures err { IfErr result (λ error. fault_of error ≡ out_of_memory) }
    {
        let (code, text) = stru_line(&self.params);
        Reply::new(alloc, code, text)
    }
}

/// The code and the text of the reply to STRU with this file structure.
pub(crate) fn stru_line(structure: &StruParam) -> (ReplyCode, &'static str)
    ensures { CodeAndMsg (number_of result.0) result.1.now ≡ stru_reply structure.now }
{
    match structure {
        StruParam::File => (ReplyCode::CommandOkay, "In File structure mode"),
        _ => (
            ReplyCode::CommandNotImplementedForParameter,
            "Only File structure mode is supported",
        ),
    }
}

/// The file structure of a value: for any but `F` one that is not supported.
pub(crate) fn structure_of(value: &[u8]) -> StruParam
    ensures { result ≡ (if bytes_eq value.now (codes "F") then File else Record) }
{
    if value == b"F".as_slice() {
        StruParam::File
    } else {
        StruParam::Record
    }
}
