//! OPTS (RFC 2389, section 4).
ghost use Rattle.std.specs.Prelude.{◌≡◌, IfOk, IfErr, bytes_eq, codes};
ghost use Rattle.unftp_control_defs.specs.Events.{out_of_memory};
ghost use Rattle.unftp_control_defs.specs.FtpReply.{CodeAndMsg};
ghost use Rattle.unftp_control_defs.specs.declared.parameters.Opt.TheVariants.{Utf8};
ghost use Rattle.unftp_control_message.specs.ErrorMeaning.{fault_of};
ghost use Rattle.unftp_control_message.specs.ReplyMeaning.{number_of, reply_of};
ghost use Rattle.unftp_control_commands.specs.Answers.{opts_reply};

use std::alloc::Global;
use std::marker::Model;
use unftp_control_defs::parameters::Opt;
use unftp_control_message::reply::error::ControlChanError;
use unftp_control_message::reply::{Reply, ReplyCode};

/// OPTS with its option.
#[derive(Debug, Drop)]
pub struct Opts {
    option: Opt,
}

impl Model for Opts {
    ghost use Rattle.unftp_control_defs.specs.declared.parameters.Opt.{Opt};

    ghost Value = { Opt };

    ghost view = { λ command. command.option };
}

impl Opts {
    /// OPTS with this option.
    pub fn new(option: Opt) -> Opts
        // The command's option is the one passed in.
        ensures { result ≡ option }
    {
        Opts { option }
    }

    /// 200 for UTF-8 on, which it always is, and 504 for off (RFC 2389, section 4). It fails only
    /// when out of memory, with the kind `OutOfMemory`.
    pub fn reply(&self, alloc: Global) -> Result<Reply, ControlChanError>
        // At `Ok` the reply is the definition's for this option.
        ensures ok { IfOk result (λ reply. reply_of reply ≡ opts_reply self.now) }
        // The only error is out of memory.
        ensures err { IfErr result (λ error. fault_of error ≡ out_of_memory) }
    {
        let (code, text) = opts_line(&self.option);
        Reply::new(alloc, code, text)
    }
}

/// The code and the text of the reply to OPTS with this option.
pub(crate) fn opts_line(option: &Opt) -> (ReplyCode, &'static str)
    ensures { CodeAndMsg (number_of result.0) result.1.now ≡ opts_reply option.now }
{
    match option {
        Opt::Utf8 { on: true } => (ReplyCode::CommandOkay, "Always in UTF-8 mode."),
        Opt::Utf8 { on: false } => (
            ReplyCode::CommandNotImplementedForParameter,
            "Non UTF-8 mode not supported",
        ),
    }
}

/// The option of a value: for any but `UTF8 ON` one that is not supported.
pub(crate) fn option_of(value: &[u8]) -> Opt
    ensures { result ≡ Utf8 (bytes_eq value.now (codes "UTF8 ON")) }
{
    Opt::Utf8 {
        on: value == b"UTF8 ON".as_slice(),
    }
}
