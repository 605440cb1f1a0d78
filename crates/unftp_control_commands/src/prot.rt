//! PROT (RFC 2228, section 3; RFC 4217, section 9).
ghost use Rattle.std.specs.Prelude.{◌≡◌, IfOk, IfErr};
ghost use Rattle.unftp_control_defs.specs.Events.{out_of_memory};
ghost use Rattle.unftp_control_message.specs.ErrorMeaning.{fault_of};
ghost use Rattle.unftp_control_message.specs.ReplyMeaning.{reply_of};
ghost use Rattle.unftp_control_commands.specs.Answers.{prot_reply, prot_change};

use crate::auth::NO_TLS;
use crate::session::SessionChange;
use std::alloc::Global;
use std::marker::Model;
use unftp_control_defs::parameters::ProtParam;
use unftp_control_message::reply::error::ControlChanError;
use unftp_control_message::reply::{Reply, ReplyCode};

/// PROT with its level.
#[derive(Debug, Drop)]
pub struct Prot {
    param: ProtParam,
}

impl Model for Prot {
    ghost use Rattle.unftp_control_defs.specs.declared.parameters.ProtParam.{ProtParam};

    ghost Value = { ProtParam };

    ghost view = { λ command. command.param };
}

impl Prot {
    /// PROT with this level.
    pub fn new(param: ProtParam) -> Prot
        // The command's level is the one passed in.
        ensures { result ≡ param }
    {
        Prot { param }
    }

    /// The reply, and what the session has to do once it is sent (RFC 4217, section 9). For
    /// `Private` it is 200, and TLS on data connections; for `Clear` it is 200, and no TLS there.
    /// For the other levels it is 504, and where TLS is not configured, 502. It fails only when out
    /// of memory, with the kind `OutOfMemory`.
    pub fn reply(
        &self,
        alloc: Global,
        tls_configured: bool,
    ) -> Result<(Reply, SessionChange), ControlChanError>
        // At `Ok` the reply and the change are those that the definition gives for this level.
        ensures ok { IfOk result (λ answer. (reply_of answer.0 ≡ prot_reply tls_configured self.now)
            × (answer.1 ≡ prot_change tls_configured self.now)) }
        // The only error is out of memory.
        ensures err { IfErr result (λ error. fault_of error ≡ out_of_memory) }
    {
        let (code, text, change) = match (tls_configured, &self.param) {
            (false, _) => (
                ReplyCode::CommandNotImplemented,
                NO_TLS,
                SessionChange::Nothing,
            ),
            (true, ProtParam::Clear) => (
                ReplyCode::CommandOkay,
                "PROT OK. Switching data channel to plaintext",
                SessionChange::DataTls(false),
            ),
            (true, ProtParam::Private) => (
                ReplyCode::CommandOkay,
                "PROT OK. Securing data channel",
                SessionChange::DataTls(true),
            ),
            (true, ProtParam::Safe | ProtParam::Confidential) => (
                ReplyCode::CommandNotImplementedForParameter,
                "PROT S/E not implemented",
                SessionChange::Nothing,
            ),
        };
        Ok((Reply::new(alloc, code, text)?, change))
    }
}
