//! AUTH (RFC 2228, section 3; RFC 4217, section 4).
ghost use Rattle.std.specs.Prelude.{◌≡◌, IfOk, IfErr};
ghost use Rattle.unftp_control_defs.specs.Events.{out_of_memory};
ghost use Rattle.unftp_control_message.specs.ErrorMeaning.{fault_of};
ghost use Rattle.unftp_control_message.specs.ReplyMeaning.{reply_of};
ghost use Rattle.unftp_control_commands.specs.Answers.{auth_reply, auth_change};

use crate::session::SessionChange;
use std::alloc::Global;
use std::marker::Model;
use unftp_control_defs::parameters::AuthParam;
use unftp_control_message::reply::error::ControlChanError;
use unftp_control_message::reply::{Reply, ReplyCode};

/// The text of the reply to a command of TLS where none is configured.
pub(crate) const NO_TLS: &str = "TLS/SSL not configured";

/// AUTH with its mechanism.
#[derive(Debug, Drop)]
pub struct Auth {
    protocol: AuthParam,
}

impl Model for Auth {
    ghost use Rattle.unftp_control_defs.specs.declared.parameters.AuthParam.{AuthParam};

    ghost Value = { AuthParam };

    ghost view = { λ command. command.protocol };
}

impl Auth {
    /// AUTH with this mechanism.
    pub fn new(protocol: AuthParam) -> Auth
        // The command's mechanism is the one passed in.
        ensures { result ≡ protocol }
    {
        Auth { protocol }
    }

    /// The reply, and what the session has to do once it is sent (RFC 4217, section 4). For TLS it
    /// is 234, and TLS on the control connection; for SSL it is 504. Where TLS is not configured it
    /// is 502. It fails only when out of memory, with the kind `OutOfMemory`.
    pub fn reply(
        &self,
        alloc: Global,
        tls_configured: bool,
    ) -> Result<(Reply, SessionChange), ControlChanError>
        // At `Ok` the reply and the change are those that the definition gives for this mechanism.
        ensures ok { IfOk result (λ answer. (reply_of answer.0 ≡ auth_reply tls_configured self.now)
            × (answer.1 ≡ auth_change tls_configured self.now)) }
        // The only error is out of memory.
        ensures err { IfErr result (λ error. fault_of error ≡ out_of_memory) }
    {
        let (code, text, change) = match (tls_configured, &self.protocol) {
            (false, _) => (
                ReplyCode::CommandNotImplemented,
                NO_TLS,
                SessionChange::Nothing,
            ),
            (true, AuthParam::Tls) => (
                ReplyCode::AuthOkayNoDataNeeded,
                "Upgrading to TLS",
                SessionChange::SecureControlChannel,
            ),
            (true, AuthParam::Ssl) => (
                ReplyCode::CommandNotImplementedForParameter,
                "Auth SSL not implemented",
                SessionChange::Nothing,
            ),
        };
        Ok((Reply::new(alloc, code, text)?, change))
    }
}
