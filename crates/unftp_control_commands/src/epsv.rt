//! EPSV (RFC 2428, section 3).
ghost use Rattle.std.specs.Prelude.{◌≡◌, ◌↔◌, IsTrue, IfOk, IfErr};
ghost use Rattle.unftp_control_defs.specs.Events.{out_of_memory};
ghost use Rattle.unftp_control_message.specs.ErrorMeaning.{fault_of};
ghost use Rattle.unftp_control_message.specs.ReplyMeaning.{reply_of};
ghost use Rattle.unftp_control_commands.specs.Answers.{epsv_reply, port_reply};
ghost use Rattle.unftp_control_commands.specs.declared.epsv.Passive.{Passive as RustPassive};

use std::alloc::Global;
use unftp_control_message::reply::error::ControlChanError;
use unftp_control_message::reply::{Reply, ReplyCode};

/// How the server listens for data connections.
#[derive(Debug, PartialEq, Eq, Clone, Copy)]
pub enum Passive {
    /// On this port, which is listening.
    Port(u16),
    /// On ports that are bound in advance, of which EPSV can't name one.
    Prebound,
}

/// EPSV.
#[derive(Debug, Drop)]
pub struct Epsv {}

impl Epsv {
    /// EPSV.
    pub fn new() -> Epsv {
        Epsv {}
    }

    /// 229 with the port, or 502 where EPSV can't name one (RFC 2428, section 3). It fails only
    /// when out of memory, with the kind `OutOfMemory`.
    pub fn reply(&self, alloc: Global, passive: Passive) -> Result<Reply, ControlChanError>
        // At `Ok` the reply is the definition's for this way of listening.
        ensures ok { IfOk result (λ reply. reply_of reply ≡ epsv_reply passive) }
        // The only error is out of memory.
        ensures err { IfErr result (λ error. fault_of error ≡ out_of_memory) }
    {
        match passive {
            Passive::Port(port) => make_epsv_reply(alloc, port),
            Passive::Prebound => Reply::new(
                alloc,
                ReplyCode::CommandNotImplemented,
                "EPSV not supported in this mode",
            ),
        }
    }
}

/// 229 with a port that listens (RFC 2428, section 3). It fails only when out of memory, with the
/// kind `OutOfMemory`.
pub fn make_epsv_reply(alloc: Global, port: u16) -> Result<Reply, ControlChanError>
    // At `Ok` the reply is 229 with this port, as the definition writes it.
    ensures ok { IfOk result (λ reply. reply_of reply ≡ port_reply port) }
    // The only error is out of memory.
    ensures err { IfErr result (λ error. fault_of error ≡ out_of_memory) }
{
    let text = format!(in alloc; "Entering Extended Passive Mode (|||{port}|)")?;
    Ok(Reply::new_with_string(ReplyCode::EnteringExtendedPassiveMode, text))
}

/// `==` of these settings is equality, and a clone is equal.
pub fn same_passives()
    // `==` returns true exactly for equal values.
    ensures equal { (a b : RustPassive) → IsTrue (⟦<Passive as PartialEq>⟧.eq a b) ↔ (a ≡ b) }
    // A clone equals its original.
    ensures clone { (a b : RustPassive) → ⟦<Passive as Clone>⟧.is_clone a b → b ≡ a }
{}
