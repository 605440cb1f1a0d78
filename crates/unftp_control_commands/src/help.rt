//! HELP (RFC 959, section 4.1.3).
ghost use Rattle.std.specs.Prelude.{◌≡◌, map, IfOk, IfErr};
ghost use Rattle.unftp_control_defs.specs.Events.{out_of_memory};
ghost use Rattle.unftp_control_message.specs.ErrorMeaning.{fault_of};
ghost use Rattle.unftp_control_message.specs.ReplyMeaning.{reply_of};
ghost use Rattle.unftp_control_commands.specs.Answers.{help_reply, help_reply_with};

use crate::lines::append_lines;
use std::alloc::Global;
use unftp_control_message::reply::error::ControlChanError;
use unftp_control_message::reply::{Reply, ReplyCode};

/// HELP.
#[derive(Debug, Drop)]
pub struct Help;

impl Help {
    /// 214 with what the server runs on. It fails only when out of memory, with the kind
    /// `OutOfMemory`.
    pub fn reply(&self, alloc: Global) -> Result<Reply, ControlChanError>
        // At `Ok` the reply is the definition's.
        ensures ok { IfOk result (λ reply. reply_of reply ≡ help_reply) }
        // The only error is out of memory.
        ensures err { IfErr result (λ error. fault_of error ≡ out_of_memory) }
    {
        self.reply_with(
            alloc,
            &[
                "Help:",
                "Powered by libunftp: 0.24.0",
                "View the docs at: https://unftp.rs/",
            ],
        )
    }

    /// 214 with these lines, which are written as they are. It fails only when out of memory, with
    /// the kind `OutOfMemory`.
    pub fn reply_with(&self, alloc: Global, lines: &[&str]) -> Result<Reply, ControlChanError>
        // At `Ok` the reply has the code 214 and exactly these lines, in order.
        ensures ok { IfOk result (λ reply. reply_of reply
            ≡ help_reply_with (map (λ line. line.now) lines.now)) }
        // The only error is out of memory.
        ensures err { IfErr result (λ error. fault_of error ≡ out_of_memory) }
    {
        let mut owned = Vec::with_capacity(alloc, lines.len())?;
        append_lines(&mut owned, lines)?;
        Ok(Reply::MultiLine {
            code: ReplyCode::HelpMessage,
            lines: owned,
        })
    }
}
