//! The reply that lists the facts of a path.
ghost use Rattle.std.specs.Prelude.{◌≡◌, IfOk, IfErr};
ghost use Rattle.unftp_control_defs.specs.Events.{out_of_memory};
ghost use Rattle.unftp_control_message.specs.ErrorMeaning.{fault_of};
ghost use Rattle.unftp_control_message.specs.ReplyMeaning.{reply_of};
ghost use Rattle.unftp_control_commands.specs.Answers.{facts_reply};

use crate::lines::append_lines;
use std::alloc::Global;
use unftp_control_message::reply::error::ControlChanError;
use unftp_control_message::reply::{Reply, ReplyCode};

/// 250 with these facts of the path, which are written as they are (RFC 3659, section 7). It fails
/// only when out of memory, with the kind `OutOfMemory`.
pub fn facts_reply(alloc: Global, facts: &str, path: &str) -> Result<Reply, ControlChanError>
    // At `Ok` the reply is 250 with these facts and this path, as the definition writes it.
    ensures ok { IfOk result (λ reply. reply_of reply ≡ facts_reply facts.now path.now) }
    // The only error is out of memory.
    ensures err { IfErr result (λ error. fault_of error ≡ out_of_memory) }
{
    let line = format!(in alloc; " {facts} {path}")?;
    let mut lines = Vec::with_capacity(alloc, 3)?;
    append_lines(&mut lines, &[" Listing", line.as_str(), "End"])?;
    Ok(Reply::MultiLine {
        code: ReplyCode::FileActionOkay,
        lines,
    })
}
