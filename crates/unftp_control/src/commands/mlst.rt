//! MLST (RFC 3659, section 7).
ghost use Rattle.std.specs.Prelude.{◌≡◌, IfOk, IfErr, MatchResult, option_map, string_bytes, unwrap_or};
ghost use Rattle.unftp_control_defs.specs.Events.{out_of_memory};
ghost use Rattle.unftp_control_defs.specs.FtpReply.{CodeAndMsg};
ghost use Rattle.unftp_control_message.specs.ErrorMeaning.{fault_of};
ghost use Rattle.unftp_control_message.specs.ReplyMeaning.{reply_of};
ghost use Rattle.unftp_control_commands.specs.Answers.{facts_reply};
ghost use Rattle.unftp_control.specs.FactsReply.{IsFactsReply};

use std::alloc::Global;
use std::marker::Model;
use unftp_control_commands::facts_reply;
use unftp_control_facts::{Metadata, format_facts};
use unftp_control_message::reply::error::ControlChanError;
use unftp_control_message::reply::{Reply, ReplyCode};

/// MLST with its path, if it has one.
#[derive(Debug, Drop)]
pub struct Mlst {
    path: Option<String>,
}

impl Model for Mlst {
    ghost use Rattle.std.specs.Prelude.{List, Option, option_map, string_bytes, ℕ};

    ghost Value = { Option (List ℕ) };

    ghost view = { λ mlst. option_map string_bytes mlst.path };
}

impl Mlst {
    /// MLST with this path.
    pub fn new(path: Option<String>) -> Mlst
        // The command's path is the one passed in.
        ensures { result ≡ option_map string_bytes path }
    {
        Mlst { path }
    }

    /// Its path, or this one where it has none.
    fn path_or<'a>(&'a self, cwd: &'a str) -> &'a str
        ensures { result.now ≡ unwrap_or self.now cwd.now }
    {
        match &self.path {
            Some(path) => path.as_str(),
            None => cwd,
        }
    }

    /// 250 with the facts of what was found and its path (RFC 3659, section 7), or 550 with the
    /// text of the fault that came in its place. The path is the working directory where the
    /// command has none. It fails only when out of memory, with the kind `OutOfMemory`.
    pub fn reply<M: Metadata>(
        &self,
        alloc: Global,
        cwd: &str,
        found: Result<&M, &str>,
    ) -> Result<Reply, ControlChanError>
        // At `Ok` the reply is 250 with the facts of what was found and the path, or 550 with the
        // text of the fault.
        ensures ok { IfOk result (λ reply. MatchResult found.entry
            (λ metadata. IsFactsReply (M.facts_of metadata.now) (unwrap_or self.now cwd.now)
            (reply_of reply))
            (λ text. reply_of reply ≡ CodeAndMsg 550 text.now)) }
        // The only error is out of memory.
        ensures err { IfErr result (λ error. fault_of error ≡ out_of_memory) }
    {
        match found {
            Ok(metadata) => {
                let facts = format_facts(alloc, metadata)?;
                self.reply_with(alloc, cwd, facts.as_str())
            }
            Err(text) => Reply::new(alloc, ReplyCode::FileError, text),
        }
    }

    /// 250 with these facts, which are written as they are, and the path, which is the working
    /// directory where the command has none (RFC 3659, section 7). It fails only when out of
    /// memory, with the kind `OutOfMemory`.
    pub fn reply_with(
        &self,
        alloc: Global,
        cwd: &str,
        facts: &str,
    ) -> Result<Reply, ControlChanError>
        // At `Ok` the reply is 250 with these facts and the path, or the working directory where
        // the command has none.
        ensures ok { IfOk result (λ reply. reply_of reply
            ≡ facts_reply facts.now (unwrap_or self.now cwd.now)) }
        // The only error is out of memory.
        ensures err { IfErr result (λ error. fault_of error ≡ out_of_memory) }
    {
        facts_reply(alloc, facts, self.path_or(cwd))
    }
}
