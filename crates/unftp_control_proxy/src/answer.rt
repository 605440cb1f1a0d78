//! The answers of a proxy's own.
ghost use Rattle.std.specs.Prelude.{◌≡◌, ◌++◌, IfErr, IsOk, OnErr, OnOk, false, true};
ghost use Rattle.unftp_control_defs.specs.FtpReply.{encoded};
ghost use Rattle.unftp_control_defs.specs.Room.{LacksRoom};
ghost use Rattle.unftp_control_message.specs.ReplyMeaning.{reply_of};
ghost use Rattle.unftp_control_proxy.specs.ProxyAnswers.{IsNoAnswer, answer_reply, as_read, is_answer, is_final_reply};

use crate::errors::SendError;
use std::alloc::AllocError;
use unftp_control_codecs::encode_reply;
use unftp_control_defs::buffer::append;
use unftp_control_message::reply::Reply;

/// What the client is given for a line that the proxy answers itself.
#[derive(Debug, Drop)]
pub enum Answer {
    /// This reply.
    Reply(Reply),
    /// 500, "Not understood": for a line that can't be sent. It is made without memory.
    NotUnderstood,
    /// 500, "Line too long". It is made without memory.
    LineTooLong,
}

impl Answer {
    /// Whether a line may be answered so, and if not, why.
    pub(crate) fn check(&self) -> Result<(), SendError>
        ensures ok { IsOk result → is_answer (answer_reply self.now) ≡ true }
        ensures why { IfErr result (IsNoAnswer (answer_reply self.now)) }
    {
        match self {
            Answer::Reply(reply) => check_reply(reply),
            Answer::NotUnderstood => Ok(()),
            Answer::LineTooLong => Ok(()),
        }
    }

    /// Its code, or 0 where it has none.
    pub(crate) fn code(&self) -> u32
        ensures { result ≡ (as_read (answer_reply self.now)).0 }
    {
        match self {
            Answer::Reply(reply) => code_of(reply),
            Answer::NotUnderstood => 500,
            Answer::LineTooLong => 500,
        }
    }

    /// Appends its bytes, or nothing where there is no room for them.
    pub(crate) fn append_to(&self, out: &mut Vec<u8>) -> Result<(), AllocError>
        ensures ok { OnOk result
            (out.new.items ≡ out.old.items ++ encoded (answer_reply self.now)) }
        ensures err { OnErr result (out.new.items ≡ out.old.items) }
        ensures memory { OnErr result (LacksRoom out.old (encoded (answer_reply self.now))) }
    {
        match self {
            Answer::Reply(reply) => append_reply(reply, out),
            Answer::NotUnderstood => append(out, b"500 Not understood\r\n"),
            Answer::LineTooLong => append(out, b"500 Line too long\r\n"),
        }
    }
}

/// The code of the reply, or 0 where it has none.
fn code_of(reply: &Reply) -> u32
    ensures { result ≡ (as_read (reply_of reply.now)).0 }
{
    match reply {
        Reply::None => 0,
        Reply::CodeAndMsg { code, .. } | Reply::MultiLine { code, .. } => code.number(),
    }
}

/// Appends the bytes of the reply, or nothing where there is no room for them.
fn append_reply(reply: &Reply, out: &mut Vec<u8>) -> Result<(), AllocError>
    ensures ok { OnOk result (out.new.items ≡ out.old.items ++ encoded (reply_of reply.now)) }
    ensures err { OnErr result (out.new.items ≡ out.old.items) }
    ensures memory { OnErr result (LacksRoom out.old (encoded (reply_of reply.now))) }
{
    match encode_reply(reply, out) {
        Ok(()) => Ok(()),
        Err(_) => Err(AllocError),
    }
}

/// Whether a line may be answered with the reply, and if not, why.
fn check_reply(reply: &Reply) -> Result<(), SendError>
    ensures ok { IsOk result → is_answer (reply_of reply.now) ≡ true }
    ensures why { IfErr result (IsNoAnswer (reply_of reply.now)) }
{
    if !is_final(reply) {
        return Err(SendError::NotFinal);
    }
    if !reply.is_plain() {
        return Err(SendError::NotPlain);
    }
    Ok(())
}

/// Whether no other reply to the same line follows the reply.
fn is_final(reply: &Reply) -> bool
    ensures { result ≡ is_final_reply (reply_of reply.now) }
{
    match reply {
        Reply::None => false,
        Reply::CodeAndMsg { code, .. } | Reply::MultiLine { code, .. } => {
            !(100..200).contains(&code.number())
        }
    }
}
