//! FEAT (RFC 2389, section 3).
ghost use Rattle.std.specs.Prelude.{◌≡◌, ◌∷◌, ◌++◌, map, string_bytes, IfOk, IfErr, OnOk};
ghost use Rattle.unftp_control_defs.specs.Bytes.{SP};
ghost use Rattle.unftp_control_defs.specs.Events.{out_of_memory};
ghost use Rattle.unftp_control_message.specs.ErrorMeaning.{fault_of};
ghost use Rattle.unftp_control_message.specs.ReplyMeaning.{reply_of};
ghost use Rattle.unftp_control_commands.specs.Answers.{feat_reply, feat_reply_with, features, when};

use crate::lines::append_lines;
use std::alloc::{AllocError, Global};
use unftp_control_message::reply::error::ControlChanError;
use unftp_control_message::reply::{Reply, ReplyCode};

/// FEAT.
#[derive(Debug, Drop)]
pub struct Feat;

impl Feat {
    /// 211 with the features (RFC 2389, section 3.2), those of TLS, REST STREAM and SITE MD5 where
    /// they are on. It fails only when out of memory, with the kind `OutOfMemory`.
    pub fn reply(
        &self,
        alloc: Global,
        tls: bool,
        restart: bool,
        site_md5: bool,
    ) -> Result<Reply, ControlChanError>
        // At `Ok` the reply is the definition's for these settings.
        ensures ok { IfOk result (λ reply. reply_of reply ≡ feat_reply tls restart site_md5) }
        // The only error is out of memory.
        ensures err { IfErr result (λ error. fault_of error ≡ out_of_memory) }
    {
        let features = features_on(alloc, tls, restart, site_md5)?;
        self.reply_with(alloc, features.as_slice())
    }

    /// 211 with these features, in their order, each in a line of its own after a space (RFC 2389,
    /// section 3.2); they are written as they are. It fails only when out of memory, with the kind
    /// `OutOfMemory`.
    pub fn reply_with(&self, alloc: Global, features: &[&str]) -> Result<Reply, ControlChanError>
        // At `Ok` the reply has the code 211 and lists exactly these features, in order.
        ensures ok { IfOk result (λ reply. reply_of reply
            ≡ feat_reply_with (map (λ feature. feature.now) features.now)) }
        // The only error is out of memory.
        ensures err { IfErr result (λ error. fault_of error ≡ out_of_memory) }
    {
        let mut lines = Vec::with_capacity(alloc, features.len() + 2)?;
        append_lines(&mut lines, &["Extensions supported:"])?;
        append_features(&mut lines, features)?;
        append_lines(&mut lines, &["END"])?;
        Ok(Reply::MultiLine {
            code: ReplyCode::SystemStatus,
            lines,
        })
    }
}

/// The features, those of TLS, REST STREAM and SITE MD5 where they are on.
fn features_on(
    alloc: Global,
    tls: bool,
    restart: bool,
    site_md5: bool,
) -> Result<Vec<&'static str>, AllocError>
    ensures { IfOk result (λ listed. map (λ feature. feature.now) listed.items
        ≡ features tls restart site_md5) }
{
    let mut listed: Vec<&'static str> = Vec::with_capacity(alloc, 11)?;
    append_when(&mut listed, tls, &["AUTH TLS"])?;
    append_when(&mut listed, true, &["EPSV", "MDTM", "MLSD", "MLST"])?;
    append_when(&mut listed, tls, &["PBSZ", "PROT"])?;
    append_when(&mut listed, restart, &["REST STREAM"])?;
    append_when(&mut listed, site_md5, &["SITE MD5"])?;
    append_when(&mut listed, true, &["SIZE", "UTF8"])?;
    Ok(listed)
}

/// Appends these features where they are on.
fn append_when(
    listed: &mut Vec<&'static str>,
    is_on: bool,
    more: &[&'static str],
) -> Result<(), AllocError>
    ensures { OnOk result (map (λ feature. feature.now) listed.new.items
        ≡ map (λ feature. feature.now) listed.old.items
        ++ when is_on (map (λ feature. feature.now) more.now)) }
{
    if is_on {
        listed.extend_from_slice(more)?;
    }
    Ok(())
}

/// Appends a line for each feature.
fn append_features(lines: &mut Vec<String>, features: &[&str]) -> Result<(), AllocError>
    ensures { OnOk result (map string_bytes lines.new.items
        ≡ map string_bytes lines.old.items ++ map (λ feature. SP ∷ feature.now) features.now) }
{
    let alloc = *lines.allocator();
    for feature in features {
        lines.push(format!(in alloc; " {feature}")?)?;
    }
    Ok(())
}
