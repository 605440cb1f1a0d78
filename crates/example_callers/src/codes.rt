//! Replies with codes that `ReplyCode` doesn't have.
ghost use Rattle.std.specs.Prelude.{◌≡◌, ◌++◌, ◌∷◌, [], IfErr, OnErr, OnOk, codes};
ghost use Rattle.unftp_control_defs.specs.FtpReply.{MultiLine, encoded};

use unftp_control_codecs::{EncodeLinesError, encode_lines};

/// Refuses AUTH for now, with the code 431 of RFC 2228: appends the reply.
pub fn refuse_auth_for_now(out: &mut Vec<u8>) -> Result<(), EncodeLinesError>
    ensures ok { OnOk result (out.new.items
        ≡ out.old.items ++ encoded (MultiLine 431 (codes "No certificate yet" ∷ []))) }
    ensures err { OnErr result (out.new.items ≡ out.old.items) }
    ensures memory { IfErr result (λ error. error ≡ EncodeLinesError.OutOfMemory) }
{
    encode_lines(431, &["No certificate yet"], out)
}
