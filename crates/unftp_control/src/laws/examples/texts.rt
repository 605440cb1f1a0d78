//! Examples of the definitions, worked out by hand: for each one that holds and one that doesn't,
//! at the boundary.
ghost use Rattle.std.specs.Prelude.{◌≡◌, ◌++◌, codes, false, true};
ghost use Rattle.unftp_control_commands.specs.Answers.{auth_change, epsv_reply, port_reply, prot_change};
ghost use Rattle.unftp_control_commands.specs.ReplyTexts.{HasNoFirstQuote, quoted};
ghost use Rattle.unftp_control_commands.specs.declared.epsv.Passive.TheVariants.{Port, Prebound};
ghost use Rattle.unftp_control_commands.specs.declared.session.SessionChange.TheVariants.{DataTls, Nothing, SecureControlChannel};
ghost use Rattle.unftp_control_codecs.specs.ReplyCodes.{IsReplyCode};
ghost use Rattle.unftp_control_defs.specs.FtpReply.{CodeAndMsg};
ghost use Rattle.unftp_control_defs.specs.declared.parameters.AuthParam.TheVariants.{Ssl, Tls};
ghost use Rattle.unftp_control_defs.specs.declared.parameters.ProtParam.TheVariants.{Clear, Private, Safe};

/// What can follow a path between quotes. A quote can't: of two paths one would go on.
pub fn quoted_paths_end_so()
    ensures text { HasNoFirstQuote (codes " created") }
    ensures quote { ¬ HasNoFirstQuote (codes "\"") }
    ensures two_paths { quoted (codes "a") ++ codes "\"b\"" ≡ quoted (codes "a\"b") }
{}

/// Codes that a reply can have (RFC 959, section 4.2).
pub fn replies_have_codes_so()
    ensures two_digits { ¬ IsReplyCode 99 }
    ensures least { IsReplyCode 100 }
    ensures greatest { IsReplyCode 599 }
    ensures sixth_kind { ¬ IsReplyCode 600 }
{}

/// What a session does after AUTH and PROT: something only where TLS is configured and the reply is
/// positive (RFC 4217, sections 4 and 9).
pub fn sessions_change_so()
    ensures tls { auth_change true Tls ≡ SecureControlChannel }
    ensures tls_without_it { auth_change false Tls ≡ Nothing }
    ensures ssl { auth_change true Ssl ≡ Nothing }
    ensures private_data { prot_change true Private ≡ DataTls true }
    ensures clear_data { prot_change true Clear ≡ DataTls false }
    ensures safe_data { prot_change true Safe ≡ Nothing }
    ensures private_data_without_it { prot_change false Private ≡ Nothing }
{}

/// EPSV is answered with the port, unless one was bound before (RFC 2428, section 3).
pub fn ports_are_told_so()
    ensures port { epsv_reply (Port 2121) ≡ port_reply 2121 }
    ensures bound_before { epsv_reply Prebound
        ≡ CodeAndMsg 502 (codes "EPSV not supported in this mode") }
{}
