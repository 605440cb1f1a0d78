//! Examples of the definitions of this crate, worked out by hand: values for which each holds and
//! values for which it doesn't.
ghost use Rattle.std.specs.Prelude.{◌≡◌, Bool, [], ◌∷◌, None, Some, codes, false, true};
ghost use Rattle.example_callers.specs.EventLoop.{loop_replies, turn_after};
ghost use Rattle.example_callers.specs.FactList.{facts_asked, facts_text};
ghost use Rattle.example_callers.specs.Forwarding.{IsReplyInPlace};
ghost use Rattle.example_callers.specs.Relays.{decided};
ghost use Rattle.example_callers.specs.Restarting.{restarting};
ghost use Rattle.example_callers.specs.UntilTls.{BeginsTls, EndsWithAuth};
ghost use Rattle.example_callers.specs.WholeLine.{AsksFor, all_facts, image_modes, modes_after, no_facts, line_reply};
ghost use Rattle.unftp_control_defs.specs.Bytes.{Bytes};
ghost use Rattle.unftp_control_defs.specs.Events.{Command, Refused, refusal_fault};
ghost use Rattle.unftp_control_defs.specs.FtpCommand.{Auth, Epsv, InvalidCommand, Other, Pasv, Quit, Retr, TypeCode};
ghost use Rattle.unftp_control_write.specs.Forwarding.{IsForwardError, IsForwarded};
ghost use Rattle.unftp_control_defs.specs.FtpReply.{CodeAndMsg};
ghost use Rattle.unftp_control_defs.specs.Outcome.{outcome};
ghost use Rattle.unftp_control_defs.specs.Input.{InputState};
ghost use Rattle.unftp_control_defs.specs.Run.{replies_to};
ghost use Rattle.unftp_control_serve.specs.Writing.{OutputState};
ghost use Rattle.unftp_control_defs.specs.declared.parameters.AuthParam.TheVariants.{Ssl, Tls};

pub mod log;
pub mod sessions;
pub mod transfers;

use crate::event_loop::Turn;
use crate::relay::Decision;
use crate::whole_line::{Asked, Modes};
use unftp_control_codecs::line_parser::ParseErrorKind;
use unftp_control_write::ForwardError;

/// `Refused` names the refusal of the line, and `NotALine` is for bytes that are not one.
pub fn lines_are_refused()
    ensures path { IsForwardError (codes "RETR a\r\n")
        (ForwardError.Refused ParseErrorKind.InvalidCommand) → ⊥ }
    ensures empty_path { IsForwardError (codes "RETR\r\n")
        (ForwardError.Refused ParseErrorKind.InvalidCommand) }
    ensures other_refusal { IsForwardError (codes "RETR\r\n")
        (ForwardError.Refused ParseErrorKind.InvalidEol) → ⊥ }
    ensures no_lf { IsForwardError (codes "NOOP") ForwardError.NotALine }
    ensures memory { IsForwardError (codes "NOOP\r\n") ForwardError.OutOfMemory }
    ensures no_memory { IsForwardError (255 ∷ codes "\r\n") ForwardError.OutOfMemory → ⊥ }
    ensures refused_memory { (line : Bytes) → IsForwardError line
        (ForwardError.Refused ParseErrorKind.OutOfMemory) → ⊥ }
{}

/// What is sent is the verb in upper case and the parameter; of a verb without a value it is the
/// canonical line.
pub fn lines_are_forwarded()
    ensures parameter { IsForwarded (codes "xcwd a\n") (codes "NOOP\r\n")
        (codes "NOOP\r\nXCWD a\r\n") }
    ensures canonical { IsForwarded (codes "xpwd \n") [] (codes "PWD\r\n") }
    ensures as_it_came { IsForwarded (codes "xcwd a\n") [] (codes "xcwd a\n") → ⊥ }
    ensures refused { (sent : Bytes) → IsForwarded (codes "RETR\r\n") [] sent → ⊥ }
{}

/// A client is replied 500 where its line is refused or not one line, and 421 when out of memory.
pub fn clients_are_replied()
    ensures refused { IsReplyInPlace (codes "RETR\r\n") (codes "500 Not understood\r\n") }
    ensures command { IsReplyInPlace (codes "NOOP\r\n") (codes "500 Not understood\r\n") → ⊥ }
    ensures memory { IsReplyInPlace (codes "NOOP\r\n") (codes "421 Out of memory\r\n") }
    ensures no_memory { IsReplyInPlace (255 ∷ codes "\r\n") (codes "421 Out of memory\r\n")
        → ⊥ }
{}

/// A line is let through for its command, however the verb is spelled. A refused one goes as it is
/// for its verb, but for that of AUTH.
#[tactic(auto, unfolding(unftp_control_defs::proofs::Computing::at_bytes))]
pub fn lines_only_read()
    ensures lower_case { decided (codes "retr a\n") (outcome (codes "retr a\n"))
        ≡ Decision.Forward }
    ensures delete { decided (codes "DELE a\r\n") (outcome (codes "DELE a\r\n"))
        ≡ Decision.NotAllowed }
    ensures time { decided (codes "MDTM 20010203040506 a\r\n")
        (outcome (codes "MDTM 20010203040506 a\r\n")) ≡ Decision.Forward → ⊥ }
    ensures refused { decided (codes "RETR\r\n") (outcome (codes "RETR\r\n"))
        ≡ Decision.SendAsItIs }
    ensures refused_delete { decided (codes "DELE\r\n") (outcome (codes "DELE\r\n"))
        ≡ Decision.SendAsItIs → ⊥ }
    ensures auth { decided (codes "AUTH\r\n") (outcome (codes "AUTH\r\n"))
        ≡ Decision.NotUnderstood }
{}

/// REIN has two replies, and a longer name has one.
pub fn restarts_are_answered_so()
    ensures rein { replies_to restarting (record { restarts = false; is_done = false })
        (Command (Other (codes "REIN") []))
        ≡ CodeAndMsg 120 (codes "Service ready soon") ∷ CodeAndMsg 220 (codes "Service ready")
        ∷ [] }
    ensures longer { replies_to restarting (record { restarts = true; is_done = false })
        (Command (Other (codes "REINX") [])) ≡ CodeAndMsg 502 (codes "Not implemented") ∷ [] }
    ensures goes_on { restarting.done (record { restarts = true; is_done = false }) ≡ true → ⊥ }
{}

/// An event loop agrees to AUTH TLS only where nothing comes after its line.
pub fn events_are_answered()
    ensures tls_reply_with_more { loop_replies (Command (Auth Tls)) (codes "N")
        ≡ CodeAndMsg 234 (codes "Begin TLS") ∷ [] → ⊥ }
    ensures one_reply_to_retr { (path : Bytes)
        → loop_replies (Command (Retr path)) [] ≡ CodeAndMsg 226 (codes "Sent") ∷ [] → ⊥ }
    ensures tls { turn_after (Command (Auth Tls)) [] ≡ Turn.StartTls }
    ensures tls_with_more { turn_after (Command (Auth Tls)) (codes "N") ≡ Turn.StartTls → ⊥ }
    ensures ssl { turn_after (Command (Auth Ssl)) [] ≡ Turn.StartTls → ⊥ }
    ensures quit { turn_after (Command Quit) (codes "N") ≡ Turn.Close }
{}

/// With what the bytes end that were read, where TLS begins and where it doesn't.
pub fn streams_are_left_so()
    ensures begins { EndsWithAuth true (codes "AUTH TLS\r\n") }
    ensures read_on { EndsWithAuth true (codes "AUTH TLS\r\nX") → ⊥ }
    ensures never_asked { EndsWithAuth false (codes "NOOP\r\n") }
    ensures none_read { EndsWithAuth false (codes "AUTH TLS\r\n") → ⊥ }
{}

/// TLS begins where AUTH TLS ends the last piece that was read, and only there; no piece was read
/// after it.
pub fn tls_begins_so()
    ensures at_the_end { (before after : OutputState) (input input_after : InputState)
        (begins : Bool) (v : BeginsTls before after input input_after begins)
        → v.answered.pieces ≡ codes "AUTH TLS\r\n" ∷ [] → begins ≡ true }
    ensures before_others { (before after : OutputState) (input input_after : InputState)
        (begins : Bool) (v : BeginsTls before after input input_after begins)
        → v.answered.pieces ≡ codes "AUTH TLS\r\nX" ∷ [] → begins ≡ false }
    ensures read_on { (before after : OutputState) (input input_after : InputState)
        (begins : Bool) (v : BeginsTls before after input input_after begins)
        → v.answered.pieces ≡ codes "AUTH TLS\r\n" ∷ codes "X" ∷ [] → ⊥ }
{}

/// The case of letters is ignored, and what follows counts.
pub fn lines_ask()
    ensures print { AsksFor (codes "TYPE A N") Asked.Ascii }
    ensures carriage { AsksFor (codes "TYPE A C") Asked.Ascii → ⊥ }
    ensures eight_bits { AsksFor (codes "TYPE L 8") Asked.Image }
    ensures nine_bits { AsksFor (codes "TYPE L 9") Asked.Image → ⊥ }
    ensures not_all { AsksFor (codes "EPSV") Asked.EpsvOnly → ⊥ }
    ensures facts { AsksFor (codes "opts mlst Size;")
        (Asked.FactsOnly (record { kind = false; size = true; modify = false })) }
    ensures something { AsksFor (codes "TYPE A") Asked.Nothing → ⊥ }
{}

/// A fact that the server doesn't have is left out, and no list asks for none.
pub fn facts_are_asked()
    ensures unknown { facts_asked (codes "OPTS MLST perm;size;")
        ≡ Some (record { kind = false; size = true; modify = false }) }
    ensures none { facts_asked (codes "opts mlst") ≡ Some no_facts }
    ensures no_space { facts_asked (codes "OPTS MLSTsize;") ≡ None }
    ensures text { facts_text (record { kind = true; size = false; modify = true })
        ≡ codes "MLST OPTS type;modify;" }
{}

/// What a line asks is answered, and PASV and PORT are refused once EPSV ALL came.
pub fn whole_lines_are_answered()
    ensures image { line_reply false (Command TypeCode) Asked.Image
        ≡ CodeAndMsg 200 (codes "Type is I") }
    ensures no_type { line_reply false (Command TypeCode) Asked.Nothing
        ≡ CodeAndMsg 504 (codes "No such type") }
    ensures pasv { line_reply false (Command Pasv) Asked.Nothing
        ≡ CodeAndMsg 502 (codes "Not here") }
    ensures pasv_later { line_reply true (Command Pasv) Asked.Nothing
        ≡ CodeAndMsg 503 (codes "EPSV only") }
    ensures facts { line_reply false (Refused (refusal_fault InvalidCommand))
        (Asked.FactsOnly no_facts) ≡ CodeAndMsg 200 (codes "MLST OPTS") }
    ensures remembered { modes_after image_modes (Command Epsv) Asked.EpsvOnly
        ≡ record { image = true; epsv_only = true; facts = all_facts } }
{}
