//! What the server answers to single commands, with the facts of files.

mod mlst;

pub use mlst::Mlst;
pub use unftp_control_commands::{
    Auth, AuthParam, Epsv, Feat, Help, Mode, ModeParam, Opt, Opts, Passive, Prot, ProtParam,
    SessionChange, Stru, StruParam, make_epsv_reply, quoted_bytes, quoted_path,
    quoted_paths_read_back, same_changes, same_passives, single_line_text, single_lines_read_back,
};
pub use unftp_control_facts::{Metadata, format_facts, modify_text, one_text_of_facts};
