//! What the server answers to single commands, and texts for replies.
#![tactic(auto)]

mod auth;
mod epsv;
mod feat;
mod help;
mod lines;
mod listing;
mod mode;
mod opts;
pub mod pieces;
mod prot;
mod session;
mod stru;
mod texts;
mod usual;

pub use auth::Auth;
pub use epsv::{Epsv, Passive, make_epsv_reply, same_passives};
pub use feat::Feat;
pub use help::Help;
pub use listing::facts_reply;
pub use mode::Mode;
pub use opts::Opts;
pub use prot::Prot;
pub use session::{SessionChange, same_changes};
pub use stru::Stru;
pub use texts::{
    quoted_bytes, quoted_path, quoted_paths_read_back, single_line_text, single_lines_read_back,
    write_quoted,
};
pub use unftp_control_defs::parameters::{AuthParam, ModeParam, Opt, ProtParam, StruParam};
pub use usual::{usual_line, usual_lines_are_of_commands};
