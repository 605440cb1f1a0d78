//! The errors of the control channel. Those of the parser are in `line_parser`.
pub use unftp_control_message::reply::error::{
    ControlChanError, ControlChanErrorKind, Source, same_kinds,
};
