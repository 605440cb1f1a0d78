//! The command that a line of the control connection is.

mod fields;
mod parser;
mod plain;
mod typed;
mod value;
mod verb;

pub use parser::{Words, list_path, parameter, parse, parts, split};
pub use unftp_control_defs::verb::is_verb;
pub use unftp_control_message::reply::error::{
    ParseError, ParseErrorKind, Result, same_parse_errors,
};
pub use value::parameter_value;
pub use verb::kind_keeps;
