//! The line that a command is sent as, the one that a client's line is forwarded as, and whether a
//! line is clear, without the bytes that servers read in different ways.
pub use unftp_control_write::{ForwardError, WriteCommandError, forward, is_clear, write_command};
