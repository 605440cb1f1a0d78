//! Examples of the lowest definitions, those of lines, commands, replies and runs.

pub mod commands;
pub mod forwarding;
pub mod inputs;
pub mod lines;
pub mod lossy;
pub mod paths;
pub mod reading;
pub mod replies;
pub mod runs;
pub mod turns;
pub mod values;
