//! Examples of definitions that the contracts cite, worked out by hand. Many come in pairs at a
//! boundary: the last value for which a definition holds, and the first for which it doesn't.

pub mod both_ends;
pub mod client;
pub mod decoding;
pub mod definitions;
pub mod engine;
pub mod memory;
pub mod parts;
pub mod receiving;
pub mod serving;
pub mod texts;
