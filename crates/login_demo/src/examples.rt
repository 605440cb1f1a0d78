//! Examples of the definitions, worked out by hand from the RFCs: what they say at the boundary,
//! and next to it.
mod paths;
mod replies;
mod sessions;
