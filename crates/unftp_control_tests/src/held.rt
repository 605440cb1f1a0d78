//! Bytes that a test compares.
use std::process::Abort;

/// These bytes are the wanted ones.
pub fn assert_bytes(rt: &impl Abort, bytes: &[u8], want: &[u8]) {
    assert_eq!(rt; bytes, want);
}

/// The buffer holds these bytes.
pub fn assert_held(rt: &impl Abort, buf: Vec<u8>, want: &[u8]) {
    assert_bytes(rt, buf.as_slice(), want);
}
