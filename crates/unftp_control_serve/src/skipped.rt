//! The bytes of a line that were dropped, since it is longer than the limit.
ghost use Rattle.std.specs.Prelude.{◌≡◌, ◌++◌, [], length};
ghost use Rattle.unftp_control_serve.specs.Decoder.{saturating_u64};

use std::marker::Model;
use unftp_control_defs::count::Trace;

/// How many bytes were dropped, or `u64::MAX` where there are more. Which ones, only contracts see.
#[derive(Drop)]
pub(crate) struct Skipped {
    count: u64,
    bytes: Trace,
}

impl Model for Skipped {
    ghost use Rattle.std.specs.Prelude.{◌≡◌, length};
    ghost use Rattle.unftp_control_defs.specs.Bytes.{Bytes};
    ghost use Rattle.unftp_control_serve.specs.Decoder.{saturating_u64};

    ghost Value = { Bytes };

    ghost view = { λ skipped. skipped.bytes };

    ghost invariant = { λ skipped. skipped.count ≡ saturating_u64 (length skipped.bytes) };
}

impl Skipped {
    /// No bytes.
    pub(crate) fn none() -> Skipped
        ensures { result ≡ [] }
    {
        Skipped {
            count: 0,
            bytes: Trace::new(),
        }
    }

    /// How many bytes, or `u64::MAX` where there are more.
    pub(crate) fn count(&self) -> u64
        ensures { result ≡ saturating_u64 (length self.now) }
    {
        self.count
    }

    /// These bytes are dropped after those before.
    #[inline(always)]
    pub(crate) fn add(&mut self, bytes: &[u8])
        ensures { self.new ≡ self.old ++ bytes.now }
    {
        self.count = self.count.saturating_add(bytes.len() as u64);
        self.bytes.extend(bytes);
    }
}
