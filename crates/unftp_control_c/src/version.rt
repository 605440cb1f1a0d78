//! The version of the library.
ghost use Rattle.std.specs.Prelude.{◌≡◌};

/// The version, as `UNFTP_VERSION` of include/unftp_control.h: the major number times 1,000,000,
/// the minor times 1,000, and the patch.
#[unsafe(no_mangle)]
pub extern "C" fn unftp_version() -> u32
    // It is the number of the library's version.
    ensures { result ≡ 4000 }
{
    4_000
}
