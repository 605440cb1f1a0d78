//! What `?` makes of another error: `tools/checks/failed_allocations` sees that it takes no memory.
ghost use Rattle.std.specs.Prelude.{◌≡◌, IfErr};
ghost use Rattle.unftp_control.specs.ErrorMeaning.{converted};

use std::io;
use std::process::Abort;
use std::str::Utf8Error;
use unftp_control::error::{ControlChanError, ControlChanErrorKind, Source};
use unftp_control::line_parser::{ParseError, ParseErrorKind};

/// What a caller knows of a line that was refused.
fn pass_on_parse(refused: Result<(), ParseError>) -> Result<(), ControlChanError>
    ensures { IfErr refused (λ parse.
        IfErr result (λ error.
        (error.kind ≡ converted parse) × (error.source ≡ Source.Parse parse))) }
{
    Ok(refused?)
}

/// What a caller knows of reading or writing that failed.
fn pass_on_io(failed: Result<(), io::Error>) -> Result<(), ControlChanError>
    ensures { IfErr failed (λ io.
        IfErr result (λ error.
        (error.kind ≡ ControlChanErrorKind.IoError) × (error.source ≡ Source.Io io))) }
{
    Ok(failed?)
}

/// What a caller knows of bytes that are not UTF-8.
fn pass_on_utf8(ill_formed: Result<(), Utf8Error>) -> Result<(), ControlChanError>
    ensures { IfErr ill_formed (λ utf8. IfErr result (λ error.
        (error.kind ≡ ControlChanErrorKind.Utf8Error) × (error.source ≡ Source.Utf8 utf8))) }
{
    Ok(ill_formed?)
}

/// The source of an error.
#[derive(Clone, Copy, Debug, PartialEq, Eq)]
enum Origin {
    Nothing,
    Parse,
    Utf8,
    Io(io::ErrorKind),
}

/// The answer is an error that has this kind and comes from this.
fn assert_passed_on(
    rt: &impl Abort,
    passed_on: Result<(), ControlChanError>,
    kind: ControlChanErrorKind,
    source: Origin,
) {
    let error = passed_on.expect_err(rt, "an error");
    let is_kind = *error.kind() == kind;
    let found = match error.source() {
        Source::None => Origin::Nothing,
        Source::Parse(_) => Origin::Parse,
        Source::Utf8(_) => Origin::Utf8,
        Source::Io(io) => Origin::Io(io.kind()),
    };
    drop(error);
    drop(kind);
    assert!(rt; is_kind);
    assert_eq!(rt; found, source);
}

mod counted {
    use super::{Origin, assert_passed_on, pass_on_io, pass_on_parse, pass_on_utf8};
    use std::io::ErrorKind;
    use std::str::{Utf8Error, from_utf8};
    use unftp_control::error::ControlChanErrorKind;
    use unftp_control::line_parser::{ParseError, ParseErrorKind};

    #[test]
    fn takes_0_for_a_refusal_that_is_converted(rt: HostRuntime) {
        let refused = pass_on_parse(Err(ParseErrorKind::InvalidEol.into()));
        let kind = ControlChanErrorKind::InvalidCommand;
        assert_passed_on(&rt, refused, kind, Origin::Parse);
        let refused = pass_on_parse(Err(ParseErrorKind::OutOfMemory.into()));
        let kind = ControlChanErrorKind::OutOfMemory;
        assert_passed_on(&rt, refused, kind, Origin::Parse);
    }

    #[test]
    fn takes_0_for_a_failed_read_that_is_converted(rt: HostRuntime) {
        let failed = pass_on_io(Err(ErrorKind::BrokenPipe.into()));
        let source = Origin::Io(ErrorKind::BrokenPipe);
        assert_passed_on(&rt, failed, ControlChanErrorKind::IoError, source);
    }

    /// What is said of a byte that is no UTF-8.
    fn ill_formed() -> Result<(), Utf8Error> {
        from_utf8(b"\xff").map(drop)
    }

    #[test]
    fn takes_0_for_ill_formed_text_that_is_converted(rt: HostRuntime) {
        let kind = ControlChanErrorKind::Utf8Error;
        assert_passed_on(&rt, pass_on_utf8(ill_formed()), kind, Origin::Utf8);
        let utf8 = ill_formed().expect_err(&rt, "an error");
        assert_eq!(rt; ParseError::from(utf8), ParseErrorKind::InvalidUtf8.into());
    }
}
