//! Replies from a reader that fails.
use crate::held::assert_bytes;
use std::io;
use std::io::{ErrorKind, Read};
use std::process::Abort;
use unftp_control::read::{Input, ReceiveError, ReceivedReply, ReplyDecoder};

/// Gives a byte a read, and fails at every third.
#[derive(Drop)]
struct Failing<'a> {
    rest: &'a [u8],
    reads: u8,
    kind: ErrorKind,
}

impl Read for Failing<'_> {
    ghost use Rattle.std.specs.Prelude.{Some};

    ghost remaining = { λ reader. Some reader.rest.now };

    fn read(&mut self, buf: &mut [u8]) -> io::Result<usize> {
        self.reads = self.reads % 3 + 1;
        if self.reads == 3 {
            return Err(io::Error::from(self.kind));
        }
        let n = buf.len().min(1).min(self.rest.len());
        let (taken, rest) = self.rest.split_at(n);
        buf[..n].copy_from_slice(taken);
        self.rest = rest;
        Ok(n)
    }
}

/// What was received: the code of a reply, nothing, or the kind of the reader's error. A reply that
/// is refused is invalid data.
type Received = Result<Option<u16>, ErrorKind>;

/// What the answer is.
fn outcome_of(answer: Result<Option<ReceivedReply>, ReceiveError>) -> Received {
    match answer {
        Ok(Some(reply)) => Ok(Some(reply.code)),
        Ok(None) => Ok(None),
        Err(ReceiveError::Read(error)) => Err(error.kind()),
        Err(_) => Err(ErrorKind::InvalidData),
    }
}

/// The outcome is the wanted one.
fn assert_outcome(rt: &impl Abort, outcome: Received, want: Received) {
    assert_eq!(rt; outcome, want);
}

/// What is received next is this, and these bytes are pending after it.
fn assert_received<R: Read>(
    rt: &impl Abort,
    decoder: &mut ReplyDecoder,
    reader: &mut Input<R>,
    want: Received,
    pending: &[u8],
) {
    assert_outcome(rt, outcome_of(decoder.read_reply(reader)), want);
    assert_bytes(rt, decoder.pending(), pending);
}

#[test]
fn a_failed_read_loses_nothing(rt: HostRuntime) {
    let mut decoder = ReplyDecoder::new(rt.alloc());
    let kind = ErrorKind::Interrupted;
    let rest = b"220\r\n33".as_slice();
    let mut reader = Input::new(Failing {
        rest,
        reads: 0,
        kind,
    });
    let failed = Err(kind);
    assert_received(&rt, &mut decoder, &mut reader, failed, b"22");
    assert_received(&rt, &mut decoder, &mut reader, failed, b"220\r");
    assert_received(&rt, &mut decoder, &mut reader, Ok(Some(220)), b"");
    assert_received(&rt, &mut decoder, &mut reader, failed, b"3");
    assert_received(&rt, &mut decoder, &mut reader, Ok(None), b"33");
}

#[test]
fn another_reader_goes_on_after_an_error(rt: HostRuntime) {
    let mut decoder = ReplyDecoder::with_limit(rt.alloc(), 100);
    let kind = ErrorKind::ConnectionReset;
    let rest = b"220 ready\r\n".as_slice();
    let mut reader = Input::new(Failing {
        rest,
        reads: 0,
        kind,
    });
    let failed = Err(kind);
    assert_received(&rt, &mut decoder, &mut reader, failed, b"22");
    assert_received(&rt, &mut decoder, &mut reader, failed, b"220 ");
    let mut reader = Input::new(b"\r\n331\r\n".as_slice());
    let reply = Ok(Some(220));
    assert_received(&rt, &mut decoder, &mut reader, reply, b"331\r\n");
}
