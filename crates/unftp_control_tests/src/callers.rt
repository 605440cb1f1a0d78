//! Each caller of `example_callers` once, over inputs and outputs in memory.
use crate::held::assert_held;
use example_callers::client::{first_code, next_code, tls_agreed};
use example_callers::codec::{answer, first_is_noop, next_is_noop};
use example_callers::event_loop::{Turn, answer_next};
use example_callers::first::answer_client;
use example_callers::handler::Basic;
use example_callers::lines::log_line;
use example_callers::pieces::{answer_pieces, replies_to_pieces};
use example_callers::proxy::forward_line;
use example_callers::restarting::Restarting;
use example_callers::serving::{serve_connection, serve_stranger};
use example_callers::upgrading::serve_until_tls;
use std::alloc::Global;
use std::io;
use std::io::Read;
use std::process::Abort;
use unftp_control::client::Client;
use unftp_control::codecs::FtpCodec;
use unftp_control::command::Command;
use unftp_control::commands::AuthParam;
use unftp_control::read::{ReceiveError, ReplyDecoder};
use unftp_control::serve::{EventDecoder, Input, Output, ServeError, Served};

/// Logs a line after those that are logged.
fn log_one(rt: &impl Abort, alloc: Global, line: &[u8], log: &mut Vec<u8>) {
    assert!(rt; log_line(alloc, line, log).is_ok());
    assert!(rt; log.push(b'\n').is_ok());
}

#[test]
fn lines_are_logged(rt: HostRuntime) {
    let mut log = Vec::new(rt.alloc());
    log_one(&rt, rt.alloc(), b"pass secret\r\n", &mut log);
    log_one(&rt, rt.alloc(), b"retr a\n", &mut log);
    log_one(&rt, rt.alloc(), b"RETR\r\n", &mut log);
    let want = b"PASS ***\nRETR a\nrefused RETR: Invalid command\n";
    assert_held(&rt, log, want);
}

#[test]
fn lines_are_forwarded(rt: HostRuntime) {
    let mut out = Vec::new(rt.alloc());
    assert!(rt; forward_line(b"list -la -- -x\n", &mut out).is_none());
    let refused = forward_line(b"RETR\r\n", &mut out);
    assert!(rt; refused == Some("500 Not understood\r\n"));
    assert_held(&rt, out, b"LIST -la -- -x\r\n");
}

#[test]
fn a_codec_answers_line_by_line(rt: HostRuntime) {
    let alloc = rt.alloc();
    let mut codec = FtpCodec::new();
    let (taken, first) = first_is_noop(alloc, &mut codec, b"PWD\r\nNOOP\r\n");
    assert!(rt; taken == 5 && first.expect(&rt, "memory") == Some(false));
    let mut codec = FtpCodec::new();
    let mut buf = Vec::from_slice(alloc, b"NOOP\r\n").expect(&rt, "memory");
    let next = next_is_noop(alloc, &mut codec, &mut buf);
    assert!(rt; next.expect(&rt, "memory") == Some(true));
    let mut out = Vec::new(alloc);
    answer(alloc, &mut codec, true, &mut out).expect(&rt, "memory");
    assert_held(&rt, out, b"200 OK\r\n");
}

/// These bytes begin with this reply: its code, and how many bytes it takes.
fn assert_first(rt: &impl Abort, alloc: Global, bytes: &[u8], want: Option<(u16, usize)>) {
    let first = first_code(alloc, bytes).expect(rt, "a reply");
    assert!(rt; first == want);
}

/// A client that was greeted.
fn greeted(rt: &impl Abort, alloc: Global) -> Client {
    let mut client = Client::new(alloc);
    let mut greeting = Input::new(b"220 ready\r\n".as_slice());
    let taken = client.read_reply(&mut greeting).expect(rt, "a reply");
    assert!(rt; taken.is_some());
    drop(taken);
    client
}

/// A client that was greeted, and that has sent AUTH TLS.
fn asking_for_tls(rt: &impl Abort, alloc: Global) -> Client {
    let mut client = greeted(rt, alloc);
    let auth = Command::Auth {
        protocol: AuthParam::Tls,
    };
    let mut out = Vec::new(alloc);
    let place = client.send(&auth, &mut out).expect(rt, "a line");
    drop(auth);
    assert!(rt; place == 0);
    assert_held(rt, out, b"AUTH TLS\r\n");
    client
}

/// The client begins TLS, or doesn't, where the server then sends this.
fn assert_agreed(rt: &impl Abort, alloc: Global, sent: &[u8], want: bool) {
    let mut client = asking_for_tls(rt, alloc);
    let is_agreed = tls_agreed(&mut client, &mut Input::new(sent)).expect(rt, "a reply");
    drop(client);
    assert!(rt; is_agreed == want);
}

#[test]
fn a_client_reads_replies(rt: HostRuntime) {
    assert_first(&rt, rt.alloc(), b"220 ready\r\n331", Some((220, 11)));
    assert_first(&rt, rt.alloc(), b"220 ready\r", None);
    let mut replies = ReplyDecoder::new(rt.alloc());
    let mut stream = Input::new(b"220 ready\r\n234 Begin TLS\r\n".as_slice());
    let code = next_code(&mut replies, &mut stream).expect(&rt, "a reply");
    assert_eq!(rt; code, Some(220));
    // the second reply was received with the first
    let code = next_code(&mut replies, &mut stream).expect(&rt, "a reply");
    assert_eq!(rt; code, Some(234));
}

#[test]
fn a_client_begins_tls_right_after_the_reply_or_not_at_all(rt: HostRuntime) {
    let alloc = rt.alloc();
    assert_agreed(&rt, alloc, b"234 Begin TLS\r\n", true);
    assert_agreed(&rt, alloc, b"234 Begin TLS\r\n230 Welcome\r\n", false);
    assert_agreed(&rt, alloc, b"234 Begin TLS\r\n2", false);
    assert_agreed(&rt, alloc, b"502 No TLS\r\n", false);
    assert_agreed(&rt, alloc, b"234 Begin", false);
}

/// Two bytes are left.
fn assert_left(rt: &impl Abort, served: Result<Served, ServeError>) {
    assert!(rt; served.expect(rt, "an answer").left == 2);
}

#[test]
fn a_connection_is_served(rt: HostRuntime) {
    let alloc = rt.alloc();
    let bytes = b"NOOP\r\nQU".as_slice();
    let mut output = Output::new(Vec::new(alloc));
    let mut input = Input::new(bytes);
    assert_left(
        &rt,
        serve_connection(alloc, &mut input, &mut output, &mut Basic::new()),
    );
    let mut input = Input::new(bytes);
    assert_left(
        &rt,
        serve_stranger(alloc, &mut input, &mut output, &mut Basic::new()),
    );
    assert_held(&rt, output.into_inner(), b"200 OK\r\n200 OK\r\n");
    let (served, _, output) = answer_client(alloc, bytes, Vec::new(alloc), &mut Basic::new());
    assert_left(&rt, served);
    assert_held(&rt, output.into_inner(), b"200 OK\r\n");
}

#[test]
fn a_session_gives_two_replies(rt: HostRuntime) {
    let alloc = rt.alloc();
    let mut output = Output::new(Vec::new(alloc));
    let mut input = Input::new(b"rein\r\nNOOP\r\nQU".as_slice());
    assert_left(
        &rt,
        serve_connection(alloc, &mut input, &mut output, &mut Restarting::new()),
    );
    let want = b"120 Service ready soon\r\n220 Service ready\r\n200 OK\r\n";
    assert_held(&rt, output.into_inner(), want);
}

/// The server agrees to TLS after this input, and begins it only where it can.
fn assert_upgraded(rt: &impl Abort, alloc: Global, bytes: &[u8], is_begun: bool) {
    let mut output = Output::new(Vec::new(alloc));
    let begins = serve_until_tls(alloc, &mut Input::new(bytes), &mut output);
    assert!(rt; begins.expect(rt, "an answer") == is_begun);
    assert_held(rt, output.into_inner(), b"234 Upgrading to TLS\r\n");
}

#[test]
fn a_connection_is_upgraded(rt: HostRuntime) {
    assert_upgraded(&rt, rt.alloc(), b"AUTH TLS\r\n", true);
    // what came after AUTH in clear text is not read under TLS
    assert_upgraded(&rt, rt.alloc(), b"AUTH TLS\r\nUSER x\r\n", false);
}

#[test]
fn pieces_are_answered(rt: HostRuntime) {
    let pieces = [b"NO".as_slice(), b"OP\r\nQU".as_slice()];
    let mut output = Output::new(Vec::new(rt.alloc()));
    let answer = answer_pieces(rt.alloc(), &pieces, &mut Basic::new(), &mut output);
    assert_held(&rt, output.into_inner(), b"200 OK\r\n");
    assert!(rt; answer.expect(&rt, "an answer") == 2);
    let replies = replies_to_pieces(rt.alloc(), &pieces, &mut Basic::new());
    assert_held(&rt, replies.expect(&rt, "an answer"), b"200 OK\r\n");
}

/// What the server does next is this, after it has sent this.
fn assert_turn(
    rt: &impl Abort,
    alloc: Global,
    decoder: &mut EventDecoder,
    want: Turn,
    sent: &[u8],
) {
    let mut out = Vec::new(alloc);
    let turn = answer_next(alloc, decoder, &mut out).expect(rt, "memory");
    assert_held(rt, out, sent);
    assert!(rt; turn == want);
}

#[test]
fn an_event_loop_sends_what_it_likes(rt: HostRuntime) {
    let alloc = rt.alloc();
    let mut decoder = EventDecoder::new(rt.alloc());
    let input = b"RETR a\r\nAUTH TLS\r\n";
    decoder.push(input).expect(&rt, "memory");
    let sent = b"150 Sending data\r\n226 Sent\r\n";
    assert_turn(&rt, alloc, &mut decoder, Turn::GoOn, sent);
    assert_turn(
        &rt,
        alloc,
        &mut decoder,
        Turn::StartTls,
        b"234 Begin TLS\r\n",
    );
    assert_turn(&rt, alloc, &mut decoder, Turn::Read, b"");
    let input = b"AUTH TLS\r\nQUIT\r\nNOOP\r\n";
    decoder.push(input).expect(&rt, "memory");
    assert_turn(&rt, alloc, &mut decoder, Turn::GoOn, b"502 Not here\r\n");
    assert_turn(&rt, alloc, &mut decoder, Turn::Close, b"221 Bye\r\n");
}

/// Each read fails with the system's error of this number.
#[derive(Drop)]
struct NoReads(i32);

impl Read for NoReads {
    fn read(&mut self, _buf: &mut [u8]) -> io::Result<usize> {
        Err(io::Error::from_raw_os_error(self.0))
    }
}

/// The number of the system's error that a read failed with.
fn read_error<T: Drop>(answer: Result<T, ServeError>) -> Option<i32> {
    match answer {
        Err(ServeError::Read(error)) => error.raw_os_error(),
        _ => None,
    }
}

/// The number of the system's error that receiving failed with.
fn receive_error<T: Drop>(answer: Result<T, ReceiveError>) -> Option<i32> {
    match answer {
        Err(ReceiveError::Read(error)) => error.raw_os_error(),
        _ => None,
    }
}

/// The error has this number.
fn assert_number(rt: &impl Abort, error: Option<i32>, number: i32) {
    assert_eq!(rt; error, Some(number));
}

#[test]
fn the_error_of_a_read_is_returned(rt: HostRuntime) {
    let alloc = rt.alloc();
    let mut replies = ReplyDecoder::new(alloc);
    let code = next_code(&mut replies, &mut Input::new(NoReads(104)));
    assert_number(&rt, receive_error(code), 104);
    drop(replies);
    let is_agreed = tls_agreed(&mut Client::new(alloc), &mut Input::new(NoReads(110)));
    assert_number(&rt, receive_error(is_agreed), 110);
    let mut output = Output::new(Vec::new(alloc));
    let mut input = Input::new(NoReads(104));
    let served = serve_connection(alloc, &mut input, &mut output, &mut Basic::new());
    assert_number(&rt, read_error(served), 104);
    let begins = serve_until_tls(alloc, &mut Input::new(NoReads(110)), &mut output);
    assert_number(&rt, read_error(begins), 110);
}
