//! A proxy that rewrites the addresses of data connections, and sends a line that isn't clear.
use crate::held::assert_bytes;
use std::process::Abort;
use unftp_control::proxy::{Limits, Proxy};

const LIMITS: Limits = Limits {
    line: 64,
    sent: 64,
    reply: 64,
    waiting: 16,
};

/// Lines of a client, of which the last one isn't clear, and what the server replies to them.
const LINES: &[u8] = b"PORT 10,0,0,2,4,1\r\nPASV\r\nDELE a\xff\r\n";

const REPLIES: &[u8] = b"220 Ready\r\n200 OK\r\n227 (10,0,0,3,4,1)\r\n550 No\r\n";

/// What is sent and given in place of the line and the reply that name an address.
const PORT: &[u8] = b"PORT 10,0,0,1,4,2\r\n";

const PASSIVE: &[u8] = b"227 (10,0,0,1,4,3)\r\n";

#[test]
fn lines_and_replies_are_replaced(rt: HostRuntime) {
    let mut proxy = Proxy::new(rt.alloc(), LIMITS);
    let (mut to_server, mut to_client) = (Vec::new(rt.alloc()), Vec::new(rt.alloc()));
    proxy.from_client(LINES).expect(&rt, "memory");
    proxy.from_server(REPLIES).expect(&rt, "memory");
    assert!(&rt; proxy.next_line().is_some());
    assert!(&rt; proxy.replace(PORT, &mut to_server).is_ok());
    assert!(&rt; proxy.next_line().is_some());
    assert!(&rt; proxy.forward(&mut to_server).is_ok());
    assert!(&rt; proxy.next_line().is_some());
    assert!(&rt; proxy.send_as_it_is(&mut to_server).is_err());
    assert!(&rt; proxy.send_unclear(&mut to_server).is_ok());
    assert_bytes(
        &rt,
        to_server.as_slice(),
        b"PORT 10,0,0,1,4,2\r\nPASV\r\nDELE a\xff\r\n",
    );
    assert!(&rt; matches!(proxy.next_reply(&mut to_client), Ok(Some(_))));
    assert!(&rt; matches!(proxy.next_reply(&mut to_client), Ok(Some(_))));
    assert!(&rt; proxy.replace_reply(b"200 OK\r\n", &mut to_client).is_err());
    assert!(&rt; proxy.replace_reply(PASSIVE, &mut to_client).is_ok());
    assert!(&rt; matches!(proxy.next_reply(&mut to_client), Ok(Some(_))));
    assert_bytes(
        &rt,
        to_client.as_slice(),
        b"220 Ready\r\n200 OK\r\n227 (10,0,0,1,4,3)\r\n550 No\r\n",
    );
}
