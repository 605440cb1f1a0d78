//! Addresses that are written after what a buffer has, which no row of `vectors/addresses.tsv` can
//! show: a call from C writes to an area of its own.

mod counted {
    use crate::held::assert_held;
    use std::net::{Ipv4Addr, SocketAddr, SocketAddrV4};
    use std::process::Abort;
    use unftp_control::address::{write_extended, write_extended_port, write_host_port};

    /// Appends bytes that have room.
    fn append(rt: &impl Abort, sent: &mut Vec<u8>, bytes: &[u8]) {
        assert!(rt; sent.extend_from_slice(bytes).is_ok());
    }

    #[test]
    fn takes_1_for_addresses_after_other_bytes(rt: HostRuntime) {
        let address = SocketAddrV4::new(Ipv4Addr::new(132, 235, 1, 2), 6275);
        let mut sent = Vec::with_capacity(rt.alloc(), 96).expect(&rt, "memory");
        append(&rt, &mut sent, b"227 Entering Passive Mode (");
        assert!(&rt; write_host_port(address, &mut sent).is_ok());
        append(&rt, &mut sent, b").\r\nEPRT ");
        assert!(&rt; write_extended(SocketAddr::V4(address), &mut sent).is_ok());
        append(&rt, &mut sent, b"\r\n229 ");
        assert!(&rt; write_extended_port(6446, &mut sent).is_ok());
        let want =
            b"227 Entering Passive Mode (132,235,1,2,24,131).\r\nEPRT |1|132.235.1.2|6275|\r\n229 (|||6446|)";
        assert_held(&rt, sent, want);
    }
}
