//! The facts of files, and their memory: `tools/checks/failed_allocations` counts it.
use jiff::Timestamp;
use unftp_control::commands::Metadata;

/// A file of which this is known.
#[derive(Clone, Copy)]
struct File {
    is_dir: bool,
    size: u64,
    modified: Option<Timestamp>,
    /// Its user and its group.
    owner: u32,
}

impl Metadata for File {
    ghost facts_of = { λ file. record {
      is_dir = file.is_dir;
      size = file.size;
      modified = file.modified;
      uid = file.owner;
      gid = file.owner;
    } };

    fn len(&self) -> u64 {
        self.size
    }

    fn is_dir(&self) -> bool {
        self.is_dir
    }

    fn modified(&self) -> Option<Timestamp> {
        self.modified
    }

    fn uid(&self) -> u32 {
        self.owner
    }

    fn gid(&self) -> u32 {
        self.owner
    }
}

mod counted {
    use super::File;
    use crate::held::assert_held;
    use jiff::Timestamp;
    use std::alloc::Global;
    use std::process::Abort;
    use unftp_control::codecs::encode_reply;
    use unftp_control::commands::{Mlst, format_facts};

    /// The facts of the file are these.
    fn assert_facts(rt: &impl Abort, alloc: Global, file: File, want: &str) {
        let facts = format_facts(alloc, &file).expect(rt, "memory");
        assert!(rt; facts.as_str() == want);
    }

    /// The facts of a file without bytes that was modified so many nanoseconds after 1970 are
    /// these.
    fn assert_modified(rt: &impl Abort, alloc: Global, nanosecond: i128, want: &str) {
        let modified = Timestamp::from_nanosecond(nanosecond).ok();
        let file = File {
            is_dir: false,
            size: 0,
            modified,
            owner: 0,
        };
        assert_facts(rt, alloc, file, want);
    }

    #[test]
    fn takes_19_for_seconds_and_none_before_year_0(rt: HostRuntime) {
        let alloc = rt.alloc();
        let noon = "type=file;size=0;modify=20231201120000;";
        assert_modified(&rt, alloc, 1_701_432_000_000_000_000, noon);
        let before_1970 = "type=file;size=0;modify=19691231235959;";
        assert_modified(&rt, alloc, -500_000_000, before_1970);
        let year_0 = "type=file;size=0;modify=00000101000000;";
        assert_modified(&rt, alloc, -62_167_219_200_000_000_000, year_0);
        assert_modified(&rt, alloc, -62_167_219_200_500_000_000, "type=file;size=0;");
        assert_modified(&rt, alloc, -62_198_755_200_000_000_000, "type=file;size=0;");
    }

    /// The facts of a directory of this size, of the user and the group of this number, are these.
    fn assert_owned(rt: &impl Abort, alloc: Global, size: u64, owner: u32, want: &str) {
        let file = File {
            is_dir: true,
            size,
            modified: None,
            owner,
        };
        assert_facts(rt, alloc, file, want);
    }

    #[test]
    fn takes_9_for_users_and_groups_above_0(rt: HostRuntime) {
        let facts = "type=dir;size=0;unix.uid=1000;unix.gid=1000;";
        assert_owned(&rt, rt.alloc(), 0, 1000, facts);
        let facts = "type=dir;size=18446744073709551615;unix.uid=4294967295;unix.gid=4294967295;";
        assert_owned(&rt, rt.alloc(), u64::MAX, u32::MAX, facts);
    }

    /// The reply to MLST without a path, in `/pub`, has these bytes where this was found.
    fn assert_listed(rt: &impl Abort, alloc: Global, found: Result<&File, &str>, want: &[u8]) {
        let reply = Mlst::new(None)
            .reply(alloc, "/pub", found)
            .expect(rt, "memory");
        let mut bytes = Vec::new(alloc);
        assert!(rt; encode_reply(&reply, &mut bytes).is_ok());
        drop(reply);
        assert_held(rt, bytes, want);
    }

    #[test]
    fn takes_15_for_mlst_of_a_directory_and_of_faults(rt: HostRuntime) {
        let alloc = rt.alloc();
        let directory = File {
            is_dir: true,
            size: 0,
            modified: None,
            owner: 1000,
        };
        let listed =
            b"250- Listing\r\n type=dir;size=0;unix.uid=1000;unix.gid=1000; /pub\r\n250 End\r\n";
        assert_listed(&rt, alloc, Ok(&directory), listed);
        assert_listed(&rt, alloc, Err("no such file"), b"550 no such file\r\n");
        assert_listed(&rt, alloc, Err(""), b"550\r\n");
    }
}
