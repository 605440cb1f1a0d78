//! Passwords within other values.
use crate::held::assert_held;
use std::alloc::Global;
use std::fmt;
use std::fmt::Write;
use std::process::Abort;
use unftp_control::command::Command;
use unftp_control::line_parser::parse;
use unftp_control::password::Password;

/// Holds the first bytes that it is given, and fails where it has no room for more; what is written
/// after that, it holds too.
#[derive(Drop)]
struct Narrow {
    held: Vec<u8>,
    room: usize,
}

impl Write for Narrow {
    fn write_str(&mut self, text: &str) -> fmt::Result {
        let n = text.len().min(self.room);
        let (taken, _) = text.as_bytes().split_at(n);
        self.held.extend_from_slice(taken)?;
        if n < text.len() {
            self.room = usize::MAX;
            return Err(fmt::Error);
        }
        self.room -= n;
        Ok(())
    }
}

/// A command of PASS.
fn pass(rt: &impl Abort, alloc: Global) -> Command {
    parse(alloc, b"PASS hunter2\r\n").expect(rt, "a command")
}

/// Writes what Debug writes of the command, under its flags, or what Display writes.
fn write_shown(writer: &mut Narrow, command: &Command, flags: u8) -> fmt::Result {
    match flags {
        0 => write!(writer, "{command:?}"),
        1 => write!(writer, "{command:#?}"),
        2 => write!(writer, "{command:>60?}"),
        3 => write!(writer, "{command:.3?}"),
        4 => write!(writer, "{command}"),
        _ => match command {
            Command::Pass { password } => write_password(writer, password, flags),
            _ => Err(fmt::Error),
        },
    }
}

/// Writes what Display and Debug write of only the password.
fn write_password(writer: &mut Narrow, password: &Password, flags: u8) -> fmt::Result {
    match flags {
        5 => write!(writer, "{password}"),
        6 => write!(writer, "{password:?}"),
        _ => write!(writer, "{password:#?}"),
    }
}

/// Writes what is shown of PASS under these flags, with room for so many bytes: returns whether all
/// was written, and the bytes that were.
fn shown_in(rt: &impl Abort, alloc: Global, flags: u8, room: usize) -> (bool, Vec<u8>) {
    let mut writer = Narrow {
        held: Vec::new(alloc),
        room,
    };
    let command = pass(rt, alloc);
    let written = write_shown(&mut writer, &command, flags);
    drop(command);
    (written.is_ok(), writer.held)
}

/// A writer with room for so many bytes gets the first ones of this text, fails where there are
/// more, and gets none after that.
fn assert_begun(rt: &impl Abort, alloc: Global, flags: u8, room: usize, whole: &str) {
    let (is_written, held) = shown_in(rt, alloc, flags, room);
    assert!(rt; is_written == (room == whole.len()));
    let (begun, _) = whole.as_bytes().split_at(room.min(whole.len()));
    assert_held(rt, held, begun);
}

/// This is written, whatever room the writer has.
fn assert_shown(rt: &impl Abort, alloc: Global, flags: u8, whole: &str) {
    for room in 0..=whole.len() {
        assert_begun(rt, alloc, flags, room, whole);
    }
}

#[test]
fn no_flag_of_debug_shows_a_password(rt: HostRuntime) {
    let alloc = rt.alloc();
    let whole = "Pass { password: Password { bytes: ******* } }";
    let lines = "Pass {\n    password: Password { bytes: ******* },\n}";
    assert_shown(&rt, alloc, 0, whole);
    assert_shown(&rt, alloc, 1, lines);
    assert_shown(&rt, alloc, 2, whole);
    assert_shown(&rt, alloc, 3, whole);
    assert_shown(&rt, alloc, 4, whole);
    let alone = "Password { bytes: ******* }";
    assert_shown(&rt, alloc, 5, "*******");
    assert_shown(&rt, alloc, 6, alone);
    assert_shown(&rt, alloc, 7, alone);
}
