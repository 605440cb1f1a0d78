//! Buffers whose bytes are taken from the start.
ghost use Rattle.std.specs.Prelude.{◌≡◌, ◌≤◌, ◌+◌, [], ◌++◌, OnErr, OnOk, drop, length, vec_capacity, vec_len};
ghost use Rattle.unftp_control_defs.specs.Buffer.{IsTakenWithin, held_after_piece, pending_in};
ghost use Rattle.unftp_control_defs.specs.Room.{LacksRoom};

use std::alloc::{AllocError, Global};

/// Bytes that come in pieces at the end, and are taken from the start. What is taken is only
/// counted, so that bytes move once for a piece, and not for each line or reply of it.
#[derive(Drop)]
pub struct PendingBytes {
    /// The bytes that it holds.
    pub bytes: Vec<u8>,
    /// How many of them are taken.
    pub start: usize,
}

impl PendingBytes {
    /// A buffer that holds nothing. No memory is taken.
    pub fn new(alloc: Global) -> PendingBytes
        // The buffer holds no bytes.
        ensures bytes { result.bytes.items ≡ [] }
        // None is counted as taken.
        ensures start { result.start ≡ 0 }
    {
        PendingBytes {
            bytes: Vec::new(alloc),
            start: 0,
        }
    }

    /// The bytes that are not taken.
    pub fn pending(&self) -> &[u8]
        // No more bytes are taken than the buffer holds.
        requires { IsTakenWithin self.now }
        // Exactly the bytes that are not taken, in order.
        ensures { result.now ≡ pending_in self.now }
    {
        self.bytes.as_slice().split_at(self.start).1
    }

    /// Appends a piece. When out of memory, nothing changes; it is only where the buffer lacks room
    /// for the piece, so never for an empty one.
    #[inline(always)]
    pub fn push(&mut self, piece: &[u8]) -> Result<(), AllocError>
        // No more bytes are taken than the buffer holds.
        requires { IsTakenWithin self.old }
        // At `Ok` the pending bytes are those before, and then the piece.
        ensures ok { OnOk result (pending_in self.new ≡ pending_in self.old ++ piece.now) }
        // At `Ok` the taken bytes are removed exactly where they are more than the pending bytes
        // with the piece; else the buffer holds them still.
        ensures held { OnOk result (length self.new.bytes.items ≡ held_after_piece
            (length self.old.bytes.items) (length (pending_in self.old)) (length piece.now)) }
        // At `Ok` no more bytes are taken than the buffer holds.
        ensures within { OnOk result (IsTakenWithin self.new) }
        // At an error the buffer holds the same bytes, and as many of them are taken.
        ensures err { OnErr result ((self.new.bytes.items ≡ self.old.bytes.items)
            × (self.new.start ≡ self.old.start)) }
        // An error comes only for a piece that is not empty.
        ensures some { OnErr result (¬ (piece.now ≡ [])) }
        // It is out of memory only where the buffer lacks room for the piece.
        ensures memory { OnErr result (LacksRoom self.old.bytes piece.now) }
        // At `Ok` the capacity is at least what the bytes held before and the piece need together.
        ensures room { OnOk result
            (vec_len self.old.bytes + length piece.now ≤ vec_capacity self.new.bytes) }
        // The capacity never shrinks, whatever the result.
        ensures capacity { vec_capacity self.old.bytes ≤ vec_capacity self.new.bytes }
    {
        append(&mut self.bytes, piece)?;
        // each move is paid for by as many bytes that were taken
        if self.start > self.bytes.len() - self.start {
            self.settle();
        }
        Ok(())
    }

    /// Removes the bytes that are taken: the others move to the start.
    pub fn settle(&mut self)
        // No more bytes are taken than the buffer holds.
        requires { IsTakenWithin self.old }
        // The buffer holds exactly the bytes that were pending.
        ensures bytes { self.new.bytes.items ≡ pending_in self.old }
        // None of them is counted as taken.
        ensures start { self.new.start ≡ 0 }
        // The capacity stays.
        ensures capacity { vec_capacity self.new.bytes ≡ vec_capacity self.old.bytes }
    {
        remove_front(&mut self.bytes, self.start);
        self.start = 0;
    }

    /// Removes all bytes.
    pub fn clear(&mut self)
        // The buffer holds no bytes.
        ensures bytes { self.new.bytes.items ≡ [] }
        // None is counted as taken.
        ensures start { self.new.start ≡ 0 }
        // The capacity stays.
        ensures capacity { vec_capacity self.new.bytes ≡ vec_capacity self.old.bytes }
    {
        self.bytes.clear();
        self.start = 0;
    }
}

/// Appends the bytes, or none of them when out of memory: only where the buffer lacks room for
/// them, so never where there are none.
#[inline(always)]
pub fn append(buf: &mut Vec<u8>, bytes: &[u8]) -> Result<(), AllocError>
    // At `Ok` the buffer holds what it held, and then exactly these bytes.
    ensures ok { OnOk result (buf.new.items ≡ buf.old.items ++ bytes.now) }
    // At an error the buffer holds what it held.
    ensures err { OnErr result (buf.new.items ≡ buf.old.items) }
    // An error comes only where there are bytes to append.
    ensures some { OnErr result (¬ (bytes.now ≡ [])) }
    // It is out of memory only where the buffer lacks room for these bytes.
    ensures memory { OnErr result (LacksRoom buf.old bytes.now) }
    // The capacity never shrinks, whatever the result.
    ensures capacity { vec_capacity buf.old ≤ vec_capacity buf.new }
{
    match bytes {
        [] => Ok(()),
        // without a call of `memcpy`
        [byte] => Ok(buf.push(*byte)?),
        _ => buf.extend_from_slice(bytes),
    }
}

/// Removes this many bytes from the start of the buffer. The rest is moved once, where `drain`
/// would turn the whole buffer.
pub fn remove_front(buf: &mut Vec<u8>, count: usize)
    // The buffer holds at least so many bytes.
    requires { count ≤ vec_len buf.old }
    // The buffer holds exactly the bytes after the first `count`, in order.
    ensures items { buf.new.items ≡ drop count buf.old.items }
    // The capacity stays.
    ensures capacity { vec_capacity buf.new ≡ vec_capacity buf.old }
{
    if count == 0 {
        return;
    }
    let rest = buf.len() - count;
    buf.copy_within(count.., 0);
    buf.truncate(rest);
}
