ghost use Rattle.std.specs.Prelude.{◌≡◌, ◌<◌, ◌≤◌, Some, length, min, take, refl, is_err, IfOk};
ghost use Rattle.std.specs.Io.{ReadsAtMost};
ghost use Rattle.up_outside.specs.Memory.ObjectCalls.{calls_from, next_is_due, counted};
ghost use Rattle.up_outside.specs.Moves.{Reads};

use super::object_calls::ObjectCalls;
use crate::Source;
use up_base::{Bytes, Failed};

/// A source over bytes in memory. Its reads fail where the table of its depot says so, and else give all that they can.
#[derive(Drop)]
pub struct MemSource {
    bytes: Bytes,
    at: usize,
    most: usize,
    place: usize,
    calls: ObjectCalls,
    ghost in_range: { at ≤ length bytes },
    ghost gives: { 0 < most },
}

/// Copies the front of the bytes to the front of the room: as many as there are, as fit, and at most so many.
fn copy_front(bytes: &[u8], room: &mut [u8], most: usize) -> usize
    ensures count { result ≡ min (min (length bytes.now) (length room.old)) most }
    ensures copied { take result room.new ≡ take result bytes.now }
{
    let count = bytes.len().min(room.len()).min(most);
    room[..count].copy_from_slice(&bytes[..count]);
    count
}

impl MemSource {
    ghost use Rattle.up_outside.specs.Memory.MemSource.{source_state, source_calls, source_most};

    /// A source of these bytes, which gives at most so many a read and has its entry at the place. The reads with the
    /// numbers `failing` fail.
    pub(super) fn new(bytes: Bytes, most: usize, place: usize, failing: Vec<u64>) -> MemSource
        requires { 0 < most }
        ensures state { source_state result
            ≡ record { left = Some bytes; place = Some place; moved = Some 0; faults = 0 } }
        ensures most { source_most result ≡ most }
        ensures calls { source_calls result ≡ calls_from failing }
    {
        MemSource {
            bytes,
            at: 0,
            most,
            place,
            calls: ObjectCalls::new(failing),
        }
    }

    /// The place of its entry.
    pub(super) fn place(&self) -> usize
        ensures { Some result ≡ (source_state self.now).place }
    {
        self.place
    }

    /// How many bytes its reads gave.
    pub(super) fn moved(&self) -> u64
        ensures { Some result ≡ (source_state self.now).moved }
    {
        self.at as u64
    }

    /// How many of its reads failed.
    pub(super) fn faults(&self) -> u64
        ensures { result ≡ (source_state self.now).faults }
    {
        self.calls.faults()
    }
}

impl Source for MemSource {
    ghost use Rattle.up_outside.specs.Memory.MemSource.{source_left, source_state, source_calls, source_most};

    ghost state = { source_state };

    ghost together = { λ _. refl };

    /// Gives as many bytes as there are, as fit, and as a read gives at most, unless the read is one that fails.
    fn read(&mut self, room: &mut [u8]) -> Result<usize, Failed>
        requires { 0 < length room.old }
        ensures bound { ReadsAtMost result room.new }
        ensures reads { Reads (source_state self.old) (source_state self.new) room.new result }
        ensures count { IfOk result (λ n. n
            ≡ min (min (length (source_left self.old)) (length room.new)) (source_most self.old)) }
        ensures fails { is_err result ≡ next_is_due (source_calls self.old) }
        ensures calls { source_calls self.new ≡ counted (is_err result) (source_calls self.old) }
        ensures most { source_most self.new ≡ source_most self.old }
    {
        if self.calls.next_is_due() {
            self.calls.count(true);
            return Err(Failed);
        }
        let rest = &self.bytes.as_slice()[self.at..];
        let count = copy_front(rest, room, self.most);
        self.at += count;
        self.calls.count(false);
        Ok(count)
    }
}
