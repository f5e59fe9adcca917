ghost use Rattle.std.specs.Prelude.{◌≡◌, ◌<◌, ◌≤◌, ◌-◌, ◌^◌, [], Some, length, min, refl, IfOk};
ghost use Rattle.up_outside.specs.Counts.{is_failed};
ghost use Rattle.up_outside.specs.Memory.ObjectCalls.{calls_from, failing_of, next_is_due, after_call};
ghost use Rattle.up_outside.specs.Moves.{Writes};

use super::object_calls::ObjectCalls;
use crate::Sink;
use std::alloc::Global;
use up_base::{Bytes, Refusal};

/// A sink that keeps what it is given. Its writes fail where the table of its depot says so and for want of memory, and
/// else take all that they can.
#[derive(Drop)]
pub struct MemSink {
    bytes: Bytes,
    most: usize,
    place: usize,
    calls: ObjectCalls,
    ghost takes: { 0 < most },
}

impl MemSink {
    ghost use Rattle.up_outside.specs.Memory.MemSink.{sink_written, sink_state, sink_calls, sink_most};

    /// A sink that no depot made, as one that stands for standard output in a test. It takes whole pieces, and fails for
    /// want of memory alone.
    pub fn new(alloc: Global) -> MemSink
        ensures state { sink_state result
            ≡ record { written = Some []; place = Some 0; moved = Some 0; faults = 0 } }
        ensures most { sink_most result ≡ 2 ^ 64 - 1 }
        ensures never_fails { failing_of (sink_calls result) ≡ [] }
    {
        MemSink::opened(alloc, usize::MAX, 0, Vec::new(alloc))
    }

    /// A sink that takes at most so many bytes a write and has its entry at the place. The writes with the numbers
    /// `failing` fail.
    pub(super) fn opened(alloc: Global, most: usize, place: usize, failing: Vec<u64>) -> MemSink
        requires { 0 < most }
        ensures state { sink_state result
            ≡ record { written = Some []; place = Some place; moved = Some 0; faults = 0 } }
        ensures most { sink_most result ≡ most }
        ensures calls { sink_calls result ≡ calls_from failing }
    {
        MemSink {
            bytes: Bytes::new(alloc),
            most,
            place,
            calls: ObjectCalls::new(failing),
        }
    }

    /// What was written.
    pub fn bytes(&self) -> &[u8]
        ensures { result.now ≡ sink_written self.now }
    {
        self.bytes.as_slice()
    }

    /// What was written, of a sink that is done with.
    pub(super) fn into_bytes(self) -> Bytes
        ensures { result ≡ sink_written self }
    {
        self.bytes
    }

    /// The place of its entry.
    pub(super) fn place(&self) -> usize
        ensures { Some result ≡ (sink_state self.now).place }
    {
        self.place
    }

    /// How many bytes its writes took.
    pub(super) fn moved(&self) -> u64
        ensures { Some result ≡ (sink_state self.now).moved }
    {
        self.bytes.as_slice().len() as u64
    }

    /// How many of its writes failed.
    pub(super) fn faults(&self) -> u64
        ensures { result ≡ (sink_state self.now).faults }
    {
        self.calls.faults()
    }
}

impl Sink for MemSink {
    ghost use Rattle.up_outside.specs.Memory.MemSink.{sink_state, sink_calls, sink_most};

    ghost state = { sink_state };

    ghost together = { λ _. refl };

    /// Takes as many bytes as there are and as a write takes at most, unless the write is one that fails.
    fn write(&mut self, piece: &[u8]) -> Result<usize, Refusal>
        requires { 0 < length piece.now }
        ensures bound { IfOk result (λ n. (0 < n) × (n ≤ length piece.now)) }
        ensures writes { Writes (sink_state self.old) (sink_state self.new) piece.now result }
        ensures count { IfOk result (λ n. n ≡ min (length piece.now) (sink_most self.old)) }
        ensures fails { is_failed result ≡ next_is_due (sink_calls self.old) }
        ensures calls { sink_calls self.new ≡ after_call result (sink_calls self.old) }
        ensures most { sink_most self.new ≡ sink_most self.old }
    {
        if self.calls.next_is_due() {
            self.calls.count(true);
            return Err(Refusal::Failed);
        }
        let count = piece.len().min(self.most);
        self.bytes.append(&piece[..count])?;
        self.calls.count(false);
        Ok(count)
    }
}
