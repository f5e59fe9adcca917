//! A reader of frames that come in pieces, with a count of its packets.
ghost use Rattle.std.specs.Prelude.{◌≡◌, ◌<◌, ◌++◌, [], List, ℕ, replicate, OnOk};
ghost use Rattle.std.specs.List.{concat};
ghost use Rattle.upipe_bench.specs.Pieces.{Counts, HasRead};
ghost use Rattle.up_model.specs.Packet.{Flow};

use crate::not_measured::NotMeasured;
use std::alloc::Global;
use up_frame::{FeedRefused, FrameReader};
use up_shape::{VecPacket, VecStore};

/// What reads, and how many packets it gave.
#[derive(Drop)]
pub(crate) struct Reading {
    pub reader: FrameReader,
    pub store: VecStore,
    pub packets: u64,
}

impl Reading {
    pub fn new(alloc: Global) -> Reading
        ensures { HasRead result [] }
    {
        Reading {
            reader: FrameReader::new(alloc),
            store: VecStore::new(alloc),
            packets: 0,
        }
    }

    /// Takes packets until none is left, and gives them up.
    fn take_all(&mut self) -> Result<(), NotMeasured>
        ensures { (bytes : List ℕ) (given : Flow) → Counts self.old bytes given
            → OnOk result (HasRead self.new bytes) }
    {
        for _ in 0..u64::MAX {
            match self.reader.next_packet::<VecPacket>(&mut self.store)? {
                None => return Ok(()),
                Some(_packet) => {
                    let Some(packets) = self.packets.checked_add(1) else {
                        return Err(NotMeasured::NotCarried);
                    };
                    self.packets = packets;
                }
            }
        }
        Err(NotMeasured::NotCarried)
    }

    /// Feeds a piece, and takes the packets of the frames that are whole then.
    fn feed(&mut self, piece: &[u8]) -> Result<(), NotMeasured>
        ensures { (bytes : List ℕ) → HasRead self.old bytes
            → OnOk result (HasRead self.new (bytes ++ piece.now)) }
    {
        if self.reader.fed().checked_add(piece.len() as u64).is_none() {
            return Err(NotMeasured::NotCarried);
        }
        match self.reader.feed(piece) {
            Ok(()) => self.take_all(),
            Err(FeedRefused::NoMemory) => Err(NotMeasured::NoMemory),
            Err(FeedRefused::BadFrame { offset: _ }) => Err(NotMeasured::NotCarried),
        }
    }

    /// Feeds bytes in pieces of one size, of which the last may be shorter.
    fn feed_all(&mut self, bytes: &[u8], size: usize) -> Result<(), NotMeasured>
        requires { 0 < size }
        ensures { (before : List ℕ) → HasRead self.old before
            → OnOk result (HasRead self.new (before ++ bytes.now)) }
    {
        let mut start = 0;
        while start < bytes.len() {
            let end = start + size.min(bytes.len() - start);
            self.feed(&bytes[start..end])?;
            start = end;
        }
        Ok(())
    }

    /// Feeds the same bytes so often.
    pub fn feed_often(&mut self, bytes: &[u8], size: usize, rounds: u32) -> Result<(), NotMeasured>
        requires { 0 < size }
        ensures { (before : List ℕ) → HasRead self.old before
            → OnOk result (HasRead self.new (before ++ concat (replicate rounds bytes.now))) }
    {
        for _ in 0..rounds {
            self.feed_all(bytes, size)?;
        }
        Ok(())
    }
}
