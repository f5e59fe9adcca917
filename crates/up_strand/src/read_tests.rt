ghost use Rattle.std.specs.Prelude.{◌<◌};

use crate::source_packet::{Next, read_packet};
use std::alloc::Global;
use std::process::Abort;
use std::test::Fail;
use up_base::Bytes;
use up_model::{MAX_BLOCK, MAX_LIMIT};
use up_outside::{Depot, DepotCall, MemDepot, MemSource};
use up_shape::{VecPacket, VecStore};

/// How a source's flow ended.
#[derive(Clone, Copy, Debug, PartialEq, Eq)]
enum Ended {
    Whole,
    Fault,
    TooLong,
    NoMemory,
}

#[derive(Clone, Copy, Debug)]
struct Trial {
    block: u32,
    limit: u64,
    /// Each read moves at most so many bytes.
    cut: usize,
    /// The read that fails, if one does.
    fails: Option<u32>,
    /// The packets, each followed by a stroke.
    packets: &'static [u8],
    ended: Ended,
}

/// Of the bytes `abcdefghij`.
const TRIALS: [Trial; 8] = [
    Trial {
        block: 4,
        limit: 100,
        cut: 3,
        fails: None,
        packets: b"abcd|efgh|ij|",
        ended: Ended::Whole,
    },
    Trial {
        block: 5,
        limit: 10,
        cut: 5,
        fails: None,
        packets: b"abcde|fghij|",
        ended: Ended::Whole,
    },
    Trial {
        block: 10,
        limit: 10,
        cut: 7,
        fails: None,
        packets: b"abcdefghij|",
        ended: Ended::Whole,
    },
    Trial {
        block: 4,
        limit: 9,
        cut: 3,
        fails: None,
        packets: b"abcd|efgh|",
        ended: Ended::TooLong,
    },
    Trial {
        block: 3,
        limit: 9,
        cut: 1,
        fails: None,
        packets: b"abc|def|ghi|",
        ended: Ended::TooLong,
    },
    Trial {
        block: 4,
        limit: 0,
        cut: 4,
        fails: None,
        packets: b"",
        ended: Ended::TooLong,
    },
    Trial {
        block: 4,
        limit: 100,
        cut: 3,
        fails: Some(4),
        packets: b"abcd|",
        ended: Ended::Fault,
    },
    Trial {
        block: 4,
        limit: 100,
        cut: 3,
        fails: Some(1),
        packets: b"",
        ended: Ended::Fault,
    },
];

/// Adds a packet's bytes, and gives it up.
fn add(packets: &mut Bytes, packet: VecPacket) -> Result<(), Fail> {
    packets.append(packet.bytes())?;
    packets.push(b'|')?;
    Ok(())
}

/// Reads a source to the end of its flow.
fn read_all(
    source: &mut MemSource,
    block: u32,
    limit: u64,
    packets: &mut Bytes,
    s: &mut VecStore,
) -> Result<Ended, Fail>
    requires block { 0 < block }
{
    let block = block.min(MAX_BLOCK);
    let mut left = limit;
    for _ in 0..1_000 {
        match read_packet(source, block, left.min(MAX_LIMIT), s) {
            Next::Packet(packet) => {
                add(packets, packet)?;
                left -= u64::from(block);
            }
            Next::Last(packet) => {
                add(packets, packet)?;
                return Ok(Ended::Whole);
            }
            Next::End => return Ok(Ended::Whole),
            Next::Fault => return Ok(Ended::Fault),
            Next::TooLong => return Ok(Ended::TooLong),
            Next::NoRoom | Next::NoMemory => return Ok(Ended::NoMemory),
        }
    }
    Ok(Ended::NoMemory)
}

/// A source of these bytes.
fn source_of(
    rt: &impl Abort,
    alloc: Global,
    bytes: &[u8],
    cut: usize,
    fails: Option<u32>,
) -> MemSource
    requires { 0 < cut }
{
    let mut depot = MemDepot::new(alloc);
    depot.cut(cut);
    depot.hold("i", bytes).expect(rt, "no memory");
    if let Some(nth) = fails {
        depot
            .fail(DepotCall::Read, "i", nth.max(1))
            .expect(rt, "no memory");
    }
    depot.open_source("i").expect(rt, "it is held")
}

#[test]
fn a_source_gives_whole_blocks_and_a_shorter_one_at_its_end_alone(
    rt: HostRuntime,
) -> Result<(), Fail> {
    let alloc = rt.alloc();
    for trial in TRIALS {
        let mut s = VecStore::new(alloc);
        let mut source = source_of(&rt, alloc, b"abcdefghij", trial.cut.max(1), trial.fails);
        let mut packets = Bytes::new(alloc);
        let ended = read_all(
            &mut source,
            trial.block.max(1),
            trial.limit,
            &mut packets,
            &mut s,
        )?;
        assert_eq!(rt; ended, trial.ended);
        assert_eq!(rt; packets.as_slice(), trial.packets);
    }
    Ok(())
}
