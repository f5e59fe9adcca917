// Strands at the limits of graphs and packets.
ghost use Rattle.std.specs.Prelude.{◌≡◌, length, IfOk};

use crate::left::{run_rows, sums};
use crate::row::{CAPTURE, Does, Row, pipe_row};
use std::alloc::Global;
use std::test::Fail;
use up_model::{MAX_BLOCK, MAX_LIMIT, MAX_PACKET, Outcome};
use up_outside::MemDepot;
use up_shape::{VecPacket, VecStore};

/// A source of the greatest packets, and behind it a sink of all, a sink behind a `skip` of all bytes of such a packet, and
/// a sink behind a `skip` of all but one.
fn greatest() -> [Row; 7] {
    let capture = Does::Source {
        block: MAX_BLOCK,
        limit: MAX_LIMIT,
    };
    [
        pipe_row(capture, "one", None),
        pipe_row(Does::Dup, "one", Some(0)),
        pipe_row(Does::Sink, "one", Some(1)),
        pipe_row(Does::Skip(MAX_PACKET), "one", Some(1)),
        pipe_row(Does::Sink, "one", Some(3)),
        pipe_row(Does::Skip(MAX_PACKET - 1), "one", Some(1)),
        pipe_row(Does::Sink, "one", Some(5)),
    ]
}

/// The bytes of the greatest packet, of which the last is 2, and three more.
fn greatest_bytes(alloc: Global) -> Result<Vec<u8>, Fail> {
    let mut bytes = vec![in alloc; 7; 1_048_579]?;
    bytes[1_048_575] = 2;
    Ok(bytes)
}

#[test]
fn the_greatest_packets_go_through_the_greatest_skip(rt: HostRuntime) -> Result<(), Fail> {
    let alloc = rt.alloc();
    let s = &mut VecStore::new(alloc);
    let bytes = greatest_bytes(alloc)?;
    let (mut depot, mut sent) = (MemDepot::new(alloc), Vec::new(alloc));
    depot.hold("pipe0", &bytes)?;
    let left = run_rows::<VecPacket>(&rt, alloc, &greatest(), &mut depot, &mut sent, s)?;
    left.assert_ends(&rt, &[&bytes, b"", &[2]], &[Outcome::Whole; 7]);
    left.assert_sums(
        &rt,
        &[
            sums(0, 2, 0, 0),
            sums(2, 2, 0, 0),
            sums(2, 0, 0, 0),
            sums(2, 1, 1, 1_048_579),
            sums(1, 0, 0, 0),
            sums(2, 1, 1, 1_048_578),
            sums(1, 0, 0, 0),
        ],
    );
    Ok(())
}

/// A source and a sink with 254 pipes between them.
fn chain(alloc: Global) -> Result<Vec<Row>, Fail> {
    let mut rows = Vec::new(alloc);
    rows.push(pipe_row(CAPTURE, "one", None))?;
    for input in 0..254 {
        rows.push(pipe_row(Does::Idem, "one", Some(input)))?;
    }
    rows.push(pipe_row(Does::Sink, "one", Some(254)))?;
    Ok(rows)
}

#[test]
fn a_chain_of_256_pipes_is_one_strand(rt: HostRuntime) -> Result<(), Fail> {
    let alloc = rt.alloc();
    let s = &mut VecStore::new(alloc);
    let (mut depot, mut sent) = (MemDepot::new(alloc), Vec::new(alloc));
    depot.hold("pipe0", b"abcdefg")?;
    let rows = chain(alloc)?;
    let left = run_rows::<VecPacket>(&rt, alloc, &rows, &mut depot, &mut sent, s)?;
    assert!(rt; sent.is_empty());
    left.assert_ends(&rt, &[b"abcdefg"], &[Outcome::Whole; 256]);
    let mut counted = [sums(3, 3, 0, 0); 256];
    counted[0] = sums(0, 3, 0, 0);
    counted[255] = sums(3, 0, 0, 0);
    left.assert_sums(&rt, &counted);
    Ok(())
}

/// A source, a `dup`, and 254 sinks behind it.
fn wide(alloc: Global) -> Result<Vec<Row>, Fail> {
    let mut rows = Vec::new(alloc);
    rows.push(pipe_row(CAPTURE, "one", None))?;
    rows.push(pipe_row(Does::Dup, "one", Some(0)))?;
    for _ in 0..254 {
        rows.push(pipe_row(Does::Sink, "one", Some(1)))?;
    }
    Ok(rows)
}

#[test]
fn a_dup_feeds_254_sinks(rt: HostRuntime) -> Result<(), Fail> {
    let alloc = rt.alloc();
    let s = &mut VecStore::new(alloc);
    let (mut depot, mut sent) = (MemDepot::new(alloc), Vec::new(alloc));
    depot.hold("pipe0", b"abcdefg")?;
    let rows = wide(alloc)?;
    let left = run_rows::<VecPacket>(&rt, alloc, &rows, &mut depot, &mut sent, s)?;
    left.assert_ends(&rt, &[b"abcdefg".as_slice(); 254], &[Outcome::Whole; 256]);
    let mut counted = [sums(3, 0, 0, 0); 256];
    counted[0] = sums(0, 3, 0, 0);
    counted[1] = sums(3, 3, 0, 0);
    left.assert_sums(&rt, &counted);
    Ok(())
}
