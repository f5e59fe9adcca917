use crate::{
    CatchSet, DEFAULT_QUEUE, Graph, Kind, Outcome, OutcomeList, PacketList, Pipe, PipeList,
    PlainAttrs, PlainPacket, Tally, deciding, default_worker,
};
use std::test::Fail;
use up_base::{Bytes, PipeName};

#[test]
fn a_pipe_runs_on_main_where_its_graph_names_no_worker(rt: HostRuntime) {
    assert_eq!(rt; default_worker().bytes(), b"main".as_slice());
}

#[test]
fn nothing_is_caught_or_counted_by_default(rt: HostRuntime) {
    let caught = CatchSet::default();
    assert!(rt; !caught.drop && !caught.cut && !caught.sync && !caught.lost);
    let tally = Tally::default();
    let sums = [
        tally.taken,
        tally.put,
        tally.dropped,
        tally.cut,
        tally.gained,
        tally.lost,
    ];
    assert_eq!(rt; sums, [0; 6]);
}

#[test]
fn a_passed_and_a_dropped_packet_are_counted_together(rt: HostRuntime) {
    let both = Tally::of_passed(3).added(Tally::of_dropped(2));
    let wanted = Tally {
        taken: 2,
        put: 1,
        dropped: 1,
        cut: 5,
        gained: 0,
        lost: 0,
    };
    assert_eq!(rt; both, wanted);
}

#[test]
fn a_sum_that_is_full_stays_full(rt: HostRuntime) {
    let most = 18_446_744_073_709_551_615;
    let all = Tally {
        taken: most,
        put: 4,
        dropped: most - 1,
        cut: most - 2,
        gained: 5,
        lost: most,
    };
    let more = Tally {
        taken: 1,
        put: 1,
        dropped: 1,
        cut: 3,
        gained: 2,
        lost: most,
    };
    let wanted = Tally {
        taken: most,
        put: 5,
        dropped: most,
        cut: most,
        gained: 7,
        lost: most,
    };
    assert_eq!(rt; all.added(more), wanted);
}

/// A value that can cross threads.
fn sent<T: Send>(value: T) -> T {
    value
}

#[test]
fn graphs_and_packets_can_cross_threads(rt: HostRuntime) -> Result<(), Fail> {
    let alloc = rt.alloc();
    let mut graph = Graph {
        pipes: PipeList::new(alloc),
    };
    graph.pipes.push(Pipe {
        name: PipeName::read(b"pass")?,
        worker: default_worker(),
        input: Some(0),
        select: None,
        queue: DEFAULT_QUEUE,
        caught: CatchSet::default(),
        kind: Kind::Idem,
    })?;
    assert_eq!(rt; sent(graph).pipes.len(), 1);
    let mut packets = PacketList::new(alloc);
    packets.push(PlainPacket {
        attrs: PlainAttrs::new(alloc),
        bytes: Bytes::from_slice(alloc, b"ab")?,
    })?;
    assert_eq!(rt; sent(packets).len(), 1);
    Ok(())
}

#[test]
fn the_first_pipe_with_a_fault_of_its_own_decides(rt: HostRuntime) -> Result<(), Fail> {
    let alloc = rt.alloc();
    let mut outcomes = OutcomeList::new(alloc);
    assert_eq!(rt; deciding(&outcomes), None);
    for _ in 0..252 {
        outcomes.push(Outcome::Whole)?;
    }
    outcomes.push(Outcome::Broken)?;
    outcomes.push(Outcome::NoMemory)?;
    assert_eq!(rt; deciding(&outcomes), None);
    outcomes.push(Outcome::TooLong { limit: 5 })?;
    outcomes.push(Outcome::ReadFault)?;
    assert_eq!(rt; deciding(&outcomes), Some(254));
    Ok(())
}

#[test]
fn each_fault_of_a_pipe_decides_and_no_other_outcome(rt: HostRuntime) -> Result<(), Fail> {
    for (outcome, decides) in [
        (Outcome::Whole, None),
        (Outcome::ReadFault, Some(1)),
        (Outcome::WriteFault, Some(1)),
        (Outcome::BadFrame { offset: 0 }, Some(1)),
        (Outcome::TooLong { limit: 0 }, Some(1)),
        (Outcome::Broken, None),
        (Outcome::NoMemory, None),
    ] {
        let mut outcomes = OutcomeList::new(rt.alloc());
        outcomes.push(Outcome::Broken)?;
        outcomes.push(outcome)?;
        assert_eq!(rt; deciding(&outcomes), decides);
    }
    Ok(())
}

#[test]
fn a_source_breaks_the_pipes_behind_it(rt: HostRuntime) {
    for (source, behind) in [
        (Outcome::Whole, Outcome::Whole),
        (Outcome::ReadFault, Outcome::Broken),
        (Outcome::WriteFault, Outcome::Broken),
        (Outcome::BadFrame { offset: 0 }, Outcome::Broken),
        (Outcome::TooLong { limit: 5 }, Outcome::Broken),
        (Outcome::Broken, Outcome::Broken),
        (Outcome::NoMemory, Outcome::Broken),
    ] {
        assert_eq!(rt; source.behind(), behind);
    }
}

#[test]
fn what_a_probe_catches_is_not_counted(rt: HostRuntime) {
    let sums = Tally {
        taken: 1,
        put: 2,
        dropped: 3,
        cut: 4,
        gained: 5,
        lost: 6,
    };
    let caught = CatchSet {
        drop: true,
        cut: false,
        sync: true,
        lost: false,
    };
    let left = Tally {
        taken: 1,
        put: 2,
        dropped: 0,
        cut: 4,
        gained: 0,
        lost: 6,
    };
    assert_eq!(rt; sums.uncaught(caught), left);
    assert_eq!(rt; sums.uncaught(CatchSet::default()), sums);
}
