use crate::{Caught, Event, ProbeChain};
use std::test::Fail;
use up_model::{CatchSet, Tally};

const NOTHING: CatchSet = CatchSet {
    drop: false,
    cut: false,
    sync: false,
    lost: false,
};

#[test]
fn the_nearest_probe_that_has_the_kind_catches_and_else_the_root(
    rt: HostRuntime,
) -> Result<(), Fail> {
    let sets = [
        CatchSet {
            drop: true,
            ..NOTHING
        },
        NOTHING,
    ];
    let mut chain = ProbeChain::new(rt.alloc(), &sets)?;
    assert_eq!(rt;
        chain.throw(Event::Drop { packets: 3 }),
        Caught { depth: 0 }
    );
    assert_eq!(rt; chain.throw(Event::Cut { bytes: 188 }), Caught { depth: 2 });
    assert_eq!(rt;
        chain.throw(Event::Drop { packets: 4 }),
        Caught { depth: 0 }
    );
    assert_eq!(rt;
        chain.tally(0),
        Tally {
            dropped: 7,
            ..Tally::default()
        }
    );
    assert_eq!(rt; chain.tally(1), Tally::default());
    assert_eq!(rt;
        chain.tally(2),
        Tally {
            cut: 188,
            ..Tally::default()
        }
    );
    Ok(())
}

/// One probe a kind, the last kind nearest.
const SETS: [CatchSet; 4] = [
    CatchSet {
        lost: true,
        ..NOTHING
    },
    CatchSet {
        sync: true,
        ..NOTHING
    },
    CatchSet {
        cut: true,
        ..NOTHING
    },
    CatchSet {
        drop: true,
        ..NOTHING
    },
];

const NO_SUMS: Tally = Tally {
    taken: 0,
    put: 0,
    dropped: 0,
    cut: 0,
    gained: 0,
    lost: 0,
};

/// Events, each with the place of the probe that catches it and what that probe then has.
const EVENTS: [(Event, usize, Tally); 4] = [
    (
        Event::Drop { packets: 5 },
        3,
        Tally {
            dropped: 5,
            ..NO_SUMS
        },
    ),
    (Event::Cut { bytes: 6 }, 2, Tally { cut: 6, ..NO_SUMS }),
    (
        Event::SyncGained,
        1,
        Tally {
            gained: 1,
            ..NO_SUMS
        },
    ),
    (Event::SyncLost, 0, Tally { lost: 1, ..NO_SUMS }),
];

#[test]
fn each_kind_is_caught_by_the_set_that_has_it_and_added_to_its_sum(
    rt: HostRuntime,
) -> Result<(), Fail> {
    for (event, depth, tally) in EVENTS {
        let mut chain = ProbeChain::new(rt.alloc(), &SETS)?;
        assert_eq!(rt; chain.throw(event), Caught { depth });
        assert!(rt; depth <= 4);
        assert_eq!(rt; chain.tally(depth), tally, "{event:?}");
    }
    Ok(())
}

#[test]
fn sums_stop_at_their_last_value(rt: HostRuntime) -> Result<(), Fail> {
    let mut chain = ProbeChain::new(rt.alloc(), &[])?;
    let events = [
        Event::Drop {
            packets: u64::MAX - 1,
        },
        Event::Drop { packets: 1 },
        Event::Drop { packets: 1 },
        Event::Cut { bytes: 2 },
        Event::Cut { bytes: u64::MAX },
    ];
    for event in events {
        assert_eq!(rt; chain.throw(event), Caught { depth: 0 });
    }
    let full = Tally {
        dropped: u64::MAX,
        cut: u64::MAX,
        ..Tally::default()
    };
    assert_eq!(rt; chain.tally(0), full);
    Ok(())
}
