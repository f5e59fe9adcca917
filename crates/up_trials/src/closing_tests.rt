// The order in which a run closes what it opened.
use crate::listing_depot::ListingDepot;
use crate::row::{CAPTURE, Does, Row, pipe_row};
use crate::split::Split;
use std::alloc::Global;
use std::process::Abort;
use std::test::Fail;
use up_engine::{RunOutcome, run_one_thread};
use up_outside::{DepotCall, MemDepot};
use up_shape::{VecPacket, VecStore};

/// Two branches whose sinks come before their sources.
fn branches() -> [Row; 5] {
    [
        pipe_row(Does::Sink, "one", Some(1)),
        pipe_row(Does::Dup, "one", Some(3)),
        pipe_row(Does::Sink, "two", Some(4)),
        pipe_row(CAPTURE, "one", None),
        pipe_row(CAPTURE, "three", None),
    ]
}

/// These were closed, in this order.
fn assert_closes(rt: &impl Abort, listing: &ListingDepot, wanted: &[&str]) {
    let asked = listing.depot.asked();
    assert_eq!(rt; listing.closes.len(), wanted.len());
    for (k, path) in wanted.iter().enumerate() {
        assert!(rt; k < listing.closes.len());
        let place = listing.closes[k];
        assert!(rt; place < asked.len());
        assert_eq!(rt; asked[place].path.as_str(), *path, "{k}");
    }
}

/// A depot that holds nine bytes for one source and two for the other, in which a call may fail.
fn depot_of(alloc: Global, fails: Option<(DepotCall, &str)>) -> Result<ListingDepot, Fail> {
    let mut depot = MemDepot::new(alloc);
    depot.hold("pipe3", b"abcdefghi")?;
    depot.hold("pipe4", b"xy")?;
    if let Some((call, path)) = fails {
        depot.fail(call, path, 1)?;
    }
    Ok(ListingDepot::of(alloc, depot))
}

/// Runs both branches, of which a call may fail, and looks at what was closed in which order.
fn run_branches(
    rt: &impl Abort,
    alloc: Global,
    fails: Option<(DepotCall, &str)>,
    closes: &[&str],
) -> Result<(), Fail> {
    let s = &mut VecStore::new(alloc);
    let split = Split::of(rt, alloc, &branches())?;
    let mut listing = depot_of(alloc, fails)?;
    match run_one_thread::<VecPacket, ListingDepot>(alloc, &split.graph, &mut listing, s) {
        RunOutcome::Ended { .. } => {}
        RunOutcome::NoMemory => panic!(rt; "no memory"),
    }
    assert_closes(rt, &listing, closes);
    Ok(())
}

/// The strand of the second source ends first.
#[test]
fn sources_are_closed_before_sinks_each_in_the_order_of_the_file(
    rt: HostRuntime,
) -> Result<(), Fail> {
    let all = ["pipe3", "pipe4", "pipe0", "pipe2"];
    run_branches(&rt, rt.alloc(), None, &all)?;
    for (call, path) in [
        (DepotCall::Read, "pipe4"),
        (DepotCall::Read, "pipe3"),
        (DepotCall::Write, "pipe0"),
        (DepotCall::CloseSink, "pipe0"),
    ] {
        run_branches(&rt, rt.alloc(), Some((call, path)), &all)?;
    }
    Ok(())
}

#[test]
fn what_was_opened_before_a_refused_open_is_closed_in_that_order(
    rt: HostRuntime,
) -> Result<(), Fail> {
    let alloc = rt.alloc();
    let (source, sink) = (DepotCall::OpenSource, DepotCall::OpenSink);
    run_branches(&rt, alloc, Some((source, "pipe3")), &[])?;
    run_branches(&rt, alloc, Some((source, "pipe4")), &["pipe3"])?;
    run_branches(&rt, alloc, Some((sink, "pipe0")), &["pipe3", "pipe4"])?;
    run_branches(
        &rt,
        alloc,
        Some((sink, "pipe2")),
        &["pipe3", "pipe4", "pipe0"],
    )
}
