// Two branches of a graph, of which one has a fault.
use crate::graph_runs::{
    Ran, assert_asked, assert_held, closed, closed_after_fault, not_shut, run_pipes,
};
use crate::left::sums;
use crate::row::{CAPTURE, Does, Row, pipe_row};
use std::alloc::Global;
use std::process::Abort;
use std::test::Fail;
use up_model::Outcome;
use up_outside::{DepotCall, Mark, MemDepot, Side};

/// Two sources, each with a sink on another worker.
fn branches() -> [Row; 4] {
    [
        pipe_row(CAPTURE, "one", None),
        pipe_row(Does::Sink, "two", Some(0)),
        pipe_row(CAPTURE, "three", None),
        pipe_row(Does::Sink, "two", Some(2)),
    ]
}

/// A depot that holds five bytes for the first source and four for the second, and what was there before for their sinks.
fn depot_of(alloc: Global) -> Result<MemDepot, Fail> {
    let mut depot = MemDepot::new(alloc);
    depot.hold("pipe0", b"abcde")?;
    depot.hold("pipe1", b"old")?;
    depot.hold("pipe2", b"fghi")?;
    depot.hold("pipe3", b"older")?;
    Ok(depot)
}

/// Both branches are run, and some calls failed: of the pipes' outcomes, of how many sources and sinks.
fn run_branches(
    rt: &impl Abort,
    alloc: Global,
    depot: &mut MemDepot,
    outcomes: &[Outcome; 4],
    faults: (u64, u64),
) -> Result<Ran, Fail> {
    let ran = run_pipes(rt, alloc, &branches(), depot)?;
    ran.assert_ends(rt, outcomes);
    assert_eq!(rt; (depot.source_faults(), depot.sink_faults()), faults);
    Ok(ran)
}

#[test]
fn no_sink_is_asked_for_where_a_source_is_refused(rt: HostRuntime) -> Result<(), Fail> {
    let alloc = rt.alloc();
    let mut depot = depot_of(alloc)?;
    depot.fail(DepotCall::OpenSource, "pipe2", 1)?;
    let mut outcomes = [Outcome::Broken; 4];
    outcomes[2] = Outcome::ReadFault;
    let ran = run_branches(&rt, alloc, &mut depot, &outcomes, (1, 0))?;
    ran.assert_sums(&rt, &[sums(0, 0, 0, 0); 4]);
    let asked = [
        ("pipe0", Side::Source, closed(0)),
        ("pipe2", Side::Source, Mark::Refused),
    ];
    assert_asked(&rt, &depot, &asked);
    assert_held(&rt, &depot, &[("pipe1", b"old"), ("pipe3", b"older")]);
    Ok(())
}

#[test]
fn nothing_runs_where_a_source_has_no_file(rt: HostRuntime) -> Result<(), Fail> {
    let alloc = rt.alloc();
    let mut depot = MemDepot::new(alloc);
    depot.hold("pipe2", b"fghi")?;
    let mut outcomes = [Outcome::Broken; 4];
    outcomes[0] = Outcome::ReadFault;
    let ran = run_branches(&rt, alloc, &mut depot, &outcomes, (1, 0))?;
    ran.assert_sums(&rt, &[sums(0, 0, 0, 0); 4]);
    assert_asked(&rt, &depot, &[("pipe0", Side::Source, Mark::Refused)]);
    Ok(())
}

#[test]
fn nothing_runs_where_a_sink_is_refused(rt: HostRuntime) -> Result<(), Fail> {
    let alloc = rt.alloc();
    let mut depot = depot_of(alloc)?;
    depot.fail(DepotCall::OpenSink, "pipe3", 1)?;
    let mut outcomes = [Outcome::Broken; 4];
    outcomes[3] = Outcome::WriteFault;
    let ran = run_branches(&rt, alloc, &mut depot, &outcomes, (0, 1))?;
    ran.assert_sums(&rt, &[sums(0, 0, 0, 0); 4]);
    let asked = [
        ("pipe0", Side::Source, closed(0)),
        ("pipe2", Side::Source, closed(0)),
        ("pipe1", Side::Sink, closed(0)),
        ("pipe3", Side::Sink, Mark::Refused),
    ];
    assert_asked(&rt, &depot, &asked);
    assert_held(&rt, &depot, &[("pipe1", b""), ("pipe3", b"older")]);
    Ok(())
}

#[test]
fn a_refused_close_is_told_beside_a_refused_open(rt: HostRuntime) -> Result<(), Fail> {
    let alloc = rt.alloc();
    let mut depot = depot_of(alloc)?;
    depot.fail(DepotCall::OpenSink, "pipe3", 1)?;
    depot.fail(DepotCall::CloseSink, "pipe1", 1)?;
    let mut outcomes = [Outcome::Broken; 4];
    outcomes[1] = Outcome::WriteFault;
    outcomes[3] = Outcome::WriteFault;
    run_branches(&rt, alloc, &mut depot, &outcomes, (0, 2))?;
    let asked = [
        ("pipe0", Side::Source, closed(0)),
        ("pipe2", Side::Source, closed(0)),
        ("pipe1", Side::Sink, not_shut(0)),
        ("pipe3", Side::Sink, Mark::Refused),
    ];
    assert_asked(&rt, &depot, &asked);
    Ok(())
}

#[test]
fn a_refused_close_is_a_fault_of_its_sink_alone(rt: HostRuntime) -> Result<(), Fail> {
    let alloc = rt.alloc();
    let mut depot = depot_of(alloc)?;
    depot.fail(DepotCall::CloseSink, "pipe1", 1)?;
    let mut outcomes = [Outcome::Whole; 4];
    outcomes[1] = Outcome::WriteFault;
    let ran = run_branches(&rt, alloc, &mut depot, &outcomes, (0, 1))?;
    let (put, taken) = (sums(0, 2, 0, 0), sums(2, 0, 0, 0));
    ran.assert_sums(&rt, &[put, taken, put, taken]);
    let asked = [
        ("pipe0", Side::Source, closed(5)),
        ("pipe2", Side::Source, closed(4)),
        ("pipe1", Side::Sink, not_shut(5)),
        ("pipe3", Side::Sink, closed(4)),
    ];
    assert_asked(&rt, &depot, &asked);
    assert_held(&rt, &depot, &[("pipe1", b""), ("pipe3", b"fghi")]);
    Ok(())
}

#[test]
fn a_refused_close_behind_a_fault_is_told_as_well(rt: HostRuntime) -> Result<(), Fail> {
    let alloc = rt.alloc();
    let mut depot = depot_of(alloc)?;
    depot.fail(DepotCall::Read, "pipe0", 1)?;
    depot.fail(DepotCall::CloseSink, "pipe1", 1)?;
    let outcomes = [
        Outcome::ReadFault,
        Outcome::WriteFault,
        Outcome::Whole,
        Outcome::Whole,
    ];
    run_branches(&rt, alloc, &mut depot, &outcomes, (1, 1))?;
    assert_held(&rt, &depot, &[("pipe1", b""), ("pipe3", b"fghi")]);
    Ok(())
}

#[test]
fn a_fault_of_a_source_ends_its_branch_alone(rt: HostRuntime) -> Result<(), Fail> {
    let alloc = rt.alloc();
    let mut depot = depot_of(alloc)?;
    depot.cut(2);
    depot.fail(DepotCall::Read, "pipe0", 3)?;
    let mut outcomes = [Outcome::Whole; 4];
    outcomes[0] = Outcome::ReadFault;
    outcomes[1] = Outcome::Broken;
    run_branches(&rt, alloc, &mut depot, &outcomes, (1, 0))?;
    let asked = [
        ("pipe0", Side::Source, closed_after_fault(3)),
        ("pipe2", Side::Source, closed(4)),
        ("pipe1", Side::Sink, closed(3)),
        ("pipe3", Side::Sink, closed(4)),
    ];
    assert_asked(&rt, &depot, &asked);
    assert_held(&rt, &depot, &[("pipe1", b"abc"), ("pipe3", b"fghi")]);
    Ok(())
}

#[test]
fn a_fault_of_a_sink_is_its_own(rt: HostRuntime) -> Result<(), Fail> {
    let alloc = rt.alloc();
    let mut depot = depot_of(alloc)?;
    depot.fail(DepotCall::Write, "pipe1", 2)?;
    let mut outcomes = [Outcome::Whole; 4];
    outcomes[1] = Outcome::WriteFault;
    let ran = run_branches(&rt, alloc, &mut depot, &outcomes, (0, 1))?;
    let (put, taken) = (sums(0, 2, 0, 0), sums(2, 0, 0, 0));
    ran.assert_sums(&rt, &[put, taken, put, taken]);
    let asked = [
        ("pipe0", Side::Source, closed(5)),
        ("pipe2", Side::Source, closed(4)),
        ("pipe1", Side::Sink, closed_after_fault(3)),
        ("pipe3", Side::Sink, closed(4)),
    ];
    assert_asked(&rt, &depot, &asked);
    assert_held(&rt, &depot, &[("pipe1", b"abc"), ("pipe3", b"fghi")]);
    Ok(())
}
