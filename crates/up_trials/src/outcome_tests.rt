ghost use Rattle.std.specs.Prelude.{◌≡◌};
ghost use Rattle.up_shape.specs.VecPackets.{plain_of};
ghost use Rattle.up_trials.specs.Standing.{IsOfGraph};

use crate::left::finish;
use crate::row::{Does, Row, behind, pipe_row};
use crate::run::Tried;
use crate::split::Split;
use std::process::Abort;
use std::test::Fail;
use up_model::Outcome;
use up_outside::{DepotCall, MemDepot};
use up_queue::{EndKind, Item};
use up_shape::{VecPacket, VecStore};
use up_strand::Want;

/// What a pipe of the strand of a head came to so far.
fn told_of(
    rt: &impl Abort,
    split: &Split,
    head: u16,
    strand: &Tried<VecPacket>,
    k: usize,
) -> Outcome
    requires { IsOfGraph plain_of split.now.graph.pipes head strand.now }
{
    let own = split.own_pipes(rt, head);
    assert!(rt; k < own.len());
    let pipe = *own.at(k);
    strand.outcome(pipe)
}

/// The pipes of the strand of a head came to this so far, in the order of the file.
fn assert_told(
    rt: &impl Abort,
    split: &Split,
    head: u16,
    strand: &Tried<VecPacket>,
    wanted: &[Outcome],
)
    requires { IsOfGraph plain_of split.now.graph.pipes head strand.now }
{
    assert_eq!(rt; split.own_pipes(rt, head).len(), wanted.len());
    for (k, outcome) in wanted.iter().enumerate() {
        assert_eq!(rt; told_of(rt, split, head, strand, k), *outcome, "{k}");
    }
}

/// The strand of a head reads on.
fn read_more(
    rt: &impl Abort,
    split: &Split,
    head: u16,
    strand: &mut Tried<VecPacket>,
    s: &mut VecStore,
)
    requires of { IsOfGraph plain_of split.now.graph.pipes head strand.old }
    ensures of { IsOfGraph plain_of split.now.graph.pipes head strand.new }
{
    assert_eq!(rt; strand.wants(), Want::Read);
    strand.step_read(s);
}

/// The strand of a head takes the end of its lane.
fn take_end(
    rt: &impl Abort,
    split: &Split,
    head: u16,
    strand: &mut Tried<VecPacket>,
    s: &mut VecStore,
)
    requires of { IsOfGraph plain_of split.now.graph.pipes head strand.old }
    ensures of { IsOfGraph plain_of split.now.graph.pipes head strand.new }
{
    assert_eq!(rt; strand.wants(), Want::Input);
    strand.step_item(Item::End(EndKind::Broken), s);
}

#[test]
fn what_a_pipe_came_to_is_told_at_any_time(rt: HostRuntime) -> Result<(), Fail> {
    let s = &mut VecStore::new(rt.alloc());
    let mut depot = MemDepot::new(rt.alloc());
    let split = Split::of(&rt, rt.alloc(), &behind())?;
    let mut strand: Tried<VecPacket> = split.strand(&rt, rt.alloc(), 1, &mut depot);
    assert_told(&rt, &split, 1, &strand, &[Outcome::Whole; 3]);
    take_end(&rt, &split, 1, &mut strand, s);
    assert_told(&rt, &split, 1, &strand, &[Outcome::Broken; 3]);
    let left = finish(strand, s);
    left.assert_ends(&rt, &[b""], &[Outcome::Broken; 3]);
    Ok(())
}

/// A source of packets of three bytes that may have five bytes, and behind it two sinks.
fn two_sinks() -> [Row; 4] {
    let capture = Does::Source { block: 3, limit: 5 };
    [
        pipe_row(capture, "one", None),
        pipe_row(Does::Dup, "one", Some(0)),
        pipe_row(Does::Sink, "one", Some(1)),
        pipe_row(Does::Sink, "one", Some(1)),
    ]
}

#[test]
fn a_fault_of_its_own_is_told_at_once_of_a_sink_and_of_a_source(
    rt: HostRuntime,
) -> Result<(), Fail> {
    let s = &mut VecStore::new(rt.alloc());
    let mut depot = MemDepot::new(rt.alloc());
    depot.hold("pipe0", b"abcdef")?;
    depot.fail(DepotCall::Write, "pipe2", 1)?;
    let split = Split::of(&rt, rt.alloc(), &two_sinks())?;
    let mut strand: Tried<VecPacket> = split.strand(&rt, rt.alloc(), 0, &mut depot);
    let mut told = [Outcome::Whole; 4];
    assert_told(&rt, &split, 0, &strand, &told);
    read_more(&rt, &split, 0, &mut strand, s);
    told[2] = Outcome::WriteFault;
    assert_told(&rt, &split, 0, &strand, &told);
    read_more(&rt, &split, 0, &mut strand, s);
    told = [Outcome::Broken; 4];
    told[0] = Outcome::TooLong { limit: 5 };
    told[2] = Outcome::WriteFault;
    assert_told(&rt, &split, 0, &strand, &told);
    let left = finish(strand, s);
    left.assert_ends(&rt, &[b"", b"abc"], &told);
    Ok(())
}
