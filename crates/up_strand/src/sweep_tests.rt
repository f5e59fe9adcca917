ghost use Rattle.std.specs.Prelude.{◌≡◌, ◌<◌, length, false};
ghost use Rattle.up_outside.specs.Memory.MemSink.{sink_state};
ghost use Rattle.up_shape.specs.VecPackets.{plain_of};
ghost use Rattle.up_strand.specs.Stand.{StandForSome, AreTaking};
ghost use Rattle.up_strand.specs.Tree.{IsSwept};
ghost use Rattle.up_strand.specs.declared.node.Part.TheVariants as parts;
ghost use Rattle.up_strand.specs.declared.spelling.Spelling.TheVariants as spellings;

use crate::any_module::AnyModule;
use crate::ending::{break_all, end_all, fall};
use crate::node::{Node, Part, Takers};
use crate::spelling::Spelling;
use crate::sweep::feed_head;
use std::alloc::Global;
use std::process::Abort;
use up_model::{Kind, MAX_PACKET, Tally, packets_stay_legal};
use up_outside::{Depot, DepotCall, MemDepot, MemSink};
use up_shape::{LocalPacket, Module, Outbox, VecPacket, VecStore};

/// Puts a packet of these bytes in at the head.
fn feed(
    rt: &impl Abort,
    nodes: &mut [Node<VecPacket, MemSink>],
    order: &[usize],
    bytes: &[u8],
    s: &mut VecStore,
)
    requires some { 0 < length order.now }
    requires swept { IsSwept order.now nodes.old }
    requires taking { AreTaking nodes.old }
    requires stand { StandForSome plain_of sink_state nodes.old }
    ensures swept { IsSwept order.now nodes.new }
    ensures taking { AreTaking nodes.new }
    ensures stand { StandForSome plain_of sink_state nodes.new }
{
    assert!(rt; bytes.len() <= MAX_PACKET as usize);
    let packet = VecPacket::fresh(bytes, s).expect(rt, "no memory");
    packets_stay_legal();
    assert_eq!(rt; feed_head(nodes, order, packet, s), Ok(()));
}

/// The head, `dup` behind it, two sinks, a `skip` of two bytes and an outlet behind that, and a
/// third sink behind the `skip`.
const ORDER: [usize; 7] = [1, 3, 2, 4, 5, 6, 0];

/// How the flow of a tree is ended.
enum End {
    Whole,
    Broken,
    NoMemory,
}

/// Ends the flow of the nodes, which are a tree; where memory runs out one packet more comes then.
fn end_tree(
    rt: &impl Abort,
    nodes: &mut [Node<VecPacket, MemSink>],
    order: &[usize],
    end: &End,
    s: &mut VecStore,
)
    requires some { 0 < length order.now }
    requires swept { IsSwept order.now nodes.old }
    requires taking { AreTaking nodes.old }
    requires stand { StandForSome plain_of sink_state nodes.old }
{
    match end {
        End::Whole => assert_eq!(rt; end_all(nodes, order, s), Ok(())),
        End::Broken => break_all(nodes, s),
        End::NoMemory => {
            fall(nodes, s);
            feed(rt, nodes, order, b"hij", s);
        }
    }
}

/// A sink that was written nothing.
fn raw_sink(sink: MemSink) -> Part<MemSink>
    ensures { result ≡ parts.Sink sink spellings.Raw false }
{
    Part::Sink {
        sink,
        spelling: Spelling::Raw,
        failed: false,
    }
}

/// Feeds three packets to a tree whose nodes stand in another order, and ends its flow.
fn run_tree(
    rt: &impl Abort,
    alloc: Global,
    depot: &mut MemDepot,
    end: &End,
    s: &mut VecStore,
) -> [Node<VecPacket, MemSink>; 7] {
    let one = depot.open_sink("one").expect(rt, "no sink");
    let two = depot.open_sink("two").expect(rt, "no sink");
    let three = depot.open_sink("three").expect(rt, "no sink");
    let dup = AnyModule::of::<VecPacket>(&Kind::Dup, None).expect(rt, "no module");
    let skip = AnyModule::of::<VecPacket>(&Kind::Skip { bytes: 2 }, None).expect(rt, "no module");
    let mut nodes = [
        Node::new(alloc, Some(4), None, raw_sink(three)),
        Node::new(alloc, None, Some(Takers { first: 3, last: 3 }), Part::Head),
        Node::new(alloc, Some(3), None, raw_sink(one)),
        Node::new(
            alloc,
            Some(1),
            Some(Takers { first: 2, last: 6 }),
            Part::Pipe(dup),
        ),
        Node::new(
            alloc,
            Some(3),
            Some(Takers { first: 0, last: 0 }),
            Part::Pipe(skip),
        ),
        Node::new(alloc, Some(3), None, raw_sink(two)),
        Node::new(alloc, Some(3), None, Part::Outlet),
    ];
    feed(rt, &mut nodes, &ORDER, b"abc", s);
    feed(rt, &mut nodes, &ORDER, b"def", s);
    feed(rt, &mut nodes, &ORDER, b"g", s);
    end_tree(rt, &mut nodes, &ORDER, end, s);
    nodes
}

/// Takes the packets that wait in the outbox, whose bytes are these, and gives the outbox up.
fn assert_left(rt: &impl Abort, mut out: Outbox<VecPacket>, wanted: &[&[u8]], s: &mut VecStore) {
    for bytes in wanted {
        let packet = out.next().expect(rt, "no packet waits");
        assert_eq!(rt; packet.bytes(), *bytes);
        packet.give_up(s);
    }
    assert!(rt; out.next().is_none());
    out.end();
}

/// What a node counted, once what it is and what waits there were looked at.
fn sums_of(
    rt: &impl Abort,
    node: Node<VecPacket, MemSink>,
    written: Option<&[u8]>,
    waits: &[&[u8]],
    end: &End,
    s: &mut VecStore,
) -> Tally {
    let Node {
        input: _,
        takers: _,
        part,
        out,
        short,
    } = node;
    assert_eq!(rt; short, matches!(end, End::NoMemory));
    let sums = out.tally();
    assert_left(rt, out, waits, s);
    match part {
        Part::Head => assert_eq!(rt; written, None),
        Part::Outlet => assert_eq!(rt; written, None),
        Part::Ended { whole } => assert_eq!(rt; whole, matches!(end, End::Whole)),
        Part::Pipe(m) => {
            <AnyModule as Module<VecPacket>>::give_up(m, s);
            assert!(rt; written.is_some(), "a pipe goes on");
        }
        Part::Sink {
            sink,
            spelling: _,
            failed: _,
        } => assert_eq!(rt; Some(sink.bytes()), written),
    }
    sums
}

/// So many packets were taken and put.
fn moved(taken: u64, put: u64) -> Tally {
    Tally {
        taken,
        put,
        ..Tally::default()
    }
}

/// Looks at all nodes, of which the first sink holds these bytes.
fn assert_tree(
    rt: &impl Abort,
    nodes: [Node<VecPacket, MemSink>; 7],
    one: &[u8],
    end: &End,
    s: &mut VecStore,
) {
    let [third, head, first, dup, skip, second, outlet] = nodes;
    assert_eq!(rt; sums_of(rt, third, Some(b"cf"), &[], end, s), moved(2, 0));
    assert_eq!(rt; sums_of(rt, head, None, &[], end, s), moved(0, 3));
    assert_eq!(rt; sums_of(rt, first, Some(one), &[], end, s), moved(3, 0));
    assert_eq!(rt; sums_of(rt, dup, None, &[], end, s), moved(3, 3));
    let skipped = Tally {
        dropped: 1,
        cut: 5,
        ..moved(3, 2)
    };
    assert_eq!(rt; sums_of(rt, skip, None, &[], end, s), skipped);
    assert_eq!(rt;
        sums_of(rt, second, Some(b"abcdefg"), &[], end, s),
        moved(3, 0)
    );
    let left: [&[u8]; 3] = [b"abc", b"def", b"g"];
    assert_eq!(rt; sums_of(rt, outlet, None, &left, end, s), moved(0, 0));
}

#[test]
fn a_tree_carries_each_packet_to_all_of_its_ends(rt: HostRuntime) {
    let s = &mut VecStore::new(rt.alloc());
    let mut depot = MemDepot::new(rt.alloc());
    let nodes = run_tree(&rt, rt.alloc(), &mut depot, &End::Whole, s);
    assert_tree(&rt, nodes, b"abcdefg", &End::Whole, s);
}

#[test]
fn a_sink_of_a_tree_fails_while_its_neighbours_go_on(rt: HostRuntime) {
    let s = &mut VecStore::new(rt.alloc());
    let mut depot = MemDepot::new(rt.alloc());
    assert!(rt; depot.fail(DepotCall::Write, "one", 2).is_ok());
    let nodes = run_tree(&rt, rt.alloc(), &mut depot, &End::Whole, s);
    assert_tree(&rt, nodes, b"abc", &End::Whole, s);
}

#[test]
fn a_broken_end_puts_nothing_more_out(rt: HostRuntime) {
    let s = &mut VecStore::new(rt.alloc());
    let mut depot = MemDepot::new(rt.alloc());
    let nodes = run_tree(&rt, rt.alloc(), &mut depot, &End::Broken, s);
    assert_tree(&rt, nodes, b"abcdefg", &End::Broken, s);
}

#[test]
fn what_comes_once_memory_ran_out_is_given_up(rt: HostRuntime) {
    let s = &mut VecStore::new(rt.alloc());
    let mut depot = MemDepot::new(rt.alloc());
    let nodes = run_tree(&rt, rt.alloc(), &mut depot, &End::NoMemory, s);
    assert_tree(&rt, nodes, b"abcdefg", &End::NoMemory, s);
}
