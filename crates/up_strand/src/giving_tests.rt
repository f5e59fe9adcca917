ghost use Rattle.std.specs.Prelude.{◌≡◌, [], Some, None, false};

use crate::any_module::AnyModule;
use crate::giving::give;
use crate::node::{Node, Part, Takers};
use crate::spelling::Spelling;
use std::alloc::Global;
use std::process::Abort;
use up_base::NoMemory;
use up_model::{Kind, packets_stay_legal};
use up_outside::{Depot, DepotCall, MemDepot, MemSink};
use up_shape::{LocalPacket, Module, Outbox, TrialPacket, TrialStore};

/// A node that takes from place 9.
fn taker(alloc: Global, part: Part<MemSink>) -> Node<TrialPacket, MemSink>
    ensures node { result ≡ record {
      input = Some 9;
      takers = None;
      part = part;
      out = result.out;
      short = false;
    } }
    ensures empty { result.out.packets ≡ [] }
{
    Node {
        input: Some(9),
        takers: None,
        part,
        out: Outbox::new(alloc),
        short: false,
    }
}

/// What came of a packet `abcd` that was given to two sinks, a `skip` of two bytes between them,
/// and an outlet behind them.
#[derive(Drop)]
struct Wanted {
    given: Result<(), NoMemory>,
    sinks: [&'static [u8]; 2],
    waits: [Option<&'static [u8]>; 2],
}

/// Takes the one packet that waits in the outbox, if one does, and gives the outbox up.
fn assert_waits(
    rt: &impl Abort,
    mut out: Outbox<TrialPacket>,
    wanted: Option<&[u8]>,
    s: &mut TrialStore,
) {
    let first = out.next();
    assert!(rt; out.next().is_none());
    out.end();
    match first {
        Some(packet) => {
            assert_eq!(rt; Some(packet.bytes()), wanted);
            packet.give_up(s);
        }
        None => assert_eq!(rt; None, wanted),
    }
}

/// Looks at a node, and gives it up.
fn assert_node(
    rt: &impl Abort,
    node: Node<TrialPacket, MemSink>,
    written: Option<&[u8]>,
    waits: Option<&[u8]>,
    s: &mut TrialStore,
) {
    let Node {
        input: _,
        takers: _,
        part,
        out,
        short: _,
    } = node;
    assert_waits(rt, out, waits, s);
    match part {
        Part::Sink {
            sink,
            spelling: _,
            failed: _,
        } => assert_eq!(rt; Some(sink.bytes()), written),
        Part::Pipe(m) => <AnyModule as Module<TrialPacket>>::give_up(m, s),
        Part::Head => assert_eq!(rt; written, None),
        Part::Outlet => assert_eq!(rt; written, None),
        Part::Ended { whole: _ } => assert_eq!(rt; written, None),
    }
}

/// Gives the packet where so many second ones can be made.
fn give_to_four(
    rt: &impl Abort,
    alloc: Global,
    depot: &mut MemDepot,
    dups: usize,
    wanted: &Wanted,
) {
    let s = &mut TrialStore::new(alloc, dups);
    let one = depot.open_sink("one").expect(rt, "no sink");
    let two = depot.open_sink("two").expect(rt, "no sink");
    let skip = AnyModule::of::<TrialPacket>(&Kind::Skip { bytes: 2 }, None).expect(rt, "no module");
    let mut nodes = [
        taker(
            alloc,
            Part::Sink {
                sink: one,
                spelling: Spelling::Raw,
                failed: false,
            },
        ),
        taker(alloc, Part::Pipe(skip)),
        taker(
            alloc,
            Part::Sink {
                sink: two,
                spelling: Spelling::Raw,
                failed: false,
            },
        ),
        taker(alloc, Part::Outlet),
    ];
    let packet = TrialPacket::fresh(b"abcd", s).expect(rt, "no memory");
    packets_stay_legal();
    let takers = Some(Takers { first: 0, last: 3 });
    assert_eq!(rt; give(&mut nodes, 9, takers, packet, s), wanted.given);
    let [one, cut, two, outlet] = nodes;
    assert_node(rt, one, Some(wanted.sinks[0]), None, s);
    assert_node(rt, cut, None, wanted.waits[0], s);
    assert_node(rt, two, Some(wanted.sinks[1]), None, s);
    assert_node(rt, outlet, None, wanted.waits[1], s);
}

#[test]
fn each_taker_gets_the_packet_and_the_last_the_packet_itself(rt: HostRuntime) {
    let mut depot = MemDepot::new(rt.alloc());
    let all = Wanted {
        given: Ok(()),
        sinks: [b"abcd", b"abcd"],
        waits: [Some(b"cd"), Some(b"abcd")],
    };
    give_to_four(&rt, rt.alloc(), &mut depot, 3, &all);
}

#[test]
fn a_sink_that_fails_leaves_its_neighbours(rt: HostRuntime) {
    let mut depot = MemDepot::new(rt.alloc());
    depot.cut(3);
    assert!(rt; depot.fail(DepotCall::Write, "one", 2).is_ok());
    let one_failed = Wanted {
        given: Ok(()),
        sinks: [b"abc", b"abcd"],
        waits: [Some(b"cd"), Some(b"abcd")],
    };
    give_to_four(&rt, rt.alloc(), &mut depot, 3, &one_failed);
}

#[test]
fn a_taker_without_memory_for_a_second_packet_leaves_its_neighbours(rt: HostRuntime) {
    let mut depot = MemDepot::new(rt.alloc());
    let two_short = Wanted {
        given: Err(NoMemory),
        sinks: [b"abcd", b""],
        waits: [Some(b"cd"), Some(b"abcd")],
    };
    give_to_four(&rt, rt.alloc(), &mut depot, 2, &two_short);
}
