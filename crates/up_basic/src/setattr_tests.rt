ghost use Rattle.up_model.specs.Packet.{IsLegal};
ghost use Rattle.up_shape.specs.VecPackets.{plain_of};

use crate::SetAttr;
use crate::attr_packets::{
    Attr, NOTHING, OPTIONS, asked, assert_attrs, bare, feed_on, give, give_up, is_same, name_of,
    packet_of, passed, put_of, value_of,
};
use std::alloc::Global;
use std::process::Abort;
use std::test::Fail;
use up_model::{Tally, Value, ValueView};
use up_shape::{
    Command, ControlRefused, LocalPacket, Outbox, Trial, TrialPacket, TrialStore, VecPacket,
    VecStore, tried,
};

const TRIALS: [Trial<'static>; 2] = [
    Trial {
        set: &[],
        taken: &[],
        put: &[],
        sums: NOTHING,
    },
    Trial {
        set: &[],
        taken: &[b"ab", b"", b"key"],
        put: &[b"ab", b"", b"key"],
        sums: Tally {
            taken: 3,
            put: 3,
            ..NOTHING
        },
    },
];

#[test]
fn setattr_leaves_the_bytes_of_packets(rt: HostRuntime) {
    let alloc = rt.alloc();
    let key = name_of(&rt, "key");
    for trial in TRIALS {
        assert!(rt; trial.wanted(alloc).is_ok());
        assert_eq!(rt;
            tried(alloc, SetAttr::new(key, Value::Unsigned(7)), &trial),
            trial.wanted(alloc)
        );
    }
}

#[test]
fn five_thousand_packets_and_the_greatest_are_given_an_attribute(
    rt: HostRuntime,
) -> Result<(), Fail> {
    let alloc = rt.alloc();
    let greatest = vec![in alloc; 7; 1_048_576]?;
    let mut taken = [b"ab".as_slice(); 5_000];
    taken[4_999] = greatest.as_slice();
    let many = Trial {
        set: &[],
        taken: &taken,
        put: &taken,
        sums: Tally {
            taken: 5_000,
            put: 5_000,
            ..NOTHING
        },
    };
    let key = name_of(&rt, "key");
    assert_eq!(rt;
        tried(alloc, SetAttr::new(key, Value::Void), &many),
        many.wanted(alloc)
    );
    Ok(())
}

/// The attributes of a packet, the value that `key` is given, and its attributes then.
const GIVEN: [(&[Attr], ValueView<'static>, &[Attr]); 9] = [
    (
        &[],
        ValueView::Unsigned(7),
        &[("key", ValueView::Unsigned(7))],
    ),
    (
        &[("Key", ValueView::Void), ("rate", ValueView::Flag(true))],
        ValueView::Words("live"),
        &[
            ("Key", ValueView::Void),
            ("key", ValueView::Words("live")),
            ("rate", ValueView::Flag(true)),
        ],
    ),
    (
        &[("key", ValueView::Words("old")), ("keys", ValueView::Void)],
        ValueView::Flag(false),
        &[("key", ValueView::Flag(false)), ("keys", ValueView::Void)],
    ),
    (
        &[("key", ValueView::Flag(true))],
        ValueView::Void,
        &[("key", ValueView::Void)],
    ),
    (
        &[("key", ValueView::Void)],
        ValueView::Unsigned(18_446_744_073_709_551_615),
        &[("key", ValueView::Unsigned(18_446_744_073_709_551_615))],
    ),
    (
        &[("key", ValueView::Unsigned(7))],
        ValueView::Opaque(&[0, 255]),
        &[("key", ValueView::Opaque(&[0, 255]))],
    ),
    (
        &[("key", ValueView::Opaque(&[7]))],
        ValueView::Words("é"),
        &[("key", ValueView::Words("é"))],
    ),
    (
        &[("ke", ValueView::Opaque(&[]))],
        ValueView::Words(""),
        &[
            ("ke", ValueView::Opaque(&[])),
            ("key", ValueView::Words("")),
        ],
    ),
    (
        &[("key", ValueView::Unsigned(7))],
        ValueView::Unsigned(7),
        &[("key", ValueView::Unsigned(7))],
    ),
];

#[test]
fn setattr_gives_a_value_of_any_type_in_place_of_any(rt: HostRuntime) {
    let alloc = rt.alloc();
    let s = &mut VecStore::new(alloc);
    for (has, value, wanted) in GIVEN {
        let set = SetAttr::new(name_of(&rt, "key"), value_of(&rt, alloc, value));
        let packet = packet_of(&rt, alloc, has, s);
        let packet = passed(&rt, alloc, set, packet, s);
        assert_attrs(&rt, &packet, wanted);
    }
}

#[test]
fn a_value_of_4096_bytes_is_given(rt: HostRuntime) -> Result<(), Fail> {
    let alloc = rt.alloc();
    let s = &mut VecStore::new(alloc);
    let key = name_of(&rt, "key");
    let text = "x".repeat(alloc, 4096)?;
    let bytes = vec![in alloc; 200; 4096]?;
    for value in [
        ValueView::Words(text.as_str()),
        ValueView::Opaque(bytes.as_slice()),
    ] {
        let set = SetAttr::new(key, value_of(&rt, alloc, value));
        let packet = bare(&rt, s);
        let packet = passed(&rt, alloc, set, packet, s);
        assert_eq!(rt; packet.attr_count(), 1);
        let found = packet.value(&key).expect(&rt, "no value");
        assert!(rt; is_same(found, value));
    }
    Ok(())
}

/// The names of 64 attributes, in their order.
const NAMES: [&str; 64] = [
    "a0", "a1", "a2", "a3", "a4", "a5", "a6", "a7", "b0", "b1", "b2", "b3", "b4", "b5", "b6", "b7",
    "c0", "c1", "c2", "c3", "c4", "c5", "c6", "c7", "d0", "d1", "d2", "d3", "d4", "d5", "d6", "d7",
    "e0", "e1", "e2", "e3", "e4", "e5", "e6", "e7", "f0", "f1", "f2", "f3", "f4", "f5", "f6", "f7",
    "g0", "g1", "g2", "g3", "g4", "g5", "g6", "g7", "h0", "h1", "h2", "h3", "h4", "h5", "h6", "h7",
];

/// A packet of the bytes `abc` that has under each of the first names the number of its place.
fn numbered(rt: &impl Abort, alloc: Global, count: usize, s: &mut VecStore) -> VecPacket
    ensures { IsLegal (plain_of result) }
{
    let mut packet = bare(rt, s);
    for (place, name) in NAMES.iter().enumerate().take(count) {
        give(
            rt,
            alloc,
            &mut packet,
            name,
            ValueView::Unsigned(place as u64),
        );
    }
    packet
}

/// The packet has this value under the name, and under each other of the first names the number of its place.
fn assert_numbered(
    rt: &impl Abort,
    packet: &VecPacket,
    count: usize,
    set: &str,
    value: ValueView<'_>,
) {
    let found = packet.value(&name_of(rt, set)).expect(rt, "no value");
    assert!(rt; is_same(found, value));
    for (place, name) in NAMES.iter().enumerate().take(count) {
        let found = packet.value(&name_of(rt, name)).expect(rt, "no value");
        let number = ValueView::Unsigned(place as u64);
        let wanted = if *name == set { value } else { number };
        assert!(rt; is_same(found, wanted), "the value of {name}");
    }
}

/// How many attributes a packet has, the name that is set, and how many it has then, where it goes on.
const AT_THE_LIMIT: [(usize, &str, Option<usize>); 8] = [
    (64, "a0", Some(64)),
    (64, "d7", Some(64)),
    (64, "h7", Some(64)),
    (64, "h8", None),
    (64, "A0", None),
    (63, "h7", Some(64)),
    (63, "a0", Some(63)),
    (62, "x", Some(63)),
];

#[test]
fn a_packet_that_would_have_a_65th_attribute_is_dropped(rt: HostRuntime) {
    let alloc = rt.alloc();
    let s = &mut VecStore::new(alloc);
    let value = ValueView::Words("new");
    for (count, name, wanted) in AT_THE_LIMIT {
        let set = SetAttr::new(name_of(&rt, name), value_of(&rt, alloc, value));
        let packet = numbered(&rt, alloc, count, s);
        let put = put_of(&rt, alloc, set, packet, s);
        match put {
            Some(packet) => {
                assert_eq!(rt; Some(packet.attr_count()), wanted, "{count} and {name}");
                assert_numbered(&rt, &packet, count, name, value);
            }
            None => assert!(rt; wanted.is_none(), "{count} and {name}"),
        }
    }
}

#[test]
fn setattr_makes_no_second_packet(rt: HostRuntime) {
    let s = &mut TrialStore::new(rt.alloc(), 0);
    let mut out = Outbox::new(rt.alloc());
    let packet = TrialPacket::fresh(b"abc", s).expect(&rt, "no memory");
    out.put(packet).expect(&rt, "no memory");
    let key = name_of(&rt, "key");
    feed_on(&rt, &mut out, SetAttr::new(key, Value::Flag(true)), s);
    let mut last = out.next().expect(&rt, "no packet was put out");
    assert_eq!(rt; last.bytes(), b"abc".as_slice());
    assert!(rt; matches!(last.value(&key), Some(ValueView::Flag(true))));
    assert!(rt; last.dup(s).is_err());
    assert!(rt; out.next().is_none());
    out.end();
}

#[test]
fn setattr_has_no_option(rt: HostRuntime) {
    let mut set = SetAttr::new(name_of(&rt, "key"), Value::Unsigned(0));
    for option in OPTIONS {
        for command in [Command::Get(option), Command::Set(option, 0)] {
            assert_eq!(rt;
                asked(&rt, &mut set, command),
                Err(ControlRefused::Unhandled)
            );
        }
    }
    give_up(set, &mut VecStore::new(rt.alloc()));
}
