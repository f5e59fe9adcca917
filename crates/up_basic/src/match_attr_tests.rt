use crate::MatchAttr;
use crate::attr_packets::{
    Attr, NOTHING, asked, assert_attrs, feed_on, give_up, name_of, packet_of, put_of,
};
use std::process::Abort;
use std::test::Fail;
use up_model::{Opt, Tally, ValueView};
use up_shape::{
    Command, ControlRefused, LocalPacket, Outbox, Reply, Trial, TrialPacket, TrialStore, Untried,
    VecStore, tried,
};

const GREATEST: u64 = 18_446_744_073_709_551_615;

const DROPPED: Tally = Tally {
    taken: 3,
    dropped: 3,
    cut: 5,
    ..NOTHING
};

const TRIALS: [Trial<'static>; 3] = [
    Trial {
        set: &[],
        taken: &[],
        put: &[],
        sums: NOTHING,
    },
    Trial {
        set: &[],
        taken: &[b"ab", b"", b"key"],
        put: &[],
        sums: DROPPED,
    },
    Trial {
        set: &[(Opt::High, 20), (Opt::Low, 10)],
        taken: &[b"ab", b"", b"key"],
        put: &[],
        sums: DROPPED,
    },
];

#[test]
fn packets_without_the_attribute_are_dropped(rt: HostRuntime) {
    let alloc = rt.alloc();
    let key = name_of(&rt, "key");
    for trial in TRIALS {
        assert!(rt; trial.wanted(alloc).is_ok());
        assert_eq!(rt;
            tried(alloc, MatchAttr::new(key), &trial),
            trial.wanted(alloc)
        );
    }
}

#[test]
fn five_thousand_packets_and_the_greatest_are_dropped(rt: HostRuntime) -> Result<(), Fail> {
    let alloc = rt.alloc();
    let greatest = vec![in alloc; 7; 1_048_576]?;
    let mut taken = [b"ab".as_slice(); 5_000];
    taken[4_999] = greatest.as_slice();
    let many = Trial {
        set: &[],
        taken: &taken,
        put: &[],
        sums: Tally {
            taken: 5_000,
            dropped: 5_000,
            cut: 1_058_574,
            ..NOTHING
        },
    };
    let key = name_of(&rt, "key");
    assert_eq!(rt;
        tried(alloc, MatchAttr::new(key), &many),
        many.wanted(alloc)
    );
    Ok(())
}

/// One that passes what lies within these bounds of `key`.
fn matching(rt: &impl Abort, low: u64, high: u64) -> MatchAttr {
    let mut m = MatchAttr::new(name_of(rt, "key"));
    for command in [
        Command::Set(Opt::High, i128::from(high)),
        Command::Set(Opt::Low, i128::from(low)),
    ] {
        assert_eq!(rt; asked(rt, &mut m, command), Ok(Reply::Done));
    }
    m
}

/// Two bounds, the attributes of a packet, and whether it passes.
const MATCHES: [(u64, u64, &[Attr], bool); 24] = [
    (10, 20, &[("key", ValueView::Unsigned(9))], false),
    (10, 20, &[("key", ValueView::Unsigned(10))], true),
    (10, 20, &[("key", ValueView::Unsigned(11))], true),
    (10, 20, &[("key", ValueView::Unsigned(19))], true),
    (10, 20, &[("key", ValueView::Unsigned(20))], true),
    (10, 20, &[("key", ValueView::Unsigned(21))], false),
    (10, 20, &[("key", ValueView::Unsigned(0))], false),
    (10, 20, &[("key", ValueView::Unsigned(GREATEST))], false),
    (7, 7, &[("key", ValueView::Unsigned(6))], false),
    (7, 7, &[("key", ValueView::Unsigned(7))], true),
    (7, 7, &[("key", ValueView::Unsigned(8))], false),
    (0, 0, &[("key", ValueView::Unsigned(0))], true),
    (0, 0, &[("key", ValueView::Unsigned(1))], false),
    (0, GREATEST, &[("key", ValueView::Unsigned(0))], true),
    (0, GREATEST, &[("key", ValueView::Unsigned(GREATEST))], true),
    (
        GREATEST,
        GREATEST,
        &[("key", ValueView::Unsigned(18_446_744_073_709_551_614))],
        false,
    ),
    (0, GREATEST, &[("key", ValueView::Void)], false),
    (0, GREATEST, &[("key", ValueView::Flag(true))], false),
    (10, 20, &[("key", ValueView::Words("15"))], false),
    (0, GREATEST, &[("key", ValueView::Opaque(&[15]))], false),
    (0, GREATEST, &[], false),
    (0, GREATEST, &[("ke", ValueView::Unsigned(15))], false),
    (
        10,
        20,
        &[
            ("Key", ValueView::Unsigned(15)),
            ("key", ValueView::Unsigned(25)),
        ],
        false,
    ),
    (
        10,
        20,
        &[
            ("Key", ValueView::Unsigned(25)),
            ("key", ValueView::Unsigned(15)),
            ("lang", ValueView::Words("en")),
        ],
        true,
    ),
];

#[test]
fn match_attr_passes_numbers_from_its_low_to_its_high(rt: HostRuntime) {
    let alloc = rt.alloc();
    let s = &mut VecStore::new(alloc);
    for (row, (low, high, attrs, passes)) in MATCHES.into_iter().enumerate() {
        let m = matching(&rt, low, high);
        let packet = packet_of(&rt, alloc, attrs, s);
        match put_of(&rt, alloc, m, packet, s) {
            Some(packet) => {
                assert!(rt; passes, "row {row} passes");
                assert_attrs(&rt, &packet, attrs);
            }
            None => assert!(rt; !passes, "row {row} is dropped"),
        }
    }
}

#[test]
fn match_attr_makes_no_second_packet(rt: HostRuntime) {
    let s = &mut TrialStore::new(rt.alloc(), 0);
    let mut out = Outbox::new(rt.alloc());
    let packet = TrialPacket::fresh(b"abc", s).expect(&rt, "no memory");
    out.put(packet).expect(&rt, "no memory");
    feed_on(&rt, &mut out, MatchAttr::new(name_of(&rt, "key")), s);
    assert!(rt; out.next().is_none());
    out.end();
}

/// Why a value of either bound is refused at first.
const INVALID: ControlRefused = ControlRefused::Invalid {
    low: 0,
    high: 18_446_744_073_709_551_615,
};

/// Why a value of `Low` is refused where `High` is 20, and where it is 0.
const ABOVE_20: ControlRefused = ControlRefused::Invalid { low: 0, high: 20 };

const ABOVE_0: ControlRefused = ControlRefused::Invalid { low: 0, high: 0 };

/// Why a value of `High` is refused where `Low` is 20, and where it is the greatest.
const BELOW_20: ControlRefused = ControlRefused::Invalid {
    low: 20,
    high: 18_446_744_073_709_551_615,
};

const BELOW_GREATEST: ControlRefused = ControlRefused::Invalid {
    low: 18_446_744_073_709_551_615,
    high: 18_446_744_073_709_551_615,
};

/// Commands in order, each with its answer.
const COMMANDS: [(Command, Result<Reply, ControlRefused>); 30] = [
    (Command::Get(Opt::Low), Ok(Reply::Value(0))),
    (
        Command::Get(Opt::High),
        Ok(Reply::Value(18_446_744_073_709_551_615)),
    ),
    (Command::Set(Opt::High, -1), Err(INVALID)),
    (
        Command::Set(Opt::High, 18_446_744_073_709_551_616),
        Err(INVALID),
    ),
    (Command::Set(Opt::Low, -1), Err(INVALID)),
    (
        Command::Set(Opt::Low, 18_446_744_073_709_551_616),
        Err(INVALID),
    ),
    (
        Command::Get(Opt::High),
        Ok(Reply::Value(18_446_744_073_709_551_615)),
    ),
    (Command::Set(Opt::High, 20), Ok(Reply::Done)),
    (Command::Set(Opt::Low, 21), Err(ABOVE_20)),
    (Command::Get(Opt::Low), Ok(Reply::Value(0))),
    (Command::Set(Opt::Low, 20), Ok(Reply::Done)),
    (Command::Get(Opt::Low), Ok(Reply::Value(20))),
    (Command::Set(Opt::High, 19), Err(BELOW_20)),
    (Command::Get(Opt::High), Ok(Reply::Value(20))),
    (Command::Set(Opt::High, 20), Ok(Reply::Done)),
    (Command::Set(Opt::Low, 10), Ok(Reply::Done)),
    (Command::Set(Opt::High, 10), Ok(Reply::Done)),
    (Command::Get(Opt::Low), Ok(Reply::Value(10))),
    (Command::Get(Opt::High), Ok(Reply::Value(10))),
    (Command::Set(Opt::Low, 0), Ok(Reply::Done)),
    (Command::Set(Opt::High, 0), Ok(Reply::Done)),
    (Command::Set(Opt::Low, 1), Err(ABOVE_0)),
    (
        Command::Set(Opt::High, 18_446_744_073_709_551_615),
        Ok(Reply::Done),
    ),
    (
        Command::Set(Opt::Low, 18_446_744_073_709_551_615),
        Ok(Reply::Done),
    ),
    (
        Command::Get(Opt::Low),
        Ok(Reply::Value(18_446_744_073_709_551_615)),
    ),
    (Command::Set(Opt::High, 0), Err(BELOW_GREATEST)),
    (Command::Set(Opt::Mtu, 1), Err(ControlRefused::Unhandled)),
    (Command::Set(Opt::By, 1), Err(ControlRefused::Unhandled)),
    (Command::Get(Opt::Offset), Err(ControlRefused::Unhandled)),
    (Command::Get(Opt::Sync), Err(ControlRefused::Unhandled)),
];

#[test]
fn the_bounds_of_match_attr_bound_each_other(rt: HostRuntime) {
    let mut m = MatchAttr::new(name_of(&rt, "key"));
    for (row, (command, answer)) in COMMANDS.into_iter().enumerate() {
        assert_eq!(rt; asked(&rt, &mut m, command), answer, "row {row}");
    }
    give_up(m, &mut VecStore::new(rt.alloc()));
}

#[test]
fn a_low_above_its_high_refuses_a_trial(rt: HostRuntime) {
    let trial = Trial {
        set: &[(Opt::High, 20), (Opt::Low, 21)],
        taken: &[b"ab"],
        put: &[],
        sums: NOTHING,
    };
    assert_eq!(rt;
        tried(rt.alloc(), MatchAttr::new(name_of(&rt, "key")), &trial),
        Err(Untried::Refused(ABOVE_20))
    );
}
