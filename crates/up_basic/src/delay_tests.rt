use crate::Delay;
use crate::attr_packets::{
    Attr, NOTHING, asked, assert_attrs, feed_on, give_up, packet_of, passed,
};
use std::process::Abort;
use std::test::Fail;
use up_model::{Opt, Tally, ValueView};
use up_shape::{
    Command, ControlRefused, LocalPacket, Outbox, Reply, Trial, TrialPacket, TrialStore, Untried,
    VecStore, tried,
};

const TRIALS: [Trial<'static>; 3] = [
    Trial {
        set: &[],
        taken: &[],
        put: &[],
        sums: NOTHING,
    },
    Trial {
        set: &[],
        taken: &[b"ab", b"", b"key"],
        put: &[b"ab", b"", b"key"],
        sums: Tally {
            taken: 3,
            put: 3,
            ..NOTHING
        },
    },
    Trial {
        set: &[(Opt::By, 9_223_372_036_854_775_807), (Opt::By, -1)],
        taken: &[b"ab", b""],
        put: &[b"ab", b""],
        sums: Tally {
            taken: 2,
            put: 2,
            ..NOTHING
        },
    },
];

#[test]
fn delay_leaves_the_bytes_of_packets(rt: HostRuntime) {
    let alloc = rt.alloc();
    for trial in TRIALS {
        assert!(rt; trial.wanted(alloc).is_ok());
        assert_eq!(rt; tried(alloc, Delay::new(), &trial), trial.wanted(alloc));
    }
}

#[test]
fn five_thousand_packets_and_the_greatest_go_on(rt: HostRuntime) -> Result<(), Fail> {
    let alloc = rt.alloc();
    let greatest = vec![in alloc; 7; 1_048_576]?;
    let mut taken = [b"ab".as_slice(); 5_000];
    taken[4_999] = greatest.as_slice();
    let many = Trial {
        set: &[(Opt::By, 1)],
        taken: &taken,
        put: &taken,
        sums: Tally {
            taken: 5_000,
            put: 5_000,
            ..NOTHING
        },
    };
    assert_eq!(rt; tried(alloc, Delay::new(), &many), many.wanted(alloc));
    Ok(())
}

/// One that moves dates by so many ticks.
fn delaying(rt: &impl Abort, by: i64) -> Delay {
    let mut delay = Delay::new();
    let command = Command::Set(Opt::By, i128::from(by));
    assert_eq!(rt; asked(rt, &mut delay, command), Ok(Reply::Done));
    delay
}

/// By how much dates are moved, the attributes of a packet, and its attributes then.
const MOVES: [(i64, &[Attr], &[Attr]); 13] = [
    (-1, &[("date.sys", ValueView::Unsigned(0))], &[]),
    (
        -1,
        &[("date.sys", ValueView::Unsigned(1))],
        &[("date.sys", ValueView::Unsigned(0))],
    ),
    (
        1,
        &[("date.prog", ValueView::Unsigned(18_446_744_073_709_551_615))],
        &[],
    ),
    (
        1,
        &[("date.prog", ValueView::Unsigned(18_446_744_073_709_551_614))],
        &[("date.prog", ValueView::Unsigned(18_446_744_073_709_551_615))],
    ),
    (
        -9_223_372_036_854_775_808,
        &[
            ("date.orig", ValueView::Unsigned(9_223_372_036_854_775_807)),
            ("date.prog", ValueView::Unsigned(9_223_372_036_854_775_808)),
            ("date.sys", ValueView::Unsigned(18_446_744_073_709_551_615)),
        ],
        &[
            ("date.prog", ValueView::Unsigned(0)),
            ("date.sys", ValueView::Unsigned(9_223_372_036_854_775_807)),
        ],
    ),
    (
        9_223_372_036_854_775_807,
        &[
            ("date.orig", ValueView::Unsigned(0)),
            ("date.prog", ValueView::Unsigned(9_223_372_036_854_775_808)),
            ("date.sys", ValueView::Unsigned(9_223_372_036_854_775_809)),
        ],
        &[
            ("date.orig", ValueView::Unsigned(9_223_372_036_854_775_807)),
            ("date.prog", ValueView::Unsigned(18_446_744_073_709_551_615)),
        ],
    ),
    (
        27_000_000,
        &[
            ("date.orig", ValueView::Unsigned(1)),
            ("date.prog", ValueView::Unsigned(2)),
            ("date.sys", ValueView::Unsigned(3)),
        ],
        &[
            ("date.orig", ValueView::Unsigned(27_000_001)),
            ("date.prog", ValueView::Unsigned(27_000_002)),
            ("date.sys", ValueView::Unsigned(27_000_003)),
        ],
    ),
    (
        0,
        &[
            ("date.orig", ValueView::Unsigned(0)),
            ("date.sys", ValueView::Unsigned(18_446_744_073_709_551_615)),
        ],
        &[
            ("date.orig", ValueView::Unsigned(0)),
            ("date.sys", ValueView::Unsigned(18_446_744_073_709_551_615)),
        ],
    ),
    (
        -1,
        &[
            ("date.orig", ValueView::Words("0")),
            ("date.prog", ValueView::Void),
            ("date.sys", ValueView::Flag(false)),
        ],
        &[
            ("date.orig", ValueView::Words("0")),
            ("date.prog", ValueView::Void),
            ("date.sys", ValueView::Flag(false)),
        ],
    ),
    (
        5,
        &[
            ("date.orig", ValueView::Opaque(&[0, 0, 0, 0, 0, 0, 0, 7])),
            ("date.prog", ValueView::Unsigned(7)),
        ],
        &[
            ("date.orig", ValueView::Opaque(&[0, 0, 0, 0, 0, 0, 0, 7])),
            ("date.prog", ValueView::Unsigned(12)),
        ],
    ),
    (
        -3,
        &[
            ("date", ValueView::Unsigned(1)),
            ("date.Sys", ValueView::Unsigned(1)),
            ("date.sys", ValueView::Unsigned(1)),
            ("date.sys.", ValueView::Unsigned(1)),
            ("key", ValueView::Words("live")),
        ],
        &[
            ("date", ValueView::Unsigned(1)),
            ("date.Sys", ValueView::Unsigned(1)),
            ("date.sys.", ValueView::Unsigned(1)),
            ("key", ValueView::Words("live")),
        ],
    ),
    (
        1,
        &[("key", ValueView::Void), ("rate", ValueView::Unsigned(9))],
        &[("key", ValueView::Void), ("rate", ValueView::Unsigned(9))],
    ),
    (1, &[], &[]),
];

#[test]
fn delay_moves_dates_and_takes_those_away_that_are_none(rt: HostRuntime) {
    let alloc = rt.alloc();
    let s = &mut VecStore::new(alloc);
    for (by, has, wanted) in MOVES {
        let delay = delaying(&rt, by);
        let packet = packet_of(&rt, alloc, has, s);
        let packet = passed(&rt, alloc, delay, packet, s);
        assert_attrs(&rt, &packet, wanted);
    }
}

#[test]
fn a_chain_of_delay_makes_no_second_packet(rt: HostRuntime) {
    let s = &mut TrialStore::new(rt.alloc(), 0);
    let mut out = Outbox::new(rt.alloc());
    let packet = TrialPacket::fresh(b"abc", s).expect(&rt, "no memory");
    out.put(packet).expect(&rt, "no memory");
    feed_on(&rt, &mut out, delaying(&rt, 1), s);
    feed_on(&rt, &mut out, delaying(&rt, -1), s);
    let mut last = out.next().expect(&rt, "no packet was put out");
    assert_eq!(rt; last.bytes(), b"abc".as_slice());
    assert!(rt; last.dup(s).is_err());
    assert!(rt; out.next().is_none());
    out.end();
}

const INVALID: ControlRefused = ControlRefused::Invalid {
    low: -9_223_372_036_854_775_808,
    high: 9_223_372_036_854_775_807,
};

/// Commands in order, each with its answer.
const COMMANDS: [(Command, Result<Reply, ControlRefused>); 14] = [
    (Command::Get(Opt::By), Ok(Reply::Value(0))),
    (
        Command::Set(Opt::By, 9_223_372_036_854_775_808),
        Err(INVALID),
    ),
    (
        Command::Set(Opt::By, -9_223_372_036_854_775_809),
        Err(INVALID),
    ),
    (Command::Get(Opt::By), Ok(Reply::Value(0))),
    (
        Command::Set(Opt::By, 9_223_372_036_854_775_807),
        Ok(Reply::Done),
    ),
    (
        Command::Get(Opt::By),
        Ok(Reply::Value(9_223_372_036_854_775_807)),
    ),
    (
        Command::Set(Opt::By, -9_223_372_036_854_775_808),
        Ok(Reply::Done),
    ),
    (
        Command::Get(Opt::By),
        Ok(Reply::Value(-9_223_372_036_854_775_808)),
    ),
    (Command::Set(Opt::By, -1), Ok(Reply::Done)),
    (Command::Get(Opt::By), Ok(Reply::Value(-1))),
    (Command::Set(Opt::Low, 1), Err(ControlRefused::Unhandled)),
    (Command::Get(Opt::High), Err(ControlRefused::Unhandled)),
    (Command::Set(Opt::Offset, 1), Err(ControlRefused::Unhandled)),
    (Command::Get(Opt::Sync), Err(ControlRefused::Unhandled)),
];

#[test]
fn the_shift_of_delay_is_set_within_64_bits(rt: HostRuntime) {
    let mut delay = Delay::new();
    for (row, (command, answer)) in COMMANDS.into_iter().enumerate() {
        assert_eq!(rt; asked(&rt, &mut delay, command), answer, "row {row}");
    }
    give_up(delay, &mut VecStore::new(rt.alloc()));
}

#[test]
fn a_shift_beyond_64_bits_refuses_a_trial(rt: HostRuntime) {
    let trial = Trial {
        set: &[(Opt::By, 9_223_372_036_854_775_808)],
        taken: &[b"ab"],
        put: &[],
        sums: NOTHING,
    };
    assert_eq!(rt;
        tried(rt.alloc(), Delay::new(), &trial),
        Err(Untried::Refused(INVALID))
    );
}
