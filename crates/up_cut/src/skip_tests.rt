use crate::Skip;
use std::process::Abort;
use std::test::Fail;
use up_model::{Opt, Tally};
use up_shape::{
    Command, ControlRefused, LocalPacket, Module, Outbox, Reply, Trial, TrialPacket, TrialStore,
    Untried, VecPacket, VecStore, is_bare, tried,
};

const NOTHING: Tally = Tally {
    taken: 0,
    put: 0,
    dropped: 0,
    cut: 0,
    gained: 0,
    lost: 0,
};

const TRIALS: [Trial<'static>; 4] = [
    Trial {
        set: &[(Opt::Offset, 3)],
        taken: &[b"ab", b"abc", b"abcd"],
        put: &[b"", b"d"],
        sums: Tally {
            taken: 3,
            put: 2,
            dropped: 1,
            cut: 8,
            ..NOTHING
        },
    },
    Trial {
        set: &[(Opt::Offset, 2)],
        taken: &[b"abc", b"def", b"g"],
        put: &[b"c", b"f"],
        sums: Tally {
            taken: 3,
            put: 2,
            dropped: 1,
            cut: 5,
            ..NOTHING
        },
    },
    Trial {
        set: &[(Opt::Offset, 5), (Opt::Offset, 1)],
        taken: &[b"ab"],
        put: &[b"b"],
        sums: Tally {
            taken: 1,
            put: 1,
            cut: 1,
            ..NOTHING
        },
    },
    Trial {
        set: &[],
        taken: &[b"ab", b""],
        put: &[b"ab", b""],
        sums: Tally {
            taken: 2,
            put: 2,
            ..NOTHING
        },
    },
];

#[test]
fn skip_drops_short_packets_and_takes_the_first_bytes_of_others(rt: HostRuntime) {
    let alloc = rt.alloc();
    for trial in TRIALS {
        assert!(rt; trial.wanted(alloc).is_ok());
        assert_eq!(rt; tried(alloc, Skip::new(), &trial), trial.wanted(alloc));
    }
}

#[test]
fn a_packet_beyond_the_greatest_is_told_by_its_place(rt: HostRuntime) -> Result<(), Fail> {
    let alloc = rt.alloc();
    let long = vec![in alloc; 7; 1_048_577]?;
    let taken = [b"ab".as_slice(), long.as_slice()];
    let trial = Trial {
        set: &[],
        taken: &taken,
        put: &[],
        sums: NOTHING,
    };
    assert_eq!(rt; tried(alloc, Skip::new(), &trial), Err(Untried::TooLong(1)));
    Ok(())
}

/// All bytes but the last.
fn all_but_last<'a>(rt: &impl Abort, bytes: &'a [u8]) -> &'a [u8] {
    assert!(rt; !bytes.is_empty());
    &bytes[..bytes.len() - 1]
}

#[test]
fn the_greatest_packet_is_cut_to_its_last_byte_and_to_none(rt: HostRuntime) -> Result<(), Fail> {
    let alloc = rt.alloc();
    let greatest = vec![in alloc; 7; 1_048_576]?;
    let taken = [all_but_last(&rt, &greatest), greatest.as_slice()];
    let last_byte = Trial {
        set: &[(Opt::Offset, 1_048_575)],
        taken: &taken,
        put: &[b"", &[7]],
        sums: Tally {
            taken: 2,
            put: 2,
            cut: 2_097_150,
            ..NOTHING
        },
    };
    assert_eq!(rt;
        tried(alloc, Skip::new(), &last_byte),
        last_byte.wanted(alloc)
    );
    let none = Trial {
        set: &[(Opt::Offset, 1_048_576)],
        taken: &taken,
        put: &[b""],
        sums: Tally {
            taken: 2,
            put: 1,
            dropped: 1,
            cut: 2_097_151,
            ..NOTHING
        },
    };
    assert_eq!(rt; tried(alloc, Skip::new(), &none), none.wanted(alloc));
    Ok(())
}

#[test]
fn five_thousand_packets_are_put_out(rt: HostRuntime) {
    let alloc = rt.alloc();
    let taken = [b"ab".as_slice(); 5_000];
    let put = [b"b".as_slice(); 5_000];
    let many = Trial {
        set: &[(Opt::Offset, 1)],
        taken: &taken,
        put: &put,
        sums: Tally {
            taken: 5_000,
            put: 5_000,
            cut: 5_000,
            ..NOTHING
        },
    };
    assert_eq!(rt; tried(alloc, Skip::new(), &many), many.wanted(alloc));
}

/// Asks a module of packets of vectors through the bound. It was fed nothing.
fn asked<M: Module<VecPacket>>(
    rt: &impl Abort,
    m: &mut M,
    command: Command,
) -> Result<Reply, ControlRefused> {
    assert!(rt; m.fresh());
    m.control(command)
}

/// Ends the flow of a module broken, through the bound.
fn give_up<M: Module<VecPacket>>(m: M, s: &mut VecStore)
    requires { M.agrees m tt }
{
    m.give_up(s);
}

const INVALID: ControlRefused = ControlRefused::Invalid {
    low: 0,
    high: 1_048_576,
};

/// Commands in order, each with its answer.
const COMMANDS: [(Command, Result<Reply, ControlRefused>); 10] = [
    (Command::Get(Opt::Offset), Ok(Reply::Value(0))),
    (Command::Set(Opt::Offset, 1_048_577), Err(INVALID)),
    (Command::Set(Opt::Offset, -1), Err(INVALID)),
    (Command::Get(Opt::Offset), Ok(Reply::Value(0))),
    (Command::Set(Opt::Mtu, 1), Err(ControlRefused::Unhandled)),
    (Command::Get(Opt::Sync), Err(ControlRefused::Unhandled)),
    (Command::Set(Opt::Offset, 1_048_576), Ok(Reply::Done)),
    (Command::Get(Opt::Offset), Ok(Reply::Value(1_048_576))),
    (Command::Set(Opt::Offset, 0), Ok(Reply::Done)),
    (Command::Get(Opt::Offset), Ok(Reply::Value(0))),
];

#[test]
fn the_offset_of_skip_is_set_within_its_bounds(rt: HostRuntime) {
    let mut skip = Skip::new();
    for (command, answer) in COMMANDS {
        assert_eq!(rt; asked(&rt, &mut skip, command), answer);
    }
    give_up(skip, &mut VecStore::new(rt.alloc()));
}

#[test]
fn a_trial_is_refused_with_its_option(rt: HostRuntime) {
    let trial = Trial {
        set: &[(Opt::Offset, 1), (Opt::Offset, 1_048_577)],
        taken: &[b"ab"],
        put: &[],
        sums: NOTHING,
    };
    assert_eq!(rt;
        tried(rt.alloc(), Skip::new(), &trial),
        Err(Untried::Refused(INVALID))
    );
}

/// Lets a fresh module take its first byte off the packet that was put out, which is bare.
fn skip_one<M: Module<TrialPacket>>(
    rt: &impl Abort,
    out: &mut Outbox<TrialPacket>,
    mut m: M,
    s: &mut TrialStore,
)
    requires { M.agrees m tt }
{
    assert!(rt; m.fresh());
    assert_eq!(rt; m.control(Command::Set(Opt::Offset, 1)), Ok(Reply::Done));
    let packet = out.next().expect(rt, "no packet was put out");
    assert!(rt; is_bare(&packet));
    assert_eq!(rt; m.feed(packet, out, s), Ok(()));
    assert_eq!(rt; m.finish(out, s), Ok(()));
}

#[test]
fn a_chain_makes_no_second_packet(rt: HostRuntime) {
    let s = &mut TrialStore::new(rt.alloc(), 0);
    let mut out = Outbox::new(rt.alloc());
    let packet = TrialPacket::fresh(b"abcd", s).expect(&rt, "no memory");
    out.put(packet).expect(&rt, "no memory");
    skip_one(&rt, &mut out, Skip::new(), s);
    skip_one(&rt, &mut out, Skip::new(), s);
    let mut last = out.next().expect(&rt, "no packet was put out");
    assert_eq!(rt; last.bytes(), b"cd".as_slice());
    assert!(rt; last.dup(s).is_err());
    assert!(rt; out.next().is_none());
    out.end();
}

/// A value that can cross threads.
fn sent<T: Send>(value: T) -> T {
    value
}

#[test]
fn skip_can_cross_threads(rt: HostRuntime) {
    let out: Outbox<VecPacket> = sent(Outbox::new(rt.alloc()));
    assert_eq!(rt; out.len(), 0);
    out.end();
    let mut skip = sent(Skip::new());
    assert_eq!(rt;
        asked(&rt, &mut skip, Command::Get(Opt::Offset)),
        Ok(Reply::Value(0))
    );
    give_up(skip, &mut VecStore::new(rt.alloc()));
}
