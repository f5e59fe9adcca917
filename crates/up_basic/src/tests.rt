ghost use Rattle.std.specs.Prelude.{◌≤◌, length};
ghost use Rattle.up_model.specs.declared.limits.TheConstants.{MAX_PACKET};

use crate::{DupPipe, Idem, NullPipe};
use std::process::Abort;
use std::test::Fail;
use up_base::ItemList;
use up_model::{Opt, Tally};
use up_shape::{
    Command, ControlRefused, LocalPacket, Module, Outbox, Reply, Trial, TrialPacket, TrialStore,
    VecPacket, VecStore, feed_bytes, is_bare, tried,
};

const THREE: [&[u8]; 3] = [b"ab", b"", b"c"];

const PASSED_ON: Trial<'static> = Trial {
    set: &[],
    taken: &THREE,
    put: &THREE,
    sums: Tally {
        taken: 3,
        put: 3,
        dropped: 0,
        cut: 0,
        gained: 0,
        lost: 0,
    },
};

const DROPPED: Trial<'static> = Trial {
    set: &[],
    taken: &THREE,
    put: &[],
    sums: Tally {
        taken: 3,
        put: 0,
        dropped: 3,
        cut: 3,
        gained: 0,
        lost: 0,
    },
};

#[test]
fn idem_and_dup_pass_on_what_they_take(rt: HostRuntime) {
    let alloc = rt.alloc();
    let wanted = PASSED_ON.wanted(alloc);
    assert!(rt; wanted.is_ok());
    assert_eq!(rt; tried(alloc, Idem::new(), &PASSED_ON), wanted);
    assert_eq!(rt; tried(alloc, DupPipe::new(), &PASSED_ON), wanted);
}

#[test]
fn null_takes_all_and_counts_it(rt: HostRuntime) {
    let alloc = rt.alloc();
    assert!(rt; DROPPED.wanted(alloc).is_ok());
    assert_eq!(rt;
        tried(alloc, NullPipe::new(), &DROPPED),
        DROPPED.wanted(alloc)
    );
}

#[test]
fn the_greatest_packet_is_passed_on_and_dropped(rt: HostRuntime) -> Result<(), Fail> {
    let alloc = rt.alloc();
    let greatest = vec![in alloc; 7; 1_048_576]?;
    let taken = [greatest.as_slice()];
    let passed = Trial {
        set: &[],
        taken: &taken,
        put: &taken,
        sums: Tally {
            taken: 1,
            put: 1,
            ..Tally::default()
        },
    };
    let wanted = passed.wanted(alloc);
    assert_eq!(rt; tried(alloc, Idem::new(), &passed), wanted);
    assert_eq!(rt; tried(alloc, DupPipe::new(), &passed), wanted);
    let dropped = Trial {
        set: &[],
        taken: &taken,
        put: &[],
        sums: Tally {
            taken: 1,
            dropped: 1,
            cut: 1_048_576,
            ..Tally::default()
        },
    };
    assert_eq!(rt;
        tried(alloc, NullPipe::new(), &dropped),
        dropped.wanted(alloc)
    );
    Ok(())
}

#[test]
fn five_thousand_packets_are_put_out(rt: HostRuntime) {
    let alloc = rt.alloc();
    let taken = [b"ab".as_slice(); 5_000];
    let many = Trial {
        set: &[],
        taken: &taken,
        put: &taken,
        sums: Tally {
            taken: 5_000,
            put: 5_000,
            ..Tally::default()
        },
    };
    assert_eq!(rt; tried(alloc, Idem::new(), &many), many.wanted(alloc));
}

/// Asks a module for the value of an option, and gives it up.
fn asked<M: Module<VecPacket>>(
    mut m: M,
    option: Opt,
    s: &mut VecStore,
) -> Result<Reply, ControlRefused>
    requires { M.agrees m tt }
{
    let answer = m.control(Command::Get(option));
    m.give_up(s);
    answer
}

const OPTIONS: [Opt; 7] = [
    Opt::Mtu,
    Opt::Align,
    Opt::Offset,
    Opt::Low,
    Opt::High,
    Opt::By,
    Opt::Sync,
];

#[test]
fn none_has_an_option(rt: HostRuntime) {
    let s = &mut VecStore::new(rt.alloc());
    for option in OPTIONS {
        assert_eq!(rt;
            asked(Idem::new(), option, s),
            Err(ControlRefused::Unhandled)
        );
        assert_eq!(rt;
            asked(DupPipe::new(), option, s),
            Err(ControlRefused::Unhandled)
        );
        assert_eq!(rt;
            asked(NullPipe::new(), option, s),
            Err(ControlRefused::Unhandled)
        );
    }
}

/// Feeds a module the packet that was put out, which is bare, and ends its flow.
fn feed_on<M: Module<TrialPacket>>(
    rt: &impl Abort,
    out: &mut Outbox<TrialPacket>,
    mut m: M,
    s: &mut TrialStore,
)
    requires { M.agrees m tt }
{
    let packet = out.next().expect(rt, "no packet was put out");
    assert!(rt; is_bare(&packet));
    assert_eq!(rt; m.feed(packet, out, s), Ok(()));
    assert_eq!(rt; m.finish(out, s), Ok(()));
}

#[test]
fn a_chain_makes_no_second_packet(rt: HostRuntime) {
    let s = &mut TrialStore::new(rt.alloc(), 0);
    let mut out = Outbox::new(rt.alloc());
    let packet = TrialPacket::fresh(b"abc", s).expect(&rt, "no memory");
    out.put(packet).expect(&rt, "no memory");
    feed_on(&rt, &mut out, DupPipe::new(), s);
    feed_on(&rt, &mut out, Idem::new(), s);
    feed_on(&rt, &mut out, Idem::new(), s);
    let mut last = out.next().expect(&rt, "no packet was put out");
    assert_eq!(rt; last.bytes(), b"abc".as_slice());
    assert!(rt; last.dup(s).is_err());
    assert!(rt; out.next().is_none());
    out.end();
}

/// A value that can cross threads.
fn sent<T: Send>(value: T) -> T {
    value
}

/// Feeds a module one packet of these bytes, and ends its flow.
fn feed_one<M: Module<VecPacket>>(
    rt: &impl Abort,
    mut m: M,
    bytes: &[u8],
    out: &mut Outbox<VecPacket>,
    s: &mut VecStore,
)
    requires size { length bytes.now ≤ MAX_PACKET }
    requires family { M.agrees m tt }
{
    assert_eq!(rt; feed_bytes(&mut m, bytes, out, s), Ok(()));
    assert_eq!(rt; m.finish(out, s), Ok(()));
}

/// Gives up the last packet, and the outbox.
fn give_up_last(rt: &impl Abort, mut out: Outbox<VecPacket>) {
    assert!(rt; out.next().is_some());
    assert!(rt; out.next().is_none());
    out.end();
}

#[test]
fn modules_outboxes_and_lists_can_cross_threads(rt: HostRuntime) {
    let s = &mut sent(VecStore::new(rt.alloc()));
    let mut out: Outbox<VecPacket> = sent(Outbox::new(rt.alloc()));
    feed_one(&rt, sent(Idem::new()), b"ab", &mut out, s);
    feed_one(&rt, sent(DupPipe::new()), b"cd", &mut out, s);
    feed_one(&rt, sent(NullPipe::new()), b"ef", &mut out, s);
    let mut list: ItemList<VecPacket> = sent(ItemList::new(rt.alloc()));
    let packet = out.next().expect(&rt, "no packet was put out");
    list.push(packet).expect(&rt, "no memory");
    assert_eq!(rt; list.at(0).bytes(), b"ab".as_slice());
    assert_eq!(rt; out.len(), 1);
    give_up_last(&rt, out);
}
