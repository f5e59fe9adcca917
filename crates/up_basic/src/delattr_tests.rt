use crate::DelAttr;
use crate::attr_packets::{NOTHING, OPTIONS, asked, feed_on, give_up, packet_of, passed};
use std::test::Fail;
use up_base::AttrName;
use up_model::{Tally, ValueView};
use up_shape::{
    Command, ControlRefused, LocalPacket, Outbox, Trial, TrialPacket, TrialStore, VecStore, tried,
};

const TRIALS: [Trial<'static>; 2] = [
    Trial {
        set: &[],
        taken: &[],
        put: &[],
        sums: NOTHING,
    },
    Trial {
        set: &[],
        taken: &[b"ab", b"", b"key"],
        put: &[b"ab", b"", b"key"],
        sums: Tally {
            taken: 3,
            put: 3,
            ..NOTHING
        },
    },
];

#[test]
fn delattr_leaves_the_bytes_of_packets(rt: HostRuntime) -> Result<(), Fail> {
    let alloc = rt.alloc();
    let key = AttrName::read(b"key")?;
    for trial in TRIALS {
        assert!(rt; trial.wanted(alloc).is_ok());
        assert_eq!(rt;
            tried(alloc, DelAttr::new(key), &trial),
            trial.wanted(alloc)
        );
    }
    Ok(())
}

#[test]
fn the_greatest_packet_goes_on(rt: HostRuntime) -> Result<(), Fail> {
    let alloc = rt.alloc();
    let greatest = vec![in alloc; 7; 1_048_576]?;
    let taken = [greatest.as_slice()];
    let whole = Trial {
        set: &[],
        taken: &taken,
        put: &taken,
        sums: Tally {
            taken: 1,
            put: 1,
            ..NOTHING
        },
    };
    let key = AttrName::read(b"key")?;
    assert_eq!(rt;
        tried(alloc, DelAttr::new(key), &whole),
        whole.wanted(alloc)
    );
    Ok(())
}

#[test]
fn five_thousand_packets_go_on(rt: HostRuntime) -> Result<(), Fail> {
    let alloc = rt.alloc();
    let taken = [b"ab".as_slice(); 5_000];
    let many = Trial {
        set: &[],
        taken: &taken,
        put: &taken,
        sums: Tally {
            taken: 5_000,
            put: 5_000,
            ..NOTHING
        },
    };
    let key = AttrName::read(b"key")?;
    assert_eq!(rt; tried(alloc, DelAttr::new(key), &many), many.wanted(alloc));
    Ok(())
}

/// The name of most bytes.
const LONGEST: &str = "nnnnnnnnnnnnnnnnnnnnnnnnnnnnnnnnnnnnnnnnnnnnnnnnnnnnnnnnnnnnnnnn";

/// The name of a packet's flag, the name that is taken away, and whether the flag stays.
const NAMES: [(&str, &str, bool); 6] = [
    ("key", "key", false),
    (LONGEST, LONGEST, false),
    ("key", "ke", true),
    ("key", "keys", true),
    ("key", "Key", true),
    (LONGEST, "n", true),
];

#[test]
fn delattr_takes_the_attribute_of_its_name_alone(rt: HostRuntime) -> Result<(), Fail> {
    let alloc = rt.alloc();
    let s = &mut VecStore::new(alloc);
    for (has, name, stays) in NAMES {
        let flag = AttrName::read(has.as_bytes())?;
        let gone = AttrName::read(name.as_bytes())?;
        let packet = packet_of(&rt, alloc, &[(has, ValueView::Flag(true))], s);
        let packet = passed(&rt, alloc, DelAttr::new(gone), packet, s);
        assert_eq!(rt; packet.bytes(), b"abc".as_slice());
        assert_eq!(rt; packet.attr_count() == 1, stays);
        assert_eq!(rt;
            matches!(packet.value(&flag), Some(ValueView::Flag(true))),
            stays
        );
    }
    Ok(())
}

#[test]
fn a_chain_of_delattr_makes_no_second_packet(rt: HostRuntime) -> Result<(), Fail> {
    let s = &mut TrialStore::new(rt.alloc(), 0);
    let key = AttrName::read(b"key")?;
    let mut out = Outbox::new(rt.alloc());
    let packet = TrialPacket::fresh(b"abc", s).expect(&rt, "no memory");
    out.put(packet).expect(&rt, "no memory");
    feed_on(&rt, &mut out, DelAttr::new(key), s);
    feed_on(&rt, &mut out, DelAttr::new(key), s);
    let mut last = out.next().expect(&rt, "no packet was put out");
    assert_eq!(rt; last.bytes(), b"abc".as_slice());
    assert!(rt; last.dup(s).is_err());
    assert!(rt; out.next().is_none());
    out.end();
    Ok(())
}

#[test]
fn delattr_has_no_option(rt: HostRuntime) -> Result<(), Fail> {
    let key = AttrName::read(b"key")?;
    let mut del = DelAttr::new(key);
    for option in OPTIONS {
        for command in [Command::Get(option), Command::Set(option, 0)] {
            assert_eq!(rt;
                asked(&rt, &mut del, command),
                Err(ControlRefused::Unhandled)
            );
        }
    }
    give_up(del, &mut VecStore::new(rt.alloc()));
    Ok(())
}
