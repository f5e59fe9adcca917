use crate::{ControlRefused, Outbox};
use std::process::Abort;
use std::test::Fail;
use up_model::Tally;

/// Gives up an outbox from which all was taken.
fn end(rt: &impl Abort, mut out: Outbox<u8>) {
    match out.next() {
        None => out.end(),
        Some(_) => panic!(rt; "a packet is left"),
    }
}

#[test]
fn packets_come_out_in_the_order_in_which_they_were_put(rt: HostRuntime) {
    let mut out = Outbox::new(rt.alloc());
    out.put(5).expect(&rt, "no memory");
    out.put(6).expect(&rt, "no memory");
    assert_eq!(rt; out.len(), 2);
    assert_eq!(rt; out.next(), Some(5));
    out.put(7).expect(&rt, "no memory");
    assert_eq!(rt; out.len(), 2);
    assert_eq!(rt; [out.next(), out.next()], [Some(6), Some(7)]);
    end(&rt, out);
}

#[test]
fn sums_are_added_and_stop_at_their_limit(rt: HostRuntime) {
    let mut out = Outbox::new(rt.alloc());
    out.add_tally(Tally::of_passed(3));
    out.add_tally(Tally::of_dropped(188));
    out.put(5).expect(&rt, "no memory");
    assert_eq!(rt; out.next(), Some(5));
    let sums = Tally {
        taken: 2,
        put: 1,
        dropped: 1,
        cut: 191,
        gained: 0,
        lost: 0,
    };
    assert_eq!(rt; out.tally(), sums);
    out.add_tally(Tally::of_dropped(u64::MAX));
    assert_eq!(rt; out.tally().cut, u64::MAX);
    assert_eq!(rt; out.tally().taken, 3);
    out.clear_tally();
    assert_eq!(rt; out.tally(), Tally::default());
    end(&rt, out);
}

#[test]
fn a_refused_command_tells_why(rt: HostRuntime) -> Result<(), Fail> {
    let alloc = rt.alloc();
    let texts = [
        (ControlRefused::Unhandled, "the kind has no such option"),
        (
            ControlRefused::Invalid { low: 1, high: 64 },
            "the value isn't from 1 to 64",
        ),
        (
            ControlRefused::Invalid {
                low: -2,
                high: i128::MAX,
            },
            "the value isn't from -2 to 170141183460469231731687303715884105727",
        ),
    ];
    for (refused, wanted) in texts {
        let text = refused.to_string(alloc)?;
        assert_eq!(rt; text.as_str(), wanted);
    }
    Ok(())
}
