ghost use Rattle.std.specs.Prelude.{◌≡◌, ◌<◌, length};

use crate::{Loop, TooManyBlockers};
use std::test::Fail;

#[test]
fn a_pump_has_its_turn_where_it_is_ready_and_unblocked(rt: HostRuntime) -> Result<(), Fail> {
    let mut pumps = Loop::new(rt.alloc(), 2)?;
    assert_eq!(rt; pumps.next(), None);
    pumps.ready(1);
    assert_eq!(rt; pumps.next(), Some(1));
    assert_eq!(rt; pumps.block(1), Ok(()));
    assert_eq!(rt; pumps.blockers(1), 1);
    assert_eq!(rt; pumps.next(), None);
    pumps.unblock(1);
    assert_eq!(rt; pumps.blockers(1), 0);
    assert_eq!(rt; pumps.next(), Some(1));
    pumps.rest(1);
    assert_eq!(rt; pumps.next(), None);
    Ok(())
}

#[test]
fn an_empty_loop_gives_no_pump(rt: HostRuntime) -> Result<(), Fail> {
    assert_eq!(rt; Loop::new(rt.alloc(), 0)?.next(), None);
    Ok(())
}

/// Makes a pump of a new loop ready, and blocks it, where this says so.
fn set(pumps: &mut Loop, i: usize, ready: bool, blocked: bool)
    requires { i < length pumps.old.pumps }
    ensures { length pumps.new.pumps ≡ length pumps.old.pumps }
{
    if ready {
        pumps.ready(i);
    }
    if blocked {
        let _ = pumps.block(i);
    }
}

// For each of three pumps whether it is ready, and which is blocked; then what six calls give.
#[test]
fn turns_go_round_the_circle(rt: HostRuntime) -> Result<(), Fail> {
    let circles = [
        ([false, false, false], [false, false, false], [None; 6]),
        (
            [true, true, true],
            [false, false, false],
            [0, 1, 2, 0, 1, 2].map(Some),
        ),
        (
            [true, false, true],
            [false, false, false],
            [0, 2, 0, 2, 0, 2].map(Some),
        ),
        (
            [false, true, true],
            [false, false, false],
            [1, 2, 1, 2, 1, 2].map(Some),
        ),
        (
            [false, false, true],
            [false, false, false],
            [2; 6].map(Some),
        ),
        (
            [true, true, true],
            [false, true, false],
            [0, 2, 0, 2, 0, 2].map(Some),
        ),
        ([true, true, false], [true, false, true], [1; 6].map(Some)),
        ([true, true, true], [true, true, true], [None; 6]),
    ];
    for (ready, blocked, turns) in circles {
        let mut pumps = Loop::new(rt.alloc(), 3)?;
        set(&mut pumps, 0, ready[0], blocked[0]);
        set(&mut pumps, 1, ready[1], blocked[1]);
        set(&mut pumps, 2, ready[2], blocked[2]);
        for turn in turns {
            assert_eq!(rt; pumps.next(), turn, "{ready:?} {blocked:?}");
        }
    }
    Ok(())
}

#[test]
fn too_many_blockers_says_how_many_there_are(rt: HostRuntime) -> Result<(), Fail> {
    assert_eq!(rt;
        TooManyBlockers.to_string(rt.alloc())?.as_str(),
        "a pump has 4294967295 blockers, and no more can be counted"
    );
    Ok(())
}
