ghost use Rattle.std.specs.Prelude.{None, refl};

use crate::run;
use crate::tell::{tell, tell_no_memory};
use std::test::Fail;
use up_base::{Refusal, Text, WordList};
use up_outside::{MemDepot, MemSink, Sink, WriterSink};
use up_report::Fault;

/// A sink that takes so many bytes, and then finds no memory. It tells nothing of them.
#[derive(Drop)]
struct ShortSink {
    room: usize,
}

impl Sink for ShortSink {
    ghost state = { λ _. record { written = None; place = None; moved = None; faults = 0 } };

    fn write(&mut self, piece: &[u8]) -> Result<usize, Refusal> {
        let count = piece.len().min(self.room);
        if count == 0 {
            return Err(Refusal::NoMemory);
        }
        self.room -= count;
        Ok(count)
    }

    ghost together = { λ _. refl };
}

#[test]
fn a_fault_is_told_and_its_status_answered(rt: HostRuntime) -> Result<(), Fail> {
    let alloc = rt.alloc();
    let mut err = MemSink::new(alloc);
    assert_eq!(rt; tell(alloc, &mut err, &Fault::ReadGraph), 4);
    assert_eq!(rt; tell_no_memory(&mut err), 7);
    assert_eq!(rt;
        err.bytes(),
        b"upipe: read fault: graph\nupipe: out of memory\n".as_slice()
    );
    Ok(())
}

#[test]
fn a_sink_that_fails_changes_no_status(rt: HostRuntime) -> Result<(), Fail> {
    let mut room = [0; 6];
    let mut err = WriterSink::new(room.as_mut_slice());
    assert_eq!(rt; tell(rt.alloc(), &mut err, &Fault::Usage), 2);
    assert_eq!(rt; err.faults(), 1);
    assert_eq!(rt; room.as_slice(), b"usage:".as_slice());
    Ok(())
}

#[test]
fn a_line_in_which_memory_runs_out_is_answered_by_7(rt: HostRuntime) -> Result<(), Fail> {
    let alloc = rt.alloc();
    for room in [0, 5] {
        let mut err = ShortSink { room };
        let mut words = WordList::new(alloc);
        words.push(Text::from_str(alloc, "walk")?)?;
        let mut depot = MemDepot::new(alloc);
        let mut out = MemSink::new(alloc);
        assert_eq!(rt; run(&rt, alloc, &words, &mut depot, &mut out, &mut err), 7);
        assert_eq!(rt; err.room, 0);
        assert!(rt; out.bytes().is_empty());
        assert!(rt; depot.asked().is_empty());
    }
    Ok(())
}
