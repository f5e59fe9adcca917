ghost use Rattle.upipe_run.specs.Tells.{TellsEnding, TellsFault, TellsNoMemory};

use crate::drain::drain;
use crate::ending::Ending;
use std::alloc::Global;
use up_base::{NoMemory, Refusal};
use up_outside::Sink;
use up_report::{Fault, OUT_OF_MEMORY, fault_line};

/// Writes the line of want of memory, as far as the sink takes it, and answers its status.
pub fn tell_no_memory<E: Sink>(err: &mut E) -> u8
    ensures { TellsNoMemory (E.state err.old) (E.state err.new) result }
{
    let _ = drain(err, OUT_OF_MEMORY.as_bytes());
    7
}

/// Writes the fault's line, and answers its status. Where memory runs out the status is 7.
pub fn tell<E: Sink>(alloc: Global, err: &mut E, fault: &Fault) -> u8
    ensures { TellsFault (E.state err.old) (E.state err.new) fault.now result }
{
    match fault_line(alloc, fault) {
        Ok(line) => match drain(err, line.as_slice()) {
            Ok(()) => fault.status(),
            Err(Refusal::Failed) => fault.status(),
            Err(Refusal::NoMemory) => 7,
        },
        Err(NoMemory) => tell_no_memory(err),
    }
}

/// Writes what is told of an ending, and answers its status.
pub fn tell_ending<E: Sink>(alloc: Global, err: &mut E, ending: &Ending) -> u8
    ensures { TellsEnding (E.state err.old) (E.state err.new) ending.now result }
{
    match ending {
        Ending::Whole => 0,
        Ending::Faulty(fault) => tell(alloc, err, fault),
        Ending::NoMemory => tell_no_memory(err),
    }
}
