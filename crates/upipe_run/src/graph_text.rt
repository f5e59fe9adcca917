ghost use Rattle.std.specs.Prelude.{◌≡◌, ◌≤◌, length, take, IfOk, IfSome};
ghost use Rattle.up_outside.specs.Counts.{is_failed};
ghost use Rattle.up_outside.specs.DepotCalls.{CountsFaults};
ghost use Rattle.up_outside.specs.Told.{Then};
ghost use Rattle.up_outside.specs.declared.asked.Side.TheVariants.{Source as OfSource};
ghost use Rattle.upipe_run.specs.GraphText.{IsStartAt, AsksText};

use crate::fill::{Stop, fill};
use std::alloc::Global;
use up_base::Refusal;
use up_outside::Depot;

/// Fills a room with the first bytes at a path, and says how many they are. The source is closed, whatever happens.
fn read_start<D: Depot>(path: &str, depot: &mut D, room: &mut [u8]) -> Result<usize, Refusal>
    ensures fits { IfOk result (λ count. count ≤ length room.new) }
    ensures read { IfOk result (λ count. IfSome (D.state depot.old).held
        (IsStartAt path.now (length room.old) (take count room.new))) }
    ensures held { (D.state depot.new).held ≡ (D.state depot.old).held }
    ensures asked { Then (AsksText path.now (length room.old) result)
        (D.state depot.old).asked (D.state depot.new).asked }
    ensures counts { CountsFaults (D.state depot.old) (D.state depot.new) OfSource
        (is_failed result) }
{
    let mut source = match depot.open_source(path) {
        Ok(source) => source,
        Err(refusal) => return Err(refusal),
    };
    let filled = fill(&mut source, room);
    depot.close_source(source);
    match filled.stop {
        Stop::Fault => Err(Refusal::Failed),
        Stop::Full => Ok(filled.count),
        Stop::End => Ok(filled.count),
    }
}

/// Reads the first bytes at a path, at most so many.
pub fn read_text<D: Depot>(
    alloc: Global,
    path: &str,
    most: usize,
    depot: &mut D,
) -> Result<Vec<u8>, Refusal>
    ensures read { IfOk result (λ text. IfSome (D.state depot.old).held
        (IsStartAt path.now most text.items)) }
    ensures held { (D.state depot.new).held ≡ (D.state depot.old).held }
    ensures asked { Then (AsksText path.now most result)
        (D.state depot.old).asked (D.state depot.new).asked }
    ensures counts { CountsFaults (D.state depot.old) (D.state depot.new) OfSource
        (is_failed result) }
{
    let Ok(mut text) = vec![in alloc; 0u8; most] else {
        return Err(Refusal::NoMemory);
    };
    match read_start(path, depot, &mut text) {
        Ok(count) => {
            text.truncate(count);
            Ok(text)
        }
        Err(refusal) => Err(refusal),
    }
}
