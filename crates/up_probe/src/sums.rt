ghost use Rattle.std.specs.Prelude.{◌≡◌};
ghost use Rattle.up_probe.specs.Event.{with_event};

use crate::Event;
use up_model::Tally;

/// Adds the event to the sum of its kind.
pub fn add(tally: &mut Tally, event: Event)
    ensures { tally.new ≡ with_event event tally.old }
{
    match event {
        Event::Drop { packets } => tally.dropped = tally.dropped.saturating_add(packets),
        Event::Cut { bytes } => tally.cut = tally.cut.saturating_add(bytes),
        Event::SyncGained => tally.gained = tally.gained.saturating_add(1),
        Event::SyncLost => tally.lost = tally.lost.saturating_add(1),
    }
}
