ghost use Rattle.std.specs.Prelude.{◌≡◌, position};
ghost use Rattle.up_probe.specs.Event.{catches};

use up_model::{CatchSet, EventKind};

/// Whether the set has the kind.
fn catches(set: &CatchSet, kind: EventKind) -> bool
    ensures { result ≡ catches kind set.now }
{
    match kind {
        EventKind::Drop => set.drop,
        EventKind::Cut => set.cut,
        EventKind::Sync => set.sync,
        EventKind::Lost => set.lost,
    }
}

/// The nearest probe whose set has the kind.
pub fn catching_probe(sets: &[CatchSet], kind: EventKind) -> Option<usize>
    ensures { result ≡ position (catches kind) sets.now }
{
    sets.iter().position(|set| catches(set, kind))
}
