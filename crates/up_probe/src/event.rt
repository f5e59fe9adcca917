ghost use Rattle.std.specs.Prelude.{◌≡◌};

use up_model::EventKind;

/// What a pipe tells of its flow.
#[derive(Clone, Copy, Debug, PartialEq, Eq)]
pub enum Event {
    /// This many packets were dropped.
    Drop { packets: u64 },
    /// This many bytes were cut off.
    Cut { bytes: u64 },
    /// The flow became synchronised.
    SyncGained,
    /// The flow lost its synchronisation.
    SyncLost,
}

impl Event {
    ghost use Rattle.up_probe.specs.Event.{event_kind};

    /// The kind that a probe's set names.
    pub(crate) fn kind(self) -> EventKind
        ensures { result ≡ event_kind self }
    {
        match self {
            Event::Drop { .. } => EventKind::Drop,
            Event::Cut { .. } => EventKind::Cut,
            Event::SyncGained => EventKind::Sync,
            Event::SyncLost => EventKind::Lost,
        }
    }
}
