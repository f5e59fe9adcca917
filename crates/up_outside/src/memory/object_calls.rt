ghost use Rattle.std.specs.Prelude.{◌≡◌};
ghost use Rattle.up_outside.specs.Counts.{CountsWhere};
ghost use Rattle.up_outside.specs.Memory.ObjectCalls.{calls_from, next_is_due, counted};

/// The reads, or the writes, of one object in memory: how many there were, which of them fail, and how many failed.
#[derive(Drop)]
pub struct ObjectCalls {
    made: u64,
    failing: Vec<u64>,
    faults: u64,
}

impl ObjectCalls {
    /// No call was made; those with these numbers will fail.
    pub fn new(failing: Vec<u64>) -> ObjectCalls
        ensures { result ≡ calls_from failing }
    {
        ObjectCalls {
            made: 0,
            failing,
            faults: 0,
        }
    }

    /// Whether the next call fails.
    pub fn next_is_due(&self) -> bool
        ensures { result ≡ next_is_due self.now }
    {
        self.failing.contains(&self.made.saturating_add(1))
    }

    /// Counts a call, and its fault where it failed.
    pub fn count(&mut self, failed: bool)
        ensures counted { self.new ≡ counted failed self.old }
        ensures faults { CountsWhere failed self.old.faults self.new.faults }
    {
        self.made = self.made.saturating_add(1);
        if failed {
            self.faults = self.faults.saturating_add(1);
        }
    }

    /// How many calls failed.
    pub fn faults(&self) -> u64
        ensures { result ≡ self.now.faults }
    {
        self.faults
    }
}
