ghost use Rattle.std.specs.Prelude.{◌≡◌};

use crate::CatchSet;

/// What a pipe did over a run, in six sums, each of which stops at 2^64 - 1.
#[derive(Clone, Copy, Debug, Default, PartialEq, Eq)]
pub struct Tally {
    /// Packets that it took.
    pub taken: u64,
    /// Packets that it put out, each counted once however many pipes take it.
    pub put: u64,
    /// Packets that it took and dropped.
    pub dropped: u64,
    /// Bytes that it took and didn't put out.
    pub cut: u64,
    /// How often it became synchronised.
    pub gained: u64,
    /// How often it lost its synchronisation.
    pub lost: u64,
}

impl Tally {
    ghost use Rattle.up_model.specs.Tallies.{added, of_passed, of_dropped, uncaught};

    /// That of one packet that was taken and put out, less so many bytes.
    pub fn of_passed(cut: u64) -> Tally
        ensures { result ≡ of_passed cut }
    {
        Tally {
            taken: 1,
            put: 1,
            dropped: 0,
            cut,
            gained: 0,
            lost: 0,
        }
    }

    /// That of one packet of so many bytes that was taken and dropped.
    pub fn of_dropped(bytes: u64) -> Tally
        ensures { result ≡ of_dropped bytes }
    {
        Tally {
            taken: 1,
            put: 0,
            dropped: 1,
            cut: bytes,
            gained: 0,
            lost: 0,
        }
    }

    /// These sums and more, each of which stops at 2^64 - 1.
    pub fn added(self, more: Tally) -> Tally
        ensures { result ≡ added self more }
    {
        Tally {
            taken: self.taken.saturating_add(more.taken),
            put: self.put.saturating_add(more.put),
            dropped: self.dropped.saturating_add(more.dropped),
            cut: self.cut.saturating_add(more.cut),
            gained: self.gained.saturating_add(more.gained),
            lost: self.lost.saturating_add(more.lost),
        }
    }

    /// These sums without those whose kind of event is caught, which are 0.
    pub fn uncaught(self, caught: CatchSet) -> Tally
        ensures { result ≡ uncaught caught self }
    {
        Tally {
            dropped: if caught.drop { 0 } else { self.dropped },
            cut: if caught.cut { 0 } else { self.cut },
            gained: if caught.sync { 0 } else { self.gained },
            lost: if caught.lost { 0 } else { self.lost },
            ..self
        }
    }
}
