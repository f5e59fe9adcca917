ghost use Rattle.std.specs.Prelude.{◌≡◌, ◌<◌, ◌≤◌, length, is_some, IfOk};
ghost use Rattle.up_outside.specs.States.{SinkState};
ghost use Rattle.up_outside.specs.Moves.{Writes};

use up_base::Refusal;

/// Where bytes go. A sink may tell what it was given, as one in memory does; a file tells nothing.
pub trait Sink {
    /// What was written, where its entry stands, and what its writes did.
    ghost state: { Self → SinkState };

    /// Takes one byte or more from the front of the piece and says how many. After a refusal what was written is as
    /// before.
    fn write(&mut self, piece: &[u8]) -> Result<usize, Refusal>
        requires { 0 < length piece.now }
        ensures bound { IfOk result (λ n. (0 < n) × (n ≤ length piece.now)) }
        ensures writes { Writes (state self.old) (state self.new) piece.now result };

    /// Who tells its place tells what it moved, and the other way round.
    ghost together: { (k : Self) → is_some (state k).moved ≡ is_some (state k).place };
}
