ghost use Rattle.std.specs.Prelude.{◌≡◌, ◌<◌, ◌≤◌, ℕ, false, length, take, OnOk, OnErr};
ghost use Rattle.std.specs.Io.KnownBytes.{Appends};
ghost use Rattle.up_outside.specs.Counts.{CountsWhere, is_failed};
ghost use Rattle.upipe_run.specs.Filling.{IsSameSink};

use up_base::Refusal;
use up_outside::Sink;

/// Writes a piece out by as many writes as it takes. After a refusal a part of it was written, and no more is tried.
pub fn drain<K: Sink>(sink: &mut K, piece: &[u8]) -> Result<(), Refusal>
    ensures whole { OnOk result
        (Appends (K.state sink.old).written (K.state sink.new).written piece.now) }
    ensures part { OnErr result ((n : ℕ) × (n < length piece.now)
        × Appends (K.state sink.old).written (K.state sink.new).written (take n piece.now)) }
    ensures faults { CountsWhere (is_failed result)
        (K.state sink.old).faults (K.state sink.new).faults }
    ensures same { IsSameSink (K.state sink.old) (K.state sink.new) }
{
    let mut count = 0;
    while count < piece.len() {
        count += sink.write(&piece[count..])?;
    }
    Ok(())
}
