ghost use Rattle.std.specs.Prelude.{◌≡◌, [], ◌∷◌, is_ok};
ghost use Rattle.up_model.specs.Ends.{written_by};
ghost use Rattle.up_model.specs.Packet.{IsLegal};
ghost use Rattle.up_outside.specs.Counts.{CountsOnce, is_failed};
ghost use Rattle.up_strand.specs.Spellings.{form_of};
ghost use Rattle.up_strand.specs.Writing.{Receives};

use crate::spelling::Spelling;
use up_base::{NoMemory, Refusal};
use up_frame::write_frame;
use up_outside::Sink;
use up_shape::LocalPacket;

/// Writes a piece by as many writes as it takes. After a refusal a prefix of it was written.
#[tactic(auto, using(crate::proofs::Writes::receives_none))]
fn drain<K: Sink>(sink: &mut K, piece: &[u8]) -> Result<(), Refusal>
    ensures bytes { Receives (K.state sink.old) (K.state sink.new) (is_ok result) piece.now }
    ensures faults { CountsOnce (is_failed result)
        (K.state sink.old).faults (K.state sink.new).faults }
{
    let mut count = 0;
    while count < piece.len() {
        match sink.write(&piece[count..]) {
            Ok(more) => count += more,
            Err(refusal) => return Err(refusal),
        }
    }
    Ok(())
}

/// Writes the bytes of a packet from where they lie, a run at a time. After a refusal a prefix of
/// them was written.
fn write_runs<P: LocalPacket, K: Sink>(p: &P, sink: &mut K) -> Result<(), Refusal>
    ensures bytes { Receives (K.state sink.old) (K.state sink.new)
        (is_ok result) (P.plain p.now).bytes }
    ensures faults { CountsOnce (is_failed result)
        (K.state sink.old).faults (K.state sink.new).faults }
{
    let size = p.size();
    let mut at = 0;
    while at < size {
        let run = p.bytes_at(at);
        match drain(sink, run) {
            Ok(()) => at += run.len() as u32,
            Err(refusal) => return Err(refusal),
        }
    }
    Ok(())
}

/// Writes a packet as the sink spells it. After a refusal a prefix of that was written: nothing,
/// where there was no memory to spell it.
pub fn write_packet<P: LocalPacket, K: Sink>(
    p: &P,
    sink: &mut K,
    spelling: &mut Spelling,
) -> Result<(), Refusal>
    requires legal { IsLegal (P.plain p.now) }
    ensures bytes { Receives (K.state sink.old) (K.state sink.new) (is_ok result)
        (written_by (form_of spelling.old) (P.plain p.now ∷ [])) }
    ensures form { form_of spelling.new ≡ form_of spelling.old }
    ensures faults { CountsOnce (is_failed result)
        (K.state sink.old).faults (K.state sink.new).faults }
{
    match spelling {
        Spelling::Raw => write_runs(p, sink),
        Spelling::Framed { frame } => {
            frame.clear();
            match write_frame(p, frame) {
                Ok(()) => drain(sink, frame.as_slice()),
                Err(NoMemory) => Err(Refusal::NoMemory),
            }
        }
    }
}
