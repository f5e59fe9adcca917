ghost use Rattle.std.specs.Prelude.{◌≡◌};
ghost use Rattle.up_strand.specs.Strands.{StandsForSome, StrandFits, want_of};
ghost use Rattle.up_strand.specs.declared.want.Want.TheVariants as wants;

use up_outside::{Sink, Source};
use up_shape::LocalPacket;
use up_strand::{Strand, Want};

/// The strand reads on.
fn read_on<P: LocalPacket, S: Source, K: Sink>(strand: &mut Strand<P, S, K>, s: &mut P::Store)
    requires stands { StandsForSome P.plain S.state K.state strand.old }
    requires want { want_of strand.old ≡ wants.Read }
    requires family { StrandFits strand.old P.fits (P.Store.state s.old).family }
    ensures stands { StandsForSome P.plain S.state K.state strand.new }
    ensures family { StrandFits strand.new P.fits (P.Store.state s.new).family }
{
    strand.step_read(s);
}

/// Reads as long as that is what the strand wants, and says what it wants then.
pub(crate) fn run<P: LocalPacket, S: Source, K: Sink>(
    strand: &mut Strand<P, S, K>,
    s: &mut P::Store,
) -> Want
    requires stands { StandsForSome P.plain S.state K.state strand.old }
    requires family { StrandFits strand.old P.fits (P.Store.state s.old).family }
    ensures want { result ≡ want_of strand.new }
    ensures stands { StandsForSome P.plain S.state K.state strand.new }
    ensures family { StrandFits strand.new P.fits (P.Store.state s.new).family }
{
    for _ in 0..u64::MAX {
        match strand.wants() {
            Want::Read => read_on(strand, s),
            other => return other,
        }
    }
    strand.wants()
}
