ghost use Rattle.std.specs.Prelude.{◌≡◌, IfOk};
ghost use Rattle.up_model.specs.Kinds.{IsWithinBounds, work_of, settled_work};
ghost use Rattle.up_model.specs.Packet.{Flow, IsLegal};
ghost use Rattle.up_model.specs.Packetwise.{Step, IfPasses, work_by};
ghost use Rattle.up_model.specs.declared.kind.Kind.{Kind};
ghost use Rattle.up_shape.specs.Control.{answer_to, kind_after};
ghost use Rattle.up_shape.specs.Passing.{plain_verdict};
ghost use Rattle.up_shape.specs.Stores.{Stays};

use crate::{Command, ControlRefused, LocalPacket, Reply};
use up_base::NoMemory;
use up_model::Verdict;

/// The options of a kind, as they stand.
pub trait Options: Sized + Drop {
    /// The kind, with its options.
    ghost kind: { Self → Kind };

    /// Reads or sets an option.
    fn control(&mut self, c: Command) -> Result<Reply, ControlRefused>
        ensures answer { result ≡ answer_to (kind self.old) c }
        ensures kind { kind self.new ≡ kind_after (kind self.old) c };

    /// It is within its bounds.
    ghost within: { (k : Self) → IsWithinBounds (kind k) };
}

/// The options of a kind that is made of these fields.
pub trait Made<Fields>: Options {
    /// The kind before an option is set.
    ghost first: { Fields → Kind };

    /// The options before one is set.
    fn made(fields: Fields) -> Self
        requires { IsWithinBounds (first fields) }
        ensures { Self.kind result ≡ first fields };
}

/// What a kind does to one packet, where it looks at each by itself.
pub trait PacketStep<P: LocalPacket>: Options {
    /// What becomes of a packet.
    ghost step: { Self → Step };

    /// Lets a packet pass, or drops it and gives it up.
    fn pass(&self, p: P, s: &mut P::Store) -> Result<Verdict<P>, NoMemory>
        requires legal { IsLegal (P.plain p) }
        requires family { P.fits p (P.Store.state s.old).family }
        ensures passed { IfOk result (λ r. plain_verdict P.plain r ≡ step self.now (P.plain p)) }
        ensures family { IfOk result
            (λ r. IfPasses r (λ q. P.fits q (P.Store.state s.old).family)) }
        ensures store { Stays (P.Store.state s.old) (P.Store.state s.new) };

    /// What its kind settles is the work of the step.
    ghost settles: { (k : Self) (taken : Flow)
        → settled_work (Self.kind k) taken ≡ work_by (step k) taken };

    /// It owes nothing at the end.
    ghost owes_nothing: { (k : Self) (taken : Flow)
        → work_of (Self.kind k) taken ≡ work_by (step k) taken };
}
