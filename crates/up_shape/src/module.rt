ghost use Rattle.std.specs.Prelude.{◌≡◌, ◌↔◌, ◌∷◌, ◌++◌, [], All, IsTrue, OnOk, OnErr};
ghost use Rattle.up_model.specs.Kinds.{IsWithinBounds, work_of, settled_work};
ghost use Rattle.up_model.specs.Packet.{Flow, IsLegal};
ghost use Rattle.up_model.specs.declared.kind.Kind.{Kind};
ghost use Rattle.up_shape.specs.Control.{answer_to, kind_after, Sets};
ghost use Rattle.up_shape.specs.Growth.{AreOf, Grew, GrewInPart};
ghost use Rattle.up_shape.specs.Stores.{Stays};

use crate::{Command, ControlRefused, LocalPacket, Outbox, Reply};
use up_base::NoMemory;

/// What a kind of pipe does with a flow, fed a packet at a time. It keeps no list of what it was fed: contracts speak of
/// every flow for which it may stand.
pub trait Module<P: LocalPacket>: Sized {
    /// The kind, with its options.
    ghost kind: { Self → Kind };

    /// It was fed this flow.
    ghost stands: { Self → Flow → Type 0 };

    /// What it holds is of this family.
    ghost agrees: { Self → P.Store.Family → Type 0 };

    /// Takes the next packet. What it puts out and counts is what is settled now and wasn't before. After `NoMemory` the
    /// packet is given up, and only `give_up` may follow.
    fn feed(&mut self, p: P, out: &mut Outbox<P>, s: &mut P::Store) -> Result<(), NoMemory>
        requires legal { IsLegal (P.plain p) }
        requires packet { P.fits p (P.Store.state s.old).family }
        requires family { AreOf P.fits (agrees self.old)
            out.old.packets (P.Store.state s.old).family }
        ensures stands { (fed : Flow) → stands self.old fed
            → OnOk result (stands self.new (fed ++ P.plain p ∷ [])) }
        ensures grew { (fed : Flow) → stands self.old fed
            → OnOk result (Grew P.plain out.old out.new
            (settled_work (kind self.old) fed)
            (settled_work (kind self.old) (fed ++ P.plain p ∷ []))) }
        ensures in_part { (fed : Flow) → stands self.old fed
            → OnErr result (GrewInPart P.plain out.old out.new
            (settled_work (kind self.old) fed)
            (settled_work (kind self.old) (fed ++ P.plain p ∷ []))) }
        ensures used { stands self.new [] → ⊥ }
        ensures kind { kind self.new ≡ kind self.old }
        ensures family { AreOf P.fits (agrees self.new)
            out.new.packets (P.Store.state s.old).family }
        ensures store { Stays (P.Store.state s.old) (P.Store.state s.new) };

    /// The whole end of the flow: puts out what is owed, and gives up all else.
    fn finish(self, out: &mut Outbox<P>, s: &mut P::Store) -> Result<(), NoMemory>
        requires family { AreOf P.fits (agrees self) out.old.packets (P.Store.state s.old).family }
        ensures grew { (fed : Flow) → stands self fed
            → OnOk result (Grew P.plain out.old out.new
            (settled_work (kind self) fed) (work_of (kind self) fed)) }
        ensures in_part { (fed : Flow) → stands self fed
            → OnErr result (GrewInPart P.plain out.old out.new
            (settled_work (kind self) fed) (work_of (kind self) fed)) }
        ensures family { All (λ p. P.fits p (P.Store.state s.old).family) out.new.packets }
        ensures store { Stays (P.Store.state s.old) (P.Store.state s.new) };

    /// The broken end of the flow: puts out nothing, and gives up what it holds.
    fn give_up(self, s: &mut P::Store)
        requires family { agrees self (P.Store.state s.old).family }
        ensures store { Stays (P.Store.state s.old) (P.Store.state s.new) };

    /// Whether nothing was fed.
    fn fresh(&self) -> bool
        ensures fresh { IsTrue result → stands self.now [] }
        ensures fed { (fed : Flow) → stands self.now fed → (IsTrue result ↔ (fed ≡ [])) };

    /// Reads or sets an option. It is set before anything is fed.
    fn control(&mut self, c: Command) -> Result<Reply, ControlRefused>
        requires fresh { Sets c → stands self.old [] }
        ensures answer { result ≡ answer_to (kind self.old) c }
        ensures kind { kind self.new ≡ kind_after (kind self.old) c }
        ensures stands { (fed : Flow) → stands self.old fed ↔ stands self.new fed }
        ensures family { (f : P.Store.Family) → agrees self.old f → agrees self.new f };

    /// One that was fed nothing agrees with every family.
    ghost holds_nothing: { (m : Self) (f : P.Store.Family) → stands m [] → agrees m f };

    /// Its kind is within its bounds.
    ghost within: { (m : Self) → IsWithinBounds (kind m) };
}
