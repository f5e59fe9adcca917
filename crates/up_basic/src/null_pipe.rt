ghost use Rattle.std.specs.Prelude.{refl};
ghost use Rattle.up_model.specs.Packetwise.{drops};
ghost use Rattle.up_model.specs.declared.kind.Kind.TheVariants as kinds;

use up_base::NoMemory;
use up_model::Verdict;
use up_shape::{
    Command, ControlRefused, LocalPacket, Made, Options, PacketStep, Packetwise, Reply,
};

/// Takes all and puts nothing out.
pub type NullPipe = Packetwise<NullStep>;

#[derive(Debug, Drop)]
pub struct NullStep;

impl Options for NullStep {
    ghost kind = { λ _. kinds.Null };

    fn control(&mut self, _c: Command) -> Result<Reply, ControlRefused> {
        Err(ControlRefused::Unhandled)
    }

    ghost within = { λ _. tt };
}

impl Made<()> for NullStep {
    ghost first = { λ _. kinds.Null };

    fn made(_fields: ()) -> NullStep {
        NullStep
    }
}

impl<P: LocalPacket> PacketStep<P> for NullStep {
    ghost step = { λ _. drops };

    fn pass(&self, p: P, s: &mut P::Store) -> Result<Verdict<P>, NoMemory> {
        p.give_up(s);
        Ok(Verdict::Drops)
    }

    ghost settles = { λ _ _. refl };

    ghost owes_nothing = { λ _ _. refl };
}
