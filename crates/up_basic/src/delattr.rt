ghost use Rattle.std.specs.Prelude.{refl};
ghost use Rattle.up_model.specs.DelAttr.{delattr_step};
ghost use Rattle.up_model.specs.declared.kind.Kind.TheVariants as kinds;

use up_base::{AttrName, NoMemory};
use up_model::Verdict;
use up_shape::{
    Command, ControlRefused, LocalPacket, Made, Options, PacketStep, Packetwise, Reply,
};

/// Takes the attribute of a name away from each packet.
pub type DelAttr = Packetwise<DelAttrStep, AttrName>;

#[derive(Debug, Drop)]
pub struct DelAttrStep {
    attr: AttrName,
}

impl Options for DelAttrStep {
    ghost kind = { λ del. kinds.DelAttr del.attr };

    fn control(&mut self, _c: Command) -> Result<Reply, ControlRefused> {
        Err(ControlRefused::Unhandled)
    }

    ghost within = { λ _. tt };
}

impl Made<AttrName> for DelAttrStep {
    ghost first = { λ attr. kinds.DelAttr attr };

    fn made(attr: AttrName) -> DelAttrStep {
        DelAttrStep { attr }
    }
}

impl<P: LocalPacket> PacketStep<P> for DelAttrStep {
    ghost step = { λ del. delattr_step del.attr };

    fn pass(&self, mut p: P, _s: &mut P::Store) -> Result<Verdict<P>, NoMemory> {
        p.del_attr(&self.attr);
        Ok(Verdict::Passes { packet: p, cut: 0 })
    }

    ghost settles = { λ _ _. refl };

    ghost owes_nothing = { λ _ _. refl };
}
