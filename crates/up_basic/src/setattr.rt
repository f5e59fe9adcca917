ghost use Rattle.std.specs.Prelude.{◌≡◌, ◌<◌, ◌≤◌, ◌⊎◌, nat_le, true, IsTrue, refl};
ghost use Rattle.std.specs.FinMap as map;
ghost use Rattle.up_model.specs.SetAttr.{IsAttribute, setattr_step};
ghost use Rattle.up_model.specs.declared.kind.Kind.TheVariants as kinds;
ghost use Rattle.up_model.specs.declared.limits.TheConstants.{MAX_ATTRS};
ghost use Rattle.up_basic.specs.Attributes.{attribute-prop};

use up_base::{AttrName, NoMemory};
use up_model::{MAX_ATTRS, Value, Verdict};
use up_shape::{
    Command, ControlRefused, LocalPacket, Made, Options, PacketStep, Packetwise, Reply,
};

/// Gives each packet an attribute, and drops a packet that would then have more than 64.
pub type SetAttr = Packetwise<SetAttrStep, (AttrName, Value)>;

#[derive(Debug, Drop)]
pub struct SetAttrStep {
    attr: AttrName,
    value: Value,
    ghost legal: { IsAttribute attr value } by { attribute-prop attr value },
}

impl SetAttrStep {
    /// Whether the packet has the attribute, or room for one more.
    #[tactic(auto, using(crate::proofs::Room::room_after))]
    fn takes<P: LocalPacket>(&self, p: &P) -> bool
        requires few { map.len (P.plain p.now).attrs ≤ MAX_ATTRS }
        ensures stays_few { result ≡ nat_le
            (map.len (map.insert (P.plain p.now).attrs self.now.attr self.now.value)) MAX_ATTRS }
        ensures room { IsTrue result
            → (map.contains_key (P.plain p.now).attrs self.now.attr ≡ true)
            ⊎ (map.len (P.plain p.now).attrs < MAX_ATTRS) }
    {
        p.value(&self.attr).is_some() || p.attr_count() < MAX_ATTRS
    }
}

impl Options for SetAttrStep {
    ghost kind = { λ set. kinds.SetAttr set.attr set.value };

    fn control(&mut self, _c: Command) -> Result<Reply, ControlRefused> {
        Err(ControlRefused::Unhandled)
    }

    ghost within = { λ set. set.legal };
}

impl Made<(AttrName, Value)> for SetAttrStep {
    ghost first = { λ fields. kinds.SetAttr fields.0 fields.1 };

    fn made(fields: (AttrName, Value)) -> SetAttrStep {
        let (attr, value) = fields;
        SetAttrStep { attr, value }
    }
}

impl<P: LocalPacket> PacketStep<P> for SetAttrStep {
    ghost step = { λ set. setattr_step set.attr set.value };

    fn pass(&self, mut p: P, s: &mut P::Store) -> Result<Verdict<P>, NoMemory> {
        if !self.takes(&p) {
            p.give_up(s);
            return Ok(Verdict::Drops);
        }
        match p.set_attr(&self.attr, self.value.view()) {
            Ok(()) => Ok(Verdict::Passes { packet: p, cut: 0 }),
            Err(NoMemory) => {
                p.give_up(s);
                Err(NoMemory)
            }
        }
    }

    ghost settles = { λ _ _. refl };

    ghost owes_nothing = { λ _ _. refl };
}
