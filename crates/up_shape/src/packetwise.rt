ghost use Rattle.std.specs.Prelude.{◌≡◌, []};
ghost use Rattle.up_model.specs.Kinds.{IsWithinBounds};
ghost use Rattle.up_model.specs.declared.kind.Kind.{Kind};

use crate::packet_step::{Made, PacketStep};
use crate::{Command, ControlRefused, LocalPacket, Module, Outbox, Reply, put_out};
use std::marker::PhantomData;
use up_base::{AttrName, NoMemory};
use up_model::{Tally, Value, Verdict};

/// A kind that looks at each packet by itself.
#[derive(Debug)]
pub struct Packetwise<K, Fields = ()> {
    step: K,
    fed: bool,
    fields: PhantomData<Fields>,
}

impl<K: Made<()>> Packetwise<K, ()> {
    ghost use Rattle.up_shape.specs.Packetwise.{step_of, StandsFor};

    /// One whose options weren't set, and that was fed nothing.
    pub fn new() -> Packetwise<K, ()>
        requires bounds { IsWithinBounds (K.first tt) }
        ensures kind { K.kind (step_of result) ≡ K.first tt }
        ensures fed_nothing { StandsFor result [] }
    {
        Packetwise {
            step: K::made(()),
            fed: false,
            fields: PhantomData,
        }
    }
}

impl<K: Made<AttrName>> Packetwise<K, AttrName> {
    ghost use Rattle.up_shape.specs.Packetwise.{step_of, StandsFor};

    /// One of this attribute, that was fed nothing.
    pub fn new(attr: AttrName) -> Packetwise<K, AttrName>
        requires bounds { IsWithinBounds (K.first attr) }
        ensures kind { K.kind (step_of result) ≡ K.first attr }
        ensures fed_nothing { StandsFor result [] }
    {
        Packetwise {
            step: K::made(attr),
            fed: false,
            fields: PhantomData,
        }
    }
}

impl<K: Made<(AttrName, Value)>> Packetwise<K, (AttrName, Value)> {
    ghost use Rattle.std.specs.Prelude.{true};
    ghost use Rattle.up_base.specs.Name.{is_name};
    ghost use Rattle.up_shape.specs.Packetwise.{step_of, StandsFor};

    /// One of this attribute with this value, that was fed nothing. That `attr` is a name is known by its type.
    pub fn new(attr: AttrName, value: Value) -> Packetwise<K, (AttrName, Value)>
        requires bounds { is_name attr ≡ true → IsWithinBounds (K.first (attr, value)) }
        ensures kind { K.kind (step_of result) ≡ K.first (attr, value) }
        ensures fed_nothing { StandsFor result [] }
    {
        let _name = attr.bytes();
        Packetwise {
            step: K::made((attr, value)),
            fed: false,
            fields: PhantomData,
        }
    }
}

impl<P: LocalPacket, K: PacketStep<P>, Fields> Module<P> for Packetwise<K, Fields> {
    ghost use Rattle.up_shape.specs.Packetwise.{step_of, StandsFor};

    ghost kind = { λ m. K.kind (step_of m) };

    ghost stands = { StandsFor };

    ghost agrees = { λ _ _. Unit {0} };

    fn feed(&mut self, p: P, out: &mut Outbox<P>, s: &mut P::Store) -> Result<(), NoMemory> {
        self.fed = true;
        let size = p.size();
        match self.step.pass(p, s)? {
            Verdict::Passes { packet, cut } => {
                put_out(packet, out, s)?;
                out.add_tally(Tally::of_passed(cut));
            }
            Verdict::Drops => out.add_tally(Tally::of_dropped(u64::from(size))),
        }
        Ok(())
    }

    fn finish(self, _out: &mut Outbox<P>, _s: &mut P::Store) -> Result<(), NoMemory> {
        let Packetwise {
            step: _,
            fed: _,
            fields: _,
        } = self;
        Ok(())
    }

    fn give_up(self, _s: &mut P::Store) {
        let Packetwise {
            step: _,
            fed: _,
            fields: _,
        } = self;
    }

    fn fresh(&self) -> bool {
        !self.fed
    }

    fn control(&mut self, c: Command) -> Result<Reply, ControlRefused> {
        self.step.control(c)
    }

    ghost holds_nothing = { λ _ _ _. tt };

    ghost within = { λ m. K.Options.within (step_of m) };
}
