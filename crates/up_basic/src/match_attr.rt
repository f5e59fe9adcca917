ghost use Rattle.std.specs.Prelude.{◌≡◌, ◌-◌, ◌^◌, refl};
ghost use Rattle.up_model.specs.Kinds.{setting_of};
ghost use Rattle.up_model.specs.MatchAttr.{AreBounds, match_attr_step};
ghost use Rattle.up_model.specs.declared.kind.Kind.TheVariants as kinds;
ghost use Rattle.up_model.specs.declared.opt.Opt.TheVariants.{Low, High};
ghost use Rattle.up_shape.specs.Control.{set_to, kind_after};
ghost use Rattle.up_shape.specs.declared.control.Command.TheVariants.{Set};

use crate::number::number_of;
use up_base::{AttrName, NoMemory};
use up_model::{Opt, Verdict};
use up_shape::{
    Command, ControlRefused, LocalPacket, Made, Options, PacketStep, Packetwise, Reply,
};

/// Lets the packets pass whose attribute is a number within bounds, and drops all others.
pub type MatchAttr = Packetwise<MatchAttrStep, AttrName>;

#[derive(Debug, Drop)]
pub struct MatchAttrStep {
    attr: AttrName,
    low: u64,
    high: u64,
    ghost bounded: { AreBounds low high },
}

impl MatchAttrStep {
    /// Sets the least number that passes.
    fn set_low(&mut self, value: i128) -> Result<Reply, ControlRefused>
        ensures answer { result ≡ set_to value
            (setting_of (kinds.MatchAttr self.old.attr self.old.low self.old.high) Low) }
        ensures kind { kinds.MatchAttr self.new.attr self.new.low self.new.high
            ≡ kind_after (kinds.MatchAttr self.old.attr self.old.low self.old.high) (Set Low value) }
    {
        if value < 0 || value > i128::from(self.high) {
            return Err(ControlRefused::Invalid {
                low: 0,
                high: i128::from(self.high),
            });
        }
        self.low = value as u64;
        Ok(Reply::Done)
    }

    /// Sets the greatest number that passes.
    fn set_high(&mut self, value: i128) -> Result<Reply, ControlRefused>
        ensures answer { result ≡ set_to value
            (setting_of (kinds.MatchAttr self.old.attr self.old.low self.old.high) High) }
        ensures kind { kinds.MatchAttr self.new.attr self.new.low self.new.high
            ≡ kind_after (kinds.MatchAttr self.old.attr self.old.low self.old.high) (Set High value) }
    {
        if value < i128::from(self.low) || value > i128::from(u64::MAX) {
            return Err(ControlRefused::Invalid {
                low: i128::from(self.low),
                high: i128::from(u64::MAX),
            });
        }
        self.high = value as u64;
        Ok(Reply::Done)
    }
}

impl Options for MatchAttrStep {
    ghost kind = { λ matches. kinds.MatchAttr matches.attr matches.low matches.high };

    fn control(&mut self, c: Command) -> Result<Reply, ControlRefused> {
        match c {
            Command::Get(Opt::Low) => Ok(Reply::Value(i128::from(self.low))),
            Command::Get(Opt::High) => Ok(Reply::Value(i128::from(self.high))),
            Command::Set(Opt::Low, value) => self.set_low(value),
            Command::Set(Opt::High, value) => self.set_high(value),
            _ => Err(ControlRefused::Unhandled),
        }
    }

    ghost within = { λ matches. matches.bounded };
}

impl Made<AttrName> for MatchAttrStep {
    ghost first = { λ attr. kinds.MatchAttr attr 0 (2 ^ 64 - 1) };

    fn made(attr: AttrName) -> MatchAttrStep {
        MatchAttrStep {
            attr,
            low: 0,
            high: u64::MAX,
        }
    }
}

impl<P: LocalPacket> PacketStep<P> for MatchAttrStep {
    ghost step = { λ matches. match_attr_step matches.attr matches.low matches.high };

    fn pass(&self, p: P, s: &mut P::Store) -> Result<Verdict<P>, NoMemory> {
        match number_of(&p, &self.attr) {
            Some(number) if self.low <= number && number <= self.high => {
                Ok(Verdict::Passes { packet: p, cut: 0 })
            }
            _ => {
                p.give_up(s);
                Ok(Verdict::Drops)
            }
        }
    }

    ghost settles = { λ _ _. refl };

    ghost owes_nothing = { λ _ _. refl };
}
