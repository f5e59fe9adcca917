ghost use Rattle.std.specs.Prelude.{◌≡◌, ◌≤◌, refl};
ghost use Rattle.up_model.specs.Kinds.{setting_of};
ghost use Rattle.up_model.specs.Skip.{skip_step};
ghost use Rattle.up_model.specs.declared.kind.Kind.TheVariants as kinds;
ghost use Rattle.up_model.specs.declared.limits.TheConstants.{MAX_PACKET};
ghost use Rattle.up_model.specs.declared.opt.Opt.TheVariants.{Offset};
ghost use Rattle.up_shape.specs.Control.{set_to, kind_after};
ghost use Rattle.up_shape.specs.declared.control.Command.TheVariants.{Set};

use up_base::NoMemory;
use up_model::{MAX_PACKET, Opt, Verdict};
use up_shape::{
    Command, ControlRefused, LocalPacket, Made, Options, PacketStep, Packetwise, Reply,
};

/// Takes the first bytes off each packet, and drops a packet that has fewer.
pub type Skip = Packetwise<SkipStep>;

#[derive(Debug, Drop)]
pub struct SkipStep {
    bytes: u32,
    ghost bounded: { bytes ≤ MAX_PACKET },
}

impl SkipStep {
    /// Sets how many bytes are taken off.
    fn set_offset(&mut self, value: i128) -> Result<Reply, ControlRefused>
        ensures answer { result ≡ set_to value (setting_of (kinds.Skip self.old.bytes) Offset) }
        ensures kind { kinds.Skip self.new.bytes
            ≡ kind_after (kinds.Skip self.old.bytes) (Set Offset value) }
    {
        if value < 0 || value > i128::from(MAX_PACKET) {
            return Err(ControlRefused::Invalid {
                low: 0,
                high: i128::from(MAX_PACKET),
            });
        }
        self.bytes = value as u32;
        Ok(Reply::Done)
    }
}

impl Options for SkipStep {
    ghost kind = { λ skip. kinds.Skip skip.bytes };

    fn control(&mut self, c: Command) -> Result<Reply, ControlRefused> {
        match c {
            Command::Get(Opt::Offset) => Ok(Reply::Value(i128::from(self.bytes))),
            Command::Set(Opt::Offset, value) => self.set_offset(value),
            _ => Err(ControlRefused::Unhandled),
        }
    }

    ghost within = { λ skip. skip.bounded };
}

impl Made<()> for SkipStep {
    ghost first = { λ _. kinds.Skip 0 };

    fn made(_fields: ()) -> SkipStep {
        SkipStep { bytes: 0 }
    }
}

impl<P: LocalPacket> PacketStep<P> for SkipStep {
    ghost step = { λ skip. skip_step skip.bytes };

    fn pass(&self, mut p: P, s: &mut P::Store) -> Result<Verdict<P>, NoMemory> {
        if p.size() < self.bytes {
            p.give_up(s);
            return Ok(Verdict::Drops);
        }
        p.drop_front(self.bytes, s);
        Ok(Verdict::Passes {
            packet: p,
            cut: u64::from(self.bytes),
        })
    }

    ghost settles = { λ _ _. refl };

    ghost owes_nothing = { λ _ _. refl };
}
