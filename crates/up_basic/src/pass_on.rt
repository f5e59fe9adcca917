ghost use Rattle.up_model.specs.Packetwise.{passes_on};
ghost use Rattle.up_basic.specs.PassOn.{passing_kind, within_bounds, settles, owes_nothing};

use up_base::NoMemory;
use up_model::Verdict;
use up_shape::{
    Command, ControlRefused, LocalPacket, Made, Options, PacketStep, Packetwise, Reply,
};

/// Passes on each packet as it is.
pub type Idem = Packetwise<PassOn<false>>;

/// Passes on each packet as it is. In a graph each of its consumers gets the whole flow.
pub type DupPipe = Packetwise<PassOn<true>>;

/// What `idem` does to a packet, or, where `DUP`, what `dup` does.
#[derive(Debug, Drop)]
pub struct PassOn<const DUP: bool>;

impl<const DUP: bool> Options for PassOn<DUP> {
    ghost kind = { λ _. passing_kind DUP };

    fn control(&mut self, _c: Command) -> Result<Reply, ControlRefused> {
        Err(ControlRefused::Unhandled)
    }

    ghost within = { λ _. within_bounds DUP };
}

impl<const DUP: bool> Made<()> for PassOn<DUP> {
    ghost first = { λ _. passing_kind DUP };

    fn made(_fields: ()) -> PassOn<DUP> {
        PassOn
    }
}

impl<P: LocalPacket, const DUP: bool> PacketStep<P> for PassOn<DUP> {
    ghost step = { λ _. passes_on };

    fn pass(&self, p: P, _s: &mut P::Store) -> Result<Verdict<P>, NoMemory> {
        Ok(Verdict::Passes { packet: p, cut: 0 })
    }

    ghost settles = { λ _. settles DUP };

    ghost owes_nothing = { λ _. owes_nothing DUP };
}
