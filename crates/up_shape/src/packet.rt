ghost use Rattle.std.specs.Prelude.{◌≡◌, ◌↔◌};
ghost use Rattle.up_model.specs.Packet.{IsLegal};
ghost use Rattle.up_model.specs.declared.plain_packet.PlainPacket.{PlainPacket};

use crate::{LocalPacket, Stash};
use up_base::Kin;

/// A packet that can cross threads, and lie in a queue between them.
pub trait Packet: LocalPacket<Store: Send> + Send {
    /// A packet as it lies in a queue, whose items can be dropped.
    type Parked: Kin<Family = <Self::Store as Stash>::Family> + Drop + Send;

    /// The plain packet that a parked one stands for.
    ghost parked: { Self.Parked → PlainPacket };

    /// The packet as it lies in a queue.
    fn park(self) -> Self::Parked
        ensures plain { parked result ≡ Self.plain self }
        ensures agrees { (f : Self.Store.Family)
            → Self.Parked.agrees result f ↔ (IsLegal (Self.plain self) × Self.fits self f) };

    /// The packet that lay in a queue.
    fn unpark(p: Self::Parked) -> Self
        ensures plain { Self.plain result ≡ parked p }
        ensures agrees { (f : Self.Store.Family)
            → Self.Parked.agrees p f ↔ (IsLegal (Self.plain result) × Self.fits result f) };
}
