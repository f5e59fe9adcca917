ghost use Rattle.std.specs.Prelude.{◌≡◌, ◌<◌, ◌≤◌, ◌+◌, ◌++◌, ◌⊎◌, List, ℕ, [], Some, None, true};
ghost use Rattle.std.specs.Prelude.{length, take, drop, slice_get, slice_range};
ghost use Rattle.std.specs.Prelude.{IfOk, IfErr, OnOk, OnErr, MatchOption};
ghost use Rattle.std.specs.Borrow.{sem, Lends, Array, u8};
ghost use Rattle.std.specs.FinMap as map;
ghost use Rattle.up_base.specs.Lists.{IsPrefix};
ghost use Rattle.up_model.specs.Packet.{plain as bare};
ghost use Rattle.up_model.specs.Value.{lent, IsLegalValue};
ghost use Rattle.up_model.specs.declared.limits.TheConstants.{MAX_PACKET, MAX_ATTRS};
ghost use Rattle.up_model.specs.declared.plain_packet.PlainPacket.{PlainPacket};
ghost use Rattle.up_shape.specs.Bytes.{written_at};
ghost use Rattle.up_shape.specs.Stores.{Stays};

use crate::Stash;
use up_base::{AttrName, NoMemory, NoRoom};
use up_model::ValueView;

/// The most bytes that packets are added up to: 2^31 - 1.
pub const MAX_JOINED: u32 = 2_147_483_647;

/// A packet as one thread handles it: attributes and bytes. Code that is generic over packets can't drop one: it gives
/// each up by a call. A `Packet` can cross threads too.
pub trait LocalPacket: Sized {
    /// What its memory is drawn from.
    type Store: Stash;

    /// Bytes to be filled, of which a packet is then made.
    type Room;

    /// The plain packet that it stands for.
    ghost plain: { Self → PlainPacket };

    /// It is of this family. A packet without bytes is of every family.
    ghost fits: { Self → Self.Store.Family → Type 0 };

    /// The bytes of a room.
    ghost content: { Self.Room → List ℕ };

    /// The room with as many other bytes.
    ghost refilled: { Self.Room → List ℕ → Self.Room };

    /// The room is of this family.
    ghost room_fits: { Self.Room → Self.Store.Family → Type 0 };

    /// A room of so many bytes, whatever they are.
    fn room(size: u32, s: &mut Self::Store) -> Result<Self::Room, NoMemory>
        requires { (0 < size) × (size ≤ MAX_PACKET) }
        ensures size { IfOk result (λ r. length (content r) ≡ size) }
        ensures family { IfOk result (λ r. room_fits r (Self.Store.state s.old).family) }
        ensures drawn { OnOk result
            ((Self.Store.state s.old).drawn < (Self.Store.state s.new).drawn) }
        ensures store { Stays (Self.Store.state s.old) (Self.Store.state s.new) };

    /// The bytes of the room, to be written.
    fn room_bytes(r: &mut Self::Room) -> &mut [u8]
        ensures* writes_back { sem 𝓛 (Lends Self.Room.row (Array u8 0)
            r.entry result (refilled r.old)) }
        ensures value { result.now ≡ content r.old };

    /// A packet of the first bytes of the room, without attributes.
    fn of_room(r: Self::Room, n: u32, s: &mut Self::Store) -> Result<Self, NoRoom<Self::Room>>
        requires size { (0 < n) × (n ≤ length (content r)) }
        requires family { room_fits r (Self.Store.state s.old).family }
        ensures plain { IfOk result (λ p. plain p ≡ bare (take n (content r))) }
        ensures family { IfOk result (λ p. fits p (Self.Store.state s.old).family) }
        ensures back { IfErr result (λ refused. refused.back ≡ r) }
        ensures store { Stays (Self.Store.state s.old) (Self.Store.state s.new) };

    fn give_room(r: Self::Room, s: &mut Self::Store)
        requires family { room_fits r (Self.Store.state s.old).family }
        ensures store { Stays (Self.Store.state s.old) (Self.Store.state s.new) };

    /// A packet of these bytes, without attributes.
    fn fresh(bytes: &[u8], s: &mut Self::Store) -> Result<Self, NoMemory>
        requires { length bytes.now ≤ MAX_PACKET }
        ensures plain { IfOk result (λ p. plain p ≡ bare bytes.now) }
        ensures family { IfOk result (λ p. fits p (Self.Store.state s.old).family) }
        ensures drawn { OnOk result (0 < length bytes.now
            → (Self.Store.state s.old).drawn < (Self.Store.state s.new).drawn) }
        ensures store { Stays (Self.Store.state s.old) (Self.Store.state s.new) };

    fn size(&self) -> u32
        ensures { result ≡ length (plain self.now).bytes };

    /// Fills `out` with the bytes from the place `at` on.
    fn read(&self, at: u32, out: &mut [u8])
        requires { at + length out.old ≤ length (plain self.now).bytes }
        ensures { out.new ≡ slice_range (plain self.now).bytes at (at + length out.old) };

    /// The longest run of bytes that lies together from the place `at` on.
    fn bytes_at(&self, at: u32) -> &[u8]
        requires { at ≤ length (plain self.now).bytes }
        ensures run { IsPrefix result.now (drop at (plain self.now).bytes) }
        ensures within { at + length result.now ≤ length (plain self.now).bytes }
        ensures some { at < length (plain self.now).bytes → 0 < length result.now };

    /// The value of the attribute, where it is there.
    fn value(&self, name: &AttrName) -> Option<ValueView<'_>>
        ensures { MatchOption result
            (map.get (plain self.now).attrs name.now ≡ None)
            (λ value. map.get (plain self.now).attrs name.now ≡ Some (lent value)) };

    fn attr_count(&self) -> usize
        ensures { result ≡ map.len (plain self.now).attrs };

    /// The attribute at a place of the rising names, counted from 0.
    fn attr_at(&self, i: usize) -> (AttrName, ValueView<'_>)
        requires { i < map.len (plain self.now).attrs }
        ensures { slice_get (map.entries (plain self.now).attrs) i
            ≡ Some (result.0, lent result.1) };

    /// Gives the attribute this value. A new one needs that fewer than `MAX_ATTRS` are there.
    fn set_attr(&mut self, name: &AttrName, value: ValueView<'_>) -> Result<(), NoMemory>
        requires legal { IsLegalValue (lent value) }
        requires room { (map.contains_key (plain self.old).attrs name.now ≡ true)
            ⊎ (map.len (plain self.old).attrs < MAX_ATTRS) }
        ensures set { OnOk result (plain self.new ≡ record (plain self.old) {
          attrs = map.insert (plain self.old).attrs name.now (lent value.entry);
        }) }
        ensures unchanged { OnErr result (plain self.new ≡ plain self.old) }
        ensures family { (f : Self.Store.Family) → fits self.old f → fits self.new f };

    /// Takes the attribute away, where it is there.
    fn del_attr(&mut self, name: &AttrName)
        ensures gone { plain self.new ≡ record (plain self.old) {
          attrs = map.remove (plain self.old).attrs name.now;
        } }
        ensures family { (f : Self.Store.Family) → fits self.old f → fits self.new f };

    /// A second packet of the same attributes and bytes. A call on one leaves the other.
    fn dup(&mut self, s: &mut Self::Store) -> Result<Self, NoMemory>
        requires family { fits self.old (Self.Store.state s.old).family }
        ensures plain { IfOk result (λ p. plain p ≡ plain self.old) }
        ensures same { plain self.new ≡ plain self.old }
        ensures family { IfOk result (λ p. fits p (Self.Store.state s.old).family) }
        ensures stays { fits self.new (Self.Store.state s.old).family }
        ensures store { Stays (Self.Store.state s.old) (Self.Store.state s.new) };

    /// A packet of the first bytes with the same attributes. These bytes leave this packet.
    fn front(&mut self, n: u32, s: &mut Self::Store) -> Result<Self, NoMemory>
        requires size { n ≤ length (plain self.old).bytes }
        requires family { fits self.old (Self.Store.state s.old).family }
        ensures front { IfOk result (λ p. plain p ≡ record (plain self.old) {
          bytes = take n (plain self.old).bytes;
        }) }
        ensures rest { OnOk result (plain self.new ≡ record (plain self.old) {
          bytes = drop n (plain self.old).bytes;
        }) }
        ensures unchanged { OnErr result (plain self.new ≡ plain self.old) }
        ensures family { IfOk result (λ p. fits p (Self.Store.state s.old).family) }
        ensures stays { fits self.new (Self.Store.state s.old).family }
        ensures store { Stays (Self.Store.state s.old) (Self.Store.state s.new) };

    /// Gives up the first bytes.
    fn drop_front(&mut self, n: u32, s: &mut Self::Store)
        requires size { n ≤ length (plain self.old).bytes }
        requires family { fits self.old (Self.Store.state s.old).family }
        ensures rest { plain self.new ≡ record (plain self.old) {
          bytes = drop n (plain self.old).bytes;
        } }
        ensures stays { fits self.new (Self.Store.state s.old).family }
        ensures store { Stays (Self.Store.state s.old) (Self.Store.state s.new) };

    /// Gives up all but the first bytes.
    fn keep_front(&mut self, n: u32, s: &mut Self::Store)
        requires size { n ≤ length (plain self.old).bytes }
        requires family { fits self.old (Self.Store.state s.old).family }
        ensures front { plain self.new ≡ record (plain self.old) {
          bytes = take n (plain self.old).bytes;
        } }
        ensures stays { fits self.new (Self.Store.state s.old).family }
        ensures store { Stays (Self.Store.state s.old) (Self.Store.state s.new) };

    /// Adds the bytes of another packet at the end, and gives up its attributes.
    fn add(&mut self, other: Self, s: &mut Self::Store) -> Result<(), NoRoom<Self>>
        requires size { length (plain self.old).bytes + length (plain other).bytes ≤ MAX_JOINED }
        requires family { fits self.old (Self.Store.state s.old).family
            × fits other (Self.Store.state s.old).family }
        ensures added { OnOk result (plain self.new ≡ record (plain self.old) {
          bytes = (plain self.old).bytes ++ (plain other).bytes;
        }) }
        ensures unchanged { OnErr result (plain self.new ≡ plain self.old) }
        ensures back { IfErr result (λ refused. refused.back ≡ other) }
        ensures stays { fits self.new (Self.Store.state s.old).family }
        ensures store { Stays (Self.Store.state s.old) (Self.Store.state s.new) };

    /// Writes these bytes over those from the place `at` on.
    fn set_bytes(&mut self, at: u32, bytes: &[u8], s: &mut Self::Store) -> Result<(), NoMemory>
        requires size { at + length bytes.now ≤ length (plain self.old).bytes }
        requires family { fits self.old (Self.Store.state s.old).family }
        ensures set { OnOk result (plain self.new ≡ record (plain self.old) {
          bytes = written_at at bytes.now (plain self.old).bytes;
        }) }
        ensures unchanged { OnErr result (plain self.new ≡ plain self.old) }
        ensures stays { fits self.new (Self.Store.state s.old).family }
        ensures store { Stays (Self.Store.state s.old) (Self.Store.state s.new) };

    fn give_up(self, s: &mut Self::Store)
        requires family { fits self (Self.Store.state s.old).family }
        ensures store { Stays (Self.Store.state s.old) (Self.Store.state s.new) };

    /// What is written to a room is then its content, and its family stays.
    ghost refills: { (r : Self.Room) (bytes : List ℕ) → length bytes ≡ length (content r)
        → (content (refilled r bytes) ≡ bytes)
        × ((f : Self.Store.Family) → room_fits r f → room_fits (refilled r bytes) f) };

    /// A packet without bytes is of every family.
    ghost no_bytes: { (p : Self) (f : Self.Store.Family) → (plain p).bytes ≡ [] → fits p f };
}
