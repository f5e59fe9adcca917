ghost use Rattle.std.specs.Prelude.{◌<◌, ◌≤◌, length};

use crate::{LocalPacket, Packet, VecPacket, VecStore};
use std::process::Abort;
use up_base::NoRoom;
use up_model::MAX_PACKET;

/// The packet lends these bytes, run after run, and fills a room with them.
pub(crate) fn assert_bytes<P: LocalPacket>(rt: &impl Abort, packet: &P, wanted: &[u8]) {
    assert_eq!(rt; packet.size() as usize, wanted.len());
    let mut at = 0;
    while at < wanted.len() {
        let run = packet.bytes_at(at as u32);
        let end = at + run.len();
        assert_eq!(rt; run, &wanted[at..end]);
        at = end;
    }
}

/// The packet fills a room of 8 bytes from the place on with these.
fn assert_read<P: LocalPacket>(rt: &impl Abort, packet: &P, at: u32, wanted: &[u8; 8]) {
    let mut found = [0; 8];
    assert!(rt; at <= MAX_PACKET && at + 8 <= packet.size());
    packet.read(at, &mut found);
    assert_eq!(rt; found, *wanted);
}

pub(crate) fn room<P: LocalPacket>(rt: &impl Abort, size: u32, s: &mut P::Store) -> P::Room
    requires some { 0 < size }
    requires fits { size ≤ MAX_PACKET }
{
    P::room(size, s).expect(rt, "no memory")
}

pub(crate) fn fresh<P: LocalPacket>(rt: &impl Abort, bytes: &[u8], s: &mut P::Store) -> P
    requires { length bytes.now ≤ MAX_PACKET }
{
    P::fresh(bytes, s).expect(rt, "no memory")
}

/// A packet of the first bytes of a room that was filled with these.
pub(crate) fn of_filled<P: LocalPacket>(
    rt: &impl Abort,
    bytes: &[u8],
    count: u32,
    s: &mut P::Store,
) -> P
    requires some { 0 < count }
    requires within { count ≤ length bytes.now }
    requires fits { length bytes.now ≤ MAX_PACKET }
{
    let mut room = P::room(bytes.len() as u32, s).expect(rt, "no memory");
    P::room_bytes(&mut room).copy_from_slice(bytes);
    match P::of_room(room, count, s) {
        Ok(packet) => packet,
        Err(NoRoom { back }) => {
            P::give_room(back, s);
            panic!(rt; "no memory")
        }
    }
}

pub(crate) fn dup<P: LocalPacket>(rt: &impl Abort, packet: &mut P, s: &mut P::Store) -> P
    requires { P.fits packet.old (P.Store.state s.old).family }
{
    packet.dup(s).expect(rt, "no memory")
}

/// A packet of the first bytes, which leave this one.
pub(crate) fn front<P: LocalPacket>(
    rt: &impl Abort,
    packet: &mut P,
    count: u32,
    s: &mut P::Store,
) -> P
    requires { P.fits packet.old (P.Store.state s.old).family }
{
    assert!(rt; count <= packet.size());
    packet.front(count, s).expect(rt, "no memory")
}

pub(crate) fn add<P: LocalPacket>(rt: &impl Abort, packet: &mut P, other: P, s: &mut P::Store)
    requires packet { P.fits packet.old (P.Store.state s.old).family }
    requires other { P.fits other (P.Store.state s.old).family }
{
    assert!(rt; packet.size() <= MAX_PACKET && other.size() <= MAX_PACKET);
    match packet.add(other, s) {
        Ok(()) => {}
        Err(NoRoom { back }) => {
            back.give_up(s);
            panic!(rt; "no memory")
        }
    }
}

/// Writes these bytes over those from the place on.
pub(crate) fn set_bytes<P: LocalPacket>(
    rt: &impl Abort,
    packet: &mut P,
    at: u32,
    bytes: &[u8],
    s: &mut P::Store,
)
    requires packet { P.fits packet.old (P.Store.state s.old).family }
    requires size { length bytes.now ≤ MAX_PACKET }
{
    assert!(rt; at <= packet.size() && bytes.len() as u32 <= packet.size() - at);
    packet.set_bytes(at, bytes, s).expect(rt, "no memory");
}

#[test]
fn a_packet_is_filled_doubled_cut_joined_and_written_over(rt: HostRuntime) {
    let s = &mut VecStore::new(rt.alloc());
    let mut packet: VecPacket = of_filled(&rt, b"abcd", 3, s);
    assert_bytes(&rt, &packet, b"abc");
    let double = dup(&rt, &mut packet, s);
    assert_bytes(&rt, &double, b"abc");
    let first = front(&rt, &mut packet, 1, s);
    assert_bytes(&rt, &first, b"a");
    assert_bytes(&rt, &packet, b"bc");
    let other = fresh(&rt, b"z", s);
    add(&rt, &mut packet, other, s);
    assert_bytes(&rt, &packet, b"bcz");
    set_bytes(&rt, &mut packet, 0, b"Q", s);
    assert_bytes(&rt, &packet, b"Qcz");
    assert_bytes(&rt, &double, b"abc");
    assert_bytes(&rt, &first, b"a");
}

pub(crate) fn drop_front<P: LocalPacket>(
    rt: &impl Abort,
    packet: &mut P,
    count: u32,
    s: &mut P::Store,
)
    requires { P.fits packet.old (P.Store.state s.old).family }
{
    assert!(rt; count <= packet.size());
    packet.drop_front(count, s);
}

pub(crate) fn keep_front<P: LocalPacket>(
    rt: &impl Abort,
    packet: &mut P,
    count: u32,
    s: &mut P::Store,
)
    requires { P.fits packet.old (P.Store.state s.old).family }
{
    assert!(rt; count <= packet.size());
    packet.keep_front(count, s);
}

/// Parks a packet and takes it back.
fn parked<P: Packet>(packet: P) -> P {
    P::unpark(packet.park())
}

fn give_up<P: LocalPacket>(packet: P, s: &mut P::Store)
    requires { P.fits packet (P.Store.state s.old).family }
{
    packet.give_up(s);
}

#[test]
fn a_packet_is_cut_from_both_ends_and_parked(rt: HostRuntime) {
    let s = &mut VecStore::new(rt.alloc());
    let mut packet: VecPacket = fresh(&rt, b"abcdef", s);
    drop_front(&rt, &mut packet, 2, s);
    assert_bytes(&rt, &packet, b"cdef");
    keep_front(&rt, &mut packet, 3, s);
    assert_bytes(&rt, &packet, b"cde");
    let mut packet = parked(packet);
    assert_bytes(&rt, &packet, b"cde");
    keep_front(&rt, &mut packet, 0, s);
    assert_bytes(&rt, &packet, b"");
    give_up(packet, s);
}

#[test]
fn a_packet_without_its_front_is_read_doubled_joined_and_written_over(rt: HostRuntime) {
    let s = &mut VecStore::new(rt.alloc());
    let mut packet: VecPacket = fresh(&rt, b"abcdefghijkl", s);
    drop_front(&rt, &mut packet, 2, s);
    assert_read(&rt, &packet, 0, b"cdefghij");
    assert_read(&rt, &packet, 2, b"efghijkl");
    let mut double = dup(&rt, &mut packet, s);
    set_bytes(&rt, &mut packet, 1, b"XYZ", s);
    assert_bytes(&rt, &packet, b"cXYZghijkl");
    assert_bytes(&rt, &double, b"cdefghijkl");
    drop_front(&rt, &mut double, 7, s);
    let other = fresh(&rt, b"mn", s);
    add(&rt, &mut double, other, s);
    assert_bytes(&rt, &double, b"jklmn");
    add(&rt, &mut packet, double, s);
    assert_bytes(&rt, &packet, b"cXYZghijkljklmn");
}

/// A room has so many bytes, and is given up.
fn give_room<P: LocalPacket>(rt: &impl Abort, size: u32, s: &mut P::Store)
    requires some { 0 < size }
    requires fits { size ≤ MAX_PACKET }
{
    let mut room = P::room(size, s).expect(rt, "no memory");
    assert_eq!(rt; P::room_bytes(&mut room).len(), size as usize);
    P::give_room(room, s);
}

#[test]
fn a_room_has_its_bytes_and_is_given_up(rt: HostRuntime) {
    let s = &mut VecStore::new(rt.alloc());
    give_room::<VecPacket>(&rt, 1, s);
    give_room::<VecPacket>(&rt, 1_048_576, s);
}
