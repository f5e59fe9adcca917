// A packet's worth of a source.
ghost use Rattle.std.specs.Prelude.{◌≡◌, ◌<◌, ◌≤◌, length, take, IfSome};
ghost use Rattle.up_model.specs.Packet.{plain as bare};
ghost use Rattle.up_model.specs.declared.limits.TheConstants.{MAX_LIMIT, MAX_PACKET};
ghost use Rattle.up_shape.specs.Stores.{Stays};
ghost use Rattle.up_strand.specs.Reads.{DrewFor, Fills, NextFits, ReadsPacket};

use crate::fill::{Filled, Stop, fill_front};
use up_base::NoRoom;
use up_outside::Source;
use up_shape::LocalPacket;

/// What a source gave.
#[derive(Debug)]
pub enum Next<P> {
    /// A packet of a whole block.
    Packet(P),
    /// A shorter packet, after which the source has no more.
    Last(P),
    /// The source has no more bytes.
    End,
    /// A read failed.
    Fault,
    /// It has more bytes than its limit.
    TooLong,
    /// No room was found to read into: nothing was read.
    NoRoom,
    /// No memory was found for a packet of what was read, which is lost.
    NoMemory,
}

/// Fills the first `want` bytes of a packet's room.
fn fill_room<P: LocalPacket, S: Source>(source: &mut S, room: &mut P::Room, want: usize) -> Filled
    requires within { want ≤ length (P.content room.old) }
    ensures fits { result.count ≤ want }
    ensures full { result.stop ≡ Stop.Full → result.count ≡ want }
    ensures end { result.stop ≡ Stop.End → result.count < want }
    ensures fault { result.stop ≡ Stop.Fault → result.count < want }
    ensures fills { Fills (S.state source.old) (S.state source.new) (P.content room.new) result }
    ensures size { length (P.content room.new) ≡ length (P.content room.old) }
    ensures family { (f : P.Store.Family) → P.room_fits room.old f → P.room_fits room.new f }
{
    fill_front(source, P::room_bytes(room), want)
}

/// A packet of the front of a room, which is given up where there is no memory for it.
fn packet_of<P: LocalPacket>(room: P::Room, count: u32, s: &mut P::Store) -> Option<P>
    requires size { (0 < count) × (count ≤ length (P.content room)) }
    requires family { P.room_fits room (P.Store.state s.old).family }
    ensures packet { IfSome result (λ p. P.plain p ≡ bare (take count (P.content room))) }
    ensures family { IfSome result (λ p. P.fits p (P.Store.state s.old).family) }
    ensures store { Stays (P.Store.state s.old) (P.Store.state s.new) }
{
    match P::of_room(room, count, s) {
        Ok(p) => Some(p),
        Err(NoRoom { back }) => {
            P::give_room(back, s);
            None
        }
    }
}

/// Reads up to a block of a source that may give `left` bytes more. The room for it is taken before
/// the first read.
pub fn read_packet<P: LocalPacket, S: Source>(
    source: &mut S,
    block: u32,
    left: u64,
    s: &mut P::Store,
) -> Next<P>
    requires block { (0 < block) × (block ≤ MAX_PACKET) }
    requires left { left ≤ MAX_LIMIT }
    ensures reads { ReadsPacket P.plain block left
        (S.state source.old) (S.state source.new) result }
    ensures family { NextFits P.fits (P.Store.state s.old).family result }
    ensures drawn { DrewFor (P.Store.state s.old).drawn (P.Store.state s.new).drawn result }
    ensures store { Stays (P.Store.state s.old) (P.Store.state s.new) }
{
    let Ok(mut room) = P::room(block, s) else {
        return Next::NoRoom;
    };
    let want = u64::from(block).min(left + 1) as u32;
    let Filled { count, stop } = fill_room::<P, S>(source, &mut room, want as usize);
    match stop {
        Stop::Fault => {
            P::give_room(room, s);
            Next::Fault
        }
        Stop::End if count == 0 => {
            P::give_room(room, s);
            Next::End
        }
        Stop::End => match packet_of(room, count as u32, s) {
            Some(p) => Next::Last(p),
            None => Next::NoMemory,
        },
        Stop::Full if count as u64 > left => {
            P::give_room(room, s);
            Next::TooLong
        }
        Stop::Full => match packet_of(room, want, s) {
            Some(p) => Next::Packet(p),
            None => Next::NoMemory,
        },
    }
}
