ghost use Rattle.std.specs.Prelude.{◌≤◌};

use crate::vec_packet_tests::{assert_bytes, fresh, room};
use crate::{MAX_KEPT, Stash, VecPacket, VecStore};

/// Splits a store and joins both parts again.
fn split_and_join<S: Stash>(store: &mut S)
    requires { (S.state store.old).kept ≤ MAX_KEPT }
{
    let other = store.split();
    store.join(other);
}

#[test]
fn a_store_that_was_split_and_joined_makes_packets(rt: HostRuntime) {
    let mut store = VecStore::new(rt.alloc());
    split_and_join(&mut store);
    let packet: VecPacket = fresh(&rt, b"abc", &mut store);
    assert_bytes(&rt, &packet, b"abc");
}

/// A value that can cross threads.
fn sent<T: Send>(value: T) -> T {
    value
}

#[test]
fn stores_rooms_and_packets_can_cross_threads(rt: HostRuntime) {
    let mut s = sent(VecStore::new(rt.alloc()));
    let mut filled = sent(room::<VecPacket>(&rt, 3, &mut s));
    assert_eq!(rt; filled.bytes_mut().len(), 3);
    let packet: VecPacket = sent(fresh(&rt, b"abc", &mut s));
    assert_bytes(&rt, &packet, b"abc");
}
