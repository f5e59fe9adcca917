ghost use Rattle.std.specs.Prelude.{◌≡◌, length, IfOk};

use crate::vec_packet_tests::{
    add, assert_bytes, drop_front, dup, fresh, front, keep_front, of_filled, set_bytes,
};
use crate::{LocalPacket, VecPacket, VecStore};
use std::alloc::Global;
use std::process::Abort;
use std::test::Fail;

/// As many bytes as the greatest packet has, all of them this one but the first, which is 1, and the last, which is 2.
fn greatest(alloc: Global, byte: u8) -> Result<Vec<u8>, Fail>
    ensures { IfOk result (λ bytes. length bytes.items ≡ 1048576) }
{
    let mut bytes = vec![in alloc; byte; 1_048_576]?;
    bytes[0] = 1;
    bytes[1_048_575] = 2;
    Ok(bytes)
}

/// The first bytes are taken, and the others stay.
fn assert_cut(rt: &impl Abort, packet: &mut VecPacket, bytes: &[u8], count: u32, s: &mut VecStore) {
    let first = front(rt, packet, count, s);
    let at = count as usize;
    assert!(rt; at <= bytes.len());
    assert_bytes(rt, &first, &bytes[..at]);
    assert_bytes(rt, packet, &bytes[at..]);
}

#[test]
fn the_greatest_packet_is_filled_doubled_and_cut(rt: HostRuntime) -> Result<(), Fail> {
    let s = &mut VecStore::new(rt.alloc());
    let bytes = greatest(rt.alloc(), 7)?;
    let mut packet: VecPacket = of_filled(&rt, &bytes, 1_048_576, s);
    assert_bytes(&rt, &packet, &bytes);
    let mut double = dup(&rt, &mut packet, s);
    drop_front(&rt, &mut packet, 1_048_575, s);
    assert_bytes(&rt, &packet, &[2]);
    let mut third = dup(&rt, &mut double, s);
    assert_cut(&rt, &mut double, &bytes, 1_000_000, s);
    assert_cut(&rt, &mut third, &bytes, 1_048_576, s);
    Ok(())
}

#[test]
fn the_greatest_packet_is_joined_and_written_over(rt: HostRuntime) -> Result<(), Fail> {
    let s = &mut VecStore::new(rt.alloc());
    let bytes = greatest(rt.alloc(), 7)?;
    let others = greatest(rt.alloc(), 8)?;
    let mut packet: VecPacket = fresh(&rt, &bytes, s);
    let other = fresh(&rt, &others, s);
    add(&rt, &mut packet, other, s);
    let first = front(&rt, &mut packet, 1_048_576, s);
    assert_bytes(&rt, &first, &bytes);
    assert_bytes(&rt, &packet, &others);
    set_bytes(&rt, &mut packet, 0, &bytes, s);
    assert_bytes(&rt, &packet, &bytes);
    keep_front(&rt, &mut packet, 1, s);
    assert_bytes(&rt, &packet, &[1]);
    Ok(())
}

/// The next bytes of a count, which goes on with 0 after 255.
fn counted(count: &mut u8) -> [u8; 188] {
    let mut bytes = [0; 188];
    for i in 0..188 {
        bytes[i] = *count;
        *count = count.wrapping_add(1);
    }
    bytes
}

/// The packet has 188 bytes, which go on with the count.
fn assert_counts<P: LocalPacket>(rt: &impl Abort, packet: &P, count: &mut u8) {
    let mut found = [0; 188];
    assert_eq!(rt; packet.size(), 188);
    packet.read(0, &mut found);
    assert_eq!(rt; found, counted(count));
}

/// The bytes that lie between are moved to the start some two thousand times.
#[test]
fn bytes_are_added_and_taken_ten_thousand_times(rt: HostRuntime) {
    let s = &mut VecStore::new(rt.alloc());
    let mut packet: VecPacket = fresh(&rt, b"", s);
    let (mut given, mut taken) = (0, 0);
    for _ in 0..5 {
        let other = fresh(&rt, &counted(&mut given), s);
        add(&rt, &mut packet, other, s);
    }
    for _ in 0..10_000 {
        let other = fresh(&rt, &counted(&mut given), s);
        add(&rt, &mut packet, other, s);
        let first = front(&rt, &mut packet, 188, s);
        assert_counts(&rt, &first, &mut taken);
    }
    assert_eq!(rt; packet.size(), 940);
}
