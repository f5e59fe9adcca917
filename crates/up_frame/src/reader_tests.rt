ghost use Rattle.std.specs.Prelude.{◌<◌, IfOk};
ghost use Rattle.up_model.specs.Packet.{IsLegal};
ghost use Rattle.up_shape.specs.VecPackets.{plain_of};

use crate::field_tests::{BROKEN, BROKEN_HEADS, behind_head};
use crate::tests::{EACH_TYPE, LONGEST_NAME, fresh, set_opaque};
use crate::{BadFrame, FeedRefused, FrameReader, behind_frame, write_frame};
use std::alloc::Global;
use std::process::Abort;
use std::test::Fail;
use up_base::{AttrName, Bytes};
use up_model::{NotWhole, ValueView};
use up_shape::{LocalPacket, VecPacket, VecStore};

/// Feeds a piece to a reader that was fed little so far.
pub(crate) fn feed(
    rt: &impl Abort,
    reader: &mut FrameReader,
    piece: &[u8],
) -> Result<(), FeedRefused> {
    assert!(rt; reader.fed() < 1_000_000_000);
    assert!(rt; piece.len() < 1_000_000_000);
    reader.feed(piece)
}

/// Takes all packets that wait, and adds their frames.
pub(crate) fn take_all(
    rt: &impl Abort,
    alloc: Global,
    reader: &mut FrameReader,
    frames: &mut Bytes,
) -> u64 {
    let mut store = VecStore::new(alloc);
    for count in 0..1000 {
        match reader.next_packet::<VecPacket>(&mut store) {
            Ok(Some(packet)) => assert_eq!(rt; write_frame(&packet, frames), Ok(())),
            Ok(None) => return count,
            Err(_) => panic!(rt; "no memory"),
        }
    }
    1000
}

/// How many bytes are behind the whole frames, found from the first frame on, and why no whole one is.
fn rest_of(bytes: &[u8]) -> (usize, NotWhole) {
    let mut rest = bytes;
    for _ in 0..1000 {
        match behind_frame(rest) {
            Ok(behind) => rest = behind,
            Err(refused) => return (rest.len(), refused),
        }
    }
    (rest.len(), NotWhole::Unfinished)
}

/// What a piece is answered up to which these bytes were fed.
fn wanted_answer(bytes: &[u8]) -> Result<(), FeedRefused> {
    let (left, refused) = rest_of(bytes);
    match refused {
        NotWhole::Unfinished => Ok(()),
        NotWhole::Broken => Err(FeedRefused::BadFrame {
            offset: bytes.len().saturating_sub(left) as u64,
        }),
    }
}

/// What the end is answered behind these bytes.
fn wanted_end(bytes: &[u8]) -> Result<(), BadFrame> {
    let (left, _) = rest_of(bytes);
    if left == 0 {
        return Ok(());
    }
    Err(BadFrame {
        offset: bytes.len().saturating_sub(left) as u64,
    })
}

/// The frames of what was given are the whole ones at the front of the bytes.
fn assert_given(rt: &impl Abort, bytes: &[u8], frames: &Bytes) {
    let (left, _) = rest_of(bytes);
    assert_eq!(rt; frames.as_slice().len(), bytes.len().saturating_sub(left));
    assert!(rt; bytes.starts_with(frames.as_slice()));
}

/// Reads bytes in pieces of this size, and compares each answer, what was given after each piece, and the end with what is found
/// in the bytes as a whole.
fn assert_cut(rt: &impl Abort, alloc: Global, bytes: &[u8], size: usize)
    requires { 0 < size }
{
    let mut reader = FrameReader::new(alloc);
    let mut frames = Bytes::new(alloc);
    let mut fed = Bytes::new(alloc);
    for piece in bytes.chunks(size) {
        let answer = feed(rt, &mut reader, piece);
        assert_eq!(rt; fed.append(piece), Ok(()));
        assert_eq!(rt; answer, wanted_answer(fed.as_slice()));
        take_all(rt, alloc, &mut reader, &mut frames);
        assert_given(rt, fed.as_slice(), &frames);
    }
    assert_eq!(rt; reader.fed(), bytes.len() as u64);
    assert_eq!(rt; reader.finish(), wanted_end(bytes));
}

/// The same, where all packets are taken at the end alone.
fn assert_late(rt: &impl Abort, alloc: Global, bytes: &[u8], size: usize)
    requires { 0 < size }
{
    let mut reader = FrameReader::new(alloc);
    let mut frames = Bytes::new(alloc);
    let mut answer = Ok(());
    for piece in bytes.chunks(size) {
        answer = feed(rt, &mut reader, piece);
    }
    assert_eq!(rt; answer, wanted_answer(bytes));
    take_all(rt, alloc, &mut reader, &mut frames);
    assert_given(rt, bytes, &frames);
    assert_eq!(rt; reader.finish(), wanted_end(bytes));
}

/// The bytes in pieces of 1, of 3 and of all.
fn assert_read(rt: &impl Abort, alloc: Global, bytes: &[u8]) {
    assert_cut(rt, alloc, bytes, 1);
    assert_cut(rt, alloc, bytes, 3);
    assert_cut(rt, alloc, bytes, 1_000_000);
    assert_late(rt, alloc, bytes, 1);
}

/// The packet `ab`, and the first bytes of a frame.
pub(crate) const TEN_AND_THREE: [u8; 13] = [0x46, 1, 0, 0, 0, 0, 0, 2, 0x61, 0x62, 0x46, 1, 0];

#[test]
fn a_packet_comes_once_its_last_byte_is_fed_and_the_end_tells_what_is_unfinished(rt: HostRuntime) {
    let mut reader = FrameReader::new(rt.alloc());
    let mut frames = Bytes::new(rt.alloc());
    for (at, byte) in TEN_AND_THREE.iter().enumerate() {
        assert_eq!(&rt; feed(&rt, &mut reader, &[*byte]), Ok(()));
        let given = take_all(&rt, rt.alloc(), &mut reader, &mut frames);
        assert_eq!(&rt; given, u64::from(at == 9));
    }
    assert_eq!(&rt; frames.as_slice(), &TEN_AND_THREE[..10]);
    assert_eq!(&rt; reader.finish(), Err(BadFrame { offset: 10 }));
}

#[test]
fn an_attribute_and_the_bytes_are_read(rt: HostRuntime) -> Result<(), Fail> {
    let bytes = [
        0x46, 1, 0, 1, 0, 0, 0, 2, 1, 0x78, 3, 0, 0, 0, 8, 0, 0, 0, 0, 0, 0, 0, 7, 0x68, 0x69,
    ];
    let mut reader = FrameReader::new(rt.alloc());
    let mut store = VecStore::new(rt.alloc());
    assert_eq!(rt; feed(&rt, &mut reader, &bytes), Ok(()));
    let first = reader.next_packet::<VecPacket>(&mut store)?;
    let packet = first.expect(&rt, "a packet");
    assert_eq!(rt; packet.bytes(), b"hi".as_slice());
    assert_eq!(rt; packet.attr_count(), 1);
    let name = AttrName::read(b"x").expect(&rt, "a name");
    match packet.value(&name) {
        Some(ValueView::Unsigned(number)) => assert_eq!(rt; number, 7),
        _ => panic!(rt; "no number"),
    }
    assert!(rt; reader.next_packet::<VecPacket>(&mut store)?.is_none());
    assert_eq!(rt; reader.finish(), Ok(()));
    Ok(())
}

#[test]
fn two_frames_are_read_at_each_cut(rt: HostRuntime) -> Result<(), Fail> {
    let mut bytes = Bytes::from_slice(rt.alloc(), &EACH_TYPE[..58])?;
    bytes.append(&TEN_AND_THREE[..10])?;
    let bytes = bytes.as_slice();
    for size in 1..70 {
        assert_cut(&rt, rt.alloc(), bytes, size);
        assert_late(&rt, rt.alloc(), bytes, size);
    }
    Ok(())
}

/// The frame of five attributes with another byte at the place, behind a whole frame.
pub(crate) fn damaged(
    rt: &impl Abort,
    alloc: Global,
    place: usize,
    byte: u8,
) -> Result<Bytes, Fail> {
    assert!(rt; place < 58);
    let mut bytes = Bytes::from_slice(alloc, &TEN_AND_THREE[..10])?;
    bytes.append(&EACH_TYPE[..place])?;
    bytes.push(byte)?;
    bytes.append(&EACH_TYPE[place + 1..58])?;
    Ok(bytes)
}

#[test]
fn each_byte_of_a_frame_changed_is_read_as_it_is_found(rt: HostRuntime) -> Result<(), Fail> {
    for (place, byte) in EACH_TYPE[..58].iter().enumerate() {
        for changed in [byte.wrapping_add(1), byte.wrapping_sub(1), 0, 255] {
            let mut bytes = damaged(&rt, rt.alloc(), place, changed)?;
            bytes.append(&TEN_AND_THREE[..10])?;
            assert_read(&rt, rt.alloc(), bytes.as_slice());
        }
    }
    Ok(())
}

#[test]
fn each_front_of_a_frame_behind_another_is_unfinished(rt: HostRuntime) -> Result<(), Fail> {
    for size in 0..58 {
        let mut bytes = Bytes::from_slice(rt.alloc(), &TEN_AND_THREE[..10])?;
        bytes.append(&EACH_TYPE[..size])?;
        assert_read(&rt, rt.alloc(), bytes.as_slice());
    }
    Ok(())
}

/// A frame that begins so is broken as soon as its last byte is fed, whatever follows.
fn assert_broken(rt: &impl Abort, alloc: Global, bytes: &[u8]) -> Result<(), Fail> {
    let mut stream = Bytes::from_slice(alloc, &TEN_AND_THREE[..10])?;
    stream.append(bytes)?;
    assert_eq!(rt;
        wanted_answer(stream.as_slice()),
        Err(FeedRefused::BadFrame { offset: 10 })
    );
    stream.append(&TEN_AND_THREE[..10])?;
    assert_read(rt, alloc, stream.as_slice());
    Ok(())
}

#[test]
fn each_field_is_broken_just_beyond_its_ends(rt: HostRuntime) -> Result<(), Fail> {
    for bytes in BROKEN_HEADS {
        assert_broken(&rt, rt.alloc(), bytes)?;
    }
    for bytes in BROKEN {
        let front = behind_head(rt.alloc(), bytes)?;
        assert_broken(&rt, rt.alloc(), front.as_slice())?;
    }
    Ok(())
}

/// The name of 64 bytes that ends with this number in octal.
fn long_name(number: u8) -> [u8; 64] {
    let mut name = LONGEST_NAME;
    name[62] = 0x30 + number / 8 % 8;
    name[63] = 0x30 + number % 8;
    name
}

/// The greatest packet: all attributes with the longest names and values, and all bytes.
fn greatest(rt: &impl Abort, alloc: Global) -> Result<VecPacket, Fail>
    ensures { IfOk result (λ packet. IsLegal (plain_of packet)) }
{
    let value = vec![in alloc; 8; 4096]?;
    let mut packet = fresh(rt, alloc, &vec![in alloc; 7; 1_048_576]?);
    for number in 0..64 {
        set_opaque(rt, &mut packet, &long_name(number), &value);
    }
    Ok(packet)
}

#[test]
fn the_greatest_frame_is_read_whole_in_any_pieces(rt: HostRuntime) -> Result<(), Fail> {
    let alloc = rt.alloc();
    let packet = greatest(&rt, alloc)?;
    let mut bytes = Bytes::new(alloc);
    assert_eq!(rt; write_frame(&packet, &mut bytes), Ok(()));
    assert_eq!(rt; bytes.as_slice().len(), 1_315_208);
    for size in [188, 65_536, 2_000_000] {
        assert_late(&rt, alloc, bytes.as_slice(), size);
    }
    assert_cut(&rt, alloc, bytes.as_slice(), 65_536);
    Ok(())
}
