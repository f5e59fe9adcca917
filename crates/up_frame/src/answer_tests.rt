ghost use Rattle.std.specs.Prelude.{◌<◌};
ghost use Rattle.up_model.specs.Packet.{IsLegal};
ghost use Rattle.up_shape.specs.VecPackets.{plain_of};

use crate::field_tests::{OPEN, OPEN_HEADS, behind_head};
use crate::reader_tests::{TEN_AND_THREE, damaged, feed, take_all};
use crate::tests::{EACH_TYPE, LONGEST_NAME, NAMES, fresh, set_all, set_opaque, set_words, text};
use crate::{BadFrame, FeedRefused, FrameReader, write_frame};
use std::alloc::Global;
use std::process::Abort;
use std::test::Fail;
use up_base::Bytes;
use up_shape::VecPacket;

/// What a reader says of bytes, whatever the pieces are: its last answer, how many bytes are those of the packets that it gives, and
/// the end.
#[derive(Clone, Copy)]
struct Wanted {
    answer: Result<(), FeedRefused>,
    given: usize,
    end: Result<(), BadFrame>,
}

/// A broken frame at the place.
fn broken(place: usize) -> Wanted {
    Wanted {
        answer: Err(FeedRefused::BadFrame {
            offset: place as u64,
        }),
        given: place,
        end: Err(BadFrame {
            offset: place as u64,
        }),
    }
}

/// An unfinished frame at the place.
fn unfinished(place: usize) -> Wanted {
    Wanted {
        answer: Ok(()),
        given: place,
        end: Err(BadFrame {
            offset: place as u64,
        }),
    }
}

/// Whole frames, up to the place.
fn whole(place: usize) -> Wanted {
    Wanted {
        answer: Ok(()),
        given: place,
        end: Ok(()),
    }
}

/// The frames of the packets that were given, and the end.
fn assert_end(rt: &impl Abort, reader: FrameReader, frames: &Bytes, bytes: &[u8], wanted: Wanted) {
    assert_eq!(rt; reader.fed(), bytes.len() as u64);
    assert_eq!(rt; frames.as_slice().len(), wanted.given);
    assert!(rt; bytes.starts_with(frames.as_slice()));
    assert_eq!(rt; reader.finish(), wanted.end);
}

/// Feeds bytes in pieces of this size, and takes the packets after each.
fn assert_pieces(rt: &impl Abort, alloc: Global, bytes: &[u8], size: usize, wanted: Wanted)
    requires { 0 < size }
{
    let mut reader = FrameReader::new(alloc);
    let mut frames = Bytes::new(alloc);
    let mut answer = Ok(());
    for piece in bytes.chunks(size) {
        answer = feed(rt, &mut reader, piece);
        take_all(rt, alloc, &mut reader, &mut frames);
    }
    assert_eq!(rt; answer, wanted.answer);
    assert_end(rt, reader, &frames, bytes, wanted);
}

/// Feeds bytes in two pieces, and takes the packets after both.
fn assert_cut(rt: &impl Abort, alloc: Global, bytes: &[u8], place: usize, wanted: Wanted) {
    assert!(rt; place <= bytes.len());
    let mut reader = FrameReader::new(alloc);
    let mut frames = Bytes::new(alloc);
    let first = feed(rt, &mut reader, &bytes[..place]);
    assert!(rt; first == Ok(()) || first == wanted.answer);
    assert_eq!(rt; feed(rt, &mut reader, &bytes[place..]), wanted.answer);
    take_all(rt, alloc, &mut reader, &mut frames);
    assert_end(rt, reader, &frames, bytes, wanted);
}

/// The same of few bytes, in pieces of 1 and of 3, and cut in two at each place.
fn assert_told(rt: &impl Abort, alloc: Global, bytes: &[u8], wanted: Wanted) {
    assert_pieces(rt, alloc, bytes, 1, wanted);
    assert_pieces(rt, alloc, bytes, 3, wanted);
    for (place, _) in bytes.iter().enumerate() {
        assert_cut(rt, alloc, bytes, place, wanted);
    }
}

#[test]
fn an_unfinished_frame_behind_a_whole_one_is_told_by_its_place(rt: HostRuntime) {
    assert_told(&rt, rt.alloc(), &TEN_AND_THREE, unfinished(10));
    assert_told(&rt, rt.alloc(), &TEN_AND_THREE[..10], whole(10));
    assert_told(&rt, rt.alloc(), &[], whole(0));
}

#[test]
fn each_front_of_a_frame_is_unfinished_in_any_pieces(rt: HostRuntime) {
    for size in 1..58 {
        assert_told(&rt, rt.alloc(), &EACH_TYPE[..size], unfinished(0));
    }
    assert_told(&rt, rt.alloc(), &EACH_TYPE[..58], whole(58));
    assert_told(&rt, rt.alloc(), &EACH_TYPE, broken(58));
}

#[test]
fn each_field_at_its_end_is_taken_in_any_pieces(rt: HostRuntime) -> Result<(), Fail> {
    for bytes in OPEN_HEADS {
        assert_told(&rt, rt.alloc(), bytes, unfinished(0));
    }
    for bytes in OPEN {
        let front = behind_head(rt.alloc(), bytes)?;
        assert_told(&rt, rt.alloc(), front.as_slice(), unfinished(0));
    }
    Ok(())
}

#[test]
fn a_damaged_field_is_told_by_the_place_of_its_frame(rt: HostRuntime) -> Result<(), Fail> {
    let table = [
        (0, 0x45),
        (0, 0x47),
        (1, 0),
        (1, 2),
        (2, 1),
        (3, 65),
        (4, 1),
        (5, 0x11),
        (8, 0),
        (8, 65),
        (9, 0x20),
        (10, 0),
        (10, 6),
        (14, 1),
        (16, 0x61),
        (21, 0),
        (21, 2),
        (22, 2),
        (29, 7),
        (29, 9),
        (43, 0x11),
        (45, 0xff),
        (46, 0x29),
        (48, 0x63),
        (53, 0x11),
    ];
    for (place, byte) in table {
        let mut bytes = damaged(&rt, rt.alloc(), place, byte)?;
        bytes.append(&[0x46, 9])?;
        assert_told(&rt, rt.alloc(), bytes.as_slice(), broken(10));
    }
    Ok(())
}

/// The packet is given by the last byte of its frame.
fn assert_packet(rt: &impl Abort, alloc: Global, packet: &VecPacket)
    requires { IsLegal (plain_of packet.now) }
{
    let mut out = Bytes::new(alloc);
    assert_eq!(rt; write_frame(packet, &mut out), Ok(()));
    let bytes = out.as_slice();
    assert_pieces(rt, alloc, bytes, 1000, whole(bytes.len()));
    assert_pieces(rt, alloc, bytes, 2_000_000, whole(bytes.len()));
    assert!(rt; !bytes.is_empty());
    assert_pieces(rt, alloc, &bytes[..bytes.len() - 1], 1000, unfinished(0));
}

#[test]
fn frames_at_their_limits_are_read(rt: HostRuntime) -> Result<(), Fail> {
    let alloc = rt.alloc();
    let mut packet = fresh(&rt, alloc, &vec![in alloc; 7; 1_048_576]?);
    set_all(&rt, &mut packet, &NAMES);
    assert_packet(&rt, alloc, &packet);
    let mut packet = fresh(&rt, alloc, b"");
    set_words(&rt, &mut packet, &LONGEST_NAME, text(&rt, &[0x74; 4096]));
    set_opaque(&rt, &mut packet, b"x", &vec![in alloc; 8; 4096]?);
    assert_packet(&rt, alloc, &packet);
    Ok(())
}

#[test]
fn a_refusal_is_printed_with_its_place(rt: HostRuntime) -> Result<(), Fail> {
    let text = format!(in rt.alloc(); "{}", BadFrame { offset: 10 })?;
    assert_eq!(rt; text.as_str(), "no frame stands at byte 10");
    let text = format!(in rt.alloc(); "{}", FeedRefused::BadFrame { offset: 10 })?;
    assert_eq!(rt; text.as_str(), "the frame at byte 10 is broken");
    Ok(())
}
