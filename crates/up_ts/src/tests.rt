use crate::{NULL_PID, TsHeader, TsRefused, header, payload_at};
use std::test::Fail;

/// A packet whose bytes 1 to 4 are these.
fn packet(head: [u8; 4]) -> [u8; 188] {
    let mut bytes = [0xff; 188];
    bytes[0] = 0x47;
    bytes[1] = head[0];
    bytes[2] = head[1];
    bytes[3] = head[2];
    bytes[4] = head[3];
    bytes
}

fn fields(
    error: bool,
    start: bool,
    priority: bool,
    pid: u16,
    scrambling: u8,
    adaptation: u8,
    counter: u8,
) -> TsHeader {
    TsHeader {
        error,
        start,
        priority,
        pid,
        scrambling,
        adaptation,
        counter,
    }
}

/// Bytes 1 to 4 of a packet, the fields of its header in order, and where its payload begins.
type Packed = (
    [u8; 4],
    (bool, bool, bool, u16, u8, u8, u8),
    Result<Option<usize>, TsRefused>,
);

// The bytes were packed from the fields outside this program: a script wrote each field as a text of as many bits as
// the standard gives it, joined the texts in the standard's order, and cut them into bytes.
const PACKETS: [Packed; 24] = [
    (
        [0xaa, 0x84, 0xcf, 0],
        (true, false, true, 2692, 3, 0, 15),
        Ok(None),
    ),
    (
        [0xb8, 0xf0, 0x4d, 182],
        (true, false, true, 6384, 1, 0, 13),
        Ok(None),
    ),
    (
        [0x66, 0x2e, 0x42, 183],
        (false, true, true, 1582, 1, 0, 2),
        Ok(None),
    ),
    (
        [0x2e, 0x80, 0xc8, 184],
        (false, false, true, 3712, 3, 0, 8),
        Ok(None),
    ),
    (
        [0xe8, 0x77, 0x9c, 0],
        (true, true, true, 2167, 2, 1, 12),
        Ok(Some(4)),
    ),
    (
        [0x94, 0x72, 0x1f, 182],
        (true, false, false, 5234, 0, 1, 15),
        Ok(Some(4)),
    ),
    (
        [0x83, 0xec, 0x11, 183],
        (true, false, false, 1004, 0, 1, 1),
        Ok(Some(4)),
    ),
    (
        [0x80, 0x84, 0x99, 184],
        (true, false, false, 132, 2, 1, 9),
        Ok(Some(4)),
    ),
    (
        [0x08, 0x2a, 0xe4, 0],
        (false, false, false, 2090, 3, 2, 4),
        Ok(None),
    ),
    (
        [0x98, 0xbf, 0x29, 182],
        (true, false, false, 6335, 0, 2, 9),
        Ok(None),
    ),
    (
        [0xe9, 0x24, 0x23, 183],
        (true, true, true, 2340, 0, 2, 3),
        Ok(None),
    ),
    (
        [0xf9, 0x56, 0xed, 184],
        (true, true, true, 6486, 3, 2, 13),
        Ok(None),
    ),
    (
        [0x51, 0x04, 0x78, 0],
        (false, true, false, 4356, 1, 3, 8),
        Ok(Some(5)),
    ),
    (
        [0xe9, 0x11, 0xfc, 182],
        (true, true, true, 2321, 3, 3, 12),
        Ok(Some(187)),
    ),
    (
        [0x1e, 0xb6, 0xfb, 183],
        (false, false, false, 7862, 3, 3, 11),
        Ok(Some(188)),
    ),
    (
        [0x64, 0x7f, 0x77, 184],
        (false, true, true, 1151, 1, 3, 7),
        Err(TsRefused::BadAdaptation { length: 184 }),
    ),
    (
        [0x1f, 0xff, 0x10, 255],
        (false, false, false, 8191, 0, 1, 0),
        Ok(Some(4)),
    ),
    (
        [0x40, 0x00, 0x10, 0],
        (false, true, false, 0, 0, 1, 0),
        Ok(Some(4)),
    ),
    (
        [0x80, 0x00, 0x00, 0],
        (true, false, false, 0, 0, 0, 0),
        Ok(None),
    ),
    (
        [0x30, 0x00, 0x10, 7],
        (false, false, true, 4096, 0, 1, 0),
        Ok(Some(4)),
    ),
    (
        [0x01, 0x00, 0x1f, 7],
        (false, false, false, 256, 0, 1, 15),
        Ok(Some(4)),
    ),
    (
        [0x00, 0xff, 0xf8, 255],
        (false, false, false, 255, 3, 3, 8),
        Err(TsRefused::BadAdaptation { length: 255 }),
    ),
    (
        [0xff, 0xff, 0xff, 1],
        (true, true, true, 8191, 3, 3, 15),
        Ok(Some(6)),
    ),
    (
        [0x00, 0x01, 0xa1, 255],
        (false, false, false, 1, 2, 2, 1),
        Ok(None),
    ),
];

#[test]
fn headers_and_payloads_are_those_of_the_standard(rt: HostRuntime) {
    for (head, told, place) in PACKETS {
        let (error, start, priority, pid, scrambling, adaptation, counter) = told;
        let fields = fields(error, start, priority, pid, scrambling, adaptation, counter);
        assert_eq!(rt; header(&packet(head)), Ok(fields), "{head:?}");
        assert_eq!(rt; payload_at(&packet(head)), place, "{head:?}");
    }
    let null = fields(false, false, false, NULL_PID, 0, 1, 0);
    assert_eq!(rt; header(&packet([0x1f, 0xff, 0x10, 0])), Ok(null));
}

#[test]
fn the_length_is_looked_at_before_the_first_byte(rt: HostRuntime) {
    let zeros = [0; 189];
    assert_eq!(rt; header(&zeros[..187]), Err(TsRefused::Short { len: 187 }));
    assert_eq!(rt; header(&zeros), Err(TsRefused::Short { len: 189 }));
    assert_eq!(rt; header(&zeros[..188]), Err(TsRefused::NoSync { byte: 0 }));
    assert_eq!(rt; payload_at(&zeros[..0]), Err(TsRefused::Short { len: 0 }));
    assert_eq!(rt;
        payload_at(&zeros[..188]),
        Err(TsRefused::NoSync { byte: 0 })
    );
}

#[test]
fn refusals_say_what_was_found_and_what_a_packet_has(rt: HostRuntime) -> Result<(), Fail> {
    let texts = [
        (
            TsRefused::Short { len: 187 },
            "187 bytes, where a packet has 188",
        ),
        (
            TsRefused::NoSync { byte: 7 },
            "byte 0 is 0x07, where a packet has 0x47",
        ),
        (
            TsRefused::BadAdaptation { length: 184 },
            "an adaptation field of 184 bytes, where a packet has room for 183",
        ),
    ];
    for (refused, text) in texts {
        assert_eq!(rt; refused.to_string(rt.alloc())?.as_str(), text);
    }
    Ok(())
}
