use std::process::Abort;
use up_model::PlainPacket;
use up_queue::{EndKind, Item};

/// What went out for a lane: a packet, or the end.
#[derive(Debug, Drop)]
pub(crate) struct Sent {
    pub lane: u16,
    pub item: Item<PlainPacket>,
}

impl Sent {
    /// Whether it is an end of this kind.
    pub fn is_end(&self, kind: EndKind) -> bool {
        matches!(&self.item, Item::End(end) if *end == kind)
    }

    /// Whether it is this item of the lane, of which a packet has no attributes.
    fn is(&self, lane: u16, item: &Item<&[u8]>) -> bool {
        let same = match (&self.item, item) {
            (Item::Packet(packet), Item::Packet(wanted)) => {
                packet.attrs.len() == 0 && packet.bytes.as_slice() == *wanted
            }
            (Item::End(kind), Item::End(wanted)) => kind == wanted,
            _ => false,
        };
        self.lane == lane && same
    }
}

/// These went out for the lanes, in this order, and no packet has attributes.
pub(crate) fn assert_sent(rt: &impl Abort, sent: &[Sent], wanted: &[(u16, Item<&[u8]>)]) {
    assert_eq!(rt; sent.len(), wanted.len());
    for (k, (lane, item)) in wanted.iter().enumerate() {
        assert!(rt; k < sent.len());
        assert!(rt; sent[k].is(*lane, item), "item {k}: {:?}", sent[k]);
    }
}
