use crate::{EndKind, Full, Item, LocalLane};
use std::process::Abort;
use up_model::MAX_QUEUE;

/// Gives up a lane from which all was received.
fn end<P>(rt: &impl Abort, mut lane: LocalLane<P>) {
    match lane.try_receive() {
        None => lane.end(),
        Some(_) => panic!(rt; "an item is left"),
    }
}

#[test]
fn a_lane_of_one_takes_one_item_and_hands_the_next_back(rt: HostRuntime) {
    let mut lane = LocalLane::new(rt.alloc(), 1).expect(&rt, "no memory");
    assert_eq!(rt; lane.len(), 0);
    assert_eq!(rt; lane.try_send(Item::Packet('A')), Ok(()));
    assert_eq!(rt; lane.len(), 1);
    let refused = Full {
        item: Item::Packet('B'),
    };
    assert_eq!(rt; lane.try_send(Item::Packet('B')), Err(refused));
    assert_eq!(rt; lane.len(), 1);
    assert_eq!(rt; lane.try_receive(), Some(Item::Packet('A')));
    assert_eq!(rt; lane.try_receive(), None);
    end(&rt, lane);
}

#[test]
fn an_end_keeps_its_kind_and_its_place_behind_the_packets(rt: HostRuntime) {
    for kind in [EndKind::Whole, EndKind::Broken] {
        let mut lane = LocalLane::new(rt.alloc(), 3).expect(&rt, "no memory");
        assert_eq!(rt; lane.try_send(Item::Packet(5)), Ok(()));
        assert_eq!(rt; lane.try_send(Item::End(kind)), Ok(()));
        assert_eq!(rt; lane.try_receive(), Some(Item::Packet(5)));
        assert_eq!(rt; lane.try_receive(), Some(Item::End(kind)));
        end(&rt, lane);
    }
}

/// Sends the packets with the numbers from `low` up to `high`.
fn send_all(rt: &impl Abort, lane: &mut LocalLane<u16>, low: u16, high: u16) {
    for number in low..high {
        assert_eq!(rt; lane.try_send(Item::Packet(number)), Ok(()));
    }
}

/// Receives the packets with these numbers.
fn receive_all(rt: &impl Abort, lane: &mut LocalLane<u16>, low: u16, high: u16) {
    for number in low..high {
        assert_eq!(rt; lane.try_receive(), Some(Item::Packet(number)));
    }
}

#[test]
fn the_longest_lane_is_filled_and_emptied_in_order_also_round_its_end(rt: HostRuntime) {
    let mut lane = LocalLane::new(rt.alloc(), MAX_QUEUE).expect(&rt, "no memory");
    let refused = || Err(Full {
        item: Item::End(EndKind::Broken),
    });
    send_all(&rt, &mut lane, 0, 4_096);
    assert_eq!(rt; lane.len(), 4_096);
    assert_eq!(rt; lane.try_send(Item::End(EndKind::Broken)), refused());
    receive_all(&rt, &mut lane, 0, 1_000);
    send_all(&rt, &mut lane, 4_096, 5_096);
    assert_eq!(rt; lane.try_send(Item::End(EndKind::Broken)), refused());
    receive_all(&rt, &mut lane, 1_000, 5_096);
    assert_eq!(rt; lane.try_receive(), None);
    send_all(&rt, &mut lane, 0, 4_096);
    assert_eq!(rt; lane.try_send(Item::End(EndKind::Broken)), refused());
    receive_all(&rt, &mut lane, 0, 4_096);
    end(&rt, lane);
}

/// A value that can't be dropped, with a text that it borrows.
struct Token<'a> {
    name: &'a str,
}

/// The name of the token that came, which is spent.
fn spend<'a>(item: Option<Item<Token<'a>>>) -> Option<&'a str> {
    match item {
        Some(Item::Packet(Token { name })) => Some(name),
        Some(Item::End(_)) | None => None,
    }
}

/// Sends a token of this name, and gives the name of the one that is handed back.
fn send<'a>(lane: &mut LocalLane<Token<'a>>, name: &'a str) -> Option<&'a str> {
    match lane.try_send(Item::Packet(Token { name })) {
        Ok(()) => None,
        Err(Full { item }) => spend(Some(item)),
    }
}

#[test]
fn packets_that_cannot_be_dropped_are_handed_back_or_received(rt: HostRuntime) {
    let text = String::from_str(rt.alloc(), "first second third").expect(&rt, "no memory");
    let mut lane = LocalLane::new(rt.alloc(), 2).expect(&rt, "no memory");
    let handed_back = [
        send(&mut lane, &text[..5]),
        send(&mut lane, &text[6..12]),
        send(&mut lane, &text[13..]),
    ];
    let received = [spend(lane.try_receive()), spend(lane.try_receive())];
    end(&rt, lane);
    assert_eq!(rt; handed_back, [None, None, Some("third")]);
    assert_eq!(rt; received, [Some("first"), Some("second")]);
}

/// Takes only what may cross threads.
fn is_send<T: Send>(_: &T) {}

#[test]
fn lanes_may_cross_threads(rt: HostRuntime) {
    let lane: LocalLane<Vec<u8>> = LocalLane::new(rt.alloc(), 1).expect(&rt, "no memory");
    is_send(&lane);
    end(&rt, lane);
}
