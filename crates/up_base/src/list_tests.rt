use crate::{Bytes, ItemList, NoRoom, PipeName, ReservedList, Text, WordList};
use std::alloc::Global;
use std::process::Abort;
use std::test::Fail;

/// How many items and words the lists are tried with.
const MANY: u32 = 10_000;

#[test]
fn items_come_out_in_the_order_of_their_adding(rt: HostRuntime) -> Result<(), Fail> {
    let mut list = ItemList::new(rt.alloc());
    assert_eq!(rt; list.len(), 0);
    for number in 0..MANY {
        assert!(rt; list.push(number).is_ok());
    }
    assert_eq!(rt; list.len(), 10_000);
    assert_eq!(rt; [*list.at(0), *list.at(1), *list.at(9_999)], [0, 1, 9_999]);
    assert_eq!(rt; list.next(), Some(0));
    assert!(rt; list.push(MANY).is_ok());
    for number in 1..=MANY {
        assert_eq!(rt; list.next(), Some(number));
    }
    assert_eq!(rt; list.next(), None);
    Ok(())
}

/// A value that can't be dropped.
struct Token {
    number: u32,
}

/// As many tokens, with the numbers from 0 on.
fn tokens(rt: &impl Abort, alloc: Global, count: u32) -> ItemList<Token> {
    let mut list = ItemList::new(alloc);
    for number in 0..count {
        if let Err(NoRoom { back }) = list.push(Token { number }) {
            let Token { number } = back;
            assert_eq!(rt; Some(number), None, "no room");
        }
    }
    list
}

/// Takes out all tokens, which have the numbers from 0 on, and gives how many they were.
fn spend(rt: &impl Abort, mut list: ItemList<Token>) -> u32 {
    let mut count: u32 = 0;
    while let Some(Token { number }) = list.next() {
        assert_eq!(rt; number, count);
        count = count.saturating_add(1);
    }
    list.end();
    count
}

#[test]
fn items_that_cannot_be_dropped_are_taken_out_one_by_one(rt: HostRuntime) {
    let alloc = rt.alloc();
    let list = tokens(&rt, alloc, MANY);
    assert_eq!(rt; list.len(), 10_000);
    assert_eq!(rt; spend(&rt, list), MANY);
    assert_eq!(rt; spend(&rt, tokens(&rt, alloc, 0)), 0);
}

#[test]
fn words_come_out_in_the_order_of_their_adding(rt: HostRuntime) -> Result<(), Fail> {
    let alloc = rt.alloc();
    let mut list = WordList::new(alloc);
    for word in ["run", "", "copy.toml"] {
        assert!(rt; list.push(Text::from_str(alloc, word)?).is_ok());
    }
    assert_eq!(rt; list.len(), 3);
    assert_eq!(rt; list.at(2).as_str(), "copy.toml");
    let slice = list.as_slice();
    assert_eq!(rt; slice.len(), 3);
    assert_eq!(rt; slice[0].as_str(), "run");
    for word in ["run", "", "copy.toml"] {
        let first = list.next().ok_or("no word")?;
        assert_eq!(rt; first.as_str(), word);
    }
    assert!(rt; list.next().is_none());
    list.end();
    Ok(())
}

#[test]
fn ten_thousand_words_are_kept(rt: HostRuntime) -> Result<(), Fail> {
    let alloc = rt.alloc();
    let mut list = WordList::new(alloc);
    for number in 0..MANY {
        let word = Text::from_str(alloc, number.to_string(alloc)?.as_str())?;
        assert!(rt; list.push(word).is_ok());
    }
    assert_eq!(rt; list.len(), 10_000);
    assert_eq!(rt; list.at(9_999).as_str(), "9999");
    assert_eq!(rt; list.as_slice()[1_234].as_str(), "1234");
    for number in 0..MANY {
        let first = list.next().ok_or("no word")?;
        assert_eq!(rt; first.as_str(), number.to_string(alloc)?.as_str());
    }
    assert!(rt; list.next().is_none());
    Ok(())
}

/// Takes only what may cross threads.
fn is_send<T: Send>(_: &T) {}

#[test]
fn lists_texts_and_names_may_cross_threads(rt: HostRuntime) -> Result<(), Fail> {
    let alloc = rt.alloc();
    is_send(&Bytes::new(alloc));
    is_send(&Text::from_str(alloc, "x")?);
    is_send(&PipeName::read(b"x"));
    is_send(&ItemList::<Bytes>::new(alloc));
    is_send(&ItemList::<Vec<u8>>::new(alloc));
    is_send(&WordList::new(alloc));
    Ok(())
}

#[test]
fn a_list_grows_in_the_room_that_was_taken(rt: HostRuntime) {
    let mut reserved = ReservedList::with_room(rt.alloc(), 3).expect(&rt, "no memory");
    reserved.push(Token { number: 0 });
    reserved.push(Token { number: 1 });
    reserved.push(Token { number: 2 });
    assert_eq!(rt; spend(&rt, reserved.into_list()), 3);
}
