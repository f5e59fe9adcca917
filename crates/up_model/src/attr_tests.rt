use crate::{PlainAttrs, Value, ValueView};
use std::alloc::Global;
use std::process::Abort;
use std::test::Fail;
use up_base::{AttrName, Bytes, Text};

/// The value that is lent is the wanted one.
pub(crate) fn assert_seen(rt: &impl Abort, seen: ValueView<'_>, wanted: ValueView<'_>) {
    match (seen, wanted) {
        (ValueView::Void, ValueView::Void) => {}
        (ValueView::Flag(flag), ValueView::Flag(other)) => assert_eq!(rt; flag, other),
        (ValueView::Unsigned(number), ValueView::Unsigned(other)) => {
            assert_eq!(rt; number, other);
        }
        (ValueView::Words(text), ValueView::Words(other)) => assert_eq!(rt; text, other),
        (ValueView::Opaque(bytes), ValueView::Opaque(other)) => assert_eq!(rt; bytes, other),
        _ => assert!(rt; false, "a value of another type"),
    }
}

#[test]
fn each_value_is_seen_as_it_was_given(rt: HostRuntime) -> Result<(), Fail> {
    let alloc = rt.alloc();
    assert_seen(&rt, Value::Void.view(), ValueView::Void);
    assert_seen(&rt, Value::Flag(true).view(), ValueView::Flag(true));
    assert_seen(&rt, Value::Flag(false).view(), ValueView::Flag(false));
    let greatest = Value::Unsigned(u64::MAX);
    assert_seen(
        &rt,
        greatest.view(),
        ValueView::Unsigned(18_446_744_073_709_551_615),
    );
    let title = Value::Words(Text::from_str(alloc, "caf\u{e9}")?);
    assert_seen(&rt, title.view(), ValueView::Words("caf\u{e9}"));
    let key = Value::Opaque(Bytes::from_slice(alloc, &[0, 255])?);
    assert_seen(&rt, key.view(), ValueView::Opaque(&[0, 255]));
    Ok(())
}

/// The attribute has this number.
pub(crate) fn assert_number(rt: &impl Abort, attrs: &PlainAttrs, name: &AttrName, wanted: u64) {
    match attrs.get(name) {
        Some(value) => assert_seen(rt, value, ValueView::Unsigned(wanted)),
        None => assert!(rt; false, "no such attribute"),
    }
}

#[test]
fn a_second_value_takes_the_place_of_the_first(rt: HostRuntime) -> Result<(), Fail> {
    let mut attrs = PlainAttrs::new(rt.alloc());
    let rate = AttrName::read(b"rate")?;
    assert_eq!(rt; attrs.len(), 0);
    assert!(rt; attrs.get(&rate).is_none());
    assert!(rt; !attrs.set(rate, Value::Unsigned(25))?);
    assert_eq!(rt; attrs.len(), 1);
    assert_number(&rt, &attrs, &rate, 25);
    assert!(rt; attrs.set(rate, Value::Unsigned(30))?);
    assert_eq!(rt; attrs.len(), 1);
    assert_number(&rt, &attrs, &rate, 30);
    assert!(rt; attrs.get(&AttrName::read(b"Rate")?).is_none());
    Ok(())
}

/// Attributes with these names. Each has its place in the list as its value.
fn named(alloc: Global, names: &[&str]) -> Result<PlainAttrs, Fail> {
    let mut attrs = PlainAttrs::new(alloc);
    let mut place = 0;
    for name in names {
        attrs.set(AttrName::read(name.as_bytes())?, Value::Unsigned(place))?;
        place = place.saturating_add(1);
    }
    Ok(attrs)
}

#[test]
fn an_attribute_is_taken_away_once(rt: HostRuntime) -> Result<(), Fail> {
    let mut attrs = named(rt.alloc(), &["pid", "rate", "title"])?;
    let rate = AttrName::read(b"rate")?;
    assert!(rt; attrs.remove(&rate));
    assert_eq!(rt; attrs.len(), 2);
    assert!(rt; attrs.get(&rate).is_none());
    assert!(rt; !attrs.remove(&rate));
    assert_eq!(rt; attrs.len(), 2);
    assert_number(&rt, &attrs, &AttrName::read(b"pid")?, 0);
    assert_number(&rt, &attrs, &AttrName::read(b"title")?, 2);
    Ok(())
}

/// In byte order: `-` and `.` come before digits, these before capital letters, then `_`, then small letters; a name
/// comes before those that begin with it.
const RISING: [&str; 10] = ["0", "Z", "_", "a", "a-", "a.", "a.b", "aa", "ab", "b"];

/// Set in this order, the attributes stand in the rising order of their names.
fn assert_rising(rt: &impl Abort, alloc: Global, names: &[&str]) -> Result<(), Fail> {
    let attrs = named(alloc, names)?;
    assert_eq!(rt; attrs.len(), RISING.len());
    for (place, wanted) in RISING.iter().enumerate() {
        assert!(rt; place < attrs.len());
        let (name, _) = attrs.at(place);
        assert_eq!(rt; name.bytes(), wanted.as_bytes());
    }
    Ok(())
}

#[test]
fn attributes_stand_in_the_byte_order_of_their_names(rt: HostRuntime) -> Result<(), Fail> {
    let alloc = rt.alloc();
    let falling = ["b", "ab", "aa", "a.b", "a.", "a-", "a", "_", "Z", "0"];
    let mixed = ["a.", "b", "Z", "aa", "0", "a", "ab", "a-", "_", "a.b"];
    assert_rising(&rt, alloc, &RISING)?;
    assert_rising(&rt, alloc, &falling)?;
    assert_rising(&rt, alloc, &mixed)?;
    Ok(())
}

#[test]
fn each_place_has_its_name_and_its_value(rt: HostRuntime) -> Result<(), Fail> {
    let attrs = named(rt.alloc(), &["title", "pid"])?;
    assert_eq!(rt; attrs.len(), 2);
    let (pid, first) = attrs.at(0);
    let (title, second) = attrs.at(1);
    assert_eq!(rt; pid.bytes(), b"pid".as_slice());
    assert_seen(&rt, first, ValueView::Unsigned(1));
    assert_eq!(rt; title.bytes(), b"title".as_slice());
    assert_seen(&rt, second, ValueView::Unsigned(0));
    Ok(())
}

/// The name at a place of 64, in their order.
fn pair(place: u8) -> Result<AttrName, Fail> {
    Ok(AttrName::read(&[b'A' + place / 8, b'a' + place % 8])?)
}

#[test]
fn sixty_four_names_have_their_values(rt: HostRuntime) -> Result<(), Fail> {
    let mut attrs = PlainAttrs::new(rt.alloc());
    for place in (0..64u8).rev() {
        assert!(rt; !attrs.set(pair(place)?, Value::Unsigned(u64::from(place)))?);
    }
    assert_eq!(rt; attrs.len(), 64);
    for place in 0..64u8 {
        let wanted = pair(place)?;
        assert!(rt; usize::from(place) < attrs.len());
        let (name, _) = attrs.at(usize::from(place));
        assert_eq!(rt; name.bytes(), wanted.bytes());
        assert_number(&rt, &attrs, &wanted, u64::from(place));
    }
    for place in 0..64u8 {
        assert!(rt; attrs.remove(&pair(place)?));
        assert_eq!(rt; attrs.len(), 63 - usize::from(place));
    }
    Ok(())
}
