use crate::{DateKind, Dict, SetRefused};
use std::alloc::Global;
use std::process::Abort;
use std::str;
use std::test::Fail;
use up_base::AttrName;
use up_model::ValueView;

pub(crate) fn named(rt: &impl Abort, name: &str) -> AttrName {
    AttrName::read(name.as_bytes()).expect(rt, "no name")
}

/// Sets the attribute, and says whether it was there.
pub(crate) fn set(rt: &impl Abort, dict: &mut Dict, name: &str, value: ValueView<'_>) -> bool {
    dict.set(&named(rt, name), value).expect(rt, "not set")
}

/// The dictionary has these attributes in this order, and no others.
pub(crate) fn assert_attrs(
    rt: &impl Abort,
    alloc: Global,
    dict: &Dict,
    wanted: &[(&str, &str)],
) -> Result<(), Fail> {
    assert_eq!(rt; dict.len(), wanted.len());
    for (i, (name, value)) in wanted.iter().enumerate() {
        assert!(rt; i < dict.len());
        let (found, shown) = dict.at(i);
        assert_eq!(rt; found.bytes(), name.as_bytes());
        let shown = format!(in alloc; "{shown:?}")?;
        assert_eq!(rt; shown.as_str(), *value);
    }
    Ok(())
}

/// The attribute has this value, or there is none.
pub(crate) fn assert_value(
    rt: &impl Abort,
    alloc: Global,
    dict: &Dict,
    name: &str,
    wanted: &str,
) -> Result<(), Fail> {
    let shown = format!(in alloc; "{:?}", dict.get(&named(rt, name)))?;
    assert_eq!(rt; shown.as_str(), wanted);
    Ok(())
}

#[test]
fn nothing_is_there_at_first(rt: HostRuntime) -> Result<(), Fail> {
    let alloc = rt.alloc();
    let mut dict = Dict::new(alloc);
    assert_eq!(rt; dict.len(), 0);
    assert!(rt; dict.get(&named(&rt, "x")).is_none());
    assert_eq!(rt; dict.date(DateKind::Sys), None);
    assert!(rt; !dict.remove(&named(&rt, "x")));
    assert_attrs(&rt, alloc, &dict.dup(alloc)?, &[])
}

#[test]
fn a_second_value_takes_the_place_of_the_first(rt: HostRuntime) -> Result<(), Fail> {
    let alloc = rt.alloc();
    let mut dict = Dict::new(alloc);
    let x = named(&rt, "x");
    assert_eq!(rt; dict.set(&x, ValueView::Unsigned(7)), Ok(false));
    assert_attrs(&rt, alloc, &dict, &[("x", "Unsigned(7)")])?;
    assert_eq!(rt; dict.set(&x, ValueView::Unsigned(8)), Ok(true));
    assert_attrs(&rt, alloc, &dict, &[("x", "Unsigned(8)")])?;
    assert_eq!(rt;
        dict.set(&x, ValueView::Words("longer than a number")),
        Ok(true)
    );
    assert_attrs(
        &rt,
        alloc,
        &dict,
        &[("x", "Words(\"longer than a number\")")],
    )?;
    assert_eq!(rt; dict.set(&x, ValueView::Void), Ok(true));
    assert_attrs(&rt, alloc, &dict, &[("x", "Void")])
}

#[test]
fn a_copy_keeps_its_own_attributes(rt: HostRuntime) -> Result<(), Fail> {
    let alloc = rt.alloc();
    let mut dict = Dict::new(alloc);
    set(&rt, &mut dict, "x", ValueView::Unsigned(7));
    set(&rt, &mut dict, "key", ValueView::Opaque(&[1, 2]));
    let mut copy = dict.dup(alloc)?;
    let both = [("key", "Opaque([1, 2])"), ("x", "Unsigned(7)")];
    assert_attrs(&rt, alloc, &copy, &both)?;
    set(&rt, &mut copy, "x", ValueView::Unsigned(8));
    assert!(rt; dict.remove(&named(&rt, "key")));
    assert_attrs(
        &rt,
        alloc,
        &copy,
        &[("key", "Opaque([1, 2])"), ("x", "Unsigned(8)")],
    )?;
    assert_attrs(&rt, alloc, &dict, &[("x", "Unsigned(7)")])
}

/// Sets attributes that aren't there yet.
fn set_all(rt: &impl Abort, dict: &mut Dict, values: &[(&str, ValueView<'_>, &str)]) {
    for (name, value, _) in values {
        assert!(rt; !set(rt, dict, name, *value));
    }
}

#[test]
fn each_type_comes_back_as_it_was_set(rt: HostRuntime) -> Result<(), Fail> {
    let alloc = rt.alloc();
    let mut dict = Dict::new(alloc);
    let values = [
        ("a", ValueView::Void, "Void"),
        ("b", ValueView::Flag(false), "Flag(false)"),
        ("c", ValueView::Flag(true), "Flag(true)"),
        ("d", ValueView::Unsigned(0), "Unsigned(0)"),
        (
            "e",
            ValueView::Unsigned(0x0102_0304_0506_0708),
            "Unsigned(72623859790382856)",
        ),
        (
            "f",
            ValueView::Unsigned(u64::MAX),
            "Unsigned(18446744073709551615)",
        ),
        ("g", ValueView::Words(""), "Words(\"\")"),
        ("h", ValueView::Words("caf\u{e9}"), "Words(\"caf\u{e9}\")"),
        ("i", ValueView::Opaque(&[]), "Opaque([])"),
        (
            "j",
            ValueView::Opaque(&[0, 255, 195]),
            "Opaque([0, 255, 195])",
        ),
    ];
    set_all(&rt, &mut dict, &values);
    for (name, _, shown) in values {
        let wanted = format!(in alloc; "Some({shown})")?;
        assert_value(&rt, alloc, &dict, name, wanted.as_str())?;
    }
    assert_eq!(rt; dict.len(), 10);
    Ok(())
}

#[test]
fn a_name_is_not_found_by_its_front_nor_by_more(rt: HostRuntime) -> Result<(), Fail> {
    let alloc = rt.alloc();
    let mut dict = Dict::new(alloc);
    set(&rt, &mut dict, "rate", ValueView::Unsigned(25));
    assert_value(&rt, alloc, &dict, "rat", "None")?;
    assert_value(&rt, alloc, &dict, "rates", "None")?;
    assert_value(&rt, alloc, &dict, "Rate", "None")?;
    assert_value(&rt, alloc, &dict, "rate", "Some(Unsigned(25))")?;
    assert!(rt; !dict.remove(&named(&rt, "rat")));
    assert!(rt; !dict.remove(&named(&rt, "rates")));
    assert_eq!(rt; dict.len(), 1);
    Ok(())
}

#[test]
fn a_date_is_the_number_under_its_name(rt: HostRuntime) -> Result<(), Fail> {
    let mut dict = Dict::new(rt.alloc());
    set(&rt, &mut dict, "date.sys", ValueView::Unsigned(27_000_000));
    set(&rt, &mut dict, "date.prog", ValueView::Words("27000000"));
    assert_eq!(rt; dict.date(DateKind::Sys), Some(27_000_000));
    assert_eq!(rt; dict.date(DateKind::Prog), None);
    assert_eq!(rt; dict.date(DateKind::Orig), None);
    set(&rt, &mut dict, "date.prog", ValueView::Unsigned(0));
    set(&rt, &mut dict, "date.orig", ValueView::Unsigned(u64::MAX));
    assert_eq!(rt; dict.date(DateKind::Prog), Some(0));
    assert_eq!(rt; dict.date(DateKind::Orig), Some(18_446_744_073_709_551_615));
    set(&rt, &mut dict, "date.sys", ValueView::Flag(true));
    assert_eq!(rt; dict.date(DateKind::Sys), None);
    Ok(())
}

#[test]
fn the_greatest_value_is_set_and_one_byte_more_is_refused(rt: HostRuntime) -> Result<(), Fail> {
    let alloc = rt.alloc();
    let mut dict = Dict::new(alloc);
    let greatest = vec![in alloc; b'a'; 4_096]?;
    let longer = vec![in alloc; b'a'; 4_097]?;
    let (x, y) = (named(&rt, "x"), named(&rt, "y"));
    assert_eq!(rt; dict.set(&x, ValueView::Opaque(&greatest)), Ok(false));
    assert_eq!(rt;
        dict.set(&y, ValueView::Words(str::from_utf8(&greatest)?)),
        Ok(false)
    );
    let refused = SetRefused::TooLong { len: 4_097 };
    assert_eq!(rt; dict.set(&x, ValueView::Opaque(&longer)), Err(refused));
    assert_eq!(rt;
        dict.set(&y, ValueView::Words(str::from_utf8(&longer)?)),
        Err(refused)
    );
    assert_eq!(rt; dict.len(), 2);
    match (dict.get(&x), dict.get(&y)) {
        (Some(ValueView::Opaque(bytes)), Some(ValueView::Words(text))) => {
            assert_eq!(rt; (bytes.len(), text.len()), (4_096, 4_096));
        }
        _ => assert!(rt; false, "not the values that were set"),
    }
    Ok(())
}

#[test]
fn a_refusal_tells_its_number(rt: HostRuntime) -> Result<(), Fail> {
    let alloc = rt.alloc();
    let texts = [
        (
            SetRefused::TooLong { len: 4_097 },
            "4097 bytes, where a value has at most 4096",
        ),
        (
            SetRefused::TooMany { count: 64 },
            "64 attributes are there, and at most 64 may be",
        ),
        (SetRefused::NoMemory, "out of memory"),
    ];
    for (refused, text) in texts {
        assert_eq!(rt; refused.to_string(alloc)?.as_str(), text);
    }
    Ok(())
}
