// What each kind that looks at each packet by itself does with a packet.
ghost use Rattle.std.specs.Prelude.{◌≡◌, OnOk};
ghost use Rattle.std.specs.FinMap.{insert};
ghost use Rattle.up_model.specs.Attrs.{unsigned_at};
ghost use Rattle.up_model.specs.Dates.{date_name};
ghost use Rattle.up_model.specs.DelAttr.{delattr_step};
ghost use Rattle.up_model.specs.Delay.{moved, moved_date, delay_step};
ghost use Rattle.up_model.specs.MatchAttr.{match_attr_step};
ghost use Rattle.up_model.specs.Packetwise.{passes_on, drops};
ghost use Rattle.up_model.specs.SetAttr.{setattr_step};
ghost use Rattle.up_model.specs.Skip.{skip_step};

use crate::plain_step::PlainStep;
use crate::{DateKind, MAX_ATTRS, PlainAttrs, PlainPacket, Value, ValueView, Verdict};
use std::alloc::Global;
use up_base::{AttrName, Bytes, NoMemory};

/// What `idem` and `dup` do.
pub(crate) struct PassesOn;

impl PlainStep for PassesOn {
    ghost step = { λ _. passes_on };

    fn verdict(
        &self,
        alloc: Global,
        packet: &PlainPacket,
    ) -> Result<Verdict<PlainPacket>, NoMemory> {
        Ok(Verdict::Passes {
            packet: packet.copy(alloc)?,
            cut: 0,
        })
    }
}

/// What `null` does.
pub(crate) struct DropsAll;

impl PlainStep for DropsAll {
    ghost step = { λ _. drops };

    fn verdict(
        &self,
        _alloc: Global,
        _packet: &PlainPacket,
    ) -> Result<Verdict<PlainPacket>, NoMemory> {
        Ok(Verdict::Drops)
    }
}

/// What `skip` does.
#[derive(Drop)]
pub(crate) struct Skips {
    pub(crate) count: u32,
}

impl PlainStep for Skips {
    ghost step = { λ skips. skip_step skips.count };

    fn verdict(
        &self,
        alloc: Global,
        packet: &PlainPacket,
    ) -> Result<Verdict<PlainPacket>, NoMemory> {
        let bytes = packet.bytes.as_slice();
        let count = self.count as usize;
        if bytes.len() < count {
            return Ok(Verdict::Drops);
        }
        Ok(Verdict::Passes {
            packet: PlainPacket {
                attrs: packet.attrs.copy(alloc)?,
                bytes: Bytes::from_slice(alloc, &bytes[count..])?,
            },
            cut: u64::from(self.count),
        })
    }
}

/// Gives the attribute this value.
fn set(attrs: &mut PlainAttrs, name: AttrName, value: Value) -> Result<(), NoMemory>
    ensures { OnOk result (attrs.new ≡ insert attrs.old name value) }
{
    match attrs.set(name, value) {
        Ok(_) => Ok(()),
        Err(_) => Err(NoMemory),
    }
}

/// What `setattr` does.
#[derive(Drop)]
pub(crate) struct Sets {
    pub(crate) attr: AttrName,
    pub(crate) value: Value,
}

impl PlainStep for Sets {
    ghost step = { λ sets. setattr_step sets.attr sets.value };

    fn verdict(
        &self,
        alloc: Global,
        packet: &PlainPacket,
    ) -> Result<Verdict<PlainPacket>, NoMemory> {
        let mut packet = packet.copy(alloc)?;
        set(&mut packet.attrs, self.attr, self.value.copy(alloc)?)?;
        if packet.attrs.len() > MAX_ATTRS {
            return Ok(Verdict::Drops);
        }
        Ok(Verdict::Passes { packet, cut: 0 })
    }
}

/// What `delattr` does.
#[derive(Drop)]
pub(crate) struct TakesAway {
    pub(crate) attr: AttrName,
}

impl PlainStep for TakesAway {
    ghost step = { λ takes. delattr_step takes.attr };

    fn verdict(
        &self,
        alloc: Global,
        packet: &PlainPacket,
    ) -> Result<Verdict<PlainPacket>, NoMemory> {
        let mut packet = packet.copy(alloc)?;
        packet.attrs.remove(&self.attr);
        Ok(Verdict::Passes { packet, cut: 0 })
    }
}

/// The number that the attribute is, where it is there and a number.
fn unsigned_at(attrs: &PlainAttrs, name: &AttrName) -> Option<u64>
    ensures { result ≡ unsigned_at name.now attrs.now }
{
    match attrs.get(name) {
        Some(ValueView::Unsigned(number)) => Some(number),
        _ => None,
    }
}

/// What `match_attr` does.
#[derive(Drop)]
pub(crate) struct Matches {
    pub(crate) attr: AttrName,
    pub(crate) low: u64,
    pub(crate) high: u64,
}

impl PlainStep for Matches {
    ghost step = { λ matches. match_attr_step matches.attr matches.low matches.high };

    fn verdict(
        &self,
        alloc: Global,
        packet: &PlainPacket,
    ) -> Result<Verdict<PlainPacket>, NoMemory> {
        match unsigned_at(&packet.attrs, &self.attr) {
            Some(number) if self.low <= number && number <= self.high => Ok(Verdict::Passes {
                packet: packet.copy(alloc)?,
                cut: 0,
            }),
            _ => Ok(Verdict::Drops),
        }
    }
}

/// The date, moved, where that is a number of 64 bits.
fn moved_date(date: u64, by: i64) -> Option<u64>
    ensures { result ≡ moved_date by date }
{
    if by < 0 {
        date.checked_sub(by.unsigned_abs())
    } else {
        date.checked_add(by.unsigned_abs())
    }
}

/// Moves the attribute, where it is there and a number.
fn move_attr(attrs: &mut PlainAttrs, name: AttrName, by: i64) -> Result<(), NoMemory>
    ensures { OnOk result (attrs.new ≡ moved by name attrs.old) }
{
    let Some(date) = unsigned_at(attrs, &name) else {
        return Ok(());
    };
    match moved_date(date, by) {
        Some(date) => set(attrs, name, Value::Unsigned(date)),
        None => {
            attrs.remove(&name);
            Ok(())
        }
    }
}

/// Moves a date, where it is there and a number.
fn move_date(attrs: &mut PlainAttrs, which: DateKind, by: i64) -> Result<(), NoMemory>
    ensures { OnOk result (attrs.new ≡ moved by (date_name which) attrs.old) }
{
    move_attr(attrs, AttrName::of(which.name()), by)
}

/// What `delay` does.
#[derive(Drop)]
pub(crate) struct Delays {
    pub(crate) by: i64,
}

impl PlainStep for Delays {
    ghost step = { λ delays. delay_step delays.by };

    fn verdict(
        &self,
        alloc: Global,
        packet: &PlainPacket,
    ) -> Result<Verdict<PlainPacket>, NoMemory> {
        let mut packet = packet.copy(alloc)?;
        move_date(&mut packet.attrs, DateKind::Sys, self.by)?;
        move_date(&mut packet.attrs, DateKind::Prog, self.by)?;
        move_date(&mut packet.attrs, DateKind::Orig, self.by)?;
        Ok(Verdict::Passes { packet, cut: 0 })
    }
}
