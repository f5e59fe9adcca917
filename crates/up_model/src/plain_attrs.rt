// The attributes of a packet, in the order of their names.
ghost use Rattle.std.specs.Prelude.{◌≡◌, ◌<◌, ◌≤◌, T, Some, None, length, slice_get, slice_set, IfOk, OnOk, OnErr, IfErr, MatchOption};
ghost use Rattle.std.specs.Ordering.{nat_cmp};
ghost use Rattle.std.specs.Cmp.Lexicographic.{slice_cmp};
ghost use Rattle.std.specs.List.{HoldsAt, insert};
ghost use Rattle.std.specs.List.Sorted.{IsBinarySearchResult, IsSearchInRange};
ghost use Rattle.std.specs.FinMap as map;
ghost use Rattle.up_model.specs.Value.{lent};

use crate::{Value, ValueView};
use std::alloc::Global;
use std::marker::Model;
use up_base::{AttrName, NoMemory, NoRoom};

/// The attributes of a packet: values by their names, in the byte order of the names.
#[derive(Debug, Drop)]
pub struct PlainAttrs {
    entries: Vec<(AttrName, Value)>,
}

impl Model for PlainAttrs {
    ghost use Rattle.std.specs.Prelude.{T, List, ℕ};
    ghost use Rattle.std.specs.Coded.{coded_list, coded_ℕ};
    ghost use Rattle.std.specs.FinMap.{code, from_sorted, is_sorted};
    ghost use Rattle.std.specs.Ordering.{nat_cmp};
    ghost use Rattle.std.specs.Cmp.Lexicographic.{slice_cmp};
    ghost use Rattle.up_model.specs.Attrs.{Attrs};
    ghost use Rattle.up_model.specs.contracts.value.Value as value;

    ghost Value = { Attrs };

    ghost coded = { code (coded_list coded_ℕ) value.the_row.coded };

    ghost view = { λ attrs. from_sorted attrs.entries.items };

    ghost invariant = { λ attrs. T (is_sorted (slice_cmp nat_cmp) attrs.entries.items) };
}

/// The place of the entry with the name, or else the place where it would stand.
fn place_of(entries: &[(AttrName, Value)], name: &AttrName) -> Result<usize, usize>
    ensures bound { IsSearchInRange result (length entries.now) }
    ensures place { IsBinarySearchResult
        (λ entry. slice_cmp nat_cmp entry.0 name.now) entries.now result }
{
    entries.binary_search_by(|entry| entry.0.bytes().cmp(name.bytes()))
}

/// The value of the entry at a place, lent.
fn value_at(entries: &[(AttrName, Value)], at: usize) -> ValueView<'_>
    requires { at < length entries.now }
    ensures { HoldsAt (λ entry. entry.1 ≡ lent result) entries.now at }
{
    entries[at].1.view()
}

/// Gives the entry at a place another value.
fn put_at(entries: &mut Vec<(AttrName, Value)>, at: usize, value: Value)
    requires { at < length entries.old.items }
    ensures { HoldsAt
        (λ entry. entries.new.items ≡ slice_set entries.old.items at (entry.0, value))
        entries.old.items at }
{
    entries[at].1 = value;
}

/// Adds an entry at a place. Where there is no room the value comes back.
fn insert_at(
    entries: &mut Vec<(AttrName, Value)>,
    at: usize,
    name: AttrName,
    value: Value,
) -> Result<(), NoRoom<Value>>
    requires { at ≤ length entries.old.items }
    ensures added { OnOk result (entries.new.items ≡ insert entries.old.items at (name, value)) }
    ensures unchanged { OnErr result (entries.new.items ≡ entries.old.items) }
    ensures back { IfErr result (λ refused. refused.back ≡ value) }
{
    match entries.insert(at, (name, value)) {
        Ok(()) => Ok(()),
        Err(refused) => Err(NoRoom {
            back: refused.value.1,
        }),
    }
}

/// The same entries, on memory of their own.
fn copies(alloc: Global, entries: &[(AttrName, Value)]) -> Result<Vec<(AttrName, Value)>, NoMemory>
    ensures { IfOk result (λ copies. copies.items ≡ entries.now) }
{
    let mut copies = Vec::new(alloc);
    for (name, value) in entries {
        copies.push((*name, value.copy(alloc)?))?;
    }
    Ok(copies)
}

impl PlainAttrs {
    /// No attributes. Nothing is allocated before the first of them.
    pub fn new(alloc: Global) -> PlainAttrs
        ensures { result ≡ map.empty }
    {
        PlainAttrs {
            entries: Vec::new(alloc),
        }
    }

    /// The attributes of these entries, whose names rise.
    pub(crate) fn in_order(entries: Vec<(AttrName, Value)>) -> PlainAttrs
        requires { T (map.is_sorted (slice_cmp nat_cmp) entries.items) }
        ensures { result ≡ map.from_sorted entries.items }
    {
        PlainAttrs { entries }
    }

    /// Gives the attribute this value, and says whether it was there before. Where there is no room the value comes back.
    pub fn set(&mut self, name: AttrName, value: Value) -> Result<bool, NoRoom<Value>>
        ensures set { OnOk result (self.new ≡ map.insert self.old name value) }
        ensures there { IfOk result (λ there. there ≡ map.contains_key self.old name) }
        ensures unchanged { OnErr result (self.new ≡ self.old) }
        ensures back { IfErr result (λ refused. refused.back ≡ value) }
    {
        match place_of(&self.entries, &name) {
            Ok(at) => {
                put_at(&mut self.entries, at, value);
                Ok(true)
            }
            Err(at) => {
                insert_at(&mut self.entries, at, name, value)?;
                Ok(false)
            }
        }
    }

    /// The value of the attribute, where it is there.
    pub fn get(&self, name: &AttrName) -> Option<ValueView<'_>>
        ensures { MatchOption result
            (map.get self.now name.now ≡ None)
            (λ value. map.get self.now name.now ≡ Some (lent value)) }
    {
        match place_of(&self.entries, name) {
            Ok(at) => Some(value_at(&self.entries, at)),
            Err(_) => None,
        }
    }

    /// Takes the attribute away, and says whether it was there.
    pub fn remove(&mut self, name: &AttrName) -> bool
        ensures gone { self.new ≡ map.remove self.old name.now }
        ensures there { result ≡ map.contains_key self.old name.now }
    {
        match place_of(&self.entries, name) {
            Ok(at) => {
                drop(self.entries.remove(at));
                true
            }
            Err(_) => false,
        }
    }

    pub fn len(&self) -> usize
        ensures { result ≡ map.len self.now }
    {
        self.entries.len()
    }

    /// The attribute at a place of the rising names, counted from 0.
    pub fn at(&self, i: usize) -> (AttrName, ValueView<'_>)
        requires { i < map.len self.now }
        ensures { slice_get (map.entries self.now) i ≡ Some (result.0, lent result.1) }
    {
        let entry = &self.entries[i];
        (entry.0, entry.1.view())
    }

    /// The same attributes, on memory of their own.
    pub fn copy(&self, alloc: Global) -> Result<PlainAttrs, NoMemory>
        ensures { IfOk result (λ copy. copy ≡ self.now) }
    {
        Ok(PlainAttrs {
            entries: copies(alloc, &self.entries)?,
        })
    }
}
