// The attributes of a packet, in one run of bytes.
ghost use Rattle.std.specs.Prelude.{◌≡◌, ◌<◌, None, Some, slice_get, IfOk, OnOk, OnErr, MatchOption};
ghost use Rattle.std.specs.FinMap as map;
ghost use Rattle.up_dict.specs.Held.{AreLegal};
ghost use Rattle.up_dict.specs.Refusal.{Answers, refusal_of};
ghost use Rattle.up_model.specs.Attrs.{unsigned_at};
ghost use Rattle.up_model.specs.Dates.{date_name};
ghost use Rattle.up_model.specs.Value.{lent};

use crate::edit::{cut, put};
use crate::find::{count, find, start_of};
use crate::first::{first_name, first_size, first_value, rest_from};
use crate::spell::value_size;
use crate::{DateKind, SetRefused};
use std::alloc::Global;
use std::marker::Model;
use up_base::{AttrName, NoMemory};
use up_model::{MAX_ATTRS, MAX_VALUE, ValueView};

/// The attributes of a packet: values by their names, in the byte order of the names. There are at
/// most `MAX_ATTRS`, and each text and opaque value has at most `MAX_VALUE` bytes.
#[derive(Debug, Drop)]
pub struct Dict {
    run: Vec<u8>,
}

impl Model for Dict {
    ghost use Rattle.std.specs.Coded.{coded_list, coded_ℕ};
    ghost use Rattle.std.specs.FinMap.{code};
    ghost use Rattle.up_model.specs.Attrs.{Attrs};
    ghost use Rattle.up_model.specs.contracts.value.Value as value;

    ghost Value = { Attrs };

    ghost coded = { code (coded_list coded_ℕ) value.the_row.coded };

    ghost use Rattle.up_dict.specs.Held.{IsRun, held_in};

    ghost view = { λ dict. held_in dict.run.items };

    ghost invariant = { λ dict. IsRun dict.run.items };
}

impl Dict {
    /// No attributes. Nothing is allocated before the first of them.
    pub fn new(alloc: Global) -> Dict
        ensures { result ≡ map.empty }
    {
        Dict {
            run: Vec::new(alloc),
        }
    }

    /// Gives the attribute this value, and says whether it was there before. A refusal changes nothing.
    pub fn set(&mut self, name: &AttrName, value: ValueView<'_>) -> Result<bool, SetRefused>
        ensures set { OnOk result (self.new ≡ map.insert self.old name.now (lent value.entry)) }
        ensures there { IfOk result (λ there. there ≡ map.contains_key self.old name.now) }
        ensures refused { Answers (refusal_of self.old name.now (lent value.entry)) result }
        ensures unchanged { OnErr result (self.new ≡ self.old) }
    {
        let len = value_size(value);
        if len > MAX_VALUE {
            return Err(SetRefused::TooLong { len });
        }
        let found = find(&self.run, name.bytes());
        match found {
            Ok(byte) => {
                let size = first_size(rest_from(&self.run, byte));
                put(&mut self.run, byte, size, name.bytes(), value)?;
                Ok(true)
            }
            Err(byte) => {
                let count = count(&self.run);
                if count >= MAX_ATTRS {
                    return Err(SetRefused::TooMany { count });
                }
                put(&mut self.run, byte, 0, name.bytes(), value)?;
                Ok(false)
            }
        }
    }

    /// The value of the attribute, where it is there.
    pub fn get(&self, name: &AttrName) -> Option<ValueView<'_>>
        ensures { MatchOption result
            (map.get self.now name.now ≡ None)
            (λ value. map.get self.now name.now ≡ Some (lent value)) }
    {
        match find(&self.run, name.bytes()) {
            Ok(byte) => Some(first_value(rest_from(&self.run, byte))),
            Err(_) => None,
        }
    }

    /// Takes the attribute away, and says whether it was there.
    pub fn remove(&mut self, name: &AttrName) -> bool
        ensures gone { self.new ≡ map.remove self.old name.now }
        ensures there { result ≡ map.contains_key self.old name.now }
    {
        let found = find(&self.run, name.bytes());
        match found {
            Ok(byte) => {
                let size = first_size(rest_from(&self.run, byte));
                cut(&mut self.run, byte, size);
                true
            }
            Err(_) => false,
        }
    }

    /// How many attributes there are. They are legal.
    pub fn len(&self) -> usize
        ensures len { result ≡ map.len self.now }
        ensures legal { AreLegal self.now }
    {
        count(&self.run)
    }

    /// The attribute at a place of the rising names, counted from 0.
    pub fn at(&self, i: usize) -> (AttrName, ValueView<'_>)
        requires { i < map.len self.now }
        ensures { slice_get (map.entries self.now) i ≡ Some (result.0, lent result.1) }
    {
        let byte = start_of(&self.run, i);
        let attr = rest_from(&self.run, byte);
        (AttrName::of(first_name(attr)), first_value(attr))
    }

    /// The number of the date. `None` where its attribute isn't there, or its value is no number.
    pub fn date(&self, which: DateKind) -> Option<u64>
        ensures { result ≡ unsigned_at (date_name which) self.now }
    {
        match self.get(&AttrName::of(which.name())) {
            Some(ValueView::Unsigned(number)) => Some(number),
            _ => None,
        }
    }

    /// The same attributes, on memory of their own.
    pub fn dup(&self, alloc: Global) -> Result<Dict, NoMemory>
        ensures { IfOk result (λ copy. copy ≡ self.now) }
    {
        Ok(Dict {
            run: Vec::from_slice(alloc, &self.run)?,
        })
    }
}
