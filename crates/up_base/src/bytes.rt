ghost use Rattle.std.specs.Prelude.{◌≡◌, ◌++◌, [], IfOk, OnOk, OnErr};
ghost use Rattle.up_base.specs.ItemList.{AddsItem};

use crate::NoMemory;
use std::alloc::Global;
use std::marker::Model;

/// A list of bytes that can grow.
#[derive(Debug, Drop)]
pub struct Bytes {
    run: Vec<u8>,
}

impl Model for Bytes {
    ghost use Rattle.std.specs.Prelude.{List, ℕ};

    ghost Value = { List ℕ };

    ghost view = { λ bytes. bytes.run.items };
}

impl Bytes {
    /// No bytes. Nothing is allocated before the first of them.
    pub fn new(alloc: Global) -> Bytes
        ensures { result ≡ [] }
    {
        Bytes {
            run: Vec::new(alloc),
        }
    }

    pub fn from_slice(alloc: Global, b: &[u8]) -> Result<Bytes, NoMemory>
        ensures { IfOk result (λ bytes. bytes ≡ b.now) }
    {
        Ok(Bytes {
            run: Vec::from_slice(alloc, b)?,
        })
    }

    pub fn push(&mut self, b: u8) -> Result<(), NoMemory>
        ensures added { OnOk result (AddsItem b self.old self.new) }
        ensures unchanged { OnErr result (self.new ≡ self.old) }
    {
        self.run.push(b)?;
        Ok(())
    }

    pub fn append(&mut self, b: &[u8]) -> Result<(), NoMemory>
        ensures added { OnOk result (self.new ≡ self.old ++ b.now) }
        ensures unchanged { OnErr result (self.new ≡ self.old) }
    {
        self.run.extend_from_slice(b)?;
        Ok(())
    }

    /// Takes all bytes out. The room stays for the next.
    pub fn clear(&mut self)
        ensures { self.new ≡ [] }
    {
        self.run.clear();
    }

    pub fn as_slice(&self) -> &[u8]
        ensures { result.now ≡ self.now }
    {
        &self.run
    }
}
