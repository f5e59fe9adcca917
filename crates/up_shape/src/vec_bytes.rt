ghost use Rattle.std.specs.Prelude.{◌≡◌, ◌≤◌, ◌+◌, ◌++◌, length, take, drop, IfOk, OnOk, OnErr};
ghost use Rattle.up_shape.specs.Bytes.{written_at};

use crate::byte_edits::{drop_first, write_over};
use std::alloc::Global;
use std::fmt;
use std::marker::Model;
use up_base::NoMemory;

/// Bytes in a vector, from a place on. What lies before the place is dead; it stays until bytes are added.
#[derive(Drop)]
pub(crate) struct VecBytes {
    held: Vec<u8>,
    start: usize,
}

impl Model for VecBytes {
    ghost use Rattle.std.specs.Prelude.{ℕ, List, ◌≤◌, length, drop};

    ghost Value = { List ℕ };

    ghost view = { λ bytes. drop bytes.start bytes.held.items };

    ghost invariant = { λ bytes. bytes.start ≤ length bytes.held.items };
}

impl VecBytes {
    /// All bytes of the vector.
    pub(crate) fn whole(held: Vec<u8>) -> VecBytes
        ensures { result ≡ held.items }
    {
        VecBytes { held, start: 0 }
    }

    pub(crate) fn of_slice(alloc: Global, bytes: &[u8]) -> Result<VecBytes, NoMemory>
        ensures { IfOk result (λ made. made ≡ bytes.now) }
    {
        Ok(VecBytes::whole(Vec::from_slice(alloc, bytes)?))
    }

    /// What took their memory.
    pub(crate) fn alloc(&self) -> Global {
        *self.held.allocator()
    }

    pub(crate) fn as_slice(&self) -> &[u8]
        ensures { result.now ≡ self.now }
    {
        &self.held[self.start..]
    }

    /// Takes the first bytes away, and moves none.
    pub(crate) fn drop_front(&mut self, count: usize)
        requires { count ≤ length self.old }
        ensures { self.new ≡ drop count self.old }
    {
        self.start += count;
    }

    /// Takes all but the first bytes away.
    pub(crate) fn keep_front(&mut self, count: usize)
        requires { count ≤ length self.old }
        ensures { self.new ≡ take count self.old }
    {
        self.held.truncate(self.start + count);
    }

    /// Adds these bytes at the end. Where no fewer bytes are dead than are left, those that are left move to the start
    /// first, so that each byte that moves is paid for by one that was taken away.
    pub(crate) fn append(&mut self, added: &[u8]) -> Result<(), NoMemory>
        ensures added { OnOk result (self.new ≡ self.old ++ added.now) }
        ensures unchanged { OnErr result (self.new ≡ self.old) }
    {
        if self.start >= self.held.len() - self.start {
            self.move_to_start();
        }
        self.held.extend_from_slice(added)?;
        Ok(())
    }

    /// Moves the bytes to the start of the vector.
    fn move_to_start(&mut self)
        ensures { self.new ≡ self.old }
    {
        drop_first(&mut self.held, self.start);
        self.start = 0;
    }

    /// Writes these bytes over those from the place `at` on.
    pub(crate) fn write_at(&mut self, at: usize, written: &[u8])
        requires { at + length written.now ≤ length self.old }
        ensures { self.new ≡ written_at at written.now self.old }
    {
        let start = self.start;
        write_over(&mut self.held[start..], at, written);
    }
}

impl fmt::Debug for VecBytes {
    fn fmt<W: fmt::Write>(&self, f: &mut fmt::Formatter<W>) -> fmt::Result {
        self.as_slice().fmt(f)
    }
}
