ghost use Rattle.std.specs.Prelude.{◌≡◌, ◌<◌, true, Some, None, length, slice_get, slice_set, position, is_some};
ghost use Rattle.std.specs.Prelude.{OnOk, OnErr, MatchOption};
ghost use Rattle.std.specs.Str.{bytes_eq};
ghost use Rattle.std.specs.FinMap.{empty, get, insert};
ghost use Rattle.up_outside.specs.Memory.HeldFiles.{File};

use std::alloc::Global;
use std::marker::Model;
use up_base::{Bytes, NoMemory, Text};

/// The files of a depot in memory: the paths that are held, each with its bytes.
#[derive(Drop)]
pub struct HeldFiles {
    alloc: Global,
    files: Vec<(Text, Bytes)>,
}

impl Model for HeldFiles {
    ghost use Rattle.std.specs.Coded.{coded_list, coded_ℕ};
    ghost use Rattle.std.specs.FinMap.{code, from_entries};
    ghost use Rattle.up_outside.specs.Held.{Held};

    ghost Value = { Held };

    ghost coded = { code (coded_list coded_ℕ) (coded_list coded_ℕ) };

    ghost view = { λ held. from_entries held.files.items };
}

/// The place of the first file with the path.
fn place_of(files: &[(Text, Bytes)], path: &str) -> Option<usize>
    ensures { result ≡ position (λ file. bytes_eq file.0 path.now) files.now }
{
    files.iter().position(|file| file.0.as_str() == path)
}

/// The bytes of the file at a place.
fn bytes_at(files: &[(Text, Bytes)], at: usize) -> &[u8]
    requires { at < length files.now }
    ensures { (file : File) → slice_get files.now at ≡ Some file → result.now ≡ file.1 }
{
    files[at].1.as_slice()
}

/// Gives the file at a place other bytes.
fn put_at(files: &mut Vec<(Text, Bytes)>, at: usize, bytes: Bytes)
    requires { at < length files.old.items }
    ensures { (file : File) → slice_get files.old.items at ≡ Some file
        → files.new.items ≡ slice_set files.old.items at (file.0, bytes) }
{
    files[at].1 = bytes;
}

impl HeldFiles {
    /// No files.
    pub fn new(alloc: Global) -> HeldFiles
        ensures { result ≡ empty }
    {
        HeldFiles {
            alloc,
            files: Vec::new(alloc),
        }
    }

    /// The bytes at the path, where it is held.
    pub fn bytes(&self, path: &str) -> Option<&[u8]>
        ensures { MatchOption result
            (get self.now path.now ≡ None)
            (λ bytes. get self.now path.now ≡ Some bytes.now) }
    {
        match place_of(&self.files, path) {
            Some(at) => Some(bytes_at(&self.files, at)),
            None => None,
        }
    }

    /// Sets the bytes at the path.
    pub fn set(&mut self, path: &str, bytes: Bytes) -> Result<(), NoMemory>
        ensures set { OnOk result (self.new ≡ insert self.old path.now bytes) }
        ensures unchanged { OnErr result (self.new ≡ self.old) }
    {
        match place_of(&self.files, path) {
            Some(at) => put_at(&mut self.files, at, bytes),
            None => {
                let path = Text::from_str(self.alloc, path)?;
                self.files.insert(0, (path, bytes))?;
            }
        }
        Ok(())
    }

    /// Sets the bytes at a path that is held, which takes no memory.
    pub fn replace(&mut self, path: &str, bytes: Bytes)
        requires { is_some (get self.old path.now) ≡ true }
        ensures { self.new ≡ insert self.old path.now bytes }
    {
        match place_of(&self.files, path) {
            Some(at) => put_at(&mut self.files, at, bytes),
            None => unreachable!(),
        }
    }
}
