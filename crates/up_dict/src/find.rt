// Where an attribute stands in a run of bytes.
ghost use Rattle.std.specs.Prelude.{◌≡◌, ◌<◌, ◌≤◌, length, MatchResult};
ghost use Rattle.up_dict.specs.Held.{IsRun};
ghost use Rattle.up_dict.specs.Places.{HasFirst, StandBefore, IsFoundAt, IsMissingAt, ComparesAs};
ghost use Rattle.up_dict.specs.Reading.{attrs_in};

use crate::first::{first_name, first_size, rest_from};
use std::cmp::Ordering;

/// How the first attribute's name compares with one that is looked for.
pub(crate) enum Compared {
    /// It is less, and its attribute has so many bytes.
    Less { size: usize },
    Same,
    Greater,
}

fn compare(run: &[u8], name: &[u8]) -> Compared
    requires { HasFirst run.now }
    ensures { ComparesAs run.now name.now result }
{
    match first_name(run).cmp(name) {
        Ordering::Less => Compared::Less {
            size: first_size(run),
        },
        Ordering::Equal => Compared::Same,
        Ordering::Greater => Compared::Greater,
    }
}

/// The byte at which the attribute with the name begins, or else the byte at which it would begin.
pub(crate) fn find(run: &[u8], name: &[u8]) -> Result<usize, usize>
    requires { IsRun run.now }
    ensures { MatchResult result (IsFoundAt run.now name.now) (IsMissingAt run.now name.now) }
{
    let mut byte = 0;
    while byte < run.len() {
        match compare(rest_from(run, byte), name) {
            Compared::Less { size } => byte += size,
            Compared::Same => return Ok(byte),
            Compared::Greater => return Err(byte),
        }
    }
    Err(byte)
}

/// How many attributes there are.
pub(crate) fn count(run: &[u8]) -> usize
    requires { IsRun run.now }
    ensures { result ≡ length (attrs_in run.now) }
{
    let mut byte = 0;
    let mut count = 0;
    while byte < run.len() {
        byte += first_size(rest_from(run, byte));
        count += 1;
    }
    count
}

/// The byte at which the attribute at a place begins.
pub(crate) fn start_of(run: &[u8], place: usize) -> usize
    requires run { IsRun run.now }
    requires place { place < length (attrs_in run.now) }
    ensures { StandBefore (attrs_in run.now) place result }
{
    let mut byte = 0;
    for _before in 0..place {
        byte += first_size(rest_from(run, byte));
    }
    byte
}
