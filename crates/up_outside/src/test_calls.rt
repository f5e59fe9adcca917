// Calls of the traits through their bounds, comparisons, and many bytes, for tests.
ghost use Rattle.std.specs.Prelude.{◌≡◌, ◌<◌, length, IfOk};

use crate::{Depot, MemDepot, Sink, Source};
use std::alloc::{AllocError, Global};
use std::fmt::Debug;
use std::process::Abort;
use up_base::{Failed, Refusal};

/// Reads once.
pub fn read_once<S: Source>(source: &mut S, room: &mut [u8]) -> Result<usize, Failed>
    requires { 0 < length room.old }
    ensures { (S.state source.new).place ≡ (S.state source.old).place }
{
    source.read(room)
}

/// Writes once.
pub fn write_once<K: Sink>(sink: &mut K, piece: &[u8]) -> Result<usize, Refusal>
    requires { 0 < length piece.now }
    ensures { (K.state sink.new).place ≡ (K.state sink.old).place }
{
    sink.write(piece)
}

/// Whether a source is opened.
pub fn opens_source(depot: &mut MemDepot, path: &str) -> bool {
    depot.open_source(path).is_ok()
}

/// Whether a sink is opened.
pub fn opens_sink(depot: &mut MemDepot, path: &str) -> bool {
    depot.open_sink(path).is_ok()
}

/// Whether a source is refused as a fault.
pub fn refuses_source(depot: &mut MemDepot, path: &str) -> bool {
    matches!(depot.open_source(path), Err(Refusal::Failed))
}

/// Whether a sink is refused as a fault.
pub fn refuses_sink(depot: &mut MemDepot, path: &str) -> bool {
    matches!(depot.open_sink(path), Err(Refusal::Failed))
}

/// Seventy thousand times this byte.
pub fn many(alloc: Global, byte: u8) -> Result<Vec<u8>, AllocError>
    ensures { IfOk result (λ bytes. 0 < length bytes.items) }
{
    vec![in alloc; byte; 70_000]
}

/// Both are the same. A call is proved faster than a macro, which is a branch of the test itself.
pub fn assert_same<T: PartialEq + Debug + Drop>(rt: &impl Abort, left: T, right: T) {
    assert_eq!(rt; left, right);
}

/// This holds.
pub fn assert_that(rt: &impl Abort, holds: bool) {
    assert!(rt; holds);
}
