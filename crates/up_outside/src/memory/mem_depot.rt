ghost use Rattle.std.specs.Prelude.{◌≡◌, ◌<◌, ◌+◌, ◌++◌, ◌∷◌, ◌^◌, ◌-◌, [], ℕ, List, Some, None, true, false};
ghost use Rattle.std.specs.Prelude.{is_err, IfOk, OnOk, OnErr, IfSome, MatchOption};
ghost use Rattle.std.specs.FinMap as map;
ghost use Rattle.up_outside.specs.Asked.{IsOpenAt, source_ending, sink_ending};
ghost use Rattle.up_outside.specs.DepotCalls.{AsksFor, IsClosed, IsSourceOf, IsEmptySink};
ghost use Rattle.up_outside.specs.Held.{KeepsOthers};
ghost use Rattle.up_outside.specs.Memory.Failures.{failure, calls_made};
ghost use Rattle.up_outside.specs.Memory.Rooms.{HasRooms};
ghost use Rattle.up_outside.specs.Told.{Then};

use super::entries::{ask, close_entry};
use super::failures::{Failure, add_failure, calls_made, is_due, numbers_of};
use super::held_files::HeldFiles;
use crate::{Depot, DepotCall, Entry, Mark, MemSink, MemSource, Side};
use std::alloc::Global;
use up_base::{Bytes, Failed, NoMemory, Refusal};

/// A depot in memory. It tells what it holds and what was asked of it. A path that isn't held can't be opened for
/// reading; a sink's path is emptied at the open, which takes the room that the close needs. No other call fails but
/// those that `fail` names, and for want of memory.
#[derive(Drop)]
pub struct MemDepot {
    alloc: Global,
    held: HeldFiles,
    asked: Vec<Entry>,
    most: usize,
    failures: Vec<Failure>,
    source_faults: u64,
    sink_faults: u64,
    ghost moves: { 0 < most },
    ghost rooms: { HasRooms held asked.items },
}

impl MemDepot {
    ghost use Rattle.up_outside.specs.Memory.MemDepot.{depot_held, depot_asked, depot_state, depot_most};
    ghost use Rattle.up_outside.specs.Memory.MemDepot.{depot_failures, KeepsRules, depot_is_due, source_fails};
    ghost use Rattle.up_outside.specs.Memory.MemDepot.{ReadsByRules, WritesByRules};
    ghost use Rattle.up_outside.specs.Memory.MemSink.{sink_state};
    ghost use Rattle.up_outside.specs.Memory.MemSource.{source_state};

    /// A depot that holds nothing and was asked nothing. Its reads and writes move all that they can.
    pub fn new(alloc: Global) -> MemDepot
        ensures state { depot_state result ≡ record {
          held = Some map.empty;
          asked = Some [];
          source_faults = 0;
          sink_faults = 0;
        } }
        ensures most { depot_most result ≡ 2 ^ 64 - 1 }
        ensures failures { depot_failures result ≡ [] }
    {
        MemDepot {
            alloc,
            held: HeldFiles::new(alloc),
            asked: Vec::new(alloc),
            most: usize::MAX,
            failures: Vec::new(alloc),
            source_faults: 0,
            sink_faults: 0,
        }
    }

    /// Sets the bytes at a path.
    pub fn hold(&mut self, path: &str, bytes: &[u8]) -> Result<(), NoMemory>
        ensures held { OnOk result (depot_state self.new ≡ record (depot_state self.old) {
          held = Some (map.insert (depot_held self.old) path.now bytes.now);
        }) }
        ensures unchanged { OnErr result (depot_state self.new ≡ depot_state self.old) }
        ensures rules { KeepsRules self.old self.new }
    {
        let bytes = Bytes::from_slice(self.alloc, bytes)?;
        self.held.set(path, bytes)
    }

    /// Bounds each read and each write of the objects that are opened from now on.
    pub fn cut(&mut self, most: usize)
        requires { 0 < most }
        ensures most { depot_most self.new ≡ most }
        ensures failures { depot_failures self.new ≡ depot_failures self.old }
        ensures state { depot_state self.new ≡ depot_state self.old }
    {
        self.most = most;
    }

    /// Lets the nth such call on the path fail, counted from now on. Of the reads and the writes it is the nth of each
    /// object that is opened on the path from now on.
    pub fn fail(&mut self, call: DepotCall, path: &str, nth: u32) -> Result<(), NoMemory>
        requires { 0 < nth }
        ensures added { OnOk result (depot_failures self.new ≡ depot_failures self.old
            ++ failure call path.now (calls_made call path.now (depot_asked self.old) + nth) ∷ []) }
        ensures unchanged { OnErr result (depot_failures self.new ≡ depot_failures self.old) }
        ensures most { depot_most self.new ≡ depot_most self.old }
        ensures state { depot_state self.new ≡ depot_state self.old }
    {
        let number = calls_made(&self.asked, call, path) + u64::from(nth);
        add_failure(self.alloc, &mut self.failures, call, path, number)
    }

    /// The bytes at a path, where it is held.
    pub fn bytes(&self, path: &str) -> Option<&[u8]>
        ensures { MatchOption result
            (map.get (depot_held self.now) path.now ≡ None)
            (λ bytes. map.get (depot_held self.now) path.now ≡ Some bytes.now) }
    {
        self.held.bytes(path)
    }

    /// One entry for each open that was refused or succeeded, in order.
    pub fn asked(&self) -> &[Entry]
        ensures { result.now ≡ depot_asked self.now }
    {
        &self.asked
    }

    /// How many opens of sources, and closes of faulty ones, were counted.
    pub fn source_faults(&self) -> u64
        ensures { result ≡ (depot_state self.now).source_faults }
    {
        self.source_faults
    }

    /// How many opens of sinks, and closes of faulty ones, were counted.
    pub fn sink_faults(&self) -> u64
        ensures { result ≡ (depot_state self.now).sink_faults }
    {
        self.sink_faults
    }

    /// Whether the next such call on the path is one that fails.
    fn is_due(&self, call: DepotCall, path: &str) -> bool
        ensures { result ≡ depot_is_due call path.now self.now }
    {
        let number = calls_made(&self.asked, call, path) + 1;
        is_due(&self.failures, call, path, number)
    }

    /// A source of the bytes at the path, where it is held and its open isn't one that fails.
    fn source_at(&self, path: &str) -> Result<Option<MemSource>, NoMemory>
        ensures { IfOk result (λ found. MatchOption found
            (source_fails path.now self.now ≡ true)
            (λ source. (source_fails path.now self.now ≡ false)
            × IsSourceOf (depot_state self.now) path.now (source_state source)
            × ReadsByRules self.now path.now source)) }
    {
        if self.is_due(DepotCall::OpenSource, path) {
            return Ok(None);
        }
        match self.held.bytes(path) {
            Some(bytes) => {
                let bytes = Bytes::from_slice(self.alloc, bytes)?;
                let failing = numbers_of(self.alloc, &self.failures, DepotCall::Read, path)?;
                let place = self.asked.len();
                Ok(Some(MemSource::new(bytes, self.most, place, failing)))
            }
            None => Ok(None),
        }
    }

    /// A sink for the next entry.
    fn sink_at(&self, path: &str) -> Result<MemSink, NoMemory>
        ensures empty { IfOk result (λ k. IsEmptySink (depot_state self.now) (sink_state k)) }
        ensures writes { IfOk result (WritesByRules self.now path.now) }
    {
        let failing = numbers_of(self.alloc, &self.failures, DepotCall::Write, path)?;
        let place = self.asked.len();
        Ok(MemSink::opened(self.alloc, self.most, place, failing))
    }
}

impl Depot for MemDepot {
    ghost use Rattle.up_outside.specs.Memory.MemDepot.{depot_held, depot_state, KeepsRules, depot_is_due};
    ghost use Rattle.up_outside.specs.Memory.MemDepot.{source_fails, FailsWhere, Empties, ReadsByRules, WritesByRules};
    ghost use Rattle.up_outside.specs.Memory.MemSink.{sink_written, sink_state};
    ghost use Rattle.up_outside.specs.Memory.MemSource.{source_state};
    ghost use Rattle.up_outside.specs.declared.memory.depot_call.DepotCall.TheVariants.{OpenSink, CloseSink};

    type Src = MemSource;

    type Snk = MemSink;

    ghost state = { depot_state };

    fn open_source(&mut self, path: &str) -> Result<MemSource, Refusal>
        ensures opens { IfOk result (λ s.
            IsSourceOf (depot_state self.old) path.now (source_state s)) }
        ensures asks { AsksFor (depot_state self.old) (depot_state self.new)
            Side.Source path.now result }
        ensures held { (depot_state self.new).held ≡ (depot_state self.old).held }
        ensures fails { FailsWhere (source_fails path.now self.old) result }
        ensures reads { IfOk result (ReadsByRules self.old path.now) }
        ensures rules { KeepsRules self.old self.new }
    {
        match self.source_at(path)? {
            Some(source) => {
                ask(self.alloc, &mut self.asked, path, Side::Source, Mark::Open)?;
                Ok(source)
            }
            None => {
                let refused = Mark::Refused;
                ask(self.alloc, &mut self.asked, path, Side::Source, refused)?;
                self.source_faults = self.source_faults.saturating_add(1);
                Err(Refusal::Failed)
            }
        }
    }

    fn open_sink(&mut self, path: &str) -> Result<MemSink, Refusal>
        ensures opens { IfOk result (λ k. IsEmptySink (depot_state self.old) (sink_state k)) }
        ensures asks { AsksFor (depot_state self.old) (depot_state self.new)
            Side.Sink path.now result }
        ensures held { Then (KeepsOthers path.now)
            (depot_state self.old).held (depot_state self.new).held }
        ensures fails { FailsWhere (depot_is_due OpenSink path.now self.old) result }
        ensures empties { Empties result path.now (depot_held self.old) (depot_held self.new) }
        ensures writes { IfOk result (WritesByRules self.old path.now) }
        ensures rules { KeepsRules self.old self.new }
    {
        if self.is_due(DepotCall::OpenSink, path) {
            ask(self.alloc, &mut self.asked, path, Side::Sink, Mark::Refused)?;
            self.sink_faults = self.sink_faults.saturating_add(1);
            return Err(Refusal::Failed);
        }
        let sink = self.sink_at(path)?;
        self.held.set(path, Bytes::new(self.alloc))?;
        ask(self.alloc, &mut self.asked, path, Side::Sink, Mark::Open)?;
        Ok(sink)
    }

    fn close_source(&mut self, s: MemSource)
        requires { IfSome (depot_state self.old).asked (λ asked. (path : List ℕ)
            × IsOpenAt asked (source_state s).place Side.Source path) }
        ensures closes { IsClosed (depot_state self.old) (depot_state self.new) Side.Source
            (source_ending (source_state s)) }
        ensures held { (depot_state self.new).held ≡ (depot_state self.old).held }
        ensures rules { KeepsRules self.old self.new }
    {
        let failed = s.faults() > 0;
        if failed {
            self.source_faults = self.source_faults.saturating_add(1);
        }
        close_entry(&mut self.asked, s.place(), s.moved(), failed, true);
    }

    /// What was written lies at the path from now on, unless the close is one that fails.
    fn close_sink(&mut self, path: &str, k: MemSink) -> Result<(), Failed>
        requires { IfSome (depot_state self.old).asked (λ asked.
            IsOpenAt asked (sink_state k).place Side.Sink path.now) }
        ensures closes { IsClosed (depot_state self.old) (depot_state self.new) Side.Sink
            (sink_ending (sink_state k) result) }
        ensures held { Then (KeepsOthers path.now)
            (depot_state self.old).held (depot_state self.new).held }
        ensures stored { OnOk result (depot_held self.new
            ≡ map.insert (depot_held self.old) path.now (sink_written k)) }
        ensures unchanged { OnErr result (depot_held self.new ≡ depot_held self.old) }
        ensures fails { is_err result ≡ depot_is_due CloseSink path.now self.old }
        ensures rules { KeepsRules self.old self.new }
    {
        let shut = !self.is_due(DepotCall::CloseSink, path);
        let failed = k.faults() > 0 || !shut;
        if failed {
            self.sink_faults = self.sink_faults.saturating_add(1);
        }
        close_entry(&mut self.asked, k.place(), k.moved(), failed, shut);
        if !shut {
            return Err(Failed);
        }
        self.held.replace(path, k.into_bytes());
        Ok(())
    }
}
