ghost use Rattle.std.specs.Prelude.{◌≡◌, ◌↔◌, ◌≤◌, None};
ghost use Rattle.std.specs.IoError.{error_kind};
ghost use Rattle.up_outside.specs.Counts.{Rose};

use crate::{Depot, ReaderSource, WriterSink};
use std::fs::{File, OpenOptions};
use std::io::{Error, ErrorKind};
use std::rt::Files;
use up_base::{Failed, Refusal};

/// The files of the system, by their paths. It tells nothing of what they hold. A sink's file is emptied at the open. A
/// device, a FIFO or a stream such as `/dev/stdout` serves as a path too.
#[derive(Drop)]
pub struct FileDepot<'r, R: Files<File = File>> {
    rt: &'r R,
    source_faults: u64,
    sink_faults: u64,
}

/// What the error of an open is answered as: want of memory by itself, and all else as a fault that is counted.
fn refused(error: &Error, faults: &mut u64) -> Refusal
    ensures memory { result ≡ Refusal.NoMemory ↔ error_kind error.now ≡ ErrorKind.OutOfMemory }
    ensures later { faults.old ≤ faults.new }
    ensures not_counted { result ≡ Refusal.NoMemory → faults.new ≡ faults.old }
    ensures cause { result ≡ Refusal.Failed → Rose faults.old faults.new }
{
    if error.kind() == ErrorKind::OutOfMemory {
        return Refusal::NoMemory;
    }
    *faults = faults.saturating_add(1);
    Refusal::Failed
}

impl<'r, R: Files<File = File>> FileDepot<'r, R> {
    ghost use Rattle.up_outside.specs.System.Adapters.{files_state};

    /// The files of this system, of which no call has failed.
    pub fn new(rt: &'r R) -> FileDepot<'r, R>
        ensures { files_state result ≡ record {
          held = None;
          asked = None;
          source_faults = 0;
          sink_faults = 0;
        } }
    {
        FileDepot {
            rt,
            source_faults: 0,
            sink_faults: 0,
        }
    }

    /// How many opens of sources, and closes of faulty ones, were counted.
    pub fn source_faults(&self) -> u64
        ensures { result ≡ (files_state self.now).source_faults }
    {
        self.source_faults
    }

    /// How many opens of sinks, and closes of faulty ones, were counted.
    pub fn sink_faults(&self) -> u64
        ensures { result ≡ (files_state self.now).sink_faults }
    {
        self.sink_faults
    }
}

impl<'r, R: Files<File = File>> Depot for FileDepot<'r, R> {
    ghost use Rattle.up_outside.specs.System.Adapters.{files_state};

    type Src = ReaderSource<File>;

    type Snk = WriterSink<File>;

    ghost state = { files_state };

    fn open_source(&mut self, path: &str) -> Result<ReaderSource<File>, Refusal> {
        match OpenOptions::new().read(true).open(self.rt, path) {
            Ok(file) => Ok(ReaderSource::new(file)),
            Err(error) => Err(refused(&error, &mut self.source_faults)),
        }
    }

    fn open_sink(&mut self, path: &str) -> Result<WriterSink<File>, Refusal> {
        match OpenOptions::new()
            .write(true)
            .create(true)
            .truncate(true)
            .open(self.rt, path)
        {
            Ok(file) => Ok(WriterSink::new(file)),
            Err(error) => Err(refused(&error, &mut self.sink_faults)),
        }
    }

    fn close_source(&mut self, s: ReaderSource<File>) {
        if s.faults() > 0 {
            self.source_faults = self.source_faults.saturating_add(1);
        }
    }

    fn close_sink(&mut self, path: &str, k: WriterSink<File>) -> Result<(), Failed> {
        if k.faults() > 0 {
            self.sink_faults = self.sink_faults.saturating_add(1);
        }
        Ok(())
    }
}
