ghost use Rattle.std.specs.Prelude.{◌≡◌, None, refl};

use crate::Sink;
use std::io::Write;
use up_base::Refusal;

/// A sink over a writer of std, as an open file or standard output. It tells what the writer tells: of a file nothing.
#[derive(Drop)]
pub struct WriterSink<W: Drop> {
    writer: W,
    faults: u64,
}

/// Standard output, over the writer that the runtime has for it.
pub type StdOut<W> = WriterSink<W>;

/// Standard error, over the writer that the runtime has for it.
pub type StdErr<W> = WriterSink<W>;

impl<W: Write + Drop> WriterSink<W> {
    ghost use Rattle.up_outside.specs.System.Adapters.{writer_of, writer_faults};

    /// A sink over the writer, of which no write has failed.
    pub fn new(writer: W) -> WriterSink<W>
        ensures over { writer_of result ≡ writer }
        ensures fresh { writer_faults result ≡ 0 }
    {
        WriterSink { writer, faults: 0 }
    }

    /// How many writes failed.
    pub fn faults(&self) -> u64
        ensures { result ≡ writer_faults self.now }
    {
        self.faults
    }
}

impl<W: Write + Drop> Sink for WriterSink<W> {
    ghost use Rattle.up_outside.specs.System.Adapters.{writer_of, writer_faults};

    ghost state = { λ k. record {
      written = W.contents (writer_of k);
      place = None;
      moved = None;
      faults = writer_faults k;
    } };

    ghost together = { λ _. refl };

    fn write(&mut self, piece: &[u8]) -> Result<usize, Refusal> {
        match self.writer.write(piece) {
            Ok(count) if count > 0 => Ok(count),
            _ => {
                self.faults = self.faults.saturating_add(1);
                Err(Refusal::Failed)
            }
        }
    }
}
