ghost use Rattle.std.specs.Prelude.{◌≡◌, None, refl};

use crate::Source;
use std::io::Read;
use up_base::Failed;

/// A source over a reader of std, as an open file. It tells what the reader tells: of a file nothing.
#[derive(Drop)]
pub struct ReaderSource<R: Drop> {
    reader: R,
    faults: u64,
}

impl<R: Read + Drop> ReaderSource<R> {
    ghost use Rattle.up_outside.specs.System.Adapters.{reader_of, reader_faults};

    /// A source over the reader, of which no read has failed.
    pub fn new(reader: R) -> ReaderSource<R>
        ensures over { reader_of result ≡ reader }
        ensures fresh { reader_faults result ≡ 0 }
    {
        ReaderSource { reader, faults: 0 }
    }

    /// How many reads failed.
    pub fn faults(&self) -> u64
        ensures { result ≡ reader_faults self.now }
    {
        self.faults
    }
}

impl<R: Read + Drop> Source for ReaderSource<R> {
    ghost use Rattle.up_outside.specs.System.Adapters.{reader_of, reader_faults};

    ghost state = { λ s. record {
      left = R.remaining (reader_of s);
      place = None;
      moved = None;
      faults = reader_faults s;
    } };

    ghost together = { λ _. refl };

    fn read(&mut self, room: &mut [u8]) -> Result<usize, Failed> {
        match self.reader.read(room) {
            Ok(count) => Ok(count),
            Err(_) => {
                self.faults = self.faults.saturating_add(1);
                Err(Failed)
            }
        }
    }
}
