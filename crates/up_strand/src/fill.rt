ghost use Rattle.std.specs.Prelude.{◌≡◌, ◌<◌, ◌≤◌, length};
ghost use Rattle.up_strand.specs.Reads.{Fills};

use up_base::Failed;
use up_outside::Source;

/// Why the filling of a room stopped.
#[derive(Clone, Copy, Debug, PartialEq, Eq)]
pub enum Stop {
    /// The room is full.
    Full,
    /// The source has no more bytes.
    End,
    /// A read failed.
    Fault,
}

/// How far a room was filled.
#[derive(Clone, Copy, Debug, PartialEq, Eq)]
pub struct Filled {
    pub count: usize,
    pub stop: Stop,
}

/// Fills a room from its front by as many reads as it takes.
fn fill<S: Source>(source: &mut S, room: &mut [u8]) -> Filled
    ensures fits { result.count ≤ length room.new }
    ensures full { result.stop ≡ Stop.Full → result.count ≡ length room.old }
    ensures end { result.stop ≡ Stop.End → result.count < length room.old }
    ensures fault { result.stop ≡ Stop.Fault → result.count < length room.old }
    ensures fills { Fills (S.state source.old) (S.state source.new) room.new result }
{
    let mut count = 0;
    while count < room.len() {
        match source.read(&mut room[count..]) {
            Ok(0) => {
                return Filled {
                    count,
                    stop: Stop::End,
                };
            }
            Ok(more) => count += more,
            Err(Failed) => {
                return Filled {
                    count,
                    stop: Stop::Fault,
                };
            }
        }
    }
    Filled {
        count,
        stop: Stop::Full,
    }
}

/// Fills the first `want` bytes of a room.
pub fn fill_front<S: Source>(source: &mut S, room: &mut [u8], want: usize) -> Filled
    requires within { want ≤ length room.old }
    ensures fits { result.count ≤ want }
    ensures full { result.stop ≡ Stop.Full → result.count ≡ want }
    ensures end { result.stop ≡ Stop.End → result.count < want }
    ensures fault { result.stop ≡ Stop.Fault → result.count < want }
    ensures fills { Fills (S.state source.old) (S.state source.new) room.new result }
{
    fill(source, &mut room[..want])
}
