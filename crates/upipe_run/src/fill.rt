ghost use Rattle.std.specs.Prelude.{◌≡◌, ◌<◌, ◌≤◌, length};
ghost use Rattle.upipe_run.specs.Filling.{Fills};

use up_base::Failed;
use up_outside::Source;

/// Why the filling of a room stopped.
#[derive(Clone, Copy, Debug, PartialEq, Eq)]
pub enum Stop {
    /// The room is full.
    Full,
    /// The source has no more bytes.
    End,
    /// A read failed.
    Fault,
}

/// How far a room was filled.
#[derive(Clone, Copy, Debug, PartialEq, Eq)]
pub struct Filled {
    pub count: usize,
    pub stop: Stop,
}

/// Fills a room from its front by as many reads as it takes.
pub fn fill<S: Source>(source: &mut S, room: &mut [u8]) -> Filled
    ensures fits { result.count ≤ length room.new }
    ensures full { result.stop ≡ Stop.Full → result.count ≡ length room.old }
    ensures short { result.stop ≡ Stop.End → result.count < length room.old }
    ensures fills { Fills (S.state source.old) (S.state source.new) room.new result }
{
    let mut count = 0;
    while count < room.len() {
        match source.read(&mut room[count..]) {
            Ok(0) => {
                return Filled {
                    count,
                    stop: Stop::End,
                };
            }
            Ok(more) => count += more,
            Err(Failed) => {
                return Filled {
                    count,
                    stop: Stop::Fault,
                };
            }
        }
    }
    Filled {
        count,
        stop: Stop::Full,
    }
}
