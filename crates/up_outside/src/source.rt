ghost use Rattle.std.specs.Prelude.{◌≡◌, ◌<◌, length, is_some};
ghost use Rattle.std.specs.Io.{ReadsAtMost};
ghost use Rattle.up_outside.specs.States.{SourceState};
ghost use Rattle.up_outside.specs.Moves.{Reads};

use up_base::Failed;

/// Where bytes come from. A source may tell what is still to come, as one in memory does; a file tells nothing.
pub trait Source {
    /// What is still to come, where its entry stands, and what its reads did.
    ghost state: { Self → SourceState };

    /// Moves the next bytes to the front of the room and says how many they are. `Ok(0)` is the end of the input. After
    /// `Failed` the bytes still to come are those that were.
    fn read(&mut self, room: &mut [u8]) -> Result<usize, Failed>
        requires { 0 < length room.old }
        ensures bound { ReadsAtMost result room.new }
        ensures reads { Reads (state self.old) (state self.new) room.new result };

    /// Who tells its place tells what it moved, and the other way round.
    ghost together: { (s : Self) → is_some (state s).moved ≡ is_some (state s).place };
}
