ghost use Rattle.std.specs.Prelude.{◌≡◌};
ghost use Rattle.up_pump.specs.Circle.{first_due, is_due_at};

use crate::Pump;

/// Whether there is a pump of this number, and it is due.
fn is_due_at(pumps: &[Pump], number: usize) -> bool
    ensures { result ≡ is_due_at pumps.now number }
{
    pumps.get(number).is_some_and(Pump::is_due)
}

/// The first pump that is due, in the circle that begins at a number.
pub fn first_due(pumps: &[Pump], start: usize) -> Option<usize>
    ensures { result ≡ first_due pumps.now start }
{
    (start..pumps.len())
        .chain(0..start)
        .find(|number| is_due_at(pumps, *number))
}
