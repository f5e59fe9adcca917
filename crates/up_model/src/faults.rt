// The tests of a pipe among the pipes of its graph.
ghost use Rattle.std.specs.Prelude.{◌≡◌, length, take};
ghost use Rattle.std.specs.List.{list_any};
ghost use Rattle.up_model.specs.Ends.{is_one_path, path_of, clash_on_path};
ghost use Rattle.up_model.specs.Inputs.{first_place, passes_at};
ghost use Rattle.up_model.specs.FaultTests.{are_alike, test_of};
ghost use Rattle.up_model.specs.WellFormed.{
  are_too_few,
  are_too_many,
  has_cycle,
  has_many_outputs,
  has_no_output,
  has_same_name,
  has_same_path,
  has_unknown_input,
  has_wrong_flow,
  is_first_of_worker,
  is_wrong_for,
  worker_places,
};

use crate::inputs::{consumer_count, pipe_at, source_of};
use crate::{FanOut, Kind, Pipe, PipeList};

/// What a pipe is tested for.
#[derive(Clone, Copy, Debug)]
pub(crate) enum FaultTest {
    SameName,
    UnknownInput,
    Cycle,
    ManyOutputs,
    NoOutput,
    WrongFlow,
    SamePath,
    /// No earlier pipe has its worker.
    NewWorker,
}

/// What two pipes can have in common.
#[derive(Clone, Copy, Debug)]
enum Common {
    Name,
    /// Two sources have no path in common.
    Path,
    Worker,
}

impl Common {
    fn is_shared(self, a: &Pipe, b: &Pipe) -> bool
        ensures { result ≡ are_alike self a.now b.now }
    {
        match self {
            Common::Name => a.name.bytes() == b.name.bytes(),
            Common::Path => clash_on_path(&a.kind, &b.kind),
            Common::Worker => a.worker.bytes() == b.worker.bytes(),
        }
    }

    /// Whether the pipe has it in common with one before the place.
    fn is_shared_before(self, pipes: &PipeList, place: usize, pipe: &Pipe) -> bool
        ensures { result ≡ list_any (λ earlier. are_alike self earlier pipe.now)
            (take place pipes.now) }
    {
        (0..place).any(|number| {
            pipe_at(pipes, number).is_some_and(|earlier| self.is_shared(earlier, pipe))
        })
    }
}

fn has_same_name(pipes: &PipeList, place: usize, pipe: &Pipe) -> bool
    ensures { result ≡ has_same_name pipes.now place pipe.now }
{
    Common::Name.is_shared_before(pipes, place, pipe)
}

fn has_unknown_input(pipes: &PipeList, place: usize, pipe: &Pipe) -> bool
    ensures { result ≡ has_unknown_input pipes.now place pipe.now }
{
    pipe.input
        .is_some_and(|input| pipes.len() <= usize::from(input))
}

fn has_cycle(pipes: &PipeList, place: usize, pipe: &Pipe) -> bool
    ensures { result ≡ has_cycle pipes.now place pipe.now }
{
    source_of(pipes, place).is_none()
}

fn are_too_many(fan_out: FanOut, count: usize) -> bool
    ensures { result ≡ are_too_many fan_out count }
{
    match fan_out {
        FanOut::One => 2 <= count,
        FanOut::None | FanOut::All | FanOut::Selected => false,
    }
}

fn has_many_outputs(pipes: &PipeList, place: usize, pipe: &Pipe) -> bool
    ensures { result ≡ has_many_outputs pipes.now place pipe.now }
{
    are_too_many(pipe.kind.fan_out(), consumer_count(pipes, place))
}

fn are_too_few(fan_out: FanOut, count: usize) -> bool
    ensures { result ≡ are_too_few fan_out count }
{
    match fan_out {
        FanOut::None => false,
        FanOut::One | FanOut::All | FanOut::Selected => count == 0,
    }
}

fn has_no_output(pipes: &PipeList, place: usize, pipe: &Pipe) -> bool
    ensures { result ≡ has_no_output pipes.now place pipe.now }
{
    are_too_few(pipe.kind.fan_out(), consumer_count(pipes, place))
}

fn is_wrong_for(fan_out: FanOut, select: Option<u16>) -> bool
    ensures { result ≡ is_wrong_for fan_out select }
{
    match fan_out {
        FanOut::None => true,
        FanOut::One | FanOut::All => select.is_some(),
        FanOut::Selected => select.is_none(),
    }
}

fn has_wrong_flow(pipes: &PipeList, place: usize, pipe: &Pipe) -> bool
    ensures { result ≡ has_wrong_flow pipes.now place pipe.now }
{
    let Some(input) = pipe.input else {
        return false;
    };
    pipe_at(pipes, usize::from(input)).is_some_and(|input| is_wrong_for(
        input.kind.fan_out(),
        pipe.select,
    ))
}

fn have_one_path(a: &Kind, b: &Kind) -> bool
    ensures { result ≡ is_one_path (path_of a.now) (path_of b.now) }
{
    match (a.path(), b.path()) {
        (Some(path), Some(other)) => path.as_slice() == other.as_slice(),
        (Some(_), None) | (None, _) => false,
    }
}

fn clash_on_path(a: &Kind, b: &Kind) -> bool
    ensures { result ≡ clash_on_path a.now b.now }
{
    !(a.is_source() && b.is_source()) && have_one_path(a, b)
}

fn has_same_path(pipes: &PipeList, place: usize, pipe: &Pipe) -> bool
    ensures { result ≡ has_same_path pipes.now place pipe.now }
{
    Common::Path.is_shared_before(pipes, place, pipe)
}

fn is_first_of_worker(pipes: &PipeList, place: usize, pipe: &Pipe) -> bool
    ensures { result ≡ is_first_of_worker pipes.now place pipe.now }
{
    !Common::Worker.is_shared_before(pipes, place, pipe)
}

impl FaultTest {
    fn passes(self, pipes: &PipeList, place: usize, pipe: &Pipe) -> bool
        ensures { result ≡ test_of self pipes.now place pipe.now }
    {
        match self {
            FaultTest::SameName => has_same_name(pipes, place, pipe),
            FaultTest::UnknownInput => has_unknown_input(pipes, place, pipe),
            FaultTest::Cycle => has_cycle(pipes, place, pipe),
            FaultTest::ManyOutputs => has_many_outputs(pipes, place, pipe),
            FaultTest::NoOutput => has_no_output(pipes, place, pipe),
            FaultTest::WrongFlow => has_wrong_flow(pipes, place, pipe),
            FaultTest::SamePath => has_same_path(pipes, place, pipe),
            FaultTest::NewWorker => is_first_of_worker(pipes, place, pipe),
        }
    }

    fn passes_at(self, pipes: &PipeList, place: usize) -> bool
        ensures { result ≡ passes_at (test_of self) pipes.now place }
    {
        pipe_at(pipes, place).is_some_and(|pipe| self.passes(pipes, place, pipe))
    }

    /// The place of the first pipe that passes.
    pub(crate) fn first_place(self, pipes: &PipeList) -> Option<usize>
        ensures { result ≡ first_place (test_of self) pipes.now }
    {
        (0..pipes.len()).position(|place| self.passes_at(pipes, place))
    }
}

/// How many different workers the pipes have.
pub(crate) fn worker_count(pipes: &PipeList) -> usize
    ensures { result ≡ length (worker_places pipes.now) }
{
    (0..pipes.len())
        .filter(|place| FaultTest::NewWorker.passes_at(pipes, *place))
        .count()
}
