// The workers of a graph.
ghost use Rattle.std.specs.Prelude.{◌≡◌, ◌≤◌, [], ◌∷◌, ◌++◌, length, map, take, IfOk, OnOk};
ghost use Rattle.std.specs.List.{filter, list_any};
ghost use Rattle.std.specs.Str.{bytes_eq};
ghost use Rattle.up_model.specs.Inputs.{passes_at};
ghost use Rattle.up_model.specs.Plans as plans;
ghost use Rattle.up_model.specs.WellFormed as formed;
ghost use Rattle.up_model.specs.declared.limits.TheConstants.{MAX_PIPES};
ghost use Rattle.up_plan.specs.Plan.{plan_worker};

use crate::lists::{pipe_at, place_list};
use crate::{PlanWorker, WorkerList};
use std::alloc::Global;
use up_base::{NoMemory, WorkerName};
use up_model::PipeList;

/// Whether a pipe with this worker stands at a place.
fn runs_on(pipes: &PipeList, place: u16, worker: &WorkerName) -> bool
    ensures { result ≡ passes_at (plans.runs_on worker.now) pipes.now place }
{
    match pipe_at(pipes, place) {
        Some(pipe) => pipe.worker.bytes() == worker.bytes(),
        None => false,
    }
}

/// Whether a pipe before a place has this worker.
fn is_before(pipes: &PipeList, place: u16, worker: &WorkerName) -> bool
    requires { place ≤ length pipes.now }
    ensures { result ≡ list_any (λ earlier. bytes_eq earlier.worker worker.now)
        (take place pipes.now) }
{
    for earlier in 0..place {
        if runs_on(pipes, earlier, worker) {
            return true;
        }
    }
    false
}

/// The heads of the strands of a worker.
fn heads_on(
    alloc: Global,
    pipes: &PipeList,
    heads: &[u16],
    worker: &WorkerName,
) -> Result<Vec<u16>, NoMemory>
    requires { heads.now ≡ plans.heads pipes.now }
    ensures { IfOk result (λ own. own.items ≡ plans.heads_on pipes.now worker.now) }
{
    Ok(
        heads
            .iter()
            .copied()
            .filter(|head| runs_on(pipes, *head, worker))
            .collect(alloc)?,
    )
}

/// Adds the worker of the pipe at a place, if no earlier pipe has it.
fn add_worker(
    alloc: Global,
    workers: &mut WorkerList,
    pipes: &PipeList,
    heads: &[u16],
    place: u16,
) -> Result<(), NoMemory>
    requires heads { heads.now ≡ plans.heads pipes.now }
    requires within { place ≤ length pipes.now }
    ensures { OnOk result (workers.new ≡ workers.old ++ map (plan_worker pipes.now)
        (filter (passes_at formed.is_first_of_worker pipes.now) (place ∷ []))) }
{
    let Some(pipe) = pipe_at(pipes, place) else {
        return Ok(());
    };
    if is_before(pipes, place, &pipe.worker) {
        return Ok(());
    }
    let own = heads_on(alloc, pipes, heads, &pipe.worker)?;
    let worker = PlanWorker {
        name: pipe.worker,
        strands: place_list(alloc, &own)?,
    };
    match workers.push(worker) {
        Ok(()) => Ok(()),
        Err(_) => Err(NoMemory),
    }
}

/// All workers, in the order of the file of the first pipe of each.
pub fn workers_of(alloc: Global, pipes: &PipeList, heads: &[u16]) -> Result<WorkerList, NoMemory>
    requires few { length pipes.now ≤ MAX_PIPES }
    requires heads { heads.now ≡ plans.heads pipes.now }
    ensures { IfOk result (λ workers.
        workers ≡ map (plan_worker pipes.now) (formed.worker_places pipes.now)) }
{
    let mut workers = WorkerList::new(alloc);
    for place in 0..pipes.len() as u16 {
        add_worker(alloc, &mut workers, pipes, heads, place)?;
    }
    Ok(workers)
}
