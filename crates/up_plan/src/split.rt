ghost use Rattle.std.specs.Prelude.{◌≡◌, IfOk};
ghost use Rattle.up_model.specs.WellFormed.{IsWellFormed};
ghost use Rattle.up_plan.specs.Plan.{plan_of};

use crate::Plan;
use crate::heads::{head_of_each, heads_of, lane_count};
use crate::strands::strands_of;
use crate::workers::workers_of;
use std::alloc::Global;
use up_base::NoMemory;
use up_model::Graph;

/// Splits a graph over its workers.
pub fn make_plan(alloc: Global, graph: &Graph) -> Result<Plan, NoMemory>
    requires { IsWellFormed graph.now.pipes }
    ensures { IfOk result (λ plan. plan ≡ plan_of graph.now.pipes) }
{
    let pipes = &graph.pipes;
    let heads = heads_of(alloc, pipes)?;
    let each = head_of_each(alloc, pipes)?;
    Ok(Plan {
        strands: strands_of(alloc, &heads, &each)?,
        workers: workers_of(alloc, pipes, &heads)?,
        lane_count: lane_count(pipes, &heads),
    })
}
