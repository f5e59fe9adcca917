//! How a graph is split over workers: into strands, each of pipes that one worker runs in one go.
#![tactic(auto)]

mod heads;
mod laws;
mod lists;
mod plan;
mod split;
mod strands;
#[cfg(test)]
mod tests;
mod workers;

pub use laws::{
    a_head_is_in_its_own_strand, a_lane_comes_from_another_worker, a_strand_has_its_heads_worker,
    a_strand_is_joined_by_inputs, each_pipe_is_in_one_strand, each_strand_is_on_one_worker,
    lanes_are_strands_less_sources,
};
pub use plan::{Plan, PlanStrand, PlanWorker, StrandList, WorkerList};
pub use split::make_plan;
