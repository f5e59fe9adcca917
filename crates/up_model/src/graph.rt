ghost use Rattle.std.specs.Prelude.{◌≡◌, ◌↔◌, IsTrue};
ghost use Rattle.up_model.specs.Inputs.{source_of};
ghost use Rattle.up_model.specs.WellFormed.{IsWellFormed, graph_fault};

use crate::faults::{FaultTest, worker_count};
use crate::inputs::source_of;
use crate::well_formed::are_pipes;
use crate::{GraphFault, MAX_PIPES, MAX_WORKERS, PipeList};

/// The pipes of a graph, in the order of its file. A pipe's place is its number from 0.
#[derive(Debug, Drop)]
pub struct Graph {
    pub pipes: PipeList,
}

impl Graph {
    /// The first fault, in the order of `GraphFault`.
    pub fn fault(&self) -> Option<GraphFault>
        ensures { result ≡ graph_fault self.now.pipes }
    {
        let pipes = &self.pipes;
        if let Some(place) = FaultTest::SameName.first_place(pipes) {
            return Some(GraphFault::SameName { place });
        }
        if let Some(place) = FaultTest::UnknownInput.first_place(pipes) {
            return Some(GraphFault::UnknownInput { place });
        }
        if let Some(place) = FaultTest::Cycle.first_place(pipes) {
            return Some(GraphFault::Cycle { place });
        }
        if let Some(place) = FaultTest::ManyOutputs.first_place(pipes) {
            return Some(GraphFault::ManyOutputs { place });
        }
        if let Some(place) = FaultTest::NoOutput.first_place(pipes) {
            return Some(GraphFault::NoOutput { place });
        }
        if let Some(place) = FaultTest::WrongFlow.first_place(pipes) {
            return Some(GraphFault::WrongFlow { place });
        }
        if let Some(place) = FaultTest::SamePath.first_place(pipes) {
            return Some(GraphFault::SamePath { place });
        }
        let count = worker_count(pipes);
        if MAX_WORKERS < count {
            return Some(GraphFault::TooManyWorkers { count });
        }
        None
    }

    /// The place of the source that is reached from a place along inputs.
    pub fn source_of(&self, place: usize) -> Option<usize>
        ensures { result ≡ source_of self.now.pipes place }
    {
        source_of(&self.pipes, place)
    }

    /// Whether it has 1 to 256 pipes within their bounds, and no fault.
    pub fn is_well_formed(&self) -> bool
        ensures { IsTrue result ↔ IsWellFormed self.now.pipes }
    {
        let count = self.pipes.len();
        1 <= count && count <= MAX_PIPES && are_pipes(&self.pipes) && self.fault().is_none()
    }
}
