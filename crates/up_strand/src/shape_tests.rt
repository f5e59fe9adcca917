use crate::node::Takers;
use crate::shape::Shape;
use std::alloc::Global;
use std::process::Abort;
use std::test::Fail;
use up_base::{PipeName, Text, WorkerName};
use up_model::{
    CatchSet, DEFAULT_BLOCK, DEFAULT_QUEUE, Graph, Kind, MAX_LIMIT, Pipe, PipeList, SinkForm,
    SourceForm,
};
use up_plan::make_plan;

/// The kinds that the graph has. `Pass` stands for any with one output.
#[derive(Clone, Copy)]
enum Does {
    Source,
    Pass,
    Dup,
    Sink,
}

use Does::{Dup, Pass, Sink, Source};

/// What each pipe does, on which worker, and the place that it takes from: a `dup` feeds a sink
/// that stands before it, a pipe with a sink behind it, and a pipe of another worker with its own
/// sink.
const ROWS: [(Does, &str, Option<u16>); 7] = [
    (Sink, "near", Some(2)),
    (Source, "near", None),
    (Dup, "near", Some(1)),
    (Pass, "far", Some(2)),
    (Sink, "far", Some(3)),
    (Pass, "near", Some(2)),
    (Sink, "near", Some(5)),
];

fn kind(alloc: Global, does: Does, path: &str) -> Result<Kind, Fail> {
    Ok(match does {
        Source => Kind::Source {
            path: Text::from_str(alloc, path)?,
            form: SourceForm::Raw {
                block: DEFAULT_BLOCK,
            },
            limit: MAX_LIMIT,
        },
        Pass => Kind::Idem,
        Dup => Kind::Dup,
        Sink => Kind::Sink {
            path: Text::from_str(alloc, path)?,
            form: SinkForm::Raw,
        },
    })
}

fn graph(alloc: Global) -> Result<Graph, Fail> {
    let mut pipes = PipeList::new(alloc);
    for (does, worker, input) in ROWS {
        let name = format!(in alloc; "pipe{}", pipes.len())?;
        pipes.push(Pipe {
            name: PipeName::read(name.as_bytes())?,
            worker: WorkerName::read(worker.as_bytes())?,
            input,
            select: None,
            queue: DEFAULT_QUEUE,
            caught: CatchSet::default(),
            kind: kind(alloc, does, &name)?,
        })?;
    }
    Ok(Graph { pipes })
}

/// The shape of the strand that comes at this place of the plan.
fn shape_at(rt: &impl Abort, alloc: Global, graph: &Graph, i: usize) -> Result<Shape, Fail> {
    assert!(rt; graph.is_well_formed());
    let plan = make_plan(alloc, graph)?;
    assert!(rt; i < plan.strands.len());
    let head = plan.strands.at(i).head;
    Ok(Shape::of(alloc, graph, &plan, head)?)
}

/// The takers of a node, by the first and the last.
fn takers(first: usize, last: usize) -> Option<Takers> {
    Some(Takers { first, last })
}

#[test]
fn the_end_of_a_lane_is_the_last_node_of_the_strand_that_fills_it(
    rt: HostRuntime,
) -> Result<(), Fail> {
    let alloc = rt.alloc();
    let shape = shape_at(&rt, alloc, &graph(alloc)?, 0)?;
    assert_eq!(rt; shape.places.as_slice(), [0, 1, 2, 5, 6, 3].as_slice());
    assert_eq!(rt; shape.pipes, 5);
    assert_eq!(rt;
        shape.inputs.as_slice(),
        [Some(2), None, Some(1), Some(2), Some(3), Some(2)].as_slice()
    );
    assert_eq!(rt;
        shape.takers.as_slice(),
        [None, takers(2, 2), takers(0, 5), takers(4, 4), None, None].as_slice()
    );
    assert_eq!(rt; shape.order.as_slice(), [1, 2, 0, 3, 5, 4].as_slice());
    Ok(())
}

#[test]
fn the_strand_behind_a_lane_begins_at_its_head(rt: HostRuntime) -> Result<(), Fail> {
    let alloc = rt.alloc();
    let shape = shape_at(&rt, alloc, &graph(alloc)?, 1)?;
    assert_eq!(rt; shape.places.as_slice(), [3, 4].as_slice());
    assert_eq!(rt; shape.pipes, 2);
    assert_eq!(rt; shape.inputs.as_slice(), [None, Some(0)].as_slice());
    assert_eq!(rt; shape.takers.as_slice(), [takers(1, 1), None].as_slice());
    assert_eq!(rt; shape.order.as_slice(), [0, 1].as_slice());
    Ok(())
}
