use crate::{Plan, make_plan};
use std::alloc::Global;
use std::test::Fail;
use up_base::{PipeName, Text, WorkerName};
use up_model::{
    CatchSet, DEFAULT_BLOCK, DEFAULT_QUEUE, Graph, Kind, MAX_LIMIT, Pipe, PipeList, PlaceList,
    SinkForm, SourceForm,
};

/// The kinds that the graphs of the tests have. `Pass` stands for any with one output.
#[derive(Clone, Copy)]
enum Does {
    Source,
    Pass,
    Dup,
    Sink,
}

use Does::{Dup, Pass, Sink, Source};

/// What a pipe does, on which worker, and the place that it takes from.
type Row = (Does, &'static str, Option<u16>);

fn kind(alloc: Global, does: Does, path: &str) -> Result<Kind, Fail> {
    Ok(match does {
        Source => Kind::Source {
            path: Text::from_str(alloc, path)?,
            form: SourceForm::Raw {
                block: DEFAULT_BLOCK,
            },
            limit: MAX_LIMIT,
        },
        Pass => Kind::Idem,
        Dup => Kind::Dup,
        Sink => Kind::Sink {
            path: Text::from_str(alloc, path)?,
            form: SinkForm::Raw,
        },
    })
}

/// Adds a pipe, which is named for its place.
fn push_pipe(alloc: Global, pipes: &mut PipeList, row: Row) -> Result<(), Fail> {
    let (does, worker, input) = row;
    let name = format!(in alloc; "pipe{}", pipes.len())?;
    pipes.push(Pipe {
        name: PipeName::read(name.as_bytes())?,
        worker: WorkerName::read(worker.as_bytes())?,
        input,
        select: None,
        queue: DEFAULT_QUEUE,
        caught: CatchSet::default(),
        kind: kind(alloc, does, &name)?,
    })?;
    Ok(())
}

fn graph(alloc: Global, rows: &[Row]) -> Result<Graph, Fail> {
    let mut pipes = PipeList::new(alloc);
    for row in rows {
        push_pipe(alloc, &mut pipes, *row)?;
    }
    Ok(Graph { pipes })
}

/// The places, a space before each.
fn listed(alloc: Global, places: &PlaceList) -> Result<String, Fail> {
    let mut text = String::new(alloc);
    for i in 0..places.len() {
        write!(text, " {}", places.at(i))?;
    }
    Ok(text)
}

/// Each strand by its head with its pipes, each worker with its strands, and the lanes.
fn told(alloc: Global, plan: &Plan) -> Result<String, Fail> {
    let mut text = String::new(alloc);
    for i in 0..plan.strands.len() {
        let strand = plan.strands.at(i);
        write!(text, "{}:{}; ", strand.head, listed(alloc, &strand.pipes)?)?;
    }
    for i in 0..plan.workers.len() {
        let worker = plan.workers.at(i);
        let name = std::str::from_utf8(worker.name.bytes())?;
        write!(text, "{name}:{}; ", listed(alloc, &worker.strands)?)?;
    }
    write!(text, "lanes: {}", plan.lanes())?;
    Ok(text)
}

/// Graphs with their plans.
const PLANS: [(&str, &[Row], &str); 7] = [
    (
        "a chain on one worker is one strand",
        &[
            (Source, "w1", None),
            (Pass, "w1", Some(0)),
            (Sink, "w1", Some(1)),
        ],
        "0: 0 1 2; w1: 0; lanes: 0",
    ),
    (
        "a change of worker begins a strand",
        &[
            (Source, "w1", None),
            (Pass, "w1", Some(0)),
            (Pass, "w2", Some(1)),
            (Pass, "w3", Some(2)),
            (Sink, "w3", Some(3)),
        ],
        "0: 0 1; 2: 2; 3: 3 4; w1: 0; w2: 2; w3: 3; lanes: 2",
    ),
    (
        "pipes that stand before their inputs",
        &[
            (Sink, "w2", Some(1)),
            (Pass, "w1", Some(2)),
            (Source, "w1", None),
        ],
        "0: 0; 2: 1 2; w2: 0; w1: 2; lanes: 1",
    ),
    (
        "a strand for each source",
        &[
            (Source, "w1", None),
            (Source, "w1", None),
            (Sink, "w1", Some(1)),
            (Sink, "w1", Some(0)),
        ],
        "0: 0 3; 1: 1 2; w1: 0 1; lanes: 0",
    ),
    (
        "back to the first worker",
        &[
            (Source, "w1", None),
            (Pass, "w2", Some(0)),
            (Sink, "w1", Some(1)),
        ],
        "0: 0; 1: 1; 2: 2; w1: 0 2; w2: 1; lanes: 2",
    ),
    (
        "a dup feeds three workers",
        &[
            (Source, "w1", None),
            (Dup, "w1", Some(0)),
            (Sink, "w2", Some(1)),
            (Sink, "w1", Some(1)),
            (Sink, "w3", Some(1)),
        ],
        "0: 0 1 3; 2: 2; 4: 4; w1: 0; w2: 2; w3: 4; lanes: 2",
    ),
    (
        "names are compared to their last byte",
        &[
            (Source, "main", None),
            (Pass, "main1", Some(0)),
            (Sink, "main1", Some(1)),
        ],
        "0: 0; 1: 1 2; main: 0; main1: 1; lanes: 1",
    ),
];

#[test]
fn graphs_are_split_where_the_worker_changes(rt: HostRuntime) -> Result<(), Fail> {
    let alloc = rt.alloc();
    for (of, rows, wanted) in PLANS {
        let graph = graph(alloc, rows)?;
        assert!(rt; graph.is_well_formed());
        let plan = make_plan(alloc, &graph)?;
        assert_eq!(rt; told(alloc, &plan)?.as_str(), wanted, "{of}");
    }
    Ok(())
}

const WORKERS: [&str; 16] = [
    "w0", "w1", "w2", "w3", "w4", "w5", "w6", "w7", "w8", "w9", "w10", "w11", "w12", "w13", "w14",
    "w15",
];

#[test]
fn a_chain_of_256_pipes_goes_16_times_round_16_workers(rt: HostRuntime) -> Result<(), Fail> {
    let alloc = rt.alloc();
    let mut pipes = PipeList::new(alloc);
    for place in 0..256 {
        let does = match place {
            0 => Source,
            255 => Sink,
            _ => Pass,
        };
        let input = if place == 0 { None } else { Some(place - 1) };
        push_pipe(
            alloc,
            &mut pipes,
            (does, WORKERS[usize::from(place) % 16], input),
        )?;
    }
    let graph = Graph { pipes };
    assert!(rt; graph.is_well_formed());
    let plan = make_plan(alloc, &graph)?;
    assert_eq!(rt; plan.strands.len(), 256);
    assert_eq!(rt; plan.lanes(), 255);
    assert_eq!(rt; plan.workers.len(), 16);
    assert!(rt; plan.strands.len() == 256 && plan.workers.len() == 16);
    assert_eq!(rt; plan.strands.at(255).head, 255);
    assert_eq!(rt;
        listed(alloc, &plan.strands.at(255).pipes)?.as_str(),
        " 255"
    );
    assert_eq!(rt;
        listed(alloc, &plan.workers.at(15).strands)?.as_str(),
        " 15 31 47 63 79 95 111 127 143 159 175 191 207 223 239 255"
    );
    Ok(())
}
