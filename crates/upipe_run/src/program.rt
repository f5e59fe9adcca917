ghost use Rattle.std.specs.Prelude.{◌≡◌, false, None};
ghost use Rattle.up_outside.specs.Told.{Then};
ghost use Rattle.up_words.specs.Words.{job_of};
ghost use Rattle.upipe_run.specs.Endings.{ending_came};
ghost use Rattle.upipe_run.specs.Runs.{HasCauses, KeepsOtherPaths, WritesWhole, KeepsPaths, IsExplained, Does};
ghost use Rattle.upipe_run.specs.Seen.{seen};
ghost use Rattle.upipe_run.specs.WholeOutput.{RanWhole};

use crate::ending::{Ending, ending_told, refused_ending};
use crate::graph_text::read_text;
use crate::tell::{tell, tell_ending, tell_no_memory};
use std::alloc::Global;
use std::sync::Wait;
use std::thread::Threads;
use up_base::{Refusal, WordList};
use up_engine::{RunOutcome, run_one_thread};
use up_graph::read_graph;
use up_model::{Graph, MAX_GRAPH, OutcomeList, deciding};
use up_outside::{Depot, Sink};
use up_report::Fault;
use up_shape::{VecPacket, VecStore};
use up_words::{Job, WordsRefused, read_words};

/// What came of a graph file.
#[derive(Drop)]
enum FileRun {
    /// Its graph ran, and its pipes came to these.
    Ended { graph: Graph, outcomes: OutcomeList },
    /// It has no graph, or memory ran out.
    Stopped(Ending),
}

/// Reads the graph file at the path, and runs its graph.
fn run_file<D: Depot>(alloc: Global, path: &str, depot: &mut D) -> FileRun
    ensures whole { ending_came result ≡ Ending.Whole
        → Then (RanWhole path.now) (D.state depot.old).held (D.state depot.new).held }
    ensures others { Then (KeepsOtherPaths path.now)
        (D.state depot.old).held (D.state depot.new).held }
    ensures causes { HasCauses path.now (D.state depot.old) (D.state depot.new)
        (ending_came result) }
{
    let text = match read_text(alloc, path, MAX_GRAPH + 1, depot) {
        Ok(text) => text,
        Err(Refusal::Failed) => return FileRun::Stopped(Ending::Faulty(Fault::ReadGraph)),
        Err(Refusal::NoMemory) => return FileRun::Stopped(Ending::NoMemory),
    };
    let graph = match read_graph(alloc, &text) {
        Ok(graph) => graph,
        Err(refused) => return FileRun::Stopped(refused_ending(refused)),
    };
    drop(text);
    let mut store = VecStore::new(alloc);
    match run_one_thread::<VecPacket, D>(alloc, &graph, depot, &mut store) {
        RunOutcome::Ended { outcomes, .. } => FileRun::Ended { graph, outcomes },
        RunOutcome::NoMemory => FileRun::Stopped(Ending::NoMemory),
    }
}

/// Runs the graph file at the path `graph` over the depot on this thread, and answers the status. Nothing is printed to
/// `out` yet, and no pool is kept, so `pool` is false.
pub fn run_single<D: Depot, K: Sink, E: Sink>(
    alloc: Global,
    graph: &str,
    pool: bool,
    depot: &mut D,
    out: &mut K,
    err: &mut E,
) -> u8
    requires { pool ≡ false }
    ensures whole_output { let old = seen (D.state depot.old) (K.state out.old) (E.state err.old) in
        let new = seen (D.state depot.new) (K.state out.new) (E.state err.new) in
        WritesWhole graph.now old new result }
    ensures others_stay { let old = seen (D.state depot.old) (K.state out.old) (E.state err.old) in
        let new = seen (D.state depot.new) (K.state out.new) (E.state err.new) in
        KeepsPaths graph.now old new }
    ensures report_text { K.state out.new ≡ K.state out.old }
    ensures explained { let old = seen (D.state depot.old) (K.state out.old) (E.state err.old) in
        let new = seen (D.state depot.new) (K.state out.new) (E.state err.new) in
        IsExplained graph.now old new result }
{
    match run_file(alloc, graph, depot) {
        FileRun::Ended { graph, outcomes } => {
            let decides = deciding(&outcomes);
            tell_ending(alloc, err, &ending_told(&graph.pipes, &outcomes, decides))
        }
        FileRun::Stopped(ending) => tell_ending(alloc, err, &ending),
    }
}

/// Runs the program over its words, without the program's own name, and answers the status.
#[tactic(auto, using(crate::proofs::WordsDone::does_run, crate::proofs::WordsDone::does_no_memory, crate::proofs::WordsDone::does_usage))]
pub fn run<R: Threads + Wait + Sync, D: Depot, K: Sink, E: Sink>(
    rt: &R,
    alloc: Global,
    words: &WordList,
    depot: &mut D,
    out: &mut K,
    err: &mut E,
) -> u8
    ensures does { Does (job_of words.now)
        (seen (D.state depot.old) (K.state out.old) (E.state err.old))
        (seen (D.state depot.new) (K.state out.new) (E.state err.new)) result }
    ensures usage_leaves { job_of words.now ≡ None → depot.new ≡ depot.old }
{
    match read_words(alloc, words) {
        Ok(Job::Run { graph }) => run_single(alloc, graph.as_str(), false, depot, out, err),
        Err(WordsRefused::Usage) => tell(alloc, err, &Fault::Usage),
        Err(WordsRefused::NoMemory) => tell_no_memory(err),
    }
}
