// Graphs for tests, and how they are split.
ghost use Rattle.std.specs.Prelude.{◌≡◌, ◌+◌, [], ◌∷◌, length, is_some, IfOk};
ghost use Rattle.std.specs.List.{Contains, filter};
ghost use Rattle.up_model.specs.Inputs.{ends_at_source, passes_at};
ghost use Rattle.up_model.specs.Plans.{ends_at_sink, heads, strand_of};
ghost use Rattle.up_model.specs.WellFormed.{IsWellFormed};
ghost use Rattle.up_outside.specs.Memory.MemSink.{sink_state};
ghost use Rattle.up_outside.specs.Memory.MemSource.{source_state};
ghost use Rattle.up_plan.specs.Plan.{plan_of};
ghost use Rattle.up_strand.specs.Strands.{StandsForSome, StrandFits};
ghost use Rattle.up_trials.specs.Standing.{IsAtWork, IsOfGraph};

use crate::row::{Does, Row};
use crate::run::Tried;
use std::alloc::Global;
use std::process::Abort;
use std::test::Fail;
use up_base::{AttrName, NoRoom, PipeName, Text, WorkerName};
use up_model::{Graph, Kind, Pipe, PipeList, PlaceList, SinkForm, SourceForm, Value};
use up_outside::{Depot, MemDepot, MemSink, MemSource};
use up_plan::{Plan, make_plan};
use up_shape::LocalPacket;
use up_strand::{SinkList, Strand, StrandParts};

fn source_of(alloc: Global, path: &str, form: SourceForm, limit: u64) -> Result<Kind, Fail> {
    let path = Text::from_str(alloc, path)?;
    Ok(Kind::Source { path, form, limit })
}

fn sink_of(alloc: Global, path: &str, form: SinkForm) -> Result<Kind, Fail> {
    let path = Text::from_str(alloc, path)?;
    Ok(Kind::Sink { path, form })
}

fn kind_of(alloc: Global, does: Does, path: &str) -> Result<Kind, Fail> {
    Ok(match does {
        Does::Source { block, limit } => {
            source_of(alloc, path, SourceForm::Raw { block }, limit)?
        }
        Does::Frames { limit } => source_of(alloc, path, SourceForm::Framed, limit)?,
        Does::Sink => sink_of(alloc, path, SinkForm::Raw)?,
        Does::FrameSink => sink_of(alloc, path, SinkForm::Framed)?,
        Does::Idem => Kind::Idem,
        Does::Null => Kind::Null,
        Does::Dup => Kind::Dup,
        Does::Skip(bytes) => Kind::Skip { bytes },
        Does::SetAttr { attr, value } => Kind::SetAttr {
            attr: AttrName::read(attr.as_bytes())?,
            value: Value::Unsigned(value),
        },
        Does::Titles(title) => Kind::SetAttr {
            attr: AttrName::read(b"title")?,
            value: Value::Words(Text::from_str(alloc, title)?),
        },
        Does::DelAttr(attr) => Kind::DelAttr {
            attr: AttrName::read(attr.as_bytes())?,
        },
        Does::MatchAttr { attr, low, high } => Kind::MatchAttr {
            attr: AttrName::read(attr.as_bytes())?,
            low,
            high,
        },
        Does::Delay(by) => Kind::Delay { by },
    })
}

fn push_pipe(alloc: Global, pipes: &mut PipeList, row: Row) -> Result<(), Fail> {
    let name = format!(in alloc; "pipe{}", pipes.len())?;
    pipes.push(Pipe {
        name: PipeName::read(name.as_bytes())?,
        worker: WorkerName::read(row.worker.as_bytes())?,
        input: row.input,
        select: None,
        queue: row.queue,
        caught: row.caught,
        kind: kind_of(alloc, row.does, &name)?,
    })?;
    Ok(())
}

fn graph_of(alloc: Global, rows: &[Row]) -> Result<Graph, Fail> {
    let mut pipes = PipeList::new(alloc);
    for row in rows {
        push_pipe(alloc, &mut pipes, *row)?;
    }
    Ok(Graph { pipes })
}

/// A graph with its plan.
#[derive(Drop)]
pub(crate) struct Split {
    pub graph: Graph,
    pub plan: Plan,
    ghost planned: { plan ≡ plan_of graph.pipes },
}

impl Split {
    /// The graph of these pipes, which is to be well formed.
    pub fn of(rt: &impl Abort, alloc: Global, rows: &[Row]) -> Result<Split, Fail>
        ensures { IfOk result (λ split. IsWellFormed split.graph.pipes) }
    {
        let graph = graph_of(alloc, rows)?;
        assert!(rt; graph.is_well_formed(), "{:?}", graph.fault());
        let plan = make_plan(alloc, &graph)?;
        Ok(Split { graph, plan })
    }

    /// The head of the first strand that begins at a source.
    pub fn first_head(&self, rt: &impl Abort) -> u16 {
        let strands = &self.plan.strands;
        for i in 0..strands.len() {
            let head = strands.at(i).head;
            if self.is_source(usize::from(head)) {
                return head;
            }
        }
        panic!(rt; "no source")
    }

    /// Whether a strand begins at the place.
    pub fn is_head(&self, place: usize) -> bool {
        let strands = &self.plan.strands;
        for i in 0..strands.len() {
            if usize::from(strands.at(i).head) == place {
                return true;
            }
        }
        false
    }

    /// The pipes of the strand of a head.
    pub fn own_pipes(&self, rt: &impl Abort, head: u16) -> &PlaceList
        ensures head { Contains (heads self.now.graph.pipes) head }
        ensures pipes { result.now ≡ strand_of self.now.graph.pipes head }
    {
        let strands = &self.plan.strands;
        for i in 0..strands.len() {
            let planned = strands.at(i);
            if planned.head == head {
                return &planned.pipes;
            }
        }
        panic!(rt; "{head} is no head")
    }

    /// Whether a source is at the place.
    pub fn is_source(&self, place: usize) -> bool
        ensures { result ≡ passes_at ends_at_source self.now.graph.pipes place }
    {
        let pipes = &self.graph.pipes;
        place < pipes.len() && pipes.at(place).kind.is_source()
    }

    /// Whether a sink is at the place.
    pub fn is_sink(&self, place: usize) -> bool
        ensures { result ≡ passes_at ends_at_sink self.now.graph.pipes place }
    {
        let pipes = &self.graph.pipes;
        place < pipes.len() && pipes.at(place).kind.is_sink()
    }

    /// The strand of this head, with its source and sinks from a depot, if there is memory for it.
    pub fn begun<P: LocalPacket>(
        &self,
        rt: &impl Abort,
        alloc: Global,
        head: u16,
        depot: &mut MemDepot,
    ) -> Result<Tried<P>, NoRoom<StrandParts<MemSource, MemSink>>>
        requires well_formed { IsWellFormed self.now.graph.pipes }
        ensures of { IfOk result (IsOfGraph P.plain self.now.graph.pipes head) }
        ensures stands { IfOk result (StandsForSome P.plain source_state sink_state) }
        ensures family { IfOk result
            (λ strand. (f : P.Store.Family) → StrandFits strand P.fits f) }
    {
        let own = self.own_pipes(rt, head);
        let source = self.source_at(rt, head, depot);
        let sinks = self.sinks_at(rt, alloc, own, depot);
        Strand::new(alloc, &self.graph, &self.plan, head, source, sinks)
    }

    /// The strand of this head, with its source and sinks from a depot.
    pub fn strand<P: LocalPacket>(
        &self,
        rt: &impl Abort,
        alloc: Global,
        head: u16,
        depot: &mut MemDepot,
    ) -> Tried<P>
        requires well_formed { IsWellFormed self.now.graph.pipes }
        ensures of { IsOfGraph P.plain self.now.graph.pipes head result }
        ensures work { (f : P.Store.Family) → IsAtWork P.plain P.fits f result }
    {
        match self.begun(rt, alloc, head, depot) {
            Ok(strand) => strand,
            Err(NoRoom { back }) => {
                let StrandParts {
                    source: _,
                    sinks: _,
                } = back;
                panic!(rt; "no memory for a strand")
            }
        }
    }

    /// The source of a head, where it is one.
    fn source_at(&self, rt: &impl Abort, head: u16, depot: &mut MemDepot) -> Option<MemSource>
        ensures { is_some result ≡ passes_at ends_at_source self.now.graph.pipes head }
    {
        let place = usize::from(head);
        if !self.is_source(place) {
            return None;
        }
        let path = self.path_at(rt, place);
        Some(depot.open_source(path).expect(rt, "no source"))
    }

    /// The size of the packets of the raw source at a place.
    pub fn block_at(&self, rt: &impl Abort, place: usize) -> usize {
        assert!(rt; place < self.graph.pipes.len());
        match &self.graph.pipes.at(place).kind {
            Kind::Source {
                form: SourceForm::Raw { block },
                ..
            } => *block as usize,
            _ => panic!(rt; "no raw source"),
        }
    }

    /// The form of the sink at a place.
    pub fn sink_form_at(&self, rt: &impl Abort, place: usize) -> SinkForm {
        assert!(rt; place < self.graph.pipes.len());
        match &self.graph.pipes.at(place).kind {
            Kind::Sink { form, .. } => *form,
            _ => panic!(rt; "no sink"),
        }
    }

    /// The path of the pipe at a place.
    pub fn path_at(&self, rt: &impl Abort, place: usize) -> &str {
        assert!(rt; place < self.graph.pipes.len());
        let path = self.graph.pipes.at(place).kind.path();
        path.expect(rt, "no path").as_str()
    }

    /// The sinks among these places.
    fn sinks_at(
        &self,
        rt: &impl Abort,
        alloc: Global,
        places: &PlaceList,
        depot: &mut MemDepot,
    ) -> SinkList<MemSink>
        ensures { length result
            ≡ length (filter (passes_at ends_at_sink self.now.graph.pipes) places.now) }
    {
        let mut sinks = SinkList::new(alloc);
        for k in 0..places.len() {
            self.add_sink(rt, *places.at(k), depot, &mut sinks);
        }
        sinks
    }

    /// Adds the sink at the place, where it is one.
    fn add_sink(
        &self,
        rt: &impl Abort,
        own: u16,
        depot: &mut MemDepot,
        sinks: &mut SinkList<MemSink>,
    )
        ensures { length sinks.new ≡ length sinks.old
            + length (filter (passes_at ends_at_sink self.now.graph.pipes) (own ∷ [])) }
    {
        let place = usize::from(own);
        if !self.is_sink(place) {
            return;
        }
        let sink = depot.open_sink(self.path_at(rt, place));
        let sink = sink.expect(rt, "no sink");
        assert!(rt; sinks.push(sink).is_ok());
    }
}
