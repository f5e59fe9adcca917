// What is open for the pipes of a strand, taken out of the table and put back into it.
ghost use Rattle.std.specs.Prelude.{◌≡◌, ◌<◌, ◌≤◌, ◌++◌, ℕ, List, [], length, true, IfOk, IsErr, MatchOption, slice_index_or, slice_set};
ghost use Rattle.std.specs.List.{filter};
ghost use Rattle.std.specs.Option.{is_some};
ghost use Rattle.up_engine.specs.Objects.{object_at};
ghost use Rattle.up_engine.specs.Parts.{AreApart, HasEnds, HasNone, IsStrandOf, PutsNext, PutsParts, SinksPut, SinksTaken, TakesParts, sinks_at, sinks_in, source_in, without_sink, without_source};
ghost use Rattle.up_engine.specs.declared.object.Object.TheVariants as objects;
ghost use Rattle.up_model.specs.Inputs.{ends_at_source, passes_at};
ghost use Rattle.up_model.specs.Plans.{ends_at_sink};
ghost use Rattle.up_model.specs.declared.pipe.Pipe.{Pipe as ThePipe};

use crate::object::Object;
use crate::opening::put;
use std::alloc::Global;
use std::mem;
use up_base::{NoMemory, ReservedList};
use up_model::{Graph, PlaceList};
use up_plan::PlanStrand;
use up_strand::{SinkList, StrandParts};

/// Takes out of the table what is open for the pipes of a strand.
pub(crate) fn take_parts<S, K>(
    alloc: Global,
    own: &PlanStrand,
    table: &mut [Object<S, K>],
) -> Result<StrandParts<S, K>, NoMemory>
    requires strand { (pipes : List ThePipe) × IsStrandOf pipes own.now.head own.now.pipes
        × HasEnds own.now.pipes pipes table.old × (length table.old ≡ length pipes) }
    ensures taken { IfOk result (TakesParts own.now.pipes own.now.head table.old table.new) }
    ensures same { IsErr result → table.new ≡ table.old }
{
    let mut sinks = ReservedList::with_room(alloc, own.pipes.len())?;
    let source = take_source(table, usize::from(own.head));
    take_sinks(&own.pipes, table, &mut sinks);
    Ok(StrandParts {
        source,
        sinks: sinks.into_list(),
    })
}

fn take_source<S, K>(table: &mut [Object<S, K>], place: usize) -> Option<S>
    requires { place < length table.old }
    ensures source { result ≡ source_in (object_at table.old place) }
    ensures left { table.new
        ≡ slice_set table.old place (without_source (object_at table.old place)) }
{
    match mem::replace(&mut table[place], Object::None) {
        Object::None => None,
        Object::Source(source) => Some(source),
        Object::Sink(sink) => {
            put(table, place, Object::Sink(sink));
            None
        }
    }
}

fn take_sink<S, K>(table: &mut [Object<S, K>], place: usize, sinks: &mut ReservedList<K>)
    requires within { place < length table.old }
    requires room { length sinks.old.items < sinks.old.room }
    ensures given { sinks.new.items
        ≡ sinks.old.items ++ sinks_in (object_at table.old place) }
    ensures room { sinks.new.room ≡ sinks.old.room }
    ensures left { table.new
        ≡ slice_set table.old place (without_sink (object_at table.old place)) }
{
    match mem::replace(&mut table[place], Object::None) {
        Object::None => {}
        Object::Source(source) => put(table, place, Object::Source(source)),
        Object::Sink(sink) => sinks.push(sink),
    }
}

fn take_sinks<S, K>(places: &PlaceList, table: &mut [Object<S, K>], sinks: &mut ReservedList<K>)
    requires apart { AreApart places.now }
    requires within { (k : ℕ) → k < length places.now
        → slice_index_or places.now k 0 < length table.old }
    requires room { length places.now ≤ sinks.old.room }
    requires none { sinks.old.items ≡ [] }
    ensures given { sinks.new.items ≡ sinks_at table.old places.now }
    ensures left { SinksTaken places.now table.old table.new }
{
    for i in 0..places.len() {
        take_sink(table, usize::from(*places.at(i)), sinks);
    }
}

/// The source and the sinks of a strand stand in the table again.
pub(crate) fn put_back<S, K>(
    graph: &Graph,
    own: &PlanStrand,
    parts: StrandParts<S, K>,
    table: &mut [Object<S, K>],
)
    requires strand { IsStrandOf graph.now.pipes own.now.head own.now.pipes }
    requires table { length table.old ≡ length graph.now.pipes }
    requires source { is_some parts.source
        ≡ passes_at ends_at_source graph.now.pipes own.now.head }
    requires sinks { length parts.sinks
        ≡ length (filter (passes_at ends_at_sink graph.now.pipes) own.now.pipes) }
    requires none { HasNone own.now.pipes table.old }
    ensures { PutsParts own.now.pipes own.now.head graph.now.pipes table.old table.new parts }
{
    let StrandParts { source, sinks } = parts;
    put_source(table, usize::from(own.head), source);
    put_sinks(graph, &own.pipes, table, sinks);
}

fn put_source<S, K>(table: &mut [Object<S, K>], place: usize, source: Option<S>)
    requires within { place < length table.old }
    requires none { object_at table.old place ≡ objects.None }
    ensures { MatchOption source (table.new ≡ table.old)
        (λ source. table.new ≡ slice_set table.old place (objects.Source source)) }
{
    if let Some(source) = source {
        put(table, place, Object::Source(source));
    }
}

/// The next sink stands at its place again, where one is to stand there.
fn put_sink<S, K>(is_here: bool, place: usize, table: &mut [Object<S, K>], sinks: &mut SinkList<K>)
    requires within { place < length table.old }
    requires none { is_here ≡ true → object_at table.old place ≡ objects.None }
    requires some { is_here ≡ true → 0 < length sinks.old }
    ensures { PutsNext is_here place table.old table.new sinks.old sinks.new }
{
    if is_here {
        match sinks.next() {
            Some(sink) => put(table, place, Object::Sink(sink)),
            None => unreachable!(),
        }
    }
}

/// The sinks stand at those of the places again that are for one.
fn put_sinks<S, K>(
    graph: &Graph,
    places: &PlaceList,
    table: &mut [Object<S, K>],
    mut sinks: SinkList<K>,
)
    requires apart { AreApart places.now }
    requires places { (k : ℕ) → k < length places.now
        → slice_index_or places.now k 0 < length graph.now.pipes }
    requires table { length table.old ≡ length graph.now.pipes }
    requires none { (k : ℕ) → k < length places.now
        → passes_at ends_at_sink graph.now.pipes (slice_index_or places.now k 0) ≡ true
        → object_at table.old (slice_index_or places.now k 0) ≡ objects.None }
    requires no_sinks { (k : ℕ) → k < length places.now
        → sinks_in (object_at table.old (slice_index_or places.now k 0)) ≡ [] }
    requires count { length sinks
        ≡ length (filter (passes_at ends_at_sink graph.now.pipes) places.now) }
    ensures { SinksPut graph.now.pipes places.now table.old table.new sinks }
{
    for i in 0..places.len() {
        let place = usize::from(*places.at(i));
        put_sink(
            graph.pipes.at(place).kind.is_sink(),
            place,
            table,
            &mut sinks,
        );
    }
    sinks.end();
}
