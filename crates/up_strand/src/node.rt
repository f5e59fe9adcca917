// The nodes of a strand: its head, and the pipes, sinks and outlets that take what others put out.
ghost use Rattle.std.specs.Prelude.{◌≡◌, ◌++◌, All, [], ◌∷◌, not, ◌&&◌, true, false, ℕ, List, is_ok, IfSome, OnOk, OnErr};
ghost use Rattle.up_model.specs.Ends.{written_by};
ghost use Rattle.up_model.specs.Kinds.{IsWithinBounds};
ghost use Rattle.up_model.specs.Packet.{IsLegal};
ghost use Rattle.up_outside.specs.Counts.{CountsOnce};
ghost use Rattle.up_outside.specs.States.{SinkState};
ghost use Rattle.up_shape.specs.Stores.{Stays};
ghost use Rattle.up_strand.specs.Nodes.{Seat, PartStands, NodeStands, IsTaking, IsSound, IsDone, HasGivenUp, IsAsPlaced, NodeFits, Took, has_ended, is_outlet, is_pipe, is_whole, takes_from};
ghost use Rattle.up_strand.specs.Spellings.{form_of};
ghost use Rattle.up_strand.specs.Writing.{Receives};

use crate::any_module::AnyModule;
use crate::sink_packet::write_packet;
use crate::spelling::Spelling;
use std::alloc::Global;
use std::mem;
use up_base::{NoMemory, Refusal};
use up_model::Tally;
use up_outside::Sink;
use up_shape::{LocalPacket, Module, Outbox, put_out};

/// What a node does with the packets that it takes.
pub enum Part<K> {
    /// A source's: it puts out each packet as it is.
    Head,
    /// A pipe whose flow goes on.
    Pipe(AnyModule),
    /// A sink. One that failed, whose count of faults rose, gives up what it takes.
    Sink {
        sink: K,
        spelling: Spelling,
        failed: bool,
    },
    /// The end of a lane: what it puts out is left there for another strand.
    Outlet,
    /// A pipe whose module is gone. `whole` says that its flow came to its whole end.
    Ended {
        whole: bool,
    },
}

/// The first and the last of the nodes that take from a node, by their places.
#[derive(Clone, Copy, Debug, PartialEq, Eq)]
pub struct Takers {
    pub first: usize,
    pub last: usize,
}

/// A pipe of a strand, or the end of a lane, with the packets that it has put out and that weren't
/// taken yet.
pub struct Node<P, K> {
    /// The place in the strand of the node that it takes from. The head has none.
    pub input: Option<usize>,
    pub takers: Option<Takers>,
    pub part: Part<K>,
    pub out: Outbox<P>,
    /// Memory ran out at it: since then it gives up what it takes.
    pub short: bool,
}

impl<P: LocalPacket, K: Sink> Node<P, K> {
    /// A node that took nothing.
    pub fn new(
        alloc: Global,
        input: Option<usize>,
        takers: Option<Takers>,
        part: Part<K>,
    ) -> Node<P, K>
        ensures made { result ≡ record {
          input = input;
          takers = takers;
          part = part;
          out = result.out;
          short = false;
        } }
        ensures empty { result.out.packets ≡ [] }
        ensures stands { (seat : Seat) → IfSome seat.kind IsWithinBounds
            → PartStands P.plain K.state seat false part []
            → NodeStands P.plain K.state seat result [] [] }
    {
        Node {
            input,
            takers,
            part,
            out: Outbox::new(alloc),
            short: false,
        }
    }

    /// Takes the next packet. After `NoMemory` it is short.
    pub fn take(&mut self, p: P, s: &mut P::Store) -> Result<(), NoMemory>
        requires taking { IsTaking self.old }
        requires legal { IsLegal (P.plain p) }
        requires packet { P.fits p (P.Store.state s.old).family }
        requires family { NodeFits P.fits self.old (P.Store.state s.old).family }
        ensures took { Took P.plain K.state self.old self.new (P.plain p ∷ []) }
        ensures taking { IsTaking self.new }
        ensures sound { OnOk result (IsSound self.old → IsSound self.new) }
        ensures fell { OnErr result (self.new.short ≡ true) }
        ensures placed { IsAsPlaced self.old self.new }
        ensures family { NodeFits P.fits self.new (P.Store.state s.old).family }
        ensures store { Stays (P.Store.state s.old) (P.Store.state s.new) }
    {
        if self.short {
            p.give_up(s);
            return Ok(());
        }
        match self.take_in(p, s) {
            Ok(()) => Ok(()),
            Err(NoMemory) => {
                self.fall(s);
                Err(NoMemory)
            }
        }
    }

    /// The same where memory hasn't run out before. After `NoMemory` its module is one to be given
    /// up.
    fn take_in(&mut self, p: P, s: &mut P::Store) -> Result<(), NoMemory>
        requires sound { IsSound self.old }
        requires legal { IsLegal (P.plain p) }
        requires packet { P.fits p (P.Store.state s.old).family }
        requires family { NodeFits P.fits self.old (P.Store.state s.old).family }
        ensures took { Took P.plain K.state self.old self.new (P.plain p ∷ []) }
        ensures sound { OnOk result (IsSound self.new) }
        ensures goes_on { is_whole self.new.part ≡ false }
        ensures placed { IsAsPlaced self.old self.new }
        ensures family { NodeFits P.fits self.new (P.Store.state s.old).family }
        ensures store { Stays (P.Store.state s.old) (P.Store.state s.new) }
    {
        match &mut self.part {
            Part::Pipe(module) => match module.feed(p, &mut self.out, s) {
                Ok(()) => Ok(()),
                Err(NoMemory) => {
                    self.short = true;
                    Err(NoMemory)
                }
            },
            Part::Sink {
                sink,
                spelling,
                failed,
            } => {
                let written = write_unless_failed(&p, sink, spelling, failed);
                p.give_up(s);
                self.out.add_tally(of_sink());
                self.short = written.is_err();
                written
            }
            Part::Head => match put_out(p, &mut self.out, s) {
                Ok(()) => {
                    self.out.add_tally(of_head());
                    Ok(())
                }
                Err(NoMemory) => {
                    self.short = true;
                    Err(NoMemory)
                }
            },
            Part::Outlet => match put_out(p, &mut self.out, s) {
                Ok(()) => Ok(()),
                Err(NoMemory) => {
                    self.short = true;
                    Err(NoMemory)
                }
            },
            Part::Ended { .. } => unreachable!(),
        }
    }

    /// The whole end of its flow: a pipe puts out what it owes. After `NoMemory` it is short.
    pub fn end(&mut self, s: &mut P::Store) -> Result<(), NoMemory>
        requires family { NodeFits P.fits self.old (P.Store.state s.old).family }
        ensures took { Took P.plain K.state self.old self.new [] }
        ensures done { OnOk result (IsSound self.old → IsDone self.new) }
        ensures still { IsDone self.old → OnOk result (IsDone self.new) }
        ensures fell { OnErr result (self.new.short ≡ true) }
        ensures placed { IsAsPlaced self.old self.new }
        ensures family { NodeFits P.fits self.new (P.Store.state s.old).family }
        ensures store { Stays (P.Store.state s.old) (P.Store.state s.new) }
    {
        if self.short {
            self.break_off(s);
            return Ok(());
        }
        match mem::replace(&mut self.part, Part::Ended { whole: true }) {
            Part::Pipe(module) => match module.finish(&mut self.out, s) {
                Ok(()) => Ok(()),
                Err(NoMemory) => {
                    self.short = true;
                    Err(NoMemory)
                }
            },
            other => {
                give_back(&mut self.part, other);
                Ok(())
            }
        }
    }

    /// The broken end of its flow: its module is given up, and nothing is put out.
    pub fn break_off(&mut self, s: &mut P::Store)
        ensures took { Took P.plain K.state self.old self.new [] }
        ensures ended { is_pipe self.new.part ≡ false }
        ensures whole { is_whole self.new.part ≡ is_whole self.old.part }
        ensures short { self.new.short ≡ self.old.short }
        ensures out { self.new.out ≡ self.old.out }
        ensures placed { IsAsPlaced self.old self.new }
        ensures store { Stays (P.Store.state s.old) (P.Store.state s.new) }
    {
        match mem::replace(&mut self.part, Part::Ended { whole: false }) {
            Part::Pipe(module) => <AnyModule as Module<P>>::give_up(module, s),
            other => give_back(&mut self.part, other),
        }
    }

    /// Memory ran out at it: its module is given up, and what it takes from now on.
    pub fn fall(&mut self, s: &mut P::Store)
        ensures took { Took P.plain K.state self.old self.new [] }
        ensures short { self.new.short ≡ true }
        ensures ended { is_pipe self.new.part ≡ false }
        ensures whole { is_whole self.new.part ≡ is_whole self.old.part }
        ensures out { self.new.out ≡ self.old.out }
        ensures placed { IsAsPlaced self.old self.new }
        ensures store { Stays (P.Store.state s.old) (P.Store.state s.new) }
    {
        self.short = true;
        self.break_off(s);
    }

    /// Gives up what waits at a node at which memory ran out, unless it is left for another strand.
    pub fn empty(&mut self, s: &mut P::Store)
        requires short { self.old.short ≡ true }
        requires family { NodeFits P.fits self.old (P.Store.state s.old).family }
        ensures took { Took P.plain K.state self.old self.new [] }
        ensures empty { is_outlet self.old.part ≡ false → self.new.out.packets ≡ [] }
        ensures kept { is_outlet self.old.part ≡ true → self.new ≡ self.old }
        ensures same { self.new ≡ record self.old { out = self.new.out } }
        ensures family { NodeFits P.fits self.new (P.Store.state s.old).family }
        ensures store { Stays (P.Store.state s.old) (P.Store.state s.new) }
    {
        if self.is_outlet() {
            return;
        }
        give_up_waiting(&mut self.out, s);
    }

    /// Memory ran out: it gives up what it holds, but for what is left for another strand, and what
    /// it takes from now on.
    pub fn abandon(&mut self, s: &mut P::Store)
        requires family { NodeFits P.fits self.old (P.Store.state s.old).family }
        ensures took { Took P.plain K.state self.old self.new [] }
        ensures given_up { HasGivenUp self.old self.new }
        ensures taking { IsTaking self.old → IsTaking self.new }
        ensures placed { IsAsPlaced self.old self.new }
        ensures family { NodeFits P.fits self.new (P.Store.state s.old).family }
        ensures store { Stays (P.Store.state s.old) (P.Store.state s.new) }
    {
        self.fall(s);
        self.empty(s);
    }

    /// Whether it takes what the node at the place puts out.
    pub fn takes_from(&self, place: usize) -> bool
        ensures { result ≡ takes_from self.now.input place }
    {
        self.input == Some(place)
    }

    /// Whether what it puts out is left there for another strand.
    pub fn is_outlet(&self) -> bool
        ensures { result ≡ is_outlet self.now.part }
    {
        match &self.part {
            Part::Outlet => true,
            _ => false,
        }
    }
}

/// Gives up all packets that wait.
pub(crate) fn give_up_waiting<P: LocalPacket>(out: &mut Outbox<P>, s: &mut P::Store)
    requires family { All (λ p. P.fits p (P.Store.state s.old).family) out.old.packets }
    ensures empty { out.new.packets ≡ [] }
    ensures tally { out.new.tally ≡ out.old.tally }
    ensures store { Stays (P.Store.state s.old) (P.Store.state s.new) }
{
    while let Some(p) = out.next() {
        p.give_up(s);
    }
}

/// Writes a packet to a sink that hasn't failed.
fn write_unless_failed<P: LocalPacket, K: Sink>(
    p: &P,
    sink: &mut K,
    spelling: &mut Spelling,
    failed: &mut bool,
) -> Result<(), NoMemory>
    requires legal { IsLegal (P.plain p.now) }
    ensures bytes { (start : SinkState) (before : List ℕ)
        → Receives start (K.state sink.old) (not failed.old) before
        → Receives start (K.state sink.new) (is_ok result && not failed.new)
        (before ++ written_by (form_of spelling.old) (P.plain p.now ∷ [])) }
    ensures form { form_of spelling.new ≡ form_of spelling.old }
    ensures faults { (before : ℕ) → CountsOnce failed.old before (K.state sink.old).faults
        → CountsOnce failed.new before (K.state sink.new).faults }
    ensures stopped { failed.old ≡ true
        → (failed.new ≡ true) × (sink.new ≡ sink.old) × (spelling.new ≡ spelling.old) }
{
    if *failed {
        return Ok(());
    }
    match write_packet(p, sink, spelling) {
        Ok(()) => Ok(()),
        Err(Refusal::Failed) => {
            *failed = true;
            Ok(())
        }
        Err(Refusal::NoMemory) => Err(NoMemory),
    }
}

/// Puts a part back in its place.
pub(crate) fn give_back<K>(place: &mut Part<K>, part: Part<K>)
    requires { has_ended place.old ≡ true }
    ensures { place.new ≡ part }
{
    match mem::replace(place, part) {
        Part::Ended { whole: _ } => {}
        _ => unreachable!(),
    }
}

/// A sink took one packet.
fn of_sink() -> Tally
    ensures { result ≡ record { taken = 1; put = 0; dropped = 0; cut = 0; gained = 0; lost = 0 } }
{
    Tally {
        taken: 1,
        ..Tally::default()
    }
}

/// A source put out one packet.
fn of_head() -> Tally
    ensures { result ≡ record { taken = 0; put = 1; dropped = 0; cut = 0; gained = 0; lost = 0 } }
{
    Tally {
        put: 1,
        ..Tally::default()
    }
}
