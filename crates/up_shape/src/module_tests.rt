ghost use Rattle.std.specs.Prelude.{◌≤◌, All, length, refl};
ghost use Rattle.up_model.specs.Packet.{IsLegal};
ghost use Rattle.up_model.specs.Packetwise.{passes_on};
ghost use Rattle.up_model.specs.declared.kind.Kind.TheVariants as kinds;
ghost use Rattle.up_model.specs.declared.limits.TheConstants.{MAX_PACKET};
ghost use Rattle.up_shape.specs.TrialPackets.{plain_within};

use crate::{
    Command, ControlRefused, LocalPacket, Made, Module, Options, Outbox, PacketStep, Packetwise,
    Reply, TrialPacket, TrialStore, VecPacket, feed_bytes, run_flow,
};
use std::process::Abort;
use up_base::{ItemList, NoMemory};
use up_model::{Tally, Verdict};

/// `idem` by way of a second packet, so that it can run out of memory.
type Copying = Packetwise<CopyStep>;

#[derive(Debug, Drop)]
struct CopyStep;

impl Options for CopyStep {
    ghost kind = { λ _. kinds.Idem };

    fn control(&mut self, _c: Command) -> Result<Reply, ControlRefused> {
        Err(ControlRefused::Unhandled)
    }

    ghost within = { λ _. tt };
}

impl Made<()> for CopyStep {
    ghost first = { λ _. kinds.Idem };

    fn made(_fields: ()) -> CopyStep {
        CopyStep
    }
}

impl<P: LocalPacket> PacketStep<P> for CopyStep {
    ghost step = { λ _. passes_on };

    fn pass(&self, mut p: P, s: &mut P::Store) -> Result<Verdict<P>, NoMemory> {
        match p.dup(s) {
            Ok(packet) => {
                p.give_up(s);
                Ok(Verdict::Passes { packet, cut: 0 })
            }
            Err(NoMemory) => {
                p.give_up(s);
                Err(NoMemory)
            }
        }
    }

    ghost settles = { λ _ _. refl };

    ghost owes_nothing = { λ _ _. refl };
}

/// Whether nothing was fed, asked through the bound.
fn fresh<P: LocalPacket, M: Module<P>>(m: &M) -> bool {
    m.fresh()
}

/// Ends a flow broken, through the bound.
fn give_up<M: Module<TrialPacket>>(m: M, s: &mut TrialStore)
    requires { M.agrees m tt }
{
    m.give_up(s);
}

/// The next packet that was put out has these bytes.
fn assert_next(rt: &impl Abort, out: &mut Outbox<TrialPacket>, wanted: &[u8]) {
    match out.next() {
        Some(packet) => assert_eq!(rt; packet.bytes(), wanted),
        None => assert!(rt; false, "no packet was put out"),
    }
}

/// No packet is left.
fn end(rt: &impl Abort, mut out: Outbox<TrialPacket>) {
    assert!(rt; out.next().is_none());
    out.end();
}

/// The sums of packets that were passed on whole.
fn passed(packets: u64) -> Tally {
    Tally {
        taken: packets,
        put: packets,
        ..Tally::default()
    }
}

#[test]
fn a_feed_that_fails_puts_nothing_out_counts_nothing_and_is_no_fresh_start(rt: HostRuntime) {
    let s = &mut TrialStore::new(rt.alloc(), 1);
    let mut out: Outbox<TrialPacket> = Outbox::new(rt.alloc());
    let mut m = Copying::new();
    assert_eq!(rt; feed_bytes(&mut m, b"ab", &mut out, s), Ok(()));
    assert_eq!(rt; feed_bytes(&mut m, b"cde", &mut out, s), Err(NoMemory));
    assert!(rt; !fresh::<TrialPacket, Copying>(&m));
    assert_eq!(rt; out.tally(), passed(1));
    assert_next(&rt, &mut out, b"ab");
    give_up(m, s);
    end(&rt, out);
}

#[test]
fn a_first_feed_that_fails_is_no_fresh_start(rt: HostRuntime) {
    let s = &mut TrialStore::new(rt.alloc(), 0);
    let mut out: Outbox<TrialPacket> = Outbox::new(rt.alloc());
    let mut m = Copying::new();
    assert!(rt; fresh::<TrialPacket, Copying>(&m));
    assert_eq!(rt; feed_bytes(&mut m, b"ab", &mut out, s), Err(NoMemory));
    assert!(rt; !fresh::<TrialPacket, Copying>(&m));
    assert_eq!(rt; out.tally(), Tally::default());
    give_up(m, s);
    end(&rt, out);
}

/// Adds a packet of these bytes to the flow.
fn push(rt: &impl Abort, flow: &mut ItemList<TrialPacket>, bytes: &[u8], s: &mut TrialStore)
    requires size { length bytes.now ≤ MAX_PACKET }
    requires legal { All (λ p. IsLegal (plain_within p)) flow.old }
    ensures { All (λ p. IsLegal (plain_within p)) flow.new }
{
    let packet = TrialPacket::fresh(bytes, s).expect(rt, "no memory");
    flow.push(packet).expect(rt, "no memory");
}

#[test]
fn a_flow_that_runs_out_of_memory_keeps_what_was_put_out(rt: HostRuntime) {
    let s = &mut TrialStore::new(rt.alloc(), 2);
    let mut flow = ItemList::new(rt.alloc());
    push(&rt, &mut flow, b"ab", s);
    push(&rt, &mut flow, b"", s);
    push(&rt, &mut flow, b"cd", s);
    push(&rt, &mut flow, b"e", s);
    let mut out: Outbox<TrialPacket> = Outbox::new(rt.alloc());
    assert_eq!(rt; run_flow(Copying::new(), flow, &mut out, s), Err(NoMemory));
    assert_eq!(rt; out.tally(), passed(2));
    assert_next(&rt, &mut out, b"ab");
    assert_next(&rt, &mut out, b"");
    end(&rt, out);
}

/// A value that can cross threads.
fn sent<T: Send>(value: T) -> T {
    value
}

#[test]
fn outboxes_lists_and_modules_can_cross_threads(rt: HostRuntime) {
    let out: Outbox<VecPacket> = sent(Outbox::new(rt.alloc()));
    assert_eq!(rt; out.len(), 0);
    out.end();
    let flow: ItemList<VecPacket> = sent(ItemList::new(rt.alloc()));
    assert_eq!(rt; flow.len(), 0);
    let m = sent(Copying::new());
    assert!(rt; fresh::<VecPacket, Copying>(&m));
    give_up(m, &mut TrialStore::new(rt.alloc(), 0));
}
